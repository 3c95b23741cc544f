//! What the definitions of a log say of themselves.
ghost use Rattle.s3_day_log.specs.Inner.Logged.{ReadsBack};
ghost use Rattle.s3_day_log.specs.Inner.Times.{LogReadsBack};

/// The lines that are written of events are read as these events, also if a further line was begun. Each event must have a time that the
/// library for times reads, and a halt that a level can show.
pub fn a_log_reads_back()
    ensures { ReadsBack }
{}

/// The lines that `line_at` gives of events are read as these events, and each line's time as that of its event.
pub fn times_read_back()
    ensures { LogReadsBack }
{}
