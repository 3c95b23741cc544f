//! How a day ended.
ghost use Rattle.std.specs.Prelude.{◌≡◌, false, true, is_some, OnOk};
ghost use Rattle.std.specs.Option.{option_and_then};
ghost use Rattle.s3_replay.specs.Inner.Taped.{AreKnown, BeganWith, HasScript};
ghost use Rattle.s3_replay.specs.Inner.Written.{entries_in};

use crate::clock::Clock;
use crate::desk::Desk;
use crate::events::position_left;
use crate::levels::{Levels, push_where as push_halt_place};
use crate::message::Message;
use crate::progress::{push_job_at, push_job_number, push_last_job};
use crate::replies::Sources;
use crate::seat::Seat;
use s3_bureau::LevelLines;
use s3_cards::LevelId;
use s3_day_log::{AnsweredHalt, BegunJob, Event, Ledger, LevelEnd, Purpose, Verdict, became};
use s3_decks::FilePlace;
use s3_desk::{Day, End};
use s3_operator::{is_at_start, meaning};
use s3_replay::Performed;
use std::alloc::AllocError;
use std::io::{Read, Write};

/// A day that is over.
#[derive(Drop)]
pub struct Closing {
    /// What became of it.
    pub verdict: Verdict,
    /// The summary of both levels: their jobs, and how they ended.
    pub summary: String,
    /// How level 1 ended.
    pub one: LevelEnd,
    /// How level 2 ended.
    pub two: LevelEnd,
}

/// How a level ended, and how many lines it has printed.
#[derive(Clone, Copy)]
struct Ended {
    end: LevelEnd,
    lines: usize,
}

impl Ended {
    fn is_done(self) -> bool {
        matches!(self.end, LevelEnd::Done)
    }

    fn is_cut(self) -> bool {
        matches!(self.end, LevelEnd::CutByTurns | LevelEnd::CutByLines)
    }
}

impl<'a, R: Read + Drop, W: Write + Drop, F: Write + Drop, C: Clock + Drop> Desk<'a, R, W, F, C> {
    /// Ends the day: the log is written up to its last line, the summary of both levels is made, and the script is written to its end.
    /// Unless a write of the script has failed, its file then has what it began with, and the script of the entries that were performed.
    pub fn close(&mut self, day: &Day, performed: &Performed) -> Result<Closing, AllocError>
        ensures script { OnOk result (AreKnown F.contents → HasScript (BeganWith F.contents self.old.tape.file self.old.tape.failure self.old.tape.written.items) (option_and_then F.contents self.new.tape.file) (is_some self.new.tape.failure) performed.now) }
        ensures whole { OnOk result (is_some self.new.tape.failure ≡ false → entries_in self.new.tape.written.items ≡ performed.now) }
        ensures kept { is_some self.new.tape.file ≡ is_some self.old.tape.file }
        ensures failed { OnOk result (is_some self.old.tape.failure ≡ true → is_some self.new.tape.failure ≡ true) }
    {
        let closing = self.close_levels(day, performed)?;
        self.tape.finish(self.levels.alloc, performed)?;
        Ok(closing)
    }

    /// Counts all entries, closes both levels, and makes their summary.
    fn close_levels(&mut self, day: &Day, performed: &Performed) -> Result<Closing, AllocError>
        ensures tape { self.new.tape ≡ self.old.tape }
    {
        self.count_all(performed)?;
        self.tell_counted()?;
        let one = self.close_level(LevelId::One, day.ends.one, &day.run.one)?;
        let two = self.close_level(LevelId::Two, day.ends.two, &day.run.two)?;
        self.note_left(LevelId::One, one)?;
        self.note_left(LevelId::Two, two)?;
        self.levels.closing(&self.replies.sources, one, two)
    }

    /// Logs what is left of a level, unless it is done.
    fn note_left(&mut self, level: LevelId, ended: Ended) -> Result<(), AllocError>
        ensures tape { self.new.tape ≡ self.old.tape }
    {
        if ended.is_done() {
            Ok(())
        } else {
            self.log_left(level)
        }
    }

    /// Closes a level, and logs what came of it.
    fn close_level(
        &mut self,
        level: LevelId,
        end: End,
        printed: &LevelLines,
    ) -> Result<Ended, AllocError>
        ensures tape { self.new.tape ≡ self.old.tape }
    {
        let ended = self.levels.close(level, end, printed, self.is_stopped);
        self.log_level(level)?;
        if !ended.is_done() {
            self.levels.find_places(level)?;
        }
        if ended.is_cut() {
            self.note(Event::Cut { level })?;
        }
        Ok(ended)
    }
}

impl<'a> Levels<'a> {
    /// Closes a level's jobs.
    fn close(&mut self, level: LevelId, end: End, printed: &LevelLines, is_stopped: bool) -> Ended {
        let ended = Ended {
            end: self.end_of(level, end, is_stopped),
            lines: self.lines_of(level, end, printed),
        };
        self.seat_mut(level)
            .ledger
            .close(ended.lines, ended.is_done());
        ended
    }

    /// How many lines a level has printed: those that were drained, and of one that was cut also those that were queued.
    fn lines_of(&self, level: LevelId, end: End, printed: &LevelLines) -> usize {
        match end {
            End::Cut => printed.lines.len(),
            End::Done | End::Halted | End::OutOfReplies => {
                usize::try_from(self.tally.of(level).lines).unwrap_or(usize::MAX)
            }
        }
    }

    fn end_of(&self, level: LevelId, end: End, is_stopped: bool) -> LevelEnd {
        let seat = self.seat(level);
        if seat.unread.is_some() {
            return LevelEnd::Unread;
        }
        match end {
            // it had come to its end when it might go no further
            End::Cut if seat.is_idle => LevelEnd::Done,
            End::Done => LevelEnd::Done,
            End::Halted if is_stopped => LevelEnd::Stopped,
            End::Halted | End::OutOfReplies => LevelEnd::Halted,
            End::Cut if self.has_all_turns(level) => LevelEnd::CutByTurns,
            End::Cut => LevelEnd::CutByLines,
        }
    }

    /// The result of a day, given how its levels ended.
    fn closing(
        &self,
        sources: &Sources<'_>,
        one: Ended,
        two: Ended,
    ) -> Result<Closing, AllocError> {
        Ok(Closing {
            verdict: became(one.end, two.end, &self.one.ledger, &self.two.ledger),
            summary: self.summary(sources, one, two).finish()?,
            one: one.end,
            two: two.end,
        })
    }

    /// The summary of both levels.
    fn summary(&self, sources: &Sources<'_>, one: Ended, two: Ended) -> Message {
        let mut message = Message::new(self.alloc);
        push_summary(&mut message, &self.one, one);
        self.push_limit(&mut message, one);
        push_unused(&mut message, sources, LevelId::One);
        push_summary(&mut message, &self.two, two);
        self.push_limit(&mut message, two);
        push_unused(&mut message, sources, LevelId::Two);
        message
    }

    /// Appends the limit that stopped a level, and what to do, if one did.
    fn push_limit(&self, message: &mut Message, ended: Ended) {
        match ended.end {
            LevelEnd::CutByTurns => {
                message.push("  it has taken ");
                message.push_number(u64::from(self.settings.bounds.turns));
                message.push(" turns, the most that --turns allows");
            }
            LevelEnd::CutByLines => {
                message.push("  --lines stops it after ");
                message.push_counted(u64::from(self.settings.bounds.lines), "line");
            }
            _ => return,
        }
        message.push(": if the program isn't in a loop, give a larger number\n");
    }
}

/// Appends how many replies a log has for a level that no halt got, if there are any, and the first of them.
fn push_unused(message: &mut Message, sources: &Sources<'_>, level: LevelId) {
    let Some(log) = sources.logged else {
        return;
    };
    let given = sources.at_level(level).replies;
    if let Some(next) = log.reply(level, given) {
        let left = log.reply_count(level).saturating_sub(given);
        push_unused_from(message, left, *next);
    }
}

/// Appends how many replies of a log no halt got, and the first of them:
/// `  no halt got 12 replies of the log, the first 3 to UR in job 5 at card 178: compare the halts with those of the log`.
fn push_unused_from(message: &mut Message, count: usize, next: AnsweredHalt) {
    message.push("  no halt got ");
    match count {
        1 => message.push("1 reply of the log, "),
        _ => {
            message.push_number(count as u64);
            message.push(" replies of the log, the first ");
        }
    }
    message.push_number(u64::from(next.reply.digit));
    message.push(" to ");
    message.push_letters(next.reply.code);
    if let Some(halt) = next.halt {
        push_halt_place(message, halt);
    }
    message.push(": compare the halts with those of the log\n");
}

/// Appends how a level ended, and its jobs.
fn push_summary(message: &mut Message, seat: &Seat<'_>, ended: Ended) {
    message.push_level(seat.level);
    message.push(": ");
    push_end(message, seat, ended.end);
    if ended.is_done() {
        push_counts(message, seat, ended.lines);
    }
    message.push("\n");
    for (place, job) in seat.ledger.begun().iter().enumerate() {
        push_ending(message, &seat.ledger, place, job, ended.end);
        if seat.is_spoilt(place) {
            message.push(", after it had changed files");
        }
        message.push("\n");
    }
}

/// Appends how many jobs, lines and halts a level had.
fn push_counts(message: &mut Message, seat: &Seat<'_>, lines: usize) {
    message.push(", ");
    message.push_counted(seat.ledger.begun().len() as u64, "job");
    message.push(", ");
    message.push_counted(lines as u64, "line");
    message.push(", ");
    message.push_counted(seat.halts, "halt");
}

fn push_end(message: &mut Message, seat: &Seat<'_>, end: LevelEnd) {
    match end {
        LevelEnd::Done => message.push("done"),
        LevelEnd::Unread => message.push("its deck can't be read"),
        LevelEnd::Halted => push_where(message, seat, "halted"),
        LevelEnd::Stopped => push_where(message, seat, "stopped"),
        LevelEnd::CutByTurns => push_where(message, seat, "cut by --turns"),
        LevelEnd::CutByLines => push_where(message, seat, "cut by --lines"),
    }
}

/// Appends the place of a level that isn't done, and what is left of its deck.
fn push_where(message: &mut Message, seat: &Seat<'_>, how: &str) {
    message.push(how);
    if let Some(code) = seat.waits {
        message.push(" at ");
        message.push_letters(code);
    }
    if seat.ledger.is_open() {
        push_left_with_this(message, &seat.ledger);
    } else {
        push_left(message, seat.ledger.jobs_left() as u64);
    }
    push_first_left(message, seat);
}

/// Appends that the last job to begin and the jobs after it are left.
fn push_left_with_this(message: &mut Message, ledger: &Ledger) {
    message.push(" in ");
    push_last_job(message, ledger);
    match ledger.jobs_left() {
        0 => message.push("; this one is left"),
        left => {
            message.push("; this one and ");
            message.push_number(left as u64);
            message.push(" behind it are left");
        }
    }
}

/// Appends how many jobs are left.
fn push_left(message: &mut Message, left: u64) {
    message.push("; ");
    message.push_counted(left, "job");
    message.push(if left == 1 { " is left" } else { " are left" });
}

/// Appends at which line the first job begins that is left.
fn push_first_left(message: &mut Message, seat: &Seat<'_>) {
    let Some(position) = position_left(seat) else {
        return;
    };
    let line = position.line;
    message.push(": from ");
    match position.file {
        Some(file) => message.push_file_place(FilePlace { file, line }),
        None => {
            message.push("line ");
            message.push_number(line as u64);
            message.push(" of the whole deck");
        }
    }
}

/// Appends a job, and how it ended.
fn push_ending(
    message: &mut Message,
    ledger: &Ledger,
    place: usize,
    job: &BegunJob,
    end: LevelEnd,
) {
    message.push("  ");
    match job.purpose {
        Purpose::Compiles(program) if job.is_over && job.ending.is_none() => {
            push_job_number(message, place);
            message.push("compiled ");
            message.push_name(program);
        }
        Purpose::Runs(_) => {
            push_job_at(message, ledger, place);
            message.push(", ");
            message.push_counted(job.lines, "line");
            push_how(message, job, end);
        }
        Purpose::Compiles(_) | Purpose::Unknown => {
            push_job_at(message, ledger, place);
            push_how(message, job, end);
        }
    }
}

/// Appends how a job ended, after what it was.
fn push_how(message: &mut Message, job: &BegunJob, end: LevelEnd) {
    message.push(", ");
    push_end_of_job(message, job, end);
}

/// Appends how a job ended.
pub(crate) fn push_end_of_job(message: &mut Message, job: &BegunJob, end: LevelEnd) {
    match job.ending {
        Some((code, _digit)) if is_at_start(code) => {
            message.push("passed over: ");
            message.push_letters(code);
            message.push(", ");
            message.push(meaning(code));
        }
        Some((code, digit)) if job.is_over => {
            message.push("ended by reply ");
            message.push_number(u64::from(digit));
            message.push(" at ");
            message.push_letters(code);
        }
        None if job.is_over => message.push("came to its end"),
        // a reply that ends a job leads to its totals, if it can halt again
        Some(_) | None => message.push(words_of(end)),
    }
}

/// How a job that isn't over stopped, by how its level ended.
fn words_of(end: LevelEnd) -> &'static str {
    match end {
        LevelEnd::Halted => "halted",
        LevelEnd::Stopped => "stopped",
        _ => "cut",
    }
}
