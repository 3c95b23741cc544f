//! How jobs, levels and days end.
ghost use Rattle.std.specs.Prelude.{◌≡◌};
ghost use Rattle.s3_day_log.specs.Inner.Endings.{end_of, is_done, verdict_of};

use crate::JobEnd;
use crate::ledger::{BegunJob, Ledger};
use s3_operator::is_at_start;

/// How a level ended.
#[derive(Clone, Copy)]
pub enum LevelEnd {
    /// No job is at work, none is left, and all its lines are printed.
    Done,
    /// Its halt wasn't answered.
    Halted,
    /// It has taken as many turns as it may.
    CutByTurns,
    /// It has printed as many lines as it may.
    CutByLines,
    /// The operator ended the day while its halt waited.
    Stopped,
    /// Its deck can't be read.
    Unread,
}

/// What became of a day.
#[derive(Clone, Copy)]
pub enum Verdict {
    /// Both levels are done, and each job came to its end.
    Clean,
    /// Both levels are done, and a job was passed over or ended by a reply.
    Passed,
    /// A level isn't done.
    Unfinished,
}

/// How a job that is over ended.
pub fn end_of(job: &BegunJob) -> JobEnd
    ensures { result ≡ end_of job.now.ending }
{
    match job.ending {
        None => JobEnd::Ended,
        Some((code, _digit)) if is_at_start(code) => JobEnd::PassedOver,
        Some(_) => JobEnd::Replied,
    }
}

/// What became of a day whose levels ended so, over the jobs that they began.
pub fn became(one: LevelEnd, two: LevelEnd, jobs1: &Ledger, jobs2: &Ledger) -> Verdict
    ensures { result ≡ verdict_of one two jobs1.now.begun.items jobs2.now.begun.items }
{
    if !is_done(one) || !is_done(two) {
        return Verdict::Unfinished;
    }
    if jobs1.has_passed() || jobs2.has_passed() {
        Verdict::Passed
    } else {
        Verdict::Clean
    }
}

fn is_done(end: LevelEnd) -> bool
    ensures { result ≡ is_done end }
{
    matches!(end, LevelEnd::Done)
}
