//! The exit status of a day that came to its end.
ghost use Rattle.std.specs.Prelude.{◌≡◌};
ghost use Rattle.s3_operate.specs.Inner.Statuses.{status_of as status_of_spec};

use s3_operating::{PackEnd, Verdict};
use s3_paper_commands::status::{DONE, PASSED_OVER, PERSON_NEEDED};

/// The exit status of a day, given what became of it and of its pack.
pub fn status_of(verdict: Verdict, end: PackEnd) -> u8
    ensures { result ≡ status_of_spec verdict end }
{
    match (end, verdict) {
        (PackEnd::AnsweredNo | PackEnd::LoggedNo | PackEnd::Unheard, _) => PERSON_NEEDED,
        (_, Verdict::Clean) => DONE,
        (_, Verdict::Passed) => PASSED_OVER,
        (_, Verdict::Unfinished) => PERSON_NEEDED,
    }
}
