//! What halts and replies mean, in words, and which halts are of a job that couldn't be started. The texts are tested, not
//! proved.
ghost use Rattle.std.specs.Prelude.{◌≡◌};
ghost use Rattle.s3_operator.specs.Inner.Starts.{is_at_start};

use crate::halt_code::HaltCode;
use crate::halt_kind::HaltKind;
use crate::halt_table::row;
use crate::replies::allowed;

/// What a halt means, as it is shown after its letters.
pub fn meaning(code: HaltCode) -> &'static str {
    row(code).meaning
}

/// Whether a halt is of a job that couldn't be started: replies 2 and 3 pass the job over.
pub fn is_at_start(code: HaltCode) -> bool
    ensures { result ≡ is_at_start code }
{
    matches!(row(code).kind, HaltKind::NotStarted)
}

/// The replies that a halt allows, as a prompt names them.
pub fn choices(code: HaltCode) -> &'static str {
    if allowed(code, 0) {
        "0, 2 or 3"
    } else {
        "2 or 3"
    }
}

/// What a reply does to the job that halts; `None` if the halt doesn't allow it. docs/MESSAGES.md has each reply at length.
pub fn effect(code: HaltCode, digit: u8) -> Option<&'static str> {
    match digit {
        0 => row(code).reply_0,
        2 | 3 if is_at_start(code) => Some("passes the job over; the next one begins"),
        2 => Some("ends the job, after the totals of the last record unless LR is on"),
        3 => Some("ends the job at once; what it has put into files stays"),
        _ => None,
    }
}
