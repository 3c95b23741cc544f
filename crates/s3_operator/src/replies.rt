//! Which replies a halt allows.
ghost use Rattle.std.specs.Prelude.{◌≡◌};
ghost use Rattle.s3_operator.specs.Replies.{is_allowed};

use crate::halt_code::HaltCode;
use crate::halt_kind::HaltKind;
use crate::halt_table::row;

/// Whether a halt allows a reply, a digit of 0 to 9. Reply 0 continues the job, 2 ends it after the totals of the last record,
/// and 3 ends it at once. After a full file and a load out of order, the job can't continue. A job that can't be started is
/// passed over by 2 and 3.
pub fn allowed(code: HaltCode, digit: u8) -> bool
    ensures { result ≡ is_allowed code digit }
{
    match digit {
        0 => matches!(row(code).kind, HaltKind::GoesOn),
        2 | 3 => true,
        _ => false,
    }
}
