//! Times as the log has them.
ghost use Rattle.std.specs.Prelude.{◌≡◌, pos, IfOk};
ghost use Rattle.std.specs.String.{string_bytes};
ghost use Rattle.s3_day_log.specs.Inner.Times.{IsTimeAt, instant_at, shown_second};

use jiff::Timestamp;
use jiff::fmt::temporal::DateTimePrinter;
use std::alloc::{AllocError, Global};

/// The last second since 1970 for which `jiff` has a date.
const LAST_SECOND: u64 = 253_402_207_200;

/// A second since 1970, or the first one of 1970 for one that has no date.
fn second_of(seconds: u64) -> i64
    ensures { result ≡ pos (shown_second seconds) }
{
    if seconds <= LAST_SECOND {
        seconds as i64
    } else {
        0
    }
}

/// The time that is shown for a second.
fn time_of(seconds: u64) -> Timestamp
    ensures { result.nanosecond ≡ instant_at seconds }
{
    match Timestamp::from_second(second_of(seconds)) {
        Ok(time) => time,
        Err(_) => Timestamp::UNIX_EPOCH,
    }
}

/// A time in UTC as `2026-01-31T08:00:00Z`, from the seconds since 1970. A time that no calendar has is shown as the time of the
/// first second of 1970.
pub fn utc_text(alloc: Global, seconds: u64) -> Result<String, AllocError>
    ensures { IfOk result (λ text. IsTimeAt seconds (string_bytes text)) }
{
    let mut text = String::new(alloc);
    let written = DateTimePrinter::new().timestamp_text(time_of(seconds).to_plain());
    text.push_str(written.as_str())?;
    Ok(text)
}
