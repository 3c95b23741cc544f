//! Moves into numbers: digits over digits, from the right.
ghost use Rattle.std.specs.Prelude.{◌≡◌, ◌+◌, ◌*◌, ◌/◌, ◌^◌, ◌<◌, ◌≤◌, length, unsigned_abs};
ghost use Rattle.s3_decimal.specs.Exact.{is_negative, signed};
ghost use Rattle.s3_decimal.specs.Records.{moved_number, zoned_bytes};

use crate::digits::MINUS;
use crate::number::Dec;
use crate::scale::{short_power_of_ten, with_sign};
use crate::zoned::digits_of;

/// `target` with its `places` low digits replaced, and with this sign.
fn replaced(target: Dec, places: u8, negative: bool, low: u64) -> Dec
    requires within { places ≤ target.digits }
    requires low { low < 10 ^ places }
    ensures value { result.value
        ≡ signed negative (unsigned_abs target.value / 10 ^ places * 10 ^ places + low) }
    ensures digits { result.digits ≡ target.digits }
    ensures decimals { result.decimals ≡ target.decimals }
{
    let unit = short_power_of_ten(places);
    let high = target.value.unsigned_abs() / unit * unit;
    Dec {
        value: with_sign(negative, high + low),
        digits: target.digits,
        decimals: target.decimals,
    }
}

/// MOVE of a number: its digits replace the digits of `target` from the right, and its sign replaces the sign, as its zoned bytes
/// would. The other digits of `target` stay. Decimals don't matter.
pub fn move_to(source: Dec, target: Dec) -> Dec
    ensures value { result.value
        ≡ moved_number (zoned_bytes (is_negative source.value) source.digits (unsigned_abs source.value))
        target.digits target.value }
    ensures digits { result.digits ≡ target.digits }
    ensures decimals { result.decimals ≡ target.decimals }
{
    let places = source.digits.min(target.digits);
    let low = source.value.unsigned_abs() % short_power_of_ten(places);
    replaced(target, places, source.is_negative(), low)
}

/// MOVE of a text: the digits of its bytes replace the digits of `target` from the right, with 0 for a digit above 9, and the
/// sign of the last byte replaces the sign. The other digits of `target` stay.
pub fn move_bytes(source: &[u8], target: Dec) -> Dec
    requires { 1 ≤ length source.now }
    ensures value { result.value ≡ moved_number source.now target.digits target.value }
    ensures digits { result.digits ≡ target.digits }
    ensures decimals { result.decimals ≡ target.decimals }
{
    let places = source.len().min(usize::from(target.digits));
    let reading = digits_of(&source[source.len() - places..]);
    let negative = source[source.len() - 1] / 16 == MINUS;
    replaced(target, places as u8, negative, reading.magnitude)
}
