//! Zoned numbers: a digit in a byte, the sign in the zone of the last.
ghost use Rattle.std.specs.Prelude.{◌≡◌, ◌^◌, ◌<◌, ◌≤◌, length, map, unsigned_abs, IfOk, IfErr, is_err, false};
ghost use Rattle.s3_decimal.specs.Exact.{is_negative};
ghost use Rattle.s3_decimal.specs.Records.{cleaned, has_bad_digit, number_of, zoned_byte, zoned_bytes, zoned_digits, zoned_number};

use crate::digits::{BadDigit, MINUS, Reading};
use crate::number::Dec;
use crate::pairs::{pair_of, write_pair};

/// Reads the digits of at most 15 zoned bytes.
pub fn digits_of(bytes: &[u8]) -> Reading
    requires { length bytes.now ≤ 15 }
    ensures magnitude { result.magnitude ≡ number_of (map cleaned (zoned_digits bytes.now)) }
    ensures bad { result.bad ≡ has_bad_digit (zoned_digits bytes.now) }
    ensures bound { result.magnitude < 10 ^ length bytes.now }
{
    let mut reading = Reading {
        magnitude: 0,
        bad: false,
    };
    for byte in bytes {
        reading.push(byte % 16);
    }
    reading
}

/// Reads a zoned field of 1 to 15 bytes, with a digit in the low four bits of each. The number is negative if the high four bits
/// of the last byte are D. A blank is the digit 0. Refused with `BadDigit` if a digit is above 9.
pub fn zoned_read(bytes: &[u8], decimals: u8) -> Result<Dec, BadDigit>
    requires some { 1 ≤ length bytes.now }
    requires within_longest { length bytes.now ≤ 15 }
    requires few_decimals { decimals ≤ 9 }
    requires decimals_within { decimals ≤ length bytes.now }
    ensures fault { is_err result ≡ has_bad_digit (zoned_digits bytes.now) }
    ensures good { IfOk result (λ n. (n.value ≡ zoned_number bytes.now)
        × (n.digits ≡ length bytes.now) × (n.decimals ≡ decimals)) }
    ensures bad { IfErr result (λ e. (e.number.value ≡ zoned_number bytes.now)
        × (e.number.digits ≡ length bytes.now) × (e.number.decimals ≡ decimals)) }
{
    let negative = bytes[bytes.len() - 1] / 16 == MINUS;
    digits_of(bytes).finish(negative, bytes.len() as u8, decimals)
}

/// The last digit of a number, with its sign.
fn signed_digit(number: Dec) -> u8
    ensures { result ≡ zoned_byte (is_negative number.value) 0 (unsigned_abs number.value) }
{
    let zone = if number.is_negative() { 0xd0 } else { 0xf0 };
    zone + (number.value.unsigned_abs() % 10) as u8
}

/// Writes the digits of a number: the last one alone, for it has the sign, and the others by pairs.
fn write_digits(number: Dec, bytes: &mut [u8])
    requires { length bytes.old ≡ number.digits }
    ensures { bytes.new ≡ zoned_bytes (is_negative number.value) number.digits (unsigned_abs number.value) }
{
    let count = bytes.len();
    bytes[count - 1] = signed_digit(number);
    let mut rest = number.value.unsigned_abs() / 10;
    for pair in 0..(count - 1) / 2 {
        write_pair(bytes, 1 + 2 * pair, pair_of((rest % 100) as u32));
        rest /= 100;
    }
    if count % 2 == 0 {
        bytes[0] = 0xf0 + (rest % 10) as u8;
    }
}

/// Writes a number as a zoned field of as many bytes as it has digits: zones are F, and D in the last byte of a
/// negative number.
pub fn zoned_write(number: Dec, bytes: &mut [u8])
    requires { length bytes.old ≡ number.digits }
    ensures written { bytes.new
        ≡ zoned_bytes (is_negative number.value) number.digits (unsigned_abs number.value) }
    ensures read_back { zoned_number bytes.new ≡ number.value }
    ensures good { has_bad_digit (zoned_digits bytes.new) ≡ false }
{
    write_digits(number, bytes);
}
