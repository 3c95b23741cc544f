//! What match and control fields compare: characters by their bytes, numbers by their digits without sign.

ghost use Rattle.std.specs.Prelude.{◌≡◌, ◌-◌, ◌+◌, ◌≤◌, ◌++◌, length, slice_range, nat_eq};
ghost use Rattle.std.specs.Cmp.Lexicographic.{pointwise};
ghost use Rattle.s3_decimal.specs.Records.{halves, zoned_digits, packed_digits};
ghost use Rattle.s3_meaning.specs.Selection as meaning;

use crate::key_bytes::{KEY_BYTES, KeyBytes};
use crate::levels::LevelField;
use s3_lines::sheet::FieldForm;
use std::cmp::min;

/// The bytes of a record that a field lies in.
pub fn field_bytes<'a>(field: &LevelField, bytes: &'a [u8]) -> &'a [u8]
    ensures { result.now ≡ slice_range bytes.now (field.now.from - 1) field.now.to }
{
    let end = min(field.to as usize, bytes.len());
    let begin = min(field.from.saturating_sub(1) as usize, end);
    &bytes[begin..end]
}

fn push_zoned(compared: &mut KeyBytes, bytes: &[u8])
    requires { length compared.old + length bytes.now ≤ KEY_BYTES }
    ensures { compared.new ≡ compared.old ++ zoned_digits bytes.now }
{
    for byte in bytes {
        compared.push(byte % 16);
    }
}

fn push_halves(compared: &mut KeyBytes, bytes: &[u8])
    requires { length compared.old + length (halves bytes.now) ≤ KEY_BYTES }
    ensures { compared.new ≡ compared.old ++ halves bytes.now }
{
    for byte in bytes {
        compared.push(byte / 16);
        compared.push(byte % 16);
    }
}

/// The last byte of a packed number has a digit and the sign.
fn push_packed(compared: &mut KeyBytes, bytes: &[u8])
    requires { length compared.old + length (packed_digits bytes.now) ≤ KEY_BYTES }
    ensures { compared.new ≡ compared.old ++ packed_digits bytes.now }
{
    let front = bytes.len().saturating_sub(1);
    let last = if front < bytes.len() { bytes[front] } else { 0 };
    push_halves(compared, &bytes[..front]);
    compared.push(last / 16);
}

fn push_characters(compared: &mut KeyBytes, bytes: &[u8])
    requires { length compared.old + length bytes.now ≤ KEY_BYTES }
    ensures { compared.new ≡ compared.old ++ bytes.now }
{
    compared.extend(bytes);
}

/// Puts the bytes that a field of this form compares after those of the other fields.
pub fn push_compared(compared: &mut KeyBytes, form: FieldForm, bytes: &[u8])
    requires { length compared.old + length (meaning.compared form bytes.now) ≤ KEY_BYTES }
    ensures { compared.new ≡ compared.old ++ meaning.compared form bytes.now }
{
    match form {
        FieldForm::Alphanumeric | FieldForm::PackedText => push_characters(compared, bytes),
        FieldForm::Zoned(_) => push_zoned(compared, bytes),
        FieldForm::Packed(_) => push_packed(compared, bytes),
    }
}

/// Whether the bytes of a zoned number have these digits.
pub fn are_zoned_digits(bytes: &[u8], digits: &[u8]) -> bool
    ensures { result ≡ pointwise nat_eq (zoned_digits bytes.now) digits.now }
{
    if bytes.len() != digits.len() {
        return false;
    }
    for place in 0..bytes.len() {
        if bytes[place] % 16 != digits[place] {
            return false;
        }
    }
    true
}

/// Whether the bytes of a key are lower than those of another.
pub fn is_below(left: &[u8], right: &[u8]) -> bool
    ensures { result ≡ meaning.is_below left.now right.now }
{
    for place in 0..left.len() {
        if place >= right.len() {
            return false;
        }
        if left[place] != right[place] {
            return left[place] < right[place];
        }
    }
    left.len() < right.len()
}
