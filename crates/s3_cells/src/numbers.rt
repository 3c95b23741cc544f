//! Numbers as people write them: a sign in front, digits, and a point before the decimals.
ghost use Rattle.std.specs.Prelude.{◌≡◌, ◌+◌, ◌*◌, ◌^◌, ◌<◌, ◌≤◌, ◌++◌, ℕ, List, length, map, replicate, min, unsigned_abs, OnOk, IfOk, IfErr, Some, None};
ghost use Rattle.std.specs.Option.{option_map};
ghost use Rattle.std.specs.List.{list_all, before_first, after_first, position_or_len};
ghost use Rattle.s3_decimal.specs.Records.{number_of};
ghost use Rattle.s3_cells.specs.Inner.Marks.{swapped};
ghost use Rattle.s3_cells.specs.Inner.Numbers.{digit_character, digit_value, is_digit, is_point, are_digits as are_digits_spec, number_text, decimals_with, sign_text, fifteen, number_read, significant as significant_spec, has_minus as has_minus_spec, without_sign as without_sign_spec, magnitude_read};
ghost use Rattle.s3_cells.specs.Inner.Refusals.{IsNumberRefusal, IsOfForm};

use crate::fault::CellFault;
use crate::marks::{DecimalMark, mark};
use s3_decimal::{Dec, is_negative, with_sign, zoned_write};
use std::alloc::AllocError;

/// How many digits the longest number has.
const MOST_DIGITS: usize = 15;

/// The first number of more digits than any field has.
const LIMIT: u64 = 1_000_000_000_000_000;

/// Appends a number in units of its last decimal, with so many decimals and this mark before them.
pub fn push_number(
    text: &mut Vec<u8>,
    value: i64,
    decimals: u8,
    decimal: DecimalMark,
) -> Result<(), AllocError>
    requires few { decimals ≤ 9 }
    requires short { unsigned_abs value < 10 ^ 15 }
    ensures { OnOk result (text.new.items ≡ text.old.items ++ map (swapped decimal) (number_text decimals value)) }
{
    push_sign(text, is_negative(value))?;
    let zoned = digits_of(value.unsigned_abs());
    let (whole, fraction) = zoned
        .as_slice()
        .split_at(MOST_DIGITS - usize::from(decimals));
    push_digits(text, significant(whole))?;
    push_decimals(text, fraction, mark(decimal))?;
    Ok(())
}

/// Appends a minus sign to a text if a number is negative.
fn push_sign(text: &mut Vec<u8>, negative: bool) -> Result<(), AllocError>
    ensures { OnOk result (text.new.items ≡ text.old.items ++ sign_text negative) }
{
    if negative {
        text.push(b'-')?;
    }
    Ok(())
}

/// The digits of a magnitude, a zoned byte each.
#[tactic(auto, unfolding(crate::specs::Inner::Numbers::fifteen))]
fn digits_of(magnitude: u64) -> [u8; 15]
    requires { magnitude < 10 ^ 15 }
    ensures { result ≡ fifteen magnitude }
{
    let mut zoned = [0; MOST_DIGITS];
    zoned_write(
        Dec {
            value: magnitude as i64,
            digits: 15,
            decimals: 0,
        },
        &mut zoned,
    );
    zoned
}

/// Digits without leading zeros; the last digit stays.
#[tactic(auto, using(crate::proofs::NumberLemmas::zero_dropped, crate::proofs::NumberLemmas::last_digit, crate::proofs::NumberLemmas::first_digit, crate::proofs::NumberLemmas::no_digit))]
fn significant(zoned: &[u8]) -> &[u8]
    ensures { result.now ≡ significant_spec zoned.now }
{
    match zoned.split_first() {
        Some((first, rest)) if *first == 0xf0 && !rest.is_empty() => significant(rest),
        _ => zoned,
    }
}

/// Appends the characters of zoned digits.
fn push_digits(text: &mut Vec<u8>, zoned: &[u8]) -> Result<(), AllocError>
    ensures { OnOk result (text.new.items ≡ text.old.items ++ map digit_character zoned.now) }
{
    for byte in zoned {
        text.push(b'0' + byte % 16)?;
    }
    Ok(())
}

/// Appends a mark and the decimals after it, if there are any.
fn push_decimals(text: &mut Vec<u8>, zoned: &[u8], mark: u8) -> Result<(), AllocError>
    ensures { OnOk result (text.new.items ≡ text.old.items ++ decimals_with mark zoned.now) }
{
    if zoned.is_empty() {
        return Ok(());
    }
    text.push(mark)?;
    push_digits(text, zoned)
}

/// The number that a text spells, in units of the last of so many decimals, if it has at most so many digits.
pub fn read_number(text: &[u8], digits: u8, decimals: u8) -> Result<i64, CellFault>
    requires { digits ≤ 15 }
    ensures ok { IfOk result (λ value. number_read decimals text.now ≡ Some value) }
    ensures fits { IfOk result (λ value. unsigned_abs value < 10 ^ digits) }
    ensures err { IfErr result (λ fault. IsNumberRefusal digits (number_read decimals text.now) fault) }
{
    let magnitude = read_magnitude(without_sign(text), decimals)?;
    if magnitude >= limit_of(digits) {
        return Err(CellFault::TooLarge);
    }
    Ok(with_sign(has_minus(text), magnitude))
}

/// Whether a text begins with a minus sign.
fn has_minus(text: &[u8]) -> bool
    ensures { result ≡ has_minus_spec text.now }
{
    match text.first() {
        Some(first) => *first == b'-',
        None => false,
    }
}

/// A text without the sign in front.
pub fn without_sign(text: &[u8]) -> &[u8]
    ensures { result.now ≡ without_sign_spec text.now }
{
    match text.split_first() {
        Some((first, rest)) if *first == b'-' || *first == b'+' => rest,
        _ => text,
    }
}

/// The magnitude that digits with a point say, in units of the last of so many decimals; one of more than 15 digits is the
/// first such number.
fn read_magnitude(text: &[u8], decimals: u8) -> Result<u64, CellFault>
    ensures ok { IfOk result (λ magnitude. option_map (λ n. min n (10 ^ 15)) (magnitude_read decimals text.now) ≡ Some magnitude) }
    ensures err { IfErr result (λ fault. magnitude_read decimals text.now ≡ None) }
    ensures form { IfErr result IsOfForm }
{
    let (whole, fraction) = parts_of(text);
    if !are_digits(whole, fraction) {
        return Err(CellFault::NoNumber);
    }
    if fraction.len() > usize::from(decimals) {
        return Err(CellFault::TooManyDecimals);
    }
    let magnitude = with_digits(with_digits(0, whole), fraction);
    Ok(with_zeros(magnitude, usize::from(decimals) - fraction.len()))
}

/// The digits before the first point, and those after it.
#[tactic(auto, using(crate::proofs::NumberLemmas::whole_before, crate::proofs::NumberLemmas::decimals_behind, crate::proofs::NumberLemmas::no_point, crate::proofs::NumberLemmas::no_decimals))]
pub fn parts_of(text: &[u8]) -> (&[u8], &[u8])
    ensures whole { result.0.now ≡ before_first is_point text.now }
    ensures fraction { result.1.now ≡ after_first is_point text.now }
{
    let point = point_in(text);
    if point < text.len() {
        (&text[..point], &text[point + 1..])
    } else {
        (text, &[])
    }
}

/// The place of the first point, or the length of a text without one.
fn point_in(text: &[u8]) -> usize
    ensures value { result ≡ position_or_len is_point text.now }
    ensures within { result ≤ length text.now }
{
    for (place, byte) in text.iter().enumerate() {
        if *byte == b'.' {
            return place;
        }
    }
    text.len()
}

/// Whether these are digits, at least one.
fn are_digits(whole: &[u8], fraction: &[u8]) -> bool
    ensures { result ≡ are_digits_spec whole.now fraction.now }
{
    let some = !whole.is_empty() || !fraction.is_empty();
    some && all_digits(whole) && all_digits(fraction)
}

/// Whether each of these characters is a digit.
pub fn all_digits(text: &[u8]) -> bool
    ensures { result ≡ list_all is_digit text.now }
{
    text.iter().all(|byte| b'0' <= *byte && *byte <= b'9')
}

/// A magnitude with one digit more; one of more than 15 digits stays.
fn with_digit(magnitude: u64, digit: u8) -> u64
    requires few { magnitude ≤ 10 ^ 15 }
    requires digit { digit < 16 }
    ensures { result ≡ min (magnitude * 10 + digit) (10 ^ 15) }
{
    (magnitude * 10 + u64::from(digit)).min(LIMIT)
}

/// A magnitude with these digits after its own.
fn with_digits(magnitude: u64, digits: &[u8]) -> u64
    requires { magnitude ≤ 10 ^ 15 }
    ensures value { (before : List ℕ) → magnitude ≡ min (number_of before) (10 ^ 15) → result ≡ min (number_of (before ++ map digit_value digits.now)) (10 ^ 15) }
    ensures few { result ≤ 10 ^ 15 }
{
    let mut whole = magnitude;
    for digit in digits {
        whole = with_digit(whole, digit % 16);
    }
    whole
}

/// A magnitude with so many zeros after its digits.
fn with_zeros(magnitude: u64, count: usize) -> u64
    requires { magnitude ≤ 10 ^ 15 }
    ensures value { (before : List ℕ) → magnitude ≡ min (number_of before) (10 ^ 15) → result ≡ min (number_of (before ++ replicate count 0)) (10 ^ 15) }
    ensures few { result ≤ 10 ^ 15 }
{
    let mut whole = magnitude;
    for _zero in 0..count {
        whole = with_digit(whole, 0);
    }
    whole
}

/// The first number of more digits than so many, at most 15.
fn limit_of(digits: u8) -> u64
    requires { digits ≤ 15 }
    ensures { result ≡ 10 ^ digits }
{
    10u64.pow(u32::from(digits))
}
