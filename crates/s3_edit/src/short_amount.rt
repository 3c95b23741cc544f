//! Short amounts: numbers other than 0, of up to 32 bits and six decimals, as most are. They are written over blanks, two digits
//! at a time.
ghost use Rattle.std.specs.Prelude.{◌≡◌, ◌≢◌, ℕ, ◌+◌, ◌-◌, ◌*◌, ◌/◌, ◌%◌, ◌^◌, ◌<◌, ◌≤◌, ◌&&◌, nat_lt, true, Some, IfSome, length, slice_index, unsigned_abs};
ghost use Rattle.s3_cards.specs.declared.ebcdic.TheConstants.{BLANK, PERIOD};
ghost use Rattle.s3_decimal.specs.Records.{digit_at};
ghost use Rattle.s3_edit.specs.declared.code.EditCode.TheVariants.{Edited};
ghost use Rattle.s3_edit.specs.Inner.Passes.{whole_at};
ghost use Rattle.s3_edit.specs.Picture.{amount_at, character_of, digit_character, digits_right, is_shown, place_kind, point_width, suppressed_at, whole_digits, width_of};

use crate::amount::edit_sign;
use crate::code::{Amount, sign_width};
use s3_cards::ebcdic::{BLANK, COMMA, DIGIT_0, PERIOD};
use s3_decimal::{Form, pair_of};

/// Makes a text blank that is as long as some blanks, or up to twice as long: they are laid at both of its ends.
fn blank_ends(blanks: &[u8], text: &mut [u8])
    requires blanks { (i : ℕ) → i < length blanks.now → slice_index blanks.now i ≡ BLANK }
    requires reaches { length blanks.now ≤ length text.old }
    requires covers { length text.old ≤ 2 * length blanks.now }
    ensures { (i : ℕ) → i < length text.old → slice_index text.new i ≡ BLANK }
{
    let last = text.len() - blanks.len();
    text[..blanks.len()].copy_from_slice(blanks);
    text[last..].copy_from_slice(blanks);
}

/// Makes a text blank that has fewer than eight positions.
fn blank_short(text: &mut [u8])
    requires some { 1 ≤ length text.old }
    requires few { length text.old < 8 }
    ensures { (i : ℕ) → i < length text.old → slice_index text.new i ≡ BLANK }
{
    let width = text.len();
    if width >= 4 {
        blank_ends(&[BLANK; 4], text);
    } else if width >= 2 {
        blank_ends(&[BLANK; 2], text);
    } else {
        text[0] = BLANK;
    }
}

/// Makes a text blank that is as long as amounts are.
fn blank(text: &mut [u8])
    requires some { 1 ≤ length text.old }
    requires few { length text.old ≤ 32 }
    ensures { (i : ℕ) → i < length text.old → slice_index text.new i ≡ BLANK }
{
    let width = text.len();
    if width < 8 {
        blank_short(text);
    } else if width <= 16 {
        blank_ends(&[BLANK; 8], text);
    } else {
        blank_ends(&[BLANK; 16], text);
    }
}

/// Writes the last digit of a number before `end`, and gives what is left of the number.
fn put_digit(number: u32, end: usize, text: &mut [u8]) -> u32
    requires begins { 1 ≤ end }
    requires ends { end ≤ length text.old }
    ensures left { result ≡ number / 10 ^ 1 }
    ensures digits { (place : ℕ) → place < 1 → slice_index text.new (end - 1 - place)
        ≡ digit_character (digit_at place number) }
    ensures before { (i : ℕ) → i < end - 1 → slice_index text.new i ≡ slice_index text.old i }
    ensures rest { (i : ℕ) → end ≤ i → slice_index text.new i ≡ slice_index text.old i }
{
    text[end - 1] = DIGIT_0 + (number % 10) as u8;
    number / 10
}

/// Writes the last two digits of a number up to `end`, and gives what is left of the number.
fn put_pair(number: u32, end: usize, text: &mut [u8]) -> u32
    requires begins { 2 ≤ end }
    requires ends { end ≤ length text.old }
    ensures left { result ≡ number / 10 ^ 2 }
    ensures digits { (place : ℕ) → place < 2 → slice_index text.new (end - 1 - place)
        ≡ digit_character (digit_at place number) }
    ensures before { (i : ℕ) → i < end - 2 → slice_index text.new i ≡ slice_index text.old i }
    ensures rest { (i : ℕ) → end ≤ i → slice_index text.new i ≡ slice_index text.old i }
{
    let pair = pair_of(number % 100);
    text[end - 2] = pair[0];
    text[end - 1] = pair[1];
    number / 100
}

/// The hundreds of a number below 1,000, for which 41 of 4,096 are near enough to a hundredth.
fn hundreds_of(number: u32) -> u32
    requires { number < 1000 }
    ensures { result ≡ number / 100 }
{
    number * 41 / 4096
}

/// Writes the last three digits of a number up to `end`, and gives what is left of the number.
fn put_three(number: u32, end: usize, text: &mut [u8]) -> u32
    requires begins { 3 ≤ end }
    requires ends { end ≤ length text.old }
    ensures left { result ≡ number / 10 ^ 3 }
    ensures digits { (place : ℕ) → place < 3 → slice_index text.new (end - 1 - place)
        ≡ digit_character (digit_at place number) }
    ensures before { (i : ℕ) → i < end - 3 → slice_index text.new i ≡ slice_index text.old i }
    ensures rest { (i : ℕ) → end ≤ i → slice_index text.new i ≡ slice_index text.old i }
{
    let rest = number / 1000;
    let three = number - 1000 * rest;
    let hundreds = hundreds_of(three);
    let pair = pair_of(three - 100 * hundreds);
    text[end - 3] = DIGIT_0 + hundreds as u8;
    text[end - 2] = pair[0];
    text[end - 1] = pair[1];
    rest
}

/// Writes up to three decimals up to `end`, and gives the whole part.
fn put_few_decimals(number: u32, count: usize, end: usize, text: &mut [u8]) -> u32
    requires few { count ≤ 3 }
    requires begins { count ≤ end }
    requires ends { end ≤ length text.old }
    ensures left { result ≡ number / 10 ^ count }
    ensures digits { (place : ℕ) → place < count → slice_index text.new (end - 1 - place)
        ≡ digit_character (digit_at place number) }
    ensures before { (i : ℕ) → i < end - count → slice_index text.new i ≡ slice_index text.old i }
    ensures rest { (i : ℕ) → end ≤ i → slice_index text.new i ≡ slice_index text.old i }
{
    match count {
        0 => number,
        1 => put_digit(number, end, text),
        2 => put_pair(number, end, text),
        _ => put_three(number, end, text),
    }
}

/// Writes more than three decimals up to `end`, and gives the whole part.
fn put_more_decimals(number: u32, count: usize, end: usize, text: &mut [u8]) -> u32
    requires more { 3 < count }
    requires few { count ≤ 6 }
    requires begins { count ≤ end }
    requires ends { end ≤ length text.old }
    ensures left { result ≡ number / 10 ^ count }
    ensures digits { (place : ℕ) → place < count → slice_index text.new (end - 1 - place)
        ≡ digit_character (digit_at place number) }
    ensures before { (i : ℕ) → i < end - count → slice_index text.new i ≡ slice_index text.old i }
    ensures rest { (i : ℕ) → end ≤ i → slice_index text.new i ≡ slice_index text.old i }
{
    let rest = put_three(number, end, text);
    put_few_decimals(rest, count - 3, end - 3, text)
}

/// Writes up to six decimals up to `end`, and gives the whole part.
fn put_decimals(number: u32, count: usize, end: usize, text: &mut [u8]) -> u32
    requires few { count ≤ 6 }
    requires begins { count ≤ end }
    requires ends { end ≤ length text.old }
    ensures left { result ≡ number / 10 ^ count }
    ensures digits { (place : ℕ) → place < count → slice_index text.new (end - 1 - place)
        ≡ digit_character (digit_at place number) }
    ensures before { (i : ℕ) → i < end - count → slice_index text.new i ≡ slice_index text.old i }
    ensures rest { (i : ℕ) → end ≤ i → slice_index text.new i ≡ slice_index text.old i }
{
    if count <= 3 {
        put_few_decimals(number, count, end, text)
    } else {
        put_more_decimals(number, count, end, text)
    }
}

/// Writes the point before the decimals, and answers the place at which the whole part ends.
fn put_point(decimals: usize, end: usize, text: &mut [u8]) -> usize
    requires begins { point_width decimals ≤ end }
    requires ends { end ≤ length text.old }
    ensures end { result ≡ end - point_width decimals }
    ensures point { decimals ≢ 0 → slice_index text.new (end - 1) ≡ PERIOD }
    ensures before { (i : ℕ) → i < end - point_width decimals → slice_index text.new i ≡ slice_index text.old i }
    ensures rest { (i : ℕ) → end ≤ i → slice_index text.new i ≡ slice_index text.old i }
{
    if decimals == 0 {
        return end;
    }
    text[end - 1] = PERIOD;
    end - 1
}

/// Writes the digits of a number below 1,000 over blanks, up to `end`; none of a 0.
fn put_few(number: u32, end: usize, text: &mut [u8])
    requires few { number < 1000 }
    requires ends { end ≤ length text.old }
    requires fits { number < 10 ^ end }
    requires blanks { (i : ℕ) → i < end → slice_index text.old i ≡ BLANK }
    ensures picture { (place : ℕ) → place < end → slice_index text.new (end - 1 - place)
        ≡ suppressed_at number place }
    ensures rest { (i : ℕ) → end ≤ i → slice_index text.new i ≡ slice_index text.old i }
{
    if number > 99 {
        put_three(number, end, text);
    } else if number > 9 {
        put_pair(number, end, text);
    } else if number > 0 {
        text[end - 1] = DIGIT_0 + number as u8;
    }
}

/// Writes the digits of a number over blanks, up to `end`; none of a 0. Few amounts have more than three of them without a comma.
#[inline(never)]
fn put_many(number: u32, end: usize, text: &mut [u8])
    requires ends { end ≤ length text.old }
    requires fits { number < 10 ^ end }
    requires blanks { (i : ℕ) → i < end → slice_index text.old i ≡ BLANK }
    ensures picture { (place : ℕ) → place < end → slice_index text.new (end - 1 - place)
        ≡ suppressed_at number place }
    ensures rest { (i : ℕ) → end ≤ i → slice_index text.new i ≡ slice_index text.old i }
{
    let mut rest = number;
    let mut place = 0;
    'pairs: while rest > 99 {
        rest = put_pair(rest, end - place, text);
        place += 2;
    }
    if rest > 9 {
        put_pair(rest, end - place, text);
    } else if rest > 0 {
        text[end - 1 - place] = DIGIT_0 + rest as u8;
    }
}

/// Writes the digits of a number over blanks, up to `end`; none of a 0.
fn put_suppressed(number: u32, end: usize, text: &mut [u8])
    requires ends { end ≤ length text.old }
    requires fits { number < 10 ^ end }
    requires blanks { (i : ℕ) → i < end → slice_index text.old i ≡ BLANK }
    ensures picture { (place : ℕ) → place < end → slice_index text.new (end - 1 - place)
        ≡ suppressed_at number place }
    ensures rest { (i : ℕ) → end ≤ i → slice_index text.new i ≡ slice_index text.old i }
{
    if number < 1000 {
        put_few(number, end, text);
    } else {
        put_many(number, end, text);
    }
}

/// Whether a comma comes before the last three digits of a whole part.
fn has_comma(commas: bool, number: u32) -> bool
    ensures { result ≡ (commas && nat_lt 999 number) }
{
    commas && number > 999
}

/// Writes a whole part over blanks, up to `end`: three digits and a comma while more digits are left, then the first ones. Few
/// amounts have more than one comma.
#[inline(never)]
fn put_threes(number: u32, commas: bool, end: usize, text: &mut [u8])
    requires ends { end ≤ length text.old }
    requires fits { number < 10 ^ whole_digits commas end }
    requires blanks { (i : ℕ) → i < end → slice_index text.old i ≡ BLANK }
    ensures picture { (place : ℕ) → place < end → slice_index text.new (end - 1 - place)
        ≡ whole_at commas number place }
    ensures rest { (i : ℕ) → end ≤ i → slice_index text.new i ≡ slice_index text.old i }
{
    let mut rest = number;
    let mut place = 0;
    'threes: while has_comma(commas, rest) {
        rest = put_three(rest, end - place, text);
        text[end - 4 - place] = COMMA;
        place += 4;
    }
    put_suppressed(rest, end - place, text);
}

/// Writes a whole part of more than three digits, with commas, over blanks, up to `end`.
fn put_parted(number: u32, end: usize, text: &mut [u8])
    requires many { 999 < number }
    requires ends { end ≤ length text.old }
    requires fits { number < 10 ^ whole_digits true end }
    requires blanks { (i : ℕ) → i < end → slice_index text.old i ≡ BLANK }
    ensures picture { (place : ℕ) → place < end → slice_index text.new (end - 1 - place)
        ≡ whole_at true number place }
    ensures rest { (i : ℕ) → end ≤ i → slice_index text.new i ≡ slice_index text.old i }
{
    let rest = put_three(number, end, text);
    text[end - 4] = COMMA;
    if rest < 1000 {
        put_few(rest, end - 4, text);
    } else {
        put_threes(rest, true, end - 4, text);
    }
}

/// Writes a whole part over blanks, up to `end`.
fn put_whole(number: u32, commas: bool, end: usize, text: &mut [u8])
    requires ends { end ≤ length text.old }
    requires fits { number < 10 ^ whole_digits commas end }
    requires blanks { (i : ℕ) → i < end → slice_index text.old i ≡ BLANK }
    ensures picture { (place : ℕ) → place < end → slice_index text.new (end - 1 - place)
        ≡ whole_at commas number place }
    ensures rest { (i : ℕ) → end ≤ i → slice_index text.new i ≡ slice_index text.old i }
{
    if number < 1000 {
        put_few(number, end, text);
    } else if commas {
        put_parted(number, end, text);
    } else {
        put_many(number, end, text);
    }
}

/// Writes a number without its sign over blanks.
fn put_body(magnitude: u32, decimals: usize, commas: bool, width: usize, text: &mut [u8])
    requires some { magnitude ≢ 0 }
    requires few { decimals ≤ 6 }
    requires unit { decimals < width }
    requires room { width ≤ length text.old }
    requires fits { magnitude / 10 ^ decimals < 10 ^ whole_digits commas (width - (decimals + point_width decimals)) }
    requires blanks { (i : ℕ) → i < width → slice_index text.old i ≡ BLANK }
    ensures picture { (place : ℕ) → place < width → slice_index text.new (width - 1 - place)
        ≡ character_of (place_kind commas decimals place) (is_shown commas decimals magnitude place)
        (digit_at (digits_right commas decimals place) magnitude) }
    ensures rest { (i : ℕ) → width ≤ i → slice_index text.new i ≡ slice_index text.old i }
{
    let whole = put_decimals(magnitude, decimals, width, text);
    let end = put_point(decimals, width - decimals, text);
    put_whole(whole, commas, end, text);
}

/// The most decimals of a short amount.
pub const MOST_DECIMALS: u8 = 6;

/// The largest magnitude of 32 bits.
const LARGEST_SHORT: i64 = 4_294_967_295;

/// The magnitude of a number other than 0, if it has up to 32 bits.
pub fn short_magnitude(value: i64) -> Option<u32>
    ensures { IfSome result (λ magnitude. (magnitude ≡ unsigned_abs value) × (magnitude ≢ 0)) }
{
    if value > 0 && value <= LARGEST_SHORT {
        Some(value as u32)
    } else if value < 0 && value >= -LARGEST_SHORT {
        Some(value.unsigned_abs() as u32)
    } else {
        None
    }
}

/// Writes a short amount, from its sign and its magnitude: a number other than 0, of up to 32 bits and six decimals. It has
/// exactly the positions of `text`. The whole part comes last.
#[inline(never)]
pub fn edit_short_amount(
    negative: bool,
    magnitude: u32,
    style: &Amount,
    form: &Form,
    text: &mut [u8],
)
    requires some { magnitude ≢ 0 }
    requires below { magnitude < 10 ^ form.now.digits }
    requires few { form.now.decimals ≤ 6 }
    requires room { width_of (Edited style.now) form.now.digits form.now.decimals ≡ Some (length text.old) }
    ensures { (place : ℕ) → place < length text.old → slice_index text.new (length text.old - 1 - place)
        ≡ amount_at style.now form.now.decimals negative magnitude place }
{
    blank(text);
    let body = text.len() - sign_width(style.sign);
    let decimals = usize::from(form.decimals);
    edit_sign(style.sign, negative, body, text);
    put_body(magnitude, decimals, style.commas, body, text);
}
