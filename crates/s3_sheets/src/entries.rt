//! What the entries of the sheets spell.

ghost use Rattle.std.specs.Prelude.{◌≡◌, ◌≤◌, ◌<◌, ◌+◌, ◌*◌, ◌^◌, length, option_map, ◌↔◌, List, ℕ, Some, false, if◌then◌else◌};
ghost use Rattle.std.specs.List.{prefix_len};
ghost use Rattle.s3_cards.specs.Names.{is_digit as digit_spec};
ghost use Rattle.s3_sheets.specs.Inner.Literals.{with_code, with_next_code, is_behind_end, IsConstant};
ghost use Rattle.s3_sheets.specs.Columns.{are_blank as are_blank_spec};
ghost use Rattle.s3_sheets.specs.Entries.{constant_text, constant as constant_spec, text_of, without_sign as without_sign_spec, is_negative as negative_spec, without_point as without_point_spec, signed as signed_spec, number_literal_of, text_literal as text_literal_spec, name_within as name_within_spec, factor_of, part_of as part_of_spec, code_of, time_of};

use crate::columns::{number_between, number_onto};
use crate::indicators::{IndicatorList, listed};
use crate::words::{AN, OR_IN_LEVEL, SR};
use s3_cards::ebcdic::{
    APOSTROPHE, BLANK, LETTER_C, LETTER_D, LETTER_N, LETTER_Z, MINUS, PERIOD, PLUS,
};
use s3_cards::{Name, are_blank, is_digit, is_name};
use s3_lines::sheet::{
    CalculationTime, CodePart, Constant, Factor, NumberLiteral, RecordCode, TextLiteral,
};

/// The constant without characters.
pub const EMPTY: Constant = Constant {
    codes: [BLANK; 24],
    length: 0,
};

/// A constant with one more character, if it has room.
fn with(constant: Constant, code: u8) -> Option<Constant>
    ensures { result ≡ with_code constant code }
{
    if constant.length >= 24 {
        return None;
    }
    let mut longer = constant;
    longer.codes[constant.length as usize] = code;
    longer.length += 1;
    Some(longer)
}

/// A text and whether an apostrophe ends it, as far as one more code makes them.
fn with_next(text: Constant, ended: bool, code: u8) -> Option<(Constant, bool)>
    ensures { result ≡ with_next_code text ended code }
{
    if code == APOSTROPHE && !ended {
        Some((text, true))
    } else {
        Some((with(text, code)?, false))
    }
}

/// Whether a code comes after the apostrophe that ends a text.
fn is_behind(ended: bool, code: u8) -> bool
    ensures { result ≡ is_behind_end ended code }
{
    ended && code != APOSTROPHE
}

/// A text after which all is blank.
fn unless_filled(text: Constant, codes: &[u8]) -> Option<Constant>
    ensures { result ≡ (if are_blank_spec codes.now then Some text else None) }
{
    if are_blank(codes) { Some(text) } else { None }
}

/// The text up to the apostrophe that ends it, after which all is blank; an apostrophe of the text is written twice.
fn text(codes: &[u8]) -> Option<Constant>
    requires { length codes.now ≤ 25 }
    ensures { result ≡ option_map constant_spec (text_of false codes.now) }
{
    let mut text = EMPTY;
    let mut ended = false;
    for (place, code) in codes.iter().enumerate() {
        if is_behind(ended, *code) {
            return unless_filled(text, &codes[place..]);
        }
        (text, ended) = with_next(text, ended, *code)?;
    }
    if ended { Some(text) } else { None }
}

/// The constant in these columns: 1 to 24 characters in apostrophes, with blanks after it. None if the columns have something
/// else.
#[tactic(auto, unfolding(crate::specs::Entries::constant_text))]
pub fn constant(columns: &[u8]) -> Option<Constant>
    requires { length columns.now ≤ 26 }
    ensures { result ≡ option_map constant_spec (constant_text columns.now) }
{
    match columns {
        [APOSTROPHE, codes @ ..] => text(codes).filter(|constant| constant.length > 0),
        _ => None,
    }
}

fn without_sign(columns: &[u8]) -> &[u8]
    ensures value { result.now ≡ without_sign_spec columns.now }
    ensures shorter { length result.now ≤ length columns.now }
{
    match columns {
        [PLUS | MINUS, rest @ ..] => rest,
        _ => columns,
    }
}

fn without_point(columns: &[u8]) -> &[u8]
    ensures value { result.now ≡ without_point_spec columns.now }
    ensures shorter { length result.now ≤ length columns.now }
{
    match columns {
        [PERIOD, rest @ ..] => rest,
        _ => columns,
    }
}

fn is_negative(columns: &[u8]) -> bool
    ensures { result ≡ negative_spec columns.now }
{
    match columns {
        [first, ..] => *first == MINUS,
        [] => false,
    }
}

/// The number of leading digits.
fn digits_in_front(columns: &[u8]) -> usize
    ensures within { result ≤ length columns.now }
    ensures value { result ≡ prefix_len digit_spec columns.now }
{
    columns.iter().take_while(|code| is_digit(**code)).count()
}

/// A number with its sign.
fn signed(is_negative: bool, number: u64) -> i64
    requires { number < 10 ^ 18 }
    ensures { result ≡ signed_spec is_negative number }
{
    let number = number as i64;
    if is_negative { -number } else { number }
}

/// The literal number in columns: a sign or none, digits with at most one point, and blanks after.
#[tactic(auto, unfolding(crate::specs::Entries::number_literal_of))]
fn number_literal(columns: &[u8]) -> Option<NumberLiteral>
    requires { length columns.now ≤ 10 }
    ensures { result ≡ number_literal_of columns.now }
{
    let unsigned = without_sign(columns);
    let whole = digits_in_front(unsigned);
    let fraction = without_point(&unsigned[whole..]);
    let decimals = digits_in_front(fraction);
    if whole + decimals == 0 || !are_blank(&fraction[decimals..]) {
        return None;
    }
    let number = number_onto(number_onto(0, &unsigned[..whole]), &fraction[..decimals]);
    Some(NumberLiteral {
        value: signed(is_negative(columns), number),
        digits: (whole + decimals) as u8,
        decimals: decimals as u8,
    })
}

/// A text of at most eight characters as a literal.
fn text_literal(text: Constant) -> TextLiteral
    ensures { (codes : List ℕ) → text ≡ constant_spec codes → length codes ≤ 8 → result ≡ text_literal_spec codes }
{
    let mut codes = [BLANK; 8];
    codes.copy_from_slice(&text.codes[..8]);
    TextLiteral {
        codes,
        length: text.length,
    }
}

/// The name of at most so many characters in columns that have blanks after it.
fn name_within(longest: usize, columns: &[u8]) -> Option<Name>
    requires few { longest ≤ 8 }
    requires enough { longest ≤ length columns.now }
    ensures { result ≡ name_within_spec longest columns.now }
{
    let name = &columns[..longest];
    if is_name(name) && are_blank(&columns[longest..]) {
        Some(Name::of(name))
    } else {
        None
    }
}

/// The factor in these columns: a literal number or text, or a name of at most so many characters; none if they are blank or have
/// something else.
#[tactic(auto, unfolding(crate::specs::Entries::factor_of))]
pub fn factor(longest: usize, columns: &[u8]) -> Option<Factor>
    requires short { longest ≤ 8 }
    requires enough { longest ≤ length columns.now }
    requires few { length columns.now ≤ 10 }
    ensures { result ≡ factor_of longest columns.now }
{
    if let Some(text) = constant(columns) {
        return Some(Factor::Text(text_literal(text)));
    }
    if let Some(number) = number_literal(columns) {
        return Some(Factor::Number(number));
    }
    Some(Factor::Named(name_within(longest, columns)?))
}

/// The part of a byte that a record code with this letter compares: C the character, Z the zone, D the digit; none for another
/// letter.
pub fn part_of(code: u8) -> Option<CodePart>
    ensures { result ≡ part_of_spec code }
{
    match code {
        LETTER_C => Some(CodePart::Character),
        LETTER_Z => Some(CodePart::Zone),
        LETTER_D => Some(CodePart::Digit),
        _ => None,
    }
}

/// The record identification code in seven columns; none if they are blank or have something else.
#[tactic(auto, unfolding(crate::specs::Entries::code_of))]
pub fn record_code(columns: &[u8]) -> Option<RecordCode>
    requires { length columns.now ≡ 7 }
    ensures { result ≡ code_of columns.now }
{
    Some(RecordCode {
        position: number_between(&columns[..4], 1, 9_999)?,
        part: part_of(columns[5])?,
        negated: columns[4] == LETTER_N,
        character: columns[6],
    })
}

/// When a C line is done, by its columns 7 and 8; none if they have no entry of the list.
#[tactic(auto, unfolding(crate::specs::Entries::time_of, s3_cards::specs::Codes::ebcdic, s3_cards::specs::Codes::code_page))]
pub fn time(columns: &[u8]) -> Option<CalculationTime>
    ensures { result ≡ time_of columns.now }
{
    if are_blank(columns) {
        Some(CalculationTime::Detail)
    } else if columns == SR.as_slice() {
        Some(CalculationTime::Subroutine)
    } else if columns == AN.as_slice() {
        Some(CalculationTime::And)
    } else if columns == OR_IN_LEVEL.as_slice() {
        Some(CalculationTime::Or)
    } else {
        Some(CalculationTime::Total(listed(IndicatorList::Total, columns)?))
    }
}

/// Exactly a text that is written with its apostrophes twice and blanks after it is a constant, and it is read as that text.
pub fn constants_as_written()
    ensures { (columns text : List ℕ) → (constant_text columns ≡ Some text) ↔ IsConstant columns text }
{}
