//! What columns of a card spell.

ghost use Rattle.std.specs.Prelude.{◌≡◌, ◌<◌, ◌≤◌, ◌+◌, ◌-◌, ◌*◌, ◌^◌, length, map, true, IfSome};
ghost use Rattle.std.specs.List.{list_all};
ghost use Rattle.std.specs.Int.Digits.{number_from_digits_after};
ghost use Rattle.s3_cards.specs.Names.{is_digit as digit_spec};
ghost use Rattle.s3_sheets.specs.Columns.{columns as columns_spec, column as column_spec, digit, number_of, number_between as number_between_spec};

use s3_cards::ebcdic::DIGIT_0;
use s3_cards::{Card, blanks_in_front, is_digit};
use s3_entries::Span;

/// The columns of an entry on a card.
pub fn columns(card: &Card, entry: Span) -> &[u8]
    requires start { 0 < entry.from }
    requires order { entry.from ≤ entry.to }
    requires end { entry.to ≤ 96 }
    ensures value { result.now ≡ columns_spec card.now entry }
    ensures width { length result.now ≡ entry.to + 1 - entry.from }
{
    &card[entry.from - 1..entry.to]
}

/// What is in an entry of one column.
pub fn column(card: &Card, entry: Span) -> u8
    requires start { 0 < entry.from }
    requires end { entry.from ≤ 96 }
    ensures { result ≡ column_spec card.now entry }
{
    card[entry.from - 1]
}

/// Whether all columns are digits.
fn are_digits(columns: &[u8]) -> bool
    ensures { result ≡ list_all digit_spec columns.now }
{
    columns.iter().all(|code| is_digit(*code))
}

/// The number that digits spell after the digits of another number.
pub fn number_onto(start: u64, digits: &[u8]) -> u64
    requires all { list_all digit_spec digits.now ≡ true }
    requires fits { (start + 1) * 10 ^ length digits.now ≤ 10 ^ 10 }
    ensures value { result ≡ number_from_digits_after 10 start (map digit digits.now) }
    ensures below { result < (start + 1) * 10 ^ length digits.now }
{
    let mut number = start;
    for code in digits {
        number = number * 10 + u64::from(*code - DIGIT_0);
    }
    number
}

/// The number in at most four columns, with leading blanks or zeros. None if the columns have something else, are blank, or are
/// more than four.
#[tactic(auto, unfolding(crate::specs::Columns::digits_number))]
pub fn number(columns: &[u8]) -> Option<u16>
    ensures value { result ≡ number_of columns.now }
    ensures below { IfSome result (λ number. number < 10 ^ 4) }
{
    if columns.len() > 4 {
        return None;
    }
    let digits = &columns[blanks_in_front(columns)..];
    if digits.is_empty() || !are_digits(digits) {
        return None;
    }
    Some(number_onto(0, digits) as u16)
}

/// The number in at most four columns, with leading blanks or zeros, if it is at least `low` and at most `high`; else none.
#[tactic(auto, unfolding(crate::specs::Columns::number_between))]
pub fn number_between(columns: &[u8], low: u16, high: u16) -> Option<u16>
    ensures value { result ≡ number_between_spec low high columns.now }
    ensures within { IfSome result (λ number. number ≤ high) }
{
    match number(columns) {
        Some(number) if low <= number && number <= high => Some(number),
        _ => None,
    }
}

/// The number in at most four columns, if it is at least `low` and at most `high`; else none.
pub fn small_between(columns: &[u8], low: u8, high: u8) -> Option<u8>
    ensures { result ≡ number_between_spec low high columns.now }
{
    Some(number_between(columns, u16::from(low), u16::from(high))? as u8)
}
