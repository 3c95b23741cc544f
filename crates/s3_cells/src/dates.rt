//! Dates: six digits MMDDYY in a record, YYYY-MM-DD in a cell. The years are 1900 to 1999. A field without a date is an empty cell.
ghost use Rattle.std.specs.Prelude.{◌≡◌, ◌==◌, ◌++◌, true, length, map, ◌<◌, OnOk, OnErr, IfErr};
ghost use Rattle.s3_cards.specs.Codes.{shown_byte};
ghost use Rattle.s3_cells.specs.Inner.Dates.{are_all as are_all_spec, date_read as date_read_spec, date_text, date_of as date_of_spec, days_in as days_in_spec, has_form as has_form_spec, has_no_date, is_date as is_date_spec, is_day as is_day_spec, none_of, two};
ghost use Rattle.s3_cells.specs.Inner.Refusals.{IsHidden};
ghost use Rattle.s3_cells.specs.Inner.Values.{GetsValue, SaysNone, cell_text, is_kind_of, is_shown_in, value_in};
ghost use Rattle.s3_cells.specs.declared.kind.FieldKind.TheVariants.{Date as DateKind};

use crate::fault::{CellFault, ShowFault};
use crate::numbers::all_digits;
use crate::texts::put_text;
use s3_cards::ebcdic::{BLANK, DIGIT_0};
use s3_cards::host_byte;
use std::alloc::AllocError;

/// What a field of a date is without the date.
#[derive(Clone, Copy)]
pub enum DateField {
    /// A text of six characters: without a date it is blank.
    Text,
    /// A zoned number of six digits: without a date it is 0, or blank.
    Number,
}

/// The byte that is written into a field without a date.
fn none(form: DateField) -> u8
    ensures { result ≡ none_of form }
{
    match form {
        DateField::Text => BLANK,
        DateField::Number => DIGIT_0,
    }
}

/// Whether all bytes are this one.
fn are_all(byte: u8, bytes: &[u8]) -> bool
    ensures { result ≡ are_all_spec byte bytes.now }
{
    bytes.iter().all(|other| *other == byte)
}

/// Whether a field has no date. A blank number has none: the machine reads it as 0.
fn is_none(form: DateField, bytes: &[u8]) -> bool
    ensures { result ≡ has_no_date form bytes.now }
{
    are_all(none(form), bytes) || are_all(BLANK, bytes)
}

/// The number of two digits.
fn number_of(tens: u8, ones: u8) -> u8
    ensures { result ≡ two tens ones }
{
    tens % 16 * 10 + ones % 16
}

/// How many days a month of a year 1900 to 1999 has.
fn days_in(year: u8, month: u8) -> u8
    ensures { result ≡ days_in_spec year month }
{
    if month == 2 {
        if year % 4 == 0 && year != 0 { 29 } else { 28 }
    } else if month == 4 || month == 6 || month == 9 || month == 11 {
        30
    } else {
        31
    }
}

/// Whether the calendar has such a day.
fn is_day(month: u8, day: u8, year: u8) -> bool
    ensures { result ≡ is_day_spec month day year }
{
    1 <= month && month <= 12 && 1 <= day && day <= days_in(year, month)
}

/// Whether six characters are the month, the day and the year of a date.
#[tactic(auto, unfolding(crate::specs::Inner::Dates::is_date))]
fn is_date(text: &[u8]) -> bool
    requires { length text.now ≡ 6 }
    ensures { result ≡ is_date_spec text.now }
{
    all_digits(text)
        && is_day(
            number_of(text[0], text[1]),
            number_of(text[2], text[3]),
            number_of(text[4], text[5]),
        )
}

/// Appends the date of a field as YYYY-MM-DD; nothing without one.
#[tactic(auto, using(crate::proofs::DateLemmas::none_shown, crate::proofs::DateLemmas::date_told))]
pub fn show_date(form: DateField, bytes: &[u8], cell: &mut Vec<u8>) -> Result<(), ShowFault>
    requires { is_kind_of (DateKind form) (length bytes.now) ≡ true }
    ensures ok { OnOk result (cell.new.items ≡ cell.old.items ++ cell_text (DateKind form) (value_in (DateKind form) bytes.now)) }
    ensures shown { OnOk result (is_shown_in (DateKind form) bytes.now ≡ true) }
    ensures err { IfErr result (IsHidden (is_shown_in (DateKind form) bytes.now)) }
{
    if is_none(form, bytes) {
        return Ok(());
    }
    let date = characters_of(bytes);
    if !is_date(&date) {
        return Err(ShowFault::NoDate(date));
    }
    push_date(cell, &date)?;
    Ok(())
}

/// The characters of six codes.
fn characters_of(codes: &[u8]) -> [u8; 6]
    requires { length codes.now ≡ 6 }
    ensures { result ≡ map shown_byte codes.now }
{
    [
        host_byte(codes[0]),
        host_byte(codes[1]),
        host_byte(codes[2]),
        host_byte(codes[3]),
        host_byte(codes[4]),
        host_byte(codes[5]),
    ]
}

/// Appends a date as YYYY-MM-DD.
fn push_date(cell: &mut Vec<u8>, date: &[u8]) -> Result<(), AllocError>
    requires { length date.now ≡ 6 }
    ensures { OnOk result (cell.new.items ≡ cell.old.items ++ date_text date.now) }
{
    cell.extend_from_slice(&[
        b'1', b'9', date[4], date[5], b'-', date[0], date[1], b'-', date[2], date[3],
    ])
}

/// Whether a cell has the form 19YY-MM-DD.
fn has_form(cell: &[u8]) -> bool
    ensures { result ≡ has_form_spec cell.now }
{
    cell.len() == 10 && cell[0] == b'1' && cell[1] == b'9' && cell[4] == b'-' && cell[7] == b'-'
}

/// The month, the day and the year of such a cell.
fn date_of(cell: &[u8]) -> [u8; 6]
    requires { length cell.now ≡ 10 }
    ensures { result ≡ date_of_spec cell.now }
{
    [cell[5], cell[6], cell[8], cell[9], cell[2], cell[3]]
}

/// The date that a cell says, if it says one.
fn read_date(cell: &[u8]) -> Option<[u8; 6]>
    requires { 0 < length cell.now }
    ensures { result ≡ date_read_spec cell.now }
{
    if !has_form(cell) {
        return None;
    }
    let date = date_of(cell);
    if is_date(&date) { Some(date) } else { None }
}

/// Puts the date of a cell into the bytes of a field.
#[tactic(auto, using(crate::proofs::DateLemmas::none_taken, crate::proofs::DateLemmas::date_taken, crate::proofs::DateLemmas::no_date_said))]
pub fn take_date(form: DateField, cell: &[u8], bytes: &mut [u8]) -> Result<(), CellFault>
    requires { is_kind_of (DateKind form) (length bytes.old) ≡ true }
    ensures ok { OnOk result (GetsValue (DateKind form) cell.now (length bytes.old) bytes.new) }
    ensures err { OnErr result (SaysNone (DateKind form) cell.now (length bytes.old)) }
    ensures same { OnErr result (bytes.new ≡ bytes.old) }
{
    if cell.is_empty() {
        bytes.fill(none(form));
        return Ok(());
    }
    match read_date(cell) {
        Some(date) => {
            put_text(&date, bytes);
            Ok(())
        }
        None => Err(CellFault::NoDate),
    }
}
