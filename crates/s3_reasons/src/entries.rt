//! What belongs into an entry that a diagnostic 02, 03 or 04 marks.

use s3_cards::Card;
use s3_cards::ebcdic::{LETTER_C, LETTER_F, LETTER_H, LETTER_I, LETTER_O};
use s3_entries::{CardForm, Entry, Span, entries_of, input, shared};
use s3_sheets::{FaultyEntry, column};
use std::alloc::{AllocError, Global};

/// The number of a name or literal that is malformed.
const WRONG_NAME: u8 = 3;

/// The number of a number that is wrong, or a position outside its record.
const WRONG_NUMBER: u8 = 4;

/// The kinds of cards of a card's sheet.
fn forms_of(card: &Card) -> &'static [CardForm] {
    match column(card, shared::FORM_TYPE) {
        LETTER_H => &[CardForm::Header],
        LETTER_F => &[CardForm::File],
        LETTER_I => &[CardForm::Record, CardForm::RecordGroup, CardForm::Field],
        LETTER_C => &[CardForm::Calculation],
        LETTER_O => &[CardForm::Line, CardForm::LineGroup, CardForm::OutputField],
        _ => &[],
    }
}

/// Whether an entry has exactly these columns.
fn is_at(entry: &Entry, columns: Span) -> bool {
    are_same(entry.columns, columns)
}

/// Whether all columns of a part are columns of an entry.
fn has(entry: &Entry, part: Span) -> bool {
    entry.columns.from <= part.from && part.to <= entry.columns.to
}

fn are_same(one: Span, two: Span) -> bool {
    one.from == two.from && one.to == two.to
}

/// The entry of a card that has these columns, or else the first one that they are a part of. None for columns that must be blank.
fn entry_of(card: &Card, columns: Span) -> Option<&'static Entry> {
    let mut found = None;
    for form in forms_of(card) {
        for entry in entries_of(*form) {
            if is_at(entry, columns) {
                return Some(entry);
            }
            if found.is_none() && has(entry, columns) {
                found = Some(entry);
            }
        }
    }
    found
}

/// What several entries have together, if a diagnostic marks them as one.
fn joined_words(card: &Card, columns: Span) -> Option<&'static str> {
    if column(card, shared::FORM_TYPE) != LETTER_I {
        return None;
    }
    if are_same(columns, input::LOCATION) {
        return Some(
            "field location: From isn't after To, and the field has at most 256 characters, or 15 digits and no more decimals than digits",
        );
    }
    let is_code = are_same(columns, input::CODE_1)
        || are_same(columns, input::CODE_2)
        || are_same(columns, input::CODE_3);
    if is_code {
        Some(
            "record identification code: a position that ends in the fourth column, then N or blank, then C, Z or D, then a character; or all blank",
        )
    } else {
        None
    }
}

/// What may be in an entry, also as far as it depends on other entries. The entry is known by its name: several sheets have entries in
/// the same columns.
fn allowed_in(entry: &Entry, number: u8) -> &'static str {
    match (entry.name, number) {
        ("factor 1" | "factor 2", _) =>
            "a name, a number, or a text of at most 8 characters in apostrophes; or blank",
        ("blank after", _) => "B for a field that is no date, or blank",
        ("field length", WRONG_NUMBER) =>
            "1 to 15 for a number, 1 to 256 for a text; needed with decimals, and not less than them",
        ("decimal positions", WRONG_NUMBER) =>
            "0 to 9 for a number, and not more than its digits; blank for a text",
        ("length of key field", WRONG_NUMBER) =>
            "1 to 29 for an indexed file, with the key within the record",
        ("key field starting location", WRONG_NUMBER) =>
            "where the key of an indexed file begins, with the key within the record",
        ("end position in output record", WRONG_NUMBER) =>
            "1 to 9999, within the record, and not less than the length of a constant",
        _ => entry.allowed,
    }
}

/// Appends which columns these are: `column 15`, `columns 19 and 20`, `columns 40 to 46`.
fn push_columns(text: &mut String, columns: Span) -> Result<(), AllocError> {
    let (from, to) = (columns.from, columns.to);
    if from == to {
        write!(text, "column {from}")
    } else if from.saturating_add(1) == to {
        write!(text, "columns {from} and {to}")
    } else {
        write!(text, "columns {from} to {to}")
    }
}

/// Appends what may be in an entry, and at which of its columns: names begin in its first one, and numbers end in its last one.
fn push_allowed(text: &mut String, entry: &Entry, number: u8) -> Result<(), AllocError> {
    let (name, allowed) = (entry.name, allowed_in(entry, number));
    let (from, to) = (entry.columns.from, entry.columns.to);
    push_columns(text, entry.columns)?;
    write!(text, ", {name}: {allowed}")?;
    match number {
        WRONG_NAME => write!(text, "; it begins in column {from}"),
        WRONG_NUMBER if from < to => write!(text, "; it ends in column {to}"),
        _ => Ok(()),
    }
}

/// What belongs into an entry in error of a card. It is refused only if memory runs out.
pub fn entry_words(alloc: Global, card: &Card, faulty: &FaultyEntry) -> Result<String, AllocError> {
    let columns = Span {
        from: faulty.from,
        to: faulty.to,
    };
    let mut text = String::new(alloc);
    if let Some(words) = joined_words(card, columns) {
        push_columns(&mut text, columns)?;
        write!(text, ", {words}")?;
    } else if let Some(entry) = entry_of(card, columns) {
        push_allowed(&mut text, entry, faulty.number)?;
    } else {
        push_columns(&mut text, columns)?;
        text.push_str(" must be blank")?;
    }
    Ok(text)
}
