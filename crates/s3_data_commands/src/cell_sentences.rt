//! Why a cell isn't taken into its field, and what mends it. Each sentence begins with the cell.

use crate::cells::can_be_date;
use crate::filled::push_name;
use s3_cards::to_ebcdic;
use s3_cells::{CellFault, Field, FieldKind};
use s3_refusals::is_shown;
use std::alloc::AllocError;

/// What helps if a character of a text isn't one of a card.
const CARD_CURE: &str = "use capital letters, digits and the signs of cards";

/// Appends why a cell isn't taken into a field of a layout, and what mends it, if numbers have a comma before their decimals, or a point.
pub fn push_cell_fault(
    text: &mut String,
    fault: CellFault,
    field: Option<&Field>,
    cell: &[u8],
    has_comma: bool,
) -> Result<(), AllocError> {
    match fault {
        CellFault::NoNumber => push_no_number(text, field, cell, has_comma),
        CellFault::TooLong => push_too_long(text, field, cell),
        CellFault::NoCharacter => push_no_character(text, field, cell),
        _ => text.push_str(plain_words(fault)),
    }
}

/// What is wrong with a cell, and what mends it, if that is the same for all cells and fields.
fn plain_words(fault: CellFault) -> &'static str {
    match fault {
        CellFault::TooManyDecimals => " has more decimals than the field; round it",
        CellFault::TooLarge =>
            " has more digits before the point than the field; write a smaller number",
        CellFault::NoDate =>
            " is no date of the years 1900 to 1999; write it as YYYY-MM-DD, or leave the cell empty",
        CellFault::NoNumber | CellFault::TooLong | CellFault::NoCharacter | CellFault::NoMemory =>
            "",
    }
}

/// Appends that a cell is no number. A character that isn't ASCII is named, since it may look like a minus or a blank.
fn push_no_number(
    text: &mut String,
    field: Option<&Field>,
    cell: &[u8],
    has_comma: bool,
) -> Result<(), AllocError> {
    let Ok(shown) = str::from_utf8(cell) else {
        return push_no_utf8(text, cell);
    };
    text.push_str(" is no number")?;
    match first_beyond_ascii(shown) {
        None => {
            text.push_str("; ")?;
            text.push_str(number_cure(has_comma))?;
            push_number_hint(text, field, shown, has_comma)
        }
        Some(character) => {
            text.push_str(", because it has ")?;
            push_named(text, character)?;
            text.push_str("; ")?;
            text.push_str(if is_minus(character) {
                "write - in its place"
            } else if is_blank(character) {
                "take it out"
            } else {
                number_cure(has_comma)
            })
        }
    }
}

/// How a number is written.
fn number_cure(has_comma: bool) -> &'static str {
    if has_comma {
        "write digits, with a minus before them and a comma if they are needed"
    } else {
        "write digits, with a minus before them and a point if they are needed"
    }
}

/// Appends which options may help with a cell that is no number: the field may be a date; or, if numbers have a point before their
/// decimals, a cell with a comma may have other marks.
fn push_number_hint(
    text: &mut String,
    field: Option<&Field>,
    cell: &str,
    has_comma: bool,
) -> Result<(), AllocError> {
    if has_date(field, cell) {
        push_date_hint(text, field, cell)
    } else if !has_comma && cell.as_bytes().contains(&b',') {
        text.push_str(", or name its marks by --decimal and --thousands")
    } else {
        Ok(())
    }
}

/// Appends that a text is longer than its field, and how long that is.
fn push_too_long(text: &mut String, field: Option<&Field>, cell: &[u8]) -> Result<(), AllocError> {
    text.push_str(" is longer than the field")?;
    if let Some(field) = field {
        let width = field.width;
        let characters = if width == 1 {
            "character"
        } else {
            "characters"
        };
        write!(text, ", which has {width} {characters}")?;
    }
    text.push_str("; shorten it")?;
    match str::from_utf8(cell) {
        Ok(shown) if has_date(field, shown) => push_date_hint(text, field, shown),
        _ => Ok(()),
    }
}

/// Appends which character of a text no card can have.
fn push_no_character(
    text: &mut String,
    field: Option<&Field>,
    cell: &[u8],
) -> Result<(), AllocError> {
    let Ok(shown) = str::from_utf8(cell) else {
        push_no_utf8(text, cell)?;
        text.push_str(", and ")?;
        return text.push_str(CARD_CURE);
    };
    let capitals = takes_small_letters(field);
    for character in shown.chars() {
        let is_taken = capitals && is_small_letter(character);
        if !is_taken && to_ebcdic(character).is_none() {
            return push_foreign(text, character);
        }
    }
    text.push_str(" has a character that no card can have; ")?;
    text.push_str(CARD_CURE)
}

/// Appends a character that no card can have, and what helps.
fn push_foreign(text: &mut String, character: char) -> Result<(), AllocError> {
    text.push_str(" has ")?;
    push_named(text, character)?;
    text.push_str(", which no card can have; ")?;
    text.push_str(if is_small_letter(character) {
        "write capital letters, or give --capitals"
    } else if is_minus(character) {
        "write - in its place"
    } else if is_blank(character) {
        "write a blank in its place"
    } else {
        CARD_CURE
    })
}

/// Appends a character: its number in Unicode, with a name, if it looks like a minus or a blank; the number alone if a terminal doesn't
/// show it; the character in quotes if it is ASCII, and else in quotes with its number.
fn push_named(text: &mut String, character: char) -> Result<(), AllocError> {
    let code = character as u32;
    if is_minus(character) || is_blank(character) {
        write!(text, "U+{code:04X}")?;
        text.push_str(name_of(character))
    } else if !is_shown(character) {
        write!(text, "U+{code:04X}")
    } else if code < 0x80 {
        write!(text, "\"{character}\"")
    } else {
        write!(text, "\"{character}\" (U+{code:04X})")
    }
}

/// The name of a character that looks like a minus or a blank, after its number.
fn name_of(character: char) -> &'static str {
    match character as u32 {
        0x2212 => ", a typographic minus",
        0x2010..=0x2015 => ", a typographic dash",
        0xa0 | 0x2007 | 0x202f => ", a no-break blank",
        _ => ", a typographic blank",
    }
}

/// Appends that a cell isn't text in UTF-8, and what its table probably is.
fn push_no_utf8(text: &mut String, cell: &[u8]) -> Result<(), AllocError> {
    for byte in cell {
        if !byte.is_ascii() {
            let byte = *byte;
            write!(text, " has the byte {byte:02x} and isn't UTF-8")?;
            break;
        }
    }
    text.push_str(
        "; the table looks like Latin-1: convert it by `iconv -f LATIN1 -t UTF-8 TABLE > NEW`",
    )
}

/// The first character of a text that isn't ASCII, if it has one.
fn first_beyond_ascii(text: &str) -> Option<char> {
    for character in text.chars() {
        if character as u32 >= 0x80 {
            return Some(character);
        }
    }
    None
}

/// Whether a character is a minus or a dash that other programs write for the minus of ASCII.
fn is_minus(character: char) -> bool {
    matches!(character as u32, 0x2010..=0x2015 | 0x2212)
}

/// Whether a character is a blank, but not the one of ASCII.
fn is_blank(character: char) -> bool {
    matches!(
        character as u32,
        0xa0 | 0x2000..=0x200a | 0x202f | 0x205f | 0x3000
    )
}

/// Whether a character is a small letter of ASCII.
fn is_small_letter(character: char) -> bool {
    matches!(character as u32, 0x61..=0x7a)
}

/// Whether the cells of a field may have small letters for capitals.
fn takes_small_letters(field: Option<&Field>) -> bool {
    match field {
        Some(field) => match field.kind {
            FieldKind::Text(cells) => cells.capitals,
            _ => false,
        },
        None => false,
    }
}

/// Whether a cell looks like a date, and its field can be one.
fn has_date(field: Option<&Field>, cell: &str) -> bool {
    match field {
        Some(field) => can_be_date(field) && is_date(cell),
        None => false,
    }
}

/// Appends that a field may be named as a date, and how a date is written then.
fn push_date_hint(text: &mut String, field: Option<&Field>, cell: &str) -> Result<(), AllocError> {
    let Some(field) = field else {
        return Ok(());
    };
    text.push_str(if has_form_of_dates(cell) {
        ", or give --date-fields "
    } else {
        ", or write it as YYYY-MM-DD and give --date-fields "
    })?;
    push_name(text, Some(field.name))?;
    text.push_str(":YYYY-MM-DD if the field is a date")
}

/// Whether a text looks like a date: 1976-05-21, 5/21/76 or 21.05.1976.
fn is_date(text: &str) -> bool {
    for mark in ['-', '/', '.'] {
        if matches!(
            digits_by(text, mark),
            (4, 1 | 2, 1 | 2) | (1 | 2, 1 | 2, 2 | 4)
        ) {
            return true;
        }
    }
    false
}

/// Whether a text has the digits of a date YYYY-MM-DD.
fn has_form_of_dates(text: &str) -> bool {
    matches!(digits_by(text, '-'), (4, 2, 2))
}

/// How many digits the three parts of a text have that are before, between and after two such marks; 0 for a part that isn't there or has
/// another character.
fn digits_by(text: &str, mark: char) -> (usize, usize, usize) {
    let Some((first, rest)) = text.split_once(mark) else {
        return (0, 0, 0);
    };
    let Some((second, third)) = rest.split_once(mark) else {
        return (0, 0, 0);
    };
    (digits_in(first), digits_in(second), digits_in(third))
}

/// How many digits a text has; 0 if it has another character.
fn digits_in(text: &str) -> usize {
    if text.bytes().all(|byte| byte.is_ascii_digit()) {
        text.len()
    } else {
        0
    }
}
