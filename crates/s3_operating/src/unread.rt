//! A deck that can't be read, in words.

use s3_cards::{COLUMNS, CardFault, LevelId, code_of_byte, first_line};
use s3_decks::{DeckText, push_ruler};
use std::alloc::AllocError;

/// The most columns of a card that are shown.
const SHOWN: usize = 120;

/// Appends why the deck of a level can't be read, from the number of the card in error, from 1, and its fault: the place and the
/// cure, and the card under a ruler with what is in error marked, unless there are only too many cards.
pub fn push_unread(
    text: &mut String,
    level: LevelId,
    deck: &DeckText<'_>,
    fault: (u16, CardFault),
) -> Result<(), AllocError> {
    let number = level.number();
    let (card, fault) = fault;
    let card = usize::from(card);
    let place = deck.place_of(card);
    writeln!(
        text,
        "level {number}: the deck can't be read, and no job of it runs"
    )?;
    let line = line_of(deck.text(), card).unwrap_or(&[]);
    match tab_in(line, fault) {
        Some(column) => writeln!(
            text,
            "  {place} has a tab in column {column}; put as many blanks there as bring what follows into its columns; only a source that is typed with tabs belongs into a file whose name ends in .rpg"
        )?,
        None => {
            let words = words_of(fault);
            writeln!(text, "  {place} {words}")?;
        }
    }
    if fault == CardFault::TooMany || line.is_empty() {
        return Ok(());
    }
    push_card(text, line, fault)
}

/// The column of the first character of a card that no card has, if it is a tab.
fn tab_in(line: &[u8], fault: CardFault) -> Option<usize> {
    if fault != CardFault::BadCharacter {
        return None;
    }
    let place = line.iter().position(|byte| code_of_byte(*byte).is_none())?;
    if line.get(place).copied() == Some(b'\t') {
        Some(place.saturating_add(1))
    } else {
        None
    }
}

/// What is wrong with a card, and what mends it.
fn words_of(fault: CardFault) -> &'static str {
    match fault {
        CardFault::TooWide => "has over 96 columns; shorten its line, or make two cards of it",
        CardFault::BadCharacter =>
            "has a character that no card has; write one that cards have; small letters become capitals in a file whose name ends in .rpg",
        CardFault::TooMany =>
            "is the last that a deck may have, the 9,999th, and there are more; put some of the jobs into another day",
    }
}

/// The line of a card, by its number from 1.
fn line_of(text: &[u8], card: usize) -> Option<&[u8]> {
    let mut rest = text;
    for _card in 1..card {
        let (_line, after) = first_line(rest)?;
        rest = after;
    }
    let (line, _after) = first_line(rest)?;
    Some(line)
}

/// Appends a card's line under a ruler, with what is in error marked.
fn push_card(text: &mut String, line: &[u8], fault: CardFault) -> Result<(), AllocError> {
    let shown = line.get(..SHOWN).unwrap_or(line);
    push_ruler(text, shown.len())?;
    text.push_str("    ")?;
    for byte in shown {
        text.push(character_of(*byte))?;
    }
    text.push_str("\n    ")?;
    for (place, byte) in shown.iter().enumerate() {
        text.push(if is_at_fault(fault, place, *byte) {
            '^'
        } else {
            ' '
        })?;
    }
    text.push('\n')
}

/// Whether the byte at a place of a line, from 0, is in error.
fn is_at_fault(fault: CardFault, place: usize, byte: u8) -> bool {
    match fault {
        CardFault::TooWide => place >= COLUMNS,
        CardFault::BadCharacter => code_of_byte(byte).is_none(),
        CardFault::TooMany => false,
    }
}

/// A byte as it is shown: `?` for one that is no printed character of ASCII.
fn character_of(byte: u8) -> char {
    if byte.is_ascii_graphic() || byte == b' ' {
        char::from(byte)
    } else {
        '?'
    }
}
