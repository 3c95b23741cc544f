//! Files that are no deck: which of their cards can't be read, and what is to be done.

use crate::characters::TAB;
use crate::messages::{Report, push_spot};
use bstr::ByteSlice;
use s3_cards::{COLUMNS, code_of_byte, first_line, to_ebcdic};
use s3_decks::{CardPlace, DeckText, FilePlace};
use s3_host_files::SHOWN_INPUT;
use s3_punch::PunchReason;
use s3_refusals::{Quoted, Shown, is_shown};
use std::alloc::{AllocError, Global};

/// The most cards that are reported one by one.
const REPORTED: usize = 20;

/// The most cards of a deck.
const MAX_CARDS: usize = 9_999;

/// What is wrong with a card.
#[derive(Clone, Copy)]
enum UnreadCard {
    /// It has so many columns, more than 96.
    Wide(usize),
    /// It has characters that no card has.
    Characters(WrongCharacters),
}

/// The characters of a card that no card has.
#[derive(Clone, Copy)]
struct WrongCharacters {
    /// The column of the first one, from 1.
    column: usize,
    /// The first one.
    first: char,
    /// How many more there are.
    more: usize,
    /// Whether one of them may be punched as a character that cards have.
    is_typed: bool,
}

/// The cards that can't be read.
#[derive(Drop)]
struct Unread<'a> {
    /// The lines about the first ones.
    lines: String,
    /// How many there are.
    count: usize,
    /// The first one that may be plain text.
    typed: Option<FilePlace<'a>>,
}

/// Whether a line is a card.
pub(crate) fn is_card(line: &[u8]) -> bool {
    line.len() <= COLUMNS && line.iter().all(|byte| code_of_byte(*byte).is_some())
}

/// Whether punching may make a character that cards have of one that they don't: of a small letter, of a tab, and of some letters and
/// signs beyond ASCII.
fn is_typed(character: char) -> bool {
    let is_foreign = !character.is_ascii() && is_shown(character);
    character == TAB || character.is_ascii_lowercase() || is_foreign
}

/// What is wrong with a line, if it is no card.
fn fault_of(alloc: Global, line: &[u8]) -> Result<Option<UnreadCard>, AllocError> {
    if is_card(line) {
        return Ok(None);
    }
    let characters: Vec<char> = line.chars().collect(alloc)?;
    if characters.len() > COLUMNS {
        return Ok(Some(UnreadCard::Wide(characters.len())));
    }
    Ok(wrong_characters(&characters).map(|wrong| UnreadCard::Characters(wrong)))
}

/// The characters of a line that no card has, if it has any.
fn wrong_characters(characters: &[char]) -> Option<WrongCharacters> {
    let place = characters
        .iter()
        .position(|character| to_ebcdic(*character).is_none())?;
    let first = *characters.get(place)?;
    let rest = characters.get(place..).unwrap_or(&[]);
    let count = rest
        .iter()
        .filter(|character| to_ebcdic(**character).is_none())
        .count();
    Some(WrongCharacters {
        column: place.saturating_add(1),
        first,
        more: count.saturating_sub(1),
        is_typed: rest.iter().any(|character| is_typed(*character)),
    })
}

/// Appends which character no card has.
fn push_character(text: &mut String, character: char) -> Result<(), AllocError> {
    let code = character as u32;
    match character {
        TAB => text.push_str("no card has a tab"),
        _ if is_shown(character) => write!(text, "no card has the character {character}"),
        _ => write!(text, "no card has the unprintable character U+{code:04X}"),
    }
}

/// Appends what is wrong with the characters of a card, and what to do if punching doesn't help.
fn push_wrong(text: &mut String, wrong: &WrongCharacters) -> Result<(), AllocError> {
    push_character(text, wrong.first)?;
    let more = wrong.more;
    if more > 0 {
        write!(text, ", or {more} more after it")?;
    }
    if is_typed(wrong.first) {
        Ok(())
    } else if is_shown(wrong.first) {
        text.push_str("; write one that cards have in its place")
    } else {
        text.push_str("; take it out")
    }
}

/// Appends what is wrong with a card, and where.
fn push_fault(
    text: &mut String,
    report: Report,
    place: CardPlace<'_>,
    fault: &UnreadCard,
) -> Result<(), AllocError> {
    match fault {
        UnreadCard::Wide(columns) => {
            let reason = PunchReason::TooWide(*columns);
            push_place(text, report, place, COLUMNS + 1)?;
            write!(text, "{reason}")?;
        }
        UnreadCard::Characters(wrong) => {
            push_place(text, report, place, wrong.column)?;
            push_wrong(text, wrong)?;
        }
    }
    text.push_str(end_of(report))
}

/// Appends the place of an error.
fn push_place(
    text: &mut String,
    report: Report,
    place: CardPlace<'_>,
    column: usize,
) -> Result<(), AllocError> {
    match (report, &place.place) {
        (Report::Messages, Some(line)) => {
            push_spot(text, line, column)?;
            text.push_str("error: ")
        }
        _ => write!(text, "{place}, column {column}: "),
    }
}

/// What ends a line about an error.
fn end_of(report: Report) -> &'static str {
    match report {
        Report::Sentences => ".\n",
        Report::Messages => "\n",
    }
}

impl<'a> Unread<'a> {
    /// Notes a card that can't be read.
    fn note(
        &mut self,
        report: Report,
        place: CardPlace<'a>,
        fault: &UnreadCard,
    ) -> Result<(), AllocError> {
        if self.count < REPORTED {
            push_fault(&mut self.lines, report, place, fault)?;
        }
        self.count = self.count.saturating_add(1);
        if let UnreadCard::Characters(wrong) = fault {
            if wrong.is_typed && self.typed.is_none() {
                self.typed = place.place;
            }
        }
        Ok(())
    }

    /// The cards of a deck that can't be read.
    fn of(alloc: Global, deck: &DeckText<'a>, report: Report) -> Result<Unread<'a>, AllocError> {
        let mut unread = Unread {
            lines: String::new(alloc),
            count: 0,
            typed: None,
        };
        let mut rest = deck.text();
        for card in 1..=MAX_CARDS {
            let Some((line, after)) = first_line(rest) else {
                break;
            };
            if let Some(fault) = fault_of(alloc, line)? {
                unread.note(report, deck.place_of(card), &fault)?;
            }
            rest = after;
        }
        Ok(unread)
    }
}

/// Why the files of a deck are none: each card that can't be read, up to twenty of them, how many more there are, and what to do.
/// It is refused only if memory runs out.
pub fn words_of_unread(
    alloc: Global,
    deck: &DeckText<'_>,
    report: Report,
    is_one_file: bool,
) -> Result<String, AllocError> {
    let unread = Unread::of(alloc, deck, report)?;
    let mut text = unread.lines;
    let more = unread.count.saturating_sub(REPORTED);
    match more {
        0 => {}
        1 => text.push_str("Another card can't be read either.\n")?,
        _ => writeln!(text, "Another {more} cards can't be read either.")?,
    }
    push_surplus(&mut text, report, deck)?;
    if let Some(place) = unread.typed {
        push_cure(&mut text, place.file, is_one_file)?;
    }
    Ok(text)
}

/// Appends that a deck has too many cards, if it has.
fn push_surplus(text: &mut String, report: Report, deck: &DeckText<'_>) -> Result<(), AllocError> {
    if deck.card_count() <= MAX_CARDS {
        return Ok(());
    }
    let place = deck.place_of(MAX_CARDS + 1);
    let reason = PunchReason::TooManyCards;
    push_place(text, report, place, 1)?;
    write!(text, "{reason}")?;
    text.push_str(end_of(report))
}

/// Appends what to do with a file of plain text. One file of several isn't punched alone, since the files before it decide how it is
/// punched.
fn push_cure(text: &mut String, file: &str, is_one_file: bool) -> Result<(), AllocError> {
    if file == SHOWN_INPUT {
        return text.push_str(
            "Small letters, tabs and marked letters are punched as cards have them by `bureau punch -`.\n",
        );
    }
    let shown = Shown(file);
    write!(
        text,
        "Small letters, tabs and marked letters are punched as cards have them if a file's name ends in .rpg: rename {shown} so"
    )?;
    if is_one_file {
        let file = Quoted(file);
        write!(text, ", or make a deck of it by `bureau punch {file}`")?;
    }
    text.push_str(".\n")
}
