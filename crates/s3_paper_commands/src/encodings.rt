//! Encodings of files in which no text is read.

use crate::unread::is_card;
use s3_cards::first_line;
use s3_decks::{Encoding, encoding_of};
use s3_punch::{CARD_BYTES, is_ebcdic_deck};
use s3_refusals::{WideText, wide_text};

/// Why a text isn't read, by the bytes with which it begins, and what to do: words after its name. `None` for a text in an encoding that is
/// read.
pub fn encoding_words(bytes: &[u8]) -> Option<&'static str> {
    match encoding_of(bytes) {
        Some(Encoding::Utf16) => Some(wide_words(wide_text(bytes))),
        Some(encoding) => Some(encoding.words()),
        None => None,
    }
}

/// The words for a text with two or four bytes a character.
fn wide_words(wide: Option<WideText>) -> &'static str {
    match wide {
        Some(WideText::Utf32Marked | WideText::Utf32Low | WideText::Utf32High) =>
            "is text in UTF-32; save it as plain text, or as UTF-8 without a byte order mark",
        Some(WideText::Utf16Marked | WideText::Utf16Low | WideText::Utf16High) | None =>
            Encoding::Utf16.words(),
    }
}

/// Whether the first line of a file is a card.
fn begins_with_card(bytes: &[u8]) -> bool {
    match first_line(bytes) {
        Some((line, _after)) => is_card(line),
        None => false,
    }
}

/// A blank in EBCDIC.
const EBCDIC_BLANK: u8 = 0x40;

/// The line feed of EBCDIC, with which `iconv` ends lines.
const EBCDIC_FEED: u8 = 0x25;

/// The new line of EBCDIC, with which some systems end lines.
const EBCDIC_NEW_LINE: u8 = 0x15;

/// A text of which no deck is made as it is, since its codes or its line ends are those of other systems.
#[derive(Clone, Copy, PartialEq, Eq)]
pub enum ForeignText {
    /// Cards of 80 columns in EBCDIC, end to end.
    Cards,
    /// Text in EBCDIC that has line feeds (25).
    LineFeeds,
    /// Text in EBCDIC that has new lines (15), and no line feed.
    NewLines,
    /// Text in EBCDIC without line ends, which isn't whole cards.
    Endless,
    /// Text whose lines end in a carriage return alone.
    CarriageReturns,
}

impl ForeignText {
    /// What a file is, and what to do with it: words after the file's name.
    pub fn words(self) -> &'static str {
        match self {
            ForeignText::Cards =>
                "has cards of 80 columns in EBCDIC; make a deck of it by `bureau punch --from ebcdic80 FILE > NEW`",
            ForeignText::LineFeeds =>
                "looks like a text in EBCDIC with line ends; make a deck of it by `iconv -f IBM037 -t ASCII FILE > NEW`",
            ForeignText::NewLines =>
                "looks like a text in EBCDIC whose lines end in the byte 15; make a deck of it by `tr '\\025' '\\045' < FILE | iconv -f IBM037 -t ASCII > NEW`",
            ForeignText::Endless =>
                "looks like EBCDIC without line ends, and isn't whole cards of 80 columns; fill its last card up with blanks (40), and make a deck of it by `bureau punch --from ebcdic80 FILE > NEW`",
            ForeignText::CarriageReturns =>
                "has lines that end in a carriage return alone; change their ends by `tr '\\r' '\\n' < FILE > NEW`",
        }
    }

    /// What a file that is punched is, and what to do with it: words after `the file`.
    pub fn words_of_punch(self) -> &'static str {
        match self {
            ForeignText::Cards => "has cards of 80 columns in EBCDIC; give --from ebcdic80",
            _ => self.words(),
        }
    }
}

/// The kind of a text of which no deck is made as it is; `None` for any other text. Text in EBCDIC has neither a line feed nor a blank of
/// ASCII, and most of its bytes are letters and digits, above 7F, or blanks, 40.
pub fn foreign_text(bytes: &[u8]) -> Option<ForeignText> {
    if is_ebcdic_deck(bytes) && !begins_with_card(bytes) && !ends_line(bytes) {
        Some(ForeignText::Cards)
    } else if bytes.contains(&b'\n') {
        None
    } else if looks_like_ebcdic(bytes) {
        Some(ebcdic_text(bytes))
    } else if bytes.contains(&b'\r') {
        Some(ForeignText::CarriageReturns)
    } else {
        None
    }
}

/// Whether a line of EBCDIC ends after 80 bytes.
fn ends_line(bytes: &[u8]) -> bool {
    match bytes.get(CARD_BYTES) {
        Some(byte) => *byte == EBCDIC_FEED || *byte == EBCDIC_NEW_LINE,
        None => false,
    }
}

/// Whether a text without line feeds of ASCII looks like EBCDIC.
fn looks_like_ebcdic(bytes: &[u8]) -> bool {
    let marks = bytes.iter().filter(|byte| **byte > 0x7f).count();
    let blanks = bytes.iter().filter(|byte| **byte == EBCDIC_BLANK).count();
    let is_most = marks.saturating_add(blanks) > bytes.len() / 2;
    marks > 0 && blanks > 0 && is_most && !bytes.contains(&b' ')
}

/// The kind of a text in EBCDIC, by its line ends.
fn ebcdic_text(bytes: &[u8]) -> ForeignText {
    if bytes.contains(&EBCDIC_FEED) {
        ForeignText::LineFeeds
    } else if bytes.contains(&EBCDIC_NEW_LINE) {
        ForeignText::NewLines
    } else {
        ForeignText::Endless
    }
}

/// Why the file of a deck isn't read, by its bytes, and what to do: words after its name. `None` for a file that may be a deck.
pub fn deck_encoding_words(bytes: &[u8]) -> Option<&'static str> {
    match encoding_words(bytes) {
        Some(words) => Some(words),
        None => foreign_text(bytes).map(|text| text.words()),
    }
}
