//! The numbers before the cards of a listing: the line of the file, and the card's number in the deck if that is another.

use s3_decks::DeckText;
use std::alloc::AllocError;

/// The columns of a card's number after that of its line, as ` (0003)`.
const CARD_WIDTH: usize = 7;

/// The numbers of a card.
#[derive(Clone, Copy)]
pub struct Numbers {
    /// The line of its file, from 1.
    line: usize,
    /// Its number in the deck, from 1.
    card: usize,
}

impl Numbers {
    /// The numbers of a card of a deck, by its number from 1.
    pub fn of(files: &DeckText<'_>, card: usize) -> Numbers {
        let line = match files.place_of(card).place {
            Some(place) => place.line,
            None => card,
        };
        Numbers { line, card }
    }

    fn differ(self) -> bool {
        self.line != self.card
    }
}

/// The widths of the numbers before some cards.
#[derive(Clone, Copy)]
pub struct Margin {
    digits: usize,
    has_cards: bool,
}

impl Margin {
    /// The widths for some cards of a deck, by the numbers of the first and the last one.
    pub fn of(files: &DeckText<'_>, first: usize, last: usize) -> Margin {
        let mut margin = Margin {
            digits: digits_of(0),
            has_cards: false,
        };
        for card in first..last.saturating_add(1) {
            margin = margin.with(Numbers::of(files, card));
        }
        margin
    }

    /// The widths for one card more.
    fn with(self, numbers: Numbers) -> Margin {
        Margin {
            digits: self.digits.max(digits_of(numbers.line)),
            has_cards: self.has_cards || numbers.differ(),
        }
    }

    /// Appends the numbers of a card after a blank.
    pub fn push(self, text: &mut String, numbers: Numbers) -> Result<(), AllocError> {
        text.push(' ')?;
        let line = numbers.line;
        push_times(text, '0', self.digits.saturating_sub(digits_of(line)))?;
        write!(text, "{line:04}")?;
        if numbers.differ() {
            let card = numbers.card;
            write!(text, " ({card:04})")?;
        }
        Ok(())
    }

    /// Appends what comes between the numbers of a card and the card.
    pub fn push_gap(self, text: &mut String, numbers: Numbers) -> Result<(), AllocError> {
        let is_shorter = self.has_cards && !numbers.differ();
        push_times(text, ' ', if is_shorter { CARD_WIDTH } else { 0 })?;
        text.push_str("  ")
    }

    /// Appends as many blanks as there are columns before a card.
    pub fn push_blank(self, text: &mut String) -> Result<(), AllocError> {
        let cards = if self.has_cards { CARD_WIDTH } else { 0 };
        push_times(
            text,
            ' ',
            self.digits.saturating_add(cards).saturating_add(3),
        )
    }
}

/// Appends a character so many times.
fn push_times(text: &mut String, character: char, times: usize) -> Result<(), AllocError> {
    for _time in 0..times {
        text.push(character)?;
    }
    Ok(())
}

/// How many digits the number of a line is written with, at least four: a file has fewer than ten million lines.
fn digits_of(line: usize) -> usize {
    match line {
        0..=9_999 => 4,
        10_000..=99_999 => 5,
        100_000..=999_999 => 6,
        _ => 7,
    }
}
