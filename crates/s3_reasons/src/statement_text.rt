//! The text of a statement, put together from its cards.

use s3_cards::{Card, trim_end};
use s3_decks::push_characters;
use std::alloc::{AllocError, Global};

/// What a card in the place of a statement has, in characters.
#[derive(Drop)]
pub struct CardText {
    text: String,
}

impl CardText {
    /// The characters of a card without the blanks at its end.
    pub fn of(alloc: Global, card: &Card) -> Result<CardText, AllocError> {
        let mut text = String::new(alloc);
        push_characters(&mut text, trim_end(card))?;
        Ok(CardText { text })
    }

    /// Whether the card is blank.
    pub fn is_blank(&self) -> bool {
        self.text.is_empty()
    }

    /// Whether the card begins with these characters.
    pub fn begins(&self, characters: &str) -> bool {
        self.text.as_str().starts_with(characters)
    }

    /// The word of a place after `//`, from 0; an empty one if there are fewer, or no `//` and a blank.
    pub fn word(&self, place: usize) -> &str {
        let mut words = self.text.as_str().split_ascii_whitespace();
        if words.next() != Some("//") {
            return "";
        }
        words.nth(place).unwrap_or("")
    }
}

/// The part of a card in its statement.
#[derive(Clone, Copy, PartialEq, Eq)]
pub enum Part {
    /// It begins a statement.
    Beginning,
    /// The parameters of the card before continue here.
    Continuation,
}

impl Part {
    /// The place of the word that has the card's parameters.
    pub fn place(self) -> usize {
        match self {
            Part::Beginning => 1,
            Part::Continuation => 0,
        }
    }

    /// The part of the next card, given this one and its text.
    pub fn next(self, card: &CardText, next: &CardText) -> Part {
        let is_open = card.word(self.place()).ends_with(",");
        if is_open && !next.word(0).is_empty() {
            Part::Continuation
        } else {
            Part::Beginning
        }
    }
}
