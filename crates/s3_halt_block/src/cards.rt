//! Cards of a deck, each with its place and under a ruler.

use s3_cards::{Card, Deck};
use s3_decks::{Columns, DeckText, push_ruled};
use std::alloc::AllocError;

/// The cards of a deck, and where they are in its files.
#[derive(Clone, Copy)]
pub(crate) struct DeckCards<'a> {
    pub(crate) text: &'a DeckText<'a>,
    pub(crate) deck: &'a Deck,
}

impl<'a> DeckCards<'a> {
    /// The card of a number, from 1.
    pub(crate) fn card(&self, number: usize) -> Option<&'a Card> {
        self.deck.card(number.checked_sub(1)?)
    }

    /// Appends a place, `card 28 (day1.job, line 28)`.
    pub(crate) fn push_place(&self, text: &mut String, number: usize) -> Result<(), AllocError> {
        let place = self.text.place_of(number);
        write!(text, "{place}")
    }

    /// Appends a card under a ruler, with some columns marked.
    pub(crate) fn push_card(
        &self,
        text: &mut String,
        number: usize,
        marked: &[Columns],
    ) -> Result<(), AllocError> {
        match self.card(number) {
            Some(card) => push_ruled(text, card, marked),
            None => Ok(()),
        }
    }

    /// Appends a line of some words and a card's place, and the card.
    pub(crate) fn push_named_card(
        &self,
        text: &mut String,
        words: &str,
        number: usize,
        marked: &[Columns],
    ) -> Result<(), AllocError> {
        write!(text, "  {words} ")?;
        self.push_place(text, number)?;
        text.push('\n')?;
        self.push_card(text, number, marked)
    }
}
