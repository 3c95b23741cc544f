//! The cards on which a name or an indicator is.

use std::alloc::{AllocError, Global};

/// The cards on which a name or an indicator is, in their order. A card that names it several times is listed once.
#[derive(Drop)]
pub struct Cards {
    /// Those that define the name, or set the indicator.
    pub defining: Vec<u16>,
    /// Those that use the name, or test the indicator.
    pub using: Vec<u16>,
    /// All of them.
    pub all: Vec<u16>,
}

impl Cards {
    /// One card.
    pub fn of(alloc: Global, card: u16, defines: bool) -> Result<Cards, AllocError> {
        let mut cards = Cards {
            defining: Vec::new(alloc),
            using: Vec::new(alloc),
            all: Vec::new(alloc),
        };
        cards.add(card, defines)?;
        Ok(cards)
    }

    /// Adds a card that is after those that are there, or is the last of them.
    pub fn add(&mut self, card: u16, defines: bool) -> Result<(), AllocError> {
        add_card(&mut self.all, card)?;
        if defines {
            add_card(&mut self.defining, card)
        } else {
            add_card(&mut self.using, card)
        }
    }
}

/// Adds a card after others, unless it is the last of them.
fn add_card(cards: &mut Vec<u16>, card: u16) -> Result<(), AllocError> {
    if !cards.last().is_some_and(|last| *last == card) {
        cards.push(card)?;
    }
    Ok(())
}

/// Appends the numbers of cards after a word; nothing if there is no card.
pub fn push_cards_behind(text: &mut String, word: &str, cards: &[u16]) -> Result<(), AllocError> {
    if cards.is_empty() {
        return Ok(());
    }
    text.push_str(word)?;
    push_numbers(text, cards)
}

/// Appends the numbers of cards, each after a blank.
pub fn push_numbers(text: &mut String, cards: &[u16]) -> Result<(), AllocError> {
    for card in cards {
        write!(text, " {card:04}")?;
    }
    Ok(())
}
