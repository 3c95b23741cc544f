//! Words for entries of cards and for what fields hold.

use s3_cards::ebcdic::BLANK;
use s3_cards::{Card, trim_end};
use s3_decks::push_characters;
use s3_lines::sheet::Shape;
use std::alloc::AllocError;

/// Columns of a card, from 1.
#[derive(Clone, Copy)]
pub struct Entry {
    /// The first column.
    pub from: usize,
    /// The last column.
    pub to: usize,
}

/// The codes of an entry; none outside the card.
pub fn codes_of(card: &Card, entry: Entry) -> &[u8] {
    card.get(entry.from.saturating_sub(1)..entry.to)
        .unwrap_or(&[])
}

/// Appends what a card has in an entry, without the blanks around it.
pub fn push_entry(text: &mut String, card: &Card, entry: Entry) -> Result<(), AllocError> {
    let codes = codes_of(card, entry);
    let before = codes.iter().take_while(|code| **code == BLANK).count();
    push_characters(text, trim_end(codes.get(before..).unwrap_or(&[])))
}

/// Appends what a field or a literal holds: `a text of 3 characters`, `a number of 5 digits with 2 decimals`.
pub fn push_shape(text: &mut String, shape: Shape) -> Result<(), AllocError> {
    match shape {
        Shape::Alphanumeric(1) => text.push_str("a text of 1 character"),
        Shape::Alphanumeric(length) => write!(text, "a text of {length} characters"),
        Shape::Numeric(digits, decimals) => {
            write!(
                text,
                "a number of {digits} {}",
                if digits == 1 { "digit" } else { "digits" }
            )?;
            match decimals {
                0 => Ok(()),
                1 => text.push_str(" with 1 decimal"),
                _ => write!(text, " with {decimals} decimals"),
            }
        }
    }
}
