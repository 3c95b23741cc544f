//! What is wrong with a source, card by card.

/// One thing that is wrong with a card of a source (docs/LANGUAGE.md, "Diagnostics").
#[derive(Clone, Copy, Debug)]
pub struct Diagnostic {
    /// The number of the card in its deck, from 1.
    pub card: u16,
    /// The number of the diagnostic, 1 to 13.
    pub number: u8,
}
