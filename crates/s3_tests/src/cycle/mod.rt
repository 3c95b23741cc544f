//! Which instructions the cycle makes of the cards of a source.

mod decks;
mod decoding;
