//! Why a text gives no deck.

use thiserror::Error;

/// What is wrong at a place of a text.
#[derive(Clone, Copy, Debug, Error)]
pub enum PunchReason {
    /// No card has the character, and the table has no plain one for it.
    #[error("no card has the character {0}; write one that cards have in its place")]
    NoCardHas(char),
    /// The card has so many columns, more than 96.
    #[error("the card has {0} columns, and there are no more than 96; shorten it")]
    TooWide(usize),
    /// A piece doesn't begin with a column and a colon.
    #[error("a piece is a column from 1 to 96, a colon and a text, as 6:H is; this is none")]
    NoPiece,
    /// A piece lies over an earlier one of its card.
    #[error("this piece lies over an earlier one; begin it in a column that is free")]
    Overlaps,
    /// A text in apostrophes isn't ended.
    #[error("behind this apostrophe a second one is missing; end the text with it")]
    OpenText,
    /// There are 9,999 cards already.
    #[error("the deck has 9,999 cards already, which is the most; make two of it")]
    TooManyCards,
}

/// A place of a text at which something is wrong.
#[derive(Clone, Copy)]
pub struct PunchFault {
    /// The number of the line, from 1.
    pub line: usize,
    /// The place of the character in its line, from 1; each character counts as one, a tab too. If a card is too wide it is
    /// the first column that no card has, 97.
    pub column: usize,
    /// What is wrong.
    pub reason: PunchReason,
}
