//! Decks punched of plain text. docs/PUNCHING.md has the rules.
//!
//! What is proved, for any bytes (`punch`):
//!
//! - if nothing is reported, the resulting text is a deck that `Deck::read` of `s3_cards` takes (`sound`);
//! - a deck without carriage returns, and outside of data without blank lines and without lines that begin with `#` or `%`, comes
//!   out as it was, byte for byte, unless remarks are blanked (`same`);
//! - the text, the line that each card is of, the list of all that is wrong, and the part of the deck after the text are those of
//!   the definitions in `specs/Inner`: each character in its column, tabs at their stops, pieces in their columns, parts of a deck by
//!   its `//`, `/*` and `/&` cards.
//!
//! `text_of_cards` gives a line of characters for each card of 80 bytes in EBCDIC, and each byte that is no character, with its card
//! and column. `is_ebcdic_deck` is whether a file has whole cards of which the first has only characters of EBCDIC.
//!
//! `typed_column` gives the column of a plain line that has a column of its card: the same column if the line has no tabs.
//!
//! Only tested: that column in a line in pieces; what is reported of changes, and the texts of faults. Not proved: that the parts of a deck are those that `s3_ocl` reads,
//! or that memory is reported to run out only if it was refused.

#![tactic(auto)]

mod change;
mod characters;
mod deck;
mod ebcdic;
mod fault;
mod finding;
mod form;
mod layout;
mod line;
mod part;
mod pieces;
mod stops;
mod typed;

pub use change::{Changes, LineChange};
pub use deck::{Begun, Punched, punch};
pub use ebcdic::{CARD_BYTES, CardByte, CardsText, is_ebcdic_deck, text_of_cards};
pub use fault::{PunchFault, PunchReason};
pub use part::Part;
pub use typed::{CardColumns, typed_column};
