//! Listings of sources: each card with its diagnostics, and then what the program has. docs/LISTINGS.md says what they look like.
//!
//! `notes_of_cards` is proved to give for each card exactly its numbers among a source's diagnostics, in order, each with the
//! columns of the card's entries that are in error by it. `messages_of` is proved to give a message for each diagnostic of a
//! source, with the columns of its first marked entry, and one for each kind of warning of a card. `s3_blame` has the
//! diagnostics, their entries and their texts, and `s3_warnings` the warnings. Each call is proved to be safe and to return. Only
//! tested: the form of messages, the layout, the tables after the cards, and the marked columns for 5 to 12.

#![tactic(auto)]

mod card_lines;
mod cards;
mod deck_messages;
mod files;
mod index;
mod indicators;
mod listing;
mod margin;
mod messages;
mod names;
mod notes;
mod source;
mod tables;
mod warned;

pub use cards::Cards;
pub use deck_messages::{CardMessage, DeckMessages, Severity, messages_of_deck, messages_of_job};
pub use files::words_of_use;
pub use index::{Indicators, Names, indicators_of, names_of};
pub use indicators::push_indicator;
pub use listing::{Outcome, write_listing};
pub use messages::{ErrorMessage, RunCard, SourceMessages, WarningMessage, messages_of};
pub use names::Sort;
pub use notes::{CardNotes, Note, notes_of_cards, notes_under};
pub use source::{HIDDEN, SourceRange};
