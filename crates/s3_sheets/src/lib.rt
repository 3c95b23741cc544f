//! The sheets of an RPG II source: typed lines, and the diagnostics of single cards.
//!
//! The rules are a table for each kind of card, and conditions on columns together; docs/LANGUAGE.md, "Sheets", has them in
//! words. `read_sheets` is proved to give the typed lines of the cards, in order, or exactly the list of the cards' diagnostics 1
//! to 4 and 13; each entry of a line is in its range, and each position within its record. `faulty_entries` is proved to give
//! exactly the entries that are in error by these numbers (`numbers_stand_on_entries`). Worked examples are computed by the
//! proofs: 361 cards, eight sources, a source with every entry, and the entries in error on 28 cards (`cards_get_their_numbers`,
//! `sources_get_their_pairs`, `every_entry_is_read`, `cards_get_their_marks`). Only tested: that memory is reported to run out
//! only if an allocation was refused, and the texts of faults.

#![tactic(auto)]

mod columns;
mod combinations;
mod entries;
mod fault;
mod faults;
mod indicators;
mod kind;
mod known;
mod laws;
mod lines;
mod operations;
mod parts;
mod progress;
mod reading;
mod rules;
mod tables;
mod words;

pub use columns::column;
pub use entries::constants_as_written;
pub use fault::SheetFault;
pub use laws::{
    cards_get_their_marks, cards_get_their_numbers, every_entry_is_read, sources_get_their_pairs,
};
pub use parts::{FaultyEntry, faulty_entries, numbers_stand_on_entries};
pub use reading::read_sheets;
pub use s3_lines::Diagnostic;
pub use s3_lines::sheet::Line;
