//! Which columns of a source's cards are to blame for its diagnostics, and what each diagnostic is called. docs/LISTINGS.md has
//! what is marked for each number.
//!
//! `told` is proved to give the diagnostics of a source, in order: those of `read_sheets`, or if there are none those of
//! `compile`. For a diagnostic of a single card, `entries_of` is proved to give the entries of `faulty_entries` of `s3_sheets`,
//! and `columns_of` their columns. For 5 to 12, each marked entry is proved to be one that the number's condition tests on cards
//! of that kind (`AreTested`): two sources that differ only in this entry of one card have and don't have the number, as in
//! `specs/Inner/Entries.antt`. The entries that have to be marked are defined by their card and by what the lines of the source define
//! (`own_marks` of `specs/Inner/OwnMarks.antt`): for 5 the names without a definition, for 6 what is defined a second time or otherwise,
//! for 8 the form that a field can't have. Each of them is proved to be marked, and no other entry, but for five numbers on some kinds of
//! cards (`is_open`). `Known` is proved to have the first definition of each name. Only tested: which entries are marked for 7
//! and 11 on a field card, 8 and 9 on a C card, and 12 on a line card.

#![tactic(auto)]

mod calculations;
mod columns;
mod files;
mod inputs;
mod known;
mod lines;
mod outputs;
mod parts;
mod sources;
mod walk;
mod words;

pub use columns::{columns_of, entries_of};
pub use known::Known;
pub use s3_sheets::FaultyEntry;
pub use sources::told;
pub use words::diagnostic_words;
