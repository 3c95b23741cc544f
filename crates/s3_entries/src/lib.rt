//! The entries of the sheets: for each kind of card its entries, with their columns, the names that IBM's sheets print, and what
//! may be in them.
//!
//! The columns of an entry are a constant, as `file::KEY_LENGTH`, which the reader of the sheets and its definitions name.
//! `bureau entries` lists the entries, and the editors' files are made from that list. `entries_of` is proved to give for each
//! kind of card the columns of `specs/Inner/Spans.antt`, in ascending order. `s3_tests` proves that the rules of the sheets, tabs
//! and the marks of diagnostics use the same columns. The names and the allowed values are only tested.

#![tactic(auto)]

pub mod calculation;
mod entry;
pub mod file;
mod form;
pub mod header;
pub mod input;
pub mod output;
pub mod shared;
mod span;
mod tables;

pub use entry::Entry;
pub use form::CardForm;
pub use span::Span;
pub use tables::entries_of;
