//! The layout of a file's records, read from the source of a program: what a program reads is what a person sees.
//!
//! A layout is proved to have exactly the fields of the lines for the chosen file and type of records, the record length and the
//! key of the file's line, and the types of the file with their record identification codes (`IsLayoutOf`). It has at least one field,
//! and no two of one name. Each field is within the records, and has a form that a program can read. A layout of whole records has the
//! same without fields (`IsWholeOf`). `read_types` is proved to give the indicators of a file's types. Each call is proved to be safe
//! and to return, and to refuse a source for exactly the first reason that applies (`specs/Inner/Refusals.antt`). Only tested: that
//! memory which is granted suffices, and the texts of refusals.
#![tactic(auto)]

mod choosing;
mod columns;
mod entries;
mod fault;
mod kinds;
mod reading;

pub use choosing::Choice;
pub use fault::LayoutFault;
pub use reading::{SourceLayout, read_layout, read_types, read_whole};
