//! The records of a file on a pack, written out for other programs: as a table in CSV, as texts, in hexadecimal digits
//! or as records of a fixed length.
//!
//! What is proved, for every pack, layout and writer:
//!
//! - `unload` writes exactly the heading and a row for each chosen record of the file, in the order of the keys if it has an
//!   index: the cells that show the values of the layout's fields, each of which can be shown. It returns how many records aren't
//!   chosen (`wrote`);
//! - it is refused only by the pack's header, its labels and the index, if a value can't be shown, or if memory or the
//!   writer fails (`refused`). The pack's bytes aren't changed.
//! - what it writes with commas reads as the heading and those rows, by the rules of a reader of CSV
//!   (`a_table_reads_as_its_rows`);
//! - `unload_lines` writes exactly a line for each record: its characters, each of which it has, or two hexadecimal digits for
//!   each byte (`wrote`); it is refused by the header, the labels, a byte without a character, memory and the writer alone
//!   (`refused`);
//! - `unload_fixed` writes exactly the chosen records, in the order of the keys if there is an index: their bytes, or their characters,
//!   with a line feed after each if the form has one. It returns how many records aren't chosen (`wrote`). It is refused by the header, the labels, the index, a byte without
//!   a character, memory and the writer alone (`refused`). Its texts are read again by `s3_load`.
//!
//! Only tested: which values `hidden_values` finds, and how many; each that it finds is proved to be one that can't be shown (`fault_in`).
//!
//! A chosen record that has a value that can't be shown is reported by its number in the file; that it is the first one of the table, that
//! the reported field and position are the ones in error, and that the rows before it are written and nothing after other
//! refusals, is only tested. So is what is written with another delimiter than the comma, as what it reads, and the texts of
//! refusals.
#![tactic(auto)]

mod fault;
mod fixed;
mod found;
mod hidden;
mod laws;
mod lines;
mod ordered;
mod rows;
mod writing;

pub use fault::UnloadFault;
pub use fixed::{FixedForm, unload_fixed};
pub use found::find_file;
pub use hidden::{HiddenValue, HiddenValues, hidden_values};
pub use laws::a_table_reads_as_its_rows;
pub use lines::{LineForm, unload_lines};
pub use writing::unload;
