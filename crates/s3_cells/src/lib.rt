//! The fields of a file's records, and their values as cells of a table.
//!
//! `Field::show` is proved to write the cell of a field's value, and to refuse exactly a text with a byte that no card has and a
//! number with a digit above 9. `Field::take` is proved to put the value of a cell into the field's bytes and no others, and to
//! refuse exactly a cell without a value or with one that the field can't hold. The two are proved to undo each other
//! (`what_is_taken_is_shown`, `what_is_shown_is_taken`, `a_cell_reads_back`) in each format of cells: point or comma, thousands,
//! apostrophes before formulas, small letters, and dates. `Layout::with_cells` is proved to change only the format. Only tested:
//! which fault is reported for a cell that is refused, the position of a byte without a character, and the texts of faults.
#![tactic(auto)]

mod dates;
mod fault;
mod field;
mod forms;
mod kind;
mod laws;
mod layout;
mod marks;
mod numbers;
mod styles;
mod texts;

pub use dates::DateField;
pub use fault::{CellFault, ShowFault};
pub use field::Field;
pub use kind::FieldKind;
pub use laws::{a_cell_reads_back, what_is_shown_is_taken, what_is_taken_is_shown};
pub use layout::Layout;
pub use marks::{DecimalMark, NumberCells, TextCells, Thousands};
pub use styles::CellStyle;
pub use texts::{place_without_character, trimmed};
