//! What an output line writes: the bytes of its numbers, the record that is composed, how it moves the carriage, and its request.
//!
//! Proved:
//!
//! - `Composition::clear`, `lay` and `lay_number`: each position has what the reference model puts there.
//! - `Carriage::print`, `to_print` and `after_print`: where a line is printed, and where the carriage is afterwards.
//! - `disk_request`: which request writes a record into its file.
//! - Worked examples of the carriage and of numbers (`worked_rows_of_the_carriage`, `worked_rows_of_numbers`).
#![tactic(auto)]

pub mod carriage;
pub mod composition;
pub mod conditions;
pub mod laws;
pub mod numbers;
pub mod requests;
