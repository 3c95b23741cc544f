//! The compiler: programs of whole sources, or their diagnostics.
//!
//! It fills tables with what the lines define, and finds the calls of subroutines that are forbidden: those in a circle, or the
//! ninth of a chain. It asks `s3_diagnose` for the diagnostics 5 to 12, and if there are none has `s3_program` make the program.
//! `compile` is proved, for all lines that `read_sheets` of `s3_sheets` gives, to give a program that represents its source if
//! the source has no diagnostic, and else exactly the list of its diagnostics, in order by card and number
//! (`diagnostics_are_in_order`). Only tested: that memory is reported to run out only if an allocation was refused, and the texts
//! of faults.

#![tactic(auto)]

mod chains;
mod circles;
mod compiler;
mod file_places;
mod forbidden;
mod known;
mod marking;
mod naming;
mod noting;
mod reaching;

pub use compiler::{CompileFault, compile};
pub use s3_diagnose::diagnostics_are_in_order;
pub use s3_lines::Diagnostic;
pub use s3_lines::sheet::Line;
pub use s3_program::program::Program;
