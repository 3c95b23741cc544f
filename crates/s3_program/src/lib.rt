//! A compiled program: the lines of its source, with slots for names.
//!
//! The crate also has the conditions of the diagnostics 5 to 12, each as a test of a line in its context; the diagnostics of a
//! source and the validity of a program use the same tests. A program that `translate` makes is proved to represent its source:
//! with names in place of the slots it is the source itself. Each program is proved valid: slots are there and of the right kind,
//! entries in their ranges, positions within their records, calls at most eight deep (`calls_go_eight_deep`), and no condition of
//! 5 to 12 holds. Its tables say where record types, output lines and sections begin (`the_source_starts_there`). Worked
//! programs, right and wrong ones, are computed by the proofs (`worked_programs`). Only tested: that memory is reported to run
//! out only if an allocation was refused.
#![tactic(auto)]

pub mod call;
mod copied;
pub mod defining;
pub mod definitions;
pub mod laws;
pub mod mark;
pub mod program;
pub mod row;
pub mod standing;
mod starting;
pub mod starts;
mod translation;

pub use translation::translate;
