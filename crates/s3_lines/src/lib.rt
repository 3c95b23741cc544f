//! The lines of the sheets of an RPG II source: typed lines, indicators, diagnostics, and the names that no sheet defines. The
//! reader of the sheets and the compiler share them.
//!
//! The crate is mostly types. Its definitions say what entries may be for the whole language: the ranges of single entries, and
//! which lists of lines are those of cards without an error of their own (`are_read`). The reader is proved to give such lines,
//! and the compiler requires them. Proved here: which names are reserved (`is_reserved`), the numbers of indicators, below 2,048
//! (`Indicator::number`, `Indicator::is`), and the designation, use and device of a file. Nothing is left to tests alone.

#![tactic(auto)]

pub mod diagnostic;
pub mod indicator;
pub mod reserved;
pub mod sheet;

pub use diagnostic::Diagnostic;
pub use reserved::is_reserved;
