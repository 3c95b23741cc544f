//! The diagnostics 5 to 12 of a whole source: each on the line on which its condition holds, given what all the lines define.
//!
//! The conditions are those of `s3_program`; docs/LANGUAGE.md, "Diagnostics", has them in words. The tables of what lines define
//! come from `s3_compile`. `compile_diagnostics` is proved to give exactly each line with each number of 5 to 12 whose condition
//! holds for it, and 12 on the RUN card if there isn't exactly one primary file, in order by card and number
//! (`diagnostics_are_in_order`). The numbers 9, 10 and 11 are also stated as conditions on the whole source, and proved to be the
//! same (`nine_is_for_lines_without_place`, `ten_is_for_lines_that_stray`, `eleven_is_for_mismatched_lines`). Some hundred
//! sources, whose lists were worked by hand, are computed by the proofs (`samples_have_their_diagnostics`). Only tested: that
//! memory is reported to run out only if an allocation was refused.

#![tactic(auto)]

pub mod behind;
mod conditions;
mod diagnose;
pub mod files;
mod indications;
pub mod jumps;
pub mod matching;
pub mod meant;
mod operands;
mod order;
pub mod places;
mod redefined;
pub mod rows;
mod samples;
pub mod shapes;
pub mod standing;
pub mod tables;
mod undefined;
mod uses;
mod whole;

pub use diagnose::compile_diagnostics;
pub use order::diagnostics_are_in_order;
pub use samples::samples_have_their_diagnostics;
pub use whole::{
    eleven_is_for_mismatched_lines, lines_that_stray_are_as_worked,
    lines_without_place_are_as_worked, mismatched_lines_are_as_worked,
    nine_is_for_lines_without_place, ten_is_for_lines_that_stray,
};
