//! Warnings: what the language allows in a source, and what is probably wrong. docs/LISTINGS.md has what each kind is about.
//!
//! `warnings_of` is proved to give exactly the warnings of `specs/Inner/Warnings.antt`, in the order of the cards, and
//! `WarningKind::words` the text of one table. Small sources with their warnings, in `specs/Inner/Samples.antt`, are computed by
//! the proofs.

#![tactic(auto)]

mod contradictions;
mod entries;
mod files;
mod indicators;
mod kinds;
mod known;
mod overlaps;
mod results;
mod samples;
mod shapes;
mod warnings;

pub use kinds::{Warning, WarningKind};
pub use samples::samples_have_their_warnings;
pub use warnings::warnings_of;
