//! Why a card has a fault: what was found there, and what belongs there. docs/MESSAGES.md has the faults and the diagnostics.
//!
//! Each call is proved to be safe and to return. Which entries are to blame is proved in `s3_blame`, and which card of a job has
//! which fault in `s3_ocl`. The texts are tested.

#![tactic(auto)]

mod calculations;
mod entries;
mod outputs;
mod parameters;
mod phrases;
mod similar;
mod sources;
mod statement_text;
mod statements;

pub use sources::{Reasons, reasons_of};
pub use statements::statement_reason;
