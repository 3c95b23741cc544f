//! One record of a file of a pack, amended: fields that are named get values, as the cells of a table give them.
//!
//! After `amend` the file's records are proved to be the same, except for the one that is chosen: the record of the
//! number, or the first that has the key. There each named field has its new value, and all other bytes are as they
//! were. That record was of the chosen type, and still is, and no named field has a byte of the file's key, so the
//! index still matches the records. No other byte of the pack changes, apart from unused bytes of the file's sectors.
//! Each call is proved to be safe and to return, and a refused call returns no pack. Only tested: which mistakes are
//! reported, and when an amendment is refused.
#![tactic(auto)]

mod amending;
mod amendment;
mod choosing;
mod fault;
mod fields;

pub use amending::{Amended, AmendedRecord, amend};
pub use amendment::{Amendment, Setting, Which};
pub use fault::{AmendFault, Mistake};
