//! The types of a file's records: which type a record is of, by its record identification codes, and a record that gets the codes
//! of a type.
//!
//! `ChosenRecords::has` is proved to say whether a record is chosen: the first type whose codes all hold has the chosen
//! indicator, as a program would find it. `ChosenRecords::put_codes` is proved to put the codes of the chosen type into a record,
//! and to change no other byte. `ChosenRecords::fault_in` is proved to find nothing exactly if the record is chosen, and to name
//! a code of the type that doesn't hold, if there is one. Only tested: that a record with the codes of a type is of that type,
//! unless an earlier type has all of its codes too or codes of the type contradict each other.
#![tactic(auto)]

mod chosen;
mod codes;
mod kind;

pub use chosen::{ChosenRecords, TypeFault};
pub use kind::RecordKind;
