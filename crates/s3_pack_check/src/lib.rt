//! All that is wrong with a pack: labels that are damaged, each with the reason, and indexes that don't match their records, each
//! with the first entry in error.
//!
//! `check_pack` is proved to report exactly what is specified, slot by slot and index by index (`told`). It is proved to be
//! refused only by the header, or if memory is refused (`refused`). It reports nothing exactly if each used slot is sound and
//! each index good (`nothing_is_told_of_a_sound_pack`). Not proved: that each bad index has an entry in error. If none is found,
//! the index is reported without an entry.

#![tactic(auto)]

mod checking;
mod damage;
mod entries;
mod fault;
mod laws;
mod words;

pub use checking::{Cause, Wrong, check_pack, file_bytes, first_damaged, region_of, sector_count};
pub use damage::{Damage, damage_of};
pub use entries::{EntryFlaw, WrongEntry};
pub use fault::CheckFault;
pub use laws::nothing_is_told_of_a_sound_pack;
pub use words::push_cause;
