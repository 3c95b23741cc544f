//! What a halt is about: which job it is of, the source of its program, the file at which it halts, and what the pack has about
//! it. docs/OPERATING.md says what is shown of it.
//!
//! Proved of `look`, which reads the pack for a halt: it keeps each world that is held, and what it gives is of the asked level
//! (`about`). Each record is bytes of sectors of a file that the level's job has in use; its slots are of the level's own area or of the
//! masters, and so are the files of its indexes. Only tested: which of these records, slots and indexes it gives, and the flaw of an
//! index.

#![tactic(auto)]

mod at_fault;
mod begun;
mod evidence;
mod index;
mod looking;
mod reading;
mod total_time;
mod wanted;

pub use at_fault::{Asked, Found, JobFile, key_of};
pub use begun::{Begun, Source};
pub use evidence::{BlockingSlot, CheckedIndex, Evidence, IndexFlaw, RecordRead};
pub use looking::look;
