//! The files of a pack, written out: `list` for programs, `write_table` for people. docs/PACK.md has both, under "Commands".
//!
//! `list` is proved to write exactly the text of the used slots of the three areas (`wrote`). It is proved to be refused only by
//! the header, or if memory is refused or the writer fails (`refused`). `mount_slots` is proved to give the slots that a mount
//! finds (`slots`). Worked examples of lines are computed by the proofs (`slots_are_shown`). `write_table`, `free_room` (the
//! space of a pack) and `file_size` are only proved to be safe and to return; their texts and counts are tested. What a writer
//! that fails has written isn't specified.

#![tactic(auto)]

mod fault;
mod laws;
mod lines;
mod room;
mod table;
mod written;

pub use fault::ListFault;
pub use laws::slots_are_shown;
pub use room::{FileSize, FreeRoom, SlotFile, file_in_slot, file_size, free_room, room_of};
pub use table::{area_title, write_table};
pub use written::{list, mount_slots};
