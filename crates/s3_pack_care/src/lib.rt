//! The care of a pack's files outside of jobs: a file is deleted from an area, copied into one, or sorted.
//!
//! For each call that succeeds it is proved that every other slot is classified as before and every other file has the same bytes
//! (`IsWithout`, `IsWith`, `IsSorted`), and which bytes of the pack may change (`ChangesBytes`). `delete` fills the slot with
//! zeros. `copy` gives the copy the bytes of the source and its label, except for the name and the place (`IsCopy`); the copy
//! gets a free slot, and sectors that no slot of the pack may have held. `sort` leaves the same records in order, and records
//! with equal keys keep their order (`IsArranged`); it works in the file's own sectors, in n log n comparisons. A refusal is
//! proved to come only if its condition holds, and a call that succeeds meets no condition of a refusal; a refused call leaves
//! the caller's pack unchanged. That a call runs out of memory only if the allocator refused it isn't proved.

#![tactic(auto)]

mod copying;
mod deleting;
mod fault;
mod fields;
mod keys;
mod rank_laws;
mod relabelling;
mod rows;
mod saving;
mod sort_fault;
mod sorting;

pub use copying::copy;
pub use deleting::{Chosen, delete};
pub use fault::CareFault;
pub use fields::{Form, SortField};
pub use rank_laws::ranks_are_in_the_order_of_numbers;
pub use relabelling::{MountedPack, mount};
pub use saving::{bytes_after, saved};
pub use sort_fault::SortFault;
pub use sorting::sort;
