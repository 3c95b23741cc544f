//! Stores of sectors, and the trait of sectors that the layers above share.
//!
//! `PackStore` says what a store does, and `Sectors` what a store or a pool over it does: what a call reads, which sector it
//! sets, and whether it counts as failed. `MemoryStore` is proved to be a `PackStore` that never fails. `FuseStore` is proved to
//! fail at exactly the call that it is set for, and to answer as the store below it at all other calls. Which sectors a call
//! leaves as they were is part of the contracts (`KeepsContents`, `ChangesWithin`). Not specified: which bytes a failed transfer
//! leaves in the caller's buffer. That a real device does what `PackStore` says is a premise.

#![tactic(auto)]

mod extents;
mod fuse;
mod memory;
mod pack_store;
mod part;
mod sector_fault;
mod sectors;
mod stretch;

pub use extents::Extents;
pub use fuse::FuseStore;
pub use memory::MemoryStore;
pub use pack_store::{PackStore, StoreFault};
pub use part::{put_part, take_part};
pub use sector_fault::SectorFault;
pub use sectors::Sectors;
pub use stretch::Stretch;
