//! The write-back pool of 16 buffers over a store of sectors. docs/PACK.md has how it works, under "The pool".
//!
//! The pool is proved to show one list of sectors, whichever buffer is reused, and a refused call leaves that list as it was. A
//! sector of the store is proved to change only to what the pool shows, and the store has all of it after a `flush` that
//! succeeded. The count of failed transfers is proved to follow from the answers of the calls. Only tested: that a write of a
//! whole sector reads none, and that a spool block doesn't take a buffer of a full pool. Which buffer is reused and how many
//! transfers a call makes isn't specified; `bench/pool` counts instructions.

#![tactic(auto)]

mod buffers;
mod pool;
mod pool_fault;
mod slot_hash;

pub use pool::Pool;
pub use pool_fault::PoolFault;
