//! Queues of printed lines, one for each level, in the 128 spool blocks of a pack.
//!
//! `put`, `put_composed` and `take` are proved to be those of a queue of lines for each level, whatever bytes were in the blocks,
//! and to leave the other level's queue as it was. `QuotaFull` is proved to come exactly if the level has as many queued lines as
//! its quota, and `Empty` exactly if it has none; a refused call leaves the queues as they were. A `put` changes only the sector
//! of a block that holds no line, and a `take` changes none. A worked example of a block is computed by the proofs
//! (`a_line_stands_in_its_block`). Which free block a line is put into isn't specified.

#![tactic(auto)]

mod block;
mod composed_line;
mod fault;
mod laws;
mod spool;

pub use composed_line::ComposedLine;
pub use fault::SpoolFault;
pub use laws::a_line_stands_in_its_block;
pub use spool::Spool;
