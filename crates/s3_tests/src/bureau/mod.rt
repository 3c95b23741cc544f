//! Whole sessions of a bureau over a store that fails at each of its calls in turn, and where memory may be refused:
//! `tools/search/refuse-memory` makes each request of these tests fail in turn.

mod calls;
pub mod decks;
mod fuse_rows;
mod memory_rows;
mod packs;
mod plays;
mod sessions;
