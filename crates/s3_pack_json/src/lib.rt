//! Packs in JSON, an object a line: `write_list` for the files of a pack, `checked` for what is wrong with it. docs/schemas/ has
//! the shapes.
//!
//! What is proved: each object has exactly the members that its contract lists, with numbers as numbers, and `s3_json_lines` writes
//! exactly these values. Each call is safe and returns. The reasons, the counts of free tracks, and that each slot has its line are
//! tested with golden tests, which are compared with the schemas too.
#![tactic(auto)]

mod cells;
mod checking;
mod extents;
mod listing;
mod slots;

pub use checking::checked;
pub use listing::write_list;
