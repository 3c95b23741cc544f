//! Files of records with an index by key, which lies in the sectors after the records.
//!
//! `Keyed::check` is proved to open a file exactly if its index is good, and else to answer `BadIndex`. `find`, `nth_by_key`,
//! `get`, `update`, `replace`, `add` and `load` are proved to be those of the list of records and its key order; `Duplicate` and
//! `NotAscending` come before `Full`. `get_noted` is proved to answer only a place that `find` would answer. After `close` the
//! index on the pack is proved to be the key order of all records, and no sector outside the file changes. Worked examples of
//! indexes, space and refusals are computed by the proofs. Not specified: how many sectors a call reads, and for which keys
//! `get_noted` finds the record; `bench/files` counts instructions and sectors.

#![tactic(auto)]

mod added;
mod check;
mod close;
mod entries;
mod fault;
mod guide;
mod index_sector;
mod indexed;
mod keyed;
mod keys;
mod laws;
mod noted;
mod record_sector;
mod search;
mod sector_search;
mod write;

pub use fault::KeyedFault;
pub use indexed::IndexedFile;
pub use keyed::Keyed;
pub use laws::{
    a_full_file_tells_a_duplicate_first, a_label_of_a_pack_has_its_index,
    added_entries_take_their_places, entries_lie_behind_records, the_index_is_in_key_order,
};
