//! Files of records over the sectors of a pack: `Sequential`, in the order in which they were written, and `Direct`, found by
//! their numbers.
//!
//! `len`, `get`, `put` and `append` of both (the trait `RecordFile`) are proved to be those of a list of records, whatever
//! sectors and extents a record lies across. `NoRecord` is proved to come exactly if there is no such record, and `Full` exactly
//! if the file has no space for another one. No sector outside the file changes. A label of a mounted pack is proved to have
//! space for its records, over sectors that exist (`a_label_of_a_pack_has_its_file`). Not specified: how many sectors a call
//! reads, and what a failed transfer leaves of a record that is written. `bench/files` counts instructions.

#![tactic(auto)]

mod bytes;
mod direct;
mod fault;
mod file_sectors;
mod laws;
mod records;
mod sequential;

pub use bytes::{read_bytes, read_in_sector, write_bytes};
pub use direct::Direct;
pub use fault::FileFault;
pub use file_sectors::FileSectors;
pub use laws::{
    a_label_of_a_pack_has_its_file, a_list_of_records_refuses, a_record_lies_across_two_pieces,
    records_run_on_from_piece_to_piece,
};
pub use records::RecordFile;
pub use sequential::Sequential;
