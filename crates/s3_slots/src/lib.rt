//! What a pack's header and its label slots say: regions, files, what of them is damaged, and where new files go. docs/PACK.md
//! has the bytes and the rules.
//!
//! `accept` is proved to accept a header exactly by its tests, in their order. `judge` is proved to classify a slot as free,
//! damaged or sound by its bytes and the slots before it; damage blocks only the slot and its label
//! (`damage_blocks_its_label_and_its_slot`). `make_in` is proved to refuse a new file as specified, or to put it into the lowest
//! free slot at the lowest place that meets no sound file; in the second format a file may have up to four extents. Files that
//! don't overlap still don't after each call (`files_stay_apart`), and a label that is written reads back (`a_label_reads_back`).
//! Worked examples of headers, labels and slots are computed by the proofs.

#![tactic(auto)]

mod bytes;
mod changes;
mod header;
mod label;
mod laws;
mod making;
mod placement;
mod slot;
mod stretch;

pub use bytes::bytes_of;
pub use changes::{free, place_in, recount};
pub use header::{Format, Header, MountFault, accept, are_quotas};
pub use label::{FileLabel, Organization, organization_by, retention_by};
pub use laws::{
    a_header_is_accepted_by_its_tests, a_label_is_64_bytes, a_label_reads_back,
    damage_blocks_its_label_and_its_slot, files_stay_apart, files_take_whole_tracks,
    quotas_are_1_to_127, room_in_pieces_is_taken_in_the_second_format,
};
pub use making::{LabelFault, Made, NewFile, Size, make_in};
pub use slot::{Slot, Standing, is_count_of, is_key_of, judge, place_of, standing_of};
