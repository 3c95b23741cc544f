//! The files of a job at work: records are read, found, put and changed, and the files closed at the end of the job.
//!
//! The contracts hold over any pack, in terms of the lists of records of a level's files (specs/Requests.antt, docs/LANGUAGE.md,
//! "Files on DISK"). `OpenFile::open` is proved to open a file exactly if its index is good. `JobFiles::read_next`, `chain_key`,
//! `chain_number`, `append`, `add` and `update` are proved to answer as specified and to leave the specified files, and
//! `JobFiles::close` to set the count of each file and to drop the scratch files of the job. Reads change no sector, and all
//! other calls change no sector outside the level's reach. Worked examples are computed by the proofs
//! (`added_records_are_found_but_not_read`, `a_duplicate_is_told_before_a_full_file`, `an_update_keeps_the_key`,
//! `the_end_of_a_job_sets_counts`). Only tested: that memory is reported to run out only if an allocation was refused. What a
//! pack has after its sectors have failed isn't specified.

#![tactic(auto)]

mod by_key;
mod closing;
mod file;
mod in_order;
mod job_files;
mod laws;
mod records;

pub use file::OpenFile;
pub use job_files::JobFiles;
pub use laws::{
    a_duplicate_is_told_before_a_full_file, added_records_are_found_but_not_read,
    an_update_keeps_the_key, the_end_of_a_job_sets_counts,
};
pub use records::{OpenRecords, Put};
