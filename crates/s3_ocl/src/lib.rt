//! Job streams: the statements of OCL, and where jobs begin and end. docs/OCL.md has their rules.
//!
//! Every list of cards is proved to have exactly one list of jobs from each place on (`jobs_of_cards`). `job_at` is proved to
//! give the place at which the next job begins, and `split` that job, or its first fault with the number of the card. In a job
//! that `split` gives, the names and sizes of each FILE statement and the digits of a DATE are proved to be in their ranges
//! (`sound`, `dated`). The words of the statements are those that are punched (`words_as_punched`). The texts of the faults are
//! only tested. That `NoMemory` comes only if memory was refused is tested by the golden tests and `tools/search/refuse-memory`.
#![tactic(auto)]

mod cards;
mod contents;
mod faults;
mod file_list;
mod jobs;
mod parameters;
mod statements;
mod values;
mod words;

pub use contents::{FileSize, FileStatement};
pub use faults::{FaultyJob, JobFault};
pub use jobs::{JobCards, OclFault, job_at, split};
pub use values::Switch;
pub use words::words_as_punched;
