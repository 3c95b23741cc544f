//! The files of a job at its start: which it opens and makes, or for what it halts.
//!
//! All tests come first, one file after another in the order of the F lines; files are made only if all tests pass (docs/OCL.md,
//! "The files of a job"). `open_files` is proved to make and open the files of a job, or to give the halt for which the job
//! doesn't start, exactly as the specified table says; a halt changes nothing. The open files are proved to be those of the F
//! lines that the job uses, with their record lengths and keys, and a master's file is only read. No sector outside the level's
//! reach changes. Worked examples of the table are computed by the proofs (`each_file_has_its_own_label`,
//! `a_made_file_is_refused_in_order`, `an_opened_file_is_refused_in_order`, `files_are_tested_one_after_another`). Only tested:
//! that memory is reported to run out only if an allocation was refused.

#![tactic(auto)]

mod asked;
mod fault;
mod laws;
mod planning;
mod settings;
mod starting;
mod starts;
mod testing;

pub use asked::is_new;
pub use fault::OpeningFault;
pub use laws::{
    a_made_file_is_refused_in_order, an_opened_file_is_refused_in_order,
    each_file_has_its_own_label, files_are_tested_one_after_another,
};
pub use settings::JobSettings;
pub use starting::open_files;
