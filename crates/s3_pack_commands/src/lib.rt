//! The commands `amend`, `dump`, `restore` and `check --json`: their options, over real files, standard input and standard
//! output. docs/DATA.md and docs/PACK_CARE.md have them.
//!
//! Each call is proved to be safe and to return, and a status is at most 4. What happens to a record is proved in `s3_amend`, and
//! what a dump restores in `s3_dump`. That the options are followed, and the texts of refusals, are tested with golden tests.
#![tactic(auto)]

pub mod amend;
mod amend_sentences;
pub mod check;
pub mod dump;
mod dump_layouts;
mod record_lines;
mod shown_record;
