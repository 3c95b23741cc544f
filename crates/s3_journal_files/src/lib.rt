//! The file of a journal: it is opened under its lock and read, it decides whether a command may begin, and it gets a line before the
//! new pack is saved.
//!
//! What is proved: each call is safe and returns, and which exit status a refusal has
//! (`JournalRefusal::status`). What the lines decide is proved in `s3_journal`. That
//! a line is on the disk before the pack is saved, and the sentences, are tested, by rows and by `tools/search/test-journal`.

#![tactic(auto)]

mod apart;
mod beside;
mod file;
mod opening;
mod reading;
mod refusal;
mod reports;

pub use apart::keep_journal_apart;
pub use file::{GivenPack, JournalFile, MadeJournal, NewLine};
pub use reading::{Journal, read_journal, read_listed_journal};
pub use refusal::JournalRefusal;
pub use reports::report_lost_lines;
