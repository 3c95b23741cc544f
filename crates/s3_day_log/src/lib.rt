//! A day at the desk on record: its log, as JSON lines with the time of each event in UTC, which is read back to do the day again;
//! and the job accounting of a level: which jobs have begun, how many lines each has printed, how each ended, and which are left.
//! docs/OPERATING.md has the events.
//!
//! What is proved:
//!
//! - `checksum` is the SHA-256 digest;
//! - how a job ended that is over, and what a reply changes in the accounting; no other call counts a job as passed over or ended by a
//!   reply;
//! - `DayLog::test` compares the pack and the files of both decks with those of the log by their checksums, and reports the first that
//!   differs;
//! - what became of a day, by how its levels ended, and which pack of a logged day a pack is;
//! - `line_at` writes exactly the line of an event at a second: one JSON object with a text that `jiff` reads as that second, and a
//!   line feed;
//! - `DayLog::read` reads exactly the log of the events that a text's lines say, or refuses the first line that is refused, or memory runs
//!   out; `DayLog::reply` gives the reply to a level's halt after so many, with the halt that it was given to;
//! - `DayLog::answer` gives a digit exactly if that reply is to the same letters, the halt allows it, and the log's halt, if the log has
//!   it, is one of the same job and card;
//! - the lines that are written of events are read as these events, also if a further line was begun (`laws::a_log_reads_back`). The text of
//!   a line and its tokens are the kit's `json`, whose own round trip the proof uses. The premises: each time is one that `jiff` reads, and
//!   each halt is one that a level can show. The times of `line_at` are such times, and are read back (`laws::times_read_back`);
//! - after `Ledger::follow`, those jobs have begun that end before the place from which the level's world has its remaining jobs, and
//!   each is over except for the last one of a level whose job is at work or halted; and the lines since the look before are those of the
//!   job that was at work or halted then, or else of the job that has begun last.
//!
//! Tested: the card, the kind and the program of a job.

#![tactic(auto)]

mod answering;
mod checksums;
mod clock_text;
mod day_log;
mod endings;
mod event;
pub mod laws;
mod ledger;
mod members;
mod reading;
mod which_pack;
mod words;
mod writing;

pub use checksums::checksum;
pub use clock_text::utc_text;
pub use day_log::{DayLog, LogFault, Refused};
pub use endings::{LevelEnd, Verdict, became, end_of};
pub use event::{
    AnsweredHalt, Begun, DayOver, DayRefused, Event, JobBegun, JobEnd, JobKind, JobOver, LevelLeft,
    LoggedHalt, LoggedReply, NamedFile, Replier,
};
pub use ledger::{BegunJob, Ledger, Purpose};
pub use which_pack::{Standing, standing_of};
pub use writing::line_at;
