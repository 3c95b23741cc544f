//! The journal of a pack: a line of JSON for each day or other command whose pack was going to be saved, with the checksums of the
//! pack before and after it. docs/JOURNAL.md has the lines.
//!
//! What is proved:
//!
//! - which line of a journal a pack is of (`standing_of`), which made it of another pack (`day_that_made`), which posted the same to a
//!   pack (`posted_day`), and what a start is to do (`start_of`);
//! - no list of starts, with `--again` or without, kills, restores and changes by something else posts without `--again` what was posted
//!   to the pack before (`posts_once`), and a start after a kill takes its work as posted exactly if the pack is the new one
//!   (`crashes_are_seen`), given that a line is on the disk before the new pack has the name of the old one;
//! - whether the pack of a line was saved, as far as the next command's pack shows it (`saved_of`);
//! - `line_of` writes exactly the line of a day: one JSON object with the SHA-256 digest of the line before, and a line feed;
//! - `read_lines` reads exactly the days of a text's lines, or refuses a text in which a line is none, or doesn't have the digest of the
//!   line before, or after which no line was begun; or memory runs out;
//! - the lines that are written of days, one after another, are read as these days, also if a further line was begun
//!   (`a_journal_reads_back`);
//! - which bytes of a deck's text its digest is of (`checksum_of_deck`).
//!
//! Tested: which line a refusal names.

#![tactic(auto)]

mod chain;
mod day;
mod decks;
mod laws;
mod members;
mod reading;
mod saved;
mod standing;
mod writing;

pub use chain::checksum_of;
pub use day::{Appended, LevelCount, Operated, PostedDay, Posting, Ran, Work};
pub use decks::checksum_of_deck;
pub use laws::{a_journal_reads_back, crashes_are_seen, posts_once};
pub use reading::{JournalFault, Lines, read_lines};
pub use saved::{Saved, saved_of};
pub use standing::{Start, day_that_left, day_that_made, day_with, posted_day, start_of};
pub use writing::line_of;
