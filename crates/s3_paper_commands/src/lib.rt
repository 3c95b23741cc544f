//! The commands around paper: `bureau punch`, which makes decks of plain text, `bureau compile`, which lists the sources of a deck, and
//! `bureau entries`, which lists the entries of the sheets. `status` has the exit statuses of all commands of the program, and `words` the kinds of their options.
//!
//! What is proved: each call is safe and returns, and gives a status in its range. What a text becomes is proved in `s3_punch`. The
//! options, the messages and the statuses are tested, by rows. What files and standard output give isn't claimed: they are
//! used as the toolchain offers them.

#![tactic(auto)]

mod characters;
mod compile;
mod deck;
mod encodings;
mod entries;
mod fault;
mod messages;
mod output_reason;
mod programs;
mod punch;
mod punch_check;
mod punch_messages;
pub mod status;
mod typed_files;
mod unlisted;
mod unread;
pub mod words;

pub use compile::{COMPILE, compile_files};
pub use deck::{PLAIN_INPUT, is_plain_text, tell_waiting};
pub use encodings::{deck_encoding_words, encoding_words};
pub use entries::{ENTRIES, list_entries};
pub use output_reason::OutputReason;
pub use punch::{PUNCH, punch_files, tell_errors, tell_punched};
