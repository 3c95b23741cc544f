//! Runs that are repeated by other scripts: when an operator makes turns and drains makes no difference to what a level prints
//! and keeps.
//!
//! `when_makes_no_difference` states this for two scripts of `run`. If a level with the same deck accepts the same replies by
//! both and comes to rest, both runs give the same report, the same halt text and the same files of this level, whatever the
//! other level's deck and entries are. Both runs must answer `Ok`: nothing is specified if memory runs out. `Performed` keeps
//! entries as they were performed, `script_text` is proved to be their script (`text_of`), and `run` to read exactly those
//! entries from it (`scripts_read_back`). `Tape` writes that script to a file during a day: unless a write failed, the file is
//! proved to end with the script of the parts written so far, whatever happens between two calls, and after `finish` with the
//! script of all entries that were performed, directly after what the file began with (`HasScript`). The premise is a type of
//! file whose bytes are known, as of one in memory. Each call of `Tape` appends exactly the script of the parts that it adds
//! (`Tapes`), and a file that it has stays its file. `follow` leaves no reply unwritten except in the last part (`AreRepliesWritten`),
//! and `bytes` counts the bytes of the script.

#![tactic(auto)]

mod laws;
mod performed;
mod script;
mod tape;

pub use laws::{scripts_read_back, when_makes_no_difference};
pub use performed::{Performed, Repeated};
pub use script::script_text;
pub use tape::{Tape, put_into};
