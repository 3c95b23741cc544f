//! One level: the jobs of its deck, its library of programs, the job at work with its files, its printed lines and its halts.
//!
//! The reference model of `s3_solo` says what a level does. A level, with what it sees of the pack and the queues, represents a world
//! (specs/Inner/Holds.antt), often many of them, since no past answer is stored; each call is proved for every world that is
//! held.
//!
//! What is proved:
//! - a new level holds the world at the start over a pack as it was mounted (`Level::new`);
//! - `turn`, `answer` and `drain` are one entry of the reference model (`step`): compile jobs, starts, cards, lines, jumps, requests to
//!   files, replies, ends; `turns` is so many turns as it answers, one at least and no more than it may, each with that answer
//!   (`steps`, `times`). They stop when a job ends (`stops`), and it fails only if a turn acts (`acts`);
//! - an entry that is idle or refused in a world that is held is answered so, and no fault comes in its place (`idle`,
//!   `refused`); it leaves the pack, the store and the queues as they are (`quiet`, `queues`);
//! - `close` ends the job at work and closes its files, `drain_all` drains the queue (`world`), and neither fails if there is
//!   none (`ends`, `none`);
//! - whatever a call answers, the masters, the other level's slots, label sectors, region and queue stay, and all sectors but the
//!   spool blocks and the level's own, in the store too (`spares`, `others`); labels that say the level's slots still do after an
//!   answer (`says`); transfers that failed are counted (`failures`);
//! - `lines` and `halts` are the drained lines and the halts;
//! - what is asked of a level (`waits`, `has_work`, `place`, `unread`, `files`, `cycle` and others) is so in each world
//!   that is held.
//!
//! Only tested: that memory is said to run out only if a growth was refused, which no contract can say.
//! What a level holds after a fault isn't specified: no entry may follow one.

#![tactic(auto)]

mod at_work;
mod date;
mod details;
mod job;
mod job_number;
mod jobs;
mod level;
mod next;
mod queries;
mod replying;
mod requesting;
mod sources;
mod stocked;
mod switches;
mod taken;

pub use level::Level;
pub use queries::DataCards;
pub use s3_operator::{Halt, HaltCode};
pub use s3_solo::{Action, Did};
pub use taken::Taken;
