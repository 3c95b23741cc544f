//! The operator of `bureau operate`, over any bureau, readers, writers and clock: replies by rules, by a log, by lines and by a
//! person at a terminal; what is printed meanwhile; the script and the log as they are written; and the summary of a day.
//! docs/OPERATING.md has all of it.
//!
//! Each call is proved to be safe and to return, and:
//! - the reply to a halt has the digit of the log's next reply for the level, if that is one to the halt; or else of the first rule that
//!   fits; or else one that a line gives for this level. That line was read at the halt's question, or at the other level's question
//!   since the halt was shown (`Meets`). A halt that the log or a rule answers gets no reply only if the day was ended, or memory ran out;
//! - a list of replies is read only at questions. A line of it is passed over only if it gives the halt no digit that the halt allows
//!   (`PassesOver`), and no line of it ends the day;
//! - unless a write has failed or the log was given up, the known bytes of its file grow by lines of events only, and by the line of each
//!   reply that is performed, with its level, halt and digit (`LogsEvent`). `Journal::note` adds the line of its event (`IsNoted`), at a
//!   second that the clock gave in that call (`IsNotedAt`);
//! - unless a write has failed, `Desk::close` leaves in the script's file what it began with and exactly the script of the entries that it
//!   gets (`HasScript`), and doesn't give up that file;
//! - `Lost::find` finds why a file no longer keeps what is written to it, and `EndedDay` whether the pack is saved, if not, why, and
//!   whether a person is asked about it; a reply counts as grave if it ends a job that has made a file, added records or updated some.
//!
//! Tested: with which job, card and program a halt is compared with the log and the rules; that a question is put; which other events are
//! logged; what is printed; and that the program gives `close` what `operate_printing` has performed.
//!
//! The other proved parts of the operator are in other crates: lines of replies and rules in `s3_replies`, the reports in `s3_reports` and
//! `s3_desk` (`Printing`), and which jobs of a day have begun and how they ended in `s3_day_log`. What a day gives, for this operator as
//! for any, is proved in `s3_desk`.

#![tactic(auto)]

mod answers;
mod asking;
mod changes;
mod clock;
mod closing;
mod day_deck;
mod desk;
mod events;
mod given;
mod journal;
mod levels;
mod lost;
mod message;
mod noted;
mod pack_end;
mod printed;
mod progress;
mod replies;
mod seat;
mod tally;
mod unread;

pub use clock::Clock;
pub use closing::Closing;
pub use day_deck::{DayDeck, JoinedFiles};
pub use desk::{BEFORE_QUESTION, Desk, NEITHER, Questioned, Settings};
pub use journal::Journal;
pub use lost::{AtOutput, Lost};
pub use noted::{JobTurns, NotedHalt};
pub use pack_end::PackEnd;
pub use printed::PrintedJob;
pub use s3_day_log::{LevelEnd, Replier, Verdict};
pub use s3_replay::Tape;
pub use seat::Seat;
pub use unread::push_unread;
