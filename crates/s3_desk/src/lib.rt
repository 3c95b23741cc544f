//! The operator's desk: both levels continue by turns and drains until neither can, halts are shown as they come, and then the operator
//! is asked.
//!
//! Proved of `operate_day`, over any pack, decks, operator and bounds:
//! - the day is the run of each script that asks for the entries performed (`runs`), and each level was left as it is reported (`ends`,
//!   `one_cut`, `two_cut`, `one_out`, `two_out`);
//! - the day is one list of turns, drains, halts shown and questions, in order (`answered`). The entries performed are its turns, its
//!   drains, and each reply that a halt allows, at that halt's own question. Each halt was shown once, as it came. A question was put
//!   only for a halt that waits and was shown, with its level at rest and the other level at rest or at a limit. A level that ends
//!   halted was asked after all entries, in vain;
//! - the operator follows in time (`answered`): after turns of one level up to the end of a job, after a level's first turn after a
//!   reply, and after lines of one level, before anything else is performed, shown or asked, and before the day ends. Level 1 is
//!   reported as over exactly if it is (`Papers::is_one_over`).
//!
//! Proved of `operate_printing`: each time that the operator follows, all lines that level 1 has printed are written, and those of
//! level 2 if level 1 is over and its deck was read (`answered`). Nothing else is written (`written`).
//!
//! Proved of `operate`, over any machine that continues as a bureau does: the same of each world that the machine held, and what the
//! machine's own relations say of entries that are performed, they say of all of them (`after`); what its calls keep, whatever they
//! answer, is kept (`kept`, `failed`, `not_stopped`). `Performed` of `s3_replay` has the entries performed, as a script.

#![tactic(auto)]

mod bureau;
mod day;
mod desk;
mod ends;
mod machine;
mod operator;
mod printing;

pub use day::{Day, ReadDeck, operate_day, operate_printing};
pub use desk::operate;
pub use ends::{Bounds, End, Ends};
pub use machine::Machine;
pub use operator::{Operator, Papers};
pub use printing::Printing;
pub use s3_evidence::Evidence;
