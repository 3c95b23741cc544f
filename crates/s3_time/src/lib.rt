//! What an operator does with time makes no difference: a level's abstract state depends only on the replies that it accepted.
//!
//! These theorems of the reference model hold for every list of entries. The functions that state them do nothing:
//!
//! - `drains_make_no_difference`: drains, idle turns and refused replies change only how many lines are drained.
//! - `time_makes_no_difference`: any turns and drains that bring a level to rest leave the same abstract state, except for how
//!   many lines are drained.
//! - `accepted_replies_say_all`: the same holds for any entries with the same accepted replies. If one list accepted more
//!   replies, it continued from the state that the other one reached.
//! - `answers_say_rest`: which answers say that a level is at rest. In every state that a level reaches over a mounted pack, rest
//!   means that a halt waits, or that no job is at work and none is left.

#![tactic(auto)]

mod laws;

pub use laws::{
    accepted_replies_say_all, answers_say_rest, drains_make_no_difference, time_makes_no_difference,
};
