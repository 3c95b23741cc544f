//! The block in which a halt is shown to an operator, in words. docs/OPERATING.md says what it has.
//!
//! What is proved: each call is safe and returns, and puts its text after the one that it is given. What is shown is tested.

#![tactic(auto)]

mod at_start;
mod at_work;
mod bad_digits;
mod cards;
mod causes;
mod details;
mod files;
mod halt;
mod layout;
mod match_fields;
mod matched;
mod replies;
mod room;
mod slot_words;
mod stand;

pub use halt::{Waiting, push_halt};
pub use replies::{push_choice, push_letters, push_replies, push_reply};
