//! Replies to halts: rules that answer them before an operator is asked, `LEVEL LETTERS DIGIT [PROGRAM]`, a line each; and what
//! an operator types, or a list of replies has, line by line. docs/OPERATING.md has both.
//!
//! `Rules::read` is proved to give the rules of a text's lines, in order, or all its malformed lines, each with its first fault.
//! `reply_for` is proved to give the first rule that fits, and the halt allows its digit (`answers_are_allowed`). `read_typed` is
//! proved to give the level, the digit or the command of a line, and `Unknown` for any other line (`is_reply`). `next_listed` is
//! proved to give the next line of a list. When a read fails isn't specified.

#![tactic(auto)]

mod laws;
mod line_fault;
mod line_words;
mod listed;
mod rule;
mod rules;
mod typed;

pub use laws::{answers_are_allowed, lines_say};
pub use line_fault::{IllFormedLine, LineFault};
pub use listed::{Listed, next_listed};
pub use rule::Rule;
pub use rules::{Rules, RulesFault};
pub use typed::{LINES_SHOWN, Typed, read_typed};
