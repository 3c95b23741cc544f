//! What a level halts for, which replies an operator can give, and the log of the halts that were shown. docs/MESSAGES.md has
//! each halt with its cause and cure.
//!
//! `allowed` is proved to be the table of replies, for every halt and every digit (`replies_are_by_table`). `HaltLog::show` is
//! proved to add one halt at the end, and to change nothing if memory is refused. `reply` is proved to answer the halt that
//! waits, or to refuse exactly if none waits or the halt doesn't allow the digit; a refused reply changes nothing
//! (`a_reply_is_kept_once`). The two letters of each halt are proved to be its own (`letters`, `code_of`). The texts of halts,
//! replies and refusals are only tested.

#![tactic(auto)]

mod halt;
mod halt_code;
mod halt_kind;
mod halt_log;
mod halt_table;
mod laws;
mod replies;
mod reply_fault;
mod words;

pub use halt::Halt;
pub use halt_code::HaltCode;
pub use halt_kind::HaltKind;
pub use halt_log::HaltLog;
pub use halt_table::{code_of, letters};
pub use laws::{a_reply_is_kept_once, replies_are_by_table};
pub use replies::allowed;
pub use reply_fault::ReplyFault;
pub use words::{choices, effect, is_at_start, meaning};
