//! What a refused command prints in addition to its line: file names that a terminal shows, the system's reason, the process that
//! has a file, what a number means, and what to do.
//!
//! Proved are the texts of a failed call (`call_words`), of each refusal of a pack (`pack_words`) and of a file that doesn't
//! begin as a pack does (`beginning_words`), and the exit status of a refusal (`Refused::tell`). Each call is proved to be safe
//! and to return. The sentences around these texts are tested.

#![tactic(auto)]

mod closed;
mod holder;
mod packs;
mod reasons;
mod refused;
mod wide;

pub use closed::is_closed;
pub use holder::{holder_of, tell_holder};
pub use packs::{beginning_words, begins_as_pack, pack_words};
pub use reasons::{Holder, Reason, call_words};
pub use refused::{FileWork, Refused, Work};
pub use s3_decks::{Quoted, Shown, is_shown};
pub use wide::{WideText, wide_text};
