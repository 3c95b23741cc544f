//! What is wrong with a slot, in words.

use crate::checking::Cause;
use crate::entries::{EntryFlaw, WrongEntry};
use std::alloc::AllocError;

/// Appends what is wrong with a slot, as a sentence about its file without a beginning or an end: `its label isn't a name`.
pub fn push_cause(text: &mut String, cause: Cause) -> Result<(), AllocError> {
    match cause {
        Cause::Label(damage) => write!(text, "{damage}"),
        Cause::Index(Some(wrong)) => push_entry(text, wrong),
        Cause::Index(None) => text.push_str("its index isn't that of its records"),
    }
}

/// Appends what is wrong with an entry of an index, with the text of the halt for it. Entries are counted from 1.
fn push_entry(text: &mut String, wrong: WrongEntry) -> Result<(), AllocError> {
    let entry = u64::from(wrong.place) + 1;
    match wrong.flaw {
        EntryFlaw::Order => write!(
            text,
            "the key of entry {entry} of its index doesn't come behind that of the entry before"
        ),
        EntryFlaw::Record(record) => write!(
            text,
            "entry {entry} of its index names record {record}, which the file doesn't have"
        ),
        EntryFlaw::Key(record) => write!(
            text,
            "the key of entry {entry} of its index isn't that of record {record}, which it names"
        ),
    }
}
