//! Packs as texts: `dump` writes a pack line by line, and `restore` makes it again.
//!
//! `specs/Inner/Dumps.antt` specifies which bytes a text represents, and `specs/Inner/Indexes.antt` which index. A dump is proved to represent the bytes of its
//! pack, and is refused only if memory is (`dump`). So `restore` makes these bytes again unless memory is refused
//! (`a_dump_is_restored`). `restore` is proved to give the bytes that a text represents, and to report a text that
//! represents none with its first wrong line. The notes about a record are proved to be its fields by the layout, with the
//! values that `unload` shows (`specs/Inner/Notes.antt`), and the layout to be the first of the file with the record's length
//! and type. Only tested: where the lines of a dump begin and end, which bytes are a record, which indexes have one line, how many records have no
//! layout, and what the other notes say.
#![tactic(auto)]

mod fault;
mod fields;
mod index;
mod laid;
mod laws;
mod notes;
mod pieces;
mod reading;
mod writing;

pub use fault::RestoreFault;
pub use fields::{bytes_of, push_name, push_value};
pub use laid::{FileLayout, Unlaid};
pub use laws::a_dump_is_restored;
pub use pieces::{DumpedPack, dump};
pub use reading::restore;
