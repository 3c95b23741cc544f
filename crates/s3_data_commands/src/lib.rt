//! The commands `check`, `copy`, `delete`, `sort`, `unload` and `load`: their options, over real files, standard input and
//! standard output. docs/PACK_CARE.md and docs/DATA.md have them. `words` has the options that other commands over a pack take
//! too.
//!
//! Each call is proved to be safe and to return, and a status is at most 4; `read_input` gives all bytes of a reader, or refuses one that
//! has more than 268,435,456. The work of the commands is proved in other crates:
//! `s3_pack_check`, `s3_pack_care`, `s3_unload`, `s3_cells`, `s3_load` and `s3_journal`. That the options are followed, which
//! source of a deck is the layout, and the texts of refusals are tested with golden tests. What files, standard input and
//! standard output give and take isn't claimed: they are used as the toolchain offers them.
#![tactic(auto)]

pub mod cell_sentences;
pub mod cells;
pub mod check_pack;
pub mod copy;
pub mod delete;
pub mod fault;
pub mod filled;
pub mod fixed;
pub mod inputs;
pub mod journaling;
mod key_cover;
pub mod load;
pub mod load_sentences;
pub mod pack_words;
pub mod sentences;
pub mod sort;
pub mod standard_input;
pub mod unload;
pub mod words;
