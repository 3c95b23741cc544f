//! What `bureau operate` is asked, and the files around its day: what is read before the first turn, and the outputs, each of which is
//! tried before the first turn and may overwrite nothing that it wasn't asked to.
//!
//! What is proved: each call is safe and returns, the status that `--exit-zero` gives (`ExitZero::status_for`) and that
//! of a refusal (`DayFault::status`), which files are of the
//! kind of an output, by their first bytes (`Kind::is_begun_as`), which numbers kept packs have (`kept_numbers`), which number the last of
//! them moves to (`end_of_moves`), and which of them a save removes (`surplus`). Which file is refused for what, in which order, and the sentences are
//! tested, by rows and by failed calls. That a kill loses no kept pack is tested by `tools/search/test-keep`. What files, the terminal
//! and the clock give isn't claimed: they are used as the toolchain offers them.

#![tactic(auto)]

mod begun;
mod exchanged;
mod exit_zero;
mod fault;
mod inputs;
mod journal;
mod journal_json;
mod journal_list;
mod keeping;
mod kept_packs;
mod kind;
mod level_deck;
mod log_line;
mod named_output;
mod numbering;
mod order;
mod outputs;
mod paper;
mod refused_log;
mod restoring;
mod strays;
mod taking_up;
mod twice;
mod watch;

pub use begun::{Again, push_word, test_same};
pub use exit_zero::ExitZero;
pub use fault::{DayFault, unwritten};
pub use inputs::{DayPack, Decks, read_log, read_rules, rules_text};
pub use journal::{Begin, DayJournal, Given, begin_day};
pub use journal_list::perform_journal;
pub use keeping::{SetAside, end_aside, take_back};
pub use named_output::{KeptOutput, NamedOutput};
pub use order::{Order, names, replies_of};
pub use outputs::{
    KeptOutputs, Output, Outputs, remove_made, test_decks, test_journal, test_outputs, write_deck,
};
pub use paper::{Form, Paper};
pub use refused_log::log_refusal;
pub use strays::{ListedDecks, ReadDecks};
pub use taking_up::list_jobs;
pub use twice::report_twice;
pub use watch::Watch;
