//! Decks as people handle them: put together from files, with the line of the file for each card; their jobs listed, and taken up
//! again from a line on; and cards and names as characters, under a ruler, with marked columns. docs/OPERATING.md has the rules,
//! docs/MESSAGES.md has examples of marked cards.
//!
//! What is proved:
//!
//! - The text of a deck is that of its files, each with its last line ended (`add`), or the cards that were punched from them
//!   (`add_punched`). `place_of` gives the line of a file that a card is, and `card_at` the card that a line is. `without` leaves
//!   exactly the lines and places of the cards that are in none of the ranges.
//! - `cards_len` gives where the cards of a deck file end: after its last line that isn't blank.
//! - `jobs_of` gives the jobs of a deck as the job stream has them. `left_out_from` gives the cards of exactly those jobs that begin
//!   before a card and compile nothing. `job_cut_at` gives the first of these that has that card among its own.
//! - `strays_of` gives the statements among the data of a job, and the LOAD statements that a faulty job passes over.
//! - `encoding_of` gives which files are UTF-16, or begin with a byte order mark.
//! - `is_shown` gives which characters of a name a terminal shows as they are.
//!
//! - A job that `job_before` gives ends at the place that was asked for.
//!
//! Tested: which job that is, what an argument says as a `Position`, the texts of places, which date and switches a kept job loses, and what is shown
//! of cards and names.

#![tactic(auto)]

mod blank_end;
mod characters;
mod cut_words;
mod day_deck;
mod deck_text;
mod encoding;
mod gaps;
mod inherited;
mod job_list;
mod keyword;
mod last_job;
mod listing;
mod names;
mod place;
mod position;
mod program;
mod ruled;
mod stray_words;
mod strays;

pub use blank_end::{cards_len, count_lines};
pub use characters::{push_characters, push_name};
pub use cut_words::push_cut;
pub use day_deck::{job_cut_at, left_out_from};
pub use deck_text::{CardRange, DeckText};
pub use encoding::{Encoding, encoding_of};
pub use inherited::{Inherited, InheritedDate, InheritedSwitches, lost_settings};
pub use job_list::{JobEntry, Statements, jobs_of};
pub use keyword::keyword_columns;
pub use last_job::job_before;
pub use listing::{push_inherited, push_jobs};
pub use names::{Quoted, Shown, is_shown};
pub use place::{CardPlace, FilePlace};
pub use position::Position;
pub use program::program_of;
pub use ruled::{Columns, push_marks, push_ruled, push_ruler, push_under_ruler};
pub use stray_words::{push_stray, push_strays};
pub use strays::strays_of;
