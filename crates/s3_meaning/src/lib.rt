//! What an RPG II source means: in specs/ the run of a job over the typed lines of its sheets.
//!
//! The crate has definitions, theorems about them, and what several crates need of its types: `Current` and `is_switch_on`. `Req`
//! of specs/Cycle.antt is the request that comes after a list of answers; each of the twelve steps of a cycle is a function of
//! what follows it (docs/LANGUAGE.md, "The cycle").
//!
//! It is proved that a run may repeat cycles and jumps without a bound (`nothing_is_bounded`); only the count of records read
//! from a file has one. It is also proved that the carriage moves by lines of pages of 66 lines (`the_carriage_moves_by_lines`),
//! that no head has a lower key than the selected one (`the_least_key_is_selected`), and which answers fit a request
//! (`answers_fit_their_requests`). Worked examples and 122 small runs, whose requests were worked by hand, are computed by the
//! proofs: from `cards_are_listed` and `totals_are_printed` to calculations, files and matching records.

#![tactic(auto)]

mod current;
mod laws;
mod switches;

pub use current::Current;
pub use laws::{
    answers_fit_their_requests, calculations_come_out, cards_are_listed, files_come_out,
    levels_come_out, lines_come_out, matching_comes_out, nothing_is_bounded,
    replies_at_files_come_out, replies_come_out, the_carriage_comes_out,
    the_carriage_moves_by_lines, the_least_key_is_selected, totals_are_printed,
};
pub use switches::is_switch_on;
