//! Decks in JSON: `programs_of_deck` for the programs with their messages and names, `push_jobs_of_deck` for the jobs.
//! docs/schemas/ has the shapes.
//!
//! What is proved: each object has exactly the members that its contract lists, with numbers as numbers, and `s3_json_lines` writes
//! exactly these values. Each call is safe and returns. Which messages a source has is proved in `s3_source_listing`; that lists have
//! all that a source has is tested with golden tests, which are compared with the schemas too.
#![tactic(auto)]

mod jobs;
mod messages;
mod names;
mod places;
mod programs;
mod tables;

pub use jobs::push_jobs_of_deck;
pub use programs::{Programs, programs_of_deck};
