//! The manual of `bureau`, made of the table of its commands: the pages for `man`, what `--help` prints after the options, and
//! completions for bash, zsh and fish.
//!
//! Each call is proved to be safe and to return. The texts are tested: `man` formats the pages, and bash completes.

#![tactic(auto)]

mod bash;
mod draft;
mod fish;
mod manual;
mod notes;
mod pages;
mod roff;
mod shells;
mod taken;
mod zsh;

pub use manual::{Manual, is_manual, manual_of, manual_parser};
pub use notes::help_notes;
