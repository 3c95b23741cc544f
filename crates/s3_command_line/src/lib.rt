//! The command line of `bureau`: the commands with their options, as the help lists them, and what a run or a day has by default.
//!
//! Each call is proved to be safe and to return. The options, the help and the defaults are tested with golden tests.

#![tactic(auto)]

mod defaults;
mod faults;
mod inputs;
mod program;
mod words;

pub use defaults::new_pack;
pub use faults::{FILE, OUT_OF_MEMORY};
pub use inputs::input_conflict;
pub use program::{ABOUT, VERSION};
pub use words::{command, command_of, commands, names_standard_error, option_without_name};
