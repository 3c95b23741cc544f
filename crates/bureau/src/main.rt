//! The program `bureau`: its command line, over standard input and output and files.
//!
//! Each call is proved to be safe and to return, and the exit status is at most 5 (`execute`). Sessions, lists, new packs and
//! migrated ones are made by `s3_cli`, where what they write and hand out is proved. Tested with golden tests: the command line
//! with its help and its version, the exit statuses, which pack is read and whether it is saved, and that a pack is saved whole
//! or not at all. What files, standard input and output give isn't claimed: they are used as the toolchain offers them.

#![tactic(auto)]

mod command;
mod descriptors;
mod journaled_run;
mod refusal;
mod shown_words;
mod similar;
mod version;
mod wrong_number;

use std::process::ExitCode;

fn main(rt: HostRuntime) -> ExitCode {
    let _kept = descriptors::fill_descriptors(&rt);
    ExitCode::from(command::execute(&rt))
}
