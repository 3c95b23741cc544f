//! `bureau check --json`: what is wrong with a pack, in JSON.
ghost use Rattle.std.specs.Prelude.{◌≤◌};

use clap::ArgMatches;
use s3_data_commands::check_pack::{waits, wrongs_of};
use s3_data_commands::fault::Fault;
use s3_data_commands::sentences::output_sentence;
use s3_host_files::StandardOutput;
use s3_pack_json::checked;
use s3_paper_commands::status::DONE;
use s3_paper_commands::words::value_of;
use std::io::Write;

/// Does what the options of `bureau check --json` ask, and gives the exit status, as `bureau check` does.
pub fn check_in_json(rt: &HostRuntime, matches: &ArgMatches<'_>) -> u8
    ensures { result ≤ 4 }
{
    match print_wrongs(rt, value_of(matches, "pack")) {
        Ok(()) => DONE,
        Err(fault) => fault.tell(&mut rt.stderr()),
    }
}

fn print_wrongs(rt: &HostRuntime, path: &str) -> Result<(), Fault> {
    let wrongs = wrongs_of(rt, path)?;
    let text = checked(rt.alloc(), &wrongs)?;
    if let Err(error) = StandardOutput::new(rt).write_all(text.as_slice()) {
        return Err(Fault::File(output_sentence(rt.alloc(), Some(error))?));
    }
    match wrongs.len() {
        0 => Ok(()),
        count => Err(waits(rt.alloc(), path, count)),
    }
}
