//! `bureau check`: all that is wrong with a pack.
ghost use Rattle.std.specs.Prelude.{◌≤◌};

use crate::fault::Fault;
use crate::filled::{Words, push_name};
use crate::pack_words::{mount_words, pack_of, refused};
use crate::sentences::output_sentence;
use crate::words::{JSON, PACK};
use clap::ArgMatches;
use s3_host_files::{StandardOutput, shown_name};
use s3_pack_check::{CheckFault, Wrong, check_pack, push_cause};
use s3_paper_commands::status::{DONE, FILE_WRONG, OPTIONS_WRONG, PERSON_NEEDED, REFUSED};
use s3_paper_commands::words::{CommandWords, Example, Status, value_of};
use s3_refusals::Shown;
use std::alloc::{AllocError, Global};
use std::io::Write;

/// `bureau check` and its options.
pub const CHECK: CommandWords = CommandWords {
    name: "check",
    about: "Prints all that is wrong with a pack: damaged labels and indexes, each with the reason",
    aliases: &[],
    statuses: &[
        Status {
            number: DONE,
            meaning: "nothing is wrong with the pack",
        },
        Status {
            number: REFUSED,
            meaning: "the pack is refused, or memory ran out",
        },
        OPTIONS_WRONG,
        FILE_WRONG,
        Status {
            number: PERSON_NEEDED,
            meaning: "something is wrong: standard output has a line for each label or index",
        },
    ],
    examples: &[Example {
        line: "bureau check --pack shop.pack",
        purpose: "Prints what is wrong with a pack",
    }],
    words: &[PACK, JSON],
};

/// Runs `bureau check`, and returns the exit status: 0 if nothing is wrong with the pack, 4 if something is, with a line for each
/// finding on standard output. After a refusal it is the status of the refusal, whose sentence was written on standard error.
pub fn check(rt: &HostRuntime, matches: &ArgMatches<'_>) -> u8
    ensures { result ≤ 4 }
{
    match check_file(rt, value_of(matches, "pack")) {
        Ok(()) => DONE,
        Err(fault) => fault.tell(&mut rt.stderr()),
    }
}

fn check_file(rt: &HostRuntime, path: &str) -> Result<(), Fault> {
    let wrongs = wrongs_of(rt, path)?;
    write_wrongs(rt, &wrongs)?;
    match wrongs.len() {
        0 => Ok(()),
        count => Err(waits(rt.alloc(), path, count)),
    }
}

/// All that is wrong with the pack at a path.
pub fn wrongs_of(rt: &HostRuntime, path: &str) -> Result<Vec<Wrong>, Fault> {
    let pack = pack_of(rt, path)?;
    match check_pack(rt.alloc(), &pack) {
        Ok(wrongs) => Ok(wrongs),
        Err(CheckFault::NoMemory) => Err(Fault::NoMemory),
        Err(CheckFault::Mount(fault)) => Err(refused(Words::of_path(path).fill(
            rt.alloc(),
            mount_words(fault),
        ))),
    }
}

/// Writes a line for each slot with which something is wrong on standard output.
fn write_wrongs(rt: &HostRuntime, wrongs: &[Wrong]) -> Result<(), Fault> {
    let text = text_of(rt.alloc(), wrongs)?;
    match StandardOutput::new(rt).write_all(text.as_str().as_bytes()) {
        Ok(()) => Ok(()),
        Err(error) => Err(Fault::File(output_sentence(rt.alloc(), Some(error))?)),
    }
}

/// The refusal of a pack with this number of slots that need a person.
pub fn waits(alloc: Global, path: &str, count: usize) -> Fault {
    match waiting_sentence(alloc, path, count) {
        Ok(sentence) => Fault::Waits(sentence),
        Err(_) => Fault::NoMemory,
    }
}

fn waiting_sentence(alloc: Global, path: &str, count: usize) -> Result<String, AllocError> {
    let (slots, need) = match count {
        1 => ("slot", "needs"),
        _ => ("slots", "need"),
    };
    let path = Shown(shown_name(path));
    format!(in alloc;
        "{count} {slots} of {path} {need} a person: put back the bytes of a label that are known, or free its slot by `bureau delete --slot`, and load a file again whose index is wrong"
    )
}

/// A line for each slot with which something is wrong.
fn text_of(alloc: Global, wrongs: &[Wrong]) -> Result<String, AllocError> {
    let mut text = String::new(alloc);
    for wrong in wrongs {
        push_line(&mut text, wrong)?;
    }
    Ok(text)
}

fn push_line(text: &mut String, wrong: &Wrong) -> Result<(), AllocError> {
    let area = wrong.area.number();
    let slot = wrong.slot;
    write!(text, "area {area}, slot {slot}, ")?;
    push_name(text, wrong.name)?;
    text.push_str(": ")?;
    push_cause(text, wrong.cause)?;
    text.push('\n')
}
