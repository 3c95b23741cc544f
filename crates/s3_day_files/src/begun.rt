//! The part of a day's beginning that its log has: the options, and whether the pack and the decks are those of a log.

use crate::fault::DayFault;
use s3_day_log::{Begun, DayLog, NamedFile, checksum};
use s3_refusals::Shown;
use std::alloc::{AllocError, Global};
use std::io::Write;

/// The options that name outputs, or the log of another day, which no log has.
const OUTPUTS: [&str; 10] = [
    "--save",
    "--keep",
    "--script",
    "--log",
    "--redo",
    "--deck-out1",
    "--deck-out2",
    "--paper",
    "--journal",
    "--held",
];

/// A log whose day is done again.
#[derive(Clone, Copy)]
pub struct Again<'a> {
    /// Its name.
    pub path: &'a str,
    /// What it has.
    pub log: &'a DayLog,
}

/// A file as a log names it, given its name and its bytes.
pub fn named_file(alloc: Global, name: &str, bytes: &[u8]) -> Result<NamedFile, AllocError> {
    let name = String::from_str(alloc, name)?;
    let sha256 = checksum(alloc, bytes)?;
    Ok(NamedFile { name, sha256 })
}

/// The options and arguments except those that name outputs, and their files.
pub fn words_kept(alloc: Global, words: &[String]) -> Result<Vec<String>, AllocError> {
    let mut kept = Vec::new(alloc);
    let mut is_file = false;
    for word in words {
        let text = word.as_str();
        if is_file {
            is_file = false;
        } else if is_output(text) {
            is_file = true;
        } else if !names_output(text) {
            push_word(alloc, &mut kept, text)?;
        }
    }
    Ok(kept)
}

fn is_output(name: &str) -> bool {
    OUTPUTS.iter().any(|output| *output == name)
}

/// Whether a word names an output and, after `=`, its file.
fn names_output(word: &str) -> bool {
    match word.split_once('=') {
        Some((name, _file)) => is_output(name),
        None => false,
    }
}

/// Appends a copy of a word.
pub fn push_word(alloc: Global, words: &mut Vec<String>, word: &str) -> Result<(), AllocError> {
    words.push(String::from_str(alloc, word)?)?;
    Ok(())
}

/// Refuses a day whose pack or decks aren't those of a log, and reports which differs.
pub fn test_same<'a>(
    rt: &HostRuntime,
    again: Again<'_>,
    begun: &Begun,
) -> Result<(), DayFault<'a>> {
    let pack = begun.pack.as_ref().map(|file| file.sha256.as_str());
    let deck1 = checksums(rt.alloc(), &begun.deck1)?;
    let deck2 = checksums(rt.alloc(), &begun.deck2)?;
    match again.log.test(pack, &deck1, &deck2) {
        Ok(()) => Ok(()),
        Err(refused) => {
            let path = Shown(again.path);
            let _ = writeln!(rt.stderr(), "{path}: {refused}");
            Err(DayFault::Redo)
        }
    }
}

fn checksums(alloc: Global, files: &[NamedFile]) -> Result<Vec<String>, AllocError> {
    let mut sums = Vec::new(alloc);
    for file in files {
        push_word(alloc, &mut sums, file.sha256.as_str())?;
    }
    Ok(sums)
}
