//! A journal that is read.

use crate::opening::BEGINNING;
use crate::refusal::JournalRefusal;
use s3_host_files::{read_within, shown_name};
use s3_journal::{JournalFault, PostedDay, read_lines};
use s3_refusals::Shown;
use std::io;
use std::io::Write;

/// The most bytes of a journal that is read.
pub(crate) const JOURNAL_LIMIT: usize = 268_435_456;

/// What helps if a journal can't be read.
#[derive(Clone, Copy)]
struct Cures {
    /// If the file is no journal.
    no_journal: &'static str,
    /// If a line of the journal is damaged.
    damaged: &'static str,
}

/// For commands with the option --journal.
const BY_OPTION: Cures = Cures {
    no_journal: "give the file that --journal wrote, or a new name",
    damaged: "restore the journal from a copy, for a new one has no posted decks",
};

/// For commands that have the journal as an argument.
const BY_ARGUMENT: Cures = Cures {
    no_journal: "give the file that --journal of `bureau operate` or another command wrote",
    damaged: "restore the journal from a copy",
};

/// A journal that is read.
#[derive(Drop)]
pub struct Journal {
    /// The days, the last one first.
    pub days: Vec<PostedDay>,
    /// The last line.
    pub(crate) last: String,
    /// How many bytes stay: those of the lines. Without a line these are the beginning of the first one, as far as it is there.
    pub(crate) bytes: u64,
    /// How many bytes of the next line are among them.
    pub(crate) begun: usize,
    /// Whether it may have lost its lines: it has none, and not just the beginning of the first one, as a new journal has.
    pub has_lost_lines: bool,
    /// Whether a further line was begun, by a command that was killed.
    pub is_cut: bool,
    /// What the file has, lines and the rest.
    pub(crate) text: Vec<u8>,
}

/// The lines of the journal that --journal names, or of standard input if its name is `-`. What is wrong with them is reported.
pub fn read_journal<'a>(rt: &HostRuntime, name: &'a str) -> Result<Journal, JournalRefusal<'a>> {
    read_by(rt, name, BY_OPTION)
}

/// The lines of a journal for a command that has no option --journal, as `read_journal` gives them.
pub fn read_listed_journal<'a>(
    rt: &HostRuntime,
    name: &'a str,
) -> Result<Journal, JournalRefusal<'a>> {
    read_by(rt, name, BY_ARGUMENT)
}

/// What the file of a journal has.
pub(crate) fn journal_text(rt: &HostRuntime, name: &str) -> io::Result<Vec<u8>> {
    read_within(rt, name, JOURNAL_LIMIT)
}

/// The lines of a journal. What is wrong with them is reported, with what helps.
fn read_by<'a>(
    rt: &HostRuntime,
    name: &'a str,
    cures: Cures,
) -> Result<Journal, JournalRefusal<'a>> {
    let bytes = match journal_text(rt, name) {
        Ok(bytes) => bytes,
        Err(error) => return Err(JournalRefusal::of(&error, shown_name(name))),
    };
    let Ok(text) = str::from_utf8(&bytes) else {
        let name = Shown(shown_name(name));
        let cure = cures.no_journal;
        let _ = writeln!(
            rt.stderr(),
            "{name} is no journal, for it isn't text in UTF-8; {cure}"
        );
        return Err(JournalRefusal::Malformed);
    };
    match read_lines(rt.alloc(), text) {
        Ok(lines) => {
            let begun = begun_bytes(lines.bytes, bytes.len());
            Ok(Journal {
                days: lines.days,
                last: String::from_str(rt.alloc(), lines.last)?,
                bytes: lines.bytes.saturating_add(begun) as u64,
                begun,
                has_lost_lines: lines.bytes == 0 && text != BEGINNING,
                is_cut: lines.bytes < bytes.len(),
                text: bytes,
            })
        }
        Err(JournalFault::NoMemory) => Err(JournalRefusal::NoMemory),
        Err(JournalFault::Line(1)) if !text.starts_with(BEGINNING) => {
            let name = Shown(shown_name(name));
            let (beginning, cure) = (BEGINNING, cures.no_journal);
            let _ = writeln!(
                rt.stderr(),
                "{name} is no journal: a journal begins with {beginning}, and this file doesn't; {cure}"
            );
            Err(JournalRefusal::Malformed)
        }
        Err(fault) => {
            let name = Shown(shown_name(name));
            let cure = cures.damaged;
            let _ = writeln!(rt.stderr(), "{name}: {fault}; {cure}");
            Err(JournalRefusal::Malformed)
        }
    }
}

/// How many bytes of a line that was begun stay, given how many the lines have and how many the journal has: without a line the beginning
/// that each line has, so that the journal isn't empty.
fn begun_bytes(lines: usize, all: usize) -> usize {
    if lines == 0 {
        all.min(BEGINNING.len())
    } else {
        0
    }
}
