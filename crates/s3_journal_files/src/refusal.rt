//! Why a journal doesn't let a command begin or end.
ghost use Rattle.std.specs.Prelude.{◌≡◌, ◌≤◌};
ghost use Rattle.s3_journal_files.specs.Inner.Statuses.{status_of};

use s3_host_files::StandardStream;
use s3_paper_commands::status::{FILE_FAILED, REFUSED};
use s3_refusals::{Reason, Shown};
use std::alloc::{AllocError, AllocFailed};
use std::io;
use std::io::Write;

/// The refusal of what can't have a journal.
const NO_JOURNAL: &str =
    "is no journal: it is a folder, a device or a pipe; give --journal the name of a file";

/// The refusal of a locked journal.
const IN_USE: &str =
    "is in use: another command saves to it or writes it; try again when that one is done";

/// The refusal of a journal with too many bytes.
const TOO_LARGE: &str = "is too large: a journal has at most 268,435,456 bytes";

/// The refusal of a journal that has two uses.
const SAME: &str = "is read or written for something else, too; give each output a file of its own";

/// Why a journal doesn't let a command begin or end.
#[derive(Drop)]
pub enum JournalRefusal<'a> {
    /// There is no memory for it.
    NoMemory,
    /// A call on this journal failed.
    Call(&'a str, io::Error),
    /// This journal has more bytes than are read.
    TooLarge(&'a str),
    /// Another command has this journal.
    InUse(&'a str),
    /// This is a folder, a device or a pipe, in the place of a journal.
    NoJournal(&'a str),
    /// This journal is a file that the command reads or writes for something else.
    Same(&'a str),
    /// This journal is a standard stream as well.
    Stream(&'a str, StandardStream),
    /// The journal can't be read, or another one has a day that made the pack; why is reported.
    Malformed,
    /// This journal didn't get its line; why is reported.
    Unwritten(&'a str),
    /// This pack is an old copy; of which day is reported.
    Old(&'a str),
    /// No line of the journal has this pack; this is reported.
    Changed(&'a str),
    /// The decks or the table are posted; when is reported.
    Posted,
}

impl<'a> From<AllocError> for JournalRefusal<'a> {
    fn from(_error: AllocError) -> JournalRefusal<'a> {
        JournalRefusal::NoMemory
    }
}

impl<'a, T: Drop> From<AllocFailed<T>> for JournalRefusal<'a> {
    fn from(_error: AllocFailed<T>) -> JournalRefusal<'a> {
        JournalRefusal::NoMemory
    }
}

impl<'a> JournalRefusal<'a> {
    /// The refusal for a failed call on a journal.
    pub(crate) fn of(error: &io::Error, name: &'a str) -> JournalRefusal<'a> {
        match error.kind() {
            io::ErrorKind::OutOfMemory => JournalRefusal::NoMemory,
            io::ErrorKind::FileTooLarge => JournalRefusal::TooLarge(name),
            _ => JournalRefusal::Call(name, *error),
        }
    }

    /// The exit status of the refusal.
    pub fn status(&self) -> u8
        ensures status { result ≡ status_of self.now }
        ensures most { result ≤ 3 }
    {
        match self {
            JournalRefusal::Call(_, _)
            | JournalRefusal::TooLarge(_)
            | JournalRefusal::NoJournal(_)
            | JournalRefusal::Stream(_, StandardStream::Error)
            | JournalRefusal::Unwritten(_) => FILE_FAILED,
            _ => REFUSED,
        }
    }

    /// Writes the line of a refusal, and gives its exit status.
    pub fn tell<W: Write>(&self, writer: &mut W) -> u8
        ensures status { result ≡ status_of self.now }
        ensures most { result ≤ 3 }
    {
        let _ = self.write_line(writer);
        self.status()
    }

    fn write_line<W: Write>(&self, writer: &mut W) -> io::Result<()> {
        match self {
            JournalRefusal::NoMemory => writeln!(writer, "bureau: memory"),
            JournalRefusal::Call(name, error) => write_call(writer, *name, *error),
            // A line would get into the file.
            JournalRefusal::Stream(_, StandardStream::Error) => Ok(()),
            JournalRefusal::Stream(name, stream) => write_stream(writer, *name, *stream),
            JournalRefusal::TooLarge(name) => write_file(writer, *name, TOO_LARGE),
            JournalRefusal::InUse(name) => write_file(writer, *name, IN_USE),
            JournalRefusal::NoJournal(name) => write_file(writer, *name, NO_JOURNAL),
            JournalRefusal::Same(name) => write_file(writer, *name, SAME),
            JournalRefusal::Malformed => writeln!(writer, "bureau: journal"),
            JournalRefusal::Unwritten(name) => write_file(writer, *name, "isn't written whole"),
            JournalRefusal::Old(name) => write_pack(writer, "old", *name),
            JournalRefusal::Changed(name) => write_pack(writer, "changed", *name),
            JournalRefusal::Posted => writeln!(writer, "bureau: posted"),
        }
    }
}

/// Writes what is refused of a pack.
fn write_pack<W: Write>(writer: &mut W, word: &str, name: &str) -> io::Result<()> {
    let name = Shown(name);
    writeln!(writer, "bureau: {word} {name}")
}

/// Writes a sentence about a file.
fn write_file<W: Write>(writer: &mut W, name: &str, sentence: &str) -> io::Result<()> {
    let name = Shown(name);
    writeln!(writer, "bureau: {name} {sentence}")
}

/// Writes why a call on a file failed.
fn write_call<W: Write>(writer: &mut W, name: &str, error: io::Error) -> io::Result<()> {
    let (name, reason) = (Shown(name), Reason(error));
    writeln!(writer, "bureau: {name} can't be read or written: {reason}")
}

/// Writes that a file is also a standard stream.
fn write_stream<W: Write>(writer: &mut W, name: &str, stream: StandardStream) -> io::Result<()> {
    let name = Shown(name);
    let stream = stream.name();
    writeln!(
        writer,
        "bureau: {name} is also {stream}; give each a file of its own"
    )
}
