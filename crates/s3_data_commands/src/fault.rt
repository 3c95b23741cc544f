//! Why a command isn't done.
ghost use Rattle.std.specs.Prelude.{◌≤◌};

use crate::filled::push_shown_name;
use s3_host_files::{FileFault, Hindrance, StandardStream, shown_name};
use s3_journal_files::JournalRefusal;
use s3_paper_commands::status::{FILE_FAILED, PERSON_NEEDED, REFUSED, WRONG_WORDS};
use s3_refusals::{Reason, Shown, call_words, tell_holder};
use std::alloc::{AllocError, AllocFailed, Global};
use std::io;
use std::io::{ErrorKind, Write};

/// Why a command isn't done, with the sentence that says so.
#[derive(Drop)]
pub enum Fault {
    /// The words can't be followed.
    Usage(String),
    /// The pack, the deck or the table doesn't allow it.
    Refused(String),
    /// A file, standard input or standard output failed.
    File(String),
    /// It is done up to what a person has to look at.
    Waits(String),
    /// Standard error is a file of the command, so nothing is done, and nothing is written: it would get into that file.
    StandardError,
    /// The journal doesn't allow it, and its line is written.
    RefusedByJournal,
    /// The journal can't be read or written, and its line is written.
    JournalFailed,
    /// Memory was refused.
    NoMemory,
}

impl From<AllocError> for Fault {
    fn from(_: AllocError) -> Fault {
        Fault::NoMemory
    }
}

impl<T: Drop> From<AllocFailed<T>> for Fault {
    fn from(_: AllocFailed<T>) -> Fault {
        Fault::NoMemory
    }
}

impl Use {
    /// What messages call a file of this use.
    fn shown(self, path: &str) -> &str {
        match self {
            Use::Reads => shown_name(path),
            Use::Saves => path,
        }
    }
}

impl Fault {
    /// Writes the sentence of a refusal, and returns its exit status: 2 for options, 3 for files, 4 if the work is done up to
    /// what a person has to look at, else 1. Nothing is written if standard error is a file of the command, or if the line is
    /// written.
    pub fn tell<W: Write>(&self, writer: &mut W) -> u8
        ensures { result ≤ 4 }
    {
        let (start, sentence, status) = match self {
            Fault::Usage(sentence) => ("error", sentence.as_str(), WRONG_WORDS),
            Fault::Refused(sentence) => ("bureau", sentence.as_str(), REFUSED),
            Fault::File(sentence) => ("bureau", sentence.as_str(), FILE_FAILED),
            Fault::Waits(sentence) => ("bureau", sentence.as_str(), PERSON_NEEDED),
            Fault::NoMemory => ("bureau", "memory", REFUSED),
            Fault::RefusedByJournal => return REFUSED,
            Fault::StandardError | Fault::JournalFailed => return FILE_FAILED,
        };
        let _ = writeln!(writer, "{start}: {sentence}");
        status
    }
}

/// What a command does with a file of the host.
#[derive(Clone, Copy)]
pub enum Use {
    /// It reads the file.
    Reads,
    /// It saves the file.
    Saves,
}

/// What a failed call on a file of the host is.
pub fn of_call(rt: &HostRuntime, used: Use, error: &io::Error, path: &str) -> Fault {
    if error.kind() == ErrorKind::OutOfMemory {
        return Fault::NoMemory;
    }
    let mut text = String::new(rt.alloc());
    match push_call(&mut text, used, error, path) {
        Ok(()) => Fault::File(text),
        Err(_) => Fault::NoMemory,
    }
}

/// Appends why a call on a file failed, and the cure: with the sentence that all commands have for it, or else with the system's reason.
fn push_call(
    text: &mut String,
    used: Use,
    error: &io::Error,
    path: &str,
) -> Result<(), AllocError> {
    push_shown_name(text, used.shown(path))?;
    text.push_str(match used {
        Use::Reads => " can't be read: ",
        Use::Saves => " can't be saved: ",
    })?;
    if let (Use::Reads, ErrorKind::FileTooLarge) = (used, error.kind()) {
        return text.push_str(TOO_LARGE);
    }
    let words = call_words(error.kind());
    if words.is_empty() {
        write!(text, "{error}")?;
        text.push_str(cure_of(used))
    } else {
        text.push_str(words)
    }
}

/// Why a file isn't read that has more bytes than a deck.
const TOO_LARGE: &'static str =
    "file too large; a deck has at most 4,194,304 bytes: take the source alone";

/// The cure of a failed call, if the system has the reason.
fn cure_of(used: Use) -> &'static str {
    match used {
        Use::Reads => "; see whether its disk is at work, or take a copy",
        Use::Saves => "; see whether its disk is at work, or save elsewhere",
    }
}

/// What a refusal by the journal is, whose line is written.
pub fn of_journal(rt: &HostRuntime, refusal: &JournalRefusal<'_>) -> Fault {
    if let JournalRefusal::NoMemory = refusal {
        return Fault::NoMemory;
    }
    if refusal.tell(&mut rt.stderr()) == FILE_FAILED {
        Fault::JournalFailed
    } else {
        Fault::RefusedByJournal
    }
}

/// What a failed call on the file of a pack is.
pub fn of_pack(rt: &HostRuntime, used: Use, fault: &FileFault, path: &str) -> Fault {
    let path = used.shown(path);
    let shown = Shown(path);
    match fault {
        FileFault::Call(error) => of_call(rt, used, error, path),
        FileFault::InUse => {
            tell_holder(rt, path);
            refused_or_memory(format!(in rt.alloc();
                "the pack {shown} is in use by another command; try again when that is done"
            ))
        }
        FileFault::Exists => refused_or_memory(format!(in rt.alloc();
            "{shown} is there already; give another name, or --overwrite to write over it"
        )),
        FileFault::IsPack => refused_or_memory(format!(in rt.alloc();
            "{shown} is a pack; name another file"
        )),
        FileFault::NoPack => refused_or_memory(format!(in rt.alloc();
            "{shown} is there and is no pack, so no pack is saved over it; give another name, or remove that file"
        )),
        FileFault::Hindered(hindrance) => file_or_memory(hindered(rt.alloc(), *hindrance, path)),
        FileFault::Stream(StandardStream::Error) => Fault::StandardError,
        FileFault::Stream(stream) => refused_or_memory(is_stream(rt.alloc(), *stream, path)),
        FileFault::Talk(stream) => refused_or_memory(is_talk(rt.alloc(), *stream, path)),
        FileFault::Unsynced(error) => file_or_memory(unsynced(rt.alloc(), error, path)),
    }
}

/// The sentence about a pack whose folder can't be brought to the disk.
fn unsynced(alloc: Global, error: &io::Error, path: &str) -> Result<String, AllocError> {
    let (shown, reason) = (Shown(path), Reason(*error));
    format!(in alloc;
        "the pack is saved in {shown}, but may not survive a power cut, because its folder can't be brought to the disk: {reason}"
    )
}

/// Why a file isn't replaced by a pack.
fn hindered(alloc: Global, hindrance: Hindrance, path: &str) -> Result<String, AllocError> {
    let words = hindrance.words();
    let shown = Shown(path);
    format!(in alloc; "{shown} {words}")
}

/// The sentence about a file that is also a standard stream.
fn is_stream(alloc: Global, stream: StandardStream, path: &str) -> Result<String, AllocError> {
    let stream = stream.name();
    let shown = Shown(path);
    format!(in alloc;
        "{shown} is also {stream}, so what is printed would get into it; send {stream} to another file, and restore {shown} from a copy if `>` has emptied it"
    )
}

/// The sentence about a pack that would be saved to a standard stream.
fn is_talk(alloc: Global, stream: StandardStream, path: &str) -> Result<String, AllocError> {
    let stream = stream.name();
    let shown = Shown(path);
    format!(in alloc;
        "{shown} is {stream}, and no pack is saved there; give --save the name of a file"
    )
}

fn file_or_memory(sentence: Result<String, AllocError>) -> Fault {
    match sentence {
        Ok(sentence) => Fault::File(sentence),
        Err(_) => Fault::NoMemory,
    }
}

fn refused_or_memory(sentence: Result<String, AllocError>) -> Fault {
    match sentence {
        Ok(sentence) => Fault::Refused(sentence),
        Err(_) => Fault::NoMemory,
    }
}
