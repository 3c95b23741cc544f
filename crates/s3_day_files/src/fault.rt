//! Why a day isn't operated, or not to its end.
ghost use Rattle.std.specs.Prelude.{◌≡◌, ◌≤◌};
ghost use Rattle.s3_day_files.specs.Inner.Statuses.{status_of};

use crate::kind::Kind;
use s3_cards::LevelId;
use s3_cli::{CliFault, tell};
use s3_command_line::OUT_OF_MEMORY;
use s3_host_files::{FileFault, Hindrance, StandardStream, is_pack_at};
use s3_journal_files::JournalRefusal;
use s3_paper_commands::OutputReason;
use s3_paper_commands::status::{FILE_FAILED, REFUSED, WRONG_WORDS};
use s3_refusals::{Reason, Shown};
use std::alloc::{AllocError, AllocFailed};
use std::io;
use std::io::Write;
use std::path::Path;

/// The refusal of a file with too many bytes.
const TOO_LARGE: &str =
    "is too large: a deck or the rules have at most 4,194,304 bytes, a log 268,435,456";

/// The refusal of a file of `--save` that isn't a pack.
const NO_PACK: &str =
    "is there and isn't a pack; give another name after --save, or remove that file";

/// The refusal of what can't have a pack.
const DEVICE: &str = "is no pack: it is a device or a pipe; give the file of a pack";

/// The refusal of a file of `--save` in a folder that may not be written.
const FOLDER_CLOSED: &str =
    "can't be saved: permission is denied; have the folder's owner let you read and write there, as by `chmod`, or save elsewhere";

/// The refusal of a locked file.
const IN_USE: &str =
    "is in use: another command saves to it or writes it; try again when that one is done";

/// The refusal of a file that exists.
const EXISTS: &str = "is there already; give another name, or --overwrite to write over it";

/// The refusal of a file of `--save` that exists and isn't the file of `--pack`.
const OTHER_PACK: &str =
    "is there already and isn't the pack that is read; name it after --pack, too, or give another name after --save; --overwrite would lose its files";

/// The refusal of a file of `--save` that this user may not read.
const CLOSED: &str =
    "is there already, and permission to read it is denied, so it may be a pack; give another name after --save";

/// The refusal of a pack that a new one would replace.
const NEW_OVER_PACK: &str =
    "is a pack, and the day begins with a new one, as no --pack is given: add --pack with its name, or name another file after --save";

/// The refusal of an output that has two uses.
const SAME: &str = "is read or written for something else, too; give each output a file of its own";

/// Why a day isn't operated, or not to its end.
#[derive(Drop)]
pub enum DayFault<'a> {
    /// As `run` is refused.
    Cli(CliFault),
    /// The options name no day; this is why.
    Usage(&'static str),
    /// A call on standard output failed.
    Output(io::Error),
    /// This file isn't written whole.
    File(&'a str),
    /// A call on this file failed.
    Call(&'a str, io::Error),
    /// This file has more bytes than are read.
    TooLarge(&'a str),
    /// This file of a deck is a pack.
    PackAsDeck(&'a str),
    /// This file exists and isn't a pack, so no pack replaces it.
    NoPack(&'a str),
    /// This file is a pack, so no other output overwrites it.
    IsPack(&'a str),
    /// This file is a pack, and the day begins with a new one.
    NewOverPack(&'a str),
    /// This is a device or a pipe, in the place of a pack.
    Device(&'a str),
    /// The folder of this file doesn't let a pack be saved.
    FolderClosed(&'a str),
    /// This file can't be replaced by the pack.
    Hindered(&'a str, Hindrance),
    /// This file is a standard stream as well.
    Stream(&'a str, StandardStream),
    /// The pack is saved in this file, but its folder couldn't be brought to the disk.
    Unsynced(&'a str),
    /// Another command has this pack, or writes this output.
    InUse(&'a str),
    /// The number of the first bad line of the rules.
    Replies(usize),
    /// The deck of this level can't be read.
    Deck(LevelId),
    /// This output would overwrite a file.
    Exists(&'a str),
    /// This output would overwrite a file of another kind.
    NotReplaced(&'a str, Kind),
    /// The pack would be saved over this file, which this user may not read.
    Closed(&'a str),
    /// The pack would be saved over this file, which isn't the pack that was read.
    OtherPack(&'a str),
    /// This output is the same file as another output, or as a file that is read.
    Same(&'a str),
    /// This file is in the folder of the pages.
    Within(&'a str),
    /// This folder of the pages isn't empty.
    NotEmpty(&'a str),
    /// This folder of the pages has a pack.
    HasPack(&'a str),
    /// The pack that the save replaces can't be kept.
    Keep(&'a str),
    /// No earlier pack is put back in the place of this one.
    Restore(&'a str),
    /// The day can't be taken up at that line.
    NoTakingUp,
    /// The day isn't the day of the log.
    Redo,
    /// The journal doesn't let the day begin, or didn't get its line.
    Journal(JournalRefusal<'a>),
}

impl<'a> From<AllocError> for DayFault<'a> {
    fn from(_error: AllocError) -> DayFault<'a> {
        DayFault::Cli(OUT_OF_MEMORY)
    }
}

impl<'a, T: Drop> From<AllocFailed<T>> for DayFault<'a> {
    fn from(_error: AllocFailed<T>) -> DayFault<'a> {
        DayFault::Cli(OUT_OF_MEMORY)
    }
}

impl<'a> From<JournalRefusal<'a>> for DayFault<'a> {
    fn from(refusal: JournalRefusal<'a>) -> DayFault<'a> {
        match refusal {
            JournalRefusal::NoMemory => DayFault::Cli(OUT_OF_MEMORY),
            refusal => DayFault::Journal(refusal),
        }
    }
}

impl<'a> DayFault<'a> {
    /// The fault of a failed call on a file.
    pub fn of(error: &io::Error, name: &'a str) -> DayFault<'a> {
        if error.kind() == io::ErrorKind::OutOfMemory {
            DayFault::Cli(OUT_OF_MEMORY)
        } else {
            DayFault::Call(name, *error)
        }
    }

    /// The fault of a failed call on standard output.
    pub fn of_output(error: &io::Error) -> DayFault<'a> {
        if error.kind() == io::ErrorKind::OutOfMemory {
            DayFault::Cli(OUT_OF_MEMORY)
        } else {
            DayFault::Output(*error)
        }
    }

    /// Why the file of a pack can't be read or saved, or an output can't be opened.
    pub fn of_pack(fault: &FileFault, name: &'a str) -> DayFault<'a> {
        match fault {
            FileFault::InUse => DayFault::InUse(name),
            FileFault::Exists => DayFault::Exists(name),
            FileFault::NoPack => DayFault::NoPack(name),
            FileFault::IsPack => DayFault::IsPack(name),
            FileFault::Hindered(hindrance) => DayFault::Hindered(name, *hindrance),
            FileFault::Stream(stream) => DayFault::Stream(name, *stream),
            FileFault::Talk(_) => DayFault::Device(name),
            FileFault::Call(error) => DayFault::of(error, name),
            FileFault::Unsynced(_) => DayFault::Unsynced(name),
        }
    }

    /// Whether another command has a file of the day.
    pub fn is_in_use(&self) -> bool {
        matches!(
            self,
            DayFault::InUse(_) | DayFault::Journal(JournalRefusal::InUse(_))
        )
    }

    /// The exit status of the refusal.
    pub fn status(&self) -> u8
        ensures status { result ≡ status_of self.now }
        ensures most { result ≤ 3 }
    {
        match self {
            DayFault::Usage(_) => WRONG_WORDS,
            DayFault::Output(_)
            | DayFault::File(_)
            | DayFault::Call(_, _)
            | DayFault::TooLarge(_)
            | DayFault::NoPack(_)
            | DayFault::Device(_)
            | DayFault::FolderClosed(_)
            | DayFault::Hindered(_, _)
            | DayFault::Stream(_, StandardStream::Error)
            | DayFault::Unsynced(_) => FILE_FAILED,
            DayFault::Journal(refusal) => refusal.status(),
            DayFault::Cli(fault) => fault.status(),
            _ => REFUSED,
        }
    }

    /// Writes the line of a refusal, and gives its exit status.
    pub fn tell<W: Write>(&self, writer: &mut W) -> u8
        ensures status { result ≡ status_of self.now }
        ensures most { result ≤ 3 }
    {
        match self {
            DayFault::Cli(fault) => tell(writer, fault),
            DayFault::Journal(refusal) => refusal.tell(writer),
            _ => {
                let _ = self.write_line(writer);
                self.status()
            }
        }
    }

    /// Writes the line of a refusal that isn't one of `run`.
    fn write_line<W: Write>(&self, writer: &mut W) -> io::Result<()> {
        match self {
            DayFault::Usage(reason) => writeln!(writer, "error: {reason}"),
            DayFault::Replies(line) => writeln!(writer, "bureau: replies {line}"),
            DayFault::Deck(LevelId::One) => writeln!(writer, "bureau: deck1"),
            DayFault::Deck(LevelId::Two) => writeln!(writer, "bureau: deck2"),
            DayFault::NoTakingUp => writeln!(writer, "bureau: from"),
            DayFault::Redo => writeln!(writer, "bureau: redo"),
            DayFault::Keep(name) => write_pack(writer, "keep", *name),
            DayFault::Restore(name) => write_pack(writer, "restore", *name),
            DayFault::Output(error) => write_output(writer, *error),
            DayFault::Call(name, error) => write_call(writer, *name, *error),
            DayFault::Hindered(name, hindrance) => write_file(writer, *name, hindrance.words()),
            // A line would get into the file.
            DayFault::Stream(_, StandardStream::Error) => Ok(()),
            DayFault::Stream(name, stream) => write_stream(writer, *name, *stream),
            _ => match self.sentence() {
                Some((name, sentence)) => write_file(writer, name, sentence),
                None => Ok(()),
            },
        }
    }

    /// The file in error and the rest of the sentence about it, if the fault has no other value.
    fn sentence(&self) -> Option<(&'a str, &'static str)> {
        match self {
            DayFault::File(name) => Some((*name, "isn't written whole")),
            DayFault::TooLarge(name) => Some((*name, TOO_LARGE)),
            DayFault::NoPack(name) => Some((*name, NO_PACK)),
            DayFault::IsPack(name) => Some((*name, "is a pack; name another file")),
            DayFault::Device(name) => Some((*name, DEVICE)),
            DayFault::FolderClosed(name) => Some((*name, FOLDER_CLOSED)),
            DayFault::NewOverPack(name) => Some((*name, NEW_OVER_PACK)),
            DayFault::Unsynced(name) => {
                Some((*name, "is saved, but may not survive a power cut"))
            }
            DayFault::InUse(name) => Some((*name, IN_USE)),
            DayFault::PackAsDeck(name) => {
                Some((*name, "is a pack, not a deck; name it after --pack"))
            }
            DayFault::Exists(name) => Some((*name, EXISTS)),
            DayFault::NotReplaced(name, kind) => Some((*name, kind.refusal())),
            DayFault::Closed(name) => Some((*name, CLOSED)),
            DayFault::OtherPack(name) => Some((*name, OTHER_PACK)),
            DayFault::Same(name) => Some((*name, SAME)),
            DayFault::Within(name) => Some((
                *name,
                "is in the folder of --paper; give the pages a folder of their own",
            )),
            DayFault::NotEmpty(name) => Some((
                *name,
                "isn't empty; give --paper another folder, or --overwrite to write into it",
            )),
            DayFault::HasPack(name) => Some((
                *name,
                "has a pack in it; give --paper another folder, or move the pack to another one",
            )),
            _ => None,
        }
    }
}

/// Writes what is refused of a pack.
fn write_pack<W: Write>(writer: &mut W, word: &str, name: &str) -> io::Result<()> {
    let name = Shown(name);
    writeln!(writer, "bureau: {word} {name}")
}

/// Writes a sentence about a file.
fn write_file<W: Write>(writer: &mut W, name: &str, sentence: &str) -> io::Result<()> {
    let name = Shown(name);
    writeln!(writer, "bureau: {name} {sentence}")
}

/// Writes why a call on a file failed.
fn write_call<W: Write>(writer: &mut W, name: &str, error: io::Error) -> io::Result<()> {
    let (name, reason) = (Shown(name), Reason(error));
    writeln!(writer, "bureau: {name} can't be read or written: {reason}")
}

/// Writes why standard output can't be written.
fn write_output<W: Write>(writer: &mut W, error: io::Error) -> io::Result<()> {
    let reason = OutputReason(error);
    writeln!(writer, "bureau: standard output can't be written: {reason}")
}

/// Writes that a file is also a standard stream.
fn write_stream<W: Write>(writer: &mut W, name: &str, stream: StandardStream) -> io::Result<()> {
    let name = Shown(name);
    let stream = stream.name();
    writeln!(
        writer,
        "bureau: {name} is also {stream}; give each a file of its own, and restore {name} from a copy if `>` has emptied it"
    )
}

/// Reports why an output can't be written, and gives the fault.
pub fn unwritten<'a>(rt: &HostRuntime, name: &'a str, error: &io::Error) -> DayFault<'a> {
    match error.kind() {
        io::ErrorKind::OutOfMemory => return DayFault::Cli(OUT_OF_MEMORY),
        io::ErrorKind::AlreadyExists => tell_appeared(rt, name),
        _ => {
            let (shown, reason) = (Shown(name), Reason(*error));
            let _ = writeln!(rt.stderr(), "{shown} can't be written: {reason}");
        }
    }
    DayFault::File(name)
}

/// Reports a file that appeared during the day in the place of an output.
fn tell_appeared(rt: &HostRuntime, name: &str) {
    let shown = Shown(name);
    let _ = if matches!(is_pack_at(rt, Path::new(name)), Ok(true)) {
        writeln!(
            rt.stderr(),
            "{shown} can't be written: it is a pack by now; name another file"
        )
    } else {
        writeln!(
            rt.stderr(),
            "{shown} can't be written: it is there by now, and wasn't when the day began; give another name, or --overwrite to write over it"
        )
    };
}
