//! Commands of the machine that are refused: `run`, `init`, `list` and `migrate`.
ghost use Rattle.std.specs.Prelude.{◌≡◌};
ghost use Rattle.s3_cli.specs.Inner.Faults.{status_of};

use crate::packs::pack_words;
use crate::reasons::{Holder, Reason};
use s3_cli::{CliFault, ImageFault, MigrateFault, RunFault, SessionFault, tell};
use s3_decks::Shown;
use s3_host_files::{Hindrance, StandardStream, shown_name};
use s3_labels::MountFault;
use std::io;
use std::io::Write;

/// What a command was at when it was refused.
#[derive(Clone, Copy)]
pub enum Work<'a> {
    /// No file was in error, and neither were standard input and output.
    Options,
    /// This file was in error, in this work.
    File(&'a str, FileWork),
    /// A read of standard input failed.
    StandardInput(io::Error),
    /// A write of standard output failed, for a reason that may be known.
    StandardOutput(Option<io::Error>),
    /// It had read this pack.
    Pack(&'a str),
}

/// Why a file can't be read, or a pack not be saved in it.
#[derive(Clone, Copy)]
pub enum FileWork {
    /// A read of the file failed.
    Reading(io::Error),
    /// The save of the pack failed.
    Saving(io::Error),
    /// The file was put there meanwhile, and isn't to be replaced.
    Exists,
    /// The file isn't a pack, so no pack replaces it.
    NoPack,
    /// The file can't be replaced.
    Hindered(Hindrance),
    /// The file is this standard stream as well.
    Stream(StandardStream),
    /// The pack isn't saved, because the target is this standard stream, which is a pipe or a terminal.
    Talk(StandardStream),
    /// The pack is saved, but its folder couldn't be brought to the disk.
    Unsynced(io::Error),
    /// The file is in use, by a process that may be known.
    InUse(Option<u32>),
}

/// A refused command: its fault, which its line has, and what else is known.
#[derive(Clone, Copy)]
pub struct Refused<'a> {
    /// Why the command isn't done.
    pub fault: CliFault,
    /// What the command was at.
    pub work: Work<'a>,
}

impl<'a> Refused<'a> {
    /// Writes the line of a refusal, and gives its exit status. At a terminal further lines say in words which file failed, why, and
    /// what to do. Nothing is written if the file in error is also standard error: it would get into that file.
    pub fn tell<W: Write>(&self, writer: &mut W, is_terminal: bool) -> u8
        ensures { result ≡ status_of self.now.fault }
    {
        if self.is_about_standard_error() {
            return self.fault.status();
        }
        let status = tell(writer, &self.fault);
        if is_terminal {
            let _ = self.explain(writer);
        }
        status
    }

    fn is_about_standard_error(&self) -> bool {
        matches!(
            self.work,
            Work::File(_, FileWork::Stream(StandardStream::Error))
        )
    }

    fn explain<W: Write>(&self, writer: &mut W) -> io::Result<()> {
        match self.work {
            Work::File(name, work) => explain_file(writer, name, work),
            Work::StandardInput(error) => {
                let reason = Reason(error);
                writeln!(
                    writer,
                    "Standard input can't be read, so nothing is done: {reason}. Give a file with the decks and the script: `bureau run < FILE`."
                )
            }
            Work::StandardOutput(Some(error)) => {
                let reason = Reason(error);
                writeln!(
                    writer,
                    "Standard output can't be written, and no pack is saved: {reason}."
                )
            }
            Work::StandardOutput(None) => writeln!(
                writer,
                "Standard output can't be written, and no pack is saved. Its disk may be full, or the program that reads it has ended."
            ),
            Work::Pack(name) => explain_fault(writer, &self.fault, Some(name)),
            Work::Options => explain_fault(writer, &self.fault, None),
        }
    }
}

/// Writes why a file can't be read, or a pack not be saved in it, and what to do.
fn explain_file<W: Write>(writer: &mut W, name: &str, work: FileWork) -> io::Result<()> {
    let name = Shown(shown_name(name));
    match work {
        FileWork::Reading(error) => {
            let reason = Reason(error);
            writeln!(writer, "{name} can't be read: {reason}.")
        }
        FileWork::Saving(error) => {
            let reason = Reason(error);
            writeln!(writer, "The pack isn't saved in {name}: {reason}.")
        }
        FileWork::Exists => writeln!(
            writer,
            "The pack isn't saved: {name} was put there by another command. Give another name."
        ),
        FileWork::NoPack => writeln!(
            writer,
            "The pack isn't saved: {name} isn't a pack, and stays as it is. Give another name, or remove that file."
        ),
        FileWork::Hindered(hindrance) => {
            let words = hindrance.words();
            writeln!(writer, "The pack isn't saved: {name} {words}.")
        }
        FileWork::Stream(stream) => explain_stream(writer, name, stream),
        FileWork::Talk(stream) => {
            let stream = stream.name();
            writeln!(
                writer,
                "The pack isn't saved: {name} is {stream}. Nothing was done. Give --save the name of a file."
            )
        }
        FileWork::Unsynced(error) => explain_unsynced(writer, name, error),
        FileWork::InUse(process) => {
            let holder = Holder(process);
            writeln!(
                writer,
                "{name} is in use: {holder}. Run this command again when that one is done."
            )
        }
    }
}

fn explain_stream<W: Write>(
    writer: &mut W,
    name: Shown<'_>,
    stream: StandardStream,
) -> io::Result<()> {
    let stream = stream.name();
    writeln!(
        writer,
        "{name} is also {stream}, so what is printed would get into it. Nothing was done. Send {stream} to another file, and restore {name} from a copy if `>` has emptied it."
    )
}

fn explain_unsynced<W: Write>(writer: &mut W, name: Shown<'_>, error: io::Error) -> io::Result<()> {
    let reason = Reason(error);
    writeln!(
        writer,
        "The pack is saved in {name}, but may not survive a power cut: its folder can't be brought to the disk: {reason}."
    )
}

/// Writes what a fault means, and what to do; the pack is named if one was read.
fn explain_fault<W: Write>(writer: &mut W, fault: &CliFault, pack: Option<&str>) -> io::Result<()> {
    match *fault {
        CliFault::Session(SessionFault::Run(fault)) => explain_run(writer, fault, pack),
        CliFault::Session(SessionFault::Input) => writer.write_all(
            b"Standard input isn't the input of a run. It has three lines `:deck1`, `:deck2` and `:script` in this order, `:deck1` as the\nfirst one, and at most 4,194,304 bytes. docs/RUNNING.md has an example.\n",
        ),
        CliFault::Session(SessionFault::File) => writer.write_all(
            b"A file can't be read or written.\n",
        ),
        CliFault::Image(fault) => explain_image(writer, fault, pack),
        CliFault::Migrate(fault) => explain_migrate(writer, fault, pack),
    }
}

fn explain_run<W: Write>(writer: &mut W, fault: RunFault, pack: Option<&str>) -> io::Result<()> {
    match fault {
        RunFault::Script { line } => writeln!(
            writer,
            "Line {line} of the script isn't well formed; the line after `:script` is line 1. A line is `T1`, `T1 12`, `D1`, `D1 8` or\n`R1 2`, with level 1 or 2 and a count from 1 to 9999, and has nothing else. Nothing was done."
        ),
        RunFault::Mount(fault) => explain_mount(writer, fault, pack),
        RunFault::Device => writer.write_all(b"A sector of the pack can't be read or written.\n"),
        RunFault::NoMemory => explain_memory(writer),
    }
}

fn explain_memory<W: Write>(writer: &mut W) -> io::Result<()> {
    writer.write_all(
        b"Memory ran out, and no pack is saved. End other programs, or raise the limit that `ulimit -v` shows.\n",
    )
}

fn explain_mount<W: Write>(
    writer: &mut W,
    fault: MountFault,
    pack: Option<&str>,
) -> io::Result<()> {
    let Some(name) = pack else {
        return writer.write_all(b"The pack can't be used.\n");
    };
    let (name, reason) = (Shown(shown_name(name)), pack_words(fault));
    writeln!(
        writer,
        "{name} can't be used as a pack: {reason}. Check the name, or take a copy that is whole."
    )
}

fn explain_image<W: Write>(
    writer: &mut W,
    fault: ImageFault,
    pack: Option<&str>,
) -> io::Result<()> {
    match fault {
        ImageFault::Mount(fault) => explain_mount(writer, fault, pack),
        ImageFault::TooLarge => writer.write_all(
            b"The regions have more than 2,723 tracks together. Give fewer by --masters, --level1 or --level2.\n",
        ),
        ImageFault::BadQuota => writer.write_all(
            b"--quota1 and --quota2 are each 1 to 127, and at most 128 together.\n",
        ),
        ImageFault::NoMemory => explain_memory(writer),
    }
}

fn explain_migrate<W: Write>(
    writer: &mut W,
    fault: MigrateFault,
    pack: Option<&str>,
) -> io::Result<()> {
    match fault {
        MigrateFault::Mount(fault) => explain_mount(writer, fault, pack),
        MigrateFault::AlreadyNew => writer.write_all(
            b"The pack is in the second format already. Use it as it is; nothing is saved.\n",
        ),
        MigrateFault::NoMemory => explain_memory(writer),
    }
}
