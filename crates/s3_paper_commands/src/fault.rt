//! Why a command doesn't do what it is asked.
ghost use Rattle.std.specs.Prelude.{◌≤◌};

use crate::output_reason::OutputReason;
use crate::status::{FILE_FAILED, REFUSED, WRONG_WORDS};
use s3_host_files::StandardStream;
use s3_refusals::{Reason, Shown};
use std::alloc::{AllocError, AllocFailed};
use std::io;
use std::io::Write;

/// Why a command doesn't do what it is asked.
#[derive(Drop)]
pub enum CommandFault<'a> {
    /// Memory ran out.
    NoMemory,
    /// This file can't be read.
    File(&'a str, io::Error),
    /// This file has more bytes than a file of a deck may have.
    TooLarge(&'a str),
    /// This file is a pack, and a deck is wanted.
    Pack(&'a str),
    /// This file is a standard stream as well.
    Stream(&'a str, StandardStream),
    /// Standard output can't be written.
    Output(io::Error),
    /// The options don't go together, for this reason.
    Options(&'static str),
}

impl<'a> From<AllocError> for CommandFault<'a> {
    fn from(_error: AllocError) -> CommandFault<'a> {
        CommandFault::NoMemory
    }
}

impl<'a, T: Drop> From<AllocFailed<T>> for CommandFault<'a> {
    fn from(_error: AllocFailed<T>) -> CommandFault<'a> {
        CommandFault::NoMemory
    }
}

impl<'a> CommandFault<'a> {
    /// The fault of a failed call on a file.
    pub fn of(error: &io::Error, name: &'a str) -> CommandFault<'a> {
        if error.kind() == io::ErrorKind::OutOfMemory {
            CommandFault::NoMemory
        } else {
            CommandFault::File(name, *error)
        }
    }

    /// The fault of a failed write of standard output.
    pub fn of_output(error: &io::Error) -> CommandFault<'a> {
        if error.kind() == io::ErrorKind::OutOfMemory {
            CommandFault::NoMemory
        } else {
            CommandFault::Output(*error)
        }
    }

    /// The exit status of the refusal.
    fn status(&self) -> u8
        ensures { result ≤ 3 }
    {
        match self {
            CommandFault::File(_, _)
            | CommandFault::TooLarge(_)
            | CommandFault::Output(_)
            | CommandFault::Stream(_, StandardStream::Error) => FILE_FAILED,
            CommandFault::Options(_) => WRONG_WORDS,
            CommandFault::NoMemory | CommandFault::Pack(_) | CommandFault::Stream(_, _) => REFUSED,
        }
    }

    /// Writes the line of a refusal, and gives its exit status, 1 to 3.
    pub fn tell<W: Write>(&self, writer: &mut W) -> u8
        ensures { result ≤ 3 }
    {
        let _ = self.write_line(writer);
        self.status()
    }

    fn write_line<W: Write>(&self, writer: &mut W) -> io::Result<()> {
        match self {
            CommandFault::NoMemory => writeln!(writer, "bureau: memory"),
            CommandFault::File(name, error) => {
                let (name, reason) = (Shown(*name), Reason(*error));
                writeln!(writer, "bureau: {name} can't be read: {reason}")
            }
            CommandFault::TooLarge(name) => {
                let name = Shown(*name);
                writeln!(
                    writer,
                    "bureau: {name} can't be read: a file of a deck has at most 4,194,304 bytes; make several files of it"
                )
            }
            CommandFault::Pack(name) => {
                let name = Shown(*name);
                writeln!(
                    writer,
                    "bureau: {name} is a pack, not a deck; give a file with the cards of jobs"
                )
            }
            // A line would get into the file.
            CommandFault::Stream(_, StandardStream::Error) => Ok(()),
            CommandFault::Stream(name, stream) => {
                let (name, stream) = (Shown(*name), stream.name());
                writeln!(
                    writer,
                    "bureau: {name} is also {stream}, so what is printed would get into it; send {stream} to another file, and restore {name} from a copy if `>` has emptied it"
                )
            }
            CommandFault::Output(error) => {
                let reason = OutputReason(*error);
                writeln!(writer, "bureau: standard output can't be written: {reason}")
            }
            CommandFault::Options(reason) => writeln!(writer, "error: {reason}"),
        }
    }
}
