//! Refusals of files and of memory, as `bureau run` reports them.

use s3_cli::{CliFault, SessionFault};
use s3_command_line::{FILE, OUT_OF_MEMORY};
use s3_host_files::FileFault;
use s3_refusals::{FileWork, Refused, Work, holder_of};
use std::io;

/// What a failed call on a file is to a command.
pub fn fault_of(error: &io::Error) -> CliFault {
    if error.kind() == io::ErrorKind::OutOfMemory {
        OUT_OF_MEMORY
    } else {
        FILE
    }
}

/// A refusal for which no file is in error.
pub fn of_options<'a>(fault: CliFault) -> Refused<'a> {
    Refused {
        fault,
        work: Work::Options,
    }
}

/// A refusal of a pack, if one was read.
pub fn of_pack<'a>(fault: CliFault, pack: Option<&'a str>) -> Refused<'a> {
    match pack {
        Some(path) => Refused {
            fault,
            work: Work::Pack(path),
        },
        None => of_options(fault),
    }
}

/// A session or a list that is refused, over the pack of a file or a new one, given why reads of standard input and writes of standard
/// output failed, if they did.
pub fn session_refused<'a>(
    fault: SessionFault,
    input: Option<io::Error>,
    output: Option<io::Error>,
    pack: Option<&'a str>,
) -> Refused<'a> {
    let work = match (fault, input) {
        (SessionFault::File, Some(error)) => Work::StandardInput(error),
        (SessionFault::File, None) => Work::StandardOutput(output),
        (SessionFault::Input | SessionFault::Run(_), _) => {
            return of_pack(CliFault::Session(fault), pack);
        }
    };
    Refused { fault: FILE, work }
}

/// Why a pack can't be read.
pub fn reading<'a>(rt: &HostRuntime, path: &'a str, fault: &FileFault) -> Refused<'a> {
    match fault {
        FileFault::Call(error) => of_call(path, FileWork::Reading(*error), error),
        fault => saving(rt, path, fault),
    }
}

/// Why a pack can't be saved.
pub fn saving<'a>(rt: &HostRuntime, path: &'a str, fault: &FileFault) -> Refused<'a> {
    match fault {
        FileFault::InUse => of_file(path, FileWork::InUse(holder_of(rt, path))),
        FileFault::Exists | FileFault::IsPack => of_file(path, FileWork::Exists),
        FileFault::NoPack => of_file(path, FileWork::NoPack),
        FileFault::Hindered(hindrance) => of_file(path, FileWork::Hindered(*hindrance)),
        FileFault::Stream(stream) => of_file(path, FileWork::Stream(*stream)),
        FileFault::Talk(stream) => of_file(path, FileWork::Talk(*stream)),
        FileFault::Call(error) => of_call(path, FileWork::Saving(*error), error),
        FileFault::Unsynced(error) => of_file(path, FileWork::Unsynced(*error)),
    }
}

/// A file that can't be read, or in which no pack is saved, and why.
fn of_file<'a>(path: &'a str, work: FileWork) -> Refused<'a> {
    Refused {
        fault: FILE,
        work: Work::File(path, work),
    }
}

/// A call on a file that failed in some work. If memory ran out, no file is in error.
fn of_call<'a>(path: &'a str, work: FileWork, error: &io::Error) -> Refused<'a> {
    match fault_of(error) {
        CliFault::Session(SessionFault::File) => of_file(path, work),
        fault => of_options(fault),
    }
}
