//! Why the file of a pack, or an output, can't be read or written.

ghost use Rattle.std.specs.Prelude.{◌≡◌};
ghost use Rattle.s3_host_files.specs.Inner.Saves.{is_saved as is_saved_spec};

use super::naming::Hindrance;
use super::streams::StandardStream;
use std::io;

/// Why the file of a pack, or an output, can't be read or written.
#[derive(Debug, Drop)]
pub enum FileFault {
    /// Another command that saves to the file, or writes it, is at work.
    InUse,
    /// A file of this name exists, and it isn't to be replaced.
    Exists,
    /// The file isn't a pack, so no pack replaces it.
    NoPack,
    /// The file is a pack, so no other output overwrites it.
    IsPack,
    /// The old file can't be replaced by a new one.
    Hindered(Hindrance),
    /// The file is this standard stream as well.
    Stream(StandardStream),
    /// The pack isn't saved, because the target is this standard stream, which is a pipe or a terminal.
    Talk(StandardStream),
    /// A call of the system failed, and the file is what it was.
    Call(io::Error),
    /// The pack is saved, but its folder couldn't be brought to the disk: it may not survive a power cut.
    Unsynced(io::Error),
}

impl From<io::Error> for FileFault {
    fn from(error: io::Error) -> FileFault {
        FileFault::Call(error)
    }
}

impl From<Hindrance> for FileFault {
    fn from(hindrance: Hindrance) -> FileFault {
        FileFault::Hindered(hindrance)
    }
}

/// Whether the file is the new pack after a save.
pub fn is_saved(done: &Result<(), FileFault>) -> bool
    ensures { result ≡ is_saved_spec done.now }
{
    matches!(done, Ok(()) | Err(FileFault::Unsynced(_)))
}
