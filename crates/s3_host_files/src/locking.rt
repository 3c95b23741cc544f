//! The lock that keeps the file of a pack for one command.

use super::fault::FileFault;
use super::last_change::LastChange;
use super::naming::{AtName, Hindrance, Naming, choose_naming, is_replaceable};
use super::places::{are_same, existing, followed, lead_to_one_file, leads_to};
use super::reading::read_up_to;
use super::{PACK_LIMIT, retried};
use std::fs::{File, Metadata, OpenOptions, TryLockError};
use std::io;
use std::io::ErrorKind;
use std::path::{Path, PathBuf};

/// How often a file is opened again if another one got its name before it was locked.
pub const TURNS: u32 = 10;

/// The file of a pack, locked for this command until a new one has its name, and its last change before it was read.
#[derive(Drop)]
pub struct LockedPack {
    place: PathBuf,
    file: File,
    last_change: LastChange,
}

impl LockedPack {
    /// Locks the regular file that two paths lead to, if they lead to one: the path that a pack is read from, and the one that it is
    /// saved to. Then it reads the file.
    pub fn read_and_saved(
        rt: &HostRuntime,
        read: &str,
        saved: &str,
    ) -> Result<Option<(Vec<u8>, LockedPack)>, FileFault> {
        for _turn in 0..TURNS {
            if !lead_to_one_file(rt, read, saved) {
                return Ok(None);
            }
            let place = followed(rt, saved)?;
            let file = open_to_read(rt, place.as_path())?;
            take_lock(&file)?;
            if leads_to(rt, place.as_path(), &file)? && leads_to(rt, Path::new(read), &file)? {
                return Ok(Some(LockedPack::read(rt, place, file)?));
            }
        }
        Err(FileFault::InUse)
    }

    /// Locks a regular file that a pack will replace; `NoPack` if it is neither empty nor a pack.
    pub fn replaced(rt: &HostRuntime, place: PathBuf) -> Result<LockedPack, FileFault> {
        let mut options = OpenOptions::new();
        options.read(true).write(true);
        for _turn in 0..TURNS {
            let file = match options.open(rt, place.as_path()) {
                Ok(file) => file,
                Err(error) => return Err(opening_fault(&error)),
            };
            take_lock(&file)?;
            if leads_to(rt, place.as_path(), &file)? {
                return LockedPack::of_pack(rt, place, file);
            }
        }
        Err(FileFault::InUse)
    }

    /// A locked file that a pack may replace; `NoPack` if it is neither empty nor a pack.
    fn of_pack(rt: &HostRuntime, place: PathBuf, file: File) -> Result<LockedPack, FileFault> {
        let (bytes, locked) = LockedPack::read(rt, place, file)?;
        if is_replaceable(&bytes) {
            Ok(locked)
        } else {
            Err(FileFault::NoPack)
        }
    }

    /// Reads a locked file.
    fn read(rt: &HostRuntime, place: PathBuf, file: File) -> io::Result<(Vec<u8>, LockedPack)> {
        let mut file = file;
        let last_change = LastChange::of(&retried::metadata_of(&file)?);
        let bytes = read_up_to(rt, &mut file, PACK_LIMIT)?;
        let locked = LockedPack {
            place,
            file,
            last_change,
        };
        Ok((bytes, locked))
    }

    /// The path of the file, with no link at its end.
    pub fn place(&self) -> Path<'_> {
        self.place.as_path()
    }

    /// What the file is now.
    pub fn metadata(&self) -> io::Result<Metadata> {
        retried::metadata_of(&self.file)
    }

    /// How a new file gets the name of this one now.
    pub fn naming_now(&self, rt: &HostRuntime) -> Result<Naming, FileFault> {
        let at_name = self.at_name(rt)?;
        let may_write = self.may_write(rt, at_name)?;
        let is_as_locked = self.is_unchanged()?;
        Ok(choose_naming(at_name, may_write, is_as_locked)?)
    }

    /// What has the name of the file now.
    fn at_name(&self, rt: &HostRuntime) -> io::Result<AtName> {
        let locked = self.metadata()?;
        Ok(match existing(rt, self.place())? {
            None => AtName::Nothing,
            Some(found) if are_same(&found, &locked) => AtName::Locked,
            Some(_) => AtName::Other,
        })
    }

    /// Whether the file may be written: its mode lets somebody write it, and the system lets this user. Its folder may let it be
    /// replaced all the same. A file that has lost its name isn't tried.
    fn may_write(&self, rt: &HostRuntime, at_name: AtName) -> io::Result<bool> {
        if self.metadata()?.permissions().readonly() {
            return Ok(false);
        }
        if at_name != AtName::Locked {
            return Ok(true);
        }
        match OpenOptions::new().write(true).open(rt, self.place()) {
            Ok(_) => Ok(true),
            Err(error) if error.kind() == ErrorKind::PermissionDenied => Ok(false),
            Err(error) => Err(error),
        }
    }

    /// Whether the file wasn't changed since it was read.
    fn is_unchanged(&self) -> io::Result<bool> {
        Ok(LastChange::of(&self.metadata()?) == self.last_change)
    }
}

/// Opens a file to read it, and to write it if that is allowed, since some network folders give the lock only then.
fn open_to_read(rt: &HostRuntime, place: Path<'_>) -> io::Result<File> {
    match OpenOptions::new().read(true).write(true).open(rt, place) {
        Err(error) if is_forbidden(&error) => File::open(rt, place),
        opened => opened,
    }
}

fn is_forbidden(error: &io::Error) -> bool {
    matches!(
        error.kind(),
        ErrorKind::PermissionDenied | ErrorKind::ReadOnlyFilesystem
    )
}

/// Why a file that a pack will replace can't be opened.
fn opening_fault(error: &io::Error) -> FileFault {
    if error.kind() == ErrorKind::PermissionDenied {
        FileFault::Hindered(Hindrance::Protected)
    } else {
        FileFault::Call(*error)
    }
}

/// Locks an open file; `InUse` if another command has it.
fn take_lock(file: &File) -> Result<(), FileFault> {
    if lock(file)? {
        Ok(())
    } else {
        Err(FileFault::InUse)
    }
}

/// Locks an open file, if no other command holds it. The lock ends with the last handle of this opening, and with the process, however
/// that ends.
pub fn lock(file: &File) -> io::Result<bool> {
    match file.try_lock() {
        Ok(()) => Ok(true),
        Err(TryLockError::WouldBlock) => Ok(false),
        Err(TryLockError::Error(error)) => Err(error),
    }
}
