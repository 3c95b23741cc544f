//! A new file that takes the place of an old one.

use super::fault::FileFault;
use super::leftovers::{beside, remove_leftovers};
use super::limits::Limit;
use super::locking::{LockedPack, lock};
use super::naming::{Hindrance, Naming};
use super::places::leads_to;
use super::retried;
use super::syncing::{open_folder, sync_if_kept};
use std::fs::{File, Metadata, OpenOptions, Permissions};
use std::io;
use std::io::{ErrorKind, Write};
use std::os::unix::fs::{MetadataExt, OpenOptionsExt, PermissionsExt};
use std::path::Path;

/// The mode of a file that only its owner may read. A new pack has it until it is whole.
const PRIVATE: u32 = 0o600;

/// The mode that is asked for an ordinary file. The system reduces it by the umask.
const USUAL: u32 = 0o666;

/// A new file in the folder of the file whose name it will take. It stays locked, so that no other save takes it for a leftover.
#[derive(Drop)]
struct NewFile {
    path: String,
    file: File,
}

/// Replaces the file of a pack. Right before the new file gets the name, the old one is compared with what it was when it was locked:
/// `Hindered` if it may not be replaced. If the old file has lost its name, the new one is the first of that name. The packs that the
/// command reads stay.
pub fn replace(
    rt: &HostRuntime,
    locked: LockedPack,
    read: &[Option<&str>],
    bytes: &[u8],
) -> Result<(), FileFault> {
    let old = locked.metadata()?;
    let folder = open_folder(rt, locked.place())?;
    remove_leftovers(rt, locked.place(), Some(&old), read);
    let mut new = NewFile::beside(rt, locked.place(), PRIVATE)?;
    let naming = match new.fill_as(bytes, &old) {
        Ok(()) => locked.naming_now(rt),
        Err(error) => Err(FileFault::Call(error)),
    };
    match finish(rt, new, naming, locked.place(), &folder) {
        Err(FileFault::Exists) => Err(FileFault::Hindered(Hindrance::Moved)),
        done => done,
    }
}

/// Tries whether the file of a pack could be replaced now. Nothing is changed.
pub fn test_replacing(rt: &HostRuntime, locked: &LockedPack) -> Result<(), FileFault> {
    let _naming = locked.naming_now(rt)?;
    Ok(test_place(rt, locked.place())?)
}

/// Tries whether a new file can be made in the folder of a path, and whether the folder can be opened. Nothing is changed.
pub fn test_place(rt: &HostRuntime, place: Path<'_>) -> io::Result<()> {
    let _folder = open_folder(rt, place)?;
    let empty = NewFile::beside(rt, place, PRIVATE)?;
    retried::remove_file(rt, empty.path.as_str())
}

/// Saves a pack under a name that no file has; `Exists` if one has it by now. The pack gets the mode of a new file, within a limit. The
/// packs that the command reads stay.
pub fn save_first(
    rt: &HostRuntime,
    place: Path<'_>,
    limit: Option<Limit>,
    read: &[Option<&str>],
    bytes: &[u8],
) -> Result<(), FileFault> {
    let folder = open_folder(rt, place)?;
    remove_leftovers(rt, place, None, read);
    let usual = usual_mode(rt, place)?;
    let mut new = NewFile::beside(rt, place, PRIVATE)?;
    let naming = match new.fill_within(bytes, usual, limit) {
        Ok(()) => Ok(Naming::IsFirst),
        Err(error) => Err(FileFault::Call(error)),
    };
    finish(rt, new, naming, place, &folder)
}

/// The mode that the system gives a new file in the folder of another. It is read from an empty file, which is removed again.
fn usual_mode(rt: &HostRuntime, place: Path<'_>) -> io::Result<u32> {
    let empty = NewFile::beside(rt, place, USUAL)?;
    let found = retried::metadata_of(&empty.file);
    retried::remove_file(rt, empty.path.as_str())?;
    Ok(found?.mode())
}

/// Gives a new file its name, for good. The file is removed if anything fails before it has the name.
fn finish(
    rt: &HostRuntime,
    new: NewFile,
    naming: Result<Naming, FileFault>,
    place: Path<'_>,
    folder: &File,
) -> Result<(), FileFault> {
    let named = match naming {
        Ok(naming) => new.take_name(rt, place, naming),
        Err(fault) => Err(fault),
    };
    if named.is_err() {
        let _ = retried::remove_file(rt, new.path.as_str());
        return named;
    }
    match sync_if_kept(folder) {
        Ok(()) => Ok(()),
        Err(error) => Err(FileFault::Unsynced(error)),
    }
}

impl NewFile {
    /// Makes a file with the first name that is free.
    fn beside(rt: &HostRuntime, place: Path<'_>, mode: u32) -> io::Result<NewFile> {
        for number in 0..u32::MAX {
            let path = beside(rt, place, number)?;
            if let Some(file) = claimed(rt, path.as_str(), mode)? {
                return Ok(NewFile { path, file });
            }
        }
        Err(io::Error::from(ErrorKind::AlreadyExists))
    }

    /// Fills the file, gives it what it keeps of an old one, and brings it to the disk.
    fn fill_as(&mut self, bytes: &[u8], old: &Metadata) -> io::Result<()> {
        self.file.write_all(bytes)?;
        self.take_after(old)?;
        self.file.sync_all()
    }

    /// Fills the file, gives it a mode within a limit, and brings it to the disk.
    fn fill_within(&mut self, bytes: &[u8], mode: u32, limit: Option<Limit>) -> io::Result<()> {
        self.file.write_all(bytes)?;
        let mode = match limit {
            Some(limit) => mode & limit.allowed(&retried::metadata_of(&self.file)?),
            None => mode,
        };
        self.file.set_permissions(Permissions::from_mode(mode))?;
        self.file.sync_all()
    }

    /// Gives the file the owner, the group and the mode of an old one, as far as the user may.
    fn take_after(&self, old: &Metadata) -> io::Result<()> {
        let group = Some(old.gid());
        let keeps_group = retried::change_owner(&self.file, Some(old.uid()), group).is_ok()
            || retried::change_owner(&self.file, None, group).is_ok();
        let mode = if keeps_group {
            old.mode()
        } else {
            without_group(old.mode())
        };
        self.file.set_permissions(Permissions::from_mode(mode))
    }

    /// Gives the file a name.
    fn take_name(
        &self,
        rt: &HostRuntime,
        place: Path<'_>,
        naming: Naming,
    ) -> Result<(), FileFault> {
        match naming {
            Naming::Replaces => Ok(retried::rename(rt, self.path.as_str(), place)?),
            Naming::IsFirst => self.take_free_name(rt, place),
        }
    }

    /// Gives the file a name that nothing has; `Exists` if something has it. If the file system gives no file a second name, an empty
    /// file keeps the name first.
    fn take_free_name(&self, rt: &HostRuntime, place: Path<'_>) -> Result<(), FileFault> {
        match retried::hard_link(rt, self.path.as_str(), place) {
            Ok(()) => {
                // if the first name can't be removed, the next save removes it
                let _ = retried::remove_file(rt, self.path.as_str());
                Ok(())
            }
            Err(error) if error.kind() == ErrorKind::AlreadyExists => Err(FileFault::Exists),
            Err(error) if has_no_links(&error) => self.take_kept_name(rt, place),
            Err(error) => Err(FileFault::Call(error)),
        }
    }

    /// Gives the file a name that an empty file keeps for it.
    fn take_kept_name(&self, rt: &HostRuntime, place: Path<'_>) -> Result<(), FileFault> {
        let Some(_keeper) = claimed(rt, place.as_str(), PRIVATE)? else {
            return Err(FileFault::Exists);
        };
        match retried::rename(rt, self.path.as_str(), place) {
            Ok(()) => Ok(()),
            Err(error) => {
                let _ = retried::remove_file(rt, place);
                Err(FileFault::Call(error))
            }
        }
    }
}

/// Whether a call failed because the file system gives no file a second name.
pub fn has_no_links(error: &io::Error) -> bool {
    matches!(
        error.kind(),
        ErrorKind::PermissionDenied | ErrorKind::Unsupported | ErrorKind::TooManyLinks
    )
}

/// A mode for a file that has come into another group: the group and others may do only what both could do before.
pub fn without_group(mode: u32) -> u32 {
    let all = mode & (mode >> 3) & 0o007;
    (mode & !0o077) | (all << 3) | all
}

/// A new file, created and locked; none if something has the name, or if another save took the file for a leftover.
fn claimed(rt: &HostRuntime, path: &str, mode: u32) -> io::Result<Option<File>> {
    let mut options = OpenOptions::new();
    options.read(true).write(true).create_new(true).mode(mode);
    match options.open(rt, path) {
        Ok(file) => keep(rt, path, file),
        Err(error) if error.kind() == ErrorKind::AlreadyExists => Ok(None),
        Err(error) => Err(error),
    }
}

/// Locks a file that was created. If the lock fails, the file is removed.
fn keep(rt: &HostRuntime, path: &str, file: File) -> io::Result<Option<File>> {
    match is_ours(rt, path, &file) {
        Ok(true) => Ok(Some(file)),
        Ok(false) => Ok(None),
        Err(error) => {
            let _ = retried::remove_file(rt, path);
            Err(error)
        }
    }
}

/// Locks a file that was created, unless another save took it for a leftover and has locked or removed it.
fn is_ours(rt: &HostRuntime, path: &str, file: &File) -> io::Result<bool> {
    Ok(lock(file)? && leads_to(rt, Path::new(path), file)?)
}
