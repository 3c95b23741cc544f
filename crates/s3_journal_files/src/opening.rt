//! A journal that is opened, or made. A new journal has the beginning of its first line: one that has no byte was emptied.

use crate::refusal::JournalRefusal;
use s3_host_files::{Limit, followed, has_no_links, leads_to, read_within, retried};
use std::alloc::AllocError;
use std::fs::{File, OpenOptions, TryLockError};
use std::io;
use std::io::{ErrorKind, Write};
use std::os::unix::fs::OpenOptionsExt;
use std::path::Path;

/// The mode of a new journal of a new pack.
const NEW_MODE: u32 = 0o666;

/// The text between the name of a journal and the number of a new file that gets this name.
const INFIX: &str = ".new-";

/// How each line begins, and what a new journal has.
pub(crate) const BEGINNING: &str = "{\"day\":";

/// A journal that is open, and whether it was made.
#[derive(Drop)]
pub(crate) struct Opened {
    pub(crate) file: File,
    pub(crate) is_made: bool,
}

impl Opened {
    /// Opens a journal to append to it, or makes one within a limit, which is locked. It must be a regular file. None if another command
    /// made or removed it meanwhile, or is making it.
    pub(crate) fn open<'a>(
        rt: &HostRuntime,
        name: &'a str,
        limit: Option<Limit>,
    ) -> Result<Option<Opened>, JournalRefusal<'a>> {
        let mode = match limit {
            Some(limit) => limit.mode(),
            None => NEW_MODE,
        };
        let opened = match retried::metadata(rt, name) {
            Ok(found) if !found.is_file() => return Err(JournalRefusal::NoJournal(name)),
            Ok(_) => Opened::there(rt, name),
            Err(error) if error.kind() == ErrorKind::NotFound => Opened::made(rt, name, mode),
            Err(error) => Err(error),
        };
        match opened {
            Ok(opened) => Ok(opened),
            Err(error) => Err(JournalRefusal::of(&error, name)),
        }
    }

    /// Opens the journal that is there, or that a link leads to.
    fn there(rt: &HostRuntime, name: &str) -> io::Result<Option<Opened>> {
        match OpenOptions::new().append(true).open(rt, name) {
            Ok(file) => Ok(Some(Opened {
                file,
                is_made: false,
            })),
            Err(error) if error.kind() == ErrorKind::NotFound => Ok(None),
            Err(error) => Err(error),
        }
    }

    /// Makes a journal with a mode: a new file beside it, which is never empty under the journal's name.
    fn made(rt: &HostRuntime, name: &str, mode: u32) -> io::Result<Option<Opened>> {
        let place = followed(rt, name)?;
        for number in 0..u32::MAX {
            let path = beside(rt, place.as_path(), number)?;
            match created(rt, path.as_str(), mode) {
                Ok(file) => return Opened::named(rt, place.as_path(), path.as_str(), file, mode),
                Err(error) if error.kind() == ErrorKind::AlreadyExists => {
                    if is_freed(rt, path.as_str()) {
                        return Ok(None);
                    }
                }
                Err(error) => return Err(error),
            }
        }
        Err(io::Error::from(ErrorKind::AlreadyExists))
    }

    /// Gives a new file the name of a journal. If the file system gives no file a second name, the journal is made in its place.
    fn named(
        rt: &HostRuntime,
        place: Path<'_>,
        path: &str,
        file: File,
        mode: u32,
    ) -> io::Result<Option<Opened>> {
        let mut file = file;
        if !is_ours(rt, path, &file)? {
            return Ok(None);
        }
        let done = begin_as(rt, place, path, &mut file);
        // if this name can't be removed, the next command with the journal removes it
        let _ = retried::remove_file(rt, path);
        match done {
            Ok(()) => Ok(Some(Opened {
                file,
                is_made: true,
            })),
            Err(error) if error.kind() == ErrorKind::AlreadyExists => Ok(None),
            Err(error) if has_no_links(&error) => Opened::in_place(rt, place.as_str(), mode),
            Err(error) => Err(error),
        }
    }

    /// Makes a journal under its name. A kill may leave it empty.
    fn in_place(rt: &HostRuntime, place: &str, mode: u32) -> io::Result<Option<Opened>> {
        let mut file = match created(rt, place, mode) {
            Ok(file) => file,
            Err(error) if error.kind() == ErrorKind::AlreadyExists => return Ok(None),
            Err(error) => return Err(error),
        };
        if !is_ours(rt, place, &file)? {
            return Ok(None);
        }
        file.write_all(BEGINNING.as_bytes())?;
        Ok(Some(Opened {
            file,
            is_made: true,
        }))
    }
}

/// Removes the second name of a journal, which a start left that was killed while it made the journal.
pub(crate) fn remove_second_name(rt: &HostRuntime, name: &str, file: &File) {
    let _ = remove_second(rt, name, file);
}

fn remove_second(rt: &HostRuntime, name: &str, file: &File) -> io::Result<()> {
    let place = followed(rt, name)?;
    for number in 0..u32::MAX {
        let path = beside(rt, place.as_path(), number)?;
        let found = retried::symlink_metadata(rt, path.as_str())?;
        if found.is_file() && leads_to(rt, Path::new(path.as_str()), file)? {
            return retried::remove_file(rt, path.as_str());
        }
    }
    Ok(())
}

/// The path of a new file beside a journal.
fn beside(rt: &HostRuntime, place: Path<'_>, number: u32) -> Result<String, AllocError> {
    format!(in rt.alloc(); "{}{INFIX}{number}", place.as_str())
}

/// A new file with a mode, to append to it.
fn created(rt: &HostRuntime, path: &str, mode: u32) -> io::Result<File> {
    let mut options = OpenOptions::new();
    options.append(true).create_new(true).mode(mode);
    options.open(rt, path)
}

/// Writes the beginning of a line into a new file, brings it to the disk, and gives the file the name of a journal as well.
fn begin_as(rt: &HostRuntime, place: Path<'_>, path: &str, file: &mut File) -> io::Result<()> {
    file.write_all(BEGINNING.as_bytes())?;
    file.sync_all()?;
    retried::hard_link(rt, path, place)
}

/// Locks a file that was created, unless another start took it for a leftover and has locked or removed it.
fn is_ours(rt: &HostRuntime, path: &str, file: &File) -> io::Result<bool> {
    Ok(is_lockable(file) && leads_to(rt, Path::new(path), file)?)
}

/// Locks a file; false if another command has it. If the file system has no locks, it is used without one.
pub(crate) fn is_lockable(file: &File) -> bool {
    match file.try_lock() {
        Err(TryLockError::WouldBlock) => false,
        Ok(()) | Err(TryLockError::Error(_)) => true,
    }
}

/// Whether another start is making a journal under this name, or was killed at that: then what it left is removed.
fn is_freed(rt: &HostRuntime, path: &str) -> bool {
    matches!(freed(rt, path), Ok(true))
}

fn freed(rt: &HostRuntime, path: &str) -> io::Result<bool> {
    let found = retried::symlink_metadata(rt, path)?;
    if !found.is_file() || found.len() > BEGINNING.len() as u64 {
        return Ok(false);
    }
    // the lock lasts until the file is removed
    let file = OpenOptions::new().append(true).open(rt, path)?;
    if !is_ours(rt, path, &file)? {
        return Ok(true);
    }
    let bytes = read_within(rt, path, BEGINNING.len())?;
    if !BEGINNING.as_bytes().starts_with(&bytes) {
        return Ok(false);
    }
    retried::remove_file(rt, path)?;
    Ok(true)
}
