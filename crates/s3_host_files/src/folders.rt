//! Folders in which files are made.

use super::fault::FileFault;
use super::leftovers::remove_leftovers;
use super::limits::Limit;
use super::outputs::{keep_others_out, made_file};
use super::reading::is_pack_at;
use super::replacing::test_place;
use super::retried;
use super::streams::{StandardStream, WRITTEN, stream_at};
use std::fs::File;
use std::io;
use std::io::ErrorKind;
use std::path::{Path, PathBuf};

/// The name in whose folder a file is made, to try whether the folder takes new files.
const TRIED: &str = "paper";

/// A folder that is locked as long as this lives, so that only one command makes files in it.
#[derive(Drop)]
pub struct LockedFolder {
    _folder: File,
}

impl LockedFolder {
    /// Locks a folder that exists; `InUse` if another command has it.
    pub fn lock(rt: &HostRuntime, path: &str) -> Result<LockedFolder, FileFault> {
        let folder = File::open(rt, path)?;
        keep_others_out(&folder)?;
        Ok(LockedFolder { _folder: folder })
    }
}

/// Tries whether a new file can be made in a folder. Nothing is changed.
pub fn test_folder(rt: &HostRuntime, path: &str) -> io::Result<()> {
    test_place(rt, tried(rt, path)?.as_path())
}

/// Whether a folder has nothing in it. What a killed trial has left there is removed first.
pub fn is_empty_folder(rt: &HostRuntime, path: &str) -> io::Result<bool> {
    remove_leftovers(rt, tried(rt, path)?.as_path(), None, &[]);
    match retried::entries(rt, path)?.first() {
        Some(Ok(_)) => Ok(false),
        Some(Err(error)) => Err(*error),
        None => Ok(true),
    }
}

/// The stream that is also a file in a folder: standard output, standard error, or none.
pub fn stream_in(rt: &HostRuntime, path: &str) -> io::Result<Option<StandardStream>> {
    for entry in retried::entries(rt, path)? {
        if let Ok(entry) = entry
            && let Some(stream) = stream_at(rt, entry.path().as_str(), &WRITTEN)
        {
            return Ok(Some(stream));
        }
    }
    Ok(None)
}

fn tried(rt: &HostRuntime, path: &str) -> io::Result<PathBuf> {
    Ok(Path::new(path).join(rt.alloc(), TRIED)?)
}

/// A new file at a path, to be written within a limit. If something has that name and may be overwritten, it is removed
/// first, unless it is a pack; of a link, only the link is removed. It fails if that can't be read: it may be a pack.
pub fn create_anew(
    rt: &HostRuntime,
    path: &str,
    overwrites: bool,
    limit: Option<Limit>,
) -> io::Result<File> {
    if overwrites && !is_pack_at(rt, Path::new(path))? {
        remove_old(rt, path)?;
    }
    match made_file(rt, Path::new(path), limit)? {
        Some(file) => Ok(file),
        None => Err(io::Error::from(ErrorKind::AlreadyExists)),
    }
}

fn remove_old(rt: &HostRuntime, path: &str) -> io::Result<()> {
    match retried::remove_file(rt, path) {
        Err(error) if error.kind() != ErrorKind::NotFound => Err(error),
        _ => Ok(()),
    }
}
