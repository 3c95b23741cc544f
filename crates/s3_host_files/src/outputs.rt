//! Outputs: files that a command writes in addition to its pack.

use super::fault::FileFault;
use super::limits::Limit;
use super::locking::{TURNS, lock};
use super::places::{existing, followed, leads_to};
use super::reading::is_pack_at;
use super::retried;
use super::streams::keep_apart;
use super::syncing::{open_folder, sync_if_kept};
use std::fs::{File, OpenOptions};
use std::io;
use std::io::{ErrorKind, Write};
use std::os::unix::fs::OpenOptionsExt;
use std::path::Path;

/// A file that is written. Its old contents stay until something is written. A regular file is locked as long as this lives.
#[derive(Drop)]
pub struct Output {
    file: File,
    /// The folder of a new file, if it can be opened.
    folder: Option<File>,
    is_made: bool,
    is_emptied: bool,
    limit: Option<Limit>,
}

/// A second handle of an output, by which it is brought to the disk.
#[derive(Drop)]
pub struct Kept {
    file: File,
    folder: Option<File>,
}

impl Output {
    /// Makes a file at a path, or opens the file that is there, if it may be overwritten. Anything else, as a device or a pipe, is opened
    /// as it is. `Exists` if the file may not be overwritten, `IsPack` if it is a pack, `InUse` if another command writes it, and `Stream` if it is also standard
    /// output or standard error.
    pub fn open(
        rt: &HostRuntime,
        path: &str,
        overwrites: bool,
        limit: Option<Limit>,
    ) -> Result<Output, FileFault> {
        keep_apart(rt, path)?;
        if let Some(output) = opened_device(rt, path)? {
            return Ok(output);
        }
        let place = followed(rt, path)?;
        for _turn in 0..TURNS {
            let found = match made(rt, place.as_path(), limit)? {
                Some(output) => return Ok(output),
                None => opened(rt, place.as_path(), overwrites, limit)?,
            };
            if let Some(output) = found {
                return Ok(output);
            }
        }
        Err(FileFault::InUse)
    }

    /// Whether the file was made.
    pub fn is_made(&self) -> bool {
        self.is_made
    }

    /// A handle by which what is written is brought to the disk.
    pub fn kept(&self) -> io::Result<Kept> {
        let folder = match &self.folder {
            Some(folder) => Some(folder.try_clone()?),
            None => None,
        };
        Ok(Kept {
            file: self.file.try_clone()?,
            folder,
        })
    }

    /// Removes the old contents, once.
    fn empty(&mut self) -> io::Result<()> {
        if !self.is_emptied {
            if retried::metadata_of(&self.file)?.is_file() {
                self.file.set_len(0)?;
                self.restrict();
            }
            self.is_emptied = true;
        }
        Ok(())
    }

    /// Takes from the file what the limit doesn't allow, as far as the user may change that.
    fn restrict(&self) {
        if let Some(limit) = self.limit {
            let _ = limit.restrict(&self.file);
        }
    }
}

impl Write for Output {
    fn write(&mut self, bytes: &[u8]) -> io::Result<usize> {
        self.empty()?;
        self.file.write(bytes)
    }

    fn flush(&mut self) -> io::Result<()> {
        self.empty()?;
        self.file.flush()
    }
}

impl Kept {
    /// Brings what was written to the disk, and the name of a new file.
    pub fn sync(&self) -> io::Result<()> {
        sync_if_kept(&self.file)?;
        match &self.folder {
            Some(folder) => sync_if_kept(folder),
            None => Ok(()),
        }
    }
}

/// An output to a new file; none if something has the name.
fn made(
    rt: &HostRuntime,
    place: Path<'_>,
    limit: Option<Limit>,
) -> Result<Option<Output>, FileFault> {
    let Some(file) = made_file(rt, place, limit)? else {
        return Ok(None);
    };
    keep_others_out(&file)?;
    Ok(Some(Output {
        file,
        folder: open_folder(rt, place).ok(),
        is_made: true,
        is_emptied: true,
        limit,
    }))
}

/// A new file within a limit; none if something has the name.
pub fn made_file(
    rt: &HostRuntime,
    place: Path<'_>,
    limit: Option<Limit>,
) -> io::Result<Option<File>> {
    let mut options = OpenOptions::new();
    options.append(true).create_new(true);
    if let Some(limit) = limit {
        options.mode(limit.mode());
    }
    match options.open(rt, place) {
        Ok(file) => {
            if let Some(limit) = limit {
                limit.restrict(&file)?;
            }
            Ok(Some(file))
        }
        Err(error) if error.kind() == ErrorKind::AlreadyExists => Ok(None),
        Err(error) => Err(error),
    }
}

/// An output to a device or a pipe, which keeps nothing; none if a regular file is there, or nothing.
fn opened_device(rt: &HostRuntime, path: &str) -> io::Result<Option<Output>> {
    match existing(rt, Path::new(path))? {
        Some(found) if !found.is_file() => Ok(Some(Output {
            file: OpenOptions::new().append(true).open(rt, path)?,
            folder: None,
            is_made: false,
            is_emptied: true,
            limit: None,
        })),
        _ => Ok(None),
    }
}

/// An output to the file that is there; none if it has gone.
fn opened(
    rt: &HostRuntime,
    place: Path<'_>,
    overwrites: bool,
    limit: Option<Limit>,
) -> Result<Option<Output>, FileFault> {
    if existing(rt, place)?.is_none() {
        return Ok(None);
    }
    if !overwrites {
        return Err(FileFault::Exists);
    }
    let file = OpenOptions::new().append(true).open(rt, place)?;
    keep_others_out(&file)?;
    if !leads_to(rt, place, &file)? {
        return Ok(None);
    }
    if is_pack_at(rt, place)? {
        return Err(FileFault::IsPack);
    }
    Ok(Some(Output {
        file,
        folder: None,
        is_made: false,
        is_emptied: false,
        limit,
    }))
}

/// Locks an open file; `InUse` if another command has it. If the file system has no locks, the file is used without one.
pub fn keep_others_out(file: &File) -> Result<(), FileFault> {
    match lock(file) {
        Ok(false) => Err(FileFault::InUse),
        Ok(true) | Err(_) => Ok(()),
    }
}
