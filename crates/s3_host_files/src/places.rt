//! The target of a path, and what is there.

use super::retried;
use super::streams::{StandardStream, stream_of};
use std::fs::{File, Metadata};
use std::io;
use std::io::ErrorKind;
use std::os::unix::fs::MetadataExt;
use std::path::{Path, PathBuf};

/// How many links are followed one after another.
const LINK_LIMIT: u32 = 40;

/// The path at the end of the links that a path names.
pub fn followed(rt: &HostRuntime, path: &str) -> io::Result<PathBuf> {
    let (place, _found) = followed_to(rt, path)?;
    Ok(place)
}

/// The path at the end of the links that a path names, and what is there, if anything is. A link to a device or a pipe isn't followed: a
/// pipe of the shell has no other name.
fn followed_to(rt: &HostRuntime, path: &str) -> io::Result<(PathBuf, Option<Metadata>)> {
    let alloc = rt.alloc();
    let mut place = Path::new(path).to_path_buf(alloc)?;
    for _link in 0..LINK_LIMIT {
        match retried::symlink_metadata(rt, place.as_path()) {
            Ok(found) if found.is_symlink() => {
                if let Some(device) = device_at(rt, place.as_path()) {
                    return Ok((place, Some(device)));
                }
                place = target_of(rt, place.as_path())?;
            }
            Ok(found) => return Ok((place, Some(found))),
            Err(error) if error.kind() == ErrorKind::NotFound => return Ok((place, None)),
            Err(error) => return Err(error),
        }
    }
    Err(io::Error::from(ErrorKind::FilesystemLoop))
}

/// What is at the end of a link, if that is a device or a pipe.
fn device_at(rt: &HostRuntime, link: Path<'_>) -> Option<Metadata> {
    let found = retried::metadata(rt, link).ok()?;
    if found.is_file() || found.is_dir() {
        None
    } else {
        Some(found)
    }
}

/// The path that a link names, from its folder.
fn target_of(rt: &HostRuntime, link: Path<'_>) -> io::Result<PathBuf> {
    let target = retried::read_link(rt, link)?;
    match link.parent() {
        Some(folder) => Ok(folder.join(rt.alloc(), target.as_path())?),
        None => Ok(target),
    }
}

/// What is at a path, if anything is.
pub fn existing(rt: &HostRuntime, place: Path<'_>) -> io::Result<Option<Metadata>> {
    match retried::metadata(rt, place) {
        Ok(found) => Ok(Some(found)),
        Err(error) if error.kind() == ErrorKind::NotFound => Ok(None),
        Err(error) => Err(error),
    }
}

/// The folder of a path's last name.
pub fn folder_of<'a>(place: Path<'a>) -> Path<'a> {
    match place.parent() {
        Some(folder) if !folder.as_str().is_empty() => folder,
        _ => Path::new("."),
    }
}

/// Whether two paths are known to lead to the same regular file. If not, the command that reads or saves there reports why.
pub fn lead_to_one_file(rt: &HostRuntime, one: &str, other: &str) -> bool {
    match retried::metadata(rt, one) {
        Ok(file) if file.is_file() => is_at(rt, &file, other),
        _ => false,
    }
}

/// Whether a path is known to lead to this file.
pub fn is_at(rt: &HostRuntime, file: &Metadata, path: &str) -> bool {
    match retried::metadata(rt, path) {
        Ok(found) => are_same(file, &found),
        Err(_) => false,
    }
}

/// Whether a path leads to an open file, and not to another one that has taken its name.
pub fn leads_to(rt: &HostRuntime, place: Path<'_>, file: &File) -> io::Result<bool> {
    let opened = retried::metadata_of(file)?;
    match existing(rt, place)? {
        Some(found) => Ok(are_same(&found, &opened)),
        None => Ok(false),
    }
}

/// Whether these are one file, under any names.
pub fn are_same(one: &Metadata, other: &Metadata) -> bool {
    one.dev() == other.dev() && one.ino() == other.ino()
}

/// Where a path leads: the file, or the folder and the name of a file that doesn't exist yet.
#[derive(Drop)]
pub struct Target {
    found: Option<Metadata>,
    folder: Metadata,
    place: PathBuf,
}

impl Target {
    /// Follows a path. It fails if its folder can't be found.
    pub fn find(rt: &HostRuntime, path: &str) -> io::Result<Target> {
        let (place, found) = followed_to(rt, path)?;
        let folder = retried::metadata(rt, folder_of(place.as_path()))?;
        Ok(Target {
            found,
            folder,
            place,
        })
    }

    /// The first of some streams that is the regular file there.
    pub fn stream(&self, rt: &HostRuntime, streams: &[StandardStream]) -> Option<StandardStream> {
        match &self.found {
            Some(found) => stream_of(rt, found, streams),
            None => None,
        }
    }

    /// Whether a regular file is there.
    pub fn is_there(&self) -> bool {
        match &self.found {
            Some(found) => found.is_file(),
            None => false,
        }
    }

    /// Whether it is in this folder, or will be.
    pub fn is_in(&self, folder: &Metadata) -> bool {
        are_same(&self.folder, folder)
    }

    /// Whether another path leads to the same regular file, even if the file doesn't exist yet.
    pub fn is_same(&self, other: &Target) -> bool {
        match (&self.found, &other.found) {
            (Some(one), Some(other)) => one.is_file() && are_same(one, other),
            (None, None) => are_same(&self.folder, &other.folder) && self.has_name_of(other),
            _ => false,
        }
    }

    fn has_name_of(&self, other: &Target) -> bool {
        self.place.as_path().file_name() == other.place.as_path().file_name()
    }
}
