//! What is brought to the disk, so that it survives a power cut.

use super::places::folder_of;
use std::fs::File;
use std::io;
use std::io::ErrorKind;
use std::path::Path;

/// Opens the folder of a path, whose names are brought to the disk later.
pub fn open_folder(rt: &HostRuntime, place: Path<'_>) -> io::Result<File> {
    File::open(rt, folder_of(place))
}

/// Brings a file to the disk, if it has one: a pipe or a terminal keeps nothing, and some file systems have no call for a
/// folder.
pub fn sync_if_kept(file: &File) -> io::Result<()> {
    match file.sync_all() {
        Err(error) if error.kind() == ErrorKind::InvalidInput => Ok(()),
        done => done,
    }
}
