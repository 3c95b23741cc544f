//! The access to files in a pack's folder: at most the access that the pack gives.

use super::input::path_of;
use super::places::existing;
use super::replacing::without_group;
use super::retried;
use super::streams::StandardStream;
use std::fs::{DirBuilder, File, Metadata, Permissions};
use std::os::unix::fs::{DirBuilderExt, MetadataExt, PermissionsExt};
use std::path::Path;
use std::{fs, io};

/// The owner may always read and write.
const OWNER: u32 = 0o600;

/// The most that the group and others may do.
const OTHERS: u32 = 0o066;

/// The most access that a new file of a pack may give: the access that the pack gives. Its owner may always read and write it.
#[derive(Clone, Copy)]
pub struct Limit {
    mode: u32,
    group: u32,
}

impl Limit {
    /// The limit of the new files of a pack, which may be standard input; none if no file is there.
    pub fn of(rt: &HostRuntime, pack: &str) -> io::Result<Option<Limit>> {
        match existing(rt, Path::new(path_of(pack)))? {
            Some(found) if found.is_file() => Ok(Some(Limit {
                mode: OWNER | (found.mode() & OTHERS),
                group: found.gid(),
            })),
            _ => Ok(None),
        }
    }

    /// The mode that is asked for a new file.
    pub fn mode(&self) -> u32 {
        self.mode
    }

    /// Takes from an open file what the limit doesn't allow.
    pub fn restrict(&self, file: &File) -> io::Result<()> {
        match self.reduced(&retried::metadata_of(file)?) {
            Some(mode) => file.set_permissions(Permissions::from_mode(mode)),
            None => Ok(()),
        }
    }

    /// Takes from the regular file that is standard output, if one is, what the limit doesn't allow.
    pub fn restrict_output(&self, rt: &HostRuntime) -> io::Result<()> {
        let output = StandardStream::Output.path();
        match existing(rt, Path::new(output))? {
            Some(found) if found.is_file() => self.restrict_at(rt, output, &found),
            _ => Ok(()),
        }
    }

    /// Takes from the file at a path what the limit doesn't allow.
    fn restrict_at(&self, rt: &HostRuntime, path: &str, found: &Metadata) -> io::Result<()> {
        match self.reduced(found) {
            Some(mode) => fs::set_permissions(rt, path, Permissions::from_mode(mode)),
            None => Ok(()),
        }
    }

    /// The mode of a file without what the limit doesn't allow; none if the limit allows all of it.
    fn reduced(&self, found: &Metadata) -> Option<u32> {
        let mode = found.mode() & 0o7777;
        let allowed = mode & self.allowed(found);
        (allowed != mode).then_some(allowed)
    }

    /// The mode that is allowed to a file at most. If its group isn't the pack's group, it gets only what others get.
    pub fn allowed(&self, found: &Metadata) -> u32 {
        if found.gid() == self.group {
            self.mode
        } else {
            without_group(self.mode)
        }
    }

    /// The mode of a folder in which such files are made: who may read them may look into it.
    fn folder_mode(&self) -> u32 {
        self.mode | ((self.mode & 0o444) >> 2)
    }
}

/// Makes a folder for files within a limit.
pub fn make_folder(rt: &HostRuntime, path: &str, limit: Option<Limit>) -> io::Result<()> {
    let mut builder = DirBuilder::new();
    if let Some(limit) = limit {
        builder.mode(limit.folder_mode());
    }
    retried::create_dir(rt, &builder, path)
}
