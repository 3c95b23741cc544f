//! Outputs whose names are looked at while a day runs.

use s3_host_files::{Kept, Output, retried};
use s3_operating::{AtOutput, Lost};
use std::alloc::AllocError;
use std::io;
use std::io::{ErrorKind, Write};
use std::os::unix::fs::MetadataExt;

/// A regular file, by the device and the number that the system gives it.
#[derive(Clone, Copy)]
pub struct FileId {
    device: u64,
    number: u64,
}

impl FileId {
    /// The regular file that a path leads to, if it leads to one.
    fn find(rt: &HostRuntime, path: &str) -> Option<FileId> {
        match retried::metadata(rt, path) {
            Ok(found) if found.is_file() => Some(FileId {
                device: found.dev(),
                number: found.ino(),
            }),
            _ => None,
        }
    }

    /// What has the name of this file now; none if that can't be found out.
    fn at_name(self, rt: &HostRuntime, name: &str) -> Option<AtOutput> {
        match retried::metadata(rt, name) {
            Ok(found) if found.dev() == self.device && found.ino() == self.number => Some(
                AtOutput::Same(found.len()),
            ),
            Ok(_) => Some(AtOutput::Other),
            Err(error) if error.kind() == ErrorKind::NotFound => Some(AtOutput::Nothing),
            Err(_) => None,
        }
    }
}

/// Why the file of an output no longer keeps the bytes that were written to it, by its name; none if it does, if the output is no
/// regular file, or if that can't be found out.
fn lost(rt: &HostRuntime, name: &str, file: Option<FileId>, written: u64) -> Option<Lost> {
    Lost::find(file?.at_name(rt, name)?, written)
}

/// An output that fails as soon as its name no longer leads to the file that has all that was written.
#[derive(Drop)]
pub struct NamedOutput<'a> {
    rt: &'a HostRuntime,
    name: String,
    file: Option<FileId>,
    output: Output,
    written: u64,
}

impl<'a> NamedOutput<'a> {
    /// An output of this name, if there is one, before anything is written.
    pub fn of(
        rt: &'a HostRuntime,
        name: Option<&str>,
        output: Option<Output>,
    ) -> Result<Option<NamedOutput<'a>>, AllocError> {
        let (Some(name), Some(output)) = (name, output) else {
            return Ok(None);
        };
        Ok(Some(NamedOutput {
            rt,
            name: String::from_str(rt.alloc(), name)?,
            file: FileId::find(rt, name),
            output,
            written: 0,
        }))
    }
}

impl<'a> Write for NamedOutput<'a> {
    fn write(&mut self, bytes: &[u8]) -> io::Result<usize> {
        let count = self.output.write(bytes)?;
        self.written = self.written.saturating_add(count as u64);
        Ok(count)
    }

    fn flush(&mut self) -> io::Result<()> {
        self.output.flush()?;
        match lost(self.rt, self.name.as_str(), self.file, self.written) {
            Some(lost) => Err(io::Error::from(lost.kind())),
            None => Ok(()),
        }
    }
}

/// A second handle of an output that the desk has, and which file it is.
#[derive(Drop)]
pub struct KeptOutput {
    kept: Kept,
    file: Option<FileId>,
}

impl KeptOutput {
    /// A second handle of an output of this name.
    pub(crate) fn of(rt: &HostRuntime, name: &str, output: &Output) -> io::Result<KeptOutput> {
        Ok(KeptOutput {
            kept: output.kept()?,
            file: FileId::find(rt, name),
        })
    }

    /// Brings what was written to the disk, and the name of a new file.
    pub fn sync(&self) -> io::Result<()> {
        self.kept.sync()
    }

    /// Why the file of this name no longer keeps so many bytes that were written; none if it does.
    pub fn lost(&self, rt: &HostRuntime, name: &str, written: u64) -> Option<Lost> {
        lost(rt, name, self.file, written)
    }
}

/// Why the file of this name doesn't have a text that was just written whole; none if it does, or is no regular file.
pub(crate) fn lost_text(rt: &HostRuntime, name: &str, text: &[u8]) -> Option<Lost> {
    match retried::metadata(rt, name) {
        Ok(found) if !found.is_file() || found.len() == text.len() as u64 => None,
        Ok(_) => Some(Lost::Other),
        Err(error) if error.kind() == ErrorKind::NotFound => Some(Lost::Gone),
        Err(_) => None,
    }
}
