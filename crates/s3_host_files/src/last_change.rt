//! When a file was changed last.

use std::fs::Metadata;
use std::os::unix::fs::MetadataExt;

/// The length of a file in bytes, and the time of its last change, in seconds since 1970 and nanoseconds. Another program that writes
/// into the file changes the time.
#[derive(Clone, Copy, Debug, PartialEq, Eq)]
pub struct LastChange {
    length: u64,
    seconds: i64,
    nanoseconds: i64,
}

impl LastChange {
    /// The last change of a file of which the system says this.
    pub fn of(file: &Metadata) -> LastChange {
        LastChange {
            length: file.len(),
            seconds: file.mtime(),
            nanoseconds: file.mtime_nsec(),
        }
    }
}
