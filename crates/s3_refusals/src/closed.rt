//! Files that this user may not read.

use s3_host_files::retried;
use std::fs::File;
use std::io::ErrorKind;

/// Whether a regular file is at a path, and this user may not read it.
pub fn is_closed(rt: &HostRuntime, path: &str) -> bool {
    match retried::metadata(rt, path) {
        Ok(found) => found.is_file() && is_denied(rt, path),
        Err(_) => false,
    }
}

/// Whether a file can't be opened because permission to read it is denied.
fn is_denied(rt: &HostRuntime, path: &str) -> bool {
    match File::open(rt, path) {
        Ok(_) => false,
        Err(error) => error.kind() == ErrorKind::PermissionDenied,
    }
}
