//! Why standard output can't be written.

use s3_refusals::Reason;
use std::fmt::Display;
use std::io::ErrorKind;
use std::{fmt, io};

/// The system's number of the error that a closed descriptor gives.
const CLOSED: i32 = 9;

/// Why standard output can't be written, in words, with what to do.
#[derive(Clone, Copy)]
pub struct OutputReason(pub io::Error);

impl Display for OutputReason {
    fn fmt<W: fmt::Write>(&self, f: &mut fmt::Formatter<W>) -> fmt::Result {
        if self.0.raw_os_error() == Some(CLOSED) {
            return write!(f, "it is closed; give it a file by > FILE, or a pipe");
        }
        if self.0.kind() == ErrorKind::BrokenPipe {
            return write!(f, "its reader has ended; use one that reads all, or > FILE");
        }
        let reason = Reason(self.0);
        write!(f, "{reason}")
    }
}
