//! A writer that keeps why it failed.

use std::io;
use std::io::Write;

/// A writer, and why a write failed, if one did.
#[derive(Drop)]
pub struct Noted<W> {
    writer: W,
    /// Why the last write that failed did, if one has failed.
    pub failure: Option<io::Error>,
}

impl<W: Write> Noted<W> {
    /// The writer before anything is written.
    pub fn new(writer: W) -> Noted<W> {
        Noted {
            writer,
            failure: None,
        }
    }
}

impl<W: Write> Write for Noted<W> {
    fn write(&mut self, bytes: &[u8]) -> io::Result<usize> {
        match self.writer.write(bytes) {
            Err(error) => {
                self.failure = Some(error);
                Err(error)
            }
            done => done,
        }
    }

    fn flush(&mut self) -> io::Result<()> {
        match self.writer.flush() {
            Err(error) => {
                self.failure = Some(error);
                Err(error)
            }
            done => done,
        }
    }
}
