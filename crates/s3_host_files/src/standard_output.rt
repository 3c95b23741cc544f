//! Standard output, as commands write it.

use std::io;
use std::io::{ErrorKind, Write};
use std::thread::sleep;
use std::time::Duration;

/// How long a writer waits before it tries again, in milliseconds.
const PAUSE: u64 = 5;

/// Standard output. If it takes nothing at the moment, as a pipe that doesn't block, a write waits until it does. A write that a signal
/// interrupts is tried again.
#[derive(Drop)]
pub struct StandardOutput<'a> {
    rt: &'a HostRuntime,
    failure: Option<io::Error>,
}

impl<'a> StandardOutput<'a> {
    /// Standard output before anything is written.
    pub fn new(rt: &'a HostRuntime) -> StandardOutput<'a> {
        StandardOutput { rt, failure: None }
    }

    /// Why the last write that failed did, if one has failed.
    pub fn failure(&self) -> Option<io::Error> {
        self.failure
    }

    /// Whether a write failed because nobody reads any more.
    pub fn has_lost_reader(&self) -> bool {
        match self.failure {
            Some(error) => error.kind() == ErrorKind::BrokenPipe,
            None => false,
        }
    }
}

impl<'a> Write for StandardOutput<'a> {
    fn write(&mut self, bytes: &[u8]) -> io::Result<usize> {
        // as long as a reader takes: the bound is what shows that it ends
        for _try in 0..u64::MAX {
            match self.rt.stdout().write(bytes) {
                Err(error) if error.kind() == ErrorKind::WouldBlock => {
                    sleep(self.rt, Duration::from_millis(PAUSE));
                }
                Err(error) if error.kind() == ErrorKind::Interrupted => {}
                Err(error) => {
                    self.failure = Some(error);
                    return Err(error);
                }
                Ok(count) => return Ok(count),
            }
        }
        Err(io::Error::from(ErrorKind::WouldBlock))
    }

    fn flush(&mut self) -> io::Result<()> {
        self.rt.stdout().flush()
    }
}
