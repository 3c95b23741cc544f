//! Standard input, as commands read it.

use std::io;
use std::io::{ErrorKind, IsTerminal, Read};
use std::thread::sleep;
use std::time::Duration;

/// How long a reader waits before it tries again, in milliseconds.
const PAUSE: u64 = 5;

/// Standard input. If it has nothing at the moment, as a pipe that doesn't block, a read waits until it has. A read that a signal interrupts
/// is tried again. A terminal that was closed has no end of the input: its read fails.
#[derive(Drop)]
pub struct StandardInput<'a> {
    rt: &'a HostRuntime,
    is_terminal: bool,
    failure: Option<io::Error>,
}

impl<'a> StandardInput<'a> {
    /// Standard input before anything is read.
    pub fn new(rt: &'a HostRuntime) -> StandardInput<'a> {
        StandardInput {
            rt,
            is_terminal: rt.stdin().is_terminal(),
            failure: None,
        }
    }

    /// Why the last read that failed did, if one has failed.
    pub fn failure(&self) -> Option<io::Error> {
        self.failure
    }

    /// Whether it was a terminal, and isn't any more.
    fn is_closed_terminal(&self) -> bool {
        self.is_terminal && !self.rt.stdin().is_terminal()
    }
}

impl<'a> Read for StandardInput<'a> {
    fn read(&mut self, bytes: &mut [u8]) -> io::Result<usize> {
        // as long as a writer takes: the bound is what shows that it ends
        for _try in 0..u64::MAX {
            match self.rt.stdin().read(bytes) {
                Err(error) if error.kind() == ErrorKind::WouldBlock => {
                    sleep(self.rt, Duration::from_millis(PAUSE));
                }
                Err(error) if error.kind() == ErrorKind::Interrupted => {}
                Ok(0) if self.is_closed_terminal() => {
                    let error = io::Error::from(ErrorKind::NotConnected);
                    self.failure = Some(error);
                    return Err(error);
                }
                Err(error) => {
                    self.failure = Some(error);
                    return Err(error);
                }
                Ok(count) => return Ok(count),
            }
        }
        Err(io::Error::from(ErrorKind::WouldBlock))
    }
}
