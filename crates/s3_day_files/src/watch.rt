//! The clocks of the system.

use s3_operating::Clock;
use std::time::{Instant, SystemTime, UNIX_EPOCH};

/// How far a clock that can't be read is taken to have gone on, in milliseconds.
const UNKNOWN: u64 = 1_000;

/// The clocks of the system.
#[derive(Drop)]
pub struct Watch<'a> {
    rt: &'a HostRuntime,
    start: Option<Instant>,
    /// What was answered last, in milliseconds.
    last: u64,
}

impl<'a> Watch<'a> {
    /// The clocks, whose milliseconds are counted from now on.
    pub fn new(rt: &'a HostRuntime) -> Watch<'a> {
        Watch {
            rt,
            start: Instant::now(rt).ok(),
            last: 0,
        }
    }

    fn since_start(&self) -> Option<u64> {
        let now = Instant::now(self.rt).ok()?;
        let gone = now.duration_since(self.start?);
        u64::try_from(gone.as_millis()).ok()
    }
}

impl<'a> Clock for Watch<'a> {
    fn milliseconds(&mut self) -> u64 {
        self.last = self
            .since_start()
            .unwrap_or(self.last.saturating_add(UNKNOWN));
        self.last
    }

    fn seconds(&mut self) -> u64 {
        match SystemTime::now(self.rt) {
            Ok(now) => match now.duration_since(UNIX_EPOCH) {
                Ok(since) => since.as_secs(),
                Err(_) => 0,
            },
            Err(_) => 0,
        }
    }
}
