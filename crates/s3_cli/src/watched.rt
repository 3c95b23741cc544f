//! Where a session reads and writes, and whether a call there has failed.

ghost use Rattle.std.specs.Prelude.{◌≡◌, ℕ, List, Option, None, Bool, true, false, OnOk, OnErr};
ghost use Rattle.std.specs.Io.{ReadsAtMost};
ghost use Rattle.std.specs.Io.KnownBytes.{Appends, ReadConsumes};

use std::io;
use std::io::{Read, Write};

/// Bytes that are read one after another. Unlike the library's readers it says whether a read has failed.
pub trait Source {
    /// The bytes that reads will give from here on, if they are known.
    ghost remaining: { Self → Option (List ℕ) } = { λ _. None };

    /// Whether a read has failed.
    ghost has_failed: { Self → Bool };

    /// Reads bytes to the front of `bytes` and answers how many: none only at the end, or if there is no room for any.
    fn read(&mut self, bytes: &mut [u8]) -> io::Result<usize>
        ensures bound { ReadsAtMost result bytes.new }
        ensures bytes { ReadConsumes (remaining self.old) (remaining self.new) result bytes.new }
        ensures ok { OnOk result (has_failed self.new ≡ has_failed self.old) }
        ensures err { OnErr result (has_failed self.new ≡ true) };
}

/// Where bytes are written one after another. Unlike the library's writers it says whether a write has failed.
pub trait Sink {
    /// The bytes that were written, if they are known.
    ghost contents: { Self → Option (List ℕ) } = { λ _. None };

    /// Whether a write has failed.
    ghost has_failed: { Self → Bool };

    /// Writes all of these bytes. If it fails, some of them may be written.
    fn write_all(&mut self, bytes: &[u8]) -> io::Result<()>
        ensures bytes { OnOk result (Appends (contents self.old) (contents self.new) bytes.now) }
        ensures ok { OnOk result (has_failed self.new ≡ has_failed self.old) }
        ensures err { OnErr result (has_failed self.new ≡ true) };
}

/// A reader or a writer of the library, with whether a call on it has failed.
#[derive(Drop)]
pub struct Watched<T> {
    /// What is read or written.
    pub channel: T,
    /// Whether a call on it has failed.
    pub has_failed: bool,
}

impl<T> Watched<T> {
    /// On which no call has failed yet.
    pub fn new(channel: T) -> Self
        ensures channel { result.channel ≡ channel }
        ensures has_failed { result.has_failed ≡ false }
    {
        Watched {
            channel,
            has_failed: false,
        }
    }
}

impl<R: Read> Source for Watched<R> {
    ghost remaining = { λ watched. R.remaining watched.channel };

    ghost has_failed = { λ watched. watched.has_failed };

    fn read(&mut self, bytes: &mut [u8]) -> io::Result<usize> {
        match self.channel.read(bytes) {
            Ok(count) => Ok(count),
            Err(error) => {
                self.has_failed = true;
                Err(error)
            }
        }
    }
}

impl<W: Write> Sink for Watched<W> {
    ghost contents = { λ watched. W.contents watched.channel };

    ghost has_failed = { λ watched. watched.has_failed };

    fn write_all(&mut self, bytes: &[u8]) -> io::Result<()> {
        match self.channel.write_all(bytes) {
            Ok(()) => Ok(()),
            Err(error) => {
                self.has_failed = true;
                Err(error)
            }
        }
    }
}
