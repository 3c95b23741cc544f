//! Which files an output replaces.
ghost use Rattle.std.specs.Prelude.{◌≡◌};
ghost use Rattle.s3_day_files.specs.Inner.Kinds.{is_begun_as as is_begun_as_spec};
ghost use Rattle.s3_day_files.specs.declared.kind.Kind.TheVariants.{Script};

use s3_host_files::{beginning_of, retried};
use std::io;
use std::io::ErrorKind;

/// What an output is.
#[derive(Clone, Copy)]
pub enum Kind {
    /// The script of a day.
    Script,
    /// The log of a day.
    Log,
    /// A deck as it is run.
    Deck,
}

/// How many bytes of a file show what it is.
const SHOWN: usize = 6;

impl Kind {
    /// Whether such an output may replace the file at a path: nothing is there, the file is empty, or begins as such an output does, or it
    /// isn't a regular file. It fails if the file can't be read.
    pub fn may_replace(self, rt: &HostRuntime, path: &str) -> io::Result<bool> {
        match retried::metadata(rt, path) {
            Ok(found) if found.is_file() => self.is_begun_at(rt, path),
            Ok(_) => Ok(true),
            Err(error) if error.kind() == ErrorKind::NotFound => Ok(true),
            Err(error) => Err(error),
        }
    }

    /// Whether a file is empty, or begins as such an output does.
    fn is_begun_at(self, rt: &HostRuntime, path: &str) -> io::Result<bool> {
        let bytes = beginning_of(rt, path, SHOWN)?;
        Ok(bytes.is_empty() || self.is_begun_as(&bytes))
    }

    /// Whether bytes begin as such an output does.
    fn is_begun_as(self, bytes: &[u8]) -> bool
        ensures { result ≡ is_begun_as_spec self bytes.now }
    {
        match self {
            Kind::Script => is_entry(bytes),
            Kind::Log => bytes.starts_with(b"{\"at\":"),
            Kind::Deck => bytes.starts_with(b"//"),
        }
    }

    /// Why a file isn't replaced, for a message.
    pub fn refusal(self) -> &'static str {
        match self {
            Kind::Script => "isn't a script, so --script doesn't replace it; name another file",
            Kind::Log => "isn't a log, so --log doesn't replace it; name another file",
            Kind::Deck =>
                "isn't a deck, so the deck as it is run doesn't replace it; name another file",
        }
    }
}

/// Whether bytes begin as the entry of a level in a script does.
fn is_entry(bytes: &[u8]) -> bool
    ensures { result ≡ is_begun_as_spec Script bytes.now }
{
    bytes.starts_with(b"T1")
        || bytes.starts_with(b"T2")
        || bytes.starts_with(b"D1")
        || bytes.starts_with(b"D2")
        || bytes.starts_with(b"R1")
        || bytes.starts_with(b"R2")
}

/// What follows the first time in the log of a day that was refused before its first turn.
const REFUSED: &[u8] = b"Z\",\"event\":\"refused\"";

/// Where that is in the log.
const REFUSED_AT: usize = 26;

/// How many bytes of a log show it.
const REFUSED_TO: usize = 64;

/// Whether a file is the log of a day that was refused before its first turn, as far as it can be read.
pub fn is_refused_log(rt: &HostRuntime, path: &str) -> bool {
    match (
        begins_with_refusal(rt, path),
        Kind::Log.may_replace(rt, path),
    ) {
        (Ok(is_refused), Ok(may_replace)) => is_refused && may_replace,
        _ => false,
    }
}

fn begins_with_refusal(rt: &HostRuntime, path: &str) -> io::Result<bool> {
    if !retried::metadata(rt, path)?.is_file() {
        return Ok(false);
    }
    let bytes = beginning_of(rt, path, REFUSED_TO)?;
    let after = bytes.as_slice().get(REFUSED_AT..).unwrap_or(&[]);
    Ok(after.starts_with(REFUSED))
}
