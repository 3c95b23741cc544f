//! The standard streams: which file, pipe or terminal each of them is.
ghost use Rattle.std.specs.Prelude.{◌≡◌};
ghost use Rattle.s3_host_files.specs.Inner.Streams.{stream_words};

use super::fault::FileFault;
use super::places::{are_same, is_at};
use super::retried;
use std::fs::Metadata;
use std::io::IsTerminal;
use std::os::unix::fs::FileTypeExt;

/// A standard stream of the program.
#[derive(Clone, Copy, Debug, PartialEq, Eq)]
pub enum StandardStream {
    /// Standard input.
    Input,
    /// Standard output.
    Output,
    /// Standard error.
    Error,
}

/// The streams that the program writes.
pub const WRITTEN: [StandardStream; 2] = [StandardStream::Output, StandardStream::Error];

/// All standard streams.
pub const STREAMS: [StandardStream; 3] = [
    StandardStream::Input,
    StandardStream::Output,
    StandardStream::Error,
];

impl StandardStream {
    /// The name of the stream in messages.
    pub fn name(self) -> &'static str
        ensures { result.now ≡ stream_words self }
    {
        match self {
            StandardStream::Input => "standard input",
            StandardStream::Output => "standard output",
            StandardStream::Error => "standard error",
        }
    }

    /// Whether the stream is a terminal.
    fn is_terminal(self, rt: &HostRuntime) -> bool {
        match self {
            StandardStream::Input => rt.stdin().is_terminal(),
            StandardStream::Output => rt.stdout().is_terminal(),
            StandardStream::Error => rt.stderr().is_terminal(),
        }
    }

    /// A path that the system has for what the stream is connected to.
    pub fn path(self) -> &'static str {
        match self {
            StandardStream::Input => "/proc/self/fd/0",
            StandardStream::Output => "/proc/self/fd/1",
            StandardStream::Error => "/proc/self/fd/2",
        }
    }
}

/// The first of some streams that is the regular file at a path, under any name; none if no file is there, or if the system has no
/// `/proc`.
pub fn stream_at(
    rt: &HostRuntime,
    path: &str,
    streams: &[StandardStream],
) -> Option<StandardStream> {
    match retried::metadata(rt, path) {
        Ok(found) => stream_of(rt, &found, streams),
        Err(_) => None,
    }
}

/// The first of some streams that is a file; none unless the file is a regular one.
pub fn stream_of(
    rt: &HostRuntime,
    file: &Metadata,
    streams: &[StandardStream],
) -> Option<StandardStream> {
    if !file.is_file() {
        return None;
    }
    for stream in streams {
        if is_at(rt, file, stream.path()) {
            return Some(*stream);
        }
    }
    None
}

/// Whether a path leads to the regular file that is also standard error. Whatever a command reports would be written into it.
pub fn is_standard_error(rt: &HostRuntime, path: &str) -> bool {
    stream_at(rt, path, &[StandardStream::Error]).is_some()
}

/// Whether standard input and standard error are one regular file.
pub fn is_input_standard_error(rt: &HostRuntime) -> bool {
    is_standard_error(rt, StandardStream::Input.path())
}

/// Refuses a place for a pack that is also standard output or standard error: a file, a pipe or a terminal.
pub fn keep_save_apart(rt: &HostRuntime, path: &str) -> Result<(), FileFault> {
    keep_apart(rt, path)?;
    for stream in &WRITTEN {
        if is_talk_at(rt, path, *stream) {
            return Err(FileFault::Talk(*stream));
        }
    }
    Ok(())
}

/// Whether a path leads to the pipe or the terminal that a stream is.
fn is_talk_at(rt: &HostRuntime, path: &str, stream: StandardStream) -> bool {
    match (
        retried::metadata(rt, path),
        retried::metadata(rt, stream.path()),
    ) {
        (Ok(found), Ok(other)) if are_same(&found, &other) => {
            found.file_type().is_fifo() || stream.is_terminal(rt)
        }
        _ => false,
    }
}

/// Refuses a file that is also standard output or standard error: what is printed would be written into it.
pub fn keep_apart(rt: &HostRuntime, path: &str) -> Result<(), FileFault> {
    match stream_at(rt, path, &WRITTEN) {
        Some(stream) => Err(FileFault::Stream(stream)),
        None => Ok(()),
    }
}
