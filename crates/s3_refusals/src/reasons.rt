//! Why a call on a file failed.
ghost use Rattle.std.specs.Prelude.{◌≡◌};
ghost use Rattle.s3_refusals.specs.Inner.Calls.{words_of_call};

use std::fmt::Display;
use std::io::ErrorKind;
use std::{fmt, io};

/// Why a call on a file failed, and what to do, by the kind of the failure. Empty for a kind that needs the system's own text.
pub fn call_words(kind: ErrorKind) -> &'static str
    ensures { result.now ≡ words_of_call kind }
{
    match kind {
        ErrorKind::NotFound => "there is no such file or folder; check the name",
        ErrorKind::PermissionDenied => {
            "permission is denied, by it or by its folder; have the owner allow it, or use another file"
        }
        ErrorKind::IsADirectory => "it is a folder; give the name of a file",
        ErrorKind::NotADirectory => "there is a file in place of a folder; check the name",
        ErrorKind::ReadOnlyFilesystem => "its disk is read-only; use another one",
        ErrorKind::StorageFull => "its disk is full; make space there, and try again",
        ErrorKind::QuotaExceeded =>
            "your share of its disk is full; make space there, and try again",
        ErrorKind::FileTooLarge =>
            "a file may not be so large here; raise the shell's limit (ulimit -f), and try again",
        ErrorKind::FilesystemLoop =>
            "its links lead in a circle, or there are too many; give the file's own name",
        ErrorKind::InvalidFilename =>
            "the name is too long, or has a byte that no name may have; give a name of at most 240 bytes",
        _ => "",
    }
}

/// What to do after a failure without words of its own.
const ANY_CURE: &str = "see whether its disk is at work, or take another one";

/// Why a call on a file failed, in words, with what to do; for a failure without words of its own, what the system says, with a cure
/// that may always help.
#[derive(Clone, Copy)]
pub struct Reason(pub io::Error);

impl Display for Reason {
    fn fmt<W: fmt::Write>(&self, f: &mut fmt::Formatter<W>) -> fmt::Result {
        let error = self.0;
        let words = call_words(error.kind());
        if words.is_empty() {
            write!(f, "{error}; {ANY_CURE}")
        } else {
            write!(f, "{words}")
        }
    }
}

/// The command that has a file in use: by its process, if that is known.
#[derive(Clone, Copy)]
pub struct Holder(pub Option<u32>);

impl Display for Holder {
    fn fmt<W: fmt::Write>(&self, f: &mut fmt::Formatter<W>) -> fmt::Result {
        match self.0 {
            Some(process) => write!(f, "another command saves to it, process {process}"),
            None => write!(f, "another command saves to it"),
        }
    }
}
