//! What becomes of a file under its name while a day writes it.
ghost use Rattle.std.specs.Prelude.{◌≡◌, Some};
ghost use Rattle.s3_operating.specs.Inner.Lost.{lost_by, lost_in};

use std::io::ErrorKind;

/// Why the file of an output no longer keeps what is written to it.
#[derive(Clone, Copy, Debug, PartialEq, Eq)]
pub enum Lost {
    /// Nothing has its name: it was removed or renamed.
    Gone,
    /// Another file has its name.
    Other,
    /// It has fewer bytes than were written.
    Cut,
}

/// What has the name of a file that is written.
#[derive(Clone, Copy, Debug, PartialEq, Eq)]
pub enum AtOutput {
    /// Nothing.
    Nothing,
    /// The file, with so many bytes.
    Same(u64),
    /// Another file.
    Other,
}

impl Lost {
    /// Why a file no longer keeps what is written to it, given what has its name and how many bytes were written; none if it does.
    pub fn find(at_name: AtOutput, written: u64) -> Option<Lost>
        ensures { result ≡ lost_in at_name written }
    {
        match at_name {
            AtOutput::Nothing => Some(Lost::Gone),
            AtOutput::Other => Some(Lost::Other),
            AtOutput::Same(bytes) if bytes < written => Some(Lost::Cut),
            AtOutput::Same(_) => None,
        }
    }

    /// The kind of the failure by which a writer reports it.
    pub fn kind(self) -> ErrorKind
        ensures { lost_by result ≡ Some self }
    {
        match self {
            Lost::Gone => ErrorKind::NotFound,
            Lost::Other => ErrorKind::AlreadyExists,
            Lost::Cut => ErrorKind::UnexpectedEof,
        }
    }

    /// What a writer reports by a kind of failure, if that is one of these.
    pub fn of(kind: ErrorKind) -> Option<Lost>
        ensures { result ≡ lost_by kind }
    {
        match kind {
            ErrorKind::NotFound => Some(Lost::Gone),
            ErrorKind::AlreadyExists => Some(Lost::Other),
            ErrorKind::UnexpectedEof => Some(Lost::Cut),
            _ => None,
        }
    }

    /// Why, what is lost, and what to do: the end of a sentence that begins with the output.
    pub fn words(self) -> &'static str {
        match self {
            Lost::Gone => {
                "its file was removed or renamed while the day ran; what it has is lost, or under the new name; leave the files of a day alone until it ends"
            }
            Lost::Other => {
                "another file has its name by now; what was written is lost, or under another name; leave the files of a day alone until it ends"
            }
            Lost::Cut => {
                "its file was cut while the day ran, and what is cut off is lost; leave the files of a day alone until it ends"
            }
        }
    }
}
