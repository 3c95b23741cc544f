//! The exit statuses of the program, and those that help lists for many commands.

use crate::words::Status;

/// It is done.
pub const DONE: u8 = 0;

/// It is refused, or memory ran out.
pub const REFUSED: u8 = 1;

/// The words of the command line can't be read or followed.
pub const WRONG_WORDS: u8 = 2;

/// A file, standard input or standard output failed.
pub const FILE_FAILED: u8 = 3;

/// It is done except for what a person has to look at.
pub const PERSON_NEEDED: u8 = 4;

/// A day is done, and a job of it was passed over or ended by a reply.
pub const PASSED_OVER: u8 = 5;

/// The status of a command that has saved a pack.
pub const PACK_SAVED: Status = Status {
    number: DONE,
    meaning: "the pack is saved",
};

/// The status of a refusal that saves nothing.
pub const NOTHING_SAVED: Status = Status {
    number: REFUSED,
    meaning: "refused, or memory ran out; nothing is saved",
};

/// The status of wrong options.
pub const OPTIONS_WRONG: Status = Status {
    number: WRONG_WORDS,
    meaning: "the options are wrong",
};

/// The status of a failed file.
pub const FILE_WRONG: Status = Status {
    number: FILE_FAILED,
    meaning: "a file, standard input or standard output can't be read or written",
};
