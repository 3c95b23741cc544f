//! Texts that are made piece by piece.

use s3_cards::{LevelId, Name};
use s3_decks::{FilePlace, push_characters, push_name};
use s3_halt_block::{push_choice, push_letters, push_replies, push_reply};
use s3_operator::HaltCode;
use std::alloc::{AllocError, Global};
use std::io;

/// A text that is made piece by piece. If memory runs out for a piece, `finish` reports it.
#[derive(Drop)]
pub(crate) struct Message {
    text: String,
    has_failed: bool,
}

impl Message {
    /// An empty text.
    pub(crate) fn new(alloc: Global) -> Message {
        Message {
            text: String::new(alloc),
            has_failed: false,
        }
    }

    /// The text, unless memory ran out for one of its pieces.
    pub(crate) fn finish(self) -> Result<String, AllocError> {
        if self.has_failed {
            Err(AllocError)
        } else {
            Ok(self.text)
        }
    }

    /// Appends words.
    pub(crate) fn push(&mut self, words: &str) {
        self.has_failed = self.text.push_str(words).is_err() || self.has_failed;
    }

    /// Appends a number.
    pub(crate) fn push_number(&mut self, number: u64) {
        self.has_failed = push_number(&mut self.text, number).is_err() || self.has_failed;
    }

    /// Appends `1 job` or `2 jobs`.
    pub(crate) fn push_counted(&mut self, count: u64, what: &str) {
        self.push_number(count);
        self.push(" ");
        self.push(what);
        self.push(if count == 1 { "" } else { "s" });
    }

    /// Appends `level 1` or `level 2`.
    pub(crate) fn push_level(&mut self, level: LevelId) {
        self.push(match level {
            LevelId::One => "level 1",
            LevelId::Two => "level 2",
        });
    }

    /// Appends a name.
    pub(crate) fn push_name(&mut self, name: Name) {
        self.has_failed = push_name(&mut self.text, name).is_err() || self.has_failed;
    }

    /// Appends a line of a file.
    pub(crate) fn push_file_place(&mut self, place: FilePlace<'_>) {
        self.has_failed = push_file_place(&mut self.text, place).is_err() || self.has_failed;
    }

    /// Appends the page and the line of a printed line.
    pub(crate) fn push_place(&mut self, page: u16, line: u8) {
        self.has_failed = push_place(&mut self.text, page, line).is_err() || self.has_failed;
    }

    /// Appends why a call on a file failed.
    pub(crate) fn push_error(&mut self, error: &io::Error) {
        self.has_failed = push_error(&mut self.text, error).is_err() || self.has_failed;
    }

    /// Appends characters of EBCDIC.
    pub(crate) fn push_characters(&mut self, codes: &[u8]) {
        self.has_failed = push_characters(&mut self.text, codes).is_err() || self.has_failed;
    }

    /// Appends the letters of a halt.
    pub(crate) fn push_letters(&mut self, code: HaltCode) {
        self.has_failed = push_letters(&mut self.text, code).is_err() || self.has_failed;
    }

    /// Appends the digits that a level's halt allows.
    pub(crate) fn push_choice(&mut self, level: LevelId, code: HaltCode) {
        self.has_failed = push_choice(&mut self.text, level, code).is_err() || self.has_failed;
    }

    /// Appends what a reply to a level's halt does.
    pub(crate) fn push_reply(&mut self, level: LevelId, code: HaltCode, digit: u8) {
        self.has_failed = push_reply(&mut self.text, level, code, digit).is_err()
            || self.has_failed;
    }

    /// Appends what each reply to a halt does.
    pub(crate) fn push_replies(&mut self, code: HaltCode) {
        self.has_failed = push_replies(&mut self.text, code).is_err() || self.has_failed;
    }
}

fn push_number(text: &mut String, number: u64) -> Result<(), AllocError> {
    write!(text, "{number}")
}

fn push_error(text: &mut String, error: &io::Error) -> Result<(), AllocError> {
    write!(text, "{error}")
}

fn push_place(text: &mut String, page: u16, line: u8) -> Result<(), AllocError> {
    write!(text, "{page:04} {line:02} ")
}

fn push_file_place(text: &mut String, place: FilePlace<'_>) -> Result<(), AllocError> {
    write!(text, "{place}")
}
