//! What is done to a line of a text.

use crate::characters::{TAB, in_table, is_small};
use crate::form::LineForm;
use std::fmt;
use std::fmt::Display;

/// What is done to a line of a text, so that it becomes a card.
#[derive(Clone, Copy, PartialEq, Eq)]
pub struct Changes {
    /// It is left out.
    pub is_left_out: bool,
    /// Small letters become capitals.
    pub has_small: bool,
    /// Tabs become blanks.
    pub has_tabs: bool,
    /// Characters of the table become their plain ones.
    pub has_marks: bool,
    /// Pieces are put into their columns.
    pub has_pieces: bool,
    /// A remark is blanked.
    pub has_remark: bool,
    /// The carriage return at its end is dropped.
    pub has_return: bool,
}

impl Changes {
    /// Nothing is done.
    pub const NONE: Changes = Changes {
        is_left_out: false,
        has_small: false,
        has_tabs: false,
        has_marks: false,
        has_pieces: false,
        has_remark: false,
        has_return: false,
    };

    /// Whether anything is done.
    pub fn are_any(&self) -> bool {
        *self != Changes::NONE
    }

    /// What is done to a line that is left out.
    pub fn left_out(has_return: bool) -> Changes {
        let mut changes = Changes::NONE;
        changes.is_left_out = true;
        changes.has_return = has_return;
        changes
    }
}

/// What is done to a line.
#[derive(Clone, Copy)]
pub struct LineChange {
    /// The number of the line, from 1.
    pub line: usize,
    /// What is done to it.
    pub changes: Changes,
}

/// Whether the table has a plain character for another one. It has none for a character of ASCII.
fn has_mark(character: char) -> bool {
    !character.is_ascii() && in_table(character).is_some()
}

/// What is done to a line that becomes a card.
pub fn changes_of(
    form: LineForm,
    characters: &[char],
    has_remark: bool,
    has_return: bool,
) -> Changes {
    Changes {
        is_left_out: false,
        has_small: characters.iter().any(|character| is_small(*character)),
        has_tabs: characters.iter().any(|character| *character == TAB),
        has_marks: characters.iter().any(|character| has_mark(*character)),
        has_pieces: form == LineForm::InPieces,
        has_remark,
        has_return,
    }
}

impl Display for Changes {
    fn fmt<W: fmt::Write>(&self, f: &mut fmt::Formatter<W>) -> fmt::Result {
        let behind = write_if(f, self.is_left_out, "", "left out")?;
        let behind = write_if(f, self.has_small, behind, "capitals")?;
        let behind = write_if(f, self.has_tabs, behind, "tabs")?;
        let behind = write_if(f, self.has_marks, behind, "plain characters")?;
        let behind = write_if(f, self.has_pieces, behind, "pieces")?;
        let behind = write_if(f, self.has_remark, behind, "the remark blanked")?;
        write_if(f, self.has_return, behind, "the carriage return dropped")?;
        Ok(())
    }
}

/// Writes some words after a separator, if a test holds, and answers the separator for the next ones.
fn write_if<W: fmt::Write>(
    f: &mut fmt::Formatter<W>,
    test: bool,
    separator: &'static str,
    words: &str,
) -> Result<&'static str, fmt::Error> {
    if !test {
        return Ok(separator);
    }
    write!(f, "{separator}{words}")?;
    Ok(", ")
}
