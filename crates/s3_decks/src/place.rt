//! Places as a person has them.
ghost use Rattle.std.specs.Prelude.{◌≡◌};
ghost use Rattle.s3_decks.specs.Inner.Decks.{is_line as is_line_spec, line_seen};

use crate::names::Shown;
use std::fmt;
use std::fmt::Display;

/// A line of a file.
#[derive(Clone, Copy)]
pub struct FilePlace<'a> {
    /// The file's name, as it was given.
    pub file: &'a str,
    /// The number of the line, from 1.
    pub line: usize,
}

impl<'a> FilePlace<'a> {
    /// Whether it is this line of a file of this name.
    pub fn is_line(&self, file: &str, line: usize) -> bool
        ensures { result ≡ is_line_spec file.now line (line_seen self.now) }
    {
        self.file == file && self.line == line
    }
}

impl<'a> Display for FilePlace<'a> {
    fn fmt<W: fmt::Write>(&self, f: &mut fmt::Formatter<W>) -> fmt::Result {
        let file = Shown(self.file);
        let line = self.line;
        write!(f, "{file}, line {line}")
    }
}

/// A card of a deck: `card 28 (day1.job, line 28)`.
#[derive(Clone, Copy)]
pub struct CardPlace<'a> {
    /// The number of the card in the deck, from 1.
    pub card: usize,
    /// The line that it is; `None` if the deck has no such card.
    pub place: Option<FilePlace<'a>>,
}

impl<'a> Display for CardPlace<'a> {
    fn fmt<W: fmt::Write>(&self, f: &mut fmt::Formatter<W>) -> fmt::Result {
        let card = self.card;
        match &self.place {
            Some(place) => write!(f, "card {card} ({place})"),
            None => write!(f, "card {card}"),
        }
    }
}
