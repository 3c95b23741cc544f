//! The lines of plain text that cards were punched from.
ghost use Rattle.std.specs.Prelude.{◌≤◌};

use s3_cards::first_line;
use s3_decks::FilePlace;
use s3_punch::{CardColumns, typed_column};
use std::alloc::{AllocError, Global};

/// A file of plain text.
#[derive(Drop)]
struct TypedFile<'a> {
    name: &'a str,
    text: Vec<u8>,
    /// Where each line begins.
    starts: Vec<usize>,
}

/// The files of plain text of a deck.
#[derive(Drop)]
pub struct TypedFiles<'a> {
    files: Vec<TypedFile<'a>>,
}

/// Where each line of a text begins.
fn starts_of(alloc: Global, text: &[u8]) -> Result<Vec<usize>, AllocError> {
    let mut starts = Vec::new(alloc);
    let mut is_start = true;
    for (place, byte) in text.iter().enumerate() {
        if is_start {
            starts.push(place)?;
        }
        is_start = *byte == b'\n';
    }
    Ok(starts)
}

impl<'a> TypedFile<'a> {
    /// A line, by its number from 1.
    fn line(&self, number: usize) -> Option<&[u8]> {
        let start = self.starts.get(number.checked_sub(1)?)?;
        let (line, _after) = first_line(self.text.get(*start..)?)?;
        Some(line)
    }
}

impl<'a> TypedFiles<'a> {
    /// No files.
    pub fn new(alloc: Global) -> TypedFiles<'a> {
        TypedFiles {
            files: Vec::new(alloc),
        }
    }

    /// Adds a file.
    pub fn add(&mut self, alloc: Global, name: &'a str, text: Vec<u8>) -> Result<(), AllocError> {
        let starts = starts_of(alloc, &text)?;
        self.files.push(TypedFile { name, text, starts })?;
        Ok(())
    }

    /// The line at a place, if it is one of plain text.
    fn line_at(&self, place: &FilePlace<'_>) -> Option<&[u8]> {
        let file = self.files.iter().find(|file| file.name == place.file)?;
        file.line(place.line)
    }

    /// The column of the line at a place that has the first of some columns of its card. In a file that isn't plain text a line is its
    /// card.
    pub fn column_at(
        &self,
        alloc: Global,
        place: &FilePlace<'_>,
        is_source: bool,
        columns: CardColumns,
    ) -> Result<usize, AllocError>
        requires { columns.from ≤ 96 }
    {
        match self.line_at(place) {
            Some(line) => typed_column(alloc, is_source, line, columns),
            None => Ok(columns.from),
        }
    }
}
