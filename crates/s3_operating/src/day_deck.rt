//! The deck of a level on a day.

use s3_decks::{DeckText, Shown, cards_len, count_lines};
use std::alloc::{AllocError, Global};

/// A file of a deck.
#[derive(Drop)]
struct DeckFile<'a> {
    /// Its name, as it was given.
    name: &'a str,
    /// The place in the deck's text at which its own text ends.
    end: usize,
    /// How many blank lines at its end are passed over.
    blank_lines: usize,
    /// The line of the file that each card is of, if its text was punched.
    origins: Option<Vec<usize>>,
}

/// Files, one after the other, each with its last line ended.
#[derive(Drop)]
pub struct JoinedFiles<'a> {
    text: Vec<u8>,
    files: Vec<DeckFile<'a>>,
}

impl<'a> JoinedFiles<'a> {
    /// No files.
    pub fn new(alloc: Global) -> JoinedFiles<'a> {
        JoinedFiles {
            text: Vec::new(alloc),
            files: Vec::new(alloc),
        }
    }

    /// Puts a file's lines after those of the files before, which are whole. Blank lines at its end are passed over. A last line
    /// without its end gets one.
    pub fn add(&mut self, name: &'a str, bytes: Vec<u8>) -> Result<(), AllocError> {
        let len = cards_len(&bytes);
        let blank_lines = count_lines(bytes.get(len..).unwrap_or(&[]));
        let mut bytes = bytes;
        bytes.truncate(len);
        self.add_file(name, bytes, None, blank_lines)
    }

    /// Puts the cards that were punched of a file after those of the files before, with the line of the file that each is of,
    /// from 1.
    pub fn add_punched(
        &mut self,
        name: &'a str,
        bytes: Vec<u8>,
        origins: Vec<usize>,
    ) -> Result<(), AllocError> {
        self.add_file(name, bytes, Some(origins), 0)
    }

    fn add_file(
        &mut self,
        name: &'a str,
        bytes: Vec<u8>,
        origins: Option<Vec<usize>>,
        blank_lines: usize,
    ) -> Result<(), AllocError> {
        if self.text.is_empty() {
            // a deck of one file isn't copied
            self.text = bytes;
        } else {
            self.text.extend_from_slice(&bytes)?;
        }
        if self.text.last().is_some_and(|last| *last != b'\n') {
            self.text.push(b'\n')?;
        }
        let end = self.text.len();
        self.files.push(DeckFile {
            name,
            end,
            blank_lines,
            origins,
        })?;
        Ok(())
    }
}

/// The deck of a level on a day. The file and the line of a card are only looked up when they are needed: most days need none.
#[derive(Drop)]
pub enum DayDeck<'a> {
    /// All cards of its files.
    Whole(JoinedFiles<'a>),
    /// What is left of a deck that is taken up at a line.
    TakenUp(DeckText<'a>),
}

impl<'a> DayDeck<'a> {
    /// The text, as `Deck::read` takes it.
    pub fn text(&self) -> &[u8] {
        match self {
            DayDeck::Whole(joined) => &joined.text,
            DayDeck::TakenUp(deck) => deck.text(),
        }
    }

    /// Appends a line for each file of which blank lines at the end are passed over.
    pub fn push_blank_ends(&self, text: &mut String) -> Result<(), AllocError> {
        if let DayDeck::Whole(joined) = self {
            for file in joined.files.iter() {
                push_blank_end(text, file.name, file.blank_lines)?;
            }
        }
        Ok(())
    }

    /// The deck with the line of a file for each card.
    pub fn with_places(&self, alloc: Global) -> Result<DeckText<'a>, AllocError> {
        match self {
            DayDeck::Whole(joined) => with_places(alloc, &joined.text, &joined.files),
            DayDeck::TakenUp(deck) => deck.without(alloc, &[]),
        }
    }
}

/// Appends how many blank lines at the end of a file are passed over, if any are.
fn push_blank_end(text: &mut String, file: &str, lines: usize) -> Result<(), AllocError> {
    let file = Shown(file);
    match lines {
        0 => Ok(()),
        1 => writeln!(text, "  {file}: the last line is blank and is passed over"),
        _ => writeln!(
            text,
            "  {file}: the last {lines} lines are blank and are passed over"
        ),
    }
}

/// The deck of files whose text is given.
fn with_places<'a>(
    alloc: Global,
    text: &[u8],
    files: &[DeckFile<'a>],
) -> Result<DeckText<'a>, AllocError> {
    let mut deck = DeckText::new(alloc);
    let mut from = 0;
    for file in files {
        let lines = text.get(from..file.end).unwrap_or(&[]);
        let lines = Vec::from_slice(alloc, lines)?;
        match &file.origins {
            Some(origins) => deck.add_punched(file.name, lines, origins)?,
            None => deck.add(file.name, lines)?,
        }
        from = file.end;
    }
    Ok(deck)
}
