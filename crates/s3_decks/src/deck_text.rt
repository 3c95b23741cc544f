//! The text of a deck, from files.
ghost use Rattle.std.specs.Prelude.{◌≡◌, ◌<◌, ◌++◌, [], ◌∷◌, length, map, IfOk, IfSome, OnOk, if◌then◌else◌};
ghost use Rattle.std.specs.List.{position_from};
ghost use Rattle.std.specs.Option.{option_map};
ghost use Rattle.std.specs.Str.Lines.{lines};
ghost use Rattle.s3_decks.specs.Inner.Decks.{card_of, ended, first_lines, is_line as is_line_spec, joined, kept, line_of, line_seen, lines_of, with_cards, with_file, without};

use crate::gaps::Gaps;
use crate::place::{CardPlace, FilePlace};
use crate::position::Position;
use s3_cards::first_line;
use std::alloc::{AllocError, Global};
use std::marker::Model;

/// Cards of a deck that follow each other, by places from 0.
#[derive(Clone, Copy)]
pub struct CardRange {
    /// The place of the first one.
    pub from: usize,
    /// The place after the last one.
    pub to: usize,
}

/// A deck's text, a line for each card, and the line of a file that each card is.
#[derive(Drop)]
pub struct DeckText<'a> {
    text: Vec<u8>,
    places: Vec<FilePlace<'a>>,
}

impl<'a> Model for DeckText<'a> {
    ghost use Rattle.std.specs.Prelude.{map};
    ghost use Rattle.s3_decks.specs.Inner.Decks.{Assembled, line_seen};

    ghost Value = { Assembled };

    ghost view = { λ deck. record { text = deck.text.items; places = map line_seen deck.places.items } };
}

impl<'a> DeckText<'a> {
    /// A deck without files.
    pub fn new(alloc: Global) -> DeckText<'a>
        ensures { result ≡ record { text = []; places = [] } }
    {
        DeckText {
            text: Vec::new(alloc),
            places: Vec::new(alloc),
        }
    }

    /// Adds a file's lines after those of the files before. A last line without its end gets one. On a refusal for memory
    /// the deck may have a part of the file, and isn't to be used.
    pub fn add(&mut self, file: &'a str, bytes: Vec<u8>) -> Result<(), AllocError>
        ensures { OnOk result (self.new ≡ with_file file.now bytes.items self.old) }
    {
        push_places(&mut self.places, file, &bytes)?;
        push_ended(&mut self.text, bytes)
    }

    /// Adds cards that were punched of a file after those of the files before, with the line of the file that each is of, from
    /// 1, in their order. A last card without its end gets one. On a refusal for memory the deck may have a part of the file, and
    /// isn't to be used.
    pub fn add_punched(
        &mut self,
        file: &'a str,
        bytes: Vec<u8>,
        origins: &[usize],
    ) -> Result<(), AllocError>
        ensures { OnOk result (self.new ≡ with_cards file.now bytes.items origins.now self.old) }
    {
        push_lines(&mut self.places, file, origins)?;
        push_ended(&mut self.text, bytes)
    }

    /// The text, as `Deck::read` takes it.
    pub fn text(&self) -> &[u8]
        ensures { result.now ≡ self.now.text }
    {
        &self.text
    }

    /// How many cards the deck has.
    pub fn card_count(&self) -> usize
        ensures { result ≡ length self.now.places }
    {
        self.places.len()
    }

    /// The line that a card is, by its number in the deck, from 1.
    pub fn place_of(&self, card: usize) -> CardPlace<'a>
        ensures number { result.card ≡ card }
        ensures place { option_map line_seen result.place ≡ line_of card self.now }
    {
        CardPlace {
            card,
            place: self.file_place(card),
        }
    }

    /// The line of a file that a card is.
    fn file_place(&self, card: usize) -> Option<FilePlace<'a>>
        ensures { option_map line_seen result ≡ line_of card self.now }
    {
        self.places.get(card.checked_sub(1)?).copied()
    }

    /// The number of the card, from 1, that is at a position; of a file that was given twice, the first time. `None` if
    /// the deck has no such file, or the file no such line.
    #[tactic(auto, using(crate::proofs::Keeping::seen_place))]
    pub fn card_at(&self, position: &Position<'_>) -> Option<usize>
        ensures { result ≡ card_of (option_map (λ file. file.now) position.now.file) position.now.line self.now }
    {
        let line = position.line;
        match position.file {
            None => (0 < line && line <= self.places.len()).then_some(line),
            Some(file) => Some(place_of_line(&self.places, file, line)? + 1),
        }
    }

    /// The deck without the cards in some ranges.
    pub fn without(&self, alloc: Global, left_out: &[CardRange]) -> Result<DeckText<'a>, AllocError>
        ensures { IfOk result (λ deck. deck ≡ without left_out.now self.now) }
    {
        Ok(DeckText {
            text: kept_text(alloc, &self.text, left_out)?,
            places: kept_places(alloc, &self.places, left_out)?,
        })
    }
}

/// The place, from 0, of the first card that is this line of a file of this name.
fn place_of_line(places: &[FilePlace<'_>], file: &str, line: usize) -> Option<usize>
    ensures place { result ≡ position_from (λ place. is_line_spec file.now line (line_seen place)) 0 places.now }
    ensures within { IfSome result (λ place. place < length places.now) }
{
    places.iter().position(|place| place.is_line(file, line))
}

/// Appends the places of a file's lines.
#[tactic(auto, using(crate::proofs::Keeping::pushed))]
fn push_places<'a>(
    places: &mut Vec<FilePlace<'a>>,
    file: &'a str,
    bytes: &[u8],
) -> Result<(), AllocError>
    ensures { OnOk result (map line_seen places.new.items ≡ map line_seen places.old.items ++ first_lines file.now (length (lines bytes.now))) }
{
    let mut rest = bytes;
    let mut line = 0;
    while let Some((_line, after)) = first_line(rest) {
        line += 1;
        places.push(FilePlace { file, line })?;
        rest = after;
    }
    Ok(())
}

/// Appends the places of some lines of a file.
fn push_lines<'a>(
    places: &mut Vec<FilePlace<'a>>,
    file: &'a str,
    lines: &[usize],
) -> Result<(), AllocError>
    ensures { OnOk result (map line_seen places.new.items ≡ map line_seen places.old.items ++ lines_of file.now lines.now) }
{
    for line in lines {
        places.push(FilePlace { file, line: *line })?;
    }
    Ok(())
}

/// Appends a file's text, with an end for its last line if that has none. A text that is the first one isn't copied.
fn push_ended(text: &mut Vec<u8>, bytes: Vec<u8>) -> Result<(), AllocError>
    ensures { OnOk result (text.new.items ≡ text.old.items ++ ended bytes.items) }
{
    let mut bytes = bytes;
    end_line(&mut bytes)?;
    if text.is_empty() {
        *text = bytes;
        return Ok(());
    }
    text.extend_from_slice(&bytes)
}

/// Ends the last line of a text, if it has no end.
fn end_line(text: &mut Vec<u8>) -> Result<(), AllocError>
    ensures { OnOk result (text.new.items ≡ ended text.old.items) }
{
    match text.last() {
        Some(last) if *last != b'\n' => Ok(text.push(b'\n')?),
        _ => Ok(()),
    }
}

/// Appends a line with its end, unless it is left out.
fn keep_line(text: &mut Vec<u8>, is_left_out: bool, line: &[u8]) -> Result<(), AllocError>
    ensures { OnOk result (text.new.items ≡ text.old.items ++ joined (if is_left_out then [] else line.now ∷ [])) }
{
    if is_left_out {
        return Ok(());
    }
    text.extend_from_slice(line)?;
    text.push(b'\n')?;
    Ok(())
}

/// The text of the lines at places in none of the ranges, each with its end.
#[tactic(auto, using(crate::proofs::Keeping::line_more, crate::proofs::Keeping::all_read))]
fn kept_text(alloc: Global, text: &[u8], left_out: &[CardRange]) -> Result<Vec<u8>, AllocError>
    ensures { IfOk result (λ rest. rest.items ≡ joined (kept left_out.now (lines text.now))) }
{
    let mut found = Vec::new(alloc);
    let mut gaps = Gaps::of(left_out);
    let mut rest = text;
    let mut place = 0;
    while let Some((line, after)) = first_line(rest) {
        let is_left_out = gaps.take(place);
        keep_line(&mut found, is_left_out, line)?;
        place += 1;
        rest = after;
    }
    Ok(found)
}

/// Appends the line of a file, unless it is left out.
fn keep_place<'a>(
    places: &mut Vec<FilePlace<'a>>,
    is_left_out: bool,
    line: &FilePlace<'a>,
) -> Result<(), AllocError>
    ensures { OnOk result (map line_seen places.new.items ≡ map line_seen places.old.items ++ (if is_left_out then [] else line_seen line.now ∷ [])) }
{
    if is_left_out {
        return Ok(());
    }
    Ok(places.push(*line)?)
}

/// The lines of files at places in none of the ranges.
fn kept_places<'a>(
    alloc: Global,
    places: &[FilePlace<'a>],
    left_out: &[CardRange],
) -> Result<Vec<FilePlace<'a>>, AllocError>
    ensures { IfOk result (λ rest. map line_seen rest.items ≡ kept left_out.now (map line_seen places.now)) }
{
    let mut found = Vec::new(alloc);
    let mut gaps = Gaps::of(left_out);
    for (place, line) in places.iter().enumerate() {
        let is_left_out = gaps.take(place);
        keep_place(&mut found, is_left_out, line)?;
    }
    Ok(found)
}
