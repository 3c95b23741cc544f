//! The deck of a level, of files that are read one after another.
ghost use Rattle.std.specs.Prelude.{◌≤◌};

use crate::begun::named_file;
use crate::fault::DayFault;
use crate::inputs::read_text;
use s3_cards::LevelId;
use s3_day_log::NamedFile;
use s3_decks::cards_len;
use s3_host_files::{is_input, shown_name};
use s3_operating::JoinedFiles;
use s3_paper_commands::{
    deck_encoding_words, is_plain_text, tell_errors, tell_punched, tell_waiting,
};
use s3_punch::{Begun, Punched, punch};
use s3_refusals::{Shown, begins_as_pack};
use std::alloc::{AllocError, Global};
use std::io::Write;

/// The most bytes of a file of a deck that is read.
pub(crate) const TEXT_LIMIT: usize = 4_194_304;

/// The deck of a level.
#[derive(Drop)]
pub struct LevelDeck<'a> {
    /// The cards of its files.
    pub joined: JoinedFiles<'a>,
    /// The files as a log has them; none if the day isn't logged.
    pub files: Vec<NamedFile>,
}

/// How the files of a deck are read.
#[derive(Clone, Copy)]
pub struct HowRead {
    /// Whether a log has them.
    pub is_logged: bool,
    /// Whether changed lines of plain text aren't counted for the reader.
    pub is_quiet: bool,
    /// Whether standard input is plain text.
    pub is_input_plain: bool,
}

/// The part of a deck that is read.
#[derive(Drop)]
struct Reading<'a> {
    deck: LevelDeck<'a>,
    /// Where the next file begins; only followed if one of the files is punched.
    begun: Begun,
    is_punched: bool,
    how: HowRead,
    is_faulty: bool,
    ghost few: { begun.cards ≤ 9999 },
}

impl<'a> LevelDeck<'a> {
    /// The deck of these files, with their digests if a log has them. A file of plain text is punched, and what is wrong with it is
    /// reported.
    pub fn read(
        rt: &HostRuntime,
        level: LevelId,
        paths: &[&'a str],
        how: HowRead,
    ) -> Result<LevelDeck<'a>, DayFault<'a>> {
        let mut reading = Reading::new(rt.alloc(), paths, how);
        for path in paths {
            let name: &'a str = *path;
            let bytes = read_deck_file(rt, level, name)?;
            reading.add(rt, name, bytes)?;
        }
        reading.finish(level)
    }
}

/// The bytes of a file of a deck, or of standard input. A pack is refused, and text in an encoding in which no deck is. A file without a card is reported.
fn read_deck_file<'a>(
    rt: &HostRuntime,
    level: LevelId,
    name: &'a str,
) -> Result<Vec<u8>, DayFault<'a>> {
    if is_input(name) {
        tell_waiting(rt);
    }
    let bytes = read_text(rt, name, TEXT_LIMIT)?;
    let name = shown_name(name);
    if begins_as_pack(&bytes) {
        return Err(DayFault::PackAsDeck(name));
    }
    if let Some(words) = deck_encoding_words(&bytes) {
        report(rt, name, words);
        return Err(DayFault::Deck(level));
    }
    if cards_len(&bytes) == 0 {
        report(rt, name, "has no card");
    }
    Ok(bytes)
}

/// Reports a sentence about a file.
fn report(rt: &HostRuntime, name: &str, sentence: &str) {
    let name = Shown(name);
    let _ = writeln!(rt.stderr(), "{name} {sentence}");
}

impl<'a> Reading<'a> {
    fn new(alloc: Global, paths: &[&'a str], how: HowRead) -> Reading<'a> {
        Reading {
            deck: LevelDeck {
                joined: JoinedFiles::new(alloc),
                files: Vec::new(alloc),
            },
            begun: Begun::new(false),
            is_punched: paths
                .iter()
                .any(|path| is_plain_text(*path, how.is_input_plain)),
            how,
            is_faulty: false,
        }
    }

    /// Puts a file after those that are read.
    fn add(&mut self, rt: &HostRuntime, name: &'a str, bytes: Vec<u8>) -> Result<(), AllocError> {
        if self.how.is_logged {
            let file = named_file(rt.alloc(), name, &bytes)?;
            self.deck.files.push(file)?;
        }
        let shown = shown_name(name);
        if is_plain_text(name, self.how.is_input_plain) {
            return self.add_text(rt, shown, &bytes);
        }
        if self.is_punched {
            self.begun = self.begun.behind_deck(&bytes);
        }
        self.deck.joined.add(shown, bytes)
    }

    /// Puts the cards that are punched of a file after those that are read.
    fn add_text(
        &mut self,
        rt: &HostRuntime,
        name: &'a str,
        bytes: &[u8],
    ) -> Result<(), AllocError> {
        let punched = punch(rt.alloc(), bytes, &self.begun)?;
        self.is_faulty |= if self.how.is_quiet {
            tell_errors(rt, name, &punched)
        } else {
            tell_punched(rt, name, &punched)
        };
        self.begun = punched.behind(self.begun);
        let Punched {
            text,
            origins,
            changes: _changes,
            faults: _faults,
            part: _part,
        } = punched;
        self.deck.joined.add_punched(name, text, origins)
    }

    /// The deck, unless something is wrong with a file of plain text.
    fn finish(self, level: LevelId) -> Result<LevelDeck<'a>, DayFault<'a>> {
        if self.is_faulty {
            return Err(DayFault::Deck(level));
        }
        Ok(self.deck)
    }
}
