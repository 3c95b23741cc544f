//! What the options of `operate` ask for.

use crate::exit_zero::ExitZero;
use crate::paper::Paper;
use clap::ArgMatches;
use s3_cards::LevelId;
use s3_decks::Position;
use s3_desk::Bounds;
use s3_host_files::{is_input, shown_name};
use s3_operating::Questioned;
use std::alloc::AllocError;
use std::io::IsTerminal;

/// The most turns of a level, if the options don't say it: some five seconds of a program that only jumps.
const TURNS: u32 = 1_000_000_000;

/// The most lines of a level, if the options don't say it.
const LINES: u32 = 1_000_000;

/// The options of files that may be standard input.
const INPUTS: [&str; 4] = ["pack", "deck1", "deck2", "redo"];

/// Why `--replies` isn't taken.
const TWICE: &str = "--replies takes one file, and - once";

/// What the options of `operate` ask for.
#[derive(Drop)]
pub struct Order<'a> {
    /// The pack that is read.
    pub pack: Option<&'a str>,
    /// Where the pack is saved.
    pub save: Option<&'a str>,
    /// How many packs that the save replaces are kept.
    pub keep: usize,
    /// The files of level 1's deck.
    pub deck1: Vec<&'a str>,
    /// The files of level 2's deck.
    pub deck2: Vec<&'a str>,
    /// The rules.
    pub rules: Option<&'a str>,
    /// Whether the file `-` of a deck is plain text.
    pub is_input_plain: bool,
    /// The person or list that is asked if no rule answers.
    pub questioned: Questioned,
    /// How far each level goes at most.
    pub bounds: Bounds,
    /// Where the script is written.
    pub script: Option<&'a str>,
    /// Where the log is written.
    pub log: Option<&'a str>,
    /// The log whose day is done again.
    pub redo: Option<&'a str>,
    /// Where level 1 is taken up.
    pub from1: Option<Position<'a>>,
    /// Where level 2 is taken up.
    pub from2: Option<Position<'a>>,
    /// Where level 1's deck is written.
    pub deck_out1: Option<&'a str>,
    /// Where level 2's deck is written.
    pub deck_out2: Option<&'a str>,
    /// Where each job's pages are written, and how.
    pub paper: Option<Paper<'a>>,
    /// The launcher's file for level 2's report, as long as standard output waits for level 1.
    pub held: Option<&'a str>,
    /// The pack is saved also if a level isn't done.
    pub saves_unfinished: bool,
    /// The journal of the pack.
    pub journal: Option<&'a str>,
    /// The day is done whatever the journal has.
    pub does_again: bool,
    /// A day that is posted isn't refused.
    pub is_once: bool,
    /// What is there is written over.
    pub overwrites: bool,
    /// Whether progress and the answers of rules aren't reported.
    pub is_quiet: bool,
    /// Whether jobs are listed in JSON.
    pub is_json: bool,
    /// In place of which exit statuses the command ends with 0.
    pub exit_zero: ExitZero,
}

impl<'a> Order<'a> {
    /// What the options ask for, with the files of both decks, or why they name no day.
    pub fn read(
        rt: &HostRuntime,
        words: &ArgMatches<'a>,
        deck1: Vec<&'a str>,
        deck2: Vec<&'a str>,
    ) -> Result<Order<'a>, &'static str> {
        let (rules, has_lines) = replies_of(words)?;
        let from1 = position(words, "from1")?;
        let from2 = position(words, "from2")?;
        let paper = Paper::read(words)?;
        let exit_zero = ExitZero::read(words.get_str("exit-zero"))?;
        Ok(Order {
            pack: words.get_str("pack"),
            save: words.get_str("save"),
            keep: usize::from(words.get_one::<u16>("keep").unwrap_or(0)),
            deck1,
            deck2,
            rules,
            is_input_plain: words.get_flag("plain-text"),
            questioned: questioned(rt, words, has_lines),
            bounds: Bounds {
                turns: words.get_one::<u32>("turns").unwrap_or(TURNS),
                lines: words.get_one::<u32>("lines").unwrap_or(LINES),
            },
            script: words.get_str("script"),
            log: words.get_str("log"),
            redo: words.get_str("redo"),
            from1,
            from2,
            deck_out1: words.get_str("deck-out1"),
            deck_out2: words.get_str("deck-out2"),
            paper,
            held: words.get_str("held"),
            saves_unfinished: words.get_flag("save-unfinished"),
            journal: words.get_str("journal"),
            does_again: words.get_flag("again"),
            is_once: words.get_flag("once"),
            overwrites: words.get_flag("overwrite"),
            is_quiet: words.get_flag("quiet"),
            is_json: words.get_flag("json"),
            exit_zero,
        })
    }

    /// The place at which a level is taken up, if it is.
    pub fn from(&self, level: LevelId) -> Option<Position<'a>> {
        match level {
            LevelId::One => self.from1,
            LevelId::Two => self.from2,
        }
    }
}

/// The names that an option was given with, in their order.
pub fn names<'a>(
    rt: &HostRuntime,
    words: &ArgMatches<'a>,
    word: &str,
) -> Result<Vec<&'a str>, AllocError> {
    let mut names = Vec::new(rt.alloc());
    for name in words.get_strs(word).unwrap_or(&[]) {
        names.push(*name)?;
    }
    Ok(names)
}

/// The file of rules, and whether standard input is a list of replies.
pub fn replies_of<'a>(words: &ArgMatches<'a>) -> Result<(Option<&'a str>, bool), &'static str> {
    let mut rules = None;
    let mut has_lines = false;
    for name in words.get_strs("replies").unwrap_or(&[]) {
        if is_input(*name) {
            if has_lines {
                return Err(TWICE);
            }
            has_lines = true;
        } else {
            if rules.is_some() {
                return Err(TWICE);
            }
            rules = Some(*name);
        }
    }
    Ok((rules, has_lines))
}

/// The person or list that is asked if no rule answers. If standard input is a file of the day, nobody is asked.
fn questioned(rt: &HostRuntime, words: &ArgMatches<'_>, has_lines: bool) -> Questioned {
    if has_lines {
        Questioned::Lines
    } else if rt.stdin().is_terminal() && !INPUTS.iter().any(|word| has_input(words, *word)) {
        Questioned::Person
    } else {
        Questioned::Nobody
    }
}

/// Whether an option names standard input.
fn has_input(words: &ArgMatches<'_>, word: &str) -> bool {
    let names = words.get_strs(word).unwrap_or(&[]);
    names.iter().any(|name| is_input(*name))
}

/// The line of a deck that a word gives.
fn position<'a>(words: &ArgMatches<'a>, word: &str) -> Result<Option<Position<'a>>, &'static str> {
    let Some(given) = words.get_str(word) else {
        return Ok(None);
    };
    match Position::read(given) {
        Some(Position { file, line }) => Ok(Some(Position {
            file: file.map(|name| shown_name(name)),
            line,
        })),
        None => Err("--from1 and --from2 take [FILE:]LINE, a line from 1"),
    }
}
