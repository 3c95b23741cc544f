//! The deck of some files, of which those of plain text are punched. A file `-` is standard input.
ghost use Rattle.std.specs.Prelude.{◌≤◌, IfOk};

use crate::encodings::deck_encoding_words;
use crate::fault::CommandFault;
use crate::messages::Report;
use crate::punch::report_punched;
use crate::typed_files::TypedFiles;
use s3_decks::{DeckText, cards_len};
use s3_host_files::{WRITTEN, is_input, read_input, read_within, shown_name, stream_at};
use s3_punch::{Begun, Punched, punch};
use s3_refusals::{Shown, begins_as_pack};
use std::alloc::AllocError;
use std::io;
use std::io::{ErrorKind, IsTerminal, Write};

/// The most bytes of a file of a deck.
const TEXT_LIMIT: usize = 4_194_304;

/// What some files are as a deck.
#[derive(Drop)]
pub enum ReadFiles<'a> {
    /// The text of a deck, and the files of plain text among its files, if messages are asked for.
    Deck(DeckText<'a>, TypedFiles<'a>),
    /// A file of plain text is in error, which was reported.
    Faulty,
    /// A file can't be read, which was reported.
    Unread,
}

/// A deck that is being read.
#[derive(Drop)]
struct ReadDeck<'a> {
    cards: DeckText<'a>,
    typed: TypedFiles<'a>,
}

/// A deck after some of its files: the place at which the next one begins, and whether one of them is in error.
#[derive(Clone, Copy)]
struct Standing {
    begun: Begun,
    is_faulty: bool,
}

/// Why `--plain-text` isn't taken.
pub const PLAIN_INPUT: &str =
    "--plain-text goes with the file -, standard input; a file whose name ends in .rpg or .punch is plain text";

/// Whether a file has plain text, of which a deck is punched: its name ends in `.rpg` or `.punch`, in capitals or small
/// letters; standard input if it is said to be so.
pub fn is_plain_text(path: &str, is_input_plain: bool) -> bool {
    ends_in(path, b".rpg") || ends_in(path, b".punch") || (is_input_plain && is_input(path))
}

/// Whether a name ends in these characters, in capitals or small letters.
fn ends_in(path: &str, end: &[u8]) -> bool {
    let bytes = path.as_bytes();
    let front = bytes.len().saturating_sub(end.len());
    match bytes.get(front..) {
        Some(last) => last.eq_ignore_ascii_case(end),
        None => false,
    }
}

/// The deck of some files, one after another, given whether standard input has plain text. Each file that can't be read is reported, and all
/// errors of those of plain text.
pub fn read_deck<'a>(
    rt: &'a HostRuntime,
    paths: &[&'a str],
    is_input_plain: bool,
    report: Report,
) -> Result<ReadFiles<'a>, CommandFault<'a>> {
    let mut deck = ReadDeck {
        cards: DeckText::new(rt.alloc()),
        typed: TypedFiles::new(rt.alloc()),
    };
    let mut standing = Standing {
        begun: Begun::new(false),
        is_faulty: false,
    };
    let mut is_unread = false;
    for path in paths {
        let name: &'a str = *path;
        match read_deck_file(rt, name) {
            Ok(bytes) => match deck_encoding_words(&bytes) {
                Some(words) => {
                    tell_encoding(rt, report, shown_name(name), words);
                    standing.is_faulty = true;
                }
                None if is_plain_text(name, is_input_plain) => {
                    standing = add_text(rt, &mut deck, standing, report, shown_name(name), bytes)?;
                }
                None => standing = add_cards(&mut deck, standing, shown_name(name), bytes)?,
            },
            Err(CommandFault::File(name, error)) => {
                let _ = CommandFault::File(name, error).tell(&mut rt.stderr());
                is_unread = true;
            }
            Err(fault) => return Err(fault),
        }
    }
    Ok(deck.finish(is_unread, standing.is_faulty))
}

/// Reports a file in an encoding in which no deck is read.
fn tell_encoding(rt: &HostRuntime, report: Report, name: &str, words: &str) {
    let name = Shown(name);
    let _ = match report {
        Report::Sentences => writeln!(rt.stderr(), "{name} {words}."),
        Report::Messages => writeln!(rt.stderr(), "{name}:1:1: error: the file {words}"),
    };
}

impl<'a> ReadDeck<'a> {
    /// What the files are, given whether one of them can't be read, and whether one is in error.
    fn finish(self, is_unread: bool, is_faulty: bool) -> ReadFiles<'a> {
        let ReadDeck { cards, typed } = self;
        if is_unread {
            ReadFiles::Unread
        } else if is_faulty {
            ReadFiles::Faulty
        } else {
            ReadFiles::Deck(cards, typed)
        }
    }
}

/// The bytes of a file of a deck, or of standard input. A pack is refused, and a file that is also standard output or standard error.
pub fn read_deck_file<'a>(rt: &HostRuntime, name: &'a str) -> Result<Vec<u8>, CommandFault<'a>> {
    if is_input(name) {
        tell_waiting(rt);
        return text_of(read_input(rt, TEXT_LIMIT), shown_name(name));
    }
    if let Some(stream) = stream_at(rt, name, &WRITTEN) {
        return Err(CommandFault::Stream(name, stream));
    }
    text_of(read_within(rt, name, TEXT_LIMIT), name)
}

/// Reports what a deck from standard input waits for, if that is a terminal.
pub fn tell_waiting(rt: &HostRuntime) {
    if rt.stdin().is_terminal() {
        let _ = writeln!(
            rt.stderr(),
            "cards are read from this terminal, a line each: type them, and Control-D at their end"
        );
    }
}

/// The bytes that were read of a file of this name, if a deck may have them.
fn text_of<'a>(read: io::Result<Vec<u8>>, name: &'a str) -> Result<Vec<u8>, CommandFault<'a>> {
    match read {
        Ok(bytes) if begins_as_pack(&bytes) => Err(CommandFault::Pack(name)),
        Ok(bytes) => Ok(bytes),
        Err(error) if error.kind() == ErrorKind::FileTooLarge => Err(CommandFault::TooLarge(name)),
        Err(error) => Err(CommandFault::of(&error, name)),
    }
}

/// Puts a file of cards after those of a deck, without the blank lines at its end.
fn add_cards<'a>(
    deck: &mut ReadDeck<'a>,
    standing: Standing,
    name: &'a str,
    bytes: Vec<u8>,
) -> Result<Standing, AllocError>
    requires { standing.begun.cards ≤ 9999 }
    ensures { IfOk result (λ after. after.begun.cards ≤ 9999) }
{
    let mut bytes = bytes;
    bytes.truncate(cards_len(&bytes));
    let begun = standing.begun.behind_deck(&bytes);
    deck.cards.add(name, bytes)?;
    Ok(Standing {
        begun,
        is_faulty: standing.is_faulty,
    })
}

/// Puts the cards that are punched of a file after those of a deck, and reports the errors of the file.
fn add_text<'a>(
    rt: &HostRuntime,
    deck: &mut ReadDeck<'a>,
    standing: Standing,
    report: Report,
    name: &'a str,
    bytes: Vec<u8>,
) -> Result<Standing, AllocError>
    requires { standing.begun.cards ≤ 9999 }
    ensures { IfOk result (λ after. after.begun.cards ≤ 9999) }
{
    let punched = punch(rt.alloc(), &bytes, &standing.begun)?;
    let is_faulty = report_punched(rt, report, name, &punched)?;
    let begun = punched.behind(standing.begun);
    let Punched {
        text,
        origins,
        changes: _changes,
        faults: _faults,
        part: _part,
    } = punched;
    deck.cards.add_punched(name, text, &origins)?;
    if let Report::Messages = report {
        deck.typed.add(rt.alloc(), name, bytes)?;
    }
    Ok(Standing {
        begun,
        is_faulty: is_faulty || standing.is_faulty,
    })
}
