//! `bureau punch`: a deck of plain text, on standard output. docs/PUNCHING.md has its rules.
ghost use Rattle.std.specs.Prelude.{◌≤◌};

use crate::deck::read_deck_file;
use crate::encodings::{ForeignText, foreign_text};
use crate::fault::CommandFault;
use crate::messages::Report;
use crate::punch_check::check_files;
use crate::punch_messages::{missing_statements, push_messages, unprintable};
use crate::status::{DONE, FILE_WRONG, OPTIONS_WRONG, PERSON_NEEDED, REFUSED};
use crate::words::{Choice, CommandWords, Example, Status, Takes, Word};
use clap::ArgMatches;
use s3_host_files::{StandardOutput, shown_name};
use s3_punch::{Begun, CARD_BYTES, CardByte, LineChange, Punched, punch, text_of_cards};
use s3_refusals::{Shown, wide_text};
use std::alloc::{AllocError, Global};
use std::io::Write;

/// The forms of files that aren't plain text.
const FORMS: &'static [Choice] = &[Choice {
    name: "ebcdic80",
    help: "Cards of 80 bytes in EBCDIC, end to end, as simulators keep decks",
}];

/// `bureau punch` and its options.
pub const PUNCH: CommandWords = CommandWords {
    name: "punch",
    about: "Makes a deck of plain text: capitals, tabs to their columns, no comments; on standard output",
    aliases: &[],
    statuses: &[
        Status {
            number: DONE,
            meaning: "the deck is written, or with --check the text has no errors",
        },
        Status {
            number: REFUSED,
            meaning: "the text has errors, or a file is a pack",
        },
        OPTIONS_WRONG,
        FILE_WRONG,
        Status {
            number: PERSON_NEEDED,
            meaning: "with --check, the text has errors",
        },
    ],
    examples: &[
        Example {
            line: "bureau punch billing.rpg > billing.deck",
            purpose: "Makes a deck of plain text",
        },
        Example {
            line: "iconv -f latin1 -t utf-8 old.txt | bureau punch - > new.deck",
            purpose: "Makes a deck of a text in another encoding",
        },
        Example {
            line: "bureau punch --from ebcdic80 old.cards > new.deck",
            purpose: "Makes a deck of card images in EBCDIC",
        },
        Example {
            line: "bureau punch --report old.txt > new.deck",
            purpose: "Reports each line that was changed or left out",
        },
        Example {
            line: "bureau punch --check billing.rpg",
            purpose: "Writes only the errors of a text, for an editor",
        },
    ],
    words: &[
        Word {
            name: "file",
            takes: Takes::FollowingFiles,
            help: "The text, or - for standard input; several files are one deck",
        },
        Word {
            name: "from",
            takes: Takes::OneOf("FORM", FORMS),
            help: "What the files are, if they aren't plain text",
        },
        Word {
            name: "remarks",
            takes: Takes::Nothing,
            help: "Blanks columns 60 to 74 of C cards",
        },
        Word {
            name: "report",
            takes: Takes::Nothing,
            help: "Lists each line that was changed or left out",
        },
        Word {
            name: "check",
            takes: Takes::Nothing,
            help: "Writes no deck, only the errors, FILE:LINE:COLUMN: error: TEXT, as editors read them",
        },
    ],
};

/// How many lines were changed, and how many left out.
#[derive(Clone, Copy)]
struct Counted {
    changed: usize,
    left_out: usize,
}

/// The deck of all files.
#[derive(Drop)]
struct WholeDeck {
    text: Vec<u8>,
    counted: Counted,
    is_faulty: bool,
}

/// Does what the options of `bureau punch` ask, and gives the exit status: 0 if the deck is written, 1 if the text is in error, a file is
/// also standard output or error, or memory ran out, 3 if a file can't be read or standard output can't be written, 4 if with `--check` the
/// text is in error.
pub fn punch_files<'a>(rt: &HostRuntime, matches: &ArgMatches<'a>) -> u8
    ensures { result ≤ 4 }
{
    let done = if matches.get_flag("check") {
        check_files(rt, matches)
    } else {
        write_deck(rt, matches)
    };
    match done {
        Ok(status) => status.min(PERSON_NEEDED),
        Err(fault) => fault.tell(&mut rt.stderr()),
    }
}

/// Writes the deck of all files and reports the number of changes, or reports the errors. It returns the exit status.
fn write_deck<'a>(rt: &HostRuntime, matches: &ArgMatches<'a>) -> Result<u8, CommandFault<'a>> {
    let stacked = stacked(rt, matches)?;
    if stacked.is_faulty {
        return Ok(REFUSED);
    }
    match StandardOutput::new(rt).write_all(&stacked.text) {
        Ok(()) => {
            tell_count(rt, stacked.counted);
            Ok(DONE)
        }
        Err(error) => Err(CommandFault::of_output(&error)),
    }
}

/// Punches all files, one after another. It reports their errors, and each change if that is asked for.
fn stacked<'a>(rt: &HostRuntime, matches: &ArgMatches<'a>) -> Result<WholeDeck, CommandFault<'a>> {
    let alloc = rt.alloc();
    let mut begun = Begun::new(matches.get_flag("remarks"));
    let mut stacked = WholeDeck {
        text: Vec::new(alloc),
        counted: Counted::NONE,
        is_faulty: false,
    };
    for file in matches.get_strs("file").unwrap_or(&[]) {
        let name: &'a str = *file;
        let bytes = read_deck_file(rt, name)?;
        let is_plain = matches.get_str("from").is_none();
        let text = if is_plain {
            plain_text(rt, shown_name(name), bytes, &mut stacked.is_faulty)
        } else {
            text_of_ebcdic(rt, shown_name(name), &bytes, &mut stacked.is_faulty)?
        };
        let punched = punch(alloc, &text, &begun)?;
        tell_wrong(rt, shown_name(name), is_plain, &text, &punched);
        if matches.get_flag("report") {
            tell_changes(rt, shown_name(name), &punched.changes);
        }
        begun = punched.behind(begun);
        stacked.add(&punched)?;
    }
    Ok(stacked)
}

/// Reports the errors of a file, or for a plain text that is none by its codes what it is.
fn tell_wrong(rt: &HostRuntime, file: &str, is_plain: bool, text: &[u8], punched: &Punched) {
    if punched.faults.is_empty() {
        return;
    }
    match foreign_text(text) {
        Some(foreign) if is_plain => tell_foreign(rt, file, foreign),
        _ => tell_faults(rt, file, punched),
    }
}

/// The plain text of a file. It reports a text in UTF-16 or UTF-32, and one whose lines end in carriage returns alone, notes that it is in
/// error, and gives none of it.
fn plain_text(rt: &HostRuntime, file: &str, bytes: Vec<u8>, is_faulty: &mut bool) -> Vec<u8> {
    let Some(wide) = wide_text(&bytes) else {
        if foreign_text(&bytes) == Some(ForeignText::CarriageReturns) {
            *is_faulty = true;
            tell_foreign(rt, file, ForeignText::CarriageReturns);
            return Vec::new(rt.alloc());
        }
        return bytes;
    };
    *is_faulty = true;
    let (file, family, name) = (Shown(file), wide.family(), wide.name());
    let _ = writeln!(
        rt.stderr(),
        "{file}: the text is in {family}; convert it by `iconv -f {name} -t UTF-8 TEXT > NEW`, and punch that."
    );
    Vec::new(rt.alloc())
}

/// Reports what a file is in place of a plain text.
fn tell_foreign(rt: &HostRuntime, file: &str, foreign: ForeignText) {
    let (file, words) = (Shown(file), foreign.words_of_punch());
    let _ = writeln!(rt.stderr(), "{file}: the file {words}.");
}

/// The text of the cards of a file in EBCDIC. It reports the errors of the file, and notes that it is in error.
fn text_of_ebcdic(
    rt: &HostRuntime,
    file: &str,
    bytes: &[u8],
    is_faulty: &mut bool,
) -> Result<Vec<u8>, AllocError> {
    let cards = text_of_cards(rt.alloc(), bytes)?;
    if bytes.len() % CARD_BYTES != 0 {
        *is_faulty = true;
        tell_length(rt, file, bytes.len());
        return Ok(Vec::new(rt.alloc()));
    }
    if !cards.faults.is_empty() {
        *is_faulty = true;
        tell_bytes(rt, file, &cards.faults);
    }
    Ok(cards.text)
}

/// Reports that a file hasn't whole cards.
fn tell_length(rt: &HostRuntime, file: &str, length: usize) {
    let file = Shown(file);
    let cards = length / CARD_BYTES;
    let rest = length % CARD_BYTES;
    let length_words = if length == 1 { "byte is" } else { "bytes are" };
    let (cards_word, rest_word) = (
        if cards == 1 { "card" } else { "cards" },
        if rest == 1 { "byte" } else { "bytes" },
    );
    let _ = writeln!(
        rt.stderr(),
        "{file}: {length} {length_words} {cards} {cards_word} of 80 columns and {rest} {rest_word} more; give a deck of whole cards, without line ends."
    );
}

/// Reports each byte that is no character of a card.
fn tell_bytes(rt: &HostRuntime, file: &str, faults: &[CardByte]) {
    for fault in faults {
        let card = fault.card;
        let column = fault.column;
        let byte = fault.byte;
        let file = Shown(file);
        let _ = writeln!(
            rt.stderr(),
            "{file}, card {card}, column {column}: the byte {byte:02x} is no character of a card; put one in its place."
        );
    }
}

impl WholeDeck {
    /// Appends a text. The last line of the text before it gets its end.
    fn add(&mut self, punched: &Punched) -> Result<(), AllocError> {
        self.is_faulty |= !punched.faults.is_empty();
        self.counted = self.counted.with(&punched.changes);
        if punched.text.is_empty() {
            return Ok(());
        }
        if self.text.last().is_some_and(|last| *last != b'\n') {
            self.text.push(b'\n')?;
        }
        self.text.extend_from_slice(&punched.text)
    }
}

impl Counted {
    const NONE: Counted = Counted {
        changed: 0,
        left_out: 0,
    };

    fn is_nothing(self) -> bool {
        self.changed == 0 && self.left_out == 0
    }

    /// The counts with some changes more.
    fn with(self, changes: &[LineChange]) -> Counted {
        let left_out = changes
            .iter()
            .filter(|change| change.changes.is_left_out)
            .count();
        Counted {
            changed: self
                .changed
                .saturating_add(changes.len().saturating_sub(left_out)),
            left_out: self.left_out.saturating_add(left_out),
        }
    }
}

/// Reports all errors of a file.
fn tell_faults(rt: &HostRuntime, file: &str, punched: &Punched) {
    for fault in &punched.faults {
        let line = fault.line;
        let column = fault.column;
        let reason = fault.reason;
        let file = Shown(file);
        let _ = match unprintable(reason) {
            Some(code) => writeln!(
                rt.stderr(),
                "{file}, line {line}, column {column}: no card has the unprintable character U+{code:04X}; take it out."
            ),
            None => writeln!(
                rt.stderr(),
                "{file}, line {line}, column {column}: {reason}."
            ),
        };
    }
    if let Some(words) = missing_statements(punched) {
        let file = Shown(file);
        let _ = writeln!(rt.stderr(), "{file}, line 1: {words}.");
    }
}

/// Reports the errors of a file that was punched; in sentences also how many of its lines were changed and left out, if it has no error.
/// It returns whether the file is in error.
pub fn report_punched(
    rt: &HostRuntime,
    report: Report,
    file: &str,
    punched: &Punched,
) -> Result<bool, AllocError> {
    match report {
        Report::Sentences => Ok(tell_punched(rt, file, punched)),
        Report::Messages => {
            let mut text = String::new(rt.alloc());
            push_messages(&mut text, file, punched)?;
            let _ = rt.stderr().write_all(text.as_bytes());
            Ok(!punched.faults.is_empty())
        }
    }
}

/// Reports each line of a file that was changed.
fn tell_changes(rt: &HostRuntime, file: &str, changes: &[LineChange]) {
    for change in changes {
        let line = change.line;
        let changes = change.changes;
        let file = Shown(file);
        let _ = writeln!(rt.stderr(), "{file}, line {line}: {changes}");
    }
}

/// Reports how many lines were changed and left out, if any were.
fn tell_count(rt: &HostRuntime, counted: Counted) {
    if counted.is_nothing() {
        return;
    }
    let changed = counted.changed;
    let left_out = counted.left_out;
    let _ = writeln!(
        rt.stderr(),
        "lines changed: {changed}; lines left out: {left_out}"
    );
}

/// Reports the errors of a file that was punched, or else how many of its lines were changed and left out, if any were. It returns
/// whether the file is in error.
pub fn tell_punched(rt: &HostRuntime, file: &str, punched: &Punched) -> bool {
    if tell_errors(rt, file, punched) {
        return true;
    }
    let counted = Counted::NONE.with(&punched.changes);
    if !counted.is_nothing() {
        let changed = counted.changed;
        let left_out = counted.left_out;
        let file = Shown(file);
        let _ = writeln!(
            rt.stderr(),
            "{file} is punched; lines changed: {changed}; lines left out: {left_out}"
        );
    }
    false
}

/// Reports the errors of a file that was punched. It returns whether the file is in error.
pub fn tell_errors(rt: &HostRuntime, file: &str, punched: &Punched) -> bool {
    let is_faulty = !punched.faults.is_empty();
    if is_faulty {
        tell_faults(rt, file, punched);
    }
    is_faulty
}
