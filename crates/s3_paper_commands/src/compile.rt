//! `bureau compile`: the listing of each source of a deck (docs/LISTINGS.md).
ghost use Rattle.std.specs.Prelude.{◌≤◌};

use crate::deck::{PLAIN_INPUT, ReadFiles, read_deck};
use crate::fault::CommandFault;
use crate::messages::{Report, write_messages};
use crate::programs::write_programs;
use crate::status::{DONE, FILE_FAILED, FILE_WRONG, OPTIONS_WRONG, PERSON_NEEDED, REFUSED};
use crate::typed_files::TypedFiles;
use crate::unlisted::report_unlisted;
use crate::unread::words_of_unread;
use crate::words::{CommandWords, Example, Status, Takes, Word};
use clap::ArgMatches;
use s3_cards::{Deck, DeckFault};
use s3_decks::DeckText;
use s3_host_files::{StandardOutput, is_input};
use s3_source_listing::{Outcome, write_listing};
use std::alloc::{AllocError, Global};
use std::io::Write;

/// `bureau compile` and its options.
pub const COMPILE: CommandWords = CommandWords {
    name: "compile",
    about: "Lists the sources of a deck with their diagnostics, and compiles nothing into a library",
    aliases: &[],
    statuses: &[
        Status {
            number: DONE,
            meaning: "each source compiles",
        },
        Status {
            number: REFUSED,
            meaning: "the files are no deck, or memory ran out",
        },
        OPTIONS_WRONG,
        FILE_WRONG,
        Status {
            number: PERSON_NEEDED,
            meaning: "a source has errors, or with --strict warnings; or a job has statements in error",
        },
    ],
    examples: &[
        Example {
            line: "bureau compile billing.rpg",
            purpose: "Lists a deck with its errors",
        },
        Example {
            line: "bureau compile --cross-reference --strict billing.rpg",
            purpose: "Lists also where each name is used, and takes warnings as errors",
        },
        Example {
            line: "bureau compile --json billing.rpg | jq '.messages[]'",
            purpose: "Prints the errors and warnings for other programs",
        },
    ],
    words: &[
        Word {
            name: "file",
            takes: Takes::FollowingFiles,
            help: "The deck, or - for standard input; a source comes after // LOAD $RPG,F1 and // RUN; several files are one deck; a file whose name ends in .rpg or .punch is plain text",
        },
        Word {
            name: "cross-reference",
            takes: Takes::Nothing,
            help: "Lists each name and each indicator with all cards that name it",
        },
        Word {
            name: "strict",
            takes: Takes::Nothing,
            help: "Exits with status 4 also if a source has warnings",
        },
        Word {
            name: "messages",
            takes: Takes::Nothing,
            help: "Prints instead a line for each error of a source, or for each warning if it has none: FILE:LINE:COLUMN: TEXT, as editors read them",
        },
        Word {
            name: "json",
            takes: Takes::Nothing,
            help: "Prints instead a JSON object for each program, a line each: its messages, files, fields, indicators and labels",
        },
        Word {
            name: "plain-text",
            takes: Takes::Nothing,
            help: "Standard input, the file -, is plain text",
        },
    ],
};

/// What is printed of a deck.
#[derive(Clone, Copy)]
enum Form {
    /// A listing.
    Listing,
    /// A line for each message.
    Messages,
    /// An object for each program.
    Objects,
}

impl Form {
    fn of<'a>(matches: &ArgMatches<'_>) -> Result<Form, CommandFault<'a>> {
        match (matches.get_flag("messages"), matches.get_flag("json")) {
            (true, true) => Err(CommandFault::Options(
                "--messages and --json are two forms of a listing; give one of them",
            )),
            (true, false) => Ok(Form::Messages),
            (false, true) => Ok(Form::Objects),
            (false, false) => Ok(Form::Listing),
        }
    }

    /// How the errors of files are reported.
    fn report(self) -> Report {
        match self {
            Form::Messages => Report::Messages,
            Form::Listing | Form::Objects => Report::Sentences,
        }
    }
}

/// What the options ask for.
#[derive(Clone, Copy)]
struct Order {
    /// Names and indicators are listed with all cards that name them.
    has_references: bool,
    /// A source with warnings waits for a person, as one with diagnostics does.
    is_strict: bool,
    /// Standard input is plain text.
    is_input_plain: bool,
    /// What is printed.
    form: Form,
}

impl Order {
    fn of<'a>(matches: &ArgMatches<'_>) -> Result<Order, CommandFault<'a>> {
        Ok(Order {
            has_references: matches.get_flag("cross-reference"),
            is_strict: matches.get_flag("strict"),
            is_input_plain: is_input_plain(matches)?,
            form: Form::of(matches)?,
        })
    }
}

/// Whether standard input is plain text. It must be one of the files then.
fn is_input_plain<'a>(matches: &ArgMatches<'_>) -> Result<bool, CommandFault<'a>> {
    let files = matches.get_strs("file").unwrap_or(&[]);
    let is_plain = matches.get_flag("plain-text");
    if is_plain && !files.iter().any(|file| is_input(*file)) {
        return Err(CommandFault::Options(PLAIN_INPUT));
    }
    Ok(is_plain)
}

/// Does what the options of `bureau compile` ask, and gives the exit status: 0 if every source compiles, 4 if a source has diagnostics or a
/// job has faulty statements, or with `--strict` if a source has warnings, 3 if a file can't be read or the listing can't be written, 2 if
/// two forms of a listing are asked for, 1 if the files are no deck, one of them is also standard output or error, or memory runs out.
pub fn compile_files<'a>(rt: &'a HostRuntime, matches: &ArgMatches<'a>) -> u8
    ensures { result ≤ 4 }
{
    match list_deck(rt, matches) {
        Ok(status) => status.min(PERSON_NEEDED),
        Err(fault) => fault.tell(&mut rt.stderr()),
    }
}

/// Lists a deck on standard output, and gives the exit status.
fn list_deck<'a>(rt: &'a HostRuntime, matches: &ArgMatches<'a>) -> Result<u8, CommandFault<'a>> {
    let order = Order::of(matches)?;
    let files = matches.get_strs("file").unwrap_or(&[]);
    match read_deck(rt, files, order.is_input_plain, order.form.report())? {
        ReadFiles::Deck(text, typed) => list_text(rt, &text, &typed, order, files.len() == 1),
        ReadFiles::Faulty => Ok(REFUSED),
        ReadFiles::Unread => Ok(FILE_FAILED),
    }
}

/// Lists the deck of a text on standard output, and gives the exit status.
fn list_text<'a>(
    rt: &HostRuntime,
    text: &DeckText<'_>,
    typed: &TypedFiles<'_>,
    order: Order,
    is_one_file: bool,
) -> Result<u8, CommandFault<'a>> {
    match Deck::read(rt.alloc(), text.text()) {
        Ok(deck) => {
            let outcome = match order.form {
                Form::Listing => write_on_output(rt, text, &deck, order)?,
                Form::Messages => write_messages(rt, text, typed, &deck)?,
                Form::Objects => write_programs(rt, text, &deck)?,
            };
            if let Report::Sentences = order.form.report() {
                report_unlisted(rt, text, &deck)?;
            }
            Ok(status_of(rt, outcome, order.is_strict))
        }
        Err(DeckFault::NoMemory) => Err(CommandFault::NoMemory),
        Err(DeckFault::At(..)) => {
            report_unread(rt, text, order.form.report(), is_one_file)?;
            Ok(REFUSED)
        }
    }
}

/// Writes a listing on standard output, and returns what it has.
fn write_on_output<'a>(
    rt: &HostRuntime,
    text: &DeckText<'_>,
    deck: &Deck,
    order: Order,
) -> Result<Outcome, CommandFault<'a>> {
    match write_listing(
        rt.alloc(),
        &mut StandardOutput::new(rt),
        text,
        deck,
        order.has_references,
    ) {
        Ok(outcome) => Ok(outcome),
        Err(error) => Err(CommandFault::of_output(&error)),
    }
}

/// The exit status of a listing. It reports a deck without a source.
fn status_of(rt: &HostRuntime, outcome: Outcome, is_strict: bool) -> u8 {
    if outcome.faults > 0 || (is_strict && outcome.warnings > 0) {
        return PERSON_NEEDED;
    }
    if outcome.sources == 0 {
        let _ = writeln!(
            rt.stderr(),
            "The deck has no source: no job of it loads $RPG. A source is in a job: put // LOAD $RPG,F1 and // RUN before it, and /* after it."
        );
    }
    DONE
}

/// Reports why the files are no deck: which cards can't be read, and what to do.
fn report_unread<'a>(
    rt: &HostRuntime,
    text: &DeckText<'_>,
    report: Report,
    is_one_file: bool,
) -> Result<(), CommandFault<'a>> {
    let words = words_of_unread(rt.alloc(), text, report, is_one_file)?;
    let _ = rt.stderr().write_all(words.as_bytes());
    Ok(())
}
