//! `bureau punch --check`: only the errors of plain text, as editors read them.
ghost use Rattle.std.specs.Prelude.{◌≤◌, IfOk};

use crate::deck::read_deck_file;
use crate::encodings::{ForeignText, foreign_text};
use crate::fault::CommandFault;
use crate::punch_messages::push_messages;
use crate::status::{DONE, PERSON_NEEDED};
use clap::ArgMatches;
use s3_host_files::{StandardOutput, shown_name};
use s3_punch::{Begun, CARD_BYTES, CardByte, Punched, punch, text_of_cards};
use s3_refusals::{Shown, wide_text};
use std::alloc::{AllocError, Global};
use std::io::Write;

/// Writes the errors of all files on standard output, a line each, and gives the exit status: 0 if there is none, else 4.
pub fn check_files<'a>(rt: &HostRuntime, matches: &ArgMatches<'a>) -> Result<u8, CommandFault<'a>> {
    if matches.get_flag("report") {
        return Err(CommandFault::Options(
            "--check writes only the errors of a text, and --report its changes; give one of them",
        ));
    }
    let messages = messages_of(rt, matches)?;
    if messages.is_empty() {
        return Ok(DONE);
    }
    match StandardOutput::new(rt).write_all(messages.as_bytes()) {
        Ok(()) => Ok(PERSON_NEEDED),
        Err(error) => Err(CommandFault::of_output(&error)),
    }
}

/// The messages of all files.
fn messages_of<'a>(rt: &HostRuntime, matches: &ArgMatches<'a>) -> Result<String, CommandFault<'a>> {
    let is_plain = matches.get_str("from").is_none();
    let mut messages = String::new(rt.alloc());
    let mut begun = Begun::new(matches.get_flag("remarks"));
    for file in matches.get_strs("file").unwrap_or(&[]) {
        let name: &'a str = *file;
        let bytes = read_deck_file(rt, name)?;
        begun = check_file(
            rt.alloc(),
            &mut messages,
            shown_name(name),
            bytes,
            is_plain,
            begun,
        )?;
    }
    Ok(messages)
}

/// Appends the messages of a file, and returns where the next one begins.
fn check_file(
    alloc: Global,
    messages: &mut String,
    file: &str,
    bytes: Vec<u8>,
    is_plain: bool,
    begun: Begun,
) -> Result<Begun, AllocError>
    requires { begun.cards ≤ 9999 }
    ensures { IfOk result (λ after. after.cards ≤ 9999) }
{
    let text = if is_plain {
        plain_text(alloc, messages, file, bytes)?
    } else {
        text_of_ebcdic(alloc, messages, file, &bytes)?
    };
    let punched = punch(alloc, &text, &begun)?;
    push_wrong(messages, file, is_plain, &text, &punched)?;
    Ok(punched.behind(begun))
}

/// Appends the messages of a file that is punched, or for a plain text that is none by its codes what it is.
fn push_wrong(
    messages: &mut String,
    file: &str,
    is_plain: bool,
    text: &[u8],
    punched: &Punched,
) -> Result<(), AllocError> {
    if punched.faults.is_empty() {
        return Ok(());
    }
    match foreign_text(text) {
        Some(foreign) if is_plain => push_foreign(messages, file, foreign),
        _ => push_messages(messages, file, punched),
    }
}

/// Appends what a file is in place of a plain text.
fn push_foreign(messages: &mut String, file: &str, foreign: ForeignText) -> Result<(), AllocError> {
    let (file, words) = (Shown(file), foreign.words_of_punch());
    writeln!(messages, "{file}:1:1: error: the file {words}")
}

/// Appends an error at the first column of a line.
fn push_error(
    messages: &mut String,
    file: &str,
    line: usize,
    error: &str,
) -> Result<(), AllocError> {
    let file = Shown(file);
    writeln!(messages, "{file}:{line}:1: error: {error}")
}

/// The plain text of a file. One in UTF-16 or UTF-32 is an error, and so is one whose lines end in carriage returns alone; they give none.
fn plain_text(
    alloc: Global,
    messages: &mut String,
    file: &str,
    bytes: Vec<u8>,
) -> Result<Vec<u8>, AllocError> {
    let Some(wide) = wide_text(&bytes) else {
        if foreign_text(&bytes) == Some(ForeignText::CarriageReturns) {
            push_foreign(messages, file, ForeignText::CarriageReturns)?;
            return Ok(Vec::new(alloc));
        }
        return Ok(bytes);
    };
    let (file, family, name) = (Shown(file), wide.family(), wide.name());
    writeln!(
        messages,
        "{file}:1:1: error: the text is in {family}; convert it by `iconv -f {name} -t UTF-8 TEXT > NEW`"
    )?;
    Ok(Vec::new(alloc))
}

/// The text of the cards of a file in EBCDIC, a line each. A card that isn't whole is an error at its line, and then there is no text.
fn text_of_ebcdic(
    alloc: Global,
    messages: &mut String,
    file: &str,
    bytes: &[u8],
) -> Result<Vec<u8>, AllocError> {
    if bytes.len() % CARD_BYTES != 0 {
        let card = bytes.len() / CARD_BYTES + 1;
        push_error(
            messages,
            file,
            card,
            "the card hasn't 80 columns; give a deck of whole cards, without line ends",
        )?;
        return Ok(Vec::new(alloc));
    }
    let cards = text_of_cards(alloc, bytes)?;
    for fault in &cards.faults {
        push_byte(messages, file, fault)?;
    }
    Ok(cards.text)
}

/// Appends a byte that is no character of a card.
fn push_byte(messages: &mut String, file: &str, fault: &CardByte) -> Result<(), AllocError> {
    let file = Shown(file);
    let card = fault.card;
    let column = fault.column;
    let byte = fault.byte;
    writeln!(
        messages,
        "{file}:{card}:{column}: error: the byte {byte:02x} is no character of a card; put one in its place"
    )
}
