//! Messages as editors read them: `FILE:LINE:COLUMN: TEXT`, a line each.

use crate::fault::CommandFault;
use crate::typed_files::TypedFiles;
use s3_cards::{COLUMNS, Deck};
use s3_decks::{DeckText, FilePlace};
use s3_host_files::StandardOutput;
use s3_punch::CardColumns;
use s3_refusals::Shown;
use s3_source_listing::{CardMessage, HIDDEN, Outcome, messages_of_deck};
use std::alloc::{AllocError, Global};
use std::io::Write;

/// How the errors of files are reported.
#[derive(Clone, Copy)]
pub enum Report {
    /// In sentences, as `day.rpg, line 3, column 8: ..`, with what is to be done.
    Sentences,
    /// Only as messages for editors.
    Messages,
}

/// Appends the place of a message, and what follows it: `day.rpg:3:8: `.
pub fn push_spot(
    text: &mut String,
    place: &FilePlace<'_>,
    column: usize,
) -> Result<(), AllocError> {
    let file = Shown(place.file);
    let line = place.line;
    write!(text, "{file}:{line}:{column}: ")
}

/// Appends a message.
fn push_message(
    text: &mut String,
    alloc: Global,
    files: &DeckText<'_>,
    typed: &TypedFiles<'_>,
    message: &CardMessage,
) -> Result<(), AllocError> {
    let Some(place) = files.place_of(message.card).place else {
        return Ok(());
    };
    let columns = CardColumns {
        from: message.columns.from.min(COLUMNS),
        to: message.columns.to,
    };
    let column = typed.column_at(alloc, &place, !message.is_statement, columns)?;
    push_spot(text, &place, column)?;
    message.push_text(text)?;
    text.push('\n')
}

/// Writes the messages of a deck on standard output, and returns what the deck has.
pub fn write_messages<'a>(
    rt: &HostRuntime,
    files: &DeckText<'_>,
    typed: &TypedFiles<'_>,
    deck: &Deck,
) -> Result<Outcome, CommandFault<'a>> {
    let alloc = rt.alloc();
    let found = messages_of_deck(alloc, deck)?;
    let mut text = String::new(alloc);
    for message in &found.messages {
        push_message(&mut text, alloc, files, typed, message)?;
    }
    if let Err(error) = StandardOutput::new(rt).write_all(text.as_bytes()) {
        return Err(CommandFault::of_output(&error));
    }
    if found.hides_others {
        // a line without a place, so that no editor goes there
        let _ = writeln!(rt.stderr(), "{HIDDEN}");
    }
    Ok(found.outcome)
}
