//! The programs of a deck in JSON.

use crate::fault::CommandFault;
use s3_cards::Deck;
use s3_deck_json::programs_of_deck;
use s3_decks::DeckText;
use s3_host_files::StandardOutput;
use s3_json_lines::lines_of;
use s3_source_listing::Outcome;
use std::io::Write;

/// Writes a line of JSON for each program of a deck on standard output, and returns what the deck has.
pub fn write_programs<'a>(
    rt: &HostRuntime,
    files: &DeckText<'_>,
    deck: &Deck,
) -> Result<Outcome, CommandFault<'a>> {
    let found = programs_of_deck(rt.alloc(), files, deck)?;
    let text = lines_of(rt.alloc(), &found.values)?;
    match StandardOutput::new(rt).write_all(text.as_slice()) {
        Ok(()) => Ok(found.outcome),
        Err(error) => Err(CommandFault::of_output(&error)),
    }
}
