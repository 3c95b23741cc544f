//! What an F card and a label say, side by side.

use crate::cards::DeckCards;
use s3_cards::Name;
use s3_decks::Columns;
use s3_evidence::{Asked, Found, JobFile, key_of};
use s3_labels::{FileLabel, Organization};
use std::alloc::{AllocError, Global};

/// The columns of the F sheet for the record length.
const RECORD_LENGTH: Columns = Columns { from: 24, to: 27 };

/// The columns of the F sheet for the length of the key.
const KEY_LENGTH: Columns = Columns { from: 29, to: 30 };

/// The column of the F sheet for the index.
const INDEX: Columns = Columns { from: 32, to: 32 };

/// The columns of the F sheet for the first position of the key.
const KEY_START: Columns = Columns { from: 35, to: 38 };

/// The entries of an F card that say something else than a label.
fn differing(alloc: Global, file: &JobFile, label: &FileLabel) -> Result<Vec<Columns>, AllocError> {
    let (key_length, key_start) = key_of(&file.line);
    let mut marked = Vec::new(alloc);
    if file.line.record_length != label.record_length {
        marked.push(RECORD_LENGTH)?;
    }
    if key_length != label.key_length {
        marked.push(KEY_LENGTH)?;
    }
    if file.line.key.is_some() != is_indexed(label) {
        marked.push(INDEX)?;
    }
    if key_start != label.key_start {
        marked.push(KEY_START)?;
    }
    Ok(marked)
}

/// Appends the F card of a file with what differs marked, and what it and the label say.
pub(crate) fn push_layouts(
    text: &mut String,
    alloc: Global,
    cards: DeckCards<'_>,
    asked: &Asked<'_>,
    file: &JobFile,
    label: Name,
) -> Result<(), AllocError> {
    let Found::File(label, _) = asked.found(label) else {
        return Ok(());
    };
    push_marked_card(text, alloc, cards, file, &label)?;
    text.push_str("                      F card   label\n")?;
    push_both(text, file, &label)
}

/// Appends the F card of a file with the entries marked that say something else than its label.
fn push_marked_card(
    text: &mut String,
    alloc: Global,
    cards: DeckCards<'_>,
    file: &JobFile,
    label: &FileLabel,
) -> Result<(), AllocError> {
    let marked = differing(alloc, file, label)?;
    cards.push_named_card(text, "its F card:", usize::from(file.card), &marked)
}

/// Appends what the F card and the label of a file say, side by side.
fn push_both(text: &mut String, file: &JobFile, label: &FileLabel) -> Result<(), AllocError> {
    let (key_length, key_start) = key_of(&file.line);
    push_numbers(
        text,
        "record length",
        file.line.record_length,
        label.record_length,
    )?;
    push_row(
        text,
        "index",
        word_of(file.line.key.is_some()),
        word_of(is_indexed(label)),
    )?;
    push_numbers(
        text,
        "key length   ",
        u16::from(key_length),
        u16::from(label.key_length),
    )?;
    push_numbers(text, "key start    ", key_start, label.key_start)
}

fn is_indexed(label: &FileLabel) -> bool {
    label.organization == Organization::Indexed
}

fn word_of(is_so: bool) -> &'static str {
    if is_so { "yes" } else { " no" }
}

fn push_row(text: &mut String, words: &str, card: &str, label: &str) -> Result<(), AllocError> {
    writeln!(text, "    {words}                {card}     {label}")
}

fn push_numbers(text: &mut String, words: &str, card: u16, label: u16) -> Result<(), AllocError> {
    writeln!(text, "    {words}     {card:>6}  {label:>6}")
}
