//! The listing of one source.
ghost use Rattle.std.specs.Prelude.{◌≡◌, ◌≢◌, ◌≤◌, [], length, slice_range, IfOk};
ghost use Rattle.s3_blame.specs.Inner.Sources.{found_from};
ghost use Rattle.s3_sheets.specs.Inner.Parts.{faulty_entries};
ghost use Rattle.s3_sheets.specs.Lines.{lines_of};
ghost use Rattle.s3_sheets.specs.Sheets.{sheet_diagnostics};
ghost use Rattle.s3_warnings.specs.Inner.Warnings.{warnings as warnings_spec};

use crate::card_lines::{push_card, push_diagnostic, push_reason, push_ruler};
use crate::margin::{Margin, Numbers};
use crate::notes::{CardNotes, notes_of_cards, notes_under};
use crate::tables::push_tables;
use crate::warned::{CardWarnings, count_of, push_warnings, warnings_of_cards};
use s3_blame::{FaultyEntry, entries_of, told};
use s3_cards::{Card, Deck, trim_end};
use s3_decks::{DeckText, keyword_columns, program_of, push_characters};
use s3_lines::Diagnostic;
use s3_reasons::{Reasons, reasons_of};
use s3_sheets::{SheetFault, read_sheets};
use s3_warnings::{Warning, warnings_of};
use std::alloc::{AllocError, Global};

/// Where a source is in its deck, by places from 0.
#[derive(Clone, Copy)]
pub struct SourceRange {
    /// The place of its first card, which is the number of the RUN card.
    pub from: usize,
    /// The place after its last card.
    pub to: usize,
}

/// The cards of a deck, with the numbers before them.
#[derive(Clone, Copy)]
struct NumberedCards<'a> {
    files: &'a DeckText<'a>,
    deck: &'a Deck,
    margin: Margin,
}

/// What is wrong with a source.
#[derive(Drop)]
pub(crate) struct Faults {
    pub diagnostics: Vec<Diagnostic>,
    pub entries: Vec<FaultyEntry>,
}

/// The notes under the cards of a source.
#[derive(Drop)]
struct SourceNotes {
    diagnostics: CardNotes,
    reasons: Reasons,
    warnings: CardWarnings,
}

/// How much a listing finds in a source.
#[derive(Clone, Copy)]
pub struct Found {
    /// How many diagnostics it has.
    pub diagnostics: usize,
    /// How many warnings it has.
    pub warnings: usize,
}

impl Found {
    /// No source, and so nothing.
    pub const NOTHING: Found = Found {
        diagnostics: 0,
        warnings: 0,
    };
}

/// Appends the name of the program that a source makes.
pub fn push_program(text: &mut String, cards: &[Card]) -> Result<(), AllocError> {
    push_characters(text, trim_end(&program_of(cards).codes))
}

/// What is printed if diagnostics hide others.
pub const HIDDEN: &str = "05 to 12 are hidden: they are looked for once 01 to 04 and 13 are mended";

/// Whether the diagnostic of a number is one of those that hide the others.
pub(crate) fn hides(number: u8) -> bool {
    number < 5 || number == 13
}

/// Appends what is wrong with a card, by its number from 1.
fn push_notes(
    text: &mut String,
    margin: Margin,
    notes: &SourceNotes,
    card: u16,
) -> Result<(), AllocError> {
    for note in notes_under(&notes.diagnostics, card) {
        push_diagnostic(text, margin, note.number, &note.marked)?;
        push_reason(text, margin, notes.reasons.of(card, note.number))?;
    }
    Ok(())
}

/// Appends the name of the file of a card, by its number from 1, if the card before it is of another file.
fn push_next_file(
    text: &mut String,
    files: &DeckText<'_>,
    number: usize,
) -> Result<(), AllocError> {
    let (Some(place), Some(before)) = (
        files.place_of(number).place,
        files.place_of(number.saturating_sub(1)).place,
    ) else {
        return Ok(());
    };
    if place.file == before.file {
        return Ok(());
    }
    let file = place.file;
    writeln!(text, "{file}:")
}

/// Appends a card of a deck, by its number from 1, and what is wrong with it.
fn push_source_card(
    text: &mut String,
    alloc: Global,
    cards: &NumberedCards<'_>,
    notes: &SourceNotes,
    number: u16,
) -> Result<(), AllocError> {
    let number_in_deck = usize::from(number);
    let Some(card) = cards.deck.card(number_in_deck.saturating_sub(1)) else {
        return Ok(());
    };
    let margin = cards.margin;
    push_next_file(text, cards.files, number_in_deck)?;
    push_card(text, margin, Numbers::of(cards.files, number_in_deck), card)?;
    push_notes(text, margin, notes, number)?;
    push_warnings(text, alloc, margin, &notes.warnings, number)
}

/// Appends the cards of a source, each with what is wrong with it.
fn push_cards(
    text: &mut String,
    alloc: Global,
    cards: &NumberedCards<'_>,
    range: SourceRange,
    notes: &SourceNotes,
) -> Result<(), AllocError>
    requires { range.to ≤ 9_999 }
{
    for place in range.from..range.to {
        push_source_card(text, alloc, cards, notes, place as u16 + 1)?;
    }
    Ok(())
}

/// Appends the RUN card and its numbers, if it has any.
fn push_run(
    text: &mut String,
    cards: &NumberedCards<'_>,
    notes: &SourceNotes,
    run_card: u16,
) -> Result<(), AllocError> {
    let found = notes_under(&notes.diagnostics, run_card);
    if found.is_empty() {
        return Ok(());
    }
    let number = usize::from(run_card);
    let Some(card) = cards.deck.card(number.saturating_sub(1)) else {
        return Ok(());
    };
    let margin = cards.margin;
    push_card(text, margin, Numbers::of(cards.files, number), card)?;
    for note in found {
        push_diagnostic(text, margin, note.number, &[keyword_columns(card)])?;
        push_reason(text, margin, notes.reasons.of(run_card, note.number))?;
    }
    Ok(())
}

/// Appends how many diagnostics there are, and whether others may be hidden.
fn push_count(text: &mut String, found: &[Diagnostic]) -> Result<(), AllocError> {
    let count = found.len();
    match count {
        0 => text.push_str("\nno diagnostics\n")?,
        1 => text.push_str("\n1 diagnostic\n")?,
        _ => writeln!(text, "\n{count} diagnostics")?,
    }
    if !found.iter().any(|diagnostic| hides(diagnostic.number)) {
        return Ok(());
    }
    writeln!(text, "{HIDDEN}")
}

/// Appends how many warnings there are, if any.
fn push_warning_count(text: &mut String, count: usize) -> Result<(), AllocError> {
    match count {
        0 => Ok(()),
        1 => text.push_str("1 warning\n"),
        _ => writeln!(text, "{count} warnings"),
    }
}

/// Appends the cards of a source under a ruler, each with what is wrong with it, and how many diagnostics and warnings there are.
fn push_all_cards(
    text: &mut String,
    alloc: Global,
    files: &DeckText<'_>,
    deck: &Deck,
    range: SourceRange,
    run_card: u16,
    faults: &Faults,
    warnings: &[Warning],
) -> Result<(), AllocError>
    requires order { range.from ≤ range.to }
    requires within { range.to ≤ length deck.now }
    requires short { range.to ≤ 9_999 }
{
    let cards = NumberedCards {
        files,
        deck,
        margin: Margin::of(files, usize::from(run_card), range.to),
    };
    push_diagnosed_cards(text, alloc, &cards, range, run_card, faults, warnings)?;
    push_count(text, &faults.diagnostics)?;
    push_warning_count(text, count_of(warnings))
}

/// Appends the cards of a source under a ruler, each with its diagnostics, their reasons and its warnings.
fn push_diagnosed_cards(
    text: &mut String,
    alloc: Global,
    cards: &NumberedCards<'_>,
    range: SourceRange,
    run_card: u16,
    faults: &Faults,
    warnings: &[Warning],
) -> Result<(), AllocError>
    requires order { range.from ≤ range.to }
    requires within { range.to ≤ length cards.now.deck.now }
    requires short { range.to ≤ 9_999 }
{
    let notes = notes_of_source(alloc, cards.deck, range, faults, warnings)?;
    let pushed = push_noted_cards(text, alloc, cards, range, run_card, &notes);
    drop(notes);
    pushed
}

/// The notes under the cards of a source.
fn notes_of_source(
    alloc: Global,
    deck: &Deck,
    range: SourceRange,
    faults: &Faults,
    warnings: &[Warning],
) -> Result<SourceNotes, AllocError>
    requires order { range.from ≤ range.to }
    requires within { range.to ≤ length deck.now }
{
    let (found, entries) = (&faults.diagnostics, &faults.entries);
    Ok(SourceNotes {
        diagnostics: notes_of_cards(alloc, found, entries)?,
        reasons: reasons_of(alloc, deck, range.from, range.to, found, entries)?,
        warnings: warnings_of_cards(alloc, warnings)?,
    })
}

/// Appends the cards of a source under a ruler, each with its notes.
fn push_noted_cards(
    text: &mut String,
    alloc: Global,
    cards: &NumberedCards<'_>,
    range: SourceRange,
    run_card: u16,
    notes: &SourceNotes,
) -> Result<(), AllocError>
    requires { range.to ≤ 9_999 }
{
    push_ruler(text, cards.margin)?;
    push_run(text, cards, notes, run_card)?;
    push_cards(text, alloc, cards, range, notes)
}

/// Appends what a source has, if its cards have no fault of their own.
fn push_what_it_has(
    text: &mut String,
    alloc: Global,
    deck: &Deck,
    range: SourceRange,
    has_references: bool,
) -> Result<(), AllocError>
    requires order { range.from ≤ range.to }
    requires within { range.to ≤ length deck.now }
{
    match read_sheets(alloc, deck, range.from, range.to) {
        Ok(lines) => push_tables(text, alloc, &lines, has_references),
        Err(SheetFault::NoMemory) => Err(AllocError),
        Err(SheetFault::Diagnostics(_)) => Ok(()),
    }
}

/// What is wrong with a source: its diagnostics, by card and then number, and all entries in error if the diagnostics are of
/// single cards.
pub(crate) fn faults_of(
    alloc: Global,
    deck: &Deck,
    range: SourceRange,
    run_card: u16,
) -> Result<Faults, AllocError>
    requires order { range.from ≤ range.to }
    requires within { range.to ≤ length deck.now }
    ensures diagnostics { IfOk result (λ faults. faults.diagnostics.items ≡ found_from range.from run_card (slice_range deck.now range.from range.to)) }
    ensures entries { IfOk result (λ faults. sheet_diagnostics range.from (slice_range deck.now range.from range.to) ≢ [] → faults.entries.items ≡ faulty_entries range.from (slice_range deck.now range.from range.to)) }
{
    let diagnostics = told(alloc, deck, range.from, range.to, run_card)?;
    let entries = entries_of(alloc, deck, range.from, range.to, &diagnostics)?;
    Ok(Faults {
        diagnostics,
        entries,
    })
}

/// The warnings of a source whose cards have no fault of their own.
fn warnings_on_sheets(
    alloc: Global,
    deck: &Deck,
    range: SourceRange,
) -> Result<Vec<Warning>, AllocError>
    requires order { range.from ≤ range.to }
    requires within { range.to ≤ length deck.now }
    ensures { IfOk result (λ found. sheet_diagnostics range.from (slice_range deck.now range.from range.to) ≡ [] → found.items ≡ warnings_spec (lines_of range.from (slice_range deck.now range.from range.to))) }
{
    match read_sheets(alloc, deck, range.from, range.to) {
        Ok(lines) => warnings_of(alloc, &lines),
        Err(SheetFault::NoMemory) => Err(AllocError),
        Err(SheetFault::Diagnostics(_)) => Ok(Vec::new(alloc)),
    }
}

/// The warnings of a source. One with diagnostics has none: what they hide isn't known.
pub(crate) fn warnings_in(
    alloc: Global,
    deck: &Deck,
    range: SourceRange,
    faults: &Faults,
) -> Result<Vec<Warning>, AllocError>
    requires order { range.from ≤ range.to }
    requires within { range.to ≤ length deck.now }
    ensures warned { IfOk result (λ found. faults.now.diagnostics.items ≡ [] → sheet_diagnostics range.from (slice_range deck.now range.from range.to) ≡ [] → found.items ≡ warnings_spec (lines_of range.from (slice_range deck.now range.from range.to))) }
    ensures none { IfOk result (λ found. faults.now.diagnostics.items ≢ [] → found.items ≡ []) }
{
    if faults.diagnostics.is_empty() {
        warnings_on_sheets(alloc, deck, range)
    } else {
        Ok(Vec::new(alloc))
    }
}

/// Appends the listing of a source, and answers how many diagnostics and warnings it has.
pub fn push_source(
    text: &mut String,
    alloc: Global,
    files: &DeckText<'_>,
    deck: &Deck,
    range: SourceRange,
    run_card: u16,
    has_references: bool,
) -> Result<Found, AllocError>
    requires order { range.from ≤ range.to }
    requires within { range.to ≤ length deck.now }
    requires short { range.to ≤ 9_999 }
{
    let faults = faults_of(alloc, deck, range, run_card)?;
    let warnings = warnings_in(alloc, deck, range, &faults)?;
    push_all_cards(
        text, alloc, files, deck, range, run_card, &faults, &warnings,
    )?;
    push_what_it_has(text, alloc, deck, range, has_references)?;
    Ok(Found {
        diagnostics: faults.diagnostics.len(),
        warnings: count_of(&warnings),
    })
}
