//! What is wrong and what is probably wrong with a source, as lists: a message for each diagnostic, and one for each kind of warning of
//! a card, each with the columns of the entry that is marked first.
ghost use Rattle.std.specs.Prelude.{◌≡◌, ◌≢◌, ◌≤◌, ◌++◌, ◌∷◌, [], length, map, slice_range, IfOk, OnOk, if◌then◌else◌};
ghost use Rattle.std.specs.List.{fold};
ghost use Rattle.s3_blame.specs.Inner.Sources.{found_from};
ghost use Rattle.s3_sheets.specs.Inner.Parts.{faulty_entries};
ghost use Rattle.s3_sheets.specs.Lines.{lines_of};
ghost use Rattle.s3_sheets.specs.Sheets.{sheet_diagnostics};
ghost use Rattle.s3_warnings.specs.Inner.Warnings.{warnings as warnings_spec};
ghost use Rattle.s3_source_listing.specs.Inner.Messages.{diagnosed, earlier as earlier_spec, error_of as error_spec, errors_by_card as errors_by_card_spec, errors_of as errors_spec, first_of as first_spec, repeats as repeats_spec, unmarked as unmarked_spec, warning_of as warning_spec, warnings_of as warned_spec};
ghost use Rattle.s3_source_listing.specs.Inner.Notes.{entries_in};

use crate::notes::{entries_by_card, entries_on};
use crate::source::{Faults, SourceRange, faults_of, warnings_in};
use indexmap::IndexMap;
use s3_blame::{FaultyEntry, columns_of};
use s3_cards::Deck;
use s3_decks::Columns;
use s3_lines::Diagnostic;
use s3_reasons::{Reasons, reasons_of};
use s3_warnings::{Warning, WarningKind};
use std::alloc::{AllocError, Global};

/// The RUN card of a compile job.
#[derive(Clone, Copy)]
pub struct RunCard {
    /// Its number in the deck, from 1.
    pub number: u16,
    /// The columns of its keyword.
    pub keyword: Columns,
}

/// A diagnostic, with the columns of the marked entry that begins first.
#[derive(Clone, Copy)]
pub struct ErrorMessage {
    /// The number of the card in its deck, from 1.
    pub card: u16,
    /// The number of the diagnostic, 1 to 13.
    pub number: u8,
    /// The columns of the entry; of the RUN card those of its keyword.
    pub columns: Columns,
}

/// A warning, with the columns of its first entry.
#[derive(Clone, Copy)]
pub struct WarningMessage {
    /// The number of the card in its deck, from 1.
    pub card: u16,
    /// What is probably wrong.
    pub kind: WarningKind,
    /// The columns of the entry.
    pub columns: Columns,
}

/// The messages of a source.
#[derive(Drop)]
pub struct SourceMessages {
    /// One for each diagnostic, in the order of the cards.
    pub errors: Vec<ErrorMessage>,
    /// Why cards have diagnostics, if words say more than the diagnostics do.
    pub reasons: Reasons,
    /// One for each kind of warning of a card.
    pub warnings: Vec<WarningMessage>,
}

/// The one of two entries that begins first.
fn earlier(best: Columns, other: Columns) -> Columns
    ensures { result ≡ earlier_spec best other }
{
    if other.from < best.from { other } else { best }
}

/// The one of some entries that begins first.
fn first_among(first: Columns, more: &[Columns]) -> Columns
    ensures { result ≡ fold earlier_spec first more.now }
{
    let mut best = first;
    for columns in more {
        best = earlier(best, *columns);
    }
    best
}

/// The entry that begins first; the other columns if there is none.
fn first_of(otherwise: Columns, marked: &[Columns]) -> Columns
    ensures { result ≡ first_spec otherwise marked.now }
{
    match marked.split_first() {
        Some((first, more)) => first_among(*first, more),
        None => otherwise,
    }
}

/// What is shown of a diagnostic that marks no entry.
fn unmarked(run: RunCard, card: u16) -> Columns
    ensures { result ≡ unmarked_spec run card }
{
    if card == run.number {
        run.keyword
    } else {
        Columns { from: 1, to: 1 }
    }
}

/// The message of a diagnostic, given the entries of its card that are in error.
fn error_of(
    alloc: Global,
    run: RunCard,
    entries: &[FaultyEntry],
    found: &Diagnostic,
) -> Result<ErrorMessage, AllocError>
    ensures { IfOk result (λ message. message ≡ error_spec run entries.now found.now) }
{
    let marked = columns_of(alloc, entries, found)?;
    Ok(ErrorMessage {
        card: found.card,
        number: found.number,
        columns: first_of(unmarked(run, found.card), &marked),
    })
}

/// The messages of diagnostics, given the entries of each card that are in error.
fn errors_by_card(
    alloc: Global,
    run: RunCard,
    by_card: &IndexMap<u16, Vec<FaultyEntry>>,
    found: &[Diagnostic],
) -> Result<Vec<ErrorMessage>, AllocError>
    ensures { IfOk result (λ messages. messages.items ≡ errors_by_card_spec run (entries_in by_card.now) found.now) }
{
    let mut messages = Vec::new(alloc);
    for diagnostic in found {
        let of_card = entries_on(by_card, diagnostic.card);
        messages.push(error_of(alloc, run, of_card, diagnostic)?)?;
    }
    Ok(messages)
}

/// The messages of diagnostics, given the entries that are in error. Each diagnostic is looked at with the entries of its card
/// alone.
fn errors_of(
    alloc: Global,
    run: RunCard,
    entries: &[FaultyEntry],
    found: &[Diagnostic],
) -> Result<Vec<ErrorMessage>, AllocError>
    ensures { IfOk result (λ messages. messages.items ≡ errors_spec run entries.now found.now) }
{
    let by_card = entries_by_card(alloc, entries)?;
    let messages = errors_by_card(alloc, run, &by_card, found);
    drop(by_card);
    messages
}

/// Whether a warning is of the same card and kind as the one before it.
fn repeats(last: Option<Warning>, warning: &Warning) -> bool
    ensures { result ≡ repeats_spec last warning.now }
{
    match last {
        Some(last) => { last.card == warning.card && last.kind.number() == warning.kind.number() }
        None => false,
    }
}

/// The message of a warning.
fn warning_of(warning: &Warning) -> WarningMessage
    ensures { result ≡ warning_spec warning.now }
{
    WarningMessage {
        card: warning.card,
        kind: warning.kind,
        columns: Columns {
            from: warning.from,
            to: warning.to,
        },
    }
}

/// Appends the message of a warning, unless the warning repeats the one before it.
fn push_unless(
    messages: &mut Vec<WarningMessage>,
    is_repeated: bool,
    warning: &Warning,
) -> Result<(), AllocError>
    ensures { OnOk result (messages.new.items ≡ messages.old.items ++ (if is_repeated then [] else warning_spec warning.now ∷ [])) }
{
    if !is_repeated {
        messages.push(warning_of(warning))?;
    }
    Ok(())
}

/// The messages of warnings.
#[tactic(auto, using(crate::proofs::MessageLemmas::warning_more))]
fn warned(alloc: Global, warnings: &[Warning]) -> Result<Vec<WarningMessage>, AllocError>
    ensures { IfOk result (λ messages. messages.items ≡ warned_spec warnings.now) }
{
    let mut messages = Vec::new(alloc);
    let mut last = None;
    for warning in warnings {
        push_unless(&mut messages, repeats(last, warning), warning)?;
        last = Some(*warning);
    }
    Ok(messages)
}

/// The messages of the warnings of a source with these faults.
fn warnings_with(
    alloc: Global,
    deck: &Deck,
    range: SourceRange,
    faults: &Faults,
) -> Result<Vec<WarningMessage>, AllocError>
    requires order { range.from ≤ range.to }
    requires within { range.to ≤ length deck.now }
    ensures warned { IfOk result (λ messages. faults.now.diagnostics.items ≡ [] → sheet_diagnostics range.from (slice_range deck.now range.from range.to) ≡ [] → messages.items ≡ warned_spec (warnings_spec (lines_of range.from (slice_range deck.now range.from range.to)))) }
    ensures none { IfOk result (λ messages. faults.now.diagnostics.items ≢ [] → messages.items ≡ []) }
{
    let warnings = warnings_in(alloc, deck, range, faults)?;
    let messages = warned(alloc, &warnings);
    drop(warnings);
    messages
}

/// The messages of a source with these faults.
fn messages_with(
    alloc: Global,
    deck: &Deck,
    range: SourceRange,
    run: RunCard,
    faults: &Faults,
) -> Result<SourceMessages, AllocError>
    requires order { range.from ≤ range.to }
    requires within { range.to ≤ length deck.now }
    ensures errors { IfOk result (λ found. found.errors.items ≡ errors_spec run faults.now.entries.items faults.now.diagnostics.items) }
    ensures warned { IfOk result (λ found. faults.now.diagnostics.items ≡ [] → sheet_diagnostics range.from (slice_range deck.now range.from range.to) ≡ [] → found.warnings.items ≡ warned_spec (warnings_spec (lines_of range.from (slice_range deck.now range.from range.to)))) }
    ensures none { IfOk result (λ found. faults.now.diagnostics.items ≢ [] → found.warnings.items ≡ []) }
{
    let errors = errors_of(alloc, run, &faults.entries, &faults.diagnostics)?;
    let warnings = warnings_with(alloc, deck, range, faults)?;
    let reasons = reasons_of(
        alloc,
        deck,
        range.from,
        range.to,
        &faults.diagnostics,
        &faults.entries,
    )?;
    Ok(SourceMessages {
        errors,
        reasons,
        warnings,
    })
}

/// The messages of a source: its diagnostics, or its warnings if it has none. The source is in a deck from place `from` up to but
/// without place `to`. Refused only if memory runs out.
pub fn messages_of(
    alloc: Global,
    deck: &Deck,
    range: SourceRange,
    run: RunCard,
) -> Result<SourceMessages, AllocError>
    requires order { range.from ≤ range.to }
    requires within { range.to ≤ length deck.now }
    ensures errors { IfOk result (λ found. map diagnosed found.errors.items ≡ found_from range.from run.number (slice_range deck.now range.from range.to)) }
    ensures columns { IfOk result (λ found. sheet_diagnostics range.from (slice_range deck.now range.from range.to) ≢ [] → found.errors.items ≡ errors_spec run (faulty_entries range.from (slice_range deck.now range.from range.to)) (found_from range.from run.number (slice_range deck.now range.from range.to))) }
    ensures warnings { IfOk result (λ found. found_from range.from run.number (slice_range deck.now range.from range.to) ≡ [] → found.warnings.items ≡ warned_spec (warnings_spec (lines_of range.from (slice_range deck.now range.from range.to)))) }
    ensures no_warnings { IfOk result (λ found. found_from range.from run.number (slice_range deck.now range.from range.to) ≢ [] → found.warnings.items ≡ []) }
{
    let faults = faults_of(alloc, deck, range, run.number)?;
    let found = messages_with(alloc, deck, range, run, &faults);
    drop(faults);
    found
}
