//! What is wrong with each card of a source: numbers, and the columns to blame.
ghost use Rattle.std.specs.Prelude.{◌≡◌, ◌++◌, ◌∷◌, [], ℕ, nat_eq, IfOk, OnOk, filter, map, if◌then◌else◌};
ghost use Rattle.s3_blame.specs.Inner.Columns.{columns_of as columns_of_spec};
ghost use Rattle.s3_source_listing.specs.Inner.Notes.{is_on, number_of, marked_of, numbers_under, marks_under, entries_in, notes_in};

use indexmap::IndexMap;
use s3_blame::{FaultyEntry, columns_of};
use s3_decks::Columns;
use s3_lines::Diagnostic;
use std::alloc::{AllocError, Global};

/// A diagnostic of a card, with the columns to blame.
#[derive(Drop)]
pub struct Note {
    /// The number of the diagnostic.
    pub number: u8,
    /// The columns of the entries that are in error by it.
    pub marked: Vec<Columns>,
}

/// What is wrong with each card, by the numbers of the cards. A card without diagnostics has no place in it.
pub type CardNotes = IndexMap<u16, Vec<Note>>;

/// Adds an entry to those of its card.
fn add_entry(
    alloc: Global,
    by_card: &mut IndexMap<u16, Vec<FaultyEntry>>,
    entry: FaultyEntry,
) -> Result<(), AllocError>
    ensures { OnOk result ((card : ℕ) → entries_in by_card.new card ≡ entries_in by_card.old card ++ (if nat_eq entry.card card then entry ∷ [] else [])) }
{
    by_card
        .entry(entry.card)?
        .or_insert(Vec::new(alloc))
        .push(entry)?;
    Ok(())
}

/// The entries of each card.
#[tactic(auto, using(crate::proofs::NoteLemmas::entry_more))]
pub(crate) fn entries_by_card(
    alloc: Global,
    entries: &[FaultyEntry],
) -> Result<IndexMap<u16, Vec<FaultyEntry>>, AllocError>
    ensures { IfOk result (λ by_card. (card : ℕ) → entries_in by_card card ≡ filter (is_on card) entries.now) }
{
    let mut by_card = IndexMap::new(alloc);
    for entry in entries {
        add_entry(alloc, &mut by_card, *entry)?;
    }
    Ok(by_card)
}

/// The entries of a card.
pub(crate) fn entries_on(by_card: &IndexMap<u16, Vec<FaultyEntry>>, card: u16) -> &[FaultyEntry]
    ensures { result.now ≡ entries_in by_card.now card }
{
    match by_card.get(&card) {
        Some(entries) => entries,
        None => &[],
    }
}

/// Adds a note to those of a card.
fn add_note(alloc: Global, notes: &mut CardNotes, card: u16, note: Note) -> Result<(), AllocError>
    ensures { OnOk result ((other : ℕ) → notes_in notes.new other ≡ notes_in notes.old other ++ (if nat_eq card other then note ∷ [] else [])) }
{
    notes.entry(card)?.or_insert(Vec::new(alloc)).push(note)?;
    Ok(())
}

/// Adds a diagnostic to the notes of its card, with the columns of those of the card's entries that are in error by it.
fn add_diagnostic(
    alloc: Global,
    notes: &mut CardNotes,
    diagnostic: &Diagnostic,
    entries: &[FaultyEntry],
) -> Result<(), AllocError>
    ensures numbers { OnOk result ((card : ℕ) → map number_of (notes_in notes.new card) ≡ map number_of (notes_in notes.old card) ++ (if nat_eq diagnostic.now.card card then diagnostic.now.number ∷ [] else [])) }
    ensures marked { OnOk result ((card : ℕ) → map marked_of (notes_in notes.new card) ≡ map marked_of (notes_in notes.old card) ++ (if nat_eq diagnostic.now.card card then columns_of_spec diagnostic.now entries.now ∷ [] else [])) }
{
    let marked = columns_of(alloc, entries, diagnostic)?;
    let note = Note {
        number: diagnostic.number,
        marked,
    };
    add_note(alloc, notes, diagnostic.card, note)
}

/// What a listing has under each card, given the entries of each card that are in error.
fn notes_by_card(
    alloc: Global,
    by_card: &IndexMap<u16, Vec<FaultyEntry>>,
    found: &[Diagnostic],
) -> Result<CardNotes, AllocError>
    ensures numbers { IfOk result (λ notes. (card : ℕ) → map number_of (notes_in notes card) ≡ numbers_under card found.now) }
    ensures marked { IfOk result (λ notes. (card : ℕ) → map marked_of (notes_in notes card) ≡ marks_under card found.now (entries_in by_card.now card)) }
{
    let mut notes = IndexMap::new(alloc);
    for diagnostic in found {
        let of_card = entries_on(by_card, diagnostic.card);
        add_diagnostic(alloc, &mut notes, diagnostic, of_card)?;
    }
    Ok(notes)
}

/// What a listing has under each card of a source: of all its diagnostics those of the card, in their order, each with the
/// columns of those of the card's entries that are in error by it. Each diagnostic and each entry is looked at once, and then
/// only with those of its card. It is refused only if memory runs out.
pub fn notes_of_cards(
    alloc: Global,
    found: &[Diagnostic],
    entries: &[FaultyEntry],
) -> Result<CardNotes, AllocError>
    ensures numbers { IfOk result (λ notes. (card : ℕ) → map number_of (notes_in notes card) ≡ numbers_under card found.now) }
    ensures marked { IfOk result (λ notes. (card : ℕ) → map marked_of (notes_in notes card) ≡ marks_under card found.now entries.now) }
{
    let by_card = entries_by_card(alloc, entries)?;
    let notes = notes_by_card(alloc, &by_card, found);
    drop(by_card);
    notes
}

/// What a listing has under a card; nothing if it has no diagnostics.
pub fn notes_under(notes: &CardNotes, card: u16) -> &[Note]
    ensures { result.now ≡ notes_in notes.now card }
{
    match notes.get(&card) {
        Some(notes) => notes,
        None => &[],
    }
}
