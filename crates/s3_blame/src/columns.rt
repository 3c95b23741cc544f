//! The entries to blame for the diagnostics of a source.
ghost use Rattle.std.specs.Prelude.{◌≡◌, ◌≢◌, ◌≤◌, true, [], length, slice_range, IfOk};
ghost use Rattle.std.specs.List.{All, list_all};
ghost use Rattle.s3_sheets.specs.Inner.Parts.{faulty_entries as faulty_entries_spec};
ghost use Rattle.s3_sheets.specs.Lines.{lines_of};
ghost use Rattle.s3_sheets.specs.Sheets.{sheet_diagnostics};
ghost use Rattle.s3_diagnose.specs.Inner.Order.{AreInOrder};
ghost use Rattle.s3_blame.specs.Inner.Columns.{columns_of as columns_of_spec};
ghost use Rattle.s3_blame.specs.Inner.Names.{names_of};
ghost use Rattle.s3_blame.specs.Inner.OwnMarks.{HasAllMarks, is_mark_among};
ghost use Rattle.s3_blame.specs.Inner.Tested.{AreTested};

use crate::lines::later_entries;
use s3_cards::Deck;
use s3_decks::Columns;
use s3_lines::Diagnostic;
use s3_sheets::{FaultyEntry, SheetFault, faulty_entries, read_sheets};
use std::alloc::{AllocError, Global};

/// The entries to blame for the diagnostics of a source, card by card. The source is in a deck from place `from` up to but
/// without place `to`. If its cards have faults, these are the entries of `faulty_entries`; else those of its lines
/// (docs/LISTINGS.md). A number on the RUN card has none. Refused only if memory runs out.
pub fn entries_of(
    alloc: Global,
    deck: &Deck,
    from: usize,
    to: usize,
    told: &[Diagnostic],
) -> Result<Vec<FaultyEntry>, AllocError>
    requires order { from ≤ to }
    requires within { to ≤ length deck.now }
    ensures of_cards { IfOk result (λ found. sheet_diagnostics from (slice_range deck.now from to) ≢ [] → found.items ≡ faulty_entries_spec from (slice_range deck.now from to)) }
    ensures of_lines { IfOk result (λ found. sheet_diagnostics from (slice_range deck.now from to) ≡ [] → AreTested from (slice_range deck.now from to) found.items) }
    ensures only { IfOk result (λ found. sheet_diagnostics from (slice_range deck.now from to) ≡ [] → list_all (is_mark_among (names_of (lines_of from (slice_range deck.now from to))) (lines_of from (slice_range deck.now from to))) found.items ≡ true) }
    ensures marked { IfOk result (λ found. sheet_diagnostics from (slice_range deck.now from to) ≡ [] → AreInOrder told.now → All (HasAllMarks (names_of (lines_of from (slice_range deck.now from to))) told.now found.items) (lines_of from (slice_range deck.now from to))) }
{
    match read_sheets(alloc, deck, from, to) {
        Ok(lines) => later_entries(alloc, &lines, told),
        Err(SheetFault::NoMemory) => Err(AllocError),
        Err(SheetFault::Diagnostics(_)) => faulty_entries(alloc, deck, from, to),
    }
}

/// The columns of those entries that are to blame for a number of a card.
pub fn columns_of(
    alloc: Global,
    entries: &[FaultyEntry],
    diagnostic: &Diagnostic,
) -> Result<Vec<Columns>, AllocError>
    ensures { IfOk result (λ columns. columns.items ≡ columns_of_spec diagnostic.now entries.now) }
{
    entries
        .iter()
        .filter(|entry| entry.card == diagnostic.card && entry.number == diagnostic.number)
        .map(|entry| Columns {
            from: entry.from,
            to: entry.to,
        })
        .collect(alloc)
}
