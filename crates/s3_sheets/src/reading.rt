//! Reading the sheets of a source.

ghost use Rattle.std.specs.Prelude.{◌≡◌, ◌≤◌, ◌<◌, ◌+◌, [], ◌∷◌, ◌++◌, if◌then◌else◌, length, OnOk, slice_range};
ghost use Rattle.std.specs.Option.{option_to_list};
ghost use Rattle.s3_sheets.specs.Lines.{line_of as line_of_spec, lines_of};
ghost use Rattle.s3_sheets.specs.Sheets.{card_holds, sheet_diagnostics};
ghost use Rattle.s3_sheets.specs.Inner.Progress.{nothing_kept};
ghost use Rattle.s3_sheets.specs.Inner.Sheets.{card_diagnostics, Reads};

use crate::fault::SheetFault;
use crate::lines::line_of;
use crate::progress::{Progress, Standing};
use s3_cards::{Card, Deck};
use s3_lines::Diagnostic;
use s3_lines::sheet::Line;
use std::alloc::{AllocError, Global};

/// The diagnostics of single cards.
const NUMBERS: [u8; 5] = [1, 2, 3, 4, 13];

/// Whether a card with this standing has a diagnostic.
#[tactic(auto, unfolding(crate::specs::Sheets::card_holds))]
fn is_diagnosed(standing: Standing, number: u8) -> bool
    ensures { result ≡ card_holds standing number }
{
    match number {
        1 => standing.is_misplaced,
        2 => standing.faults.entry,
        3 => standing.faults.name || standing.lacks_file,
        4 => standing.faults.number || standing.is_outside,
        _ => standing.is_too_many,
    }
}

/// Adds a diagnostic of the card with this number, if the card has it.
fn add_diagnostic(
    found: &mut Vec<Diagnostic>,
    number: u16,
    standing: Standing,
    diagnostic: u8,
) -> Result<(), AllocError>
    ensures { OnOk result (found.new.items ≡ found.old.items ++ (if card_holds standing diagnostic then record { card = number; number = diagnostic } ∷ [] else [])) }
{
    if is_diagnosed(standing, diagnostic) {
        found.push(Diagnostic {
            card: number,
            number: diagnostic,
        })?;
    }
    Ok(())
}

/// Adds the diagnostics of the card with this number.
fn diagnose(found: &mut Vec<Diagnostic>, number: u16, standing: Standing) -> Result<(), AllocError>
    ensures { OnOk result (found.new.items ≡ found.old.items ++ card_diagnostics number standing) }
{
    for diagnostic in NUMBERS {
        add_diagnostic(found, number, standing, diagnostic)?;
    }
    Ok(())
}

/// Adds the line of the card with this number, if it has one.
fn add_line(lines: &mut Vec<Line>, number: u16, card: &Card) -> Result<(), AllocError>
    ensures { OnOk result (lines.new.items ≡ lines.old.items ++ option_to_list (line_of_spec number card.now)) }
{
    if let Some(line) = line_of(number, card) {
        lines.push(line)?;
    }
    Ok(())
}

/// Reads the cards of a deck from a place on: adds their lines and their diagnostics to lists that were empty. The caller owns
/// both, so that no early return here drops them.
fn enter_cards(
    progress: &mut Progress,
    lines: &mut Vec<Line>,
    found: &mut Vec<Diagnostic>,
    cards: &[Card],
    from: usize,
) -> Result<(), AllocError>
    requires short { from + length cards.now ≤ 9_999 }
    requires first { progress.old ≡ nothing_kept }
    requires no_lines { lines.old.items ≡ [] }
    requires none_found { found.old.items ≡ [] }
    ensures lines { OnOk result (lines.new.items ≡ lines_of from cards.now) }
    ensures found { OnOk result (found.new.items ≡ sheet_diagnostics from cards.now) }
{
    for (place, card) in cards.iter().enumerate() {
        let number = (from + place + 1) as u16;
        let standing = progress.enter(card)?;
        diagnose(found, number, standing)?;
        add_line(lines, number, card)?;
    }
    Ok(())
}

/// The lines of the cards of a deck from a place on, or their diagnostics. Nothing is kept of earlier cards.
fn read_with(
    alloc: Global,
    progress: &mut Progress,
    cards: &[Card],
    from: usize,
) -> Result<Vec<Line>, SheetFault>
    requires short { from + length cards.now ≤ 9_999 }
    requires first { progress.old ≡ nothing_kept }
    ensures { Reads from cards.now result }
{
    let mut lines = Vec::new(alloc);
    let mut found = Vec::new(alloc);
    enter_cards(progress, &mut lines, &mut found, cards, from)?;
    if found.is_empty() {
        Ok(lines)
    } else {
        drop(lines);
        Err(SheetFault::Diagnostics(found))
    }
}

/// The lines of the cards of a deck from a place on, or their diagnostics.
fn read_cards(alloc: Global, cards: &[Card], from: usize) -> Result<Vec<Line>, SheetFault>
    requires { from + length cards.now ≤ 9_999 }
    ensures { Reads from cards.now result }
{
    let mut progress = Progress::new(alloc);
    let result = read_with(alloc, &mut progress, cards, from);
    drop(progress);
    result
}

/// The typed lines of the cards of a deck from place `from` up to but without place `to`, or their diagnostics.
///
/// A diagnostic names its card by its number in the deck, from 1. They are those that show on single cards: 1 no sheet, or out of
/// order; 2 an entry that isn't allowed; 3 a name or literal that is missing or malformed; 4 a number that is missing, malformed
/// or out of its range, or a position outside its record; 13 more than 20 files or 999 fields.
///
/// The lines are in the order of the sheets and of their cards, each entry is in its range, and each position within its record.
pub fn read_sheets(
    alloc: Global,
    deck: &Deck,
    from: usize,
    to: usize,
) -> Result<Vec<Line>, SheetFault>
    requires order { from ≤ to }
    requires within { to ≤ length deck.now }
    ensures { Reads from (slice_range deck.now from to) result }
{
    read_cards(alloc, &deck.cards()[from..to], from)
}
