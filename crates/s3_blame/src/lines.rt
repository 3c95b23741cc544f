//! The entries to blame for 5 to 12.
ghost use Rattle.std.specs.Prelude.{◌≡◌, ℕ, true, IfOk, IsTrue, OnOk};
ghost use Rattle.std.specs.List.{All, list_all};
ghost use Rattle.s3_lines.specs.Inner.Ascending.{cards_ascend};
ghost use Rattle.s3_diagnose.specs.Inner.Order.{AreInOrder};
ghost use Rattle.s3_lines.specs.Inner.Ranges.{are_read};
ghost use Rattle.s3_blame.specs.Inner.Entries.{entries_on};
ghost use Rattle.s3_blame.specs.Inner.Marks.{are_of};
ghost use Rattle.s3_blame.specs.Inner.Names.{names_known, names_of};
ghost use Rattle.s3_blame.specs.Inner.OwnMarks.{BeginsAt, HasAllMarks, HasMarks, MarksFirst, PassesLine, are_marks_on, is_mark_among, is_named};

use crate::calculations::calculation_entries;
use crate::files::file_entries;
use crate::inputs::input_entries;
use crate::known::Known;
use crate::outputs::output_entries;
use crate::walk::Walk;
use s3_diagnose::places::is_cut_by;
use s3_lines::Diagnostic;
use s3_lines::sheet::{Line, SheetLine};
use s3_sheets::FaultyEntry;
use std::alloc::{AllocError, Global};

/// The entries to blame for a number of the card of a line that these lines follow.
fn line_entries(
    alloc: Global,
    known: &Known,
    walk: &Walk,
    line: &Line,
    later: &[Line],
    number: u8,
) -> Result<Vec<FaultyEntry>, AllocError>
    ensures of { IfOk result (λ found. are_of line.now.card number (entries_on line.now.sheet number) found.items ≡ true) }
    ensures own { IfOk result (λ found. HasMarks (names_known known.now) line.now found.items number) }
    ensures named { IfOk result (λ found. list_all (is_named (names_known known.now) line.now) found.items ≡ true) }
{
    match &line.sheet {
        SheetLine::Header(_) => Ok(Vec::new(alloc)),
        SheetLine::File(file) => file_entries(alloc, line.card, file, number),
        SheetLine::Input(input) => input_entries(alloc, known, walk, line.card, input, number),
        SheetLine::Calculation(calculation) => {
            calculation_entries(
                alloc,
                known,
                walk,
                line.card,
                calculation,
                is_cut_by(later),
                number,
            )
        }
        SheetLine::Output(output) => {
            output_entries(alloc, known, walk, line.card, output, number)
        }
    }
}

/// The diagnostics of a list from the first on that isn't of a card before this one.
#[tactic(auto, using(crate::proofs::OwnLemmas::begins_here, crate::proofs::OwnLemmas::begins_nowhere))]
fn from_card(told: &[Diagnostic], card: u16) -> &[Diagnostic]
    ensures { BeginsAt card told.now result.now }
{
    for (place, diagnostic) in told.iter().enumerate() {
        if diagnostic.card >= card {
            return &told[place..];
        }
    }
    &[]
}

/// The entries to blame for the diagnostics of a line's card. They come before the entries of the cards after it.
#[tactic(auto, using(crate::proofs::OwnLemmas::none_so_far, crate::proofs::OwnLemmas::ends_at_other, crate::proofs::OwnLemmas::ends_with_all))]
fn entries_of_card(
    alloc: Global,
    known: &Known,
    walk: &Walk,
    line: &Line,
    later: &[Line],
    told: &[Diagnostic],
) -> Result<Vec<FaultyEntry>, AllocError>
    ensures only { IfOk result (λ found. are_marks_on (names_known known.now) line.now found.items ≡ true) }
    ensures first { IfOk result (λ found. MarksFirst (names_known known.now) line.now told.now found.items) }
{
    let mut found = Vec::new(alloc);
    for diagnostic in told {
        if diagnostic.card != line.card {
            break;
        }
        let more = line_entries(alloc, known, walk, line, later, diagnostic.number)?;
        found.extend_from_slice(&more)?;
    }
    Ok(found)
}

/// Appends the entries to blame for the diagnostics of one line's card, and passes that line.
fn pass_line(
    alloc: Global,
    known: &Known,
    walk: &mut Walk,
    lines: &[Line],
    place: usize,
    told: &[Diagnostic],
    found: &mut Vec<FaultyEntry>,
) -> Result<(), AllocError>
    ensures only { OnOk result (list_all (is_mark_among (names_known known.now) lines.now) found.old.items ≡ true → list_all (is_mark_among (names_known known.now) lines.now) found.new.items ≡ true) }
    ensures passes { OnOk result (PassesLine (names_known known.now) lines.now place told.now found.old.items found.new.items) }
{
    let Some(line) = lines.get(place) else {
        return Ok(());
    };
    let later = lines.get(place + 1..).unwrap_or(&[]);
    let more = entries_of_card(alloc, known, walk, line, later, told)?;
    found.extend_from_slice(&more)?;
    walk.pass(alloc, known, line)
}

/// The entries to blame for diagnostics of lines, given what the lines define.
#[tactic(auto, using(crate::proofs::OwnLemmas::none_passed, crate::proofs::OwnLemmas::one_more_passed))]
fn entries_of_lines(
    alloc: Global,
    known: &Known,
    lines: &[Line],
    told: &[Diagnostic],
) -> Result<Vec<FaultyEntry>, AllocError>
    ensures only { IfOk result (λ found. list_all (is_mark_among (names_known known.now) lines.now) found.items ≡ true) }
    ensures marked { IfOk result (λ found. AreInOrder told.now → (from : ℕ) → cards_ascend from lines.now ≡ true → All (HasAllMarks (names_known known.now) told.now found.items) lines.now) }
{
    let mut walk = Walk::new(alloc);
    let mut found = Vec::new(alloc);
    let mut rest = told;
    for (place, line) in lines.iter().enumerate() {
        rest = from_card(rest, line.card);
        pass_line(alloc, known, &mut walk, lines, place, rest, &mut found)?;
    }
    Ok(found)
}

/// The entries to blame for diagnostics 5 to 12 of lines, in the order of the lines. Each line is looked at once.
pub fn later_entries(
    alloc: Global,
    lines: &[Line],
    told: &[Diagnostic],
) -> Result<Vec<FaultyEntry>, AllocError>
    ensures only { IfOk result (λ found. IsTrue (are_read lines.now) → list_all (is_mark_among (names_of lines.now) lines.now) found.items ≡ true) }
    ensures marked { IfOk result (λ found. IsTrue (are_read lines.now) → AreInOrder told.now → (from : ℕ) → cards_ascend from lines.now ≡ true → All (HasAllMarks (names_of lines.now) told.now found.items) lines.now) }
{
    let known = Known::of(alloc, lines)?;
    let found = entries_of_lines(alloc, &known, lines, told);
    drop(known);
    found
}
