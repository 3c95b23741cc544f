//! The warnings of a source.
ghost use Rattle.std.specs.Prelude.{◌≡◌, ◌++◌, IfOk, OnOk, IsTrue, flat_map};
ghost use Rattle.s3_lines.specs.Inner.Ranges.{are_read};
ghost use Rattle.s3_diagnose.specs.Inner.Ranged.{are_ranged};
ghost use Rattle.s3_warnings.specs.Inner.Contradictions.{contradictions_on as contradictions_spec};
ghost use Rattle.s3_warnings.specs.Inner.Facts.{facts_of};
ghost use Rattle.s3_warnings.specs.Inner.Indicators.{never_set_on as never_set_spec, never_tested_on as never_tested_spec};
ghost use Rattle.s3_warnings.specs.Inner.Shown.{facts_shown};
ghost use Rattle.s3_warnings.specs.Inner.Warnings.{warnings, warnings_by, warnings_on};

use crate::contradictions::contradictions_on;
use crate::files::files_on;
use crate::indicators::{never_set_on, never_tested_on};
use crate::kinds::Warning;
use crate::known::{Known, set_by, tested_by};
use crate::overlaps::push_overlaps;
use crate::results::results_on;
use crate::shapes::shapes_of;
use indexmap::{IndexMap, IndexSet};
use s3_lines::sheet::Line;
use std::alloc::{AllocError, Global};

/// Fills tables with what lines set, test and define. The caller owns the tables, so that no early return here drops them.
fn fill(alloc: Global, known: &mut Known, lines: &[Line]) -> Result<(), AllocError>
    requires { IsTrue (are_ranged lines.now) }
    ensures { OnOk result (facts_shown known.new ≡ facts_of lines.now) }
{
    known.set = set_by(alloc, lines)?;
    known.tested = tested_by(alloc, lines)?;
    known.shapes = shapes_of(alloc, lines)?;
    Ok(())
}

/// Appends the warnings of a card's indicators, given what all lines say.
fn push_of_indicators(
    alloc: Global,
    found: &mut Vec<Warning>,
    known: &Known,
    line: &Line,
) -> Result<(), AllocError>
    ensures { OnOk result (found.new.items ≡ found.old.items ++ never_set_spec (facts_shown known.now) line.now ++ never_tested_spec (facts_shown known.now) line.now ++ contradictions_spec line.now) }
{
    found.extend_from_slice(&never_set_on(alloc, known, line)?)?;
    found.extend_from_slice(&never_tested_on(alloc, known, line)?)?;
    found.extend_from_slice(&contradictions_on(alloc, line)?)?;
    Ok(())
}

/// Appends the warnings of a card, given what all lines say.
fn push_warnings(
    alloc: Global,
    found: &mut Vec<Warning>,
    known: &Known,
    lines: &[Line],
    line: &Line,
) -> Result<(), AllocError>
    ensures { OnOk result (found.new.items ≡ found.old.items ++ warnings_on (facts_shown known.now) lines.now line.now) }
{
    push_of_indicators(alloc, found, known, line)?;
    found.extend_from_slice(&files_on(alloc, lines, line)?)?;
    found.extend_from_slice(&results_on(alloc, known, line)?)?;
    Ok(())
}

/// The warnings of all cards but of fields that cover others, given what all lines say.
fn card_warnings(alloc: Global, known: &Known, lines: &[Line]) -> Result<Vec<Warning>, AllocError>
    ensures { IfOk result (λ found. found.items ≡ flat_map (warnings_on (facts_shown known.now) lines.now) lines.now) }
{
    let mut found = Vec::new(alloc);
    for line in lines {
        push_warnings(alloc, &mut found, known, lines, line)?;
    }
    Ok(found)
}

/// All warnings, given what all lines say.
fn all_warnings(alloc: Global, known: &Known, lines: &[Line]) -> Result<Vec<Warning>, AllocError>
    ensures { IfOk result (λ found. found.items ≡ warnings_by (facts_shown known.now) lines.now) }
{
    let mut found = card_warnings(alloc, known, lines)?;
    push_overlaps(alloc, &mut found, known, lines)?;
    Ok(found)
}

/// All warnings, given tables of what all lines say.
fn warnings_by_known(
    alloc: Global,
    known: &Known,
    lines: &[Line],
) -> Result<Vec<Warning>, AllocError>
    requires { facts_shown known.now ≡ facts_of lines.now }
    ensures { IfOk result (λ found. found.items ≡ warnings lines.now) }
{
    let found = all_warnings(alloc, known, lines)?;
    Ok(found)
}

/// All warnings, by tables that it fills with what all lines say.
fn warnings_with(
    alloc: Global,
    known: &mut Known,
    lines: &[Line],
) -> Result<Vec<Warning>, AllocError>
    requires { IsTrue (are_ranged lines.now) }
    ensures { IfOk result (λ found. found.items ≡ warnings lines.now) }
{
    fill(alloc, known, lines)?;
    warnings_by_known(alloc, known, lines)
}

/// The warnings of a source (docs/LISTINGS.md, "Warnings"), by card and then by kind, and then those of fields that cover others.
/// The lines are those of a source without diagnostics, as `read_sheets` gives them. It is refused only if memory runs out.
#[tactic(auto, using(crate::proofs::RangeLemmas::ranged_of_read))]
pub fn warnings_of(alloc: Global, lines: &[Line]) -> Result<Vec<Warning>, AllocError>
    requires { IsTrue (are_read lines.now) }
    ensures { IfOk result (λ found. found.items ≡ warnings lines.now) }
{
    let mut known = Known {
        set: IndexSet::new(alloc),
        tested: IndexSet::new(alloc),
        shapes: IndexMap::new(alloc),
    };
    let found = warnings_with(alloc, &mut known, lines);
    drop(known);
    found
}
