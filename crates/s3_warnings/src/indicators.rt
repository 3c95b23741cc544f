//! Indicators that a program tests and nothing turns on, and the other way round.
ghost use Rattle.std.specs.Prelude.{◌≡◌, IfOk, Some};
ghost use Rattle.s3_warnings.specs.declared.kinds.WarningKind.TheVariants.{NeverSet, NeverTested};
ghost use Rattle.s3_warnings.specs.Inner.Indicators as spec;
ghost use Rattle.s3_warnings.specs.Inner.Marking.{warned as warned_spec};
ghost use Rattle.s3_warnings.specs.Inner.Shown.{facts_shown};

use crate::entries::{IndicatorEntry, tested_on, turned_on};
use crate::kinds::{Warning, WarningKind};
use crate::known::Known;
use s3_lines::indicator::Indicator;
use s3_lines::sheet::Line;
use std::alloc::{AllocError, Global};

/// A warning of an entry, if what it warns of holds there.
pub fn warned(kind: WarningKind, card: u16, holds: bool, entry: IndicatorEntry) -> Option<Warning>
    ensures { result ≡ warned_spec kind card (λ _. holds) (Some entry) }
{
    if !holds {
        return None;
    }
    Some(Warning {
        kind,
        card,
        from: entry.from,
        to: entry.to,
    })
}

/// Whether an indicator is never on unless a card turns it on.
fn needs_a_card(indicator: Indicator) -> bool
    ensures { result ≡ spec.needs_a_card indicator }
{
    matches!(
        indicator,
        Indicator::General(_) | Indicator::Halt(_) | Indicator::Matching | Indicator::Overflow(_)
    )
}

/// Whether an indicator does nothing unless a card tests it.
fn needs_a_test(indicator: Indicator) -> bool
    ensures { result ≡ spec.needs_a_test indicator }
{
    matches!(
        indicator,
        Indicator::General(_) | Indicator::Level(_) | Indicator::Overflow(_)
    )
}

/// Whether nothing turns on the indicator of an entry.
fn is_never_set(known: &Known, entry: &IndicatorEntry) -> bool
    ensures { result ≡ spec.is_never_set (facts_shown known.now) entry.now }
{
    needs_a_card(entry.indicator) && !known.set.contains(&entry.indicator.number())
}

/// Whether nothing tests the indicator of an entry.
fn is_never_tested(known: &Known, entry: &IndicatorEntry) -> bool
    ensures { result ≡ spec.is_never_tested (facts_shown known.now) entry.now }
{
    needs_a_test(entry.indicator) && !known.tested.contains(&entry.indicator.number())
}

/// The warning of an entry of a card that is tested, if nothing turns its indicator on.
fn never_set(known: &Known, card: u16, entry: Option<IndicatorEntry>) -> Option<Warning>
    ensures { result ≡ warned_spec NeverSet card (spec.is_never_set (facts_shown known.now)) entry }
{
    match entry {
        Some(entry) => {
            let holds = is_never_set(known, &entry);
            warned(WarningKind::NeverSet, card, holds, entry)
        }
        None => None,
    }
}

/// The warning of an entry of a card that turns its indicator, if nothing tests that.
fn never_tested(known: &Known, card: u16, entry: Option<IndicatorEntry>) -> Option<Warning>
    ensures { result ≡ warned_spec NeverTested card (spec.is_never_tested (facts_shown known.now)) entry }
{
    match entry {
        Some(entry) => {
            let holds = is_never_tested(known, &entry);
            warned(WarningKind::NeverTested, card, holds, entry)
        }
        None => None,
    }
}

/// The warnings of a card that tests what is never on; refused only if memory runs out.
pub fn never_set_on(alloc: Global, known: &Known, line: &Line) -> Result<Vec<Warning>, AllocError>
    ensures { IfOk result (λ found. found.items ≡ spec.never_set_on (facts_shown known.now) line.now) }
{
    let entries = tested_on(&line.sheet);
    entries
        .iter()
        .filter_map(|entry| never_set(known, line.card, *entry))
        .collect(alloc)
}

/// The warnings of a card that turns what is never tested; refused only if memory runs out.
pub fn never_tested_on(
    alloc: Global,
    known: &Known,
    line: &Line,
) -> Result<Vec<Warning>, AllocError>
    ensures { IfOk result (λ found. found.items ≡ spec.never_tested_on (facts_shown known.now) line.now) }
{
    let entries = turned_on(&line.sheet);
    entries
        .iter()
        .filter_map(|entry| never_tested(known, line.card, *entry))
        .collect(alloc)
}
