//! Conditions of one card that can't hold together.
ghost use Rattle.std.specs.Prelude.{◌≡◌, IfOk};
ghost use Rattle.s3_warnings.specs.declared.kinds.WarningKind.TheVariants.{Contradiction};
ghost use Rattle.s3_warnings.specs.Inner.Marking.{warned as warned_spec};
ghost use Rattle.s3_warnings.specs.Inner.Contradictions as spec;

use crate::entries::{Entries, IndicatorEntry, tested_on};
use crate::indicators::warned;
use crate::kinds::{Warning, WarningKind};
use s3_lines::sheet::Line;
use std::alloc::{AllocError, Global};

/// Whether another entry asks for the opposite of an entry.
fn contradicts(entry: &IndicatorEntry, other: Option<IndicatorEntry>) -> bool
    ensures { result ≡ spec.contradicts entry.now other }
{
    match other {
        Some(other) => entry.indicator.is(other.indicator) && entry.negated != other.negated,
        None => false,
    }
}

/// Whether one of a card's entries asks for the opposite of an entry.
fn is_contradicted(entries: &Entries, entry: &IndicatorEntry) -> bool
    ensures { result ≡ spec.is_contradicted entries.now entry.now }
{
    entries.iter().any(|other| contradicts(entry, *other))
}

/// The warning of an entry of a card, if another one of its entries asks for the opposite.
fn contradiction(entries: &Entries, card: u16, entry: Option<IndicatorEntry>) -> Option<Warning>
    ensures { result ≡ warned_spec Contradiction card (spec.is_contradicted entries.now) entry }
{
    match entry {
        Some(entry) => {
            let holds = is_contradicted(entries, &entry);
            warned(WarningKind::Contradiction, card, holds, entry)
        }
        None => None,
    }
}

/// The warnings of a card whose conditions can't hold together; refused only if memory runs out.
pub fn contradictions_on(alloc: Global, line: &Line) -> Result<Vec<Warning>, AllocError>
    ensures { IfOk result (λ found. found.items ≡ spec.contradictions_on line.now) }
{
    let entries = tested_on(&line.sheet);
    entries
        .iter()
        .filter_map(|entry| contradiction(&entries, line.card, *entry))
        .collect(alloc)
}
