//! What the lines of a source set, test and define.
ghost use Rattle.std.specs.Prelude.{◌≡◌, ◌||◌, nat_eq, IfOk, OnOk};
ghost use Rattle.indexmap.specs.IndexSet.{contains};
ghost use Rattle.s3_lines.specs.declared.indicator.Indicator.{Indicator};
ghost use Rattle.s3_lines.specs.Indicators.{indicator_number};
ghost use Rattle.s3_warnings.specs.Inner.Facts.{is_among, is_entry_of, is_set_by, is_tested_by};

use crate::entries::{IndicatorEntry, set_on, tested_on};
use crate::shapes::Shapes;
use indexmap::IndexSet;
use s3_lines::sheet::Line;
use std::alloc::{AllocError, Global};

/// What the lines of a source set, test and define.
#[derive(Drop)]
pub struct Known {
    /// The numbers of the indicators that the lines may turn on.
    pub set: IndexSet<usize>,
    /// The numbers of the indicators that the lines test.
    pub tested: IndexSet<usize>,
    /// The shape of each field.
    pub shapes: Shapes,
}

/// Adds the indicator of an entry.
fn add(set: &mut IndexSet<usize>, entry: Option<IndicatorEntry>) -> Result<(), AllocError>
    ensures { OnOk result ((indicator : Indicator) → contains nat_eq set.new (indicator_number indicator) ≡ (is_entry_of indicator entry || contains nat_eq set.old (indicator_number indicator))) }
{
    if let Some(entry) = entry {
        set.insert(entry.indicator.number())?;
    }
    Ok(())
}

/// Adds the indicators of a card's entries.
fn add_all(set: &mut IndexSet<usize>, entries: &[Option<IndicatorEntry>]) -> Result<(), AllocError>
    ensures { OnOk result ((indicator : Indicator) → contains nat_eq set.new (indicator_number indicator) ≡ (is_among indicator entries.now || contains nat_eq set.old (indicator_number indicator))) }
{
    for entry in entries {
        add(set, *entry)?;
    }
    Ok(())
}

/// The numbers of the indicators that lines may turn on; refused only if memory runs out.
pub fn set_by(alloc: Global, lines: &[Line]) -> Result<IndexSet<usize>, AllocError>
    ensures { IfOk result (λ set. (indicator : Indicator) → contains nat_eq set (indicator_number indicator) ≡ is_set_by lines.now indicator) }
{
    let mut set = IndexSet::new(alloc);
    for line in lines {
        add_all(&mut set, &set_on(&line.sheet))?;
    }
    Ok(set)
}

/// The numbers of the indicators that lines test; refused only if memory runs out.
pub fn tested_by(alloc: Global, lines: &[Line]) -> Result<IndexSet<usize>, AllocError>
    ensures { IfOk result (λ set. (indicator : Indicator) → contains nat_eq set (indicator_number indicator) ≡ is_tested_by lines.now indicator) }
{
    let mut set = IndexSet::new(alloc);
    for line in lines {
        add_all(&mut set, &tested_on(&line.sheet))?;
    }
    Ok(set)
}
