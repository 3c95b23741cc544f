//! Numbers that are filled, since no column has them.
ghost use Rattle.std.specs.Prelude.{◌≡◌, [], true, length, replicate, OnOk, IfOk};
ghost use Rattle.std.specs.List.{All, list_all};
ghost use Rattle.s3_cells.specs.Inner.Fields.{LiesIn};
ghost use Rattle.s3_load.specs.Inner.Settling.{AreSettled, is_settled as is_settled_spec};

use crate::fault::HeadingFault;
use crate::rows::fill;
use s3_cards::ebcdic::BLANK;
use s3_cells::Field;
use std::alloc::{AllocError, Global};

/// The numbers among some fields that aren't 0 once all of the fields are filled in a blank record, since they lie over each other.
pub fn unsettled(
    alloc: Global,
    record_length: u16,
    fields: &[Field],
) -> Result<Vec<HeadingFault>, AllocError>
    requires { All (LiesIn record_length) fields.now }
    ensures { IfOk result (λ faults. faults.items ≡ [] → AreSettled record_length fields.now) }
{
    let mut bytes = vec![in alloc; BLANK; usize::from(record_length)]?;
    fill(fields, &mut bytes);
    let mut faults = Vec::new(alloc);
    tell_each(alloc, fields, &bytes, &mut faults)?;
    Ok(faults)
}

/// Adds each number among some fields that isn't 0 in a record.
#[tactic(auto, using(crate::proofs::ColumnLemmas::one_more_settled, crate::proofs::RecordLemmas::field_lies))]
fn tell_each(
    alloc: Global,
    fields: &[Field],
    bytes: &[u8],
    faults: &mut Vec<HeadingFault>,
) -> Result<(), AllocError>
    requires { All (LiesIn (length bytes.now)) fields.now }
    ensures settled { OnOk result (faults.new.items ≡ [] → list_all (is_settled_spec bytes.now) fields.now ≡ true) }
    ensures before { OnOk result (faults.new.items ≡ [] → faults.old.items ≡ []) }
{
    for field in fields {
        tell_one(alloc, field, bytes, faults)?;
    }
    Ok(())
}

/// Adds a field, if it is a number and isn't 0 in a record.
#[tactic(auto, using(crate::proofs::ColumnLemmas::none_told))]
fn tell_one(
    alloc: Global,
    field: &Field,
    bytes: &[u8],
    faults: &mut Vec<HeadingFault>,
) -> Result<(), AllocError>
    requires { LiesIn (length bytes.now) field.now }
    ensures settled { OnOk result (faults.new.items ≡ [] → is_settled_spec bytes.now field.now ≡ true) }
    ensures before { OnOk result (faults.new.items ≡ [] → faults.old.items ≡ []) }
{
    if is_settled(alloc, field, bytes)? {
        return Ok(());
    }
    faults.push(HeadingFault::NotZero(field.name))?;
    Ok(())
}

/// Whether a field of a record is 0 in it, if it is a number.
fn is_settled(alloc: Global, field: &Field, bytes: &[u8]) -> Result<bool, AllocError>
    requires { LiesIn (length bytes.now) field.now }
    ensures { IfOk result (λ is. is ≡ is_settled_spec bytes.now field.now) }
{
    let mut zeroed = Vec::from_slice(alloc, bytes)?;
    field.make_zero(&mut zeroed);
    Ok(zeroed.as_slice() == bytes)
}
