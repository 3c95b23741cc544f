//! A record as its fields show it.
ghost use Rattle.std.specs.Prelude.{◌≡◌, ◌≤◌, ◌+◌, length};
ghost use Rattle.s3_cells.specs.Inner.Fields.{LiesIn};

use s3_cells::{Field, Layout};
use s3_dump::{bytes_of, push_name, push_value};
use std::alloc::{AllocError, Global};

/// Appends a line for each field of a record: its name, and its value, or the values before and after if the field's bytes have changed.
/// A value that can't be shown is in hexadecimal digits.
#[tactic(auto, using(s3_load::proofs::RecordLemmas::field_lies))]
pub fn push_record(
    alloc: Global,
    text: &mut Vec<u8>,
    layout: &Layout,
    before: &[u8],
    after: &[u8],
) -> Result<(), AllocError> {
    let long = usize::from(layout.record_length);
    if before.len() != long || after.len() != long {
        return Ok(());
    }
    for field in &layout.fields {
        push_field(alloc, text, field, before, after)?;
    }
    Ok(())
}

/// Appends the line of a field.
fn push_field(
    alloc: Global,
    text: &mut Vec<u8>,
    field: &Field,
    before: &[u8],
    after: &[u8],
) -> Result<(), AllocError>
    requires before { LiesIn (length before.now) field.now }
    requires after { LiesIn (length after.now) field.now }
{
    push_name(text, field.name)?;
    push_value(alloc, text, field, before)?;
    if bytes_of(field, before) != bytes_of(field, after) {
        text.extend_from_slice(b" -> ")?;
        push_value(alloc, text, field, after)?;
    }
    text.push(b'\n')?;
    Ok(())
}
