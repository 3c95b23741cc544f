//! Rows of a table: a cell for each field of a record.
ghost use Rattle.std.specs.Prelude.{◌≡◌, ◌++◌, [], ◌∷◌, true, length, OnOk, IfErr};
ghost use Rattle.std.specs.List.{All};
ghost use Rattle.csv.specs.Records.{fields_of, partial_of};
ghost use Rattle.s3_cells.specs.Inner.Fields.{LiesIn, cell_of, is_shown};
ghost use Rattle.s3_unload.specs.Inner.Hidden.{HidesField};
ghost use Rattle.s3_unload.specs.Inner.Tables.{IsHiddenValue, are_shown, heading, name_text, row_of};

use csv::ByteRecord;
use s3_cards::{Name, push_characters, word_len};
use s3_cells::{Field, ShowFault};
use std::alloc::{AllocError, Global};

/// A field whose value can't be shown, and why; or that memory was refused.
#[derive(Clone, Copy)]
pub struct HiddenField {
    /// The field.
    pub field: Field,
    /// Why it isn't shown.
    pub fault: ShowFault,
}

/// Adds a cell for each field of a record to an empty row.
#[tactic(auto, using(crate::proofs::RowLemmas::field_lies, crate::proofs::RowLemmas::one_more_shown, crate::proofs::RowLemmas::one_not_shown, crate::proofs::RowLemmas::one_more_cell))]
pub fn fill_row(
    alloc: Global,
    fields: &[Field],
    bytes: &[u8],
    row: &mut ByteRecord,
) -> Result<(), HiddenField>
    requires within { All (LiesIn (length bytes.now)) fields.now }
    requires empty { fields_of row.old ≡ [] }
    requires whole { partial_of row.old ≡ [] }
    ensures row { OnOk result (fields_of row.new ≡ row_of fields.now bytes.now) }
    ensures shown { OnOk result (are_shown fields.now bytes.now ≡ true) }
    ensures hidden { IfErr result (HidesField fields.now bytes.now) }
{
    for field in fields {
        add_cell(alloc, field, bytes, row)?;
    }
    Ok(())
}

/// Adds the cell of a field of a record to a row.
fn add_cell(
    alloc: Global,
    field: &Field,
    bytes: &[u8],
    row: &mut ByteRecord,
) -> Result<(), HiddenField>
    requires within { LiesIn (length bytes.now) field.now }
    requires whole { partial_of row.old ≡ [] }
    ensures row { OnOk result (fields_of row.new ≡ fields_of row.old ++ cell_of field.now bytes.now ∷ []) }
    ensures whole { OnOk result (partial_of row.new ≡ []) }
    ensures shown { OnOk result (is_shown field.now bytes.now ≡ true) }
    ensures hidden { IfErr result (λ hidden. IsHiddenValue field.now bytes.now hidden.fault) }
{
    // A packed byte has two digits; a point and a minus may come to them.
    let room = usize::from(field.width).saturating_mul(2).saturating_add(2);
    let Ok(mut cell) = Vec::with_capacity(alloc, room) else {
        return Err(HiddenField {
            field: *field,
            fault: ShowFault::NoMemory,
        });
    };
    if let Err(fault) = field.show(bytes, &mut cell) {
        return Err(HiddenField {
            field: *field,
            fault,
        });
    }
    match row.push_field(&cell) {
        Ok(()) => Ok(()),
        Err(_) => Err(HiddenField {
            field: *field,
            fault: ShowFault::NoMemory,
        }),
    }
}

/// Adds the names of fields to an empty row.
#[tactic(auto, using(crate::proofs::RowLemmas::one_more_name))]
pub fn fill_heading(alloc: Global, fields: &[Field], row: &mut ByteRecord) -> Result<(), AllocError>
    requires empty { fields_of row.old ≡ [] }
    requires whole { partial_of row.old ≡ [] }
    ensures { OnOk result (fields_of row.new ≡ heading fields.now) }
{
    for field in fields {
        add_name(alloc, field.name, row)?;
    }
    Ok(())
}

/// Adds a name to a row.
fn add_name(alloc: Global, name: Name, row: &mut ByteRecord) -> Result<(), AllocError>
    requires { partial_of row.old ≡ [] }
    ensures row { OnOk result (fields_of row.new ≡ fields_of row.old ++ name_text name ∷ []) }
    ensures whole { OnOk result (partial_of row.new ≡ []) }
{
    let mut cell = Vec::new(alloc);
    push_name(&mut cell, name)?;
    row.push_field(&cell)
}

/// Appends the characters of a name, up to its first blank.
fn push_name(text: &mut Vec<u8>, name: Name) -> Result<(), AllocError>
    ensures { OnOk result (text.new.items ≡ text.old.items ++ name_text name) }
{
    push_characters(text, &name.codes[..word_len(&name.codes)])
}
