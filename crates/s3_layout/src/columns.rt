//! The fields of a layout, by their lines.
ghost use Rattle.std.specs.Prelude.{◌≡◌, ◌++◌, ◌∷◌, [], IfOk, OnOk, map};
ghost use Rattle.std.specs.List.{All, IsDistinct};
ghost use Rattle.std.specs.Option.{option_or};
ghost use Rattle.std.specs.Result.{result_err};
ghost use Rattle.s3_cards.specs.Names.{same_name};
ghost use Rattle.s3_cells.specs.Inner.Fields.{LiesIn};
ghost use Rattle.s3_layout.specs.Inner.Columns.{AreFieldsOf, column_of, entry_column, field_name, kind_of as kind_of_spec};
ghost use Rattle.s3_layout.specs.Inner.Refusals.{Refuses, entries_refusal, form_refusal, name_refusal};

use crate::fault::LayoutFault;
use indexmap::IndexSet;
use s3_cards::Name;
use s3_cells::{Field, FieldKind, NumberCells, TextCells};
use s3_lines::sheet::{FieldForm, FieldLine};
use std::alloc::Global;

/// The fields of these lines, which have names of their own.
pub fn fields_of(
    alloc: Global,
    entries: &[FieldLine],
    record_length: u16,
) -> Result<Vec<Field>, LayoutFault>
    ensures fields { IfOk result (λ fields. AreFieldsOf record_length entries.now fields.items) }
    ensures refused { Refuses (entries_refusal record_length [] entries.now) result }
{
    let mut fields = Vec::new(alloc);
    let mut names = IndexSet::new(alloc);
    for entry in entries {
        add_field(&mut fields, &mut names, entry, record_length)?;
    }
    Ok(fields)
}

/// Adds the field of a line and its name, unless the name is there.
fn add_field(
    fields: &mut Vec<Field>,
    names: &mut IndexSet<Name>,
    entry: &FieldLine,
    record_length: u16,
) -> Result<(), LayoutFault>
    requires { All (LiesIn record_length) fields.old.items }
    ensures lies { OnOk result (All (LiesIn record_length) fields.new.items) }
    ensures columns { OnOk result (map column_of fields.new.items ≡ map column_of fields.old.items ++ entry_column entry.now ∷ []) }
    ensures names { OnOk result (names.new.keys ≡ names.old.keys ++ entry.now.name ∷ []) }
    ensures own_names { OnOk result (IsDistinct same_name names.new.keys) }
    ensures named { OnOk result (names.old.keys ≡ map field_name fields.old.items → names.new.keys ≡ map field_name fields.new.items) }
    ensures refused { Refuses (option_or (form_refusal record_length entry.now) (name_refusal names.old.keys entry.now.name)) result }
{
    let field = field_of(entry, record_length)?;
    if !names.insert(field.name)? {
        return Err(LayoutFault::Twice(field.name));
    }
    fields.push(field)?;
    Ok(())
}

/// The field of a line of the I sheet.
fn field_of(entry: &FieldLine, record_length: u16) -> Result<Field, LayoutFault>
    ensures lies { IfOk result (LiesIn record_length) }
    ensures column { IfOk result (λ field. column_of field ≡ entry_column entry.now) }
    ensures refused { result_err result ≡ form_refusal record_length entry.now }
{
    let no_form = LayoutFault::NoForm(entry.name);
    let Some(kind) = kind_of(entry.form) else {
        return Err(no_form);
    };
    if entry.from < 1 || entry.to < entry.from || record_length < entry.to {
        return Err(no_form);
    }
    let width = entry.to - entry.from + 1;
    if !kind.suits(width) {
        return Err(no_form);
    }
    Ok(Field {
        name: entry.name,
        start: entry.from - 1,
        width,
        kind,
    })
}

/// How a field lies in its record, by its line; none for P without decimals.
fn kind_of(form: FieldForm) -> Option<FieldKind>
    ensures { result ≡ kind_of_spec form }
{
    match form {
        FieldForm::Alphanumeric => Some(FieldKind::Text(TextCells::PLAIN)),
        FieldForm::Zoned(decimals) => Some(FieldKind::Zoned(decimals, NumberCells::PLAIN)),
        FieldForm::Packed(decimals) => Some(FieldKind::Packed(decimals, NumberCells::PLAIN)),
        FieldForm::PackedText => None,
    }
}
