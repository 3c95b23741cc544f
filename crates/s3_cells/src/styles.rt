//! Layouts with the cells of their tables written in another way.
ghost use Rattle.std.specs.Prelude.{◌≡◌, ◌++◌, ◌∷◌, [], true, IfOk, OnOk, map};
ghost use Rattle.std.specs.List.{All, list_any};
ghost use Rattle.s3_cards.specs.Names.{same_name};
ghost use Rattle.s3_cells.specs.Inner.Fields.{LiesIn};
ghost use Rattle.s3_cells.specs.Inner.Values.{is_kind_of};
ghost use Rattle.s3_cells.specs.Inner.Styles.{form_of, form_styled, kind_styled};

use crate::dates::DateField;
use crate::field::Field;
use crate::kind::FieldKind;
use crate::layout::Layout;
use crate::marks::{NumberCells, TextCells};
use s3_cards::Name;
use std::alloc::{AllocError, Global};

/// How the cells of a table are written.
#[derive(Clone, Copy)]
pub struct CellStyle<'a> {
    /// Those of texts.
    pub texts: TextCells,
    /// Those of numbers.
    pub numbers: NumberCells,
    /// The fields of six positions, texts or zoned numbers without decimals, that are dates.
    pub dates: &'a [Name],
}

impl Layout {
    /// The same layout with its cells written so. A field that is named as a date and can't be one stays what it is.
    pub fn with_cells(&self, alloc: Global, cells: &CellStyle<'_>) -> Result<Layout, AllocError>
        ensures long { IfOk result (λ layout. layout.record_length ≡ self.now.record_length) }
        ensures fields { IfOk result (λ layout. map form_of layout.fields.items ≡ map (form_styled cells.now) self.now.fields.items) }
    {
        let record_length = self.record_length;
        let fields = styled_fields(alloc, &self.fields, cells, record_length)?;
        Ok(Layout {
            record_length,
            fields,
        })
    }
}

/// Fields with their cells written so.
#[tactic(auto, using(crate::proofs::StyleLemmas::field_lies, crate::proofs::StyleLemmas::one_more_styled))]
fn styled_fields(
    alloc: Global,
    fields: &[Field],
    cells: &CellStyle<'_>,
    record_length: u16,
) -> Result<Vec<Field>, AllocError>
    requires { All (LiesIn record_length) fields.now }
    ensures within { IfOk result (λ styled. All (LiesIn record_length) styled.items) }
    ensures forms { IfOk result (λ styled. map form_of styled.items ≡ map (form_styled cells.now) fields.now) }
{
    let mut styled = Vec::new(alloc);
    for field in fields {
        push_styled(&mut styled, field, cells, record_length)?;
    }
    Ok(styled)
}

/// Adds a field with its cells written so.
fn push_styled(
    fields: &mut Vec<Field>,
    field: &Field,
    cells: &CellStyle<'_>,
    record_length: u16,
) -> Result<(), AllocError>
    requires within { All (LiesIn record_length) fields.old.items }
    requires lies { LiesIn record_length field.now }
    ensures within { OnOk result (All (LiesIn record_length) fields.new.items) }
    ensures forms { OnOk result (map form_of fields.new.items ≡ map form_of fields.old.items ++ form_styled cells.now field.now ∷ []) }
{
    fields.push(styled(field, cells))?;
    Ok(())
}

/// A field with its cells written so.
fn styled(field: &Field, cells: &CellStyle<'_>) -> Field
    ensures { form_of result ≡ form_styled cells.now field.now }
{
    let is_date = has_name(cells.dates, field.name);
    Field {
        name: field.name,
        start: field.start,
        width: field.width,
        kind: styled_kind(field, cells, is_date),
    }
}

/// Whether a name is one of these.
fn has_name(names: &[Name], name: Name) -> bool
    ensures { result ≡ list_any (λ other. same_name other name) names.now }
{
    names.iter().any(|other| *other == name)
}

/// How the cells of a field are written, if it is named as a date or not.
fn styled_kind(field: &Field, cells: &CellStyle<'_>, is_date: bool) -> FieldKind
    ensures kind { result ≡ kind_styled cells.now is_date field.now.width field.now.kind }
    ensures suits { is_kind_of result field.now.width ≡ true }
{
    match field.kind {
        FieldKind::Text(_) if is_date && field.width == 6 => FieldKind::Date(DateField::Text),
        FieldKind::Zoned(0, _) if is_date && field.width == 6 => FieldKind::Date(DateField::Number),
        FieldKind::Text(_) => FieldKind::Text(cells.texts),
        FieldKind::Zoned(decimals, _) => FieldKind::Zoned(decimals, cells.numbers),
        FieldKind::Packed(decimals, _) => FieldKind::Packed(decimals, cells.numbers),
        FieldKind::Date(form) => FieldKind::Date(form),
    }
}
