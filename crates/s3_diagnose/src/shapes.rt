//! The shapes of what lines name.

ghost use Rattle.std.specs.Prelude.{◌≡◌, IsTrue};
ghost use Rattle.s3_program.specs.Shapes as spec;
ghost use Rattle.s3_program.specs.Redefined.{positions_of as positions_spec, shape_of_field as shape_of_field_spec};
ghost use Rattle.s3_diagnose.specs.Inner.Ranged.{is_ranged_field};

use s3_lines::sheet::{FieldForm, FieldLine, Shape};
use s3_program::program::Meaning;

/// The shape of the field that a name means, by its first definition; none if the name doesn't mean a field.
pub fn shape_meant(meaning: &Meaning) -> Option<Shape>
    ensures { result ≡ spec.shape_meant meaning.now }
{
    match meaning {
        Meaning::Field(field) => Some(field.meaning),
        _ => None,
    }
}

/// Whether a shape is that of numbers.
pub fn is_numeric_shape(shape: Option<Shape>) -> bool
    ensures { result ≡ spec.is_numeric_shape shape }
{
    matches!(shape, Some(Shape::Numeric(_, _)))
}

/// Whether a shape is that of texts.
pub fn is_text_shape(shape: Option<Shape>) -> bool
    ensures { result ≡ spec.is_text_shape shape }
{
    matches!(shape, Some(Shape::Alphanumeric(_)))
}

/// Whether two shapes are the same.
pub fn same_shape(a: Shape, b: Shape) -> bool
    ensures { result ≡ spec.same_shape a b }
{
    match (a, b) {
        (Shape::Alphanumeric(m), Shape::Alphanumeric(n)) => m == n,
        (Shape::Numeric(m, d), Shape::Numeric(n, e)) => m == n && d == e,
        _ => false,
    }
}

/// Whether two shapes are of one kind and one length, in bytes or digits.
pub fn same_kind_and_length(a: Shape, b: Shape) -> bool
    ensures { result ≡ spec.same_kind_and_length a b }
{
    match (a, b) {
        (Shape::Alphanumeric(m), Shape::Alphanumeric(n)) => m == n,
        (Shape::Numeric(m, _), Shape::Numeric(n, _)) => m == n,
        _ => false,
    }
}

/// The number of positions of a field; 0 if it ends before it begins.
fn positions_of<N>(field: &FieldLine<N>) -> usize
    ensures { result ≡ positions_spec field.now }
{
    (usize::from(field.to) + 1).saturating_sub(usize::from(field.from))
}

/// The shape that a field line of the I sheet gives its field.
pub fn shape_of_field<N>(field: &FieldLine<N>) -> Shape
    requires { IsTrue (is_ranged_field field.now) }
    ensures { result ≡ shape_of_field_spec field.now }
{
    let positions = positions_of(field);
    match field.form {
        FieldForm::Alphanumeric | FieldForm::PackedText => Shape::Alphanumeric(positions as u16),
        FieldForm::Zoned(decimals) => Shape::Numeric(positions as u8, decimals),
        FieldForm::Packed(decimals) => Shape::Numeric(
            (2 * positions).saturating_sub(1) as u8,
            decimals,
        ),
    }
}
