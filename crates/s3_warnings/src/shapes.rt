//! The shapes of fields, each by the first line that gives it one.
ghost use Rattle.std.specs.Prelude.{◌≡◌, ◌++◌, IfOk, OnOk, IsTrue, filter_map};
ghost use Rattle.std.specs.Option.{option_to_list};
ghost use Rattle.std.specs.Map.{lookup};
ghost use Rattle.s3_cards.specs.Names.{same_name};
ghost use Rattle.s3_meaning.specs.Source.{reserved_shapes};
ghost use Rattle.s3_program.specs.Inner.Given.{all_noted, firsts};
ghost use Rattle.s3_diagnose.specs.Inner.Ranged.{is_ranged, is_ranged_input, are_ranged};
ghost use Rattle.s3_diagnose.specs.Lookups.{input_given, result_given};
ghost use Rattle.s3_warnings.specs.Inner.Facts.{shape_given as shape_given_spec};

use indexmap::IndexMap;
use s3_cards::Name;
use s3_diagnose::shapes::shape_of_field;
use s3_lines::reserved::{PAGE, UDATE, UDAY, UMONTH, UYEAR};
use s3_lines::sheet::{CalculationLine, InputLine, Line, Shape, SheetLine};
use s3_program::defining::note;
use std::alloc::{AllocError, Global};

/// The shapes of fields, by name.
pub type Shapes = IndexMap<Name, Shape>;

/// Adds the fields that the language has itself.
#[tactic(auto, unfolding(s3_program::specs::Inner::Given::all_noted))]
fn note_reserved(shapes: &mut Shapes) -> Result<(), AllocError>
    ensures { OnOk result (shapes.new.entries ≡ all_noted shapes.old.entries reserved_shapes) }
{
    note(shapes, PAGE, Shape::Numeric(4, 0))?;
    note(shapes, UDATE, Shape::Numeric(6, 0))?;
    note(shapes, UMONTH, Shape::Numeric(2, 0))?;
    note(shapes, UDAY, Shape::Numeric(2, 0))?;
    note(shapes, UYEAR, Shape::Numeric(2, 0))?;
    Ok(())
}

/// The field of a record, with its shape.
fn field_given(line: &InputLine) -> Option<(Name, Shape)>
    requires { IsTrue (is_ranged_input line.now) }
    ensures { result ≡ input_given line.now }
{
    match line {
        InputLine::Field(field) => Some((field.name, shape_of_field(field))),
        _ => None,
    }
}

/// The result of an operation, with the shape that its card gives it.
fn result_of(line: &CalculationLine) -> Option<(Name, Shape)>
    ensures { result ≡ result_given line.now }
{
    match (line.operation, line.result, line.definition) {
        (Some(_), Some(name), Some(shape)) => Some((name, shape)),
        _ => None,
    }
}

/// The field that a line gives a shape.
fn shape_given(line: &Line) -> Option<(Name, Shape)>
    requires { IsTrue (is_ranged line.now.sheet) }
    ensures { result ≡ shape_given_spec line.now }
{
    match &line.sheet {
        SheetLine::Input(input) => field_given(input),
        SheetLine::Calculation(calculation) => result_of(calculation),
        _ => None,
    }
}

/// Adds the field that a line gives a shape, unless it has one.
#[tactic(auto, unfolding(s3_program::specs::Inner::Given::all_noted))]
fn note_shape(shapes: &mut Shapes, line: &Line) -> Result<(), AllocError>
    requires { IsTrue (is_ranged line.now.sheet) }
    ensures { OnOk result (shapes.new.entries ≡ all_noted shapes.old.entries (option_to_list (shape_given_spec line.now))) }
{
    if let Some((name, shape)) = shape_given(line) {
        note(shapes, name, shape)?;
    }
    Ok(())
}

/// Adds the fields that lines give shapes.
#[tactic(auto, unfolding(s3_program::specs::Inner::Given::all_noted))]
fn note_shapes(shapes: &mut Shapes, lines: &[Line]) -> Result<(), AllocError>
    requires { IsTrue (are_ranged lines.now) }
    ensures { OnOk result (shapes.new.entries ≡ all_noted shapes.old.entries (filter_map shape_given_spec lines.now)) }
{
    for line in lines {
        note_shape(shapes, line)?;
    }
    Ok(())
}

/// The shapes of all fields; refused only if memory runs out.
pub fn shapes_of(alloc: Global, lines: &[Line]) -> Result<Shapes, AllocError>
    requires { IsTrue (are_ranged lines.now) }
    ensures { IfOk result (λ shapes. shapes.entries ≡ firsts (reserved_shapes ++ filter_map shape_given_spec lines.now)) }
{
    let mut shapes = IndexMap::new(alloc);
    note_reserved(&mut shapes)?;
    note_shapes(&mut shapes, lines)?;
    Ok(shapes)
}

/// The shape of a field; none if nothing defines it.
pub fn shape_of(shapes: &Shapes, name: Name) -> Option<Shape>
    ensures { result ≡ lookup (same_name name) shapes.now.entries }
{
    shapes.get(&name).copied()
}
