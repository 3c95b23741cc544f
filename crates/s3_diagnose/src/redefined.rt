//! Diagnostic 6: a name defined twice or otherwise, or a reserved field defined or changed.

ghost use Rattle.std.specs.Prelude.{◌≡◌, IsTrue};
ghost use Rattle.s3_program.specs.Redefined as spec;
ghost use Rattle.s3_diagnose.specs.Inner.Ranged.{is_ranged_input};

use crate::rows::row_of;
use crate::shapes::{same_shape, shape_of_field};
use crate::undefined::is_target;
use s3_cards::Name;
use s3_lines::is_reserved;
use s3_lines::reserved::PAGE;
use s3_lines::sheet::{CalculationLine, Factor, InputLine, Operation, Shape};
use s3_program::program::Meaning;
use s3_program::standing::CalculationStanding;

fn is_date(name: &Name) -> bool
    ensures { result ≡ spec.is_date name.now }
{
    is_reserved(name) && *name != PAGE
}

/// Whether the first line with a name is at another place than this one.
pub fn is_elsewhere(place: usize, first: Option<usize>) -> bool
    ensures { result ≡ spec.is_elsewhere place first }
{
    match first {
        None => false,
        Some(first) => first != place,
    }
}

fn is_reshaped(shape: Shape, meaning: &Meaning) -> bool
    ensures { result ≡ spec.is_reshaped shape meaning.now }
{
    match meaning {
        Meaning::Field(field) => is_date(&field.name) || !same_shape(field.meaning, shape),
        _ => false,
    }
}

/// Whether diagnostic 6 holds for an I line: its field is first defined with another shape, or it is a field of the job's date.
pub fn input_redefined(line: &InputLine<Meaning>) -> bool
    requires { IsTrue (is_ranged_input line.now) }
    ensures { result ≡ spec.input_redefined line.now }
{
    match line {
        InputLine::Field(field) => is_reshaped(shape_of_field(field), &field.name),
        _ => false,
    }
}

fn is_date_meant(meaning: &Meaning) -> bool
    ensures { result ≡ spec.is_date_meant meaning.now }
{
    match meaning {
        Meaning::Field(field) => is_date(&field.name),
        _ => false,
    }
}

fn result_redefined(operation: Operation, definition: Option<Shape>, entry: Option<Meaning>) -> bool
    ensures { result ≡ spec.result_redefined operation definition entry }
{
    match (definition, entry) {
        (_, None) => false,
        (Some(shape), Some(meaning)) => is_reshaped(shape, &meaning),
        (None, Some(meaning)) => is_target(row_of(operation).result) && is_date_meant(&meaning),
    }
}

fn is_second_tag(place: usize, meaning: &Meaning) -> bool
    ensures { result ≡ spec.is_second_tag place meaning.now }
{
    match meaning {
        Meaning::Tag(tag) => tag.place != place,
        _ => false,
    }
}

fn is_second_subroutine(place: usize, meaning: &Meaning) -> bool
    ensures { result ≡ spec.is_second_subroutine place meaning.now }
{
    match meaning {
        Meaning::Subroutine(subroutine) => subroutine.place != place,
        _ => false,
    }
}

fn name_redefined(place: usize, operation: Operation, meaning: &Meaning) -> bool
    ensures { result ≡ spec.name_redefined place operation meaning.now }
{
    match operation {
        Operation::Tag => is_second_tag(place, meaning),
        Operation::BeginSubroutine => is_second_subroutine(place, meaning),
        _ => false,
    }
}

fn label_redefined(place: usize, operation: Operation, factor: Option<Factor<Meaning>>) -> bool
    ensures { result ≡ spec.label_redefined place operation factor }
{
    match factor {
        Some(Factor::Named(meaning)) => name_redefined(place, operation, &meaning),
        _ => false,
    }
}

/// Whether diagnostic 6 holds for a C line: its tag or subroutine is defined twice, its result is first defined with another
/// shape, or a reserved field is defined or changed.
pub fn calculation_redefined(at: &CalculationStanding, line: &CalculationLine<Meaning>) -> bool
    ensures { result ≡ spec.calculation_redefined at.now line.now }
{
    match line.operation {
        None | Some(Operation::Unknown) => false,
        Some(operation) => label_redefined(at.place, operation, line.factor1)
            || result_redefined(operation, line.definition, line.result),
    }
}
