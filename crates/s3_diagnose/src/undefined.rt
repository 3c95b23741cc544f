//! Diagnostic 5: a file, field, tag or subroutine that isn't defined.

ghost use Rattle.std.specs.Prelude.{◌≡◌};
ghost use Rattle.s3_program.specs.Undefined as spec;

use crate::rows::row_of;
use s3_lines::sheet::{CalculationLine, Factor, InputLine, OutputContent, OutputLine};
use s3_program::program::Meaning;
use s3_program::row::{Operand, Row, Target};
use s3_program::standing::OutputStanding;

/// Whether nothing has the name with this meaning.
pub fn is_undefined(meaning: &Meaning) -> bool
    ensures { result ≡ spec.is_undefined meaning.now }
{
    matches!(meaning, Meaning::Undefined)
}

fn is_undefined_entry(entry: Option<Meaning>) -> bool
    ensures { result ≡ spec.is_undefined_entry entry }
{
    match entry {
        None => false,
        Some(meaning) => is_undefined(&meaning),
    }
}

fn is_undefined_factor(factor: Option<Factor<Meaning>>) -> bool
    ensures { result ≡ spec.is_undefined_factor factor }
{
    match factor {
        Some(Factor::Named(meaning)) => is_undefined(&meaning),
        _ => false,
    }
}

fn is_used(operand: Operand) -> bool
    ensures { result ≡ spec.is_used operand }
{
    !matches!(operand, Operand::Nothing)
}

/// Whether an operation has a result.
pub fn is_target(target: Target) -> bool
    ensures { result ≡ spec.is_target target }
{
    !matches!(target, Target::Nothing)
}

fn row_has_undefined(row: &Row, line: &CalculationLine<Meaning>) -> bool
    ensures { result ≡ spec.row_has_undefined row.now line.now }
{
    (is_used(row.factor1) && is_undefined_factor(line.factor1))
        || (is_used(row.factor2) && is_undefined_factor(line.factor2))
        || (is_target(row.result) && is_undefined_entry(line.result))
}

/// Whether diagnostic 5 holds of a C line: something that its operation uses isn't defined.
pub fn calculation_undefined(line: &CalculationLine<Meaning>) -> bool
    ensures { result ≡ spec.calculation_undefined line.now }
{
    match line.operation {
        None => false,
        Some(operation) => row_has_undefined(&row_of(operation), line),
    }
}

/// Whether diagnostic 5 holds of an I line: the file of a record line isn't defined.
pub fn input_undefined(line: &InputLine<Meaning>) -> bool
    ensures { result ≡ spec.input_undefined line.now }
{
    match line {
        InputLine::Record(file, _, _) => is_undefined(file),
        _ => false,
    }
}

fn content_undefined(content: &OutputContent<Meaning>) -> bool
    ensures { result ≡ spec.content_undefined content.now }
{
    match content {
        OutputContent::Constant(_) => false,
        OutputContent::Field(field) => is_undefined(&field.name),
    }
}

/// Whether diagnostic 5 holds for an O line in its context: its file or its field isn't defined.
pub fn output_undefined(at: &OutputStanding, line: &OutputLine<Meaning>) -> bool
    ensures { result ≡ spec.output_undefined at.now line.now }
{
    match line {
        OutputLine::Line(card) => is_undefined_entry(card.file.or(at.file)),
        OutputLine::Field(field) => content_undefined(&field.content),
        _ => false,
    }
}
