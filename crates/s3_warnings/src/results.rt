//! Results with fewer digits before the point than what is put into them.
ghost use Rattle.std.specs.Prelude.{◌≡◌, IfOk};
ghost use Rattle.s3_warnings.specs.Inner.Results as spec;
ghost use Rattle.s3_warnings.specs.Inner.Shown.{facts_shown};

use crate::kinds::{Warning, WarningKind, warned_if};
use crate::known::Known;
use crate::shapes::shape_of;
use s3_cards::Name;
use s3_lines::sheet::{CalculationLine, Factor, Line, Operation, Shape, SheetLine};
use std::alloc::{AllocError, Global};

/// Whether the result of an operation is as long as its longer factor, as a rule.
fn keeps_digits(operation: Option<Operation>) -> bool
    ensures { result ≡ spec.keeps_digits operation }
{
    matches!(
        operation,
        Some(Operation::Add | Operation::Subtract | Operation::ZeroAdd | Operation::ZeroSubtract)
    )
}

/// The digits of a number before the point.
fn whole_digits(shape: Option<Shape>) -> u8
    ensures { result ≡ spec.whole_digits shape }
{
    match shape {
        Some(Shape::Numeric(digits, decimals)) => digits.saturating_sub(decimals),
        _ => 0,
    }
}

/// The digits of a factor before the point.
fn whole_of_factor(known: &Known, factor: Option<Factor>) -> u8
    ensures { result ≡ spec.whole_of_factor (facts_shown known.now) factor }
{
    match factor {
        Some(Factor::Named(name)) => whole_digits(shape_of(&known.shapes, name)),
        Some(Factor::Number(literal)) => literal.digits.saturating_sub(literal.decimals),
        _ => 0,
    }
}

/// Whether a factor has more digits before the point.
fn is_below_factors(known: &Known, line: &CalculationLine, whole: u8) -> bool
    ensures { result ≡ spec.is_below_factors (facts_shown known.now) line.now whole }
{
    whole < whole_of_factor(known, line.factor1) || whole < whole_of_factor(known, line.factor2)
}

/// Whether a result has too few digits before the point.
fn is_too_short(known: &Known, line: &CalculationLine, name: Option<Name>) -> bool
    ensures { result ≡ spec.is_too_short (facts_shown known.now) line.now name }
{
    match name {
        Some(name) => {
            keeps_digits(line.operation)
                && is_below_factors(known, line, whole_digits(shape_of(&known.shapes, name)))
        }
        None => false,
    }
}

/// The warning of a card whose result is too short; refused only if memory runs out.
pub fn results_on(alloc: Global, known: &Known, line: &Line) -> Result<Vec<Warning>, AllocError>
    ensures { IfOk result (λ found. found.items ≡ spec.results_on (facts_shown known.now) line.now) }
{
    match &line.sheet {
        SheetLine::Calculation(calculation) => {
            let holds = is_too_short(known, calculation, calculation.result);
            let warning = Warning {
                kind: WarningKind::ShortResult,
                card: line.card,
                from: 43,
                to: 48,
            };
            warned_if(alloc, holds, warning)
        }
        _ => Ok(Vec::new(alloc)),
    }
}
