//! Diagnostic 7: an indicator that isn't allowed in its place, or a field record relation that isn't of its group.

ghost use Rattle.std.specs.Prelude.{◌≡◌};
ghost use Rattle.s3_program.specs.Indications as spec;

use s3_lines::indicator::Indicator;
use s3_lines::sheet::{CalculationLine, FieldForm, Operation};

fn is_overflow_entry(entry: Option<Indicator>) -> bool
    ensures { result ≡ spec.is_overflow_entry entry }
{
    matches!(entry, Some(Indicator::Overflow(_)))
}

fn may_set_overflow(operation: Option<Operation>) -> bool
    ensures { result ≡ spec.may_set_overflow operation }
{
    matches!(
        operation,
        Some(Operation::SetOn | Operation::SetOff | Operation::Unknown)
    )
}

/// Whether diagnostic 7 holds of a C line: it has an overflow indicator as a resulting one, and its operation may not set it.
pub fn calculation_misindicated<N>(line: &CalculationLine<N>) -> bool
    ensures { result ≡ spec.calculation_misindicated line.now }
{
    !may_set_overflow(line.operation)
        && line
            .indicators
            .iter()
            .any(|entry| is_overflow_entry(*entry))
}

fn is_text_form(form: FieldForm) -> bool
    ensures { result ≡ spec.is_text_form form }
{
    matches!(form, FieldForm::Alphanumeric | FieldForm::PackedText)
}

/// Whether a text has an indicator for plus or minus.
pub fn has_sign_of_text(form: FieldForm, indicators: &[Option<Indicator>; 3]) -> bool
    ensures { result ≡ spec.has_sign_of_text form indicators.now }
{
    is_text_form(form) && (indicators[0].is_some() || indicators[1].is_some())
}
