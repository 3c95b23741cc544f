//! Diagnostic 8: what an operation needs, and what a field that is written needs.

ghost use Rattle.std.specs.Prelude.{◌≡◌};
ghost use Rattle.s3_program.specs.Operands as spec;

use crate::rows::row_of;
use crate::shapes::{is_numeric_shape, is_text_shape, shape_meant};
use crate::undefined::is_undefined;
use s3_edit::width;
use s3_lines::indicator::Indicator;
use s3_lines::sheet::{
    CalculationLine, Factor, FieldForm, InputLine, KeyField, Operation, OutputContent, OutputForm,
    OutputLine, Shape,
};
use s3_program::program::Meaning;
use s3_program::row::{Marking, Operand, Pairing, Row, Target};

fn is_number(factor: &Factor<Meaning>) -> bool
    ensures { result ≡ spec.is_number factor.now }
{
    match factor {
        Factor::Named(meaning) => is_numeric_shape(shape_meant(meaning)),
        Factor::Number(_) => true,
        Factor::Text(_) => false,
    }
}

fn is_text(factor: &Factor<Meaning>) -> bool
    ensures { result ≡ spec.is_text factor.now }
{
    match factor {
        Factor::Named(meaning) => is_text_shape(shape_meant(meaning)),
        Factor::Number(_) => false,
        Factor::Text(_) => true,
    }
}

fn is_unknown_factor(factor: &Factor<Meaning>) -> bool
    ensures { result ≡ spec.is_unknown_factor factor.now }
{
    match factor {
        Factor::Named(meaning) => is_undefined(meaning),
        Factor::Number(_) | Factor::Text(_) => false,
    }
}

fn is_tag(factor: &Factor<Meaning>) -> bool
    ensures { result ≡ spec.is_tag factor.now }
{
    matches!(factor, Factor::Named(Meaning::Tag(_)))
}

fn is_subroutine(factor: &Factor<Meaning>) -> bool
    ensures { result ≡ spec.is_subroutine factor.now }
{
    matches!(factor, Factor::Named(Meaning::Subroutine(_)))
}

fn is_chained_meaning(meaning: &Meaning) -> bool
    ensures { result ≡ spec.is_chained_meaning meaning.now }
{
    match meaning {
        Meaning::File(file) => file.is_chained(),
        _ => false,
    }
}

fn is_chained_file(factor: &Factor<Meaning>) -> bool
    ensures { result ≡ spec.is_chained_file factor.now }
{
    match factor {
        Factor::Named(meaning) => is_chained_meaning(meaning),
        _ => false,
    }
}

fn is_of_kind(operand: Operand, factor: &Factor<Meaning>) -> bool
    ensures { result ≡ spec.is_of_kind operand factor.now }
{
    match operand {
        Operand::Nothing => false,
        Operand::Number => is_unknown_factor(factor) || is_number(factor),
        Operand::Text => is_unknown_factor(factor) || is_text(factor),
        Operand::Value => is_unknown_factor(factor) || is_number(factor) || is_text(factor),
        Operand::Tag => is_unknown_factor(factor) || is_tag(factor),
        Operand::Subroutine => is_unknown_factor(factor) || is_subroutine(factor),
        Operand::ChainedFile => is_unknown_factor(factor) || is_chained_file(factor),
    }
}

fn is_absent_allowed(operand: Operand) -> bool
    ensures { result ≡ spec.is_absent_allowed operand }
{
    matches!(operand, Operand::Nothing)
}

fn factor_fits(operand: Operand, factor: Option<Factor<Meaning>>) -> bool
    ensures { result ≡ spec.factor_fits operand factor }
{
    match factor {
        None => is_absent_allowed(operand),
        Some(factor) => is_of_kind(operand, &factor),
    }
}

fn result_is_of_kind(target: Target, meaning: &Meaning) -> bool
    ensures { result ≡ spec.result_is_of_kind target meaning.now }
{
    match target {
        Target::Nothing => false,
        Target::Number => is_undefined(meaning) || is_numeric_shape(shape_meant(meaning)),
        Target::Text => is_undefined(meaning) || is_text_shape(shape_meant(meaning)),
        Target::Any => true,
    }
}

fn is_no_target(target: Target) -> bool
    ensures { result ≡ spec.is_no_target target }
{
    matches!(target, Target::Nothing)
}

fn result_fits(target: Target, entry: Option<Meaning>) -> bool
    ensures { result ≡ spec.result_fits target entry }
{
    match entry {
        None => is_no_target(target),
        Some(meaning) => result_is_of_kind(target, &meaning),
    }
}

fn are_blank(indicators: &[Option<Indicator>; 3]) -> bool
    ensures { result ≡ spec.are_blank indicators.now }
{
    !indicators.iter().any(|indicator| indicator.is_some())
}

fn are_blank_behind_first(indicators: &[Option<Indicator>; 3]) -> bool
    ensures { result ≡ spec.are_blank (spec.behind_first indicators.now) }
{
    let [_, second, third] = indicators;
    second.is_none() && third.is_none()
}

fn indicators_fit(marking: Marking, indicators: &[Option<Indicator>; 3]) -> bool
    ensures { result ≡ spec.indicators_fit marking indicators.now }
{
    match marking {
        Marking::Never => are_blank(indicators),
        Marking::Optional => true,
        Marking::Needed => !are_blank(indicators),
        Marking::First => are_blank_behind_first(indicators),
    }
}

fn are_mixed(one: &Factor<Meaning>, two: &Factor<Meaning>) -> bool
    ensures { result ≡ spec.are_mixed one.now two.now }
{
    (is_number(one) && is_text(two)) || (is_text(one) && is_number(two))
}

fn shape_is_key(key: Option<KeyField>, shape: Shape) -> bool
    ensures { result ≡ spec.shape_is_key key shape }
{
    match (key, shape) {
        (Some(key), Shape::Alphanumeric(length)) => length == u16::from(key.length),
        (Some(key), Shape::Numeric(digits, _)) => digits == key.length,
        (None, Shape::Alphanumeric(_)) => false,
        (None, Shape::Numeric(_, decimals)) => decimals == 0,
    }
}

fn shape_of_factor(factor: &Factor<Meaning>) -> Option<Shape>
    ensures { result ≡ spec.shape_of_factor factor.now }
{
    match factor {
        Factor::Named(meaning) => shape_meant(meaning),
        Factor::Number(literal) => Some(Shape::Numeric(literal.digits, literal.decimals)),
        Factor::Text(literal) => Some(Shape::Alphanumeric(u16::from(literal.length))),
    }
}

fn is_no_key(key: Option<KeyField>, shape: Option<Shape>) -> bool
    ensures { result ≡ spec.is_no_key key shape }
{
    match shape {
        None => false,
        Some(shape) => !shape_is_key(key, shape),
    }
}

fn is_no_key_meant(key: &Factor<Meaning>, meaning: &Meaning) -> bool
    ensures { result ≡ spec.is_no_key_meant key.now meaning.now }
{
    match meaning {
        Meaning::File(file) => is_no_key(file.key, shape_of_factor(key)),
        _ => false,
    }
}

fn is_no_key_of(key: &Factor<Meaning>, file: &Factor<Meaning>) -> bool
    ensures { result ≡ spec.is_no_key_of key.now file.now }
{
    match file {
        Factor::Named(meaning) => is_no_key_meant(key, meaning),
        _ => false,
    }
}

fn both_fit(pairing: Pairing, one: &Factor<Meaning>, two: &Factor<Meaning>) -> bool
    ensures { result ≡ spec.both_fit pairing one.now two.now }
{
    match pairing {
        Pairing::Free => true,
        Pairing::Alike => !are_mixed(one, two),
        Pairing::KeyOfFile => !is_no_key_of(one, two),
    }
}

fn pair_fits(pairing: Pairing, one: Option<Factor<Meaning>>, two: Option<Factor<Meaning>>) -> bool
    ensures { result ≡ spec.pair_fits pairing one two }
{
    match (one, two) {
        (Some(one), Some(two)) => both_fit(pairing, &one, &two),
        _ => true,
    }
}

fn row_fits(row: &Row, line: &CalculationLine<Meaning>) -> bool
    ensures { result ≡ spec.row_fits row.now line.now }
{
    factor_fits(row.factor1, line.factor1)
        && factor_fits(row.factor2, line.factor2)
        && result_fits(row.result, line.result)
        && (line.definition.is_none() || line.result.is_some())
        && (row.half_adjust || !line.half_adjust)
        && indicators_fit(row.indicators, &line.indicators)
        && pair_fits(row.pairing, line.factor1, line.factor2)
}

fn is_bare(line: &CalculationLine<Meaning>) -> bool
    ensures { result ≡ spec.is_bare line.now }
{
    line.factor1.is_none()
        && line.factor2.is_none()
        && line.result.is_none()
        && line.definition.is_none()
        && !line.half_adjust
        && are_blank(&line.indicators)
}

/// Whether diagnostic 8 holds of a C line: it isn't what its operation needs. `is_cut` says that another C line follows which
/// doesn't continue with it by AN or OR.
pub fn calculation_unfit(is_cut: bool, line: &CalculationLine<Meaning>) -> bool
    ensures { result ≡ spec.calculation_unfit is_cut line.now }
{
    match line.operation {
        None => is_cut || !is_bare(line),
        Some(Operation::Unknown) => true,
        Some(operation) => !row_fits(&row_of(operation), line),
    }
}

fn is_packed_text(form: FieldForm) -> bool
    ensures { result ≡ spec.is_packed_text form }
{
    matches!(form, FieldForm::PackedText)
}

/// Whether diagnostic 8 holds of an I line: its field is packed and alphanumeric.
pub fn input_unfit(line: &InputLine<Meaning>) -> bool
    ensures { result ≡ spec.input_unfit line.now }
{
    match line {
        InputLine::Field(field) => is_packed_text(field.form),
        _ => false,
    }
}

fn is_within_end(end: u16, width: Option<usize>) -> bool
    ensures { result ≡ spec.is_within_end end width }
{
    match width {
        Some(width) => width <= usize::from(end),
        None => false,
    }
}

fn number_fits(form: OutputForm, digits: u8, decimals: u8, end: u16) -> bool
    ensures { result ≡ spec.number_fits form digits decimals end }
{
    match form {
        OutputForm::Plain => u16::from(digits) <= end,
        OutputForm::Packed => u16::from(digits / 2 + 1) <= end,
        OutputForm::Edited(code) => is_within_end(end, width(code, digits, decimals)),
    }
}

fn text_fits(form: OutputForm, length: u16, end: u16) -> bool
    ensures { result ≡ spec.text_fits form length end }
{
    match form {
        OutputForm::Plain => length <= end,
        OutputForm::Packed | OutputForm::Edited(_) => false,
    }
}

fn form_fits(form: OutputForm, shape: Shape, end: u16) -> bool
    ensures { result ≡ spec.form_fits form shape end }
{
    match shape {
        Shape::Alphanumeric(length) => text_fits(form, length, end),
        Shape::Numeric(digits, decimals) => number_fits(form, digits, decimals, end),
    }
}

fn field_put_fits(form: OutputForm, shape: Option<Shape>, end: u16) -> bool
    ensures { result ≡ spec.field_put_fits form shape end }
{
    match shape {
        None => true,
        Some(shape) => form_fits(form, shape, end),
    }
}

fn content_fits(content: &OutputContent<Meaning>, end: u16) -> bool
    ensures { result ≡ spec.content_fits content.now end }
{
    match content {
        OutputContent::Constant(_) => true,
        OutputContent::Field(field) => field_put_fits(field.form, shape_meant(&field.name), end),
    }
}

/// Whether diagnostic 8 holds of an O line: its edit code or its packing doesn't fit its field, or the field would begin before
/// position 1.
pub fn output_unfit(line: &OutputLine<Meaning>) -> bool
    ensures { result ≡ spec.output_unfit line.now }
{
    match line {
        OutputLine::Field(field) => !content_fits(&field.content, field.end),
        _ => false,
    }
}
