//! Fields of an output line that always cover positions of earlier ones.
ghost use Rattle.std.specs.Prelude.{◌≡◌, ◌+◌, ◌-◌, ◌++◌, ◌&&◌, nat_le, nat_lt, IfOk, OnOk};
ghost use Rattle.std.specs.List.{list_any};
ghost use Rattle.s3_warnings.specs.Inner.Overlaps as spec;
ghost use Rattle.s3_warnings.specs.Inner.Shown.{facts_shown};

use crate::kinds::{Warning, WarningKind, warned_if};
use crate::known::Known;
use crate::shapes::shape_of;
use s3_edit::width;
use s3_lines::indicator::Condition;
use s3_lines::sheet::{Line, OutputContent, OutputField, OutputForm, OutputLine, Shape, SheetLine};
use std::alloc::{AllocError, Global};

/// A field of an output line: where it is printed, and when.
#[derive(Clone, Copy)]
pub struct Printed {
    /// Its first position, from 1.
    pub first: usize,
    /// How many positions it takes.
    pub width: usize,
    /// The conditions that must hold for it; none if the columns are blank.
    pub conditions: [Option<Condition>; 3],
}

/// How many positions a number takes.
fn number_width(form: OutputForm, digits: u8, decimals: u8) -> usize
    ensures { result ≡ spec.number_width form digits decimals }
{
    match form {
        OutputForm::Plain => usize::from(digits),
        OutputForm::Packed => usize::from(digits / 2 + 1),
        OutputForm::Edited(code) => width(code, digits, decimals).unwrap_or(0),
    }
}

/// How many positions a field takes.
fn shape_width(form: OutputForm, shape: Option<Shape>) -> usize
    ensures { result ≡ spec.shape_width form shape }
{
    match shape {
        Some(Shape::Alphanumeric(length)) => usize::from(length),
        Some(Shape::Numeric(digits, decimals)) => number_width(form, digits, decimals),
        None => 0,
    }
}

/// How many positions a part of an output line takes.
fn content_width(known: &Known, content: &OutputContent) -> usize
    ensures { result ≡ spec.content_width (facts_shown known.now) content.now }
{
    match content {
        OutputContent::Constant(constant) => usize::from(constant.length),
        OutputContent::Field(field) => {
            shape_width(field.form, shape_of(&known.shapes, field.name))
        }
    }
}

/// The first position of a part of an output line that ends at another one.
fn first_position(end: u16, width: usize) -> usize
    ensures { result ≡ end + 1 - width }
{
    (usize::from(end) + 1).saturating_sub(width)
}

/// Where a field is printed, and when.
fn printed_of(known: &Known, field: &OutputField) -> Printed
    ensures { result ≡ spec.printed_of (facts_shown known.now) field.now }
{
    let width = content_width(known, &field.content);
    Printed {
        first: first_position(field.end, width),
        width,
        conditions: field.conditions,
    }
}

/// Whether a field has positions, and its first one is also one of another field's.
fn begins_within(field: &Printed, other: &Printed) -> bool
    ensures { result ≡ (nat_lt 0 field.now.width && (nat_le other.now.first field.now.first && nat_lt field.now.first (other.now.first + other.now.width))) }
{
    field.width > 0 && other.first <= field.first && field.first - other.first < other.width
}

/// Whether two fields have a position in common.
#[tactic(auto, using(crate::proofs::OverlapLemmas::overlap_by_first))]
fn are_overlapping(field: &Printed, other: &Printed) -> bool
    ensures { result ≡ spec.are_overlapping field.now other.now }
{
    begins_within(field, other) || begins_within(other, field)
}

/// Whether an entry has the same condition.
fn is_same_condition(condition: &Condition, other: Option<Condition>) -> bool
    ensures { result ≡ spec.is_same_condition condition.now other }
{
    match other {
        Some(other) => {
            condition.indicator.is(other.indicator) && condition.negated == other.negated
        }
        None => false,
    }
}

/// Whether one of a field's entries has the same condition.
fn has_condition(field: &Printed, condition: &Condition) -> bool
    ensures { result ≡ list_any (spec.is_same_condition condition.now) field.now.conditions }
{
    field
        .conditions
        .iter()
        .any(|other| is_same_condition(condition, *other))
}

/// Whether an entry is blank, or has one of a field's conditions.
fn is_condition_of(field: &Printed, condition: Option<Condition>) -> bool
    ensures { result ≡ spec.is_condition_of field.now condition }
{
    match condition {
        Some(condition) => has_condition(field, &condition),
        None => true,
    }
}

/// Whether a field is printed each time another one is: each of its conditions is one of the other's.
fn is_printed_with(field: &Printed, other: &Printed) -> bool
    ensures { result ≡ spec.is_printed_with field.now other.now }
{
    field
        .conditions
        .iter()
        .all(|condition| is_condition_of(other, *condition))
}

/// Whether a field is printed over an earlier one each time that one is printed.
fn covers(field: &Printed, earlier: &Printed) -> bool
    ensures { result ≡ spec.covers field.now earlier.now }
{
    are_overlapping(field, earlier) && is_printed_with(field, earlier)
}

/// Whether a field covers one of the earlier fields of its line.
fn covers_one(field: &Printed, earlier: &[Printed]) -> bool
    ensures { result ≡ list_any (spec.covers field.now) earlier.now }
{
    earlier.iter().any(|other| covers(field, other))
}

/// The warning of a card whose field covers an earlier one of its line; refused only if memory runs out.
fn overlap_on(
    alloc: Global,
    known: &Known,
    earlier: &[Printed],
    line: &Line,
) -> Result<Vec<Warning>, AllocError>
    ensures { IfOk result (λ found. found.items ≡ spec.overlap_on (facts_shown known.now) earlier.now line.now) }
{
    match &line.sheet {
        SheetLine::Output(OutputLine::Field(field)) => {
            let holds = covers_one(&printed_of(known, field), earlier);
            let warning = Warning {
                kind: WarningKind::Overlap,
                card: line.card,
                from: 40,
                to: 43,
            };
            warned_if(alloc, holds, warning)
        }
        _ => Ok(Vec::new(alloc)),
    }
}

/// Passes a line: a new output line has no fields yet, a field card adds its own.
fn pass(earlier: &mut Vec<Printed>, known: &Known, line: &SheetLine) -> Result<(), AllocError>
    ensures { OnOk result (earlier.new.items ≡ spec.fields_with (facts_shown known.now) earlier.old.items line.now) }
{
    match line {
        SheetLine::Output(OutputLine::Line(_)) => {
            earlier.clear();
            Ok(())
        }
        SheetLine::Output(OutputLine::Field(field)) => Ok(earlier.push(printed_of(known, field))?),
        _ => Ok(()),
    }
}

/// Appends the warning of a line, and passes it.
fn push_overlap(
    alloc: Global,
    found: &mut Vec<Warning>,
    earlier: &mut Vec<Printed>,
    known: &Known,
    line: &Line,
) -> Result<(), AllocError>
    ensures found { OnOk result (found.new.items ≡ found.old.items ++ spec.overlap_on (facts_shown known.now) earlier.old.items line.now) }
    ensures fields { OnOk result (earlier.new.items ≡ spec.fields_with (facts_shown known.now) earlier.old.items line.now.sheet) }
{
    let more = overlap_on(alloc, known, earlier, line)?;
    found.extend_from_slice(&more)?;
    pass(earlier, known, &line.sheet)
}

/// Appends the warnings of fields that always cover earlier ones, in the order of the cards. It is refused only if memory runs out.
pub fn push_overlaps(
    alloc: Global,
    found: &mut Vec<Warning>,
    known: &Known,
    lines: &[Line],
) -> Result<(), AllocError>
    ensures { OnOk result (found.new.items ≡ found.old.items ++ spec.overlaps (facts_shown known.now) lines.now) }
{
    let mut earlier = Vec::new(alloc);
    for line in lines {
        push_overlap(alloc, found, &mut earlier, known, line)?;
    }
    Ok(())
}
