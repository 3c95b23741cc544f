//! Finds the match and control fields of a record type.

ghost use Rattle.std.specs.Prelude.{◌≡◌, ◌<◌, drop, length, IsTrue, IfSome};
ghost use Rattle.std.specs.List.{list_any};
ghost use Rattle.s3_lines.specs.Inner.Ranges.{field_in_range};
ghost use Rattle.s3_program.specs.Inner.Starts.{is_type};
ghost use Rattle.s3_match.specs.Inner.Fields as spec;

use s3_lines::indicator::Indicator;
use s3_lines::sheet::{FieldLine, InputLine};
use s3_program::mark::Key;
use s3_program::program::{Program, Reference};

/// A field with an entry in 63-64 is one of the types with that indicator alone.
fn is_own(indicator: Indicator, relation: Option<Indicator>) -> bool
    ensures { result ≡ spec.is_own indicator relation }
{
    match relation {
        Some(other) => indicator.is(other),
        None => true,
    }
}

/// Whether an entry has a level; any, if none is asked for.
fn has_level(level: Option<u8>, entry: Option<u8>) -> bool
    ensures { result ≡ spec.has_level level entry }
{
    match entry {
        Some(number) => match level {
            Some(wanted) => wanted == number,
            None => true,
        },
        None => false,
    }
}

fn level_of(key: Key, field: &FieldLine<Reference>) -> Option<u8>
    ensures { result ≡ spec.level_of key field.now }
{
    match key {
        Key::Control => field.control_level,
        Key::Match => field.match_level,
    }
}

/// Whether a line has a match field, or a control field.
fn names_level(line: &InputLine<Reference>, key: Key) -> bool
    ensures { result ≡ spec.names_level key line.now }
{
    match line {
        InputLine::Field(field) => level_of(key, field).is_some(),
        InputLine::Record(..) | InputLine::And(_) | InputLine::Or(..) => false,
    }
}

/// Whether any of some lines has a match field, or a control field.
fn some_names_level(lines: &[InputLine<Reference>], key: Key) -> bool
    ensures { result ≡ list_any (spec.names_level key) lines.now }
{
    lines.iter().any(|line| names_level(line, key))
}

/// The field on a line, if the type with that indicator has it at the level.
fn field_on(
    line: &InputLine<Reference>,
    indicator: Indicator,
    key: Key,
    level: Option<u8>,
) -> Option<FieldLine<Reference>>
    ensures { result ≡ spec.field_on indicator key level line.now }
{
    match line {
        InputLine::Field(field) => {
            if is_own(indicator, field.relation) && has_level(level, level_of(key, field)) {
                Some(*field)
            } else {
                None
            }
        }
        InputLine::Record(..) | InputLine::And(_) | InputLine::Or(..) => None,
    }
}

/// Whether the fields above it end at a line.
fn begins_group(line: &InputLine<Reference>) -> bool
    ensures { result ≡ spec.begins_group line.now }
{
    match line {
        InputLine::Record(..) => true,
        InputLine::And(_) | InputLine::Or(..) | InputLine::Field(_) => false,
    }
}

/// The first field from there on, down to the next record line.
fn first_field(
    inputs: &[InputLine<Reference>],
    from: usize,
    indicator: Indicator,
    key: Key,
    level: Option<u8>,
) -> Option<FieldLine<Reference>>
    ensures { result ≡ spec.first_field indicator key level (drop from inputs.now) }
{
    for place in from..inputs.len() {
        if begins_group(&inputs[place]) {
            return None;
        }
        let field = field_on(&inputs[place], indicator, key, level);
        if field.is_some() {
            return field;
        }
    }
    None
}

/// The record identifying indicator of a line where a type starts.
pub(crate) fn indicator_on(line: &InputLine<Reference>) -> Option<Indicator>
    ensures { result ≡ spec.indicator_on line.now }
{
    match line {
        InputLine::Record(_, indicator, _) => Some(*indicator),
        InputLine::Or(indicator, _) => Some(*indicator),
        InputLine::And(_) | InputLine::Field(_) => None,
    }
}

/// The first match field, or the first control field, at a level, 1 to 9, of the type that starts at a line; at any level, if
/// none is asked for.
pub(crate) fn field_of_type(
    program: &Program,
    place: usize,
    key: Key,
    level: Option<u8>,
) -> Option<FieldLine<Reference>>
    requires { place < length program.now.inputs.items }
    ensures field { result ≡ spec.field_of_type key level (drop place program.now.inputs.items) }
    ensures ranged { IfSome result (λ field. IsTrue (field_in_range field)) }
{
    let indicator = indicator_on(&program.inputs[place])?;
    first_field(&program.inputs, place + 1, indicator, key, level)
}

/// Whether a record type starts at a line.
pub(crate) fn starts_type(line: &InputLine<Reference>) -> bool
    ensures { result ≡ is_type line.now }
{
    match line {
        InputLine::Record(..) | InputLine::Or(..) => true,
        InputLine::And(_) | InputLine::Field(_) => false,
    }
}

/// Whether a line after the start of a type has a match field, or a control field.
#[tactic(auto, using(crate::proofs::NamedLemmas::types_begin, crate::proofs::NamedLemmas::no_type_yet, crate::proofs::NamedLemmas::no_type_at_all))]
pub(crate) fn some_type_names_level(lines: &[InputLine<Reference>], key: Key) -> bool
    ensures { result ≡ spec.some_type_names_level key lines.now }
{
    for place in 0..lines.len() {
        if starts_type(&lines[place]) {
            return some_names_level(&lines[place + 1..], key);
        }
    }
    false
}
