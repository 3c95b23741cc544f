//! Diagnostic 11: match and control fields.

ghost use Rattle.std.specs.Prelude.{◌≡◌, IsTrue};
ghost use Rattle.s3_program.specs.Indications.{input_misindicated as input_misindicated_spec, is_unrelated as is_unrelated_spec};
ghost use Rattle.s3_program.specs.Matching as spec;
ghost use Rattle.s3_diagnose.specs.Inner.Ranged.{is_ranged_field, is_ranged_input};
ghost use Rattle.s3_diagnose.specs.Inner.Shown.{marks_shown};

use crate::indications::has_sign_of_text;
use crate::shapes::{same_kind_and_length, shape_of_field};
use crate::tables::MarkTables;
use s3_lines::indicator::Indicator;
use s3_lines::sheet::{FieldLine, InputLine, Shape};
use s3_program::mark::{GroupMark, Key, Level, TypeKey, TypeMark};
use s3_program::program::Meaning;
use s3_program::standing::InputStanding;

fn has_type(tables: &MarkTables, group: Option<usize>, indicator: Indicator) -> bool
    ensures { result ≡ spec.has_type (marks_shown tables.now).is_type group indicator }
{
    match group {
        None => false,
        Some(group) => tables.types.contains(&TypeKey { group, indicator }),
    }
}

fn is_unrelated(tables: &MarkTables, group: Option<usize>, relation: Option<Indicator>) -> bool
    ensures { result ≡ is_unrelated_spec (spec.has_type (marks_shown tables.now).is_type group) relation }
{
    match relation {
        None => false,
        Some(indicator) => !has_type(tables, group, indicator),
    }
}

/// Whether diagnostic 7 holds of an I line: an indicator of a text for plus or minus, or a relation that isn't of its group.
pub fn input_misindicated(
    tables: &MarkTables,
    at: &InputStanding,
    line: &InputLine<Meaning>,
) -> bool
    ensures { result ≡ input_misindicated_spec (spec.has_type (marks_shown tables.now).is_type at.now.group) line.now }
{
    match line {
        InputLine::Field(field) => is_unrelated(tables, at.group, field.relation)
            || has_sign_of_text(field.form, &field.indicators),
        _ => false,
    }
}

fn first_in_all(tables: &MarkTables, group: usize, level: Level) -> Option<usize>
    ensures { result ≡ (marks_shown tables.now).in_all (spec.group_mark group level) }
{
    tables.in_all.get(&GroupMark { group, level }).copied()
}

fn first_in_some(tables: &MarkTables, group: usize, level: Level) -> Option<usize>
    ensures { result ≡ (marks_shown tables.now).in_some (spec.group_mark group level) }
{
    tables.in_some.get(&GroupMark { group, level }).copied()
}

fn first_in_type(
    tables: &MarkTables,
    group: usize,
    indicator: Indicator,
    level: Level,
) -> Option<usize>
    ensures { result ≡ (marks_shown tables.now).in_type (spec.type_mark group indicator level) }
{
    let mark = TypeMark {
        group,
        indicator: indicator.number(),
        level,
    };
    tables.in_type.get(&mark).copied()
}

fn is_before(place: usize, first: Option<usize>) -> bool
    ensures { result ≡ spec.is_before place first }
{
    match first {
        None => false,
        Some(first) => first < place,
    }
}

fn is_given_before(
    tables: &MarkTables,
    group: usize,
    place: usize,
    relation: Option<Indicator>,
    level: Level,
) -> bool
    ensures { result ≡ spec.is_given_before (marks_shown tables.now) group place relation level }
{
    match relation {
        None => is_before(place, first_in_some(tables, group, level)),
        Some(indicator) => tables.types.contains(&TypeKey { group, indicator })
            && (is_before(place, first_in_all(tables, group, level))
                || is_before(place, first_in_type(tables, group, indicator, level))),
    }
}

fn is_given_twice(
    tables: &MarkTables,
    at: &InputStanding,
    relation: Option<Indicator>,
    level: Level,
) -> bool
    ensures { result ≡ spec.is_given_twice (marks_shown tables.now) at.now relation level }
{
    match at.group {
        None => false,
        Some(group) => is_given_before(tables, group, at.place, relation, level),
    }
}

fn disagrees(first: Option<Shape>, shape: Shape) -> bool
    ensures { result ≡ spec.disagrees first shape }
{
    match first {
        None => false,
        Some(first) => !same_kind_and_length(first, shape),
    }
}

fn is_chained_meant(meaning: &Meaning) -> bool
    ensures { result ≡ spec.is_chained_meant meaning.now }
{
    match meaning {
        Meaning::File(file) => file.is_chained(),
        _ => false,
    }
}

fn level_mismatched(
    tables: &MarkTables,
    at: &InputStanding,
    field: &FieldLine<Meaning>,
    level: Level,
) -> bool
    requires { IsTrue (is_ranged_field field.now) }
    ensures { result ≡ spec.level_mismatched (marks_shown tables.now) at.now field.now level }
{
    is_chained_meant(&at.file)
        || disagrees(tables.shapes.get(&level).copied(), shape_of_field(field))
        || is_given_twice(tables, at, field.relation, level)
}

fn entry_mismatched(
    tables: &MarkTables,
    at: &InputStanding,
    field: &FieldLine<Meaning>,
    key: Key,
    entry: Option<u8>,
) -> bool
    requires { IsTrue (is_ranged_field field.now) }
    ensures { result ≡ spec.entry_mismatched (marks_shown tables.now) at.now field.now key entry }
{
    match entry {
        None => false,
        Some(number) => level_mismatched(tables, at, field, Level { key, number }),
    }
}

fn is_matched_by(tables: &MarkTables, kind: &TypeKey, number: u8) -> bool
    ensures { result ≡ spec.is_matched_by (marks_shown tables.now).in_all (marks_shown tables.now).in_type kind.now number }
{
    let level = Level {
        key: Key::Match,
        number,
    };
    first_in_all(tables, kind.group, level).is_some()
        || first_in_type(tables, kind.group, kind.indicator, level).is_some()
}

/// Which of M1 to M9 a record type has, M1 first.
pub fn matched_by(tables: &MarkTables, kind: &TypeKey) -> [bool; 9]
    ensures { result ≡ spec.matched_by (marks_shown tables.now).in_all (marks_shown tables.now).in_type kind.now }
{
    [
        is_matched_by(tables, kind, 1),
        is_matched_by(tables, kind, 2),
        is_matched_by(tables, kind, 3),
        is_matched_by(tables, kind, 4),
        is_matched_by(tables, kind, 5),
        is_matched_by(tables, kind, 6),
        is_matched_by(tables, kind, 7),
        is_matched_by(tables, kind, 8),
        is_matched_by(tables, kind, 9),
    ]
}

/// Whether any of M1 to M9 is there.
pub fn has_any(matched: &[bool; 9]) -> bool
    ensures { result ≡ spec.has_any matched.now }
{
    matched.iter().any(|is_matched| *is_matched)
}

fn is_unlike(tables: &MarkTables, kind: &TypeKey) -> bool
    ensures { result ≡ spec.is_unlike (marks_shown tables.now) kind.now }
{
    let matched = matched_by(tables, kind);
    has_any(&matched) && matched != tables.matched
}

/// The record type that begins on an I line; none if no type begins there.
pub fn type_on<N>(at: &InputStanding, line: &InputLine<N>) -> Option<TypeKey>
    ensures { result ≡ spec.type_on at.now line.now }
{
    match line {
        InputLine::Record(_, indicator, _) => Some(TypeKey {
            group: at.place,
            indicator: *indicator,
        }),
        InputLine::Or(indicator, _) => type_of_or(at, *indicator),
        _ => None,
    }
}

fn type_of_or(at: &InputStanding, indicator: Indicator) -> Option<TypeKey>
    ensures { result ≡ spec.type_of_or at.now indicator }
{
    match at.group {
        Some(group) if at.is_open => Some(TypeKey { group, indicator }),
        _ => None,
    }
}

fn type_unlike(tables: &MarkTables, kind: Option<TypeKey>) -> bool
    ensures { result ≡ spec.type_unlike (marks_shown tables.now) kind }
{
    match kind {
        None => false,
        Some(kind) => is_unlike(tables, &kind),
    }
}

/// Whether diagnostic 11 holds for an I line: match or control fields disagree, belong to a chained file, or are given twice in
/// one type.
pub fn input_mismatched(tables: &MarkTables, at: &InputStanding, line: &InputLine<Meaning>) -> bool
    requires { IsTrue (is_ranged_input line.now) }
    ensures { result ≡ spec.input_mismatched (marks_shown tables.now) at.now line.now }
{
    match line {
        InputLine::Field(field) => entry_mismatched(
            tables,
            at,
            field,
            Key::Control,
            field.control_level,
        ) || entry_mismatched(tables, at, field, Key::Match, field.match_level),
        _ => type_unlike(tables, type_on(at, line)),
    }
}
