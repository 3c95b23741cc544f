//! The types of records, and their match and control fields.

ghost use Rattle.std.specs.Prelude.{◌≡◌, IfOk, OnOk, IsTrue, Some, [], ◌∷◌, map, option_map};
ghost use Rattle.std.specs.List.{list_all};
ghost use Rattle.std.specs.Option.{option_to_list};
ghost use Rattle.indexmap.specs.IndexSet.{contains};
ghost use Rattle.s3_program.specs.Matching as spec;
ghost use Rattle.s3_program.specs.Standings.{first_input as first_input_spec};
ghost use Rattle.s3_compile.specs.Inner.Noted.{Finds, FindsMore, Has, HasMore, all_on, some_on, in_type_on};
ghost use Rattle.s3_diagnose.specs.Inner.Ranged.{is_ranged_input};
ghost use Rattle.s3_diagnose.specs.Inner.Shown.{marks_shown};

use crate::noting::note;
use indexmap::{IndexMap, IndexSet};
use s3_diagnose::behind::{behind_input, first_input};
use s3_diagnose::matching::{has_any, matched_by, type_on};
use s3_diagnose::shapes::shape_of_field;
use s3_diagnose::tables::MarkTables;
use s3_lines::indicator::Indicator;
use s3_lines::sheet::{FieldLine, InputLine, Shape};
use s3_program::mark::{GroupMark, Key, Level, TypeKey, TypeMark};
use s3_program::program::Meaning;
use s3_program::standing::InputStanding;
use std::alloc::{AllocError, Global};

/// Adds the place of a field with an Mn or Ln in a group.
fn note_group_mark(
    table: &mut IndexMap<GroupMark, usize>,
    mark: GroupMark,
    place: usize,
) -> Result<(), AllocError>
    ensures { OnOk result (FindsMore spec.same_group_mark table.old table.new ((mark, place) ∷ [])) }
{
    note(table, mark, place)?;
    Ok(())
}

/// Adds the place of a field with this entry in a group.
fn note_level_in_group(
    table: &mut IndexMap<GroupMark, usize>,
    group: usize,
    place: usize,
    key: Key,
    entry: Option<u8>,
) -> Result<(), AllocError>
    ensures { OnOk result (FindsMore spec.same_group_mark table.old table.new
        (map (λ level. (spec.group_mark group level, place)) (option_to_list (option_map (spec.level key) entry)))) }
{
    if let Some(number) = entry {
        let level = Level { key, number };
        note_group_mark(table, GroupMark { group, level }, place)?;
    }
    Ok(())
}

/// Adds the place of a field in a group under each Ln or Mn that it has.
fn note_in_group(
    table: &mut IndexMap<GroupMark, usize>,
    group: usize,
    place: usize,
    field: &FieldLine<Meaning>,
) -> Result<(), AllocError>
    ensures { OnOk result (FindsMore spec.same_group_mark table.old table.new
        (map (λ level. (spec.group_mark group level, place)) (spec.levels_of field.now))) }
{
    note_level_in_group(table, group, place, Key::Control, field.control_level)?;
    note_level_in_group(table, group, place, Key::Match, field.match_level)?;
    Ok(())
}

/// Adds a field that counts in all types of its group.
fn note_in_all(
    table: &mut IndexMap<GroupMark, usize>,
    at: &InputStanding,
    line: &InputLine<Meaning>,
) -> Result<(), AllocError>
    ensures { OnOk result (FindsMore spec.same_group_mark table.old table.new (all_on at.now line.now)) }
{
    match (line, at.group) {
        (InputLine::Field(field), Some(group)) if field.relation.is_none() => {
            note_in_group(table, group, at.place, field)
        }
        _ => Ok(()),
    }
}

/// The first fields of those that count in all types of a group.
fn marks_in_all(
    alloc: Global,
    lines: &[InputLine<Meaning>],
) -> Result<IndexMap<GroupMark, usize>, AllocError>
    ensures { IfOk result (λ table. Finds spec.same_group_mark table (spec.all_marks_from first_input_spec lines.now)) }
{
    let mut table = IndexMap::new(alloc);
    let mut at = first_input();
    for line in lines {
        note_in_all(&mut table, &at, line)?;
        at = behind_input(&at, line);
    }
    Ok(table)
}

/// Adds the type that begins on a line.
fn note_type(
    types: &mut IndexSet<TypeKey>,
    at: &InputStanding,
    line: &InputLine<Meaning>,
) -> Result<(), AllocError>
    ensures { OnOk result (HasMore spec.same_type types.old types.new (option_to_list (spec.type_on at.now line.now))) }
{
    if let Some(kind) = type_on(at, line) {
        types.insert(kind)?;
    }
    Ok(())
}

/// The types.
fn types(alloc: Global, lines: &[InputLine<Meaning>]) -> Result<IndexSet<TypeKey>, AllocError>
    ensures { IfOk result (λ types. Has spec.same_type types (spec.types_from first_input_spec lines.now)) }
{
    let mut types = IndexSet::new(alloc);
    let mut at = first_input();
    for line in lines {
        note_type(&mut types, &at, line)?;
        at = behind_input(&at, line);
    }
    Ok(types)
}

/// Whether a field with this relation counts in some type of its group.
fn counts_in_some(types: &IndexSet<TypeKey>, group: usize, relation: Option<Indicator>) -> bool
    ensures { result ≡ spec.counts_in_some (spec.has_type (contains spec.same_type types.now) (Some group)) relation }
{
    match relation {
        None => true,
        Some(indicator) => types.contains(&TypeKey { group, indicator }),
    }
}

/// Adds a field that counts in some types of its group.
fn note_in_some(
    table: &mut IndexMap<GroupMark, usize>,
    types: &IndexSet<TypeKey>,
    at: &InputStanding,
    line: &InputLine<Meaning>,
) -> Result<(), AllocError>
    ensures { OnOk result (FindsMore spec.same_group_mark table.old table.new (some_on (contains spec.same_type types.now) at.now line.now)) }
{
    match (line, at.group) {
        (InputLine::Field(field), Some(group)) if counts_in_some(types, group, field.relation) => {
            note_in_group(table, group, at.place, field)
        }
        _ => Ok(()),
    }
}

/// The first fields of those that count in some types of a group.
fn marks_in_some(
    alloc: Global,
    types: &IndexSet<TypeKey>,
    lines: &[InputLine<Meaning>],
) -> Result<IndexMap<GroupMark, usize>, AllocError>
    ensures { IfOk result (λ table. Finds spec.same_group_mark table
        (spec.some_marks_from (contains spec.same_type types.now) first_input_spec lines.now)) }
{
    let mut table = IndexMap::new(alloc);
    let mut at = first_input();
    for line in lines {
        note_in_some(&mut table, types, &at, line)?;
        at = behind_input(&at, line);
    }
    Ok(table)
}

/// Adds the place of a field with an Mn or Ln in the types of an indicator.
fn note_type_mark(
    table: &mut IndexMap<TypeMark, usize>,
    mark: TypeMark,
    place: usize,
) -> Result<(), AllocError>
    ensures { OnOk result (FindsMore spec.same_type_mark table.old table.new ((mark, place) ∷ [])) }
{
    note(table, mark, place)?;
    Ok(())
}

/// Adds the place of a field with this entry in the types of an indicator.
fn note_level_in_type(
    table: &mut IndexMap<TypeMark, usize>,
    group: usize,
    indicator: Indicator,
    place: usize,
    key: Key,
    entry: Option<u8>,
) -> Result<(), AllocError>
    ensures { OnOk result (FindsMore spec.same_type_mark table.old table.new
        (map (λ level. (spec.type_mark group indicator level, place)) (option_to_list (option_map (spec.level key) entry)))) }
{
    if let Some(number) = entry {
        let mark = TypeMark {
            group,
            indicator: indicator.number(),
            level: Level { key, number },
        };
        note_type_mark(table, mark, place)?;
    }
    Ok(())
}

/// Adds a field that counts in the types of an indicator alone.
fn note_in_type(
    table: &mut IndexMap<TypeMark, usize>,
    at: &InputStanding,
    line: &InputLine<Meaning>,
) -> Result<(), AllocError>
    ensures { OnOk result (FindsMore spec.same_type_mark table.old table.new (in_type_on at.now line.now)) }
{
    if let InputLine::Field(field) = line {
        if let (Some(group), Some(indicator)) = (at.group, field.relation) {
            note_level_in_type(
                table,
                group,
                indicator,
                at.place,
                Key::Control,
                field.control_level,
            )?;
            note_level_in_type(
                table,
                group,
                indicator,
                at.place,
                Key::Match,
                field.match_level,
            )?;
        }
    }
    Ok(())
}

/// The first fields of those that count in the types of an indicator alone.
fn marks_in_type(
    alloc: Global,
    lines: &[InputLine<Meaning>],
) -> Result<IndexMap<TypeMark, usize>, AllocError>
    ensures { IfOk result (λ table. Finds spec.same_type_mark table (spec.type_marks_from first_input_spec lines.now)) }
{
    let mut table = IndexMap::new(alloc);
    let mut at = first_input();
    for line in lines {
        note_in_type(&mut table, &at, line)?;
        at = behind_input(&at, line);
    }
    Ok(table)
}

/// Adds the shape of a field with an Mn or Ln.
fn note_level(
    table: &mut IndexMap<Level, Shape>,
    level: Level,
    shape: Shape,
) -> Result<(), AllocError>
    ensures { OnOk result (FindsMore spec.same_level table.old table.new ((level, shape) ∷ [])) }
{
    note(table, level, shape)?;
    Ok(())
}

/// Adds the shape of a field with this entry.
fn note_shape(
    table: &mut IndexMap<Level, Shape>,
    shape: Shape,
    key: Key,
    entry: Option<u8>,
) -> Result<(), AllocError>
    ensures { OnOk result (FindsMore spec.same_level table.old table.new
        (map (λ level. (level, shape)) (option_to_list (option_map (spec.level key) entry)))) }
{
    if let Some(number) = entry {
        note_level(table, Level { key, number }, shape)?;
    }
    Ok(())
}

/// Adds the shape of a field under each Ln or Mn that it has.
fn note_shapes(
    table: &mut IndexMap<Level, Shape>,
    line: &InputLine<Meaning>,
) -> Result<(), AllocError>
    requires { IsTrue (is_ranged_input line.now) }
    ensures { OnOk result (FindsMore spec.same_level table.old table.new (spec.shapes_on line.now)) }
{
    if let InputLine::Field(field) = line {
        let shape = shape_of_field(field);
        note_shape(table, shape, Key::Control, field.control_level)?;
        note_shape(table, shape, Key::Match, field.match_level)?;
    }
    Ok(())
}

/// The shapes of the first fields of each Mn and Ln.
fn level_shapes(
    alloc: Global,
    lines: &[InputLine<Meaning>],
) -> Result<IndexMap<Level, Shape>, AllocError>
    requires { IsTrue (list_all is_ranged_input lines.now) }
    ensures { IfOk result (λ table. Finds spec.same_level table (spec.shapes_from lines.now)) }
{
    let mut table = IndexMap::new(alloc);
    for line in lines {
        note_shapes(&mut table, line)?;
    }
    Ok(table)
}

/// Which of M1 to M9 the first type with match fields has.
fn first_matched(tables: &MarkTables, lines: &[InputLine<Meaning>]) -> [bool; 9]
    ensures { result ≡ spec.first_matched (marks_shown tables.now).in_all (marks_shown tables.now).in_type (spec.types_from first_input_spec lines.now) }
{
    let mut at = first_input();
    for line in lines {
        if let Some(kind) = type_on(&at, line) {
            let matched = matched_by(tables, &kind);
            if has_any(&matched) {
                return matched;
            }
        }
        at = behind_input(&at, line);
    }
    [false; 9]
}

/// Fills empty tables with what I lines say of record types and of match and control fields; refused only if memory runs out.
pub fn fill_marks(
    alloc: Global,
    tables: &mut MarkTables,
    lines: &[InputLine<Meaning>],
) -> Result<(), AllocError>
    requires { IsTrue (list_all is_ranged_input lines.now) }
    ensures { OnOk result (marks_shown tables.new ≡ spec.marks_of lines.now) }
{
    tables.types = types(alloc, lines)?;
    tables.in_all = marks_in_all(alloc, lines)?;
    tables.in_some = marks_in_some(alloc, &tables.types, lines)?;
    tables.in_type = marks_in_type(alloc, lines)?;
    tables.shapes = level_shapes(alloc, lines)?;
    tables.matched = first_matched(tables, lines);
    Ok(())
}
