//! The types of records of a file, and the lines of their fields.
ghost use Rattle.std.specs.Prelude.{◌≡◌, ◌++◌, true, Some, None, IfOk, OnOk};
ghost use Rattle.std.specs.List.{list_any};
ghost use Rattle.s3_lines.specs.Indicators.{same_indicator};
ghost use Rattle.s3_layout.specs.Inner.Files.{Chooses};
ghost use Rattle.s3_layout.specs.Inner.Entries.{behind as behind_spec, behind_input as behind_input_spec, begun as begun_spec, chosen_type as chosen_type_spec, entries_from, first as first_spec, is_meant as is_meant_spec, is_taken as is_taken_spec, taken, types_from};
ghost use Rattle.s3_layout.specs.Inner.Refusals.{Refuses, type_refusal};

use crate::fault::LayoutFault;
use s3_cards::Name;
use s3_lines::indicator::Indicator;
use s3_lines::sheet::{FieldLine, InputLine, Line, SheetLine};
use std::alloc::{AllocError, Global};

/// The context of a line of the I sheet: whether it is in the records of a file, and among the lines of a chosen type.
#[derive(Clone, Copy)]
pub struct Place {
    in_file: bool,
    is_meant: bool,
}

impl Place {
    /// In front of all lines.
    fn first() -> Place
        ensures { result ≡ first_spec }
    {
        Place {
            in_file: false,
            is_meant: false,
        }
    }

    /// The context at a line, after the lines of this context.
    fn behind(self, line: &Line, file: Name, record_type: Option<Indicator>) -> Place
        ensures { result ≡ behind_spec file record_type self line.now }
    {
        match &line.sheet {
            SheetLine::Input(input) => self.behind_input(input, file, record_type),
            _ => self,
        }
    }

    fn behind_input(self, line: &InputLine, file: Name, record_type: Option<Indicator>) -> Place
        ensures { result ≡ behind_input_spec file record_type self line.now }
    {
        match line {
            InputLine::Record(name, indicator, _) => {
                let in_file = *name == file;
                Place {
                    in_file,
                    is_meant: in_file && is_meant(*indicator, record_type),
                }
            }
            InputLine::Or(indicator, _) => Place {
                in_file: self.in_file,
                is_meant: self.is_meant || self.in_file && is_meant(*indicator, record_type),
            },
            InputLine::And(_) | InputLine::Field(_) => self,
        }
    }
}

/// Whether the type of an indicator is the chosen one, or no type is chosen.
fn is_meant(indicator: Indicator, record_type: Option<Indicator>) -> bool
    ensures { result ≡ is_meant_spec record_type indicator }
{
    match record_type {
        Some(named) => named.is(indicator),
        None => true,
    }
}

/// The lines of the fields that are taken from the records that are meant.
pub fn entries_meant(
    alloc: Global,
    lines: &[Line],
    file: Name,
    record_type: Option<Indicator>,
) -> Result<Vec<FieldLine>, AllocError>
    ensures { IfOk result (λ entries. entries.items ≡ entries_from file record_type first_spec lines.now) }
{
    let mut entries = Vec::new(alloc);
    let mut place = Place::first();
    for line in lines {
        place = place.behind(line, file, record_type);
        push_taken(&mut entries, place, line, record_type)?;
    }
    Ok(entries)
}

/// Adds the line of a field that is taken.
fn push_taken(
    entries: &mut Vec<FieldLine>,
    place: Place,
    line: &Line,
    record_type: Option<Indicator>,
) -> Result<(), AllocError>
    ensures { OnOk result (entries.new.items ≡ entries.old.items ++ taken record_type place line.now) }
{
    match &line.sheet {
        SheetLine::Input(InputLine::Field(entry))
            if place.is_meant && is_taken(entry, record_type) => {
            entries.push(*entry)?;
            Ok(())
        }
        _ => Ok(()),
    }
}

/// Whether a field is taken from the records of a type: its entry in 63 and 64 is blank, or names that type.
fn is_taken(entry: &FieldLine, record_type: Option<Indicator>) -> bool
    ensures { result ≡ is_taken_spec record_type entry.now }
{
    match (entry.relation, record_type) {
        (Some(relation), Some(named)) => named.is(relation),
        _ => true,
    }
}

/// The type of the chosen records: the named type, or the only one. None if the file has no types. Refused if no type is named
/// and the file has several, and if the file doesn't have the named type.
pub fn chosen_type(
    alloc: Global,
    lines: &[Line],
    file: Name,
    record_type: Option<Indicator>,
) -> Result<Option<Indicator>, LayoutFault>
    ensures { Chooses (chosen_type_spec record_type (types_from file first_spec lines.now)) result }
{
    let types = types_of(alloc, lines, file)?;
    match record_type {
        Some(named) => named_type(&types, named),
        None => only_type(&types),
    }
}

/// Refuses a type that is named, if the file doesn't have it.
pub fn test_type(
    alloc: Global,
    lines: &[Line],
    file: Name,
    record_type: Option<Indicator>,
) -> Result<(), LayoutFault>
    ensures { Refuses (type_refusal record_type (types_from file first_spec lines.now)) result }
{
    let types = types_of(alloc, lines, file)?;
    match record_type {
        Some(named) if !has_type(&types, named) => Err(LayoutFault::OtherType),
        _ => Ok(()),
    }
}

/// The type that is named, if it is there.
fn named_type(types: &[Indicator], named: Indicator) -> Result<Option<Indicator>, LayoutFault>
    ensures { result ≡ chosen_type_spec (Some named) types.now }
{
    if has_type(types, named) {
        Ok(Some(named))
    } else {
        Err(LayoutFault::OtherType)
    }
}

/// Whether a type is there.
fn has_type(types: &[Indicator], named: Indicator) -> bool
    ensures { result ≡ list_any (same_indicator named) types.now }
{
    types.iter().any(|indicator| named.is(*indicator))
}

/// The only type, if there is one, and no several.
fn only_type(types: &[Indicator]) -> Result<Option<Indicator>, LayoutFault>
    ensures { result ≡ chosen_type_spec None types.now }
{
    match types {
        [] => Ok(None),
        [only] => Ok(Some(*only)),
        _ => Err(LayoutFault::SeveralTypes),
    }
}

/// The indicators of the types of records that a file has.
pub fn types_of(alloc: Global, lines: &[Line], file: Name) -> Result<Vec<Indicator>, AllocError>
    ensures { IfOk result (λ types. types.items ≡ types_from file first_spec lines.now) }
{
    let mut types = Vec::new(alloc);
    let mut place = Place::first();
    for line in lines {
        place = place.behind(line, file, None);
        push_begun(&mut types, place, line)?;
    }
    Ok(types)
}

/// Adds the indicator of the type of the file that begins on a line.
fn push_begun(types: &mut Vec<Indicator>, place: Place, line: &Line) -> Result<(), AllocError>
    ensures { OnOk result (types.new.items ≡ types.old.items ++ begun_spec place line.now) }
{
    match &line.sheet {
        SheetLine::Input(InputLine::Record(_, indicator, _) | InputLine::Or(indicator, _))
            if place.in_file => {
            types.push(*indicator)?;
            Ok(())
        }
        _ => Ok(()),
    }
}
