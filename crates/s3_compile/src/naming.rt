//! What lines define the names as.

ghost use Rattle.std.specs.Prelude.{◌≡◌, IfOk, OnOk, IsTrue, filter_map};
ghost use Rattle.std.specs.Option.{option_to_list};
ghost use Rattle.s3_meaning.specs.Source.{input_line, calculation_line};
ghost use Rattle.s3_program.specs.Inner.Given.{all_noted, firsts};
ghost use Rattle.s3_program.specs.Standings.{first_calculation as first_calculation_spec};
ghost use Rattle.s3_diagnose.specs.Inner.Early.{IsEarly};
ghost use Rattle.s3_diagnose.specs.Lookups as spec;
ghost use Rattle.s3_diagnose.specs.Inner.Ranged.{is_ranged, are_ranged};
ghost use Rattle.s3_compile.specs.Inner.Noted.{field_on, result_on, tag_on, subroutine_on, calculation_behind};

use indexmap::IndexMap;
use s3_cards::Name;
use s3_diagnose::behind::{behind_calculation, first_calculation, section_on, time_on};
use s3_diagnose::shapes::shape_of_field;
use s3_lines::sheet::{CalculationLine, Factor, InputLine, Line, Operation, Shape, SheetLine};
use s3_program::defining::note;
use s3_program::program::{SubroutinePlace, TagPlace};
use s3_program::standing::CalculationStanding;
use std::alloc::{AllocError, Global};

/// The name that factor 1 is.
fn name_given(factor: Option<Factor>) -> Option<Name>
    ensures { result ≡ spec.name_given factor }
{
    match factor {
        Some(Factor::Named(name)) => Some(name),
        _ => None,
    }
}

/// Adds the tag of a C line.
#[tactic(auto, unfolding(s3_program::specs::Inner::Given::all_noted))]
fn note_tag(
    table: &mut IndexMap<Name, TagPlace>,
    at: &CalculationStanding,
    line: &CalculationLine,
) -> Result<(), AllocError>
    requires { IsEarly at.now }
    ensures { OnOk result (table.new.entries ≡ all_noted table.old.entries (option_to_list (spec.tag_given at.now line.now))) }
{
    if let (Some(Operation::Tag), Some(name)) = (line.operation, name_given(line.factor1)) {
        let section = section_on(at, time_on(at.group, line.time), line.operation);
        let tag = TagPlace {
            place: at.place,
            section,
        };
        note(table, name, tag)?;
    }
    Ok(())
}

/// Adds the subroutine of a C line.
#[tactic(auto, unfolding(s3_program::specs::Inner::Given::all_noted))]
fn note_subroutine(
    table: &mut IndexMap<Name, SubroutinePlace>,
    at: &CalculationStanding,
    line: &CalculationLine,
) -> Result<(), AllocError>
    ensures { OnOk result (table.new.entries ≡ all_noted table.old.entries (option_to_list (spec.subroutine_given at.now line.now))) }
{
    if let (Some(Operation::BeginSubroutine), Some(name)) = (
        line.operation,
        name_given(line.factor1),
    ) {
        note(table, name, SubroutinePlace { place: at.place })?;
    }
    Ok(())
}

/// Adds the tag of a line.
#[tactic(auto, unfolding(s3_program::specs::Inner::Given::all_noted))]
fn note_tag_on(
    table: &mut IndexMap<Name, TagPlace>,
    at: &CalculationStanding,
    line: &Line,
) -> Result<(), AllocError>
    requires { IsEarly at.now }
    ensures { OnOk result (table.new.entries ≡ all_noted table.old.entries (tag_on at.now line.now)) }
{
    if let SheetLine::Calculation(line) = &line.sheet {
        note_tag(table, at, line)?;
    }
    Ok(())
}

/// Adds the subroutine of a line.
#[tactic(auto, unfolding(s3_program::specs::Inner::Given::all_noted))]
fn note_subroutine_on(
    table: &mut IndexMap<Name, SubroutinePlace>,
    at: &CalculationStanding,
    line: &Line,
) -> Result<(), AllocError>
    ensures { OnOk result (table.new.entries ≡ all_noted table.old.entries (subroutine_on at.now line.now)) }
{
    if let SheetLine::Calculation(line) = &line.sheet {
        note_subroutine(table, at, line)?;
    }
    Ok(())
}

/// The context of the C line after a line.
fn behind_line(at: &CalculationStanding, line: &Line) -> CalculationStanding
    requires { IsEarly at.now }
    ensures { result ≡ calculation_behind at.now line.now }
{
    match &line.sheet {
        SheetLine::Calculation(line) => behind_calculation(at, line),
        _ => *at,
    }
}

/// The tags that lines define, each by its first TAG line; refused only if memory runs out.
#[tactic(auto, unfolding(s3_program::specs::Inner::Given::all_noted))]
pub fn tags_defined(alloc: Global, lines: &[Line]) -> Result<IndexMap<Name, TagPlace>, AllocError>
    ensures { IfOk result (λ table. table.entries ≡ firsts (spec.tags_from first_calculation_spec (filter_map calculation_line lines.now))) }
{
    let mut table = IndexMap::new(alloc);
    let mut at = first_calculation();
    for line in lines {
        note_tag_on(&mut table, &at, line)?;
        at = behind_line(&at, line);
    }
    Ok(table)
}

/// The subroutines that lines define, each by its first BEGSR line; refused only if memory runs out.
#[tactic(auto, unfolding(s3_program::specs::Inner::Given::all_noted))]
pub fn subroutines_defined(
    alloc: Global,
    lines: &[Line],
) -> Result<IndexMap<Name, SubroutinePlace>, AllocError>
    ensures { IfOk result (λ table. table.entries ≡ firsts (spec.subroutines_from first_calculation_spec (filter_map calculation_line lines.now))) }
{
    let mut table = IndexMap::new(alloc);
    let mut at = first_calculation();
    for line in lines {
        note_subroutine_on(&mut table, &at, line)?;
        at = behind_line(&at, line);
    }
    Ok(table)
}

/// Adds the result of a C line that defines one.
#[tactic(auto, unfolding(s3_program::specs::Inner::Given::all_noted))]
fn note_result(table: &mut IndexMap<Name, Shape>, line: &CalculationLine) -> Result<(), AllocError>
    ensures { OnOk result (table.new.entries ≡ all_noted table.old.entries (option_to_list (spec.result_given line.now))) }
{
    if let (Some(_), Some(name), Some(shape)) = (line.operation, line.result, line.definition) {
        note(table, name, shape)?;
    }
    Ok(())
}

/// Adds the result of a line.
#[tactic(auto, unfolding(s3_program::specs::Inner::Given::all_noted))]
fn note_result_on(table: &mut IndexMap<Name, Shape>, line: &Line) -> Result<(), AllocError>
    ensures { OnOk result (table.new.entries ≡ all_noted table.old.entries (result_on line.now)) }
{
    if let SheetLine::Calculation(line) = &line.sheet {
        note_result(table, line)?;
    }
    Ok(())
}

/// Adds the field of a line in a record.
#[tactic(auto, unfolding(s3_program::specs::Inner::Given::all_noted))]
fn note_field_on(table: &mut IndexMap<Name, Shape>, line: &Line) -> Result<(), AllocError>
    requires { IsTrue (is_ranged line.now.sheet) }
    ensures { OnOk result (table.new.entries ≡ all_noted table.old.entries (field_on line.now)) }
{
    if let SheetLine::Input(InputLine::Field(field)) = &line.sheet {
        note(table, field.name, shape_of_field(field))?;
    }
    Ok(())
}

/// Adds the results that C lines define, each by its first line and unless the table has the name; refused only if memory runs
/// out.
#[tactic(auto, unfolding(s3_program::specs::Inner::Given::all_noted))]
pub fn note_results(table: &mut IndexMap<Name, Shape>, lines: &[Line]) -> Result<(), AllocError>
    ensures { OnOk result (table.new.entries ≡ all_noted table.old.entries (filter_map spec.result_given (filter_map calculation_line lines.now))) }
{
    for line in lines {
        note_result_on(table, line)?;
    }
    Ok(())
}

/// Adds the fields of I lines, each by its first line and unless the table has the name; refused only if memory runs out.
#[tactic(auto, unfolding(s3_program::specs::Inner::Given::all_noted))]
pub fn note_fields(table: &mut IndexMap<Name, Shape>, lines: &[Line]) -> Result<(), AllocError>
    requires { IsTrue (are_ranged lines.now) }
    ensures { OnOk result (table.new.entries ≡ all_noted table.old.entries (filter_map spec.input_given (filter_map input_line lines.now))) }
{
    for line in lines {
        note_field_on(table, line)?;
    }
    Ok(())
}
