//! What lines define, and what their diagnostics ask of it.

ghost use Rattle.std.specs.Prelude.{◌≡◌, ◌++◌, IfOk, OnOk, IsTrue, [], filter_map, option_map};
ghost use Rattle.s3_meaning.specs.Source.{reserved_shapes, input_line, calculation_line};
ghost use Rattle.s3_program.specs.Inner.Given.{all_noted, firsts};
ghost use Rattle.indexmap.specs.IndexSet.{contains};
ghost use Rattle.s3_program.specs.Jumps.{calls_from, with_call, is_forbidden, same_call, caller_of as caller_spec, callee_of as callee_spec};
ghost use Rattle.s3_program.specs.Matching.{marks_of};
ghost use Rattle.s3_program.specs.Standings.{first_calculation as first_calculation_spec};
ghost use Rattle.s3_program.specs.Tables.{meaning_of};
ghost use Rattle.s3_program.specs.Inner.Translation.{tables_in};
ghost use Rattle.s3_diagnose.specs.Inner.Early.{IsEarly};
ghost use Rattle.s3_diagnose.specs.Known.{meant_input, meant_calculation};
ghost use Rattle.s3_diagnose.specs.Lookups.{fields_given, known_of};
ghost use Rattle.s3_diagnose.specs.Inner.Ranged.{are_ranged};
ghost use Rattle.s3_diagnose.specs.Inner.Shown.{known_shown, marks_shown};
ghost use Rattle.s3_compile.specs.Inner.Defines.{Defines, AreEmpty, inputs_known, calculations_known};

use crate::file_places::file_places;
use crate::forbidden::forbidden_calls;
use crate::marking::fill_marks;
use crate::naming::{note_fields, note_results, subroutines_defined, tags_defined};
use indexmap::{IndexMap, IndexSet};
use s3_cards::Name;
use s3_diagnose::behind::{behind_calculation, first_calculation};
use s3_diagnose::jumps::{callee_of, caller_of};
use s3_diagnose::meant::{calculation, input};
use s3_diagnose::tables::{KnownTables, MarkTables};
use s3_lines::reserved::{PAGE, UDATE, UDAY, UMONTH, UYEAR};
use s3_lines::sheet::{CalculationLine, InputLine, Line, Shape, SheetLine};
use s3_program::call::Call;
use s3_program::defining::{files_defined, note};
use s3_program::definitions::Definitions;
use s3_program::program::Meaning;
use s3_program::standing::CalculationStanding;
use std::alloc::{AllocError, Global};

/// Adds the fields that the language has itself.
#[tactic(auto, unfolding(s3_program::specs::Inner::Given::all_noted))]
fn note_reserved(table: &mut IndexMap<Name, Shape>) -> Result<(), AllocError>
    ensures { OnOk result (table.new.entries ≡ all_noted table.old.entries reserved_shapes) }
{
    note(table, PAGE, Shape::Numeric(4, 0))?;
    note(table, UDATE, Shape::Numeric(6, 0))?;
    note(table, UMONTH, Shape::Numeric(2, 0))?;
    note(table, UDAY, Shape::Numeric(2, 0))?;
    note(table, UYEAR, Shape::Numeric(2, 0))?;
    Ok(())
}

/// The fields, each by its first line; those that the language has itself come first.
fn fields_defined(alloc: Global, lines: &[Line]) -> Result<IndexMap<Name, Shape>, AllocError>
    requires { IsTrue (are_ranged lines.now) }
    ensures { IfOk result (λ table. table.entries ≡ firsts (reserved_shapes ++ fields_given lines.now)) }
{
    let mut table = IndexMap::new(alloc);
    note_reserved(&mut table)?;
    note_fields(&mut table, lines)?;
    note_results(&mut table, lines)?;
    Ok(table)
}

/// Fills tables with what lines define, each name by its first line.
fn define(alloc: Global, known: &mut Definitions, lines: &[Line]) -> Result<(), AllocError>
    requires { IsTrue (are_ranged lines.now) }
    ensures { OnOk result (Defines known.new lines.now) }
{
    known.files = files_defined(alloc, lines)?;
    known.fields = fields_defined(alloc, lines)?;
    known.tags = tags_defined(alloc, lines)?;
    known.subroutines = subroutines_defined(alloc, lines)?;
    Ok(())
}

/// The I line of a line, with what it names.
fn input_on(known: &Definitions, line: &Line) -> Option<InputLine<Meaning>>
    ensures { result ≡ option_map (meant_input (meaning_of (tables_in known.now))) (input_line line.now) }
{
    match &line.sheet {
        SheetLine::Input(line) => Some(input(known, line)),
        _ => None,
    }
}

/// The C line of a line, with what it names.
fn calculation_on(known: &Definitions, line: &Line) -> Option<CalculationLine<Meaning>>
    ensures { result ≡ option_map (meant_calculation (meaning_of (tables_in known.now))) (calculation_line line.now) }
{
    match &line.sheet {
        SheetLine::Calculation(line) => Some(calculation(known, line)),
        _ => None,
    }
}

/// The I lines, with what they name.
fn inputs_meant(
    alloc: Global,
    known: &Definitions,
    lines: &[Line],
) -> Result<Vec<InputLine<Meaning>>, AllocError>
    ensures { IfOk result (λ inputs. inputs.items ≡ inputs_known known.now lines.now) }
{
    lines
        .iter()
        .filter_map(|line| input_on(known, line))
        .collect(alloc)
}

/// The C lines, with what they name.
fn calculations_meant(
    alloc: Global,
    known: &Definitions,
    lines: &[Line],
) -> Result<Vec<CalculationLine<Meaning>>, AllocError>
    ensures { IfOk result (λ calculations. calculations.items ≡ calculations_known known.now lines.now) }
{
    lines
        .iter()
        .filter_map(|line| calculation_on(known, line))
        .collect(alloc)
}

/// Adds the call of a C line.
fn add_call(
    calls: &mut Vec<Call>,
    at: &CalculationStanding,
    line: &CalculationLine<Meaning>,
) -> Result<(), AllocError>
    requires { IsEarly at.now }
    ensures { OnOk result (calls.new.items ≡ calls.old.items ++ with_call (caller_spec at.now line.now) (callee_spec line.now) []) }
{
    if let Some(callee) = callee_of(line) {
        let caller = caller_of(at, line);
        calls.push(Call { caller, callee })?;
    }
    Ok(())
}

/// The calls of C lines.
fn calls_of(alloc: Global, lines: &[CalculationLine<Meaning>]) -> Result<Vec<Call>, AllocError>
    ensures { IfOk result (λ calls. calls.items ≡ calls_from first_calculation_spec lines.now) }
{
    let mut calls = Vec::new(alloc);
    let mut at = first_calculation();
    for line in lines {
        add_call(&mut calls, &at, line)?;
        at = behind_calculation(&at, line);
    }
    Ok(calls)
}

/// Fills tables with what the I lines say of match and control fields.
fn mark(
    alloc: Global,
    known: &Definitions,
    marks: &mut MarkTables,
    lines: &[Line],
) -> Result<(), AllocError>
    requires { IsTrue (are_ranged lines.now) }
    ensures { OnOk result (marks_shown marks.new ≡ marks_of (inputs_known known.now lines.now)) }
{
    let inputs = inputs_meant(alloc, known, lines)?;
    fill_marks(alloc, marks, &inputs)
}

/// The calls of the C lines that are forbidden.
fn calls_forbidden(
    alloc: Global,
    known: &Definitions,
    lines: &[Line],
) -> Result<IndexSet<Call>, AllocError>
    ensures { IfOk result (λ set. (call : Call) → contains same_call set call
        ≡ is_forbidden (calls_from first_calculation_spec (calculations_known known.now lines.now)) call) }
{
    let calculations = calculations_meant(alloc, known, lines)?;
    let calls = calls_of(alloc, &calculations)?;
    forbidden_calls(alloc, &calls)
}

/// The tables of what no lines at all define.
pub fn empty_tables(alloc: Global) -> KnownTables
    ensures { AreEmpty result }
{
    KnownTables {
        definitions: Definitions {
            files: IndexMap::new(alloc),
            fields: IndexMap::new(alloc),
            tags: IndexMap::new(alloc),
            subroutines: IndexMap::new(alloc),
        },
        file_places: IndexMap::new(alloc),
        marks: MarkTables {
            types: IndexSet::new(alloc),
            in_all: IndexMap::new(alloc),
            in_some: IndexMap::new(alloc),
            in_type: IndexMap::new(alloc),
            shapes: IndexMap::new(alloc),
            matched: [false; 9],
        },
        forbidden: IndexSet::new(alloc),
    }
}

/// Fills empty tables with what lines define, and with what their diagnostics ask of it; refused only if memory runs out. The
/// caller owns the tables, so that no early return here drops them.
pub fn fill_tables(alloc: Global, known: &mut KnownTables, lines: &[Line]) -> Result<(), AllocError>
    requires { IsTrue (are_ranged lines.now) }
    ensures shown { OnOk result (known_shown known.new ≡ known_of lines.now) }
    ensures defines { OnOk result (Defines known.new.definitions lines.now) }
{
    define(alloc, &mut known.definitions, lines)?;
    known.file_places = file_places(alloc, lines)?;
    mark(alloc, &known.definitions, &mut known.marks, lines)?;
    known.forbidden = calls_forbidden(alloc, &known.definitions, lines)?;
    Ok(())
}
