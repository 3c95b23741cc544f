//! Lines become a program: names become slots.

ghost use Rattle.std.specs.Prelude.{◌≡◌, map, option_map, filter_map, find, is_some, Some, IfOk, OnOk, ◌++◌};
ghost use Rattle.std.specs.Option.{option_copied, option_to_list};
ghost use Rattle.s3_meaning.specs.Source.{input_line, calculation_line, output_line, header_name as header_name_spec, program_name as program_name_spec};
ghost use Rattle.s3_program.specs.Inner.Tables.{slot_in, reference as reference_spec};
ghost use Rattle.s3_program.specs.Lines.{map_factor, map_field, map_content};
ghost use Rattle.s3_program.specs.Inner.Valid.{defined_of};
ghost use Rattle.s3_program.specs.Kinds.{first_kind as first_kind_spec, second_kind as second_kind_spec};
ghost use Rattle.s3_program.specs.Inner.Translation as spec;

use crate::definitions::Definitions;
use crate::program::{Defined, Kind, Program, Reference};
use crate::starting::starts_of;
use indexmap::IndexMap;
use s3_cards::Name;
use s3_cards::ebcdic::{BLANK, LETTER_B, LETTER_G, LETTER_J, LETTER_O, LETTER_P, LETTER_R};
use s3_lines::sheet::{
    CalculationLine, Factor, FieldLine, FieldOutput, FileLine, InputLine, Line, Operation,
    OutputCard, OutputContent, OutputField, OutputLine, SheetLine,
};
use std::alloc::{AllocError, Global};

/// RPGOBJ, the name of a program whose H card has none.
const RPGOBJ: Name = Name {
    codes: [
        LETTER_R, LETTER_P, LETTER_G, LETTER_O, LETTER_B, LETTER_J, BLANK, BLANK,
    ],
};

/// The slot of a name; one that isn't there has the slot after the last.
fn slot<T>(table: &IndexMap<Name, T>, name: &Name) -> usize
    ensures { result ≡ slot_in table.now.entries name.now }
{
    table.get_index_of(name).unwrap_or(table.len())
}

/// What a name of some kind becomes.
fn reference(known: &Definitions, kind: Kind, name: &Name) -> Reference
    ensures { result ≡ reference_spec (spec.tables_in known.now) kind name.now }
{
    match kind {
        Kind::File => Reference::File(slot(&known.files, name)),
        Kind::Field => Reference::Field(slot(&known.fields, name)),
        Kind::Tag => Reference::Tag(slot(&known.tags, name)),
        Kind::Subroutine => Reference::Subroutine(slot(&known.subroutines, name)),
    }
}

/// What factor 1 of an operation names.
fn first_kind(operation: Option<Operation>) -> Kind
    ensures { result ≡ first_kind_spec operation }
{
    match operation {
        Some(Operation::Tag) => Kind::Tag,
        Some(Operation::BeginSubroutine) => Kind::Subroutine,
        _ => Kind::Field,
    }
}

/// What factor 2 of an operation names.
fn second_kind(operation: Option<Operation>) -> Kind
    ensures { result ≡ second_kind_spec operation }
{
    match operation {
        Some(Operation::GoTo) => Kind::Tag,
        Some(Operation::ExecuteSubroutine) => Kind::Subroutine,
        Some(Operation::Chain) => Kind::File,
        _ => Kind::Field,
    }
}

fn field(known: &Definitions, line: &FieldLine) -> FieldLine<Reference>
    ensures { result ≡ map_field (reference_spec (spec.tables_in known.now) Kind.Field) line.now }
{
    FieldLine {
        name: reference(known, Kind::Field, &line.name),
        from: line.from,
        to: line.to,
        form: line.form,
        control_level: line.control_level,
        match_level: line.match_level,
        relation: line.relation,
        indicators: line.indicators,
    }
}

fn input(known: &Definitions, line: &InputLine) -> InputLine<Reference>
    ensures { result ≡ spec.slotted_input (spec.tables_in known.now) line.now }
{
    match line {
        InputLine::Record(file, indicator, codes) => InputLine::Record(
            reference(known, Kind::File, file),
            *indicator,
            *codes,
        ),
        InputLine::And(codes) => InputLine::And(*codes),
        InputLine::Or(indicator, codes) => InputLine::Or(*indicator, *codes),
        InputLine::Field(line) => InputLine::Field(field(known, line)),
    }
}

fn factor(known: &Definitions, kind: Kind, factor: Option<Factor>) -> Option<Factor<Reference>>
    ensures { result ≡ option_map (map_factor (reference_spec (spec.tables_in known.now) kind)) factor }
{
    match factor {
        None => None,
        Some(Factor::Named(name)) => Some(Factor::Named(reference(known, kind, &name))),
        Some(Factor::Number(literal)) => Some(Factor::Number(literal)),
        Some(Factor::Text(literal)) => Some(Factor::Text(literal)),
    }
}

fn named(known: &Definitions, kind: Kind, name: Option<Name>) -> Option<Reference>
    ensures { result ≡ option_map (reference_spec (spec.tables_in known.now) kind) name }
{
    match name {
        None => None,
        Some(name) => Some(reference(known, kind, &name)),
    }
}

fn calculation(known: &Definitions, line: &CalculationLine) -> CalculationLine<Reference>
    ensures { result ≡ spec.slotted_calculation (spec.tables_in known.now) line.now }
{
    CalculationLine {
        time: line.time,
        conditions: line.conditions,
        factor1: factor(known, first_kind(line.operation), line.factor1),
        operation: line.operation,
        factor2: factor(known, second_kind(line.operation), line.factor2),
        result: named(known, Kind::Field, line.result),
        definition: line.definition,
        half_adjust: line.half_adjust,
        indicators: line.indicators,
    }
}

fn content(known: &Definitions, content: &OutputContent) -> OutputContent<Reference>
    ensures { result ≡ map_content (reference_spec (spec.tables_in known.now) Kind.Field) content.now }
{
    match content {
        OutputContent::Constant(constant) => OutputContent::Constant(*constant),
        OutputContent::Field(field) => OutputContent::Field(FieldOutput {
            name: reference(known, Kind::Field, &field.name),
            form: field.form,
            blank_after: field.blank_after,
        }),
    }
}

fn output(known: &Definitions, line: &OutputLine) -> OutputLine<Reference>
    ensures { result ≡ spec.slotted_output (spec.tables_in known.now) line.now }
{
    match line {
        OutputLine::Line(card) => OutputLine::Line(OutputCard {
            file: named(known, Kind::File, card.file),
            kind: card.kind,
            is_addition: card.is_addition,
            spacing: card.spacing,
            conditions: card.conditions,
        }),
        OutputLine::And(conditions) => OutputLine::And(*conditions),
        OutputLine::Or(conditions) => OutputLine::Or(*conditions),
        OutputLine::Field(field) => OutputLine::Field(OutputField {
            conditions: field.conditions,
            content: content(known, &field.content),
            end: field.end,
        }),
    }
}

#[tactic(auto, unfolding(crate::specs::Inner::Translation::file_on))]
fn file_on(line: &Line) -> Option<FileLine>
    ensures { result ≡ spec.file_on line.now }
{
    match line.sheet {
        SheetLine::File(file) => Some(file),
        _ => None,
    }
}

fn input_on(known: &Definitions, line: &Line) -> Option<InputLine<Reference>>
    ensures { result ≡ option_map (spec.slotted_input (spec.tables_in known.now)) (input_line line.now) }
{
    match &line.sheet {
        SheetLine::Input(line) => Some(input(known, line)),
        _ => None,
    }
}

fn calculation_on(known: &Definitions, line: &Line) -> Option<CalculationLine<Reference>>
    ensures { result ≡ option_map (spec.slotted_calculation (spec.tables_in known.now)) (calculation_line line.now) }
{
    match &line.sheet {
        SheetLine::Calculation(line) => Some(calculation(known, line)),
        _ => None,
    }
}

fn output_on(known: &Definitions, line: &Line) -> Option<OutputLine<Reference>>
    ensures { result ≡ option_map (spec.slotted_output (spec.tables_in known.now)) (output_line line.now) }
{
    match &line.sheet {
        SheetLine::Output(line) => Some(output(known, line)),
        _ => None,
    }
}

/// A table as a list, by slot.
fn defined<T: Copy>(alloc: Global, table: &IndexMap<Name, T>) -> Result<Vec<Defined<T>>, AllocError>
    ensures { IfOk result (λ list. list.items ≡ map defined_of table.now.entries) }
{
    table
        .iter()
        .map(|(name, meaning)| Defined {
            name: *name,
            meaning: *meaning,
        })
        .collect(alloc)
}

fn header_name(line: &Line) -> Option<Name>
    ensures { result ≡ header_name_spec line.now }
{
    match line.sheet {
        SheetLine::Header(name) => name,
        _ => None,
    }
}

/// The first H card that has a name.
fn named_header(lines: &[Line]) -> Option<&Line>
    ensures { option_copied result ≡ find (λ line. is_some (header_name_spec line)) lines.now }
{
    lines.iter().find(|line| header_name(line).is_some())
}

/// The name on the first H card that has one, or RPGOBJ.
fn program_name(lines: &[Line]) -> Name
    ensures { result ≡ program_name_spec lines.now }
{
    match named_header(lines) {
        Some(line) => header_name(line).unwrap_or(RPGOBJ),
        None => RPGOBJ,
    }
}

/// Adds the file of a line, if the line is its card.
fn add_file(files: &mut Vec<FileLine>, line: &Line) -> Result<(), AllocError>
    ensures { OnOk result (files.new.items ≡ files.old.items ++ option_to_list (spec.file_on line.now)) }
{
    if let Some(file) = file_on(line) {
        files.push(file)?;
    }
    Ok(())
}

fn files(alloc: Global, lines: &[Line]) -> Result<Vec<FileLine>, AllocError>
    ensures { IfOk result (λ list. list.items ≡ filter_map spec.file_on lines.now) }
{
    let mut files = Vec::new(alloc);
    for line in lines {
        add_file(&mut files, line)?;
    }
    Ok(files)
}

fn inputs(
    alloc: Global,
    known: &Definitions,
    lines: &[Line],
) -> Result<Vec<InputLine<Reference>>, AllocError>
    ensures { IfOk result (λ list. list.items ≡ filter_map (λ line. option_map (spec.slotted_input (spec.tables_in known.now)) (input_line line)) lines.now) }
{
    lines
        .iter()
        .filter_map(|line| input_on(known, line))
        .collect(alloc)
}

fn calculations(
    alloc: Global,
    known: &Definitions,
    lines: &[Line],
) -> Result<Vec<CalculationLine<Reference>>, AllocError>
    ensures { IfOk result (λ list. list.items ≡ filter_map (λ line. option_map (spec.slotted_calculation (spec.tables_in known.now)) (calculation_line line)) lines.now) }
{
    lines
        .iter()
        .filter_map(|line| calculation_on(known, line))
        .collect(alloc)
}

fn outputs(
    alloc: Global,
    known: &Definitions,
    lines: &[Line],
) -> Result<Vec<OutputLine<Reference>>, AllocError>
    ensures { IfOk result (λ list. list.items ≡ filter_map (λ line. option_map (spec.slotted_output (spec.tables_in known.now)) (output_line line)) lines.now) }
{
    lines
        .iter()
        .filter_map(|line| output_on(known, line))
        .collect(alloc)
}

/// The program that represents these lines, which must have no diagnostics. `known` is what they define. Refused only if memory
/// runs out.
pub fn translate(alloc: Global, known: &Definitions, lines: &[Line]) -> Result<Program, AllocError>
    requires accepted { spec.IsAccepted known.now lines.now }
    ensures { IfOk result (λ program. spec.StandsFor program lines.now) }
{
    let files = files(alloc, lines)?;
    let inputs = inputs(alloc, known, lines)?;
    let calculations = calculations(alloc, known, lines)?;
    let outputs = outputs(alloc, known, lines)?;
    let starts = starts_of(alloc, &files, &inputs, &calculations, &outputs)?;
    Ok(Program {
        name: program_name(lines),
        files,
        fields: defined(alloc, &known.fields)?,
        tags: defined(alloc, &known.tags)?,
        subroutines: defined(alloc, &known.subroutines)?,
        inputs,
        calculations,
        outputs,
        starts,
    })
}
