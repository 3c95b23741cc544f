//! What the names of lines mean.

ghost use Rattle.std.specs.Prelude.{◌≡◌, option_map};
ghost use Rattle.s3_program.specs.Tables.{meaning_of};
ghost use Rattle.s3_program.specs.Inner.Translation.{tables_in};
ghost use Rattle.s3_program.specs.Kinds.{first_kind as first_kind_spec, second_kind as second_kind_spec};
ghost use Rattle.s3_program.specs.Lines.{map_factor, map_field, map_content};
ghost use Rattle.s3_diagnose.specs.Known as spec;

use crate::standing::MeantLine;
use s3_cards::Name;
use s3_lines::sheet::{
    CalculationLine, Factor, FieldLine, FieldOutput, InputLine, Operation, OutputCard,
    OutputContent, OutputField, OutputLine, SheetLine,
};
use s3_program::definitions::Definitions;
use s3_program::program::{Defined, Kind, Meaning};

/// What a name of some kind means.
fn meaning(known: &Definitions, kind: Kind, name: &Name) -> Meaning
    ensures { result ≡ meaning_of (tables_in known.now) kind name.now }
{
    match kind {
        Kind::File => match known.files.get(name) {
            Some(file) => Meaning::File(*file),
            None => Meaning::Undefined,
        },
        Kind::Field => match known.fields.get(name) {
            Some(shape) => Meaning::Field(Defined {
                name: *name,
                meaning: *shape,
            }),
            None => Meaning::Undefined,
        },
        Kind::Tag => match known.tags.get(name) {
            Some(tag) => Meaning::Tag(*tag),
            None => Meaning::Undefined,
        },
        Kind::Subroutine => match known.subroutines.get(name) {
            Some(subroutine) => Meaning::Subroutine(*subroutine),
            None => Meaning::Undefined,
        },
    }
}

/// What factor 1 of an operation names.
fn first_kind(operation: Option<Operation>) -> Kind
    ensures { result ≡ first_kind_spec operation }
{
    match operation {
        Some(Operation::Tag) => Kind::Tag,
        Some(Operation::BeginSubroutine) => Kind::Subroutine,
        _ => Kind::Field,
    }
}

/// What factor 2 of an operation names.
fn second_kind(operation: Option<Operation>) -> Kind
    ensures { result ≡ second_kind_spec operation }
{
    match operation {
        Some(Operation::GoTo) => Kind::Tag,
        Some(Operation::ExecuteSubroutine) => Kind::Subroutine,
        Some(Operation::Chain) => Kind::File,
        _ => Kind::Field,
    }
}

fn field(known: &Definitions, line: &FieldLine) -> FieldLine<Meaning>
    ensures { result ≡ map_field (meaning_of (tables_in known.now) Kind.Field) line.now }
{
    FieldLine {
        name: meaning(known, Kind::Field, &line.name),
        from: line.from,
        to: line.to,
        form: line.form,
        control_level: line.control_level,
        match_level: line.match_level,
        relation: line.relation,
        indicators: line.indicators,
    }
}

/// An I line with what it names in place of the names.
pub fn input(known: &Definitions, line: &InputLine) -> InputLine<Meaning>
    ensures { result ≡ spec.meant_input (meaning_of (tables_in known.now)) line.now }
{
    match line {
        InputLine::Record(file, indicator, codes) => InputLine::Record(
            meaning(known, Kind::File, file),
            *indicator,
            *codes,
        ),
        InputLine::And(codes) => InputLine::And(*codes),
        InputLine::Or(indicator, codes) => InputLine::Or(*indicator, *codes),
        InputLine::Field(line) => InputLine::Field(field(known, line)),
    }
}

fn factor(known: &Definitions, kind: Kind, factor: Option<Factor>) -> Option<Factor<Meaning>>
    ensures { result ≡ option_map (map_factor (meaning_of (tables_in known.now) kind)) factor }
{
    match factor {
        None => None,
        Some(Factor::Named(name)) => Some(Factor::Named(meaning(known, kind, &name))),
        Some(Factor::Number(literal)) => Some(Factor::Number(literal)),
        Some(Factor::Text(literal)) => Some(Factor::Text(literal)),
    }
}

fn named(known: &Definitions, kind: Kind, name: Option<Name>) -> Option<Meaning>
    ensures { result ≡ option_map (meaning_of (tables_in known.now) kind) name }
{
    match name {
        None => None,
        Some(name) => Some(meaning(known, kind, &name)),
    }
}

/// A C line with what it names in place of the names.
pub fn calculation(known: &Definitions, line: &CalculationLine) -> CalculationLine<Meaning>
    ensures { result ≡ spec.meant_calculation (meaning_of (tables_in known.now)) line.now }
{
    CalculationLine {
        time: line.time,
        conditions: line.conditions,
        factor1: factor(known, first_kind(line.operation), line.factor1),
        operation: line.operation,
        factor2: factor(known, second_kind(line.operation), line.factor2),
        result: named(known, Kind::Field, line.result),
        definition: line.definition,
        half_adjust: line.half_adjust,
        indicators: line.indicators,
    }
}

fn content(known: &Definitions, content: &OutputContent) -> OutputContent<Meaning>
    ensures { result ≡ map_content (meaning_of (tables_in known.now) Kind.Field) content.now }
{
    match content {
        OutputContent::Constant(constant) => OutputContent::Constant(*constant),
        OutputContent::Field(field) => OutputContent::Field(FieldOutput {
            name: meaning(known, Kind::Field, &field.name),
            form: field.form,
            blank_after: field.blank_after,
        }),
    }
}

fn output(known: &Definitions, line: &OutputLine) -> OutputLine<Meaning>
    ensures { result ≡ spec.meant_output (meaning_of (tables_in known.now)) line.now }
{
    match line {
        OutputLine::Line(card) => OutputLine::Line(OutputCard {
            file: named(known, Kind::File, card.file),
            kind: card.kind,
            is_addition: card.is_addition,
            spacing: card.spacing,
            conditions: card.conditions,
        }),
        OutputLine::And(conditions) => OutputLine::And(*conditions),
        OutputLine::Or(conditions) => OutputLine::Or(*conditions),
        OutputLine::Field(field) => OutputLine::Field(OutputField {
            conditions: field.conditions,
            content: content(known, &field.content),
            end: field.end,
        }),
    }
}

/// A line of any sheet with what it names in place of the names.
pub fn meant_line(known: &Definitions, line: &SheetLine) -> MeantLine
    ensures { result ≡ spec.meant_line (meaning_of (tables_in known.now)) line.now }
{
    match line {
        SheetLine::Header(_) => MeantLine::Header,
        SheetLine::File(file) => MeantLine::File(*file),
        SheetLine::Input(line) => MeantLine::Input(input(known, line)),
        SheetLine::Calculation(line) => MeantLine::Calculation(calculation(known, line)),
        SheetLine::Output(line) => MeantLine::Output(output(known, line)),
    }
}
