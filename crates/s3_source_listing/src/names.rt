//! The names on the cards of a source.

use s3_cards::Name;
use s3_lines::sheet::{
    CalculationLine, Factor, FileLine, InputLine, Operation, OutputContent, OutputLine, SheetLine,
};

/// The kind of a name.
#[derive(Clone, Copy)]
pub enum Sort {
    /// A file.
    File,
    /// A field.
    Field,
    /// A tag.
    Tag,
    /// A subroutine.
    Subroutine,
}

/// A name on a card.
#[derive(Clone, Copy)]
pub struct NameMention {
    /// The kind of the name.
    pub sort: Sort,
    /// The name.
    pub name: Name,
    /// Whether the card defines it; else it uses it.
    pub defines: bool,
}

/// The names on the card of a line, in the order of their columns.
pub fn names_on(line: &SheetLine) -> [Option<NameMention>; 3] {
    match line {
        SheetLine::Header(_) => [None, None, None],
        SheetLine::File(file) => [defined_file(file), None, None],
        SheetLine::Input(line) => [name_of_input(line), None, None],
        SheetLine::Calculation(line) => [
            name_of_factor1(line),
            name_of_factor2(line),
            name_of_result(line),
        ],
        SheetLine::Output(line) => [name_of_output(line), None, None],
    }
}

/// A name that a card defines.
fn defined(sort: Sort, name: Name) -> Option<NameMention> {
    Some(NameMention {
        sort,
        name,
        defines: true,
    })
}

/// A name that a card uses.
fn used(sort: Sort, name: Name) -> Option<NameMention> {
    Some(NameMention {
        sort,
        name,
        defines: false,
    })
}

fn defined_file(line: &FileLine) -> Option<NameMention> {
    defined(Sort::File, line.name)
}

fn name_of_input(line: &InputLine) -> Option<NameMention> {
    match line {
        InputLine::Record(file, _, _) => used(Sort::File, *file),
        InputLine::Field(field) => defined(Sort::Field, field.name),
        InputLine::And(_) | InputLine::Or(_, _) => None,
    }
}

fn name_of_factor1(line: &CalculationLine) -> Option<NameMention> {
    let Some(Factor::Named(name)) = line.factor1 else {
        return None;
    };
    match line.operation {
        Some(Operation::Tag) => defined(Sort::Tag, name),
        Some(Operation::BeginSubroutine) => defined(Sort::Subroutine, name),
        _ => used(Sort::Field, name),
    }
}

fn name_of_factor2(line: &CalculationLine) -> Option<NameMention> {
    let Some(Factor::Named(name)) = line.factor2 else {
        return None;
    };
    match line.operation {
        Some(Operation::GoTo) => used(Sort::Tag, name),
        Some(Operation::ExecuteSubroutine) => used(Sort::Subroutine, name),
        Some(Operation::Chain) => used(Sort::File, name),
        _ => used(Sort::Field, name),
    }
}

/// The result, which the card defines if it has an operation and a length.
fn name_of_result(line: &CalculationLine) -> Option<NameMention> {
    match (line.result, line.operation, line.definition) {
        (Some(name), Some(_), Some(_)) => defined(Sort::Field, name),
        (Some(name), _, _) => used(Sort::Field, name),
        (None, _, _) => None,
    }
}

fn name_of_output(line: &OutputLine) -> Option<NameMention> {
    match line {
        OutputLine::Line(first) => match first.file {
            Some(file) => used(Sort::File, file),
            None => None,
        },
        OutputLine::Field(field) => match &field.content {
            OutputContent::Field(put) => used(Sort::Field, put.name),
            OutputContent::Constant(_) => None,
        },
        OutputLine::And(_) | OutputLine::Or(_) => None,
    }
}
