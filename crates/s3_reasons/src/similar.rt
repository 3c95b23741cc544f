//! Names that are similar to one that a source uses and doesn't define (diagnostic 05).

use crate::phrases::{Entry, codes_of, push_entry};
use s3_cards::{Card, Name, trim_end};
use s3_decks::push_name;
use s3_diagnose::rows::row_of;
use s3_lines::sheet::{CalculationLine, Factor, InputLine, Line, Operation, OutputLine, SheetLine};
use s3_program::row::Operand;
use s3_sheets::FaultyEntry;
use std::alloc::{AllocError, Global};
use strsim::generic_damerau_levenshtein;

/// The first column of factor 2 on C cards.
const FACTOR_2: usize = 33;

/// What a name of a source is the name of.
#[derive(Clone, Copy)]
enum Thing {
    /// A file.
    File,
    /// A field.
    Field,
    /// A place that GOTO goes to.
    Tag,
    /// A subroutine.
    Subroutine,
}

/// What the name in an entry of a line must be the name of: the entry that begins at a column.
fn thing_at(sheet: &SheetLine, column: usize) -> Option<Thing> {
    match sheet {
        SheetLine::Input(InputLine::Record(..)) => Some(Thing::File),
        SheetLine::Output(OutputLine::Line(_)) => Some(Thing::File),
        SheetLine::Output(OutputLine::Field(_)) => Some(Thing::Field),
        SheetLine::Calculation(line) if column == FACTOR_2 => Some(thing_of_factor_2(
            line.operation,
        )),
        SheetLine::Calculation(_) => Some(Thing::Field),
        _ => None,
    }
}

/// What the name in factor 2 of an operation is the name of.
fn thing_of_factor_2(operation: Option<Operation>) -> Thing {
    let Some(operation) = operation else {
        return Thing::Field;
    };
    match row_of(operation).factor2 {
        Operand::Tag => Thing::Tag,
        Operand::Subroutine => Thing::Subroutine,
        Operand::ChainedFile => Thing::File,
        _ => Thing::Field,
    }
}

/// The name that a line defines as that of such a thing.
fn defined_by(sheet: &SheetLine, thing: Thing) -> Option<Name> {
    match (thing, sheet) {
        (Thing::File, SheetLine::File(file)) => Some(file.name),
        (Thing::Field, SheetLine::Input(InputLine::Field(field))) => Some(field.name),
        (_, SheetLine::Calculation(line)) => defined_by_calculation(line, thing),
        _ => None,
    }
}

fn defined_by_calculation(line: &CalculationLine, thing: Thing) -> Option<Name> {
    match (thing, line.operation, line.factor1) {
        (Thing::Tag, Some(Operation::Tag), Some(Factor::Named(name))) => Some(name),
        (Thing::Subroutine, Some(Operation::BeginSubroutine), Some(Factor::Named(name))) => {
            Some(name)
        }
        (Thing::Field, Some(_), _) if line.definition.is_some() => line.result,
        _ => None,
    }
}

/// By how many characters left out, put in, changed or swapped with the next one a similar name may differ from a word of a length.
fn most_differences(length: usize) -> usize {
    match length {
        0 | 1 => 0,
        2..=4 => 1,
        _ => 2,
    }
}

/// The name among those that lines define as names of such a thing that differs least from a word, if it is similar;
/// of several the first one. It is refused only if memory runs out.
fn most_similar(
    alloc: Global,
    lines: &[Line],
    thing: Thing,
    word: &[u8],
) -> Result<Option<Name>, AllocError> {
    let mut found = None;
    let mut least = most_differences(word.len()).saturating_add(1);
    for line in lines {
        if let Some(name) = defined_by(&line.sheet, thing) {
            let differences = generic_damerau_levenshtein(
                alloc,
                word,
                trim_end(name.codes.as_slice()),
            )?;
            if differences > 0 && differences < least {
                least = differences;
                found = Some(name);
            }
        }
    }
    Ok(found)
}

/// Appends which defined names are similar to those in entries of a line, whose names aren't defined: `QTY is similar to QTTY`.
/// Nothing is appended for a name without a similar one.
pub fn push_similar(
    alloc: Global,
    text: &mut String,
    card: &Card,
    line: &Line,
    lines: &[Line],
    entries: &[FaultyEntry],
) -> Result<(), AllocError> {
    for entry in entries {
        let place = Entry {
            from: entry.from,
            to: entry.to,
        };
        if let Some(thing) = thing_at(&line.sheet, entry.from) {
            let similar = most_similar(alloc, lines, thing, trim_end(codes_of(card, place)))?;
            if let Some(name) = similar {
                push_pair(text, card, place, name)?;
            }
        }
    }
    Ok(())
}

/// Appends that a name is similar to the one in an entry.
fn push_pair(text: &mut String, card: &Card, entry: Entry, name: Name) -> Result<(), AllocError> {
    let joined = if text.is_empty() {
        " is similar to "
    } else {
        text.push_str(", ")?;
        " to "
    };
    push_name(text, name)?;
    text.push_str(joined)?;
    push_entry(text, card, entry)
}
