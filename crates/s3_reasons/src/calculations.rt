//! Why an operation doesn't fit (diagnostic 08 of C cards).

use crate::phrases::{Entry, push_entry, push_shape};
use s3_blame::Known;
use s3_cards::Card;
use s3_diagnose::rows::row_of;
use s3_lines::sheet::{CalculationLine, Factor, Operation, Shape};
use s3_program::row::{Operand, Pairing, Row, Target};
use s3_sheets::FaultyEntry;
use std::alloc::AllocError;

const FACTOR_1: Entry = Entry { from: 18, to: 27 };

const OPERATION: Entry = Entry { from: 28, to: 32 };

const FACTOR_2: Entry = Entry { from: 33, to: 42 };

const RESULT: Entry = Entry { from: 43, to: 48 };

/// A C card with an operation that doesn't fit.
#[derive(Clone, Copy)]
pub struct Misfit<'a> {
    /// The card.
    pub card: &'a Card,
    /// Its line.
    pub line: &'a CalculationLine,
    /// What the source defines.
    pub known: &'a Known,
}

/// The shape of what a factor is, if it is a field that is defined or a literal.
fn shape_of(known: &Known, factor: Option<Factor>) -> Option<Shape> {
    match factor {
        Some(Factor::Named(name)) => known.field(name),
        Some(Factor::Number(literal)) => Some(Shape::Numeric(literal.digits, literal.decimals)),
        Some(Factor::Text(literal)) => Some(Shape::Alphanumeric(u16::from(literal.length))),
        None => None,
    }
}

/// What an operation takes as a factor.
fn words_of_operand(operand: Operand) -> &'static str {
    match operand {
        Operand::Nothing => "nothing",
        Operand::Number => "numbers",
        Operand::Text => "texts",
        Operand::Value => "a field or a literal",
        Operand::Tag => "the name of a tag",
        Operand::Subroutine => "the name of a subroutine",
        Operand::ChainedFile => "the name of a chained file",
    }
}

/// What the result of an operation is.
fn words_of_target(target: Target) -> &'static str {
    match target {
        Target::Nothing => "nothing",
        Target::Number => "a number",
        Target::Text => "a text",
        Target::Any => "a field",
    }
}

impl<'a> Misfit<'a> {
    /// Appends why the first entry that is to blame doesn't fit.
    pub fn push(&self, text: &mut String, entries: &[FaultyEntry]) -> Result<(), AllocError> {
        let Some(first) = entries.first() else {
            return Ok(());
        };
        match self.line.operation {
            Some(Operation::Unknown) => {
                push_entry(text, self.card, OPERATION)?;
                text.push_str(" is no operation; mend its name in columns 28 to 32")
            }
            Some(operation) => { self.push_operand(text, &row_of(operation), first.from, entries) }
            None => self.push_without_operation(text, first),
        }
    }

    fn push_without_operation(
        &self,
        text: &mut String,
        first: &FaultyEntry,
    ) -> Result<(), AllocError> {
        if first.from == OPERATION.from {
            return text.push_str("it has no operation, and no AN or OR line goes on with it");
        }
        let entry = Entry {
            from: first.from,
            to: first.to,
        };
        push_entry(text, self.card, entry)?;
        text.push_str(" needs an operation in columns 28 to 32")
    }

    /// Appends the operation.
    fn push_operation(&self, text: &mut String) -> Result<(), AllocError> {
        push_entry(text, self.card, OPERATION)
    }

    /// Appends why the entry that begins at a column doesn't fit.
    fn push_operand(
        &self,
        text: &mut String,
        row: &Row,
        column: usize,
        entries: &[FaultyEntry],
    ) -> Result<(), AllocError> {
        match column {
            18 if entries.iter().any(|entry| entry.from == FACTOR_2.from) => {
                self.push_pair(text, row)
            }
            18 => self.push_factor_1(text, row),
            33 => self.push_factor(text, "factor 2", FACTOR_2, row.factor2, self.line.factor2),
            43 => self.push_result(text, row.result),
            49 | 52 => text.push_str("a length in columns 49 to 52 needs a result field"),
            53 => {
                self.push_operation(text)?;
                text.push_str(" takes no half adjust in column 53")
            }
            54 if self.line.indicators.iter().all(|given| given.is_none()) => {
                self.push_operation(text)?;
                text.push_str(" needs a resulting indicator in columns 54 to 59")
            }
            _ => {
                self.push_operation(text)?;
                write!(
                    text,
                    " takes no resulting indicator in columns {column} and {}",
                    column.saturating_add(1)
                )
            }
        }
    }

    /// Appends why both factors don't fit.
    fn push_pair(&self, text: &mut String, row: &Row) -> Result<(), AllocError> {
        let one = shape_of(self.known, self.line.factor1);
        let two = shape_of(self.known, self.line.factor2);
        match (row.pairing, one, two) {
            (Pairing::Alike, Some(one), Some(two)) => {
                self.push_value(text, FACTOR_1, one)?;
                text.push_str(", and ")?;
                self.push_value(text, FACTOR_2, two)?;
                text.push_str("; ")?;
                self.push_operation(text)?;
                text.push_str(" takes two of a kind")
            }
            _ => self.push_factor_1(text, row),
        }
    }

    /// Appends an entry, and what its value is.
    fn push_value(&self, text: &mut String, entry: Entry, shape: Shape) -> Result<(), AllocError> {
        push_entry(text, self.card, entry)?;
        text.push_str(" is ")?;
        push_shape(text, shape)
    }

    /// Appends why factor 1 doesn't fit.
    fn push_factor_1(&self, text: &mut String, row: &Row) -> Result<(), AllocError> {
        match (row.pairing, shape_of(self.known, self.line.factor1)) {
            (Pairing::KeyOfFile, Some(shape)) => self.push_key(text, shape),
            _ => self.push_factor(text, "factor 1", FACTOR_1, row.factor1, self.line.factor1),
        }
    }

    /// Appends why factor 1 is no key and no record number of the file in factor 2.
    fn push_key(&self, text: &mut String, shape: Shape) -> Result<(), AllocError> {
        self.push_value(text, FACTOR_1, shape)?;
        let Some(Factor::Named(name)) = self.line.factor2 else {
            return Ok(());
        };
        let Some(file) = self.known.file(name) else {
            return Ok(());
        };
        text.push_str("; ")?;
        push_entry(text, self.card, FACTOR_2)?;
        match file.key {
            Some(key) => {
                let length = key.length;
                write!(text, " has a key of {length} characters")
            }
            None => text.push_str(" has no key, so it takes a record number without decimals"),
        }
    }

    /// Appends why a factor doesn't fit.
    fn push_factor(
        &self,
        text: &mut String,
        words: &str,
        entry: Entry,
        operand: Operand,
        factor: Option<Factor>,
    ) -> Result<(), AllocError> {
        let (from, to) = (entry.from, entry.to);
        match (operand, factor) {
            (Operand::Nothing, _) => {
                self.push_operation(text)?;
                write!(text, " takes no {words} in columns {from} to {to}")
            }
            (_, None) => {
                self.push_operation(text)?;
                let takes = words_of_operand(operand);
                write!(
                    text,
                    " needs {words} in columns {from} to {to}; it takes {takes}"
                )
            }
            (_, Some(_)) => {
                self.push_wrong(text, entry, shape_of(self.known, factor))?;
                self.push_operation(text)?;
                write!(text, " takes {}", words_of_operand(operand))
            }
        }
    }

    /// Appends what an entry is, before what is wanted in its place.
    fn push_wrong(
        &self,
        text: &mut String,
        entry: Entry,
        shape: Option<Shape>,
    ) -> Result<(), AllocError> {
        match shape {
            Some(shape) => self.push_value(text, entry, shape)?,
            None => {
                push_entry(text, self.card, entry)?;
                text.push_str(" isn't one")?;
            }
        }
        text.push_str("; ")
    }

    /// Appends why the result doesn't fit.
    fn push_result(&self, text: &mut String, target: Target) -> Result<(), AllocError> {
        match (target, self.line.result) {
            (Target::Nothing, _) => {
                self.push_operation(text)?;
                text.push_str(" takes no result field in columns 43 to 48")
            }
            (_, None) => {
                self.push_operation(text)?;
                text.push_str(" needs a result field in columns 43 to 48")
            }
            (_, Some(name)) => {
                self.push_wrong(text, RESULT, self.known.field(name))?;
                text.push_str("the result of ")?;
                self.push_operation(text)?;
                write!(text, " is {}", words_of_target(target))
            }
        }
    }
}
