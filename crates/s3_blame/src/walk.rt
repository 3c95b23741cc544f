//! What the lines above a line make of it.

use crate::known::{Known, shape_of_field};
use s3_cards::Name;
use s3_lines::indicator::Indicator;
use s3_lines::sheet::{
    CalculationLine, CalculationTime, FileLine, InputLine, Line, Operation, OutputLine, Shape,
    SheetLine,
};
use std::alloc::{AllocError, Global};

/// A match or control level.
#[derive(Clone, Copy, PartialEq, Eq)]
pub enum Key {
    /// L1 to L9.
    Control(u8),
    /// M1 to M9.
    Match(u8),
}

/// A level on a field of the record that is described.
#[derive(Clone, Copy)]
pub struct GivenKey {
    /// The level.
    pub key: Key,
    /// The record type of which alone the field is one.
    pub relation: Option<Indicator>,
}

/// What the lines above a line make of it.
#[derive(Drop)]
pub struct Walk {
    /// The file of the last record line, if it is defined.
    pub input_file: Option<FileLine>,
    /// The indicators of the types of the last record line and of the OR lines that continue with it.
    pub types: Vec<Indicator>,
    /// The levels that fields after that record line have.
    pub keys: Vec<GivenKey>,
    /// The first shape of each level, by all fields above.
    pub shapes: Vec<(Key, Shape)>,
    is_open: bool,
    /// 0 on detail lines, 1 on total lines, 2 on lines of subroutines.
    pub part: u8,
    /// The level of the group of C lines that the line above leaves open.
    pub group: Option<CalculationTime>,
    /// Whether a subroutine is open.
    pub is_in_subroutine: bool,
    /// The file of the last line card that names one.
    pub output_file: Option<Name>,
}

impl Walk {
    /// In front of the first line.
    pub fn new(alloc: Global) -> Walk {
        Walk {
            input_file: None,
            types: Vec::new(alloc),
            keys: Vec::new(alloc),
            shapes: Vec::new(alloc),
            is_open: false,
            part: 0,
            group: None,
            is_in_subroutine: false,
            output_file: None,
        }
    }

    /// Continues after a line.
    pub fn pass(&mut self, alloc: Global, known: &Known, line: &Line) -> Result<(), AllocError> {
        match &line.sheet {
            SheetLine::Header(_) | SheetLine::File(_) => Ok(()),
            SheetLine::Input(line) => self.pass_input(alloc, known, line),
            SheetLine::Calculation(line) => {
                self.pass_calculation(line);
                Ok(())
            }
            SheetLine::Output(OutputLine::Line(card)) => {
                self.output_file = card.file.or(self.output_file);
                Ok(())
            }
            SheetLine::Output(_) => Ok(()),
        }
    }

    fn pass_input(
        &mut self,
        alloc: Global,
        known: &Known,
        line: &InputLine,
    ) -> Result<(), AllocError> {
        match line {
            InputLine::Record(file, indicator, _) => {
                self.input_file = known.file(*file);
                self.types = Vec::new(alloc);
                self.keys = Vec::new(alloc);
                self.types.push(*indicator)?;
                self.is_open = true;
            }
            InputLine::And(_) => {}
            InputLine::Or(indicator, _) => {
                if self.is_open {
                    self.types.push(*indicator)?;
                }
            }
            InputLine::Field(field) => {
                self.is_open = false;
                let keys = [
                    field.control_level.map(|level| Key::Control(level)),
                    field.match_level.map(|level| Key::Match(level)),
                ];
                for key in keys {
                    if let Some(key) = key {
                        self.add_key(key, field.relation, shape_of_field(field))?;
                    }
                }
            }
        }
        Ok(())
    }

    fn add_key(
        &mut self,
        key: Key,
        relation: Option<Indicator>,
        shape: Shape,
    ) -> Result<(), AllocError> {
        self.keys.push(GivenKey { key, relation })?;
        if self.first_shape(key).is_none() {
            self.shapes.push((key, shape))?;
        }
        Ok(())
    }

    /// The shape of the first field with a level, by the fields above.
    pub fn first_shape(&self, key: Key) -> Option<Shape> {
        for (other, shape) in &self.shapes {
            if *other == key {
                return Some(*shape);
            }
        }
        None
    }

    /// Whether a field with this relation counts in a type of the group: it has none, or one to an indicator of these types.
    pub fn counts(&self, relation: Option<Indicator>) -> bool {
        match relation {
            Some(relation) => self.types.iter().any(|indicator| *indicator == relation),
            None => true,
        }
    }

    /// The level of a C line's group: its own, or the level of the group that it continues.
    pub fn time_of(&self, line: &CalculationLine) -> Option<CalculationTime> {
        match line.time {
            CalculationTime::And | CalculationTime::Or => self.group,
            time => Some(time),
        }
    }

    fn pass_calculation(&mut self, line: &CalculationLine) {
        let time = self.time_of(line);
        self.part = match line.time {
            CalculationTime::Total(_) => self.part.max(1),
            CalculationTime::Subroutine => 2,
            _ => self.part,
        };
        if matches!(time, Some(CalculationTime::Subroutine)) {
            match line.operation {
                Some(Operation::BeginSubroutine) => self.is_in_subroutine = true,
                Some(Operation::EndSubroutine) => self.is_in_subroutine = false,
                _ => {}
            }
        }
        self.group = if line.operation.is_none() { time } else { None };
    }
}
