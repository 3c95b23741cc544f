//! Where things start among the lines of a program, so that a run looks for none of them.

use crate::copied::{copied, copied_all};
use s3_lines::sheet::OutputKind;
use std::alloc::{AllocError, Global};

/// The start of a record type among the I lines: a record line, or an OR line that continues a record line.
#[derive(Clone, Copy)]
pub struct TypeStart {
    /// The slot of its file.
    pub file: usize,
    /// The place of its line, which its AND lines follow.
    pub place: usize,
    /// The place after the AND and OR lines of its group, where the fields begin.
    pub fields: usize,
}

/// The start of an output line among the O lines.
#[derive(Clone, Copy)]
pub struct OutputStart {
    /// The slot of its file. A line without a file's name takes the file of the line before.
    pub file: usize,
    /// When the line is written.
    pub kind: OutputKind,
    /// The place of its card, which its AND and OR cards and its fields follow.
    pub place: usize,
}

/// The lists of output lines that are written together.
#[derive(Clone, Copy)]
pub enum Walk {
    /// Headings and details, at the start of a cycle.
    Beginning,
    /// Totals, after the total calculations.
    Totals,
    /// Exception lines, at an EXCPT.
    Exceptions,
    /// Headings, details and totals, at overflow.
    Overflow,
}

/// Where the sections of the C lines begin. The detail lines begin at place 0.
#[derive(Clone, Copy)]
pub struct Sections {
    /// The place of the first total line, or of the first subroutine.
    pub totals: usize,
    /// The place of the first subroutine, or the count of lines.
    pub subroutines: usize,
}

/// Where record types, output lines and sections start.
#[derive(Drop)]
pub struct Starts {
    /// The record types of each file, by its slot, in order of the I sheet.
    pub types: Vec<Vec<TypeStart>>,
    /// Headings and details, in order of the O sheet.
    pub beginning: Vec<OutputStart>,
    /// Totals, in order of the O sheet.
    pub totals: Vec<OutputStart>,
    /// Exception lines, in order of the O sheet.
    pub exceptions: Vec<OutputStart>,
    /// Headings, details and totals, which overflow may print, in the order of the O sheet.
    pub overflow: Vec<OutputStart>,
    /// The sections of the C lines.
    pub sections: Sections,
}

impl Starts {
    ghost use Rattle.std.specs.Prelude.{IfOk};
    ghost use Rattle.s3_program.specs.Inner.Starts.{SameStarts};

    /// A copy of these starts; refused only if memory runs out.
    pub fn copy(&self, alloc: Global) -> Result<Starts, AllocError>
        ensures { IfOk result (λ copy. SameStarts copy self.now) }
    {
        Ok(Starts {
            types: copied_all(alloc, &self.types)?,
            beginning: copied(alloc, &self.beginning)?,
            totals: copied(alloc, &self.totals)?,
            exceptions: copied(alloc, &self.exceptions)?,
            overflow: copied(alloc, &self.overflow)?,
            sections: self.sections,
        })
    }
}
