//! A compiled program: the lines of its source, with slots for names.
ghost use Rattle.std.specs.Prelude.{IsTrue};
ghost use Rattle.s3_program.specs.Inner.Starts.{AreStarts};
ghost use Rattle.s3_program.specs.Inner.Valid.{is_valid};

use crate::copied::copied;
use crate::starts::Starts;
use s3_cards::Name;
use s3_lines::sheet::{CalculationLine, FileLine, InputLine, OutputLine, Shape};
use std::alloc::{AllocError, Global};

/// The kinds of things that names are given to.
#[derive(Clone, Copy)]
pub enum Kind {
    /// A file.
    File,
    /// A field.
    Field,
    /// A tag.
    Tag,
    /// A subroutine.
    Subroutine,
}

/// What a line of a program names: its kind, and its slot, the place among all of its kind, from 0.
#[derive(Clone, Copy)]
pub enum Reference {
    /// A file.
    File(usize),
    /// A field.
    Field(usize),
    /// A tag.
    Tag(usize),
    /// A subroutine.
    Subroutine(usize),
}

/// The place of a tag.
#[derive(Clone, Copy)]
pub struct TagPlace {
    /// The place of its TAG among the calculation lines, from 0.
    pub place: usize,
    /// Its section: 0 is detail, 1 total, and a subroutine has 2 more than its slot.
    pub section: usize,
}

/// The place of a subroutine.
#[derive(Clone, Copy)]
pub struct SubroutinePlace {
    /// The place of its BEGSR among the calculation lines, from 0.
    pub place: usize,
}

/// Something that has a name, with that name.
#[derive(Clone, Copy)]
pub struct Defined<T> {
    /// Its name, which no other of its kind has.
    pub name: Name,
    /// What has the name.
    pub meaning: T,
}

/// What a name on a line means.
#[derive(Clone, Copy)]
pub enum Meaning {
    /// Nothing has the name.
    Undefined,
    /// It names a file, with this F line.
    File(FileLine),
    /// It names a field of this shape, which is given with its name.
    Field(Defined<Shape>),
    /// It names a tag at this place.
    Tag(TagPlace),
    /// It names a subroutine at this place.
    Subroutine(SubroutinePlace),
}

/// A program: the lines of a source, with slots in place of names.
#[derive(Drop)]
pub struct Program {
    /// The name under which it goes to the library.
    pub name: Name,
    /// The files, by slot.
    pub files: Vec<FileLine>,
    /// The fields, by slot.
    pub fields: Vec<Defined<Shape>>,
    /// The tags, by slot.
    pub tags: Vec<Defined<TagPlace>>,
    /// The subroutines, by slot.
    pub subroutines: Vec<Defined<SubroutinePlace>>,
    /// The lines of the I sheet.
    pub inputs: Vec<InputLine<Reference>>,
    /// The lines of the C sheet.
    pub calculations: Vec<CalculationLine<Reference>>,
    /// The lines of the O sheet.
    pub outputs: Vec<OutputLine<Reference>>,
    /// Where its record types, output lines and sections start.
    pub starts: Starts,
    pub ghost starting: { AreStarts starts files.items inputs.items calculations.items outputs.items },
    pub ghost valid: { IsTrue (is_valid (record {
      files = files.items;
      fields = fields.items;
      tags = tags.items;
      subroutines = subroutines.items;
      inputs = inputs.items;
      calculations = calculations.items;
      outputs = outputs.items;
    })) },
}

impl Program {
    ghost use Rattle.std.specs.Prelude.{◌≡◌, IfOk};
    ghost use Rattle.s3_program.specs.Inner.Stands.{parts_of};

    /// A copy of this program; refused only if memory runs out.
    #[tactic(auto, using(crate::proofs::PartsLemmas::same_parts, crate::proofs::PartsLemmas::still_valid))]
    pub fn copy(&self, alloc: Global) -> Result<Program, AllocError>
        ensures parts { IfOk result (λ copy. parts_of copy ≡ parts_of self.now) }
        ensures name { IfOk result (λ copy. copy.name ≡ self.now.name) }
    {
        Ok(Program {
            name: self.name,
            files: copied(alloc, &self.files)?,
            fields: copied(alloc, &self.fields)?,
            tags: copied(alloc, &self.tags)?,
            subroutines: copied(alloc, &self.subroutines)?,
            inputs: copied(alloc, &self.inputs)?,
            calculations: copied(alloc, &self.calculations)?,
            outputs: copied(alloc, &self.outputs)?,
            starts: self.starts.copy(alloc)?,
        })
    }
}
