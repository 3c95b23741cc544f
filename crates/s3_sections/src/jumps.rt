//! Where a run continues after a GOTO and an EXSR.
ghost use Rattle.std.specs.Prelude.{◌≡◌, Some};
ghost use Rattle.s3_lines.specs.declared.sheet.Operation.TheVariants as op;
ghost use Rattle.s3_meaning.specs.Calculations.{name_in};
ghost use Rattle.s3_meaning.specs.Source.{body};
ghost use Rattle.s3_program.specs.Jumps.{called};
ghost use Rattle.s3_program.specs.Inner.Stands.{source_named};
ghost use Rattle.s3_operations.specs.Inner.Fits.{IsLineOf, named_line, meant_factor};
ghost use Rattle.s3_sections.specs.Inner.Sections.{rest_of};
ghost use Rattle.s3_sections.specs.Inner.Spots.{IsSpot, IsLineAt, IsOfSection, subroutine_in};
ghost use Rattle.s3_sections.specs.Inner.Jumps as spec;

use crate::spot::{Section, Spot};
use s3_lines::sheet::{CalculationLine, Factor};
use s3_program::program::{Program, Reference};

/// Where a GOTO goes.
#[derive(Clone, Copy)]
pub enum Jump {
    /// To a tag below it: the lines before the tag are passed over.
    Below(Spot),
    /// To a tag above it: the section begins again after the tag.
    Above(Spot),
}

/// What a factor names.
fn named(factor: Option<Factor<Reference>>) -> Option<Reference>
    ensures { result ≡ spec.named_in factor }
{
    match factor {
        Some(Factor::Named(reference)) => Some(reference),
        Some(Factor::Number(_)) | Some(Factor::Text(_)) | None => None,
    }
}

/// The place of the TAG that is named.
fn tag_place(program: &Program, name: Option<Reference>) -> Option<usize>
    ensures { result ≡ spec.tag_place program.now name }
{
    match name {
        Some(Reference::Tag(slot)) => program.tags.get(slot).map(|tag| tag.meaning.place),
        Some(Reference::File(_))
        | Some(Reference::Field(_))
        | Some(Reference::Subroutine(_))
        | None => None,
    }
}

/// The place of the BEGSR of the subroutine that is named.
fn subroutine_place(program: &Program, name: Option<Reference>) -> Option<usize>
    ensures { result ≡ spec.subroutine_place program.now name }
{
    match name {
        Some(Reference::Subroutine(slot)) => program
            .subroutines
            .get(slot)
            .map(|subroutine| subroutine.meaning.place),
        Some(Reference::File(_)) | Some(Reference::Field(_)) | Some(Reference::Tag(_)) | None => {
            None
        }
    }
}

/// The place of the TAG that a GOTO names.
pub fn tag_of(program: &Program, line: &CalculationLine<Reference>) -> usize
    requires { IsLineOf program.now line.now op.GoTo }
    ensures { spec.IsTagOf program.now line.now result }
{
    match tag_place(program, named(line.factor2)) {
        Some(tag) => tag,
        None => unreachable!(),
    }
}

/// The place of the BEGSR that an EXSR names.
pub fn subroutine_of(program: &Program, line: &CalculationLine<Reference>) -> usize
    requires { IsLineOf program.now line.now op.ExecuteSubroutine }
    ensures { spec.IsSubroutineOf program.now line.now result }
{
    match subroutine_place(program, named(line.factor2)) {
        Some(begsr) => begsr,
        None => unreachable!(),
    }
}

impl Spot {
    /// Where the GOTO at a place continues. It must be in this spot's section, and its tag at another place.
    pub fn go_to(
        self,
        program: &Program,
        line: &CalculationLine<Reference>,
        place: usize,
        tag: usize,
    ) -> Jump
        requires spot { IsSpot program.now self }
        requires line { IsLineAt program.now place line.now op.GoTo }
        requires inside { IsOfSection program.now self place line.now }
        requires tag { spec.IsTagOf program.now line.now tag }
        ensures { spec.GoesTo program.now self place (name_in (named_line program.now line.now).factor2) result }
    {
        let target = Spot {
            section: self.section,
            begin: self.begin,
            place: tag + 1,
        };
        if place < tag {
            Jump::Below(target)
        } else {
            Jump::Above(target)
        }
    }

    /// Where the subroutine begins that an EXSR calls: after its BEGSR.
    pub fn subroutine(program: &Program, line: &CalculationLine<Reference>, begsr: usize) -> Spot
        requires line { IsLineOf program.now line.now op.ExecuteSubroutine }
        requires begsr { spec.IsSubroutineOf program.now line.now begsr }
        ensures spot { IsSpot program.now result }
        ensures section { result.section ≡ Section.Subroutine }
        ensures all { result.place ≡ result.begin }
        ensures calls { called (meant_factor program.now line.now.factor2) ≡ subroutine_in result }
        ensures whole { body (source_named program.now) (name_in (named_line program.now line.now).factor2) ≡ rest_of program.now Section.Subroutine result.begin }
    {
        Spot {
            section: Section::Subroutine,
            begin: begsr + 1,
            place: begsr + 1,
        }
    }
}
