//! The course of a run through subroutines.
ghost use Rattle.std.specs.Prelude.{◌≡◌, [], None};
ghost use Rattle.s3_lines.specs.declared.sheet.Operation.TheVariants as op;
ghost use Rattle.s3_meaning.specs.Calculations.{name_in};
ghost use Rattle.s3_operations.specs.Inner.Fits.{named_line};
ghost use Rattle.s3_sections.specs.Inner.Jumps.{IsSubroutineOf};
ghost use Rattle.s3_sections.specs.Inner.Spots.{IsSpot, IsLineAt, IsOfSection, subroutine_in};
ghost use Rattle.s3_sections.specs.Inner.Courses as spec;
ghost use Rattle.s3_program.specs.declared.program.Program.{Program};

use crate::spot::Spot;
use arrayvec::ArrayVec;
use s3_lines::sheet::CalculationLine;
use s3_program::program::{Program, Reference};

/// The most subroutines that are open at once.
pub const MOST_CALLS: usize = 8;

/// The spot of a run, and the spots at which it continues when subroutines are done.
#[derive(Drop)]
pub struct Course {
    /// The spot of the run.
    pub here: Spot,
    /// Where it continues after each EXSR that isn't done, the innermost last.
    pub returns: ArrayVec<Spot, MOST_CALLS>,
}

impl Course {
    /// A course that begins at a spot outside of all subroutines.
    pub fn new(here: Spot) -> Course
        ensures here { result.here ≡ here }
        ensures returns { result.returns.items ≡ [] }
        ensures course { (program : Program) → IsSpot program here → subroutine_in here ≡ None → spec.IsCourse program result }
    {
        Course {
            here,
            returns: ArrayVec::new(),
        }
    }

    /// Begins again at a spot outside of all subroutines, with no subroutine open.
    pub fn restart(&mut self, here: Spot)
        ensures here { self.new.here ≡ here }
        ensures returns { self.new.returns.items ≡ [] }
        ensures course { (program : Program) → IsSpot program here → subroutine_in here ≡ None → spec.IsCourse program self.new }
    {
        self.here.section = here.section;
        self.here.begin = here.begin;
        self.here.place = here.place;
        self.returns.clear();
    }

    /// Continues at another place of its section.
    pub fn move_to(&mut self, place: usize)
        ensures here { self.new.here ≡ record self.old.here { place = place } }
        ensures returns { self.new.returns ≡ self.old.returns }
        ensures course { (program : Program) → spec.IsCourse program self.old → IsSpot program (record self.old.here { place = place }) → spec.IsCourse program self.new }
    {
        self.here.place = place;
    }

    /// Goes to the subroutine that the EXSR at a place calls: after its BEGSR.
    pub fn enter(
        &mut self,
        program: &Program,
        line: &CalculationLine<Reference>,
        place: usize,
        begsr: usize,
    )
        requires course { spec.IsCourse program.now self.old }
        requires line { IsLineAt program.now place line.now op.ExecuteSubroutine }
        requires inside { IsOfSection program.now self.old.here place line.now }
        requires begsr { IsSubroutineOf program.now line.now begsr }
        ensures { spec.Enters program.now (name_in (named_line program.now line.now).factor2) place self.old self.new }
    {
        self.returns.push(Spot {
            section: self.here.section,
            begin: self.here.begin,
            place: place + 1,
        });
        let first = Spot::subroutine(program, line, begsr);
        self.here.section = first.section;
        self.here.begin = first.begin;
        self.here.place = first.place;
    }

    /// At the end of a section, continues after the EXSR that called it; false if no EXSR did.
    pub fn leave(&mut self) -> bool
        ensures { (program : Program) → spec.IsCourse program self.old → spec.Leaves program self.old self.new result }
    {
        match self.returns.last() {
            Some(spot) => {
                self.here.section = spot.section;
                self.here.begin = spot.begin;
                self.here.place = spot.place;
                self.returns.pop();
                true
            }
            None => false,
        }
    }
}
