//! The spot of a run in a section of the C sheet, and the calculation that comes next.
ghost use Rattle.std.specs.Prelude.{◌≡◌, None};
ghost use Rattle.s3_meaning.specs.Source.{detail_calculations, total_calculations};
ghost use Rattle.s3_program.specs.Inner.Stands.{source_named};
ghost use Rattle.s3_sections.specs.Inner.Sections.{rest_of};
ghost use Rattle.s3_sections.specs.Inner.Spots.{IsSpot, subroutine_in};

use s3_program::program::Program;

/// A part of the C sheet whose lines are done one after the other.
#[derive(Clone, Copy, Default)]
pub enum Section {
    /// The detail lines.
    #[default]
    Detail,
    /// The total lines.
    Total,
    /// The lines of a subroutine, after its BEGSR.
    Subroutine,
}

/// The spot of a run in a section.
#[derive(Clone, Copy, Default)]
pub struct Spot {
    /// Which section.
    pub section: Section,
    /// The place at which the section begins: of its first line, or after its BEGSR.
    pub begin: usize,
    /// The place from which the section continues.
    pub place: usize,
}

impl Spot {
    /// Where the detail calculations begin.
    pub fn detail(program: &Program) -> Spot
        ensures spot { IsSpot program.now result }
        ensures section { result.section ≡ Section.Detail }
        ensures outside { subroutine_in result ≡ None }
        ensures whole { detail_calculations (source_named program.now) ≡ rest_of program.now result.section result.begin }
        ensures all { result.place ≡ result.begin }
    {
        Spot {
            section: Section::Detail,
            begin: 0,
            place: 0,
        }
    }

    /// Where the total calculations begin.
    pub fn totals(program: &Program) -> Spot
        ensures spot { IsSpot program.now result }
        ensures section { result.section ≡ Section.Total }
        ensures outside { subroutine_in result ≡ None }
        ensures whole { total_calculations (source_named program.now) ≡ rest_of program.now result.section result.begin }
        ensures all { result.place ≡ result.begin }
    {
        let totals = program.starts.sections.totals;
        Spot {
            section: Section::Total,
            begin: totals,
            place: totals,
        }
    }
}
