//! The programs of a library.
ghost use Rattle.std.specs.Prelude.{◌≡◌, ◌≢◌, None, Some, IfOk};
ghost use Rattle.indexmap.specs.IndexMap.{get};
ghost use Rattle.s3_cards.specs.Names.{same_name};
ghost use Rattle.s3_program.specs.declared.program.Program.{Program};
ghost use Rattle.s3_operations.specs.Inner.Beginning.{IsDate};
ghost use Rattle.s3_level.specs.Inner.Library.{BeginsFor, IsFor, HasSame};

use indexmap::IndexMap;
use s3_cards::Name;
use s3_cycle::Cycle;
use s3_lines::sheet::FileLine;
use s3_program::program::Program;
use std::alloc::{AllocError, Global};
use std::marker::Model;

/// A program of a library, and the cycle of its last job, which its next job takes up: so a program is decoded once.
#[derive(Drop)]
pub struct Stocked {
    program: Program,
    rested: Option<Cycle>,
}

impl Model for Stocked {
    ghost use Rattle.s3_program.specs.declared.program.Program.{Program};
    ghost use Rattle.s3_level.specs.Inner.Library.{Rests};

    ghost Value = { Program };

    ghost view = { λ s. s.program };

    ghost invariant = { λ s. Rests s.program s.rested };
}

impl Stocked {
    /// A program of which no job was run yet.
    pub fn new(program: Program) -> Stocked
        ensures { result ≡ program }
    {
        Stocked {
            program,
            rested: None,
        }
    }

    /// The F lines of the program.
    pub fn file_lines(&self) -> &[FileLine]
        ensures { result.now ≡ self.now.files.items }
    {
        &self.program.files
    }

    /// A cycle of the program at the first request of a job with these switches, U1 the highest bit, and this date, six EBCDIC
    /// digits.
    pub fn begin(&mut self, alloc: Global, switches: u8, date: [u8; 6]) -> Result<Cycle, AllocError>
        requires { IsDate date }
        ensures cycle { IfOk result (BeginsFor self.old switches date) }
        ensures same { self.new ≡ self.old }
    {
        match self.rested.take() {
            Some(cycle) => Ok(cycle.restart(switches, date)),
            None => started(alloc, &self.program, switches, date),
        }
    }

    /// Takes the cycle of a job that is over back, for the next job.
    pub fn give_back(&mut self, cycle: Cycle)
        requires { IsFor self.old cycle }
        ensures { self.new ≡ self.old }
    {
        self.rested = Some(cycle);
    }
}

/// A cycle of a program's first job.
fn started(
    alloc: Global,
    program: &Program,
    switches: u8,
    date: [u8; 6],
) -> Result<Cycle, AllocError>
    requires { IsDate date }
    ensures { IfOk result (BeginsFor program.now switches date) }
{
    Cycle::start(alloc, program.copy(alloc)?, switches, date)
}

/// A cycle of a program of a library at the first request of a job with these switches and this date.
pub fn begin(
    library: &mut IndexMap<Name, Stocked>,
    name: Name,
    alloc: Global,
    switches: u8,
    date: [u8; 6],
) -> Result<Cycle, AllocError>
    requires there { get same_name library.old name ≢ None }
    requires date { IsDate date }
    ensures cycle { IfOk result (λ cycle. (program : Program) → get same_name library.old name ≡ Some program → BeginsFor program switches date cycle) }
    ensures same { HasSame library.old library.new }
{
    match library.get_mut(&name) {
        Some(stocked) => stocked.begin(alloc, switches, date),
        None => unreachable!(),
    }
}

/// Gives a library the cycle of a job that is over, for the next job of its program.
pub fn give_back(library: &mut IndexMap<Name, Stocked>, name: Name, cycle: Cycle)
    requires { (program : Program) → get same_name library.old name ≡ Some program → IsFor program cycle }
    ensures { HasSame library.old library.new }
{
    if let Some(stocked) = library.get_mut(&name) {
        stocked.give_back(cycle);
    }
}
