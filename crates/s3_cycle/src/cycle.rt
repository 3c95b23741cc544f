//! The cycle of a job.

use crate::request::{Answer, Request, Sought};
use crate::stand::{Stand, Totals};
use crate::stepper::Stepper;
use s3_cards::Name;
use s3_lines::sheet::FileLine;
use s3_output::composition::Composition;
use s3_program::program::Program;
use std::alloc::{AllocError, Global};
use std::marker::Model;
use std::num::NonZeroU16;

/// The run of a job, suspended at a request.
#[derive(Drop)]
pub struct Cycle {
    // the run is large: so a cycle that is handed on isn't copied
    stepper: Box<Stepper>,
}

impl Model for Cycle {
    ghost use Rattle.s3_cycle.specs.declared.stepper.Stepper.{Stepper};
    ghost use Rattle.s3_cycle.specs.Inner.Going.{IsWaiting};

    ghost Value = { Stepper };

    ghost view = { λ c. c.stepper.value };

    ghost invariant = { λ c. IsWaiting c.stepper.value };
}

impl Cycle {
    ghost use Rattle.std.specs.Prelude.{◌≡◌, ◌≤◌, ◌<◌, ℕ, IfOk, IsTrue, List, [], ◌∷◌, ◌++◌, Some, option_map, slice_get, replicate};
    ghost use Rattle.std.specs.Int.NonZero.{non_zero_u16_get};
    ghost use Rattle.std.specs.Option.{option_and_then, option_copied};
    ghost use Rattle.s3_lines.specs.declared.sheet.FileLine.{FileLine};
    ghost use Rattle.s3_meaning.specs.Source.{Source};
    ghost use Rattle.s3_meaning.specs.Requests.{Answer as MeantAnswer, Done, Jump as MeantJump};
    ghost use Rattle.s3_cycle.specs.declared.request.Request.TheVariants.{Jump};
    ghost use Rattle.s3_meaning.specs.Output.{filled};
    ghost use Rattle.s3_meaning.specs.Cycle.{Req};
    ghost use Rattle.s3_program.specs.Inner.Stands.{Stands};
    ghost use Rattle.s3_match.specs.Inner.Types.{name_of_file};
    ghost use Rattle.s3_operations.specs.Inner.Beginning.{IsDate};
    ghost use Rattle.s3_cycle.specs.Inner.Requests.{FitsFile, IsLine, answer_of, sought_of};
    ghost use Rattle.s3_cycle.specs.Inner.Following.{StandsFor, asked, files, is_fit, put, waits};
    ghost use Rattle.s3_cycle.specs.Inner.Rest.{rest};
    ghost use Rattle.s3_cycle.specs.Inner.Standing.{AsksAt, chain_of, file_of, record_at, record_behind, sought_by, stand_of, totals_of};

    /// A job at its first request, with its switches, U1 the highest bit, and its date, six EBCDIC digits. All memory of the
    /// run is taken here.
    pub fn start(
        alloc: Global,
        program: Program,
        switches: u8,
        date: [u8; 6],
    ) -> Result<Cycle, AllocError>
        requires { IsDate date }
        ensures { IfOk result (λ c. (source : Source) → Stands program source → StandsFor c source × ((answers : List MeantAnswer) → rest source c answers ≡ Req source switches date answers)) }
    {
        Ok(Cycle {
            stepper: Box::new(alloc, Stepper::start(alloc, program, switches, date)?)?,
        })
    }

    /// The next job of the same program at its first request, with its switches and its date. What the program was decoded into
    /// is kept, and so is the memory of the run before.
    pub fn restart(mut self, switches: u8, date: [u8; 6]) -> Cycle
        requires { IsDate date }
        ensures { (source : Source) → StandsFor self source → StandsFor result source × ((answers : List MeantAnswer) → rest source result answers ≡ Req source switches date answers) }
    {
        self.stepper.restart(switches, date);
        self
    }

    /// The F lines of the program, by slot.
    pub fn file_lines(&self) -> &[FileLine]
        ensures { result.now ≡ files self.now }
    {
        &self.stepper.program.files
    }

    /// The F line at a slot, if there is one. By its name the requests to its file are meant.
    pub fn file_line(&self, file: usize) -> Option<&FileLine>
        ensures line { option_copied result ≡ slice_get (files self.now) file }
        ensures name { (line : FileLine) → slice_get (files self.now) file ≡ Some line → name_of_file self.now.program file ≡ line.name }
    {
        self.stepper.file_line(file)
    }

    /// The request that waits for an answer. Its file is on disk, and its F line allows it.
    pub fn pending(&self) -> &Request
        ensures request { result.now ≡ asked self.now }
        ensures next { (source : Source) → waits self.now ≡ rest source self.now [] }
        ensures file { FitsFile (files self.now) (asked self.now) (put self.now) }
    {
        &self.stepper.request
    }

    /// The text of the line, or the record, that the request writes. A line that is to be printed has 1 to 132 bytes.
    pub fn record(&self) -> &[u8]
        ensures value { result.now ≡ filled (put self.now) }
        ensures line { IsLine (asked self.now) result.now }
        ensures file { FitsFile (files self.now) (asked self.now) result.now }
    {
        self.stepper.composition.codes()
    }

    /// What an update puts at each position of the record.
    pub fn changes(&self) -> &Composition
        ensures { result.now ≡ put self.now }
    {
        &self.stepper.composition
    }

    /// The name under which the program is in the library.
    pub fn program_name(&self) -> Name
        ensures { result ≡ self.now.program.name }
    {
        self.stepper.program.name
    }

    /// The place of a halted run in its source: after reply 0 it continues as the meaning does after that card.
    /// It is `Nowhere` only if the run doesn't halt, or if a halt indicator halts it.
    pub fn stand(&self) -> Stand
        ensures value { result ≡ stand_of self.now }
        ensures card { (source : Source) → AsksAt source self.now result }
    {
        self.stepper.stand()
    }

    /// The bytes of the record whose field the run is at, or that it writes; none if it is at neither.
    pub fn record_there(&self) -> &[u8]
        ensures { result.now ≡ record_at self.now (stand_of self.now) }
    {
        self.stepper.record_there()
    }

    /// The key or number that the CHAIN at the run's place seeks, with the run's values; none if the run isn't at a CHAIN.
    pub fn sought_there(&self) -> Option<Sought>
        ensures { option_map sought_of result ≡ option_and_then (sought_by self.now) (chain_of self.now.program (stand_of self.now)) }
    {
        self.stepper.sought_there()
    }

    /// The slot of the file at which the run is: the file of a record, of a CHAIN or of an output line.
    pub fn file_there(&self) -> Option<usize>
        ensures { result ≡ file_of self.now.program (stand_of self.now) }
    {
        self.stepper.file_there()
    }

    /// The totals that the run is at, if its calculations or total lines are carried out.
    pub fn totals(&self) -> Totals
        ensures { result ≡ totals_of self.now.progress self.now.progress.time }
    {
        self.stepper.totals()
    }

    /// The bytes of the record that is processed after the totals that the run is at; none at other times.
    pub fn record_behind_totals(&self) -> &[u8]
        ensures { result.now ≡ record_behind self.now.progress self.now.progress.time }
    {
        self.stepper.record_behind_totals()
    }

    /// Goes on with the answer, up to the next request. It takes no memory.
    pub fn resume(&mut self, answer: Answer<'_>)
        requires { IsTrue (is_fit self.old answer) }
        ensures { (source : Source) → StandsFor self.old source → StandsFor self.new source × ((answers : List MeantAnswer) → rest source self.new answers ≡ rest source self.old (answer_of answer.entry ∷ answers)) }
    {
        self.stepper.go_on(&answer);
    }

    /// Continues past the pending jump, as after the answer `Done`, and past the jumps after it, at most `most`; answers how many.
    /// It takes no memory.
    pub fn pass_jumps(&mut self, most: NonZeroU16) -> u16
        requires jump { asked self.old ≡ Jump }
        ensures some { 1 ≤ result }
        ensures few { result ≤ non_zero_u16_get most }
        ensures jumps { (source : Source) → StandsFor self.old source → (n : ℕ) → n < result → rest source self.old (replicate n Done) ≡ MeantJump }
        ensures goes { (source : Source) → StandsFor self.old source → StandsFor self.new source × ((answers : List MeantAnswer) → rest source self.new answers ≡ rest source self.old (replicate result Done ++ answers)) }
    {
        self.stepper.pass_jumps(most)
    }
}
