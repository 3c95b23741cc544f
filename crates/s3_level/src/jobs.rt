//! The start of a job.

use crate::date::Date;
use crate::details::one_detail;
use crate::job::{OpenJob, places_of};
use crate::level::Level;
use crate::stocked::begin;
use crate::switches::switches_after;
use s3_cycle::Cycle;
use s3_job_files::JobFiles;
use s3_labels::Pack;
use s3_ocl::{FaultyJob, JobCards, OclFault, job_at, split};
use s3_opening::{JobSettings, OpeningFault, open_files};
use s3_operator::HaltCode;
use s3_output::composition::LONGEST_RECORD;
use s3_solo::Did;
use s3_store::{SectorFault, Sectors};
use std::alloc::AllocError;

impl Level {
    ghost use Rattle.std.specs.Prelude.{◌≡◌, ◌≢◌, ◌<◌, [], true, false, nat_lt, length, unwrap_or, List, None, Some, IfOk, IsTrue, OnOk};
    ghost use Rattle.s3_meaning.specs.Source.{Source};
    ghost use Rattle.indexmap.specs.IndexMap.{get};
    ghost use Rattle.s3_cards.specs.Names.{same_name};
    ghost use Rattle.s3_meaning.specs.Requests.{Answer};
    ghost use Rattle.s3_meaning.specs.Cycle.{Req};
    ghost use Rattle.s3_program.specs.declared.program.Program.{Program};
    ghost use Rattle.s3_cycle.specs.Inner.Following.{StandsFor, files};
    ghost use Rattle.s3_cycle.specs.Inner.Rest.{rest};
    ghost use Rattle.s3_ocl.specs.Jobs.{next_job};
    ghost use Rattle.s3_ocl.specs.Inner.Sound.{is_sound_date};
    ghost use Rattle.s3_ocl.specs.Streams.{jobs_from};
    ghost use Rattle.s3_job_files.specs.Files.{FilesInUse};
    ghost use Rattle.s3_job_files.specs.Inner.Holds.{Seen, seen, Holds as HoldsInUse, IsReady as AreFilesReady};
    ghost use Rattle.s3_opening.specs.Inner.OpenFiles.{AreOfLines};
    ghost use Rattle.s3_solo.specs.World.{World};
    ghost use Rattle.s3_solo.specs.Serving.{at_work, data_of, performed, run, started, switches_after, with_jobs};
    ghost use Rattle.s3_level.specs.Inner.Calls.{IsJobOf, KeepsJob, Leaves, MayBegin};
    ghost use Rattle.s3_level.specs.Inner.Holds.{Shown, with_seen, HoldsParts, IsQuiet, Becomes, Stays};
    ghost use Rattle.s3_level.specs.Inner.Library.{IsFor};
    ghost use Rattle.s3_level.specs.Inner.Turning.{NextIs, Begins, Starts};

    /// Begins the next job, if there is one.
    #[inline(never)]
    pub(crate) fn begin<P: Sectors>(&mut self, pack: &mut Pack<P>) -> Result<Did, SectorFault>
        requires free { MayBegin self.old (seen pack.old.areas (P.state pack.old.pool).contents) }
        ensures world { (s : Shown) → Begins result (HoldsParts self.old (with_seen (seen pack.old.areas (P.state pack.old.pool).contents) s)) (HoldsParts self.new (with_seen (seen pack.new.areas (P.state pack.new.pool).contents) s)) }
        ensures leaves { Leaves result self.old self.new pack.old.areas pack.new.areas (P.state pack.old.pool) (P.state pack.new.pool) }
        ensures quiet { IfOk result (λ did. IsQuiet did pack.old.areas pack.new.areas (P.state pack.old.pool) (P.state pack.new.pool)) }
    {
        if !self.has_job() {
            self.pass_over();
            return Ok(Did::Idle);
        }
        match self.next_job() {
            Ok(job) => self.start(&job, pack)?,
            Err(OclFault::NoMemory) => return Err(SectorFault::NoMemory),
            Err(OclFault::Faulty(faulty)) => self.refuse(faulty)?,
        }
        Ok(Did::Acted)
    }

    /// Whether a job is left.
    #[tactic(auto, using(crate::proofs::Starting::no_job_left, crate::proofs::Starting::some_job_left))]
    pub(crate) fn has_job(&self) -> bool
        ensures next { result ≡ nat_lt (next_job self.now.deck self.now.next) (length self.now.deck) }
        ensures none { result ≡ false → jobs_from self.now.deck self.now.next ≡ [] }
        ensures some { result ≡ true → jobs_from self.now.deck self.now.next ≢ [] }
    {
        job_at(&self.deck, self.next).is_some()
    }

    /// Moves past the last card of a deck that has no job left, so that no later turn looks at the separators there again.
    #[tactic(auto, using(crate::proofs::Starting::no_job_behind))]
    fn pass_over(&mut self)
        requires { jobs_from self.old.deck self.old.next ≡ [] }
        ensures world { (s : Shown) → Becomes (λ w. w) (HoldsParts self.old s) (HoldsParts self.new s) }
        ensures keeps { KeepsJob self.old self.new }
    {
        self.next = self.deck.len();
    }

    /// The next job, or its fault.
    #[tactic(auto, using(crate::proofs::Starting::next_is))]
    fn next_job(&self) -> Result<JobCards, OclFault>
        requires { next_job self.now.deck self.now.next < length self.now.deck }
        ensures job { NextIs self.now.deck self.now.next result }
        ensures sound { IfOk result (IsJobOf self.now.deck) }
    {
        split(self.alloc, &self.deck, self.next)
    }

    /// Takes the next job, which ends before that place, and answers its number.
    fn take_job(&mut self, after: usize) -> u16
        ensures number { result ≡ self.old.number }
        ensures world { (s : Shown) → Becomes (with_jobs (jobs_from self.old.deck after)) (HoldsParts self.old s) (HoldsParts self.new s) }
        ensures keeps { KeepsJob self.old self.new }
    {
        self.next = after;
        self.number.take()
    }

    /// Passes a faulty job over and shows its fault.
    fn refuse(&mut self, faulty: FaultyJob) -> Result<(), AllocError>
        ensures world { (s : Shown) → OnOk result (Starts (Err faulty) (jobs_from self.old.deck faulty.after) (HoldsParts self.old s) (HoldsParts self.new s)) }
        ensures keeps { KeepsJob self.old self.new }
    {
        let number = self.take_job(faulty.after);
        self.show_fault(number, faulty)
    }

    /// Shows the fault of a job's statements.
    fn show_fault(&mut self, number: u16, faulty: FaultyJob) -> Result<(), AllocError>
        ensures world { (s : Shown) → OnOk result (Becomes (started number (Err faulty)) (HoldsParts self.old s) (HoldsParts self.new s)) }
        ensures keeps { KeepsJob self.old self.new }
    {
        let details = one_detail(self.alloc, faulty.card, faulty.fault.number())?;
        self.show(number, HaltCode::FaultyJob, details)
    }

    /// Starts the next job.
    fn start<P: Sectors>(&mut self, job: &JobCards, pack: &mut Pack<P>) -> Result<(), SectorFault>
        requires sound { IsJobOf self.old.deck job.now }
        requires free { MayBegin self.old (seen pack.old.areas (P.state pack.old.pool).contents) }
        ensures world { (s : Shown) → OnOk result (Starts (Ok job.now) (jobs_from self.old.deck job.now.after) (HoldsParts self.old (with_seen (seen pack.old.areas (P.state pack.old.pool).contents) s)) (HoldsParts self.new (with_seen (seen pack.new.areas (P.state pack.new.pool).contents) s))) }
        ensures leaves { Leaves result self.old self.new pack.old.areas pack.new.areas (P.state pack.old.pool) (P.state pack.new.pool) }
    {
        let number = self.take_job(job.after());
        self.set(job);
        self.perform(number, job, pack)
    }

    /// Sets the level's date and switches as the statements of a job say.
    fn set(&mut self, job: &JobCards)
        requires { IsTrue (is_sound_date job.now.date) }
        ensures value { self.new ≡ record self.old { switches = switches_after job.now.switches self.old.switches; date = unwrap_or job.now.date self.old.date } }
        ensures stays { Stays self.old self.new }
    {
        self.switches = switches_after(self.switches, job.switches());
        if let Some(digits) = job.date() {
            self.date = Date::new(digits);
        }
    }

    /// Compiles a job's source, or starts its program.
    fn perform<P: Sectors>(
        &mut self,
        number: u16,
        job: &JobCards,
        pack: &mut Pack<P>,
    ) -> Result<(), SectorFault>
        requires sound { IsJobOf self.old.deck job.now }
        requires free { MayBegin self.old (seen pack.old.areas (P.state pack.old.pool).contents) }
        ensures world { (s : Shown) → OnOk result (Becomes (performed number job.now (data_of self.old.deck job.now)) (HoldsParts self.old (with_seen (seen pack.old.areas (P.state pack.old.pool).contents) s)) (HoldsParts self.new (with_seen (seen pack.new.areas (P.state pack.new.pool).contents) s))) }
        ensures leaves { Leaves result self.old self.new pack.old.areas pack.new.areas (P.state pack.old.pool) (P.state pack.new.pool) }
    {
        if job.is_compile() {
            Ok(self.compile(number, job.run_card(), job.data_from(), job.data_to())?)
        } else {
            self.run(number, job, pack)
        }
    }

    /// Starts the program of a job over its files and data, or shows for what the job halts.
    #[tactic(auto, using(crate::proofs::Starting::files_in_range))]
    fn run<P: Sectors>(
        &mut self,
        number: u16,
        job: &JobCards,
        pack: &mut Pack<P>,
    ) -> Result<(), SectorFault>
        requires sound { IsJobOf self.old.deck job.now }
        requires free { MayBegin self.old (seen pack.old.areas (P.state pack.old.pool).contents) }
        ensures world { (s : Shown) → OnOk result (Becomes (λ w. run number job.now.files (data_of self.old.deck job.now) (w.library job.now.program) w) (HoldsParts self.old (with_seen (seen pack.old.areas (P.state pack.old.pool).contents) s)) (HoldsParts self.new (with_seen (seen pack.new.areas (P.state pack.new.pool).contents) s))) }
        ensures leaves { Leaves result self.old self.new pack.old.areas pack.new.areas (P.state pack.old.pool) (P.state pack.new.pool) }
    {
        let name = job.program();
        let Some(stocked) = self.library.get(&name) else {
            return Ok(self.show(number, HaltCode::NoProgram, Vec::new(self.alloc))?);
        };
        let date = self.date.digits();
        let settings = JobSettings {
            statements: job.files(),
            switches: self.switches,
            date,
        };
        match open_files(self.alloc, self.id, pack, &settings, stocked.file_lines()) {
            Ok(files) => {
                let cycle = begin(&mut self.library, name, self.alloc, self.switches, date)?;
                self.run_over(number, job, cycle, files, pack)
            }
            Err(OpeningFault::Halted(code)) => {
                Ok(self.show(number, code, Vec::new(self.alloc))?)
            }
            Err(OpeningFault::Sectors(fault)) => Err(fault),
        }
    }

    /// Runs a cycle over the files that its job has in use.
    #[tactic(auto, using(crate::proofs::Starting::ready_at_beginning))]
    fn run_over<P: Sectors>(
        &mut self,
        number: u16,
        job: &JobCards,
        cycle: Cycle,
        job_files: JobFiles,
        pack: &mut Pack<P>,
    ) -> Result<(), SectorFault>
        requires rests { self.old.job ≡ None }
        requires ready { AreFilesReady self.old.id job_files.files.items (seen pack.old.areas (P.state pack.old.pool).contents) }
        requires level { job_files.level ≡ self.old.id }
        requires lines { AreOfLines self.old.switches (files cycle) job_files.files.items }
        requires begins { (source : Source) → StandsFor cycle source → (answers : List Answer) → rest source cycle answers ≡ Req source self.old.switches self.old.date answers }
        requires of_library { (program : Program) → get same_name self.old.library job.now.program ≡ Some program → IsFor program cycle }
        ensures world { (s : Shown) (before : Seen) → OnOk result ((w : World) (source : Source) (in_use : FilesInUse) → StandsFor cycle source → HoldsParts self.old (with_seen before s) w → HoldsInUse self.old.id job_files.files.items (seen pack.old.areas (P.state pack.old.pool).contents) in_use → HoldsParts self.new (with_seen (seen pack.new.areas (P.state pack.new.pool).contents) s) (at_work (record { number = number; source = source; cards = data_of self.old.deck job.now; files = in_use.job_files; past = [] }) (record w { pack = in_use.files }))) }
        ensures leaves { Leaves result self.old self.new pack.old.areas pack.new.areas (P.state pack.old.pool) (P.state pack.new.pool) }
    {
        let places = places_of(self.alloc, cycle.file_lines(), &job_files)?;
        let room = Box::new(self.alloc, [0; LONGEST_RECORD])?;
        self.open(OpenJob {
            number,
            program: job.program(),
            cycle,
            files: job_files,
            places,
            room,
            next: job.data_from(),
            end: job.data_to(),
        });
        self.stand(pack)
    }

    /// Has this job at work.
    fn open(&mut self, job: OpenJob)
        ensures { self.new ≡ record self.old { job = Some job } }
    {
        self.job = Some(job);
    }
}
