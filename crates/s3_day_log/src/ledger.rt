//! The jobs of a level's deck, as they begin and end.
ghost use Rattle.std.specs.Prelude.{◌≡◌, ◌<◌, ◌+◌, ◌-◌, ◌^◌, min, not, [], ◌∷◌, ◌++◌, length, drop, true, false, None, if◌then◌else◌, OnOk};
ghost use Rattle.s3_ocl.specs.Streams.{jobs_from};
ghost use Rattle.s3_solo.specs.World.{World};
ghost use Rattle.s3_level.specs.Inner.Holds.{Around, Holds};
ghost use Rattle.s3_day_log.specs.Inner.Endings.{Begins, begins_next, begun_by, behind_reply, closed, endings, has_open_job, has_passed, is_open_behind, overs, overs_behind, stands_still};
ghost use Rattle.s3_day_log.specs.Inner.Counting.{BeginsSilent, CountsLines, lines_of, with_more};

use crate::event::JobKind;
use s3_cards::{Deck, Name};
use s3_decks::{JobEntry, Statements, program_of};
use s3_level::Level;
use s3_ocl::JobCards;
use s3_operator::{HaltCode, is_at_start};
use std::alloc::{AllocError, Global};

/// What a job was begun for.
#[derive(Clone, Copy)]
pub enum Purpose {
    /// To compile the program of this name.
    Compiles(Name),
    /// To run the program of this name.
    Runs(Name),
    /// Its statements are faulty.
    Unknown,
}

impl Purpose {
    /// The program that the job compiles or runs, if its statements name one.
    pub fn program(self) -> Option<Name> {
        match self {
            Purpose::Compiles(name) => Some(name),
            Purpose::Runs(name) => Some(name),
            Purpose::Unknown => None,
        }
    }

    /// The kind of the job, as the log has it.
    pub fn kind(self) -> JobKind {
        match self {
            Purpose::Compiles(_) => JobKind::Compile,
            Purpose::Runs(_) => JobKind::Run,
            Purpose::Unknown => JobKind::Faulty,
        }
    }
}

/// A job that was begun.
#[derive(Clone, Copy)]
pub struct BegunJob {
    pub purpose: Purpose,
    /// The number of its first card, from 1.
    pub card: usize,
    /// How many lines it has printed.
    pub lines: u64,
    /// What it was ended or passed over for, and by which reply.
    pub ending: Option<(HaltCode, u8)>,
    pub is_over: bool,
}

/// The jobs of a level: those that were begun, and those that are left.
#[derive(Drop)]
pub struct Ledger {
    jobs: Vec<JobEntry>,
    begun: Vec<BegunJob>,
    /// The place in the deck after the last job that was begun.
    place: usize,
    /// Whether the last job that was begun is at work, or its halt waits.
    is_open: bool,
    /// How many lines are counted for jobs.
    counted: usize,
}

impl Ledger {
    /// The jobs of a deck, as `jobs_of` lists them, before the first one is begun.
    pub fn new(alloc: Global, jobs: Vec<JobEntry>) -> Ledger
        ensures jobs { result.jobs.items ≡ jobs.items }
        ensures begun { result.begun.items ≡ [] }
        ensures counted { result.counted ≡ 0 }
    {
        Ledger {
            jobs,
            begun: Vec::new(alloc),
            place: 0,
            is_open: false,
            counted: 0,
        }
    }

    /// The jobs that were begun, in order. The first one is job 1.
    pub fn begun(&self) -> &[BegunJob]
        ensures { result.now ≡ self.now.begun.items }
    {
        &self.begun
    }

    /// How many jobs are left that weren't begun.
    pub fn jobs_left(&self) -> usize
        ensures { result ≡ length self.now.jobs.items - length self.now.begun.items }
    {
        self.jobs.len().saturating_sub(self.begun.len())
    }

    /// The number of the first card, from 1, of the job at a place among all jobs.
    pub fn first_card(&self, place: usize) -> Option<usize> {
        Some(self.jobs.get(place)?.first_card())
    }

    /// The date that the job at a place among all jobs sets, if its statements are sound and have one.
    pub fn date_given(&self, place: usize) -> Option<[u8; 6]> {
        match &self.jobs.get(place)?.statements {
            Statements::Sound(job) => job.date(),
            Statements::Faulty(_) => None,
        }
    }

    /// The number of the last data card, from 1, that the job at work has read; `None` if there is none.
    pub fn last_card(&self, level: &Level) -> Option<u16> {
        let cards = level.unread()?;
        let entry = self.jobs.get(self.begun.len().checked_sub(1)?)?;
        let Statements::Sound(job) = &entry.statements else {
            return None;
        };
        if cards.next > job.data_from() {
            u16::try_from(cards.next).ok()
        } else {
            None
        }
    }

    /// Whether the last job that was begun isn't over.
    pub fn is_open(&self) -> bool
        ensures { result ≡ self.now.is_open }
    {
        self.is_open
    }

    /// The program of the last job that was begun, if its statements name one.
    pub fn program(&self) -> Option<Name> {
        self.begun.last()?.purpose.program()
    }

    /// How many jobs are over: these, from the first one on.
    pub fn jobs_over(&self) -> usize
        ensures { result ≡ length self.now.begun.items - (if self.now.is_open then 1 else 0) }
    {
        self.begun.len().saturating_sub(usize::from(self.is_open))
    }

    /// Looks at a level that has gone on, with how many lines it has printed, those that are queued among them. Afterwards each job has
    /// begun that the level has passed, and each is over except for the last one of a level that has a job at work or halted. The lines
    /// since the last look are those of the job that was at work or halted then, or else of the job that has begun last.
    #[tactic(auto, using(crate::proofs::EndingLemmas::begins_none, crate::proofs::EndingLemmas::begins_around, crate::proofs::BegunLemmas::stays_place, crate::proofs::BegunLemmas::stays_open, crate::proofs::CountLemmas::all_counted))]
    pub fn follow(&mut self, level: &Level, lines: usize) -> Result<(), AllocError>
        ensures begun { OnOk result (Begins self.old.begun.items self.new.begun.items) }
        ensures overs { OnOk result (overs self.new.begun.items ≡ overs_behind self.old.place self.new.place self.old.is_open self.new.is_open self.old.jobs.items (overs self.old.begun.items)) }
        ensures still { OnOk result (stands_still self.old.place self.new.place self.old.is_open self.new.is_open ≡ true → (self.new.begun ≡ self.old.begun) × (self.new.counted ≡ self.old.counted)) }
        ensures lines { OnOk result (stands_still self.old.place self.new.place self.old.is_open self.new.is_open ≡ false → CountsLines self.old.is_open (lines - self.old.counted) self.old.begun.items self.new.begun.items) }
        ensures counted { OnOk result (stands_still self.old.place self.new.place self.old.is_open self.new.is_open ≡ false → self.new.counted ≡ lines) }
        ensures jobs { OnOk result (self.new.jobs ≡ self.old.jobs) }
        ensures place { OnOk result ((beside : Around) (w : World) → Holds level.now beside w → w.deck.jobs ≡ jobs_from w.deck.cards self.new.place) }
        ensures open { OnOk result ((beside : Around) (w : World) → Holds level.now beside w → self.new.is_open ≡ has_open_job w) }
    {
        let is_open = level.is_at_work() || level.waits().is_some();
        let place = level.place();
        if self.stands_still(place, is_open) {
            return Ok(());
        }
        let was_open = self.is_open;
        self.count_if(was_open, lines);
        self.place = place;
        self.is_open = is_open;
        self.begin_all(level.deck())?;
        self.end_begun();
        self.count_if(!was_open, lines);
        Ok(())
    }

    /// Whether a level is at the place at which it was seen last, and has a job at work or halted if it had one then.
    fn stands_still(&self, place: usize, is_open: bool) -> bool
        ensures { result ≡ stands_still self.now.place place self.now.is_open is_open }
    {
        self.place == place && (if self.is_open { is_open } else { !is_open })
    }

    /// Counts the lines that were printed since the last count for the job that was begun last, if they are its lines.
    fn count_if(&mut self, are_of_last: bool, lines: usize)
        ensures endings { endings self.new.begun.items ≡ endings self.old.begun.items }
        ensures overs { overs self.new.begun.items ≡ overs self.old.begun.items }
        ensures lines { lines_of self.new.begun.items ≡ (if are_of_last then with_more (lines - self.old.counted) (lines_of self.old.begun.items) else lines_of self.old.begun.items) }
        ensures counted { self.new.counted ≡ (if are_of_last then lines else self.old.counted) }
        ensures jobs { self.new.jobs ≡ self.old.jobs }
        ensures place { self.new.place ≡ self.old.place }
        ensures open { self.new.is_open ≡ self.old.is_open }
    {
        if are_of_last {
            self.count_lines(lines);
        }
    }

    /// The job that was begun last is over, unless it is at work or its halt waits.
    fn end_begun(&mut self)
        ensures endings { endings self.new.begun.items ≡ endings self.old.begun.items }
        ensures overs { overs self.new.begun.items ≡ (if self.old.is_open then overs self.old.begun.items else closed (overs self.old.begun.items)) }
        ensures lines { lines_of self.new.begun.items ≡ lines_of self.old.begun.items }
        ensures counted { self.new.counted ≡ self.old.counted }
        ensures jobs { self.new.jobs ≡ self.old.jobs }
        ensures place { self.new.place ≡ self.old.place }
        ensures open { self.new.is_open ≡ self.old.is_open }
    {
        if !self.is_open {
            self.mark_last_over();
        }
    }

    /// Takes note of each further job that has begun.
    #[tactic(auto, using(crate::proofs::EndingLemmas::begins_none, crate::proofs::EndingLemmas::begins_more, crate::proofs::BegunLemmas::has_job, crate::proofs::BegunLemmas::fewer_left, crate::proofs::BegunLemmas::one_begins, crate::proofs::BegunLemmas::all_begun, crate::proofs::CountLemmas::silent_none, crate::proofs::CountLemmas::silent_more))]
    fn begin_all(&mut self, deck: &Deck) -> Result<(), AllocError>
        ensures begun { OnOk result (Begins self.old.begun.items self.new.begun.items) }
        ensures overs { OnOk result (overs self.new.begun.items ≡ begun_by self.old.place (drop (length (overs self.old.begun.items)) self.old.jobs.items) (overs self.old.begun.items)) }
        ensures silent { OnOk result (BeginsSilent self.old.begun.items self.new.begun.items) }
        ensures counted { OnOk result (self.new.counted ≡ self.old.counted) }
        ensures jobs { OnOk result (self.new.jobs ≡ self.old.jobs) }
        ensures place { OnOk result (self.new.place ≡ self.old.place) }
        ensures open { OnOk result (self.new.is_open ≡ self.old.is_open) }
    {
        while self.has_next_begun() {
            self.begin_next(deck)?;
        }
        Ok(())
    }

    /// Counts the lines that were printed since the last count for the job that was begun last.
    #[tactic(auto, using(crate::proofs::EndingLemmas::endings_set, crate::proofs::BegunLemmas::overs_set, crate::proofs::CountLemmas::lines_counted, crate::proofs::CountLemmas::none_counted))]
    fn count_lines(&mut self, lines: usize)
        ensures endings { endings self.new.begun.items ≡ endings self.old.begun.items }
        ensures overs { overs self.new.begun.items ≡ overs self.old.begun.items }
        ensures lines { lines_of self.new.begun.items ≡ with_more (lines - self.old.counted) (lines_of self.old.begun.items) }
        ensures counted { self.new.counted ≡ lines }
        ensures jobs { self.new.jobs ≡ self.old.jobs }
        ensures place { self.new.place ≡ self.old.place }
        ensures open { self.new.is_open ≡ self.old.is_open }
    {
        let new = lines.saturating_sub(self.counted);
        if let Some(job) = self.begun.last_mut() {
            job.lines = job.lines.saturating_add(new as u64);
        }
        self.counted = lines;
    }

    /// Whether the next job has begun: the level has come to its end.
    fn has_next_begun(&self) -> bool
        ensures { result ≡ begins_next self.now.place self.now.jobs.items (length self.now.begun.items) }
    {
        match self.jobs.get(self.begun.len()) {
            Some(entry) => entry.after() <= self.place,
            None => false,
        }
    }

    /// Takes note that the next job has begun.
    #[tactic(auto, using(crate::proofs::BegunLemmas::endings_more, crate::proofs::BegunLemmas::overs_more, crate::proofs::CountLemmas::lines_more))]
    fn begin_next(&mut self, deck: &Deck) -> Result<(), AllocError>
        requires { length self.old.begun.items < length self.old.jobs.items }
        ensures endings { OnOk result (endings self.new.begun.items ≡ endings self.old.begun.items ++ None ∷ []) }
        ensures overs { OnOk result (overs self.new.begun.items ≡ closed (overs self.old.begun.items) ++ false ∷ []) }
        ensures lines { OnOk result (lines_of self.new.begun.items ≡ lines_of self.old.begun.items ++ 0 ∷ []) }
        ensures counted { self.new.counted ≡ self.old.counted }
        ensures jobs { self.new.jobs ≡ self.old.jobs }
        ensures place { self.new.place ≡ self.old.place }
        ensures open { self.new.is_open ≡ self.old.is_open }
    {
        let job = begun_of(&self.jobs[self.begun.len()], deck);
        self.mark_last_over();
        self.begun.push(job)?;
        Ok(())
    }

    /// Marks the last job that was begun as over.
    #[tactic(auto, using(crate::proofs::EndingLemmas::endings_set, crate::proofs::BegunLemmas::overs_closed, crate::proofs::BegunLemmas::none_closed, crate::proofs::CountLemmas::lines_set))]
    fn mark_last_over(&mut self)
        ensures endings { endings self.new.begun.items ≡ endings self.old.begun.items }
        ensures overs { overs self.new.begun.items ≡ closed (overs self.old.begun.items) }
        ensures lines { lines_of self.new.begun.items ≡ lines_of self.old.begun.items }
        ensures counted { self.new.counted ≡ self.old.counted }
        ensures jobs { self.new.jobs ≡ self.old.jobs }
        ensures place { self.new.place ≡ self.old.place }
        ensures open { self.new.is_open ≡ self.old.is_open }
    {
        if let Some(job) = self.begun.last_mut() {
            job.is_over = true;
        }
    }

    /// Takes note of a reply to the halt of the last job that was begun.
    pub fn reply(&mut self, code: HaltCode, digit: u8)
        ensures jobs { self.new.begun.items ≡ behind_reply code digit self.old.begun.items }
        ensures open { self.new.is_open ≡ is_open_behind code digit self.old.is_open }
    {
        if digit == 0 {
            return;
        }
        let is_at_start = is_at_start(code);
        if is_at_start {
            self.is_open = false;
        }
        if let Some(job) = self.begun.last_mut() {
            job.ending = Some((code, digit));
            job.is_over = job.is_over || is_at_start;
        }
    }

    /// Whether a job was passed over, or ended by a reply.
    pub fn has_passed(&self) -> bool
        ensures { result ≡ has_passed self.now.begun.items }
    {
        self.begun.iter().any(|job| job.ending.is_some())
    }

    /// The last job that was begun is over.
    fn close_last(&mut self)
        ensures endings { endings self.new.begun.items ≡ endings self.old.begun.items }
        ensures overs { overs self.new.begun.items ≡ closed (overs self.old.begun.items) }
        ensures lines { lines_of self.new.begun.items ≡ lines_of self.old.begun.items }
    {
        self.is_open = false;
        self.mark_last_over();
    }

    /// Ends the job accounting of a level that has printed so many lines in all, and has no job at work if it is done. The lines since
    /// the last look are those of the last job that was begun, unless it is over.
    pub fn close(&mut self, lines: usize, is_done: bool)
        ensures endings { endings self.new.begun.items ≡ endings self.old.begun.items }
        ensures overs { overs self.new.begun.items ≡ (if is_done then closed (overs self.old.begun.items) else overs self.old.begun.items) }
        ensures lines { lines_of self.new.begun.items ≡ (if self.old.is_open then with_more (lines - self.old.counted) (lines_of self.old.begun.items) else lines_of self.old.begun.items) }
    {
        self.count_if(self.is_open, lines);
        if is_done {
            self.close_last();
        }
    }
}

/// A job that begins.
fn begun_of(entry: &JobEntry, deck: &Deck) -> BegunJob
    ensures ending { result.ending ≡ None }
    ensures over { result.is_over ≡ false }
    ensures lines { result.lines ≡ 0 }
{
    BegunJob {
        purpose: purpose_of(entry, deck),
        card: entry.first_card(),
        lines: 0,
        ending: None,
        is_over: false,
    }
}

/// What a job is begun for.
fn purpose_of(entry: &JobEntry, deck: &Deck) -> Purpose {
    match &entry.statements {
        Statements::Sound(job) if job.is_compile() => Purpose::Compiles(compiled_by(job, deck)),
        Statements::Sound(job) => Purpose::Runs(job.program()),
        Statements::Faulty(_) => Purpose::Unknown,
    }
}

/// The program that a job compiles.
fn compiled_by(job: &JobCards, deck: &Deck) -> Name {
    let cards = deck.cards().get(job.data_from()..job.data_to());
    program_of(cards.unwrap_or(&[]))
}
