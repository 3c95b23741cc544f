//! The jobs of a level that were begun, and the sources among them: the cards of the deck alone say all of this.

ghost use Rattle.std.specs.Prelude.{IsTrue};
ghost use Rattle.s3_lines.specs.Inner.Ranges.{are_read};

use indexmap::IndexMap;
use s3_cards::{Deck, Name};
use s3_compile::{CompileFault, compile};
use s3_decks::{JobEntry, Statements, jobs_of, program_of};
use s3_level::Level;
use s3_lines::sheet::Line;
use s3_ocl::{JobCards, Switch};
use s3_operator::{Halt, HaltCode};
use s3_program::program::Program;
use s3_sheets::{SheetFault, read_sheets};
use std::alloc::{AllocError, Global};

/// The reply that ends a job after the totals of its last record.
const TO_TOTALS: u8 = 2;

/// The reply that passes over a record of no type, or out of sequence.
const SKIPS: u8 = 0;

/// The jobs of a level's deck, and how many of them were begun. It follows its level from halt to halt: the deck is read once, and each
/// job that begins is looked at once.
#[derive(Drop)]
pub struct Begun {
    /// The jobs of the deck, once it was read.
    jobs: Vec<JobEntry>,
    /// How many of them were begun.
    count: usize,
    /// Whether U1 to U8 are on, as the last job found them.
    are_on: [bool; 8],
    /// The place among the jobs of the source that each program was compiled from last.
    compiled: IndexMap<Name, usize>,
    /// The place among the level's halts before which no halt is of a job that begins later.
    seen: usize,
    /// How many of the level's halts were looked at for what they were answered with.
    answered: usize,
    /// Whether a reply has sent the job of the last of these to its totals.
    is_ending: bool,
    /// Whether a reply has passed over a record of that job.
    has_skipped: bool,
}

/// A source that was compiled.
#[derive(Drop)]
pub struct Source {
    /// The name of its program.
    pub name: Name,
    /// The lines of its sheets, each with the number of its card in the deck.
    pub lines: Vec<Line>,
}

impl Begun {
    /// No jobs, before the first halt of a level.
    pub fn new(alloc: Global) -> Begun {
        Begun {
            jobs: Vec::new(alloc),
            count: 0,
            are_on: [false; 8],
            compiled: IndexMap::new(alloc),
            seen: 0,
            answered: 0,
            is_ending: false,
            has_skipped: false,
        }
    }

    /// The jobs that a level has begun.
    pub fn of(alloc: Global, level: &Level) -> Result<Begun, AllocError> {
        let mut begun = Begun::new(alloc);
        begun.follow(alloc, level)?;
        Ok(begun)
    }

    /// Takes the jobs that the level has begun since. It must be the same level each time.
    pub fn follow(&mut self, alloc: Global, level: &Level) -> Result<(), AllocError> {
        if self.jobs.is_empty() {
            self.jobs = jobs_of(alloc, level.deck())?;
        }
        for _job in self.count..self.jobs.len() {
            if !self.begin_next(level)? {
                break;
            }
        }
        self.follow_replies(level.halts());
        Ok(())
    }

    /// Looks at the halts since, up to the last one, which waits.
    fn follow_replies(&mut self, halts: &[Halt]) {
        for place in self.answered..halts.len() {
            let job = job_of(halts, place);
            if job != job_of(halts, place.saturating_sub(1)) {
                self.is_ending = false;
                self.has_skipped = false;
            }
            if let Some(halt) = halts.get(place) {
                self.is_ending = self.is_ending || halt.reply == Some(TO_TOTALS);
                self.has_skipped = self.has_skipped || skips_record(halt);
                if halt.reply.is_some() {
                    self.answered = place.saturating_add(1);
                }
            }
        }
    }

    /// Whether a reply has sent the last job to its totals.
    pub fn is_ending(&self) -> bool {
        self.is_ending
    }

    /// Whether a reply to a halt has passed over a record of the last job.
    pub fn has_skipped(&self) -> bool {
        self.has_skipped
    }

    /// Takes the next job, if the level has begun it. Whether it has.
    fn begin_next(&mut self, level: &Level) -> Result<bool, AllocError> {
        let place = self.count;
        let Some(job) = self.jobs.get(place) else {
            return Ok(false);
        };
        if job.cards.from >= level.place() {
            return Ok(false);
        }
        self.count = place.saturating_add(1);
        let Some(cards) = statements_of(job) else {
            return Ok(true);
        };
        set_switches(&mut self.are_on, cards.switches());
        if cards.is_compile() {
            self.seen = first_failed(level.halts(), self.seen, cards.data_from());
            if !has_failed(level.halts(), self.seen, cards) {
                self.compiled
                    .insert(compiled_by(level.deck(), cards), place)?;
            }
        }
        Ok(true)
    }

    /// The last one, if a job was begun.
    pub fn last(&self) -> Option<&JobEntry> {
        self.jobs.get(self.count.checked_sub(1)?)
    }

    /// The statements of the last one, if they have no fault.
    pub fn statements(&self) -> Option<&JobCards> {
        statements_of(self.last()?)
    }

    /// The switches as the last job found them: U1 to U8, whether they are on.
    pub fn switches(&self) -> [bool; 8] {
        self.are_on
    }

    /// The source of a program of this name that was compiled last.
    pub fn source_of(
        &self,
        alloc: Global,
        level: &Level,
        name: Name,
    ) -> Result<Option<Source>, AllocError> {
        let Some(place) = self.compiled.get(&name) else {
            return Ok(None);
        };
        match self.jobs.get(*place) {
            Some(job) => source_in(alloc, level, job, name),
            None => Ok(None),
        }
    }

    /// The program of this name that was compiled last, made from its source once more; none if the deck doesn't have the source.
    pub fn program_of(
        &self,
        alloc: Global,
        level: &Level,
        name: Name,
    ) -> Result<Option<Program>, AllocError> {
        let Some(place) = self.compiled.get(&name) else {
            return Ok(None);
        };
        match self.jobs.get(*place) {
            Some(job) => program_in(alloc, level, job),
            None => Ok(None),
        }
    }

    /// The names of the programs that were compiled, in the order of their first sources, each once.
    pub fn programs(&self, alloc: Global) -> Result<Vec<Name>, AllocError> {
        let mut names = Vec::new(alloc);
        for name in self.compiled.keys() {
            names.push(*name)?;
        }
        Ok(names)
    }
}

/// Whether a halt was answered so that its record isn't processed.
fn skips_record(halt: &Halt) -> bool {
    matches!(
        halt.code,
        HaltCode::UnidentifiedRecord | HaltCode::OutOfSequence
    ) && halt.reply == Some(SKIPS)
}

/// The job of the halt at a place.
fn job_of(halts: &[Halt], place: usize) -> Option<u16> {
    Some(halts.get(place)?.job)
}

/// The statements of a job that has no fault.
fn statements_of(job: &JobEntry) -> Option<&JobCards> {
    match &job.statements {
        Statements::Sound(cards) => Some(cards),
        Statements::Faulty(_) => None,
    }
}

/// What a job's statements do with the switches.
fn set_switches(are_on: &mut [bool; 8], switches: [Switch; 8]) {
    for place in 0..8 {
        match switches[place] {
            Switch::On => are_on[place] = true,
            Switch::Off => are_on[place] = false,
            Switch::Leave => {}
        }
    }
}

/// The place, from `seen` on, of the first halt for diagnostics that is of the job with this RUN card or of a later one; after the last
/// halt if there is none. The diagnostics name the RUN card or cards of the source.
fn first_failed(halts: &[Halt], seen: usize, run_card: usize) -> usize {
    let new = halts.get(seen..).unwrap_or(&[]);
    match new.iter().position(|halt| first_at_fault(halt) >= run_card) {
        Some(place) => seen.saturating_add(place),
        None => halts.len(),
    }
}

/// Whether the halt at a place is for diagnostics of a job.
fn has_failed(halts: &[Halt], place: usize, cards: &JobCards) -> bool {
    match halts.get(place) {
        Some(halt) => first_at_fault(halt) <= cards.data_to(),
        None => false,
    }
}

/// The first card that the diagnostics of a halt name; 0 for any other halt, which no job has as its RUN card.
fn first_at_fault(halt: &Halt) -> usize {
    match (halt.code, halt.details.first()) {
        (HaltCode::FaultySource, Some((card, _number))) => usize::from(*card),
        _ => 0,
    }
}

/// The name of the program that a compile job makes.
fn compiled_by(deck: &Deck, job: &JobCards) -> Name {
    let cards = deck.cards().get(job.data_from()..job.data_to());
    program_of(cards.unwrap_or(&[]))
}

/// The source of a program that a job has compiled.
fn source_in(
    alloc: Global,
    level: &Level,
    job: &JobEntry,
    name: Name,
) -> Result<Option<Source>, AllocError> {
    let Some(cards) = statements_of(job) else {
        return Ok(None);
    };
    let lines = read_source(alloc, level.deck(), cards.data_from(), cards.data_to())?;
    Ok(lines.map(|lines| Source { name, lines }))
}

/// The program that a job has compiled.
fn program_in(alloc: Global, level: &Level, job: &JobEntry) -> Result<Option<Program>, AllocError> {
    match statements_of(job) {
        Some(cards) => compile_source(alloc, level.deck(), cards.data_from(), cards.data_to()),
        None => Ok(None),
    }
}

/// The program of the source between two places of a deck, if it has no diagnostics.
fn compile_source(
    alloc: Global,
    deck: &Deck,
    from: usize,
    to: usize,
) -> Result<Option<Program>, AllocError> {
    if from > to || to > deck.len() {
        return Ok(None);
    }
    match read_sheets(alloc, deck, from, to) {
        Ok(lines) => compile_lines(alloc, &lines),
        Err(SheetFault::Diagnostics(_)) => Ok(None),
        Err(SheetFault::NoMemory) => Err(AllocError),
    }
}

/// The program of these lines, if they have no diagnostics.
fn compile_lines(alloc: Global, lines: &[Line]) -> Result<Option<Program>, AllocError>
    requires { IsTrue (are_read lines.now) }
{
    match compile(alloc, lines, 0) {
        Ok(program) => Ok(Some(program)),
        Err(CompileFault::Diagnostics(_)) => Ok(None),
        Err(CompileFault::NoMemory) => Err(AllocError),
    }
}

/// The lines of the sheets between two places of a deck, if no card has a diagnostic by itself.
fn read_source(
    alloc: Global,
    deck: &Deck,
    from: usize,
    to: usize,
) -> Result<Option<Vec<Line>>, AllocError> {
    if from > to || to > deck.len() {
        return Ok(None);
    }
    match read_sheets(alloc, deck, from, to) {
        Ok(lines) => Ok(Some(lines)),
        Err(SheetFault::Diagnostics(_)) => Ok(None),
        Err(SheetFault::NoMemory) => Err(AllocError),
    }
}
