//! The jobs of a deck, one after the other.
ghost use Rattle.std.specs.Prelude.{◌≡◌, ◌<◌, length, map, IfOk};
ghost use Rattle.s3_ocl.specs.Jobs.{job_at as job_at_spec, next_job};
ghost use Rattle.s3_ocl.specs.Streams.{jobs_from};
ghost use Rattle.s3_decks.specs.Inner.Days.{said};

use crate::CardRange;
use s3_cards::Deck;
use s3_ocl::{FaultyJob, JobCards, OclFault, job_at, split};
use std::alloc::{AllocError, Global};

/// What a job's statements say.
#[derive(Drop)]
pub enum Statements {
    /// They have no fault.
    Sound(JobCards),
    /// The first of their faults.
    Faulty(FaultyJob),
}

/// A job of a deck.
#[derive(Drop)]
pub struct JobEntry {
    /// Its cards, and those after it before the next job.
    pub cards: CardRange,
    /// What its statements say.
    pub statements: Statements,
}

impl JobEntry {
    ghost use Rattle.std.specs.Prelude.{◌≡◌, ◌<◌, length, IfOk};
    ghost use Rattle.s3_ocl.specs.Jobs.{job_at as job_at_spec, next_job, place_after};
    ghost use Rattle.s3_decks.specs.Inner.Days.{compiles, said};

    /// The job that is looked for from a place on, and begins at another.
    fn read(alloc: Global, deck: &Deck, place: usize, from: usize) -> Result<JobEntry, AllocError>
        requires { next_job deck.now place < length deck.now }
        ensures { IfOk result (λ entry. said entry.statements ≡ job_at_spec deck.now (next_job deck.now place)) }
    {
        let mut entry = JobEntry {
            cards: CardRange {
                from,
                to: deck.len(),
            },
            statements: statements_from(alloc, deck, place)?,
        };
        if let Some(next) = job_at(deck, entry.after()) {
            entry.cards.to = next;
        }
        Ok(entry)
    }

    /// The number of its first card, from 1: the card at which the day is taken up again to begin with this job.
    pub fn first_card(&self) -> usize {
        self.cards.from.saturating_add(1)
    }

    /// Whether it compiles a program.
    pub fn is_compile(&self) -> bool
        ensures { result ≡ compiles (said self.now.statements) }
    {
        match &self.statements {
            Statements::Sound(job) => job.is_compile(),
            Statements::Faulty(_) => false,
        }
    }

    /// The place after its last card.
    pub fn after(&self) -> usize
        ensures { result ≡ place_after (said self.now.statements) }
    {
        match &self.statements {
            Statements::Sound(job) => job.after(),
            Statements::Faulty(faulty) => faulty.after,
        }
    }
}

/// The jobs of a deck, in order. The first one is job 1.
pub fn jobs_of(alloc: Global, deck: &Deck) -> Result<Vec<JobEntry>, AllocError>
    ensures { IfOk result (λ jobs. map (λ entry. said entry.statements) jobs.items ≡ jobs_from deck.now 0) }
{
    let mut jobs = Vec::new(alloc);
    let mut place = 0;
    for _job in 0..deck.len() {
        let Some(from) = job_at(deck, place) else {
            break;
        };
        let entry = JobEntry::read(alloc, deck, place, from)?;
        place = entry.after();
        jobs.push(entry)?;
    }
    Ok(jobs)
}

/// The statements of the job that is looked for from a place on.
fn statements_from(alloc: Global, deck: &Deck, place: usize) -> Result<Statements, AllocError>
    requires { next_job deck.now place < length deck.now }
    ensures { IfOk result (λ statements. said statements ≡ job_at_spec deck.now (next_job deck.now place)) }
{
    match split(alloc, deck, place) {
        Ok(job) => Ok(Statements::Sound(job)),
        Err(OclFault::Faulty(faulty)) => Ok(Statements::Faulty(faulty)),
        Err(OclFault::NoMemory) => Err(AllocError),
    }
}
