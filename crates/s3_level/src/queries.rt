//! What is asked of a level. No query changes it.

use crate::level::Level;
use s3_cards::Deck;
use s3_cycle::Cycle;
use s3_job_files::OpenFile;
use s3_operator::HaltCode;

/// The places of the data cards that the job at work hasn't read yet.
#[derive(Clone, Copy)]
pub struct DataCards {
    /// The place of the next one in the deck, from 0.
    pub next: usize,
    /// The place after the last one; if none is left, `next` isn't below it.
    pub end: usize,
}

impl Level {
    ghost use Rattle.std.specs.Prelude.{◌≡◌, map, is_some};
    ghost use Rattle.std.specs.Option.{option_copied};
    ghost use Rattle.s3_job_files.specs.Inner.Holds.{job_file_of};
    ghost use Rattle.s3_ocl.specs.Streams.{jobs_from};
    ghost use Rattle.s3_operator.specs.Halts.{waiting};
    ghost use Rattle.s3_solo.specs.World.{World};
    ghost use Rattle.s3_level.specs.Inner.Holds.{Around, Holds};
    ghost use Rattle.s3_level.specs.Inner.Queries.{AreUnread, IsCycleOf, files_of, has_work, is_left};

    /// The halt of the level while it waits for the reply; none if no halt waits.
    pub fn waits(&self) -> Option<HaltCode>
        ensures world { (beside : Around) (w : World) → Holds self.now beside w → result ≡ waiting w.halts }
    {
        self.halts.waiting()
    }

    /// Whether a job is at work.
    #[tactic(auto, using(crate::proofs::Asking::job_held))]
    pub fn is_at_work(&self) -> bool
        ensures value { result ≡ is_some self.now.job }
        ensures world { (beside : Around) (w : World) → Holds self.now beside w → result ≡ is_some w.job }
    {
        self.job.is_some()
    }

    /// Whether a job of the deck is left that is not begun yet.
    #[tactic(auto, using(crate::proofs::Asking::left_held))]
    pub fn has_jobs_left(&self) -> bool
        ensures world { (beside : Around) (w : World) → Holds self.now beside w → result ≡ is_left w.deck.jobs }
    {
        self.has_job()
    }

    /// Whether a job is at work, or one is left.
    pub fn has_work(&self) -> bool
        ensures world { (beside : Around) (w : World) → Holds self.now beside w → result ≡ has_work w }
    {
        self.is_at_work() || self.has_jobs_left()
    }

    /// The cards of the level.
    pub fn deck(&self) -> &Deck
        ensures value { result.now ≡ self.now.deck }
        ensures world { (beside : Around) (w : World) → Holds self.now beside w → result.now ≡ w.deck.cards }
    {
        &self.deck
    }

    /// The place in the deck, from 0, after the last job that was begun: the jobs that are left are those from there on. Once
    /// a turn has found none left, it is the place after the last card.
    pub fn place(&self) -> usize
        ensures world { (beside : Around) (w : World) → Holds self.now beside w → w.deck.jobs ≡ jobs_from w.deck.cards result }
    {
        self.next
    }

    /// The places of the data cards that the job at work hasn't read yet, if there is a job. The last one that it has read comes
    /// before them.
    #[tactic(auto, using(crate::proofs::Asking::cards_held, crate::proofs::Asking::no_cards))]
    pub fn unread(&self) -> Option<DataCards>
        ensures world { (beside : Around) (w : World) → Holds self.now beside w → AreUnread result w.deck.cards w.job }
    {
        let Some(job) = &self.job else {
            return None;
        };
        Some(DataCards {
            next: job.next,
            end: job.end,
        })
    }

    /// The files that the job at work has in use, in the order in which they were opened: of each how many of its records were
    /// read, and the place of the one that was chained last. Empty if no job is at work.
    #[tactic(auto, using(crate::proofs::Asking::files_held, crate::proofs::Asking::no_files))]
    pub fn files(&self) -> &[OpenFile]
        ensures world { (beside : Around) (w : World) → Holds self.now beside w → map job_file_of result.now ≡ files_of w.job }
    {
        let Some(job) = &self.job else {
            return &[];
        };
        &job.files.files
    }

    /// The cycle of the job at work, if there is one: what it asks for, and of which file, is asked of it.
    #[tactic(auto, using(crate::proofs::Asking::cycle_held, crate::proofs::Asking::no_cycle))]
    pub fn cycle(&self) -> Option<&Cycle>
        ensures world { (beside : Around) (w : World) → Holds self.now beside w → IsCycleOf (option_copied result) w w.job }
    {
        let Some(job) = &self.job else {
            return None;
        };
        Some(&job.cycle)
    }
}
