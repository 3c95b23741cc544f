//! The deck of a day that is taken up again.

ghost use Rattle.std.specs.Prelude.{◌≡◌, IfOk, position};
ghost use Rattle.s3_decks.specs.Inner.Days.{is_cut as is_cut_spec, is_left_out as is_left_out_spec, left_out};

use crate::CardRange;
use crate::job_list::JobEntry;
use std::alloc::{AllocError, Global};

/// Whether a job is left out of a day that is taken up at a card, by its number from 1: one that begins before it and compiles
/// nothing.
pub(crate) fn is_left_out(job: &JobEntry, card: usize) -> bool
    ensures { result ≡ is_left_out_spec card job.now }
{
    job.cards.from < card.saturating_sub(1) && !job.is_compile()
}

/// The cards that are left out of a day that is taken up at a card, by its number from 1: ascending ranges.
pub fn left_out_from(
    alloc: Global,
    jobs: &[JobEntry],
    card: usize,
) -> Result<Vec<CardRange>, AllocError>
    ensures { IfOk result (λ ranges. ranges.items ≡ left_out card jobs.now) }
{
    jobs.iter()
        .filter(|job| is_left_out(job, card))
        .map(|job| job.cards)
        .collect(alloc)
}

/// Whether a job is left out of a day that is taken up at a card, by its number from 1, though that card is one of its own.
fn is_cut(job: &JobEntry, card: usize) -> bool
    ensures { result ≡ is_cut_spec card job.now }
{
    is_left_out(job, card) && card.saturating_sub(1) < job.after()
}

/// The place among all jobs of the one that would be left out of a day that is taken up at a card, by its number from 1, though that
/// card is one of its own; `None` if there is none: then each job is done from its first card, or left out whole.
pub fn job_cut_at(jobs: &[JobEntry], card: usize) -> Option<usize>
    ensures { result ≡ position (is_cut_spec card) jobs.now }
{
    jobs.iter().position(|job| is_cut(job, card))
}
