//! The job before a place of a deck, without reading the jobs before it.
ghost use Rattle.std.specs.Prelude.{◌≡◌, IfOk, IfSome};

use crate::strays::is_statement;
use s3_cards::ebcdic::{AMPERSAND, ASTERISK, SLASH};
use s3_cards::{Card, Deck};
use s3_ocl::{JobCards, OclFault, job_at, split};
use std::alloc::{AllocError, Global};

/// The job that ends at a place, the one after its last card; `None` if its statements are faulty, or no job ends there. The cards of
/// the job alone are read, from its last one back to its first.
pub fn job_before(alloc: Global, deck: &Deck, after: usize) -> Result<Option<JobCards>, AllocError>
    ensures { IfOk result (λ found. IfSome found (λ job. job.after ≡ after)) }
{
    match first_card_before(deck, after) {
        Some(first) => job_between(alloc, deck, first, after),
        None => Ok(None),
    }
}

/// The job that begins at a place and ends at another, if its statements have no fault.
fn job_between(
    alloc: Global,
    deck: &Deck,
    first: usize,
    after: usize,
) -> Result<Option<JobCards>, AllocError>
    ensures { IfOk result (λ found. IfSome found (λ job. job.after ≡ after)) }
{
    if job_at(deck, first).is_none() {
        return Ok(None);
    }
    match split(alloc, deck, first) {
        Ok(job) if job.after() == after => Ok(Some(job)),
        Ok(_) | Err(OclFault::Faulty(_)) => Ok(None),
        Err(OclFault::NoMemory) => Err(AllocError),
    }
}

/// The place of the first card of the job that ends at a place. It is the first statement after the last `/*` or `/&` before its data;
/// between its own `/*` and its end are no statements.
fn first_card_before(deck: &Deck, after: usize) -> Option<usize> {
    let mut end = without_job_end(deck, after);
    for _card in 0..=deck.len() {
        let from = after_separator(deck, end);
        let first = (from..end).find(|place| is_statement_at(deck, *place));
        if first.is_some() {
            return first;
        }
        end = from.checked_sub(1)?;
    }
    None
}

/// The place after a job's last card without its `/&`, if it has one.
fn without_job_end(deck: &Deck, after: usize) -> usize {
    let last = after.saturating_sub(1);
    match deck.card(last) {
        Some(card) if is_job_end(card) => last,
        _ => after,
    }
}

/// The place after the last separator before a place; 0 if there is none.
fn after_separator(deck: &Deck, end: usize) -> usize {
    let cards = deck.cards().get(..end).unwrap_or(&[]);
    match cards.iter().rposition(|card| is_separator(card)) {
        Some(place) => place.saturating_add(1),
        None => 0,
    }
}

fn is_statement_at(deck: &Deck, place: usize) -> bool {
    deck.card(place).is_some_and(|card| is_statement(card))
}

/// Whether a card begins `/*` or `/&`.
fn is_separator(card: &Card) -> bool {
    card.starts_with(&[SLASH, ASTERISK]) || is_job_end(card)
}

/// Whether a card begins `/&`.
fn is_job_end(card: &Card) -> bool {
    card.starts_with(&[SLASH, AMPERSAND])
}
