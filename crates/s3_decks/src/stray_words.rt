//! The texts about jobs that continue over statements of later jobs.

use crate::characters::push_characters;
use crate::job_list::{JobEntry, Statements};
use crate::strays::{keyword_of, strays_of};
use crate::{DeckText, push_name};
use s3_cards::Deck;
use std::alloc::{AllocError, Global};

/// Appends a line for each job that has statements among its data, or passes over further jobs since it is faulty: `/*` and `/&` may be
/// missing there. How many such jobs there are.
pub fn push_strays(
    text: &mut String,
    alloc: Global,
    places: &DeckText<'_>,
    deck: &Deck,
    jobs: &[JobEntry],
) -> Result<usize, AllocError> {
    let mut count: usize = 0;
    for (place, job) in jobs.iter().enumerate() {
        let strays = strays_of(alloc, deck, job)?;
        if !strays.is_empty() {
            count = count.saturating_add(1);
            push_job(text, places, place.saturating_add(1), job)?;
            push_stray(text, places, deck, job, &strays)?;
        }
    }
    Ok(count)
}

/// Appends `  job 3, PAY (day1.job, line 12), `, or `  job 3 (day1.job, line 12) ` for a faulty job.
fn push_job(
    text: &mut String,
    places: &DeckText<'_>,
    number: usize,
    job: &JobEntry,
) -> Result<(), AllocError> {
    write!(text, "  job {number}")?;
    let after = match &job.statements {
        Statements::Sound(cards) => {
            text.push_str(", ")?;
            push_name(text, cards.program())?;
            ", "
        }
        Statements::Faulty(_) => " ",
    };
    if let Some(line) = places.place_of(job.first_card()).place {
        write!(text, " ({line})")?;
    }
    text.push_str(after)
}

/// Appends how a job continues over the statements at these places, from 0: `has // LOAD among its data at card 28 (day1.job, line 28), and
/// 4 more statements: /* and /& are missing before it`.
pub fn push_stray(
    text: &mut String,
    places: &DeckText<'_>,
    deck: &Deck,
    job: &JobEntry,
    strays: &[usize],
) -> Result<(), AllocError> {
    let Some(first) = strays.first() else {
        return Ok(());
    };
    let missing = match &job.statements {
        Statements::Sound(_) => {
            text.push_str("has ")?;
            push_statement(text, deck, *first)?;
            text.push_str(" among its data")?;
            "/* and /& are missing before it"
        }
        Statements::Faulty(_) => {
            text.push_str("is faulty and passes over ")?;
            push_statement(text, deck, *first)?;
            "/& is missing before it"
        }
    };
    let card = places.place_of(first.saturating_add(1));
    write!(text, " at {card}")?;
    push_more(text, strays.len().saturating_sub(1))?;
    writeln!(text, ": {missing}")
}

/// Appends `// LOAD`: the statement at a place.
fn push_statement(text: &mut String, deck: &Deck, place: usize) -> Result<(), AllocError> {
    text.push_str("// ")?;
    match deck.card(place) {
        Some(card) => push_characters(text, keyword_of(card)),
        None => Ok(()),
    }
}

/// Appends how many further statements there are.
fn push_more(text: &mut String, count: usize) -> Result<(), AllocError> {
    match count {
        0 => Ok(()),
        1 => text.push_str(", and 1 more statement"),
        _ => write!(text, ", and {count} more statements"),
    }
}
