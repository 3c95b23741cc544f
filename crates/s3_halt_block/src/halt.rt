//! The block of a halt, put together of its parts.

use crate::at_start::{AtStart, push_at_start};
use crate::at_work::{AtWork, push_at_work};
use crate::cards::DeckCards;
use crate::details::push_details;
use crate::replies::{push_meaning, push_replies};
use s3_bureau::Bureau;
use s3_cards::{LevelId, Name};
use s3_cycle::Cycle;
use s3_decks::{DeckText, JobEntry, Statements, push_name, push_stray, strays_of};
use s3_evidence::{Begun, Evidence, Source};
use s3_level::Level;
use s3_operator::Halt;
use s3_store::PackStore;
use std::alloc::{AllocError, Global};

/// A halt that waits for a reply, and what is known of it.
#[derive(Clone, Copy)]
pub struct Waiting<'a> {
    /// Its level.
    pub level: LevelId,
    /// The halt.
    pub halt: &'a Halt,
    /// The jobs of the level that were begun, up to this halt.
    pub begun: &'a Begun,
    /// What `look` gave for the halt.
    pub evidence: &'a Evidence,
}

/// Appends the block of a waiting halt: its meaning, its place, what it is about, the replies that it allows, and the effect of each
/// reply. The deck's text is the one that the level's cards were read from.
pub fn push_halt<S: PackStore>(
    text: &mut String,
    alloc: Global,
    bureau: &Bureau<S>,
    deck: &DeckText<'_>,
    waiting: Waiting<'_>,
) -> Result<(), AllocError> {
    let Waiting {
        level,
        halt,
        begun,
        evidence,
    } = waiting;
    let held = bureau.level(level);
    let cards = DeckCards {
        text: deck,
        deck: held.deck(),
    };
    push_meaning(text, level, halt.code)?;
    push_beginning(text, cards, begun, halt)?;
    push_details(text, alloc, cards, begun, halt)?;
    match held.cycle() {
        Some(cycle) => push_program_at_work(text, alloc, cards, held, cycle, waiting)?,
        None => {
            push_stray_cards(text, alloc, cards, begun)?;
            push_at_start(
                text,
                alloc,
                AtStart {
                    cards,
                    held,
                    begun,
                    areas: bureau.areas(),
                    level,
                    code: halt.code,
                    evidence,
                },
            )?
        }
    }
    push_replies(text, halt.code)
}

/// Appends where the program of a waiting halt is at work.
fn push_program_at_work(
    text: &mut String,
    alloc: Global,
    cards: DeckCards<'_>,
    held: &Level,
    cycle: &Cycle,
    waiting: Waiting<'_>,
) -> Result<(), AllocError> {
    let begun = waiting.begun;
    let source = source_of(alloc, begun, held, cycle.program_name())?;
    let pushed = push_at_work(
        text,
        alloc,
        AtWork {
            cards,
            held,
            begun,
            cycle,
            source: &source,
            code: waiting.halt.code,
            evidence: waiting.evidence,
        },
    );
    drop(source);
    pushed
}

/// Appends a job by its number and what it does: `job 5, CUSLD`.
fn push_job(text: &mut String, number: u16, job: Option<&JobEntry>) -> Result<(), AllocError> {
    write!(text, "job {number}")?;
    match job {
        Some(job) => push_program(text, &job.statements),
        None => Ok(()),
    }
}

fn push_program(text: &mut String, statements: &Statements) -> Result<(), AllocError> {
    match statements {
        Statements::Sound(job) if job.is_compile() => text.push_str(", a compile job"),
        Statements::Sound(job) => {
            text.push_str(", ")?;
            push_name(text, job.program())
        }
        Statements::Faulty(_) => text.push_str(", whose statements are faulty"),
    }
}

/// Appends the job of a halt, and the card at which it begins.
fn push_beginning(
    text: &mut String,
    cards: DeckCards<'_>,
    begun: &Begun,
    halt: &Halt,
) -> Result<(), AllocError> {
    text.push_str("  ")?;
    push_job(text, halt.job, begun.last())?;
    if let Some(job) = begun.last() {
        text.push_str(", that begins at ")?;
        cards.push_place(text, job.cards.from.saturating_add(1))?;
    }
    text.push('\n')
}

/// Appends which statements of further jobs the job that was begun last takes with it, if `/*` and `/&` may be missing.
fn push_stray_cards(
    text: &mut String,
    alloc: Global,
    cards: DeckCards<'_>,
    begun: &Begun,
) -> Result<(), AllocError> {
    let Some(job) = begun.last() else {
        return Ok(());
    };
    let strays = strays_of(alloc, cards.deck, job)?;
    if strays.is_empty() {
        return Ok(());
    }
    text.push_str("  the job ")?;
    push_stray(text, cards.text, cards.deck, job, &strays)
}

/// The source of a program, without lines if the deck doesn't have it.
fn source_of(alloc: Global, begun: &Begun, held: &Level, name: Name) -> Result<Source, AllocError> {
    match begun.source_of(alloc, held, name)? {
        Some(source) => Ok(source),
        None => Ok(Source {
            name,
            lines: Vec::new(alloc),
        }),
    }
}
