//! The listing of a deck.

use crate::card_lines::{push_card, push_fault, push_reason, push_ruler};
use crate::margin::{Margin, Numbers};
use crate::source::{Found, SourceRange, push_program, push_source};
use s3_cards::ebcdic::{
    ASTERISK, BLANK, DIGIT_5, LETTER_C, LETTER_F, LETTER_H, LETTER_I, LETTER_O, PERIOD,
};
use s3_cards::{Card, Deck, is_digit, trim_end};
use s3_decks::{Columns, DeckText, JobEntry, Statements, jobs_of};
use s3_entries::shared;
use s3_ocl::{FaultyJob, JobCards, JobFault};
use s3_reasons::statement_reason;
use s3_sheets::column;
use std::alloc::{AllocError, Global};
use std::io;
use std::io::Write;

/// What a deck's listing has.
#[derive(Clone, Copy, PartialEq, Eq)]
pub struct Outcome {
    /// How many sources it has.
    pub sources: usize,
    /// How many diagnostics and faulty statements they have together.
    pub faults: usize,
    /// How many warnings they have together.
    pub warnings: usize,
}

impl Outcome {
    /// No source, error or warning.
    pub const NONE: Outcome = Outcome {
        sources: 0,
        faults: 0,
        warnings: 0,
    };

    /// The sums of two outcomes.
    pub fn with(self, other: Outcome) -> Outcome {
        Outcome {
            sources: self.sources.saturating_add(other.sources),
            faults: self.faults.saturating_add(other.faults),
            warnings: self.warnings.saturating_add(other.warnings),
        }
    }
}

/// The cards of a deck, their places in its files, and what must be listed.
#[derive(Clone, Copy)]
struct Listed<'a> {
    files: &'a DeckText<'a>,
    deck: &'a Deck,
    has_references: bool,
}

/// Appends the end of a job's heading: `, job 3, which begins at card 12 (day1.job, line 12)`.
fn push_place(
    text: &mut String,
    files: &DeckText<'_>,
    number: usize,
    job: &JobEntry,
) -> Result<(), AllocError> {
    let first = files.place_of(job.first_card());
    writeln!(text, ", job {number}, which begins at {first}")
}

/// Appends the name of the program of a compile job.
fn push_heading(text: &mut String, deck: &Deck, job: &JobCards) -> Result<(), AllocError> {
    match deck.cards().get(job.data_from()..job.data_to()) {
        Some(source) => push_program(text, source),
        None => Ok(()),
    }
}

/// Appends the source of a compile job, and answers how many diagnostics and warnings it has.
fn push_compiled(
    text: &mut String,
    alloc: Global,
    listed: &Listed<'_>,
    job: &JobCards,
) -> Result<Found, AllocError> {
    let range = SourceRange {
        from: job.data_from(),
        to: job.data_to(),
    };
    // a job is within its deck, which the type of a job doesn't say
    if range.to > listed.deck.len() {
        return Ok(Found::NOTHING);
    }
    push_source(
        text,
        alloc,
        listed.files,
        listed.deck,
        range,
        job.run_card(),
        listed.has_references,
    )
}

/// The columns of a statement: all up to its last character.
pub(crate) fn columns_of_statement(card: &Card) -> Columns {
    Columns {
        from: 1,
        to: trim_end(card).len().max(1).min(80),
    }
}

/// Whether a code is the letter of a sheet.
fn is_sheet(code: u8) -> bool {
    matches!(code, LETTER_H | LETTER_F | LETTER_I | LETTER_C | LETTER_O)
}

/// Whether a card looks like one of a source: no more than page and line are before column 6, and there the letter of a sheet, or
/// after it the `*` of a comment.
fn is_of_source(card: &Card) -> bool {
    let is_sheet = is_sheet(column(card, shared::FORM_TYPE));
    (is_sheet || column(card, shared::COMMENT) == ASTERISK)
        && card[..shared::FORM_TYPE.from - 1]
            .iter()
            .all(|code| *code == BLANK || is_digit(*code))
}

/// Whether a card looks like one of a source that was typed with a tab: among statements that goes to column 9.
fn is_tabbed(card: &Card) -> bool {
    let (before, from_tab) = card.split_at(TAB_STOP);
    before.iter().all(|code| *code == BLANK) && from_tab.first().is_some_and(|code| is_sheet(*code))
}

/// How many columns are before the first tab stop among statements.
const TAB_STOP: usize = 8;

/// Whether a card is a ruler over columns, `....5...10` or `....5.*.10`.
fn is_ruler(card: &Card) -> bool {
    card.starts_with(&[PERIOD, PERIOD, PERIOD, PERIOD, DIGIT_5])
}

/// Whether a card is a ruler that a source can't have: column 7 has no `*`, which makes a comment.
pub(crate) fn is_surplus_ruler(card: &Card) -> bool {
    is_ruler(card) && column(card, shared::COMMENT) != ASTERISK
}

/// What to do with a ruler in a source.
pub(crate) const RULER_CURE: &str = "the ruler out, or make a comment of it by * in column 7";

/// Whether a card of a source is in the place of a statement.
pub(crate) fn is_bare_source(fault: JobFault, card: &Card) -> bool {
    fault == JobFault::NotOcl && (is_of_source(card) || is_tabbed(card) || is_ruler(card))
}

/// Appends where a source is, if a card that looks like one of a source is in the place of a statement.
fn push_source_cure(
    text: &mut String,
    files: &DeckText<'_>,
    fault: JobFault,
    number: usize,
    card: &Card,
) -> Result<(), AllocError> {
    if !is_bare_source(fault, card) {
        return Ok(());
    }
    let place = files.place_of(number);
    writeln!(
        text,
        "A source stands in a job: put // LOAD $RPG,F1 and // RUN in front of {place}, where they are missing, and /* behind its last card."
    )?;
    if !is_surplus_ruler(card) {
        return Ok(());
    }
    writeln!(text, "Take {RULER_CURE}.")
}

/// Appends the card at which the statements of a job are faulty, with what is wrong there.
fn push_faulty_card(
    text: &mut String,
    files: &DeckText<'_>,
    margin: Margin,
    fault: JobFault,
    words: &str,
    reason: &str,
    number: usize,
    card: &Card,
) -> Result<(), AllocError> {
    push_card(text, margin, Numbers::of(files, number), card)?;
    push_fault(
        text,
        margin,
        fault.number(),
        words,
        &[columns_of_statement(card)],
    )?;
    push_reason(text, margin, reason)?;
    push_source_cure(text, files, fault, number, card)
}

/// Appends the statement at which a job is faulty, with what is wrong there.
fn push_faulty(
    text: &mut String,
    alloc: Global,
    listed: &Listed<'_>,
    job: &JobEntry,
    faulty: &FaultyJob,
) -> Result<(), AllocError> {
    let fault = faulty.fault;
    let reason = statement_reason(alloc, listed.deck, job.first_card(), faulty)?;
    let mut words = String::new(alloc);
    write!(words, "{fault}")?;
    let number = usize::from(faulty.card);
    let margin = Margin::of(listed.files, number, number);
    push_ruler(text, margin)?;
    match listed.deck.card(number.saturating_sub(1)) {
        Some(card) => {
            push_faulty_card(
                text,
                listed.files,
                margin,
                fault,
                words.as_str(),
                reason.as_str(),
                number,
                card,
            )
        }
        None => push_fault(text, margin, fault.number(), words.as_str(), &[]),
    }
}

/// Appends what a listing has of a job: its source, or what is wrong with its statements. Nothing is appended of any other.
fn push_job(
    text: &mut String,
    alloc: Global,
    listed: &Listed<'_>,
    number: usize,
    job: &JobEntry,
) -> Result<Outcome, AllocError> {
    match &job.statements {
        Statements::Sound(cards) => push_sound(text, alloc, listed, number, job, cards),
        Statements::Faulty(faulty) => {
            text.push_str("faulty statements")?;
            push_place(text, listed.files, number, job)?;
            push_faulty(text, alloc, listed, job, faulty)?;
            Ok(Outcome {
                sources: 0,
                faults: 1,
                warnings: 0,
            })
        }
    }
}

/// Appends what a listing has of a job without faults.
fn push_sound(
    text: &mut String,
    alloc: Global,
    listed: &Listed<'_>,
    number: usize,
    job: &JobEntry,
    cards: &JobCards,
) -> Result<Outcome, AllocError> {
    if !cards.is_compile() {
        return Ok(Outcome::NONE);
    }
    push_heading(text, listed.deck, cards)?;
    push_place(text, listed.files, number, job)?;
    let found = push_compiled(text, alloc, listed, cards)?;
    Ok(Outcome {
        sources: 1,
        faults: found.diagnostics,
        warnings: found.warnings,
    })
}

/// Writes what a listing has of a job, after an empty line where something is before it.
fn write_job<W: Write>(
    alloc: Global,
    writer: &mut W,
    listed: &Listed<'_>,
    number: usize,
    job: &JobEntry,
    is_first: bool,
) -> io::Result<Outcome> {
    let mut text = String::new(alloc);
    let outcome = push_job(&mut text, alloc, listed, number, job)?;
    if !is_first && !text.is_empty() {
        writer.write_all(b"\n")?;
    }
    writer.write_all(text.as_bytes())?;
    Ok(outcome)
}

/// Writes the listing of a deck, job by job, and answers what it has. It is refused if a write fails, or memory runs out.
pub fn write_listing<W: Write>(
    alloc: Global,
    writer: &mut W,
    files: &DeckText<'_>,
    deck: &Deck,
    has_references: bool,
) -> io::Result<Outcome> {
    let listed = Listed {
        files,
        deck,
        has_references,
    };
    let jobs = jobs_of(alloc, deck)?;
    let mut outcome = Outcome::NONE;
    for (place, job) in jobs.iter().enumerate() {
        let is_first = outcome == Outcome::NONE;
        let number = place.saturating_add(1);
        outcome = outcome.with(write_job(alloc, writer, &listed, number, job, is_first)?);
    }
    Ok(outcome)
}
