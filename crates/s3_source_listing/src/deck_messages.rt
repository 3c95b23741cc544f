//! The messages of a deck, in words.
ghost use Rattle.std.specs.Prelude.{◌≤◌, length};

use crate::listing::{Outcome, RULER_CURE, columns_of_statement, is_bare_source, is_surplus_ruler};
use crate::messages::{ErrorMessage, RunCard, SourceMessages, WarningMessage, messages_of};
use crate::source::{SourceRange, hides};
use s3_blame::diagnostic_words;
use s3_cards::{Card, Deck};
use s3_decks::{Columns, JobEntry, Statements, jobs_of, keyword_columns};
use s3_ocl::{FaultyJob, JobCards};
use s3_reasons::{Reasons, statement_reason};
use std::alloc::{AllocError, Global};

/// What a message reports.
#[derive(Clone, Copy)]
pub enum Severity {
    /// An error, which must be mended.
    Error,
    /// A warning: the source is legal, and probably wrong.
    Warning,
}

/// A message about a card of a deck.
#[derive(Drop)]
pub struct CardMessage {
    /// The number of the card in the deck, from 1.
    pub card: usize,
    /// The columns that it is about.
    pub columns: Columns,
    /// Whether the card is a statement; else it is of a source.
    pub is_statement: bool,
    /// Whether it is an error or a warning.
    pub severity: Severity,
    /// Its number among the errors of its kind, or among the warnings.
    pub number: u8,
    /// What is wrong.
    pub words: String,
    /// Why, if more is known; else empty.
    pub reason: String,
}

impl CardMessage {
    /// Appends its text, as `error 08: an operation or an edit that doesn't fit: ..`.
    pub fn push_text(&self, text: &mut String) -> Result<(), AllocError> {
        let number = self.number;
        match self.severity {
            Severity::Error => write!(text, "error {number:02}: ")?,
            Severity::Warning => write!(text, "warning W{number}: ")?,
        }
        text.push_str(self.words.as_str())?;
        if self.reason.is_empty() {
            return Ok(());
        }
        text.push_str(": ")?;
        text.push_str(self.reason.as_str())
    }
}

/// The messages of a deck.
#[derive(Drop)]
pub struct DeckMessages {
    /// The messages, job by job.
    pub messages: Vec<CardMessage>,
    /// How many sources, errors and warnings the deck has.
    pub outcome: Outcome,
    /// Whether diagnostics of a source hide others.
    pub hides_others: bool,
}

/// Appends to the reason of a faulty job where a source belongs.
fn push_cure(reason: &mut String, card: &Card) -> Result<(), AllocError> {
    if !reason.is_empty() {
        reason.push_str("; ")?;
    }
    reason.push_str(
        "put // LOAD $RPG,F1 and // RUN before this card, where they are missing, and /* after the source's last card",
    )?;
    if !is_surplus_ruler(card) {
        return Ok(());
    }
    write!(reason, "; take {RULER_CURE}")
}

impl DeckMessages {
    /// Adds the message of a diagnostic.
    fn add_error(
        &mut self,
        alloc: Global,
        run_card: u16,
        reasons: &Reasons,
        error: &ErrorMessage,
    ) -> Result<(), AllocError> {
        let reason = reasons.of(error.card, error.number);
        let words = String::from_str(alloc, diagnostic_words(error.number))?;
        let reason = String::from_str(alloc, reason)?;
        self.outcome.faults = self.outcome.faults.saturating_add(1);
        self.messages.push(CardMessage {
            card: usize::from(error.card),
            columns: error.columns,
            is_statement: error.card == run_card,
            severity: Severity::Error,
            number: error.number,
            words,
            reason,
        })?;
        Ok(())
    }

    /// Adds the message of a warning.
    fn add_warning(&mut self, alloc: Global, warning: &WarningMessage) -> Result<(), AllocError> {
        let words = String::from_str(alloc, warning.kind.words())?;
        self.outcome.warnings = self.outcome.warnings.saturating_add(1);
        self.messages.push(CardMessage {
            card: usize::from(warning.card),
            columns: warning.columns,
            is_statement: false,
            severity: Severity::Warning,
            number: warning.kind.number(),
            words,
            reason: String::new(alloc),
        })?;
        Ok(())
    }

    /// Adds the messages of a source, whose RUN card has this number.
    fn add_messages(
        &mut self,
        alloc: Global,
        run_card: u16,
        found: &SourceMessages,
    ) -> Result<(), AllocError> {
        self.outcome.sources = self.outcome.sources.saturating_add(1);
        for error in &found.errors {
            self.hides_others = self.hides_others || hides(error.number);
            self.add_error(alloc, run_card, &found.reasons, error)?;
        }
        for warning in &found.warnings {
            self.add_warning(alloc, warning)?;
        }
        Ok(())
    }

    /// Adds the messages of the source of these cards.
    fn add_source(
        &mut self,
        alloc: Global,
        deck: &Deck,
        range: SourceRange,
        run: RunCard,
    ) -> Result<(), AllocError>
        requires order { range.from ≤ range.to }
        requires within { range.to ≤ length deck.now }
    {
        let found = messages_of(alloc, deck, range, run)?;
        let added = self.add_messages(alloc, run.number, &found);
        drop(found);
        added
    }

    /// Adds the messages of a compile job.
    fn add_compiled(
        &mut self,
        alloc: Global,
        deck: &Deck,
        job: &JobCards,
    ) -> Result<(), AllocError> {
        let range = SourceRange {
            from: job.data_from(),
            to: job.data_to(),
        };
        // a job is within its deck, which the type of a job doesn't say
        if range.to > deck.len() {
            return Ok(());
        }
        let run = RunCard {
            number: job.run_card(),
            keyword: keyword_at(deck, job.run_card()),
        };
        self.add_source(alloc, deck, range, run)
    }

    /// Adds the message of a job with faulty statements.
    fn add_faulty(
        &mut self,
        alloc: Global,
        deck: &Deck,
        job: &JobEntry,
        faulty: &FaultyJob,
    ) -> Result<(), AllocError> {
        let fault = faulty.fault;
        let mut reason = statement_reason(alloc, deck, job.first_card(), faulty)?;
        let mut words = String::new(alloc);
        write!(words, "{fault}")?;
        let card = usize::from(faulty.card);
        let columns = match deck.card(card.saturating_sub(1)) {
            Some(found) => {
                if is_bare_source(fault, found) {
                    push_cure(&mut reason, found)?;
                }
                columns_of_statement(found)
            }
            None => Columns { from: 1, to: 1 },
        };
        self.outcome.faults = self.outcome.faults.saturating_add(1);
        self.messages.push(CardMessage {
            card,
            columns,
            is_statement: true,
            severity: Severity::Error,
            number: fault.number(),
            words,
            reason,
        })?;
        Ok(())
    }

    /// Adds the messages of a job.
    fn add_job(&mut self, alloc: Global, deck: &Deck, job: &JobEntry) -> Result<(), AllocError> {
        match &job.statements {
            Statements::Sound(cards) if cards.is_compile() => {
                self.add_compiled(alloc, deck, cards)
            }
            Statements::Sound(_) => Ok(()),
            Statements::Faulty(faulty) => self.add_faulty(alloc, deck, job, faulty),
        }
    }
}

/// The columns of the keyword of a statement, by the number of its card from 1.
fn keyword_at(deck: &Deck, card: u16) -> Columns {
    match deck.card(usize::from(card).saturating_sub(1)) {
        Some(card) => keyword_columns(card),
        None => Columns { from: 1, to: 1 },
    }
}

/// No messages.
fn no_messages(alloc: Global) -> DeckMessages {
    DeckMessages {
        messages: Vec::new(alloc),
        outcome: Outcome::NONE,
        hides_others: false,
    }
}

/// The messages of a job of a deck: the messages of its source, or the message of its faulty statements. It is refused only if memory runs
/// out.
pub fn messages_of_job(
    alloc: Global,
    deck: &Deck,
    job: &JobEntry,
) -> Result<DeckMessages, AllocError> {
    let mut found = no_messages(alloc);
    found.add_job(alloc, deck, job)?;
    Ok(found)
}

/// The messages of a deck: of each source those of its diagnostics or of its warnings, and one for each job with faulty statements. It is
/// refused only if memory runs out.
pub fn messages_of_deck(alloc: Global, deck: &Deck) -> Result<DeckMessages, AllocError> {
    let mut found = no_messages(alloc);
    for job in &jobs_of(alloc, deck)? {
        found.add_job(alloc, deck, job)?;
    }
    Ok(found)
}
