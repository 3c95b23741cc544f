//! Where a program at work halts.

use crate::cards::DeckCards;
use crate::files::push_file;
use crate::stand::{Shown, push_stand};
use s3_cycle::Cycle;
use s3_evidence::{Begun, Evidence, Source};
use s3_level::Level;
use s3_lines::sheet::{Device, FileLine};
use s3_operator::HaltCode;
use std::alloc::{AllocError, Global};

/// What a card is called that was processed before the record that is shown above it.
pub(crate) const CARD_BEFORE: &'static str = "the card before it:";

/// A program that halts.
#[derive(Clone, Copy)]
pub(crate) struct AtWork<'a> {
    /// The deck of its level.
    pub(crate) cards: DeckCards<'a>,
    /// Its level.
    pub(crate) held: &'a Level,
    /// The jobs that were begun; the last one is its own.
    pub(crate) begun: &'a Begun,
    /// The program at work.
    pub(crate) cycle: &'a Cycle,
    /// Its source.
    pub(crate) source: &'a Source,
    /// For what it halts.
    pub(crate) code: HaltCode,
    /// What the pack has about the halt.
    pub(crate) evidence: &'a Evidence,
}

impl<'a> AtWork<'a> {
    /// The number of the last data card that was read, from 1.
    pub(crate) fn last_card(&self) -> Option<usize> {
        let unread = self.held.unread()?;
        let job = self.begun.statements()?;
        (unread.next > job.data_from()).then_some(unread.next)
    }

    /// The number of the data card before that one.
    pub(crate) fn card_before(&self) -> Option<usize> {
        let before = self.last_card()?.checked_sub(1)?;
        let job = self.begun.statements()?;
        (before > job.data_from()).then_some(before)
    }

    /// How many data cards were read.
    pub(crate) fn cards_read(&self) -> u32 {
        match (self.last_card(), self.begun.statements()) {
            (Some(last), Some(job)) => {
                u32::try_from(last.saturating_sub(job.data_from())).unwrap_or(0)
            }
            _ => 0,
        }
    }

    /// The number of the n-th data card of the job in the deck, both from 1.
    pub(crate) fn number_of_card(&self, n: u32) -> Option<usize> {
        self.begun.statements()?.data_from().checked_add(n as usize)
    }

    /// Whether the record that was read before another one of its file was also processed just before it: a reply may have passed it over,
    /// and if files are matched, records of other files may come between.
    pub(crate) fn is_in_order(&self) -> bool {
        !self.begun.has_skipped() && self.source.reads_in_turn()
    }

    /// Whether the last data card that was read begins with these bytes.
    pub(crate) fn is_last_card(&self, record: &[u8]) -> bool {
        let Some(number) = self.last_card() else {
            return false;
        };
        match self.cards.card(number) {
            Some(card) => card.starts_with(record),
            None => false,
        }
    }
}

/// Whether the records of a file are cards.
pub(crate) fn is_on_cards(line: &FileLine) -> bool {
    matches!(line.device, Device::CardReader)
}

/// Appends the place of a program and what it holds there, the last data card, and its files.
pub(crate) fn push_at_work(
    text: &mut String,
    alloc: Global,
    at: AtWork<'_>,
) -> Result<(), AllocError> {
    let shown = push_stand(text, alloc, at)?;
    push_last_card(text, at, &shown)?;
    for file in at.held.files() {
        push_file(text, file)?;
    }
    Ok(())
}

/// Appends the last data card, with what is marked on it, and the one before it if that is shown too.
fn push_last_card(text: &mut String, at: AtWork<'_>, shown: &Shown) -> Result<(), AllocError> {
    let Some(number) = at.last_card() else {
        return Ok(());
    };
    if shown.is_last_card_shown {
        return Ok(());
    }
    let words = if shown.is_after_totals {
        "the totals are those before this card, which isn't processed yet:"
    } else {
        "the last data card:"
    };
    at.cards
        .push_named_card(text, words, number, &shown.marked)?;
    match at.card_before() {
        Some(before) if shown.is_before_shown => {
            at.cards
                .push_named_card(text, CARD_BEFORE, before, &shown.marked)
        }
        _ => text.push_str(&shown.record_before),
    }
}
