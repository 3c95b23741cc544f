//! The warnings of each card of a source.

use crate::card_lines::push_warning;
use crate::margin::Margin;
use indexmap::IndexMap;
use s3_decks::Columns;
use s3_warnings::{Warning, WarningKind};
use std::alloc::{AllocError, Global};

/// The warnings of each card, by the numbers of the cards. A card without warnings has no place in it.
pub type CardWarnings = IndexMap<u16, Vec<Warning>>;

/// Adds a warning to those of its card.
fn add_warning(
    alloc: Global,
    by_card: &mut CardWarnings,
    warning: Warning,
) -> Result<(), AllocError> {
    by_card
        .entry(warning.card)?
        .or_insert(Vec::new(alloc))
        .push(warning)?;
    Ok(())
}

/// The warnings of each card. It is refused only if memory runs out.
pub fn warnings_of_cards(alloc: Global, warnings: &[Warning]) -> Result<CardWarnings, AllocError> {
    let mut by_card = IndexMap::new(alloc);
    for warning in warnings {
        add_warning(alloc, &mut by_card, *warning)?;
    }
    Ok(by_card)
}

/// How many warnings a listing has: each kind counts once a card.
pub fn count_of(warnings: &[Warning]) -> usize {
    let mut count = 0_usize;
    let mut last = None;
    for warning in warnings {
        let this = Some((warning.card, warning.kind.number()));
        if this != last {
            count = count.saturating_add(1);
        }
        last = this;
    }
    count
}

/// The columns of the warnings of a kind.
fn columns_of_kind(
    alloc: Global,
    warnings: &[Warning],
    kind: WarningKind,
) -> Result<Vec<Columns>, AllocError> {
    warnings
        .iter()
        .filter(|warning| warning.kind.number() == kind.number())
        .map(|warning| Columns {
            from: warning.from,
            to: warning.to,
        })
        .collect(alloc)
}

/// Appends the warnings of a kind, if a card has any.
fn push_kind(
    text: &mut String,
    alloc: Global,
    margin: Margin,
    warnings: &[Warning],
    kind: WarningKind,
) -> Result<(), AllocError> {
    let marked = columns_of_kind(alloc, warnings, kind)?;
    if marked.is_empty() {
        return Ok(());
    }
    push_warning(text, margin, kind, &marked)
}

/// Appends the warnings of a card, by its number from 1.
pub fn push_warnings(
    text: &mut String,
    alloc: Global,
    margin: Margin,
    by_card: &CardWarnings,
    card: u16,
) -> Result<(), AllocError> {
    if let Some(warnings) = by_card.get(&card) {
        for kind in WarningKind::ALL {
            push_kind(text, alloc, margin, warnings, kind)?;
        }
    }
    Ok(())
}
