//! The cards of each name and of each indicator.

use crate::cards::Cards;
use crate::indicators::{IndicatorMention, indicators_on};
use crate::names::{NameMention, Sort, names_on};
use indexmap::IndexMap;
use s3_cards::Name;
use s3_lines::indicator::Indicator;
use s3_lines::sheet::Line;
use std::alloc::{AllocError, Global};

/// The cards of each name, in the order in which names are first.
pub type Names = IndexMap<Name, Cards>;

/// The cards of each indicator, in the order in which they are first.
pub type Indicators = IndexMap<Indicator, Cards>;

/// The cards of the names of a sort.
pub fn names_of(alloc: Global, lines: &[Line], sort: Sort) -> Result<Names, AllocError> {
    let mut names = IndexMap::new(alloc);
    add_names(alloc, &mut names, lines, sort)?;
    Ok(names)
}

fn add_names(
    alloc: Global,
    names: &mut Names,
    lines: &[Line],
    sort: Sort,
) -> Result<(), AllocError> {
    for line in lines {
        add_names_on(alloc, names, line, sort)?;
    }
    Ok(())
}

fn add_names_on(
    alloc: Global,
    names: &mut Names,
    line: &Line,
    sort: Sort,
) -> Result<(), AllocError> {
    for mention in names_on(&line.sheet) {
        if let Some(mention) = mention {
            add_if(alloc, names, line.card, sort, mention)?;
        }
    }
    Ok(())
}

/// Adds a name, if it is of a sort.
fn add_if(
    alloc: Global,
    names: &mut Names,
    card: u16,
    sort: Sort,
    mention: NameMention,
) -> Result<(), AllocError> {
    if mention.sort == sort {
        add_name(alloc, names, card, mention)
    } else {
        Ok(())
    }
}

fn add_name(
    alloc: Global,
    names: &mut Names,
    card: u16,
    mention: NameMention,
) -> Result<(), AllocError> {
    if let Some(cards) = names.get_mut(&mention.name) {
        return cards.add(card, mention.defines);
    }
    let cards = Cards::of(alloc, card, mention.defines)?;
    names.insert(mention.name, cards)?;
    Ok(())
}

/// The cards of all indicators.
pub fn indicators_of(alloc: Global, lines: &[Line]) -> Result<Indicators, AllocError> {
    let mut indicators = IndexMap::new(alloc);
    add_indicators(alloc, &mut indicators, lines)?;
    Ok(indicators)
}

fn add_indicators(
    alloc: Global,
    indicators: &mut Indicators,
    lines: &[Line],
) -> Result<(), AllocError> {
    for line in lines {
        add_indicators_on(alloc, indicators, line)?;
    }
    Ok(())
}

fn add_indicators_on(
    alloc: Global,
    indicators: &mut Indicators,
    line: &Line,
) -> Result<(), AllocError> {
    for mention in indicators_on(&line.sheet) {
        if let Some(mention) = mention {
            add_indicator(alloc, indicators, line.card, mention)?;
        }
    }
    Ok(())
}

fn add_indicator(
    alloc: Global,
    indicators: &mut Indicators,
    card: u16,
    mention: IndicatorMention,
) -> Result<(), AllocError> {
    if let Some(cards) = indicators.get_mut(&mention.indicator) {
        return cards.add(card, mention.is_set);
    }
    let cards = Cards::of(alloc, card, mention.is_set)?;
    indicators.insert(mention.indicator, cards)?;
    Ok(())
}
