//! The source cards that turn a halt indicator on.

use crate::cards::DeckCards;
use s3_lines::indicator::Indicator;
use s3_lines::sheet::{InputLine, Line, Operation, SheetLine};
use std::alloc::AllocError;

/// The most cards that are shown.
const MOST: usize = 20;

/// Appends the source cards that turn a halt indicator on.
pub(crate) fn push_causes(
    text: &mut String,
    cards: DeckCards<'_>,
    lines: &[Line],
    number: u8,
) -> Result<(), AllocError> {
    let mut count: usize = 0;
    for line in lines {
        if can_turn_on(line, number) {
            if count < MOST {
                push_cause(text, cards, number, line)?;
            }
            count = count.saturating_add(1);
        }
    }
    let more = count.saturating_sub(MOST);
    if more > 0 {
        writeln!(text, "  and by {more} more")?;
    }
    Ok(())
}

fn push_cause(
    text: &mut String,
    cards: DeckCards<'_>,
    number: u8,
    line: &Line,
) -> Result<(), AllocError> {
    write!(text, "  H{number} is set by source ")?;
    cards.push_place(text, usize::from(line.card))?;
    text.push('\n')?;
    cards.push_card(text, usize::from(line.card), &[])
}

/// Whether a line can turn a halt indicator on.
fn can_turn_on(line: &Line, number: u8) -> bool {
    match &line.sheet {
        SheetLine::Input(InputLine::Record(_, indicator, _)) => is_halt(*indicator, number),
        SheetLine::Input(InputLine::Or(indicator, _)) => is_halt(*indicator, number),
        SheetLine::Input(InputLine::Field(field)) => any_is_halt(&field.indicators, number),
        SheetLine::Calculation(line) => {
            !matches!(line.operation, Some(Operation::SetOff))
                && any_is_halt(&line.indicators, number)
        }
        _ => false,
    }
}

fn any_is_halt(indicators: &[Option<Indicator>; 3], number: u8) -> bool {
    indicators.iter().any(|entry| match entry {
        Some(indicator) => is_halt(*indicator, number),
        None => false,
    })
}

fn is_halt(indicator: Indicator, number: u8) -> bool {
    match indicator {
        Indicator::Halt(other) => other == number,
        _ => false,
    }
}
