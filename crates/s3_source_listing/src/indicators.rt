//! The indicators on the cards of a source.

use s3_lines::indicator::{Condition, Indicator};
use s3_lines::sheet::{
    CalculationLine, CalculationTime, FieldLine, FileLine, InputLine, OutputLine, SheetLine,
};
use std::alloc::AllocError;

/// The most indicators that a card has: a C card its level, three conditions, and three that it turns.
const MOST: usize = 7;

/// An indicator on a card.
#[derive(Clone, Copy)]
pub struct IndicatorMention {
    /// The indicator.
    pub indicator: Indicator,
    /// Whether the card turns it on or off; else it tests it.
    pub is_set: bool,
}

/// The indicators on the card of a line, in the order of their columns.
pub fn indicators_on(line: &SheetLine) -> [Option<IndicatorMention>; MOST] {
    match line {
        SheetLine::Header(_) => [None; MOST],
        SheetLine::File(line) => on_file(line),
        SheetLine::Input(line) => on_input(line),
        SheetLine::Calculation(line) => on_calculation(line),
        SheetLine::Output(line) => on_output(line),
    }
}

/// An entry for an indicator that its card sets.
fn set(entry: Option<Indicator>) -> Option<IndicatorMention> {
    match entry {
        Some(indicator) => Some(IndicatorMention {
            indicator,
            is_set: true,
        }),
        None => None,
    }
}

/// An entry for an indicator that its card tests.
fn tested(entry: Option<Indicator>) -> Option<IndicatorMention> {
    match entry {
        Some(indicator) => Some(IndicatorMention {
            indicator,
            is_set: false,
        }),
        None => None,
    }
}

/// The indicator of a condition.
fn tested_by(condition: Option<Condition>) -> Option<IndicatorMention> {
    match condition {
        Some(condition) => tested(Some(condition.indicator)),
        None => None,
    }
}

fn on_file(line: &FileLine) -> [Option<IndicatorMention>; MOST] {
    let overflow = set(line.overflow);
    let condition = tested(line.condition);
    [overflow, condition, None, None, None, None, None]
}

fn on_input(line: &InputLine) -> [Option<IndicatorMention>; MOST] {
    match line {
        InputLine::Record(_, indicator, _) => only_set(*indicator),
        InputLine::Or(indicator, _) => only_set(*indicator),
        InputLine::And(_) => [None; MOST],
        InputLine::Field(field) => on_field(field),
    }
}

fn only_set(indicator: Indicator) -> [Option<IndicatorMention>; MOST] {
    [set(Some(indicator)), None, None, None, None, None, None]
}

fn on_field(field: &FieldLine) -> [Option<IndicatorMention>; MOST] {
    let [plus, minus, zero] = field.indicators;
    let level = set(field.control_level.map(|level| Indicator::Level(level)));
    let relation = tested(field.relation);
    [
        level,
        relation,
        set(plus),
        set(minus),
        set(zero),
        None,
        None,
    ]
}

/// The indicator without which a C line isn't done: that of its level in 7 and 8.
fn level_of(time: CalculationTime) -> Option<IndicatorMention> {
    match time {
        CalculationTime::Total(level) => tested(Some(level)),
        _ => None,
    }
}

fn on_calculation(line: &CalculationLine) -> [Option<IndicatorMention>; MOST] {
    let [first, second, third] = line.conditions;
    let [high, low, equal] = line.indicators;
    [
        level_of(line.time),
        tested_by(first),
        tested_by(second),
        tested_by(third),
        set(high),
        set(low),
        set(equal),
    ]
}

fn on_output(line: &OutputLine) -> [Option<IndicatorMention>; MOST] {
    match line {
        OutputLine::Line(first) => on_conditions(&first.conditions),
        OutputLine::And(conditions) => on_conditions(conditions),
        OutputLine::Or(conditions) => on_conditions(conditions),
        OutputLine::Field(field) => on_conditions(&field.conditions),
    }
}

fn on_conditions(conditions: &[Option<Condition>; 3]) -> [Option<IndicatorMention>; MOST] {
    let [first, second, third] = *conditions;
    [
        tested_by(first),
        tested_by(second),
        tested_by(third),
        None,
        None,
        None,
        None,
    ]
}

/// The digit of a number below 10; of any other its last one.
fn digit(number: u8) -> char {
    (b'0' + number % 10) as char
}

/// The letter of an overflow indicator, by its number.
fn overflow_letter(number: u8) -> char {
    match number {
        1..=7 => (b'@' + number) as char,
        _ => 'V',
    }
}

/// The two characters of an indicator on a card.
fn letters_of(indicator: Indicator) -> (char, char) {
    match indicator {
        Indicator::General(number) => (digit(number / 10), digit(number)),
        Indicator::Level(number) => ('L', digit(number)),
        Indicator::LastRecord => ('L', 'R'),
        Indicator::Matching => ('M', 'R'),
        Indicator::Halt(number) => ('H', digit(number)),
        Indicator::FirstPage => ('1', 'P'),
        Indicator::Overflow(number) => ('O', overflow_letter(number)),
        Indicator::Switch(number) => ('U', digit(number)),
    }
}

/// Appends the two characters of an indicator.
pub fn push_indicator(text: &mut String, indicator: Indicator) -> Result<(), AllocError> {
    let (first, second) = letters_of(indicator);
    text.push(first)?;
    text.push(second)
}
