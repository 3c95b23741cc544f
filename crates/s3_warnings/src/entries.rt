//! The indicators on a card, by what the card does with them.
ghost use Rattle.std.specs.Prelude.{◌≡◌, ◌≤◌, ◌∷◌};
ghost use Rattle.s3_warnings.specs.Inner.Entries as spec;

use s3_lines::indicator::{Condition, Indicator};
use s3_lines::sheet::{
    CalculationLine, CalculationTime, FieldLine, InputLine, Operation, OutputLine, SheetLine,
};

/// An indicator in an entry of a card.
#[derive(Clone, Copy)]
pub struct IndicatorEntry {
    /// The indicator.
    pub indicator: Indicator,
    /// Whether it has N: the indicator must be off.
    pub negated: bool,
    /// The first column of the entry, from 1.
    pub from: usize,
    /// The last column of the entry.
    pub to: usize,
}

/// What a card does with indicators: four entries at most.
pub type Entries = [Option<IndicatorEntry>; 4];

/// An entry that has an indicator, or is blank.
fn entry(from: usize, to: usize, indicator: Option<Indicator>) -> Option<IndicatorEntry>
    ensures { result ≡ spec.entry from to indicator }
{
    match indicator {
        Some(indicator) => Some(IndicatorEntry {
            indicator,
            negated: false,
            from,
            to,
        }),
        None => None,
    }
}

/// A condition in three columns, or blanks.
fn condition_entry(from: usize, condition: Option<Condition>) -> Option<IndicatorEntry>
    requires { from ≤ 80 }
    ensures { result ≡ spec.condition_entry from condition }
{
    match condition {
        Some(condition) => Some(IndicatorEntry {
            indicator: condition.indicator,
            negated: condition.negated,
            from,
            to: from + 2,
        }),
        None => None,
    }
}

/// An entry, and after it three conditions from a column on.
fn with_conditions(
    first: Option<IndicatorEntry>,
    column: usize,
    conditions: &[Option<Condition>; 3],
) -> Entries
    requires { column ≤ 70 }
    ensures { result ≡ first ∷ spec.conditions_from column conditions.now }
{
    let [one, two, three] = *conditions;
    let second_column = column + 3;
    let third_column = second_column + 3;
    [
        first,
        condition_entry(column, one),
        condition_entry(second_column, two),
        condition_entry(third_column, three),
    ]
}

/// An entry, and after it three indicators from a column on, of two columns each.
fn with_indicators(
    first: Option<IndicatorEntry>,
    column: usize,
    indicators: &[Option<Indicator>; 3],
) -> Entries
    requires { column ≤ 70 }
    ensures { result ≡ first ∷ spec.indicators_from column indicators.now }
{
    let [one, two, three] = *indicators;
    let second_column = column + 2;
    let third_column = second_column + 2;
    [
        first,
        entry(column, column + 1, one),
        entry(second_column, second_column + 1, two),
        entry(third_column, third_column + 1, three),
    ]
}

/// One entry alone.
fn alone(first: Option<IndicatorEntry>) -> Entries
    ensures { result ≡ spec.alone first }
{
    [first, None, None, None]
}

/// The indicator of a total line.
fn level(time: CalculationTime) -> Option<IndicatorEntry>
    ensures { result ≡ spec.level time }
{
    match time {
        CalculationTime::Total(indicator) => entry(7, 8, Some(indicator)),
        _ => None,
    }
}

fn tested_on_input(line: &InputLine) -> Entries
    ensures { result ≡ spec.tested_on_input line.now }
{
    match line {
        InputLine::Field(field) => alone(entry(63, 64, field.relation)),
        _ => alone(None),
    }
}

fn tested_on_output(line: &OutputLine) -> Entries
    ensures { result ≡ spec.tested_on_output line.now }
{
    match line {
        OutputLine::Line(card) => with_conditions(None, 23, &card.conditions),
        OutputLine::And(conditions) => with_conditions(None, 23, conditions),
        OutputLine::Or(conditions) => with_conditions(None, 23, conditions),
        OutputLine::Field(field) => with_conditions(None, 23, &field.conditions),
    }
}

/// The indicators that a card tests.
pub fn tested_on(line: &SheetLine) -> Entries
    ensures { result ≡ spec.tested_on line.now }
{
    match line {
        SheetLine::Header(_) | SheetLine::File(_) => alone(None),
        SheetLine::Input(line) => tested_on_input(line),
        SheetLine::Calculation(line) => with_conditions(level(line.time), 9, &line.conditions),
        SheetLine::Output(line) => tested_on_output(line),
    }
}

/// MR, which match fields turn on.
fn matching(level: Option<u8>) -> Option<IndicatorEntry>
    ensures { result ≡ spec.matching level }
{
    match level {
        Some(_) => entry(61, 62, Some(Indicator::Matching)),
        None => None,
    }
}

fn set_on_input(line: &InputLine) -> Entries
    ensures { result ≡ spec.set_on_input line.now }
{
    match line {
        InputLine::Record(_, indicator, _) => alone(entry(19, 20, Some(*indicator))),
        InputLine::Or(indicator, _) => alone(entry(19, 20, Some(*indicator))),
        InputLine::Field(field) => {
            with_indicators(matching(field.match_level), 65, &field.indicators)
        }
        InputLine::And(_) => alone(None),
    }
}

fn set_on_calculation(line: &CalculationLine) -> Entries
    ensures { result ≡ spec.set_on_calculation line.now }
{
    match line.operation {
        Some(Operation::SetOff) => alone(None),
        _ => with_indicators(None, 54, &line.indicators),
    }
}

/// The indicators that a card may turn on.
pub fn set_on(line: &SheetLine) -> Entries
    ensures { result ≡ spec.set_on line.now }
{
    match line {
        SheetLine::Header(_) | SheetLine::Output(_) => alone(None),
        SheetLine::File(file) => alone(entry(33, 34, file.overflow)),
        SheetLine::Input(line) => set_on_input(line),
        SheetLine::Calculation(line) => set_on_calculation(line),
    }
}

fn turned_on_field(field: &FieldLine) -> Entries
    ensures { result ≡ spec.turned_on_field field.now }
{
    with_indicators(None, 65, &field.indicators)
}

fn turned_on_calculation(line: &CalculationLine) -> Entries
    ensures { result ≡ spec.turned_on_calculation line.now }
{
    match line.operation {
        Some(Operation::Chain) => alone(None),
        _ => with_indicators(None, 54, &line.indicators),
    }
}

/// The indicators that a card turns on or off for the sake of a test alone.
pub fn turned_on(line: &SheetLine) -> Entries
    ensures { result ≡ spec.turned_on line.now }
{
    match line {
        SheetLine::File(file) => alone(entry(33, 34, file.overflow)),
        SheetLine::Input(InputLine::Field(field)) => turned_on_field(field),
        SheetLine::Calculation(line) => turned_on_calculation(line),
        _ => alone(None),
    }
}
