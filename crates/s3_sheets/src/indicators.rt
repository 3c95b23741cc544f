//! Indicators, levels and conditions as columns spell them.

ghost use Rattle.std.specs.Prelude.{◌≡◌};
ghost use Rattle.s3_sheets.specs.Indicators.{general_of, level_of, halt_of, overflow_of, switch_of, lettered_of, indicator_of, belongs as belongs_spec, listed as listed_spec, level_behind as level_behind_spec, condition_of};

use s3_cards::ebcdic::{
    BLANK, DIGIT_0, DIGIT_1, DIGIT_8, DIGIT_9, LETTER_A, LETTER_G, LETTER_H, LETTER_L, LETTER_M,
    LETTER_N, LETTER_O, LETTER_P, LETTER_R, LETTER_U, LETTER_V,
};
use s3_cards::is_digit;
use s3_lines::indicator::{Condition, Indicator};

/// The lists of indicators that are allowed in columns of the sheets.
#[derive(Clone, Copy)]
pub enum IndicatorList {
    /// 01 to 99 and H1 to H9: indicators of a type of records, or of a field.
    Record,
    /// OA to OG and OV: overflow indicators of a print file.
    Overflow,
    /// U1 to U8: the switches of a job.
    Switch,
    /// L0 to L9 and LR: when total lines are done.
    Total,
    /// 01 to 99, L1 to L9, LR, H1 to H9, OA to OG and OV: what a calculation turns on and off.
    Resulting,
}

/// 01 to 99.
fn general(tens: u8, units: u8) -> Option<Indicator>
    ensures { result ≡ general_of tens units }
{
    if is_digit(tens) && is_digit(units) && !(tens == DIGIT_0 && units == DIGIT_0) {
        Some(Indicator::General((tens - DIGIT_0) * 10 + (units - DIGIT_0)))
    } else {
        None
    }
}

/// After an L: 0 to 9, R.
fn level(code: u8) -> Option<Indicator>
    ensures { result ≡ level_of code }
{
    if is_digit(code) {
        Some(Indicator::Level(code - DIGIT_0))
    } else if code == LETTER_R {
        Some(Indicator::LastRecord)
    } else {
        None
    }
}

/// After an H: 1 to 9.
fn halt(code: u8) -> Option<Indicator>
    ensures { result ≡ halt_of code }
{
    match code {
        DIGIT_1..=DIGIT_9 => Some(Indicator::Halt(code - DIGIT_0)),
        _ => None,
    }
}

/// After an O: A to G, V.
fn overflow(code: u8) -> Option<Indicator>
    ensures { result ≡ overflow_of code }
{
    match code {
        LETTER_A..=LETTER_G => Some(Indicator::Overflow(code - LETTER_A + 1)),
        LETTER_V => Some(Indicator::Overflow(8)),
        _ => None,
    }
}

/// After a U: 1 to 8.
fn switch(code: u8) -> Option<Indicator>
    ensures { result ≡ switch_of code }
{
    match code {
        DIGIT_1..=DIGIT_8 => Some(Indicator::Switch(code - DIGIT_0)),
        _ => None,
    }
}

/// An indicator that isn't two digits.
fn lettered(first: u8, second: u8) -> Option<Indicator>
    ensures { result ≡ lettered_of first second }
{
    match first {
        LETTER_L => level(second),
        LETTER_H => halt(second),
        LETTER_O => overflow(second),
        LETTER_U => switch(second),
        LETTER_M if second == LETTER_R => Some(Indicator::Matching),
        DIGIT_1 if second == LETTER_P => Some(Indicator::FirstPage),
        _ => None,
    }
}

/// The indicator in two columns.
#[tactic(auto, unfolding(crate::specs::Indicators::indicator_of))]
fn indicator(columns: &[u8]) -> Option<Indicator>
    ensures { result ≡ indicator_of columns.now }
{
    match columns {
        [first, second] => match general(*first, *second) {
            Some(indicator) => Some(indicator),
            None => lettered(*first, *second),
        },
        _ => None,
    }
}

/// Whether a list of a column has an indicator.
fn belongs(list: IndicatorList, indicator: Indicator) -> bool
    ensures { result ≡ belongs_spec list indicator }
{
    match list {
        IndicatorList::Record => matches!(
            indicator,
            Indicator::General(1..=99) | Indicator::Halt(1..=9)
        ),
        IndicatorList::Overflow => matches!(indicator, Indicator::Overflow(1..=8)),
        IndicatorList::Switch => matches!(indicator, Indicator::Switch(1..=8)),
        IndicatorList::Total => matches!(
            indicator,
            Indicator::Level(0..=9) | Indicator::LastRecord
        ),
        IndicatorList::Resulting => matches!(
            indicator,
            Indicator::General(1..=99)
                | Indicator::Level(1..=9)
                | Indicator::LastRecord
                | Indicator::Halt(1..=9)
                | Indicator::Overflow(1..=8)
        ),
    }
}

/// The indicator in two columns, if it is one of this list; else none.
#[tactic(auto, unfolding(crate::specs::Indicators::listed))]
pub fn listed(list: IndicatorList, columns: &[u8]) -> Option<Indicator>
    ensures { result ≡ listed_spec list columns.now }
{
    let indicator = indicator(columns)?;
    if belongs(list, indicator) {
        Some(indicator)
    } else {
        None
    }
}

/// The level in two columns, 1 to 9 after this letter, as in L1 to L9 and M1 to M9. None if the columns have something else.
#[tactic(auto, unfolding(crate::specs::Indicators::level_behind))]
pub fn level_behind(letter: u8, columns: &[u8]) -> Option<u8>
    ensures { result ≡ level_behind_spec letter columns.now }
{
    match columns {
        [first, DIGIT_1..=DIGIT_9] if *first == letter => Some(columns[1] - DIGIT_0),
        _ => None,
    }
}

/// The condition in three columns: a blank or N, and then an indicator. None if they are blank or have something else.
#[tactic(auto, unfolding(crate::specs::Indicators::condition_of))]
pub fn condition(columns: &[u8]) -> Option<Condition>
    ensures { result ≡ condition_of columns.now }
{
    let (sign, rest) = columns.split_first()?;
    if *sign == BLANK || *sign == LETTER_N {
        Some(Condition {
            negated: *sign == LETTER_N,
            indicator: indicator(rest)?,
        })
    } else {
        None
    }
}
