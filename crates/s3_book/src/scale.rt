//! Drawings of a thousand units.
ghost use Rattle.std.specs.Prelude.{◌≡◌};
ghost use Rattle.s3_book.specs.Inner.Scale.{begin as begin_spec, end as end_spec, fits as fits_spec, lane as lane_spec, scaled as scaled_spec, span as span_spec, width as width_spec};

use s3_cards::LevelId;

/// The narrowest bar that can be seen.
const NARROWEST: u64 = 2;

/// The narrowest bar of a job or a halt.
const LEAST: u64 = 6;

/// The last place where such a bar can begin.
const LAST: u64 = 994;

/// The width of a letter of a label.
const LETTER: u64 = 11;

/// The place of a number on a line from 0 to a whole, in thousandths.
#[tactic(auto, using(crate::proofs::ScaleLemmas::most_thousandths))]
pub fn scaled(whole: u64, number: u64) -> u64
    ensures { result ≡ scaled_spec whole number }
{
    let thousandths = u128::from(number.min(whole)) * 1_000 / u128::from(whole.max(1));
    thousandths as u64
}

/// How wide a part of a whole is, in thousandths, and never too narrow to be seen.
pub fn width(whole: u64, number: u64) -> u64
    ensures { result ≡ width_spec whole number }
{
    scaled(whole, number).max(NARROWEST)
}

/// Where a bar on the line of time begins, given the end of the bar before it: at its turn, or later, so that both are seen.
pub fn begin(whole: u64, edge: u64, number: u64) -> u64
    ensures { result ≡ begin_spec whole edge number }
{
    scaled(whole, number).max(edge).min(LAST)
}

/// How wide a bar is that begins at a place and ends at a turn.
pub fn span(whole: u64, left: u64, number: u64) -> u64
    ensures { result ≡ span_spec whole left number }
{
    scaled(whole, number).saturating_sub(left).max(LEAST)
}

/// Where a bar ends that begins where `begin` says and ends at a turn.
pub fn end(whole: u64, edge: u64, first: u64, last: u64) -> u64
    ensures { result ≡ end_spec whole edge first last }
{
    let left = begin(whole, edge, first);
    scaled(whole, last).max(left + LEAST)
}

/// Whether a label of so many letters fits into a bar of which a part is taken.
pub fn fits(wide: u64, taken: u64, letters: u64) -> bool
    ensures { result ≡ fits_spec wide taken letters }
{
    letters <= wide.saturating_sub(taken) / LETTER
}

/// Where the bars of a level are, from the top.
pub fn lane(level: LevelId) -> u64
    ensures { result ≡ lane_spec level }
{
    match level {
        LevelId::One => 0,
        LevelId::Two => 34,
    }
}
