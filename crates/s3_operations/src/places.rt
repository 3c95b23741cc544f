//! The places of indicators among the bits of a run's words.
ghost use Rattle.std.specs.Prelude.{◌≡◌, ◌+◌, ◌*◌, ◌<◌, min, nat_lt, if◌then◌else◌};
ghost use Rattle.s3_operations.specs.Inner.Places.{indicator_place};

use s3_lines::indicator::Indicator;

/// How many words have a bit for each indicator.
pub const WORDS: usize = 25;

/// How many places a word has.
pub const WORD_BITS: usize = 64;

/// The place of the indicator of a number.
fn place_of_number(number: u8) -> usize
    ensures { result ≡ (if nat_lt number 41 then number else (if nat_lt number 256 then 64 + number else 324 + 5 * number)) }
{
    if number < 41 {
        usize::from(number)
    } else {
        64 + usize::from(number)
    }
}

/// The place of a level.
fn place_of_level(number: u8) -> usize
    ensures { result ≡ (if nat_lt number 10 then 41 + number else 320 + 5 * number) }
{
    if number < 10 {
        41 + usize::from(number)
    } else {
        320 + 5 * usize::from(number)
    }
}

/// The place of a halt indicator.
fn place_of_halt(number: u8) -> usize
    ensures { result ≡ (if nat_lt number 10 then 54 + number else 321 + 5 * number) }
{
    if number < 10 {
        54 + usize::from(number)
    } else {
        321 + 5 * usize::from(number)
    }
}

/// The place of a switch: from U8 on it is that of U8.
fn place_of_switch(number: u8) -> usize
    ensures { result ≡ 323 + 5 * min number 8 }
{
    323 + 5 * usize::from(number).min(8)
}

/// The place of an indicator, below 1,600. Two indicators have the same place if they are the same, or switches from U8 on. A
/// program's usual indicators have the places of the first word.
#[tactic(auto, unfolding(crate::specs::Inner::Places::indicator_place))]
pub fn place_of(indicator: Indicator) -> usize
    ensures place { result ≡ indicator_place indicator }
    ensures within { result < 1600 }
{
    match indicator {
        Indicator::General(number) => place_of_number(number),
        Indicator::Level(number) => place_of_level(number),
        Indicator::LastRecord => 51,
        Indicator::Matching => 52,
        Indicator::FirstPage => 53,
        Indicator::Halt(number) => place_of_halt(number),
        Indicator::Overflow(number) => 322 + 5 * usize::from(number),
        Indicator::Switch(number) => place_of_switch(number),
    }
}
