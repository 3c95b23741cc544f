//! The indicators of a run.
ghost use Rattle.std.specs.Prelude.{◌≡◌, ℕ, ◌^◌, ◌==◌, ◌<◌, true, false, if◌then◌else◌};
ghost use Rattle.std.specs.Int.{bit_at};
ghost use Rattle.s3_operations.specs.Inner.Places.{has_place, is_set};

use crate::bits::Bits;
use crate::places::{WORD_BITS, WORDS, place_of};
use s3_lines::indicator::Indicator;
use s3_meaning::is_switch_on;

/// The indicators of a run, each by the bit at its place (`place_of`), which is 1 if it is on. A word has 64 places, its lowest bit
/// first.
#[derive(Clone, Copy)]
pub struct Indicators {
    /// The words.
    pub words: [u64; WORDS],
}

/// A word whose bits of a mask are set or cleared.
#[inline(always)]
fn with_bits(word: u64, mask: u64, to: bool) -> u64
    ensures { (bit : ℕ) → bit < 64 → (bit_at result bit == 1) ≡ (if bit_at mask bit == 1 then to else bit_at word bit == 1) }
{
    if to { word | mask } else { word & !mask }
}

impl Indicators {
    ghost use Rattle.s3_lines.specs.declared.indicator.Indicator.{Indicator};
    ghost use Rattle.s3_meaning.specs.Names.{same_indicator};
    ghost use Rattle.s3_meaning.specs.Environment.{on_at_first};
    ghost use Rattle.s3_operations.specs.Inner.Indicators.{on_in, is_settable};

    /// 1P and L0 are on, and the switches as they are set, U1 the highest bit.
    pub fn at_first(switches: u8) -> Indicators
        ensures { (other : Indicator) → on_in result other ≡ on_at_first switches other }
    {
        let mut indicators = Indicators { words: [0; WORDS] };
        indicators.turn(Indicator::Level(0), true);
        indicators.turn(Indicator::FirstPage, true);
        for number in 0..9_u8 {
            let is_on = is_switch_on(switches, number);
            indicators.set(place_of(Indicator::Switch(number)), is_on);
        }
        indicators
    }

    /// Whether the bit at a place is 1.
    #[tactic(auto, unfolding(crate::specs::Inner::Places::is_set))]
    fn is_set(&self, place: usize) -> bool
        requires { place < 1600 }
        ensures { result ≡ is_set self.now.words place }
    {
        (self.words[place / WORD_BITS] >> (place % WORD_BITS)) % 2 == 1
    }

    /// Whether an indicator is on.
    pub fn is_on(&self, indicator: Indicator) -> bool
        ensures { result ≡ on_in self.now indicator }
    {
        self.is_set(place_of(indicator))
    }

    /// Bits are set or cleared.
    #[inline(always)]
    pub fn turn_bits(&mut self, bits: Bits, to: bool)
        ensures { (place : ℕ) → is_set self.new.words place ≡ (if has_place bits place then to else is_set self.old.words place) }
    {
        self.words[bits.word] = with_bits(self.words[bits.word], bits.mask, to);
    }

    /// The bit at a place is set or cleared.
    #[inline(always)]
    pub fn set(&mut self, place: usize, to: bool)
        requires { place < 1600 }
        ensures { (other : ℕ) → is_set self.new.words other ≡ (if other == place then to else is_set self.old.words other) }
    {
        self.turn_bits(Bits::at(place), to);
    }

    /// Turns an indicator that is no switch on or off.
    pub fn turn(&mut self, indicator: Indicator, to: bool)
        requires { is_settable indicator ≡ true }
        ensures { (other : Indicator) → on_in self.new other ≡ (if same_indicator other indicator then to else on_in self.old other) }
    {
        self.turn_bits(Bits::of(indicator), to);
    }
}
