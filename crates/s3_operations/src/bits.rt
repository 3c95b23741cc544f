//! The bits in the machine words of a run.
ghost use Rattle.std.specs.Prelude.{◌≡◌, ◌^◌, ◌<◌};

use crate::places::{WORD_BITS, place_of};
use s3_lines::indicator::Indicator;

/// Some places of one word; none if the mask is 0.
#[derive(Clone, Copy)]
pub struct Bits {
    /// Which word.
    pub word: usize,
    /// Its bits at these places.
    pub mask: u64,
    pub ghost within: { word < 25 },
    pub ghost fits: { mask < 2 ^ 64 },
}

impl Bits {
    ghost use Rattle.std.specs.Prelude.{◌==◌, ◌||◌, ◌/◌, ◌%◌, false, ℕ};
    ghost use Rattle.s3_operations.specs.Inner.Places.{has_place, indicator_place};

    /// No place.
    pub fn none() -> Bits
        ensures { (place : ℕ) → has_place result place ≡ false }
    {
        Bits { word: 0, mask: 0 }
    }

    /// One place.
    pub fn at(place: usize) -> Bits
        requires { place < 1600 }
        ensures word { result.word ≡ place / 64 }
        ensures mask { result.mask ≡ 2 ^ (place % 64) }
        ensures places { (other : ℕ) → has_place result other ≡ (other == place) }
    {
        Bits {
            word: place / WORD_BITS,
            mask: 1 << (place % WORD_BITS),
        }
    }

    /// The place of an indicator.
    pub fn of(indicator: Indicator) -> Bits
        ensures word { result.word ≡ indicator_place indicator / 64 }
        ensures mask { result.mask ≡ 2 ^ (indicator_place indicator % 64) }
        ensures places { (place : ℕ) → has_place result place ≡ (place == indicator_place indicator) }
    {
        Bits::at(place_of(indicator))
    }

    /// These places and others of the same word.
    pub fn with(self, other: Bits) -> Bits
        requires { other.word ≡ self.word }
        ensures word { result.word ≡ self.word }
        ensures places { (place : ℕ) → has_place result place ≡ (has_place self place || has_place other place) }
    {
        Bits {
            word: self.word,
            mask: self.mask | other.mask,
        }
    }
}
