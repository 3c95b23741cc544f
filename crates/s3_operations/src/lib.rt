//! The values of a job: numbers and texts of fields and literals by slot, indicators, and the remainder of the last division.
//!
//! Proved:
//!
//! - `Values::new` and `begin_again` begin as the reference model's first environment of a job. Zero and the literals of its cards
//!   follow its fields.
//! - `number`, `put_number` and `forget_remainder` keep of a number what the reference model keeps. `Texts::text`, `put`, `copy`,
//!   `put_number` and `clear` keep each text in the place of its slot.
//! - `place_of`: each indicator has a place of its own; switches from U8 on share that of U8.
//! - `Indicators::is_on`, `turn` and `set`: an indicator is on if the bit at its place is 1, and a call changes only its own.
//!   `turn_bits` changes several of a word.
//! - `Values::turn`, `turn_levels`, `raise_levels` and `turn_last_record_on` turn the cycle's indicators as the reference model does.
//! - `key_of` and `zoned_key`: what a CHAIN seeks is what the reference model seeks.
//! - `text_order`: texts are ordered as the reference model orders them.
//! - `lay` and `lay_within`: bytes that are laid over others are there unchanged.
#![tactic(auto)]

pub mod beginning;
pub mod bits;
pub mod chaining;
pub mod comparing;
pub mod constants;
pub mod division;
pub mod indicating;
pub mod indicators;
pub mod laying;
pub mod numbers;
pub mod places;
pub mod texts;
pub mod values;
