//! Zero, the entries of resulting indicators, and a field that gets a number.
ghost use Rattle.std.specs.Prelude.{◌≡◌, true, Some};
ghost use Rattle.s3_meaning.specs.Environment.{put_number};
ghost use Rattle.s3_meaning.specs.Source.{digits_of, decimals_of};
ghost use Rattle.s3_program.specs.Inner.Stands.{source_named};
ghost use Rattle.s3_program.specs.Inner.Tables.{meaning_at, name_of};
ghost use Rattle.s3_operations.specs.Inner.Fits.{tables, is_number_field};
ghost use Rattle.s3_operations.specs.Inner.Held.{IsSound, Changes};

use crate::values::Values;
use s3_decimal::Dec;
use s3_program::program::{Program, Reference};

/// The number 0.
pub const ZERO: Dec = Dec {
    value: 0,
    digits: 1,
    decimals: 0,
};

/// The place of the entry for plus in 54-59 and 65-70, and of that for high.
pub const PLUS_ENTRY: usize = 0;

/// The place of the entry for minus, and of that for low.
pub const MINUS_ENTRY: usize = 1;

/// The place of the entry for zero, and of that for equal.
pub const ZERO_ENTRY: usize = 2;

impl Values {
    /// The field of a slot gets a number of its form.
    pub fn put_number(&mut self, program: &Program, slot: usize, number: Dec)
        requires sound { IsSound program.now self.old }
        requires fits { is_number_field (Some (meaning_at (tables program.now) (Reference.Field slot))) ≡ true }
        requires digits { number.digits ≡ digits_of (source_named program.now) (name_of (tables program.now) (Reference.Field slot)) }
        requires decimals { number.decimals ≡ decimals_of (source_named program.now) (name_of (tables program.now) (Reference.Field slot)) }
        ensures change { Changes program.now self.old self.new (λ source. put_number (name_of (tables program.now) (Reference.Field slot)) number.value) }
        ensures texts { self.new.texts ≡ self.old.texts }
        ensures indicators { self.new.indicators ≡ self.old.indicators }
        ensures division { self.new.division ≡ self.old.division }
    {
        self.numbers[slot] = number.value;
    }
}
