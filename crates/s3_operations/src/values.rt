//! The values of a run.
ghost use Rattle.std.specs.Prelude.{◌≡◌, ◌<◌, None, length, Some, option_map, slice_get};
ghost use Rattle.s3_operations.specs.Inner.Held.{Fits, digits_and_decimals, number_at};

use crate::division::LeftOver;
use crate::indicators::Indicators;
use crate::texts::Texts;
use s3_decimal::{Dec, Form};

/// What a run computes with: the numbers and texts of its fields and literals, its indicators, and what its last division leaves.
#[derive(Drop)]
pub struct Values {
    /// The numbers, by slot, in units of their last decimals; 0 for a field of characters.
    pub numbers: Vec<i64>,
    /// How many digits and decimals each has.
    pub forms: Vec<Form>,
    /// The texts, by slot; empty for a number.
    pub texts: Texts,
    /// The indicators.
    pub indicators: Indicators,
    /// What the last division leaves, if it leaves something.
    pub division: Option<LeftOver>,
}

impl Values {
    /// The number of a slot, in its form.
    pub fn number(&self, slot: usize) -> Dec
        requires fit { Fits self.now.numbers.items self.now.forms.items }
        requires count { length self.now.numbers.items ≡ length self.now.forms.items }
        requires within { slot < length self.now.numbers.items }
        ensures value { result.value ≡ number_at self.now.numbers.items slot }
        ensures form { option_map digits_and_decimals (slice_get self.now.forms.items slot) ≡ Some (result.digits, result.decimals) }
    {
        let form = self.forms[slot];
        Dec {
            value: self.numbers[slot],
            digits: form.digits,
            decimals: form.decimals,
        }
    }

    /// What a division leaves is forgotten.
    #[inline(never)]
    pub fn forget_remainder(&mut self)
        ensures { self.new ≡ record self.old { division = None } }
    {
        self.division = None;
    }
}
