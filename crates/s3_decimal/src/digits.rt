//! Digits and signs as the bytes of a record have them.
ghost use Rattle.std.specs.Prelude.{◌≡◌, ◌+◌, ◌*◌, ◌^◌, ◌<◌, ◌≤◌, ◌||◌, nat_lt, IfOk, IfErr, is_err};
ghost use Rattle.s3_decimal.specs.Exact.{signed};
ghost use Rattle.s3_decimal.specs.Records.{cleaned};

use crate::number::Dec;
use crate::scale::with_sign;

/// The four bits of the minus sign.
pub const MINUS: u8 = 0xd;

/// The four bits of the plus sign as it is written; read, all others than those of the minus sign are plus.
pub const PLUS: u8 = 0xf;

/// The refusal of a field that isn't a number: one of its digits is above 9.
#[derive(Clone, Copy, Debug)]
pub struct BadDigit {
    /// The number of the field, with 0 for each bad digit.
    pub number: Dec,
}

/// The digits of a field that are read so far, from the left.
#[derive(Clone, Copy)]
pub struct Reading {
    /// The number that they spell, bad ones as 0.
    pub magnitude: u64,
    /// Whether one of them is above 9.
    pub bad: bool,
}

impl Reading {
    /// Reads one digit more, 0 for one above 9.
    pub fn push(&mut self, digit: u8)
        requires { self.old.magnitude < 10 ^ 15 }
        ensures magnitude { self.new.magnitude ≡ self.old.magnitude * 10 + cleaned digit }
        ensures bad { self.new.bad ≡ (self.old.bad || nat_lt 9 digit) }
    {
        self.magnitude *= 10;
        if digit < 10 {
            self.magnitude += u64::from(digit);
        } else {
            self.bad = true;
        }
    }

    /// The field's number, of this sign and shape.
    pub fn finish(self, negative: bool, digits: u8, decimals: u8) -> Result<Dec, BadDigit>
        requires has_digits { 1 ≤ digits }
        requires within_longest { digits ≤ 15 }
        requires few_decimals { decimals ≤ 9 }
        requires decimals_within { decimals ≤ digits }
        requires within_digits { self.magnitude < 10 ^ digits }
        ensures fault { is_err result ≡ self.bad }
        ensures good { IfOk result (λ n. (n.value ≡ signed negative self.magnitude)
            × (n.digits ≡ digits) × (n.decimals ≡ decimals)) }
        ensures bad { IfErr result (λ e. (e.number.value ≡ signed negative self.magnitude)
            × (e.number.digits ≡ digits) × (e.number.decimals ≡ decimals)) }
    {
        let number = Dec {
            value: with_sign(negative, self.magnitude),
            digits,
            decimals,
        };
        if self.bad {
            Err(BadDigit { number })
        } else {
            Ok(number)
        }
    }
}
