//! Division, with its remainder.
ghost use Rattle.std.specs.Prelude.{◌≡◌, ◌↔◌, IfOk, IsErr, pos};
ghost use Rattle.s3_decimal.specs.Exact.{exact, quotient_of, remainder_of, stored};
ghost use Rattle.s3_decimal.specs.declared.rounding.Rounding.TheVariants.{Truncate};

use crate::number::{Dec, Form};
use crate::rounding::Rounding;
use crate::scale::{kept, left_over, magnitude_at, store, whole_units, wide_with_sign};

/// The divisor is zero.
#[derive(Clone, Copy, Debug, PartialEq, Eq)]
pub struct ZeroDivisor;

/// The quotient and the remainder of a division.
#[derive(Clone, Copy, Debug, PartialEq, Eq)]
pub struct Division {
    /// The quotient as its field keeps it.
    pub quotient: Dec,
    /// The dividend less the divisor times the quotient cut to its decimals, as the field of the remainder keeps it.
    pub remainder: Dec,
}

/// The quotient and the remainder, each as a field of its form keeps it; `ZeroDivisor` for a divisor of zero.
///
/// The remainder is the dividend less the divisor times the quotient cut to the decimals of its form. All high digits
/// of that quotient count, also those that its field loses, whatever the quotient's rounding; the remainder itself is
/// cut.
pub fn div_mvr(
    dividend: Dec,
    divisor: Dec,
    quotient: Form,
    rounding: Rounding,
    remainder: Form,
) -> Result<Division, ZeroDivisor>
    ensures zero { IsErr result ↔ (divisor.value ≡ pos 0) }
    ensures quotient_value { IfOk result (λ d. d.quotient.value
        ≡ stored rounding quotient.digits quotient.decimals
        (quotient_of (exact dividend.value dividend.decimals) (exact divisor.value divisor.decimals))) }
    ensures quotient_digits { IfOk result (λ d. d.quotient.digits ≡ quotient.digits) }
    ensures quotient_decimals { IfOk result (λ d. d.quotient.decimals ≡ quotient.decimals) }
    ensures remainder_value { IfOk result (λ d. d.remainder.value
        ≡ stored Truncate remainder.digits remainder.decimals
        (remainder_of quotient.decimals (exact dividend.value dividend.decimals)
        (exact divisor.value divisor.decimals))) }
    ensures remainder_digits { IfOk result (λ d. d.remainder.digits ≡ remainder.digits) }
    ensures remainder_decimals { IfOk result (λ d. d.remainder.decimals ≡ remainder.decimals) }
{
    if divisor.value == 0 {
        return Err(ZeroDivisor);
    }
    let parts = magnitude_at(dividend, divisor.decimals + quotient.decimals);
    let unit = magnitude_at(divisor, dividend.decimals);
    let count = whole_units(parts, unit, rounding);
    let negative = dividend.is_negative() != divisor.is_negative();
    let left = wide_with_sign(dividend.is_negative(), left_over(parts, unit));
    let decimals = dividend.decimals + divisor.decimals + quotient.decimals;
    Ok(Division {
        quotient: kept(negative, count, quotient),
        remainder: store(left, decimals, remainder, Rounding::Truncate),
    })
}
