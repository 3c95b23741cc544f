//! Numbers as their digits spell them.
ghost use Rattle.std.specs.Prelude.{◌≡◌, ◌<◌, ◌≤◌, ◌^◌, ◌++◌, IfSome, OnOk, length};
ghost use Rattle.s3_cards.specs.Numbers.{in_digits, is_digit_from};
ghost use Rattle.s3_cards.specs.Inner.Numbers.{spelled_number};

use itoa::Buffer;
use std::alloc::AllocError;

/// Whether a code is one of the ten from that of 0 on.
fn is_one_of_ten(zero: u8, code: u8) -> bool
    requires { zero ≤ 246 }
    ensures { result ≡ is_digit_from zero code }
{
    zero <= code && code <= zero + 9
}

/// The number that at most nine digits spell; `None` if one of them is no digit. No digits spell 0.
///
/// `zero` is the code of 0, and the codes of 1 to 9 follow it in order: `DIGIT_0` on cards, and `b'0'` in texts.
#[tactic(auto, using(crate::proofs::NumberLemmas::none_yet, crate::proofs::NumberLemmas::number_next, crate::proofs::NumberLemmas::fits, crate::proofs::NumberLemmas::digits_wrong, crate::proofs::NumberLemmas::digits_right))]
pub fn number_spelled(zero: u8, digits: &[u8]) -> Option<u32>
    requires zero { zero ≤ 246 }
    requires short { length digits.now ≤ 9 }
    ensures value { result ≡ spelled_number zero digits.now }
    ensures below { IfSome result (λ number. number < 10 ^ length digits.now) }
{
    let mut number = 0;
    for code in digits {
        if !is_one_of_ten(zero, *code) {
            return None;
        }
        number = number * 10 + u32::from(*code - zero);
    }
    Some(number)
}

/// Appends a number to a text in decimal digits, with zeros in front up to a width; a longer number has all its digits. It is
/// refused only if memory runs out.
#[tactic(auto, using(crate::proofs::NumberLemmas::one_more_zero))]
pub fn push_number(text: &mut Vec<u8>, number: u64, width: usize) -> Result<(), AllocError>
    ensures { OnOk result (text.new.items ≡ text.old.items ++ in_digits width number) }
{
    let mut buffer = Buffer::new();
    let digits = buffer.format(number).as_bytes();
    for _zero in 0..width.saturating_sub(digits.len()) {
        text.push(b'0')?;
    }
    text.extend_from_slice(digits)
}
