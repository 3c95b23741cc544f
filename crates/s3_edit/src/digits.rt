//! Runs of digits and of blanks.
ghost use Rattle.std.specs.Prelude.{◌≡◌, ℕ, ◌-◌, ◌/◌, ◌^◌, ◌<◌, ◌≤◌, ◌++◌, drop, length, replicate, slice_index};
ghost use Rattle.s3_cards.specs.declared.ebcdic.TheConstants.{BLANK};
ghost use Rattle.s3_decimal.specs.Records.{digit_at};
ghost use Rattle.s3_edit.specs.Picture.{digit_character, suppressed_at};

use s3_cards::ebcdic::{BLANK, DIGIT_0};

/// Makes the first `count` characters blank.
pub fn blank(count: usize, out: &mut [u8])
    requires { count ≤ length out.old }
    ensures { out.new ≡ replicate count BLANK ++ drop count out.old }
{
    out[..count].fill(BLANK);
}

/// Writes the last `count` digits of a number up to `end`, and gives what is left of the number.
pub fn edit_digits(number: u64, count: usize, end: usize, out: &mut [u8]) -> u64
    requires begins { count ≤ end }
    requires ends { end ≤ length out.old }
    ensures left { result ≡ number / 10 ^ count }
    ensures digits { (place : ℕ) → place < count → slice_index out.new (end - 1 - place)
        ≡ digit_character (digit_at place number) }
    ensures rest { (i : ℕ) → end ≤ i → slice_index out.new i ≡ slice_index out.old i }
{
    let mut rest = number;
    for place in 0..count {
        out[end - 1 - place] = DIGIT_0 + (rest % 10) as u8;
        rest /= 10;
    }
    rest
}

/// Writes a number up to `end`, blanks in place of its leading zeros.
pub fn edit_suppressed(number: u64, end: usize, out: &mut [u8])
    requires { end ≤ length out.old }
    ensures picture { (place : ℕ) → place < end → slice_index out.new (end - 1 - place)
        ≡ suppressed_at number place }
    ensures rest { (i : ℕ) → end ≤ i → slice_index out.new i ≡ slice_index out.old i }
{
    let mut rest = number;
    let mut place = 0;
    'digits: while rest > 0 && place < end {
        out[end - 1 - place] = DIGIT_0 + (rest % 10) as u8;
        rest /= 10;
        place += 1;
    }
    blank(end - place, out);
}
