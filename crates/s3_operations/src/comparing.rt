//! COMP. Codes are compared as numbers, up to eight at a time: a text of N to 2N codes by its first N and its last N.
ghost use Rattle.std.specs.Prelude.{◌≡◌, ◌≤◌, ◌*◌, ◌-◌, ◌++◌, length, replicate, take};
ghost use Rattle.std.specs.Ordering.{nat_cmp};
ghost use Rattle.std.specs.Cmp.Lexicographic.{slice_cmp};
ghost use Rattle.s3_meaning.specs.Calculating.{text_order as text_order_spec};
ghost use Rattle.s3_cards.specs.declared.ebcdic.TheConstants.{BLANK};
ghost use Rattle.s3_operations.specs.Inner.Words.{number_of};

use crate::laying::part;
use s3_cards::ebcdic::BLANK;
use std::cmp::Ordering;

/// The most codes of a text that is compared by its ends.
const SHORT: usize = 16;

/// Blanks, as many as such a text has codes.
const BLANKS: [u8; SHORT] = [BLANK; SHORT];

/// Up to eight codes with zeros before them, eight in all.
fn widened<const N: usize>(codes: &[u8; N]) -> [u8; 8]
    requires { N ≤ 8 }
    ensures { result ≡ replicate (8 - N) 0 ++ codes.now }
{
    let mut digits = [0; 8];
    if let Some(last) = digits.last_chunk_mut::<N>() {
        *last = *codes;
    }
    digits
}

/// The number that up to eight codes make, the first of them the greatest.
fn number<const N: usize>(codes: &[u8; N]) -> u64
    requires { N ≤ 8 }
    ensures { result ≡ number_of codes.now }
{
    u64::from_be_bytes(widened(codes))
}

/// The order of up to eight codes, the first of two texts.
fn code_order<const N: usize>(left: &[u8], right: &[u8]) -> Ordering
    requires few { N ≤ 8 }
    requires left { N ≤ length left.now }
    requires right { N ≤ length right.now }
    ensures { result ≡ slice_cmp nat_cmp (take N left.now) (take N right.now) }
{
    number(&part::<N>(left, 0)).cmp(&number(&part::<N>(right, 0)))
}

/// The order of two texts as long as each other, by their first and by their last codes, some of them maybe twice.
fn order_by_ends<const N: usize>(left: &[u8], right: &[u8]) -> Ordering
    requires few { N ≤ 8 }
    requires same { length left.now ≡ length right.now }
    requires reaches { N ≤ length left.now }
    requires covers { length left.now ≤ 2 * N }
    ensures { result ≡ slice_cmp nat_cmp left.now right.now }
{
    let order = code_order::<N>(left, right);
    if order.is_ne() {
        return order;
    }
    let last = left.len() - N;
    code_order::<N>(&left[last..], &right[last..])
}

/// The order of two texts of up to sixteen codes, as long as each other.
fn short_order(left: &[u8], right: &[u8]) -> Ordering
    requires few { length left.now ≤ 16 }
    requires same { length left.now ≡ length right.now }
    ensures { result ≡ slice_cmp nat_cmp left.now right.now }
{
    match left.len() {
        0 => Ordering::Equal,
        1 => order_by_ends::<1>(left, right),
        2..=3 => order_by_ends::<2>(left, right),
        4..=7 => order_by_ends::<4>(left, right),
        _ => order_by_ends::<8>(left, right),
    }
}

/// The order of two texts as long as each other.
#[inline(never)]
fn order_of_same(left: &[u8], right: &[u8]) -> Ordering
    requires { length left.now ≡ length right.now }
    ensures { result ≡ slice_cmp nat_cmp left.now right.now }
{
    let mut ahead = left;
    let mut others = right;
    while ahead.len() > SHORT {
        let order = code_order::<8>(ahead, others);
        if order.is_ne() {
            return order;
        }
        ahead = &ahead[8..];
        others = &others[8..];
    }
    short_order(ahead, others)
}

/// The order of blanks and of a text as long as they are.
fn blank_order(text: &[u8]) -> Ordering
    ensures { result ≡ slice_cmp nat_cmp (replicate (length text.now) BLANK) text.now }
{
    let mut ahead = text;
    while ahead.len() > SHORT {
        let order = code_order::<8>(&BLANKS, ahead);
        if order.is_ne() {
            return order;
        }
        ahead = &ahead[8..];
    }
    short_order(&BLANKS[..ahead.len()], ahead)
}

/// The order of two texts by all their codes, the shorter one padded with blanks.
#[inline(never)]
fn whole_order(left: &[u8], right: &[u8]) -> Ordering
    ensures { result ≡ text_order_spec left.now right.now }
{
    let common = left.len().min(right.len());
    let order = order_of_same(&left[..common], &right[..common]);
    if order.is_ne() {
        return order;
    }
    if common < left.len() {
        blank_order(&left[common..]).reverse()
    } else {
        blank_order(&right[common..])
    }
}

/// The order of two texts by their codes, the shorter one padded with blanks. Most texts differ in their first code, and most of the
/// others are as long as each other.
pub fn text_order(left: &[u8], right: &[u8]) -> Ordering
    ensures { result ≡ text_order_spec left.now right.now }
{
    if left.len() > 0 && right.len() > 0 {
        let order = code_order::<1>(left, right);
        if order.is_ne() {
            return order;
        }
    }
    if left.len() == right.len() {
        return order_of_same(left, right);
    }
    whole_order(left, right)
}
