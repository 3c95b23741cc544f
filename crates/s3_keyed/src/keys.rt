//! Keys of records.
ghost use Rattle.std.specs.Prelude.{◌≡◌, ◌≤◌, ◌<◌, ◌^◌, ℕ, length, slice_index, take, drop, nat_lt, ◌==◌, IfSome, IsTrue};
ghost use Rattle.std.specs.Ordering.{nat_cmp, ordering_then};
ghost use Rattle.s3_keyed.specs.KeyOrder.{number_of};

use byteorder::{BigEndian, ByteOrder};
use std::cmp::Ordering;

/// Spreads the bits of a word over a form: an odd number without a pattern.
const FOLD: u64 = 0xD6E8_FEB8_6659_FD93;

/// A key of at most 29 bytes, with zeros before it, so that keys of one length compare as numbers.
#[derive(Clone, Copy)]
pub struct Key {
    /// The bytes of the key, after zeros: as many as two numbers of 128 bits have.
    pub bytes: [u8; 32],
    ghost in_range: { (i : ℕ) → slice_index bytes i < 256 },
}

impl Key {
    ghost use Rattle.s3_keyed.specs.Inner.Added.{whole_number};

    /// The key that these bytes are, at most 29.
    pub fn of(key: &[u8]) -> Self
        requires { length key.now ≤ 29 }
        ensures number { number_of result.bytes ≡ number_of key.now }
        ensures short { number_of result.bytes < 256 ^ length key.now }
    {
        let mut bytes = [0; 32];
        bytes[32 - key.len()..].copy_from_slice(key);
        Key { bytes }
    }

    /// The key as a number.
    pub fn number(&self) -> KeyNumber
        ensures high { result.high ≡ number_of (take 16 self.now.bytes) }
        ensures low { result.low ≡ number_of (drop 16 self.now.bytes) }
        ensures whole { whole_number result ≡ number_of self.now.bytes }
    {
        KeyNumber {
            high: BigEndian::read_u128(&self.bytes),
            low: BigEndian::read_u128(&self.bytes[16..]),
        }
    }

    /// The key as a number of 64 bits, if it has at most eight bytes.
    pub fn short_number(&self) -> u64
        requires { number_of self.now.bytes < 256 ^ 8 }
        ensures { result ≡ number_of self.now.bytes }
    {
        BigEndian::read_u64(&self.bytes[24..])
    }

    /// How the key compares with another one of the same length.
    pub fn compare(&self, other: &Key) -> Ordering
        ensures { result ≡ nat_cmp (number_of self.now.bytes) (number_of other.now.bytes) }
    {
        self.number().compare(&other.number())
    }

    /// Whether the key is above another one of the same length.
    pub fn is_above(&self, other: &Key) -> bool
        ensures { result ≡ nat_lt (number_of other.now.bytes) (number_of self.now.bytes) }
    {
        other.compare(self) == Ordering::Less
    }

    /// Whether the key is the same as another one of the same length.
    pub fn is_same(&self, other: &Key) -> bool
        ensures { result ≡ (number_of self.now.bytes == number_of other.now.bytes) }
    {
        self.compare(other) == Ordering::Equal
    }
}

/// The number whose bytes are these, four to eight: it is put together of the first four and the last four.
pub fn few_number(key: &[u8]) -> u64
    requires some { 4 ≤ length key.now }
    requires few { length key.now ≤ 8 }
    ensures { result ≡ number_of key.now }
{
    let length = key.len();
    let first = u64::from(BigEndian::read_u32(key));
    let last = u64::from(BigEndian::read_u32(&key[length - 4..]));
    (first >> (8 * (8 - length)) << 32) + last
}

/// The number whose bytes are these, if they are four to eight.
pub fn short_number_of(key: &[u8]) -> Option<u64>
    ensures number { IfSome result (λ number. number ≡ number_of key.now) }
    ensures long { IfSome result (λ _. 4 ≤ length key.now) }
    ensures short { IfSome result (λ _. length key.now ≤ 8) }
{
    match key.len() {
        4..=8 => Some(few_number(key)),
        _ => None,
    }
}

/// Whether two texts of one length have the same bytes.
fn have_same_bytes(one: &[u8], other: &[u8]) -> bool
    requires { length one.now ≡ length other.now }
    ensures { IsTrue result → one.now ≡ other.now }
{
    for place in 0..one.len() {
        if one[place] != other[place] {
            return false;
        }
    }
    true
}

/// Whether two keys of one length are the same: compared as numbers if they have four to eight bytes.
pub fn are_same_keys(one: &[u8], other: &[u8]) -> bool
    requires { length one.now ≡ length other.now }
    ensures { IsTrue result → number_of one.now ≡ number_of other.now }
{
    let Some(number) = short_number_of(one) else {
        return have_same_bytes(one, other);
    };
    let Some(wanted) = short_number_of(other) else {
        return false;
    };
    number == wanted
}

/// A number by which nearly all keys differ, and all keys of at most eight bytes. Nothing is proved of it: a search may begin by
/// it, but no answer depends on it.
pub fn short_form(key: &[u8]) -> u64 {
    match short_number_of(key) {
        Some(number) => number,
        None => folded(key),
    }
}

/// The key's words of eight bytes, folded into one: the last eight bytes, and as many words from its front as lie before its last
/// byte. If the key has no such word, its bytes are joined.
#[inline(never)]
fn folded(key: &[u8]) -> u64 {
    let mut form = 0;
    if key.len() < 8 {
        for byte in key {
            form = (form << 8) | u64::from(*byte);
        }
        return form;
    }
    for step in 0..(key.len() - 1) / 8 {
        form = with_word(form, BigEndian::read_u64(&key[8 * step..]));
    }
    with_word(form, BigEndian::read_u64(&key[key.len() - 8..]))
}

/// A form with one word more folded in.
fn with_word(form: u64, word: u64) -> u64 {
    (form.rotate_left(23) ^ word).wrapping_mul(FOLD)
}

/// A key as a number.
#[derive(Clone, Copy, PartialEq, Eq, PartialOrd, Ord)]
pub struct KeyNumber {
    /// The first 16 of the key's 32 bytes.
    high: u128,
    /// The last 16 of the key's 32 bytes.
    low: u128,
    ghost in_range: { low < 256 ^ 16 },
}

impl KeyNumber {
    ghost use Rattle.s3_keyed.specs.Inner.Added.{whole_number};

    /// How the number compares with another one.
    fn compare(&self, other: &KeyNumber) -> Ordering
        ensures { result ≡ ordering_then (nat_cmp self.now.high other.now.high) (nat_cmp self.now.low other.now.low) }
    {
        self.high.cmp(&other.high).then(self.low.cmp(&other.low))
    }

    /// The bytes of the number, the highest first.
    fn bytes(&self) -> [u8; 32]
        ensures { number_of result ≡ whole_number self.now }
    {
        let mut bytes = [0; 32];
        let (high, low) = bytes.split_at_mut(16);
        BigEndian::write_u128(high, self.high);
        BigEndian::write_u128(low, self.low);
        bytes
    }

    /// The key that has this number.
    pub fn key(&self) -> Key
        ensures { number_of result.bytes ≡ whole_number self.now }
    {
        let bytes = self.bytes();
        Key { bytes }
    }
}

/// A key with a number in front by which nearly all keys differ. Nothing is proved of it, so a search may begin by it, but
/// no answer rests on it.
#[derive(Clone, Copy)]
pub struct QuickKey {
    /// The key's first eight bytes as a number, or all bytes of a shorter key.
    head: u64,
    key: Key,
}

impl QuickKey {
    /// The quick form of a key of so many bytes.
    pub fn of(key: &Key, key_length: u8) -> Self {
        let start = 24.min(32_usize.saturating_sub(usize::from(key_length)));
        QuickKey {
            head: BigEndian::read_u64(&key.bytes[start..]),
            key: *key,
        }
    }

    /// The key's first eight bytes as a number, or all bytes of a shorter key.
    pub fn head(&self) -> u64 {
        self.head
    }

    /// Whether the key isn't above another one.
    pub fn is_up_to(&self, other: &QuickKey) -> bool {
        self.head < other.head || self.head == other.head && !self.key.is_above(&other.key)
    }
}
