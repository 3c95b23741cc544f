//! Where a key lies among the entries of one sector of an index.
ghost use Rattle.std.specs.Prelude.{◌≡◌, ◌≤◌, ◌<◌, ◌+◌, ◌*◌, ◌/◌, ◌^◌, ℕ, length, nat_lt, IfSome};
ghost use Rattle.s3_keyed.specs.KeyOrder.{number_of};
ghost use Rattle.s3_keyed.specs.Inner.KeyOrder.{IsAscending};
ghost use Rattle.s3_keyed.specs.Inner.Shape.{entry_here};
ghost use Rattle.s3_keyed.specs.Inner.Sought.{sought_key, IsSuited, StandsAs};

use crate::index_sector::{compare_entry, is_key_of, key_number, number_at, number_in};
use crate::keys::Key;
use byteorder::{BigEndian, ByteOrder};
use std::cmp::Ordering;

/// Where a key lies as to the entries of a sector.
#[derive(Clone, Copy)]
pub enum Standing {
    /// Before all of them.
    Before,
    /// Among them, with the number of its record if one has it.
    Within(Option<u32>),
    /// After all of them.
    Behind,
}

/// A key that is sought, in the form in which the keys of entries are compared with it.
#[derive(Clone, Copy)]
enum Sought<'a> {
    /// A key of four to eight bytes, by its number.
    Number(u64),
    /// A key of any other length, by its bytes.
    Bytes(&'a Key),
}

/// Whether the key of entry `j` of a sector is below the one that is sought.
fn is_entry_below(sector: &[u8; 256], j: usize, key_length: usize, sought: &Sought<'_>) -> bool
    requires short { key_length ≤ 29 }
    requires inside { j < 256 / (key_length + 4) }
    requires suited { IsSuited key_length sought.now }
    ensures { result ≡ nat_lt (entry_here key_length sector.now j).key (sought_key sought.now) }
{
    match *sought {
        Sought::Number(number) => key_number(sector, j, key_length) < number,
        Sought::Bytes(key) => compare_entry(sector, j, key_length, key) == Ordering::Less,
    }
}

/// How many of the first so many entries of a sector have a key below the one that is sought.
#[inline(always)]
fn count_below(sector: &[u8; 256], entries: usize, key_length: usize, sought: &Sought<'_>) -> usize
    requires short { key_length ≤ 29 }
    requires inside { entries ≤ 256 / (key_length + 4) }
    requires suited { IsSuited key_length sought.now }
    requires ascending { IsAscending (entry_here key_length sector.now) entries }
    ensures within { result ≤ entries }
    ensures below { (i : ℕ) → i < result → (entry_here key_length sector.now i).key < sought_key sought.now }
    ensures from { (i : ℕ) → result ≤ i → i < entries → sought_key sought.now ≤ (entry_here key_length sector.now i).key }
{
    let mut low = 0;
    let mut high = entries;
    'halve: while low < high {
        let middle = low + (high - low) / 2;
        if is_entry_below(sector, middle, key_length, sought) {
            low = middle + 1;
        } else {
            high = middle;
        }
    }
    low
}

/// How many of the first so many entries of a sector have a key below this one, by numbers if it has four to eight bytes.
fn entries_below(sector: &[u8; 256], entries: usize, key_length: usize, key: &Key) -> usize
    requires short { key_length ≤ 29 }
    requires inside { entries ≤ 256 / (key_length + 4) }
    requires short_key { number_of key.now.bytes < 256 ^ key_length }
    requires ascending { IsAscending (entry_here key_length sector.now) entries }
    ensures within { result ≤ entries }
    ensures below { (i : ℕ) → i < result → (entry_here key_length sector.now i).key < number_of key.now.bytes }
    ensures from { (i : ℕ) → result ≤ i → i < entries → number_of key.now.bytes ≤ (entry_here key_length sector.now i).key }
{
    match key_length {
        4..=8 => {
            let number = Sought::Number(key.short_number());
            count_below(sector, entries, key_length, &number)
        }
        _ => count_below(sector, entries, key_length, &Sought::Bytes(key)),
    }
}

/// Where a key is among the first so many entries of a sector, at least one, by binary search.
pub fn find_entry(sector: &[u8; 256], entries: usize, key_length: usize, key: &Key) -> Standing
    requires short { key_length ≤ 29 }
    requires some { 0 < entries }
    requires inside { entries ≤ 256 / (key_length + 4) }
    requires short_key { number_of key.now.bytes < 256 ^ key_length }
    requires ascending { IsAscending (entry_here key_length sector.now) entries }
    ensures { StandsAs (entry_here key_length sector.now) entries (number_of key.now.bytes) result }
{
    let below = entries_below(sector, entries, key_length, key);
    if below == entries {
        return Standing::Behind;
    }
    if is_key_of(sector, below, key_length, key) {
        return Standing::Within(Some(number_in(sector, below, key_length)));
    }
    if below == 0 {
        return Standing::Before;
    }
    Standing::Within(None)
}

/// The record number in the one of `count` entries that has a key of four to eight bytes; `None` if none has it.
pub fn number_with(bytes: &[u8], count: usize, key_length: usize, key: u64) -> Option<u32>
    requires long { 4 ≤ key_length }
    requires short { key_length ≤ 8 }
    requires whole { length bytes.now ≡ count * (key_length + 4) }
    ensures { IfSome result (λ number. (j : ℕ) × (j < count) × (entry_here key_length bytes.now j ≡ record { key = key; number = number })) }
{
    let width = key_length + 4;
    for j in 0..count {
        let entry = &bytes[j * width..j * width + width];
        if number_at(entry, key_length) == key {
            return Some(BigEndian::read_u32(&entry[key_length..]));
        }
    }
    None
}
