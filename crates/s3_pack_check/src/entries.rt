//! The first entry in error of an index that isn't good.
ghost use Rattle.std.specs.Prelude.{◌≡◌, ◌≤◌, ◌*◌, ◌/◌, ◌%◌};
ghost use Rattle.s3_store.specs.Bytes.{part};
ghost use Rattle.s3_slots.specs.Slots.{record_sectors as record_sectors_spec, entries_per_sector as entries_spec};
ghost use Rattle.s3_keyed.specs.Index.{entry_place as entry_place_spec, layout_of};
ghost use Rattle.s3_pack_check.specs.Inner.Entries.{is_below as is_below_spec, entry_key, entry_number as entry_number_spec, is_first_or_above as is_first_or_above_spec, has_key_of as has_key_spec, has_record as has_record_spec, flaw_of as flaw_spec, first_fault as first_fault_spec};

use byteorder::{BigEndian, ByteOrder};
use s3_labels::FileLabel;

/// What is wrong with an entry of an index. Records are counted from 1.
#[derive(Clone, Copy)]
pub enum EntryFlaw {
    /// Its key isn't above the key of the entry before it.
    Order,
    /// It names this record, which the file doesn't have.
    Record(u32),
    /// Its key isn't that of this record, which it names.
    Key(u32),
}

/// An entry of an index with which something is wrong.
#[derive(Clone, Copy)]
pub struct WrongEntry {
    /// The place of the entry in the index, from 0.
    pub place: u32,
    /// What is wrong with it.
    pub flaw: EntryFlaw,
}

/// Whether a key comes before another one of the same length, by its bytes.
fn is_below(key: &[u8], other: &[u8]) -> bool
    ensures { result ≡ is_below_spec key.now other.now }
{
    match (key.split_first(), other.split_first()) {
        (_, None) => false,
        (None, Some(_)) => true,
        (Some((first, rest)), Some((other_first, other_rest))) => {
            first < other_first || (first == other_first && is_below(rest, other_rest))
        }
    }
}

/// The bytes from a place on, so many, or those that there are.
fn part_of(bytes: &[u8], at: usize, width: usize) -> &[u8]
    ensures { result.now ≡ part bytes.now at width }
{
    let rest = &bytes[at.min(bytes.len())..];
    &rest[..width.min(rest.len())]
}

/// How many sectors of a file lie before its index.
#[tactic(auto, using(s3_slots::proofs::SlotLemmas::few_sectors))]
fn record_sectors(capacity: u32, record_length: u16) -> u64
    ensures value { result ≡ record_sectors_spec capacity record_length }
    ensures few { result ≤ 1099511627776 }
{
    (u64::from(capacity) * u64::from(record_length) + 255) / 256
}

/// How many entries of an index a sector has.
fn entries_per_sector(key_length: u8) -> u64
    requires { key_length ≤ 29 }
    ensures value { result ≡ entries_spec key_length }
    ensures some { 1 ≤ result }
    ensures few { result ≤ 64 }
{
    256 / (u64::from(key_length) + 4)
}

/// The sector of the index that has entry `i`, both from 0.
#[tactic(auto, using(crate::proofs::Places::row_few))]
fn row_of(i: u32, per_sector: u64) -> u64
    requires { 1 ≤ per_sector }
    ensures value { result ≡ i / per_sector }
    ensures few { result ≤ 4294967295 }
{
    u64::from(i) / per_sector
}

/// Where in its sector entry `i`, from 0, begins.
#[tactic(auto, using(crate::proofs::Places::column_few))]
fn column_of(i: u32, per_sector: u64, width: u64) -> u64
    requires some { 1 ≤ per_sector }
    requires few { per_sector ≤ 64 }
    requires width { width ≤ 33 }
    ensures value { result ≡ i % per_sector * width }
    ensures few { result ≤ 2112 }
{
    u64::from(i) % per_sector * width
}

/// Where entry `i` of the index, from 0, begins in the bytes of the file.
fn entry_place(label: &FileLabel, i: u32) -> u64
    requires { label.now.key_length ≤ 29 }
    ensures value { result ≡ entry_place_spec (layout_of label.now) i }
    ensures few { result ≤ 1125899906842624 }
{
    let width = u64::from(label.key_length) + 4;
    let per_sector = entries_per_sector(label.key_length);
    let records = record_sectors(label.capacity, label.record_length);
    256 * (records + row_of(i, per_sector)) + column_of(i, per_sector, width)
}

/// The key in entry `i` of the index, from 0.
fn key_of_entry<'a>(label: &FileLabel, bytes: &'a [u8], i: u32) -> &'a [u8]
    requires { label.now.key_length ≤ 29 }
    ensures { result.now ≡ entry_key label.now bytes.now i }
{
    part_of(
        bytes,
        entry_place(label, i) as usize,
        usize::from(label.key_length),
    )
}

/// Whether the key of entry `i`, from 0, is above the key of the entry before it, if there is one.
fn is_first_or_above(label: &FileLabel, bytes: &[u8], i: u32) -> bool
    requires { label.now.key_length ≤ 29 }
    ensures { result ≡ is_first_or_above_spec label.now bytes.now i }
{
    i == 0
        || is_below(
            key_of_entry(label, bytes, i - 1),
            key_of_entry(label, bytes, i),
        )
}

/// Where record `i`, from 0, begins in the bytes of the file.
#[tactic(auto, using(crate::proofs::Places::product_few))]
fn record_place(i: u32, record_length: u16) -> usize
    ensures value { result ≡ i * record_length }
    ensures few { result ≤ 281470681677825 }
{
    i as usize * usize::from(record_length)
}

/// The number of the record that entry `i` names, from 1; 0 if the entry isn't within the file.
fn entry_number(label: &FileLabel, bytes: &[u8], i: u32) -> u32
    requires { label.now.key_length ≤ 29 }
    ensures { result ≡ entry_number_spec label.now bytes.now i }
{
    let at = entry_place(label, i) as usize + usize::from(label.key_length);
    if bytes.len() < at + 4 {
        return 0;
    }
    BigEndian::read_u32(&bytes[at..])
}

/// Whether the file has a record of this number, from 1.
fn has_record(label: &FileLabel, number: u32) -> bool
    ensures { result ≡ has_record_spec label.now number }
{
    1 <= number && number <= label.count
}

/// Whether entry `i` has the key of the record of this number.
fn has_key_of(label: &FileLabel, bytes: &[u8], number: u32, i: u32) -> bool
    requires key { label.now.key_length ≤ 29 }
    requires start { 1 ≤ label.now.key_start }
    requires number { 1 ≤ number }
    ensures { result ≡ has_key_spec label.now bytes.now number i }
{
    let start = usize::from(label.key_start) - 1;
    let at = record_place(number - 1, label.record_length) + start;
    part_of(bytes, at, usize::from(label.key_length)) == key_of_entry(label, bytes, i)
}

/// What is wrong with entry `i` of the index, from 0: its key isn't above the key of the entry before it, or it names no record
/// of the file, or a record with another key.
fn flaw_of(label: &FileLabel, bytes: &[u8], i: u32) -> Option<EntryFlaw>
    requires key { label.now.key_length ≤ 29 }
    requires start { 1 ≤ label.now.key_start }
    ensures { result ≡ flaw_spec label.now bytes.now i }
{
    if !is_first_or_above(label, bytes, i) {
        return Some(EntryFlaw::Order);
    }
    let number = entry_number(label, bytes, i);
    if !has_record(label, number) {
        return Some(EntryFlaw::Record(number));
    }
    if !has_key_of(label, bytes, number, i) {
        return Some(EntryFlaw::Key(number));
    }
    None
}

/// The first entry of an index with which something is wrong, by the bytes of its file.
#[tactic(auto, unfolding(crate::specs::Inner::Entries::first_fault))]
pub fn first_fault(label: &FileLabel, bytes: &[u8]) -> Option<WrongEntry>
    requires key { label.now.key_length ≤ 29 }
    requires start { 1 ≤ label.now.key_start }
    ensures { result ≡ first_fault_spec label.now bytes.now }
{
    for i in 0..label.count {
        if let Some(flaw) = flaw_of(label, bytes, i) {
            return Some(WrongEntry { place: i, flaw });
        }
    }
    None
}
