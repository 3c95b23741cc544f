//! The index of a file's records, which a line of a dump represents.
ghost use Rattle.std.specs.Prelude.{◌≡◌, ◌+◌, ◌≤◌, ◌<◌, ◌*◌, [], length, true, option_map, IfOk, OnOk};
ghost use Rattle.std.specs.List.{fold};
ghost use Rattle.s3_dump.specs.Inner.Entries.{FitsIn, seen};
ghost use Rattle.s3_dump.specs.Inner.Indexes.{entries_to, fits_in as fits_in_spec, has_key as has_key_spec, has_records as has_records_spec, in_sectors as in_sectors_spec, index_of as index_of_spec, key_in as key_in_spec, records_bytes, with_entry, zeros_before as zeros_before_spec};

use std::alloc::{AllocError, Global};
use std::collections::BTreeMap;

/// How many bytes a sector has.
const SECTOR: usize = 256;

/// What a line of a dump says of the index of the records before it.
#[derive(Clone, Copy)]
pub struct IndexLine {
    /// How many records there are, and how many bytes each has.
    pub count: u32,
    pub record_length: u32,
    /// How many sectors they have, up to the index.
    pub sectors: u32,
    /// Where the key begins in a record, from 1, and how many bytes it has.
    pub key_start: u32,
    pub key_length: u32,
}

/// The index of the records at the end of these bytes; none if the line doesn't fit there, or if two records have one key.
#[tactic(auto, using(crate::proofs::IndexLemmas::no_index, crate::proofs::IndexLemmas::index_is))]
pub fn index_of(
    alloc: Global,
    line: &IndexLine,
    bytes: &[u8],
) -> Result<Option<Vec<u8>>, AllocError>
    ensures { IfOk result (λ index. option_map (λ index. index.items) index ≡ index_of_spec line.now bytes.now) }
{
    if !fits_in(line, bytes.len()) {
        return Ok(None);
    }
    let records = &bytes[bytes.len() - line.sectors as usize * SECTOR..];
    let entries = entries_of(alloc, line, records)?;
    in_sectors(alloc, line.count, entries)
}

/// Whether the key lies in each record, the records in their sectors, and these in so many bytes.
#[tactic(auto, using(crate::proofs::IndexLemmas::all_fit))]
fn fits_in(line: &IndexLine, long: usize) -> bool
    ensures value { result ≡ fits_in_spec line.now long }
    ensures fits { result ≡ true → FitsIn line.now long }
{
    has_key(line) && has_records(line, long)
}

/// Whether the key lies in each record.
fn has_key(line: &IndexLine) -> bool
    ensures value { result ≡ has_key_spec line.now }
    ensures start { result ≡ true → 1 ≤ line.now.key_start }
    ensures inside { result ≡ true → line.now.key_start + line.now.key_length ≤ line.now.record_length + 1 }
{
    1 <= line.key_length
        && line.key_length <= 29
        && 1 <= line.key_start
        && u64::from(line.key_start) + u64::from(line.key_length)
            <= u64::from(line.record_length) + 1
}

/// Whether the records lie in their sectors, and these in so many bytes.
fn has_records(line: &IndexLine, long: usize) -> bool
    ensures value { result ≡ has_records_spec line.now long }
    ensures within { result ≡ true → line.now.count * line.now.record_length ≤ records_bytes line.now }
    ensures before { result ≡ true → records_bytes line.now ≤ long }
{
    let sectors = 256 * u64::from(line.sectors);
    u64::from(line.count) * u64::from(line.record_length) <= sectors && sectors <= long as u64
}

/// The numbers of records, from 1, under their keys.
fn entries_of<'a>(
    alloc: Global,
    line: &IndexLine,
    records: &'a [u8],
) -> Result<BTreeMap<&'a [u8], u32>, AllocError>
    requires start { 1 ≤ line.now.key_start }
    requires inside { line.now.key_start + line.now.key_length ≤ line.now.record_length + 1 }
    requires within { line.now.count * line.now.record_length ≤ length records.now }
    ensures { IfOk result (λ entries. seen entries ≡ entries_to line.now records.now line.now.count) }
{
    let mut entries = BTreeMap::new(alloc);
    for i in 0..line.count {
        entries.insert(key_in(line, records, i), i + 1)?;
    }
    Ok(entries)
}

/// The key of the record of a number, from 0.
fn key_in<'a>(line: &IndexLine, records: &'a [u8], i: u32) -> &'a [u8]
    requires start { 1 ≤ line.now.key_start }
    requires inside { line.now.key_start + line.now.key_length ≤ line.now.record_length + 1 }
    requires within { line.now.count * line.now.record_length ≤ length records.now }
    requires some { i < line.now.count }
    ensures { result.now ≡ key_in_spec line.now records.now i }
{
    let start = record_place(line, i) + (line.key_start as usize - 1);
    &records[start..start + line.key_length as usize]
}

/// Where the record of a number, from 0, begins.
fn record_place(line: &IndexLine, i: u32) -> usize
    requires { i < line.now.count }
    ensures place { result ≡ i * line.now.record_length }
    ensures within { result + line.now.record_length ≤ line.now.count * line.now.record_length }
{
    i as usize * line.record_length as usize
}

/// The entries of so many records in sectors, in order of the keys; none if two records have one key.
#[tactic(auto, using(crate::proofs::IndexLemmas::other_count, crate::proofs::IndexLemmas::same_count))]
fn in_sectors(
    alloc: Global,
    count: u32,
    entries: BTreeMap<&[u8], u32>,
) -> Result<Option<Vec<u8>>, AllocError>
    ensures { IfOk result (λ index. option_map (λ index. index.items) index ≡ in_sectors_spec count (seen entries.entry)) }
{
    if entries.len() != count as usize {
        return Ok(None);
    }
    Ok(Some(laid(alloc, entries)?))
}

/// Entries in sectors, in order of the keys.
#[tactic(auto, using(crate::proofs::IndexLemmas::one_more_laid, crate::proofs::IndexLemmas::all_laid))]
fn laid(alloc: Global, mut entries: BTreeMap<&[u8], u32>) -> Result<Vec<u8>, AllocError>
    ensures { IfOk result (λ bytes. bytes.items ≡ fold with_entry [] (seen entries.entry)) }
{
    let mut bytes = Vec::new(alloc);
    while let Some((key, number)) = entries.pop_first() {
        push_entry(&mut bytes, key, number)?;
    }
    Ok(bytes)
}

/// Appends an entry: in the next sector, if it doesn't fit in what is left of this one.
#[tactic(auto, using(crate::proofs::IndexLemmas::entry_laid))]
fn push_entry(bytes: &mut Vec<u8>, key: &[u8], number: u32) -> Result<(), AllocError>
    ensures { OnOk result (bytes.new.items ≡ with_entry bytes.old.items (key.now, number)) }
{
    let zeros = [0; SECTOR];
    let count = zeros_before(bytes.len(), key.len() + 4);
    bytes.extend_from_slice(&zeros[..count])?;
    bytes.extend_from_slice(key)?;
    bytes.extend_from_slice(&number.to_be_bytes())?;
    Ok(())
}

/// How many zeros there are up to the next sector, if so many bytes don't fit in what is left of this one.
fn zeros_before(place: usize, long: usize) -> usize
    ensures value { result ≡ zeros_before_spec place long }
    ensures few { result ≤ 256 }
{
    let left = SECTOR - place % SECTOR;
    if left < long { left } else { 0 }
}
