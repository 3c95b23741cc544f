//! What is wrong with an index.

use crate::evidence::IndexFlaw;
use s3_labels::FileLabel;
use std::alloc::{AllocError, Global};

/// The bytes of a sector.
const SECTOR: u64 = 256;

/// How many bytes of an entry are the number of its record.
const NUMBER: u64 = 4;

/// An entry of an index.
#[derive(Clone, Copy)]
struct Entry<'a> {
    key: &'a [u8],
    /// the number of its record, from 1
    record: u32,
}

/// The byte of a file, from 0, at which entry `n` of its index begins, from 0.
pub(crate) fn entry_place(label: &FileLabel, n: u32) -> u64 {
    let entry = u64::from(label.key_length) + NUMBER;
    let per_sector = SECTOR / entry;
    let records = u64::from(label.capacity).saturating_mul(u64::from(label.record_length));
    let sectors = records.div_ceil(SECTOR);
    if per_sector == 0 {
        return sectors.saturating_mul(SECTOR);
    }
    let n = u64::from(n);
    let before = sectors
        .saturating_add(n / per_sector)
        .saturating_mul(SECTOR);
    before.saturating_add((n % per_sector).saturating_mul(entry))
}

/// The number in the last four of some bytes.
pub(crate) fn number_behind(bytes: &[u8]) -> Option<u32> {
    let digits = bytes.last_chunk::<4>()?;
    Some(u32::from_be_bytes(*digits))
}

/// The part of a file's bytes that begins at a byte and is so long.
fn part_at(bytes: &[u8], at: u64, count: usize) -> Option<&[u8]> {
    let from = at as usize;
    bytes.get(from..from.checked_add(count)?)
}

/// Entry `n` of the index in a file's bytes, from 0.
fn entry_at<'a>(label: &FileLabel, bytes: &'a [u8], n: u32) -> Option<Entry<'a>> {
    let key = usize::from(label.key_length);
    let entry = part_at(bytes, entry_place(label, n), key + 4)?;
    Some(Entry {
        key: entry.get(..key)?,
        record: number_behind(entry)?,
    })
}

/// The key of a record, by its number from 1, in a file's bytes.
fn key_of_record<'a>(label: &FileLabel, bytes: &'a [u8], record: u32) -> Option<&'a [u8]> {
    let place = u64::from(record.checked_sub(1)?).saturating_mul(u64::from(label.record_length));
    let start = u64::from(label.key_start.checked_sub(1)?);
    part_at(
        bytes,
        place.saturating_add(start),
        usize::from(label.key_length),
    )
}

/// What is wrong with entry `n` of an index, given the key before it and the records that were named before.
fn flaw_of_entry(
    label: &FileLabel,
    bytes: &[u8],
    entry: Entry<'_>,
    n: u32,
    before: Option<&[u8]>,
    named: &[bool],
) -> Option<IndexFlaw> {
    let number = n.saturating_add(1);
    let record = entry.record;
    if let Some(key) = before {
        if entry.key <= key {
            return Some(IndexFlaw::Order(number));
        }
    }
    match named.get((record as usize).wrapping_sub(1)) {
        None => Some(IndexFlaw::Record {
            entry: number,
            record,
        }),
        Some(true) => Some(IndexFlaw::Twice {
            entry: number,
            record,
        }),
        Some(false) => (key_of_record(label, bytes, record)? != entry.key).then_some(
            IndexFlaw::Key {
                entry: number,
                record,
            },
        ),
    }
}

/// The first flaw of the index of a file, by all bytes of its sectors.
pub(crate) fn flaw_of(
    alloc: Global,
    label: &FileLabel,
    bytes: &[u8],
) -> Result<Option<IndexFlaw>, AllocError> {
    let mut named = Vec::new(alloc);
    for _record in 0..label.count {
        named.push(false)?;
    }
    let mut before = None;
    for n in 0..label.count {
        let Some(entry) = entry_at(label, bytes, n) else {
            return Ok(None);
        };
        let flaw = flaw_of_entry(label, bytes, entry, n, before, &named);
        if flaw.is_some() {
            return Ok(flaw);
        }
        if let Some(is_named) = named.get_mut((entry.record as usize).wrapping_sub(1)) {
            *is_named = true;
        }
        before = Some(entry.key);
    }
    Ok(None)
}
