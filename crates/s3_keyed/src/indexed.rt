//! A file of records with an index after the records.
ghost use Rattle.std.specs.Prelude.{◌≡◌, ◌≤◌, ◌<◌, ◌+◌, ◌*◌, ◌^◌, length};
ghost use Rattle.s3_slots.specs.Slots.{entries_per_sector, record_sectors, index_sectors};

use crate::keys::Key;
use s3_files::Sequential;
use s3_slots::FileLabel;

/// Records with a key in each, and an index by key in the sectors after the records.
#[derive(Drop)]
pub struct IndexedFile {
    /// The records in the order in which they were written.
    pub file: Sequential,
    /// Where the key begins in a record, from 1.
    pub key_start: u16,
    /// How many bytes the key has, 1 to 29.
    pub key_length: u8,
    /// How many entries lie in a sector of the index.
    pub per_sector: u32,
    ghost some_key: { 1 ≤ key_length },
    ghost short_key: { key_length ≤ 29 },
    ghost some_start: { 1 ≤ key_start },
    ghost key_inside: { key_start + key_length ≤ file.record_length + 1 },
    ghost index_fits: { record_sectors file.capacity file.record_length + index_sectors file.capacity key_length ≤ length file.sectors },
    ghost whole_entries: { per_sector ≡ entries_per_sector key_length },
    ghost small: { 256 * length file.sectors < 2 ^ 31 },
}

impl IndexedFile {
    ghost use Rattle.s3_files.specs.Inner.Files.{HasRoom};
    ghost use Rattle.s3_slots.specs.Labels.{sectors_of};
    ghost use Rattle.s3_keyed.specs.Inner.Index.{HasIndex};
    ghost use Rattle.s3_keyed.specs.Index.{layout_of};
    ghost use Rattle.s3_keyed.specs.Inner.Shape.{layout_in};

    /// The indexed file that a label describes.
    pub fn of(label: &FileLabel) -> Self
        requires room { HasRoom label.now }
        requires index { HasIndex label.now }
        ensures sectors { result.file.sectors ≡ sectors_of label.now }
        ensures layout { layout_in result ≡ layout_of label.now }
        ensures count { result.file.count ≡ label.now.count }
    {
        IndexedFile {
            file: Sequential::of(label),
            key_start: label.key_start,
            key_length: label.key_length,
            per_sector: 256 / (u32::from(label.key_length) + 4),
        }
    }
}

/// A key and the number of its record, from 1.
#[derive(Clone, Copy)]
pub struct IndexEntry {
    /// The key.
    pub key: Key,
    /// The number of the record, from 1.
    pub number: u32,
}
