//! What the pack has about a halt.

use s3_cards::Name;
use s3_labels::Area;

/// What is wrong with the index of a file. Entries and records are counted from 1.
#[derive(Clone, Copy)]
pub enum IndexFlaw {
    /// The key of this entry isn't above the key of the entry before.
    Order(u32),
    /// This entry names a record that the file doesn't have.
    Record {
        /// The entry.
        entry: u32,
        /// The number of the record.
        record: u32,
    },
    /// This entry names a record that an entry before names too.
    Twice {
        /// The entry.
        entry: u32,
        /// The number of the record.
        record: u32,
    },
    /// The key of this entry isn't the key of the record that it names.
    Key {
        /// The entry.
        entry: u32,
        /// The number of the record.
        record: u32,
    },
}

/// What the pack has about a halt that waits.
#[derive(Drop)]
pub enum Evidence {
    /// Nothing that the bureau itself doesn't have.
    Nothing,
    /// Records of the file at which the program is.
    Records {
        /// The record that was read last; none if the halt is about a record that is written.
        last: Option<Vec<u8>>,
        /// The record before it: the record read before, the last record of a load, or the record to be updated.
        before: Option<Vec<u8>>,
    },
    /// The last two records that were read of each file on disk that the cycle reads, while a program is at totals before a record. A file
    /// of which fewer were read has fewer.
    Totals(Vec<RecordRead>),
    /// The slots that block labels of the job's FILE statements.
    Slots(Vec<BlockingSlot>),
    /// The indexes of the files that the job's FILE statements name.
    Indexes(Vec<CheckedIndex>),
}

/// A record that was read of a file.
#[derive(Drop)]
pub struct RecordRead {
    /// The name by which the program knows the file.
    pub file: Name,
    /// Its number among the records of the file that were read, from 1.
    pub number: u32,
    /// Its bytes.
    pub bytes: Vec<u8>,
}

/// A damaged slot that blocks a label.
#[derive(Drop)]
pub struct BlockingSlot {
    /// The label.
    pub label: Name,
    /// The area.
    pub area: Area,
    /// The number of the slot in its area, 0 to 31.
    pub slot: usize,
    /// The 64 bytes of the slot.
    pub bytes: Vec<u8>,
}

/// The index of a file.
#[derive(Drop)]
pub struct CheckedIndex {
    /// The label of the file.
    pub label: Name,
    /// Its first flaw; `None` if no flaw was found.
    pub flaw: Option<IndexFlaw>,
}
