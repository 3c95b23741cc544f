//! A file of records found by their numbers.
ghost use Rattle.std.specs.Prelude.{◌≡◌};

use crate::fault::FileFault;
use crate::records::RecordFile;
use crate::sequential::Sequential;
use s3_slots::FileLabel;
use s3_store::Sectors;

/// A file of as many records as there is room for, so that none can be appended; they are found by their numbers.
#[derive(Drop)]
pub struct Direct {
    /// The records in the order of their numbers.
    pub file: Sequential,
    ghost full: { file.count ≡ file.capacity },
}

impl Direct {
    ghost use Rattle.s3_files.specs.Inner.Files.{HasRoom};
    ghost use Rattle.s3_slots.specs.Labels.{sectors_of};

    /// The direct file that a label describes, which has as many records as there is room for.
    pub fn of(label: &FileLabel) -> Self
        requires room { HasRoom label.now }
        requires full { label.now.count ≡ label.now.capacity }
        ensures sectors { result.file.sectors ≡ sectors_of label.now }
        ensures record_length { result.file.record_length ≡ label.now.record_length }
        ensures capacity { result.file.capacity ≡ label.now.capacity }
        ensures count { result.file.count ≡ label.now.count }
    {
        Direct {
            file: Sequential::of(label),
        }
    }
}

impl RecordFile for Direct {
    ghost file = { λ f. record { sectors = f.file.sectors; record_length = f.file.record_length; capacity = f.file.capacity; count = f.file.count } };

    fn len(&self) -> u32 {
        self.file.count
    }

    fn get<P: Sectors>(&self, pool: &mut P, i: u32, bytes: &mut [u8]) -> Result<(), FileFault> {
        self.file.get(pool, i, bytes)
    }

    fn put<P: Sectors>(&self, pool: &mut P, i: u32, bytes: &[u8]) -> Result<(), FileFault> {
        self.file.put(pool, i, bytes)
    }

    /// Always refused with `Full`.
    fn append<P: Sectors>(&mut self, _pool: &mut P, _bytes: &[u8]) -> Result<(), FileFault> {
        Err(FileFault::Full)
    }
}
