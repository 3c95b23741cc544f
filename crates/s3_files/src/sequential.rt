//! A file of records in the order in which they were written.
ghost use Rattle.std.specs.Prelude.{◌≡◌, ◌≤◌, ◌<◌, ◌+◌, ◌*◌, ◌^◌, length};

use crate::bytes::{read_bytes, write_bytes};
use crate::fault::FileFault;
use crate::file_sectors::FileSectors;
use crate::records::RecordFile;
use s3_slots::FileLabel;
use s3_store::Sectors;

/// A file whose records lie end to end over its sectors, in the order in which they were written.
#[derive(Drop)]
pub struct Sequential {
    /// The sectors of the file, in the order of its bytes.
    pub sectors: FileSectors,
    /// The length of each record in bytes.
    pub record_length: u16,
    /// The number of records for which the file has space.
    pub capacity: u32,
    /// How many records the file has, at most its capacity.
    pub count: u32,
    ghost fits: { capacity * record_length ≤ 256 * length sectors },
    ghost small: { capacity * record_length < 2 ^ 32 },
    ghost counted: { count ≤ capacity },
}

impl Sequential {
    ghost use Rattle.s3_files.specs.Inner.Files.{HasRoom};
    ghost use Rattle.s3_slots.specs.Labels.{sectors_of};

    /// The file that a label describes.
    pub fn of(label: &FileLabel) -> Self
        requires { HasRoom label.now }
        ensures sectors { result.sectors ≡ sectors_of label.now }
        ensures record_length { result.record_length ≡ label.now.record_length }
        ensures capacity { result.capacity ≡ label.now.capacity }
        ensures count { result.count ≡ label.now.count }
    {
        Self::new(
            FileSectors::of(&label.extents),
            label.record_length,
            label.capacity,
            label.count,
        )
    }

    /// A file of `count` records over these sectors, which have room for `capacity` records.
    pub fn new(sectors: FileSectors, record_length: u16, capacity: u32, count: u32) -> Self
        requires fits { capacity * record_length ≤ 256 * length sectors }
        requires small { capacity * record_length < 2 ^ 32 }
        requires counted { count ≤ capacity }
        ensures sectors { result.sectors ≡ sectors }
        ensures record_length { result.record_length ≡ record_length }
        ensures capacity { result.capacity ≡ capacity }
        ensures count { result.count ≡ count }
    {
        Sequential {
            sectors,
            record_length,
            capacity,
            count,
        }
    }

    /// Where a record begins.
    fn place(&self, i: u32) -> u32
        requires { i < self.now.capacity }
        ensures place { result ≡ i * self.now.record_length }
        ensures within { i * self.now.record_length + self.now.record_length ≤ 256 * length self.now.sectors }
    {
        i * u32::from(self.record_length)
    }
}

impl RecordFile for Sequential {
    ghost file = { λ f. record { sectors = f.sectors; record_length = f.record_length; capacity = f.capacity; count = f.count } };

    fn len(&self) -> u32 {
        self.count
    }

    fn get<P: Sectors>(&self, pool: &mut P, i: u32, bytes: &mut [u8]) -> Result<(), FileFault> {
        if i >= self.count {
            return Err(FileFault::NoRecord);
        }
        read_bytes(pool, &self.sectors, self.place(i), bytes)?;
        Ok(())
    }

    fn put<P: Sectors>(&self, pool: &mut P, i: u32, bytes: &[u8]) -> Result<(), FileFault> {
        if i >= self.count {
            return Err(FileFault::NoRecord);
        }
        write_bytes(pool, &self.sectors, self.place(i), bytes)?;
        Ok(())
    }

    fn append<P: Sectors>(&mut self, pool: &mut P, bytes: &[u8]) -> Result<(), FileFault> {
        if self.count == self.capacity {
            return Err(FileFault::Full);
        }
        write_bytes(pool, &self.sectors, self.place(self.count), bytes)?;
        self.count += 1;
        Ok(())
    }
}
