//! Where the search for a key begins. A search doesn't rely on it, so that nothing is proved of it.
ghost use Rattle.std.specs.Prelude.{◌≡◌, ◌≤◌, ◌<◌, ◌+◌, ◌/◌, IfErr};

use crate::index_sector::{key_bytes, key_number, key_of_entry, number_in};
use crate::keys::{Key, QuickKey, short_form};
use crate::noted::NotedRecords;
use s3_store::SectorFault;
use std::alloc::Global;

/// How many entries of a sector lie between two keys that are noted.
pub const STEP: u32 = 4;

/// Some keys of an index as it was checked, in their order.
#[derive(Drop)]
pub struct Guide {
    /// The first key of each sector and each fourth one after it as numbers, if keys have four to eight bytes.
    numbers: Vec<u64>,
    /// Which entry of the index has each of them.
    entries: Vec<u32>,
    /// The record of each key.
    records: NotedRecords,
    /// The first key of each sector, if keys are shorter or longer.
    firsts: Vec<QuickKey>,
}

impl Guide {
    /// A guide without keys, but with room for those of so many entries.
    pub fn new(alloc: Global, count: u32) -> Result<Self, SectorFault>
        ensures { IfErr result (λ fault. fault ≡ SectorFault.NoMemory) }
    {
        Ok(Guide {
            numbers: Vec::new(alloc),
            entries: Vec::new(alloc),
            records: NotedRecords::new(alloc, count)?,
            firsts: Vec::new(alloc),
        })
    }

    /// Notes keys of the first so many entries of a sector, which begins with this entry of the index.
    pub fn note(
        &mut self,
        sector: &[u8; 256],
        count: usize,
        key_length: u8,
        entry: u32,
    ) -> Result<(), SectorFault>
        requires short { key_length ≤ 29 }
        requires some { 0 < count }
        requires inside { count ≤ 256 / (key_length + 4) }
        ensures { IfErr result (λ fault. fault ≡ SectorFault.NoMemory) }
    {
        match key_length {
            4..=8 => self.note_numbers(sector, count, key_length, entry),
            _ => {
                self.note_records(sector, count, key_length);
                let first = key_of_entry(sector, 0, usize::from(key_length));
                self.firsts.push(QuickKey::of(&first, key_length))?;
                Ok(())
            }
        }
    }

    /// Notes the records of the first so many entries of a sector.
    #[inline(never)]
    fn note_records(&mut self, sector: &[u8; 256], count: usize, key_length: u8)
        requires short { key_length ≤ 29 }
        requires inside { count ≤ 256 / (key_length + 4) }
    {
        let key_length = usize::from(key_length);
        for j in 0..count {
            let form = short_form(key_bytes(sector, j, key_length));
            self.records.note(form, number_in(sector, j, key_length));
        }
    }

    /// Notes keys of four to eight bytes of the first so many entries of a sector, which begins with this entry of the index.
    #[inline(never)]
    fn note_numbers(
        &mut self,
        sector: &[u8; 256],
        count: usize,
        key_length: u8,
        entry: u32,
    ) -> Result<(), SectorFault>
        requires long { 4 ≤ key_length }
        requires short { key_length ≤ 8 }
        requires inside { count ≤ 256 / (key_length + 4) }
        ensures { IfErr result (λ fault. fault ≡ SectorFault.NoMemory) }
    {
        let mut entry = entry;
        for j in 0..count {
            let key = key_number(sector, j, usize::from(key_length));
            self.records
                .note(key, number_in(sector, j, usize::from(key_length)));
            if j % STEP as usize == 0 {
                self.numbers.push(key)?;
                self.entries.push(entry)?;
            }
            entry = entry.wrapping_add(1);
        }
        Ok(())
    }

    /// The last entry that is noted with this key or a lower one, if keys have four to eight bytes.
    pub fn entry_up_to(&self, key: u64) -> Option<u32> {
        let up_to = self.numbers.partition_point(|number| *number <= key);
        let entry = self.entries.get(up_to.checked_sub(1)?)?;
        Some(*entry)
    }

    /// The place, from 0, that the record with the key in these bytes had at the check. It may be the place of a record with
    /// another key, but seldom is.
    pub fn record_of(&self, key: &[u8]) -> Option<u32> {
        self.records.find(short_form(key))
    }

    /// The sector of the index, each of so many entries, that a key of so many bytes lies in.
    pub fn sector_of(&self, key: &Key, key_length: u8, per_sector: u32) -> u32 {
        let key = QuickKey::of(key, key_length);
        match key_length {
            4..=8 => match self.entry_up_to(key.head()) {
                Some(entry) => entry.checked_div(per_sector).unwrap_or(0),
                None => 0,
            },
            _ => {
                let up_to = self.firsts.partition_point(|first| first.is_up_to(&key));
                u32::try_from(up_to.saturating_sub(1)).unwrap_or(0)
            }
        }
    }
}
