//! Where the record of a key is, by a hash of the key. The caller compares the record's key, so nothing is proved of the answer.
ghost use Rattle.std.specs.Prelude.{◌≡◌, ◌<◌, IfErr};

use s3_store::SectorFault;
use std::alloc::Global;

/// How many slots a key may be in, one after another.
const TRIES: usize = 16;

/// Spreads keys over the slots: 2 ^ 64 over the golden ratio.
const SPREAD: u64 = 0x9E37_79B9_7F4A_7C15;

/// A record that is noted, or none.
#[derive(Clone, Copy)]
struct Slot {
    /// The hash of the record's key, which nearly all other keys don't have.
    hash: u32,
    /// The record's number, from 1; 0 for none.
    number: u32,
}

/// The records of an index as it was checked, by the short forms of their keys.
#[derive(Drop)]
pub struct NotedRecords {
    /// More of them than keys, by the high bits of the hash.
    slots: Vec<Slot>,
    /// How many low bits of the hash don't count there.
    shift: u32,
    ghost small: { shift < 32 },
}

/// The hash of a key, by its short form.
fn hash_of(form: u64) -> u32 {
    (form.wrapping_mul(SPREAD) >> 32) as u32
}

impl NotedRecords {
    /// A table without records, but with room for those of so many keys.
    pub fn new(alloc: Global, keys: u32) -> Result<Self, SectorFault>
        ensures { IfErr result (λ fault. fault ≡ SectorFault.NoMemory) }
    {
        let shift = keys.saturating_add(keys / 2).leading_zeros().min(31);
        let places = (u32::MAX >> shift) as usize + 1;
        let free = Slot { hash: 0, number: 0 };
        Ok(NotedRecords {
            slots: vec![in alloc; free; places + TRIES]?,
            shift,
        })
    }

    /// The first slot that a key with this hash may be in.
    fn first(&self, hash: u32) -> usize {
        (hash >> self.shift) as usize
    }

    /// Notes the number of a record in a free slot of its key, if there is one.
    pub fn note(&mut self, form: u64, number: u32) {
        let hash = hash_of(form);
        let first = self.first(hash);
        for step in 0..TRIES {
            if let Some(slot) = self.slots.get_mut(first.wrapping_add(step)) {
                if slot.number == 0 {
                    *slot = Slot { hash, number };
                    return;
                }
            }
        }
    }

    /// The place, from 0, of the record that was noted for a key. Seldom it is a record with another key.
    pub fn find(&self, form: u64) -> Option<u32> {
        let hash = hash_of(form);
        let first = self.first(hash);
        for step in 0..TRIES {
            let slot = self.slots.get(first.wrapping_add(step))?;
            if slot.hash == hash {
                return slot.number.checked_sub(1);
            }
        }
        None
    }
}
