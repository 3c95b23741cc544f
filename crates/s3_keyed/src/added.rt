//! Entries that are added, in memory until the file is closed.
ghost use Rattle.std.specs.Prelude.{◌≡◌, ◌≢◌, ◌-◌, [], Some, ℕ, true, nat_lt, length, slice_get, take, OnOk, OnErr, IfErr, IsTrue, ◌↔◌, MatchOption};
ghost use Rattle.std.specs.List.{list_all};
ghost use Rattle.s3_keyed.specs.KeyOrder.{Entry, number_of, insert_entry, ascends, keys_in};
ghost use Rattle.s3_keyed.specs.Inner.Shape.{entry_of};

use crate::indexed::IndexEntry;
use crate::keys::{Key, KeyNumber};
use s3_store::SectorFault;
use std::alloc::Global;
use std::collections::BTreeMap;

/// Entries that are added, in the order of their keys.
#[derive(Drop)]
pub struct AddedEntries {
    /// The number of each one's record, from 1, under its key.
    numbers: BTreeMap<KeyNumber, u32>,
}

impl AddedEntries {
    ghost use Rattle.s3_keyed.specs.Inner.Added.{entries_of};

    /// No entries.
    pub fn new(alloc: Global) -> Self
        ensures { entries_of result ≡ [] }
    {
        AddedEntries {
            numbers: BTreeMap::new(alloc),
        }
    }

    /// How many entries there are.
    pub fn len(&self) -> usize
        ensures { result ≡ length (entries_of self.now) }
    {
        self.numbers.len()
    }

    /// Whether there are no entries.
    pub fn is_empty(&self) -> bool
        ensures { IsTrue result ↔ (entries_of self.now ≡ []) }
    {
        self.numbers.is_empty()
    }

    /// The number, from 1, of the added record with this key; `None` if no added one has it.
    pub fn number_of(&self, key: &Key) -> Option<u32>
        ensures { MatchOption result
            ((i : ℕ) (entry : Entry) → slice_get (entries_of self.now) i ≡ Some entry → entry.key ≢ number_of key.now.bytes)
            (λ number. (i : ℕ) × (slice_get (entries_of self.now) i ≡ Some (record { key = number_of key.now.bytes; number = number }))) }
    {
        match self.numbers.get(&key.number()) {
            Some(number) => Some(*number),
            None => None,
        }
    }

    /// The entry with the highest key; `None` if there is none.
    pub fn last(&self) -> Option<IndexEntry>
        ensures { MatchOption result
            (entries_of self.now ≡ [])
            (λ last. slice_get (entries_of self.now) (length (entries_of self.now) - 1) ≡ Some (entry_of last)) }
    {
        match self.numbers.last_key_value() {
            Some((key, number)) => Some(IndexEntry {
                key: key.key(),
                number: *number,
            }),
            None => None,
        }
    }

    /// Whether a key is above those of all added entries.
    pub fn are_below(&self, key: &Key) -> bool
        requires ascending { ascends (keys_in (entries_of self.now)) ≡ true }
        ensures { list_all (λ other. nat_lt other (number_of key.now.bytes)) (keys_in (entries_of self.now)) ≡ result }
    {
        match self.last() {
            Some(last) => key.is_above(&last.key),
            None => true,
        }
    }

    /// Puts an entry whose key none has into its place.
    pub fn insert(&mut self, entry: IndexEntry) -> Result<(), SectorFault>
        requires is_new { (i : ℕ) (other : Entry) → slice_get (entries_of self.old) i ≡ Some other → other.key ≢ number_of entry.key.bytes }
        ensures ok { OnOk result (entries_of self.new ≡ insert_entry (entry_of entry) (entries_of self.old)) }
        ensures err { OnErr result (entries_of self.new ≡ entries_of self.old) }
        ensures fault { IfErr result (λ fault. fault ≡ SectorFault.NoMemory) }
    {
        self.numbers.insert(entry.key.number(), entry.number)?;
        Ok(())
    }

    /// Takes away the entry with the highest key, if there is one.
    pub fn remove_last(&mut self)
        ensures { entries_of self.new ≡ take (length (entries_of self.old) - 1) (entries_of self.old) }
    {
        let _ = self.numbers.pop_last();
    }
}
