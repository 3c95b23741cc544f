//! A file with keys that is open.
ghost use Rattle.std.specs.Prelude.{◌≡◌, ◌≤◌, ◌<◌, ◌+◌, ◌-◌, ◌^◌, ◌/◌, [], ◌∷◌, ◌++◌, true, nat_lt, Ok, Err, None, Some, length, slice_get, take, ℕ, List, OnOk, OnErr, IfOk, IfErr, IfSome, IsTrue, ◌↔◌};
ghost use Rattle.std.specs.List.{Contains, list_all};
ghost use Rattle.s3_store.specs.Inner.State.{KeepsContents, ChangesWithin};
ghost use Rattle.s3_store.specs.Inner.Failures.{failed_transfers};
ghost use Rattle.s3_store.specs.Inner.Calls.{Changes, Reads};
ghost use Rattle.s3_files.specs.Inner.Files.{AreStored, IsReadInPart};
ghost use Rattle.s3_keyed.specs.KeyOrder.{number_of, key_order, is_good_index};
ghost use Rattle.s3_files.specs.Inner.Records.{record_at};
ghost use Rattle.s3_keyed.specs.Index.{key_of, index_in};
ghost use Rattle.s3_keyed.specs.Inner.Shape.{layout_in, bytes_in, keys_on};
ghost use Rattle.s3_keyed.specs.Inner.Unused.{KeepsUnused};
ghost use Rattle.s3_keyed.specs.Calls.{place_of_key, nth_by_key as nth_by_key_spec, with_added, with_loaded, with_updated, keyed_result};
ghost use Rattle.s3_keyed.specs.Inner.Calls.{IsOfSectors, index_answer, unit_of, Answers, Leaves, OnRefusal, or_no_key, failed_keyed_transfers};

use crate::added::AddedEntries;
use crate::check::is_good;
use crate::close::merge;
use crate::entries::{has_key_of, have_same_key, read_number};
use crate::fault::KeyedFault;
use crate::guide::Guide;
use crate::indexed::{IndexEntry, IndexedFile};
use crate::keys::{Key, are_same_keys, short_number_of};
use crate::search::{is_above_index, search_from, search_index};
use crate::write::{read_record, write_entry, write_record};
use s3_slots::FileLabel;
use s3_store::{SectorFault, Sectors};
use std::alloc::Global;

/// A file with keys that is open: what is added to it has its entry in memory until the close.
#[derive(Drop)]
pub struct Keyed {
    /// The file as it was checked.
    pub(crate) file: IndexedFile,
    /// How many records have their entry on the pack.
    pub(crate) indexed: u32,
    /// How many records there are.
    pub(crate) count: u32,
    /// The entries of the others.
    pub(crate) added: AddedEntries,
    /// Keys of the index as it was checked. A search begins by them, but doesn't rely on them.
    pub(crate) guide: Guide,
    ghost counted: { count ≤ file.file.capacity },
}

impl Keyed {
    ghost use Rattle.s3_keyed.specs.Inner.Keyed.{shown, records_now, keys_now, bytes_now, HasKeyOrder, IsSameFile, IsUntouched, opened_of};
    ghost use Rattle.s3_store.specs.Bytes.{bytes_at};
    ghost use Rattle.s3_files.specs.Inner.Files.{HasRoom};
    ghost use Rattle.s3_slots.specs.Labels.{sectors_of};
    ghost use Rattle.s3_keyed.specs.Inner.Index.{HasIndex, keys_at};
    ghost use Rattle.s3_keyed.specs.Index.{layout_of};

    /// Opens the indexed file that a label describes, if its index is good, which takes one pass over its entries. Refused with
    /// `BadIndex` exactly if it isn't.
    pub fn check<P: Sectors>(
        alloc: Global,
        pool: &mut P,
        label: &FileLabel,
    ) -> Result<Self, KeyedFault>
        requires room { HasRoom label.now }
        requires index { HasIndex label.now }
        requires stored { AreStored (sectors_of label.now) (P.state pool.old).contents }
        ensures opened { IfOk result (λ keyed. shown keyed ≡ opened_of (sectors_of label.now) (layout_of label.now) label.now.count) }
        ensures ordered { IfOk result (λ keyed. HasKeyOrder (shown keyed) (P.state pool.old).contents) }
        ensures good { Answers (index_answer (index_in (layout_of label.now) label.now.count (bytes_at (sectors_of label.now) (P.state pool.old).contents)) (keys_at (layout_of label.now) label.now.count (bytes_at (sectors_of label.now) (P.state pool.old).contents))) (unit_of result) }
        ensures keeps { KeepsContents (P.state pool.old) (P.state pool.new) }
        ensures failures { (P.state pool.new).failures ≡ (P.state pool.old).failures + failed_keyed_transfers result }
    {
        Self::open(alloc, pool, IndexedFile::of(label))
    }

    /// Opens a file whose index is good.
    fn open<P: Sectors>(alloc: Global, pool: &mut P, file: IndexedFile) -> Result<Self, KeyedFault>
        requires stored { AreStored file.file.sectors (P.state pool.old).contents }
        ensures opened { IfOk result (λ keyed. shown keyed ≡ opened_of file.file.sectors (layout_in file) file.file.count) }
        ensures ordered { IfOk result (λ keyed. HasKeyOrder (shown keyed) (P.state pool.old).contents) }
        ensures good { Answers (index_answer (index_in (layout_in file) file.file.count (bytes_in file (P.state pool.old).contents)) (keys_on file (P.state pool.old).contents)) (unit_of result) }
        ensures keeps { KeepsContents (P.state pool.old) (P.state pool.new) }
        ensures failures { (P.state pool.new).failures ≡ (P.state pool.old).failures + failed_keyed_transfers result }
    {
        let mut guide = Guide::new(alloc, file.file.count)?;
        if !is_good(&file, pool, &mut guide)? {
            return Err(KeyedFault::BadIndex);
        }
        let count = file.file.count;
        Ok(Keyed {
            file,
            indexed: count,
            count,
            added: AddedEntries::new(alloc),
            guide,
        })
    }

    /// How many records the file has, the added ones among them.
    pub fn len(&self) -> u32
        ensures { result ≡ (shown self.now).count }
    {
        self.count
    }

    /// Whether the file has no records.
    pub fn is_empty(&self) -> bool
        ensures { IsTrue result ↔ ((shown self.now).count ≡ 0) }
    {
        self.count == 0
    }

    /// Reads the record at a place, from 0. Refused with `NoKey` if there is none; then the buffer stays as it was. Refused with
    /// `Pool` if a transfer fails; then the buffer may have the first bytes of the record.
    pub fn get<P: Sectors>(&self, pool: &mut P, i: u32, bytes: &mut [u8]) -> Result<(), KeyedFault>
        requires stored { AreStored (shown self.now).sectors (P.state pool.old).contents }
        requires long { length bytes.old ≡ (shown self.now).layout.record_length }
        ensures got { Leaves (keyed_result (record_at i (records_now (shown self.now) (P.state pool.old).contents))) result bytes.new }
        ensures refused { OnRefusal result (P.state pool.new ≡ P.state pool.old) }
        ensures unchanged { OnRefusal result (bytes.new ≡ bytes.old) }
        ensures partly { OnErr result ((whole : List ℕ) → slice_get (records_now (shown self.now) (P.state pool.old).contents) i ≡ Some whole → IsReadInPart whole bytes.old bytes.new) }
        ensures keeps { KeepsContents (P.state pool.old) (P.state pool.new) }
        ensures failures { (P.state pool.new).failures ≡ (P.state pool.old).failures + failed_keyed_transfers result }
    {
        if self.count <= i {
            return Err(KeyedFault::NoKey);
        }
        read_record(&self.file, pool, i, bytes)?;
        Ok(())
    }

    /// Writes a record over the one at a place, from 0, under the same key. Refused with `NoKey` if there is none, else with
    /// `KeyChanged` if it has another key.
    pub fn update<P: Sectors>(&self, pool: &mut P, i: u32, bytes: &[u8]) -> Result<(), KeyedFault>
        requires stored { AreStored (shown self.now).sectors (P.state pool.old).contents }
        requires ordered { HasKeyOrder (shown self.now) (P.state pool.old).contents }
        requires long { length bytes.now ≡ (shown self.now).layout.record_length }
        ensures updated { Leaves (with_updated (shown self.now).layout.key i bytes.now (records_now (shown self.now) (P.state pool.old).contents)) result (records_now (shown self.now) (P.state pool.new).contents) }
        ensures ordered { OnOk result (HasKeyOrder (shown self.now) (P.state pool.new).contents) }
        ensures refused { OnRefusal result (KeepsContents (P.state pool.old) (P.state pool.new)) }
        ensures unused { KeepsUnused (shown self.now).layout (shown self.now).count (bytes_now (shown self.now) (P.state pool.old).contents) (bytes_now (shown self.now) (P.state pool.new).contents) }
        ensures within { ChangesWithin (Contains (shown self.now).sectors) (P.state pool.old) (P.state pool.new) }
        ensures failures { (P.state pool.new).failures ≡ (P.state pool.old).failures + failed_keyed_transfers result }
    {
        if i >= self.count {
            return Err(KeyedFault::NoKey);
        }
        if !has_key_of(&self.file, pool, i, bytes)? {
            return Err(KeyedFault::KeyChanged);
        }
        write_record(&self.file, pool, i, bytes)?;
        Ok(())
    }

    /// Writes a record over the one at a place, from 0, which is `old`, under the same key. Refused with `KeyChanged` if it has
    /// another one.
    pub fn replace<P: Sectors>(
        &self,
        pool: &mut P,
        i: u32,
        old: &[u8],
        bytes: &[u8],
    ) -> Result<(), KeyedFault>
        requires stored { AreStored (shown self.now).sectors (P.state pool.old).contents }
        requires ordered { HasKeyOrder (shown self.now) (P.state pool.old).contents }
        requires there { slice_get (records_now (shown self.now) (P.state pool.old).contents) i ≡ Some old.now }
        requires old { length old.now ≡ (shown self.now).layout.record_length }
        requires long { length bytes.now ≡ (shown self.now).layout.record_length }
        ensures updated { Leaves (with_updated (shown self.now).layout.key i bytes.now (records_now (shown self.now) (P.state pool.old).contents)) result (records_now (shown self.now) (P.state pool.new).contents) }
        ensures ordered { OnOk result (HasKeyOrder (shown self.now) (P.state pool.new).contents) }
        ensures refused { OnRefusal result (KeepsContents (P.state pool.old) (P.state pool.new)) }
        ensures unused { KeepsUnused (shown self.now).layout (shown self.now).count (bytes_now (shown self.now) (P.state pool.old).contents) (bytes_now (shown self.now) (P.state pool.new).contents) }
        ensures within { ChangesWithin (Contains (shown self.now).sectors) (P.state pool.old) (P.state pool.new) }
        ensures failures { (P.state pool.new).failures ≡ (P.state pool.old).failures + failed_keyed_transfers result }
    {
        if !have_same_key(&self.file, old, bytes) {
            return Err(KeyedFault::KeyChanged);
        }
        write_record(&self.file, pool, i, bytes)?;
        Ok(())
    }

    /// The bytes of the key in those of a record.
    fn key_bytes<'a>(&self, bytes: &'a [u8]) -> &'a [u8]
        requires { length bytes.now ≡ (shown self.now).layout.record_length }
        ensures key { number_of result.now ≡ key_of (shown self.now).layout.key bytes.now }
        ensures long { length result.now ≡ (shown self.now).layout.key.length }
    {
        let start = usize::from(self.file.key_start - 1);
        &bytes[start..start + usize::from(self.file.key_length)]
    }

    /// Whether the key in the bytes of a record is the one in these bytes.
    fn has_key(&self, bytes: &[u8], key: &[u8]) -> bool
        requires long { length bytes.now ≡ (shown self.now).layout.record_length }
        requires key { length key.now ≡ (shown self.now).layout.key.length }
        ensures { IsTrue result → key_of (shown self.now).layout.key bytes.now ≡ number_of key.now }
    {
        are_same_keys(self.key_bytes(bytes), key)
    }

    /// The key in the bytes of a record.
    pub(crate) fn key_in(&self, bytes: &[u8]) -> Key
        requires { length bytes.now ≡ (shown self.now).layout.record_length }
        ensures key { number_of result.bytes ≡ key_of (shown self.now).layout.key bytes.now }
        ensures short { number_of result.bytes < 256 ^ (shown self.now).layout.key.length }
    {
        let start = usize::from(self.file.key_start - 1);
        Key::of(&bytes[start..start + usize::from(self.file.key_length)])
    }

    /// Where the search for a key begins: the sector of the index that the keys in memory name.
    fn guess(&self, key: &Key) -> u32 {
        self.guide
            .sector_of(key, self.file.key_length, self.file.per_sector)
    }

    /// The place of the record with a key, from 0. The index is looked into, and then the added entries.
    #[inline(never)]
    pub(crate) fn place<P: Sectors>(
        &self,
        pool: &mut P,
        key: &Key,
    ) -> Result<Option<u32>, SectorFault>
        requires stored { AreStored (shown self.now).sectors (P.state pool.old).contents }
        requires ordered { HasKeyOrder (shown self.now) (P.state pool.old).contents }
        requires short { number_of key.now.bytes < 256 ^ (shown self.now).layout.key.length }
        ensures place { IfOk result (λ place. place_of_key (number_of key.now.bytes) (keys_now (shown self.now) (P.state pool.old).contents) ≡ place) }
        ensures reads { Reads result (P.state pool.old) (P.state pool.new) }
    {
        let guess = self.guess(key);
        if let Some(number) = search_index(&self.file, pool, self.indexed, key, guess)? {
            return Ok(Some(number - 1));
        }
        if let Some(number) = self.added.number_of(key) {
            return Ok(Some(number - 1));
        }
        Ok(None)
    }

    /// The place, from 0, of the record with the key in these bytes, if the key has four to eight bytes and was in the file at
    /// the check. Only a few entries of the index are read.
    #[inline(never)]
    fn quick_place<P: Sectors>(&self, pool: &mut P, key: &[u8]) -> Result<Option<u32>, SectorFault>
        requires stored { AreStored (shown self.now).sectors (P.state pool.old).contents }
        requires ordered { HasKeyOrder (shown self.now) (P.state pool.old).contents }
        requires long { length key.now ≡ (shown self.now).layout.key.length }
        ensures place { IfOk result (λ place. IfSome place (λ place. place_of_key (number_of key.now) (keys_now (shown self.now) (P.state pool.old).contents) ≡ Some place)) }
        ensures reads { Reads result (P.state pool.old) (P.state pool.new) }
    {
        let Some(key) = short_number_of(key) else {
            return Ok(None);
        };
        let Some(first) = self.guide.entry_up_to(key) else {
            return Ok(None);
        };
        match search_from(&self.file, pool, self.indexed, key, first)? {
            Some(number) => Ok(Some(number - 1)),
            None => Ok(None),
        }
    }

    /// The place of the record with the key in these bytes, from 0. Refused with `NoKey` if no record has it.
    pub fn find<P: Sectors>(&self, pool: &mut P, key: &[u8]) -> Result<u32, KeyedFault>
        requires stored { AreStored (shown self.now).sectors (P.state pool.old).contents }
        requires ordered { HasKeyOrder (shown self.now) (P.state pool.old).contents }
        requires long { length key.now ≡ (shown self.now).layout.key.length }
        ensures found { Answers (or_no_key (place_of_key (number_of key.now) (keys_now (shown self.now) (P.state pool.old).contents))) result }
        ensures keeps { KeepsContents (P.state pool.old) (P.state pool.new) }
        ensures failures { (P.state pool.new).failures ≡ (P.state pool.old).failures + failed_keyed_transfers result }
    {
        if let Some(place) = self.quick_place(pool, key)? {
            return Ok(place);
        }
        match self.place(pool, &Key::of(key))? {
            Some(place) => Ok(place),
            None => Err(KeyedFault::NoKey),
        }
    }

    /// Reads the record with the key in these bytes at the place that the table in memory has for it, and answers this place,
    /// from 0. `None` if the table doesn't have the key, although the record may be there. The record's own key is compared, so
    /// no sector of the index is read. Refused if a transfer fails or memory runs out.
    pub fn get_noted<P: Sectors>(
        &self,
        pool: &mut P,
        key: &[u8],
        bytes: &mut [u8],
    ) -> Result<Option<u32>, SectorFault>
        requires stored { AreStored (shown self.now).sectors (P.state pool.old).contents }
        requires ordered { HasKeyOrder (shown self.now) (P.state pool.old).contents }
        requires key { length key.now ≡ (shown self.now).layout.key.length }
        requires long { length bytes.old ≡ (shown self.now).layout.record_length }
        ensures place { IfOk result (λ place. IfSome place (λ place. place_of_key (number_of key.now) (keys_now (shown self.now) (P.state pool.old).contents) ≡ Some place)) }
        ensures got { IfOk result (λ place. IfSome place (λ place. slice_get (records_now (shown self.now) (P.state pool.old).contents) place ≡ Some bytes.new)) }
        ensures keeps { KeepsContents (P.state pool.old) (P.state pool.new) }
        ensures failures { (P.state pool.new).failures ≡ (P.state pool.old).failures + failed_transfers result }
    {
        let Some(place) = self.guide.record_of(key) else {
            return Ok(None);
        };
        if place >= self.count {
            return Ok(None);
        }
        read_record(&self.file, pool, place, bytes)?;
        if self.has_key(bytes, key) {
            return Ok(Some(place));
        }
        Ok(None)
    }

    /// The place of the record that is number `n` in key order among the records of the file at the check, both from 0. Refused
    /// with `NoKey` if there were fewer.
    pub fn nth_by_key<P: Sectors>(&self, pool: &mut P, n: u32) -> Result<u32, KeyedFault>
        requires stored { AreStored (shown self.now).sectors (P.state pool.old).contents }
        requires ordered { HasKeyOrder (shown self.now) (P.state pool.old).contents }
        ensures nth { Answers (or_no_key (nth_by_key_spec (take (shown self.now).started (keys_now (shown self.now) (P.state pool.old).contents)) n)) result }
        ensures keeps { KeepsContents (P.state pool.old) (P.state pool.new) }
        ensures failures { (P.state pool.new).failures ≡ (P.state pool.old).failures + failed_keyed_transfers result }
    {
        if n >= self.file.file.count {
            return Err(KeyedFault::NoKey);
        }
        let number = read_number(&self.file, pool, n)?;
        Ok(number - 1)
    }

    /// Adds a record after the last one, under a key that no other has. The index on the pack stays as it is until the close.
    /// Refused with `Duplicate` if a record has its key, else with `Full` if there is no room.
    pub fn add<P: Sectors>(&mut self, pool: &mut P, bytes: &[u8]) -> Result<(), KeyedFault>
        requires stored { AreStored (shown self.old).sectors (P.state pool.old).contents }
        requires ordered { HasKeyOrder (shown self.old) (P.state pool.old).contents }
        requires long { length bytes.now ≡ (shown self.old).layout.record_length }
        ensures added { Leaves (with_added (shown self.old).layout.key (shown self.old).layout.capacity bytes.now (records_now (shown self.old) (P.state pool.old).contents)) result (records_now (shown self.new) (P.state pool.new).contents) }
        ensures ordered { OnOk result (HasKeyOrder (shown self.new) (P.state pool.new).contents) }
        ensures refused { OnRefusal result (IsUntouched (shown self.old) (shown self.new) (P.state pool.old) (P.state pool.new)) }
        ensures same { IsSameFile (shown self.old) (shown self.new) }
        ensures unused { KeepsUnused (shown self.old).layout ((shown self.old).count + 1) (bytes_now (shown self.old) (P.state pool.old).contents) (bytes_now (shown self.old) (P.state pool.new).contents) }
        ensures within { ChangesWithin (Contains (shown self.old).sectors) (P.state pool.old) (P.state pool.new) }
        ensures failures { (P.state pool.new).failures ≡ (P.state pool.old).failures + failed_keyed_transfers result }
    {
        let key = self.key_in(bytes);
        if self.place(pool, &key)?.is_some() {
            return Err(KeyedFault::Duplicate);
        }
        if self.count == self.file.file.capacity {
            return Err(KeyedFault::Full);
        }
        self.append_added(pool, key, bytes)?;
        Ok(())
    }

    /// Loads a record after the last one, under a key above all others, with its entry in the index on the pack. Refused with
    /// `NotAscending` if its key isn't above all others, else with `Full` if there is no room.
    pub fn load<P: Sectors>(&mut self, pool: &mut P, bytes: &[u8]) -> Result<(), KeyedFault>
        requires stored { AreStored (shown self.old).sectors (P.state pool.old).contents }
        requires ordered { HasKeyOrder (shown self.old) (P.state pool.old).contents }
        requires long { length bytes.now ≡ (shown self.old).layout.record_length }
        ensures loaded { Leaves (with_loaded (shown self.old).layout.key (shown self.old).layout.capacity bytes.now (records_now (shown self.old) (P.state pool.old).contents)) result (records_now (shown self.new) (P.state pool.new).contents) }
        ensures ordered { OnOk result (HasKeyOrder (shown self.new) (P.state pool.new).contents) }
        ensures refused { OnRefusal result (IsUntouched (shown self.old) (shown self.new) (P.state pool.old) (P.state pool.new)) }
        ensures same { IsSameFile (shown self.old) (shown self.new) }
        ensures unused { KeepsUnused (shown self.old).layout ((shown self.old).count + 1) (bytes_now (shown self.old) (P.state pool.old).contents) (bytes_now (shown self.old) (P.state pool.new).contents) }
        ensures within { ChangesWithin (Contains (shown self.old).sectors) (P.state pool.old) (P.state pool.new) }
        ensures failures { (P.state pool.new).failures ≡ (P.state pool.old).failures + failed_keyed_transfers result }
    {
        let key = self.key_in(bytes);
        if !self.is_above_all(pool, &key)? {
            return Err(KeyedFault::NotAscending);
        }
        if self.count == self.file.file.capacity {
            return Err(KeyedFault::Full);
        }
        if self.added.is_empty() {
            self.append_indexed(pool, key, bytes)?;
            return Ok(());
        }
        self.append_added(pool, key, bytes)?;
        Ok(())
    }

    /// Closes the file: the index on the pack becomes the key order of all records. The index isn't written if nothing was added.
    pub fn close<P: Sectors>(self, pool: &mut P) -> Result<(), KeyedFault>
        requires stored { AreStored (shown self).sectors (P.state pool.old).contents }
        requires ordered { HasKeyOrder (shown self) (P.state pool.old).contents }
        ensures index { OnOk result (index_in (shown self).layout (shown self).count (bytes_now (shown self) (P.state pool.new).contents) ≡ key_order (keys_now (shown self) (P.state pool.old).contents)) }
        ensures good { OnOk result (is_good_index (index_in (shown self).layout (shown self).count (bytes_now (shown self) (P.state pool.new).contents)) (keys_now (shown self) (P.state pool.new).contents) ≡ true) }
        ensures records { records_now (shown self) (P.state pool.new).contents ≡ records_now (shown self) (P.state pool.old).contents }
        ensures unused { KeepsUnused (shown self).layout (shown self).count (bytes_now (shown self) (P.state pool.old).contents) (bytes_now (shown self) (P.state pool.new).contents) }
        ensures within { ChangesWithin (Contains (shown self).sectors) (P.state pool.old) (P.state pool.new) }
        ensures failures { (P.state pool.new).failures ≡ (P.state pool.old).failures + failed_keyed_transfers result }
        ensures fault { IfErr result IsOfSectors }
    {
        let Keyed {
            file,
            indexed,
            count: _,
            mut added,
            guide: _,
        } = self;
        merge(&file, pool, indexed, &mut added)?;
        Ok(())
    }

    /// Whether a key is above those of all records.
    fn is_above_all<P: Sectors>(&self, pool: &mut P, key: &Key) -> Result<bool, SectorFault>
        requires stored { AreStored (shown self.now).sectors (P.state pool.old).contents }
        requires ordered { HasKeyOrder (shown self.now) (P.state pool.old).contents }
        ensures above { IfOk result (λ above. list_all (λ other. nat_lt other (number_of key.now.bytes)) (keys_now (shown self.now) (P.state pool.old).contents) ≡ above) }
        ensures reads { Reads result (P.state pool.old) (P.state pool.new) }
    {
        if !self.added.are_below(key) {
            return Ok(false);
        }
        is_above_index(&self.file, pool, self.indexed, key)
    }

    /// Puts a record after the last one, with its entry in memory.
    fn append_added<P: Sectors>(
        &mut self,
        pool: &mut P,
        key: Key,
        bytes: &[u8],
    ) -> Result<(), SectorFault>
        requires stored { AreStored (shown self.old).sectors (P.state pool.old).contents }
        requires ordered { HasKeyOrder (shown self.old) (P.state pool.old).contents }
        requires room { (shown self.old).count < (shown self.old).layout.capacity }
        requires long { length bytes.now ≡ (shown self.old).layout.record_length }
        requires key { number_of key.bytes ≡ key_of (shown self.old).layout.key bytes.now }
        requires short { number_of key.bytes < 256 ^ (shown self.old).layout.key.length }
        requires is_new { place_of_key (number_of key.bytes) (keys_now (shown self.old) (P.state pool.old).contents) ≡ None }
        ensures ok { OnOk result (records_now (shown self.new) (P.state pool.new).contents ≡ records_now (shown self.old) (P.state pool.old).contents ++ bytes.now ∷ []) }
        ensures ordered { OnOk result (HasKeyOrder (shown self.new) (P.state pool.new).contents) }
        ensures same { IsSameFile (shown self.old) (shown self.new) }
        ensures unused { KeepsUnused (shown self.old).layout ((shown self.old).count + 1) (bytes_now (shown self.old) (P.state pool.old).contents) (bytes_now (shown self.old) (P.state pool.new).contents) }
        ensures changes { Changes (shown self.old).sectors result (P.state pool.old) (P.state pool.new) }
    {
        let number = self.count + 1;
        self.added.insert(IndexEntry { key, number })?;
        write_record(&self.file, pool, self.count, bytes)?;
        self.count += 1;
        Ok(())
    }

    /// Puts a record with the highest key after the last one, with its entry after the last one on the pack.
    fn append_indexed<P: Sectors>(
        &mut self,
        pool: &mut P,
        key: Key,
        bytes: &[u8],
    ) -> Result<(), SectorFault>
        requires stored { AreStored (shown self.old).sectors (P.state pool.old).contents }
        requires ordered { HasKeyOrder (shown self.old) (P.state pool.old).contents }
        requires room { (shown self.old).count < (shown self.old).layout.capacity }
        requires long { length bytes.now ≡ (shown self.old).layout.record_length }
        requires key { number_of key.bytes ≡ key_of (shown self.old).layout.key bytes.now }
        requires short { number_of key.bytes < 256 ^ (shown self.old).layout.key.length }
        requires none_added { (shown self.old).added ≡ [] }
        requires above { list_all (λ other. nat_lt other (number_of key.bytes)) (keys_now (shown self.old) (P.state pool.old).contents) ≡ true }
        ensures ok { OnOk result (records_now (shown self.new) (P.state pool.new).contents ≡ records_now (shown self.old) (P.state pool.old).contents ++ bytes.now ∷ []) }
        ensures ordered { OnOk result (HasKeyOrder (shown self.new) (P.state pool.new).contents) }
        ensures same { IsSameFile (shown self.old) (shown self.new) }
        ensures unused { KeepsUnused (shown self.old).layout ((shown self.old).count + 1) (bytes_now (shown self.old) (P.state pool.old).contents) (bytes_now (shown self.old) (P.state pool.new).contents) }
        ensures changes { Changes (shown self.old).sectors result (P.state pool.old) (P.state pool.new) }
    {
        let number = self.count + 1;
        write_entry(&self.file, pool, self.indexed, &IndexEntry { key, number })?;
        write_record(&self.file, pool, self.count, bytes)?;
        self.indexed = number;
        self.count = number;
        Ok(())
    }
}
