//! Up to 16 sectors in memory, and the transfers between them and a store.
ghost use Rattle.std.specs.Prelude.{◌≡◌, ◌<◌, ◌≤◌, ◌+◌, ◌++◌, ◌↔◌, [], ◌∷◌, length, slice_get, slice_set, Some, OnOk, OnErr, IfOk, IfErr, IsErrOf, IsTrue, MatchOption, false};
ghost use Rattle.std.specs.Borrow.{sem};
ghost use Rattle.s3_store.specs.Inner.Failures.{failed_calls, failed_transfers};
ghost use Rattle.s3_pool.specs.Inner.Buffers.{IsAt, IsMissed, IsSound, KeepsLaid, Overwrites};
ghost use Rattle.s3_pool.specs.Inner.BufferLending.{LendsBytes, LendsBuffer, IsInStep, place, with_taken};
ghost use Rattle.s3_pool.specs.Inner.Loads.{failed_loads};
ghost use Rattle.s3_pool.specs.Inner.Places.{IsPlaced, IsIndexed};

use crate::pool_fault::PoolFault;
use crate::slot_hash::SlotHash;
use lru::LruCache;
use s3_store::{PackStore, SectorFault, StoreFault};
use std::alloc::{AllocError, Global};
use std::mem;
use std::num::NonZeroUsize;
use std::ops::Range;

/// A sector in memory. Its bytes have a place of their own, so that they aren't moved with it.
#[derive(Drop)]
pub(crate) struct Buffer {
    sector: u16,
    bytes: Box<[u8; 256]>,
    /// Whether the store may have other bytes.
    is_dirty: bool,
}

impl Buffer {
    /// The bytes.
    pub(crate) fn bytes(&self) -> &[u8; 256]
        ensures { result.now ≡ self.now.bytes.value }
    {
        &self.bytes
    }

    /// The bytes to write to, which are dirty from now on.
    pub(crate) fn bytes_mut(&mut self) -> &mut [u8; 256]
        ensures* writes_back { sem 𝓛 (LendsBytes self.entry result) }
        ensures value { result.now ≡ self.old.bytes.value }
    {
        self.is_dirty = true;
        self.bytes.as_mut()
    }
}

/// The sectors in memory, each in a slot that it keeps while it is there.
#[derive(Drop)]
pub(crate) struct Buffers {
    slots: Vec<Buffer>,
    /// The slot of each sector of the store. If no slot has the sector, this is a slot that had it, or the first one; the slot
    /// itself says which sector it has.
    places: Vec<u8>,
    /// The slots in the order of their use. It says which one is displaced, and nothing rests on it.
    order: LruCache<u8, (), SlotHash>,
    /// The slot that was used last.
    last: u8,
    /// The bytes that the next sector is read or copied into, before it displaces another.
    spare: Box<[u8; 256]>,
}

/// How many sectors may be in memory.
const ROOM: usize = 16;

/// The spool's blocks: each is written whole and read once, so a buffer would be taken from another sector for nothing.
const SPOOL_BLOCKS: Range<u16> = 25..153;

impl Buffers {
    /// Buffers for 16 of this number of sectors.
    pub(crate) fn new(alloc: Global, sectors: u16) -> Result<Self, AllocError>
        ensures empty { IfOk result (λ buffers. buffers.slots.items ≡ []) }
        ensures places { IfOk result (λ buffers. length buffers.places.items ≡ sectors) }
    {
        Ok(Buffers {
            slots: Vec::with_capacity(alloc, ROOM)?,
            places: vec![in alloc; 0; usize::from(sectors)]?,
            order: LruCache::with_hasher(alloc, NonZeroUsize::new(ROOM).unwrap(), SlotHash::new())?,
            last: 0,
            spare: Box::new(alloc, [0; 256])?,
        })
    }

    /// Whether there is room for one more sector, which displaces another else.
    fn has_room(&self) -> bool
        ensures room { IsTrue result → length self.now.slots.items < 16 }
        ensures full { result ≡ false → 16 ≤ length self.now.slots.items }
    {
        self.slots.len() < ROOM
    }

    /// The slot that has sector `n`.
    fn slot_of(&self, n: u16) -> Option<u8>
        requires in_range { n < length self.now.places.items }
        requires placed { IsPlaced self.now.places.items self.now.slots.items }
        ensures { MatchOption result (IsMissed n self.now.slots.items) (λ slot. IsAt n slot self.now.slots.items) }
    {
        let slot = self.places[usize::from(n)];
        match self.slots.get(usize::from(slot)) {
            Some(buffer) if buffer.sector == n => Some(slot),
            _ => None,
        }
    }

    /// Whether a buffer holds sector `n`.
    fn holds(&self, n: u16) -> bool
        requires in_range { n < length self.now.places.items }
        requires placed { IsPlaced self.now.places.items self.now.slots.items }
        ensures { result ≡ false → IsMissed n self.now.slots.items }
    {
        match self.slot_of(n) {
            Some(_) => true,
            None => false,
        }
    }

    /// Whether sector `n` is a spool block that no buffer holds.
    pub(crate) fn is_unheld_block(&self, n: u16) -> bool
        requires in_range { n < length self.now.places.items }
        requires placed { IsPlaced self.now.places.items self.now.slots.items }
        ensures { IsTrue result → IsMissed n self.now.slots.items }
    {
        SPOOL_BLOCKS.contains(&n) && !self.holds(n)
    }

    /// The buffer in a slot.
    pub(crate) fn buffer(&self, slot: u8) -> &Buffer
        requires { slot < length self.now.slots.items }
        ensures { slice_get self.now.slots.items slot ≡ Some result.now }
    {
        &self.slots[usize::from(slot)]
    }

    /// The buffer in a slot, to write to.
    pub(crate) fn buffer_mut(&mut self, slot: u8) -> &mut Buffer
        requires { slot < length self.old.slots.items }
        ensures* writes_back { sem 𝓛 (LendsBuffer self.entry slot result) }
        ensures value { slice_get self.old.slots.items slot ≡ Some result.now }
    {
        &mut self.slots[usize::from(slot)]
    }

    /// A slot is used.
    #[inline(always)]
    fn note_use(&mut self, slot: u8)
        ensures slots { self.new.slots ≡ self.old.slots }
        ensures places { self.new.places ≡ self.old.places }
    {
        if slot != self.last {
            self.last = slot;
            self.order.promote(&slot);
        }
    }

    /// The slot that was used before all others, of 16.
    fn least_recent(&self) -> u8
        requires { 0 < length self.now.slots.items }
        ensures { result < length self.now.slots.items }
    {
        match self.order.peek_lru() {
            Some((slot, _)) if usize::from(*slot) < self.slots.len() => *slot,
            _ => 0,
        }
    }

    /// A new slot gets the spare bytes as those of sector `n`. There are at most 16 slots, each of which is made once.
    #[inline(never)]
    fn add(&mut self, n: u16, is_dirty: bool) -> Result<u8, SectorFault>
        requires room { length self.old.slots.items < 16 }
        requires in_range { n < length self.old.places.items }
        ensures added { IfOk result (λ slot. slot ≡ length self.old.slots.items) }
        ensures ok { OnOk result (self.new.slots.items ≡ self.old.slots.items ++ record { sector = n; bytes = self.old.spare; is_dirty = is_dirty } ∷ []) }
        ensures places { OnOk result (self.new.places.items ≡ slice_set self.old.places.items n (length self.old.slots.items)) }
        ensures err { OnErr result (self.new.slots.items ≡ self.old.slots.items) }
        ensures err_places { OnErr result (self.new.places.items ≡ self.old.places.items) }
        ensures fault { IfErr result (λ fault. fault ≡ SectorFault.NoMemory) }
    {
        let slot = self.slots.len() as u8;
        let next = Box::new(*self.order.allocator(), [0; 256])?;
        self.order.put(slot, ())?;
        let bytes = mem::replace(&mut self.spare, next);
        self.slots.push(Buffer {
            sector: n,
            bytes,
            is_dirty,
        })?;
        self.places[usize::from(n)] = slot;
        Ok(slot)
    }

    /// A slot gets the spare bytes as those of sector `n`. What it had is spare from now on.
    fn replace(&mut self, slot: u8, n: u16, is_dirty: bool)
        requires slot { slot < length self.old.slots.items }
        requires in_range { n < length self.old.places.items }
        ensures places { self.new.places.items ≡ slice_set self.old.places.items n slot }
        ensures slots { self.new.slots.items ≡ slice_set self.old.slots.items slot (record { sector = n; bytes = self.old.spare; is_dirty = is_dirty }) }
    {
        let buffer = &mut self.slots[usize::from(slot)];
        mem::swap(&mut buffer.bytes, &mut self.spare);
        buffer.sector = n;
        buffer.is_dirty = is_dirty;
        self.places[usize::from(n)] = slot;
    }

    /// Puts sector `n` into a slot, or into a new one, with the spare bytes as its own.
    fn take_in(&mut self, slot: Option<u8>, n: u16, is_dirty: bool) -> Result<u8, SectorFault>
        requires in_range { n < length self.old.places.items }
        requires slot { MatchOption slot (length self.old.slots.items < 16) (λ slot. slot < length self.old.slots.items) }
        ensures ok { OnOk result (self.new.slots.items ≡ with_taken self.old.slots.items slot (record { sector = n; bytes = self.old.spare; is_dirty = is_dirty })) }
        ensures at { IfOk result (λ slot. IsAt n slot self.new.slots.items) }
        ensures places { OnOk result (self.new.places.items ≡ slice_set self.old.places.items n (place self.old.slots.items slot)) }
        ensures err { OnErr result (self.new.slots.items ≡ self.old.slots.items) }
        ensures err_places { OnErr result (self.new.places.items ≡ self.old.places.items) }
        ensures fault { IfErr result (λ fault. fault ≡ SectorFault.NoMemory) }
    {
        match slot {
            Some(slot) => {
                self.replace(slot, n, is_dirty);
                Ok(slot)
            }
            None => self.add(n, is_dirty),
        }
    }
}

/// Writes the bytes of a buffer into the store.
fn write_back<S: PackStore>(store: &mut S, buffer: &Buffer) -> Result<(), StoreFault>
    requires in_range { buffer.now.sector < length (S.contents store.old) }
    requires clean { buffer.now.is_dirty ≡ false → slice_get (S.contents store.old) buffer.now.sector ≡ Some buffer.now.bytes.value }
    ensures ok { OnOk result (S.contents store.new ≡ slice_set (S.contents store.old) buffer.now.sector buffer.now.bytes.value) }
    ensures err { OnErr result (S.contents store.new ≡ S.contents store.old) }
    ensures failures { S.failures store.new ≡ S.failures store.old + failed_calls result }
{
    if !buffer.is_dirty {
        return Ok(());
    }
    store.write(buffer.sector, &buffer.bytes)
}

/// The slot that was used before all others, whose bytes the store has from now on.
fn give_way<S: PackStore>(store: &mut S, buffers: &Buffers) -> Result<u8, StoreFault>
    requires sound { IsSound (S.contents store.old) buffers.now.slots.items }
    requires full { 16 ≤ length buffers.now.slots.items }
    ensures keeps { KeepsLaid (S.contents store.old) buffers.now.slots.items (S.contents store.new) buffers.now.slots.items }
    ensures in_step { IfOk result (IsInStep (S.contents store.new) buffers.now.slots.items) }
    ensures failures { S.failures store.new ≡ S.failures store.old + failed_calls result }
{
    let slot = buffers.least_recent();
    write_back(store, buffers.buffer(slot))?;
    Ok(slot)
}

/// The slot for the next sector: a new one while there is space, else the slot that was used longest ago, whose bytes are written
/// into the store.
fn make_way<S: PackStore>(store: &mut S, buffers: &Buffers) -> Result<Option<u8>, StoreFault>
    requires { IsSound (S.contents store.old) buffers.now.slots.items }
    ensures keeps { KeepsLaid (S.contents store.old) buffers.now.slots.items (S.contents store.new) buffers.now.slots.items }
    ensures way { IfOk result (λ way. MatchOption way (length buffers.now.slots.items < 16) (λ slot. IsInStep (S.contents store.new) buffers.now.slots.items slot)) }
    ensures failures { S.failures store.new ≡ S.failures store.old + failed_calls result }
{
    if buffers.has_room() {
        return Ok(None);
    }
    let slot = give_way(store, buffers)?;
    Ok(Some(slot))
}

/// Reads sector `n`, which no buffer holds, into a slot whose bytes the store has, or into a new one. The slot is used.
fn read_in<S: PackStore>(
    store: &mut S,
    buffers: &mut Buffers,
    way: Option<u8>,
    n: u16,
) -> Result<u8, SectorFault>
    requires sound { IsSound (S.contents store.old) buffers.old.slots.items }
    requires indexed { IsIndexed (S.contents store.old) buffers.old }
    requires way { MatchOption way (length buffers.old.slots.items < 16) (λ slot. IsInStep (S.contents store.old) buffers.old.slots.items slot) }
    requires in_range { n < length (S.contents store.old) }
    requires missed { IsMissed n buffers.old.slots.items }
    ensures keeps { KeepsLaid (S.contents store.old) buffers.old.slots.items (S.contents store.new) buffers.new.slots.items }
    ensures at { IfOk result (λ slot. IsAt n slot buffers.new.slots.items) }
    ensures indexed { IsIndexed (S.contents store.new) buffers.new }
    ensures failures { S.failures store.new ≡ S.failures store.old + failed_transfers result }
{
    store.read(n, &mut buffers.spare)?;
    let slot = buffers.take_in(way, n, false)?;
    buffers.note_use(slot);
    Ok(slot)
}

/// Reads sector `n`, which no buffer holds, into a new slot. There are at most 16 slots, each of which is made once.
#[inline(never)]
fn fetch_more<S: PackStore>(store: &mut S, buffers: &mut Buffers, n: u16) -> Result<u8, SectorFault>
    requires sound { IsSound (S.contents store.old) buffers.old.slots.items }
    requires indexed { IsIndexed (S.contents store.old) buffers.old }
    requires room { length buffers.old.slots.items < 16 }
    requires in_range { n < length (S.contents store.old) }
    requires missed { IsMissed n buffers.old.slots.items }
    ensures keeps { KeepsLaid (S.contents store.old) buffers.old.slots.items (S.contents store.new) buffers.new.slots.items }
    ensures at { IfOk result (λ slot. IsAt n slot buffers.new.slots.items) }
    ensures indexed { IsIndexed (S.contents store.new) buffers.new }
    ensures failures { S.failures store.new ≡ S.failures store.old + failed_transfers result }
{
    read_in(store, buffers, None, n)
}

/// Reads sector `n`, which no buffer holds, into a slot, which is used.
#[inline(never)]
fn fetch<S: PackStore>(store: &mut S, buffers: &mut Buffers, n: u16) -> Result<u8, SectorFault>
    requires sound { IsSound (S.contents store.old) buffers.old.slots.items }
    requires indexed { IsIndexed (S.contents store.old) buffers.old }
    requires in_range { n < length (S.contents store.old) }
    requires missed { IsMissed n buffers.old.slots.items }
    ensures keeps { KeepsLaid (S.contents store.old) buffers.old.slots.items (S.contents store.new) buffers.new.slots.items }
    ensures at { IfOk result (λ slot. IsAt n slot buffers.new.slots.items) }
    ensures indexed { IsIndexed (S.contents store.new) buffers.new }
    ensures failures { S.failures store.new ≡ S.failures store.old + failed_transfers result }
{
    if buffers.has_room() {
        return fetch_more(store, buffers, n);
    }
    let slot = give_way(store, buffers)?;
    read_in(store, buffers, Some(slot), n)
}

/// Answers the slot of sector `n`, which must be there, as the slot that was used last. The sector is read if no slot has it.
pub(crate) fn load<S: PackStore>(
    store: &mut S,
    buffers: &mut Buffers,
    n: u16,
) -> Result<u8, SectorFault>
    requires sound { IsSound (S.contents store.old) buffers.old.slots.items }
    requires indexed { IsIndexed (S.contents store.old) buffers.old }
    requires in_range { n < length (S.contents store.old) }
    ensures keeps { KeepsLaid (S.contents store.old) buffers.old.slots.items (S.contents store.new) buffers.new.slots.items }
    ensures at { IfOk result (λ slot. IsAt n slot buffers.new.slots.items) }
    ensures indexed { IsIndexed (S.contents store.new) buffers.new }
    ensures failures { S.failures store.new ≡ S.failures store.old + failed_transfers result }
{
    let Some(slot) = buffers.slot_of(n) else {
        return fetch(store, buffers, n);
    };
    buffers.note_use(slot);
    Ok(slot)
}

/// Answers the slot of sector `n`, as the slot that was used last. Refused with `NoSector` exactly if there is no such sector.
pub(crate) fn load_if_there<S: PackStore>(
    store: &mut S,
    buffers: &mut Buffers,
    n: u16,
) -> Result<u8, PoolFault>
    requires sound { IsSound (S.contents store.old) buffers.old.slots.items }
    requires indexed { IsIndexed (S.contents store.old) buffers.old }
    ensures keeps { KeepsLaid (S.contents store.old) buffers.old.slots.items (S.contents store.new) buffers.new.slots.items }
    ensures in_range { OnOk result (n < length (S.contents store.old)) }
    ensures at { IfOk result (λ slot. IsAt n slot buffers.new.slots.items) }
    ensures indexed { IsIndexed (S.contents store.new) buffers.new }
    ensures failures { S.failures store.new ≡ S.failures store.old + failed_loads result }
    ensures no_sector { (IsErrOf result PoolFault.NoSector) ↔ (length (S.contents store.old) ≤ n) }
{
    if n >= store.sectors() {
        return Err(PoolFault::NoSector);
    }
    let slot = load(store, buffers, n)?;
    Ok(slot)
}

/// Has a slot have these bytes as those of sector `n`, which no buffer holds. The sector isn't read.
fn cover<S: PackStore>(
    store: &mut S,
    buffers: &mut Buffers,
    n: u16,
    bytes: &[u8; 256],
) -> Result<(), SectorFault>
    requires sound { IsSound (S.contents store.old) buffers.old.slots.items }
    requires indexed { IsIndexed (S.contents store.old) buffers.old }
    requires in_range { n < length (S.contents store.old) }
    requires missed { IsMissed n buffers.old.slots.items }
    ensures ok { OnOk result (Overwrites n bytes.now (S.contents store.old) buffers.old.slots.items (S.contents store.new) buffers.new.slots.items) }
    ensures err { OnErr result (KeepsLaid (S.contents store.old) buffers.old.slots.items (S.contents store.new) buffers.new.slots.items) }
    ensures indexed { IsIndexed (S.contents store.new) buffers.new }
    ensures failures { S.failures store.new ≡ S.failures store.old + failed_transfers result }
{
    let way = make_way(store, buffers)?;
    *buffers.spare = *bytes;
    let slot = buffers.take_in(way, n, true)?;
    buffers.note_use(slot);
    Ok(())
}

/// Has sector `n` have these bytes in its buffer, or in a new one. The sector isn't read.
#[inline(never)]
fn overlay<S: PackStore>(
    store: &mut S,
    buffers: &mut Buffers,
    n: u16,
    bytes: &[u8; 256],
) -> Result<(), SectorFault>
    requires sound { IsSound (S.contents store.old) buffers.old.slots.items }
    requires indexed { IsIndexed (S.contents store.old) buffers.old }
    requires in_range { n < length (S.contents store.old) }
    ensures ok { OnOk result (Overwrites n bytes.now (S.contents store.old) buffers.old.slots.items (S.contents store.new) buffers.new.slots.items) }
    ensures err { OnErr result (KeepsLaid (S.contents store.old) buffers.old.slots.items (S.contents store.new) buffers.new.slots.items) }
    ensures indexed { IsIndexed (S.contents store.new) buffers.new }
    ensures failures { S.failures store.new ≡ S.failures store.old + failed_transfers result }
{
    let Some(slot) = buffers.slot_of(n) else {
        return cover(store, buffers, n, bytes);
    };
    *buffers.buffer_mut(slot).bytes_mut() = *bytes;
    buffers.note_use(slot);
    Ok(())
}

/// Sets sector `n` to these bytes: in its buffer, in a new one, or, if a spool block would displace another sector, in the store.
/// The sector isn't read.
pub(crate) fn overwrite<S: PackStore>(
    store: &mut S,
    buffers: &mut Buffers,
    n: u16,
    bytes: &[u8; 256],
) -> Result<(), SectorFault>
    requires sound { IsSound (S.contents store.old) buffers.old.slots.items }
    requires indexed { IsIndexed (S.contents store.old) buffers.old }
    requires in_range { n < length (S.contents store.old) }
    ensures ok { OnOk result (Overwrites n bytes.now (S.contents store.old) buffers.old.slots.items (S.contents store.new) buffers.new.slots.items) }
    ensures err { OnErr result (KeepsLaid (S.contents store.old) buffers.old.slots.items (S.contents store.new) buffers.new.slots.items) }
    ensures indexed { IsIndexed (S.contents store.new) buffers.new }
    ensures failures { S.failures store.new ≡ S.failures store.old + failed_transfers result }
{
    if buffers.has_room() || !buffers.is_unheld_block(n) {
        return overlay(store, buffers, n, bytes);
    }
    store.write(n, bytes)?;
    Ok(())
}

/// Gives up all buffers, once the store has them.
pub(crate) fn give_up_all<S: PackStore>(
    store: &mut S,
    buffers: &mut Buffers,
) -> Result<(), StoreFault>
    requires sound { IsSound (S.contents store.old) buffers.old.slots.items }
    requires indexed { IsIndexed (S.contents store.old) buffers.old }
    ensures keeps { KeepsLaid (S.contents store.old) buffers.old.slots.items (S.contents store.new) buffers.new.slots.items }
    ensures indexed { IsIndexed (S.contents store.new) buffers.new }
    ensures empty { OnOk result (buffers.new.slots.items ≡ []) }
    ensures failures { S.failures store.new ≡ S.failures store.old + failed_calls result }
{
    for slot in 0..buffers.slots.len() {
        write_back(store, &buffers.slots[slot])?;
    }
    buffers.slots.clear();
    buffers.order.clear();
    Ok(())
}
