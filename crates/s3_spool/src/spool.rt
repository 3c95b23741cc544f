//! The queues of both levels.
ghost use Rattle.std.specs.Prelude.{◌≡◌, ◌≢◌, ◌<◌, ◌≤◌, ◌+◌, ◌++◌, ◌∷◌, [], ◌↔◌, Err, length, slice_get, IfOk, OnOk, OnErr, slice_set};
ghost use Rattle.std.specs.List.{range_with_len};
ghost use Rattle.s3_cards.specs.Inner.Levels.{other};
ghost use Rattle.s3_store.specs.Inner.Failures.{failed_transfers};
ghost use Rattle.s3_store.specs.Bytes.{sector_bytes};
ghost use Rattle.s3_store.specs.Inner.State.{KeepsContents, ChangesWithin};
ghost use Rattle.s3_spool.specs.Inner.Queues.{times, blocks_of, quota_of, queue_of, with_queued, with_taken, AreBlocks, IsFreeSector, failed_by, line_of_block as line_of_block_spec, block_bytes as block_bytes_spec, block_sector};

use crate::block::{lay_line, line_of_block};
use crate::composed_line::ComposedLine;
use crate::fault::SpoolFault;
use circular_buffer::HeapCircularBuffer;
use s3_cards::{LevelId, PrintLine};
use s3_store::{SectorFault, Sectors};
use std::alloc::{AllocError, Global};
use std::marker::Model;

/// How many spool blocks a pack has.
const BLOCKS: u8 = 128;

/// The sector of the first block.
const FIRST_BLOCK: u16 = 25;

/// The printed lines that wait in each level's queue, each in a spool block of the pack. A level may have as many as its quota.
#[derive(Drop)]
pub struct Spool {
    free: HeapCircularBuffer<u8>,
    one: HeapCircularBuffer<u8>,
    two: HeapCircularBuffer<u8>,
}

impl Model for Spool {
    ghost use Rattle.std.specs.Prelude.{◌≡◌, ◌+◌, ◌≤◌, length};
    ghost use Rattle.s3_spool.specs.Inner.Queues.{Blocks, AreBlocks};

    ghost Value = { Blocks };

    ghost view = { λ s. record {
      free = s.free.items;
      one = s.one.items;
      two = s.two.items;
      quota_one = s.one.capacity;
      quota_two = s.two.capacity;
    } };

    ghost invariant = { λ s. (s.free.capacity ≡ 128)
        × ((s.one.capacity + s.two.capacity ≤ 128)
        × ((length s.one.items ≤ s.one.capacity)
        × ((length s.two.items ≤ s.two.capacity) × AreBlocks s.free.items s.one.items s.two.items))) };
}

/// The numbers of all spool blocks, from 0, in order.
#[tactic(auto, using(crate::proofs::BlocksLemmas::pushed_in_order))]
fn all_blocks(alloc: Global) -> Result<HeapCircularBuffer<u8>, AllocError>
    ensures items { IfOk result (λ ring. ring.items ≡ range_with_len 0 128) }
    ensures capacity { IfOk result (λ ring. ring.capacity ≡ 128) }
{
    let mut ring = HeapCircularBuffer::with_capacity(alloc, BLOCKS as usize)?;
    for block in 0..BLOCKS {
        ring.push_back(block);
    }
    Ok(ring)
}

/// Puts a line into a block.
#[tactic(auto)]
fn put_line<P: Sectors>(
    sectors: &mut P,
    block: u8,
    line: &ComposedLine<'_>,
) -> Result<(), SectorFault>
    requires { block_sector block < length (P.state sectors.old).contents }
    ensures ok { OnOk result ((P.state sectors.new).contents ≡ slice_set (P.state sectors.old).contents (block_sector block) (block_bytes_spec line.now)) }
    ensures err { OnErr result ((P.state sectors.new).contents ≡ (P.state sectors.old).contents) }
    ensures reads { line_of_block_spec (block_bytes_spec line.now) ≡ line.now }
    ensures whole { length (block_bytes_spec line.now) ≡ 256 }
    ensures within { ChangesWithin (λ i. i ≡ block_sector block) (P.state sectors.old) (P.state sectors.new) }
    ensures failures { (P.state sectors.new).failures ≡ (P.state sectors.old).failures + failed_transfers result }
{
    let mut bytes = [0; 256];
    lay_line(&mut bytes, line);
    sectors.write_sector(FIRST_BLOCK + u16::from(block), &bytes)
}

/// The line in a block.
#[tactic(auto, using(crate::proofs::BlocksLemmas::read_sector_bytes))]
#[inline(always)]
fn read_line<P: Sectors>(sectors: &mut P, block: u8) -> Result<PrintLine, SectorFault>
    requires { block_sector block < length (P.state sectors.old).contents }
    ensures ok { IfOk result (λ line. line ≡ line_of_block_spec (sector_bytes (P.state sectors.old).contents (block_sector block))) }
    ensures keeps { KeepsContents (P.state sectors.old) (P.state sectors.new) }
    ensures failures { (P.state sectors.new).failures ≡ (P.state sectors.old).failures + failed_transfers result }
{
    let mut bytes = [0; 256];
    sectors.read_sector(FIRST_BLOCK + u16::from(block), &mut bytes)?;
    Ok(line_of_block(&bytes))
}

impl Spool {
    ghost use Rattle.std.specs.Prelude.{◌≡◌, ◌≢◌, ◌<◌, ◌+◌, ◌++◌, ◌∷◌, ◌≤◌, ◌↔◌, IfOk, IfSome, OnOk, OnErr, IsTrue, Err, Some, [], length, slice_get};

    /// Empty queues with these quotas of lines, together at most 128.
    #[tactic(auto, using(crate::proofs::BlocksLemmas::first_blocks))]
    pub fn new(alloc: Global, quota_one: u8, quota_two: u8) -> Result<Spool, AllocError>
        requires { quota_one + quota_two ≤ 128 }
        ensures one { IfOk result (λ spool. (spool.one ≡ []) × (spool.quota_one ≡ quota_one)) }
        ensures two { IfOk result (λ spool. (spool.two ≡ []) × (spool.quota_two ≡ quota_two)) }
        ensures blocks { IfOk result (λ spool. AreBlocks spool.free spool.one spool.two) }
    {
        Ok(Spool {
            free: all_blocks(alloc)?,
            one: HeapCircularBuffer::with_capacity(alloc, quota_one as usize)?,
            two: HeapCircularBuffer::with_capacity(alloc, quota_two as usize)?,
        })
    }

    fn ring(&self, level: LevelId) -> &HeapCircularBuffer<u8>
        ensures items { result.now.items ≡ blocks_of level self.now }
        ensures capacity { result.now.capacity ≡ quota_of level self.now }
    {
        match level {
            LevelId::One => &self.one,
            LevelId::Two => &self.two,
        }
    }

    /// How many lines a level has queued.
    pub fn queued(&self, level: LevelId) -> usize
        ensures { result ≡ length (blocks_of level self.now) }
    {
        self.ring(level).len()
    }

    /// Whether a level has as many lines queued as its quota.
    pub fn is_full(&self, level: LevelId) -> bool
        ensures full { IsTrue result ↔ (length (blocks_of level self.now) ≡ quota_of level self.now) }
        ensures within { length (blocks_of level self.now) ≤ quota_of level self.now }
    {
        let ring = self.ring(level);
        ring.len() == ring.capacity()
    }

    /// The first block that holds no line; a level below its quota finds one.
    #[tactic(auto, using(crate::proofs::BlocksLemmas::first_below, crate::proofs::BlocksLemmas::is_any_free, crate::proofs::BlocksLemmas::free_elsewhere))]
    fn first_free(&self, level: LevelId) -> u8
        requires { length (blocks_of level self.now) < quota_of level self.now }
        ensures first { slice_get self.now.free 0 ≡ Some result }
        ensures few { result < 128 }
        ensures elsewhere { times result self.now.one + times result self.now.two ≡ 0 }
    {
        match self.free.front() {
            Some(block) => *block,
            None => unreachable!(),
        }
    }

    /// The first free block becomes the last one of a level's queue.
    #[tactic(auto, using(crate::proofs::BlocksLemmas::kept_all, crate::proofs::BlocksLemmas::moved_one, crate::proofs::BlocksLemmas::moved_two))]
    fn enqueue(&mut self, level: LevelId, block: u8)
        requires first { slice_get self.old.free 0 ≡ Some block }
        requires room { length (blocks_of level self.old) < quota_of level self.old }
        ensures queued { self.new ≡ with_queued level block self.old }
        ensures blocks { AreBlocks self.new.free self.new.one self.new.two }
    {
        self.free.pop_front();
        match level {
            LevelId::One => self.one.push_back(block),
            LevelId::Two => self.two.push_back(block),
        };
    }

    /// A level's first block becomes the first free one.
    #[tactic(auto, using(crate::proofs::BlocksLemmas::kept_all_behind, crate::proofs::BlocksLemmas::back_from_one, crate::proofs::BlocksLemmas::back_from_two))]
    fn dequeue(&mut self, level: LevelId, block: u8)
        requires { slice_get (blocks_of level self.old) 0 ≡ Some block }
        ensures taken { self.new ≡ with_taken level block self.old }
        ensures blocks { AreBlocks self.new.free self.new.one self.new.two }
    {
        match level {
            LevelId::One => self.one.pop_front(),
            LevelId::Two => self.two.pop_front(),
        };
        self.free.push_front(block);
    }

    /// Puts a line after the last one of a level's queue.
    ///
    /// Refused with `QuotaFull` exactly if the level has as many queued lines as its quota; then no sector is touched. Also
    /// refused by the faults of the sectors. A refused call leaves the queues as they were. `sectors` are those of a pack: the
    /// spool's blocks are sectors 25 to 152.
    pub fn put<P: Sectors>(
        &mut self,
        level: LevelId,
        line: &PrintLine,
        sectors: &mut P,
    ) -> Result<(), SpoolFault>
        requires { 153 ≤ length (P.state sectors.old).contents }
        ensures queued { OnOk result (queue_of level self.new (P.state sectors.new).contents ≡ queue_of level self.old (P.state sectors.old).contents ++ line.now ∷ []) }
        ensures other { queue_of (other level) self.new (P.state sectors.new).contents ≡ queue_of (other level) self.old (P.state sectors.old).contents }
        ensures other_blocks { blocks_of (other level) self.new ≡ blocks_of (other level) self.old }
        ensures quotas { (one_or_two : LevelId) → quota_of one_or_two self.new ≡ quota_of one_or_two self.old }
        ensures full { (result ≡ Err SpoolFault.QuotaFull) ↔ (length (blocks_of level self.old) ≡ quota_of level self.old) }
        ensures untouched { result ≡ Err SpoolFault.QuotaFull → sectors.new ≡ sectors.old }
        ensures not_empty { result ≢ Err SpoolFault.Empty }
        ensures err { OnErr result (self.new ≡ self.old) }
        ensures blocks { AreBlocks self.new.free self.new.one self.new.two }
        ensures within { ChangesWithin (IsFreeSector self.old) (P.state sectors.old) (P.state sectors.new) }
        ensures failures { (P.state sectors.new).failures ≡ (P.state sectors.old).failures + failed_by result }
    {
        self.put_composed(level, &ComposedLine::of(line), sectors)
    }

    /// Puts a line whose text is borrowed after the last one of a level's queue.
    ///
    /// Refused with `QuotaFull` exactly if the level has as many queued lines as its quota; then no sector is touched. Also
    /// refused by the faults of the sectors. A refused call leaves the queues as they were. `sectors` are those of a pack: the
    /// spool's blocks are sectors 25 to 152.
    #[tactic(auto)]
    pub fn put_composed<P: Sectors>(
        &mut self,
        level: LevelId,
        line: &ComposedLine<'_>,
        sectors: &mut P,
    ) -> Result<(), SpoolFault>
        requires { 153 ≤ length (P.state sectors.old).contents }
        ensures queued { OnOk result (queue_of level self.new (P.state sectors.new).contents ≡ queue_of level self.old (P.state sectors.old).contents ++ line.now ∷ []) }
        ensures other { queue_of (other level) self.new (P.state sectors.new).contents ≡ queue_of (other level) self.old (P.state sectors.old).contents }
        ensures other_blocks { blocks_of (other level) self.new ≡ blocks_of (other level) self.old }
        ensures quotas { (one_or_two : LevelId) → quota_of one_or_two self.new ≡ quota_of one_or_two self.old }
        ensures full { (result ≡ Err SpoolFault.QuotaFull) ↔ (length (blocks_of level self.old) ≡ quota_of level self.old) }
        ensures untouched { result ≡ Err SpoolFault.QuotaFull → sectors.new ≡ sectors.old }
        ensures not_empty { result ≢ Err SpoolFault.Empty }
        ensures err { OnErr result (self.new ≡ self.old) }
        ensures blocks { AreBlocks self.new.free self.new.one self.new.two }
        ensures within { ChangesWithin (IsFreeSector self.old) (P.state sectors.old) (P.state sectors.new) }
        ensures failures { (P.state sectors.new).failures ≡ (P.state sectors.old).failures + failed_by result }
    {
        // for what is always true of the blocks
        let _ = &self.free;
        if self.is_full(level) {
            return Err(SpoolFault::QuotaFull);
        }
        let block = self.first_free(level);
        put_line(sectors, block, line)?;
        self.enqueue(level, block);
        Ok(())
    }

    /// Takes the first line off a level's queue.
    ///
    /// Refused with `Empty` exactly if the level has no queued line, and by the faults of the sectors. A refused call leaves the
    /// queues as they were.
    #[tactic(auto, using(crate::proofs::BlocksLemmas::first_of_queue, crate::proofs::BlocksLemmas::taken_quota, crate::proofs::BlocksLemmas::taken_other))]
    pub fn take<P: Sectors>(
        &mut self,
        level: LevelId,
        sectors: &mut P,
    ) -> Result<PrintLine, SpoolFault>
        requires { 153 ≤ length (P.state sectors.old).contents }
        ensures first { IfOk result (λ line. queue_of level self.old (P.state sectors.old).contents ≡ line ∷ queue_of level self.new (P.state sectors.new).contents) }
        ensures other { blocks_of (other level) self.new ≡ blocks_of (other level) self.old }
        ensures quotas { (one_or_two : LevelId) → quota_of one_or_two self.new ≡ quota_of one_or_two self.old }
        ensures empty { (result ≡ Err SpoolFault.Empty) ↔ (blocks_of level self.old ≡ []) }
        ensures untouched { result ≡ Err SpoolFault.Empty → P.state sectors.new ≡ P.state sectors.old }
        ensures not_full { result ≢ Err SpoolFault.QuotaFull }
        ensures err { OnErr result (self.new ≡ self.old) }
        ensures blocks { AreBlocks self.new.free self.new.one self.new.two }
        ensures keeps { KeepsContents (P.state sectors.old) (P.state sectors.new) }
        ensures failures { (P.state sectors.new).failures ≡ (P.state sectors.old).failures + failed_by result }
    {
        // for what is always true of the blocks
        let _ = &self.free;
        let Some(block) = self.first_queued(level) else {
            return Err(SpoolFault::Empty);
        };
        let line = read_line(sectors, block)?;
        self.dequeue(level, block);
        Ok(line)
    }

    /// The block of level 1's first line.
    #[tactic(auto, using(crate::proofs::BlocksLemmas::one_below))]
    fn first_of_one(&self) -> Option<u8>
        ensures first { result ≡ slice_get self.now.one 0 }
        ensures few { IfSome result (λ block. block < 128) }
    {
        match self.one.front() {
            Some(block) => Some(*block),
            None => None,
        }
    }

    /// The block of level 2's first line.
    #[tactic(auto, using(crate::proofs::BlocksLemmas::two_below))]
    fn first_of_two(&self) -> Option<u8>
        ensures first { result ≡ slice_get self.now.two 0 }
        ensures few { IfSome result (λ block. block < 128) }
    {
        match self.two.front() {
            Some(block) => Some(*block),
            None => None,
        }
    }

    /// The block of a level's first line.
    fn first_queued(&self, level: LevelId) -> Option<u8>
        ensures first { result ≡ slice_get (blocks_of level self.now) 0 }
        ensures few { IfSome result (λ block. block < 128) }
    {
        match level {
            LevelId::One => self.first_of_one(),
            LevelId::Two => self.first_of_two(),
        }
    }
}
