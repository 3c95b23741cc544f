//! The pool.
ghost use Rattle.std.specs.Prelude.{◌≡◌, ◌≤◌, ◌+◌, ◌↔◌, length, slice_get, Some, OnOk, IfOk, IfErr, IsErrOf};
ghost use Rattle.std.specs.Borrow.{sem};
ghost use Rattle.s3_store.specs.Inner.Failures.{failed_transfers};
ghost use Rattle.s3_store.specs.Inner.State.{KeepsContents};

use crate::buffers::{Buffers, give_up_all, load, load_if_there, overwrite};
use crate::pool_fault::PoolFault;
use s3_store::{PackStore, SectorFault, Sectors, put_part, take_part};
use std::alloc::{AllocFailed, Global};
use std::marker::Model;

/// The sectors of a store, up to 16 of them in memory.
///
/// What is written to a sector goes to the store when its buffer is given up, and at a flush. A call that is
/// refused leaves the contents as they were. A pool is ended by `into_store` alone.
pub struct Pool<S: PackStore> {
    store: S,
    buffers: Buffers,
}

impl<S: PackStore> Model for Pool<S> {
    ghost use Rattle.s3_store.specs.Inner.State.{PoolState};
    ghost use Rattle.s3_pool.specs.Inner.Buffers.{IsSound, pool_state};
    ghost use Rattle.s3_pool.specs.Inner.Places.{IsIndexed};

    ghost Value = { PoolState };

    ghost view = { λ p. pool_state (S.contents p.store) (S.failures p.store) p.buffers };

    ghost invariant = { λ p. IsSound (S.contents p.store) p.buffers.slots.items × IsIndexed (S.contents p.store) p.buffers };
}

impl<S: PackStore> Pool<S> {
    ghost use Rattle.s3_pool.specs.Inner.Lending.{LendsSector, EndsKept};

    /// A pool over a store, with no sector in memory. Where memory is refused, the store comes back.
    pub fn new(alloc: Global, store: S) -> Result<Self, AllocFailed<S>>
        ensures contents { IfOk result (λ pool. pool.contents ≡ S.contents store) }
        ensures stored { IfOk result (λ pool. pool.stored ≡ S.contents store) }
        ensures failures { IfOk result (λ pool. pool.failures ≡ S.failures store) }
        ensures value_returned { IfErr result (λ refused. refused.value ≡ store) }
    {
        match Buffers::new(alloc, store.sectors()) {
            Ok(buffers) => Ok(Pool { store, buffers }),
            Err(_) => Err(AllocFailed { value: store }),
        }
    }

    /// The bytes of sector `n`, to read. Refused with `NoSector` exactly if `n` isn't below the count of sectors, and with
    /// `Sectors` if a transfer or a growth failed. No sector changes, refused or not.
    pub fn sector(&mut self, n: u16) -> Result<&[u8; 256], PoolFault>
        ensures* keeps { sem 𝓛 (EndsKept S.row S.PackStore self.entry result) }
        ensures value { IfOk result (λ bytes. slice_get self.old.contents n ≡ Some bytes.now) }
        ensures no_sector { (IsErrOf result PoolFault.NoSector) ↔ (length self.old.contents ≤ n) }
    {
        let slot = load_if_there(&mut self.store, &mut self.buffers, n)?;
        Ok(self.buffers.buffer(slot).bytes())
    }

    /// The bytes of sector `n`, to write to. Refused with `NoSector` exactly if `n` isn't below the count of sectors, and with
    /// `Sectors` if a transfer or a growth failed. The other sectors stay as they were; after a refusal all sectors do.
    pub fn sector_mut(&mut self, n: u16) -> Result<&mut [u8; 256], PoolFault>
        ensures* writes_back { sem 𝓛 (LendsSector S.row S.PackStore self.entry n result) }
        ensures value { IfOk result (λ bytes. slice_get self.old.contents n ≡ Some bytes.now) }
        ensures no_sector { (IsErrOf result PoolFault.NoSector) ↔ (length self.old.contents ≤ n) }
    {
        let slot = load_if_there(&mut self.store, &mut self.buffers, n)?;
        Ok(self.buffers.buffer_mut(slot).bytes_mut())
    }

    /// Writes every buffer that was written to, so that the store has what the pool shows; afterwards no sector is in memory.
    /// Refused with `Device` alone; then the pool shows what it showed.
    pub fn flush(&mut self) -> Result<(), SectorFault>
        ensures flushed { OnOk result (self.new.stored ≡ self.old.contents) }
        ensures keeps { KeepsContents self.old self.new }
        ensures failures { self.new.failures ≡ self.old.failures + failed_transfers result }
        ensures fault { IfErr result (λ fault. fault ≡ SectorFault.Device) }
    {
        give_up_all(&mut self.store, &mut self.buffers)?;
        Ok(())
    }

    /// The store as it is. Changes that were not flushed are lost.
    pub fn into_store(self) -> S
        ensures contents { S.contents result ≡ self.stored }
        ensures failures { S.failures result ≡ self.failures }
    {
        let Pool { store, buffers: _ } = self;
        store
    }
}

impl<S: PackStore> Sectors for Pool<S> {
    ghost state = { λ pool. pool };

    fn sector_count(&self) -> u16 {
        self.store.sectors()
    }

    #[inline(always)]
    fn read_sector(&mut self, n: u16, bytes: &mut [u8; 256]) -> Result<(), SectorFault> {
        if self.buffers.is_unheld_block(n) {
            self.store.read(n, bytes)?;
            return Ok(());
        }
        let slot = load(&mut self.store, &mut self.buffers, n)?;
        *bytes = *self.buffers.buffer(slot).bytes();
        Ok(())
    }

    fn read_part(&mut self, n: u16, at: usize, piece: &mut [u8]) -> Result<(), SectorFault> {
        let slot = load(&mut self.store, &mut self.buffers, n)?;
        take_part(self.buffers.buffer(slot).bytes(), at, piece);
        Ok(())
    }

    fn write_sector(&mut self, n: u16, bytes: &[u8; 256]) -> Result<(), SectorFault> {
        overwrite(&mut self.store, &mut self.buffers, n, bytes)
    }

    fn change_sector(&mut self, n: u16, at: usize, piece: &[u8]) -> Result<(), SectorFault> {
        let slot = load(&mut self.store, &mut self.buffers, n)?;
        put_part(self.buffers.buffer_mut(slot).bytes_mut(), at, piece);
        Ok(())
    }
}
