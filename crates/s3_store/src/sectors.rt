//! What the layers above see: one list of sectors, over a store or over a pool.
ghost use Rattle.std.specs.Prelude.{◌≡◌, ◌<◌, ◌≤◌, ◌+◌, length, slice_get, slice_set, Some, OnOk, OnErr};
ghost use Rattle.s3_store.specs.Inner.State.{PoolState, KeepsContents, ChangesWithin};
ghost use Rattle.s3_store.specs.Bytes.{part, sector_bytes};
ghost use Rattle.s3_store.specs.Inner.Bytes.{with_piece};
ghost use Rattle.s3_store.specs.Inner.Failures.{failed_transfers};

use crate::pack_store::PackStore;
use crate::part::{put_part, take_part};
use crate::sector_fault::SectorFault;

/// Sectors of 256 bytes, numbered from 0, over some store.
pub trait Sectors {
    /// The sectors, what the store itself has, and how often it has failed.
    ghost state: { Self → PoolState };

    /// How many sectors there are, which never changes.
    fn sector_count(&self) -> u16
        ensures { result ≡ length (state self.now).contents };

    /// Reads sector `n`, which must be there. No sector changes; refused with `Device` or `NoMemory`.
    fn read_sector(&mut self, n: u16, bytes: &mut [u8; 256]) -> Result<(), SectorFault>
        requires { n < length (state self.old).contents }
        ensures ok { OnOk result (slice_get (state self.old).contents n ≡ Some bytes.new) }
        ensures keeps { KeepsContents (state self.old) (state self.new) }
        ensures failures { (state self.new).failures ≡ (state self.old).failures + failed_transfers result };

    /// Reads the bytes of sector `n`, which must be there, that begin at byte `at` and end within it. No sector changes. Refused
    /// with `Device` or `NoMemory`; then `piece` stays as it was.
    fn read_part(&mut self, n: u16, at: usize, piece: &mut [u8]) -> Result<(), SectorFault>
        requires there { n < length (state self.old).contents }
        requires fits { at + length piece.old ≤ 256 }
        ensures ok { OnOk result (piece.new ≡ part (sector_bytes (state self.old).contents n) at (length piece.old)) }
        ensures err { OnErr result (piece.new ≡ piece.old) }
        ensures keeps { KeepsContents (state self.old) (state self.new) }
        ensures failures { (state self.new).failures ≡ (state self.old).failures + failed_transfers result };

    /// Sets sector `n`, which must be there, to these bytes. Refused with `Device` or `NoMemory`; then every sector shows the
    /// bytes that it had.
    fn write_sector(&mut self, n: u16, bytes: &[u8; 256]) -> Result<(), SectorFault>
        requires { n < length (state self.old).contents }
        ensures ok { OnOk result ((state self.new).contents ≡ slice_set (state self.old).contents n bytes.now) }
        ensures err { OnErr result ((state self.new).contents ≡ (state self.old).contents) }
        ensures within { ChangesWithin (λ i. i ≡ n) (state self.old) (state self.new) }
        ensures failures { (state self.new).failures ≡ (state self.old).failures + failed_transfers result };

    /// Writes these bytes over those of sector `n`, which must be there, that begin at byte `at` and end within it. The
    /// others of the sector stay. Refused with `Device` or `NoMemory`, no sector shows other bytes.
    fn change_sector(&mut self, n: u16, at: usize, piece: &[u8]) -> Result<(), SectorFault>
        requires there { n < length (state self.old).contents }
        requires fits { at + length piece.now ≤ 256 }
        ensures ok { OnOk result ((state self.new).contents ≡ with_piece (state self.old).contents n at piece.now) }
        ensures err { OnErr result ((state self.new).contents ≡ (state self.old).contents) }
        ensures within { ChangesWithin (λ i. i ≡ n) (state self.old) (state self.new) }
        ensures failures { (state self.new).failures ≡ (state self.old).failures + failed_transfers result };
}

/// A store is its own list of sectors.
impl<S: PackStore> Sectors for S {
    ghost state = { λ s. record { contents = S.contents s; stored = S.contents s; failures = S.failures s } };

    fn sector_count(&self) -> u16 {
        self.sectors()
    }

    fn read_sector(&mut self, n: u16, bytes: &mut [u8; 256]) -> Result<(), SectorFault> {
        self.read(n, bytes)?;
        Ok(())
    }

    fn read_part(&mut self, n: u16, at: usize, piece: &mut [u8]) -> Result<(), SectorFault> {
        let mut bytes = [0; 256];
        self.read(n, &mut bytes)?;
        take_part(&bytes, at, piece);
        Ok(())
    }

    fn write_sector(&mut self, n: u16, bytes: &[u8; 256]) -> Result<(), SectorFault> {
        self.write(n, bytes)?;
        Ok(())
    }

    fn change_sector(&mut self, n: u16, at: usize, piece: &[u8]) -> Result<(), SectorFault> {
        let mut bytes = [0; 256];
        self.read(n, &mut bytes)?;
        put_part(&mut bytes, at, piece);
        self.write(n, &bytes)?;
        Ok(())
    }
}
