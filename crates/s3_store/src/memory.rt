//! A store in memory, which never fails.
ghost use Rattle.std.specs.Prelude.{◌≡◌, ◌+◌, ◌*◌, ◌++◌, ◌<◌, ◌≤◌, ℕ, length, take, drop, slice_get, slice_set, Some, IsOk};
ghost use Rattle.std.specs.List.{concat};

use crate::pack_store::{PackStore, StoreFault};
use std::marker::Model;

/// Sectors in memory, at most 65,535 of them.
#[derive(Drop)]
pub struct MemoryStore {
    bytes: Vec<u8>,
}

impl Model for MemoryStore {
    ghost use Rattle.std.specs.Prelude.{ℕ, List};
    ghost use Rattle.s3_store.specs.Contents.{sectors_of};
    ghost use Rattle.s3_store.specs.Inner.Contents.{IsWholeSectors};

    ghost Value = { List (List ℕ) };

    ghost view = { λ s. sectors_of s.bytes.items };

    ghost invariant = { λ s. IsWholeSectors s.bytes.items };
}

impl MemoryStore {
    ghost use Rattle.s3_store.specs.Contents.{sectors_of};

    /// A store of the first 65,535 whole sectors of these bytes, or of all if there are fewer; the bytes after are dropped.
    pub fn from_bytes(mut bytes: Vec<u8>) -> Self
        ensures { result ≡ take 65535 (sectors_of bytes.items) }
    {
        let count = (bytes.len() / 256).min(65_535);
        bytes.truncate(count * 256);
        MemoryStore { bytes }
    }

    /// The bytes of the sectors, one sector after another.
    pub fn into_bytes(self) -> Vec<u8>
        ensures bytes { result.items ≡ concat self }
        ensures sectors { sectors_of result.items ≡ self }
    {
        let MemoryStore { bytes } = self;
        bytes
    }
}

impl PackStore for MemoryStore {
    ghost contents = { λ s. s };

    ghost failures = { λ _. 0 };

    fn sectors(&self) -> u16 {
        (self.bytes.len() / 256) as u16
    }

    fn read(&mut self, n: u16, bytes: &mut [u8; 256]) -> Result<(), StoreFault>
        requires { n < length self.old }
        ensures never_fails { IsOk result }
        ensures bytes { slice_get self.old n ≡ Some bytes.new }
        ensures contents { self.new ≡ self.old }
    {
        get_sector(&self.bytes, usize::from(n), bytes);
        Ok(())
    }

    fn write(&mut self, n: u16, bytes: &[u8; 256]) -> Result<(), StoreFault>
        requires { n < length self.old }
        ensures never_fails { IsOk result }
        ensures contents { self.new ≡ slice_set self.old n bytes.now }
    {
        put_sector(&mut self.bytes, usize::from(n), bytes);
        Ok(())
    }
}

/// Copies sector `n` out of these bytes.
fn get_sector(bytes: &[u8], n: usize, sector: &mut [u8; 256])
    requires { n * 256 + 256 ≤ length bytes.now }
    ensures { sector.new ≡ take 256 (drop (n * 256) bytes.now) }
{
    let at = n * 256;
    sector.copy_from_slice(&bytes[at..at + 256]);
}

/// Copies sector `n` into these bytes.
fn put_sector(bytes: &mut [u8], n: usize, sector: &[u8; 256])
    requires { n * 256 + 256 ≤ length bytes.old }
    ensures { bytes.new ≡ (take (n * 256) bytes.old ++ sector.now) ++ drop (n * 256 + 256) bytes.old }
{
    let at = n * 256;
    bytes[at..at + 256].copy_from_slice(sector);
}
