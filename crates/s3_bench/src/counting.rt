//! A store that counts.
ghost use Rattle.std.specs.Prelude.{◌≡◌};

use s3_store::{MemoryStore, PackStore, StoreFault};

/// Sectors in memory, and how many were read and written.
#[derive(Drop)]
pub struct CountingStore {
    inner: MemoryStore,
    pub reads: u64,
    pub writes: u64,
}

impl CountingStore {
    /// A store with these sectors, of which none was read or written yet.
    pub fn over(inner: MemoryStore) -> Self
        ensures { result.inner ≡ inner }
    {
        CountingStore {
            inner,
            reads: 0,
            writes: 0,
        }
    }

    /// The bytes of the store's sectors, one sector after another.
    pub fn into_bytes(self) -> Vec<u8> {
        self.inner.into_bytes()
    }
}

impl PackStore for CountingStore {
    ghost contents = { λ s. s.inner };

    ghost failures = { λ _. 0 };

    fn sectors(&self) -> u16 {
        self.inner.sectors()
    }

    fn read(&mut self, n: u16, bytes: &mut [u8; 256]) -> Result<(), StoreFault> {
        self.reads = self.reads.wrapping_add(1);
        self.inner.read(n, bytes)
    }

    fn write(&mut self, n: u16, bytes: &[u8; 256]) -> Result<(), StoreFault> {
        self.writes = self.writes.wrapping_add(1);
        self.inner.write(n, bytes)
    }
}
