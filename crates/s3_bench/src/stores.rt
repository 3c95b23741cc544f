//! The stores that walks begin with, and what is left in them.

use s3_store::MemoryStore;
use std::alloc::{AllocError, Global};

/// A store whose byte i is i modulo 251.
pub fn numbered_store(alloc: Global, sectors: u16) -> Result<MemoryStore, AllocError> {
    let mut bytes = vec![in alloc; 0u8; usize::from(sectors) * 256]?;
    for (i, byte) in bytes.iter_mut().enumerate() {
        *byte = (i % 251) as u8;
    }
    Ok(MemoryStore::from_bytes(bytes))
}

/// What these bytes add up to.
pub fn sum_of(bytes: &[u8]) -> u64 {
    let mut total = 0u64;
    for byte in bytes {
        total = total.wrapping_add(u64::from(*byte));
    }
    total
}
