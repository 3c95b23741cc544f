//! How the order of the slots hashes their numbers.
ghost use Rattle.std.specs.Prelude.{◌*◌, slice_get};
ghost use Rattle.std.specs.Option.{unwrap_or};

use std::hash::{BuildHasher, Hasher};

/// The hash of a slot: its number, once in the lowest bits and once in those that the table compares first.
#[derive(Clone, Copy)]
pub(crate) struct SlotHash {
    slot: u8,
}

impl SlotHash {
    /// The hash before a slot is hashed.
    pub(crate) fn new() -> Self {
        SlotHash { slot: 0 }
    }
}

impl Hasher for SlotHash {
    ghost write = { λ _ bytes. record { slot = unwrap_or (slice_get bytes 0) 0 } };

    ghost finish = { λ hash. hash.slot * 0x0100_0001 };

    fn finish(&self) -> u64 {
        u64::from(self.slot) * 0x0100_0001
    }

    fn write(&mut self, bytes: &[u8]) {
        self.slot = match bytes.first() {
            Some(slot) => *slot,
            None => 0,
        };
    }
}

impl BuildHasher for SlotHash {
    type Hasher = SlotHash;

    ghost build_hasher = { λ hash. hash };

    fn build_hasher(&self) -> SlotHash {
        *self
    }
}
