//! The bytes of a key.

use std::alloc::{AllocError, Global};
use std::marker::Model;

/// The most bytes that the match fields of a record compare: nine fields of 256 characters.
pub const KEY_BYTES: usize = 2_304;

/// The bytes of a key. Their room is taken at a job's start, and the longest key fits into it, so that no record takes memory.
#[derive(Drop)]
pub struct KeyBytes {
    bytes: Vec<u8>,
}

impl Model for KeyBytes {
    ghost use Rattle.std.specs.Prelude.{◌≤◌, ℕ, List, length};
    ghost use Rattle.std.specs.Vec.{vec_capacity};

    ghost Value = { List ℕ };

    ghost view = { λ key. key.bytes.items };

    ghost invariant = { λ key. (2304 ≤ vec_capacity key.bytes) × (length key.bytes.items ≤ 2304) };
}

impl KeyBytes {
    ghost use Rattle.std.specs.Prelude.{◌≡◌, ◌+◌, ◌<◌, ◌≤◌, ◌++◌, ◌∷◌, [], IfOk, length};

    /// No bytes yet; refused only if memory runs out.
    pub fn none(alloc: Global) -> Result<KeyBytes, AllocError>
        ensures { IfOk result (λ key. key ≡ []) }
    {
        Ok(KeyBytes {
            bytes: Vec::with_capacity(alloc, KEY_BYTES)?,
        })
    }

    /// All of them.
    pub fn as_slice(&self) -> &[u8]
        ensures value { result.now ≡ self.now }
        ensures short { length result.now ≤ KEY_BYTES }
    {
        &self.bytes
    }

    /// No bytes are kept any more.
    pub fn clear(&mut self)
        ensures { self.new ≡ [] }
    {
        self.bytes.clear();
    }

    /// Puts a byte after the others.
    pub fn push(&mut self, byte: u8)
        requires { length self.old < KEY_BYTES }
        ensures { self.new ≡ self.old ++ byte ∷ [] }
    {
        if self.bytes.push(byte).is_err() {
            unreachable!()
        }
    }

    /// Puts bytes after the others.
    pub fn extend(&mut self, bytes: &[u8])
        requires { length self.old + length bytes.now ≤ KEY_BYTES }
        ensures { self.new ≡ self.old ++ bytes.now }
    {
        if self.bytes.extend_from_slice(bytes).is_err() {
            unreachable!()
        }
    }
}
