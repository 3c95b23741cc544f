//! The record that CHAIN found last.

use s3_decimal::{RECORD_BYTES, Record};
use std::alloc::{AllocError, Global};
use std::marker::Model;

/// The record that CHAIN found last. It is on the heap, so that a run that is moved doesn't copy it.
#[derive(Drop)]
pub struct FoundRecord {
    record: Box<Record>,
}

impl Model for FoundRecord {
    ghost use Rattle.std.specs.Prelude.{List, ℕ};

    ghost Value = { List ℕ };

    ghost view = { λ r. r.record.value };
}

impl FoundRecord {
    ghost use Rattle.std.specs.Prelude.{◌≡◌, ◌≤◌, length};

    /// No record is found yet; refused only if memory runs out.
    pub fn none(alloc: Global) -> Result<FoundRecord, AllocError> {
        Ok(FoundRecord {
            record: Box::new(alloc, Record::new())?,
        })
    }

    /// Keeps a record that is found.
    pub fn put(&mut self, bytes: &[u8])
        requires { length bytes.now ≤ RECORD_BYTES }
        ensures { self.new ≡ bytes.now }
    {
        self.record.put(bytes);
    }

    /// The record.
    pub fn as_record(&self) -> &Record
        ensures { result.now ≡ self.now }
    {
        &self.record
    }
}
