//! Why a text isn't restored.

use std::alloc::{AllocError, AllocFailed};

/// Why a text isn't restored.
#[derive(Clone, Copy)]
pub enum RestoreFault {
    /// Memory was refused.
    NoMemory,
    /// The text is no dump; the first line that is wrong, from 1.
    NoDump(u64),
}

impl From<AllocError> for RestoreFault {
    ghost use Rattle.std.specs.Prelude.{◌≡◌};
    ghost use Rattle.s3_dump.specs.declared.fault.RestoreFault.TheVariants.{NoMemory as NoMemoryVariant};

    ghost from_gives = { λ _ fault. fault ≡ NoMemoryVariant };

    fn from(_: AllocError) -> Self {
        RestoreFault::NoMemory
    }
}

impl<T: Drop> From<AllocFailed<T>> for RestoreFault {
    fn from(_: AllocFailed<T>) -> Self {
        RestoreFault::NoMemory
    }
}
