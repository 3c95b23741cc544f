//! Why a file isn't unloaded.
ghost use Rattle.std.specs.Prelude.{◌≡◌};

use s3_cells::{Field, ShowFault};
use s3_labels::{MountFault, Refusal};
use std::alloc::{AllocError, AllocFailed};

/// Why a file isn't unloaded, or not whole.
#[derive(Clone, Copy)]
pub enum UnloadFault {
    /// The pack isn't mounted, for what is wrong with its header.
    Mount(MountFault),
    /// The area has no file of that label.
    NotFound,
    /// A damaged slot has that label.
    DamagedLabel,
    /// The index isn't the key order of the records.
    BadIndex,
    /// The records of the file have this length, and those of the layout another one.
    OtherLength(u16),
    /// The value of a field in the record with this number, from 1, can't be shown.
    Hidden(u32, Field, ShowFault),
    /// A byte of a record has no character: the number of the record, and the position of the byte in it, both from 1.
    NoCharacter(u32, u16),
    /// Memory was refused.
    NoMemory,
    /// The writer failed; some may be written.
    File,
}

impl From<AllocError> for UnloadFault {
    ghost use Rattle.s3_unload.specs.declared.fault.UnloadFault.TheVariants.{NoMemory as NoMemoryVariant};

    ghost from_gives = { λ _ fault. fault ≡ NoMemoryVariant };

    fn from(_: AllocError) -> Self {
        UnloadFault::NoMemory
    }
}

impl<T: Drop> From<AllocFailed<T>> for UnloadFault {
    ghost use Rattle.s3_unload.specs.declared.fault.UnloadFault.TheVariants.{NoMemory as NoMemoryVariant};

    ghost from_gives = { λ _ fault. fault ≡ NoMemoryVariant };

    fn from(_: AllocFailed<T>) -> Self {
        UnloadFault::NoMemory
    }
}

impl From<Refusal> for UnloadFault {
    ghost use Rattle.s3_unload.specs.Inner.Refusals.{fault_of_mount};

    ghost from_gives = { λ refusal fault. fault ≡ fault_of_mount refusal };

    fn from(refusal: Refusal) -> Self {
        match refusal {
            Refusal::BadPack(fault) => UnloadFault::Mount(fault),
            Refusal::Sectors(_) => UnloadFault::NoMemory,
        }
    }
}
