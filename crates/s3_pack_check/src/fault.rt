//! Why a pack isn't checked.
use s3_labels::MountFault;
use std::alloc::{AllocError, AllocFailed};

/// Why a pack isn't checked.
#[derive(Clone, Copy)]
pub enum CheckFault {
    /// The pack isn't mounted, for what is wrong with its header.
    Mount(MountFault),
    /// Memory was refused.
    NoMemory,
}

impl From<AllocError> for CheckFault {
    ghost use Rattle.std.specs.Prelude.{◌≡◌};
    ghost use Rattle.s3_pack_check.specs.declared.fault.CheckFault.TheVariants.{NoMemory as NoMemoryVariant};

    ghost from_gives = { λ _ fault. fault ≡ NoMemoryVariant };

    fn from(_: AllocError) -> Self {
        CheckFault::NoMemory
    }
}

impl<T: Drop> From<AllocFailed<T>> for CheckFault {
    ghost use Rattle.std.specs.Prelude.{◌≡◌};
    ghost use Rattle.s3_pack_check.specs.declared.fault.CheckFault.TheVariants.{NoMemory as NoMemoryVariant};

    ghost from_gives = { λ _ fault. fault ≡ NoMemoryVariant };

    fn from(_: AllocFailed<T>) -> Self {
        CheckFault::NoMemory
    }
}
