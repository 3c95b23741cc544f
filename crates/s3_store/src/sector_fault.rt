//! Why a call on sectors is refused.
ghost use Rattle.std.specs.Prelude.{◌≡◌};
ghost use Rattle.s3_store.specs.declared.sector_fault.SectorFault.TheVariants.{Device, NoMemory};

use crate::pack_store::StoreFault;
use std::alloc::{AllocError, AllocFailed};
use thiserror::Error;

/// Why a call on sectors is refused.
#[derive(Clone, Copy, Debug, PartialEq, Eq, Error)]
pub enum SectorFault {
    /// A transfer failed in this call.
    #[error("a transfer failed")]
    Device,
    /// A growth was refused.
    #[error("out of memory")]
    NoMemory,
}

impl From<StoreFault> for SectorFault {
    ghost from_gives = { λ _ fault. fault ≡ Device };

    fn from(_: StoreFault) -> Self {
        SectorFault::Device
    }
}

impl From<AllocError> for SectorFault {
    ghost from_gives = { λ _ fault. fault ≡ NoMemory };

    fn from(_: AllocError) -> Self {
        SectorFault::NoMemory
    }
}

impl<T: Drop> From<AllocFailed<T>> for SectorFault {
    ghost from_gives = { λ _ fault. fault ≡ NoMemory };

    fn from(_: AllocFailed<T>) -> Self {
        SectorFault::NoMemory
    }
}
