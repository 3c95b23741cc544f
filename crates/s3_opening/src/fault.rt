//! Why a job isn't started.
use s3_operator::HaltCode;
use s3_store::SectorFault;
use std::alloc::{AllocError, AllocFailed};

/// Why the files of a job aren't opened.
#[derive(Clone, Copy)]
pub enum OpeningFault {
    /// One of the files can't be had: the level halts for this.
    Halted(HaltCode),
    /// The sectors failed, or memory ran out.
    Sectors(SectorFault),
}

impl From<SectorFault> for OpeningFault {
    ghost use Rattle.std.specs.Prelude.{◌≡◌};
    ghost use Rattle.s3_opening.specs.declared.fault.OpeningFault.TheVariants.{Sectors as SectorsVariant};

    ghost from_gives = { λ fault refusal. refusal ≡ SectorsVariant fault };

    fn from(fault: SectorFault) -> Self {
        OpeningFault::Sectors(fault)
    }
}

impl From<AllocError> for OpeningFault {
    ghost use Rattle.std.specs.Prelude.{◌≡◌};
    ghost use Rattle.s3_store.specs.declared.sector_fault.SectorFault.TheVariants.{NoMemory};
    ghost use Rattle.s3_opening.specs.declared.fault.OpeningFault.TheVariants.{Sectors as SectorsVariant};

    ghost from_gives = { λ _ refusal. refusal ≡ SectorsVariant NoMemory };

    fn from(_: AllocError) -> Self {
        OpeningFault::Sectors(SectorFault::NoMemory)
    }
}

impl<T: Drop> From<AllocFailed<T>> for OpeningFault {
    ghost use Rattle.std.specs.Prelude.{◌≡◌};
    ghost use Rattle.s3_store.specs.declared.sector_fault.SectorFault.TheVariants.{NoMemory};
    ghost use Rattle.s3_opening.specs.declared.fault.OpeningFault.TheVariants.{Sectors as SectorsVariant};

    ghost from_gives = { λ _ refusal. refusal ≡ SectorsVariant NoMemory };

    fn from(_: AllocFailed<T>) -> Self {
        OpeningFault::Sectors(SectorFault::NoMemory)
    }
}
