//! Why a call of a bureau isn't done.

use s3_store::SectorFault;
use std::alloc::AllocError;

/// Why a call of a bureau isn't done: it stopped the bureau, or the bureau was over before. Every later call answers `Stopped`.
#[derive(Clone, Copy, Debug, PartialEq, Eq)]
pub enum Stop {
    /// A growth was refused: the bureau stops with this answer.
    NoMemory,
    /// A transfer of the store failed: the bureau stops with this answer.
    Device,
    /// The bureau was stopped before, or is finished.
    Stopped,
}

impl From<AllocError> for Stop {
    ghost use Rattle.std.specs.Prelude.{◌≡◌};
    ghost use Rattle.s3_bureau.specs.declared.stop.Stop.TheVariants.{NoMemory};

    ghost from_gives = { λ _ stop. stop ≡ NoMemory };

    fn from(_: AllocError) -> Stop {
        Stop::NoMemory
    }
}

impl From<SectorFault> for Stop {
    ghost use Rattle.std.specs.Prelude.{◌≡◌};
    ghost use Rattle.s3_bureau.specs.Inner.Stops.{stop_of};

    ghost from_gives = { λ fault stop. stop ≡ stop_of fault };

    fn from(fault: SectorFault) -> Stop {
        match fault {
            SectorFault::Device => Stop::Device,
            SectorFault::NoMemory => Stop::NoMemory,
        }
    }
}
