//! Why a pool doesn't lend a sector.
ghost use Rattle.std.specs.Prelude.{◌≡◌};
ghost use Rattle.s3_pool.specs.declared.pool_fault.PoolFault.TheVariants.{Sectors};

use s3_store::SectorFault;
use thiserror::Error;

/// Why a pool doesn't lend a sector.
#[derive(Clone, Copy, Debug, PartialEq, Eq, Error)]
pub enum PoolFault {
    /// The number is not below the count of sectors.
    #[error("no such sector")]
    NoSector,
    /// A transfer failed, or a growth was refused.
    #[error("{0}")]
    Sectors(SectorFault),
}

impl From<SectorFault> for PoolFault {
    ghost from_gives = { λ fault refusal. refusal ≡ Sectors fault };

    fn from(fault: SectorFault) -> Self {
        PoolFault::Sectors(fault)
    }
}
