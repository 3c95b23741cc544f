//! Why a file of records refuses.
ghost use Rattle.std.specs.Prelude.{◌≡◌};
ghost use Rattle.s3_files.specs.declared.fault.FileFault.TheVariants.{Pool};

use s3_store::SectorFault;
use thiserror::Error;

/// Why a call on a file of records is refused.
#[derive(Clone, Copy, Debug, Error)]
pub enum FileFault {
    /// The file has no record at that place.
    #[error("no such record")]
    NoRecord,
    /// The file has as many records as it has room for.
    #[error("the file is full")]
    Full,
    /// A transfer failed, or memory was refused.
    #[error("{0}")]
    Pool(SectorFault),
}

impl From<SectorFault> for FileFault {
    ghost from_gives = { λ fault refusal. refusal ≡ Pool fault };

    fn from(fault: SectorFault) -> Self {
        FileFault::Pool(fault)
    }
}
