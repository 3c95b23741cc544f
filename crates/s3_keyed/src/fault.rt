//! Why a file with keys refuses.
ghost use Rattle.std.specs.Prelude.{◌≡◌};
ghost use Rattle.s3_keyed.specs.declared.fault.KeyedFault.TheVariants.{Pool};

use s3_store::SectorFault;
use thiserror::Error;

/// Why a call on a file with keys is refused.
#[derive(Clone, Copy, Debug, Error)]
pub enum KeyedFault {
    /// No record has that key, or there is none at that place.
    #[error("no such record")]
    NoKey,
    /// A record has that key already.
    #[error("the key is there already")]
    Duplicate,
    /// The file has as many records as it has room for.
    #[error("the file is full")]
    Full,
    /// The record to be written has another key than the record at its place.
    #[error("the key would change")]
    KeyChanged,
    /// The index isn't the key order of the records.
    #[error("the index is not that of the records")]
    BadIndex,
    /// The key of a record to be loaded isn't above all others.
    #[error("the keys do not ascend")]
    NotAscending,
    /// A transfer failed, or memory was refused.
    #[error("{0}")]
    Pool(SectorFault),
}

impl From<SectorFault> for KeyedFault {
    ghost from_gives = { λ fault refusal. refusal ≡ Pool fault };

    fn from(fault: SectorFault) -> Self {
        KeyedFault::Pool(fault)
    }
}
