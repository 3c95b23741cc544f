//! Why a source is no layout.
ghost use Rattle.std.specs.Prelude.{◌≡◌};

use s3_cards::Name;
use std::alloc::{AllocError, AllocFailed};

/// Why the cards of a source are no layout.
#[derive(Drop)]
pub enum LayoutFault {
    /// Memory was refused.
    NoMemory,
    /// The cards have faults; the first is this one of the card with this number.
    Card {
        /// The number of the card, from 1.
        card: u16,
        /// The number of the diagnostic.
        number: u8,
    },
    /// No line of the F sheet is of a file on disk.
    NoFile,
    /// The source has several files on disk, and none is named.
    SeveralFiles,
    /// The source has no file of the name that is given on disk.
    OtherFile,
    /// The file has several types of records, and none is named.
    SeveralTypes,
    /// The file has no type of records with the indicator that is given.
    OtherType,
    /// The records of the type have no fields.
    NoFields,
    /// This field has a form that no program can have: its length or its decimals don't suit it.
    NoForm(Name),
    /// This field is there twice.
    Twice(Name),
}

impl From<AllocError> for LayoutFault {
    ghost use Rattle.s3_layout.specs.declared.fault.LayoutFault.TheVariants.{NoMemory as NoMemoryVariant};

    ghost from_gives = { λ _ fault. fault ≡ NoMemoryVariant };

    fn from(_: AllocError) -> Self {
        LayoutFault::NoMemory
    }
}

impl<T: Drop> From<AllocFailed<T>> for LayoutFault {
    ghost use Rattle.s3_layout.specs.declared.fault.LayoutFault.TheVariants.{NoMemory as NoMemoryVariant};

    ghost from_gives = { λ _ fault. fault ≡ NoMemoryVariant };

    fn from(_: AllocFailed<T>) -> Self {
        LayoutFault::NoMemory
    }
}
