//! Why a file isn't sorted.
use crate::CareFault;
use s3_labels::{LabelFault, MountFault};
use std::alloc::{AllocError, AllocFailed};

/// Why a file isn't sorted.
#[derive(Clone, Copy)]
pub enum SortFault {
    /// The pack isn't mounted, for what is wrong with its header.
    Mount(MountFault),
    /// The area has no sound file of the label.
    Label(LabelFault),
    /// The file has an index, or its records are found by their numbers.
    NotInOrder,
    /// The first field that doesn't fit the records, by its place from 0, and their length.
    Field(usize, u16),
    /// Memory was refused.
    NoMemory,
}

impl From<CareFault> for SortFault {
    ghost use Rattle.std.specs.Prelude.{◌≡◌};
    ghost use Rattle.s3_pack_care.specs.Inner.Sorted.{of_care};

    ghost from_gives = { λ fault new. new ≡ of_care fault };

    fn from(fault: CareFault) -> Self {
        match fault {
            CareFault::Mount(fault) => SortFault::Mount(fault),
            CareFault::Label(fault) => SortFault::Label(fault),
            _ => SortFault::NoMemory,
        }
    }
}

impl From<AllocError> for SortFault {
    ghost use Rattle.std.specs.Prelude.{◌≡◌};
    ghost use Rattle.s3_pack_care.specs.declared.sort_fault.SortFault.TheVariants.{NoMemory as NoMemoryVariant};

    ghost from_gives = { λ _ fault. fault ≡ NoMemoryVariant };

    fn from(_: AllocError) -> Self {
        SortFault::NoMemory
    }
}

impl<T: Drop> From<AllocFailed<T>> for SortFault {
    ghost use Rattle.std.specs.Prelude.{◌≡◌};
    ghost use Rattle.s3_pack_care.specs.declared.sort_fault.SortFault.TheVariants.{NoMemory as NoMemoryVariant};

    ghost from_gives = { λ _ fault. fault ≡ NoMemoryVariant };

    fn from(_: AllocFailed<T>) -> Self {
        SortFault::NoMemory
    }
}
