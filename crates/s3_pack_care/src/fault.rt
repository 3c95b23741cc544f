//! Why nothing is done to a pack.
use s3_labels::{LabelFault, MountFault};
use std::alloc::{AllocError, AllocFailed};

/// Why nothing is done to a pack.
#[derive(Clone, Copy)]
pub enum CareFault {
    /// The pack isn't mounted, for what is wrong with its header.
    Mount(MountFault),
    /// Memory was refused.
    NoMemory,
    /// The labels don't allow it.
    Label(LabelFault),
    /// The slot is free.
    NoFile,
    /// There is no such slot: an area has the slots 0 to 31.
    NoSlot,
    /// The file is permanent, sound or damaged, and it wasn't said that this is meant.
    Permanent,
    /// The pack that is to have a file isn't mounted, for what is wrong with its header.
    SourceMount(MountFault),
    /// The file isn't in its area.
    SourceLabel(LabelFault),
    /// A file of the area has the label that a copy is to get.
    Exists,
    /// This slot, the first damaged one of the area that is to get a copy. Which tracks its file has isn't known, so they can't
    /// be kept from the copy.
    Damaged(u16),
    /// The label that a copy is to get isn't a name.
    NoName,
    /// This slot is damaged only because of what it shares with the file, and would become valid.
    Uncovers(u16),
}

impl From<AllocError> for CareFault {
    ghost use Rattle.std.specs.Prelude.{◌≡◌};
    ghost use Rattle.s3_pack_care.specs.declared.fault.CareFault.TheVariants.{NoMemory as NoMemoryVariant};

    ghost from_gives = { λ _ fault. fault ≡ NoMemoryVariant };

    fn from(_: AllocError) -> Self {
        CareFault::NoMemory
    }
}

impl<T: Drop> From<AllocFailed<T>> for CareFault {
    ghost use Rattle.std.specs.Prelude.{◌≡◌};
    ghost use Rattle.s3_pack_care.specs.declared.fault.CareFault.TheVariants.{NoMemory as NoMemoryVariant};

    ghost from_gives = { λ _ fault. fault ≡ NoMemoryVariant };

    fn from(_: AllocFailed<T>) -> Self {
        CareFault::NoMemory
    }
}
