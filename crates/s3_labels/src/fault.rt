//! Why calls on a pack are refused.
use s3_slots::{LabelFault, MountFault};
use s3_store::SectorFault;
use std::alloc::{AllocError, AllocFailed};

/// Why a pack isn't mounted.
#[derive(Clone, Copy, Debug, PartialEq, Eq)]
pub enum Refusal {
    /// The pack's header isn't accepted.
    BadPack(MountFault),
    /// The pack's sectors couldn't be read, or memory was refused.
    Sectors(SectorFault),
}

impl From<SectorFault> for Refusal {
    ghost use Rattle.std.specs.Prelude.{◌≡◌};
    ghost use Rattle.s3_labels.specs.declared.fault.Refusal.TheVariants.{Sectors as SectorsVariant};

    ghost from_gives = { λ fault refusal. refusal ≡ SectorsVariant fault };

    fn from(fault: SectorFault) -> Self {
        Refusal::Sectors(fault)
    }
}

/// Why a label isn't changed.
#[derive(Clone, Copy, Debug)]
pub enum ChangeFault {
    /// The slots don't allow the change, and nothing changed.
    Label(LabelFault),
    /// The pack's sectors couldn't be read or written.
    Sectors(SectorFault),
}

impl From<LabelFault> for ChangeFault {
    ghost use Rattle.std.specs.Prelude.{◌≡◌};
    ghost use Rattle.s3_labels.specs.declared.fault.ChangeFault.TheVariants.{Label as LabelVariant};

    ghost from_gives = { λ fault refusal. refusal ≡ LabelVariant fault };

    fn from(fault: LabelFault) -> Self {
        ChangeFault::Label(fault)
    }
}

impl From<SectorFault> for ChangeFault {
    ghost use Rattle.std.specs.Prelude.{◌≡◌};
    ghost use Rattle.s3_labels.specs.declared.fault.ChangeFault.TheVariants.{Sectors as SectorsVariant};

    ghost from_gives = { λ fault refusal. refusal ≡ SectorsVariant fault };

    fn from(fault: SectorFault) -> Self {
        ChangeFault::Sectors(fault)
    }
}

/// Why a list of files couldn't be made.
#[derive(Clone, Copy)]
pub enum PlanFault {
    /// The first file that would be refused, by its place in the list from 0, and why.
    File(usize, LabelFault),
    /// A growth was refused.
    NoMemory,
}

impl From<AllocError> for PlanFault {
    ghost use Rattle.std.specs.Prelude.{◌≡◌};
    ghost use Rattle.s3_labels.specs.declared.fault.PlanFault.TheVariants.{NoMemory as NoMemoryVariant};

    ghost from_gives = { λ _ fault. fault ≡ NoMemoryVariant };

    fn from(_: AllocError) -> Self {
        PlanFault::NoMemory
    }
}

/// Why a new pack isn't written.
#[derive(Clone, Copy, Debug, PartialEq, Eq)]
pub enum ImageFault {
    /// The old pack isn't mounted.
    Mount(MountFault),
    /// There are more than 2,723 tracks.
    TooLarge,
    /// A growth was refused.
    NoMemory,
    /// The quotas aren't 1 to 127, together at most 128.
    BadQuota,
}

impl From<AllocError> for ImageFault {
    ghost use Rattle.std.specs.Prelude.{◌≡◌};
    ghost use Rattle.s3_labels.specs.declared.fault.ImageFault.TheVariants.{NoMemory as NoMemoryVariant};

    ghost from_gives = { λ _ fault. fault ≡ NoMemoryVariant };

    fn from(_: AllocError) -> Self {
        ImageFault::NoMemory
    }
}

/// Why a pack isn't brought into the second format.
#[derive(Clone, Copy, Debug)]
pub enum MigrateFault {
    /// The pack isn't mounted.
    Mount(MountFault),
    /// The pack is in the second format already.
    AlreadyNew,
    /// A growth was refused.
    NoMemory,
}

impl From<AllocError> for MigrateFault {
    ghost use Rattle.std.specs.Prelude.{◌≡◌};
    ghost use Rattle.s3_labels.specs.declared.fault.MigrateFault.TheVariants.{NoMemory as NoMemoryVariant};

    ghost from_gives = { λ _ fault. fault ≡ NoMemoryVariant };

    fn from(_: AllocError) -> Self {
        MigrateFault::NoMemory
    }
}
