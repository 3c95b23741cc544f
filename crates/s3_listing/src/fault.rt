//! Why nothing, or not all, is listed.
use s3_labels::MountFault;
use std::alloc::AllocError;

/// Why the files of a pack aren't listed.
#[derive(Clone, Copy)]
pub enum ListFault {
    /// The pack isn't mounted, for what is wrong with its header.
    Mount(MountFault),
    /// Memory was refused.
    NoMemory,
    /// The writer failed; some of the list may be written.
    File,
}

impl From<AllocError> for ListFault {
    ghost use Rattle.std.specs.Prelude.{◌≡◌};
    ghost use Rattle.s3_listing.specs.declared.fault.ListFault.TheVariants.{NoMemory as NoMemoryVariant};

    ghost from_gives = { λ _ fault. fault ≡ NoMemoryVariant };

    fn from(_: AllocError) -> Self {
        ListFault::NoMemory
    }
}
