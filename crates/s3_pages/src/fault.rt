//! Why pages aren't written, or not all of them.
use std::alloc::AllocError;

/// Why pages aren't written, or not all of them.
#[derive(Clone, Copy)]
pub enum PaperFault {
    /// Memory was refused; some of the pages may be written.
    NoMemory,
    /// The writer failed; some of the pages may be written.
    File,
    /// There are more pages, or more bytes, than the form of a document has numbers for; some of the pages may be written.
    TooLong,
}

impl From<AllocError> for PaperFault {
    ghost use Rattle.std.specs.Prelude.{◌≡◌};
    ghost use Rattle.s3_pages.specs.declared.fault.PaperFault.TheVariants.{NoMemory as NoMemoryVariant};

    ghost from_gives = { λ _ fault. fault ≡ NoMemoryVariant };

    fn from(_: AllocError) -> Self {
        PaperFault::NoMemory
    }
}
