//! Why the sheets of a source weren't read.

use s3_lines::Diagnostic;
use std::alloc::AllocError;

/// Why the sheets of a source weren't read.
#[derive(Debug, Drop)]
pub enum SheetFault {
    /// Memory ran out.
    NoMemory,
    /// The diagnostics of the cards, by card and then number; at least one.
    Diagnostics(Vec<Diagnostic>),
}

impl From<AllocError> for SheetFault {
    ghost use Rattle.std.specs.Prelude.{◌≡◌};
    ghost use Rattle.s3_sheets.specs.declared.fault.SheetFault.TheVariants.{NoMemory};

    ghost from_gives = { λ _ e. e ≡ NoMemory };

    fn from(_: AllocError) -> Self {
        SheetFault::NoMemory
    }
}
