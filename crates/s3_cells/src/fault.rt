//! Why a value isn't shown, and why a cell isn't taken.
ghost use Rattle.std.specs.Prelude.{◌≡◌};

use std::alloc::AllocError;
use thiserror::Error;

/// Why a field of a record isn't shown.
#[derive(Clone, Copy)]
pub enum ShowFault {
    /// The text has a byte that is no character; its position in the record, from 1.
    NoCharacter(u16),
    /// The number has a digit above 9.
    NoNumber,
    /// The field has no date of the calendar, but these characters.
    NoDate([u8; 6]),
    /// Memory was refused.
    NoMemory,
}

impl From<AllocError> for ShowFault {
    ghost use Rattle.s3_cells.specs.declared.fault.ShowFault.TheVariants.{NoMemory as NoMemoryVariant};

    ghost from_gives = { λ _ fault. fault ≡ NoMemoryVariant };

    fn from(_: AllocError) -> Self {
        ShowFault::NoMemory
    }
}

/// Why a cell isn't taken into a field.
#[derive(Clone, Copy, Debug, Error)]
pub enum CellFault {
    /// The cell is no number.
    #[error("this is no number")]
    NoNumber,
    /// The number has more decimals than the field.
    #[error("the number has more decimals than the field")]
    TooManyDecimals,
    /// The number has more digits before the point than the field.
    #[error("the number has more digits than the field")]
    TooLarge,
    /// The text is longer than the field.
    #[error("the text is longer than the field")]
    TooLong,
    /// The text has a character that no card can have.
    #[error("the text has a character that no card can have")]
    NoCharacter,
    /// The cell is no date YYYY-MM-DD of the years 1900 to 1999.
    #[error("this is no date")]
    NoDate,
    /// Memory was refused.
    #[error("memory was refused")]
    NoMemory,
}

impl From<AllocError> for CellFault {
    ghost use Rattle.s3_cells.specs.declared.fault.CellFault.TheVariants.{NoMemory as NoMemoryVariant};

    ghost from_gives = { λ _ fault. fault ≡ NoMemoryVariant };

    fn from(_: AllocError) -> Self {
        CellFault::NoMemory
    }
}
