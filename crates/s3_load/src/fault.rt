//! Why a table isn't loaded.

use crate::shape::Shape;
use s3_cards::Name;
use s3_cells::CellFault;
use s3_labels::{ChangeFault, LabelFault, MountFault};
use s3_record_types::TypeFault;
use std::alloc::{AllocError, AllocFailed};

/// What is wrong with the heading of a table.
#[derive(Drop)]
pub enum HeadingFault {
    /// The cell with this number, from 1, names no field; what it says.
    Unknown(usize, Vec<u8>),
    /// The field is named twice.
    Twice(Name),
    /// Both fields are named, and they lie over each other.
    Overlap(Name, Name),
    /// The field isn't named.
    Missing(Name),
    /// The first field is a number without a column, and is partly under the second field, which has one: so it can't be 0.
    Under(Name, Name),
    /// The field is a number without a column, and isn't 0 when the other fields without one are filled.
    NotZero(Name),
}

/// Why a row isn't taken.
#[derive(Drop)]
pub enum Reason {
    /// This cell isn't taken into its field.
    Cell(CellFault, Vec<u8>),
    /// This cell goes over the end of a line.
    OverLines(Vec<u8>),
    /// The row has so many cells, and the heading so many.
    Cells(usize, usize),
    /// The row on this line has the same key, of these codes.
    SameKey(u64, Vec<u8>),
    /// A record of the file has the same key, of these codes.
    KeyInFile(Vec<u8>),
    /// The record isn't of the type that is chosen.
    OtherType(TypeFault),
    /// The record of a fixed length ends after so many bytes, and has so many.
    Short(usize, usize),
    /// The line of a record of a fixed length has so many characters, and the record so many.
    Long(usize, usize),
    /// After so many bytes of a record of a fixed length, this one is in place of the line feed.
    NoLineFeed(usize, u8),
    /// This position of a record of a fixed length, from 1, has this byte, which is no character of a card.
    NoCode(usize, u8),
}

/// What is wrong with a row.
#[derive(Drop)]
pub struct ValueFault {
    /// The line on which the row begins, or the number of the record of a fixed length, from 1.
    pub line: u64,
    /// The field, if one is in error.
    pub field: Option<Name>,
    /// Why it isn't taken.
    pub reason: Reason,
}

/// Why a table isn't loaded. Nothing is changed then.
#[derive(Drop)]
pub enum LoadFault {
    /// Memory was refused.
    NoMemory,
    /// The reader failed.
    File,
    /// A quote that is opened on this line, from 1, isn't closed there.
    OpenQuote(u64),
    /// The table has no heading.
    NoHeading,
    /// All that is wrong with the heading.
    Heading(Vec<HeadingFault>),
    /// The first 20 of what is wrong with rows, and how many there are.
    Values(Vec<ValueFault>, u64),
    /// The pack isn't mounted, for what is wrong with its header.
    Mount(MountFault),
    /// The labels don't allow it.
    Label(LabelFault),
    /// This slot of the level's area, from 0, is damaged. Which sectors its file has isn't known: a new file might be written over them.
    DamagedSlot(u16),
    /// The label is no name.
    NoName,
    /// The key doesn't lie in the records of the layout.
    NoKey,
    /// A file may not have such room.
    NoRoom,
    /// The file has room for this many records, and would have this many.
    Full(u32, u64),
    /// The file that is there has records of another length, another key or another organization.
    OtherKind,
    /// A file of the first shape would be replaced by one of the second.
    OtherShape(Shape, Shape),
    /// The index of the file that is there isn't that of its records.
    BadIndex,
}

impl From<AllocError> for LoadFault {
    ghost use Rattle.std.specs.Prelude.{◌≡◌};
    ghost use Rattle.s3_load.specs.declared.fault.LoadFault.TheVariants.{NoMemory as NoMemoryVariant};

    ghost from_gives = { λ _ fault. fault ≡ NoMemoryVariant };

    fn from(_: AllocError) -> Self {
        LoadFault::NoMemory
    }
}

impl<T: Drop> From<AllocFailed<T>> for LoadFault {
    ghost use Rattle.std.specs.Prelude.{◌≡◌};
    ghost use Rattle.s3_load.specs.declared.fault.LoadFault.TheVariants.{NoMemory as NoMemoryVariant};

    ghost from_gives = { λ _ fault. fault ≡ NoMemoryVariant };

    fn from(_: AllocFailed<T>) -> Self {
        LoadFault::NoMemory
    }
}

impl From<ChangeFault> for LoadFault {
    ghost use Rattle.std.specs.Prelude.{◌≡◌};
    ghost use Rattle.s3_load.specs.Inner.Refusals.{of_change};

    ghost from_gives = { λ change fault. fault ≡ of_change change };

    fn from(fault: ChangeFault) -> Self {
        match fault {
            ChangeFault::Label(fault) => LoadFault::Label(fault),
            ChangeFault::Sectors(_) => LoadFault::NoMemory,
        }
    }
}
