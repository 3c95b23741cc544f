//! Why a record isn't amended.

use s3_cards::Name;
use s3_cells::CellFault;
use s3_labels::{LabelFault, MountFault};
use s3_pack_care::CareFault;
use s3_record_types::TypeFault;
use std::alloc::{AllocError, AllocFailed};

/// What is wrong with an amendment.
#[derive(Drop)]
pub enum Mistake {
    /// No field of the layout has this name.
    Unknown(Vec<u8>),
    /// The field is named twice.
    Twice(Name),
    /// Both fields are named, and they overlap.
    Overlap(Name, Name),
    /// The field has a byte of the file's key.
    InKey(Name),
    /// The field can't get this value.
    Value(Name, CellFault, Vec<u8>),
    /// The file has so many records, and not one of the number that is asked for.
    NoNumber(u32),
    /// The file has no key.
    Keyless,
    /// The value isn't one of the field that is the key.
    KeyValue(Name, CellFault),
    /// The key is longer than this, the length of the file's keys.
    LongKey(u8),
    /// The key has a character that no card can have.
    KeyCharacter,
    /// No record has the key.
    NoKey,
    /// The record isn't of the chosen type, before it is amended.
    OtherType(TypeFault),
    /// The record would not be of the chosen type.
    LeavesType(TypeFault),
}

/// Why a record isn't amended. Nothing is changed then.
#[derive(Drop)]
pub enum AmendFault {
    /// Memory was refused.
    NoMemory,
    /// The pack isn't mounted, for what is wrong with its header.
    Mount(MountFault),
    /// No valid file of the area has the label.
    Label(LabelFault),
    /// The records of the file have this length, and those of the layout another one.
    OtherLength(u16),
    /// All that is wrong with the amendment.
    Mistakes(Vec<Mistake>),
}

impl From<AllocError> for AmendFault {
    fn from(_: AllocError) -> Self {
        AmendFault::NoMemory
    }
}

impl<T: Drop> From<AllocFailed<T>> for AmendFault {
    fn from(_: AllocFailed<T>) -> Self {
        AmendFault::NoMemory
    }
}

impl From<CareFault> for AmendFault {
    fn from(fault: CareFault) -> Self {
        match fault {
            CareFault::Mount(fault) => AmendFault::Mount(fault),
            // a mount is refused by the header alone, or for want of memory
            _ => AmendFault::NoMemory,
        }
    }
}
