//! What an amendment is to do.

use s3_cards::Name;
use s3_cells::Layout;
use s3_labels::Area;
use s3_record_types::ChosenRecords;

/// A field, and the value that it is to get.
#[derive(Clone, Copy)]
pub struct Setting<'a> {
    /// The name of the field.
    pub name: &'a [u8],
    /// The value, as a cell of a table has it.
    pub value: &'a [u8],
}

/// Which record of a file is meant.
#[derive(Clone, Copy)]
pub enum Which<'a> {
    /// The record with this number, from 1, in the order in which the records were written.
    Number(u32),
    /// The record with this key: the value of the field that is the key, or its characters.
    Key(&'a [u8]),
}

/// What an amendment is to do.
#[derive(Clone, Copy)]
pub struct Amendment<'a> {
    /// The area of the file.
    pub area: Area,
    /// The label of the file.
    pub name: Name,
    /// The fields of its records.
    pub layout: &'a Layout,
    /// The type of the record; of all records none is amended.
    pub chosen: &'a ChosenRecords,
    /// The record.
    pub which: Which<'a>,
    /// The fields that get values.
    pub settings: &'a [Setting<'a>],
}
