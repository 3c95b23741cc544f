//! What a load is to do.

use s3_cards::{LevelId, Name, Retention};
use s3_cells::Layout;
use s3_lines::sheet::KeyField;
use s3_record_types::ChosenRecords;

/// How much room a new file is to have.
#[derive(Clone, Copy)]
pub enum Room {
    /// For the records of the table, and at least one.
    ForTable,
    /// For so many records.
    Records(u32),
    /// So many tracks.
    Tracks(u16),
}

/// What a load is to do.
#[derive(Clone, Copy)]
pub struct Order<'a> {
    /// The level whose file it is.
    pub level: LevelId,
    /// The label of the file.
    pub name: Name,
    /// The fields of its records.
    pub layout: &'a Layout,
    /// The type of each record: its codes are put in, and its records are of that type.
    pub chosen: &'a ChosenRecords,
    /// The place of the key, if the file has an index.
    pub key: Option<KeyField>,
    /// How much room a new file is to have.
    pub room: Room,
    /// How long a new file is kept.
    pub retention: Retention,
    /// The date of a new file, mmddyy, in EBCDIC.
    pub date: [u8; 6],
    /// Whether the records go after those of the file that is there.
    pub appends: bool,
    /// Whether a new file may replace one of another shape.
    pub reshapes: bool,
    /// Whether fields that the table doesn't have are blank or 0.
    pub fills: bool,
    /// The byte between the cells.
    pub delimiter: u8,
}
