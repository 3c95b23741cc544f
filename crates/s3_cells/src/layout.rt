//! The layout of a file's records.
ghost use Rattle.std.specs.List.{All};
ghost use Rattle.s3_cells.specs.Inner.Fields.{LiesIn};

use crate::field::Field;

/// How the records of a file are laid out. Fields may lie over each other.
#[derive(Drop)]
pub struct Layout {
    /// The length of each record in bytes, 1 to 1,024.
    pub record_length: u16,
    /// The fields.
    pub fields: Vec<Field>,
    pub ghost within: { All (LiesIn record_length) fields.items },
}
