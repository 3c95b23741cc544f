//! What the lines of a source define, by name.

use crate::program::{SubroutinePlace, TagPlace};
use indexmap::IndexMap;
use s3_cards::Name;
use s3_lines::sheet::{FileLine, Shape};

/// What lines define, each by its first definition; the place of a name in its map is its slot.
#[derive(Drop)]
pub struct Definitions {
    /// The files, each with its F line.
    pub files: IndexMap<Name, FileLine>,
    /// The fields, each with its shape; UDATE, UMONTH, UDAY, UYEAR and PAGE come first.
    pub fields: IndexMap<Name, Shape>,
    /// The tags, each with its place among the C lines.
    pub tags: IndexMap<Name, TagPlace>,
    /// The subroutines, each with its place among the C lines.
    pub subroutines: IndexMap<Name, SubroutinePlace>,
}
