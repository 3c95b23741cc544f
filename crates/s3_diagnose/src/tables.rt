//! What all the lines define.

use indexmap::{IndexMap, IndexSet};
use s3_cards::Name;
use s3_lines::sheet::Shape;
use s3_program::call::Call;
use s3_program::definitions::Definitions;
use s3_program::mark::{GroupMark, Level, TypeKey, TypeMark};

/// What the I lines say of record types and of match and control fields.
#[derive(Drop)]
pub struct MarkTables {
    /// The record types, by group and indicator.
    pub types: IndexSet<TypeKey>,
    /// The place of the first field with each Mn and Ln, among the fields that count in all types of their group.
    pub in_all: IndexMap<GroupMark, usize>,
    /// The place of the first field with each Mn and Ln, among the fields that count in some type of their group.
    pub in_some: IndexMap<GroupMark, usize>,
    /// The place of the first field with each Mn and Ln, among the fields that count only in the types with one indicator.
    pub in_type: IndexMap<TypeMark, usize>,
    /// The shape of the first field of the source with each Mn and Ln.
    pub shapes: IndexMap<Level, Shape>,
    /// Which of M1 to M9 the first type with match fields has, M1 first.
    pub matched: [bool; 9],
}

/// What all lines of a source define, as the tests of single lines ask for it.
#[derive(Drop)]
pub struct KnownTables {
    /// What names mean.
    pub definitions: Definitions,
    /// For each file's name, the place of the first F line with it, from 0 among the F lines.
    pub file_places: IndexMap<Name, usize>,
    /// What the I lines say of record types and of match and control fields.
    pub marks: MarkTables,
    /// The calls of subroutines that are forbidden: in a circle, or the ninth of a chain.
    pub forbidden: IndexSet<Call>,
}
