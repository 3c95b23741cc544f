//! Match fields and control fields.

use s3_lines::indicator::Indicator;

/// Whether a field is a control field or a match field (I sheet, columns 59 to 62).
#[derive(Clone, Copy, PartialEq, Eq, Hash)]
pub enum Key {
    /// A control field, with L1 to L9.
    Control,
    /// A match field, with M1 to M9.
    Match,
}

/// One of L1 to L9 or of M1 to M9.
#[derive(Clone, Copy, PartialEq, Eq, Hash)]
pub struct Level {
    /// Whether it is an L or an M.
    pub key: Key,
    /// Its number, 1 to 9.
    pub number: u8,
}

/// What the fields of a group with the same Ln or Mn are known by. A group is a record line with its AND, OR and field lines.
#[derive(Clone, Copy, PartialEq, Eq, Hash)]
pub struct GroupMark {
    /// The place of the group's record line.
    pub group: usize,
    /// Ln or Mn.
    pub level: Level,
}

/// What the record types of a group with the same record identifying indicator are known by.
#[derive(Clone, Copy, PartialEq, Eq, Hash)]
pub struct TypeKey {
    /// The place of the group's record line.
    pub group: usize,
    /// The record identifying indicator.
    pub indicator: Indicator,
}

/// What the fields are known by that have the same Ln or Mn and count only in the types of a group with one indicator.
#[derive(Clone, Copy, PartialEq, Eq, Hash)]
pub struct TypeMark {
    /// The place of the group's record line.
    pub group: usize,
    /// The number of the record identifying indicator (`Indicator::number`).
    pub indicator: usize,
    /// Ln or Mn.
    pub level: Level,
}
