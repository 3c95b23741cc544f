//! The entries of Input cards (I).

use crate::entry::Entry;
use crate::span::Span;
use crate::{shared, sheet_entry, span};

/// The order of record types.
pub const SEQUENCE: Span = span!(15 to 16);

/// The indicator that a record of the type turns on.
pub const RECORD_INDICATOR: Span = span!(19 to 20);

/// The position of the first code.
pub const POSITION_1: Span = span!(21 to 24);

/// Whether the first code is negated.
pub const NOT_1: Span = span!(25 to 25);

/// The part of the first code's character.
pub const PART_1: Span = span!(26 to 26);

/// The first code's character.
pub const CHARACTER_1: Span = span!(27 to 27);

/// The position of the second code.
pub const POSITION_2: Span = span!(28 to 31);

/// Whether the second code is negated.
pub const NOT_2: Span = span!(32 to 32);

/// The part of the second code's character.
pub const PART_2: Span = span!(33 to 33);

/// The second code's character.
pub const CHARACTER_2: Span = span!(34 to 34);

/// The position of the third code.
pub const POSITION_3: Span = span!(35 to 38);

/// Whether the third code is negated.
pub const NOT_3: Span = span!(39 to 39);

/// The part of the third code's character.
pub const PART_3: Span = span!(40 to 40);

/// The third code's character.
pub const CHARACTER_3: Span = span!(41 to 41);

/// All of the first code: its position, negation, part and character.
pub const CODE_1: Span = span!(POSITION_1, CHARACTER_1);

/// All of the second code: its position, negation, part and character.
pub const CODE_2: Span = span!(POSITION_2, CHARACTER_2);

/// All of the third code: its position, negation, part and character.
pub const CODE_3: Span = span!(POSITION_3, CHARACTER_3);

/// Whether the field is packed.
pub const PACKED: Span = span!(43 to 43);

/// The field's first position.
pub const FROM: Span = span!(44 to 47);

/// The field's last position.
pub const TO: Span = span!(48 to 51);

/// Both positions of the field.
pub const LOCATION: Span = span!(FROM, TO);

/// The field's decimals.
pub const DECIMALS: Span = span!(52 to 52);

/// The field's name.
pub const FIELD_NAME: Span = span!(53 to 58);

/// The indicator of a control break.
pub const CONTROL_LEVEL: Span = span!(59 to 60);

/// The place among match fields.
pub const MATCHING: Span = span!(61 to 62);

/// The record type that has the field.
pub const RELATION: Span = span!(63 to 64);

/// The indicator of a field above zero.
pub const PLUS: Span = span!(65 to 66);

/// The indicator of a field below zero.
pub const MINUS: Span = span!(67 to 68);

/// The indicator of a field that is zero or blank.
pub const ZERO: Span = span!(69 to 70);

/// The position of a code.
macro_rules! position {
    ($columns:path) => {
        sheet_entry!($columns: "position", "a position of the record; blank for a code that isn't used")
    };
}

/// The negation of a code.
macro_rules! negation {
    ($columns:path) => {
        sheet_entry!($columns: "not", "N or blank", ["N"])
    };
}

/// The part of a code's character.
macro_rules! part {
    ($columns:path) => {
        sheet_entry!($columns: "C/Z/D", "C, Z or D: the character, its zone or its digit", ["C", "Z", "D"])
    };
}

/// A code's character.
macro_rules! character {
    ($columns:path) => {
        sheet_entry!($columns: "character", "any character")
    };
}

/// The indicator of a record type.
macro_rules! record_indicator {
    () => {
        sheet_entry!(RECORD_INDICATOR: "record identifying indicator", "01 to 99 or H1 to H9")
    };
}

/// The entries of a line that begins a record type.
pub static RECORD: [Entry; 15] = [
    sheet_entry!(shared::FILENAME: "filename", "a name of at most 8 characters"),
    sheet_entry!(SEQUENCE: "sequence", "two letters"),
    record_indicator!(),
    position!(POSITION_1),
    negation!(NOT_1),
    part!(PART_1),
    character!(CHARACTER_1),
    position!(POSITION_2),
    negation!(NOT_2),
    part!(PART_2),
    character!(CHARACTER_2),
    position!(POSITION_3),
    negation!(NOT_3),
    part!(PART_3),
    character!(CHARACTER_3),
];

/// The entries of an AND or OR line.
pub static GROUP: [Entry; 14] = [
    sheet_entry!(shared::GROUP: "AND or OR", "AND or OR", ["AND", "OR"]),
    record_indicator!(),
    position!(POSITION_1),
    negation!(NOT_1),
    part!(PART_1),
    character!(CHARACTER_1),
    position!(POSITION_2),
    negation!(NOT_2),
    part!(PART_2),
    character!(CHARACTER_2),
    position!(POSITION_3),
    negation!(NOT_3),
    part!(PART_3),
    character!(CHARACTER_3),
];

/// The entries of a field.
pub static FIELD: [Entry; 11] = [
    sheet_entry!(PACKED: "packed", "P in a file on DISK, or blank", ["P"]),
    sheet_entry!(FROM: "field location from", "1 to 9999, within the record"),
    sheet_entry!(TO: "field location to", "1 to 9999, within the record"),
    sheet_entry!(DECIMALS: "decimal positions", "0 to 9 for a number, blank for a text", ["0", "1", "2", "3", "4", "5", "6", "7", "8", "9"]),
    sheet_entry!(FIELD_NAME: "field name", "a name of at most 6 characters"),
    sheet_entry!(CONTROL_LEVEL: "control level", "L1 to L9, or blank", ["L1", "L2", "L3", "L4", "L5", "L6", "L7", "L8", "L9"]),
    sheet_entry!(MATCHING: "matching fields", "M1 to M9, or blank", ["M1", "M2", "M3", "M4", "M5", "M6", "M7", "M8", "M9"]),
    sheet_entry!(RELATION: "field record relation", "a record identifying indicator of the group, or blank"),
    sheet_entry!(PLUS: "field indicator plus", "01 to 99 or H1 to H9 for a number, or blank"),
    sheet_entry!(MINUS: "field indicator minus", "01 to 99 or H1 to H9 for a number, or blank"),
    sheet_entry!(ZERO: "field indicator zero or blank", "01 to 99 or H1 to H9, or blank"),
];
