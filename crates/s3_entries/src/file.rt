//! The entries of a File Description card (F).

use crate::entry::Entry;
use crate::span::Span;
use crate::{shared, sheet_entry, span};

/// How the file is used.
pub const TYPE: Span = span!(15 to 15);

/// In which turn the file is read.
pub const DESIGNATION: Span = span!(16 to 16);

/// Whether the job ends with the file.
pub const END: Span = span!(17 to 17);

/// The order of match fields.
pub const SEQUENCE: Span = span!(18 to 18);

/// The format of records.
pub const FORMAT: Span = span!(19 to 19);

/// The length of a block.
pub const BLOCK_LENGTH: Span = span!(20 to 23);

/// The length of a record.
pub const RECORD_LENGTH: Span = span!(24 to 27);

/// How chained records are found.
pub const MODE: Span = span!(28 to 28);

/// The length of a key.
pub const KEY_LENGTH: Span = span!(29 to 30);

/// What records are found by.
pub const ADDRESS_TYPE: Span = span!(31 to 31);

/// How the file is organized.
pub const ORGANIZATION: Span = span!(32 to 32);

/// The indicator that the overflow of a page turns on.
pub const OVERFLOW: Span = span!(33 to 34);

/// Where a key begins.
pub const KEY_START: Span = span!(35 to 38);

/// The device.
pub const DEVICE: Span = span!(40 to 46);

/// Whether records are added.
pub const ADDITION: Span = span!(66 to 66);

/// The switch without which the file isn't used.
pub const CONDITION: Span = span!(71 to 72);

/// The entries of a file description.
pub static CARD: [Entry; 17] = [
    sheet_entry!(shared::FILENAME: "filename", "a name of at most 8 characters"),
    sheet_entry!(TYPE: "file type", "I, O or U", ["I", "O", "U"]),
    sheet_entry!(DESIGNATION: "file designation", "P, S or C; blank for output", ["P", "S", "C"]),
    sheet_entry!(END: "end of file", "E with P or S, or blank", ["E"]),
    sheet_entry!(SEQUENCE: "sequence", "A or blank, both ascending", ["A"]),
    sheet_entry!(FORMAT: "file format", "F", ["F"]),
    sheet_entry!(BLOCK_LENGTH: "block length", "a number or blank; not used"),
    sheet_entry!(RECORD_LENGTH: "record length", "1 to 96 on MFCU1 and MFCU2, to 132 on PRINTER, to 1024 on DISK"),
    sheet_entry!(MODE: "mode of processing", "R or blank", ["R"]),
    sheet_entry!(KEY_LENGTH: "length of key field", "1 to 29 for an indexed file, or blank"),
    sheet_entry!(ADDRESS_TYPE: "record address type", "A for an indexed file, or blank", ["A"]),
    sheet_entry!(ORGANIZATION: "type of file organization", "I for an indexed file, or blank", ["I"]),
    sheet_entry!(OVERFLOW: "overflow indicator", "OA to OG or OV on PRINTER, or blank", ["OA", "OB", "OC", "OD", "OE", "OF", "OG", "OV"]),
    sheet_entry!(KEY_START: "key field starting location", "the position of an indexed file's key, or blank"),
    sheet_entry!(DEVICE: "device", "MFCU1, MFCU2, PRINTER or DISK", ["MFCU1", "MFCU2", "PRINTER", "DISK"]),
    sheet_entry!(ADDITION: "file addition", "A or blank", ["A"]),
    sheet_entry!(CONDITION: "file condition", "U1 to U8, or blank", ["U1", "U2", "U3", "U4", "U5", "U6", "U7", "U8"]),
];
