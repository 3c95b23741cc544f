//! The entries of Output cards (O).

use crate::calculation::CONDITION;
use crate::entry::Entry;
use crate::span::Span;
use crate::{shared, sheet_entry, span};

/// The columns that a field card has blank: the filename and the type of a line.
pub const FILENAME_AND_TYPE: Span = span!(shared::FILENAME, TYPE);

/// When the line is written.
pub const TYPE: Span = span!(15 to 15);

/// Whether the record is added.
pub const ADDITION: Span = span!(16 to 18);

/// The column that is blank if the line has spaces and not ADD.
pub const BEFORE_SPACES: Span = span!(16 to 16);

/// Lines before the line.
pub const SPACE_BEFORE: Span = span!(17 to 17);

/// Lines after the line.
pub const SPACE_AFTER: Span = span!(18 to 18);

/// The line of the form before the line is printed.
pub const SKIP_BEFORE: Span = span!(19 to 20);

/// The line of the form after the line is printed.
pub const SKIP_AFTER: Span = span!(21 to 22);

/// The first condition.
pub const INDICATOR_1: Span = span!(23 to 25);

/// The second condition.
pub const INDICATOR_2: Span = span!(26 to 28);

/// The third condition.
pub const INDICATOR_3: Span = span!(29 to 31);

/// The field.
pub const FIELD_NAME: Span = span!(32 to 37);

/// The edit code.
pub const EDIT_CODE: Span = span!(38 to 38);

/// Whether the field is blanked after it is written.
pub const BLANK_AFTER: Span = span!(39 to 39);

/// The last position of the field in the record.
pub const END_POSITION: Span = span!(40 to 43);

/// Whether the field is packed.
pub const PACKED: Span = span!(44 to 44);

/// The constant.
pub const CONSTANT: Span = span!(45 to 70);

const FIRST: Entry = sheet_entry!(INDICATOR_1: "first output indicator", CONDITION);

const SECOND: Entry = sheet_entry!(INDICATOR_2: "second output indicator", CONDITION);

const THIRD: Entry = sheet_entry!(INDICATOR_3: "third output indicator", CONDITION);

/// The entries of a line that begins a record.
pub static LINE: [Entry; 10] = [
    sheet_entry!(shared::FILENAME: "filename", "a name of at most 8 characters; blank for the file of the line before"),
    sheet_entry!(TYPE: "type", "H, D, T or E", ["H", "D", "T", "E"]),
    sheet_entry!(ADDITION: "record addition", "ADD; else 16 is blank, and 17 and 18 are the spaces", ["ADD"]),
    sheet_entry!(SPACE_BEFORE: "space before", "0 to 3 on PRINTER, or blank", ["0", "1", "2", "3"]),
    sheet_entry!(SPACE_AFTER: "space after", "0 to 3 on PRINTER, or blank", ["0", "1", "2", "3"]),
    sheet_entry!(SKIP_BEFORE: "skip before", "01 to 66 on PRINTER, or blank"),
    sheet_entry!(SKIP_AFTER: "skip after", "01 to 66 on PRINTER, or blank"),
    FIRST,
    SECOND,
    THIRD,
];

/// The entries of an AND or OR line.
pub static GROUP: [Entry; 4] = [
    sheet_entry!(shared::GROUP: "AND or OR", "AND or OR", ["AND", "OR"]),
    FIRST,
    SECOND,
    THIRD,
];

/// The entries of a field.
pub static FIELD: [Entry; 9] = [
    FIRST,
    SECOND,
    THIRD,
    sheet_entry!(FIELD_NAME: "field name", "a name of at most 6 characters; blank with a constant"),
    sheet_entry!(EDIT_CODE: "edit codes", "1 to 4, A to D, J to M, X, Y or Z for a number, or blank", ["1", "2", "3", "4", "A", "B", "C", "D", "J", "K", "L", "M", "X", "Y", "Z"]),
    sheet_entry!(BLANK_AFTER: "blank after", "B or blank", ["B"]),
    sheet_entry!(END_POSITION: "end position in output record", "1 to 9999, within the record"),
    sheet_entry!(PACKED: "packed", "P in a file on DISK, without edit code, or blank", ["P"]),
    sheet_entry!(CONSTANT: "constant or edit word", "1 to 24 characters in apostrophes, an apostrophe written twice; edit words are left out"),
];
