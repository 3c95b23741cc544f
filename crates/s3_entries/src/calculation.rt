//! The entries of a Calculation card (C).

use crate::entry::Entry;
use crate::span::Span;
use crate::{sheet_entry, span};

/// When the calculation is done.
pub const CONTROL_LEVEL: Span = span!(7 to 8);

/// The first condition.
pub const INDICATOR_1: Span = span!(9 to 11);

/// The second condition.
pub const INDICATOR_2: Span = span!(12 to 14);

/// The third condition.
pub const INDICATOR_3: Span = span!(15 to 17);

/// Factor 1.
pub const FACTOR_1: Span = span!(18 to 27);

/// The operation.
pub const OPERATION: Span = span!(28 to 32);

/// Factor 2.
pub const FACTOR_2: Span = span!(33 to 42);

/// The result.
pub const RESULT: Span = span!(43 to 48);

/// The length of the result.
pub const LENGTH: Span = span!(49 to 51);

/// The decimals of the result.
pub const DECIMALS: Span = span!(52 to 52);

/// Whether the result is half adjusted.
pub const HALF_ADJUST: Span = span!(53 to 53);

/// The indicator of a high or positive result.
pub const HIGH: Span = span!(54 to 55);

/// The indicator of a low or negative result.
pub const LOW: Span = span!(56 to 57);

/// The indicator of an equal or zero result.
pub const EQUAL: Span = span!(58 to 59);

/// Remarks, which a card must not have.
pub const COMMENTS: Span = span!(60 to 74);

/// What may be in the entry of a condition.
pub const CONDITION: &'static str = "blank or N, and then an indicator";

/// What may be in a factor.
const FACTOR: &'static str =
    "a name, a number or a text in apostrophes; blank if the operation takes none";

/// What may be in the entry of a resulting indicator.
const RESULTING: &'static str =
    "01 to 99, L1 to L9, LR or H1 to H9, with SETON and SETOF also OA to OG or OV; or blank";

/// The entries of a calculation.
pub static CARD: [Entry; 15] = [
    sheet_entry!(CONTROL_LEVEL: "control level", "blank for detail time, L0 to L9, LR, SR, AN or OR", ["L0", "L1", "L2", "L3", "L4", "L5", "L6", "L7", "L8", "L9", "LR", "SR", "AN", "OR"]),
    sheet_entry!(INDICATOR_1: "first indicator", CONDITION),
    sheet_entry!(INDICATOR_2: "second indicator", CONDITION),
    sheet_entry!(INDICATOR_3: "third indicator", CONDITION),
    sheet_entry!(FACTOR_1: "factor 1", FACTOR),
    sheet_entry!(OPERATION: "operation", "an operation; blank if an AN or OR card follows", ["ADD", "SUB", "MULT", "DIV", "Z-ADD", "Z-SUB", "MVR", "COMP", "MOVE", "MOVEL", "SETON", "SETOF", "GOTO", "TAG", "EXSR", "BEGSR", "ENDSR", "EXCPT", "CHAIN"]),
    sheet_entry!(FACTOR_2: "factor 2", FACTOR),
    sheet_entry!(RESULT: "result field", "a name of at most 6 characters; blank if the operation has no result"),
    sheet_entry!(LENGTH: "field length", "1 to 15 for a number, 1 to 256 for a text; blank if the field is defined elsewhere"),
    sheet_entry!(DECIMALS: "decimal positions", "0 to 9 for a number, blank for a text", ["0", "1", "2", "3", "4", "5", "6", "7", "8", "9"]),
    sheet_entry!(HALF_ADJUST: "half adjust", "H or blank", ["H"]),
    sheet_entry!(HIGH: "resulting indicator plus or high", RESULTING),
    sheet_entry!(LOW: "resulting indicator minus or low", RESULTING),
    sheet_entry!(EQUAL: "resulting indicator zero or equal", RESULTING),
    sheet_entry!(COMMENTS: "comments", "blank; bureau punch --remarks blanks the remarks of old decks"),
];
