//! The entries of the control card (H).

use crate::entry::Entry;
use crate::span::Span;
use crate::{shared, sheet_entry, span};

/// The name of the program.
pub const PROGRAM: Span = span!(75 to 80);

/// The entries of a control card.
pub static CARD: [Entry; 2] = [
    sheet_entry!(shared::COMMENT: "comment", "* makes a comment of a card of any sheet", ["*"]),
    sheet_entry!(PROGRAM: "program identification", "the name of the program; blank for RPGOBJ"),
];
