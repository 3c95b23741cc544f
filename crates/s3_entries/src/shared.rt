//! The entries that several sheets have.

use crate::span;
use crate::span::Span;

/// The letter of the sheet.
pub const FORM_TYPE: Span = span!(6 to 6);

/// What makes a card of any sheet a comment.
pub const COMMENT: Span = span!(7 to 7);

/// The name of a file, on F, I and O cards.
pub const FILENAME: Span = span!(7 to 14);

/// What AND and OR lines have instead of a filename.
pub const GROUP: Span = span!(14 to 16);

/// The columns before AND or OR that have a filename on other lines.
pub const BEFORE_GROUP: Span = span!(7 to 13);
