//! Characters of plain text.

/// The tab.
pub const TAB: char = '\t';
