//! An entry of a sheet.

use crate::span::Span;

/// An entry of a sheet: columns of a card that are read together.
#[derive(Clone, Copy)]
pub struct Entry {
    /// Its columns.
    pub columns: Span,
    /// Its name, as IBM's sheets print it.
    pub name: &'static str,
    /// What may be in it, in words.
    pub allowed: &'static str,
    /// The texts that may be in it, without the blanks at their end; none if these are too many to list.
    pub values: &'static [&'static str],
}

/// An entry: `sheet_entry!(TYPE: "file type", "I, O or U", ["I", "O", "U"])`, or without the list if the texts are too many.
#[macro_export]
macro_rules! sheet_entry {
    ($columns:path: $name:expr, $allowed:expr, [$($value:literal),* $(,)?]) => {
        $crate::Entry {
            columns: $columns,
            name: $name,
            allowed: $allowed,
            values: &[$($value),*],
        }
    };
    ($columns:path: $name:expr, $allowed:expr) => {
        $crate::sheet_entry!($columns: $name, $allowed, [])
    };
}
