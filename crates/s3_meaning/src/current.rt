//! The record that an update changes.

/// The record of a file that an update changes.
#[derive(Clone, Copy)]
pub enum Current {
    /// The one that was read as the n-th, from 1.
    NthRead(u32),
    /// The one that CHAIN found last.
    LastChained,
}
