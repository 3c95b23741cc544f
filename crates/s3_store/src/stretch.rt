//! Runs of sectors.

/// A run of sectors: a region of a pack, an extent of a file, or free room.
#[derive(Clone, Copy, PartialEq, Eq)]
pub struct Stretch {
    /// The number of the first sector of the run.
    pub start: u16,
    /// How many sectors the run has, 0 for none.
    pub sectors: u16,
}
