//! How far the reports of a day are written.

/// How far the reports of a day are written. Level 1's report comes first, then its halts, then level 2's report.
#[derive(Clone, Copy)]
pub enum Place {
    /// Nothing is written.
    Start,
    /// So many lines of level 1 are written.
    One(usize),
    /// Level 1 is written whole, and so many lines of level 2.
    Two(usize),
}
