//! Entries of a script.

use s3_cards::LevelId;
use s3_level::Action;

/// One entry of a script: what one level does.
#[derive(Clone, Copy, PartialEq, Eq)]
pub struct Entry {
    /// The level that it names.
    pub level: LevelId,
    /// What that level does.
    pub action: Action,
}
