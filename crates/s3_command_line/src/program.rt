//! What the program is, and its version.

/// The version of the program.
pub const VERSION: &str = "1.0.0";

/// What the program is, in a line.
pub const ABOUT: &str = "A dual-program RPG II job shop";
