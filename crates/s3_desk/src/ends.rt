//! The limit of a level's turns, and the point at which it was left.

/// How far a level goes at most.
#[derive(Clone, Copy)]
pub struct Bounds {
    /// So many turns.
    pub turns: u32,
    /// So many lines that are drained.
    pub lines: u32,
}

/// Where a level was left.
#[derive(Clone, Copy)]
pub enum End {
    /// No job is at work, none is left, and no line is queued.
    Done,
    /// A halt waits, and no line is queued. The operator was asked for a reply after all else was done, and gave none that the halt
    /// allows.
    Halted,
    /// A halt waits, and no line is queued. The operator isn't asked for a reply, since the level has taken 65,535 replies with no turn
    /// and no line between them.
    OutOfReplies,
    /// It has taken as many turns, or has printed as many lines, as it may.
    Cut,
}

/// Where both levels were left.
#[derive(Clone, Copy)]
pub struct Ends {
    /// Level one.
    pub one: End,
    /// Level two.
    pub two: End,
}
