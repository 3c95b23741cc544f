//! The point at which a job halts.

/// The point at which a job halts. It decides what replies do. Replies 2 and 3 are always allowed.
#[derive(Clone, Copy)]
pub enum HaltKind {
    /// At work, and reply 0 continues the job.
    GoesOn,
    /// At work, and the job can't continue.
    Ends,
    /// Not started: no cycle of the job has begun, and replies 2 and 3 pass the job over.
    NotStarted,
}
