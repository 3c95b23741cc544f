//! How long files are kept.

/// How long a file on a pack is kept.
#[derive(Clone, Copy)]
pub enum Retention {
    /// T: until a job makes a file of its label again.
    Temporary,
    /// S: until the end of the job that makes it.
    Scratch,
    /// P: a job that would make a file of its label is refused.
    Permanent,
}
