//! What a job's statements and its level set for its files.
use s3_ocl::FileStatement;

/// What a job's statements and its level set for its files.
#[derive(Clone, Copy)]
pub struct JobSettings<'a> {
    /// The FILE statements of the job.
    pub statements: &'a [FileStatement],
    /// The switches U1 to U8 as they are for the job, U1 the highest bit.
    pub switches: u8,
    /// The date of the job, mmddyy in EBCDIC.
    pub date: [u8; 6],
}
