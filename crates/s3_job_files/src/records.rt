//! The records of an open file.
ghost use Rattle.std.specs.Prelude.{◌≡◌};
ghost use Rattle.s3_job_files.specs.Inner.Holds.{count_of};

use s3_files::{RecordFile, Sequential};
use s3_keyed::Keyed;
use s3_operator::HaltCode;

/// What becomes of a record that is to be put into a file.
#[derive(Clone, Copy)]
pub enum Put {
    /// It is in the file.
    Done,
    /// It isn't taken, for this cause.
    Refused(HaltCode),
}

/// The records of an open file.
#[derive(Drop)]
pub enum OpenRecords {
    /// The records of a file without an index, in order.
    InOrder(Sequential),
    /// The records of a file with an index by key.
    ByKey(Keyed),
}

impl OpenRecords {
    /// How many records the file has now.
    pub fn len(&self) -> u32
        ensures { result ≡ count_of self.now }
    {
        match self {
            OpenRecords::InOrder(file) => file.len(),
            OpenRecords::ByKey(file) => file.len(),
        }
    }
}
