//! What a level halts for.

/// What a level halts for, until an operator replies: a program at work, or a job that can't be started.
#[derive(Clone, Copy)]
pub enum HaltCode {
    /// H1 to H9: the program turned on the halt indicator of this number, 1 to 9.
    HaltIndicator(u8),
    /// UR: a record was read that is of none of its file's types.
    UnidentifiedRecord,
    /// DZ: a number was to be divided by zero.
    ZeroDivisor,
    /// DE: a field that was to be moved has a bad digit.
    BadDigit,
    /// NF: CHAIN found no record of the key or number, and has no indicator for it.
    NoRecordFound,
    /// DK: a record was to be added under a key that its file has.
    DuplicateKey,
    /// SQ: the match fields of a file's record come before those of its last record.
    OutOfSequence,
    /// KC: a record was to be updated with another key.
    KeyChanged,
    /// NU: a file without a current record was to be updated.
    NothingToUpdate,
    /// EX: a record was to be added to a file that has no space for it.
    FileFull,
    /// KA: a loaded record has a key that isn't above the key of the record before it.
    KeyNotAscending,
    /// OC: the job's statements are in error.
    FaultyJob,
    /// PG: the program isn't in the library.
    NoProgram,
    /// CE: the source has diagnostics.
    FaultySource,
    /// LB: a file of the program has no FILE statement, or there is no file of its label.
    NoLabel,
    /// LD: damage in a label area blocks the label.
    DamagedLabel,
    /// MU: a master would be changed, or a file made under its label.
    MasterForUpdate,
    /// NS: no slot is free for the label of a file to be made, or its region has no space for the file.
    NoSpace,
    /// RT: a file to be made would replace one that is kept for good.
    RetainedFile,
    /// DU: two files of the job have one label.
    DuplicateLabel,
    /// LN: a file's record length, organization or key differs from its label.
    LabelMismatch,
    /// IX: the index of a file isn't good.
    BadIndex,
}

/// Every halt, by which a halt is found by its letters.
pub(crate) const HALTS: [HaltCode; 30] = [
    HaltCode::HaltIndicator(1),
    HaltCode::HaltIndicator(2),
    HaltCode::HaltIndicator(3),
    HaltCode::HaltIndicator(4),
    HaltCode::HaltIndicator(5),
    HaltCode::HaltIndicator(6),
    HaltCode::HaltIndicator(7),
    HaltCode::HaltIndicator(8),
    HaltCode::HaltIndicator(9),
    HaltCode::UnidentifiedRecord,
    HaltCode::ZeroDivisor,
    HaltCode::BadDigit,
    HaltCode::NoRecordFound,
    HaltCode::DuplicateKey,
    HaltCode::OutOfSequence,
    HaltCode::KeyChanged,
    HaltCode::NothingToUpdate,
    HaltCode::FileFull,
    HaltCode::KeyNotAscending,
    HaltCode::FaultyJob,
    HaltCode::NoProgram,
    HaltCode::FaultySource,
    HaltCode::NoLabel,
    HaltCode::DamagedLabel,
    HaltCode::MasterForUpdate,
    HaltCode::NoSpace,
    HaltCode::RetainedFile,
    HaltCode::DuplicateLabel,
    HaltCode::LabelMismatch,
    HaltCode::BadIndex,
];
