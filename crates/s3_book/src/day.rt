//! A day, as its page shows it. Texts are bytes of UTF-8.

use s3_cards::LevelId;

/// A job that was begun.
#[derive(Clone, Copy)]
pub struct Job<'a> {
    /// Its level.
    pub level: LevelId,
    /// Its number in the level, from 1.
    pub number: u64,
    /// Its program.
    pub program: &'a [u8],
    /// Whether it is a compile job or a run job, in words.
    pub kind: &'a [u8],
    /// How many turns both levels had taken when it began.
    pub first: u64,
    /// How many turns both levels had taken when it was over.
    pub last: u64,
    /// How many lines it printed.
    pub lines: u64,
    /// How it ended.
    pub ending: &'a [u8],
    /// The file that has its report, if it printed.
    pub file: Option<&'a [u8]>,
}

/// A halt.
#[derive(Clone, Copy)]
pub struct Halt<'a> {
    /// Its level.
    pub level: LevelId,
    /// The number of its job.
    pub job: u64,
    /// Its two letters.
    pub letters: &'a [u8],
    /// How many turns both levels had taken when it came.
    pub turn: u64,
    /// How many turns both levels had taken when the reply was given, if it has one.
    pub replied: Option<u64>,
    /// What was shown of it.
    pub words: &'a [u8],
    /// The reply, and who gave it.
    pub reply: &'a [u8],
}

/// A file that the day changed.
#[derive(Clone, Copy)]
pub struct ChangedFile<'a> {
    /// The region of the pack.
    pub region: &'a [u8],
    /// The file's label.
    pub name: &'a [u8],
    /// How many records it had before the day, if it existed.
    pub before: Option<u64>,
    /// How many records it has after the day, if it exists.
    pub after: Option<u64>,
}

/// A file on the pack.
#[derive(Clone, Copy)]
pub struct Extent<'a> {
    /// Its label.
    pub name: &'a [u8],
    /// How many tracks of its region come before it.
    pub before: u64,
    /// How many tracks it has.
    pub tracks: u64,
    /// How many records it has.
    pub records: u64,
}

/// A region of the pack.
#[derive(Clone, Copy)]
pub struct Region<'a> {
    /// Its name.
    pub name: &'a [u8],
    /// The level that has it; none for the masters.
    pub level: Option<LevelId>,
    /// How many tracks it has.
    pub tracks: u64,
    /// How many of them are free.
    pub free: u64,
    /// Its files.
    pub files: &'a [Extent<'a>],
}

/// A day that is over.
#[derive(Clone, Copy)]
pub struct Day<'a> {
    /// The title.
    pub title: &'a [u8],
    /// What the day was begun with: the pack, the decks and the dates of their jobs, a line each.
    pub given: &'a [u8],
    /// What became of the day.
    pub status: &'a [u8],
    /// The summary of both levels.
    pub summary: &'a [u8],
    /// How many turns both levels have taken.
    pub turns: u64,
    /// The jobs of both levels.
    pub jobs: &'a [Job<'a>],
    /// The halts of both levels.
    pub halts: &'a [Halt<'a>],
    /// The files that changed.
    pub files: &'a [ChangedFile<'a>],
    /// The regions of the pack, as the day leaves it.
    pub regions: &'a [Region<'a>],
}
