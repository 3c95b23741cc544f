//! The values of a day, with their texts.

use s3_cards::LevelId;

/// A job that was begun.
#[derive(Drop)]
pub struct BookJob {
    /// Its level.
    pub level: LevelId,
    /// Its number in the level, from 1.
    pub number: u64,
    /// Its program.
    pub program: String,
    /// Whether it is a compile job or a run job, in words.
    pub kind: &'static str,
    /// How many turns both levels had taken when it began.
    pub first: u64,
    /// How many turns both levels had taken when it was over.
    pub last: u64,
    /// How many lines it printed.
    pub lines: u64,
    /// How it ended.
    pub ending: String,
    /// The file that has its report, if it printed.
    pub file: Option<String>,
}

/// A halt.
#[derive(Drop)]
pub struct BookHalt {
    /// Its level.
    pub level: LevelId,
    /// The number of its job.
    pub job: u64,
    /// Its two letters, in ASCII.
    pub letters: [u8; 2],
    /// How many turns both levels had taken when it came.
    pub turn: u64,
    /// How many turns both levels had taken when the reply was given, if it has one.
    pub replied: Option<u64>,
    /// What was shown of it.
    pub words: String,
    /// The reply, and who gave it.
    pub reply: String,
}

/// What the desk has of a day.
#[derive(Drop)]
pub struct DayBook {
    /// The title.
    pub title: String,
    /// What the day was begun with: the pack, the decks and the dates of their jobs, a line each.
    pub given: String,
    /// What became of the day.
    pub status: String,
    /// The summary of both levels.
    pub summary: String,
    /// How many turns both levels have taken.
    pub turns: u64,
    /// The jobs of both levels.
    pub jobs: Vec<BookJob>,
    /// The halts of both levels.
    pub halts: Vec<BookHalt>,
}

/// A file that the day changed.
#[derive(Drop)]
pub(crate) struct Change {
    /// The region of the pack.
    pub(crate) region: &'static str,
    /// The file's label.
    pub(crate) name: String,
    /// How many records it had before the day, if it existed.
    pub(crate) before: Option<u64>,
    /// How many records it has after the day, if it exists.
    pub(crate) after: Option<u64>,
}

/// A file on the map of the pack.
#[derive(Drop)]
pub(crate) struct Place {
    /// Its label.
    pub(crate) name: String,
    /// How many tracks of its region come before it.
    pub(crate) before: u64,
    /// How many tracks it has.
    pub(crate) tracks: u64,
    /// How many records it has.
    pub(crate) records: u64,
}
