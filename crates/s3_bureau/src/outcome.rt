//! What a run hands out.

use s3_cards::PrintLine;

/// A level's report and its halt text.
#[derive(Drop)]
pub struct LevelTexts {
    /// A line for each printed line: the page, the line of the page, and the text.
    pub report: Vec<u8>,
    /// A line for each halt: the job's number, the letters of its code, and the reply. A line for each of its details,
    /// with the job, a card of the deck and the number of what is wrong there, follows it.
    pub halts: Vec<u8>,
}

/// What a run hands out.
#[derive(Drop)]
pub struct Outcome {
    /// The report and the halt text of level 1.
    pub one: LevelTexts,
    /// The report and the halt text of level 2.
    pub two: LevelTexts,
    /// The bytes of the pack as the run leaves it.
    pub pack: Vec<u8>,
}

/// A level's printed lines and its halt text.
#[derive(Drop)]
pub struct LevelLines {
    /// The printed lines, in order: the report has a line for each.
    pub lines: Vec<PrintLine>,
    /// The halt text, as in `LevelTexts`.
    pub halts: Vec<u8>,
}

/// What a run leaves, with its reports as printed lines.
#[derive(Drop)]
pub struct RunLines {
    /// The lines and the halt text of level 1.
    pub one: LevelLines,
    /// The lines and the halt text of level 2.
    pub two: LevelLines,
    /// The bytes of the pack as the run leaves it.
    pub pack: Vec<u8>,
}
