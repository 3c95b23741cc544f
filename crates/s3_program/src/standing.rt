//! The context of a line of a sheet: what the lines above it say of it.

use crate::program::Meaning;
use s3_lines::sheet::CalculationTime;

/// What the F lines above a line of the F sheet say of it.
#[derive(Clone, Copy)]
pub struct FileStanding {
    /// The number of F lines above.
    pub place: usize,
    /// Whether there is a card file above.
    pub has_card_file: bool,
    /// Whether there is a print file above.
    pub has_print_file: bool,
}

/// What the I lines above a line of the I sheet say of it.
#[derive(Clone, Copy)]
pub struct InputStanding {
    /// The number of I lines above.
    pub place: usize,
    /// The place of the last record line, by which its group is known.
    pub group: Option<usize>,
    /// The file of that record line.
    pub file: Meaning,
    /// Whether an AND or OR line may continue with the line before.
    pub is_open: bool,
}

/// What the C lines above a line of the C sheet say of it.
#[derive(Clone, Copy)]
pub struct CalculationStanding {
    /// The number of C lines above.
    pub place: usize,
    /// The latest part of the sheet: 0 detail lines, 1 total lines, 2 subroutines.
    pub part: u8,
    /// The section of the line before: 0 detail, 1 total, 2 outside of every subroutine, and 3 more than the place of
    /// its BEGSR in a subroutine.
    pub section: usize,
    /// The place of the BEGSR of the subroutine that has begun and not ended.
    pub subroutine: Option<usize>,
    /// The level entry of the group of the line before, if that line has no operation; AND if no line begins the group.
    pub group: Option<CalculationTime>,
    /// The section of the line before, if it is a DIV without half adjust.
    pub division: Option<usize>,
}

/// What the O lines above a line of the O sheet say of it.
#[derive(Clone, Copy)]
pub struct OutputStanding {
    /// The file of the last line card above. A line card without a file takes the file of the line card before. None if no line
    /// card above names a file.
    pub file: Option<Meaning>,
    /// Whether there is a line card above.
    pub has_line: bool,
    /// Whether an AND or OR card may continue with the card before.
    pub is_open: bool,
}
