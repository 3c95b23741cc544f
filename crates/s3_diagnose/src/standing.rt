//! A line with what it names, and its context.

use s3_lines::sheet::{CalculationLine, FileLine, InputLine, OutputLine};
use s3_program::program::Meaning;
use s3_program::standing::{CalculationStanding, FileStanding, InputStanding, OutputStanding};

/// A line of a sheet with what it names.
#[derive(Clone, Copy)]
pub enum MeantLine {
    /// A card of the H sheet.
    Header,
    /// A card of the F sheet.
    File(FileLine),
    /// A card of the I sheet.
    Input(InputLine<Meaning>),
    /// A card of the C sheet.
    Calculation(CalculationLine<Meaning>),
    /// A card of the O sheet.
    Output(OutputLine<Meaning>),
}

/// The context of a line among all lines of a source, sheet by sheet.
#[derive(Clone, Copy)]
pub struct Standing {
    /// The context of the next F line.
    pub files: FileStanding,
    /// The context of the next I line.
    pub inputs: InputStanding,
    /// The context of the next C line.
    pub calculations: CalculationStanding,
    /// The context of the next O line.
    pub outputs: OutputStanding,
}
