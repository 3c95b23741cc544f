//! A suspended run.
ghost use Rattle.std.specs.Prelude.{◌≡◌, slice_get};
ghost use Rattle.std.specs.Option.{option_copied};

use crate::progress::{Point, Progress};
use crate::request::Request;
use crate::state::State;
use s3_instructions::calculation::{CalculationInstruction, TotalsGuard};
use s3_instructions::input::InputInstruction;
use s3_instructions::output::OutputSheet;
use s3_lines::indicator::Indicator;
use s3_lines::sheet::FileLine;
use s3_output::composition::Composition;
use s3_program::program::Program;

/// A run that waits for the answer to its request.
#[derive(Drop)]
pub struct Stepper {
    /// The program that runs.
    pub program: Program,
    /// The instructions of its C sheet.
    pub calculations: Vec<CalculationInstruction>,
    /// When its total calculations are passed over.
    pub totals_guard: TotalsGuard,
    /// The instructions of its I sheet.
    pub inputs: Vec<InputInstruction>,
    /// The overflow indicator of its print file.
    pub overflow: Option<Indicator>,
    /// The instructions of its O sheet.
    pub outputs: OutputSheet,
    /// The request that waits for an answer.
    pub request: Request,
    /// What continues with the answer.
    pub point: Point,
    /// What the run holds.
    pub state: State,
    /// How far it has come.
    pub progress: Progress,
    /// The line that is written, as it is composed.
    pub composition: Composition,
}

impl Stepper {
    /// The F line at a slot.
    pub fn file_line(&self, file: usize) -> Option<&FileLine>
        ensures { option_copied result ≡ slice_get self.now.program.files.items file }
    {
        self.program.files.get(file)
    }
}
