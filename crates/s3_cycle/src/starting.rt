//! The beginning of a run.
ghost use Rattle.std.specs.Prelude.{◌≡◌, ◌+◌, ◌*◌, ◌^◌, ◌<◌, None, length, replicate, IfOk, OnOk};
ghost use Rattle.s3_operations.specs.Inner.Beginning.{IsDate};
ghost use Rattle.s3_operations.specs.Inner.Held.{HasTexts};
ghost use Rattle.s3_match.specs.Inner.Reading.{IsReading};
ghost use Rattle.s3_cycle.specs.Inner.Going.{AreSound, IsRunning};
ghost use Rattle.s3_cycle.specs.Inner.Starting.{AreInstructions, BeginsProgress, BeginsRun, BeginsState, IsBegun, Starts};

use crate::found::FoundRecord;
use crate::progress::{Point, Progress, Time};
use crate::request::Request;
use crate::state::State;
use crate::stepper::Stepper;
use s3_instructions::calculation::{
    CalculationInstruction, TotalsGuard, calculations, totals_guard,
};
use s3_instructions::input::{InputInstruction, inputs};
use s3_instructions::output::OutputSheet;
use s3_match::controls::Controls;
use s3_match::reading::Reading;
use s3_meaning::Current;
use s3_operations::texts::Texts;
use s3_operations::values::Values;
use s3_output::carriage::Carriage;
use s3_output::composition::Composition;
use s3_output::conditions::overflow_of;
use s3_program::program::Program;
use s3_sections::course::Course;
use s3_sections::spot::Spot;
use std::alloc::{AllocError, Global};

/// No file has a current record.
fn no_records(alloc: Global, files: usize) -> Result<Vec<Option<Current>>, AllocError>
    ensures { IfOk result (λ current. current.items ≡ replicate files None) }
{
    let mut current = Vec::with_capacity(alloc, files)?;
    for _ in 0..files {
        current.push(None)?;
    }
    Ok(current)
}

/// Becomes none, record by record.
fn forget(current: &mut [Option<Current>])
    ensures { current.new ≡ replicate (length current.old) None }
{
    current.fill(None);
}

impl Progress {
    /// Nothing is read yet.
    fn first(alloc: Global, program: &Program, switches: u8) -> Result<Progress, AllocError>
        ensures { IfOk result (BeginsProgress program.now switches) }
    {
        Ok(Progress {
            reading: Reading::first(alloc, program, switches)?,
            time: Time::Last,
            course: Course::new(Spot::detail(program)),
            record: FoundRecord::none(alloc)?,
        })
    }

    /// Nothing of another job of the same program is read yet. It takes no memory.
    fn begin_again(&mut self, program: &Program, switches: u8)
        requires { IsReading program.now self.old.reading }
        ensures { BeginsProgress program.now switches self.new }
    {
        self.reading.begin_again(program, switches);
        self.time = Time::Last;
        self.course.restart(Spot::detail(program));
    }
}

impl State {
    /// Nothing is held but the switches and the date.
    fn first(
        alloc: Global,
        program: &Program,
        switches: u8,
        date: [u8; 6],
    ) -> Result<State, AllocError>
        requires { IsDate date }
        ensures { IfOk result (BeginsState program.now switches date) }
    {
        let values = Values::new(alloc, program, switches, date)?;
        let current = no_records(alloc, program.files.len())?;
        Ok(State {
            values,
            current,
            controls: Controls::none(alloc)?,
            is_totals_due: false,
            carriage: Carriage { page: 1, line: 1 },
        })
    }

    /// Nothing of the job before is held any more. It takes no memory.
    fn begin_again(&mut self, program: &Program, switches: u8, date: [u8; 6])
        requires sound { AreSound program.now self.old }
        requires date { IsDate date }
        ensures { BeginsState program.now switches date self.new }
    {
        self.values.begin_again(program, switches, date);
        self.forget_records();
        self.controls.forget();
        self.is_totals_due = false;
        self.carriage = Carriage { page: 1, line: 1 };
    }

    /// No file has a current record any more.
    fn forget_records(&mut self)
        ensures records { self.new.current.items ≡ replicate (length self.old.current.items) None }
        ensures alone { self.new ≡ record self.old { current = self.new.current } }
    {
        let count = self.current.len();
        forget(&mut self.current[0..count]);
    }
}

/// The instructions of a program's sheets, and when its total calculations are passed over.
#[derive(Drop)]
pub struct Instructions {
    pub(crate) calculations: Vec<CalculationInstruction>,
    pub(crate) totals_guard: TotalsGuard,
    pub(crate) inputs: Vec<InputInstruction>,
    pub(crate) outputs: OutputSheet,
}

impl Instructions {
    /// A program, decoded.
    fn of(alloc: Global, program: &Program, texts: &Texts) -> Result<Instructions, AllocError>
        requires texts { HasTexts program.now texts.now }
        requires room { length program.now.fields.items + 2 * length program.now.calculations.items < 2 ^ 64 }
        ensures { IfOk result (AreInstructions program.now) }
    {
        Ok(Instructions {
            calculations: calculations(alloc, program, texts)?,
            totals_guard: totals_guard(alloc, program)?,
            inputs: inputs(alloc, program, texts)?,
            outputs: OutputSheet::of(alloc, program, texts, overflow_of(&program.files))?,
        })
    }
}

/// What a run begins with, in addition to its program.
#[derive(Drop)]
pub struct Beginning {
    pub(crate) state: State,
    pub(crate) progress: Progress,
    pub(crate) instructions: Instructions,
    pub(crate) composition: Composition,
}

impl Beginning {
    /// All that takes memory.
    fn of(
        alloc: Global,
        program: &Program,
        switches: u8,
        date: [u8; 6],
    ) -> Result<Beginning, AllocError>
        requires date { IsDate date }
        requires room { length program.now.fields.items + 2 * length program.now.calculations.items < 2 ^ 64 }
        ensures { IfOk result (BeginsRun program.now switches date) }
    {
        let state = State::first(alloc, program, switches, date)?;
        let progress = Progress::first(alloc, program, switches)?;
        let instructions = Instructions::of(alloc, program, &state.values.texts)?;
        let composition = Composition::new(alloc)?;
        Ok(Beginning {
            state,
            progress,
            instructions,
            composition,
        })
    }
}

impl Stepper {
    /// A run of a program that asks for nothing yet.
    fn of(program: Program, beginning: Beginning) -> Stepper
        ensures { IsBegun program beginning result }
    {
        let Beginning {
            state,
            progress,
            instructions,
            composition,
        } = beginning;
        let Instructions {
            calculations,
            totals_guard,
            inputs,
            outputs,
        } = instructions;
        let overflow = overflow_of(&program.files);
        Stepper {
            program,
            calculations,
            totals_guard,
            inputs,
            overflow,
            outputs,
            request: Request::End { at_once: false },
            point: Point::End { at_once: false },
            state,
            progress,
            composition,
        }
    }

    /// A job at its first request.
    pub fn start(
        alloc: Global,
        program: Program,
        switches: u8,
        date: [u8; 6],
    ) -> Result<Stepper, AllocError>
        requires { IsDate date }
        ensures { IfOk result (Starts program switches date) }
    {
        match Beginning::of(alloc, &program, switches, date) {
            Ok(beginning) => {
                let mut stepper = Stepper::of(program, beginning);
                stepper.put_headings(0);
                Ok(stepper)
            }
            Err(fault) => Err(fault),
        }
    }

    /// The next job of the same program at its first request. The program and its instructions stay. It takes no memory.
    pub fn restart(&mut self, switches: u8, date: [u8; 6])
        requires running { IsRunning self.old }
        requires date { IsDate date }
        ensures { Starts self.old.program switches date self.new }
    {
        self.state.begin_again(&self.program, switches, date);
        self.progress.begin_again(&self.program, switches);
        self.put_headings(0);
    }
}
