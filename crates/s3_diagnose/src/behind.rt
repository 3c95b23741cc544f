//! The context of the next line of a sheet, from the context of a line and the line itself.

ghost use Rattle.std.specs.Prelude.{◌≡◌, ◌<◌, ◌+◌, ◌^◌};
ghost use Rattle.s3_program.specs.Standings as spec;
ghost use Rattle.s3_diagnose.specs.Inner.Early.{IsPlaced, IsEarly, IsEarlyLine};
ghost use Rattle.s3_diagnose.specs.Known.{first_standing as first_standing_spec, behind as behind_spec};

use crate::files::{is_card_file, is_print_file};
use crate::standing::{MeantLine, Standing};
use s3_lines::sheet::{
    CalculationLine, CalculationTime, FileLine, InputLine, Operation, OutputLine,
};
use s3_program::program::Meaning;
use s3_program::standing::{CalculationStanding, FileStanding, InputStanding, OutputStanding};

fn behind_file(at: &FileStanding, file: &FileLine) -> FileStanding
    requires { at.now.place + 8 < 2 ^ 64 }
    ensures { result ≡ spec.behind_file at.now file.now }
{
    FileStanding {
        place: at.place + 1,
        has_card_file: at.has_card_file || is_card_file(file),
        has_print_file: at.has_print_file || is_print_file(file),
    }
}

/// The context of the line after an I line.
pub fn behind_input(at: &InputStanding, line: &InputLine<Meaning>) -> InputStanding
    requires { at.now.place + 8 < 2 ^ 64 }
    ensures { result ≡ spec.behind_input at.now line.now }
{
    let place = at.place + 1;
    match line {
        InputLine::Record(file, _, _) => InputStanding {
            place,
            group: Some(at.place),
            file: *file,
            is_open: true,
        },
        InputLine::And(_) => InputStanding {
            place,
            group: at.group,
            file: at.file,
            is_open: at.is_open,
        },
        InputLine::Or(_, _) => InputStanding {
            place,
            group: at.group,
            file: at.file,
            is_open: at.is_open,
        },
        InputLine::Field(_) => InputStanding {
            place,
            group: at.group,
            file: at.file,
            is_open: false,
        },
    }
}

/// Whether a level entry is AN or OR.
pub fn goes_on(time: CalculationTime) -> bool
    ensures { result ≡ spec.goes_on time }
{
    matches!(time, CalculationTime::And | CalculationTime::Or)
}

/// Whether a level entry is SR.
pub fn is_subroutine_time(time: CalculationTime) -> bool
    ensures { result ≡ spec.is_subroutine_time time }
{
    matches!(time, CalculationTime::Subroutine)
}

/// The level entry of the group that a C line is in: its own, or the entry of the open group if the line continues it.
pub fn time_on(group: Option<CalculationTime>, time: CalculationTime) -> CalculationTime
    ensures { result ≡ spec.time_on group time }
{
    match time {
        CalculationTime::And | CalculationTime::Or => group.unwrap_or(CalculationTime::And),
        CalculationTime::Detail => CalculationTime::Detail,
        CalculationTime::Total(indicator) => CalculationTime::Total(indicator),
        CalculationTime::Subroutine => CalculationTime::Subroutine,
    }
}

fn part_on(part: u8, time: CalculationTime) -> u8
    ensures { result ≡ spec.part_on part time }
{
    match time {
        CalculationTime::Total(_) => if part >= 1 { part } else { 1 },
        CalculationTime::Subroutine => 2,
        CalculationTime::Detail | CalculationTime::And | CalculationTime::Or => part,
    }
}

/// Whether an operation is BEGSR.
pub fn begins_subroutine(operation: Option<Operation>) -> bool
    ensures { result ≡ spec.begins_subroutine operation }
{
    matches!(operation, Some(Operation::BeginSubroutine))
}

/// Whether an operation is ENDSR.
pub fn ends_subroutine(operation: Option<Operation>) -> bool
    ensures { result ≡ spec.ends_subroutine operation }
{
    matches!(operation, Some(Operation::EndSubroutine))
}

fn subroutine_section(subroutine: Option<usize>) -> usize
    requires { IsPlaced subroutine }
    ensures { result ≡ spec.subroutine_section subroutine }
{
    match subroutine {
        Some(place) => place + 3,
        None => 2,
    }
}

fn own_subroutine(
    place: usize,
    subroutine: Option<usize>,
    operation: Option<Operation>,
) -> Option<usize>
    ensures { result ≡ spec.own_subroutine place subroutine operation }
{
    if begins_subroutine(operation) {
        Some(place)
    } else {
        subroutine
    }
}

/// The section of a C line whose group has this level entry: 0 detail, 1 total, 2 outside of every subroutine, and 3 more than the
/// place of its BEGSR in a subroutine.
pub fn section_on(
    at: &CalculationStanding,
    time: CalculationTime,
    operation: Option<Operation>,
) -> usize
    requires { IsEarly at.now }
    ensures { result ≡ spec.section_on at.now time operation }
{
    match time {
        CalculationTime::Detail => 0,
        CalculationTime::Total(_) => 1,
        CalculationTime::Subroutine => subroutine_section(own_subroutine(
            at.place,
            at.subroutine,
            operation,
        )),
        CalculationTime::And | CalculationTime::Or => at.section,
    }
}

fn subroutine_behind(
    at: &CalculationStanding,
    time: CalculationTime,
    operation: Option<Operation>,
) -> Option<usize>
    ensures { result ≡ spec.subroutine_behind at.now time operation }
{
    if !is_subroutine_time(time) {
        at.subroutine
    } else if ends_subroutine(operation) {
        None
    } else {
        own_subroutine(at.place, at.subroutine, operation)
    }
}

/// The section of the DIV without half adjust right before a C line, or right before the group that this line continues. None if
/// there is no such DIV.
pub fn division_on(at: &CalculationStanding, time: CalculationTime) -> Option<usize>
    ensures { result ≡ spec.division_on at.now time }
{
    if at.group.is_some() && !goes_on(time) {
        None
    } else {
        at.division
    }
}

fn division_behind(
    before: Option<usize>,
    section: usize,
    operation: Option<Operation>,
    half_adjust: bool,
) -> Option<usize>
    ensures { result ≡ spec.division_behind before section operation half_adjust }
{
    match operation {
        None => before,
        Some(Operation::Divide) => if half_adjust { None } else { Some(section) },
        Some(_) => None,
    }
}

/// The level entry of the group that a C line leaves open for the next one; none if its group ends, since it has an operation.
pub fn group_behind(time: CalculationTime, operation: Option<Operation>) -> Option<CalculationTime>
    ensures { result ≡ spec.group_behind time operation }
{
    match operation {
        None => Some(time),
        Some(_) => None,
    }
}

/// The context of the line after a C line.
pub fn behind_calculation<N>(
    at: &CalculationStanding,
    line: &CalculationLine<N>,
) -> CalculationStanding
    requires { IsEarly at.now }
    ensures { result ≡ spec.behind_calculation at.now line.now }
{
    let time = time_on(at.group, line.time);
    let section = section_on(at, time, line.operation);
    CalculationStanding {
        place: at.place + 1,
        part: part_on(at.part, line.time),
        section,
        subroutine: subroutine_behind(at, time, line.operation),
        group: group_behind(time, line.operation),
        division: division_behind(
            division_on(at, line.time),
            section,
            line.operation,
            line.half_adjust,
        ),
    }
}

fn behind_output(at: &OutputStanding, line: &OutputLine<Meaning>) -> OutputStanding
    ensures { result ≡ spec.behind_output at.now line.now }
{
    match line {
        OutputLine::Line(card) => OutputStanding {
            file: card.file.or(at.file),
            has_line: true,
            is_open: true,
        },
        OutputLine::And(_) | OutputLine::Or(_) => *at,
        OutputLine::Field(_) => OutputStanding {
            file: at.file,
            has_line: at.has_line,
            is_open: false,
        },
    }
}

/// The context of the first C line.
pub fn first_calculation() -> CalculationStanding
    ensures { result ≡ spec.first_calculation }
{
    CalculationStanding {
        place: 0,
        part: 0,
        section: 0,
        subroutine: None,
        group: None,
        division: None,
    }
}

/// The context of the first I line.
pub fn first_input() -> InputStanding
    ensures { result ≡ spec.first_input }
{
    InputStanding {
        place: 0,
        group: None,
        file: Meaning::Undefined,
        is_open: false,
    }
}

/// The context of the first line of a source.
pub fn first_standing() -> Standing
    ensures { result ≡ first_standing_spec }
{
    Standing {
        files: FileStanding {
            place: 0,
            has_card_file: false,
            has_print_file: false,
        },
        inputs: first_input(),
        calculations: first_calculation(),
        outputs: OutputStanding {
            file: None,
            has_line: false,
            is_open: false,
        },
    }
}

/// The context of the line after a line of any sheet.
pub fn behind(at: &Standing, line: &MeantLine) -> Standing
    requires { IsEarlyLine at.now }
    ensures { result ≡ behind_spec at.now line.now }
{
    match line {
        MeantLine::Header => *at,
        MeantLine::File(file) => Standing {
            files: behind_file(&at.files, file),
            inputs: at.inputs,
            calculations: at.calculations,
            outputs: at.outputs,
        },
        MeantLine::Input(line) => Standing {
            files: at.files,
            inputs: behind_input(&at.inputs, line),
            calculations: at.calculations,
            outputs: at.outputs,
        },
        MeantLine::Calculation(line) => Standing {
            files: at.files,
            inputs: at.inputs,
            calculations: behind_calculation(&at.calculations, line),
            outputs: at.outputs,
        },
        MeantLine::Output(line) => Standing {
            files: at.files,
            inputs: at.inputs,
            calculations: at.calculations,
            outputs: behind_output(&at.outputs, line),
        },
    }
}
