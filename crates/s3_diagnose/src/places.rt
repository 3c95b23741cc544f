//! Diagnostic 9: lines in a place where they aren't allowed.

ghost use Rattle.std.specs.Prelude.{◌≡◌};
ghost use Rattle.s3_program.specs.Places as spec;
ghost use Rattle.s3_diagnose.specs.Inner.Early.{IsEarly};
ghost use Rattle.s3_diagnose.specs.Diagnostics.{verbs};

use crate::behind::{
    begins_subroutine, division_on, ends_subroutine, goes_on, group_behind, is_subroutine_time,
    section_on, time_on,
};
use s3_lines::sheet::{
    CalculationLine, CalculationTime, InputLine, Line, Operation, OutputLine, SheetLine,
};
use s3_program::standing::{CalculationStanding, InputStanding, OutputStanding};

/// Whether diagnostic 9 holds of an I line: it continues with nothing, or it is a field line without a record line before it.
pub fn input_misplaced<N>(at: &InputStanding, line: &InputLine<N>) -> bool
    ensures { result ≡ spec.input_misplaced at.now line.now }
{
    match line {
        InputLine::Record(_, _, _) => false,
        InputLine::And(_) | InputLine::Or(_, _) => !at.is_open,
        InputLine::Field(_) => at.group.is_none(),
    }
}

/// Whether diagnostic 9 holds of an O line: it continues with nothing, or it is a field card without a line card before it.
pub fn output_misplaced<N>(at: &OutputStanding, line: &OutputLine<N>) -> bool
    ensures { result ≡ spec.output_misplaced at.now line.now }
{
    match line {
        OutputLine::Line(_) => false,
        OutputLine::And(_) | OutputLine::Or(_) => !at.is_open,
        OutputLine::Field(_) => !at.has_line,
    }
}

/// The level entry of the next C line.
fn next_time(later: &[Line]) -> Option<CalculationTime>
    ensures { result ≡ spec.next_time (verbs later.now) }
{
    for line in later {
        if let SheetLine::Calculation(line) = &line.sheet {
            return Some(line.time);
        }
    }
    None
}

fn is_other(time: Option<CalculationTime>) -> bool
    ensures { result ≡ spec.is_other time }
{
    match time {
        None => false,
        Some(time) => !goes_on(time),
    }
}

/// Whether these lines have a C line, and the first one doesn't continue the line above by AN or OR.
pub fn is_cut_by(later: &[Line]) -> bool
    ensures { result ≡ spec.is_cut_by (verbs later.now) }
{
    is_other(next_time(later))
}

/// Whether no C line follows.
fn is_end(later: &[Line]) -> bool
    ensures { result ≡ spec.is_end (verbs later.now) }
{
    next_time(later).is_none()
}

fn is_begin(time: CalculationTime, operation: Option<Operation>) -> bool
    ensures { result ≡ spec.is_begin time operation }
{
    is_subroutine_time(time) && begins_subroutine(operation)
}

fn is_finish(time: CalculationTime, operation: Option<Operation>) -> bool
    ensures { result ≡ spec.is_finish time operation }
{
    is_subroutine_time(time) && ends_subroutine(operation)
}

/// Whether the next BEGSR or ENDSR among the subroutine lines is an ENDSR.
fn is_closed_by(later: &[Line]) -> bool
    ensures { result ≡ spec.is_closed_by None (verbs later.now) }
{
    let mut group = None;
    for line in later {
        if let SheetLine::Calculation(line) = &line.sheet {
            let time = time_on(group, line.time);
            if is_begin(time, line.operation) {
                return false;
            }
            if is_finish(time, line.operation) {
                return true;
            }
            group = group_behind(time, line.operation);
        }
    }
    false
}

fn is_late(part: u8, time: CalculationTime) -> bool
    ensures { result ≡ spec.is_late part time }
{
    match time {
        CalculationTime::Detail => part > 0,
        CalculationTime::Total(_) => part > 1,
        CalculationTime::Subroutine | CalculationTime::And | CalculationTime::Or => false,
    }
}

fn is_division_of(section: usize, division: Option<usize>) -> bool
    ensures { result ≡ spec.is_division_of section division }
{
    match division {
        None => false,
        Some(division) => division == section,
    }
}

fn is_astray(
    at: &CalculationStanding,
    later: &[Line],
    time: CalculationTime,
    operation: Option<Operation>,
) -> bool
    ensures { result ≡ spec.is_astray at.now (verbs later.now) time operation }
{
    match operation {
        Some(Operation::BeginSubroutine) => !(is_subroutine_time(time) && is_closed_by(later)),
        Some(Operation::EndSubroutine) => at.subroutine.is_none() || !is_subroutine_time(time),
        _ => is_subroutine_time(time) && at.subroutine.is_none(),
    }
}

fn is_lost_remainder(
    at: &CalculationStanding,
    time: CalculationTime,
    own: CalculationTime,
    operation: Option<Operation>,
) -> bool
    requires { IsEarly at.now }
    ensures { result ≡ spec.is_lost_remainder at.now time own operation }
{
    match operation {
        Some(Operation::MoveRemainder) => !is_division_of(
            section_on(at, time, operation),
            division_on(at, own),
        ),
        _ => false,
    }
}

fn ends_group(later: &[Line], operation: Option<Operation>) -> bool
    ensures { result ≡ spec.ends_group (verbs later.now) operation }
{
    match operation {
        Some(_) => true,
        None => is_end(later) || is_cut_by(later),
    }
}

fn is_left_open(later: &[Line], operation: Option<Operation>) -> bool
    ensures { result ≡ spec.is_left_open (verbs later.now) operation }
{
    match operation {
        Some(_) => false,
        None => is_end(later),
    }
}

fn is_unknown(operation: Option<Operation>) -> bool
    ensures { result ≡ spec.is_unknown operation }
{
    matches!(operation, Some(Operation::Unknown))
}

/// Whether diagnostic 9 holds for a C line in its context, above these lines: it is out of order, continues no line, leaves its
/// group open, is an MVR without its DIV, or is a BEGSR or ENDSR without its partner.
pub fn calculation_misplaced<N>(
    at: &CalculationStanding,
    later: &[Line],
    line: &CalculationLine<N>,
) -> bool
    requires { IsEarly at.now }
    ensures { result ≡ spec.calculation_misplaced at.now (verbs later.now) line.now }
{
    let time = time_on(at.group, line.time);
    !is_unknown(line.operation)
        && (is_late(at.part, line.time)
            || goes_on(time)
            || is_left_open(later, line.operation)
            || (ends_group(later, line.operation) && is_astray(at, later, time, line.operation))
            || is_lost_remainder(at, time, line.time, line.operation))
}
