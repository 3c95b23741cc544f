//! Diagnostic 10: a GOTO out of its section, and calls that are forbidden.

ghost use Rattle.std.specs.Prelude.{◌≡◌};
ghost use Rattle.indexmap.specs.IndexSet.{contains};
ghost use Rattle.s3_program.specs.Jumps as spec;
ghost use Rattle.s3_diagnose.specs.Inner.Early.{IsEarly};
ghost use Rattle.s3_program.specs.Jumps.{same_call};

use crate::behind::{section_on, time_on};
use indexmap::IndexSet;
use s3_lines::sheet::{CalculationLine, Factor, Operation};
use s3_program::call::Call;
use s3_program::program::Meaning;
use s3_program::standing::CalculationStanding;

/// The section of a C line in its context: 0 detail, 1 total, 2 outside of every subroutine; in a subroutine, 3 more than the
/// place of its BEGSR.
pub fn section_of(at: &CalculationStanding, line: &CalculationLine<Meaning>) -> usize
    requires { IsEarly at.now }
    ensures { result ≡ spec.section_of at.now line.now }
{
    section_on(at, time_on(at.group, line.time), line.operation)
}

fn is_tag_elsewhere(section: usize, meaning: &Meaning) -> bool
    ensures { result ≡ spec.is_tag_elsewhere section meaning.now }
{
    match meaning {
        Meaning::Tag(tag) => tag.section != section,
        _ => false,
    }
}

fn leaves(section: usize, factor: Option<Factor<Meaning>>) -> bool
    ensures { result ≡ spec.leaves section factor }
{
    match factor {
        Some(Factor::Named(meaning)) => is_tag_elsewhere(section, &meaning),
        _ => false,
    }
}

fn subroutine_called(meaning: &Meaning) -> Option<usize>
    ensures { result ≡ spec.subroutine_called meaning.now }
{
    match meaning {
        Meaning::Subroutine(subroutine) => Some(subroutine.place),
        _ => None,
    }
}

fn called(factor: Option<Factor<Meaning>>) -> Option<usize>
    ensures { result ≡ spec.called factor }
{
    match factor {
        Some(Factor::Named(meaning)) => subroutine_called(&meaning),
        _ => None,
    }
}

/// The subroutine that a C line calls by EXSR, as the place of its BEGSR; none if the line calls none.
pub fn callee_of(line: &CalculationLine<Meaning>) -> Option<usize>
    ensures { result ≡ spec.callee_of line.now }
{
    match line.operation {
        Some(Operation::ExecuteSubroutine) => called(line.factor2),
        _ => None,
    }
}

/// The subroutine of a C line, as the place of its BEGSR. None outside of all subroutines.
pub fn caller_of(at: &CalculationStanding, line: &CalculationLine<Meaning>) -> Option<usize>
    requires { IsEarly at.now }
    ensures { result ≡ spec.caller_of at.now line.now }
{
    let section = section_of(at, line);
    if section < 3 { None } else { Some(section - 3) }
}

fn calls_badly(forbidden: &IndexSet<Call>, caller: Option<usize>, callee: Option<usize>) -> bool
    ensures { result ≡ spec.calls_badly (contains same_call forbidden.now) caller callee }
{
    match callee {
        None => false,
        Some(callee) => forbidden.contains(&Call { caller, callee }),
    }
}

/// Whether diagnostic 10 holds of a C line: it is a GOTO to a tag of another section, or a call that is forbidden.
pub fn calculation_strays(
    forbidden: &IndexSet<Call>,
    at: &CalculationStanding,
    line: &CalculationLine<Meaning>,
) -> bool
    requires { IsEarly at.now }
    ensures { result ≡ spec.calculation_strays (contains same_call forbidden.now) at.now line.now }
{
    match line.operation {
        Some(Operation::GoTo) => leaves(section_of(at, line), line.factor2),
        Some(Operation::ExecuteSubroutine) => calls_badly(
            forbidden,
            caller_of(at, line),
            called(line.factor2),
        ),
        _ => false,
    }
}
