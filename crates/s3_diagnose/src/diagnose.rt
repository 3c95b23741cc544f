//! The diagnostics of lines.

ghost use Rattle.std.specs.Prelude.{◌≡◌, ◌++◌, filter, IfOk, OnOk, IsTrue};
ghost use Rattle.s3_diagnose.specs.Diagnostics as spec;
ghost use Rattle.s3_diagnose.specs.Inner.Early.{IsEarlyLine};
ghost use Rattle.s3_diagnose.specs.Known.{first_standing as first_standing_spec};
ghost use Rattle.s3_diagnose.specs.Lookups.{known_of};
ghost use Rattle.s3_diagnose.specs.Inner.Ranged.{is_ranged_meant, are_ranged};
ghost use Rattle.s3_diagnose.specs.Inner.Shown.{known_shown};

use crate::behind::{behind, first_standing};
use crate::conditions::line_holds;
use crate::meant::meant_line;
use crate::standing::{MeantLine, Standing};
use crate::tables::KnownTables;
use s3_lines::Diagnostic;
use s3_lines::sheet::{Line, SheetLine};
use std::alloc::{AllocError, Global};

/// The diagnostics that look at other lines too.
const NUMBERS: [u8; 8] = [5, 6, 7, 8, 9, 10, 11, 12];

/// Adds the diagnostics of a line in its context, above these lines.
fn diagnose(
    found: &mut Vec<Diagnostic>,
    numbers: &[u8],
    known: &KnownTables,
    at: &Standing,
    later: &[Line],
    card: u16,
    line: &MeantLine,
) -> Result<(), AllocError>
    requires early { IsEarlyLine at.now }
    requires ranged { IsTrue (is_ranged_meant line.now) }
    ensures { OnOk result (found.new.items
        ≡ found.old.items ++ spec.found_on (known_shown known.now) at.now later.now card line.now numbers.now) }
{
    for number in numbers {
        if line_holds(known, at, later, line, *number) {
            found.push(Diagnostic {
                card,
                number: *number,
            })?;
        }
    }
    Ok(())
}

/// The diagnostics of lines, by what they define.
fn diagnostics(
    alloc: Global,
    known: &KnownTables,
    lines: &[Line],
) -> Result<Vec<Diagnostic>, AllocError>
    requires { IsTrue (are_ranged lines.now) }
    ensures { IfOk result (λ found. found.items ≡ spec.diagnostics_from (known_shown known.now) first_standing_spec lines.now) }
{
    let mut found = Vec::new(alloc);
    let mut at = first_standing();
    for (place, line) in lines.iter().enumerate() {
        let meant = meant_line(&known.definitions, &line.sheet);
        diagnose(
            &mut found,
            &NUMBERS,
            known,
            &at,
            &lines[place + 1..],
            line.card,
            &meant,
        )?;
        at = behind(&at, &meant);
    }
    Ok(found)
}

/// Whether a diagnostic comes before another: by card and then number.
fn precedes(a: &Diagnostic, b: &Diagnostic) -> bool
    ensures { result ≡ spec.precedes a.now b.now }
{
    a.card < b.card || (a.card == b.card && a.number < b.number)
}

/// The diagnostics that come before another.
fn those_before(
    alloc: Global,
    found: &[Diagnostic],
    diagnostic: &Diagnostic,
) -> Result<Vec<Diagnostic>, AllocError>
    ensures { IfOk result (λ some. some.items ≡ filter (λ other. spec.precedes other diagnostic.now) found.now) }
{
    found
        .iter()
        .copied()
        .filter(|other| precedes(other, diagnostic))
        .collect(alloc)
}

/// The diagnostics that come after another.
fn those_behind(
    alloc: Global,
    found: &[Diagnostic],
    diagnostic: &Diagnostic,
) -> Result<Vec<Diagnostic>, AllocError>
    ensures { IfOk result (λ some. some.items ≡ filter (λ other. spec.precedes diagnostic.now other) found.now) }
{
    found
        .iter()
        .copied()
        .filter(|other| precedes(diagnostic, other))
        .collect(alloc)
}

/// The diagnostics with one more, between those that come before it and those that come after it.
#[tactic(auto, using(crate::proofs::Placed::put_round))]
fn placed(
    alloc: Global,
    found: &[Diagnostic],
    diagnostic: Diagnostic,
) -> Result<Vec<Diagnostic>, AllocError>
    ensures { IfOk result (λ all. all.items ≡ spec.placed found.now diagnostic) }
{
    let mut all = those_before(alloc, found, &diagnostic)?;
    all.push(diagnostic)?;
    let behind = those_behind(alloc, found, &diagnostic)?;
    all.extend_from_slice(&behind)?;
    Ok(all)
}

fn is_primary_line(line: &Line) -> bool
    ensures { result ≡ spec.is_primary_line line.now }
{
    match &line.sheet {
        SheetLine::File(file) => file.is_primary(),
        _ => false,
    }
}

/// Whether the lines have exactly one file of designation P.
fn has_one_primary(lines: &[Line]) -> bool
    ensures { result ≡ spec.has_one_primary lines.now }
{
    lines.iter().filter(|line| is_primary_line(line)).count() == 1
}

/// The diagnostics of lines, with 12 on the RUN card added in its order if the lines don't have exactly one primary file.
fn completed(
    alloc: Global,
    found: Vec<Diagnostic>,
    lines: &[Line],
    run_card: u16,
) -> Result<Vec<Diagnostic>, AllocError>
    ensures { IfOk result (λ all. all.items ≡ spec.completed run_card lines.now found.items) }
{
    if has_one_primary(lines) {
        Ok(found)
    } else {
        placed(
            alloc,
            &found,
            Diagnostic {
                card: run_card,
                number: 12,
            },
        )
    }
}

/// The diagnostics 5 to 12 of lines, by card and then number. `known` is what the lines define. If there isn't exactly one
/// primary file, the RUN card has diagnostic 12. Refused only if memory runs out.
pub fn compile_diagnostics(
    alloc: Global,
    known: &KnownTables,
    lines: &[Line],
    run_card: u16,
) -> Result<Vec<Diagnostic>, AllocError>
    requires shown { known_shown known.now ≡ known_of lines.now }
    requires ranged { IsTrue (are_ranged lines.now) }
    ensures { IfOk result (λ found. found.items ≡ spec.compile_diagnostics run_card lines.now) }
{
    let found = diagnostics(alloc, known, lines)?;
    let all = completed(alloc, found, lines, run_card)?;
    Ok(all)
}
