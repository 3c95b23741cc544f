//! Files that a program has for reading and never reads, or for writing and never writes to.
ghost use Rattle.std.specs.Prelude.{◌≡◌, IfOk};
ghost use Rattle.s3_warnings.specs.Inner.Files as spec;
ghost use Rattle.s3_warnings.specs.Inner.Marking.{warning};

use crate::kinds::{Warning, WarningKind, warned_if};
use s3_cards::Name;
use s3_lines::sheet::{
    CalculationLine, Factor, FileLine, InputLine, Line, Operation, OutputLine, SheetLine,
};
use std::alloc::{AllocError, Global};

/// Whether a line begins a type of a file's records.
fn describes(name: Name, line: &SheetLine) -> bool
    ensures { result ≡ spec.describes name line.now }
{
    match line {
        SheetLine::Input(InputLine::Record(file, _, _)) => *file == name,
        _ => false,
    }
}

/// Whether a factor is this name.
fn is_named(name: Name, factor: Option<Factor>) -> bool
    ensures { result ≡ spec.is_named name factor }
{
    match factor {
        Some(Factor::Named(file)) => file == name,
        _ => false,
    }
}

/// Whether a C line is a CHAIN to a file.
fn chains_by(name: Name, line: &CalculationLine) -> bool
    ensures { result ≡ spec.chains_by name line.now }
{
    match line.operation {
        Some(Operation::Chain) => is_named(name, line.factor2),
        _ => false,
    }
}

/// Whether a line is a CHAIN to a file.
fn chains(name: Name, line: &SheetLine) -> bool
    ensures { result ≡ spec.chains name line.now }
{
    match line {
        SheetLine::Calculation(line) => chains_by(name, line),
        _ => false,
    }
}

/// Whether an output line has this file's name.
fn is_name_of(name: Name, file: Option<Name>) -> bool
    ensures { result ≡ spec.is_name_of name file }
{
    match file {
        Some(file) => file == name,
        None => false,
    }
}

/// Whether a line is an output line of a file.
fn writes(name: Name, line: &SheetLine) -> bool
    ensures { result ≡ spec.writes name line.now }
{
    match line {
        SheetLine::Output(OutputLine::Line(card)) => is_name_of(name, card.file),
        _ => false,
    }
}

/// Whether some line begins a type of a file's records.
fn is_described(lines: &[Line], name: Name) -> bool
    ensures { result ≡ spec.is_described lines.now name }
{
    lines.iter().any(|line| describes(name, &line.sheet))
}

/// Whether some line is a CHAIN to a file.
fn is_chained_to(lines: &[Line], name: Name) -> bool
    ensures { result ≡ spec.is_chained_to lines.now name }
{
    lines.iter().any(|line| chains(name, &line.sheet))
}

/// Whether some line is an output line of a file.
fn is_written_to(lines: &[Line], name: Name) -> bool
    ensures { result ≡ spec.is_written_to lines.now name }
{
    lines.iter().any(|line| writes(name, &line.sheet))
}

/// Whether a program has a file for reading and never reads it.
fn is_never_read(lines: &[Line], file: &FileLine) -> bool
    ensures { result ≡ spec.is_never_read lines.now file.now }
{
    !file.usage.is_output()
        && (!is_described(lines, file.name)
            || (file.is_chained() && !is_chained_to(lines, file.name)))
}

/// Whether a program makes a file whose records are all there, blank.
fn is_direct_load(file: &FileLine) -> bool
    ensures { result ≡ spec.is_direct_load file.now }
{
    file.usage.is_output() && file.is_chained()
}

/// Whether a program has a file for writing and never writes to it.
fn is_never_written(lines: &[Line], file: &FileLine) -> bool
    ensures { result ≡ spec.is_never_written lines.now file.now }
{
    !file.is_only_read() && !is_direct_load(file) && !is_written_to(lines, file.name)
}

/// A warning that marks a file's name.
fn at_name(kind: WarningKind, card: u16) -> Warning
    ensures { result ≡ warning kind card 7 14 }
{
    Warning {
        kind,
        card,
        from: 7,
        to: 14,
    }
}

/// The warnings of a file; refused only if memory runs out.
fn file_warnings(
    alloc: Global,
    lines: &[Line],
    card: u16,
    file: &FileLine,
) -> Result<Vec<Warning>, AllocError>
    ensures { IfOk result (λ found. found.items ≡ spec.file_warnings lines.now card file.now) }
{
    let unread = at_name(WarningKind::NeverRead, card);
    let unwritten = at_name(WarningKind::NeverWritten, card);
    let mut found = warned_if(alloc, is_never_read(lines, file), unread)?;
    let more = warned_if(alloc, is_never_written(lines, file), unwritten)?;
    found.extend_from_slice(&more)?;
    Ok(found)
}

/// The warnings of a card that are about its file, given all lines; refused only if memory runs out.
pub fn files_on(alloc: Global, lines: &[Line], line: &Line) -> Result<Vec<Warning>, AllocError>
    ensures { IfOk result (λ found. found.items ≡ spec.files_on lines.now line.now) }
{
    match &line.sheet {
        SheetLine::File(file) => file_warnings(alloc, lines, line.card, file),
        _ => Ok(Vec::new(alloc)),
    }
}
