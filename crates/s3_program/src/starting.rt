//! Finds where things start among the lines of a program.

ghost use Rattle.std.specs.Prelude.{◌≡◌, ◌+◌, ◌<◌, ◌≤◌, ◌++◌, map, filter, drop, length, IfOk, OnOk};
ghost use Rattle.std.specs.List.{range_with_len};
ghost use Rattle.std.specs.Option.{option_to_list};
ghost use Rattle.s3_program.specs.Inner.Starts as spec;

use crate::program::Reference;
use crate::starts::{OutputStart, Sections, Starts, TypeStart, Walk};
use s3_lines::sheet::{
    CalculationLine, CalculationTime, FileLine, InputLine, OutputKind, OutputLine,
};
use std::alloc::{AllocError, Global};

/// The slot of a file. For anything else, the slot of the line before.
fn file_slot(last: usize, file: Reference) -> usize
    ensures { result ≡ spec.file_slot last file }
{
    match file {
        Reference::File(slot) => slot,
        Reference::Field(_) | Reference::Tag(_) | Reference::Subroutine(_) => last,
    }
}

/// The file of the record types at and after a line.
fn type_file(last: usize, line: &InputLine<Reference>) -> usize
    ensures { result ≡ spec.type_file last line.now }
{
    match line {
        InputLine::Record(file, ..) => file_slot(last, *file),
        InputLine::And(_) | InputLine::Or(..) | InputLine::Field(_) => last,
    }
}

fn goes_on(line: &InputLine<Reference>) -> bool
    ensures { result ≡ spec.goes_on line.now }
{
    match line {
        InputLine::And(_) | InputLine::Or(..) => true,
        InputLine::Record(..) | InputLine::Field(_) => false,
    }
}

fn is_type(line: &InputLine<Reference>) -> bool
    ensures { result ≡ spec.is_type line.now }
{
    match line {
        InputLine::Record(..) | InputLine::Or(..) => true,
        InputLine::And(_) | InputLine::Field(_) => false,
    }
}

/// The first place from there on that is no AND or OR line.
fn first_behind(inputs: &[InputLine<Reference>], from: usize) -> usize
    requires { from ≤ length inputs.now }
    ensures { result ≡ spec.fields_begin from (drop from inputs.now) }
{
    for place in from..inputs.len() {
        if !goes_on(&inputs[place]) {
            return place;
        }
    }
    inputs.len()
}

/// Where the fields begin after a line, if it is known where they begin at it.
fn fields_behind(inputs: &[InputLine<Reference>], place: usize, known: usize) -> usize
    requires within { place < length inputs.now }
    requires known { place < known → known ≡ spec.fields_begin place (drop place inputs.now) }
    ensures { result ≡ spec.fields_begin (place + 1) (drop (place + 1) inputs.now) }
{
    if place < known {
        known
    } else {
        first_behind(inputs, place + 1)
    }
}

/// Adds the record type of a line, if it is one.
fn add_type(
    starts: &mut Vec<TypeStart>,
    start: TypeStart,
    line: &InputLine<Reference>,
) -> Result<(), AllocError>
    ensures { OnOk result (starts.new.items ≡ starts.old.items ++ option_to_list (spec.type_start start.file start.place start.fields line.now)) }
{
    if is_type(line) {
        starts.push(start)?;
    }
    Ok(())
}

/// All record types, in order of the I sheet.
fn type_starts(
    alloc: Global,
    files: usize,
    inputs: &[InputLine<Reference>],
) -> Result<Vec<TypeStart>, AllocError>
    ensures { IfOk result (λ starts. starts.items ≡ spec.type_starts_from files 0 inputs.now) }
{
    let mut starts = Vec::new(alloc);
    let mut file = files;
    let mut fields = 0;
    for place in 0..inputs.len() {
        let line = &inputs[place];
        file = type_file(file, line);
        fields = fields_behind(inputs, place, fields);
        add_type(
            &mut starts,
            TypeStart {
                file,
                place,
                fields,
            },
            line,
        )?;
    }
    Ok(starts)
}

fn types_of_file(
    alloc: Global,
    starts: &[TypeStart],
    file: usize,
) -> Result<Vec<TypeStart>, AllocError>
    ensures { IfOk result (λ types. types.items ≡ spec.types_of_file starts.now file) }
{
    starts
        .iter()
        .filter(|start| start.file == file)
        .copied()
        .collect(alloc)
}

/// The record types of each file.
fn types_by_file(
    alloc: Global,
    files: usize,
    starts: &[TypeStart],
) -> Result<Vec<Vec<TypeStart>>, AllocError>
    ensures { IfOk result (λ types. map (λ types. types.items) types.items ≡ map (spec.types_of_file starts.now) (range_with_len 0 files)) }
{
    let mut types = Vec::new(alloc);
    for file in 0..files {
        types.push(types_of_file(alloc, starts, file)?)?;
    }
    Ok(types)
}

/// The file of the output lines at and after a line.
fn output_file(last: usize, line: &OutputLine<Reference>) -> usize
    ensures { result ≡ spec.output_file last line.now }
{
    match line {
        OutputLine::Line(card) => output_slot(last, card.file),
        OutputLine::And(_) | OutputLine::Or(_) | OutputLine::Field(_) => last,
    }
}

fn output_slot(last: usize, file: Option<Reference>) -> usize
    ensures { result ≡ spec.output_slot last file }
{
    match file {
        Some(file) => file_slot(last, file),
        None => last,
    }
}

/// Adds the output line of a card, if it is the first one of a line.
fn add_output(
    starts: &mut Vec<OutputStart>,
    file: usize,
    place: usize,
    line: &OutputLine<Reference>,
) -> Result<(), AllocError>
    ensures { OnOk result (starts.new.items ≡ starts.old.items ++ option_to_list (spec.output_start file place line.now)) }
{
    if let OutputLine::Line(card) = line {
        starts.push(OutputStart {
            file,
            kind: card.kind,
            place,
        })?;
    }
    Ok(())
}

/// All output lines, in order of the O sheet.
fn output_starts(
    alloc: Global,
    files: usize,
    outputs: &[OutputLine<Reference>],
) -> Result<Vec<OutputStart>, AllocError>
    ensures { IfOk result (λ starts. starts.items ≡ spec.output_starts_from files 0 outputs.now) }
{
    let mut starts = Vec::new(alloc);
    let mut file = files;
    for place in 0..outputs.len() {
        let line = &outputs[place];
        file = output_file(file, line);
        add_output(&mut starts, file, place, line)?;
    }
    Ok(starts)
}

fn is_walked(walk: Walk, kind: OutputKind) -> bool
    ensures { result ≡ spec.is_walked walk kind }
{
    match (walk, kind) {
        (Walk::Beginning, OutputKind::Heading | OutputKind::Detail) => true,
        (Walk::Beginning, OutputKind::Total | OutputKind::Exception) => false,
        (Walk::Totals, OutputKind::Total) => true,
        (Walk::Totals, OutputKind::Heading | OutputKind::Detail | OutputKind::Exception) => false,
        (Walk::Exceptions, OutputKind::Exception) => true,
        (Walk::Exceptions, OutputKind::Heading | OutputKind::Detail | OutputKind::Total) => false,
        (Walk::Overflow, OutputKind::Exception) => false,
        (Walk::Overflow, OutputKind::Heading | OutputKind::Detail | OutputKind::Total) => true,
    }
}

fn walked(alloc: Global, starts: &[OutputStart], walk: Walk) -> Result<Vec<OutputStart>, AllocError>
    ensures { IfOk result (λ walked. walked.items ≡ filter (λ start. spec.is_walked walk start.kind) starts.now) }
{
    starts
        .iter()
        .filter(|start| is_walked(walk, start.kind))
        .copied()
        .collect(alloc)
}

fn begins_totals(time: CalculationTime) -> bool
    ensures { result ≡ spec.begins_totals time }
{
    match time {
        CalculationTime::Total(_) | CalculationTime::Subroutine => true,
        CalculationTime::Detail | CalculationTime::And | CalculationTime::Or => false,
    }
}

fn begins_subroutines(time: CalculationTime) -> bool
    ensures { result ≡ spec.begins_subroutines time }
{
    match time {
        CalculationTime::Subroutine => true,
        CalculationTime::Detail
        | CalculationTime::Total(_)
        | CalculationTime::And
        | CalculationTime::Or => false,
    }
}

/// The place of the first total line, or of the first subroutine.
fn totals(calculations: &[CalculationLine<Reference>]) -> usize
    ensures { result ≡ spec.first_from (λ line. spec.begins_totals line.time) 0 calculations.now }
{
    for place in 0..calculations.len() {
        if begins_totals(calculations[place].time) {
            return place;
        }
    }
    calculations.len()
}

/// The place of the first line of a subroutine, or the count of lines.
fn subroutines(calculations: &[CalculationLine<Reference>]) -> usize
    ensures { result ≡ spec.first_from (λ line. spec.begins_subroutines line.time) 0 calculations.now }
{
    for place in 0..calculations.len() {
        if begins_subroutines(calculations[place].time) {
            return place;
        }
    }
    calculations.len()
}

/// Where the record types, output lines and sections of a program with these I, C and O lines start; refused only if memory runs
/// out.
pub fn starts_of(
    alloc: Global,
    files: &[FileLine],
    inputs: &[InputLine<Reference>],
    calculations: &[CalculationLine<Reference>],
    outputs: &[OutputLine<Reference>],
) -> Result<Starts, AllocError>
    ensures { IfOk result (λ starts. spec.AreStarts starts files.now inputs.now calculations.now outputs.now) }
{
    let types = type_starts(alloc, files.len(), inputs)?;
    let lines = output_starts(alloc, files.len(), outputs)?;
    Ok(Starts {
        types: types_by_file(alloc, files.len(), &types)?,
        beginning: walked(alloc, &lines, Walk::Beginning)?,
        totals: walked(alloc, &lines, Walk::Totals)?,
        exceptions: walked(alloc, &lines, Walk::Exceptions)?,
        overflow: walked(alloc, &lines, Walk::Overflow)?,
        sections: Sections {
            totals: totals(calculations),
            subroutines: subroutines(calculations),
        },
    })
}
