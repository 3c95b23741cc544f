//! The types of records of a file, with their record identification codes.
ghost use Rattle.std.specs.Prelude.{◌≡◌, ◌++◌, ◌∷◌, [], filter_map, map, option_to_list, IfOk, OnOk};
ghost use Rattle.s3_cards.specs.Names.{no_name as no_name_spec};
ghost use Rattle.s3_meaning.specs.Names.{entries};
ghost use Rattle.s3_meaning.specs.RecordTypes.{further_codes, types_of};
ghost use Rattle.s3_meaning.specs.Source.{input_line as input_line_spec};
ghost use Rattle.s3_layout.specs.Inner.Kinds.{AreChosen, begun, coded, file_at as file_at_spec, further as further_spec, kinds_in};

use s3_cards::Name;
use s3_cards::ebcdic::BLANK;
use s3_lines::indicator::Indicator;
use s3_lines::sheet::{InputLine, Line, RecordCode, SheetLine};
use s3_record_types::{ChosenRecords, RecordKind};
use std::alloc::{AllocError, Global};

/// The records of the type of an indicator, among the types of a file; all records of the file if no type is named.
pub fn chosen_records(
    alloc: Global,
    lines: &[Line],
    file: Name,
    record_type: Option<Indicator>,
) -> Result<ChosenRecords, AllocError>
    ensures { IfOk result (AreChosen record_type (kinds_in file (types_of (filter_map input_line_spec lines.now)))) }
{
    match record_type {
        None => Ok(ChosenRecords::All),
        Some(indicator) => {
            let inputs = input_lines(alloc, lines)?;
            let kinds = kinds_of(alloc, &inputs, file)?;
            Ok(ChosenRecords::OfType(indicator, kinds))
        }
    }
}

/// The lines of the I sheet.
fn input_lines(alloc: Global, lines: &[Line]) -> Result<Vec<InputLine>, AllocError>
    ensures { IfOk result (λ inputs. inputs.items ≡ filter_map input_line_spec lines.now) }
{
    let mut inputs = Vec::new(alloc);
    for line in lines {
        push_input(&mut inputs, line)?;
    }
    Ok(inputs)
}

fn push_input(inputs: &mut Vec<InputLine>, line: &Line) -> Result<(), AllocError>
    ensures { OnOk result (inputs.new.items ≡ inputs.old.items ++ option_to_list (input_line_spec line.now)) }
{
    match line.sheet {
        SheetLine::Input(input) => {
            inputs.push(input)?;
            Ok(())
        }
        _ => Ok(()),
    }
}

/// The types of a file, with their codes, in the order of their lines.
#[tactic(auto, using(crate::proofs::KindLemmas::kind_next, crate::proofs::KindLemmas::kinds_ended))]
fn kinds_of(alloc: Global, inputs: &[InputLine], file: Name) -> Result<Vec<RecordKind>, AllocError>
    ensures { IfOk result (λ kinds. map coded kinds.items ≡ kinds_in file (types_of inputs.now)) }
{
    let mut kinds = Vec::new(alloc);
    let mut current = no_name();
    for (place, line) in inputs.iter().enumerate() {
        current = file_at(current, line);
        push_kind(alloc, &mut kinds, file, current, line, &inputs[place + 1..])?;
    }
    Ok(kinds)
}

/// The name of no file.
fn no_name() -> Name
    ensures { result ≡ no_name_spec }
{
    Name { codes: [BLANK; 8] }
}

/// The file that a line of the I sheet describes; the lines above describe the current one.
fn file_at(current: Name, line: &InputLine) -> Name
    ensures { result ≡ file_at_spec current line.now }
{
    match line {
        InputLine::Record(name, _, _) => *name,
        InputLine::And(_) | InputLine::Or(..) | InputLine::Field(_) => current,
    }
}

/// Adds the type that begins on a line of the current file, if that is the file that is meant.
fn push_kind(
    alloc: Global,
    kinds: &mut Vec<RecordKind>,
    file: Name,
    current: Name,
    line: &InputLine,
    further: &[InputLine],
) -> Result<(), AllocError>
    ensures { OnOk result (map coded kinds.new.items ≡ map coded kinds.old.items ++ begun file current line.now further.now) }
{
    if current != file {
        return Ok(());
    }
    match line {
        InputLine::Record(_, indicator, codes) | InputLine::Or(indicator, codes) => {
            add_kind(alloc, kinds, *indicator, codes, further)
        }
        InputLine::And(_) | InputLine::Field(_) => Ok(()),
    }
}

/// Adds a type with the codes of its first line and of the AND lines next below.
#[tactic(auto, using(crate::proofs::KindLemmas::one_more_kind))]
fn add_kind(
    alloc: Global,
    kinds: &mut Vec<RecordKind>,
    indicator: Indicator,
    codes: &[Option<RecordCode>],
    further: &[InputLine],
) -> Result<(), AllocError>
    ensures { OnOk result (map coded kinds.new.items ≡ map coded kinds.old.items ++ (indicator, entries codes.now ++ further_codes further.now) ∷ []) }
{
    let codes = codes_of(alloc, codes, further)?;
    kinds.push(RecordKind { indicator, codes })?;
    Ok(())
}

/// The codes of a type: those of its first line, and of the AND lines next below.
#[tactic(auto, using(crate::proofs::KindLemmas::further_next, crate::proofs::KindLemmas::further_ended, crate::proofs::KindLemmas::further_all))]
fn codes_of(
    alloc: Global,
    first: &[Option<RecordCode>],
    lines: &[InputLine],
) -> Result<Vec<RecordCode>, AllocError>
    ensures { IfOk result (λ codes. codes.items ≡ entries first.now ++ further_codes lines.now) }
{
    let mut codes = Vec::new(alloc);
    push_entries(&mut codes, first)?;
    for line in lines {
        let Some(more) = further(line) else {
            return Ok(codes);
        };
        push_entries(&mut codes, &more)?;
    }
    Ok(codes)
}

/// The entries of an AND line; none of any other line.
fn further(line: &InputLine) -> Option<[Option<RecordCode>; 3]>
    ensures { result ≡ further_spec line.now }
{
    match line {
        InputLine::And(codes) => Some(*codes),
        InputLine::Record(..) | InputLine::Or(..) | InputLine::Field(_) => None,
    }
}

/// Adds the codes of entries; blank ones have none.
fn push_entries(codes: &mut Vec<RecordCode>, line: &[Option<RecordCode>]) -> Result<(), AllocError>
    ensures { OnOk result (codes.new.items ≡ codes.old.items ++ entries line.now) }
{
    for code in line {
        push_entry(codes, code)?;
    }
    Ok(())
}

fn push_entry(codes: &mut Vec<RecordCode>, code: &Option<RecordCode>) -> Result<(), AllocError>
    ensures { OnOk result (codes.new.items ≡ codes.old.items ++ option_to_list code.now) }
{
    if let Some(code) = code {
        codes.push(*code)?;
    }
    Ok(())
}
