//! Which instructions the cards of a program get: the forms of calculations, of fields of records and of output lines, which no contract
//! asks for.

use crate::cycle::decks::{CALCULATIONS, INPUTS, OUTPUT_CARDS, OUTPUTS, RUNS, TURNED};
use s3_cards::Deck;
use s3_compile::{Program, compile};
use s3_instructions::calculation::{CalculationInstruction, Work, calculations};
use s3_instructions::input::{InputForm, InputInstruction, inputs};
use s3_instructions::output::{FieldOutput, OutputInstruction, OutputSheet};
use s3_operations::texts::Texts;
use s3_output::conditions::overflow_of;
use s3_sheets::read_sheets;
use std::alloc::{AllocError, Global};
use std::process::Abort;
use std::test::Fail;

/// What is listed of a program's instructions.
#[derive(Clone, Copy)]
enum Listing {
    /// What each calculation does.
    Works,
    /// What comes after each calculation.
    Ways,
    /// What each field of a record moves.
    Inputs,
    /// How many groups each output line has for its own time, after the first one.
    Guards,
    /// What each field of an output line writes.
    Fields,
}

/// The program of a deck that is one source.
fn program_of(alloc: Global, cards: &[u8]) -> Result<Program, Fail> {
    let deck = Deck::read(alloc, cards)?;
    let lines = read_sheets(alloc, &deck, 0, deck.len())?;
    let program = compile(alloc, &lines, 0);
    drop(lines);
    Ok(program?)
}

/// Adds a name to a list of names.
fn add_name(names: &mut String, name: &str) -> Result<(), AllocError> {
    if !names.is_empty() {
        names.push_str(", ")?;
    }
    names.push_str(name)
}

fn name_of(work: &Work) -> &'static str {
    match work {
        Work::Nothing => "nothing",
        Work::Ask => "ask",
        Work::Sum(_) => "sum",
        Work::CutSum(_) => "cut sum",
        Work::Multiply(_) => "multiply",
        Work::Wide(_) => "wide",
        Work::Divide(_) => "divide",
        Work::WideDivide(_) => "wide divide",
        Work::MoveRemainder(_) => "move remainder",
        Work::Compare(_) => "compare",
        Work::WideCompare(_) => "wide compare",
        Work::CompareTexts(_) => "compare texts",
        Work::MoveText(_)
        | Work::MoveOne(_)
        | Work::MoveTwo(_)
        | Work::MoveFour(_)
        | Work::MoveEight(_)
        | Work::MoveSixteen(_) => "move text",
        Work::MoveToText(_) => "move to text",
        Work::MoveToNumber(_) => "move to number",
        Work::MoveNumber(_) => "move number",
        Work::SetOn(_) => "set on",
        Work::SetOff(_) => "set off",
    }
}

fn way_on(card: &CalculationInstruction) -> &'static str {
    if card.is_last {
        "at the end"
    } else if card.next_holds {
        "on without a test"
    } else {
        "on"
    }
}

fn name_of_input(form: &InputForm) -> &'static str {
    match form {
        InputForm::Zoned(_) => "zoned",
        InputForm::LongZoned(_) => "long zoned",
        InputForm::Packed(_) => "packed",
        InputForm::ShortPacked(_) => "short packed",
        InputForm::LongPacked(_) => "long packed",
        InputForm::Text(_) => "text",
        InputForm::Codes => "codes",
        InputForm::Type => "type",
    }
}

/// How many groups that count elsewhere than at overflow a line has after the first one.
fn guard_of(line: &OutputInstruction) -> &'static str {
    match line.guard.elsewhere.others.len() {
        0 => "none",
        1 => "one",
        2 => "two",
        _ => "more",
    }
}

fn name_of_output(output: &FieldOutput) -> &'static str {
    match output {
        FieldOutput::Number(_) => "number",
        FieldOutput::Page(_) => "page",
        FieldOutput::Text(_) => "text",
        FieldOutput::Constant(_) => "constant",
    }
}

fn works_of(cards: &[CalculationInstruction], names: &mut String) -> Result<(), AllocError> {
    for card in cards {
        add_name(names, name_of(&card.work))?;
    }
    Ok(())
}

fn ways_of(cards: &[CalculationInstruction], names: &mut String) -> Result<(), AllocError> {
    for card in cards {
        add_name(names, way_on(card))?;
    }
    Ok(())
}

fn forms_of(lines: &[InputInstruction], names: &mut String) -> Result<(), AllocError> {
    for line in lines {
        add_name(names, name_of_input(&line.form))?;
    }
    Ok(())
}

fn guards_of(lines: &[OutputInstruction], names: &mut String) -> Result<(), AllocError> {
    for line in lines {
        add_name(names, guard_of(line))?;
    }
    Ok(())
}

fn fields_of(lines: &[OutputInstruction], names: &mut String) -> Result<(), AllocError> {
    for line in lines {
        for field in &line.fields {
            add_name(names, name_of_output(&field.output))?;
        }
    }
    Ok(())
}

/// More fields or cards than a program of this module has.
const MANY: usize = 1000;

/// The instructions of a program's C sheet.
fn decoded(
    rt: &impl Abort,
    alloc: Global,
    program: &Program,
) -> Result<Vec<CalculationInstruction>, AllocError> {
    let texts = Texts::of(alloc, program)?;
    let is_small = program.fields.len() < MANY && program.calculations.len() < MANY;
    assert!(rt; is_small);
    calculations(alloc, program, &texts)
}

/// Lists the C sheet.
fn list_calculations(
    rt: &impl Abort,
    alloc: Global,
    program: &Program,
    listing: Listing,
    names: &mut String,
) -> Result<(), AllocError> {
    let cards = decoded(rt, alloc, program)?;
    let listed = match listing {
        Listing::Ways => ways_of(&cards, names),
        _ => works_of(&cards, names),
    };
    drop(cards);
    listed
}

/// Lists the I sheet.
fn list_inputs(alloc: Global, program: &Program, names: &mut String) -> Result<(), AllocError> {
    let texts = Texts::of(alloc, program)?;
    let lines = inputs(alloc, program, &texts)?;
    let listed = forms_of(&lines, names);
    drop(lines);
    listed
}

/// Lists the O sheet.
fn list_outputs(
    alloc: Global,
    program: &Program,
    listing: Listing,
    names: &mut String,
) -> Result<(), AllocError> {
    let texts = Texts::of(alloc, program)?;
    let sheet = OutputSheet::of(alloc, program, &texts, overflow_of(&program.files))?;
    let listed = match listing {
        Listing::Guards => guards_of(&sheet.lines, names),
        _ => fields_of(&sheet.lines, names),
    };
    drop(sheet);
    listed
}

/// Lists a program's instructions.
fn list(
    rt: &impl Abort,
    alloc: Global,
    program: &Program,
    listing: Listing,
    names: &mut String,
) -> Result<(), AllocError> {
    match listing {
        Listing::Works | Listing::Ways => list_calculations(rt, alloc, program, listing, names),
        Listing::Inputs => list_inputs(alloc, program, names),
        Listing::Guards | Listing::Fields => list_outputs(alloc, program, listing, names),
    }
}

/// Compiles a deck that is one source, and compares the list of its instructions with the one wanted.
fn assert_lists(
    rt: &impl Abort,
    alloc: Global,
    cards: &[u8],
    listing: Listing,
    wanted: &str,
) -> Result<(), Fail> {
    let program = program_of(alloc, cards)?;
    let mut names = String::new(alloc);
    let listed = list(rt, alloc, &program, listing, &mut names);
    drop(program);
    listed?;
    assert_eq!(rt; names.as_str(), wanted);
    Ok(())
}

#[test]
fn cards_get_their_forms(rt: HostRuntime) -> Result<(), Fail> {
    assert_lists(
        &rt,
        rt.alloc(),
        CALCULATIONS,
        Listing::Works,
        "sum, sum, sum, sum, multiply, compare, move text, move text, set on, set off, nothing, ask, divide, move remainder, cut sum, cut sum, cut sum, cut sum, compare texts, move to text, move to number, wide, compare texts, move to text, nothing, sum, nothing, nothing, sum",
    )
}

#[test]
fn conditions_that_are_known_are_not_tested(rt: HostRuntime) -> Result<(), Fail> {
    assert_lists(
        &rt,
        rt.alloc(),
        RUNS,
        Listing::Ways,
        "on, on without a test, on, on without a test, on, on without a test, at the end, at the end",
    )
}

#[test]
fn conditions_are_known_where_others_are_turned(rt: HostRuntime) -> Result<(), Fail> {
    assert_lists(
        &rt,
        rt.alloc(),
        TURNED,
        Listing::Ways,
        "on, on without a test, on, at the end",
    )
}

#[test]
fn fields_get_their_forms(rt: HostRuntime) -> Result<(), Fail> {
    assert_lists(
        &rt,
        rt.alloc(),
        INPUTS,
        Listing::Inputs,
        "type, codes, zoned, text, text, zoned, type, packed, short packed",
    )
}

#[test]
fn lines_get_their_guards(rt: HostRuntime) -> Result<(), Fail> {
    assert_lists(
        &rt,
        rt.alloc(),
        OUTPUTS,
        Listing::Guards,
        "none, none, none, none, none, none, none, one, two, more",
    )
}

#[test]
fn output_cards_get_their_forms(rt: HostRuntime) -> Result<(), Fail> {
    assert_lists(
        &rt,
        rt.alloc(),
        OUTPUT_CARDS,
        Listing::Fields,
        "number, number, text, text, constant, page, constant",
    )
}
