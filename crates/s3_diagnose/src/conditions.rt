//! The condition of each number on a line in its context.

ghost use Rattle.std.specs.Prelude.{◌≡◌, IsTrue};
ghost use Rattle.indexmap.specs.IndexMap.{get};
ghost use Rattle.indexmap.specs.IndexSet.{contains};
ghost use Rattle.s3_cards.specs.Names.{same_name};
ghost use Rattle.s3_program.specs.Conditions as spec;
ghost use Rattle.s3_program.specs.Redefined.{file_redefined as file_redefined_spec};
ghost use Rattle.s3_diagnose.specs.Diagnostics.{verbs, line_holds as line_holds_spec};
ghost use Rattle.s3_diagnose.specs.Inner.Early.{IsEarly, IsEarlyLine};
ghost use Rattle.s3_diagnose.specs.Inner.Ranged.{is_ranged_input, is_ranged_meant};
ghost use Rattle.s3_program.specs.Jumps.{same_call};
ghost use Rattle.s3_diagnose.specs.Inner.Shown.{marks_shown, known_shown};

use crate::indications::calculation_misindicated;
use crate::jumps::calculation_strays;
use crate::matching::{input_misindicated, input_mismatched};
use crate::operands::{calculation_unfit, input_unfit, output_unfit};
use crate::places::{calculation_misplaced, input_misplaced, is_cut_by, output_misplaced};
use crate::redefined::{calculation_redefined, input_redefined, is_elsewhere};
use crate::standing::{MeantLine, Standing};
use crate::tables::{KnownTables, MarkTables};
use crate::undefined::{calculation_undefined, input_undefined, output_undefined};
use crate::uses::{file_misused, input_misused, output_misused};
use indexmap::{IndexMap, IndexSet};
use s3_cards::Name;
use s3_lines::sheet::{CalculationLine, FileLine, InputLine, Line, OutputLine};
use s3_program::call::Call;
use s3_program::program::Meaning;
use s3_program::standing::{CalculationStanding, FileStanding, InputStanding, OutputStanding};

/// Whether diagnostic 6 holds of an F line: the first F line with its name is another one.
fn file_redefined(places: &IndexMap<Name, usize>, at: &FileStanding, file: &FileLine) -> bool
    ensures { result ≡ file_redefined_spec (get same_name places.now) at.now file.now }
{
    is_elsewhere(at.place, places.get(&file.name).copied())
}

fn file_holds(
    places: &IndexMap<Name, usize>,
    at: &FileStanding,
    file: &FileLine,
    number: u8,
) -> bool
    ensures { result ≡ spec.file_holds (get same_name places.now) at.now file.now number }
{
    match number {
        6 => file_redefined(places, at, file),
        12 => file_misused(at, file),
        _ => false,
    }
}

fn input_holds(
    tables: &MarkTables,
    at: &InputStanding,
    line: &InputLine<Meaning>,
    number: u8,
) -> bool
    requires { IsTrue (is_ranged_input line.now) }
    ensures { result ≡ spec.input_holds (marks_shown tables.now) at.now line.now number }
{
    match number {
        5 => input_undefined(line),
        6 => input_redefined(line),
        7 => input_misindicated(tables, at, line),
        8 => input_unfit(line),
        9 => input_misplaced(at, line),
        11 => input_mismatched(tables, at, line),
        12 => input_misused(at, line),
        _ => false,
    }
}

fn calculation_holds(
    forbidden: &IndexSet<Call>,
    at: &CalculationStanding,
    later: &[Line],
    line: &CalculationLine<Meaning>,
    number: u8,
) -> bool
    requires { IsEarly at.now }
    ensures { result ≡ spec.calculation_holds (contains same_call forbidden.now) at.now (verbs later.now) line.now number }
{
    match number {
        5 => calculation_undefined(line),
        6 => calculation_redefined(at, line),
        7 => calculation_misindicated(line),
        8 => calculation_unfit(is_cut_by(later), line),
        9 => calculation_misplaced(at, later, line),
        10 => calculation_strays(forbidden, at, line),
        _ => false,
    }
}

fn output_holds(at: &OutputStanding, line: &OutputLine<Meaning>, number: u8) -> bool
    ensures { result ≡ spec.output_holds at.now line.now number }
{
    match number {
        5 => output_undefined(at, line),
        8 => output_unfit(line),
        9 => output_misplaced(at, line),
        12 => output_misused(at, line),
        _ => false,
    }
}

/// Whether the condition of a number, 5 to 12, holds for a line in its context. `later` has the lines below it, and `known` what
/// all lines define.
pub fn line_holds(
    known: &KnownTables,
    at: &Standing,
    later: &[Line],
    line: &MeantLine,
    number: u8,
) -> bool
    requires early { IsEarlyLine at.now }
    requires ranged { IsTrue (is_ranged_meant line.now) }
    ensures { result ≡ line_holds_spec (known_shown known.now) at.now later.now line.now number }
{
    match line {
        MeantLine::Header => false,
        MeantLine::File(file) => file_holds(&known.file_places, &at.files, file, number),
        MeantLine::Input(line) => input_holds(&known.marks, &at.inputs, line, number),
        MeantLine::Calculation(line) => calculation_holds(
            &known.forbidden,
            &at.calculations,
            later,
            line,
            number,
        ),
        MeantLine::Output(line) => output_holds(&at.outputs, line, number),
    }
}
