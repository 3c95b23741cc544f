//! C cards: 5 to 10.

ghost use Rattle.std.specs.Prelude.{◌≡◌, ◌&&◌, ◌||◌, false, true, map, IfOk};
ghost use Rattle.s3_program.specs.Indications.{is_overflow_entry};
ghost use Rattle.s3_program.specs.Places.{is_late as is_late_spec};
ghost use Rattle.s3_program.specs.Redefined.{is_elsewhere as is_elsewhere_spec};
ghost use Rattle.s3_program.specs.Rows.{row_of as row_of_spec};
ghost use Rattle.s3_program.specs.Undefined.{is_target, is_used};
ghost use Rattle.s3_sheets.specs.declared.kind.CardKind.TheVariants as kind;
ghost use Rattle.s3_blame.specs.Inner.Entries.{entries_tested};
ghost use Rattle.s3_blame.specs.Inner.Marks.{fails, span, are_of};
ghost use Rattle.s3_blame.specs.Inner.Names.{changes_date as changes_date_spec, is_second as is_second_spec, is_unknown as is_unknown_spec, is_unknown_result as is_unknown_result_spec, kind_named, names_known, redefined_in, unknown_in};
ghost use Rattle.s3_blame.specs.Inner.OwnMarks.{are_marked, is_open_on_calculation, marks_of_calculation};

use crate::known::{Known, is_date};
use crate::parts::{Part, at_fault, entry, entry_alone};
use crate::walk::Walk;
use s3_cards::Name;
use s3_diagnose::rows::row_of;
use s3_lines::indicator::Indicator;
use s3_lines::sheet::{CalculationLine, CalculationTime, Factor, Operation, Shape};
use s3_program::program::Kind;
use s3_program::row::{Marking, Operand, Pairing, Row, Target};
use s3_sheets::FaultyEntry;
use std::alloc::{AllocError, Global};

/// The entries to blame for a number of a C card. `is_cut` says that a C card follows, and doesn't continue with this one.
#[tactic(auto, using(crate::proofs::TableLemmas::calculation_10))]
pub fn calculation_entries(
    alloc: Global,
    known: &Known,
    walk: &Walk,
    card: u16,
    line: &CalculationLine,
    is_cut: bool,
    number: u8,
) -> Result<Vec<FaultyEntry>, AllocError>
    ensures of { IfOk result (λ found. are_of card number (entries_tested kind.Calculation number) found.items ≡ true) }
    ensures own { IfOk result (λ found. are_marked card number (marks_of_calculation (names_known known.now) card line.now number) found.items ≡ true) }
    ensures named { IfOk result (λ found. is_open_on_calculation number ≡ false → are_of card number (marks_of_calculation (names_known known.now) card line.now number) found.items ≡ true) }
{
    match number {
        5 => at_fault(alloc, card, number, &undefined_parts(known, line)),
        6 => at_fault(alloc, card, number, &redefined_parts(known, card, line)),
        7 => at_fault(alloc, card, number, &overflow_parts(line)),
        8 => at_fault(alloc, card, number, &misfits(known, line, is_cut).parts()),
        9 => at_fault(alloc, card, number, &misplaced_parts(walk, line)),
        10 => at_fault(alloc, card, number, &entry_alone(33, 42)),
        _ => Ok(Vec::new(alloc)),
    }
}

/// What the name that an operation takes is the name of.
fn kind_of(operand: Operand) -> Kind
    ensures { result ≡ kind_named operand }
{
    match operand {
        Operand::Tag => Kind::Tag,
        Operand::Subroutine => Kind::Subroutine,
        Operand::ChainedFile => Kind::File,
        Operand::Nothing | Operand::Number | Operand::Text | Operand::Value => Kind::Field,
    }
}

/// Whether nothing defines the name in a factor that an operation takes.
fn is_unknown(known: &Known, operand: Operand, factor: Option<Factor>) -> bool
    ensures { result ≡ (is_used operand && is_unknown_spec (names_known known.now) (kind_named operand) factor) }
{
    match (operand, factor) {
        (Operand::Nothing, _) => false,
        (_, Some(Factor::Named(name))) => !known.defines(kind_of(operand), name),
        _ => false,
    }
}

/// Whether nothing defines the result that an operation has.
fn is_unknown_result(known: &Known, target: Target, field: Option<Name>) -> bool
    ensures { result ≡ (is_target target && is_unknown_result_spec (names_known known.now) field) }
{
    match (target, field) {
        (Target::Nothing, _) | (_, None) => false,
        (_, Some(name)) => !known.defines(Kind::Field, name),
    }
}

/// Whether nothing defines the names in factor 1, factor 2 and the result that the operation of a card takes.
#[tactic(auto, using(crate::proofs::NameLemmas::unknown_row, crate::proofs::NameLemmas::unknown_none))]
fn unknown_names(known: &Known, line: &CalculationLine) -> [bool; 3]
    ensures { result ≡ unknown_in (names_known known.now) line.now }
{
    let Some(operation) = line.operation else {
        return [false, false, false];
    };
    let row = row_of(operation);
    [
        is_unknown(known, row.factor1, line.factor1),
        is_unknown(known, row.factor2, line.factor2),
        is_unknown_result(known, row.result, line.result),
    ]
}

/// The entries of diagnostic 5: each name without a definition, if the operation uses it.
#[tactic(auto, using(crate::proofs::TableLemmas::calculation_5))]
fn undefined_parts(known: &Known, line: &CalculationLine) -> [Part; 3]
    ensures spans { map span result ≡ entries_tested kind.Calculation 5 }
    ensures fails { map fails result ≡ unknown_in (names_known known.now) line.now }
{
    let [is_factor1, is_factor2, is_result] = unknown_names(known, line);
    [
        entry(18, 27, is_factor1),
        entry(33, 42, is_factor2),
        entry(43, 48, is_result),
    ]
}

/// Whether a first definition is on another card.
fn is_elsewhere(card: u16, first: Option<u16>) -> bool
    ensures { result ≡ is_elsewhere_spec card first }
{
    match first {
        Some(first) => first != card,
        None => false,
    }
}

/// Whether a TAG or a BEGSR has a name that another card before it has.
fn is_second(known: &Known, card: u16, line: &CalculationLine) -> bool
    ensures { result ≡ is_second_spec (names_known known.now) card line.now }
{
    let Some(Factor::Named(name)) = line.factor1 else {
        return false;
    };
    match line.operation {
        Some(Operation::Tag) => is_elsewhere(card, known.tag(name)),
        Some(Operation::BeginSubroutine) => is_elsewhere(card, known.subroutine(name)),
        _ => false,
    }
}

/// The entries of diagnostic 6: the name of a second tag or subroutine; a result that was defined otherwise, with the length or
/// the decimals that differ; a date field that would be changed.
#[tactic(auto, using(crate::proofs::TableLemmas::calculation_6))]
fn redefined_parts(known: &Known, card: u16, line: &CalculationLine) -> [Part; 4]
    ensures spans { map span result ≡ entries_tested kind.Calculation 6 }
    ensures fails { map fails result ≡ redefined_in (names_known known.now) card line.now }
{
    let (is_length, are_decimals) = known.result_redefined(line);
    [
        entry(18, 27, is_second(known, card, line)),
        entry(43, 48, is_wrong_result(is_length, are_decimals, line)),
        entry(49, 51, is_length),
        entry(52, 52, are_decimals),
    ]
}

/// Whether a result is defined otherwise, or is a date field that would be changed.
fn is_wrong_result(is_length: bool, are_decimals: bool, line: &CalculationLine) -> bool
    ensures { result ≡ (is_length || are_decimals || changes_date_spec line.now) }
{
    is_length || are_decimals || changes_date(line)
}

fn is_changed(target: Target) -> bool
    ensures { result ≡ is_target target }
{
    !matches!(target, Target::Nothing)
}

/// Whether an operation changes its result.
fn has_target(operation: Operation) -> bool
    ensures { result ≡ is_target (row_of_spec operation).result }
{
    is_changed(row_of(operation).result)
}

/// Whether a date field would be defined, or changed.
fn changes_date(line: &CalculationLine) -> bool
    ensures { result ≡ changes_date_spec line.now }
{
    let (Some(operation), Some(name)) = (line.operation, line.result) else {
        return false;
    };
    is_date(name) && (line.definition.is_some() || has_target(operation))
}

fn is_overflow(indicator: Option<Indicator>) -> bool
    ensures { result ≡ is_overflow_entry indicator }
{
    matches!(indicator, Some(Indicator::Overflow(_)))
}

/// The entries of diagnostic 7: each overflow indicator.
#[tactic(auto, using(crate::proofs::TableLemmas::calculation_7))]
fn overflow_parts(line: &CalculationLine) -> [Part; 3]
    ensures spans { map span result ≡ entries_tested kind.Calculation 7 }
    ensures fails { map fails result ≡ map is_overflow_entry line.now.indicators }
{
    let [first, second, third] = line.indicators;
    [
        entry(54, 55, is_overflow(first)),
        entry(56, 57, is_overflow(second)),
        entry(58, 59, is_overflow(third)),
    ]
}

/// The entries that don't fit an operation: each one that is missing, surplus or of the wrong kind.
#[derive(Clone, Copy)]
struct Unfit {
    factor1: bool,
    operation: bool,
    factor2: bool,
    result: bool,
    length: bool,
    decimals: bool,
    half_adjust: bool,
    indicators: UnfitIndicators,
}

/// Which resulting indicators are surplus, or whether one is missing.
#[derive(Clone, Copy)]
struct UnfitIndicators {
    surplus: [bool; 3],
    is_missing: bool,
}

impl UnfitIndicators {
    const NONE: UnfitIndicators = UnfitIndicators {
        surplus: [false, false, false],
        is_missing: false,
    };

    /// All that a card has are surplus.
    fn given(line: &CalculationLine) -> UnfitIndicators {
        let [first, second, third] = line.indicators;
        UnfitIndicators {
            surplus: [first.is_some(), second.is_some(), third.is_some()],
            is_missing: false,
        }
    }
}

impl Unfit {
    /// The operation alone.
    const OPERATION: Unfit = Unfit {
        factor1: false,
        operation: true,
        factor2: false,
        result: false,
        length: false,
        decimals: false,
        half_adjust: false,
        indicators: UnfitIndicators::NONE,
    };

    /// The entries of diagnostic 8.
    #[tactic(auto, using(crate::proofs::TableLemmas::calculation_8))]
    fn parts(self) -> [Part; 11]
        ensures { map span result ≡ entries_tested kind.Calculation 8 }
    {
        let [first, second, third] = self.indicators.surplus;
        [
            entry(18, 27, self.factor1),
            entry(28, 32, self.operation),
            entry(33, 42, self.factor2),
            entry(43, 48, self.result),
            entry(49, 51, self.length),
            entry(52, 52, self.decimals),
            entry(53, 53, self.half_adjust),
            entry(54, 55, first),
            entry(56, 57, second),
            entry(58, 59, third),
            entry(54, 59, self.indicators.is_missing),
        ]
    }
}

/// The entries of a card that don't fit its operation: an operation that isn't known, or is missing although no card continues
/// this one, and the other entries.
fn misfits(known: &Known, line: &CalculationLine, is_cut: bool) -> Unfit {
    match line.operation {
        Some(Operation::Unknown) => Unfit::OPERATION,
        Some(operation) => unfit_operands(known, &row_of(operation), line),
        None => Unfit {
            operation: is_cut,
            ..all_entries(line)
        },
    }
}

/// Whether a card says how many decimals its result has.
fn has_decimals(line: &CalculationLine) -> bool {
    matches!(line.definition, Some(Shape::Numeric(..)))
}

fn has_indicators(line: &CalculationLine) -> bool {
    line.indicators.iter().any(|indicator| indicator.is_some())
}

/// All entries of a card without operation.
fn all_entries(line: &CalculationLine) -> Unfit {
    Unfit {
        factor1: line.factor1.is_some(),
        operation: false,
        factor2: line.factor2.is_some(),
        result: line.result.is_some(),
        length: line.definition.is_some(),
        decimals: has_decimals(line),
        half_adjust: line.half_adjust,
        indicators: UnfitIndicators::given(line),
    }
}

/// The shape of what a factor is, if it is a field that is defined or a literal.
fn shape_of(known: &Known, factor: Factor) -> Option<Shape> {
    match factor {
        Factor::Named(name) => known.field(name),
        Factor::Number(literal) => Some(Shape::Numeric(literal.digits, literal.decimals)),
        Factor::Text(literal) => Some(Shape::Alphanumeric(u16::from(literal.length))),
    }
}

fn is_named(factor: Factor) -> bool {
    matches!(factor, Factor::Named(_))
}

fn is_chained(known: &Known, name: Name) -> bool {
    match known.file(name) {
        Some(file) => file.is_chained(),
        None => true,
    }
}

/// Whether a factor that is there is what an operation takes; a name that nothing defines is.
fn is_of_kind(known: &Known, operand: Operand, factor: Factor) -> bool {
    match operand {
        Operand::Nothing => false,
        Operand::Number => !matches!(shape_of(known, factor), Some(Shape::Alphanumeric(_))),
        Operand::Text => !matches!(shape_of(known, factor), Some(Shape::Numeric(..))),
        Operand::Value => true,
        Operand::Tag | Operand::Subroutine => is_named(factor),
        Operand::ChainedFile => match factor {
            Factor::Named(name) => is_chained(known, name),
            _ => false,
        },
    }
}

fn factor_fits(known: &Known, operand: Operand, factor: Option<Factor>) -> bool {
    match factor {
        None => matches!(operand, Operand::Nothing),
        Some(factor) => is_of_kind(known, operand, factor),
    }
}

fn result_fits(known: &Known, target: Target, field: Option<Name>) -> bool {
    match (target, field) {
        (Target::Nothing, field) => field.is_none(),
        (_, None) => false,
        (Target::Any, Some(_)) => true,
        (Target::Number, Some(name)) => {
            !matches!(known.field(name), Some(Shape::Alphanumeric(_)))
        }
        (Target::Text, Some(name)) => !matches!(known.field(name), Some(Shape::Numeric(..))),
    }
}

/// Whether a factor is a key of the file that the other names, or the number of one of its records.
fn is_key(known: &Known, factor1: Factor, factor2: Factor) -> bool {
    let Factor::Named(name) = factor2 else {
        return true;
    };
    let (Some(file), Some(shape)) = (known.file(name), shape_of(known, factor1)) else {
        return true;
    };
    match (file.key, shape) {
        (Some(key), Shape::Alphanumeric(length)) => length == u16::from(key.length),
        (Some(key), Shape::Numeric(digits, _)) => digits == key.length,
        (None, Shape::Alphanumeric(_)) => false,
        (None, Shape::Numeric(_, decimals)) => decimals == 0,
    }
}

/// Whether the two factors fit together.
fn pair_fits(known: &Known, pairing: Pairing, line: &CalculationLine) -> bool {
    let (Some(one), Some(two)) = (line.factor1, line.factor2) else {
        return true;
    };
    match pairing {
        Pairing::Free => true,
        Pairing::Alike => match (shape_of(known, one), shape_of(known, two)) {
            (Some(Shape::Alphanumeric(_)), Some(Shape::Numeric(..))) => false,
            (Some(Shape::Numeric(..)), Some(Shape::Alphanumeric(_))) => false,
            _ => true,
        },
        Pairing::KeyOfFile => is_key(known, one, two),
    }
}

/// Each entry that doesn't fit an operation.
fn unfit_operands(known: &Known, row: &Row, line: &CalculationLine) -> Unfit {
    let is_paired = pair_fits(known, row.pairing, line);
    let is_mixed = !is_paired && matches!(row.pairing, Pairing::Alike);
    // a length is surplus without a result, and with one that is surplus itself
    let is_undefined = line.result.is_none() || matches!(row.result, Target::Nothing);
    Unfit {
        factor1: !factor_fits(known, row.factor1, line.factor1) || !is_paired,
        operation: false,
        factor2: !factor_fits(known, row.factor2, line.factor2) || is_mixed,
        result: !result_fits(known, row.result, line.result),
        length: line.definition.is_some() && is_undefined,
        decimals: has_decimals(line) && is_undefined,
        half_adjust: line.half_adjust && !row.half_adjust,
        indicators: unfit_indicators(row.indicators, line),
    }
}

/// Resulting indicators that are surplus, or that one is missing.
fn unfit_indicators(marking: Marking, line: &CalculationLine) -> UnfitIndicators {
    match marking {
        Marking::Never => UnfitIndicators::given(line),
        Marking::Optional => UnfitIndicators::NONE,
        Marking::Needed => UnfitIndicators {
            surplus: [false, false, false],
            is_missing: !has_indicators(line),
        },
        Marking::First => {
            let [_first, second, third] = line.indicators;
            UnfitIndicators {
                surplus: [false, second.is_some(), third.is_some()],
                is_missing: false,
            }
        }
    }
}

/// Whether a level comes after one that must follow it.
fn is_late(part: u8, time: CalculationTime) -> bool
    ensures { result ≡ is_late_spec part time }
{
    match time {
        CalculationTime::Detail => part > 0,
        CalculationTime::Total(_) => part > 1,
        _ => false,
    }
}

/// The entries of diagnostic 9: the level if it is out of order, continues no line or is outside of every subroutine; else the
/// operation.
#[tactic(auto, using(crate::proofs::TableLemmas::calculation_9))]
fn misplaced_parts(walk: &Walk, line: &CalculationLine) -> [Part; 2]
    ensures { map span result ≡ entries_tested kind.Calculation 9 }
{
    let time = walk.time_of(line);
    let begins_or_ends = matches!(
        line.operation,
        Some(Operation::BeginSubroutine) | Some(Operation::EndSubroutine)
    );
    let is_outside = matches!(time, Some(CalculationTime::Subroutine))
        && !walk.is_in_subroutine
        && !begins_or_ends;
    let is_level = is_late(walk.part, line.time) || time.is_none() || is_outside;
    let is_misnamed = begins_or_ends && !matches!(time, Some(CalculationTime::Subroutine));
    [
        entry(7, 8, is_level),
        entry(28, 32, !is_level || is_misnamed),
    ]
}
