//! The typed line of a card. It is made of every card; of a card without a fault it is what the card says.

ghost use Rattle.std.specs.Prelude.{◌≡◌, ◌≤◌, ◌<◌, length};
ghost use Rattle.s3_sheets.specs.Lines.{number_or_zero as number_or_zero_spec, maybe_name as maybe_name_spec, use_of as use_of_spec, designation_of as designation_of_spec, device_of as device_of_spec, key_of as key_of_spec, file_line as file_line_spec, record_indicator as record_indicator_spec, three_codes as three_codes_spec, form_of as form_of_spec, field_line as field_line_spec, longest_name as longest_name_spec, definition_of as definition_of_spec, calculation_line as calculation_line_spec, three_conditions as three_conditions_spec, output_kind_of as output_kind_of_spec, is_addition as is_addition_spec, space_of as space_of_spec, spacing_of as spacing_of_spec, output_card as output_card_spec, output_form as output_form_spec, content_of as content_of_spec, output_field as output_field_spec, sheet_line as sheet_line_spec, line_of as line_of_spec};

use crate::columns::{column, columns, number, number_between, small_between};
use crate::entries::{EMPTY, constant, factor, record_code, time};
use crate::indicators::{IndicatorList, condition, level_behind, listed};
use crate::kind::{CardKind, kind_of};
use crate::operations::operation;
use crate::words::{ADD, CHAIN, MFCU1, MFCU2, PRINTER};
use s3_cards::ebcdic::{
    LETTER_A, LETTER_B, LETTER_C, LETTER_E, LETTER_H, LETTER_I, LETTER_L, LETTER_M, LETTER_O,
    LETTER_P, LETTER_R, LETTER_S, LETTER_T, LETTER_U,
};
use s3_cards::{Card, Name, are_blank};
use s3_edit::EditCode;
use s3_entries::{calculation, file, header, input, output, shared};
use s3_lines::indicator::{Condition, Indicator};
use s3_lines::sheet::{
    CalculationLine, CalculationTime, Designation, Device, FieldForm, FieldLine, FieldOutput,
    FileLine, FileUse, InputLine, KeyField, Line, OutputCard, OutputContent, OutputField,
    OutputForm, OutputKind, OutputLine, RecordCode, Shape, SheetLine, Spacing,
};

fn number_or_zero(columns: &[u8]) -> u16
    ensures { result ≡ number_or_zero_spec columns.now }
{
    number(columns).unwrap_or(0)
}

/// The name in at most eight columns; none if they are blank.
pub fn maybe_name(columns: &[u8]) -> Option<Name>
    requires { length columns.now ≤ 8 }
    ensures { result ≡ maybe_name_spec columns.now }
{
    if are_blank(columns) {
        None
    } else {
        Some(Name::of(columns))
    }
}

fn use_of(code: u8) -> FileUse
    ensures { result ≡ use_of_spec code }
{
    match code {
        LETTER_O => FileUse::Output,
        LETTER_U => FileUse::Update,
        _ => FileUse::Input,
    }
}

fn designation_of(code: u8) -> Option<Designation>
    ensures { result ≡ designation_of_spec code }
{
    match code {
        LETTER_P => Some(Designation::Primary),
        LETTER_S => Some(Designation::Secondary),
        LETTER_C => Some(Designation::Chained),
        _ => None,
    }
}

#[tactic(auto, unfolding(crate::specs::Lines::device_of, s3_cards::specs::Codes::ebcdic, s3_cards::specs::Codes::code_page))]
fn device_of(device: &[u8]) -> Device
    ensures { result ≡ device_of_spec device.now }
{
    if device == MFCU1.as_slice() || device == MFCU2.as_slice() {
        Device::CardReader
    } else if device == PRINTER.as_slice() {
        Device::Printer
    } else {
        Device::Disk
    }
}

/// The key of an indexed file, none if an entry of it is missing or out of its range.
fn key_of(card: &Card) -> Option<KeyField>
    ensures { result ≡ key_of_spec card.now }
{
    if column(card, file::ADDRESS_TYPE) == LETTER_A
        && column(card, file::ORGANIZATION) == LETTER_I
    {
        Some(KeyField {
            length: small_between(columns(card, file::KEY_LENGTH), 1, 29)?,
            start: number_between(columns(card, file::KEY_START), 1, 9_999)?,
        })
    } else {
        None
    }
}

/// The line of an F card.
#[tactic(auto, unfolding(crate::specs::Lines::file_line))]
pub fn file_line(card: &Card) -> FileLine
    ensures { result ≡ file_line_spec card.now }
{
    FileLine {
        name: Name::of(columns(card, shared::FILENAME)),
        usage: use_of(column(card, file::TYPE)),
        designation: designation_of(column(card, file::DESIGNATION)),
        ends_job: column(card, file::END) == LETTER_E,
        record_length: number_or_zero(columns(card, file::RECORD_LENGTH)),
        is_random: column(card, file::MODE) == LETTER_R,
        is_keyed: column(card, file::ADDRESS_TYPE) == LETTER_A,
        is_indexed: column(card, file::ORGANIZATION) == LETTER_I,
        key: key_of(card),
        overflow: listed(IndicatorList::Overflow, columns(card, file::OVERFLOW)),
        device: device_of(columns(card, file::DEVICE)),
        has_additions: column(card, file::ADDITION) == LETTER_A,
        condition: listed(IndicatorList::Switch, columns(card, file::CONDITION)),
    }
}

fn record_indicator(columns: &[u8]) -> Indicator
    ensures { result ≡ record_indicator_spec columns.now }
{
    listed(IndicatorList::Record, columns).unwrap_or(Indicator::General(1))
}

fn three_codes(card: &Card) -> [Option<RecordCode>; 3]
    ensures { result ≡ three_codes_spec card.now }
{
    [
        record_code(columns(card, input::CODE_1)),
        record_code(columns(card, input::CODE_2)),
        record_code(columns(card, input::CODE_3)),
    ]
}

/// How a field lies in its record: with decimals a number, else characters.
fn form_of(is_packed: bool, decimals: &[u8]) -> FieldForm
    ensures { result ≡ form_of_spec is_packed decimals.now }
{
    if are_blank(decimals) {
        if is_packed {
            FieldForm::PackedText
        } else {
            FieldForm::Alphanumeric
        }
    } else {
        let decimals = small_between(decimals, 0, 9).unwrap_or(0);
        if is_packed {
            FieldForm::Packed(decimals)
        } else {
            FieldForm::Zoned(decimals)
        }
    }
}

/// The line of an I card that is a field line.
#[tactic(auto, unfolding(crate::specs::Lines::field_line))]
pub fn field_line(card: &Card) -> FieldLine
    ensures value { result ≡ field_line_spec card.now }
    ensures small { result.to ≤ 9999 }
{
    FieldLine {
        name: Name::of(columns(card, input::FIELD_NAME)),
        from: number_between(columns(card, input::FROM), 1, 9_999).unwrap_or(1),
        to: number_between(columns(card, input::TO), 1, 9_999).unwrap_or(1),
        form: form_of(
            column(card, input::PACKED) == LETTER_P,
            columns(card, input::DECIMALS),
        ),
        control_level: level_behind(LETTER_L, columns(card, input::CONTROL_LEVEL)),
        match_level: level_behind(LETTER_M, columns(card, input::MATCHING)),
        relation: listed(IndicatorList::Record, columns(card, input::RELATION)),
        indicators: [
            listed(IndicatorList::Record, columns(card, input::PLUS)),
            listed(IndicatorList::Record, columns(card, input::MINUS)),
            listed(IndicatorList::Record, columns(card, input::ZERO)),
        ],
    }
}

/// The greatest length of a name in factor 2 of a C card, in characters: 8 for CHAIN, which has a file there, else 6.
#[tactic(auto, unfolding(s3_cards::specs::Codes::ebcdic, s3_cards::specs::Codes::code_page))]
pub fn longest_name(card: &Card) -> usize
    ensures value { result ≡ longest_name_spec card.now }
    ensures few { result ≤ 8 }
{
    if columns(card, calculation::OPERATION) == CHAIN.as_slice() {
        8
    } else {
        6
    }
}

/// The shape that the columns of a length and of decimals give a field: a text if the decimals are blank, else a number; none if
/// both are blank.
pub fn definition(length: &[u8], decimals: &[u8]) -> Option<Shape>
    ensures { result ≡ definition_of_spec length.now decimals.now }
{
    if !are_blank(decimals) {
        Some(Shape::Numeric(
            small_between(length, 1, 15).unwrap_or(0),
            small_between(decimals, 0, 9).unwrap_or(0),
        ))
    } else if are_blank(length) {
        None
    } else {
        Some(Shape::Alphanumeric(number_between(length, 1, 256).unwrap_or(0)))
    }
}

/// What a C card says.
#[tactic(auto, unfolding(crate::specs::Lines::calculation_line))]
fn calculation_line(card: &Card) -> CalculationLine
    ensures { result ≡ calculation_line_spec card.now }
{
    CalculationLine {
        time: time(columns(card, calculation::CONTROL_LEVEL)).unwrap_or(CalculationTime::Detail),
        conditions: [
            condition(columns(card, calculation::INDICATOR_1)),
            condition(columns(card, calculation::INDICATOR_2)),
            condition(columns(card, calculation::INDICATOR_3)),
        ],
        factor1: factor(6, columns(card, calculation::FACTOR_1)),
        operation: operation(columns(card, calculation::OPERATION)),
        factor2: factor(longest_name(card), columns(card, calculation::FACTOR_2)),
        result: maybe_name(columns(card, calculation::RESULT)),
        definition: definition(
            columns(card, calculation::LENGTH),
            columns(card, calculation::DECIMALS),
        ),
        half_adjust: column(card, calculation::HALF_ADJUST) == LETTER_H,
        indicators: [
            listed(IndicatorList::Resulting, columns(card, calculation::HIGH)),
            listed(IndicatorList::Resulting, columns(card, calculation::LOW)),
            listed(IndicatorList::Resulting, columns(card, calculation::EQUAL)),
        ],
    }
}

fn three_conditions(card: &Card) -> [Option<Condition>; 3]
    ensures { result ≡ three_conditions_spec card.now }
{
    [
        condition(columns(card, output::INDICATOR_1)),
        condition(columns(card, output::INDICATOR_2)),
        condition(columns(card, output::INDICATOR_3)),
    ]
}

fn output_kind_of(code: u8) -> OutputKind
    ensures { result ≡ output_kind_of_spec code }
{
    match code {
        LETTER_H => OutputKind::Heading,
        LETTER_T => OutputKind::Total,
        LETTER_E => OutputKind::Exception,
        _ => OutputKind::Detail,
    }
}

/// Whether a line card of the O sheet adds a record: it has ADD in columns 16 to 18.
#[tactic(auto, unfolding(crate::specs::Lines::is_addition, s3_cards::specs::Codes::ebcdic, s3_cards::specs::Codes::code_page))]
pub fn is_addition(card: &Card) -> bool
    ensures { result ≡ is_addition_spec card.now }
{
    columns(card, output::ADDITION) == ADD.as_slice()
}

/// A space; with ADD its column has a letter of that word.
fn space_of(is_addition: bool, columns: &[u8]) -> Option<u8>
    ensures { result ≡ space_of_spec is_addition columns.now }
{
    if is_addition {
        None
    } else {
        small_between(columns, 0, 3)
    }
}

#[tactic(auto, unfolding(crate::specs::Lines::spacing_of))]
fn spacing_of(card: &Card) -> Spacing
    ensures { result ≡ spacing_of_spec card.now }
{
    let is_addition = is_addition(card);
    Spacing {
        space_before: space_of(is_addition, columns(card, output::SPACE_BEFORE)),
        space_after: space_of(is_addition, columns(card, output::SPACE_AFTER)),
        skip_before: small_between(columns(card, output::SKIP_BEFORE), 1, 66),
        skip_after: small_between(columns(card, output::SKIP_AFTER), 1, 66),
    }
}

/// What a line card of the O sheet says.
#[tactic(auto, unfolding(crate::specs::Lines::output_card))]
fn output_card(card: &Card) -> OutputCard
    ensures { result ≡ output_card_spec card.now }
{
    OutputCard {
        file: maybe_name(columns(card, shared::FILENAME)),
        kind: output_kind_of(column(card, output::TYPE)),
        is_addition: is_addition(card),
        spacing: spacing_of(card),
        conditions: three_conditions(card),
    }
}

/// How a field is written: packed, or by an edit code if there is one.
fn output_form(is_packed: bool, code: Option<EditCode>) -> OutputForm
    ensures { result ≡ output_form_spec is_packed code }
{
    match code {
        _ if is_packed => OutputForm::Packed,
        Some(code) => OutputForm::Edited(code),
        None => OutputForm::Plain,
    }
}

/// The field, or the constant if the columns of the field are blank.
fn content_of(card: &Card) -> OutputContent
    ensures { result ≡ content_of_spec card.now }
{
    let field = columns(card, output::FIELD_NAME);
    if are_blank(field) {
        OutputContent::Constant(constant(columns(card, output::CONSTANT)).unwrap_or(EMPTY))
    } else {
        OutputContent::Field(FieldOutput {
            name: Name::of(field),
            form: output_form(
                column(card, output::PACKED) == LETTER_P,
                EditCode::of(column(card, output::EDIT_CODE)),
            ),
            blank_after: column(card, output::BLANK_AFTER) == LETTER_B,
        })
    }
}

/// What a field card of the O sheet says.
#[tactic(auto, unfolding(crate::specs::Lines::output_field))]
fn output_field(card: &Card) -> OutputField
    ensures { result ≡ output_field_spec card.now }
{
    OutputField {
        conditions: three_conditions(card),
        content: content_of(card),
        end: number_between(columns(card, output::END_POSITION), 1, 9_999).unwrap_or(1),
    }
}

/// What a card of some kind says. A comment says nothing.
fn sheet_line(kind: CardKind, card: &Card) -> Option<SheetLine>
    ensures { result ≡ sheet_line_spec kind card.now }
{
    let line = match kind {
        CardKind::Comment | CardKind::Unknown => return None,
        CardKind::Header => SheetLine::Header(maybe_name(columns(card, header::PROGRAM))),
        CardKind::File => SheetLine::File(file_line(card)),
        CardKind::Record => SheetLine::Input(InputLine::Record(
            Name::of(columns(card, shared::FILENAME)),
            record_indicator(columns(card, input::RECORD_INDICATOR)),
            three_codes(card),
        )),
        CardKind::RecordAnd => SheetLine::Input(InputLine::And(three_codes(card))),
        CardKind::RecordOr => SheetLine::Input(InputLine::Or(
            record_indicator(columns(card, input::RECORD_INDICATOR)),
            three_codes(card),
        )),
        CardKind::Field => SheetLine::Input(InputLine::Field(field_line(card))),
        CardKind::Calculation => SheetLine::Calculation(calculation_line(card)),
        CardKind::OutputLine => SheetLine::Output(OutputLine::Line(output_card(card))),
        CardKind::OutputAnd => SheetLine::Output(OutputLine::And(three_conditions(card))),
        CardKind::OutputOr => SheetLine::Output(OutputLine::Or(three_conditions(card))),
        CardKind::OutputField => SheetLine::Output(OutputLine::Field(output_field(card))),
    };
    Some(line)
}

/// The typed line of a card, with this number of the card in its deck; none for a comment and a card of no sheet.
#[tactic(auto, unfolding(crate::specs::Lines::line_of))]
pub fn line_of(number: u16, card: &Card) -> Option<Line>
    ensures { result ≡ line_of_spec number card.now }
{
    let sheet = sheet_line(kind_of(card), card)?;
    Some(Line {
        card: number,
        sheet,
    })
}
