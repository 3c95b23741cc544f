//! The entries in error of a card with a diagnostic: the parts of each condition, entry by entry.

ghost use Rattle.std.specs.Prelude.{◌≡◌, ◌≤◌, ◌+◌, ◌^◌, [], ◌++◌, length, map, true, OnOk, IfOk, slice_range};
ghost use Rattle.std.specs.List.{list_all};
ghost use Rattle.s3_sheets.specs.Inner.Parts as spec;
ghost use Rattle.s3_sheets.specs.Inner.Progress.{nothing_kept};
ghost use Rattle.s3_lines.specs.Ranges.{shape_of_positions};
ghost use Rattle.s3_lines.specs.declared.sheet.Shape.TheVariants.{Numeric};
ghost use Rattle.s3_sheets.specs.Lines.{file_line as file_line_spec};
ghost use Rattle.s3_sheets.specs.Inner.Rules.{is_on_card};
ghost use Rattle.s3_sheets.specs.Inner.RuleViews.{rule_view};
ghost use Rattle.s3_sheets.specs.Kinds.{kind_of as kind_of_spec};

use crate::columns::{columns, number, number_between};
use crate::combinations::{
    are_filled, has_bad_addition, has_bad_definition, has_bad_factor, has_bad_positions,
    has_early_constant, has_no_content, is_key_within, is_of_date, is_with_index, is_wrong_space,
    longest_record,
};
use crate::faults::Fault;
use crate::kind::{CardKind, kind_of};
use crate::lines::{definition, field_line, file_line, is_addition};
use crate::progress::{Progress, Standing, exceeds};
use crate::rules::Rule;
use crate::tables::rules_of;
use s3_cards::{Card, Deck, Name};
use s3_entries::{Span, calculation, file, input, output, shared};
use s3_lines::sheet::{FieldForm, FieldLine, FileLine, Shape};
use std::alloc::{AllocError, Global};

/// A part of a diagnostic's condition, on one entry of a card.
#[derive(Clone, Copy)]
pub struct Part {
    /// The number of the diagnostic.
    pub number: u8,
    /// The entry's first column, from 1.
    pub from: usize,
    /// Its last column.
    pub to: usize,
    /// Whether the entry is in error.
    pub fails: bool,
}

/// An entry of a card that is in error by a diagnostic.
#[derive(Clone, Copy)]
pub struct FaultyEntry {
    /// The number of the card in its deck, from 1.
    pub card: u16,
    /// The number of the diagnostic: 1 to 4 or 13.
    pub number: u8,
    /// The entry's first column, from 1.
    pub from: usize,
    /// Its last column.
    pub to: usize,
}

fn part_of(number: u8, span: Span, fails: bool) -> Part
    ensures { result ≡ spec.part number span fails }
{
    Part {
        number,
        from: span.from,
        to: span.to,
        fails,
    }
}

/// Adds the entries of those parts that fail.
fn push_parts(found: &mut Vec<FaultyEntry>, card: u16, parts: &[Part]) -> Result<(), AllocError>
    ensures { OnOk result (found.new.items ≡ found.old.items ++ spec.entries_of card parts.now) }
{
    for part in parts {
        if part.fails {
            found.push(FaultyEntry {
                card,
                number: part.number,
                from: part.from,
                to: part.to,
            })?;
        }
    }
    Ok(())
}

fn fault_number(fault: Fault) -> u8
    ensures { result ≡ spec.fault_number fault }
{
    match fault {
        Fault::WrongEntry => 2,
        Fault::WrongName => 3,
        Fault::WrongNumber => 4,
    }
}

/// What a rule says of its entry on a card.
fn rule_part(rule: &Rule, card: &Card) -> Part
    requires { is_on_card (rule_view rule.now) ≡ true }
    ensures { result ≡ spec.rule_part card.now (rule_view rule.now) }
{
    part_of(
        fault_number(rule.entry.fault()),
        rule.span,
        !rule.entry.allows(columns(card, rule.span)),
    )
}

/// Adds the entries of a card that break rules.
fn push_broken(
    found: &mut Vec<FaultyEntry>,
    number: u16,
    rules: &[Rule],
    card: &Card,
) -> Result<(), AllocError>
    requires { list_all is_on_card (map rule_view rules.now) ≡ true }
    ensures { OnOk result (found.new.items ≡ found.old.items ++ spec.entries_of number (map (spec.rule_part card.now) (map rule_view rules.now))) }
{
    for rule in rules {
        push_parts(found, number, &[rule_part(rule, card)])?;
    }
    Ok(())
}

/// Whether a record length is one that the device can have.
fn has_record_length(file: &FileLine) -> bool
    ensures { result ≡ spec.has_record_length file.now }
{
    1 <= file.record_length && file.record_length <= longest_record(file.device)
}

fn lacks_key_length(file: &FileLine, card: &Card) -> bool
    requires { file.now ≡ file_line_spec card.now }
    ensures { result ≡ spec.lacks_key_length card.now }
{
    is_with_index(file) && number_between(columns(card, file::KEY_LENGTH), 1, 29).is_none()
}

fn lacks_key_start(file: &FileLine, card: &Card) -> bool
    requires { file.now ≡ file_line_spec card.now }
    ensures { result ≡ spec.lacks_key_start card.now }
{
    is_with_index(file) && number_between(columns(card, file::KEY_START), 1, 9_999).is_none()
}

/// Whether a key that is known ends past a record whose length is known.
fn has_key_past(file: &FileLine) -> bool
    ensures { result ≡ spec.has_key_past file.now }
{
    has_record_length(file) && file.key.is_some() && !is_key_within(file.record_length, file.key)
}

fn file_parts(card: &Card) -> [Part; 7]
    ensures { result ≡ spec.file_parts card.now }
{
    let file = file_line(card);
    let stray = !is_with_index(&file);
    let past = has_key_past(&file);
    [
        part_of(2, file::END, file.ends_job && !file.is_by_cycle()),
        part_of(
            2,
            file::KEY_LENGTH,
            stray && are_filled(card, file::KEY_LENGTH),
        ),
        part_of(
            2,
            file::KEY_START,
            stray && are_filled(card, file::KEY_START),
        ),
        part_of(
            2,
            file::OVERFLOW,
            are_filled(card, file::OVERFLOW) && !file.device.is_printer(),
        ),
        part_of(4, file::RECORD_LENGTH, !has_record_length(&file)),
        part_of(4, file::KEY_LENGTH, lacks_key_length(&file, card) || past),
        part_of(4, file::KEY_START, lacks_key_start(&file, card) || past),
    ]
}

/// Whether there are more decimals than digits, of which there are as many as there may be.
fn is_surplus(digits: u16, decimals: u8) -> bool
    ensures { result ≡ spec.has_surplus_decimals (Numeric digits decimals) }
{
    1 <= digits && digits <= 15 && digits < u16::from(decimals)
}

/// Whether a field of so many positions has more decimals than digits.
fn has_surplus_within(form: FieldForm, width: u16) -> bool
    requires { width ≤ 10 ^ 4 }
    ensures { result ≡ spec.has_surplus_decimals (shape_of_positions form width) }
{
    match form {
        FieldForm::Alphanumeric | FieldForm::PackedText => false,
        FieldForm::Zoned(decimals) => is_surplus(width, decimals),
        FieldForm::Packed(decimals) => is_surplus((2 * width).saturating_sub(1), decimals),
    }
}

/// Whether both positions of a field are known.
fn has_positions(card: &Card) -> bool
    ensures { result ≡ spec.has_positions card.now }
{
    number_between(columns(card, input::FROM), 1, 9_999).is_some()
        && number_between(columns(card, input::TO), 1, 9_999).is_some()
}

fn has_surplus_in_field(field: &FieldLine) -> bool
    requires { field.now.to ≤ 9_999 }
    ensures { result ≡ spec.has_surplus_in_field field.now }
{
    field.from <= field.to && has_surplus_within(field.form, field.to - field.from + 1)
}

fn field_parts(card: &Card) -> [Part; 2]
    ensures { result ≡ spec.field_parts card.now }
{
    let known = has_positions(card);
    let surplus = has_surplus_in_field(&field_line(card));
    [
        part_of(4, input::LOCATION, known && has_bad_positions(card)),
        part_of(4, input::DECIMALS, known && surplus),
    ]
}

fn has_surplus(definition: Option<Shape>) -> bool
    ensures { result ≡ spec.has_surplus definition }
{
    match definition {
        Some(Shape::Numeric(digits, decimals)) => is_surplus(u16::from(digits), decimals),
        Some(Shape::Alphanumeric(_)) | None => false,
    }
}

fn calculation_parts(card: &Card) -> [Part; 3]
    ensures { result ≡ spec.calculation_parts card.now }
{
    let defined = definition(
        columns(card, calculation::LENGTH),
        columns(card, calculation::DECIMALS),
    );
    [
        part_of(3, calculation::FACTOR_2, has_bad_factor(card)),
        part_of(4, calculation::LENGTH, has_bad_definition(card)),
        part_of(4, calculation::DECIMALS, has_surplus(defined)),
    ]
}

fn line_parts(card: &Card) -> [Part; 3]
    ensures { result ≡ spec.line_parts card.now }
{
    let spaced = !is_addition(card);
    [
        part_of(2, output::BEFORE_SPACES, has_bad_addition(card)),
        part_of(
            4,
            output::SPACE_BEFORE,
            spaced && is_wrong_space(columns(card, output::SPACE_BEFORE)),
        ),
        part_of(
            4,
            output::SPACE_AFTER,
            spaced && is_wrong_space(columns(card, output::SPACE_AFTER)),
        ),
    ]
}

fn has_both(card: &Card) -> bool
    ensures { result ≡ spec.has_both card.now }
{
    are_filled(card, output::CONSTANT) && are_filled(card, output::FIELD_NAME)
}

fn has_packed_edit(card: &Card) -> bool
    ensures { result ≡ spec.has_packed_edit card.now }
{
    are_filled(card, output::FIELD_NAME)
        && are_filled(card, output::EDIT_CODE)
        && are_filled(card, output::PACKED)
}

fn output_parts(card: &Card) -> [Part; 7]
    ensures { result ≡ spec.output_parts card.now }
{
    let both = has_both(card);
    let packed = has_packed_edit(card);
    let constant = are_filled(card, output::CONSTANT);
    let blanked = are_filled(card, output::BLANK_AFTER);
    [
        part_of(2, output::FIELD_NAME, both),
        part_of(2, output::CONSTANT, both),
        part_of(
            2,
            output::EDIT_CODE,
            constant && are_filled(card, output::EDIT_CODE) || packed,
        ),
        part_of(
            2,
            output::BLANK_AFTER,
            constant && blanked
                || blanked && is_of_date(Name::of(columns(card, output::FIELD_NAME))),
        ),
        part_of(
            2,
            output::PACKED,
            constant && are_filled(card, output::PACKED) || packed,
        ),
        part_of(3, output::FIELD_NAME, has_no_content(card)),
        part_of(4, output::END_POSITION, has_early_constant(card)),
    ]
}

/// Adds the entries of a card that are in error by conditions on columns together.
fn push_combined(
    found: &mut Vec<FaultyEntry>,
    number: u16,
    kind: CardKind,
    card: &Card,
) -> Result<(), AllocError>
    ensures { OnOk result (found.new.items ≡ found.old.items ++ spec.entries_of number (spec.combined_parts kind card.now)) }
{
    match kind {
        CardKind::File => push_parts(found, number, &file_parts(card)),
        CardKind::Field => push_parts(found, number, &field_parts(card)),
        CardKind::Calculation => push_parts(found, number, &calculation_parts(card)),
        CardKind::OutputLine => push_parts(found, number, &line_parts(card)),
        CardKind::OutputField => push_parts(found, number, &output_parts(card)),
        CardKind::Comment
        | CardKind::Unknown
        | CardKind::Header
        | CardKind::Record
        | CardKind::RecordAnd
        | CardKind::RecordOr
        | CardKind::OutputAnd
        | CardKind::OutputOr => Ok(()),
    }
}

fn code_parts(card: &Card, length: Option<u16>) -> [Part; 3]
    ensures { result ≡ spec.code_parts card.now length }
{
    [
        part_of(
            4,
            input::POSITION_1,
            exceeds(number(columns(card, input::POSITION_1)), length),
        ),
        part_of(
            4,
            input::POSITION_2,
            exceeds(number(columns(card, input::POSITION_2)), length),
        ),
        part_of(
            4,
            input::POSITION_3,
            exceeds(number(columns(card, input::POSITION_3)), length),
        ),
    ]
}

/// The first and the last position of a field, each in error if it lies past the record.
fn span_parts(card: &Card, length: Option<u16>) -> [Part; 2]
    ensures { result ≡ spec.span_parts card.now length }
{
    [
        part_of(
            4,
            input::FROM,
            exceeds(number(columns(card, input::FROM)), length),
        ),
        part_of(
            4,
            input::TO,
            exceeds(number(columns(card, input::TO)), length),
        ),
    ]
}

/// Adds the entries whose positions lie past a record of a length.
fn push_positions(
    found: &mut Vec<FaultyEntry>,
    number_of_card: u16,
    kind: CardKind,
    card: &Card,
    length: Option<u16>,
) -> Result<(), AllocError>
    ensures { OnOk result (found.new.items ≡ found.old.items ++ spec.entries_of number_of_card (spec.position_parts kind card.now length)) }
{
    match kind {
        CardKind::Record | CardKind::RecordAnd | CardKind::RecordOr => {
            push_parts(found, number_of_card, &code_parts(card, length))
        }
        CardKind::Field => push_parts(found, number_of_card, &span_parts(card, length)),
        CardKind::OutputField => {
            let is_past = exceeds(number(columns(card, output::END_POSITION)), length);
            push_parts(
                found,
                number_of_card,
                &[part_of(4, output::END_POSITION, is_past)],
            )
        }
        CardKind::Comment
        | CardKind::Unknown
        | CardKind::Header
        | CardKind::File
        | CardKind::Calculation
        | CardKind::OutputLine
        | CardKind::OutputAnd
        | CardKind::OutputOr => Ok(()),
    }
}

fn standing_parts(kind: CardKind, standing: Standing) -> [Part; 3]
    ensures { result ≡ spec.standing_parts kind standing }
{
    let defined = match kind {
        CardKind::File => shared::FILENAME,
        CardKind::Field => input::FIELD_NAME,
        _ => calculation::RESULT,
    };
    [
        part_of(1, shared::FORM_TYPE, standing.is_misplaced),
        part_of(3, shared::FILENAME, standing.lacks_file),
        part_of(13, defined, standing.is_too_many),
    ]
}

/// Adds the entries of a card that are in error, given the cards above it and the record length for its positions.
#[tactic(auto, using(crate::proofs::PartLemmas::all_parts))]
fn push_card(
    found: &mut Vec<FaultyEntry>,
    number: u16,
    card: &Card,
    standing: Standing,
    length: Option<u16>,
) -> Result<(), AllocError>
    ensures { OnOk result (found.new.items ≡ found.old.items ++ spec.entries_of number (spec.parts_with (kind_of_spec card.now) card.now standing length)) }
{
    let kind = kind_of(card);
    push_parts(found, number, &standing_parts(kind, standing))?;
    push_broken(found, number, rules_of(kind), card)?;
    push_combined(found, number, kind, card)?;
    push_positions(found, number, kind, card, length)
}

/// Adds the entries of cards that are in error to an empty list. The caller owns both values, so that no early return here drops
/// them.
fn find_entries(
    found: &mut Vec<FaultyEntry>,
    progress: &mut Progress,
    cards: &[Card],
    from: usize,
) -> Result<(), AllocError>
    requires short { from + length cards.now ≤ 9_999 }
    requires none_found { found.old.items ≡ [] }
    requires first { progress.old ≡ nothing_kept }
    ensures { OnOk result (found.new.items ≡ spec.faulty_entries from cards.now) }
{
    for (place, card) in cards.iter().enumerate() {
        let number = (from + place + 1) as u16;
        let length = progress.position_length(card);
        let standing = progress.enter(card)?;
        push_card(found, number, card, standing, length)?;
    }
    Ok(())
}

/// The entries of cards that are in error.
fn entries_of_cards(
    alloc: Global,
    cards: &[Card],
    from: usize,
) -> Result<Vec<FaultyEntry>, AllocError>
    requires { from + length cards.now ≤ 9_999 }
    ensures { IfOk result (λ found. found.items ≡ spec.faulty_entries from cards.now) }
{
    let mut found = Vec::new(alloc);
    let mut progress = Progress::new(alloc);
    let done = find_entries(&mut found, &mut progress, cards, from);
    drop(progress);
    done?;
    Ok(found)
}

/// The entries that are in error by the diagnostics 1 to 4 and 13 on cards of a deck from place `from` up to but without place
/// `to`, card by card. A card has one of these numbers exactly if an entry of it is in error by that number
/// (`numbers_stand_on_entries`). It is refused only if memory runs out.
pub fn faulty_entries(
    alloc: Global,
    deck: &Deck,
    from: usize,
    to: usize,
) -> Result<Vec<FaultyEntry>, AllocError>
    requires order { from ≤ to }
    requires within { to ≤ length deck.now }
    ensures { IfOk result (λ found. found.items ≡ spec.faulty_entries from (slice_range deck.now from to)) }
{
    entries_of_cards(alloc, &deck.cards()[from..to], from)
}

/// A card has each of the numbers 1 to 4 and 13 exactly if an entry of it is in error by that number.
pub fn numbers_stand_on_entries()
    ensures sheet { spec.IsToldByEntries 1 }
    ensures entry { spec.IsToldByEntries 2 }
    ensures name { spec.IsToldByEntries 3 }
    ensures number { spec.IsToldByEntries 4 }
    ensures many { spec.IsToldByEntries 13 }
{}
