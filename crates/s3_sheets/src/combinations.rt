//! What several columns of a card show together.

ghost use Rattle.std.specs.Prelude.{◌≡◌, ◌≤◌, ◌<◌, ◌+◌, ◌^◌, length, not};
ghost use Rattle.s3_lines.specs.Ranges.{longest_record as longest_record_spec, shape_in_range, shape_of_positions};
ghost use Rattle.s3_sheets.specs.Combinations.{are_filled as are_filled_spec, is_with_index as with_index_spec, has_stray_entry as stray_spec, is_key_within as key_within_spec, has_bad_extent as bad_extent_spec, has_bad_positions as bad_positions_spec, has_bad_factor as bad_factor_spec, has_bad_definition as bad_definition_spec, has_bad_addition as bad_addition_spec, has_bad_space as bad_space_spec, is_of_date as of_date_spec, has_bad_content as bad_content_spec, has_no_content as no_content_spec, begins_too_early as too_early_spec, has_early_constant as early_constant_spec, combined_faults as combined_faults_spec};
ghost use Rattle.s3_sheets.specs.Columns.{number_between};
ghost use Rattle.s3_sheets.specs.Entries.{constant_text};
ghost use Rattle.s3_sheets.specs.Rules.{is_blank_or};

use crate::columns::{columns, number, small_between};
use crate::entries::{constant, factor};
use crate::faults::Faults;
use crate::kind::CardKind;
use crate::lines::{definition, field_line, file_line, is_addition, longest_name};
use s3_cards::{Card, Name, are_blank};
use s3_entries::{Span, calculation, file, output};
use s3_lines::is_reserved;
use s3_lines::reserved::PAGE;
use s3_lines::sheet::{Device, FieldForm, FileLine, KeyField, Shape};

/// Whether some of an entry's columns are filled.
pub fn are_filled(card: &Card, entry: Span) -> bool
    requires start { 0 < entry.from }
    requires order { entry.from ≤ entry.to }
    requires end { entry.to ≤ 96 }
    ensures { result ≡ are_filled_spec card.now entry }
{
    !are_blank(columns(card, entry))
}

/// Whether a file has keys, and an index for them on the pack.
pub fn is_with_index(file: &FileLine) -> bool
    ensures { result ≡ with_index_spec file.now }
{
    file.is_keyed && file.is_indexed
}

/// Whether an F card has an entry that only other kinds of files may have.
#[tactic(auto, unfolding(crate::specs::Combinations::has_stray_entry))]
fn has_stray_entry(card: &Card) -> bool
    ensures { result ≡ stray_spec card.now }
{
    let file = file_line(card);
    (file.ends_job && !file.is_by_cycle())
        || (!is_with_index(&file)
            && (are_filled(card, file::KEY_LENGTH) || are_filled(card, file::KEY_START)))
        || (are_filled(card, file::OVERFLOW) && !file.device.is_printer())
}

/// The longest record of a device.
pub fn longest_record(device: Device) -> u16
    ensures { result ≡ longest_record_spec device }
{
    match device {
        Device::CardReader => 96,
        Device::Printer => 132,
        Device::Disk => 1_024,
    }
}

/// Whether there is a key and it lies in a record.
pub fn is_key_within(record_length: u16, key: Option<KeyField>) -> bool
    ensures { result ≡ key_within_spec record_length key }
{
    match key {
        Some(key) => u32::from(key.start) + u32::from(key.length) <= u32::from(record_length) + 1,
        None => false,
    }
}

/// Whether a record length isn't within that of its device, or an indexed file has no key in its record.
#[tactic(auto, unfolding(crate::specs::Combinations::has_bad_extent))]
fn has_bad_extent(card: &Card) -> bool
    ensures { result ≡ bad_extent_spec card.now }
{
    let file = file_line(card);
    file.record_length < 1
        || longest_record(file.device) < file.record_length
        || (is_with_index(&file) && !is_key_within(file.record_length, file.key))
}

/// Whether decimals are at most 9, and of 1 to 15 digits.
fn are_digits_in_range(digits: u16, decimals: u8) -> bool
    ensures { result ≡ shape_in_range (Shape.Numeric digits decimals) }
{
    1 <= digits && digits <= 15 && decimals <= 9 && u16::from(decimals) <= digits
}

fn is_text_in_range(length: u16) -> bool
    ensures { result ≡ shape_in_range (Shape.Alphanumeric length) }
{
    1 <= length && length <= 256
}

/// Whether so many positions hold 1 to 256 characters, or 1 to 15 digits, of which the decimals are some.
fn holds_field(form: FieldForm, width: u16) -> bool
    requires { width ≤ 10 ^ 4 }
    ensures { result ≡ shape_in_range (shape_of_positions form width) }
{
    match form {
        FieldForm::Alphanumeric | FieldForm::PackedText => is_text_in_range(width),
        FieldForm::Zoned(decimals) => are_digits_in_range(width, decimals),
        FieldForm::Packed(decimals) => {
            are_digits_in_range((2 * width).saturating_sub(1), decimals)
        }
    }
}

/// Whether the positions of a field are out of order, or don't hold such a field.
#[tactic(auto, unfolding(crate::specs::Combinations::has_bad_positions))]
pub fn has_bad_positions(card: &Card) -> bool
    ensures { result ≡ bad_positions_spec card.now }
{
    let field = field_line(card);
    field.to < field.from || !holds_field(field.form, field.to - field.from + 1)
}

/// Whether factor 2 of a C card is malformed.
#[tactic(auto, unfolding(crate::specs::Combinations::has_bad_factor))]
pub fn has_bad_factor(card: &Card) -> bool
    ensures { result ≡ bad_factor_spec card.now }
{
    let entry = columns(card, calculation::FACTOR_2);
    !(are_blank(entry) || factor(longest_name(card), entry).is_some())
}

/// Whether length and decimals of a C card's result are out of their ranges.
#[tactic(auto, unfolding(crate::specs::Combinations::has_bad_definition))]
pub fn has_bad_definition(card: &Card) -> bool
    ensures { result ≡ bad_definition_spec card.now }
{
    match definition(
        columns(card, calculation::LENGTH),
        columns(card, calculation::DECIMALS),
    ) {
        None => false,
        Some(Shape::Alphanumeric(length)) => !is_text_in_range(length),
        Some(Shape::Numeric(digits, decimals)) => {
            !are_digits_in_range(u16::from(digits), decimals)
        }
    }
}

/// Whether column 16 of a line card has something else than the word ADD.
#[tactic(auto, unfolding(crate::specs::Combinations::has_bad_addition))]
pub fn has_bad_addition(card: &Card) -> bool
    ensures { result ≡ bad_addition_spec card.now }
{
    !is_addition(card) && are_filled(card, output::BEFORE_SPACES)
}

/// Whether the column of a space has something else than a space in its range.
pub fn is_wrong_space(columns: &[u8]) -> bool
    ensures { result ≡ not (is_blank_or (number_between 0 3) columns.now) }
{
    !(are_blank(columns) || small_between(columns, 0, 3).is_some())
}

/// Whether a space of a line card is out of its range. With ADD the columns have letters of that word.
#[tactic(auto, unfolding(crate::specs::Combinations::has_bad_space))]
fn has_bad_space(card: &Card) -> bool
    ensures { result ≡ bad_space_spec card.now }
{
    !is_addition(card)
        && (is_wrong_space(columns(card, output::SPACE_BEFORE))
            || is_wrong_space(columns(card, output::SPACE_AFTER)))
}

/// Whether a name is UDATE, UMONTH, UDAY or UYEAR.
pub fn is_of_date(name: Name) -> bool
    ensures { result ≡ of_date_spec name }
{
    is_reserved(&name) && name != PAGE
}

/// Whether a field card has both a field and a constant, or an entry that its field or constant can't have.
#[tactic(auto, unfolding(crate::specs::Combinations::has_bad_content))]
fn has_bad_content(card: &Card) -> bool
    ensures { result ≡ bad_content_spec card.now }
{
    let is_edited = are_filled(card, output::EDIT_CODE);
    let is_blanked = are_filled(card, output::BLANK_AFTER);
    let is_packed = are_filled(card, output::PACKED);
    let is_field = are_filled(card, output::FIELD_NAME);
    (are_filled(card, output::CONSTANT) && (is_field || is_edited || is_blanked || is_packed))
        || (is_field && is_edited && is_packed)
        || (is_blanked && is_of_date(Name::of(columns(card, output::FIELD_NAME))))
}

/// Whether a field card has no field and no constant.
pub fn has_no_content(card: &Card) -> bool
    ensures { result ≡ no_content_spec card.now }
{
    are_blank(columns(card, output::FIELD_NAME)) && are_blank(columns(card, output::CONSTANT))
}

/// Whether a constant would begin before position 1.
fn begins_too_early(end: Option<u16>, columns: &[u8]) -> bool
    requires { length columns.now ≤ 26 }
    ensures { result ≡ too_early_spec end (constant_text columns.now) }
{
    match (end, constant(columns)) {
        (Some(end), Some(constant)) => end < u16::from(constant.length),
        (None, _) | (_, None) => false,
    }
}

/// Whether the constant of a field card would begin before position 1.
#[tactic(auto, unfolding(crate::specs::Combinations::has_early_constant))]
pub fn has_early_constant(card: &Card) -> bool
    ensures { result ≡ early_constant_spec card.now }
{
    begins_too_early(
        number(columns(card, output::END_POSITION)),
        columns(card, output::CONSTANT),
    )
}

/// The faults of columns of a card of this kind that are read together: a record length and its device, a key and its record,
/// decimals and digits, a field or a constant.
pub fn combined_faults(kind: CardKind, card: &Card) -> Faults
    ensures { result ≡ combined_faults_spec kind card.now }
{
    match kind {
        CardKind::File => Faults {
            entry: has_stray_entry(card),
            name: false,
            number: has_bad_extent(card),
        },
        CardKind::Field => Faults {
            entry: false,
            name: false,
            number: has_bad_positions(card),
        },
        CardKind::Calculation => Faults {
            entry: false,
            name: has_bad_factor(card),
            number: has_bad_definition(card),
        },
        CardKind::OutputLine => Faults {
            entry: has_bad_addition(card),
            name: false,
            number: has_bad_space(card),
        },
        CardKind::OutputField => Faults {
            entry: has_bad_content(card),
            name: has_no_content(card),
            number: has_early_constant(card),
        },
        CardKind::Comment
        | CardKind::Unknown
        | CardKind::Header
        | CardKind::Record
        | CardKind::RecordAnd
        | CardKind::RecordOr
        | CardKind::OutputAnd
        | CardKind::OutputOr => Faults::NONE,
    }
}
