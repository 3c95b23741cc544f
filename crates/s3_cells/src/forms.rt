//! Values by the form of their field: shown from its bytes, and put into them.
ghost use Rattle.std.specs.Prelude.{◌≡◌, ◌-◌, ◌*◌, ◌+◌, ◌<◌, ◌≤◌, ◌^◌, ◌++◌, true, false, drop, length, pos, take, unsigned_abs, Some, OnOk, OnErr, IfOk, IfErr};
ghost use Rattle.s3_cells.specs.Inner.Marks.{guarded, plain_number as plain_number_spec};
ghost use Rattle.s3_cells.specs.Inner.Numbers.{number_read};
ghost use Rattle.s3_cells.specs.Inner.Refusals.{IsHidden, IsNumberRefusal, IsRefusal};
ghost use Rattle.s3_cells.specs.Inner.Texts.{trimmed as trimmed_spec};
ghost use Rattle.s3_cells.specs.Inner.Values.{GetsText, GetsValue, SaysNone, cell_text, is_kind_of, is_shown_in, is_text_of, value_in, zeroed_bytes};
ghost use Rattle.s3_cells.specs.declared.kind.FieldKind.TheVariants.{Text as TextKind, Zoned, Packed};

use crate::dates::{DateField, take_date};
use crate::fault::{CellFault, ShowFault};
use crate::kind::FieldKind;
use crate::marks::{
    NumberCells, TextCells, capitals_of, is_plain, is_risky, plain_number, unguarded,
};
use crate::numbers::{push_number, read_number};
use crate::texts::{have_codes, place_without_character, push_text, put_text, trimmed};
use s3_cards::ebcdic::DIGIT_0;
use s3_decimal::{Dec, packed_read, packed_write, zoned_read, zoned_write};
use std::alloc::{AllocError, Global};

/// Appends the text of a field that begins at byte `start` of its record.
pub fn show_text(
    cells: TextCells,
    bytes: &[u8],
    start: u16,
    cell: &mut Vec<u8>,
) -> Result<(), ShowFault>
    ensures ok { OnOk result (cell.new.items ≡ cell.old.items ++ cell_text (TextKind cells) (value_in (TextKind cells) bytes.now)) }
    ensures shown { OnOk result (is_shown_in (TextKind cells) bytes.now ≡ true) }
    ensures err { IfErr result (IsHidden (is_shown_in (TextKind cells) bytes.now)) }
{
    if let Some(place) = place_without_character(bytes) {
        return Err(ShowFault::NoCharacter(position_of(start, place)));
    }
    let before = cell.len();
    push_text(cell, bytes)?;
    guard(cells, before, cell)?;
    Ok(())
}

/// Puts an apostrophe before the text from a place on, if it needs one.
fn guard(cells: TextCells, before: usize, cell: &mut Vec<u8>) -> Result<(), AllocError>
    requires { before ≤ length cell.old.items }
    ensures { OnOk result (cell.new.items ≡ take before cell.old.items ++ guarded cells (drop before cell.old.items)) }
{
    if cells.safe && is_risky(&cell[before..]) {
        cell.insert(before, b'\'')?;
    }
    Ok(())
}

/// The position in its record, from 1, of a byte of a field that begins at byte `start`.
fn position_of(start: u16, place: usize) -> u16 {
    let position = usize::from(start).saturating_add(place).saturating_add(1);
    u16::try_from(position).unwrap_or(u16::MAX)
}

/// Appends the number of a zoned field.
pub fn show_zoned(
    decimals: u8,
    cells: NumberCells,
    bytes: &[u8],
    cell: &mut Vec<u8>,
) -> Result<(), ShowFault>
    requires { is_kind_of (Zoned decimals cells) (length bytes.now) ≡ true }
    ensures ok { OnOk result (cell.new.items ≡ cell.old.items ++ cell_text (Zoned decimals cells) (value_in (Zoned decimals cells) bytes.now)) }
    ensures shown { OnOk result (is_shown_in (Zoned decimals cells) bytes.now ≡ true) }
    ensures err { IfErr result (IsHidden (is_shown_in (Zoned decimals cells) bytes.now)) }
{
    match zoned_read(bytes, decimals) {
        Ok(number) => {
            push_number(cell, number.value, decimals, cells.decimal)?;
            Ok(())
        }
        Err(_) => Err(ShowFault::NoNumber),
    }
}

/// Appends the number of a packed field.
pub fn show_packed(
    decimals: u8,
    cells: NumberCells,
    bytes: &[u8],
    cell: &mut Vec<u8>,
) -> Result<(), ShowFault>
    requires { is_kind_of (Packed decimals cells) (length bytes.now) ≡ true }
    ensures ok { OnOk result (cell.new.items ≡ cell.old.items ++ cell_text (Packed decimals cells) (value_in (Packed decimals cells) bytes.now)) }
    ensures shown { OnOk result (is_shown_in (Packed decimals cells) bytes.now ≡ true) }
    ensures err { IfErr result (IsHidden (is_shown_in (Packed decimals cells) bytes.now)) }
{
    match packed_read(bytes, decimals) {
        Ok(number) => {
            push_number(cell, number.value, decimals, cells.decimal)?;
            Ok(())
        }
        Err(_) => Err(ShowFault::NoNumber),
    }
}

/// Puts the value of a cell into the bytes of a field.
pub fn take_into(
    alloc: Global,
    kind: FieldKind,
    cell: &[u8],
    bytes: &mut [u8],
) -> Result<(), CellFault>
    requires { is_kind_of kind (length bytes.old) ≡ true }
    ensures ok { OnOk result (GetsValue kind cell.now (length bytes.old) bytes.new) }
    ensures err { IfErr result (IsRefusal (SaysNone kind cell.now (length bytes.old))) }
    ensures same { OnErr result (bytes.new ≡ bytes.old) }
{
    match kind {
        FieldKind::Text(cells) => take_text(alloc, cells, cell, bytes),
        FieldKind::Zoned(decimals, cells) => take_zoned(alloc, decimals, cells, cell, bytes),
        FieldKind::Packed(decimals, cells) => take_packed(alloc, decimals, cells, cell, bytes),
        FieldKind::Date(form) => take_date(form, cell, bytes),
    }
}

/// Puts the text of a cell into a field's bytes.
#[tactic(auto, using(crate::proofs::Cells::refused_text))]
fn take_text(
    alloc: Global,
    cells: TextCells,
    cell: &[u8],
    bytes: &mut [u8],
) -> Result<(), CellFault>
    ensures ok { OnOk result (GetsValue (TextKind cells) cell.now (length bytes.old) bytes.new) }
    ensures err { IfErr result (IsRefusal (SaysNone (TextKind cells) cell.now (length bytes.old))) }
    ensures same { OnErr result (bytes.new ≡ bytes.old) }
{
    let text = unguarded(cells, cell);
    if cells.capitals {
        let capitals = capitals_of(alloc, text)?;
        take_characters(&capitals, bytes)
    } else {
        take_characters(text, bytes)
    }
}

/// Puts a text without the blanks at its end into a field's bytes.
fn take_characters(text: &[u8], bytes: &mut [u8]) -> Result<(), CellFault>
    ensures ok { OnOk result (GetsText (trimmed_spec text.now) (length bytes.old) bytes.new) }
    ensures err { IfErr result (IsRefusal (is_text_of (length bytes.old) (trimmed_spec text.now) ≡ false)) }
    ensures same { OnErr result (bytes.new ≡ bytes.old) }
{
    let characters = trimmed(text);
    if !have_codes(characters) {
        return Err(CellFault::NoCharacter);
    }
    if characters.len() > bytes.len() {
        return Err(CellFault::TooLong);
    }
    put_text(characters, bytes);
    Ok(())
}

/// Puts the number of a cell into the bytes of a zoned field.
fn take_zoned(
    alloc: Global,
    decimals: u8,
    cells: NumberCells,
    cell: &[u8],
    bytes: &mut [u8],
) -> Result<(), CellFault>
    requires { is_kind_of (Zoned decimals cells) (length bytes.old) ≡ true }
    ensures ok { OnOk result (GetsValue (Zoned decimals cells) cell.now (length bytes.old) bytes.new) }
    ensures err { IfErr result (IsRefusal (SaysNone (Zoned decimals cells) cell.now (length bytes.old))) }
    ensures same { OnErr result (bytes.new ≡ bytes.old) }
{
    let digits = bytes.len() as u8;
    let value = read_cell(alloc, cells, cell, digits, decimals)?;
    zoned_write(
        Dec {
            value,
            digits,
            decimals,
        },
        bytes,
    );
    Ok(())
}

/// Puts the number of a cell into the bytes of a packed field.
fn take_packed(
    alloc: Global,
    decimals: u8,
    cells: NumberCells,
    cell: &[u8],
    bytes: &mut [u8],
) -> Result<(), CellFault>
    requires { is_kind_of (Packed decimals cells) (length bytes.old) ≡ true }
    ensures ok { OnOk result (GetsValue (Packed decimals cells) cell.now (length bytes.old) bytes.new) }
    ensures err { IfErr result (IsRefusal (SaysNone (Packed decimals cells) cell.now (length bytes.old))) }
    ensures same { OnErr result (bytes.new ≡ bytes.old) }
{
    let digits = (2 * bytes.len() - 1) as u8;
    let value = read_cell(alloc, cells, cell, digits, decimals)?;
    packed_write(
        Dec {
            value,
            digits,
            decimals,
        },
        bytes,
    );
    Ok(())
}

/// The number of a cell, in units of the last of so many decimals, if it has at most so many digits.
fn read_cell(
    alloc: Global,
    cells: NumberCells,
    cell: &[u8],
    digits: u8,
    decimals: u8,
) -> Result<i64, CellFault>
    requires { digits ≤ 15 }
    ensures ok { IfOk result (λ value. number_read decimals (plain_number_spec cells cell.now) ≡ Some value) }
    ensures fits { IfOk result (λ value. unsigned_abs value < 10 ^ digits) }
    ensures err { IfErr result (IsNumberRefusal digits (number_read decimals (plain_number_spec cells cell.now))) }
{
    if is_plain(cells) {
        return read_number(cell, digits, decimals);
    }
    match plain_number(alloc, cells, cell) {
        Ok(plain) => read_number(&plain, digits, decimals),
        Err(_) => Err(CellFault::NoMemory),
    }
}

/// Puts 0 into the bytes of a number, and no date into those of a date that is a number.
pub fn zero_into(kind: FieldKind, bytes: &mut [u8])
    requires { is_kind_of kind (length bytes.old) ≡ true }
    ensures { bytes.new ≡ zeroed_bytes kind bytes.old }
{
    match kind {
        FieldKind::Zoned(decimals, cells) => zero_zoned(decimals, cells, bytes),
        FieldKind::Packed(decimals, cells) => zero_packed(decimals, cells, bytes),
        FieldKind::Date(DateField::Number) => bytes.fill(DIGIT_0),
        FieldKind::Text(_) | FieldKind::Date(DateField::Text) => {}
    }
}

fn zero_zoned(decimals: u8, _cells: NumberCells, bytes: &mut [u8])
    requires { is_kind_of (Zoned decimals _cells) (length bytes.old) ≡ true }
    ensures { bytes.new ≡ zeroed_bytes (Zoned decimals _cells) bytes.old }
{
    let digits = bytes.len() as u8;
    zoned_write(zero(digits, decimals), bytes);
}

fn zero_packed(decimals: u8, _cells: NumberCells, bytes: &mut [u8])
    requires { is_kind_of (Packed decimals _cells) (length bytes.old) ≡ true }
    ensures { bytes.new ≡ zeroed_bytes (Packed decimals _cells) bytes.old }
{
    let digits = (2 * bytes.len() - 1) as u8;
    packed_write(zero(digits, decimals), bytes);
}

/// The number 0 of so many digits.
#[tactic(auto, using(s3_decimal::proofs::Powers::ten_pos))]
fn zero(digits: u8, decimals: u8) -> Dec
    requires some { 1 ≤ digits }
    requires longest { digits ≤ 15 }
    requires few { decimals ≤ 9 }
    requires within { decimals ≤ digits }
    ensures value { result.value ≡ pos 0 }
    ensures digits { result.digits ≡ digits }
{
    Dec {
        value: 0,
        digits,
        decimals,
    }
}
