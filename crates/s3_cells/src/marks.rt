//! How cells may differ from plain ones: another mark before the decimals, marks between thousands, an apostrophe before what a
//! spreadsheet would take for a formula, small letters.
ghost use Rattle.std.specs.Prelude.{◌≡◌, ◌==◌, ◌%◌, filter, map, not, ℕ, List, IfOk, IsTrue};
ghost use Rattle.std.specs.List.{list_all};
ghost use Rattle.s3_cells.specs.Inner.Marks.{are_in_place as are_in_place_spec, begins_with as begins_with_spec, capital as capital_spec, is_due as is_due_spec, is_formula_start as is_formula_start_spec, is_grouped as is_grouped_spec, is_risky as is_risky_spec, mark_in, mark_of, plain_number as plain_number_spec, swapped as swapped_spec, unguarded as unguarded_spec, ungrouped as ungrouped_spec};

use crate::numbers::{parts_of, without_sign};
use std::alloc::{AllocError, Global};

/// What is written before the decimals of a number.
#[derive(Clone, Copy)]
pub enum DecimalMark {
    /// A point.
    Point,
    /// A comma.
    Comma,
}

/// What a cell may have between the thousands of a number.
#[derive(Clone, Copy)]
pub enum Thousands {
    /// Nothing.
    Nothing,
    /// The point or the comma, whichever isn't before the decimals.
    OtherMark,
    /// A blank.
    Blank,
    /// An apostrophe.
    Apostrophe,
}

/// How the cells of numbers are written.
#[derive(Clone, Copy)]
pub struct NumberCells {
    /// What is before the decimals.
    pub decimal: DecimalMark,
    /// What a cell that is read may have between the thousands; none is written.
    pub thousands: Thousands,
}

/// How the cells of texts are written.
#[derive(Clone, Copy)]
pub struct TextCells {
    /// Whether an apostrophe is put before a text that a spreadsheet would take for a formula.
    pub safe: bool,
    /// Whether small letters in a cell are taken as capitals.
    pub capitals: bool,
}

impl NumberCells {
    /// With a point before the decimals, and nothing between thousands.
    pub const PLAIN: NumberCells = NumberCells {
        decimal: DecimalMark::Point,
        thousands: Thousands::Nothing,
    };
}

impl TextCells {
    /// The texts as they are.
    pub const PLAIN: TextCells = TextCells {
        safe: false,
        capitals: false,
    };
}

/// The character before the decimals.
pub fn mark(decimal: DecimalMark) -> u8
    ensures { result ≡ mark_of decimal }
{
    match decimal {
        DecimalMark::Point => b'.',
        DecimalMark::Comma => b',',
    }
}

/// A character of a number, with point and comma exchanged if a comma is before the decimals.
fn swapped(decimal: DecimalMark, byte: u8) -> u8
    ensures { result ≡ swapped_spec decimal byte }
{
    match decimal {
        DecimalMark::Point => byte,
        DecimalMark::Comma => {
            if byte == b'.' {
                b','
            } else if byte == b',' {
                b'.'
            } else {
                byte
            }
        }
    }
}

/// Whether cells of numbers are as `NumberCells::PLAIN` says.
pub fn is_plain(cells: NumberCells) -> bool
    ensures { IsTrue result → (cell : List ℕ) → plain_number_spec cells cell ≡ cell }
{
    match (cells.decimal, cells.thousands) {
        (DecimalMark::Point, Thousands::Nothing) => true,
        _ => false,
    }
}

/// The plain text of a number that a cell shows: with a point before the decimals, and without the marks between the thousands,
/// if each of them is in its place.
pub fn plain_number(alloc: Global, cells: NumberCells, cell: &[u8]) -> Result<Vec<u8>, AllocError>
    ensures { IfOk result (λ plain. plain.items ≡ plain_number_spec cells cell.now) }
{
    let text = with_point(alloc, cells.decimal, cell)?;
    match mark_between(cells.thousands) {
        Some(mark) => ungrouped(alloc, mark, text),
        None => Ok(text),
    }
}

/// The text of a number with a point before the decimals.
fn with_point(alloc: Global, decimal: DecimalMark, cell: &[u8]) -> Result<Vec<u8>, AllocError>
    ensures { IfOk result (λ text. text.items ≡ map (swapped_spec decimal) cell.now) }
{
    let mut text = Vec::new(alloc);
    for byte in cell {
        text.push(swapped(decimal, *byte))?;
    }
    Ok(text)
}

/// The mark between thousands, if there is one, when a point is before the decimals.
fn mark_between(thousands: Thousands) -> Option<u8>
    ensures { result ≡ mark_in thousands }
{
    match thousands {
        Thousands::Nothing => None,
        Thousands::OtherMark => Some(b','),
        Thousands::Blank => Some(b' '),
        Thousands::Apostrophe => Some(b'\''),
    }
}

/// A number without the marks between its thousands, if each of them is in its place.
fn ungrouped(alloc: Global, mark: u8, text: Vec<u8>) -> Result<Vec<u8>, AllocError>
    ensures { IfOk result (λ plain. plain.items ≡ ungrouped_spec mark text.items) }
{
    if is_grouped(mark, &text) {
        without_marks(alloc, mark, &text)
    } else {
        Ok(text)
    }
}

/// Whether marks are before each three digits that end the whole part of a number, and nowhere else in it.
fn is_grouped(mark: u8, text: &[u8]) -> bool
    ensures { result ≡ is_grouped_spec mark text.now }
{
    let (whole, fraction) = parts_of(without_sign(text));
    !begins_with(mark, whole) && are_in_place(mark, whole) && has_no_mark(mark, fraction)
}

/// Whether a text begins with a mark.
fn begins_with(mark: u8, text: &[u8]) -> bool
    ensures { result ≡ begins_with_spec mark text.now }
{
    match text.first() {
        Some(first) => *first == mark,
        None => false,
    }
}

/// Whether none of these characters is the mark.
fn has_no_mark(mark: u8, text: &[u8]) -> bool
    ensures { result ≡ list_all (λ byte. not (byte == mark)) text.now }
{
    text.iter().all(|byte| *byte != mark)
}

/// Whether a mark is at each fourth place from the end, and at no other.
#[tactic(auto, using(crate::proofs::MarkLemmas::one_more_in_place, crate::proofs::MarkLemmas::one_out_of_place, crate::proofs::MarkLemmas::none_left))]
fn are_in_place(mark: u8, whole: &[u8]) -> bool
    ensures { result ≡ are_in_place_spec mark whole.now }
{
    for (place, byte) in whole.iter().enumerate() {
        if !is_due(*byte == mark, whole.len() - place) {
            return false;
        }
    }
    true
}

/// Whether a mark is at the place from which so many characters are left, if it has to be there.
fn is_due(here: bool, left: usize) -> bool
    ensures { result ≡ is_due_spec (left % 4 == 0) here }
{
    if left % 4 == 0 { here } else { !here }
}

/// A text without the marks in it.
#[tactic(auto, using(std::proofs::lemmas::List::Elements::filter_more))]
fn without_marks(alloc: Global, mark: u8, text: &[u8]) -> Result<Vec<u8>, AllocError>
    ensures { IfOk result (λ plain. plain.items ≡ filter (λ byte. not (byte == mark)) text.now) }
{
    let mut plain = Vec::new(alloc);
    for byte in text {
        if *byte != mark {
            plain.push(*byte)?;
        }
    }
    Ok(plain)
}

/// Whether a spreadsheet takes a text that begins with this character for a formula.
fn is_formula_start(byte: u8) -> bool
    ensures { result ≡ is_formula_start_spec byte }
{
    byte == b'=' || byte == b'+' || byte == b'-' || byte == b'@'
}

/// Whether the first character of a text that is no apostrophe begins a formula.
#[tactic(auto, using(crate::proofs::MarkLemmas::one_more_apostrophe, crate::proofs::MarkLemmas::first_other, crate::proofs::MarkLemmas::apostrophes_alone))]
pub fn is_risky(text: &[u8]) -> bool
    ensures { result ≡ is_risky_spec text.now }
{
    for byte in text {
        if *byte != b'\'' {
            return is_formula_start(*byte);
        }
    }
    false
}

/// A cell without the apostrophe that guards it.
pub fn unguarded(cells: TextCells, cell: &[u8]) -> &[u8]
    ensures { result.now ≡ unguarded_spec cells cell.now }
{
    match cell.split_first() {
        Some((first, rest)) if cells.safe && *first == b'\'' && is_risky(rest) => rest,
        _ => cell,
    }
}

/// The capital of a small letter; any other character as it is.
fn capital(byte: u8) -> u8
    ensures { result ≡ capital_spec byte }
{
    if b'a' <= byte && byte <= b'z' {
        byte - 32
    } else {
        byte
    }
}

/// A text with capitals in place of small letters.
pub fn capitals_of(alloc: Global, text: &[u8]) -> Result<Vec<u8>, AllocError>
    ensures { IfOk result (λ capitals. capitals.items ≡ map capital_spec text.now) }
{
    let mut capitals = Vec::new(alloc);
    for byte in text {
        capitals.push(capital(*byte))?;
    }
    Ok(capitals)
}
