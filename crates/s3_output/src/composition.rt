//! A record as it is composed.
ghost use Rattle.std.specs.Prelude.{◌≡◌, ◌+◌, ◌-◌, ◌*◌, ◌≤◌, ◌<◌, ◌++◌, List, ℕ, Option, Some, IfOk, true, false, is_some, length, map, take, drop, replicate, slice_get};
ghost use Rattle.s3_cards.specs.declared.ebcdic.TheConstants.{BLANK};
ghost use Rattle.s3_meaning.specs.Output.{filled, laid};
ghost use Rattle.s3_output.specs.Inner.Compositions.{IsComposed, positions_in, first_position};
ghost use Rattle.s3_output.specs.Inner.Numbers.{FitsNumber, number_of};

use crate::numbers::{NumberForm, put_number};
use s3_cards::ebcdic::BLANK;
use s3_operations::laying::lay;
use std::alloc::{AllocError, Global};
use std::marker::Model;

/// The longest record, in bytes.
pub const LONGEST_RECORD: usize = 1024;

/// The longest line that is printed.
const LONGEST_PRINT_LINE: usize = 132;

/// Something is put everywhere.
static ALL_PUT: [bool; LONGEST_RECORD] = [true; LONGEST_RECORD];

/// A record as it is composed, of up to 1,024 positions: what is put at each of them, if anything is. Its positions are on the
/// heap, so that a run that is moved doesn't copy them.
#[derive(Drop)]
pub struct Composition {
    /// A blank where nothing is put.
    codes: Box<[u8; LONGEST_RECORD]>,
    /// The positions at which something is put, if they are recorded.
    put: Box<[bool; LONGEST_RECORD]>,
    length: usize,
    /// Whether the positions at which something is put are recorded. If not, a blank is put wherever nothing else is.
    is_told: bool,
}

impl Model for Composition {
    ghost Value = { List (Option ℕ) };

    ghost view = { λ c. take c.length (positions_in c.is_told c.put.value c.codes.value) };

    ghost invariant = { λ c. IsComposed c.length c.is_told c.put.value c.codes.value };
}

/// Lays a content over a text, up to an end position.
fn overlay(text: &mut [u8], end: usize, content: &[u8])
    requires begins { length content.now ≤ end }
    requires ends { end ≤ length text.old }
    ensures { text.new ≡ take (end - length content.now) text.old ++ content.now ++ drop end text.old }
{
    lay(&mut text[end - content.len()..end], content);
}

/// Writes a number over a text, up to an end position, as its field is written.
fn overlay_number(text: &mut [u8], end: usize, number: i64, form: &NumberForm)
    requires fits { FitsNumber number form.now end }
    requires ends { end ≤ length text.old }
    ensures { text.new ≡ take (end - length (number_of number form.now)) text.old ++ number_of number form.now ++ drop end text.old }
{
    put_number(number, form, &mut text[end - form.width..end]);
}

/// Marks a field that is as long as some marks, or up to twice as long: they are laid at both of its ends.
#[inline(always)]
fn mark_ends(marks: &[bool], field: &mut [bool])
    requires marks { (i : ℕ) → i < length marks.now → slice_get marks.now i ≡ Some true }
    requires reaches { length marks.now ≤ length field.old }
    requires covers { length field.old ≤ 2 * length marks.now }
    ensures { (i : ℕ) → i < length field.old → slice_get field.new i ≡ Some true }
{
    let last = field.len() - marks.len();
    field[..marks.len()].copy_from_slice(marks);
    field[last..].copy_from_slice(marks);
}

/// Marks a field of any length.
#[inline(never)]
fn mark_all(field: &mut [bool])
    ensures { field.new ≡ replicate (length field.old) true }
{
    field.fill(true);
}

/// Marks a field: one of a usual length by its two ends, which may lie over each other.
#[tactic(auto, using(crate::proofs::CompositionLemmas::all_marked))]
fn mark_field(field: &mut [bool])
    ensures { field.new ≡ replicate (length field.old) true }
{
    match field.len() {
        4..=8 => mark_ends(&[true; 4], field),
        9..=16 => mark_ends(&[true; 8], field),
        _ => mark_all(field),
    }
}

/// Records that something is put at so many positions, up to an end position, if that is recorded.
#[inline(always)]
fn mark(put: &mut [bool], is_told: bool, end: usize, count: usize)
    requires begins { count ≤ end }
    requires ends { end ≤ length put.old }
    ensures { is_told ≡ true → put.new ≡ take (end - count) put.old ++ replicate count true ++ drop end put.old }
{
    if is_told {
        mark_field(&mut put[end - count..end]);
    }
}

/// Makes the first positions of a text blank; as many as a printed line has are so in few steps.
fn blank(codes: &mut [u8; LONGEST_RECORD], count: usize)
    requires { count ≤ length codes.old }
    ensures whole { length codes.new ≡ 1024 }
    ensures blanks { take count codes.new ≡ replicate count BLANK }
{
    if count <= LONGEST_PRINT_LINE {
        codes[..LONGEST_PRINT_LINE].fill(BLANK);
    } else {
        codes.fill(BLANK);
    }
}

/// Records that nothing is put at the first positions, if that is recorded.
fn unmark(put: &mut [bool], is_told: bool, count: usize)
    requires { count ≤ length put.old }
    ensures { is_told ≡ true → take count put.new ≡ replicate count false }
{
    if is_told {
        put[..count].fill(false);
    }
}

impl Composition {
    /// No record yet; refused only if memory runs out.
    pub fn new(alloc: Global) -> Result<Composition, AllocError>
        ensures { IfOk result (λ composition. length composition ≡ 0) }
    {
        Ok(Composition {
            codes: Box::new(alloc, [BLANK; LONGEST_RECORD])?,
            put: Box::new(alloc, [false; LONGEST_RECORD])?,
            length: 0,
            is_told: false,
        })
    }

    /// Begins a record of a length: one in which nothing is put yet, or one of blanks if the positions needn't be recorded.
    pub fn clear(&mut self, length: usize, is_told: bool)
        requires { length ≤ 1024 }
        ensures { self.new ≡ replicate length (first_position is_told) }
    {
        blank(self.codes.as_mut(), length);
        unmark(self.put.as_mut(), is_told, length);
        self.length = length;
        self.is_told = is_told;
    }

    /// Lays a content over the record, up to an end position.
    #[inline(always)]
    pub fn lay(&mut self, end: usize, content: &[u8])
        requires begins { length content.now ≤ end }
        requires ends { end ≤ length self.old }
        ensures size { length self.new ≡ length self.old }
        ensures value { self.new ≡ laid end content.now self.old }
    {
        overlay(self.codes.as_mut(), end, content);
        mark(self.put.as_mut(), self.is_told, end, content.len());
    }

    /// Lays a number over the record, up to an end position, as its field is written.
    #[inline(always)]
    pub fn lay_number(&mut self, end: usize, number: i64, form: &NumberForm)
        requires fits { FitsNumber number form.now end }
        requires ends { end ≤ length self.old }
        ensures size { length self.new ≡ length self.old }
        ensures value { self.new ≡ laid end (number_of number form.now) self.old }
    {
        overlay_number(self.codes.as_mut(), end, number, form);
        mark(self.put.as_mut(), self.is_told, end, form.width);
    }

    /// The record as it is written, blank where nothing is put.
    pub fn codes(&self) -> &[u8]
        ensures { result.now ≡ filled self.now }
    {
        &self.codes[..self.length]
    }

    /// For each position whether something is put there. If the positions aren't recorded, it is true for all of them.
    pub fn marks(&self) -> &[bool]
        ensures { result.now ≡ map is_some self.now }
    {
        if self.is_told {
            &self.put[..self.length]
        } else {
            &ALL_PUT[..self.length]
        }
    }
}
