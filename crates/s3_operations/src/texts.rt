//! The texts of fields, by slot.
ghost use Rattle.std.specs.Prelude.{◌≡◌, ◌≤◌, ◌+◌, ◌-◌, ◌++◌, IfOk, OnOk, length, replicate};
ghost use Rattle.s3_meaning.specs.Calculating.{moved_right, zoned};
ghost use Rattle.s3_operations.specs.Inner.Texts.{Area, IsAdded, IsCut, length_of as length_of_spec};

use crate::constants::{slots_of, text_of};
use crate::laying::{Size, lay, lay_within};
use s3_cards::ebcdic::BLANK;
use s3_decimal::{Dec, zoned_write};
use s3_lines::sheet::Shape;
use s3_program::program::Program;
use std::alloc::{AllocError, Global};
use std::marker::Model;

/// How many digits a number has at most.
pub(crate) const MOST_DIGITS: usize = 15;

/// How many bytes texts have on average, about: the space of texts that need more grows.
const USUAL_LENGTH: usize = 6;

/// Where the text of a slot lies.
#[derive(Clone, Copy)]
pub struct Span {
    /// Its first byte.
    pub from: usize,
    /// The place after its last byte.
    pub to: usize,
}

impl Span {
    /// How many bytes it has.
    pub fn len(self) -> usize
        requires { self.from ≤ self.to }
        ensures { result ≡ self.to - self.from }
    {
        self.to - self.from
    }
}

/// The texts of fields, by slot, one after the other; each keeps its length. A number has an empty text.
#[derive(Drop)]
pub struct Texts {
    bytes: Vec<u8>,
    spans: Vec<Span>,
}

impl Model for Texts {
    ghost Value = { Area };

    ghost view = { λ t. record { spans = t.spans.items; bytes = t.bytes.items } };

    ghost invariant = { λ t. IsCut t.spans.items t.bytes.items };
}

/// How many characters a field has.
fn length_of(shape: Shape) -> usize
    ensures { result ≡ length_of_spec shape }
{
    match shape {
        Shape::Alphanumeric(length) => usize::from(length),
        Shape::Numeric(_, _) => 0,
    }
}

fn add_blanks(bytes: &mut Vec<u8>, count: usize) -> Result<(), AllocError>
    ensures { OnOk result (bytes.new.items ≡ bytes.old.items ++ replicate count BLANK) }
{
    let whole = bytes.len().saturating_add(count);
    bytes.resize(whole, BLANK)
}

/// Adds a blank text of so many characters after the others.
fn add_blank(bytes: &mut Vec<u8>, spans: &mut Vec<Span>, count: usize) -> Result<(), AllocError>
    ensures { OnOk result (IsAdded spans.old.items bytes.old.items spans.new.items bytes.new.items (replicate count BLANK)) }
{
    let from = bytes.len();
    add_blanks(bytes, count)?;
    let to = bytes.len();
    spans.push(Span { from, to })?;
    Ok(())
}

/// Adds a text after the others.
fn add_text(bytes: &mut Vec<u8>, spans: &mut Vec<Span>, text: &[u8]) -> Result<(), AllocError>
    ensures { OnOk result (IsAdded spans.old.items bytes.old.items spans.new.items bytes.new.items text.now) }
{
    let from = bytes.len();
    bytes.extend_from_slice(text)?;
    let to = bytes.len();
    spans.push(Span { from, to })?;
    Ok(())
}

/// Lays a text over another one of a fixed length, right to right.
fn overlay_right(target: &mut [u8], text: &[u8])
    ensures { target.new ≡ moved_right text.now target.old }
{
    let count = target.len().min(text.len());
    let kept = target.len() - count;
    lay(&mut target[kept..], &text[text.len() - count..]);
}

/// Lays the zoned bytes of a number over a text that is shorter, right to right.
#[inline(never)]
fn overlay_long_number(target: &mut [u8], number: Dec)
    ensures { target.new ≡ moved_right (zoned number.digits number.value) target.old }
{
    let mut buffer = [0; MOST_DIGITS];
    let digits = &mut buffer[..usize::from(number.digits)];
    zoned_write(number, digits);
    overlay_right(target, digits);
}

/// Lays the zoned bytes of a number over a text from the right. If they fit, they are written directly into it.
fn overlay_number(target: &mut [u8], number: Dec)
    ensures { target.new ≡ moved_right (zoned number.digits number.value) target.old }
{
    let count = usize::from(number.digits);
    if count > target.len() {
        overlay_long_number(target, number);
    } else {
        let kept = target.len() - count;
        zoned_write(number, &mut target[kept..]);
    }
}

/// Makes a text blank.
fn overlay_blanks(target: &mut [u8])
    ensures { target.new ≡ replicate (length target.old) BLANK }
{
    target.fill(BLANK);
}

impl Texts {
    ghost use Rattle.std.specs.Prelude.{◌≡◌, ◌<◌, ◌++◌, Some, length, map, replicate, slice_get};
    ghost use Rattle.std.specs.List.{copy_within};
    ghost use Rattle.s3_operations.specs.Inner.Constants.{constants};
    ghost use Rattle.s3_operations.specs.Inner.Held.{HasTexts};
    ghost use Rattle.s3_operations.specs.Inner.Texts.{IsSize, LiesIn, blank_texts, text_on, texts_of, with_part};

    /// A blank text for each field of a program, and after these the texts of its constants; refused only if memory runs out.
    pub fn of(alloc: Global, program: &Program) -> Result<Texts, AllocError>
        ensures texts { IfOk result (λ texts. texts_of texts ≡ blank_texts program.now.fields.items ++ map (λ constant. constant.text) (constants program.now)) }
        ensures area { IfOk result (HasTexts program.now) }
    {
        let slots = slots_of(program);
        let mut bytes = Vec::with_capacity(alloc, slots.saturating_mul(USUAL_LENGTH))?;
        let mut spans = Vec::with_capacity(alloc, slots)?;
        for field in &program.fields {
            add_blank(&mut bytes, &mut spans, length_of(field.meaning))?;
        }
        add_text(&mut bytes, &mut spans, &[])?;
        for card in &program.calculations {
            add_text(&mut bytes, &mut spans, text_of(&card.factor1))?;
            add_text(&mut bytes, &mut spans, text_of(&card.factor2))?;
        }
        Ok(Texts { bytes, spans })
    }

    /// The text of a slot.
    pub fn text(&self, slot: usize) -> &[u8]
        requires { slot < length self.now.spans }
        ensures { slice_get (texts_of self.now) slot ≡ Some result.now }
    {
        let span = self.spans[slot];
        &self.bytes[span.from..span.to]
    }

    /// Where the text of a slot lies.
    pub fn span(&self, slot: usize) -> Span
        requires { slot < length self.now.spans }
        ensures there { slice_get self.now.spans slot ≡ Some result }
        ensures lies { LiesIn self.now result }
    {
        self.spans[slot]
    }

    /// The text that lies there.
    pub fn part(&self, span: Span) -> &[u8]
        requires { LiesIn self.now span }
        ensures { result.now ≡ text_on self.now.bytes span }
    {
        &self.bytes[span.from..span.to]
    }

    /// Puts a text in the place of the text at a span, which has the same length.
    pub fn put(&mut self, span: Span, text: &[u8])
        requires lies { LiesIn self.old span }
        requires same { length text.now ≡ span.to - span.from }
        ensures { self.new ≡ with_part self.old span text.now }
    {
        lay(&mut self.bytes[span.from..span.to], text);
    }

    /// Copies the bytes of a span, which has this size, over those from a place on, up to another place. The two may overlap.
    pub fn copy(&mut self, from: Span, to: usize, till: usize, size: Size)
        requires lies { LiesIn self.old from }
        requires target { till ≡ to + (from.to - from.from) }
        requires room { till ≤ length self.old.bytes }
        requires size { IsSize size (from.to - from.from) }
        ensures { self.new ≡ record self.old { bytes = copy_within self.old.bytes from.from from.to to } }
    {
        lay_within(&mut self.bytes, from.from, from.to, to, till, size);
    }

    /// Moves the zoned bytes of a number into the text that lies there, right to right.
    pub fn put_number(&mut self, span: Span, number: Dec)
        requires { LiesIn self.old span }
        ensures { self.new ≡ with_part self.old span (moved_right (zoned number.digits number.value) (text_on self.old.bytes span)) }
    {
        overlay_number(&mut self.bytes[span.from..span.to], number);
    }

    /// Makes the text that lies there blank.
    pub fn clear(&mut self, span: Span)
        requires { LiesIn self.old span }
        ensures { self.new ≡ with_part self.old span (replicate (span.to - span.from) BLANK) }
    {
        overlay_blanks(&mut self.bytes[span.from..span.to]);
    }
}
