//! The card of a line.
ghost use Rattle.std.specs.Prelude.{◌≡◌, ◌≤◌, ◌&&◌, IfOk, IsTrue, drop, length, take};
ghost use Rattle.std.specs.List.{list_any};
ghost use Rattle.bstr.specs.Utf8.{lossy_chars};
ghost use Rattle.s3_punch.specs.Inner.Cards.{card_by, finished, has_remark as has_remark_spec, is_at as is_at_spec, part_text as part_text_spec, pieced, without_remark as without_remark_spec, written as written_spec};
ghost use Rattle.s3_punch.specs.Inner.Parts.{is_mark};

use crate::form::LineForm;
use crate::layout::lay_out;
use crate::pieces::{of_parts, part_text};
use crate::stops::fill_up;
use bstr::ByteSlice;
use std::alloc::{AllocError, Global};

/// The last column before those of a remark.
const IN_FRONT_OF_REMARK: usize = 59;

/// The last column of a remark.
const REMARK_END: usize = 74;

/// The characters of a line, U+FFFD for bytes that are none.
pub fn characters_of(alloc: Global, line: &[u8]) -> Result<Vec<char>, AllocError>
    ensures { IfOk result (λ characters. characters.items ≡ lossy_chars line.now) }
{
    line.chars().collect(alloc)
}

/// The text of a line that begins with `%`, after the `%`, with 0 where it is parted.
pub fn text_of_pieces(alloc: Global, characters: &[char]) -> Result<Vec<u8>, AllocError>
    ensures { IfOk result (λ text. text.items ≡ part_text_spec characters.now) }
{
    part_text(alloc, characters.get(1..).unwrap_or(&[]))
}

/// Whether a card of a source is a C card, no comment, with something in columns 60 to 74.
fn has_remark(card: &[u8]) -> bool
    ensures value { result ≡ has_remark_spec card.now }
    ensures wide { IsTrue result → 59 ≤ length card.now }
{
    card.len() >= IN_FRONT_OF_REMARK
        && is_at(card, 5, b'C')
        && !is_at(card, 6, b'*')
        && has_marks(card)
}

/// Whether something is in columns 60 to 74.
fn has_marks(card: &[u8]) -> bool
    ensures { result ≡ list_any is_mark (take 15 (drop 59 card.now)) }
{
    card.iter()
        .skip(IN_FRONT_OF_REMARK)
        .take(REMARK_END - IN_FRONT_OF_REMARK)
        .any(|byte| *byte != b' ')
}

/// Whether a byte is at a place.
fn is_at(card: &[u8], place: usize, byte: u8) -> bool
    ensures { result ≡ is_at_spec card.now place byte }
{
    place < card.len() && card[place] == byte
}

/// A card of at least 59 columns with blanks in columns 60 to 74.
fn without_remark(alloc: Global, card: &[u8]) -> Result<Vec<u8>, AllocError>
    requires { 59 ≤ length card.now }
    ensures { IfOk result (λ blanked. blanked.items ≡ without_remark_spec card.now) }
{
    let to = REMARK_END.min(card.len());
    let mut blanked = Vec::from_slice(alloc, &card[..IN_FRONT_OF_REMARK])?;
    fill_up(&mut blanked, to, b' ')?;
    blanked.extend_from_slice(&card[to..])?;
    Ok(blanked)
}

/// The card of a line in pieces.
fn in_pieces(alloc: Global, characters: &[char]) -> Result<Vec<u8>, AllocError>
    ensures { IfOk result (λ card. card.items ≡ pieced characters.now) }
{
    let text = text_of_pieces(alloc, characters)?;
    of_parts(alloc, &text)
}

/// The card of a line that has it in this form, with its remark.
fn written(
    alloc: Global,
    is_source: bool,
    form: LineForm,
    characters: &[char],
) -> Result<Vec<u8>, AllocError>
    ensures { IfOk result (λ card. card.items ≡ written_spec form is_source characters.now) }
{
    match form {
        LineForm::InPieces => in_pieces(alloc, characters),
        LineForm::Plain => lay_out(alloc, is_source, characters),
    }
}

/// The card of a line.
#[derive(Drop)]
pub struct LineCard {
    /// Its bytes.
    pub bytes: Vec<u8>,
    /// Whether its remark was blanked.
    pub has_remark: bool,
}

/// A card as it comes out, with its remark blanked, if that is asked for and the card is of a source.
fn finish(
    alloc: Global,
    card: Vec<u8>,
    blanks_remarks: bool,
    is_source: bool,
) -> Result<LineCard, AllocError>
    ensures { IfOk result (λ finish. finish.bytes.items ≡ finished (blanks_remarks && is_source) card.items) }
{
    if blanks_remarks && is_source && has_remark(&card) {
        Ok(LineCard {
            bytes: without_remark(alloc, &card)?,
            has_remark: true,
        })
    } else {
        Ok(LineCard {
            bytes: card,
            has_remark: false,
        })
    }
}

/// The card of a line that has it in this form.
pub fn card_of(
    alloc: Global,
    blanks_remarks: bool,
    is_source: bool,
    form: LineForm,
    characters: &[char],
) -> Result<LineCard, AllocError>
    ensures { IfOk result (λ card. card.bytes.items ≡ card_by blanks_remarks is_source characters.now form) }
{
    let card = written(alloc, is_source, form, characters)?;
    finish(alloc, card, blanks_remarks, is_source)
}
