//! Cards in pieces: `% 6:H 75:LIST`.
ghost use Rattle.std.specs.Prelude.{◌≡◌, ◌==◌, ◌&&◌, ◌+◌, ◌<◌, ◌≤◌, ◌∷◌, IfOk, IfSome, Some, drop, false, length, map, not, option_map, position, if◌then◌else◌};
ghost use Rattle.std.specs.List.{slice_split};
ghost use Rattle.s3_punch.specs.Inner.Cards.{at_least_blank, column_of as column_of_spec, is_zero, of_parts as of_parts_spec, or_blank as or_blank_spec, parted as parted_spec, piece_at as piece_at_spec, piece_character, piece_of as piece_of_spec, with_piece as with_piece_spec, with_text};
ghost use Rattle.s3_punch.specs.Inner.Pieces.{parts_left, piece_seen};

use crate::characters::{TAB, shown};
use crate::stops::fill_up;
use s3_cards::{COLUMNS, number_spelled};
use std::alloc::{AllocError, Global};

/// A piece of a card.
#[derive(Clone, Copy)]
pub struct Piece<'a> {
    /// The column in which it begins, 1 to 96.
    pub column: usize,
    /// Its text.
    pub text: &'a [u8],
}

/// The text of a card in pieces, after its `%`, with 0 for each blank that is outside of apostrophes. A tab is a blank.
#[tactic(auto, using(crate::proofs::PieceLemmas::one_more_parted))]
pub fn part_text(alloc: Global, characters: &[char]) -> Result<Vec<u8>, AllocError>
    ensures { IfOk result (λ text. text.items ≡ parted_spec false (map piece_character characters.now)) }
{
    let mut text = Vec::new(alloc);
    let mut is_quoted = false;
    for character in characters {
        let byte = in_piece(*character);
        text.push(marked(byte, is_quoted))?;
        is_quoted = is_quoted_behind(byte, is_quoted);
    }
    Ok(text)
}

fn in_piece(character: char) -> u8
    ensures { result ≡ piece_character character }
{
    if character == TAB {
        b' '
    } else {
        shown(character)
    }
}

/// 0 for a blank outside of apostrophes, and any other byte itself.
fn marked(byte: u8, is_quoted: bool) -> u8
    ensures { result ≡ (if byte == 32 && not is_quoted then 0 else byte) }
{
    if byte == b' ' && !is_quoted { 0 } else { byte }
}

fn is_quoted_behind(byte: u8, is_quoted: bool) -> bool
    ensures { result ≡ (if byte == 39 then not is_quoted else is_quoted) }
{
    if byte == b'\'' { !is_quoted } else { is_quoted }
}

/// The place of the first such byte.
fn position_of(sought: u8, text: &[u8]) -> Option<usize>
    ensures value { result ≡ position (λ byte. byte == sought) text.now }
    ensures within { IfSome result (λ place. place < length text.now) }
{
    text.iter().position(|byte| *byte == sought)
}

/// What is after a place of a text.
fn behind(place: usize, text: &[u8]) -> &[u8]
    requires { place < length text.now }
    ensures value { result.now ≡ drop (place + 1) text.now }
    ensures width { place + 1 + length result.now ≡ length text.now }
{
    text.get(place + 1..).unwrap_or(&[])
}

/// The first part of a text that 0 parts, and what is after that 0, if there is one.
#[tactic(auto, using(crate::proofs::PieceLemmas::first_split_at, crate::proofs::PieceLemmas::one_split))]
pub fn first_part(text: &[u8]) -> (&[u8], Option<&[u8]>)
    ensures parts { slice_split is_zero text.now ≡ result.0.now ∷ parts_left (option_map (λ rest. rest.now) result.1) }
    ensures width { IfSome result.1 (λ rest. length result.0.now + 1 + length rest.now ≡ length text.now) }
    ensures within { length result.0.now ≤ length text.now }
{
    match position_of(0, text) {
        Some(end) => (&text[..end], Some(behind(end, text))),
        None => (text, None),
    }
}

/// The column that one or two digits spell, 1 to 96.
fn column_of(digits: &[u8]) -> Option<usize>
    ensures value { result ≡ column_of_spec digits.now }
    ensures within { IfSome result (λ column. (1 ≤ column) × (column ≤ 96)) }
{
    if digits.is_empty() || digits.len() > 2 {
        return None;
    }
    let column = number_spelled(b'0', digits)? as usize;
    if 1 <= column && column <= COLUMNS {
        Some(column)
    } else {
        None
    }
}

/// The piece that a part is, which has a colon at this place.
fn piece_at<'a>(part: &'a [u8], colon: usize) -> Option<Piece<'a>>
    requires { colon < length part.now }
    ensures value { option_map piece_seen result ≡ piece_at_spec part.now (Some colon) }
    ensures within { IfSome result (λ piece. (1 ≤ piece.column) × (piece.column ≤ 96)) }
{
    match column_of(&part[..colon]) {
        Some(column) => Some(Piece {
            column,
            text: behind(colon, part),
        }),
        None => None,
    }
}

/// The piece that a part is; `None` if it isn't a column from 1 to 96, a colon and a text.
pub fn piece_of<'a>(part: &'a [u8]) -> Option<Piece<'a>>
    ensures value { option_map piece_seen result ≡ piece_of_spec part.now }
    ensures within { IfSome result (λ piece. (1 ≤ piece.column) × (piece.column ≤ 96)) }
{
    match position_of(b':', part) {
        Some(colon) => piece_at(part, colon),
        None => None,
    }
}

/// A card with a piece in its columns. 0 is in columns that no piece has filled yet.
fn with_piece(alloc: Global, card: Vec<u8>, piece: &Piece<'_>) -> Result<Vec<u8>, AllocError>
    requires from { 1 ≤ piece.now.column }
    requires to { piece.now.column ≤ 96 }
    ensures { IfOk result (λ laid. laid.items ≡ with_text card.items piece.now.column piece.now.text.now) }
{
    let from = piece.column - 1;
    let to = from + piece.text.len();
    let mut wide = card;
    fill_up(&mut wide, to, 0)?;
    let mut laid = Vec::from_slice(alloc, &wide[..from])?;
    laid.extend_from_slice(piece.text)?;
    laid.extend_from_slice(&wide[to..])?;
    Ok(laid)
}

/// A card with a part laid onto it, if that is a piece.
pub fn with_part(alloc: Global, card: Vec<u8>, part: &[u8]) -> Result<Vec<u8>, AllocError>
    ensures { IfOk result (λ laid. laid.items ≡ with_piece_spec card.items (piece_of_spec part.now)) }
{
    match piece_of(part) {
        Some(piece) => with_piece(alloc, card, &piece),
        None => Ok(card),
    }
}

/// A card with a blank in each column that no piece has filled, one at least.
fn with_blanks(alloc: Global, card: &[u8]) -> Result<Vec<u8>, AllocError>
    ensures { IfOk result (λ whole. whole.items ≡ at_least_blank (map or_blank_spec card.now)) }
{
    if card.is_empty() {
        return Vec::from_slice(alloc, b" ");
    }
    card.iter().map(|byte| or_blank(*byte)).collect(alloc)
}

fn or_blank(byte: u8) -> u8
    ensures { result ≡ or_blank_spec byte }
{
    if byte == 0 { b' ' } else { byte }
}

/// The card of a text that 0 parts. A part that is no piece is passed over.
#[tactic(auto, using(crate::proofs::PieceLemmas::one_part_laid))]
pub fn of_parts(alloc: Global, text: &[u8]) -> Result<Vec<u8>, AllocError>
    ensures { IfOk result (λ card. card.items ≡ at_least_blank (of_parts_spec (slice_split is_zero text.now))) }
{
    let mut card = Vec::new(alloc);
    let mut left = Some(text);
    while let Some(rest) = left {
        let (part, behind) = first_part(rest);
        card = with_part(alloc, card, part)?;
        left = behind;
    }
    with_blanks(alloc, &card)
}
