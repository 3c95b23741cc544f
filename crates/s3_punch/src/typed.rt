//! The places of a card's columns in the line from which it was punched.
ghost use Rattle.std.specs.Prelude.{◌≡◌, ◌≤◌, ◌<◌, ◌^◌, Some, length, true, false, IfOk};
ghost use Rattle.bstr.specs.Utf8.{lossy_chars};
ghost use Rattle.s3_punch.specs.Inner.Cards.{form_of as form_of_spec};
ghost use Rattle.s3_punch.specs.Inner.Typed.{column_after as column_after_spec, column_typed, filled_by, is_without_tabs, more_before as more_before_spec};
ghost use Rattle.s3_punch.specs.declared.form.LineForm.TheVariants.{Plain};

use crate::form::{LineForm, form_of};
use crate::layout::put;
use crate::line::{characters_of, text_of_pieces};
use crate::pieces::{Piece, first_part, piece_of};
use std::alloc::{AllocError, Global};

/// Columns of a card, from 1.
#[derive(Clone, Copy)]
pub struct CardColumns {
    /// The first one.
    pub from: usize,
    /// The last one.
    pub to: usize,
}

/// A column of a card, and the column of its line that has it.
#[derive(Clone, Copy)]
struct Spot {
    column: usize,
    in_line: usize,
}

/// How far a line fills its card.
#[derive(Clone, Copy)]
struct LineFill {
    /// How many columns the whole line fills.
    width: usize,
    /// After how many of its characters the card ends before a column.
    before: usize,
}

/// One more, if a card ends before a column.
fn more_before(width: usize, column: usize, before: usize) -> usize
    requires { before < 2 ^ 63 }
    ensures { result ≡ more_before_spec width column before }
{
    if width < column { before + 1 } else { before }
}

/// How far characters fill a card, seen from a column of it.
#[tactic(auto, using(crate::proofs::TypedLemmas::filled_more))]
fn fill_of(
    alloc: Global,
    is_source: bool,
    characters: &[char],
    column: usize,
) -> Result<LineFill, AllocError>
    ensures width { IfOk result (λ filled. filled.width ≡ length (filled_by is_source column characters.now).0) }
    ensures before { IfOk result (λ filled. filled.before ≡ (filled_by is_source column characters.now).1) }
    ensures within { IfOk result (λ filled. filled.before ≤ length characters.now) }
{
    let mut card = Vec::new(alloc);
    let mut before = 0;
    for character in characters {
        put(&mut card, is_source, *character)?;
        before = more_before(card.len(), column, before);
    }
    Ok(LineFill {
        width: card.len(),
        before,
    })
}

/// The column of a line that has a column of its card.
fn column_after(filled: LineFill, column: usize) -> usize
    requires few { filled.before < 2 ^ 63 }
    requires card { column ≤ 96 }
    ensures { result ≡ column_after_spec filled.width filled.before column }
{
    filled.before + column.saturating_sub(1).saturating_sub(filled.width) + 1
}

/// The column of a plain line that has a column of its card, or that would have it if the line were longer.
#[tactic(auto, using(crate::proofs::TypedLemmas::unmoved))]
fn plain_column(
    alloc: Global,
    is_source: bool,
    characters: &[char],
    column: usize,
) -> Result<usize, AllocError>
    requires { column ≤ 96 }
    ensures typed { IfOk result (λ found. found ≡ column_typed is_source column characters.now) }
    ensures unmoved { IfOk result (λ found. is_without_tabs characters.now ≡ true → 1 ≤ column → found ≡ column) }
{
    let filled = fill_of(alloc, is_source, characters, column)?;
    Ok(column_after(filled, column))
}

/// The first of some columns of a card that a piece has, if it has one. The piece's text begins at a column of the line.
fn spot_in(piece: &Piece<'_>, in_line: usize, columns: CardColumns) -> Option<Spot> {
    let first = piece.column.max(columns.from);
    let behind = piece.column.saturating_add(piece.text.len());
    if first > columns.to || first >= behind {
        return None;
    }
    Some(Spot {
        column: first,
        in_line: in_line.saturating_add(first.saturating_sub(piece.column)),
    })
}

/// The one of two spots that is further left on the card.
fn further_left(one: Option<Spot>, other: Option<Spot>) -> Option<Spot> {
    match (one, other) {
        (Some(first), Some(second)) if second.column < first.column => Some(second),
        (Some(first), _) => Some(first),
        (None, second) => second,
    }
}

/// The column of a line in pieces that has the first of some columns of its card, by the text after its `%`; 1 if no piece has any.
fn column_in_pieces(text: &[u8], columns: CardColumns) -> usize {
    let mut found = None;
    let mut in_line: usize = 2;
    let mut left = Some(text);
    while let Some(rest) = left {
        let (part, behind) = first_part(rest);
        if let Some(piece) = piece_of(part) {
            let before = part.len().saturating_sub(piece.text.len());
            found = further_left(
                found,
                spot_in(&piece, in_line.saturating_add(before), columns),
            );
        }
        in_line = in_line.saturating_add(part.len()).saturating_add(1);
        left = behind;
    }
    match found {
        Some(spot) => spot.in_line,
        None => 1,
    }
}

/// The column of a line of plain text, from 1, that has the first of some columns of the line's card. It counts characters. A line of
/// statements has the tab stops of statements, a line of a source those of its sheet. In a line in pieces it is the column of the first
/// character that is in one of the columns.
pub fn typed_column(
    alloc: Global,
    is_source: bool,
    line: &[u8],
    columns: CardColumns,
) -> Result<usize, AllocError>
    requires { columns.from ≤ 96 }
    ensures typed { IfOk result (λ found. form_of_spec false (lossy_chars line.now) ≡ Some Plain → found ≡ column_typed is_source columns.from (lossy_chars line.now)) }
    ensures unmoved { IfOk result (λ found. form_of_spec false (lossy_chars line.now) ≡ Some Plain → is_without_tabs (lossy_chars line.now) ≡ true → 1 ≤ columns.from → found ≡ columns.from) }
{
    let characters = characters_of(alloc, line)?;
    match form_of(false, &characters) {
        Some(LineForm::InPieces) => {
            let text = text_of_pieces(alloc, &characters)?;
            Ok(column_in_pieces(&text, columns))
        }
        _ => plain_column(alloc, is_source, &characters, columns.from),
    }
}
