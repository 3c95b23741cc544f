//! What is wrong with a line.
ghost use Rattle.std.specs.Prelude.{◌≡◌, ◌==◌, ◌≤◌, ◌++◌, [], IfOk, OnOk, count_by, length, not, reverse};
ghost use Rattle.std.specs.List.{prefix_len, slice_split};
ghost use Rattle.s3_punch.specs.Inner.Cards.{is_zero, part_text as part_text_spec, piece_of as piece_of_spec};
ghost use Rattle.s3_punch.specs.Inner.Faults.{card_faults, character_fault, character_faults, fault_if, is_apostrophe, lies_over as lies_over_spec, open_fault, part_fault, part_faults, piece_faults, width_fault};
ghost use Rattle.s3_punch.specs.Inner.Pieces.{piece_seen};

use crate::characters::is_refused;
use crate::fault::{PunchFault, PunchReason};
use crate::form::LineForm;
use crate::line::text_of_pieces;
use crate::pieces::{Piece, first_part, piece_of, with_part};
use s3_cards::COLUMNS;
use std::alloc::{AllocError, Global};

/// The most cards of a deck.
const MAX_CARDS: usize = 9_999;

/// The column of the first character after a `%`.
const BEHIND_SIGN: usize = 2;

/// Tells something, if a test holds.
fn note_if(
    faults: &mut Vec<PunchFault>,
    test: bool,
    line: usize,
    column: usize,
    reason: PunchReason,
) -> Result<(), AllocError>
    ensures { OnOk result (faults.new.items ≡ faults.old.items ++ fault_if test line column reason) }
{
    if test {
        faults.push(PunchFault {
            line,
            column,
            reason,
        })?;
    }
    Ok(())
}

/// Tells a character that no card has.
fn note_character(
    faults: &mut Vec<PunchFault>,
    line: usize,
    column: usize,
    character: char,
) -> Result<(), AllocError>
    ensures { OnOk result (faults.new.items ≡ faults.old.items ++ character_fault line (column, character)) }
{
    note_if(
        faults,
        is_refused(character),
        line,
        column,
        PunchReason::NoCardHas(character),
    )
}

/// Tells each character that no card has.
#[tactic(auto, using(crate::proofs::FaultLemmas::one_more_character, crate::proofs::FaultLemmas::all_characters))]
fn note_characters(
    faults: &mut Vec<PunchFault>,
    line: usize,
    characters: &[char],
) -> Result<(), AllocError>
    ensures { OnOk result (faults.new.items ≡ faults.old.items ++ character_faults line characters.now) }
{
    for (place, character) in characters.iter().enumerate() {
        note_character(faults, line, place + 1, *character)?;
    }
    Ok(())
}

/// Tells a card that is too wide.
fn note_width(faults: &mut Vec<PunchFault>, line: usize, card: &[u8]) -> Result<(), AllocError>
    ensures { OnOk result (faults.new.items ≡ faults.old.items ++ width_fault line card.now) }
{
    note_if(
        faults,
        card.len() > COLUMNS,
        line,
        COLUMNS + 1,
        PunchReason::TooWide(card.len()),
    )
}

/// Whether a piece would lie over an earlier one.
fn lies_over(card: &[u8], piece: &Piece<'_>) -> bool
    ensures { result ≡ lies_over_spec card.now (piece_seen piece.now) }
{
    card.iter()
        .skip(piece.column.saturating_sub(1))
        .take(piece.text.len())
        .any(|byte| *byte != 0)
}

/// Tells what is wrong with a part of a card in pieces.
fn note_part(
    faults: &mut Vec<PunchFault>,
    line: usize,
    column: usize,
    card: &[u8],
    part: &[u8],
) -> Result<(), AllocError>
    ensures { OnOk result (faults.new.items ≡ faults.old.items ++ part_fault line column card.now part.now (piece_of_spec part.now)) }
{
    match piece_of(part) {
        Some(piece) => note_if(
            faults,
            lies_over(card, &piece),
            line,
            column,
            PunchReason::Overlaps,
        ),
        None => note_if(faults, !part.is_empty(), line, column, PunchReason::NoPiece),
    }
}

/// Tells what is wrong with the parts of a card in pieces.
#[tactic(auto, using(crate::proofs::FaultLemmas::one_part_told))]
fn note_parts(
    alloc: Global,
    faults: &mut Vec<PunchFault>,
    line: usize,
    text: &[u8],
) -> Result<(), AllocError>
    ensures { OnOk result (faults.new.items ≡ faults.old.items ++ part_faults line 2 [] (slice_split is_zero text.now)) }
{
    let mut card = Vec::new(alloc);
    let mut column = BEHIND_SIGN;
    let mut left = Some(text);
    while let Some(rest) = left {
        let (part, behind) = first_part(rest);
        note_part(faults, line, column, &card, part)?;
        card = with_part(alloc, card, part)?;
        column += part.len() + 1;
        left = behind;
    }
    Ok(())
}

/// How many apostrophes a text has.
fn apostrophes(text: &[u8]) -> usize
    ensures { result ≡ count_by is_apostrophe text.now }
{
    text.iter().filter(|byte| **byte == b'\'').count()
}

/// How many bytes are before the first apostrophe of a text.
fn in_front_of_apostrophe(text: &[u8]) -> usize
    ensures value { result ≡ prefix_len (λ byte. not (is_apostrophe byte)) text.now }
    ensures within { result ≤ length text.now }
{
    text.iter().take_while(|byte| **byte != b'\'').count()
}

/// A text from its end to its beginning.
fn backwards(alloc: Global, text: &[u8]) -> Result<Vec<u8>, AllocError>
    ensures { IfOk result (λ found. found.items ≡ reverse text.now) }
{
    text.iter().rev().copied().collect(alloc)
}

/// Tells a text in apostrophes that isn't ended, at the last apostrophe.
fn note_open(
    alloc: Global,
    faults: &mut Vec<PunchFault>,
    line: usize,
    text: &[u8],
) -> Result<(), AllocError>
    ensures { OnOk result (faults.new.items ≡ faults.old.items ++ open_fault line text.now) }
{
    let backwards = backwards(alloc, text)?;
    let behind = in_front_of_apostrophe(&backwards);
    let place = text.len().saturating_sub(behind);
    note_if(
        faults,
        apostrophes(text) % 2 == 1,
        line,
        place + 1,
        PunchReason::OpenText,
    )
}

/// Reports what is wrong with a card in pieces, apart from its characters and its width.
fn note_pieces(
    alloc: Global,
    faults: &mut Vec<PunchFault>,
    line: usize,
    characters: &[char],
) -> Result<(), AllocError>
    ensures { OnOk result (faults.new.items ≡ faults.old.items ++ piece_faults line (part_text_spec characters.now)) }
{
    let text = text_of_pieces(alloc, characters)?;
    note_open(alloc, faults, line, &text)?;
    note_parts(alloc, faults, line, &text)
}

/// Tells what is wrong with a line that has this card.
pub fn note_faults(
    alloc: Global,
    faults: &mut Vec<PunchFault>,
    line: usize,
    characters: &[char],
    card: &[u8],
    form: LineForm,
) -> Result<(), AllocError>
    ensures { OnOk result (faults.new.items ≡ faults.old.items ++ card_faults line characters.now card.now form) }
{
    note_characters(faults, line, characters)?;
    if form == LineForm::InPieces {
        note_pieces(alloc, faults, line, characters)?;
    }
    note_width(faults, line, card)
}

/// Tells a card after 9,999 others.
pub fn note_surplus(
    faults: &mut Vec<PunchFault>,
    cards: usize,
    line: usize,
) -> Result<(), AllocError>
    ensures { OnOk result (faults.new.items ≡ faults.old.items ++ fault_if (cards == 9999) line 1 PunchReason.TooManyCards) }
{
    note_if(
        faults,
        cards == MAX_CARDS,
        line,
        1,
        PunchReason::TooManyCards,
    )
}
