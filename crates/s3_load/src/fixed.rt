//! Records of a fixed length, read to their end.
ghost use Rattle.std.specs.Prelude.{◌≡◌, ◌≤◌, ◌<◌, ◌-◌, ◌==◌, ◌&&◌, ◌∷◌, ◌++◌, [], true, is_none, length, nat_le, replicate, IfOk, IfSome, MatchOption, OnOk, IfErr};
ghost use Rattle.std.specs.List.{list_all};
ghost use Rattle.s3_cards.specs.Codes.{ebcdic};
ghost use Rattle.s3_cells.specs.Inner.Texts.{has_code, text_bytes};
ghost use Rattle.s3_load.specs.Inner.Filling.{records_of};
ghost use Rattle.s3_load.specs.Inner.FixedTexts.{AreFixedRecords, IsFixedText, cut, ends_record, is_piece, pieces, record_of as record_of_spec, unit_of as unit_spec};
ghost use Rattle.s3_load.specs.Inner.Refusals.{NamesNone};

use crate::fault::{LoadFault, Reason, ValueFault};
use crate::order::Order;
use crate::rows::{Faults, Row};
use crate::table::{MOST_RECORDS, sort_by_key};
use s3_cards::ebcdic::BLANK;
use s3_cards::{code_of_byte, first_line};
use s3_unload::FixedForm;
use std::alloc::{AllocError, Global};

/// The line feed of EBCDIC.
const EBCDIC_LINE_FEED: u8 = 0x25;

/// The records of a text in a form: in the order of their keys if the file has an index, else in the order of the text. The line of a
/// row is the number of its record. Refused with all that is wrong with the records.
pub fn read_fixed(
    alloc: Global,
    order: &Order<'_>,
    form: FixedForm,
    text: &[u8],
) -> Result<Vec<Row>, LoadFault>
    ensures text { IfOk result (λ rows. IsFixedText form order.now.layout.now.record_length order.now.key text.now rows.items) }
    ensures no_slot { IfErr result NamesNone }
{
    let mut faults = Faults::new(alloc);
    let mut rows = read_pieces(alloc, form, order.layout.record_length, text, &mut faults)?;
    sort_by_key(alloc, &mut rows, order.key, &mut faults)?;
    if faults.count > 0 {
        return Err(LoadFault::Values(faults.first, faults.count));
    }
    Ok(rows)
}

/// The records of a text, in its order. What is wrong with one is added to the faults.
#[tactic(auto, using(crate::proofs::FixedLemmas::none_read, crate::proofs::FixedLemmas::one_more_read, crate::proofs::FixedLemmas::all_read))]
fn read_pieces(
    alloc: Global,
    form: FixedForm,
    record_length: u16,
    text: &[u8],
    faults: &mut Faults,
) -> Result<Vec<Row>, LoadFault>
    ensures records { IfOk result (λ rows. faults.new.count ≡ 0 → AreFixedRecords form record_length text.now rows.items) }
    ensures before { OnOk result (faults.new.count ≡ 0 → faults.old.count ≡ 0) }
    ensures no_slot { IfErr result NamesNone }
{
    let mut rows: Vec<Row> = Vec::new(alloc);
    if record_length < 1 {
        return Err(LoadFault::NoRoom);
    }
    let mut rest = text;
    while let Some((piece, after)) = first_piece(form, record_length, rest) {
        add_piece(alloc, form, record_length, piece, &mut rows, faults)?;
        rest = after;
    }
    Ok(rows)
}

/// The bytes of the first record of a text, and the rest of the text.
fn first_piece(form: FixedForm, record_length: u16, text: &[u8]) -> Option<(&[u8], &[u8])>
    requires { 1 ≤ record_length }
    ensures piece { MatchOption result (pieces form record_length text.now ≡ []) (λ x. pieces form record_length text.now ≡ x.0.now ∷ pieces form record_length x.1.now) }
    ensures shorter { IfSome result (λ x. length x.1.now < length text.now) }
{
    match form {
        FixedForm::AsciiLines => first_line(text),
        FixedForm::Ebcdic | FixedForm::EbcdicLines | FixedForm::Ascii => {
            first_bytes(unit_of(form, record_length), text)
        }
    }
}

/// How many bytes a record takes.
fn unit_of(form: FixedForm, record_length: u16) -> usize
    ensures { result ≡ unit_spec form record_length }
{
    let length = usize::from(record_length);
    match form {
        FixedForm::Ebcdic | FixedForm::Ascii => length,
        FixedForm::EbcdicLines | FixedForm::AsciiLines => length + 1,
    }
}

/// The first so many bytes of a text, or all if it has fewer, and the rest of it.
#[tactic(auto, using(crate::proofs::FixedLemmas::nothing_to_cut, crate::proofs::FixedLemmas::first_cut, crate::proofs::FixedLemmas::last_cut))]
fn first_bytes(unit: usize, text: &[u8]) -> Option<(&[u8], &[u8])>
    requires { 1 ≤ unit }
    ensures piece { MatchOption result (cut unit text.now ≡ []) (λ x. cut unit text.now ≡ x.0.now ∷ cut unit x.1.now) }
    ensures shorter { IfSome result (λ x. length x.1.now < length text.now) }
{
    if text.is_empty() {
        return None;
    }
    if text.len() <= unit {
        return Some((text, &[]));
    }
    Some((&text[..unit], &text[unit..]))
}

/// Adds the record of a piece of a text, or what is wrong with it to the faults.
fn add_piece(
    alloc: Global,
    form: FixedForm,
    record_length: u16,
    piece: &[u8],
    rows: &mut Vec<Row>,
    faults: &mut Faults,
) -> Result<(), LoadFault>
    ensures adds { OnOk result (faults.new.count ≡ 0 → records_of rows.new.items ≡ records_of rows.old.items ++ record_of_spec form record_length piece.now ∷ []) }
    ensures fits { OnOk result (faults.new.count ≡ 0 → is_piece form record_length piece.now ≡ true) }
    ensures before { OnOk result (faults.new.count ≡ 0 → faults.old.count ≡ 0) }
    ensures no_slot { IfErr result NamesNone }
{
    let number = (rows.len() as u64)
        .saturating_add(faults.count)
        .saturating_add(1);
    if number > MOST_RECORDS as u64 {
        return Err(LoadFault::NoRoom);
    }
    match fault_in(form, record_length, piece) {
        Some(reason) => faults.add(ValueFault {
            line: number,
            field: None,
            reason,
        })?,
        None => rows.push(Row {
            line: number,
            bytes: record_of(alloc, form, record_length, piece)?,
        })?,
    }
    Ok(())
}

/// Why the bytes of a piece are no record, if they aren't.
fn fault_in(form: FixedForm, record_length: u16, piece: &[u8]) -> Option<Reason>
    ensures { is_none result ≡ is_piece form record_length piece.now }
{
    let wanted = usize::from(record_length);
    match form {
        FixedForm::Ebcdic => length_fault(wanted, piece),
        FixedForm::EbcdicLines => end_fault(wanted, piece),
        FixedForm::Ascii => exact_fault(wanted, piece),
        FixedForm::AsciiLines => line_fault(wanted, piece),
    }
}

/// The fault of a piece that hasn't so many bytes.
fn length_fault(wanted: usize, piece: &[u8]) -> Option<Reason>
    ensures { is_none result ≡ (length piece.now == wanted) }
{
    if piece.len() == wanted {
        None
    } else {
        Some(Reason::Short(piece.len(), wanted))
    }
}

/// The fault of a piece that isn't so many bytes and the line feed of EBCDIC, which the last one may lack.
fn end_fault(wanted: usize, piece: &[u8]) -> Option<Reason>
    requires { wanted < 65536 }
    ensures { is_none result ≡ ends_record wanted piece.now }
{
    if piece.len() == wanted {
        return None;
    }
    if piece.len() != wanted + 1 {
        return Some(Reason::Short(piece.len(), wanted));
    }
    if piece[wanted] == EBCDIC_LINE_FEED {
        None
    } else {
        Some(Reason::NoLineFeed(wanted, piece[wanted]))
    }
}

/// The fault of a piece that isn't so many characters of cards.
fn exact_fault(wanted: usize, piece: &[u8]) -> Option<Reason>
    ensures { is_none result ≡ (length piece.now == wanted) && list_all has_code piece.now }
{
    match length_fault(wanted, piece) {
        Some(reason) => Some(reason),
        None => code_fault(piece),
    }
}

/// The fault of a line that isn't at most so many characters of cards.
fn line_fault(wanted: usize, piece: &[u8]) -> Option<Reason>
    ensures { is_none result ≡ nat_le (length piece.now) wanted && list_all has_code piece.now }
{
    if piece.len() <= wanted {
        code_fault(piece)
    } else {
        Some(Reason::Long(piece.len(), wanted))
    }
}

/// The fault of the first byte that is no character of a card, if there is one.
fn code_fault(piece: &[u8]) -> Option<Reason>
    ensures { is_none result ≡ list_all has_code piece.now }
{
    match place_without_code(piece) {
        None => None,
        Some(place) => Some(no_code(piece, place)),
    }
}

/// The fault of the byte at a place.
fn no_code(piece: &[u8], place: usize) -> Reason
    requires { place < length piece.now }
{
    Reason::NoCode(place.saturating_add(1), piece[place])
}

/// The place of the first byte that is no character of a card, if there is one.
#[tactic(auto, using(crate::proofs::FixedLemmas::all_coded, crate::proofs::FixedLemmas::one_uncoded))]
fn place_without_code(piece: &[u8]) -> Option<usize>
    ensures all { is_none result ≡ list_all has_code piece.now }
    ensures within { IfSome result (λ place. place < length piece.now) }
{
    for (place, byte) in piece.iter().enumerate() {
        if code_of_byte(*byte).is_none() {
            return Some(place);
        }
    }
    None
}

/// The record of a piece.
fn record_of(
    alloc: Global,
    form: FixedForm,
    record_length: u16,
    piece: &[u8],
) -> Result<Vec<u8>, AllocError>
    ensures { IfOk result (λ made. made.items ≡ record_of_spec form record_length piece.now) }
{
    let wanted = usize::from(record_length);
    match form {
        FixedForm::Ebcdic | FixedForm::EbcdicLines => {
            Vec::from_slice(alloc, &piece[..wanted.min(piece.len())])
        }
        FixedForm::Ascii | FixedForm::AsciiLines => coded(alloc, wanted, piece),
    }
}

/// The codes of a text, with blanks after them up to a length.
#[tactic(auto, using(crate::proofs::FixedLemmas::text_made))]
fn coded(alloc: Global, wanted: usize, text: &[u8]) -> Result<Vec<u8>, AllocError>
    ensures { IfOk result (λ codes. codes.items ≡ text_bytes wanted text.now) }
{
    let mut codes = Vec::with_capacity(alloc, wanted)?;
    push_codes(&mut codes, text)?;
    fill_up(&mut codes, wanted)?;
    Ok(codes)
}

/// Appends the codes of a text.
#[tactic(auto, using(crate::proofs::FixedLemmas::no_code_yet, crate::proofs::FixedLemmas::one_more_code, crate::proofs::FixedLemmas::all_codes))]
fn push_codes(codes: &mut Vec<u8>, text: &[u8]) -> Result<(), AllocError>
    ensures { OnOk result (codes.new.items ≡ codes.old.items ++ ebcdic text.now) }
{
    for byte in text {
        codes.push(code_of_byte(*byte).unwrap_or(0))?;
    }
    Ok(())
}

/// Appends blanks up to a length.
#[tactic(auto, using(crate::proofs::FixedLemmas::wider, crate::proofs::FixedLemmas::as_wide))]
fn fill_up(codes: &mut Vec<u8>, width: usize) -> Result<(), AllocError>
    ensures { OnOk result (codes.new.items ≡ codes.old.items ++ replicate (width - length codes.old.items) BLANK) }
{
    if codes.len() < width {
        codes.resize(width, BLANK)?;
    }
    Ok(())
}
