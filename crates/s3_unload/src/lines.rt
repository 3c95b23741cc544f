//! A file as lines: each record as a text, or in hexadecimal digits.
ghost use Rattle.std.specs.Prelude.{◌≡◌, ◌<◌, ◌++◌, ◌∷◌, [], true, length, map, OnOk, IfErr};
ghost use Rattle.std.specs.List.{flat_map, list_all};
ghost use Rattle.s3_cards.specs.Codes.{shown_byte};
ghost use Rattle.s3_slots.specs.Inner.Kept.{IsOfPack};
ghost use Rattle.s3_labels.specs.Contents.{contents_of};
ghost use Rattle.s3_cells.specs.Inner.Texts.{has_character};
ghost use Rattle.s3_unload.specs.Inner.Lines.{IsLineRefusal, IsLinesRefusal, IsUnshown, UnloadsLines, digit_of, digits_of, is_line, line_of, lines_text, new_line};
ghost use Rattle.s3_unload.specs.Inner.Ordered.{in_order};

use crate::fault::UnloadFault;
use crate::found::find_file;
use crate::ordered::read_in_order;
use s3_cards::{Name, push_characters};
use s3_cells::place_without_character;
use s3_files::Sequential;
use s3_labels::Area;
use s3_slots::FileLabel;
use s3_store::MemoryStore;
use std::alloc::{AllocError, Global};
use std::io::Write;

/// How a record is written as a line.
#[derive(Clone, Copy)]
pub enum LineForm {
    /// A byte as its character.
    Text,
    /// A byte as two hexadecimal digits.
    Hexadecimal,
}

/// Writes a line for each record of a file of an area, in the order of the file, whatever its index says.
///
/// Refused as `unload` is, and with `NoCharacter` at the first byte without a character; then the lines before it are written.
pub fn unload_lines<W: Write>(
    alloc: Global,
    pack: &[u8],
    area: Area,
    name: Name,
    form: LineForm,
    writer: &mut W,
) -> Result<(), UnloadFault>
    ensures wrote { OnOk result (UnloadsLines area name form (contents_of pack.now) (W.contents writer.old) (W.contents writer.new)) }
    ensures refused { IfErr result (IsLinesRefusal area name form (contents_of pack.now)) }
{
    let (mut store, label) = find_file(alloc, pack, area, name)?;
    let mut text = Vec::new(alloc);
    let done = push_lines(alloc, &mut store, &label, form, &mut text);
    match writer.write_all(text.as_slice()) {
        Ok(()) => done,
        Err(_) => Err(UnloadFault::File),
    }
}

/// Appends the lines of the records of a file, or of those before the first with a byte that has no character.
fn push_lines(
    alloc: Global,
    store: &mut MemoryStore,
    label: &FileLabel,
    form: LineForm,
    text: &mut Vec<u8>,
) -> Result<(), UnloadFault>
    requires { IsOfPack (length store.old) label.now }
    ensures text { OnOk result (text.new.items ≡ text.old.items ++ lines_text form (in_order label.now store.old)) }
    ensures shown { OnOk result (list_all (is_line form) (in_order label.now store.old) ≡ true) }
    ensures hidden { IfErr result (IsUnshown form (in_order label.now store.old)) }
{
    let mut bytes = vec![in alloc; 0u8; usize::from(label.record_length)]?;
    push_each(store, label, form, &mut bytes, text)
}

/// Does so, with room for a record.
#[tactic(auto, using(crate::proofs::LineLemmas::line_refused))]
fn push_each(
    store: &mut MemoryStore,
    label: &FileLabel,
    form: LineForm,
    bytes: &mut [u8],
    text: &mut Vec<u8>,
) -> Result<(), UnloadFault>
    requires on_pack { IsOfPack (length store.old) label.now }
    requires long { length bytes.old ≡ label.now.record_length }
    ensures text { OnOk result (text.new.items ≡ text.old.items ++ lines_text form (in_order label.now store.old)) }
    ensures shown { OnOk result (list_all (is_line form) (in_order label.now store.old) ≡ true) }
    ensures hidden { IfErr result (IsUnshown form (in_order label.now store.old)) }
{
    let file = Sequential::of(label);
    for n in 0..label.count {
        read_in_order(&file, store, label, n, bytes)?;
        push_line(text, form, n, bytes)?;
    }
    Ok(())
}

/// Appends the line of record `n`, from 0.
fn push_line(text: &mut Vec<u8>, form: LineForm, n: u32, bytes: &[u8]) -> Result<(), UnloadFault>
    requires { n < 4294967295 }
    ensures line { OnOk result (text.new.items ≡ text.old.items ++ line_of form bytes.now) }
    ensures shown { OnOk result (is_line form bytes.now ≡ true) }
    ensures hidden { IfErr result (IsLineRefusal n form bytes.now) }
{
    match form {
        LineForm::Text => push_text(text, n, bytes),
        LineForm::Hexadecimal => {
            push_digits(text, bytes)?;
            Ok(())
        }
    }
}

/// Appends the characters of record `n`, from 0.
fn push_text(text: &mut Vec<u8>, n: u32, bytes: &[u8]) -> Result<(), UnloadFault>
    requires { n < 4294967295 }
    ensures line { OnOk result (text.new.items ≡ text.old.items ++ (map shown_byte bytes.now ++ new_line ∷ [])) }
    ensures shown { OnOk result (list_all has_character bytes.now ≡ true) }
    ensures hidden { IfErr result (IsLineRefusal n LineForm.Text bytes.now) }
{
    if let Some(place) = place_without_character(bytes) {
        let position = u16::try_from(place.saturating_add(1)).unwrap_or(u16::MAX);
        return Err(UnloadFault::NoCharacter(n + 1, position));
    }
    push_characters(text, bytes)?;
    text.push(b'\n')?;
    Ok(())
}

/// Appends the hexadecimal digits of a record.
#[tactic(auto, using(crate::proofs::LineLemmas::one_more_byte))]
fn push_digits(text: &mut Vec<u8>, bytes: &[u8]) -> Result<(), AllocError>
    ensures { OnOk result (text.new.items ≡ text.old.items ++ (flat_map digits_of bytes.now ++ new_line ∷ [])) }
{
    for byte in bytes {
        push_byte(text, *byte)?;
    }
    text.push(b'\n')?;
    Ok(())
}

fn push_byte(text: &mut Vec<u8>, byte: u8) -> Result<(), AllocError>
    ensures { OnOk result (text.new.items ≡ text.old.items ++ digits_of byte) }
{
    text.push(digit(byte / 16))?;
    text.push(digit(byte % 16))?;
    Ok(())
}

/// The hexadecimal digit of a number below 16.
fn digit(number: u8) -> u8
    requires { number < 16 }
    ensures { result ≡ digit_of number }
{
    if number < 10 {
        b'0' + number
    } else {
        b'a' + (number - 10)
    }
}
