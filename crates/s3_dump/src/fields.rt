//! The fields of a record as notes, a line for each.
ghost use Rattle.std.specs.Prelude.{◌≡◌, ◌++◌, ◌∷◌, [], length, OnOk};
ghost use Rattle.std.specs.List.{All};
ghost use Rattle.s3_cells.specs.Inner.Fields.{LiesIn, field_bytes};
ghost use Rattle.s3_dump.specs.Inner.Notes.{AddsNotes, digits_of, hexadecimal, name_column, notes_text, value_text};
ghost use Rattle.s3_dump.specs.Inner.Writing.{Keeps};

use crate::writing::{Writer, digit};
use s3_cards::{Name, push_characters, word_len};
use s3_cells::{Field, ShowFault};
use std::alloc::{AllocError, Global};

/// Writes a note for each of these fields of a record.
#[tactic(auto, using(s3_cells::proofs::StyleLemmas::field_lies, crate::proofs::NoteLemmas::no_notes, crate::proofs::NoteLemmas::one_more_note, crate::proofs::WriterLemmas::keeps_all, crate::proofs::WriterLemmas::keeps_then))]
pub fn write_fields(
    alloc: Global,
    writer: &mut Writer<'_>,
    fields: &[Field],
    bytes: &[u8],
) -> Result<(), AllocError>
    requires { All (LiesIn (length bytes.now)) fields.now }
    ensures keeps { OnOk result (Keeps writer.old writer.new) }
    ensures notes { OnOk result (AddsNotes writer.old writer.new (notes_text fields.now bytes.now)) }
{
    for field in fields {
        write_field(alloc, writer, field, bytes)?;
    }
    Ok(())
}

/// Writes the note of a field.
#[tactic(auto, using(crate::proofs::NoteLemmas::one_note))]
fn write_field(
    alloc: Global,
    writer: &mut Writer<'_>,
    field: &Field,
    bytes: &[u8],
) -> Result<(), AllocError>
    requires { LiesIn (length bytes.now) field.now }
    ensures keeps { OnOk result (Keeps writer.old writer.new) }
    ensures note { OnOk result (AddsNotes writer.old writer.new (notes_text (field.now ∷ []) bytes.now)) }
{
    let mut note = Vec::new(alloc);
    push_name(&mut note, field.name)?;
    push_value(alloc, &mut note, field, bytes)?;
    writer.note(&note)
}

/// Appends the name of a field, in a column of eight characters.
#[tactic(auto, using(crate::proofs::NoteLemmas::in_column))]
pub fn push_name(text: &mut Vec<u8>, name: Name) -> Result<(), AllocError>
    ensures { OnOk result (text.new.items ≡ text.old.items ++ name_column name) }
{
    let count = word_len(&name.codes);
    push_characters(text, &name.codes[..count])?;
    let blanks = [b' '; 8];
    text.extend_from_slice(&blanks[count..])?;
    Ok(())
}

/// Appends the value of a field in a record as the cell of a table that shows it. A value that can't be shown is in hexadecimal digits,
/// after `X'` and before an apostrophe.
pub fn push_value(
    alloc: Global,
    text: &mut Vec<u8>,
    field: &Field,
    bytes: &[u8],
) -> Result<(), AllocError>
    requires { LiesIn (length bytes.now) field.now }
    ensures { OnOk result (text.new.items ≡ text.old.items ++ value_text field.now bytes.now) }
{
    let mut value = Vec::new(alloc);
    match field.show(bytes, &mut value) {
        Ok(()) => text.extend_from_slice(&value),
        Err(ShowFault::NoMemory) => Err(AllocError),
        Err(_) => push_hexadecimal(text, bytes_of(field, bytes)),
    }
}

/// The bytes of a field in a record.
pub fn bytes_of<'a>(field: &Field, bytes: &'a [u8]) -> &'a [u8]
    requires { LiesIn (length bytes.now) field.now }
    ensures { result.now ≡ field_bytes field.now bytes.now }
{
    let start = usize::from(field.start);
    &bytes[start..start + usize::from(field.width)]
}

/// Appends bytes in hexadecimal digits, after `X'` and before an apostrophe.
#[tactic(auto, using(crate::proofs::NoteLemmas::one_more_byte, crate::proofs::NoteLemmas::all_bytes))]
fn push_hexadecimal(text: &mut Vec<u8>, bytes: &[u8]) -> Result<(), AllocError>
    ensures { OnOk result (text.new.items ≡ text.old.items ++ hexadecimal bytes.now) }
{
    text.push(b'X')?;
    text.push(b'\'')?;
    for byte in bytes {
        push_byte(text, *byte)?;
    }
    text.push(b'\'')?;
    Ok(())
}

fn push_byte(text: &mut Vec<u8>, byte: u8) -> Result<(), AllocError>
    ensures { OnOk result (text.new.items ≡ text.old.items ++ digits_of byte) }
{
    text.push(digit(byte / 16))?;
    text.push(digit(byte % 16))?;
    Ok(())
}
