//! What is wrong with a pack.
ghost use Rattle.std.specs.Prelude.{◌≡◌, IfOk, Some, option_map};
ghost use Rattle.std.specs.String.{string_bytes};
ghost use Rattle.s3_json_lines.specs.Inner.Values.{cell_json, json_of};
ghost use Rattle.s3_pack_json.specs.Inner.Objects.{entry_json, kind_word, name_text, wrong_json};

use crate::cells::{Texts, label_text, text_cell};
use s3_json_lines::{Cell, Value, lines_of, object};
use s3_pack_check::{Cause, Wrong, push_cause};
use std::alloc::{AllocError, Global};

/// A line for each slot with which something is wrong. It is refused only if memory runs out.
pub fn checked(alloc: Global, wrongs: &[Wrong]) -> Result<Vec<u8>, AllocError> {
    let mut values = Vec::new(alloc);
    for wrong in wrongs {
        let reason = reason_of(alloc, wrong.cause)?;
        values.push(wrong_value(alloc, wrong, reason)?)?;
    }
    lines_of(alloc, &values)
}

/// The object of a slot with which something is wrong.
fn wrong_value(alloc: Global, wrong: &Wrong, reason: String) -> Result<Value, AllocError>
    ensures { IfOk result (λ value. json_of value ≡ wrong_json wrong.now (option_map name_text wrong.now.name) (Some (string_bytes reason))) }
{
    let texts = Texts {
        label: label_text(alloc, wrong.name)?,
        words: Some(reason),
    };
    wrong_object(alloc, wrong, &texts)
}

/// The object of a slot with which something is wrong, with its texts.
fn wrong_object(alloc: Global, wrong: &Wrong, texts: &Texts) -> Result<Value, AllocError>
    ensures { IfOk result (λ value. json_of value ≡ wrong_json wrong.now (option_map string_bytes texts.now.label) (option_map string_bytes texts.now.words)) }
{
    object(
        alloc,
        &[
            ("area", Cell::Number(u64::from(wrong.area.number()))),
            ("slot", Cell::Number(u64::from(wrong.slot))),
            ("label", text_cell(&texts.label)),
            ("kind", Cell::Text(kind_of(wrong.cause))),
            ("entry", entry_cell(wrong.cause)),
            ("reason", text_cell(&texts.words)),
        ],
    )
}

/// What is in error, in one word.
fn kind_of(cause: Cause) -> &'static str
    ensures { result.now ≡ kind_word cause }
{
    match cause {
        Cause::Label(_) => "label",
        Cause::Index(_) => "index",
    }
}

/// The first entry in error of an index, from 1.
fn entry_cell<'a>(cause: Cause) -> Cell<'a>
    ensures { cell_json result ≡ entry_json cause }
{
    match cause {
        Cause::Index(Some(entry)) => Cell::Number(u64::from(entry.place) + 1),
        Cause::Index(None) | Cause::Label(_) => Cell::Nothing,
    }
}

/// What is wrong, in words.
pub fn reason_of(alloc: Global, cause: Cause) -> Result<String, AllocError> {
    let mut text = String::new(alloc);
    push_cause(&mut text, cause)?;
    Ok(text)
}
