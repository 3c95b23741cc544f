//! Messages about cards.
ghost use Rattle.std.specs.Prelude.{◌≡◌, IfOk, map};
ghost use Rattle.s3_deck_json.specs.Inner.Objects.{message_json, reason_json, severity_word};
ghost use Rattle.s3_json_lines.specs.Inner.Values.{array_of, cell_json, json_of};

use crate::places::{file_cell, line_cell};
use s3_decks::DeckText;
use s3_json_lines::{Cell, Value, object};
use s3_source_listing::{CardMessage, Severity};
use std::alloc::{AllocError, Global};

/// What a message reports, in one word.
fn word_of(severity: Severity) -> &'static str
    ensures { result.now ≡ severity_word severity }
{
    match severity {
        Severity::Error => "error",
        Severity::Warning => "warning",
    }
}

/// A reason, or null if it is empty.
fn reason_cell(reason: &str) -> Cell<'_>
    ensures { cell_json result ≡ reason_json reason.now }
{
    if reason.is_empty() {
        Cell::Nothing
    } else {
        Cell::Text(reason)
    }
}

/// A message as an object.
pub fn message_value<'a>(
    alloc: Global,
    files: &'a DeckText<'a>,
    message: &'a CardMessage,
) -> Result<Value, AllocError>
    ensures { IfOk result (λ value. json_of value ≡ message_json files.now message.now) }
{
    let place = files.place_of(message.card).place;
    object(
        alloc,
        &[
            ("severity", Cell::Text(word_of(message.severity))),
            ("number", Cell::Number(u64::from(message.number))),
            ("text", Cell::Text(message.words.as_str())),
            ("reason", reason_cell(message.reason.as_str())),
            ("card", Cell::Number(message.card as u64)),
            ("file", file_cell(&place)),
            ("line", line_cell(&place)),
            ("from", Cell::Number(message.columns.from as u64)),
            ("to", Cell::Number(message.columns.to as u64)),
        ],
    )
}

/// Messages as a list of objects.
#[tactic(auto, using(s3_json_lines::proofs::Views::view_list))]
pub fn messages_value(
    alloc: Global,
    files: &DeckText<'_>,
    messages: &[CardMessage],
) -> Result<Value, AllocError>
    ensures { IfOk result (λ value. json_of value ≡ array_of (map (message_json files.now) messages.now)) }
{
    let mut values = Vec::new(alloc);
    for message in messages {
        values.push(message_value(alloc, files, message)?)?;
    }
    Ok(Value::List(values))
}
