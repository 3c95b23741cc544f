//! Lines of JSON.
ghost use Rattle.std.specs.Prelude.{◌≡◌, ◌++◌, IfOk, OnOk};
ghost use Rattle.json.specs.Tree.{items_tokens, json_tokens, members_tokens};
ghost use Rattle.s3_json_lines.specs.Inner.Values.{items_view, json_of, line_of, lines_of as lines_spec, members_view};

use crate::value::Value;
use json::Writer;
use std::alloc::{AllocError, Global};

/// Appends a value as a line of text, with the line feed. It is refused only if memory runs out.
#[tactic(auto, using(crate::proofs::Views::line_written))]
pub fn push_line(alloc: Global, text: &mut Vec<u8>, value: &Value) -> Result<(), AllocError>
    ensures { OnOk result (text.new.items ≡ text.old.items ++ line_of (json_of value.now)) }
{
    let mut json = Writer::new(Vec::new(alloc));
    write_value(&mut json, value)?;
    let mut bytes = json.into_inner();
    bytes.push(b'\n')?;
    text.extend_from_slice(&bytes)?;
    Ok(())
}

/// Values as lines of text. It is refused only if memory runs out.
pub fn lines_of(alloc: Global, values: &[Value]) -> Result<Vec<u8>, AllocError>
    ensures { IfOk result (λ text. text.items ≡ lines_spec values.now) }
{
    let mut text = Vec::new(alloc);
    for value in values {
        push_line(alloc, &mut text, value)?;
    }
    Ok(text)
}

#[cycle(tree)]
fn write_value(json: &mut Writer, value: &Value) -> Result<(), AllocError>
    ensures ok { OnOk result (json.new.tokens ≡ json.old.tokens ++ json_tokens (json_of value.now)) }
    ensures before { json.new.before ≡ json.old.before }
{
    match value {
        Value::Nothing => json.null(),
        Value::Number(number) => json.u64(*number),
        Value::Text(text) => json.string(text.as_str()),
        Value::List(values) => {
            json.begin_array()?;
            write_items(json, values)
        }
        Value::Object(members) => {
            json.begin_object()?;
            write_members(json, members)
        }
    }
}

/// Writes the values of a list, and its end.
#[cycle(tree)]
fn write_items(json: &mut Writer, values: &Vec<Value>) -> Result<(), AllocError>
    ensures ok { OnOk result (json.new.tokens ≡ json.old.tokens ++ items_tokens (items_view values.now.items)) }
    ensures before { json.new.before ≡ json.old.before }
{
    for value in values {
        write_value(json, value)?;
    }
    json.end_array()
}

/// Writes the members of an object, and its end.
#[cycle(tree)]
fn write_members(json: &mut Writer, members: &Vec<(&'static str, Value)>) -> Result<(), AllocError>
    ensures ok { OnOk result (json.new.tokens ≡ json.old.tokens ++ members_tokens (members_view members.now.items)) }
    ensures before { json.new.before ≡ json.old.before }
{
    for member in members {
        json.key(member.0)?;
        write_value(json, &member.1)?;
    }
    json.end_object()
}
