//! Values of JSON.
ghost use Rattle.std.specs.Prelude.{◌≡◌, IfOk};
ghost use Rattle.json.specs.Json.{string};
ghost use Rattle.s3_json_lines.specs.Inner.Values.{json_of, numbers_json};

use std::alloc::{AllocError, Global};

/// A value of JSON. Numbers are whole, and the members of an object keep their order.
#[derive(Drop)]
pub enum Value {
    /// Null.
    Nothing,
    /// A number.
    Number(u64),
    /// A text.
    Text(String),
    /// A list.
    List(Vec<Value>),
    /// An object.
    Object(Vec<(&'static str, Value)>),
}

/// A text as a value.
pub fn text_value(alloc: Global, text: &str) -> Result<Value, AllocError>
    ensures { IfOk result (λ value. json_of value ≡ string text.now) }
{
    Ok(Value::Text(String::from_str(alloc, text)?))
}

/// A list of numbers.
pub fn numbers(alloc: Global, numbers: &[u16]) -> Result<Value, AllocError>
    ensures { IfOk result (λ value. json_of value ≡ numbers_json numbers.now) }
{
    let mut values = Vec::new(alloc);
    for number in numbers {
        values.push(Value::Number(u64::from(*number)))?;
    }
    Ok(Value::List(values))
}
