//! Objects whose members are texts, numbers and lists of numbers.
ghost use Rattle.std.specs.Prelude.{◌≡◌, IfOk, OnOk};
ghost use Rattle.json.specs.Json.{object as object_of};
ghost use Rattle.s3_json_lines.specs.Inner.Values.{cell_json, cells_view, json_of, members_view, with_member};

use crate::value::{Value, numbers, text_value};
use std::alloc::{AllocError, Global};

/// The value of a member, from which a `Value` is made.
#[derive(Clone, Copy)]
pub enum Cell<'a> {
    /// Null.
    Nothing,
    /// A number.
    Number(u64),
    /// A text.
    Text(&'a str),
    /// A list of numbers.
    Numbers(&'a [u16]),
}

/// The value that a cell stands for.
fn value_of(alloc: Global, cell: Cell<'_>) -> Result<Value, AllocError>
    ensures { IfOk result (λ value. json_of value ≡ cell_json cell.entry) }
{
    match cell {
        Cell::Nothing => Ok(Value::Nothing),
        Cell::Number(number) => Ok(Value::Number(number)),
        Cell::Text(text) => text_value(alloc, text),
        Cell::Numbers(list) => numbers(alloc, list),
    }
}

/// The members of an object.
pub fn members(
    alloc: Global,
    cells: &[(&'static str, Cell<'_>)],
) -> Result<Vec<(&'static str, Value)>, AllocError>
    ensures { IfOk result (λ members. members_view members.items ≡ cells_view cells.now) }
{
    let mut made = Vec::new(alloc);
    for cell in cells {
        made.push((cell.0, value_of(alloc, cell.1)?))?;
    }
    Ok(made)
}

/// An object.
#[tactic(auto, using(crate::proofs::Views::view_object))]
pub fn object(alloc: Global, cells: &[(&'static str, Cell<'_>)]) -> Result<Value, AllocError>
    ensures { IfOk result (λ value. json_of value ≡ object_of (cells_view cells.now)) }
{
    Ok(Value::Object(members(alloc, cells)?))
}

/// Adds a member after those of an object. It is refused only if memory runs out.
#[tactic(auto, using(crate::proofs::Views::view_pushed))]
pub fn push_member(
    members: &mut Vec<(&'static str, Value)>,
    name: &'static str,
    value: Value,
) -> Result<(), AllocError>
    ensures { OnOk result (members_view members.new.items ≡ with_member (members_view members.old.items) name.now (json_of value)) }
{
    members.push((name, value))?;
    Ok(())
}
