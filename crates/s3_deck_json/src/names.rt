//! Names and indicators with their cards.
ghost use Rattle.std.specs.Prelude.{◌≡◌, IfOk};
ghost use Rattle.std.specs.String.{string_bytes};
ghost use Rattle.s3_deck_json.specs.Inner.Objects.{decimals_json, field_json, indicator_json, label_json, length_json, name_text};
ghost use Rattle.s3_json_lines.specs.Inner.Values.{cell_json, json_of};

use s3_cards::{Name, trim_end};
use s3_json_lines::{Cell, Value, object, text_of_codes};
use s3_lines::indicator::Indicator;
use s3_lines::sheet::Shape;
use s3_source_listing::{Cards, push_indicator};
use std::alloc::{AllocError, Global};

/// The characters of a name.
pub fn characters_of(alloc: Global, name: Name) -> Result<String, AllocError>
    ensures { IfOk result (λ text. string_bytes text ≡ name_text name) }
{
    text_of_codes(alloc, trim_end(&name.codes))
}

/// The two characters of an indicator.
fn letters_of(alloc: Global, indicator: Indicator) -> Result<String, AllocError> {
    let mut text = String::new(alloc);
    push_indicator(&mut text, indicator)?;
    Ok(text)
}

/// The length of a field, or null if the field isn't defined.
fn length_cell<'a>(shape: Option<Shape>) -> Cell<'a>
    ensures { cell_json result ≡ length_json shape }
{
    match shape {
        Some(Shape::Alphanumeric(length)) => Cell::Number(u64::from(length)),
        Some(Shape::Numeric(digits, _)) => Cell::Number(u64::from(digits)),
        None => Cell::Nothing,
    }
}

/// The decimals of a number, or null for another field.
fn decimals_cell<'a>(shape: Option<Shape>) -> Cell<'a>
    ensures { cell_json result ≡ decimals_json shape }
{
    match shape {
        Some(Shape::Numeric(_, decimals)) => Cell::Number(u64::from(decimals)),
        Some(Shape::Alphanumeric(_)) | None => Cell::Nothing,
    }
}

/// A field as an object.
fn field_object<'a>(
    alloc: Global,
    name: &'a str,
    shape: Option<Shape>,
    cards: &'a Cards,
) -> Result<Value, AllocError>
    ensures { IfOk result (λ value. json_of value ≡ field_json name.now shape cards.now) }
{
    object(
        alloc,
        &[
            ("name", Cell::Text(name)),
            ("length", length_cell(shape)),
            ("decimals", decimals_cell(shape)),
            ("defined", Cell::Numbers(&cards.defining)),
            ("used", Cell::Numbers(&cards.using)),
        ],
    )
}

/// An indicator as an object.
fn indicator_object<'a>(alloc: Global, name: &'a str, cards: &'a Cards) -> Result<Value, AllocError>
    ensures { IfOk result (λ value. json_of value ≡ indicator_json name.now cards.now) }
{
    object(
        alloc,
        &[
            ("name", Cell::Text(name)),
            ("set", Cell::Numbers(&cards.defining)),
            ("tested", Cell::Numbers(&cards.using)),
        ],
    )
}

/// A tag or a subroutine as an object.
fn label_object<'a>(
    alloc: Global,
    name: &'a str,
    kind: &'a str,
    cards: &'a Cards,
) -> Result<Value, AllocError>
    ensures { IfOk result (λ value. json_of value ≡ label_json name.now kind.now cards.now) }
{
    object(
        alloc,
        &[
            ("name", Cell::Text(name)),
            ("kind", Cell::Text(kind)),
            ("defined", Cell::Numbers(&cards.defining)),
            ("used", Cell::Numbers(&cards.using)),
        ],
    )
}

/// A field with its length, its decimals and its cards.
pub fn field_value(
    alloc: Global,
    name: Name,
    shape: Option<Shape>,
    cards: &Cards,
) -> Result<Value, AllocError>
    ensures { IfOk result (λ value. json_of value ≡ field_json (name_text name) shape cards.now) }
{
    let text = characters_of(alloc, name)?;
    field_object(alloc, text.as_str(), shape, cards)
}

/// An indicator with the cards that set it, and those that test it.
pub fn indicator_value(
    alloc: Global,
    indicator: Indicator,
    cards: &Cards,
) -> Result<Value, AllocError> {
    let name = letters_of(alloc, indicator)?;
    indicator_object(alloc, name.as_str(), cards)
}

/// A tag or a subroutine with the cards that define it, and those that use it.
pub fn label_value(
    alloc: Global,
    name: Name,
    kind: &str,
    cards: &Cards,
) -> Result<Value, AllocError>
    ensures { IfOk result (λ value. json_of value ≡ label_json (name_text name) kind.now cards.now) }
{
    let text = characters_of(alloc, name)?;
    label_object(alloc, text.as_str(), kind, cards)
}
