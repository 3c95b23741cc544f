//! The used slots of an area as objects.
ghost use Rattle.std.specs.Prelude.{◌≡◌, ◌++◌, IfOk, OnOk, Some, map, option_map};
ghost use Rattle.std.specs.String.{string_bytes};
ghost use Rattle.s3_json_lines.specs.Inner.Characters.{text_of};
ghost use Rattle.s3_json_lines.specs.Inner.Values.{cell_json, json_of, members_named, members_view};
ghost use Rattle.s3_pack_json.specs.Inner.Objects.{damaged_json, file_json, label_members as label_members_spec, name_text, nonzero_json, organization_word, retention_word, slot_objects, text_json};

use crate::cells::{Texts, label_text, text_cell};
use crate::extents::extents_value;
use s3_cards::{Name, Retention};
use s3_json_lines::{Cell, Value, members, object, push_member, text_of_codes};
use s3_labels::{FileLabel, Organization, Slot};
use std::alloc::{AllocError, Global};

/// Adds the object of a slot; a free one has none.
pub fn add_slot(
    alloc: Global,
    values: &mut Vec<Value>,
    area: u64,
    place: u64,
    slot: &Slot,
    reason: Option<String>,
) -> Result<(), AllocError>
    ensures { OnOk result (map json_of values.new.items ≡ map json_of values.old.items ++ slot_objects area place slot.now (option_map string_bytes reason)) }
{
    match slot {
        Slot::Free => Ok(()),
        Slot::Damaged(name) => {
            values.push(damaged_value(alloc, area, place, *name, reason)?)?;
            Ok(())
        }
        Slot::Sound(label) => {
            values.push(file_value(alloc, area, place, label, reason)?)?;
            Ok(())
        }
    }
}

/// The object of a damaged slot.
fn damaged_value(
    alloc: Global,
    area: u64,
    place: u64,
    name: Option<Name>,
    reason: Option<String>,
) -> Result<Value, AllocError>
    ensures { IfOk result (λ value. json_of value ≡ damaged_json area place (option_map name_text name) (option_map string_bytes reason)) }
{
    let texts = Texts {
        label: label_text(alloc, name)?,
        words: reason,
    };
    damaged_object(alloc, area, place, &texts)
}

/// The object of a damaged slot, with its texts.
fn damaged_object(alloc: Global, area: u64, place: u64, texts: &Texts) -> Result<Value, AllocError>
    ensures { IfOk result (λ value. json_of value ≡ damaged_json area place (option_map string_bytes texts.now.label) (option_map string_bytes texts.now.words)) }
{
    object(
        alloc,
        &[
            ("kind", Cell::Text("damaged")),
            ("area", Cell::Number(area)),
            ("slot", Cell::Number(place)),
            ("label", text_cell(&texts.label)),
            ("reason", text_cell(&texts.words)),
        ],
    )
}

/// The object of a file.
#[tactic(auto, using(s3_json_lines::proofs::Views::view_object))]
fn file_value(
    alloc: Global,
    area: u64,
    place: u64,
    label: &FileLabel,
    reason: Option<String>,
) -> Result<Value, AllocError>
    ensures { IfOk result (λ value. json_of value ≡ file_json area place label.now (option_map string_bytes reason)) }
{
    let reason = reason_value(reason);
    let extents = extents_value(alloc, label.extents.as_slice())?;
    let mut made = label_members(alloc, area, place, label)?;
    push_member(&mut made, "extents", extents)?;
    push_member(&mut made, "reason", reason)?;
    Ok(Value::Object(made))
}

/// A reason as a value.
fn reason_value(reason: Option<String>) -> Value
    ensures { json_of result ≡ text_json (option_map string_bytes reason) }
{
    match reason {
        Some(reason) => Value::Text(reason),
        None => Value::Nothing,
    }
}

/// The members of a file before its extents.
fn label_members(
    alloc: Global,
    area: u64,
    place: u64,
    label: &FileLabel,
) -> Result<Vec<(&'static str, Value)>, AllocError>
    ensures { IfOk result (λ made. members_view made.items ≡ members_named (label_members_spec area place label.now (Some (name_text label.now.name)) (Some (text_of label.now.date)))) }
{
    let texts = Texts {
        label: label_text(alloc, Some(label.name))?,
        words: Some(text_of_codes(alloc, &label.date)?),
    };
    members_with(alloc, area, place, label, &texts)
}

/// The members of a file before its extents, with the texts of its label and its date.
fn members_with(
    alloc: Global,
    area: u64,
    place: u64,
    label: &FileLabel,
    texts: &Texts,
) -> Result<Vec<(&'static str, Value)>, AllocError>
    ensures { IfOk result (λ made. members_view made.items ≡ members_named (label_members_spec area place label.now (option_map string_bytes texts.now.label) (option_map string_bytes texts.now.words))) }
{
    let organization = organization_letter(label.organization);
    let retention = retention_letter(label.retention);
    let record_length = u64::from(label.record_length);
    members(
        alloc,
        &[
            ("kind", Cell::Text("file")),
            ("area", Cell::Number(area)),
            ("slot", Cell::Number(place)),
            ("label", text_cell(&texts.label)),
            ("organization", Cell::Text(organization)),
            ("retention", Cell::Text(retention)),
            ("date", text_cell(&texts.words)),
            ("record_length", Cell::Number(record_length)),
            ("key_start", nonzero_cell(u64::from(label.key_start))),
            ("key_length", nonzero_cell(u64::from(label.key_length))),
            ("capacity", Cell::Number(u64::from(label.capacity))),
            ("records", Cell::Number(u64::from(label.count))),
        ],
    )
}

fn organization_letter(organization: Organization) -> &'static str
    ensures { result.now ≡ organization_word organization }
{
    match organization {
        Organization::Sequential => "S",
        Organization::Indexed => "I",
        Organization::Direct => "D",
    }
}

fn retention_letter(retention: Retention) -> &'static str
    ensures { result.now ≡ retention_word retention }
{
    match retention {
        Retention::Temporary => "T",
        Retention::Scratch => "S",
        Retention::Permanent => "P",
    }
}

/// A number, or null for 0.
fn nonzero_cell<'a>(number: u64) -> Cell<'a>
    ensures { cell_json result ≡ nonzero_json number }
{
    match number {
        0 => Cell::Nothing,
        _ => Cell::Number(number),
    }
}
