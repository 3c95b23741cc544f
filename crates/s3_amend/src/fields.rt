//! Fields that are named with values.
ghost use Rattle.std.specs.Prelude.{◌≡◌, ◌<◌, ◌↔◌, [], true, false, length, map, get_or, IfOk, IfSome, IsTrue, OnOk};
ghost use Rattle.std.specs.List.{All, list_any};
ghost use Rattle.s3_cards.specs.Codes.{shown_byte};
ghost use Rattle.s3_cells.specs.Inner.Fields.{LiesIn, Takes};
ghost use Rattle.s3_unload.specs.Inner.Tables.{name_text};
ghost use Rattle.s3_load.specs.Inner.Columns.{IsNamed, LieApart, overlap};
ghost use Rattle.s3_load.specs.Inner.Records.{HasTaken};
ghost use Rattle.s3_amend.specs.Inner.Settings.{AddsNamed, AreNamed, is_in_key as is_in_key_spec, values_of};

use crate::amendment::Setting;
use crate::fault::Mistake;
use s3_cards::{Name, host_byte, word_len};
use s3_cells::{CellFault, Field};
use s3_labels::FileLabel;
use std::alloc::{AllocError, Global};

/// Adds a mistake.
pub fn note(mistakes: &mut Vec<Mistake>, mistake: Mistake) -> Result<(), AllocError>
    ensures { OnOk result (0 < length mistakes.new.items) }
{
    mistakes.push(mistake)?;
    Ok(())
}

/// The fields that settings name, in their order, each with the value tested on a record of these bytes. What is wrong with a setting is
/// added to the mistakes.
#[tactic(auto, using(crate::proofs::SettingLemmas::none_named, crate::proofs::SettingLemmas::one_more_named))]
pub fn named_fields(
    alloc: Global,
    fields: &[Field],
    label: &FileLabel,
    settings: &[Setting<'_>],
    scratch: &mut [u8],
    mistakes: &mut Vec<Mistake>,
) -> Result<Vec<Field>, AllocError>
    requires { All (LiesIn (length scratch.old)) fields.now }
    ensures named { IfOk result (λ named. mistakes.new.items ≡ [] → AreNamed fields.now label.now settings.now (length settings.now) named.items) }
    ensures before { OnOk result (mistakes.new.items ≡ [] → mistakes.old.items ≡ []) }
{
    let mut named: Vec<Field> = Vec::new(alloc);
    for setting in settings {
        name_field(alloc, fields, label, setting, &mut named, mistakes)?;
        test_value(alloc, fields, setting, scratch, mistakes)?;
    }
    Ok(named)
}

/// Adds the field that a setting names, or why it can't get a value.
#[tactic(auto, using(s3_load::proofs::ColumnLemmas::none_told))]
fn name_field(
    alloc: Global,
    fields: &[Field],
    label: &FileLabel,
    setting: &Setting<'_>,
    named: &mut Vec<Field>,
    mistakes: &mut Vec<Mistake>,
) -> Result<(), AllocError>
    ensures named { OnOk result (mistakes.new.items ≡ [] → AddsNamed fields.now label.now setting.now named.old.items named.new.items) }
    ensures before { OnOk result (mistakes.new.items ≡ [] → mistakes.old.items ≡ []) }
{
    let Some(field) = field_of(fields, setting.name) else {
        let text = Vec::from_slice(alloc, setting.name)?;
        return note(mistakes, Mistake::Unknown(text));
    };
    if is_in_key(label, &field) {
        return note(mistakes, Mistake::InKey(field.name));
    }
    if has_name(named, field.name) {
        return note(mistakes, Mistake::Twice(field.name));
    }
    named.push(field)?;
    Ok(())
}

/// Tests the value of a setting on a record. If the field can't have it, a mistake is added.
#[tactic(auto, using(crate::proofs::SettingLemmas::named_lies))]
fn test_value(
    alloc: Global,
    fields: &[Field],
    setting: &Setting<'_>,
    scratch: &mut [u8],
    mistakes: &mut Vec<Mistake>,
) -> Result<(), AllocError>
    requires { All (LiesIn (length scratch.old)) fields.now }
    ensures long { length scratch.new ≡ length scratch.old }
    ensures before { OnOk result (mistakes.new.items ≡ [] → mistakes.old.items ≡ []) }
{
    match field_of(fields, setting.name) {
        Some(field) => take_value(alloc, &field, setting.value, scratch, mistakes),
        None => Ok(()),
    }
}

/// Puts a value into a field of a record. If the field can't have it, a mistake is added.
#[tactic(auto, using(s3_load::proofs::ColumnLemmas::none_told, crate::proofs::SettingLemmas::taken_long))]
fn take_value(
    alloc: Global,
    field: &Field,
    value: &[u8],
    bytes: &mut [u8],
    mistakes: &mut Vec<Mistake>,
) -> Result<(), AllocError>
    requires { LiesIn (length bytes.old) field.now }
    ensures taken { OnOk result (mistakes.new.items ≡ [] → Takes field.now value.now bytes.old bytes.new) }
    ensures long { length bytes.new ≡ length bytes.old }
    ensures before { OnOk result (mistakes.new.items ≡ [] → mistakes.old.items ≡ []) }
{
    match field.take(alloc, value, bytes) {
        Ok(()) => Ok(()),
        Err(CellFault::NoMemory) => Err(AllocError),
        Err(fault) => {
            let value = Vec::from_slice(alloc, value)?;
            note(mistakes, Mistake::Value(field.name, fault, value))
        }
    }
}

/// The field of a name.
pub fn field_of(fields: &[Field], name: &[u8]) -> Option<Field>
    ensures { IfSome result (IsNamed fields.now name.now) }
{
    for field in fields {
        if is_name_of(name, field.name) {
            return Some(*field);
        }
    }
    None
}

/// Whether a field of a name is among these.
fn has_name(fields: &[Field], name: Name) -> bool {
    fields.iter().any(|field| field.name == name)
}

/// Whether a text says a name.
fn is_name_of(text: &[u8], name: Name) -> bool
    ensures { IsTrue result ↔ (name_text name ≡ text.now) }
{
    are_characters_of(text, &name.codes[..word_len(&name.codes)])
}

/// Whether these are the characters of some codes.
fn are_characters_of(text: &[u8], codes: &[u8]) -> bool
    ensures { IsTrue result ↔ (map shown_byte codes.now ≡ text.now) }
{
    if text.len() != codes.len() {
        return false;
    }
    for (place, code) in codes.iter().enumerate() {
        if text[place] != host_byte(*code) {
            return false;
        }
    }
    true
}

/// Whether a field has a byte of the key of a file.
fn is_in_key(label: &FileLabel, field: &Field) -> bool
    ensures { result ≡ is_in_key_spec label.now field.now }
{
    let from = u32::from(label.key_start.saturating_sub(1));
    let start = u32::from(field.start);
    start < from + u32::from(label.key_length) && from < start + u32::from(field.width)
}

/// Adds to the mistakes each field that overlaps one before it.
#[tactic(auto, using(s3_load::proofs::ColumnLemmas::none_apart, s3_load::proofs::ColumnLemmas::one_more_apart, s3_load::proofs::ColumnLemmas::all_apart))]
pub fn note_overlaps(named: &[Field], mistakes: &mut Vec<Mistake>) -> Result<(), AllocError>
    ensures apart { OnOk result (mistakes.new.items ≡ [] → LieApart named.now) }
    ensures before { OnOk result (mistakes.new.items ≡ [] → mistakes.old.items ≡ []) }
{
    for (place, field) in named.iter().enumerate() {
        note_overlap(&named[..place], field, mistakes)?;
    }
    Ok(())
}

/// Adds to the mistakes that a field overlaps one of these.
#[tactic(auto, using(s3_load::proofs::ColumnLemmas::none_told))]
fn note_overlap(
    others: &[Field],
    field: &Field,
    mistakes: &mut Vec<Mistake>,
) -> Result<(), AllocError>
    ensures apart { OnOk result (mistakes.new.items ≡ [] → list_any (λ other. overlap other field.now) others.now ≡ false) }
    ensures before { OnOk result (mistakes.new.items ≡ [] → mistakes.old.items ≡ []) }
{
    if is_over_one(others, field) {
        note(
            mistakes,
            Mistake::Overlap(first_over(others, field), field.name),
        )
    } else {
        Ok(())
    }
}

/// Whether a field overlaps one of these.
fn is_over_one(others: &[Field], field: &Field) -> bool
    ensures { result ≡ list_any (λ other. overlap other field.now) others.now }
{
    others.iter().any(|other| are_over(other, field))
}

/// The name of the first of these fields that another one overlaps.
fn first_over(others: &[Field], field: &Field) -> Name {
    match others.iter().find(|other| are_over(other, field)) {
        Some(other) => other.name,
        None => field.name,
    }
}

/// Whether two fields have a byte in common.
fn are_over(one: &Field, other: &Field) -> bool
    ensures { result ≡ overlap one.now other.now }
{
    u32::from(one.start) < u32::from(other.start) + u32::from(other.width)
        && u32::from(other.start) < u32::from(one.start) + u32::from(one.width)
}

/// Puts the values of settings into the fields that they name, in a record. A value that a field can't get is added to the mistakes.
#[tactic(auto, using(s3_load::proofs::RecordLemmas::none_taken, s3_load::proofs::RecordLemmas::one_more_taken, s3_load::proofs::RecordLemmas::field_lies))]
pub fn take_values(
    alloc: Global,
    named: &[Field],
    settings: &[Setting<'_>],
    bytes: &mut [u8],
    mistakes: &mut Vec<Mistake>,
) -> Result<(), AllocError>
    requires within { All (LiesIn (length bytes.old)) named.now }
    requires apart { LieApart named.now }
    requires counted { length named.now ≡ length settings.now }
    ensures taken { OnOk result (mistakes.new.items ≡ [] → HasTaken named.now (values_of settings.now) bytes.old (length named.now) bytes.new) }
    ensures before { OnOk result (mistakes.new.items ≡ [] → mistakes.old.items ≡ []) }
{
    for (place, field) in named.iter().enumerate() {
        take_value(alloc, field, settings[place].value, bytes, mistakes)?;
    }
    Ok(())
}
