//! The record that is meant, and the records of a file as they are read and written.
ghost use Rattle.std.specs.Prelude.{◌≡◌, ◌≤◌, ◌+◌, ◌-◌, ◌*◌, ◌↔◌, [], length, find, slice_get, slice_set, Some, IfOk, IfSome, IsTrue, OnOk};
ghost use Rattle.s3_store.specs.Inner.Bytes.{SameOutside};
ghost use Rattle.s3_slots.specs.Inner.Kept.{IsOfPack};
ghost use Rattle.s3_slots.specs.Labels.{file_bytes, sectors_of};
ghost use Rattle.s3_pack_care.specs.Inner.Rows.{ChangesSectors};
ghost use Rattle.s3_cells.specs.Inner.Values.{GetsValue};
ghost use Rattle.s3_unload.specs.Inner.Ordered.{in_order};
ghost use Rattle.s3_amend.specs.Inner.Meant.{IsFirstOf, IsFirstWith, IsKeyBy, IsMeant, characters, is_key, key_of};

use crate::amendment::Which;
use crate::fault::{AmendFault, Mistake};
use crate::fields::note;
use s3_cards::ebcdic::BLANK;
use s3_cells::{CellFault, Field, FieldKind, Layout, TextCells};
use s3_files::{RecordFile, Sequential};
use s3_labels::FileLabel;
use s3_store::MemoryStore;
use std::alloc::{AllocError, Global};

/// The place, from 0, of the record that is meant. Why there is none is added to the mistakes.
#[tactic(auto, using(s3_load::proofs::ColumnLemmas::none_told))]
pub fn place_of(
    alloc: Global,
    store: &mut MemoryStore,
    label: &FileLabel,
    layout: &Layout,
    which: Which<'_>,
    mistakes: &mut Vec<Mistake>,
) -> Result<Option<u32>, AmendFault>
    requires { IsOfPack (length store.old) label.now }
    ensures place { IfOk result (λ place. IfSome place (IsMeant which.entry layout.now.fields.items label.now (in_order label.now store.old))) }
    ensures before { OnOk result (mistakes.new.items ≡ [] → mistakes.old.items ≡ []) }
    ensures keeps { store.new ≡ store.old }
{
    match which {
        Which::Number(number) if 0 < number && number <= label.count => Ok(Some(number - 1)),
        Which::Number(_) => {
            note(mistakes, Mistake::NoNumber(label.count))?;
            Ok(None)
        }
        Which::Key(text) => place_by_key(alloc, store, label, layout, text, mistakes),
    }
}

/// The place, from 0, of the first record with the key that a text means.
#[tactic(auto, using(s3_load::proofs::ColumnLemmas::none_told, crate::proofs::KeyLemmas::first_with))]
fn place_by_key(
    alloc: Global,
    store: &mut MemoryStore,
    label: &FileLabel,
    layout: &Layout,
    text: &[u8],
    mistakes: &mut Vec<Mistake>,
) -> Result<Option<u32>, AmendFault>
    requires { IsOfPack (length store.old) label.now }
    ensures place { IfOk result (λ place. IfSome place (IsFirstWith layout.now.fields.items label.now text.now (in_order label.now store.old))) }
    ensures before { OnOk result (mistakes.new.items ≡ [] → mistakes.old.items ≡ []) }
    ensures keeps { store.new ≡ store.old }
{
    let Some(key) = key_said(alloc, label, layout, text, mistakes)? else {
        return Ok(None);
    };
    let place = place_with(alloc, store, label, &key)?;
    if place.is_none() {
        note(mistakes, Mistake::NoKey)?;
    }
    Ok(place)
}

/// The place, from 0, of the first record that has this key.
#[tactic(auto, using(crate::proofs::KeyLemmas::none_before, crate::proofs::KeyLemmas::one_more_before, crate::proofs::KeyLemmas::first_here))]
fn place_with(
    alloc: Global,
    store: &mut MemoryStore,
    label: &FileLabel,
    key: &[u8],
) -> Result<Option<u32>, AmendFault>
    requires { IsOfPack (length store.old) label.now }
    ensures place { IfOk result (λ place. IfSome place (IsFirstOf label.now key.now (in_order label.now store.old))) }
    ensures keeps { store.new ≡ store.old }
{
    let mut bytes = vec![in alloc; BLANK; usize::from(label.record_length)]?;
    for place in 0..label.count {
        read_record(store, label, place, &mut bytes)?;
        if has_key(label, &bytes, key) {
            return Ok(Some(place));
        }
    }
    Ok(None)
}

/// Whether a record has a key.
fn has_key(label: &FileLabel, bytes: &[u8], key: &[u8]) -> bool
    requires { label.now.key_start - 1 + label.now.key_length ≤ length bytes.now }
    ensures { IsTrue result ↔ (key_of label.now bytes.now ≡ key.now) }
{
    let from = usize::from(label.key_start.saturating_sub(1));
    &bytes[from..from + usize::from(label.key_length)] == key
}

/// The key that a text means. Why there is none is added to the mistakes.
#[tactic(auto, using(s3_load::proofs::ColumnLemmas::none_told))]
fn key_said(
    alloc: Global,
    label: &FileLabel,
    layout: &Layout,
    text: &[u8],
    mistakes: &mut Vec<Mistake>,
) -> Result<Option<Vec<u8>>, AllocError>
    ensures key { IfOk result (λ key. IfSome key (λ key. IsKeyBy (find (is_key label.now) layout.now.fields.items) label.now text.now key.items)) }
    ensures before { OnOk result (mistakes.new.items ≡ [] → mistakes.old.items ≡ []) }
{
    if label.key_length == 0 {
        note(mistakes, Mistake::Keyless)?;
        return Ok(None);
    }
    match key_field(label, &layout.fields) {
        Some(field) => key_of_field(alloc, &field, text, mistakes),
        None => key_of_characters(alloc, label, text, mistakes),
    }
}

/// The field that has the bytes of the key, and no others.
fn key_field(label: &FileLabel, fields: &[Field]) -> Option<Field>
    ensures { result ≡ find (is_key label.now) fields.now }
{
    fields
        .iter()
        .copied()
        .find(|field| is_key_field(label, field))
}

/// Whether a field has the bytes of the key, and no others.
fn is_key_field(label: &FileLabel, field: &Field) -> bool
    ensures { result ≡ is_key label.now field.now }
{
    field.start == label.key_start.saturating_sub(1) && field.width == u16::from(label.key_length)
}

/// The bytes of a field that has the value of a text.
#[tactic(auto, using(s3_load::proofs::ColumnLemmas::none_told, crate::proofs::KeyLemmas::value_got))]
fn key_of_field(
    alloc: Global,
    field: &Field,
    text: &[u8],
    mistakes: &mut Vec<Mistake>,
) -> Result<Option<Vec<u8>>, AllocError>
    ensures key { IfOk result (λ key. IfSome key (λ key. GetsValue field.now.kind text.now field.now.width key.items)) }
    ensures before { OnOk result (mistakes.new.items ≡ [] → mistakes.old.items ≡ []) }
{
    let alone = Field {
        name: field.name,
        start: 0,
        width: field.width,
        kind: field.kind,
    };
    let mut bytes = vec![in alloc; BLANK; usize::from(field.width)]?;
    match alone.take(alloc, text, &mut bytes) {
        Ok(()) => Ok(Some(bytes)),
        Err(CellFault::NoMemory) => Err(AllocError),
        Err(fault) => {
            note(mistakes, Mistake::KeyValue(field.name, fault))?;
            Ok(None)
        }
    }
}

/// The codes of a key's characters, with blanks up to its length.
#[tactic(auto, using(s3_load::proofs::ColumnLemmas::none_told, crate::proofs::KeyLemmas::value_got))]
fn key_of_characters(
    alloc: Global,
    label: &FileLabel,
    text: &[u8],
    mistakes: &mut Vec<Mistake>,
) -> Result<Option<Vec<u8>>, AllocError>
    requires { 1 ≤ label.now.key_length }
    ensures key { IfOk result (λ key. IfSome key (λ key. GetsValue characters text.now label.now.key_length key.items)) }
    ensures before { OnOk result (mistakes.new.items ≡ [] → mistakes.old.items ≡ []) }
{
    let characters = Field {
        name: label.name,
        start: 0,
        width: u16::from(label.key_length),
        kind: FieldKind::Text(TextCells::PLAIN),
    };
    let mut bytes = vec![in alloc; BLANK; usize::from(label.key_length)]?;
    match characters.take(alloc, text, &mut bytes) {
        Ok(()) => Ok(Some(bytes)),
        Err(CellFault::NoMemory) => Err(AllocError),
        Err(fault) => {
            note(mistakes, key_mistake(label, fault))?;
            Ok(None)
        }
    }
}

/// The mistake of a key whose characters aren't taken.
fn key_mistake(label: &FileLabel, fault: CellFault) -> Mistake {
    match fault {
        CellFault::TooLong => Mistake::LongKey(label.key_length),
        _ => Mistake::KeyCharacter,
    }
}

/// Reads the record at a place, from 0.
#[tactic(auto, using(s3_files::proofs::Rooms::of_pack_room, s3_files::proofs::Rooms::of_pack_stored, crate::proofs::FileLemmas::record_read))]
pub fn read_record(
    store: &mut MemoryStore,
    label: &FileLabel,
    place: u32,
    bytes: &mut [u8],
) -> Result<(), AmendFault>
    requires on_pack { IsOfPack (length store.old) label.now }
    requires long { length bytes.old ≡ label.now.record_length }
    ensures ok { OnOk result (slice_get (in_order label.now store.old) place ≡ Some bytes.new) }
    ensures long { length bytes.new ≡ length bytes.old }
    ensures keeps { store.new ≡ store.old }
{
    let file = Sequential::of(label);
    match file.get(store, place, bytes) {
        Ok(()) => Ok(()),
        // a store in memory never fails
        Err(_) => Err(AmendFault::NoMemory),
    }
}

/// Writes a record over the one at a place, from 0.
#[tactic(auto, using(s3_files::proofs::Rooms::of_pack_room, s3_files::proofs::Rooms::of_pack_stored, crate::proofs::FileLemmas::record_put, crate::proofs::FileLemmas::others_kept))]
pub fn put_record(
    store: &mut MemoryStore,
    label: &FileLabel,
    place: u32,
    bytes: &[u8],
) -> Result<(), AmendFault>
    requires on_pack { IsOfPack (length store.old) label.now }
    requires long { length bytes.now ≡ label.now.record_length }
    ensures records { OnOk result (in_order label.now store.new ≡ slice_set (in_order label.now store.old) place bytes.now) }
    ensures others { SameOutside (place * label.now.record_length) label.now.record_length (file_bytes label.now store.old) (file_bytes label.now store.new) }
    ensures only { ChangesSectors (sectors_of label.now) store.old store.new }
    ensures count { length store.new ≡ length store.old }
{
    let file = Sequential::of(label);
    match file.put(store, place, bytes) {
        Ok(()) => Ok(()),
        // a store in memory never fails
        Err(_) => Err(AmendFault::NoMemory),
    }
}
