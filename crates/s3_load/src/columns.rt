//! The columns of a table, by its heading.
ghost use Rattle.std.specs.Prelude.{◌≡◌, ◌<◌, ◌≤◌, ◌⊎◌, ◌↔◌, [], true, drop, length, map, get_or, OnOk, IfOk, IsTrue, IfErr};
ghost use Rattle.std.specs.List.{All, Contains, list_all, prefix_len};
ghost use Rattle.csv.specs.Records.{fields_of};
ghost use Rattle.s3_cards.specs.Codes.{shown_byte};
ghost use Rattle.s3_unload.specs.Inner.Tables.{name_text};
ghost use Rattle.s3_cells.specs.Inner.Fields.{LiesIn};
ghost use Rattle.s3_load.specs.Inner.Columns.{AddsColumn, AreNamed, IsHeading, LieApart, bare as bare_spec, has_byte as has_byte_spec, is_blank, is_clear, is_number as is_number_spec};
ghost use Rattle.s3_load.specs.Inner.Owners.{AreOwners, IsFree, unowned};
ghost use Rattle.s3_load.specs.Inner.Settling.{AreSettled};
ghost use Rattle.s3_load.specs.Inner.Refusals.{NamesNone};

use crate::fault::{HeadingFault, LoadFault};
use crate::names::FieldNames;
use crate::owners::{first_owner, is_owned_whole, own};
use crate::settling::unsettled;
use csv::ByteRecord;
use s3_cards::{Name, host_byte, word_len};
use s3_cells::{DateField, Field, FieldKind, Layout, trimmed};
use std::alloc::{AllocError, Global};

/// The field of each column, and the fields that no column has and that get a blank or 0.
#[derive(Drop)]
pub struct Columns {
    /// The fields, by column.
    pub fields: Vec<Field>,
    /// Those that are filled.
    pub filled: Vec<Field>,
}

/// The columns that a heading names. Refused with all that is wrong with it, and then with all numbers that can't be filled. The time
/// that it takes grows with the number of fields and of their bytes.
pub fn read_columns(
    alloc: Global,
    heading: &ByteRecord,
    layout: &Layout,
    fills: bool,
) -> Result<Columns, LoadFault>
    ensures heading { IfOk result (IsHeading layout.now.fields.items fills (fields_of heading.now)) }
    ensures settled { IfOk result (λ columns. AreSettled layout.now.record_length columns.filled.items) }
    ensures no_slot { IfErr result NamesNone }
{
    let columns = named_columns(alloc, heading, layout, fills)?;
    let faults = unsettled(alloc, layout.record_length, &columns.filled)?;
    if faults.is_empty() {
        Ok(columns)
    } else {
        Err(LoadFault::Heading(faults))
    }
}

/// The columns that a heading names. Refused with all that is wrong with it.
#[tactic(auto, using(crate::proofs::OwnerLemmas::named_within, crate::proofs::OwnerLemmas::missing_within, crate::proofs::OwnerLemmas::unowned_left))]
fn named_columns(
    alloc: Global,
    heading: &ByteRecord,
    layout: &Layout,
    fills: bool,
) -> Result<Columns, LoadFault>
    ensures heading { IfOk result (IsHeading layout.now.fields.items fills (fields_of heading.now)) }
    ensures within { IfOk result (λ columns. All (LiesIn layout.now.record_length) columns.filled.items) }
    ensures no_slot { IfErr result NamesNone }
{
    let mut faults = Vec::new(alloc);
    let named = named_fields(alloc, heading, &layout.fields, &mut faults)?;
    let owners = find_overlaps(alloc, layout.record_length, &named, &mut faults)?;
    let missing = missing_fields(alloc, &layout.fields, &owners)?;
    tell_missing(&missing, &named, &owners, fills, &mut faults)?;
    if faults.is_empty() {
        Ok(Columns {
            fields: named,
            filled: missing,
        })
    } else {
        Err(LoadFault::Heading(faults))
    }
}

/// The fields that the cells of a heading name, in their order. What is wrong with a cell is added to the faults.
#[tactic(auto, using(crate::proofs::ColumnLemmas::none_named, crate::proofs::ColumnLemmas::one_more_named))]
fn named_fields(
    alloc: Global,
    heading: &ByteRecord,
    fields: &[Field],
    faults: &mut Vec<HeadingFault>,
) -> Result<Vec<Field>, AllocError>
    ensures named { IfOk result (λ named. faults.new.items ≡ [] → AreNamed fields.now (fields_of heading.now) (length (fields_of heading.now)) named.items) }
    ensures among { IfOk result (λ named. All (Contains fields.now) named.items) }
    ensures before { OnOk result (faults.new.items ≡ [] → faults.old.items ≡ []) }
{
    let mut names = FieldNames::of(alloc, fields)?;
    let mut named: Vec<Field> = Vec::new(alloc);
    for column in 0..heading.len() {
        let cell = bare(cell_at(heading, column));
        name_column(alloc, fields, &mut names, column, cell, &mut named, faults)?;
    }
    Ok(named)
}

/// Adds a fault.
fn tell(faults: &mut Vec<HeadingFault>, fault: HeadingFault) -> Result<(), AllocError>
    ensures { OnOk result (0 < length faults.new.items) }
{
    faults.push(fault)?;
    Ok(())
}

/// Adds the field that a cell of a heading names, or that it names none, or one for the second time.
#[tactic(auto, using(crate::proofs::ColumnLemmas::none_told, crate::proofs::OwnerLemmas::one_more_among))]
fn name_column(
    alloc: Global,
    fields: &[Field],
    names: &mut FieldNames,
    column: usize,
    cell: &[u8],
    named: &mut Vec<Field>,
    faults: &mut Vec<HeadingFault>,
) -> Result<(), AllocError>
    requires { All (Contains fields.now) named.old.items }
    ensures named { OnOk result (faults.new.items ≡ [] → AddsColumn fields.now cell.now named.old.items named.new.items) }
    ensures among { OnOk result (All (Contains fields.now) named.new.items) }
    ensures before { OnOk result (faults.new.items ≡ [] → faults.old.items ≡ []) }
{
    match names.field_of(fields, cell) {
        None => {
            let text = Vec::from_slice(alloc, cell)?;
            tell(
                faults,
                HeadingFault::Unknown(column.saturating_add(1), text),
            )?;
        }
        Some(field) if names.is_taken(field.name) => {
            tell(faults, HeadingFault::Twice(field.name))?;
        }
        Some(field) => {
            names.take(field.name);
            named.push(field)?;
        }
    }
    Ok(())
}

/// The cell of a column.
#[tactic(auto, using(crate::proofs::ColumnLemmas::some_cell, crate::proofs::ColumnLemmas::none_cell))]
pub fn cell_at(cells: &ByteRecord, column: usize) -> &[u8]
    requires { column < length (fields_of cells.now) }
    ensures { result.now ≡ get_or (fields_of cells.now) column [] }
{
    match cells.get(column) {
        Some(cell) => cell,
        None => &[],
    }
}

/// A cell without the blanks around it.
fn bare(cell: &[u8]) -> &[u8]
    ensures { result.now ≡ bare_spec cell.now }
{
    trimmed(without_blanks(cell))
}

/// A cell without the blanks in front.
fn without_blanks(cell: &[u8]) -> &[u8]
    ensures { result.now ≡ drop (prefix_len is_blank cell.now) cell.now }
{
    &cell[blanks_in_front(cell)..]
}

/// How many blanks a cell has in front.
fn blanks_in_front(cell: &[u8]) -> usize
    ensures count { result ≡ prefix_len is_blank cell.now }
    ensures within { result ≤ length cell.now }
{
    for (place, byte) in cell.iter().enumerate() {
        if *byte != b' ' {
            return place;
        }
    }
    cell.len()
}

/// Whether a text says a name.
pub fn is_name_of(text: &[u8], name: Name) -> bool
    ensures { IsTrue result ↔ (name_text name ≡ text.now) }
{
    are_characters_of(text, &name.codes[..word_len(&name.codes)])
}

/// Whether these are the characters of some codes.
fn are_characters_of(text: &[u8], codes: &[u8]) -> bool
    ensures { IsTrue result ↔ (map shown_byte codes.now ≡ text.now) }
{
    if text.len() != codes.len() {
        return false;
    }
    for (place, code) in codes.iter().enumerate() {
        if text[place] != host_byte(*code) {
            return false;
        }
    }
    true
}

/// Reports each field that is named and lies over one that is named before. Returns which of the fields has each byte of a record:
/// the number, from 1, of the first that has it; 0 if none has.
#[tactic(auto, using(crate::proofs::OwnerLemmas::none_owned))]
fn find_overlaps(
    alloc: Global,
    record_length: u16,
    named: &[Field],
    faults: &mut Vec<HeadingFault>,
) -> Result<Vec<usize>, AllocError>
    requires { All (LiesIn record_length) named.now }
    ensures apart { OnOk result (faults.new.items ≡ [] → LieApart named.now) }
    ensures owners { IfOk result (λ owners. AreOwners named.now owners.items) }
    ensures long { IfOk result (λ owners. length owners.items ≡ record_length) }
    ensures before { OnOk result (faults.new.items ≡ [] → faults.old.items ≡ []) }
{
    let mut owners = vec![in alloc; 0usize; usize::from(record_length)]?;
    own_in_order(named, &mut owners, faults)?;
    Ok(owners)
}

/// Gives the fields that are named their bytes, in their order, and reports each that lies over one before it.
#[tactic(auto, using(crate::proofs::ColumnLemmas::none_apart, crate::proofs::ColumnLemmas::all_apart, crate::proofs::RecordLemmas::field_lies, crate::proofs::OwnerLemmas::all_owned))]
fn own_in_order(
    named: &[Field],
    owners: &mut [usize],
    faults: &mut Vec<HeadingFault>,
) -> Result<(), AllocError>
    requires within { All (LiesIn (length owners.old)) named.now }
    requires free { AreOwners [] owners.old }
    ensures apart { OnOk result (faults.new.items ≡ [] → LieApart named.now) }
    ensures owners { OnOk result (AreOwners named.now owners.new) }
    ensures before { OnOk result (faults.new.items ≡ [] → faults.old.items ≡ []) }
{
    for (place, field) in named.iter().enumerate() {
        tell_overlap(field, named, owners, faults)?;
        own(field, place + 1, owners);
    }
    Ok(())
}

/// Reports the first of the fields that have a byte of this one.
#[tactic(auto, using(crate::proofs::ColumnLemmas::none_told))]
fn tell_overlap(
    field: &Field,
    named: &[Field],
    owners: &[usize],
    faults: &mut Vec<HeadingFault>,
) -> Result<(), AllocError>
    requires { LiesIn (length owners.now) field.now }
    ensures free { OnOk result (faults.new.items ≡ [] → IsFree owners.now field.now) }
    ensures before { OnOk result (faults.new.items ≡ [] → faults.old.items ≡ []) }
{
    match first_owner(field, owners) {
        0 => Ok(()),
        number => tell(
            faults,
            HeadingFault::Overlap(name_at(named, number, field.name), field.name),
        ),
    }
}

/// The name of the field with this number, from 1; another name if there is none.
fn name_at(named: &[Field], number: usize, other: Name) -> Name {
    match named.get(number.saturating_sub(1)) {
        Some(field) => field.name,
        None => other,
    }
}

/// The fields not all of whose bytes have an owner.
#[tactic(auto, using(crate::proofs::OwnerLemmas::one_more_unowned))]
fn missing_fields(
    alloc: Global,
    fields: &[Field],
    owners: &[usize],
) -> Result<Vec<Field>, AllocError>
    requires { All (LiesIn (length owners.now)) fields.now }
    ensures { IfOk result (λ missing. missing.items ≡ unowned owners.now fields.now) }
{
    let mut missing = Vec::new(alloc);
    for field in fields {
        if !is_owned_whole(field, owners) {
            missing.push(*field)?;
        }
    }
    Ok(missing)
}

/// Reports the fields that are missing; if they are to be filled, the numbers among them that lie partly under a field that
/// is named, and so can't be 0.
#[tactic(auto, using(crate::proofs::ColumnLemmas::none_told, crate::proofs::ColumnLemmas::all_of_none))]
fn tell_missing(
    missing: &[Field],
    named: &[Field],
    owners: &[usize],
    fills: bool,
    faults: &mut Vec<HeadingFault>,
) -> Result<(), AllocError>
    requires within { All (LiesIn (length owners.now)) missing.now }
    requires owners { AreOwners named.now owners.now }
    ensures allowed { OnOk result (faults.new.items ≡ [] → (fills ≡ true) ⊎ (missing.now ≡ [])) }
    ensures clear { OnOk result (faults.new.items ≡ [] → list_all (is_clear named.now) missing.now ≡ true) }
    ensures before { OnOk result (faults.new.items ≡ [] → faults.old.items ≡ []) }
{
    if fills {
        tell_all_under(missing, named, owners, faults)?;
        return Ok(());
    }
    for field in missing {
        tell(faults, HeadingFault::Missing(field.name))?;
    }
    Ok(())
}

/// Reports the numbers among some fields that lie under ones that are named.
#[tactic(auto, using(crate::proofs::ColumnLemmas::one_more_clear, crate::proofs::RecordLemmas::field_lies))]
fn tell_all_under(
    missing: &[Field],
    named: &[Field],
    owners: &[usize],
    faults: &mut Vec<HeadingFault>,
) -> Result<(), AllocError>
    requires within { All (LiesIn (length owners.now)) missing.now }
    requires owners { AreOwners named.now owners.now }
    ensures clear { OnOk result (faults.new.items ≡ [] → list_all (is_clear named.now) missing.now ≡ true) }
    ensures before { OnOk result (faults.new.items ≡ [] → faults.old.items ≡ []) }
{
    for field in missing {
        tell_under(field, named, owners, faults)?;
    }
    Ok(())
}

/// Reports a field that is a number and lies under one that is named.
#[tactic(auto, using(crate::proofs::ColumnLemmas::none_told, crate::proofs::ColumnLemmas::clear_text, crate::proofs::OwnerLemmas::clear_free))]
fn tell_under(
    field: &Field,
    named: &[Field],
    owners: &[usize],
    faults: &mut Vec<HeadingFault>,
) -> Result<(), AllocError>
    requires within { LiesIn (length owners.now) field.now }
    requires owners { AreOwners named.now owners.now }
    ensures clear { OnOk result (faults.new.items ≡ [] → is_clear named.now field.now ≡ true) }
    ensures before { OnOk result (faults.new.items ≡ [] → faults.old.items ≡ []) }
{
    if !is_number(field.kind) {
        return Ok(());
    }
    match first_owner(field, owners) {
        0 => Ok(()),
        number => tell(
            faults,
            HeadingFault::Under(field.name, name_at(named, number, field.name)),
        ),
    }
}

/// Whether a field of this form is a number, or a date that is one.
fn is_number(kind: FieldKind) -> bool
    ensures { result ≡ is_number_spec kind }
{
    match kind {
        FieldKind::Text(_) | FieldKind::Date(DateField::Text) => false,
        FieldKind::Zoned(..) | FieldKind::Packed(..) | FieldKind::Date(DateField::Number) => true,
    }
}

/// Whether a byte of a record is one of a field.
pub fn has_byte(field: &Field, place: u32) -> bool
    ensures { result ≡ has_byte_spec place field.now }
{
    u32::from(field.start) <= place && place < u32::from(field.start) + u32::from(field.width)
}
