//! A file as a table in CSV.
ghost use Rattle.std.specs.Prelude.{◌≡◌, ◌<◌, ◌+◌, ℕ, [], ◌∷◌, true, length, OnOk, OnErr, IfOk, IfErr};
ghost use Rattle.std.specs.List.{All, list_all};
ghost use Rattle.csv.specs.Records.{fields_of};
ghost use Rattle.csv.specs.Writing.{row_text};
ghost use Rattle.s3_slots.specs.Inner.Kept.{IsOfPack};
ghost use Rattle.s3_labels.specs.Contents.{contents_of};
ghost use Rattle.s3_cells.specs.Inner.Fields.{LiesIn};
ghost use Rattle.s3_record_types.specs.Inner.Chosen.{chosen_of, is_chosen};
ghost use Rattle.s3_unload.specs.Inner.Hidden.{hidden_fault};
ghost use Rattle.s3_unload.specs.Inner.Opened.{IsOpened};
ghost use Rattle.s3_unload.specs.Inner.Ordered.{in_order, ordered};
ghost use Rattle.s3_unload.specs.Inner.Tables.{AddsText, IsBetweenRows, are_shown, heading, row_of, rows_text, setup, table_text};
ghost use Rattle.s3_unload.specs.Inner.Unloads.{IsRowRefusal, IsRowsRefusal, IsUnloadRefusal, Unloads};

use crate::fault::UnloadFault;
use crate::found::find_file;
use crate::ordered::Records;
use crate::rows::{HiddenField, fill_heading, fill_row};
use csv::{ByteRecord, Writer, WriterBuilder};
use s3_cards::Name;
use s3_cells::{Field, Layout, ShowFault};
use s3_labels::Area;
use s3_record_types::ChosenRecords;
use s3_slots::FileLabel;
use s3_store::MemoryStore;
use std::alloc::Global;
use std::io::Write;

/// Writes a file of an area as a table: the names of the layout's fields, and a row for each record that is chosen, in the order of
/// the keys if the file has an index. Returns how many records aren't chosen, and so have no row.
///
/// Refused with `Mount`, `NotFound`, `DamagedLabel`, `OtherLength`, `BadIndex` and `NoMemory`, and then nothing is written; with
/// `Hidden` at the first chosen record with a value that can't be shown, by its number in the file; then the rows before it are
/// written; and with `File`.
pub fn unload<W: Write>(
    alloc: Global,
    pack: &[u8],
    area: Area,
    name: Name,
    layout: &Layout,
    chosen: &ChosenRecords,
    delimiter: u8,
    writer: &mut W,
) -> Result<u32, UnloadFault>
    ensures wrote { IfOk result (λ others. Unloads area name layout.now chosen.now delimiter others (contents_of pack.now) (W.contents writer.old) (W.contents writer.new)) }
    ensures refused { IfErr result (IsUnloadRefusal area name layout.now chosen.now (contents_of pack.now)) }
{
    let (mut store, label) = find_file(alloc, pack, area, name)?;
    if label.record_length != layout.record_length {
        return Err(UnloadFault::OtherLength(label.record_length));
    }
    let records = Records::open(alloc, &mut store, &label)?;
    let (text, done) = table(
        alloc, &mut store, &label, &records, layout, chosen, delimiter,
    )?;
    match writer.write_all(text.as_slice()) {
        Ok(()) => done,
        Err(_) => Err(UnloadFault::File),
    }
}

/// The text of the table of a file, and how many of its records aren't chosen; or the text of its rows up to the first chosen record
/// with a value that can't be shown, and which.
fn table(
    alloc: Global,
    store: &mut MemoryStore,
    label: &FileLabel,
    records: &Records,
    layout: &Layout,
    chosen: &ChosenRecords,
    delimiter: u8,
) -> Result<(Vec<u8>, Result<u32, UnloadFault>), UnloadFault>
    requires on_pack { IsOfPack (length store.old) label.now }
    requires opened { IsOpened label.now store.old records.now }
    requires fits { label.now.record_length ≡ layout.now.record_length }
    ensures text { IfOk result (λ made. OnOk made.1 (made.0.items ≡ table_text delimiter layout.now.fields.items (chosen_of chosen.now (ordered label.now store.old)))) }
    ensures shown { IfOk result (λ made. OnOk made.1 (list_all (are_shown layout.now.fields.items) (chosen_of chosen.now (ordered label.now store.old)) ≡ true)) }
    ensures others { IfOk result (λ made. IfOk made.1 (λ others. others + length (chosen_of chosen.now (ordered label.now store.old)) ≡ length (ordered label.now store.old))) }
    ensures hidden { IfOk result (λ made. IfErr made.1 (IsRowsRefusal layout.now.fields.items chosen.now (in_order label.now store.old))) }
    ensures memory { IfErr result (λ fault. fault ≡ UnloadFault.NoMemory) }
{
    let mut bytes = vec![in alloc; 0u8; usize::from(layout.record_length)]?;
    let mut writer = WriterBuilder::new()
        .delimiter(delimiter)
        .from_writer(Vec::new(alloc));
    write_heading(alloc, &layout.fields, &mut writer)?;
    let done = write_rows(
        alloc,
        store,
        label,
        records,
        &layout.fields,
        chosen,
        &mut bytes,
        &mut writer,
    );
    match writer.into_inner() {
        Ok(text) => Ok((text, done)),
        Err(_) => Err(UnloadFault::NoMemory),
    }
}

/// Writes the names of the fields.
fn write_heading(
    alloc: Global,
    fields: &[Field],
    writer: &mut Writer<Vec<u8>>,
) -> Result<(), UnloadFault>
    ensures text { (delimiter : ℕ) → IsBetweenRows delimiter writer.old → OnOk result (AddsText delimiter writer.old writer.new (row_text (setup delimiter) (heading fields.now))) }
    ensures memory { IfErr result (λ fault. fault ≡ UnloadFault.NoMemory) }
{
    let mut row = ByteRecord::new(alloc);
    fill_heading(alloc, fields, &mut row)?;
    write_row(&row, writer)
}

fn write_row(row: &ByteRecord, writer: &mut Writer<Vec<u8>>) -> Result<(), UnloadFault>
    ensures text { (delimiter : ℕ) → IsBetweenRows delimiter writer.old → OnOk result (AddsText delimiter writer.old writer.new (row_text (setup delimiter) (fields_of row.now))) }
    ensures memory { IfErr result (λ fault. fault ≡ UnloadFault.NoMemory) }
{
    match writer.write_byte_record(row) {
        Ok(()) => Ok(()),
        Err(_) => Err(UnloadFault::NoMemory),
    }
}

/// Writes a row for each chosen record, and returns how many records aren't chosen. If one has a value that can't be shown, it is
/// reported by its number in the file.
#[tactic(auto, using(crate::proofs::Opening::place_counted, crate::proofs::RowLemmas::row_refused))]
fn write_rows(
    alloc: Global,
    store: &mut MemoryStore,
    label: &FileLabel,
    records: &Records,
    fields: &[Field],
    chosen: &ChosenRecords,
    bytes: &mut [u8],
    writer: &mut Writer<Vec<u8>>,
) -> Result<u32, UnloadFault>
    requires on_pack { IsOfPack (length store.old) label.now }
    requires opened { IsOpened label.now store.old records.now }
    requires long { length bytes.old ≡ label.now.record_length }
    requires within { All (LiesIn label.now.record_length) fields.now }
    ensures text { (delimiter : ℕ) → IsBetweenRows delimiter writer.old → OnOk result (AddsText delimiter writer.old writer.new (rows_text delimiter fields.now (chosen_of chosen.now (ordered label.now store.old)))) }
    ensures shown { OnOk result (list_all (are_shown fields.now) (chosen_of chosen.now (ordered label.now store.old)) ≡ true) }
    ensures others { IfOk result (λ others. others + length (chosen_of chosen.now (ordered label.now store.old)) ≡ length (ordered label.now store.old)) }
    ensures hidden { IfErr result (IsRowsRefusal fields.now chosen.now (in_order label.now store.old)) }
{
    let mut others = 0u32;
    for n in 0..label.count {
        let place = records.read(store, label, n, bytes)?;
        others += add_chosen(alloc, place, fields, chosen, bytes, writer)?;
    }
    Ok(others)
}

/// Writes the row of record `n` of the file, from 0, if the record is chosen. Returns how many rows it leaves out: 0 or 1.
#[tactic(auto, using(crate::proofs::RowLemmas::chosen_row, crate::proofs::RowLemmas::other_row, crate::proofs::RowLemmas::chosen_shown, crate::proofs::RowLemmas::other_shown, crate::proofs::RowLemmas::chosen_counted, crate::proofs::RowLemmas::other_counted))]
fn add_chosen(
    alloc: Global,
    n: u32,
    fields: &[Field],
    chosen: &ChosenRecords,
    bytes: &[u8],
    writer: &mut Writer<Vec<u8>>,
) -> Result<u32, UnloadFault>
    requires number { n < 4294967295 }
    requires within { All (LiesIn (length bytes.now)) fields.now }
    ensures text { (delimiter : ℕ) → IsBetweenRows delimiter writer.old → OnOk result (AddsText delimiter writer.old writer.new (rows_text delimiter fields.now (chosen_of chosen.now (bytes.now ∷ [])))) }
    ensures shown { OnOk result (list_all (are_shown fields.now) (chosen_of chosen.now (bytes.now ∷ [])) ≡ true) }
    ensures other { IfOk result (λ other. other + length (chosen_of chosen.now (bytes.now ∷ [])) ≡ 1) }
    ensures is_meant { OnErr result (is_chosen chosen.now bytes.now ≡ true) }
    ensures hidden { IfErr result (IsRowRefusal n fields.now bytes.now) }
{
    if chosen.has(bytes) {
        add_row(alloc, n, fields, bytes, writer)?;
        Ok(0)
    } else {
        Ok(1)
    }
}

/// Writes the row of record `n` of the file, from 0.
fn add_row(
    alloc: Global,
    n: u32,
    fields: &[Field],
    bytes: &[u8],
    writer: &mut Writer<Vec<u8>>,
) -> Result<(), UnloadFault>
    requires number { n < 4294967295 }
    requires within { All (LiesIn (length bytes.now)) fields.now }
    ensures text { (delimiter : ℕ) → IsBetweenRows delimiter writer.old → OnOk result (AddsText delimiter writer.old writer.new (row_text (setup delimiter) (row_of fields.now bytes.now))) }
    ensures shown { OnOk result (are_shown fields.now bytes.now ≡ true) }
    ensures hidden { IfErr result (IsRowRefusal n fields.now bytes.now) }
{
    let mut row = ByteRecord::new(alloc);
    match fill_row(alloc, fields, bytes, &mut row) {
        Ok(()) => write_row(&row, writer),
        Err(hidden) => Err(hidden_in(n, hidden)),
    }
}

/// What a value that isn't shown is to a file.
fn hidden_in(n: u32, hidden: HiddenField) -> UnloadFault
    requires { n < 4294967295 }
    ensures { result ≡ hidden_fault n hidden }
{
    match hidden.fault {
        ShowFault::NoMemory => UnloadFault::NoMemory,
        fault => UnloadFault::Hidden(n + 1, hidden.field, fault),
    }
}
