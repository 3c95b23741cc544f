//! A table read to its end.
ghost use Rattle.std.specs.Prelude.{◌≡◌, ◌∷◌, ℕ, List, [], None, Some, true, false, IfOk, IsPermutation, OnOk, IfErr};
ghost use Rattle.std.specs.Cmp.Lexicographic.{slice_cmp};
ghost use Rattle.std.specs.List.{All};
ghost use Rattle.std.specs.Ordering.{nat_cmp};
ghost use Rattle.csv.specs.Reading.{ReadRecord, Ready, reader_trim};
ghost use Rattle.csv.specs.Records.{fields_of};
ghost use Rattle.csv.specs.declared.reader.Trim.TheVariants as trim;
ghost use Rattle.s3_cells.specs.Inner.Fields.{LiesIn};
ghost use Rattle.s3_load.specs.Inner.Columns.{LieApart};
ghost use Rattle.s3_load.specs.Inner.KeyOrder.{AreInKeyOrder, AreSorted, ComesBefore, comes_before, key_in as key_in_spec};
ghost use Rattle.s3_load.specs.Inner.Reasons.{HasSameKey, IsSameKey, Reports, ReportsKeys, ReportsRow, ReportsRows};
ghost use Rattle.s3_load.specs.Inner.Tables.{AddsRow, AreRowsOf, FindsEnd, IsReading, IsTable};
ghost use Rattle.s3_load.specs.Inner.Refusals.{NamesNone};

use crate::columns::{Columns, read_columns};
use crate::fault::{LoadFault, Reason, ValueFault};
use crate::order::Order;
use crate::rows::{Faults, Lines, Row, record_of};
use csv::{ByteRecord, Reader, ReaderBuilder};
use s3_lines::sheet::KeyField;
use std::alloc::{AllocError, Global};
use std::cmp::Ordering;
use std::io::Read;

/// The most records of a table.
pub const MOST_RECORDS: usize = 999_999;

/// The records of a table: in the order of their keys if the file has an index, else in the order of their rows. Refused with all that is
/// wrong with the heading, or with the rows, whose lines are those of the text that the reader reads.
#[tactic(auto, using(crate::proofs::RecordLemmas::named_lie, crate::proofs::RecordLemmas::left_out_lie))]
pub fn read_table<R: Read + Drop>(
    alloc: Global,
    order: &Order<'_>,
    reader: R,
    text: &[u8],
) -> Result<Vec<Row>, LoadFault>
    ensures table { IfOk result (λ rows. (text : List ℕ) → R.remaining reader ≡ Some text → IsTable text order.now.delimiter order.now.layout.now.record_length order.now.layout.now.fields.items order.now.fills order.now.chosen.now order.now.key rows.items) }
    ensures no_slot { IfErr result NamesNone }
{
    let mut table = reader_of(alloc, order.delimiter, reader);
    let mut cells = ByteRecord::new(alloc);
    if !next_row(&mut table, &mut cells)? {
        return Err(LoadFault::NoHeading);
    }
    let columns = read_columns(alloc, &cells, order.layout, order.fills)?;
    let mut faults = Faults::new(alloc);
    let mut lines = Lines::new(text);
    let mut rows = read_rows(alloc, order, &columns, &mut table, &mut lines, &mut faults)?;
    sort_by_key(alloc, &mut rows, order.key, &mut faults)?;
    if faults.count > 0 {
        return Err(LoadFault::Values(faults.first, faults.count));
    }
    Ok(rows)
}

/// A reader of a table, at its start.
fn reader_of<R: Read + Drop>(alloc: Global, delimiter: u8, reader: R) -> Reader<R>
    ensures { IsReading R.remaining (R.remaining reader) delimiter [] result }
{
    ReaderBuilder::new()
        .has_headers(false)
        .flexible(true)
        .delimiter(delimiter)
        .from_reader(alloc, reader)
}

/// Reads the next row, if there is one.
fn next_row<R: Read + Drop>(
    reader: &mut Reader<R>,
    cells: &mut ByteRecord,
) -> Result<bool, LoadFault>
    requires ready { Ready reader.old }
    requires untrimmed { reader_trim reader.old ≡ trim.None }
    ensures read { IfOk result (λ found. ReadRecord R.remaining reader.old reader.new found (fields_of cells.new)) }
    ensures ready { OnOk result (Ready reader.new) }
    ensures no_slot { IfErr result NamesNone }
{
    match reader.read_byte_record(cells) {
        Ok(found) => Ok(found),
        Err(error) if error.is_io_error() => Err(LoadFault::File),
        Err(_) => Err(LoadFault::NoMemory),
    }
}

/// Reads the rows after the heading.
#[tactic(auto, using(crate::proofs::TableLemmas::no_rows, crate::proofs::TableLemmas::one_more_row, crate::proofs::TableLemmas::all_rows))]
fn read_rows<R: Read + Drop>(
    alloc: Global,
    order: &Order<'_>,
    columns: &Columns,
    reader: &mut Reader<R>,
    lines: &mut Lines<'_>,
    faults: &mut Faults,
) -> Result<Vec<Row>, LoadFault>
    requires within { All (LiesIn order.now.layout.now.record_length) columns.now.fields.items }
    requires filled { All (LiesIn order.now.layout.now.record_length) columns.now.filled.items }
    requires apart { LieApart columns.now.fields.items }
    requires ready { Ready reader.old }
    requires untrimmed { reader_trim reader.old ≡ trim.None }
    ensures rows { IfOk result (λ rows. faults.new.count ≡ 0 → (text : List ℕ) (heading : List (List ℕ)) → IsReading R.remaining (Some text) order.now.delimiter (heading ∷ []) reader.old → AreRowsOf text order.now.delimiter heading order.now.layout.now.record_length columns.now.fields.items columns.now.filled.items order.now.chosen.now rows.items) }
    ensures before { OnOk result (faults.new.count ≡ 0 → faults.old.count ≡ 0) }
    ensures reported { OnOk result ((text : List ℕ) (heading : List (List ℕ)) → IsReading R.remaining (Some text) order.now.delimiter (heading ∷ []) reader.old → ReportsRows text order.now.delimiter heading order.now.layout.now.record_length columns.now.fields.items columns.now.filled.items order.now.chosen.now faults.old faults.new) }
    ensures no_slot { IfErr result NamesNone }
{
    let mut rows: Vec<Row> = Vec::new(alloc);
    let mut cells = ByteRecord::new(alloc);
    for _ in 0..u64::MAX {
        if !read_row(
            alloc, order, columns, reader, &mut cells, lines, &mut rows, faults,
        )? {
            return Ok(rows);
        }
    }
    Err(LoadFault::NoRoom)
}

/// Reads the next row and adds its record. Answers whether there was one.
fn read_row<R: Read + Drop>(
    alloc: Global,
    order: &Order<'_>,
    columns: &Columns,
    reader: &mut Reader<R>,
    cells: &mut ByteRecord,
    lines: &mut Lines<'_>,
    rows: &mut Vec<Row>,
    faults: &mut Faults,
) -> Result<bool, LoadFault>
    requires within { All (LiesIn order.now.layout.now.record_length) columns.now.fields.items }
    requires filled { All (LiesIn order.now.layout.now.record_length) columns.now.filled.items }
    requires apart { LieApart columns.now.fields.items }
    requires ready { Ready reader.old }
    requires untrimmed { reader_trim reader.old ≡ trim.None }
    ensures adds { IfOk result (λ found. found ≡ true → faults.new.count ≡ 0 → AddsRow R.remaining order.now.layout.now.record_length columns.now.fields.items columns.now.filled.items order.now.chosen.now reader.old reader.new rows.old.items rows.new.items) }
    ensures end { IfOk result (λ found. found ≡ false → FindsEnd R.remaining reader.old reader.new rows.old.items rows.new.items) }
    ensures ready { OnOk result (Ready reader.new) }
    ensures untrimmed { OnOk result (reader_trim reader.new ≡ trim.None) }
    ensures before { OnOk result (faults.new.count ≡ 0 → faults.old.count ≡ 0) }
    ensures reported { IfOk result (λ found. found ≡ true → ReportsRow R.remaining order.now.layout.now.record_length columns.now.fields.items columns.now.filled.items order.now.chosen.now reader.old reader.new faults.old faults.new) }
    ensures silent { IfOk result (λ found. found ≡ false → faults.new ≡ faults.old) }
    ensures no_slot { IfErr result NamesNone }
{
    if !next_row(reader, cells)? {
        return Ok(false);
    }
    if rows.len() >= MOST_RECORDS {
        return Err(LoadFault::NoRoom);
    }
    match record_of(alloc, order, columns, cells, lines, faults)? {
        Some(row) => rows.push(row)?,
        None => {}
    }
    Ok(true)
}

/// The bytes of the key of a record; none if it doesn't lie in the record.
pub fn key_in(bytes: &[u8], key: KeyField) -> &[u8]
    ensures { result.now ≡ key_in_spec key bytes.now }
{
    let start = usize::from(key.start.saturating_sub(1));
    let end = start + usize::from(key.length);
    if end <= bytes.len() {
        &bytes[start..end]
    } else {
        &[]
    }
}

/// Sorts rows by their keys, if the file has an index, and reports the rows with the same key.
pub fn sort_by_key(
    alloc: Global,
    rows: &mut Vec<Row>,
    key: Option<KeyField>,
    faults: &mut Faults,
) -> Result<(), AllocError>
    ensures same { OnOk result (IsPermutation rows.old.items rows.new.items) }
    ensures unkeyed { key ≡ None → rows.new.items ≡ rows.old.items }
    ensures keyed { OnOk result (faults.new.count ≡ 0 → AreInKeyOrder key rows.new.items) }
    ensures before { OnOk result (faults.new.count ≡ 0 → faults.old.count ≡ 0) }
    ensures reported { OnOk result (ReportsKeys key rows.new.items faults.old faults.new) }
{
    match key {
        None => Ok(()),
        Some(key) => {
            sort_rows(rows, key)?;
            find_same_keys(alloc, rows, key, faults)
        }
    }
}

/// Sorts rows by the characters of their keys; those of one key stay in their order.
fn sort_rows(rows: &mut Vec<Row>, key: KeyField) -> Result<(), AllocError>
    ensures same { OnOk result (IsPermutation rows.old.items rows.new.items) }
    ensures sorted { OnOk result (AreSorted key rows.new.items) }
{
    rows.sort_by(|one, other| order_by(key, one, other))?;
    Ok(())
}

/// The order of two rows by their keys, character by character.
fn order_by(key: KeyField, one: &Row, other: &Row) -> Ordering
    ensures { result ≡ slice_cmp nat_cmp (key_in_spec key one.now.bytes.items) (key_in_spec key other.now.bytes.items) }
{
    key_in(&one.bytes, key).cmp(key_in(&other.bytes, key))
}

/// Reports each of sorted rows that doesn't come after the row before it by its key: it has the same key.
#[tactic(auto, using(crate::proofs::KeyLemmas::none_compared, crate::proofs::KeyLemmas::one_more_compared, crate::proofs::KeyLemmas::all_compared))]
fn find_same_keys(
    alloc: Global,
    rows: &[Row],
    key: KeyField,
    faults: &mut Faults,
) -> Result<(), AllocError>
    requires sorted { AreSorted key rows.now }
    ensures keyed { OnOk result (faults.new.count ≡ 0 → AreInKeyOrder (Some key) rows.now) }
    ensures before { OnOk result (faults.new.count ≡ 0 → faults.old.count ≡ 0) }
    ensures reported { OnOk result (Reports (IsSameKey key rows.now) faults.old faults.new) }
{
    for place in 1..rows.len() {
        tell_same_key(alloc, &rows[place - 1], &rows[place], key, faults)?;
    }
    Ok(())
}

/// Reports a row that doesn't come after another one by its key: it has the same key.
fn tell_same_key(
    alloc: Global,
    one: &Row,
    next: &Row,
    key: KeyField,
    faults: &mut Faults,
) -> Result<(), AllocError>
    requires sorted { comes_before key next.now one.now ≡ false }
    ensures behind { OnOk result (faults.new.count ≡ 0 → ComesBefore key one.now next.now) }
    ensures before { OnOk result (faults.new.count ≡ 0 → faults.old.count ≡ 0) }
    ensures reported { OnOk result (Reports (HasSameKey key one.now next.now) faults.old faults.new) }
{
    match order_by(key, one, next) {
        Ordering::Less => Ok(()),
        Ordering::Equal | Ordering::Greater => {
            let codes = Vec::from_slice(alloc, key_in(&next.bytes, key))?;
            faults.add(ValueFault {
                line: next.line,
                field: None,
                reason: Reason::SameKey(one.line, codes),
            })?;
            Ok(())
        }
    }
}
