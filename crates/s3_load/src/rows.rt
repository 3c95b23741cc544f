//! Rows of a table as records.
ghost use Rattle.std.specs.Prelude.{◌≡◌, ◌<◌, ◌⊎◌, [], true, length, replicate, OnOk, IfOk, IfSome, IfNone};
ghost use Rattle.std.specs.List.{All, Contains, list_any};
ghost use Rattle.csv.specs.Records.{fields_of};
ghost use Rattle.s3_cells.specs.Inner.Fields.{LiesIn, Takes};
ghost use Rattle.s3_record_types.specs.Inner.Chosen.{is_chosen};
ghost use Rattle.s3_load.specs.Inner.Columns.{LieApart};
ghost use Rattle.s3_load.specs.Inner.Quotes.{is_line_end as ends_line};
ghost use Rattle.s3_load.specs.Inner.Reasons.{HasTried, IsCellFault, IsColumnFault, IsOfOtherType, IsRowFault, Reports, Tries};
ghost use Rattle.s3_load.specs.Inner.Records.{HasTaken, IsRecordOf, with_zeros};

use crate::columns::{Columns, cell_at, has_byte};
use crate::fault::{Reason, ValueFault};
use crate::order::Order;
use crate::quotes::is_line_end;
use csv::ByteRecord;
use s3_cards::Name;
use s3_cards::ebcdic::BLANK;
use s3_cells::{CellFault, Field};
use s3_lines::sheet::KeyField;
use s3_record_types::{ChosenRecords, TypeFault};
use std::alloc::{AllocError, Global};

/// How many faults of rows are kept.
const MOST_FAULTS: usize = 20;

/// A record, and the line of its row.
#[derive(Drop)]
pub struct Row {
    /// The line on which the row begins, or the number of the record of a fixed length, from 1.
    pub line: u64,
    /// The record's bytes.
    pub bytes: Vec<u8>,
}

/// A text that is read from its start on, and the number of the line that was reached.
#[derive(Drop)]
pub struct Lines<'a> {
    text: &'a [u8],
    place: usize,
    line: u64,
}

impl<'a> Lines<'a> {
    /// At the start of a text.
    pub fn new(text: &'a [u8]) -> Lines<'a> {
        Lines {
            text,
            place: 0,
            line: 1,
        }
    }

    /// The line, from 1, of the first byte from this place on that ends no line; places are asked for in their order. Where a reader
    /// of CSV is before a row, the end of the line before may be still ahead, and empty lines are.
    pub fn line_at(&mut self, place: u64) -> u64 {
        let text = self.text;
        let Some(rest) = text.get(self.place..) else {
            return self.line;
        };
        for byte in rest {
            let is_end = *byte == b'\n' || *byte == b'\r';
            if self.place as u64 >= place && !is_end {
                return self.line;
            }
            if *byte == b'\n' {
                self.line = self.line.saturating_add(1);
            }
            self.place = self.place.saturating_add(1);
        }
        self.line
    }
}

/// What is wrong with rows: the first twenty, and how many there are.
#[derive(Drop)]
pub struct Faults {
    /// The first of them.
    pub first: Vec<ValueFault>,
    /// How many there are.
    pub count: u64,
}

impl Faults {
    /// None yet.
    pub fn new(alloc: Global) -> Faults
        ensures count { result.count ≡ 0 }
        ensures none { result.first.items ≡ [] }
    {
        Faults {
            first: Vec::new(alloc),
            count: 0,
        }
    }

    /// Adds one.
    #[tactic(auto, using(crate::proofs::ReasonLemmas::one_reported, crate::proofs::ReasonLemmas::full_reported))]
    pub fn add(&mut self, fault: ValueFault) -> Result<(), AllocError>
        ensures some { 0 < self.new.count }
        ensures adds { OnOk result (Reports (λ other. other ≡ fault) self.old self.new) }
    {
        self.count = self.count.saturating_add(1);
        if self.first.len() < MOST_FAULTS {
            self.first.push(fault)?;
        }
        Ok(())
    }
}

/// The record of a row; what is wrong with the row is added to the faults. None if the row has too many or too few cells, a cell
/// that goes over the end of a line, or a key that isn't taken: such a row isn't compared with others.
#[tactic(auto, using(crate::proofs::ReasonLemmas::shape_reported))]
pub fn record_of(
    alloc: Global,
    order: &Order<'_>,
    columns: &Columns,
    cells: &ByteRecord,
    lines: &mut Lines<'_>,
    faults: &mut Faults,
) -> Result<Option<Row>, AllocError>
    requires within { All (LiesIn order.now.layout.now.record_length) columns.now.fields.items }
    requires filled { All (LiesIn order.now.layout.now.record_length) columns.now.filled.items }
    requires apart { LieApart columns.now.fields.items }
    ensures row { IfOk result (λ row. faults.new.count ≡ 0 → IfSome row (λ row. IsRecordOf order.now.layout.now.record_length columns.now.fields.items columns.now.filled.items order.now.chosen.now (fields_of cells.now) row.bytes.items)) }
    ensures none { IfOk result (λ row. IfNone row (0 < faults.new.count)) }
    ensures before { OnOk result (faults.new.count ≡ 0 → faults.old.count ≡ 0) }
    ensures reported { OnOk result (Reports (IsRowFault order.now.layout.now.record_length columns.now.fields.items columns.now.filled.items order.now.chosen.now (fields_of cells.now)) faults.old faults.new) }
{
    let line = line_of(cells, lines);
    if let Some(cell) = cell_over_lines(cells) {
        let cell = Vec::from_slice(alloc, cell)?;
        faults.add(ValueFault {
            line,
            field: None,
            reason: Reason::OverLines(cell),
        })?;
        return Ok(None);
    }
    if cells.len() != columns.fields.len() {
        faults.add(ValueFault {
            line,
            field: None,
            reason: Reason::Cells(cells.len(), columns.fields.len()),
        })?;
        return Ok(None);
    }
    let mut bytes = vec![in alloc; BLANK; usize::from(order.layout.record_length)]?;
    if put_cells(alloc, order, columns, cells, line, &mut bytes, faults)? {
        Ok(Some(Row { line, bytes }))
    } else {
        Ok(None)
    }
}

/// The first cell of a row that goes over the end of a line, if there is one.
#[tactic(auto, using(crate::proofs::ReasonLemmas::is_listed))]
fn cell_over_lines(cells: &ByteRecord) -> Option<&[u8]>
    ensures listed { IfSome result (λ cell. Contains (fields_of cells.now) cell.now) }
    ensures over { IfSome result (λ cell. list_any ends_line cell.now ≡ true) }
{
    for column in 0..cells.len() {
        let cell = cell_at(cells, column);
        if goes_over_line(cell) {
            return Some(cell);
        }
    }
    None
}

/// Whether a cell goes over the end of a line.
fn goes_over_line(cell: &[u8]) -> bool
    ensures { result ≡ list_any ends_line cell.now }
{
    cell.iter().any(|byte| is_line_end(*byte))
}

/// Makes the record of a row of a blank one. What is wrong with a cell, and that the record isn't of the chosen type, is added to the
/// faults. Answers whether each field of the key has its value.
#[tactic(auto, using(crate::proofs::RecordLemmas::is_record, crate::proofs::RecordLemmas::key_or_told, crate::proofs::ReasonLemmas::row_reported))]
fn put_cells(
    alloc: Global,
    order: &Order<'_>,
    columns: &Columns,
    cells: &ByteRecord,
    line: u64,
    bytes: &mut [u8],
    faults: &mut Faults,
) -> Result<bool, AllocError>
    requires blank { bytes.old ≡ replicate (length bytes.old) BLANK }
    requires within { All (LiesIn (length bytes.old)) columns.now.fields.items }
    requires filled { All (LiesIn (length bytes.old)) columns.now.filled.items }
    requires apart { LieApart columns.now.fields.items }
    requires counted { length (fields_of cells.now) ≡ length columns.now.fields.items }
    ensures row { OnOk result (faults.new.count ≡ 0 → IsRecordOf (length bytes.old) columns.now.fields.items columns.now.filled.items order.now.chosen.now (fields_of cells.now) bytes.new) }
    ensures key { IfOk result (λ has_key. has_key ≡ true ⊎ (0 < faults.new.count)) }
    ensures before { OnOk result (faults.new.count ≡ 0 → faults.old.count ≡ 0) }
    ensures reported { OnOk result (Reports (IsRowFault (length bytes.old) columns.now.fields.items columns.now.filled.items order.now.chosen.now (fields_of cells.now)) faults.old faults.new) }
{
    fill(&columns.filled, bytes);
    order.chosen.put_codes(bytes);
    let has_key = take_cells(
        alloc,
        &columns.fields,
        cells,
        line,
        order.key,
        bytes,
        faults,
    )?;
    tell_other_type(order.chosen, &columns.fields, line, bytes, faults)?;
    Ok(has_key)
}

/// Adds to the faults that a record isn't of the chosen type, if it isn't.
fn tell_other_type(
    chosen: &ChosenRecords,
    columns: &[Field],
    line: u64,
    bytes: &[u8],
    faults: &mut Faults,
) -> Result<(), AllocError>
    ensures is_meant { OnOk result (faults.new.count ≡ 0 → is_chosen chosen.now bytes.now ≡ true) }
    ensures before { OnOk result (faults.new.count ≡ 0 → faults.old.count ≡ 0) }
    ensures reported { OnOk result (Reports (IsOfOtherType chosen.now bytes.now) faults.old faults.new) }
{
    match chosen.fault_in(bytes) {
        None => Ok(()),
        Some(fault) => {
            faults.add(ValueFault {
                line,
                field: field_of(columns, fault),
                reason: Reason::OtherType(fault),
            })?;
            Ok(())
        }
    }
}

/// The field that has the position of a code that a record lacks, if a column has one.
fn field_of(columns: &[Field], fault: TypeFault) -> Option<Name> {
    let TypeFault::Code(code, _) = fault else {
        return None;
    };
    let place = u32::from(code.position.saturating_sub(1));
    for field in columns {
        if has_byte(field, place) {
            return Some(field.name);
        }
    }
    None
}

/// Puts the values of a row into the fields of a record. What is wrong with a cell is added to the faults. Answers whether each
/// field of the key has its value.
#[tactic(auto, using(crate::proofs::RecordLemmas::none_taken, crate::proofs::RecordLemmas::one_more_taken, crate::proofs::RecordLemmas::field_lies))]
fn take_cells(
    alloc: Global,
    fields: &[Field],
    cells: &ByteRecord,
    line: u64,
    key: Option<KeyField>,
    bytes: &mut [u8],
    faults: &mut Faults,
) -> Result<bool, AllocError>
    requires within { All (LiesIn (length bytes.old)) fields.now }
    requires apart { LieApart fields.now }
    requires counted { length (fields_of cells.now) ≡ length fields.now }
    ensures taken { OnOk result (faults.new.count ≡ 0 → HasTaken fields.now (fields_of cells.now) bytes.old (length fields.now) bytes.new) }
    ensures key { IfOk result (λ has_key. has_key ≡ true ⊎ (0 < faults.new.count)) }
    ensures before { OnOk result (faults.new.count ≡ 0 → faults.old.count ≡ 0) }
    ensures tried { OnOk result (HasTried fields.now (fields_of cells.now) bytes.old (length fields.now) bytes.new) }
    ensures reported { OnOk result (Reports (IsColumnFault fields.now (fields_of cells.now)) faults.old faults.new) }
{
    let mut has_key = true;
    for (column, field) in fields.iter().enumerate() {
        let taken = take_cell(
            alloc,
            field,
            cell_at(cells, column),
            line,
            key,
            bytes,
            faults,
        )?;
        has_key = has_key && taken;
    }
    Ok(has_key)
}

/// Puts the value of a cell into a field of a record, or adds to the faults why it isn't taken. Answers whether the field has its
/// value, or isn't of the key.
fn take_cell(
    alloc: Global,
    field: &Field,
    cell: &[u8],
    line: u64,
    key: Option<KeyField>,
    bytes: &mut [u8],
    faults: &mut Faults,
) -> Result<bool, AllocError>
    requires { LiesIn (length bytes.old) field.now }
    ensures taken { OnOk result (faults.new.count ≡ 0 → Takes field.now cell.now bytes.old bytes.new) }
    ensures key { IfOk result (λ has_key. has_key ≡ true ⊎ (0 < faults.new.count)) }
    ensures before { OnOk result (faults.new.count ≡ 0 → faults.old.count ≡ 0) }
    ensures tried { OnOk result (Tries field.now cell.now bytes.old bytes.new) }
    ensures reported { OnOk result (Reports (IsCellFault field.now cell.now) faults.old faults.new) }
{
    match field.take(alloc, cell, bytes) {
        Ok(()) => Ok(true),
        Err(CellFault::NoMemory) => Err(AllocError),
        Err(fault) => {
            let cell = Vec::from_slice(alloc, cell)?;
            faults.add(ValueFault {
                line,
                field: Some(field.name),
                reason: Reason::Cell(fault, cell),
            })?;
            Ok(!is_in_key(field, key))
        }
    }
}

/// Whether a field has a byte of the key.
fn is_in_key(field: &Field, key: Option<KeyField>) -> bool {
    match key {
        None => false,
        Some(key) => {
            let start = u32::from(key.start.saturating_sub(1));
            u32::from(field.start) < start + u32::from(key.length)
                && start < u32::from(field.start) + u32::from(field.width)
        }
    }
}

/// The line on which a row begins.
fn line_of(cells: &ByteRecord, lines: &mut Lines<'_>) -> u64 {
    match cells.position() {
        Some(position) => lines.line_at(position.byte()),
        None => 0,
    }
}

/// Makes the numbers among some fields 0 in a record.
#[tactic(auto, using(crate::proofs::RecordLemmas::field_lies, crate::proofs::RecordLemmas::one_more_zero))]
pub fn fill(fields: &[Field], bytes: &mut [u8])
    requires { All (LiesIn (length bytes.old)) fields.now }
    ensures { bytes.new ≡ with_zeros bytes.old fields.now }
{
    for field in fields {
        field.make_zero(bytes);
    }
}
