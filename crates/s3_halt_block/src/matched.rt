//! The record that a program with match fields processed last before the one that brought totals on. The run keeps no record that was
//! processed, and which file's it was is found by the keys of the records that were read last.

ghost use Rattle.s3_match.specs.Inner.Reading.{IsReading};

use crate::at_work::{AtWork, is_on_cards};
use s3_evidence::{Evidence, Source};
use s3_lines::sheet::FileLine;
use s3_match::keys::RecordKey;
use s3_match::reading::Reading;
use s3_program::program::Program;
use std::alloc::{AllocError, Global};

/// A file that the cycle reads.
#[derive(Clone, Copy)]
struct CycleFile<'a> {
    /// Its slot.
    slot: usize,
    /// Its F line.
    line: &'a FileLine,
}

/// A record that was read of a file that the cycle reads.
#[derive(Clone, Copy)]
pub(crate) struct RecordOf<'a> {
    /// The slot of the file.
    pub(crate) slot: usize,
    /// The F line of the file.
    pub(crate) line: &'a FileLine,
    /// Its number among the records of the file that were read, from 1.
    pub(crate) number: u32,
    /// Its bytes.
    pub(crate) bytes: &'a [u8],
}

/// A record with its key.
#[derive(Drop)]
struct Keyed<'a> {
    /// The record.
    record: RecordOf<'a>,
    /// Its key; none if its type has no match fields, or if it is of no type.
    key: RecordKey,
}

/// The record of a file that was processed last.
#[derive(Drop)]
enum Latest<'a> {
    /// None was processed.
    Nothing,
    /// It isn't known, or has no match fields.
    Unknown,
    /// This one.
    Record(Keyed<'a>),
}

/// The record that was processed last before the one of this file that brought totals on, the n-th. None if there is no such record, or if
/// the records that were read last don't tell: one of them has no match fields, or can't be read.
pub(crate) fn processed_before<'a>(
    alloc: Global,
    at: AtWork<'a>,
    slot: usize,
    number: u32,
) -> Result<Option<RecordOf<'a>>, AllocError> {
    let Some(line) = at.source.file_at(slot) else {
        return Ok(None);
    };
    let Some(program) = at.begun.program_of(alloc, at.held, at.source.name)? else {
        return Ok(None);
    };
    let record = RecordOf {
        slot,
        line,
        number,
        bytes: at.cycle.record_behind_totals(),
    };
    let found = processed_by(alloc, at, &program, record);
    drop(program);
    found
}

/// The record that a program processed last before the one that brought totals on.
fn processed_by<'a>(
    alloc: Global,
    at: AtWork<'a>,
    program: &Program,
    record: RecordOf<'a>,
) -> Result<Option<RecordOf<'a>>, AllocError> {
    let reading = Reading::first(alloc, program, 0)?;
    let last = latest_before(alloc, at, program, &reading, record);
    drop(reading);
    Ok(match last? {
        Latest::Record(found) => Some(found.record),
        Latest::Nothing | Latest::Unknown => None,
    })
}

/// The record that was processed last before the one that brought totals on: of all files, or of its own if it has no match fields.
fn latest_before<'a>(
    alloc: Global,
    at: AtWork<'a>,
    program: &Program,
    reading: &Reading,
    record: RecordOf<'a>,
) -> Result<Latest<'a>, AllocError>
    requires { IsReading program.now reading.now }
{
    let brought = with_key(alloc, program, reading, record)?;
    if brought.key.is_given {
        last_before(alloc, at, program, reading, &brought)
    } else {
        own_before(alloc, at, program, reading, &brought)
    }
}

/// The record that was processed last before one with match fields, of all files.
fn last_before<'a>(
    alloc: Global,
    at: AtWork<'a>,
    program: &Program,
    reading: &Reading,
    brought: &Keyed<'a>,
) -> Result<Latest<'a>, AllocError>
    requires { IsReading program.now reading.now }
{
    let mut last = Latest::Nothing;
    for slot in 0..program.files.len() {
        if let Some(file) = cycle_file(at.source, slot) {
            let latest = latest_in(alloc, at, program, reading, brought, file)?;
            last = later(last, latest);
        }
    }
    Ok(last)
}

/// The file of a slot, if the cycle reads it.
fn cycle_file(source: &Source, slot: usize) -> Option<CycleFile<'_>> {
    let line = source.file_at(slot)?;
    line.is_by_cycle().then_some(CycleFile { slot, line })
}

/// The record of its own file before the one that brought totals on. A record without match fields comes just after it.
fn own_before<'a>(
    alloc: Global,
    at: AtWork<'a>,
    program: &Program,
    reading: &Reading,
    brought: &Keyed<'a>,
) -> Result<Latest<'a>, AllocError>
    requires { IsReading program.now reading.now }
{
    let RecordOf {
        slot,
        line,
        number,
        ..
    } = brought.record;
    let before = number.saturating_sub(1);
    nth_of(
        alloc,
        at,
        program,
        reading,
        CycleFile { slot, line },
        before,
    )
}

/// The record of a file that was processed last before the one that brought totals on.
fn latest_in<'a>(
    alloc: Global,
    at: AtWork<'a>,
    program: &Program,
    reading: &Reading,
    brought: &Keyed<'a>,
    file: CycleFile<'a>,
) -> Result<Latest<'a>, AllocError>
    requires { IsReading program.now reading.now }
{
    if file.slot == brought.record.slot {
        own_before(alloc, at, program, reading, brought)
    } else {
        latest_of(alloc, at, program, reading, brought, file)
    }
}

/// The record of another file that was processed last: the one that was read last if it comes before the record that brought totals on,
/// otherwise the one before it.
fn latest_of<'a>(
    alloc: Global,
    at: AtWork<'a>,
    program: &Program,
    reading: &Reading,
    brought: &Keyed<'a>,
    file: CycleFile<'a>,
) -> Result<Latest<'a>, AllocError>
    requires { IsReading program.now reading.now }
{
    let count = count_read(at, file.line);
    let read = nth_of(alloc, at, program, reading, file, count)?;
    if is_left(&read, brought) {
        let before = count.saturating_sub(1);
        return nth_of(alloc, at, program, reading, file, before);
    }
    Ok(read)
}

/// Whether a record that was read isn't processed before the one that brought totals on.
fn is_left(read: &Latest<'_>, brought: &Keyed<'_>) -> bool {
    match read {
        Latest::Record(read) => !comes_before(read, brought),
        Latest::Nothing | Latest::Unknown => false,
    }
}

/// The n-th record that was read of a file, from 1.
fn nth_of<'a>(
    alloc: Global,
    at: AtWork<'a>,
    program: &Program,
    reading: &Reading,
    file: CycleFile<'a>,
    n: u32,
) -> Result<Latest<'a>, AllocError>
    requires { IsReading program.now reading.now }
{
    if n == 0 {
        return Ok(Latest::Nothing);
    }
    let Some(bytes) = bytes_of(at, file.line, n) else {
        return Ok(Latest::Unknown);
    };
    let record = RecordOf {
        slot: file.slot,
        line: file.line,
        number: n,
        bytes,
    };
    let found = with_key(alloc, program, reading, record)?;
    Ok(if found.key.is_given {
        Latest::Record(found)
    } else {
        Latest::Unknown
    })
}

/// How many records of a file were read.
fn count_read(at: AtWork<'_>, line: &FileLine) -> u32 {
    if is_on_cards(line) {
        return at.cards_read();
    }
    match at.held.files().iter().find(|file| file.name == line.name) {
        Some(file) => file.read,
        None => 0,
    }
}

/// The bytes of the n-th record that was read of a file, from 1, if they are at hand.
fn bytes_of<'a>(at: AtWork<'a>, line: &FileLine, n: u32) -> Option<&'a [u8]> {
    if is_on_cards(line) {
        return Some(at.cards.card(at.number_of_card(n)?)?);
    }
    let Evidence::Totals(records) = at.evidence else {
        return None;
    };
    for record in records {
        if record.file == line.name && record.number == n {
            return Some(record.bytes.as_slice());
        }
    }
    None
}

/// A record with its key.
fn with_key<'a>(
    alloc: Global,
    program: &Program,
    reading: &Reading,
    record: RecordOf<'a>,
) -> Result<Keyed<'a>, AllocError>
    requires { IsReading program.now reading.now }
{
    let mut key = RecordKey::none(alloc)?;
    if record.slot < program.files.len() {
        if let Some(start) = reading.type_in(program, record.slot, record.bytes) {
            key.read(start, &reading.match_levels, record.bytes);
        }
    }
    Ok(Keyed { record, key })
}

/// Whether a record is processed before one of another file: by its key, and among equal keys the primary file first and then the secondary
/// ones in the order of their F lines.
fn comes_before(one: &Keyed<'_>, other: &Keyed<'_>) -> bool {
    one.key.is_less(&other.key)
        || one.key.is_same(&other.key) && rank(one.record) < rank(other.record)
}

/// The place of a record's file among those that the cycle reads.
fn rank(record: RecordOf<'_>) -> usize {
    if record.line.is_primary() {
        0
    } else {
        record.slot.saturating_add(1)
    }
}

/// The later of two records of different files; unknown if one of them is.
fn later<'a>(one: Latest<'a>, other: Latest<'a>) -> Latest<'a> {
    match one {
        Latest::Unknown => Latest::Unknown,
        Latest::Nothing => other,
        Latest::Record(one) => later_than(one, other),
    }
}

/// The later of a record and one of another file.
fn later_than<'a>(one: Keyed<'a>, other: Latest<'a>) -> Latest<'a> {
    match other {
        Latest::Unknown => Latest::Unknown,
        Latest::Nothing => Latest::Record(one),
        Latest::Record(other) => {
            if comes_before(&one, &other) {
                Latest::Record(other)
            } else {
                Latest::Record(one)
            }
        }
    }
}
