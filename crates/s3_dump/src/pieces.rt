//! A pack in pieces, each of which gets its line: the header, slots, spool blocks, records, and sectors.
ghost use Rattle.std.specs.Prelude.{◌≡◌, ◌<◌, Some, IfOk, OnOk};
ghost use Rattle.s3_dump.specs.Inner.Dumps.{restored};
ghost use Rattle.s3_dump.specs.Inner.Writing.{Keeps};

use crate::fields::write_fields;
use crate::index::IndexLine;
use crate::laid::{FileLayout, Laid, Unlaid};
use crate::notes::{
    after_note, header_note, index_note, records_note, sector_note, slot_note, spool_note,
};
use crate::writing::Writer;
use s3_cards::{LevelId, Name};
use s3_labels::{Area, AreaSlots, FileLabel, Organization, Pack, Refused, Slot};
use s3_store::MemoryStore;
use std::alloc::{AllocError, Global};

/// How many bytes a sector has.
const SECTOR: usize = 256;

/// How many bytes a slot has.
const SLOT: usize = 64;

/// The first sector of the slots, of the spool blocks, of the sectors after these, and of the regions.
const SLOTS: usize = 1;

const SPOOL: usize = 25;

const SPARE: usize = 153;

const REGIONS: usize = 168;

/// A run of bytes of a pack that a file has.
#[derive(Clone, Copy)]
struct Run {
    /// Its first byte in the pack, and the place after its last byte.
    from: usize,
    to: usize,
    /// How many bytes of the file are before it.
    before: usize,
    /// The area and the label of the file.
    area: Area,
    name: Name,
    /// The length of a record, and how many bytes all records have.
    record_length: usize,
    records: usize,
    /// The index, if the file has one.
    index: Option<IndexLine>,
}

/// A pack as a text.
#[derive(Drop)]
pub struct DumpedPack {
    /// The text.
    pub text: Vec<u8>,
    /// The files with layouts that have records of other types, which have no fields in the text.
    pub unlaid: Vec<Unlaid>,
}

/// A pack as a text that represents its bytes. A record that has one of these layouts has notes with its fields. Refused only if
/// memory is.
#[tactic(auto, using(crate::proofs::WriterLemmas::keeps_on))]
pub fn dump(
    alloc: Global,
    pack: &[u8],
    layouts: &[FileLayout<'_>],
) -> Result<DumpedPack, AllocError>
    ensures { IfOk result (λ dump. restored dump.text.items ≡ Some pack.now) }
{
    let mut writer = Writer::new(alloc, pack);
    let mut laid = Laid {
        layouts,
        unlaid: Vec::new(alloc),
    };
    writer.note(b"a dump of `bureau`: [codes], *zeros, # notes")?;
    write_pieces(alloc, pack, &mut writer, &mut laid)?;
    write_sectors(alloc, &mut writer, pack.len())?;
    let Laid { layouts: _, unlaid } = laid;
    Ok(DumpedPack {
        text: writer.ended()?,
        unlaid,
    })
}

/// Writes what a pack has in its areas; nothing if it can't be mounted.
#[tactic(auto, using(crate::proofs::WriterLemmas::keeps_all, crate::proofs::WriterLemmas::keeps_then))]
fn write_pieces(
    alloc: Global,
    pack: &[u8],
    writer: &mut Writer<'_>,
    laid: &mut Laid<'_>,
) -> Result<(), AllocError>
    ensures { OnOk result (Keeps writer.old writer.new) }
{
    let store = MemoryStore::from_bytes(Vec::from_slice(alloc, pack)?);
    match Pack::over(alloc, store) {
        Ok(Pack { pool: _pool, areas }) => write_areas(alloc, &areas, writer, laid),
        Err(
            Refused {
                pool: _pool,
                fault: _fault,
            },
        ) => Ok(()),
    }
}

/// Writes the header, the slots, the spool blocks and the files.
#[tactic(auto, using(crate::proofs::WriterLemmas::keeps_all, crate::proofs::WriterLemmas::keeps_then))]
fn write_areas(
    alloc: Global,
    areas: &AreaSlots,
    writer: &mut Writer<'_>,
    laid: &mut Laid<'_>,
) -> Result<(), AllocError>
    ensures { OnOk result (Keeps writer.old writer.new) }
{
    let note = header_note(alloc, &areas.header())?;
    writer.write_part(SLOTS * SECTOR, note.as_str())?;
    let mut runs = Vec::new(alloc);
    write_slots(alloc, Area::Masters, areas.masters(), writer, &mut runs)?;
    let level_one = Area::Level(LevelId::One);
    write_slots(
        alloc,
        level_one,
        areas.slots(LevelId::One),
        writer,
        &mut runs,
    )?;
    let level_two = Area::Level(LevelId::Two);
    write_slots(
        alloc,
        level_two,
        areas.slots(LevelId::Two),
        writer,
        &mut runs,
    )?;
    write_spool(alloc, writer)?;
    write_sectors(alloc, writer, REGIONS * SECTOR)?;
    sort_runs(&mut runs)?;
    for run in &runs {
        write_sectors(alloc, writer, run.from)?;
        write_run(alloc, writer, run, &runs, laid)?;
    }
    Ok(())
}

/// Sorts runs by their places in the pack.
fn sort_runs(runs: &mut Vec<Run>) -> Result<(), AllocError> {
    runs.sort_by_key(|run: &Run| run.from)
}

/// Writes the slots of an area, and adds the runs of its files.
#[tactic(auto, using(crate::proofs::WriterLemmas::keeps_all, crate::proofs::WriterLemmas::keeps_then))]
fn write_slots(
    alloc: Global,
    area: Area,
    slots: &[Slot],
    writer: &mut Writer<'_>,
    runs: &mut Vec<Run>,
) -> Result<(), AllocError>
    ensures { OnOk result (Keeps writer.old writer.new) }
{
    let first = usize::from(area.label_sector(0)) * SECTOR;
    for (place, slot) in slots.iter().enumerate() {
        let note = slot_note(alloc, area, place, slot)?;
        writer.write_part(first + (place.min(31) + 1) * SLOT, note.as_str())?;
        if let Slot::Sound(label) = slot {
            add_runs(area, label, runs)?;
        }
    }
    Ok(())
}

/// Adds the runs of a file.
fn add_runs(area: Area, label: &FileLabel, runs: &mut Vec<Run>) -> Result<(), AllocError> {
    let record_length = usize::from(label.record_length);
    let mut before = 0usize;
    for extent in label.extents.as_slice() {
        let from = usize::from(extent.start).saturating_mul(SECTOR);
        let long = usize::from(extent.sectors).saturating_mul(SECTOR);
        runs.push(Run {
            from,
            to: from.saturating_add(long),
            before,
            area,
            name: label.name,
            record_length,
            index: index_line(label),
            records: (label.count as usize).saturating_mul(record_length),
        })?;
        before = before.saturating_add(long);
    }
    Ok(())
}

/// The line for the index of a file, if it has one.
fn index_line(label: &FileLabel) -> Option<IndexLine> {
    match label.organization {
        Organization::Indexed => Some(IndexLine {
            count: label.count,
            record_length: u32::from(label.record_length),
            sectors: record_sectors(label),
            key_start: u32::from(label.key_start),
            key_length: u32::from(label.key_length),
        }),
        Organization::Sequential | Organization::Direct => None,
    }
}

/// How many sectors the records of a file have. A file of a pack has at most 65,535.
fn record_sectors(label: &FileLabel) -> u32 {
    let bytes = u64::from(label.capacity).saturating_mul(u64::from(label.record_length));
    bytes.div_ceil(256).min(65_535) as u32
}

/// Writes the spool blocks.
#[tactic(auto, using(crate::proofs::WriterLemmas::keeps_all, crate::proofs::WriterLemmas::keeps_then))]
fn write_spool(alloc: Global, writer: &mut Writer<'_>) -> Result<(), AllocError>
    ensures { OnOk result (Keeps writer.old writer.new) }
{
    for block in 0..SPARE - SPOOL {
        let note = spool_note(
            alloc,
            block,
            writer.bytes(writer.place(), writer.place().saturating_add(4)),
        )?;
        writer.write_part((SPOOL + block + 1) * SECTOR, note.as_str())?;
    }
    Ok(())
}

/// Writes sectors that no file has, up to a place.
#[tactic(auto, using(crate::proofs::WriterLemmas::keeps_all, crate::proofs::WriterLemmas::keeps_then))]
fn write_sectors(alloc: Global, writer: &mut Writer<'_>, to: usize) -> Result<(), AllocError>
    ensures { OnOk result (Keeps writer.old writer.new) }
{
    let mut place = writer.place();
    while place < to {
        let next = sector_end(place, to);
        let note = sector_note(alloc, place / SECTOR)?;
        writer.write_part(next, note.as_str())?;
        place = next;
    }
    Ok(())
}

/// The end of the sector of a place, or the end of the sectors that are written if it comes first.
fn sector_end(place: usize, to: usize) -> usize
    requires { place < to }
    ensures { place < result }
{
    (place / SECTOR + 1).saturating_mul(SECTOR).min(to)
}

/// Writes a run of a file: its records, a line each, and the sectors after them.
#[tactic(auto, using(crate::proofs::WriterLemmas::keeps_all, crate::proofs::WriterLemmas::keeps_then))]
fn write_run(
    alloc: Global,
    writer: &mut Writer<'_>,
    run: &Run,
    runs: &[Run],
    laid: &mut Laid<'_>,
) -> Result<(), AllocError>
    ensures { OnOk result (Keeps writer.old writer.new) }
{
    let after = run.records.saturating_sub(run.before);
    let records_end = run.from.saturating_add(after).min(run.to);
    if run.from < records_end {
        write_records(alloc, writer, run, runs, laid, records_end)?;
    }
    write_rest(alloc, writer, run)
}

/// Writes the records of a run, up to the end of those that the label counts, or of the run.
#[tactic(auto, using(crate::proofs::WriterLemmas::keeps_all, crate::proofs::WriterLemmas::keeps_then))]
fn write_records(
    alloc: Global,
    writer: &mut Writer<'_>,
    run: &Run,
    runs: &[Run],
    laid: &mut Laid<'_>,
    end: usize,
) -> Result<(), AllocError>
    ensures { OnOk result (Keeps writer.old writer.new) }
{
    let long = run.record_length.max(1);
    let number = run.before / long;
    let note = records_note(alloc, run.area, run.name, number.saturating_add(1))?;
    writer.note(note.as_bytes())?;
    // the end in the run of the record with which it begins
    let mut next = run.from.saturating_add(long - run.before % long);
    while next < end {
        write_record(alloc, writer, run, runs, laid, next)?;
        next = next.saturating_add(long);
    }
    write_record(alloc, writer, run, runs, laid, end)
}

/// Writes a record up to a place, with notes about its fields if it begins here and has a layout.
#[tactic(auto, using(crate::proofs::NoteLemmas::fields_lie, crate::proofs::WriterLemmas::keeps_all, crate::proofs::WriterLemmas::keeps_then))]
fn write_record(
    alloc: Global,
    writer: &mut Writer<'_>,
    run: &Run,
    runs: &[Run],
    laid: &mut Laid<'_>,
    to: usize,
) -> Result<(), AllocError>
    ensures { OnOk result (Keeps writer.old writer.new) }
{
    if laid.has_file(run.area, run.name) && begins_record(run, writer.place()) {
        let bytes = record_at(alloc, writer, run, runs)?;
        if let Some(layout) = laid.layout_of(run.area, run.name, &bytes)? {
            write_fields(alloc, writer, &layout.fields, &bytes)?;
        }
    }
    writer.write_record(to)
}

/// Whether a record begins at a place of a run; the first one may have begun in the run before.
fn begins_record(run: &Run, place: usize) -> bool {
    let before = run.before.saturating_add(place.saturating_sub(run.from));
    before % run.record_length.max(1) == 0
}

/// The bytes of the record that begins at the place, which may go on in the next run of the file.
fn record_at(
    alloc: Global,
    writer: &Writer<'_>,
    run: &Run,
    runs: &[Run],
) -> Result<Vec<u8>, AllocError> {
    let from = writer.place();
    let to = from.saturating_add(run.record_length);
    let mut bytes = Vec::from_slice(alloc, writer.bytes(from, to.min(run.to)))?;
    if run.to < to {
        if let Some(next) = runs.iter().find(|next| goes_on_in(run, next)) {
            let more = writer.bytes(next.from, next.from.saturating_add(to - run.to));
            bytes.extend_from_slice(more)?;
        }
    }
    Ok(bytes)
}

/// Whether a run is the next one of a run's file.
fn goes_on_in(run: &Run, next: &Run) -> bool {
    next.area == run.area
        && next.name == run.name
        && next.before == run.before.saturating_add(run.to.saturating_sub(run.from))
}

/// Writes what a run has after its records. The index has one line if all records are before it in the run.
#[tactic(auto, using(crate::proofs::WriterLemmas::keeps_all, crate::proofs::WriterLemmas::keeps_then))]
fn write_rest(alloc: Global, writer: &mut Writer<'_>, run: &Run) -> Result<(), AllocError>
    ensures { OnOk result (Keeps writer.old writer.new) }
{
    let note = after_note(alloc, run.area, run.name)?;
    let mut place = writer.place();
    let mut is_noted = false;
    while place < run.to {
        let next = sector_end(place, run.to);
        write_index(alloc, writer, run, place)?;
        let length = writer.text.len();
        writer.write_part(next, if is_noted { "" } else { note.as_str() })?;
        is_noted = is_noted || writer.text.len() > length;
        place = next;
    }
    Ok(())
}

/// Writes the index of a file's records, if its bytes begin at a place of the file's first run and are that.
#[tactic(auto, using(crate::proofs::WriterLemmas::keeps_all, crate::proofs::WriterLemmas::keeps_then))]
fn write_index(
    alloc: Global,
    writer: &mut Writer<'_>,
    run: &Run,
    place: usize,
) -> Result<(), AllocError>
    ensures { OnOk result (Keeps writer.old writer.new) }
{
    if let Some(line) = &run.index {
        if begins_index(run, line, place) && writer.place() == place {
            let note = index_note(alloc, run.area, run.name)?;
            writer.write_index(alloc, line, note.as_str())?;
        }
    }
    Ok(())
}

/// Whether the index of a file begins at a place of a run, which has all records.
fn begins_index(run: &Run, line: &IndexLine, place: usize) -> bool {
    run.before == 0
        && place
            == run
                .from
                .saturating_add((line.sectors as usize).saturating_mul(SECTOR))
}
