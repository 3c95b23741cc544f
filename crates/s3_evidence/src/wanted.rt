//! What is to be read of the pack for a halt.
ghost use Rattle.std.specs.Prelude.{◌≡◌, true, None, IfOk, IfSome, OnOk};
ghost use Rattle.std.specs.List.{All, list_any};
ghost use Rattle.s3_slots.specs.declared.slot.Standing.TheVariants.{Present};
ghost use Rattle.s3_slots.specs.Slots.{standing};
ghost use Rattle.s3_job_files.specs.Inner.Holds.{slots_by};
ghost use Rattle.s3_solo.specs.World.{World};
ghost use Rattle.s3_level.specs.Inner.Holds.{Around, Holds};
ghost use Rattle.s3_level.specs.Inner.Queries.{files_of};
ghost use Rattle.s3_evidence.specs.declared.wanted.Wanted.TheVariants.{Nothing};
ghost use Rattle.s3_evidence.specs.Inner.About.{HasIndex, IsInUse, IsOwnArea, IsWanted, has_in_use};

use crate::at_fault::{Asked, Found};
use crate::begun::Source;
use s3_bureau::Bureau;
use s3_cards::{LevelId, Name};
use s3_cycle::{Cycle, Stand, Totals};
use s3_decks::job_before;
use s3_job_files::OpenFile;
use s3_labels::{Area, AreaSlots, FileLabel, Organization, Slot, Standing};
use s3_level::Level;
use s3_lines::sheet::{
    CalculationTime, FileLine, Line, Operation, OutputKind, OutputLine, SheetLine,
};
use s3_operator::HaltCode;
use s3_slots::standing_of;
use s3_store::PackStore;
use std::alloc::{AllocError, Global};

/// The most files of a program.
const MOST_FILES: usize = 20;

/// A record of a file, by its place from 0.
#[derive(Clone, Copy)]
pub(crate) enum RecordPlace {
    /// In the order in which the records were written.
    InOrder(u32),
    /// In the order of the keys of its index on the pack.
    ByKey(u32),
}

/// What is to be read.
#[derive(Drop)]
pub(crate) enum Wanted {
    /// Nothing.
    Nothing,
    /// Records of a file.
    Records {
        /// Its label.
        label: FileLabel,
        /// The record that was read last.
        last: Option<RecordPlace>,
        /// The one before it.
        before: Option<RecordPlace>,
    },
    /// The last two records that were read of each file that the cycle reads.
    Totals(Vec<WantedRecord>),
    /// Slots that block labels.
    Slots(Vec<SlotPlace>),
    /// The indexes of these files, each under its label.
    Indexes(Vec<(Name, FileLabel)>),
}

/// A record of a file that the job has in use.
#[derive(Drop)]
pub(crate) struct WantedRecord {
    /// The name by which the program knows the file.
    pub(crate) file: Name,
    /// Its number among the records of the file that were read, from 1.
    pub(crate) number: u32,
    /// The label of the file.
    pub(crate) label: FileLabel,
    /// Its place in the file.
    pub(crate) place: RecordPlace,
}

/// A damaged slot under a label.
#[derive(Clone, Copy)]
pub(crate) struct SlotPlace {
    /// The label.
    pub(crate) label: Name,
    /// The area.
    pub(crate) area: Area,
    /// The number of the slot, 0 to 31.
    pub(crate) slot: usize,
}

/// What is to be read of the pack for the halt that waits in a level.
pub(crate) fn find_wanted<S: PackStore>(
    alloc: Global,
    bureau: &Bureau<S>,
    level: LevelId,
) -> Result<Wanted, AllocError>
    ensures { IfOk result (λ wanted. IsWanted level bureau.now wanted) }
{
    let held = bureau.level(level);
    let Some(code) = held.waits() else {
        return Ok(Wanted::Nothing);
    };
    match code {
        HaltCode::UnidentifiedRecord
        | HaltCode::OutOfSequence
        | HaltCode::KeyNotAscending
        | HaltCode::KeyChanged => Ok(or_nothing(wanted_at_work(bureau, level, code))),
        HaltCode::DamagedLabel | HaltCode::BadIndex => {
            wanted_at_start(alloc, bureau, level, code)
        }
        _ => wanted_of_cycle(alloc, bureau, level),
    }
}

/// What is wanted, or nothing.
fn or_nothing(wanted: Option<Wanted>) -> Wanted
    ensures some { IfSome wanted (λ it. result ≡ it) }
    ensures none { wanted ≡ None → result ≡ Nothing }
{
    match wanted {
        Some(it) => it,
        None => Wanted::Nothing,
    }
}

// ---- a program at work

/// Whether a program at work halts in a calculation or an output line at totals before a record.
fn is_at_totals(cycle: &Cycle) -> bool {
    matches!(cycle.totals(), Totals::Before { .. })
        && matches!(
            cycle.stand(),
            Stand::Calculation { .. } | Stand::Output { .. }
        )
}

/// The records that are to be read if a program at work halts at totals before a record: one of them is the one that was processed last,
/// unless that was a card. The cycle has the record that brought the totals on, not the one that was processed.
fn wanted_of_cycle<S: PackStore>(
    alloc: Global,
    bureau: &Bureau<S>,
    level: LevelId,
) -> Result<Wanted, AllocError>
    ensures { IfOk result (λ wanted. IsWanted level bureau.now wanted) }
{
    match bureau.level(level).cycle() {
        Some(cycle) if is_at_totals(cycle) => {
            Ok(Wanted::Totals(last_records(alloc, bureau, level, cycle)?))
        }
        _ => Ok(Wanted::Nothing),
    }
}

/// The last two records that were read of each file on disk that the cycle reads.
fn last_records<S: PackStore>(
    alloc: Global,
    bureau: &Bureau<S>,
    level: LevelId,
    cycle: &Cycle,
) -> Result<Vec<WantedRecord>, AllocError>
    ensures { IfOk result (λ records. All (λ one. IsInUse level bureau.now one.label) records.items) }
{
    let mut records = Vec::new(alloc);
    for line in cycle.file_lines() {
        push_last_two(&mut records, bureau, level, line)?;
    }
    Ok(records)
}

/// Adds the last two records that were read of a file, if the cycle reads it and the job has it in use.
fn push_last_two<S: PackStore>(
    records: &mut Vec<WantedRecord>,
    bureau: &Bureau<S>,
    level: LevelId,
    line: &FileLine,
) -> Result<(), AllocError>
    ensures { OnOk result (All (λ one. IsInUse level bureau.now one.label) records.old.items → All (λ one. IsInUse level bureau.now one.label) records.new.items) }
{
    if !line.is_by_cycle() {
        return Ok(());
    }
    let count = count_read(bureau.level(level), line.name);
    push_record(records, bureau, level, line.name, count)?;
    push_record(records, bureau, level, line.name, count.saturating_sub(1))?;
    Ok(())
}

/// How many records of a file were read; 0 if the job doesn't have it in use.
fn count_read(held: &Level, name: Name) -> u32 {
    match open_file(held, name) {
        Some(file) => file.read,
        None => 0,
    }
}

/// Adds the record of a file that was read as the n-th, from 1, if the job has the file in use.
fn push_record<S: PackStore>(
    records: &mut Vec<WantedRecord>,
    bureau: &Bureau<S>,
    level: LevelId,
    name: Name,
    n: u32,
) -> Result<(), AllocError>
    ensures { OnOk result (All (λ one. IsInUse level bureau.now one.label) records.old.items → All (λ one. IsInUse level bureau.now one.label) records.new.items) }
{
    match wanted_record(bureau, level, name, n) {
        Some(record) => Ok(records.push(record)?),
        None => Ok(()),
    }
}

/// The record of a file that was read as the n-th, from 1.
fn wanted_record<S: PackStore>(
    bureau: &Bureau<S>,
    level: LevelId,
    name: Name,
    n: u32,
) -> Option<WantedRecord>
    ensures { IfSome result (λ one. IsInUse level bureau.now one.label) }
{
    let file = open_file(bureau.level(level), name)?;
    let label = label_of(bureau.areas(), level, file)?;
    let place = nth_read(file, n)?;
    Some(WantedRecord {
        file: name,
        number: n,
        label,
        place,
    })
}

/// The records that are to be read if a program at work halts. Its source isn't needed for that.
fn wanted_at_work<S: PackStore>(
    bureau: &Bureau<S>,
    level: LevelId,
    code: HaltCode,
) -> Option<Wanted>
    ensures { IfSome result (λ wanted. IsWanted level bureau.now wanted) }
{
    let held = bureau.level(level);
    let cycle = held.cycle()?;
    let line = cycle.file_line(cycle.file_there()?)?;
    let file = open_file(held, line.name)?;
    let label = label_of(bureau.areas(), level, file)?;
    let (last, before) = places_wanted(cycle, file, line, code);
    Some(Wanted::Records {
        label,
        last,
        before,
    })
}

/// The file of a job that its program knows by this name.
#[tactic(auto, using(crate::proofs::Abouts::is_in_use))]
fn open_file(held: &Level, name: Name) -> Option<&OpenFile>
    ensures { IfSome result (λ file. (beside : Around) (w : World) → Holds held.now beside w → list_any (has_in_use file.now.is_master file.now.label.name) (files_of w.job) ≡ true) }
{
    for file in held.files() {
        if file.name == name {
            return Some(file);
        }
    }
    None
}

/// The label of a file that the job of a level has in use, as the pack has it.
fn label_of(areas: &AreaSlots, level: LevelId, file: &OpenFile) -> Option<FileLabel>
    ensures { IfSome result (λ label. standing file.now.label.name (slots_by file.now.is_master level areas.now) ≡ Present label) }
{
    let slots = if file.is_master {
        areas.masters()
    } else {
        areas.slots(level)
    };
    match standing_of(file.label.name, slots) {
        Standing::Present(label) => Some(label),
        Standing::Absent | Standing::Blocked => None,
    }
}

/// The places of the record that was read last and of the one before it.
fn places_wanted(
    cycle: &Cycle,
    file: &OpenFile,
    line: &FileLine,
    code: HaltCode,
) -> (Option<RecordPlace>, Option<RecordPlace>) {
    match cycle.stand() {
        Stand::Head { number, .. } => (
            nth_read(file, number),
            nth_read(file, number.saturating_sub(1)),
        ),
        Stand::Calculation { .. } => (file.chained.map(RecordPlace::InOrder), None),
        Stand::Output { .. } => match code {
            HaltCode::KeyNotAscending => (None, last_of(file)),
            _ => (None, current_of(cycle, file, line)),
        },
        Stand::Nowhere | Stand::Field { .. } | Stand::ChainedField { .. } => (None, None),
    }
}

/// The record of a file that was read as the n-th, from 1.
fn nth_read(file: &OpenFile, n: u32) -> Option<RecordPlace> {
    let place = n.checked_sub(1)?;
    Some(match file.label.organization {
        Organization::Indexed => RecordPlace::ByKey(place),
        Organization::Sequential | Organization::Direct => RecordPlace::InOrder(place),
    })
}

/// The last record of a file that is loaded.
fn last_of(file: &OpenFile) -> Option<RecordPlace> {
    Some(RecordPlace::InOrder(file.records.len().checked_sub(1)?))
}

/// The record that an output line updates, as far as the reads alone say which it is: the last one that was chained; of the only file
/// that the cycle reads the last one that was read, which is the one that is updated at detail time.
fn current_of(cycle: &Cycle, file: &OpenFile, line: &FileLine) -> Option<RecordPlace> {
    if line.is_chained() {
        return file.chained.map(RecordPlace::InOrder);
    }
    if !reads_one_file(cycle) {
        return None;
    }
    nth_read(file, file.read)
}

/// Whether one file alone is primary or secondary.
fn reads_one_file(cycle: &Cycle) -> bool {
    let mut count: u32 = 0;
    for slot in 0..MOST_FILES {
        match cycle.file_line(slot) {
            Some(line) if line.is_primary() || line.is_secondary() => {
                count = count.saturating_add(1);
            }
            Some(_line) => {}
            None => break,
        }
    }
    count == 1
}

impl Source {
    /// The F line of a slot.
    pub fn file_at(&self, slot: usize) -> Option<&FileLine> {
        let mut left = slot;
        for line in &self.lines {
            if let SheetLine::File(file) = &line.sheet {
                match left.checked_sub(1) {
                    Some(less) => left = less,
                    None => return Some(file),
                }
            }
        }
        None
    }

    /// The line at a place among those of the O sheet.
    pub fn output_at(&self, place: usize) -> Option<&Line> {
        self.lines
            .iter()
            .filter(|line| matches!(line.sheet, SheetLine::Output(_)))
            .nth(place)
    }

    /// The line at a place among those of the I sheet.
    pub fn input_at(&self, place: usize) -> Option<&Line> {
        self.lines
            .iter()
            .filter(|line| matches!(line.sheet, SheetLine::Input(_)))
            .nth(place)
    }

    /// The line at a place among those of the C sheet.
    pub fn calculation_at(&self, place: usize) -> Option<&Line> {
        self.lines
            .iter()
            .filter(|line| matches!(line.sheet, SheetLine::Calculation(_)))
            .nth(place)
    }

    /// Whether the output line at a place is written before the next record is read.
    pub fn is_at_detail_time(&self, place: usize) -> bool {
        match self.output_at(place) {
            Some(
                Line {
                    card: _,
                    sheet: SheetLine::Output(OutputLine::Line(card)),
                },
            ) => match card.kind {
                OutputKind::Heading | OutputKind::Detail => true,
                OutputKind::Exception => !self.has_total_exceptions(),
                OutputKind::Total => false,
            },
            _ => false,
        }
    }

    /// Whether the program may have an EXCPT at total time.
    fn has_total_exceptions(&self) -> bool {
        self.lines.iter().any(|line| match &line.sheet {
            SheetLine::Calculation(calculation) => {
                matches!(calculation.operation, Some(Operation::Except))
                    && !matches!(calculation.time, CalculationTime::Detail)
            }
            _ => false,
        })
    }
}

// ---- a job that doesn't start

/// What must be read if a job doesn't start: each of its FILE statements, so that the jobs before it and its source aren't read
/// for that.
fn wanted_at_start<S: PackStore>(
    alloc: Global,
    bureau: &Bureau<S>,
    level: LevelId,
    code: HaltCode,
) -> Result<Wanted, AllocError>
    ensures { IfOk result (λ wanted. IsWanted level bureau.now wanted) }
{
    let held = bureau.level(level);
    let Some(job) = job_before(alloc, held.deck(), held.place())? else {
        return Ok(Wanted::Nothing);
    };
    let asked = Asked {
        level,
        areas: bureau.areas(),
        statements: job.files(),
        switches: [false; 8],
    };
    match code {
        HaltCode::DamagedLabel => Ok(Wanted::Slots(blocking_slots(alloc, &asked)?)),
        _ => Ok(Wanted::Indexes(indexed_files(alloc, &asked)?)),
    }
}

/// The damaged slots under the labels of the FILE statements of a job, in the area of its level and among the masters.
fn blocking_slots(alloc: Global, asked: &Asked<'_>) -> Result<Vec<SlotPlace>, AllocError>
    ensures { IfOk result (λ slots. All (λ place. IsOwnArea asked.now.level place.area) slots.items) }
{
    let mut slots = Vec::new(alloc);
    for statement in asked.statements {
        push_slot(&mut slots, asked, statement.label, Area::Level(asked.level))?;
        push_slot(&mut slots, asked, statement.label, Area::Masters)?;
    }
    Ok(slots)
}

/// Adds the first damaged slot of an area that has a label, if there is one that isn't among them.
fn push_slot(
    slots: &mut Vec<SlotPlace>,
    asked: &Asked<'_>,
    label: Name,
    area: Area,
) -> Result<(), AllocError>
    ensures { OnOk result (IsOwnArea asked.now.level area → All (λ place. IsOwnArea asked.now.level place.area) slots.old.items → All (λ place. IsOwnArea asked.now.level place.area) slots.new.items) }
{
    let found = asked
        .areas
        .slots_of(area)
        .iter()
        .position(|slot| is_damaged_under(label, slot));
    let is_known = slots
        .iter()
        .any(|slot| slot.area == area && slot.label == label);
    match found {
        Some(slot) if !is_known => Ok(slots.push(SlotPlace { label, area, slot })?),
        _ => Ok(()),
    }
}

fn is_damaged_under(label: Name, slot: &Slot) -> bool {
    match slot {
        Slot::Damaged(Some(name)) => *name == label,
        Slot::Damaged(None) | Slot::Free | Slot::Sound(_) => false,
    }
}

/// The files with an index that the FILE statements of a job find, each once.
fn indexed_files(alloc: Global, asked: &Asked<'_>) -> Result<Vec<(Name, FileLabel)>, AllocError>
    ensures { IfOk result (λ files. All (λ file. HasIndex asked.now.level asked.now.areas.now file.0 file.1) files.items) }
{
    let mut files = Vec::new(alloc);
    for statement in asked.statements {
        push_indexed(&mut files, asked, statement.label)?;
    }
    Ok(files)
}

/// Adds the file that a label finds, if it has an index and isn't among them.
fn push_indexed(
    files: &mut Vec<(Name, FileLabel)>,
    asked: &Asked<'_>,
    label: Name,
) -> Result<(), AllocError>
    ensures { OnOk result (All (λ file. HasIndex asked.now.level asked.now.areas.now file.0 file.1) files.old.items → All (λ file. HasIndex asked.now.level asked.now.areas.now file.0 file.1) files.new.items) }
{
    let is_known = files.iter().any(|file| file.0 == label);
    match asked.found(label) {
        Found::File(file, _) if !is_known && file.organization == Organization::Indexed => {
            Ok(files.push((label, file))?)
        }
        _ => Ok(()),
    }
}
