//! The look at the pack.
ghost use Rattle.std.specs.Prelude.{◌≡◌, ◌≢◌, ◌+◌, ◌++◌, [], ◌∷◌, true, false, Err, IfOk, OnOk};
ghost use Rattle.std.specs.List.{All};
ghost use Rattle.s3_cards.specs.declared.levels.LevelId.{LevelId};
ghost use Rattle.s3_store.specs.Inner.State.{KeepsContents};
ghost use Rattle.s3_solo.specs.World.{World};
ghost use Rattle.s3_bureau.specs.Inner.Held.{HoldsFor, is_open, level_of};
ghost use Rattle.s3_bureau.specs.Inner.Stops.{failed_stop};
ghost use Rattle.s3_labels.specs.Inner.Areas.{Areas};
ghost use Rattle.s3_slots.specs.declared.label.FileLabel.{FileLabel};
ghost use Rattle.s3_evidence.specs.Inner.About.{HasIndex, IsAbout, IsInUse, IsOwnArea, IsReadInUse, IsRecordOf};
ghost use Rattle.s3_evidence.specs.Inner.Looks.{Looks, stop_in};

use crate::evidence::{BlockingSlot, CheckedIndex, Evidence, IndexFlaw, RecordRead};
use crate::index::{entry_place, flaw_of, number_behind};
use crate::reading::{Sectors, read_bytes, read_sectors};
use crate::wanted::{RecordPlace, SlotPlace, Wanted, WantedRecord, find_wanted};
use s3_bureau::{Bureau, Stop};
use s3_cards::{LevelId, Name};
use s3_labels::{Area, FileLabel};
use s3_store::{PackStore, Stretch};
use std::alloc::{AllocError, Global};

/// The sectors of an area's labels.
const AREA_SECTORS: u16 = 8;

/// The bytes of a slot.
const SLOT_BYTES: u16 = 64;

/// What the pack has about the halt that waits in a level. No sector changes, and no world that is held.
///
/// If memory runs out it answers `Stop::NoMemory`, and if a transfer of the store fails `Stop::Device`. After either the bureau
/// may have stopped.
#[tactic(auto, using(crate::proofs::Looks::looks_held, crate::proofs::Looks::looks_back, crate::proofs::Looks::count_of, crate::proofs::Looks::not_stopped, crate::proofs::Abouts::about_after))]
pub fn look<S: PackStore>(
    alloc: Global,
    bureau: &mut Bureau<S>,
    level: LevelId,
) -> Result<Evidence, Stop>
    // It is of the level's own: of files that its job has in use, of its area and of the masters.
    ensures about { IfOk result (λ evidence. IsAbout level bureau.new evidence) }

    ensures held { OnOk result ((one_or_two : LevelId) (w : World) → HoldsFor one_or_two bureau.old w → HoldsFor one_or_two bureau.new w) }
    ensures held_before { (one_or_two : LevelId) (w : World) → HoldsFor one_or_two bureau.new w → HoldsFor one_or_two bureau.old w }

    // All stays as it is; only what the pool alone had may now be in the store too.
    ensures levels { (one_or_two : LevelId) → level_of one_or_two bureau.new ≡ level_of one_or_two bureau.old }
    ensures areas { bureau.new.beside.areas ≡ bureau.old.beside.areas }
    ensures blocks { bureau.new.beside.blocks ≡ bureau.old.beside.blocks }
    ensures keeps { KeepsContents bureau.old.beside.state bureau.new.beside.state }
    ensures goes_on { OnOk result (bureau.new.phase ≡ bureau.old.phase) }

    ensures closed { is_open bureau.old ≡ false → bureau.new ≡ bureau.old }
    ensures not_before { is_open bureau.old ≡ true → result ≢ Err Stop.Stopped }
    ensures failures { bureau.new.beside.state.failures ≡ bureau.old.beside.state.failures + failed_stop result }
{
    read_evidence(alloc, bureau, level)
}

/// Reads what the pack has about the halt that waits in a level.
#[tactic(auto, using(crate::proofs::Looks::looks_none, crate::proofs::Looks::looks_refused, crate::proofs::Looks::looks_then))]
fn read_evidence<S: PackStore>(
    alloc: Global,
    bureau: &mut Bureau<S>,
    level: LevelId,
) -> Result<Evidence, Stop>
    ensures looks { Looks (stop_in result) bureau.old bureau.new }
    ensures about { IfOk result (λ evidence. IsAbout level bureau.old evidence) }
{
    match find_wanted(alloc, bureau, level)? {
        Wanted::Nothing => Ok(Evidence::Nothing),
        Wanted::Records {
            label,
            last,
            before,
        } => {
            let last = read_record(alloc, bureau, &label, last)?;
            let before = read_record(alloc, bureau, &label, before)?;
            Ok(Evidence::Records { last, before })
        }
        Wanted::Totals(records) => Ok(Evidence::Totals(read_records(alloc, bureau, &records)?)),
        Wanted::Slots(places) => Ok(Evidence::Slots(read_slots(alloc, bureau, &places)?)),
        Wanted::Indexes(files) => Ok(Evidence::Indexes(check_indexes(alloc, bureau, &files)?)),
    }
}

/// A record of a file; none if no place is named, or if the pack doesn't have it.
#[tactic(auto, using(crate::proofs::Looks::looks_none, crate::proofs::Looks::looks_refused, crate::proofs::Looks::looks_then))]
fn read_record<S: PackStore>(
    alloc: Global,
    bureau: &mut Bureau<S>,
    label: &FileLabel,
    place: Option<RecordPlace>,
) -> Result<Option<Vec<u8>>, Stop>
    ensures looks { Looks (stop_in result) bureau.old bureau.new }
    ensures from { IfOk result (λ read. IsRecordOf label.now bureau.old.beside.state.contents read) }
{
    let Some(place) = place else {
        return Ok(None);
    };
    let Some(i) = place_in_order(alloc, bureau, label, place)? else {
        return Ok(None);
    };
    let at = u64::from(i).saturating_mul(u64::from(label.record_length));
    read_bytes(
        alloc,
        bureau,
        label.extents.as_slice(),
        at,
        label.record_length,
    )
}

/// Records of files, as far as the pack has them.
#[tactic(auto, using(crate::proofs::Looks::looks_none, crate::proofs::Looks::looks_refused, crate::proofs::Looks::looks_then))]
fn read_records<S: PackStore>(
    alloc: Global,
    bureau: &mut Bureau<S>,
    records: &[WantedRecord],
) -> Result<Vec<RecordRead>, Stop>
    ensures looks { Looks (stop_in result) bureau.old bureau.new }
    ensures from { IfOk result (λ read. (level : LevelId) → All (λ one. IsInUse level bureau.old one.label) records.now → All (IsReadInUse level bureau.old) read.items) }
{
    let mut read = Vec::new(alloc);
    for wanted in records {
        if let Some(bytes) = read_record(alloc, bureau, &wanted.label, Some(wanted.place))? {
            let one = RecordRead {
                file: wanted.file,
                number: wanted.number,
                bytes,
            };
            add(&mut read, one)?;
        }
    }
    Ok(read)
}

/// The place of a record in the order in which the records were written.
#[tactic(auto, using(crate::proofs::Looks::looks_none, crate::proofs::Looks::looks_refused, crate::proofs::Looks::looks_then))]
fn place_in_order<S: PackStore>(
    alloc: Global,
    bureau: &mut Bureau<S>,
    label: &FileLabel,
    place: RecordPlace,
) -> Result<Option<u32>, Stop>
    ensures { Looks (stop_in result) bureau.old bureau.new }
{
    match place {
        RecordPlace::InOrder(i) => Ok(Some(i)),
        RecordPlace::ByKey(n) => {
            let entry = read_bytes(
                alloc,
                bureau,
                label.extents.as_slice(),
                entry_place(label, n),
                u16::from(label.key_length) + 4,
            )?;
            Ok(place_behind(entry))
        }
    }
}

/// The place of the record that an entry of an index names.
fn place_behind(entry: Option<Vec<u8>>) -> Option<u32> {
    number_behind(&entry?)?.checked_sub(1)
}

/// Slots by their places, as far as the pack has them.
#[tactic(auto, using(crate::proofs::Looks::looks_none, crate::proofs::Looks::looks_refused, crate::proofs::Looks::looks_then))]
fn read_slots<S: PackStore>(
    alloc: Global,
    bureau: &mut Bureau<S>,
    places: &[SlotPlace],
) -> Result<Vec<BlockingSlot>, Stop>
    ensures looks { Looks (stop_in result) bureau.old bureau.new }
    ensures own { IfOk result (λ slots. (level : LevelId) → All (λ place. IsOwnArea level place.area) places.now → All (λ slot. IsOwnArea level slot.area) slots.items) }
{
    let mut slots = Vec::new(alloc);
    for place in places {
        if let Some(bytes) = read_slot(alloc, bureau, place.area, place.slot)? {
            let slot = BlockingSlot {
                label: place.label,
                area: place.area,
                slot: place.slot,
                bytes,
            };
            add(&mut slots, slot)?;
        }
    }
    Ok(slots)
}

/// The bytes of a slot of an area, by its number there, 0 to 31.
#[tactic(auto, using(crate::proofs::Looks::looks_none, crate::proofs::Looks::looks_refused, crate::proofs::Looks::looks_then))]
fn read_slot<S: PackStore>(
    alloc: Global,
    bureau: &mut Bureau<S>,
    area: Area,
    slot: usize,
) -> Result<Option<Vec<u8>>, Stop>
    ensures { Looks (stop_in result) bureau.old bureau.new }
{
    let runs = [Stretch {
        start: area.label_sector(0),
        sectors: AREA_SECTORS,
    }];
    let at = (slot as u64).saturating_mul(u64::from(SLOT_BYTES));
    read_bytes(alloc, bureau, &runs, at, SLOT_BYTES)
}

/// The first flaw of the index of each of these files.
#[tactic(auto, using(crate::proofs::Looks::looks_none, crate::proofs::Looks::looks_refused, crate::proofs::Looks::looks_then))]
fn check_indexes<S: PackStore>(
    alloc: Global,
    bureau: &mut Bureau<S>,
    files: &[(Name, FileLabel)],
) -> Result<Vec<CheckedIndex>, Stop>
    ensures looks { Looks (stop_in result) bureau.old bureau.new }
    ensures own { IfOk result (λ indexes. (level : LevelId) (areas : Areas) → All (λ file. HasIndex level areas file.0 file.1) files.now → All (λ index. (label : FileLabel) × HasIndex level areas index.label label) indexes.items) }
{
    let mut indexes = Vec::new(alloc);
    for file in files {
        let flaw = find_flaw(alloc, bureau, &file.1)?;
        let index = CheckedIndex {
            label: file.0,
            flaw,
        };
        add(&mut indexes, index)?;
    }
    Ok(indexes)
}

/// Adds an item to a list.
fn add<T: Drop>(list: &mut Vec<T>, item: T) -> Result<(), AllocError>
    ensures { OnOk result (list.new.items ≡ list.old.items ++ item ∷ []) }
{
    Ok(list.push(item)?)
}

/// The first flaw of the index of a file.
#[tactic(auto, using(crate::proofs::Looks::looks_none, crate::proofs::Looks::looks_refused, crate::proofs::Looks::looks_then))]
fn find_flaw<S: PackStore>(
    alloc: Global,
    bureau: &mut Bureau<S>,
    label: &FileLabel,
) -> Result<Option<IndexFlaw>, Stop>
    ensures { Looks (stop_in result) bureau.old bureau.new }
{
    let runs = label.extents.as_slice();
    let sectors = Sectors {
        from: 0,
        count: count_sectors(runs),
    };
    let bytes = read_sectors(alloc, bureau, runs, sectors)?;
    Ok(flaw_of(alloc, label, &bytes)?)
}

/// How many sectors some runs have.
fn count_sectors(runs: &[Stretch]) -> u64 {
    let mut count: u64 = 0;
    for run in runs {
        count = count.saturating_add(u64::from(run.sectors));
    }
    count
}
