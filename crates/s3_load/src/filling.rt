//! The file of a load: made, and filled with records.
ghost use Rattle.std.specs.Prelude.{◌≡◌, ◌<◌, true, length, IfOk, IsTrue, OnOk, IfErr};
ghost use Rattle.s3_slots.specs.Inner.Kept.{IsOfPack};
ghost use Rattle.s3_slots.specs.Inner.Making.{IsNewFile, IsSize};
ghost use Rattle.s3_slots.specs.Labels.{is_indexed, sectors_of};
ghost use Rattle.s3_slots.specs.Slots.{is_count_of as is_count_spec, standing};
ghost use Rattle.s3_slots.specs.declared.making.Size.TheVariants.{Records};
ghost use Rattle.s3_slots.specs.declared.slot.Standing.TheVariants.{Present};
ghost use Rattle.s3_labels.specs.Inner.Areas.{IsReady, slots_at};
ghost use Rattle.s3_files.specs.Inner.Files.{AreStored};
ghost use Rattle.s3_load.specs.Inner.Filling.{AddsByKey, AddsRecord, ChangesOnly, HasGoodIndex, HasMore, IsAtWork, KeepsSpare, KeepsSpareNow, counted, records_of};
ghost use Rattle.s3_load.specs.Inner.Loaded.{IsAsked, IsNewOf, at_least_one as at_least_one_spec, has_key as has_key_spec, size_asked};
ghost use Rattle.s3_load.specs.Inner.Refusals.{NamesNone};

use crate::fault::{LoadFault, Reason, ValueFault};
use crate::order::{Order, Room};
use crate::rows::{Faults, Row};
use crate::shape::has_shape;
use crate::table::{MOST_RECORDS, key_in};
use s3_cards::is_name;
use s3_files::{FileFault, RecordFile, Sequential};
use s3_keyed::{Keyed, KeyedFault};
use s3_labels::{FileLabel, LabelFault, NewFile, Organization, Pack, Size, Standing};
use s3_lines::sheet::KeyField;
use s3_slots::{is_count_of, is_key_of, standing_of};
use s3_store::MemoryStore;
use std::alloc::{AllocError, Global};

/// The most tracks of a file.
const MOST_TRACKS: u16 = 999;

/// The longest record of a pack.
const LONGEST_RECORD: u16 = 1_024;

/// The file that a load makes for so many records.
pub fn new_file(order: &Order<'_>, count: usize) -> Result<NewFile, LoadFault>
    ensures proper { IfOk result IsNewFile }
    ensures asked { IfOk result (IsNewOf order.now) }
    ensures sized { IfOk result (λ new. new.size ≡ size_asked order.now.room count) }
    ensures no_slot { IfErr result NamesNone }
{
    if !is_name(&order.name.codes) {
        return Err(LoadFault::NoName);
    }
    let record_length = order.layout.record_length;
    if record_length < 1 || record_length > LONGEST_RECORD {
        return Err(LoadFault::NoRoom);
    }
    let size = size_of(order.room, count)?;
    let (organization, key_length, key_start) = match order.key {
        None => (Organization::Sequential, 0, 0),
        Some(key) => (Organization::Indexed, key.length, key.start),
    };
    if !is_key_of(organization, record_length, key_length, key_start) {
        return Err(LoadFault::NoKey);
    }
    Ok(NewFile {
        name: order.name,
        organization,
        retention: order.retention,
        record_length,
        key_length,
        key_start,
        size,
        date: order.date,
    })
}

/// The size of a file that is to have so many records.
fn size_of(room: Room, count: usize) -> Result<Size, LoadFault>
    ensures size { IfOk result IsSize }
    ensures asked { IfOk result (λ size. size ≡ size_asked room count) }
    ensures no_slot { IfErr result NamesNone }
{
    match room {
        Room::Tracks(tracks) if 1 <= tracks && tracks <= MOST_TRACKS => Ok(Size::Tracks(tracks)),
        Room::Tracks(_) => Err(LoadFault::NoRoom),
        Room::Records(records) => size_for(records as usize),
        Room::ForTable => size_for(at_least_one(count)),
    }
}

/// The number of records that a new file has space for, by those of its table.
fn at_least_one(count: usize) -> usize
    ensures { result ≡ at_least_one_spec count }
{
    if count == 0 { 1 } else { count }
}

/// The size of a file with space for so many records.
fn size_for(records: usize) -> Result<Size, LoadFault>
    ensures size { IfOk result IsSize }
    ensures asked { IfOk result (λ size. size ≡ Records records) }
    ensures no_slot { IfErr result NamesNone }
{
    if 1 <= records && records <= MOST_RECORDS {
        Ok(Size::Records(records as u32))
    } else {
        Err(LoadFault::NoRoom)
    }
}

/// The file of the label that the level itself has, if it is of the kind of the layout.
#[tactic(auto, using(s3_labels::proofs::Regions::own_on_pack))]
pub fn file_there(pack: &Pack<MemoryStore>, order: &Order<'_>) -> Result<FileLabel, LoadFault>
    requires { IsReady pack.now.areas pack.now.pool }
    ensures on_pack { IfOk result (IsOfPack (length pack.now.pool)) }
    ensures stands { IfOk result (λ label. standing order.now.name (slots_at order.now.level pack.now.areas) ≡ Present label) }
    ensures asked { IfOk result (IsAsked order.now) }
    ensures no_slot { IfErr result NamesNone }
{
    match standing_of(order.name, pack.areas.slots(order.level)) {
        Standing::Absent => Err(LoadFault::Label(LabelFault::NotFound)),
        Standing::Blocked => Err(LoadFault::Label(LabelFault::DamagedLabel)),
        Standing::Present(label) => {
            if has_shape(&label, order) {
                Ok(label)
            } else {
                Err(LoadFault::OtherKind)
            }
        }
    }
}

/// Whether a file has this key, or no key if none is asked for.
pub fn has_key(label: &FileLabel, key: Option<KeyField>) -> bool
    ensures { result ≡ has_key_spec key label.now }
{
    match (label.organization, key) {
        (Organization::Indexed, Some(key)) => {
            label.key_length == key.length && label.key_start == key.start
        }
        (Organization::Sequential, None) => true,
        _ => false,
    }
}

/// Puts records after those of a file, whose label doesn't count them yet, and answers how many it has then. If it has an index,
/// that is the one of all of them. Refused or not, no sector changes but those of the file.
pub fn fill(
    alloc: Global,
    store: &mut MemoryStore,
    label: &FileLabel,
    rows: &[Row],
) -> Result<u32, LoadFault>
    requires { IsOfPack (length store.old) label.now }
    ensures records { IfOk result (HasMore label.now (records_of rows.now) store.old store.new) }
    ensures index { IfOk result (λ count. is_indexed label.now.organization ≡ true → HasGoodIndex (counted label.now count) store.new) }
    ensures spare { IfOk result (λ count. is_indexed label.now.organization ≡ true → KeepsSpare label.now count store.old store.new) }
    ensures long { length store.new ≡ length store.old }
    ensures only { ChangesOnly (sectors_of label.now) store.old store.new }
    ensures no_slot { IfErr result NamesNone }
{
    match label.organization {
        Organization::Indexed => fill_by_key(alloc, store, label, rows),
        Organization::Sequential | Organization::Direct => fill_in_order(store, label, rows),
    }
}

/// The refusal of a file that has too little room.
fn full(label: &FileLabel, rows: &[Row]) -> LoadFault
    ensures { NamesNone result }
{
    LoadFault::Full(
        label.capacity,
        u64::from(label.count).saturating_add(rows.len() as u64),
    )
}

/// Puts records after those of a file without an index.
#[tactic(auto, using(s3_files::proofs::Rooms::of_pack_room, s3_files::proofs::Rooms::of_pack_stored, crate::proofs::FillLemmas::none_filled, crate::proofs::FillLemmas::one_more_filled, crate::proofs::FillLemmas::all_filled, crate::proofs::FillLemmas::only_same, crate::proofs::FillLemmas::only_more))]
fn fill_in_order(store: &mut MemoryStore, label: &FileLabel, rows: &[Row]) -> Result<u32, LoadFault>
    requires { IsOfPack (length store.old) label.now }
    ensures records { IfOk result (HasMore label.now (records_of rows.now) store.old store.new) }
    ensures long { length store.new ≡ length store.old }
    ensures only { ChangesOnly (sectors_of label.now) store.old store.new }
    ensures no_slot { IfErr result NamesNone }
{
    let mut file = Sequential::of(label);
    for row in rows {
        append_row(&mut file, store, label, row, rows)?;
    }
    Ok(file.count)
}

/// Puts a record after those of a file without an index.
#[tactic(auto, using(s3_files::proofs::FileFrames::stored_within, crate::proofs::FillLemmas::grown_by, crate::proofs::FillLemmas::only_within))]
fn append_row(
    file: &mut Sequential,
    store: &mut MemoryStore,
    label: &FileLabel,
    row: &Row,
    rows: &[Row],
) -> Result<(), LoadFault>
    requires { AreStored file.old.sectors store.old }
    ensures adds { OnOk result (AddsRecord row.now.bytes.items file.old file.new store.old store.new) }
    ensures stored { OnOk result (AreStored file.new.sectors store.new) }
    ensures long { length store.new ≡ length store.old }
    ensures only { ChangesOnly file.old.sectors store.old store.new }
    ensures no_slot { IfErr result NamesNone }
{
    if row.bytes.len() != usize::from(file.record_length) {
        return Err(LoadFault::OtherKind);
    }
    match file.append(store, &row.bytes) {
        Ok(()) => Ok(()),
        Err(FileFault::Full) => Err(full(label, rows)),
        Err(_) => Err(LoadFault::NoMemory),
    }
}

/// Puts records into a file with an index.
#[tactic(auto, using(s3_files::proofs::Rooms::of_pack_room, s3_files::proofs::Rooms::of_pack_stored, s3_keyed::proofs::Indexes::of_pack_index, crate::proofs::FillLemmas::opened_records, crate::proofs::FillLemmas::opened_work, crate::proofs::FillLemmas::one_more_by_key, crate::proofs::FillLemmas::all_by_key, crate::proofs::FillLemmas::good_by_key, crate::proofs::FillLemmas::spare_same, crate::proofs::FillLemmas::only_same, crate::proofs::FillLemmas::only_kept, crate::proofs::FillLemmas::only_more, crate::proofs::FillLemmas::only_within))]
fn fill_by_key(
    alloc: Global,
    store: &mut MemoryStore,
    label: &FileLabel,
    rows: &[Row],
) -> Result<u32, LoadFault>
    requires on_pack { IsOfPack (length store.old) label.now }
    requires indexed { is_indexed label.now.organization ≡ true }
    ensures records { IfOk result (HasMore label.now (records_of rows.now) store.old store.new) }
    ensures index { IfOk result (λ count. HasGoodIndex (counted label.now count) store.new) }
    ensures spare { IfOk result (λ count. KeepsSpare label.now count store.old store.new) }
    ensures long { length store.new ≡ length store.old }
    ensures only { ChangesOnly (sectors_of label.now) store.old store.new }
    ensures no_slot { IfErr result NamesNone }
{
    let mut file = match Keyed::check(alloc, store, label) {
        Ok(file) => file,
        Err(KeyedFault::BadIndex) => return Err(LoadFault::BadIndex),
        Err(_) => return Err(LoadFault::NoMemory),
    };
    let mut faults = Faults::new(alloc);
    let mut fits = true;
    for row in rows {
        let put = put_row(alloc, &mut file, store, label, row, &mut faults)?;
        fits = fits && put;
    }
    if faults.count > 0 {
        return Err(LoadFault::Values(faults.first, faults.count));
    }
    if !fits {
        return Err(full(label, rows));
    }
    let count = file.len();
    match file.close(store) {
        Ok(()) => Ok(count),
        Err(_) => Err(LoadFault::NoMemory),
    }
}

/// Puts a record into a file with an index, and answers whether there was room for it; that another has its key is added to the
/// faults.
#[tactic(auto, using(s3_files::proofs::FileFrames::stored_within, crate::proofs::FillLemmas::loaded_last, crate::proofs::FillLemmas::spare_later, crate::proofs::FillLemmas::still_at_work, crate::proofs::FillLemmas::untouched_at_work, crate::proofs::FillLemmas::only_same, crate::proofs::FillLemmas::only_more, crate::proofs::FillLemmas::only_within))]
fn put_row(
    alloc: Global,
    file: &mut Keyed,
    store: &mut MemoryStore,
    label: &FileLabel,
    row: &Row,
    faults: &mut Faults,
) -> Result<bool, LoadFault>
    requires { IsAtWork file.old label.now store.old }
    ensures adds { IfOk result (λ put. put ≡ true → faults.new.count ≡ 0 → AddsByKey row.now.bytes.items file.old file.new store.old store.new) }
    ensures spare { OnOk result (KeepsSpareNow file.old store.old store.new) }
    ensures work { OnOk result (IsAtWork file.new label.now store.new) }
    ensures before { OnOk result (faults.new.count ≡ 0 → faults.old.count ≡ 0) }
    ensures long { length store.new ≡ length store.old }
    ensures only { ChangesOnly (sectors_of label.now) store.old store.new }
    ensures no_slot { IfErr result NamesNone }
{
    if row.bytes.len() != usize::from(label.record_length) {
        return Err(LoadFault::OtherKind);
    }
    match file.load(store, &row.bytes) {
        Ok(()) => Ok(true),
        Err(KeyedFault::NotAscending) => add_row(alloc, file, store, label, row, faults),
        Err(KeyedFault::Full) => Ok(false),
        Err(_) => Err(LoadFault::NoMemory),
    }
}

/// Adds a record whose key isn't above all others, and answers whether there was room for it.
#[tactic(auto, using(s3_files::proofs::FileFrames::stored_within, crate::proofs::FillLemmas::added_last, crate::proofs::FillLemmas::still_at_work, crate::proofs::FillLemmas::untouched_at_work, crate::proofs::FillLemmas::only_same, crate::proofs::FillLemmas::only_more, crate::proofs::FillLemmas::only_within))]
fn add_row(
    alloc: Global,
    file: &mut Keyed,
    store: &mut MemoryStore,
    label: &FileLabel,
    row: &Row,
    faults: &mut Faults,
) -> Result<bool, LoadFault>
    requires work { IsAtWork file.old label.now store.old }
    requires long { length row.now.bytes.items ≡ label.now.record_length }
    ensures adds { IfOk result (λ put. put ≡ true → faults.new.count ≡ 0 → AddsByKey row.now.bytes.items file.old file.new store.old store.new) }
    ensures spare { OnOk result (KeepsSpareNow file.old store.old store.new) }
    ensures work { OnOk result (IsAtWork file.new label.now store.new) }
    ensures before { OnOk result (faults.new.count ≡ 0 → faults.old.count ≡ 0) }
    ensures long { length store.new ≡ length store.old }
    ensures only { ChangesOnly (sectors_of label.now) store.old store.new }
    ensures no_slot { IfErr result NamesNone }
{
    match file.add(store, &row.bytes) {
        Ok(()) => Ok(true),
        Err(KeyedFault::Duplicate) => {
            tell_key_in_file(alloc, label, row, faults)?;
            Ok(true)
        }
        Err(KeyedFault::Full) => Ok(false),
        Err(_) => Err(LoadFault::NoMemory),
    }
}

/// Adds to the faults that a record of the file has the key of a row.
fn tell_key_in_file(
    alloc: Global,
    label: &FileLabel,
    row: &Row,
    faults: &mut Faults,
) -> Result<(), AllocError>
    ensures { OnOk result (0 < faults.new.count) }
{
    let key = KeyField {
        length: label.key_length,
        start: label.key_start,
    };
    let codes = Vec::from_slice(alloc, key_in(&row.bytes, key))?;
    faults.add(ValueFault {
        line: row.line,
        field: None,
        reason: Reason::KeyInFile(codes),
    })
}

/// Whether a file may have so many records.
pub fn may_have(label: &FileLabel, count: u32) -> bool
    ensures { result ≡ is_count_spec label.now.organization label.now.capacity count }
{
    is_count_of(label.organization, label.capacity, count)
}
