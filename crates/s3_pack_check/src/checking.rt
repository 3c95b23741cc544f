//! The pass over the slots of a pack.
ghost use Rattle.std.specs.Prelude.{◌≡◌, ◌<◌, ◌≤◌, ◌*◌, ◌++◌, true, length, slice_get, Ok, OnOk, IfOk, IfErr, IfSome};
ghost use Rattle.std.specs.List.{sum_by};
ghost use Rattle.s3_store.specs.Bytes.{bytes_at};
ghost use Rattle.s3_slots.specs.Inner.Kept.{IsOfPack};
ghost use Rattle.s3_slots.specs.Labels.{sectors_of, is_indexed};
ghost use Rattle.s3_slots.specs.Slots.{slot_bytes};
ghost use Rattle.s3_labels.specs.Inner.AreaNumbers.{area_number};
ghost use Rattle.s3_labels.specs.Inner.Areas.{IsReady, slots_in};
ghost use Rattle.s3_pack_check.specs.Inner.Damages.{first_damaged as first_damaged_spec};
ghost use Rattle.s3_pack_check.specs.Inner.Wrongs.{index_cause as index_cause_spec, file_cause as file_cause_spec, cause_of as cause_of_spec, name_on as name_on_spec, slot_wrongs, area_wrongs, region_in, wrongs_on, told, IsRefused, fault_of as fault_of_spec};

use crate::damage::{Damage, damage_of, is_damaged};
use crate::entries::{WrongEntry, first_fault};
use crate::fault::CheckFault;
use s3_cards::{LevelId, Name};
use s3_files::{FileSectors, read_bytes};
use s3_keyed::{Keyed, KeyedFault};
use s3_labels::{Area, AreaSlots, FileLabel, Organization, Pack, Refusal, Refused, Slot};
use s3_store::{MemoryStore, Sectors, Stretch};
use std::alloc::Global;

/// What is wrong with a slot.
#[derive(Clone, Copy)]
pub enum Cause {
    /// The label can't be used.
    Label(Damage),
    /// The index isn't the key order of the records; the first entry in error.
    Index(Option<WrongEntry>),
}

/// A slot with which something is wrong.
#[derive(Clone, Copy)]
pub struct Wrong {
    /// The area.
    pub area: Area,
    /// The slot, 0 to 31.
    pub slot: u16,
    /// The label, if it is a name.
    pub name: Option<Name>,
    /// What is wrong.
    pub cause: Cause,
}

/// Reads the 64 bytes of slot `i`, 0 to 31, of an area.
fn read_slot<P: Sectors>(pool: &mut P, area: Area, i: u16) -> Result<[u8; 64], CheckFault>
    requires slot { i < 32 }
    requires room { 25 ≤ length (P.state pool.old).contents }
    ensures ok { IfOk result (λ bytes. bytes ≡ slot_bytes (area_number area) (P.state pool.old).contents i) }
    ensures keeps { (P.state pool.new).contents ≡ (P.state pool.old).contents }
    ensures fault { IfErr result (λ fault. fault ≡ CheckFault.NoMemory) }
{
    let mut bytes = [0; 64];
    match pool.read_part(area.label_sector(i), usize::from(i % 4) * 64, &mut bytes) {
        Ok(()) => Ok(bytes),
        Err(_) => Err(CheckFault::NoMemory),
    }
}

/// How many sectors a file takes.
#[tactic(auto, using(s3_files::proofs::Rooms::length_sectors), unfolding(s3_slots::specs::Labels::sectors_of))]
pub fn sector_count(label: &FileLabel) -> usize
    ensures value { result ≡ length (sectors_of label.now) }
    ensures few { result ≤ 262140 }
{
    count_sectors(label.extents.as_slice())
}

/// How many sectors these runs have together.
fn count_sectors(runs: &[Stretch]) -> usize
    requires { length runs.now ≤ 4 }
    ensures value { result ≡ sum_by (λ stretch. stretch.sectors) runs.now }
    ensures few { result ≤ 65535 * length runs.now }
{
    match runs.split_first() {
        None => 0,
        Some((first, rest)) => usize::from(first.sectors) + count_sectors(rest),
    }
}

/// The bytes of a file of the pack, those of its index among them.
pub fn file_bytes<P: Sectors>(
    alloc: Global,
    pool: &mut P,
    label: &FileLabel,
) -> Result<Vec<u8>, CheckFault>
    requires on_pack { IsOfPack (length (P.state pool.old).contents) label.now }
    ensures ok { IfOk result (λ bytes. bytes.items ≡ bytes_at (sectors_of label.now) (P.state pool.old).contents) }
    ensures keeps { (P.state pool.new).contents ≡ (P.state pool.old).contents }
    ensures fault { IfErr result (λ fault. fault ≡ CheckFault.NoMemory) }
{
    let mut bytes = vec![in alloc; 0; 256 * sector_count(label)]?;
    match read_bytes(pool, &FileSectors::of(&label.extents), 0, &mut bytes) {
        Ok(()) => Ok(bytes),
        Err(_) => Err(CheckFault::NoMemory),
    }
}

/// What is wrong with the index of a file.
fn index_cause<P: Sectors>(
    alloc: Global,
    pool: &mut P,
    label: &FileLabel,
) -> Result<Option<Cause>, CheckFault>
    requires on_pack { IsOfPack (length (P.state pool.old).contents) label.now }
    requires indexed { is_indexed label.now.organization ≡ true }
    ensures ok { IfOk result (λ cause. cause ≡ index_cause_spec label.now (P.state pool.old).contents) }
    ensures keeps { (P.state pool.new).contents ≡ (P.state pool.old).contents }
    ensures fault { IfErr result (λ fault. fault ≡ CheckFault.NoMemory) }
{
    match Keyed::check(alloc, pool, label) {
        Ok(_) => Ok(None),
        Err(KeyedFault::BadIndex) => {
            let bytes = file_bytes(alloc, pool, label)?;
            Ok(Some(Cause::Index(first_fault(label, &bytes))))
        }
        Err(_) => Err(CheckFault::NoMemory),
    }
}

/// What is wrong with the file of a sound slot: its index, if it has one.
fn file_cause<P: Sectors>(
    alloc: Global,
    pool: &mut P,
    label: &FileLabel,
) -> Result<Option<Cause>, CheckFault>
    requires on_pack { IsOfPack (length (P.state pool.old).contents) label.now }
    ensures ok { IfOk result (λ cause. cause ≡ file_cause_spec label.now (P.state pool.old).contents) }
    ensures keeps { (P.state pool.new).contents ≡ (P.state pool.old).contents }
    ensures fault { IfErr result (λ fault. fault ≡ CheckFault.NoMemory) }
{
    match label.organization {
        Organization::Indexed => index_cause(alloc, pool, label),
        Organization::Sequential | Organization::Direct => Ok(None),
    }
}

/// What is wrong with slot `i`, 0 to 31, of an area.
fn cause_of<P: Sectors>(
    alloc: Global,
    pool: &mut P,
    areas: &AreaSlots,
    area: Area,
    i: u16,
) -> Result<Option<Cause>, CheckFault>
    requires slot { i < 32 }
    requires ready { IsReady areas.now (P.state pool.old).contents }
    ensures ok { IfOk result (λ cause. cause ≡ cause_of_spec areas.now area i (P.state pool.old).contents (slice_get (slots_in (area_number area) areas.now) i)) }
    ensures keeps { (P.state pool.new).contents ≡ (P.state pool.old).contents }
    ensures fault { IfErr result (λ fault. fault ≡ CheckFault.NoMemory) }
{
    match areas.slot(area, usize::from(i)) {
        Slot::Free => Ok(None),
        Slot::Sound(label) => file_cause(alloc, pool, label),
        Slot::Damaged(name) => {
            let bytes = read_slot(pool, area, i)?;
            let earlier = &areas.slots_of(area)[..usize::from(i)];
            let format = areas.header().format;
            let region = region_of(areas, area);
            Ok(Some(Cause::Label(damage_of(format, region, *name, earlier, &bytes))))
        }
    }
}

/// The place of the first damaged slot, from 0.
fn damaged_place(slots: &[Slot]) -> Option<usize>
    ensures place { result ≡ first_damaged_spec slots.now }
    ensures within { IfSome result (λ i. i < length slots.now) }
{
    slots.iter().position(|slot| is_damaged(slot))
}

/// The first damaged slot of an area, 0 to 31, if one is damaged. Which sectors a damaged slot's file has isn't known, so nothing new
/// may be written into its area.
pub fn first_damaged(areas: &AreaSlots, area: Area) -> Option<u16>
    ensures first { result ≡ first_damaged_spec (slots_in (area_number area) areas.now) }
    ensures within { IfSome result (λ slot. slot < 32) }
{
    match damaged_place(areas.slots_of(area)) {
        Some(place) => Some(place as u16),
        None => None,
    }
}

/// The region of an area.
pub fn region_of(areas: &AreaSlots, area: Area) -> Stretch
    ensures { result ≡ region_in (area_number area) areas.now }
{
    match area {
        Area::Masters => areas.header().masters,
        Area::Level(LevelId::One) => areas.region(LevelId::One),
        Area::Level(LevelId::Two) => areas.region(LevelId::Two),
    }
}

/// The label of a slot, if it is a name.
fn name_on(slot: &Slot) -> Option<Name>
    ensures { result ≡ name_on_spec slot.now }
{
    match slot {
        Slot::Free => None,
        Slot::Damaged(name) => *name,
        Slot::Sound(label) => Some(label.name),
    }
}

/// Appends what is wrong with slot `i`, 0 to 31, of an area.
#[tactic(auto, unfolding(crate::specs::Inner::Wrongs::slot_wrongs))]
fn push_slot<P: Sectors>(
    alloc: Global,
    wrongs: &mut Vec<Wrong>,
    pool: &mut P,
    areas: &AreaSlots,
    area: Area,
    i: u16,
) -> Result<(), CheckFault>
    requires slot { i < 32 }
    requires ready { IsReady areas.now (P.state pool.old).contents }
    ensures ok { OnOk result (wrongs.new.items ≡ wrongs.old.items ++ slot_wrongs areas.now area (P.state pool.old).contents i) }
    ensures keeps { (P.state pool.new).contents ≡ (P.state pool.old).contents }
    ensures fault { IfErr result (λ fault. fault ≡ CheckFault.NoMemory) }
{
    let cause = cause_of(alloc, pool, areas, area, i)?;
    if let Some(cause) = cause {
        wrongs.push(Wrong {
            area,
            slot: i,
            name: name_on(areas.slot(area, usize::from(i))),
            cause,
        })?;
    }
    Ok(())
}

/// Appends what is wrong with the slots of an area.
fn push_area<P: Sectors>(
    alloc: Global,
    wrongs: &mut Vec<Wrong>,
    pool: &mut P,
    areas: &AreaSlots,
    area: Area,
) -> Result<(), CheckFault>
    requires ready { IsReady areas.now (P.state pool.old).contents }
    ensures ok { OnOk result (wrongs.new.items ≡ wrongs.old.items ++ area_wrongs areas.now area (P.state pool.old).contents) }
    ensures keeps { (P.state pool.new).contents ≡ (P.state pool.old).contents }
    ensures fault { IfErr result (λ fault. fault ≡ CheckFault.NoMemory) }
{
    for i in 0..32u16 {
        push_slot(alloc, wrongs, pool, areas, area, i)?;
    }
    Ok(())
}

/// All that is wrong with the slots of a mounted pack.
fn wrongs_of<P: Sectors>(
    alloc: Global,
    pool: &mut P,
    areas: &AreaSlots,
) -> Result<Vec<Wrong>, CheckFault>
    requires { IsReady areas.now (P.state pool.old).contents }
    ensures ok { IfOk result (λ wrongs. wrongs.items ≡ wrongs_on areas.now (P.state pool.old).contents) }
    ensures fault { IfErr result (λ fault. fault ≡ CheckFault.NoMemory) }
{
    let mut wrongs = Vec::new(alloc);
    push_area(alloc, &mut wrongs, pool, areas, Area::Masters)?;
    push_area(alloc, &mut wrongs, pool, areas, Area::Level(LevelId::One))?;
    push_area(alloc, &mut wrongs, pool, areas, Area::Level(LevelId::Two))?;
    Ok(wrongs)
}

/// All that is wrong with a pack, by its first 65,535 whole sectors: the reason of each used slot that isn't sound, and the first
/// entry in error of each index that isn't good. The masters come first, then level 1 and level 2, each in slot order.
///
/// Refused with `Mount` by the header alone, and with `NoMemory`.
pub fn check_pack(alloc: Global, pack: &[u8]) -> Result<Vec<Wrong>, CheckFault>
    ensures told { IfOk result (λ wrongs. told pack.now ≡ Ok wrongs.items) }
    ensures refused { IfErr result (IsRefused (told pack.now)) }
{
    let store = MemoryStore::from_bytes(Vec::from_slice(alloc, pack)?);
    match Pack::over(alloc, store) {
        Ok(Pack { mut pool, areas }) => wrongs_of(alloc, &mut pool, &areas),
        Err(Refused { pool: _, fault }) => Err(fault_of(fault)),
    }
}

/// The refusal of a check, from the refusal of a mount over a store in memory, which never fails.
fn fault_of(refusal: Refusal) -> CheckFault
    ensures { result ≡ fault_of_spec refusal }
{
    match refusal {
        Refusal::BadPack(fault) => CheckFault::Mount(fault),
        Refusal::Sectors(_) => CheckFault::NoMemory,
    }
}
