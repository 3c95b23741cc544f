//! A file copied into an area.
ghost use Rattle.std.specs.Prelude.{◌≡◌, ◌<◌, ◌≤◌, ◌+◌, ◌*◌, ◌/◌, ◌%◌, ℕ, length, slice_get, true, Some, None, IfOk, IfErr, OnOk};
ghost use Rattle.std.specs.List.{Contains};
ghost use Rattle.s3_store.specs.Bytes.{bytes_at};
ghost use Rattle.s3_store.specs.Inner.Bytes.{with_piece};
ghost use Rattle.s3_store.specs.Stretches.{end_of};
ghost use Rattle.s3_slots.specs.Inner.Stretches.{IsWhole};
ghost use Rattle.s3_slots.specs.Inner.Kept.{IsOfPack};
ghost use Rattle.s3_slots.specs.Inner.Labels.{label_bytes};
ghost use Rattle.s3_slots.specs.Labels.{sectors_of};
ghost use Rattle.s3_slots.specs.Making.{tracks_of};
ghost use Rattle.s3_slots.specs.Slots.{labels_at, standing};
ghost use Rattle.s3_slots.specs.declared.slot.Standing.TheVariants.{Absent};
ghost use Rattle.s3_cards.specs.Names.{is_name as is_name_spec};
ghost use Rattle.s3_labels.specs.Inner.AreaNumbers.{area_number};
ghost use Rattle.s3_labels.specs.Contents.{contents_of};
ghost use Rattle.s3_labels.specs.Inner.Areas.{IsReady, slots_in};
ghost use Rattle.s3_pack_check.specs.Inner.Damages.{first_damaged as first_damaged_spec};
ghost use Rattle.s3_pack_check.specs.Inner.Wrongs.{region_in};
ghost use Rattle.s3_pack_care.specs.Inner.Kept.{IsMounted};
ghost use Rattle.s3_pack_care.specs.Inner.Frames.{ChangesBytes, ChangesFile, IsInLabelled};
ghost use Rattle.s3_pack_care.specs.Inner.Copied.{IsCopy, IsRoom, IsSource, RefusesCopy, RefusesRoom, RefusesSource, masters_beside as masters_beside_spec, tracks_in};

use crate::fault::CareFault;
use crate::relabelling::{MountedPack, mount};
use crate::saving::{bytes_after, saved};
use s3_cards::{LevelId, Name, is_name};
use s3_files::{FileSectors, write_bytes};
use s3_labels::{Area, AreaSlots, FileLabel, LabelFault, NewFile, Size, Slot, Standing};
use s3_pack_check::{file_bytes, first_damaged, region_of, sector_count};
use s3_slots::{bytes_of, make_in, standing_of};
use s3_store::{MemoryStore, Sectors};
use std::alloc::{AllocError, Global};

/// A file that is copied: its label, and its bytes, those of its index among them.
#[derive(Drop)]
struct Source {
    label: FileLabel,
    bytes: Vec<u8>,
}

/// Mounts the pack that has the file. Refused with `SourceMount` by the header, and with `NoMemory`.
fn mount_source(
    alloc: Global,
    store: MemoryStore,
    area: Area,
    name: Name,
) -> Result<MountedPack, CareFault>
    ensures same { IfOk result (λ pack. pack.store ≡ store) }
    ensures mounted { IfOk result (λ pack. IsMounted pack.areas pack.store) }
    ensures ready { IfOk result (λ pack. IsReady pack.areas pack.store) }
    ensures refused { IfErr result (RefusesSource (area_number area) name store) }
{
    match mount(alloc, store) {
        Ok(pack) => Ok(pack),
        Err(CareFault::Mount(fault)) => Err(CareFault::SourceMount(fault)),
        Err(_) => Err(CareFault::NoMemory),
    }
}

/// Reads the file of a label in an area of a mounted pack. Refused with `SourceLabel` if there is no such file, and with
/// `NoMemory`.
fn read_file(
    alloc: Global,
    store: &mut MemoryStore,
    areas: &AreaSlots,
    area: Area,
    name: Name,
) -> Result<Source, CareFault>
    requires mounted { IsMounted areas.now store.old }
    requires ready { IsReady areas.now store.old }
    ensures source { IfOk result (λ source. IsSource (area_number area) name source.label source.bytes.items store.old) }
    ensures refused { IfErr result (RefusesSource (area_number area) name store.old) }
{
    match standing_of(name, areas.slots_of(area)) {
        Standing::Absent => Err(CareFault::SourceLabel(LabelFault::NotFound)),
        Standing::Blocked => Err(CareFault::SourceLabel(LabelFault::DamagedLabel)),
        Standing::Present(label) => match file_bytes(alloc, store, &label) {
            Ok(bytes) => Ok(Source { label, bytes }),
            Err(_) => Err(CareFault::NoMemory),
        },
    }
}

/// Reads the file of a label in an area of a pack. Refused with `SourceMount`, with `SourceLabel` if there is no such file, and
/// with `NoMemory`.
fn source_of(alloc: Global, pack: Vec<u8>, area: Area, name: Name) -> Result<Source, CareFault>
    ensures source { IfOk result (λ source. IsSource (area_number area) name source.label source.bytes.items (contents_of pack.items)) }
    ensures refused { IfErr result (RefusesSource (area_number area) name (contents_of pack.items)) }
{
    let MountedPack { mut store, areas } = mount_source(
        alloc,
        MemoryStore::from_bytes(pack),
        area,
        name,
    )?;
    read_file(alloc, &mut store, &areas, area, name)
}

/// A copy of the slots of an area.
fn slots_copied(alloc: Global, slots: &[Slot]) -> Result<Vec<Slot>, AllocError>
    ensures { IfOk result (λ copy. copy.items ≡ slots.now) }
{
    let mut copy = Vec::new(alloc);
    for slot in slots {
        copy.push(slot.copied())?;
    }
    Ok(copy)
}

/// The new file for a copy of a file under this name, with the same number of tracks.
fn asked(name: Name, source: &FileLabel) -> NewFile
    ensures name { result.name ≡ name }
    ensures key { result.key_length ≡ source.now.key_length }
    ensures length { result.record_length ≡ source.now.record_length }
    ensures tracks { tracks_of result ≡ tracks_in source.now }
{
    NewFile {
        name,
        organization: source.organization,
        retention: source.retention,
        record_length: source.record_length,
        key_length: source.key_length,
        key_start: source.key_start,
        size: Size::Tracks((sector_count(source) / 24) as u16),
        date: source.date,
    }
}

/// The masters' slots if a level gets the file, which must not have the label of a master; none if the masters get it.
fn masters_beside(areas: &AreaSlots, area: Area) -> &[Slot]
    ensures { result.now ≡ masters_beside_spec (area_number area) areas.now }
{
    match area {
        Area::Masters => &[],
        Area::Level(LevelId::One | LevelId::Two) => areas.masters(),
    }
}

/// Checks that an area without damage has no file of a name. Refused with `NoName`, with `Damaged` if a slot of the area is
/// damaged, and with `Exists` if a file has the name.
#[tactic(auto, using(crate::proofs::Refusals::exists_there, crate::proofs::Refusals::unblocked))]
fn unused(areas: &AreaSlots, area: Area, name: Name, source: &FileLabel) -> Result<(), CareFault>
    ensures named { OnOk result (is_name_spec name.codes ≡ true) }
    ensures undamaged { OnOk result (first_damaged_spec (slots_in (area_number area) areas.now) ≡ None) }
    ensures absent { OnOk result (standing name (slots_in (area_number area) areas.now) ≡ Absent) }
    ensures refused { IfErr result (RefusesRoom (area_number area) name source.now areas.now) }
{
    if !is_name(&name.codes) {
        return Err(CareFault::NoName);
    }
    if let Some(damaged) = first_damaged(areas, area) {
        return Err(CareFault::Damaged(damaged));
    }
    match standing_of(name, areas.slots_of(area)) {
        Standing::Present(_) => Err(CareFault::Exists),
        Standing::Absent | Standing::Blocked => Ok(()),
    }
}

/// The lowest free slot of an area, and the label that a copy of a file gets there. Refused with `NoName`; with `Damaged` if a
/// slot of the area is damaged; with `Exists` if a file has its label; with `Label` if there is no room, no slot or a master of
/// that label; and with `NoMemory`.
fn room_for(
    alloc: Global,
    areas: &AreaSlots,
    area: Area,
    name: Name,
    source: &FileLabel,
) -> Result<(u16, FileLabel), CareFault>
    requires fits { end_of (region_in (area_number area) areas.now) ≤ 65535 }
    requires whole { IsWhole (region_in (area_number area) areas.now) }
    requires key { source.now.key_length ≤ 29 }
    requires length { 1 ≤ source.now.record_length }
    requires some { 24 ≤ length (sectors_of source.now) }
    ensures slot { IfOk result (λ room. room.0 < 32) }
    ensures named { IfOk result (λ room. is_name_spec name.codes ≡ true) }
    ensures room { IfOk result (λ room. IsRoom (area_number area) name source.now areas.now room.0 room.1) }
    ensures refused { IfErr result (RefusesRoom (area_number area) name source.now areas.now) }
{
    unused(areas, area, name, source)?;
    let mut slots = slots_copied(alloc, areas.slots_of(area))?;
    let made = match make_in(
        areas.header().format,
        region_of(areas, area),
        masters_beside(areas, area),
        &asked(name, source),
        &mut slots,
    ) {
        Ok(made) => made,
        Err(fault) => return Err(CareFault::Label(fault)),
    };
    let mut label = source.copied();
    label.name = name;
    label.extents = made.label.extents;
    Ok((made.at as u16, label))
}

/// Reads the codes of a name and a date, so that the prover knows their widths. It learns the width of an array when the array is
/// read.
fn know_widths(codes: &[u8; 8], date: &[u8; 6])
    ensures codes { length codes.now ≡ 8 }
    ensures date { length date.now ≡ 6 }
{
    let _first = codes[0];
    let _digit = date[0];
}

/// Writes a label into slot `slot`, 0 to 31, of an area. Refused with `NoMemory`.
fn write_label(
    store: &mut MemoryStore,
    area: Area,
    slot: u16,
    label: &FileLabel,
) -> Result<(), CareFault>
    requires slot { slot < 32 }
    requires room { 25 ≤ length store.old }
    ensures written { OnOk result (store.new ≡ with_piece store.old (labels_at (area_number area) + slot / 4) (slot % 4 * 64) (label_bytes label.now)) }
    ensures width { length (label_bytes label.now) ≡ 64 }
    ensures count { length store.new ≡ length store.old }
    ensures fault { IfErr result (λ fault. fault ≡ CareFault.NoMemory) }
{
    let bytes = bytes_of(label);
    let sector = area.label_sector(slot);
    match store.change_sector(sector, usize::from(slot % 4) * 64, &bytes) {
        Ok(()) => Ok(()),
        // a store in memory never fails
        Err(_) => Err(CareFault::NoMemory),
    }
}

/// Writes the bytes of a file over a file of a mounted pack that has as many. Refused with `NoMemory`.
#[tactic(auto, using(crate::proofs::Copies::written_whole, crate::proofs::Copies::written_sectors), unfolding(s3_slots::specs::Labels::sectors_of))]
fn write_file(store: &mut MemoryStore, label: &FileLabel, bytes: &[u8]) -> Result<(), CareFault>
    requires on_pack { IsOfPack (length store.old) label.now }
    requires room { length bytes.now ≡ 256 * length (sectors_of label.now) }
    ensures ok { OnOk result (bytes_at (sectors_of label.now) store.new ≡ bytes.now) }
    ensures count { length store.new ≡ length store.old }
    ensures sectors { (n : ℕ) → ¬ Contains (sectors_of label.now) n → slice_get store.new n ≡ slice_get store.old n }
    ensures fault { IfErr result (λ fault. fault ≡ CareFault.NoMemory) }
{
    match write_bytes(store, &FileSectors::of(&label.extents), 0, bytes) {
        Ok(()) => Ok(()),
        // a store in memory never fails
        Err(_) => Err(CareFault::NoMemory),
    }
}

/// The sectors of a pack with a copy of a file. Refused as `copy` says.
#[tactic(auto, using(crate::proofs::Refusals::source_refuses, crate::proofs::Refusals::mount_refuses, crate::proofs::Refusals::room_refuses, crate::proofs::Refusals::memory_refuses))]
fn with_copy(
    alloc: Global,
    from: Vec<u8>,
    from_area: Area,
    name: Name,
    into: MemoryStore,
    area: Area,
    new_name: Name,
) -> Result<MemoryStore, CareFault>
    ensures copied { IfOk result (IsCopy (area_number from_area) name (area_number area) new_name (contents_of from.items) into) }
    ensures only { IfOk result (ChangesFile (area_number area) new_name (λ i. ⊥) into) }
    ensures refused { IfErr result (RefusesCopy (area_number from_area) name (area_number area) new_name (contents_of from.items) into) }
{
    let source = source_of(alloc, from, from_area, name)?;
    let MountedPack { mut store, areas } = mount(alloc, into)?;
    know_widths(&new_name.codes, &source.label.date);
    let (slot, label) = room_for(alloc, &areas, area, new_name, &source.label)?;
    write_label(&mut store, area, slot, &label)?;
    write_file(&mut store, &label, &source.bytes)?;
    Ok(store)
}

/// A pack with a copy of a file: of the file of a label in an area of a pack, into an area of another or the same, under a label
/// that no file there has. The copy has the same records in the same order, and the same index. It gets a free slot and
/// free sectors, and no other byte of the pack changes.
///
/// Refused with `SourceMount` or `Mount` by a header; with `SourceLabel` if there is no such file, or a damaged slot blocks its
/// label; with `NoName` if the label of the copy isn't a name; with `Damaged` if a slot of the area is damaged, so that nothing
/// is written over what it may hold; with `Exists` if a file has that label; with `Label` if, for a level, a master has it, or
/// the area has no free slot or no room; and with `NoMemory`.
#[tactic(auto, using(crate::proofs::Refusals::memory_refuses))]
pub fn copy(
    alloc: Global,
    from: Vec<u8>,
    from_area: Area,
    name: Name,
    into: Vec<u8>,
    area: Area,
    new_name: Name,
) -> Result<Vec<u8>, CareFault>
    ensures copied { IfOk result (λ new. IsCopy (area_number from_area) name (area_number area) new_name (contents_of from.items) (contents_of into.items) (contents_of new.items)) }
    ensures only { IfOk result (λ new. ChangesBytes (IsInLabelled (area_number area) new_name (contents_of new.items)) into.items new.items) }
    ensures refused { IfErr result (RefusesCopy (area_number from_area) name (area_number area) new_name (contents_of from.items) (contents_of into.items)) }
{
    let after = Vec::from_slice(alloc, bytes_after(&into))?;
    let store = with_copy(
        alloc,
        from,
        from_area,
        name,
        MemoryStore::from_bytes(into),
        area,
        new_name,
    )?;
    Ok(saved(store, &after)?)
}
