//! A file deleted.
ghost use Rattle.std.specs.Prelude.{◌≡◌, ◌<◌, ◌≤◌, ◌&&◌, not, ℕ, length, Ok, Some, IfOk, IfErr, OnOk};
ghost use Rattle.s3_slots.specs.Header.{mounted};
ghost use Rattle.s3_slots.specs.Making.{is_permanent as is_permanent_spec};
ghost use Rattle.s3_slots.specs.Placement.{is_free as is_free_spec};
ghost use Rattle.s3_slots.specs.Slots.{slot_bytes};
ghost use Rattle.s3_slots.specs.declared.header.Header.{Header};
ghost use Rattle.s3_labels.specs.Inner.AreaNumbers.{area_number};
ghost use Rattle.s3_labels.specs.Contents.{contents_of};
ghost use Rattle.s3_labels.specs.Inner.Areas.{areas_on, slots_in};
ghost use Rattle.s3_pack_care.specs.Inner.Kept.{IsWithout};
ghost use Rattle.s3_pack_care.specs.Inner.Frames.{ChangesBytes, IsInChosen};
ghost use Rattle.s3_pack_care.specs.Inner.Deleted.{IsFreed, MayFree, MayGo, RefusesDelete, RefusesLabel, RefusesSlot, chosen_in, is_kept as is_kept_spec};

use crate::fault::CareFault;
use crate::relabelling::{MountedPack, mount, relabelled};
use crate::saving::{bytes_after, saved};
use s3_cards::ebcdic::LETTER_P;
use s3_cards::{Name, Retention};
use s3_labels::{Area, AreaSlots, Slot};
use s3_slots::place_in;
use s3_store::{MemoryStore, Sectors};
use std::alloc::Global;

/// The choice of a file of an area.
#[derive(Clone, Copy)]
pub enum Chosen {
    /// The sound file of this label.
    Label(Name),
    /// The file of this slot, from 0, sound or damaged.
    Slot(u16),
}

/// The slot, 0 to 31, that is meant. Refused with `Label` if no sound file has the label, and with `NoSlot` if there is no such
/// slot.
fn slot_of(areas: &AreaSlots, area: Area, chosen: Chosen) -> Result<u16, CareFault>
    ensures within { IfOk result (λ slot. slot < 32) }
    ensures chosen { IfOk result (λ slot. chosen_in chosen (slots_in (area_number area) areas.now) ≡ Some slot) }
    ensures refused { IfErr result (RefusesLabel chosen (slots_in (area_number area) areas.now)) }
{
    match chosen {
        Chosen::Label(name) => match place_in(name, areas.slots_of(area)) {
            Ok(place) => Ok(place as u16),
            Err(fault) => Err(CareFault::Label(fault)),
        },
        Chosen::Slot(slot) => {
            if slot < 32 {
                Ok(slot)
            } else {
                Err(CareFault::NoSlot)
            }
        }
    }
}

/// Reads the 64 bytes of slot `i`, 0 to 31, of an area. Refused with `NoMemory`.
fn read_slot(store: &mut MemoryStore, area: Area, i: u16) -> Result<[u8; 64], CareFault>
    requires slot { i < 32 }
    requires room { 25 ≤ length store.old }
    ensures ok { IfOk result (λ bytes. bytes ≡ slot_bytes (area_number area) store.old i) }
    ensures keeps { store.new ≡ store.old }
    ensures fault { IfErr result (λ fault. fault ≡ CareFault.NoMemory) }
{
    let mut bytes = [0; 64];
    match store.read_part(area.label_sector(i), usize::from(i % 4) * 64, &mut bytes) {
        Ok(()) => Ok(bytes),
        // a store in memory never fails
        Err(_) => Err(CareFault::NoMemory),
    }
}

/// Whether a slot is to be kept: it has a permanent file, or it is damaged and its bytes have the retention of a permanent file.
fn is_kept(slot: &Slot, bytes: &[u8; 64]) -> bool
    ensures { result ≡ is_kept_spec slot.now bytes.now }
{
    match slot {
        Slot::Free => false,
        Slot::Damaged(_) => bytes[10] == LETTER_P,
        Slot::Sound(label) => is_permanent(label.retention),
    }
}

/// Whether a file of this retention is permanent.
fn is_permanent(retention: Retention) -> bool
    ensures { result ≡ is_permanent_spec retention }
{
    match retention {
        Retention::Permanent => true,
        Retention::Temporary | Retention::Scratch => false,
    }
}

/// Whether a slot is free.
fn is_free(slot: &Slot) -> bool
    ensures { result ≡ is_free_spec slot.now }
{
    match slot {
        Slot::Free => true,
        Slot::Damaged(_) | Slot::Sound(_) => false,
    }
}

/// Whether a slot stays: it is to be kept, and the caller doesn't mean permanent files.
fn stays(slot: &Slot, bytes: &[u8; 64], is_permanent_meant: bool) -> bool
    ensures { result ≡ (is_kept_spec slot.now bytes.now && not is_permanent_meant) }
{
    is_kept(slot, bytes) && !is_permanent_meant
}

/// Checks that a slot may be freed. Refused with `NoFile` if it is free, and with `Permanent` if it is to be kept and the caller
/// doesn't mean permanent files.
#[tactic(auto, using(crate::proofs::Deletes::may_go))]
fn permit(slot: &Slot, bytes: &[u8; 64], is_permanent_meant: bool) -> Result<(), CareFault>
    ensures permitted { OnOk result (MayFree slot.now bytes.now is_permanent_meant) }
    ensures refused { IfErr result (RefusesSlot slot.now bytes.now is_permanent_meant) }
{
    if is_free(slot) {
        return Err(CareFault::NoFile);
    }
    if stays(slot, bytes, is_permanent_meant) {
        return Err(CareFault::Permanent);
    }
    Ok(())
}

/// The sectors of a pack without a file of an area: the slot of the file is filled with zeros. Refused as `delete` says.
#[tactic(auto, using(crate::proofs::Deletes::mount_refuses, crate::proofs::Deletes::label_refuses, crate::proofs::Deletes::memory_refuses))]
fn freed(
    alloc: Global,
    store: MemoryStore,
    area: Area,
    chosen: Chosen,
    is_permanent_meant: bool,
) -> Result<MemoryStore, CareFault>
    ensures freed { IfOk result (IsFreed (area_number area) chosen store) }
    ensures permitted { IfOk result (λ new. MayGo (area_number area) chosen is_permanent_meant store) }
    ensures refused { IfErr result (RefusesDelete (area_number area) chosen is_permanent_meant store) }
{
    let MountedPack { mut store, areas } = mount(alloc, store)?;
    let slot = slot_of(&areas, area, chosen)?;
    let bytes = read_slot(&mut store, area, slot)?;
    permit(
        areas.slot(area, usize::from(slot)),
        &bytes,
        is_permanent_meant,
    )?;
    let new = relabelled(alloc, MountedPack { store, areas }, area, slot, &[0; 64])?;
    let MountedPack { store, areas: _ } = new;
    Ok(store)
}

/// The pack of these bytes without a file of an area. The slot of the file is filled with zeros, and no other byte changes.
///
/// Refused with `Mount` by the header; with `Label` if no sound file has the label, and with `NoFile` if the slot has none; with
/// `NoSlot` if there is no such slot; with `Permanent` unless that is meant; with `Uncovers` if a slot that is damaged for what
/// it has in common with the file would have a file again; and with `NoMemory`.
#[tactic(auto, using(crate::proofs::Deletes::memory_refuses))]
pub fn delete(
    alloc: Global,
    pack: Vec<u8>,
    area: Area,
    chosen: Chosen,
    is_permanent_meant: bool,
) -> Result<Vec<u8>, CareFault>
    ensures deleted { IfOk result (λ new. (header : Header) (slot : ℕ) → mounted (contents_of pack.items) ≡ Ok header → chosen_in chosen (slots_in (area_number area) (areas_on header (contents_of pack.items))) ≡ Some slot → IsWithout (area_number area) slot header (contents_of pack.items) (contents_of new.items)) }
    ensures only { IfOk result (λ new. ChangesBytes (IsInChosen (area_number area) chosen (contents_of pack.items)) pack.items new.items) }
    ensures permitted { IfOk result (λ new. MayGo (area_number area) chosen is_permanent_meant (contents_of pack.items)) }
    ensures refused { IfErr result (RefusesDelete (area_number area) chosen is_permanent_meant (contents_of pack.items)) }
{
    let after = Vec::from_slice(alloc, bytes_after(&pack))?;
    let store = freed(
        alloc,
        MemoryStore::from_bytes(pack),
        area,
        chosen,
        is_permanent_meant,
    )?;
    Ok(saved(store, &after)?)
}
