//! A slot written, and all slots judged again.
ghost use Rattle.std.specs.Prelude.{◌≡◌, ◌≢◌, ◌<◌, ℕ, true, length, slice_get, Ok, Some, IfOk, IfErr, IfNone, IfSome, ◌&&◌, not, nat_eq};
ghost use Rattle.s3_slots.specs.Header.{mounted};
ghost use Rattle.s3_labels.specs.Inner.AreaNumbers.{area_number};
ghost use Rattle.s3_labels.specs.Inner.Areas.{IsReady, slots_in};
ghost use Rattle.s3_pack_care.specs.Inner.Kept.{IsMounted, IsMountRefusal, IsOther, IsChanged, IsRelabelled, RefusesWritten, alike, fault_of as fault_of_spec, same_kind};

use crate::fault::CareFault;
use s3_cards::LevelId;
use s3_labels::{Area, AreaSlots, Pack, Refusal, Refused, Slot};
use s3_store::{MemoryStore, Sectors};
use std::alloc::Global;

/// A pack in memory, with its header and slots as a mount judges them.
#[derive(Drop)]
pub struct MountedPack {
    /// The sectors of the pack.
    pub store: MemoryStore,
    /// The header and the slots.
    pub areas: AreaSlots,
}

/// Whether both slots are free, or both damaged, or both have a file.
fn is_same_kind(old: &Slot, new: &Slot) -> bool
    ensures { result ≡ same_kind old.now new.now }
{
    match (old, new) {
        (Slot::Free, Slot::Free) => true,
        (Slot::Damaged(_), Slot::Damaged(_)) => true,
        (Slot::Sound(_), Slot::Sound(_)) => true,
        _ => false,
    }
}

/// Whether slot `i`, 0 to 31, of an area is of the same kind in two packs.
fn is_alike(old: &AreaSlots, new: &AreaSlots, area: Area, i: u16) -> bool
    requires slot { i < 32 }
    ensures { result ≡ alike (slice_get (slots_in (area_number area) old.now) i) (slice_get (slots_in (area_number area) new.now) i) }
{
    is_same_kind(
        old.slot(area, usize::from(i)),
        new.slot(area, usize::from(i)),
    )
}

/// Whether slot `i`, 0 to 31, of an area is another one than that which was written, and isn't of the kind that it was.
fn is_changed(old: &AreaSlots, new: &AreaSlots, area: Area, written: u16, i: u16) -> bool
    requires slot { i < 32 }
    ensures { result ≡ (not (nat_eq i written) && not (alike (slice_get (slots_in (area_number area) old.now) i) (slice_get (slots_in (area_number area) new.now) i))) }
{
    i != written && !is_alike(old, new, area, i)
}

/// The first slot of an area, except for the one that was written, that isn't of the kind that it was.
fn first_other(old: &AreaSlots, new: &AreaSlots, area: Area, written: u16) -> Option<u16>
    ensures none { IfNone result ((i : ℕ) → i < 32 → i ≢ written → alike (slice_get (slots_in (area_number area) old.now) i) (slice_get (slots_in (area_number area) new.now) i) ≡ true) }
    ensures few { IfSome result (λ i. i < 32) }
    ensures changed { IfSome result (λ i. (not (nat_eq i written) && not (alike (slice_get (slots_in (area_number area) old.now) i) (slice_get (slots_in (area_number area) new.now) i))) ≡ true) }
{
    for i in 0..32u16 {
        if is_changed(old, new, area, written, i) {
            return Some(i);
        }
    }
    None
}

/// The area of a number, 0 to 2.
fn area_of(number: u16) -> Area
    requires { number < 3 }
    ensures { area_number result ≡ number }
{
    match number {
        0 => Area::Masters,
        1 => Area::Level(LevelId::One),
        _ => Area::Level(LevelId::Two),
    }
}

/// The slot of area `a`, 0 to 2, that was written: that one in its own area, and none, 32, in another.
fn written_in(a: u16, area: u16, slot: u16) -> u16
    ensures own { a ≡ area → result ≡ slot }
    ensures none { a ≢ area → result ≡ 32 }
{
    if a == area { slot } else { 32 }
}

/// The first slot of the three areas, except for the one that was written, that isn't of the kind that it was.
fn first_changed(old: &AreaSlots, new: &AreaSlots, area: Area, slot: u16) -> Option<u16>
    ensures none { IfNone result ((a i : ℕ) → IsOther (area_number area) slot a i → alike (slice_get (slots_in a old.now) i) (slice_get (slots_in a new.now) i) ≡ true) }
    ensures some { IfSome result (IsChanged (area_number area) slot old.now new.now) }
{
    let own = area.number();
    for a in 0..3u16 {
        if let Some(other) = first_other(old, new, area_of(a), written_in(a, own, slot)) {
            return Some(other);
        }
    }
    None
}

/// Mounts a pack over a store in memory, which never fails.
pub fn mount(alloc: Global, store: MemoryStore) -> Result<MountedPack, CareFault>
    ensures ok { IfOk result (λ pack. IsMounted pack.areas store) }
    ensures same { IfOk result (λ pack. pack.store ≡ store) }
    ensures ready { IfOk result (λ pack. IsReady pack.areas store) }
    ensures err { IfErr result (IsMountRefusal store) }
{
    match Pack::over(alloc, store) {
        Ok(Pack { pool, areas }) => Ok(MountedPack { store: pool, areas }),
        Err(Refused { pool: _, fault }) => Err(fault_of(fault)),
    }
}

/// The refusal of a call, from the refusal of a mount over a store in memory, which never fails.
fn fault_of(refusal: Refusal) -> CareFault
    ensures { result ≡ fault_of_spec refusal }
{
    match refusal {
        Refusal::BadPack(fault) => CareFault::Mount(fault),
        Refusal::Sectors(_) => CareFault::NoMemory,
    }
}

/// Writes the 64 bytes of slot `slot`, 0 to 31, of an area, and judges all slots again. Refused with `Uncovers` if another slot
/// would not be what it was, free, damaged or with its file, and with `NoMemory`.
pub fn relabelled(
    alloc: Global,
    pack: MountedPack,
    area: Area,
    slot: u16,
    bytes: &[u8; 64],
) -> Result<MountedPack, CareFault>
    requires slot { slot < 32 }
    requires mounted { IsMounted pack.areas pack.store }
    requires ready { IsReady pack.areas pack.store }
    ensures ok { IfOk result (λ new. IsRelabelled (area_number area) slot bytes.now pack.areas.header pack.store new.store) }
    ensures long { IfOk result (λ new. length new.store ≡ length pack.store) }
    ensures mounted { IfOk result (λ new. IsMounted new.areas new.store) }
    ensures ready { IfOk result (λ new. IsReady new.areas new.store) }
    ensures refused { IfErr result (RefusesWritten (area_number area) slot bytes.now pack.areas.header pack.store) }
{
    let MountedPack { mut store, areas } = pack;
    let sector = area.label_sector(slot);
    if let Err(_fault) = store.change_sector(sector, usize::from(slot % 4) * 64, bytes) {
        return Err(CareFault::NoMemory);
    }
    let new = mount(alloc, store)?;
    match first_changed(&areas, &new.areas, area, slot) {
        Some(other) => Err(CareFault::Uncovers(other)),
        None => Ok(new),
    }
}
