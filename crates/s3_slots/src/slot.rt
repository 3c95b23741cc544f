//! The slots of an area.
ghost use Rattle.std.specs.Prelude.{◌≡◌, ◌≤◌, ◌<◌, length, IfSome};
ghost use Rattle.std.specs.List.{list_all, list_any, position_from};
ghost use Rattle.s3_slots.specs.Slots.{record_sectors as record_sectors_spec, entries_per_sector as entries_spec, index_sectors as index_sectors_spec, sectors_needed as sectors_needed_spec, is_key_of as is_key_spec, is_extent as is_extent_spec, are_extents as are_extents_spec, is_count_of as is_count_spec, is_well_formed as is_well_formed_spec, is_apart_from_slot, is_clear as is_clear_spec, bears as bears_spec, is_disentangled as is_disentangled_spec, is_sound as is_sound_spec, judged, is_damaged_under as is_damaged_under_spec, without_file as without_file_spec, standing as standing_spec};

use crate::header::Format;
use crate::label::{FileLabel, Organization, label_in, name_in};
use crate::stretch::{are_apart, is_apart_from_all, is_inside, sectors_of};
use s3_cards::Name;
use s3_store::Stretch;

/// What a slot has.
#[derive(Drop)]
pub enum Slot {
    /// No file: the slot's first byte is 0.
    Free,
    /// A label that can't be used, with its name if the bytes of the name are one (docs/PACK.md, "Damage").
    Damaged(Option<Name>),
    /// The label of a file that can be used.
    Sound(FileLabel),
}

impl Slot {
    /// A copy of the slot.
    pub fn copied(&self) -> Self
        ensures { result ≡ self.now }
    {
        match self {
            Slot::Free => Slot::Free,
            Slot::Damaged(name) => Slot::Damaged(*name),
            Slot::Sound(label) => Slot::Sound(label.copied()),
        }
    }
}

/// What an area has under a label.
#[derive(Drop)]
pub enum Standing {
    /// No slot has the label.
    Absent,
    /// A damaged slot has the label and blocks it, and no sound file has it.
    Blocked,
    /// A sound file has the label.
    Present(FileLabel),
}

/// How many sectors so many records take.
#[tactic(auto, using(crate::proofs::SlotLemmas::few_sectors))]
fn record_sectors(capacity: u32, record_length: u16) -> u64
    ensures value { result ≡ record_sectors_spec capacity record_length }
    ensures few { result ≤ 1099511627776 }
{
    (u64::from(capacity) * u64::from(record_length) + 255) / 256
}

/// How many entries of an index a sector has.
fn entries_per_sector(key_length: u8) -> u64
    requires { key_length ≤ 29 }
    ensures value { result ≡ entries_spec key_length }
    ensures some { 1 ≤ result }
    ensures few { result ≤ 64 }
{
    256 / (u64::from(key_length) + 4)
}

/// How many sectors the index of so many records takes.
#[tactic(auto, using(crate::proofs::SlotLemmas::few_entries))]
fn index_sectors(capacity: u32, key_length: u8) -> u64
    requires { key_length ≤ 29 }
    ensures few { result ≤ 4294967400 }
    ensures value { result ≡ index_sectors_spec capacity key_length }
{
    let entries = entries_per_sector(key_length);
    (u64::from(capacity) + entries - 1) / entries
}

/// How many sectors a file with room for so many records takes, those of its index among them.
pub fn sectors_needed(
    organization: Organization,
    record_length: u16,
    key_length: u8,
    capacity: u32,
) -> u64
    requires { key_length ≤ 29 }
    ensures few { result ≤ 2199023255552 }
    ensures value { result ≡ sectors_needed_spec organization record_length key_length capacity }
{
    match organization {
        Organization::Indexed => {
            record_sectors(capacity, record_length) + index_sectors(capacity, key_length)
        }
        Organization::Sequential | Organization::Direct => record_sectors(capacity, record_length),
    }
}

/// Whether a file of this organization may have such a key.
pub fn is_key_of(
    organization: Organization,
    record_length: u16,
    key_length: u8,
    key_start: u16,
) -> bool
    ensures { result ≡ is_key_spec organization record_length key_length key_start }
{
    match organization {
        Organization::Indexed => {
            1 <= key_length
                && key_length <= 29
                && 1 <= key_start
                && u32::from(key_start) + u32::from(key_length) <= u32::from(record_length) + 1
        }
        Organization::Sequential | Organization::Direct => key_length == 0 && key_start == 0,
    }
}

/// Whether an extent is whole tracks of the region, at least one.
fn is_extent(region: Stretch, extent: Stretch) -> bool
    ensures { result ≡ is_extent_spec region extent }
{
    extent.start % 24 == 0
        && extent.sectors % 24 == 0
        && 24 <= extent.sectors
        && is_inside(region, extent)
}

/// Whether each of these runs is an extent of the region.
fn are_whole(region: Stretch, extents: &[Stretch]) -> bool
    ensures { result ≡ list_all (is_extent_spec region) extents.now }
{
    extents.iter().all(|extent| is_extent(region, *extent))
}

/// Whether a file may have these extents.
fn are_extents(region: Stretch, extents: &[Stretch]) -> bool
    ensures { result ≡ are_extents_spec region extents.now }
{
    1 <= extents.len() && are_whole(region, extents) && are_apart(extents)
}

/// Whether a file of this organization may have so many records.
pub fn is_count_of(organization: Organization, capacity: u32, count: u32) -> bool
    ensures { result ≡ is_count_spec organization capacity count }
{
    match organization {
        Organization::Direct => count == capacity,
        Organization::Sequential | Organization::Indexed => count <= capacity,
    }
}

/// Whether a label is well formed.
#[tactic(auto, using(crate::proofs::SlotLemmas::key_fits))]
fn is_well_formed(region: Stretch, label: &FileLabel) -> bool
    ensures { result ≡ is_well_formed_spec region label.now }
{
    let extents = label.extents.as_slice();
    1 <= label.record_length
        && label.record_length <= 1024
        && is_key_of(
            label.organization,
            label.record_length,
            label.key_length,
            label.key_start,
        )
        && are_extents(region, extents)
        && 1 <= label.capacity
        && is_count_of(label.organization, label.capacity, label.count)
        && sectors_needed(
            label.organization,
            label.record_length,
            label.key_length,
            label.capacity,
        ) <= sectors_of(extents)
}

/// Whether a run has no sector in common with the sound file in a slot.
fn is_apart_from(stretch: Stretch, slot: &Slot) -> bool
    ensures { result ≡ is_apart_from_slot stretch slot.now }
{
    match slot {
        Slot::Sound(label) => is_apart_from_all(stretch, label.extents.as_slice()),
        Slot::Free | Slot::Damaged(_) => true,
    }
}

/// Whether a run meets no sound extent.
pub fn is_clear(slots: &[Slot], stretch: Stretch) -> bool
    ensures { result ≡ is_clear_spec slots.now stretch }
{
    slots.iter().all(|slot| is_apart_from(stretch, slot))
}

/// Whether a slot has the sound file of that name.
pub fn bears(name: Name, slot: &Slot) -> bool
    ensures { result ≡ bears_spec name slot.now }
{
    match slot {
        Slot::Sound(label) => label.name == name,
        Slot::Free | Slot::Damaged(_) => false,
    }
}

/// Whether one of these slots has the sound file of that name.
pub fn any_bears(name: Name, slots: &[Slot]) -> bool
    ensures { result ≡ list_any (bears_spec name) slots.now }
{
    slots.iter().any(|slot| bears(name, slot))
}

/// Whether these extents meet no sound extent.
fn are_clear(earlier: &[Slot], extents: &[Stretch]) -> bool
    ensures { result ≡ list_all (is_clear_spec earlier.now) extents.now }
{
    extents.iter().all(|extent| is_clear(earlier, *extent))
}

/// Whether a label meets no sound extent and doesn't repeat the name of a sound slot.
fn is_disentangled(earlier: &[Slot], label: &FileLabel) -> bool
    ensures { result ≡ is_disentangled_spec earlier.now label.now }
{
    are_clear(earlier, label.extents.as_slice()) && !any_bears(label.name, earlier)
}

/// Whether a label is sound, given the slots before it.
fn is_sound(region: Stretch, earlier: &[Slot], label: &FileLabel) -> bool
    ensures { result ≡ is_sound_spec region earlier.now label.now }
{
    is_well_formed(region, label) && is_disentangled(earlier, label)
}

/// What a mount judges a slot to be, by its 64 bytes and by the slots of its area before it, as they were judged (docs/PACK.md,
/// "Damage").
pub fn judge(format: Format, region: Stretch, earlier: &[Slot], bytes: &[u8]) -> Slot
    requires { 64 ≤ length bytes.now }
    ensures { result ≡ judged format region earlier.now bytes.now }
{
    if bytes[0] == 0 {
        return Slot::Free;
    }
    if bytes[0] != 1 {
        return Slot::Damaged(name_in(bytes));
    }
    match label_in(format, bytes) {
        Some(label) if is_sound(region, earlier, &label) => Slot::Sound(label),
        _ => Slot::Damaged(name_in(bytes)),
    }
}

/// Whether a slot is damaged and has that name.
fn is_damaged_under(name: Name, slot: &Slot) -> bool
    ensures { result ≡ is_damaged_under_spec name slot.now }
{
    match slot {
        Slot::Damaged(Some(other)) => *other == name,
        Slot::Damaged(None) | Slot::Free | Slot::Sound(_) => false,
    }
}

/// Whether one of these slots is damaged and has that name.
fn any_damaged_under(name: Name, slots: &[Slot]) -> bool
    ensures { result ≡ list_any (is_damaged_under_spec name) slots.now }
{
    slots.iter().any(|slot| is_damaged_under(name, slot))
}

/// The place, from 0, of the first slot that has the sound file of a label.
pub fn place_of(name: Name, slots: &[Slot]) -> Option<usize>
    ensures place { result ≡ position_from (bears_spec name) 0 slots.now }
    ensures within { IfSome result (λ i. i < length slots.now) }
{
    slots.iter().position(|slot| bears(name, slot))
}

/// What slots have under a name that no sound file has.
fn without_file(is_blocked: bool) -> Standing
    ensures { result ≡ without_file_spec is_blocked }
{
    if is_blocked {
        Standing::Blocked
    } else {
        Standing::Absent
    }
}

/// What the slots of an area have under a label.
#[tactic(auto, unfolding(crate::specs::Slots::standing))]
pub fn standing_of(name: Name, slots: &[Slot]) -> Standing
    ensures { result ≡ standing_spec name slots.now }
{
    let is_blocked = any_damaged_under(name, slots);
    match place_of(name, slots) {
        None => without_file(is_blocked),
        Some(i) => match &slots[i] {
            Slot::Sound(label) => Standing::Present(label.copied()),
            Slot::Free | Slot::Damaged(_) => without_file(is_blocked),
        },
    }
}
