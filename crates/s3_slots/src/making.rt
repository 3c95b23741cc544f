//! The making of files.

ghost use Rattle.std.specs.Prelude.{◌≡◌, ◌≤◌, ◌<◌, ◌+◌, Ok, Err, OnOk, OnErr, IfOk, IfErr, IfSome, length, slice_get, Some, None, true, nat_le};
ghost use Rattle.std.specs.List.{position_from};
ghost use Rattle.s3_slots.specs.Placement.{free_slot as free_slot_spec};
ghost use Rattle.s3_slots.specs.Slots.{standing as standing_spec, are_extents, bears, sectors_needed as sectors_needed_spec};
ghost use Rattle.s3_slots.specs.Inner.Stretches.{IsWhole};
ghost use Rattle.s3_slots.specs.declared.slot.Standing.TheVariants.{Present};
ghost use Rattle.s3_slots.specs.declared.slot.Slot.TheVariants.{Sound};
ghost use Rattle.s3_slots.specs.Making.{greatest_capacity as greatest_capacity_spec, tracks_of as tracks_of_spec, capacity_of as capacity_of_spec, first_count as first_count_spec, new_label as new_label_spec, put as put_spec, dropped, put_over as put_over_spec, made as made_spec};

use crate::header::Format;
use crate::label::{FileLabel, Organization};
use crate::placement::{free_slot, placed};
use crate::slot::{Slot, Standing, any_bears, place_of, sectors_needed, standing_of};
use s3_cards::{Name, Retention};
use s3_store::{Extents, Stretch};

/// Why a call on labels is refused.
#[derive(Clone, Copy, Debug)]
pub enum LabelFault {
    /// No file of the area has that label.
    NotFound,
    /// A damaged slot has that label and blocks it.
    DamagedLabel,
    /// A master has that label.
    Master,
    /// The region has no room for the file.
    NoSpace,
    /// A permanent file has that label.
    Retained,
    /// No slot of the area is free.
    NoSlot,
}

/// How large a new file is to be.
#[derive(Clone, Copy)]
pub enum Size {
    /// Room for so many records, 1 to 999,999.
    Records(u32),
    /// So many tracks, 1 to 999.
    Tracks(u16),
}

/// A file that is to be made.
#[derive(Clone, Copy)]
pub struct NewFile {
    /// The label that the file gets.
    pub name: Name,
    /// How the file's records are found.
    pub organization: Organization,
    /// How long the file is kept.
    pub retention: Retention,
    /// The length of each record in bytes, 1 to 1,024.
    pub record_length: u16,
    /// The length of a key in bytes, 1 to 29 for an indexed file; else 0.
    pub key_length: u8,
    /// The first byte of the key in a record, from 1, for an indexed file; else 0.
    pub key_start: u16,
    /// How large the file is to be.
    pub size: Size,
    /// The date of the file's making, mmddyy, in EBCDIC.
    pub date: [u8; 6],
}

/// Which slots of an area the making of a file has changed, by their places from 0.
#[derive(Drop)]
pub struct Made {
    /// The slot that the old file of the label had, if there was one.
    pub freed: Option<usize>,
    /// The slot of the new file.
    pub at: usize,
    /// The new file's label.
    pub label: FileLabel,
}

/// Whether a file with room for so many records fits so many sectors.
fn does_fit(new: &NewFile, sectors: u32, capacity: u32) -> bool
    requires { new.now.key_length ≤ 29 }
    ensures { result ≡ nat_le (sectors_needed_spec new.now.organization new.now.record_length new.now.key_length capacity) sectors }
{
    sectors_needed(
        new.organization,
        new.record_length,
        new.key_length,
        capacity,
    ) <= u64::from(sectors)
}

/// The greatest capacity that fits so many sectors.
fn greatest_capacity(new: &NewFile, sectors: u32) -> u32
    requires key { new.now.key_length ≤ 29 }
    requires length { 1 ≤ new.now.record_length }
    requires few { sectors ≤ 1572840 }
    ensures { result ≡ greatest_capacity_spec new.now sectors }
{
    let mut least = 0;
    let mut most = sectors * 256 / u32::from(new.record_length);
    while least < most {
        let middle = most - (most - least) / 2;
        if does_fit(new, sectors, middle) {
            least = middle;
        } else {
            most = middle - 1;
        }
    }
    least
}

/// How many tracks a new file takes.
fn tracks_of(new: &NewFile) -> u64
    requires key { new.now.key_length ≤ 29 }
    ensures value { result ≡ tracks_of_spec new.now }
    ensures few { result ≤ 2199023255552 }
{
    match new.size {
        Size::Records(n) => {
            (sectors_needed(new.organization, new.record_length, new.key_length, n) + 23) / 24
        }
        Size::Tracks(n) => u64::from(n),
    }
}

/// The number of records for which a new file has space.
fn capacity_of(new: &NewFile) -> u32
    requires key { new.now.key_length ≤ 29 }
    requires length { 1 ≤ new.now.record_length }
    ensures { result ≡ capacity_of_spec new.now }
{
    match new.size {
        Size::Records(n) => n,
        Size::Tracks(n) => greatest_capacity(new, 24 * u32::from(n)),
    }
}

/// The count of a new file's records.
fn first_count(organization: Organization, capacity: u32) -> u32
    ensures { result ≡ first_count_spec organization capacity }
{
    match organization {
        Organization::Direct => capacity,
        Organization::Sequential | Organization::Indexed => 0,
    }
}

/// The label of a new file.
#[tactic(auto, unfolding(crate::specs::Making::new_label))]
fn new_label(new: &NewFile, extents: Extents) -> FileLabel
    requires key { new.now.key_length ≤ 29 }
    requires length { 1 ≤ new.now.record_length }
    ensures { result ≡ new_label_spec new.now extents }
{
    let capacity = capacity_of(new);
    FileLabel {
        name: new.name,
        organization: new.organization,
        retention: new.retention,
        record_length: new.record_length,
        key_length: new.key_length,
        key_start: new.key_start,
        extents,
        capacity,
        count: first_count(new.organization, capacity),
        date: new.date,
    }
}

/// Puts a new file into the lowest free slot, which it answers.
#[tactic(auto, using(crate::proofs::Rooms::placed_extents), unfolding(crate::specs::Making::new_label))]
fn put(
    format: Format,
    region: Stretch,
    new: &NewFile,
    slots: &mut [Slot],
) -> Result<Made, LabelFault>
    requires fits { region.start + region.sectors ≤ 65535 }
    requires key { new.now.key_length ≤ 29 }
    requires length { 1 ≤ new.now.record_length }
    requires whole { IsWhole region }
    requires tracks { 1 ≤ tracks_of_spec new.now }
    ensures ok { OnOk result (put_spec format region new.now slots.old ≡ Ok slots.new) }
    ensures err { IfErr result (λ fault. put_spec format region new.now slots.old ≡ Err fault) }
    ensures same { OnErr result (slots.new ≡ slots.old) }
    ensures within { IfOk result (λ made. made.at < length slots.old) }
    ensures placed { IfOk result (λ made. are_extents region made.label.extents ≡ true) }
    ensures named { IfOk result (λ made. made.label.name ≡ new.now.name) }
    ensures there { IfOk result (λ made. slice_get slots.new made.at ≡ Some (Sound made.label)) }
    ensures label { IfOk result (λ made. made.label ≡ new_label_spec new.now made.label.extents) }
    ensures slot { IfOk result (λ made. free_slot_spec slots.old ≡ Some made.at) }
    ensures freed { IfOk result (λ made. made.freed ≡ None) }
{
    let at = match free_slot(slots) {
        Some(at) => at,
        None => return Err(LabelFault::NoSlot),
    };
    let extents = match placed(format, region, slots, tracks_of(new)) {
        Some(extents) => extents,
        None => return Err(LabelFault::NoSpace),
    };
    let label = new_label(new, extents);
    slots[at] = Slot::Sound(label.copied());
    Ok(Made {
        freed: None,
        at,
        label,
    })
}

/// Puts a new file in place of the old one of its name.
fn put_over(
    format: Format,
    region: Stretch,
    new: &NewFile,
    slots: &mut [Slot],
) -> Result<Made, LabelFault>
    requires fits { region.start + region.sectors ≤ 65535 }
    requires key { new.now.key_length ≤ 29 }
    requires length { 1 ≤ new.now.record_length }
    requires whole { IsWhole region }
    requires tracks { 1 ≤ tracks_of_spec new.now }
    ensures ok { OnOk result (put_over_spec format region new.now slots.old (standing_spec new.now.name slots.old) ≡ Ok slots.new) }
    ensures err { IfErr result (λ fault. put_over_spec format region new.now slots.old (standing_spec new.now.name slots.old) ≡ Err fault) }
    ensures same { OnErr result (slots.new ≡ slots.old) }
    ensures within { IfOk result (λ made. made.at < length slots.old) }
    ensures placed { IfOk result (λ made. are_extents region made.label.extents ≡ true) }
    ensures named { IfOk result (λ made. made.label.name ≡ new.now.name) }
    ensures there { IfOk result (λ made. slice_get slots.new made.at ≡ Some (Sound made.label)) }
    ensures label { IfOk result (λ made. made.label ≡ new_label_spec new.now made.label.extents) }
    ensures slot { IfOk result (λ made. free_slot_spec (dropped new.now.name slots.old) ≡ Some made.at) }
    ensures old { IfOk result (λ made. made.freed ≡ position_from (bears new.now.name) 0 slots.old) }
    ensures freed { IfOk result (λ made. IfSome made.freed (λ i. i < length slots.old)) }
{
    match standing_of(new.name, slots) {
        Standing::Blocked => Err(LabelFault::DamagedLabel),
        Standing::Absent => put(format, region, new, slots),
        Standing::Present(old) => {
            if old.retention == Retention::Permanent {
                return Err(LabelFault::Retained);
            }
            put_instead(format, region, new, old, slots)
        }
    }
}

/// Puts a new file in place of the old one of its name.
fn put_instead(
    format: Format,
    region: Stretch,
    new: &NewFile,
    old: FileLabel,
    slots: &mut [Slot],
) -> Result<Made, LabelFault>
    requires fits { region.start + region.sectors ≤ 65535 }
    requires key { new.now.key_length ≤ 29 }
    requires length { 1 ≤ new.now.record_length }
    requires whole { IsWhole region }
    requires tracks { 1 ≤ tracks_of_spec new.now }
    requires old { standing_spec new.now.name slots.old ≡ Present old }
    ensures ok { OnOk result (put_spec format region new.now (dropped new.now.name slots.old) ≡ Ok slots.new) }
    ensures err { IfErr result (λ fault. put_spec format region new.now (dropped new.now.name slots.old) ≡ Err fault) }
    ensures same { OnErr result (slots.new ≡ slots.old) }
    ensures within { IfOk result (λ made. made.at < length slots.old) }
    ensures placed { IfOk result (λ made. are_extents region made.label.extents ≡ true) }
    ensures named { IfOk result (λ made. made.label.name ≡ new.now.name) }
    ensures there { IfOk result (λ made. slice_get slots.new made.at ≡ Some (Sound made.label)) }
    ensures label { IfOk result (λ made. made.label ≡ new_label_spec new.now made.label.extents) }
    ensures slot { IfOk result (λ made. free_slot_spec (dropped new.now.name slots.old) ≡ Some made.at) }
    ensures old { IfOk result (λ made. made.freed ≡ position_from (bears new.now.name) 0 slots.old) }
    ensures freed { IfOk result (λ made. IfSome made.freed (λ i. i < length slots.old)) }
{
    let place = match place_of(new.name, slots) {
        Some(place) => place,
        None => return Err(LabelFault::NotFound),
    };
    slots[place] = Slot::Free;
    match put(format, region, new, slots) {
        Ok(made) => Ok(Made {
            freed: Some(place),
            at: made.at,
            label: made.label,
        }),
        Err(fault) => {
            slots[place] = Slot::Sound(old);
            Err(fault)
        }
    }
}

/// Makes a file in a level's region: changes the level's slots, and says which. Where it is refused, with `Master` if a master
/// has the label, then as `LabelFault` says, all slots stay. An old file of the label goes, unless it is permanent
/// (docs/PACK.md).
#[tactic(auto, unfolding(crate::specs::Making::made))]
pub fn make_in(
    format: Format,
    region: Stretch,
    masters: &[Slot],
    new: &NewFile,
    slots: &mut [Slot],
) -> Result<Made, LabelFault>
    requires fits { region.start + region.sectors ≤ 65535 }
    requires key { new.now.key_length ≤ 29 }
    requires length { 1 ≤ new.now.record_length }
    requires whole { IsWhole region }
    requires tracks { 1 ≤ tracks_of_spec new.now }
    ensures ok { OnOk result (made_spec format region masters.now new.now slots.old ≡ Ok slots.new) }
    ensures err { IfErr result (λ fault. made_spec format region masters.now new.now slots.old ≡ Err fault) }
    ensures same { OnErr result (slots.new ≡ slots.old) }
    ensures within { IfOk result (λ made. made.at < length slots.old) }
    ensures placed { IfOk result (λ made. are_extents region made.label.extents ≡ true) }
    ensures named { IfOk result (λ made. made.label.name ≡ new.now.name) }
    ensures there { IfOk result (λ made. slice_get slots.new made.at ≡ Some (Sound made.label)) }
    ensures label { IfOk result (λ made. made.label ≡ new_label_spec new.now made.label.extents) }
    ensures slot { IfOk result (λ made. free_slot_spec (dropped new.now.name slots.old) ≡ Some made.at) }
    ensures old { IfOk result (λ made. made.freed ≡ position_from (bears new.now.name) 0 slots.old) }
    ensures freed { IfOk result (λ made. IfSome made.freed (λ i. i < length slots.old)) }
{
    if any_bears(new.name, masters) {
        return Err(LabelFault::Master);
    }
    put_over(format, region, new, slots)
}
