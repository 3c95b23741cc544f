//! The slots of the three areas, as a mount has judged them and calls have changed them since.
ghost use Rattle.std.specs.Prelude.{◌≡◌, ◌≤◌, ◌<◌, length, slice_get, Ok, Err, Some, None, true, OnOk, OnErr, IfOk, IfErr, IfSome};
ghost use Rattle.std.specs.List.{position_from};
ghost use Rattle.s3_slots.specs.Header.{quota_of};
ghost use Rattle.s3_slots.specs.Slots.{are_extents, bears, standing};
ghost use Rattle.s3_slots.specs.Inner.Stretches.{IsWhole};
ghost use Rattle.s3_slots.specs.Making.{made, tracks_of, changed_in, new_label, dropped};
ghost use Rattle.s3_slots.specs.Inner.Making.{refusal};
ghost use Rattle.s3_slots.specs.Placement.{free_slot};
ghost use Rattle.s3_store.specs.Stretches.{end_of};
ghost use Rattle.s3_slots.specs.declared.slot.Slot.TheVariants.{Free, Sound};

use crate::area::Area;
use s3_cards::{LevelId, Name};
use s3_slots::{Header, LabelFault, Made, NewFile, Slot, free, make_in, place_in, recount};
use s3_store::Stretch;
use std::alloc::{AllocError, Global};
use std::marker::Model;

/// The header of a pack and the slots of its three areas, 32 each.
#[derive(Drop)]
pub struct AreaSlots {
    header: Header,
    masters: Vec<Slot>,
    level_one: Vec<Slot>,
    level_two: Vec<Slot>,
}

impl Model for AreaSlots {
    ghost use Rattle.std.specs.Prelude.{◌≡◌, length};
    ghost use Rattle.s3_labels.specs.Inner.Areas.{Areas};

    ghost Value = { Areas };

    ghost view = { λ a. record { header = a.header; masters = a.masters.items; level_one = a.level_one.items; level_two = a.level_two.items } };

    ghost invariant = { λ a. (length a.masters.items ≡ 32) × ((length a.level_one.items ≡ 32) × (length a.level_two.items ≡ 32)) };
}

impl AreaSlots {
    ghost use Rattle.s3_labels.specs.Inner.AreaNumbers.{area_number};
    ghost use Rattle.s3_labels.specs.Inner.Areas.{Areas, slots_at, slots_in, region_at, with_slots};

    /// The areas with this header and these slots, 32 of each area.
    pub fn of(
        header: Header,
        masters: Vec<Slot>,
        level_one: Vec<Slot>,
        level_two: Vec<Slot>,
    ) -> Self
        requires masters { length masters.items ≡ 32 }
        requires level_one { length level_one.items ≡ 32 }
        requires level_two { length level_two.items ≡ 32 }
        ensures header { result.header ≡ header }
        ensures masters { result.masters ≡ masters.items }
        ensures level_one { result.level_one ≡ level_one.items }
        ensures level_two { result.level_two ≡ level_two.items }
    {
        AreaSlots {
            header,
            masters,
            level_one,
            level_two,
        }
    }

    /// The header of the pack.
    pub fn header(&self) -> Header
        ensures { result ≡ self.now.header }
    {
        self.header
    }

    /// The 32 slots of the masters.
    pub fn masters(&self) -> &[Slot]
        ensures slots { result.now ≡ self.now.masters }
        ensures count { length result.now ≡ 32 }
    {
        &self.masters
    }

    /// The 32 slots of a level.
    pub fn slots(&self, level: LevelId) -> &[Slot]
        ensures slots { result.now ≡ slots_at level self.now }
        ensures count { length result.now ≡ 32 }
    {
        match level {
            LevelId::One => &self.level_one,
            LevelId::Two => &self.level_two,
        }
    }

    /// The 32 slots of an area.
    pub fn slots_of(&self, area: Area) -> &[Slot]
        ensures slots { result.now ≡ slots_in (area_number area) self.now }
        ensures count { length result.now ≡ 32 }
    {
        match area {
            Area::Masters => self.masters(),
            Area::Level(LevelId::One) => &self.level_one,
            Area::Level(LevelId::Two) => &self.level_two,
        }
    }

    /// Slot `i`, 0 to 31, of an area.
    pub fn slot(&self, area: Area, i: usize) -> &Slot
        requires { i < 32 }
        ensures { slice_get (slots_in (area_number area) self.now) i ≡ Some result.now }
    {
        &self.slots_of(area)[i]
    }

    /// The region of a level.
    pub fn region(&self, level: LevelId) -> Stretch
        ensures { result ≡ region_at level self.now }
    {
        match level {
            LevelId::One => self.header.level_one,
            LevelId::Two => self.header.level_two,
        }
    }

    /// How many printed lines of a level may be queued, 1 to 127.
    pub fn quota(&self, level: LevelId) -> u8
        ensures { result ≡ quota_of level self.now.header }
    {
        match level {
            LevelId::One => self.header.quota_one,
            LevelId::Two => self.header.quota_two,
        }
    }

    /// The place, 0 to 31, of the slot of the file that a level itself has under a label. Refused with `DamagedLabel` if damage
    /// blocks the label, and with `NotFound`.
    pub fn place(&self, level: LevelId, name: Name) -> Result<usize, LabelFault>
        ensures ok { IfOk result (λ i. refusal (standing name (slots_at level self.now)) ≡ None) }
        ensures place { IfOk result (λ i. position_from (bears name) 0 (slots_at level self.now) ≡ Some i) }
        ensures within { IfOk result (λ i. i < 32) }
        ensures err { IfErr result (λ fault. refusal (standing name (slots_at level self.now)) ≡ Some fault) }
    {
        place_in(name, self.slots(level))
    }

    /// Sets the count of the file in the slot at a place, 0 to 31, of a level; a slot without a file stays as it is.
    pub fn recount(&mut self, level: LevelId, place: usize, count: u32)
        requires { place < 32 }
        ensures { self.new ≡ with_slots level (changed_in (λ label. Sound (record label { count = count })) (slots_at level self.old) (Some place)) self.old }
    {
        match level {
            LevelId::One => recount(&mut self.level_one, place, count),
            LevelId::Two => recount(&mut self.level_two, place, count),
        }
    }

    /// Frees the slot of a file at a place, 0 to 31, of a level; a slot without a file stays as it is.
    pub fn free(&mut self, level: LevelId, place: usize)
        requires { place < 32 }
        ensures { self.new ≡ with_slots level (changed_in (λ label. Free) (slots_at level self.old) (Some place)) self.old }
    {
        match level {
            LevelId::One => free(&mut self.level_one, place),
            LevelId::Two => free(&mut self.level_two, place),
        }
    }

    /// Makes a file of a level: changes the level's slots, and says which. A refused call leaves all slots as they were, as
    /// `make_in` says.
    pub fn make(&mut self, level: LevelId, new: &NewFile) -> Result<Made, LabelFault>
        requires fits { end_of (region_at level self.old) ≤ 65535 }
        requires key { new.now.key_length ≤ 29 }
        requires length { 1 ≤ new.now.record_length }
        requires whole { IsWhole (region_at level self.old) }
        requires tracks { 1 ≤ tracks_of new.now }
        ensures ok { OnOk result (made self.old.header.format (region_at level self.old) self.old.masters new.now (slots_at level self.old) ≡ Ok (slots_at level self.new)) }
        ensures err { IfErr result (λ fault. made self.old.header.format (region_at level self.old) self.old.masters new.now (slots_at level self.old) ≡ Err fault) }
        ensures same { OnErr result (self.new ≡ self.old) }
        ensures alone { self.new ≡ with_slots level (slots_at level self.new) self.old }
        ensures within { IfOk result (λ made. made.at < 32) }
        ensures placed { IfOk result (λ made. are_extents (region_at level self.old) made.label.extents ≡ true) }
        ensures named { IfOk result (λ made. made.label.name ≡ new.now.name) }
        ensures there { IfOk result (λ made. slice_get (slots_at level self.new) made.at ≡ Some (Sound made.label)) }
        ensures label { IfOk result (λ made. made.label ≡ new_label new.now made.label.extents) }
        ensures slot { IfOk result (λ made. free_slot (dropped new.now.name (slots_at level self.old)) ≡ Some made.at) }
        ensures old { IfOk result (λ made. made.freed ≡ position_from (bears new.now.name) 0 (slots_at level self.old)) }
        ensures freed { IfOk result (λ made. IfSome made.freed (λ i. i < 32)) }
    {
        let format = self.header.format;
        match level {
            LevelId::One => make_in(
                format,
                self.header.level_one,
                &self.masters,
                new,
                &mut self.level_one,
            ),
            LevelId::Two => make_in(
                format,
                self.header.level_two,
                &self.masters,
                new,
                &mut self.level_two,
            ),
        }
    }
}

/// A copy of some slots.
pub fn copy_of(alloc: Global, slots: &[Slot]) -> Result<Vec<Slot>, AllocError>
    ensures { IfOk result (λ copy. copy.items ≡ slots.now) }
{
    let mut copy = Vec::new(alloc);
    for slot in slots {
        copy.push(slot.copied())?;
    }
    Ok(copy)
}
