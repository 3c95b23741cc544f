//! The slots of an area after a count is set or a label is dropped.
ghost use Rattle.std.specs.Prelude.{◌≡◌, ◌<◌, length, Some, None, IfOk, IfErr};
ghost use Rattle.std.specs.List.{position_from};
ghost use Rattle.s3_slots.specs.declared.slot.Slot.TheVariants.{Free, Sound};
ghost use Rattle.s3_slots.specs.Slots.{bears as bears_spec, standing as standing_spec};
ghost use Rattle.s3_slots.specs.Inner.Making.{refusal};
ghost use Rattle.s3_slots.specs.Making.{changed_in};

use crate::making::LabelFault;
use crate::slot::{Slot, Standing, place_of, standing_of};
use s3_cards::Name;

/// The place, from 0, of the slot that has the sound file of a label among the slots of an area. Refused with `DamagedLabel` if
/// there is none but a damaged slot has the label, and with `NotFound` if no slot has it.
#[tactic(auto, using(crate::proofs::Makes::present_somewhere))]
pub fn place_in(name: Name, slots: &[Slot]) -> Result<usize, LabelFault>
    ensures ok { IfOk result (λ i. refusal (standing_spec name slots.now) ≡ None) }
    ensures place { IfOk result (λ i. position_from (bears_spec name) 0 slots.now ≡ Some i) }
    ensures within { IfOk result (λ i. i < length slots.now) }
    ensures err { IfErr result (λ fault. refusal (standing_spec name slots.now) ≡ Some fault) }
{
    match standing_of(name, slots) {
        Standing::Absent => Err(LabelFault::NotFound),
        Standing::Blocked => Err(LabelFault::DamagedLabel),
        Standing::Present(_) => match place_of(name, slots) {
            Some(place) => Ok(place),
            None => Err(LabelFault::NotFound),
        },
    }
}

/// Sets the count of the file in the slot at a place, from 0; a slot without a file stays as it is.
pub fn recount(slots: &mut [Slot], place: usize, count: u32)
    requires { place < length slots.old }
    ensures { slots.new ≡ changed_in (λ label. Sound (record label { count = count })) slots.old (Some place) }
{
    if let Slot::Sound(label) = &slots[place] {
        let mut label = label.copied();
        label.count = count;
        slots[place] = Slot::Sound(label);
    }
}

/// Frees the slot of a file at a place, from 0; a slot without a file stays as it is.
pub fn free(slots: &mut [Slot], place: usize)
    requires { place < length slots.old }
    ensures { slots.new ≡ changed_in (λ label. Free) slots.old (Some place) }
{
    if let Slot::Sound(_) = &slots[place] {
        slots[place] = Slot::Free;
    }
}
