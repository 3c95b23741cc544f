//! What is wrong with the slot that blocks a label.

use crate::at_start::AtStart;
use s3_cards::{LevelId, Name};
use s3_evidence::{BlockingSlot, Evidence};
use s3_labels::{Area, AreaSlots, Slot};
use s3_pack_check::{Damage, damage_of, region_of};
use s3_slots::judge;
use std::alloc::AllocError;

/// The text for a slot that was damaged only because of a slot before it, which has changed since: a mount would find it sound now.
const ENTANGLED: &'static str =
    "when the day began it overlapped the file of a slot before it, or had the label of one";

/// Appends the damaged slot that blocks a label in an area, and what is wrong with it, as `bureau check` reports it.
pub(crate) fn push_slot_at_fault(
    text: &mut String,
    at: AtStart<'_>,
    label: Name,
    area: Area,
) -> Result<(), AllocError> {
    let Some(slot) = slot_of(at.evidence, label, area) else {
        return Ok(());
    };
    let number = slot.slot;
    write!(text, "  slot {number} of ")?;
    text.push_str(match area {
        Area::Masters => "the masters",
        Area::Level(LevelId::One) => "level 1",
        Area::Level(LevelId::Two) => "level 2",
    })?;
    text.push_str(" is damaged: ")?;
    match damage_now(at.areas, area, number, &slot.bytes) {
        Some(damage) => writeln!(text, "{damage}"),
        None => writeln!(text, "{ENTANGLED}"),
    }
}

/// The slot that blocks a label in an area, if the pack was asked for it.
fn slot_of(evidence: &Evidence, label: Name, area: Area) -> Option<&BlockingSlot> {
    let Evidence::Slots(slots) = evidence else {
        return None;
    };
    slots
        .iter()
        .find(|slot| slot.label == label && slot.area == area)
}

/// Why a mount would find a slot damaged now, by its bytes; none if it wouldn't.
fn damage_now(areas: &AreaSlots, area: Area, slot: usize, bytes: &[u8]) -> Option<Damage> {
    let bytes = bytes.first_chunk::<64>()?;
    let earlier = areas.slots_of(area).get(..slot)?;
    let format = areas.header().format;
    let region = region_of(areas, area);
    match judge(format, region, earlier, bytes) {
        Slot::Damaged(name) => Some(damage_of(format, region, name, earlier, bytes)),
        Slot::Free | Slot::Sound(_) => None,
    }
}
