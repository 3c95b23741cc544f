//! What room a pack has, and what its files take.

use crate::fault::ListFault;
use crate::written::mount_slots;
use s3_cards::Name;
use s3_labels::{Area, AreaSlots, Slot};
use s3_pack_check::region_of;
use s3_store::Stretch;
use std::alloc::Global;

/// The sectors of a track.
const TRACK: u16 = 24;

/// The tracks of a region that no file has.
#[derive(Clone, Copy)]
pub struct FreeRoom {
    /// How many there are.
    pub tracks: u16,
    /// The length of the longest run of them.
    pub in_a_row: u16,
}

/// The free tracks of an area of a pack. Refused with `Mount` or `NoMemory`.
pub fn free_room(alloc: Global, pack: &[u8], area: Area) -> Result<FreeRoom, ListFault> {
    let areas = mount_slots(alloc, pack)?;
    Ok(room_of(&areas, area))
}

/// The free tracks of an area.
pub fn room_of(areas: &AreaSlots, area: Area) -> FreeRoom {
    room_in(region_of(areas, area), areas.slots_of(area))
}

/// How large a file is.
#[derive(Clone, Copy)]
pub struct FileSize {
    /// The tracks that it takes.
    pub tracks: u16,
    /// The records that it has.
    pub records: u32,
}

/// How large the sound file of a label is in an area of a pack, if the area has one. Refused with `Mount` or `NoMemory`.
pub fn file_size(
    alloc: Global,
    pack: &[u8],
    area: Area,
    name: Name,
) -> Result<Option<FileSize>, ListFault> {
    let areas = mount_slots(alloc, pack)?;
    for slot in areas.slots_of(area) {
        if let Slot::Sound(label) = slot {
            if label.name == name {
                return Ok(Some(FileSize {
                    tracks: tracks_of(label.extents.as_slice()),
                    records: label.count,
                }));
            }
        }
    }
    Ok(None)
}

/// The file of a slot with a valid label.
#[derive(Clone, Copy)]
pub struct SlotFile {
    /// Its label.
    pub name: Name,
    /// The records that it has.
    pub records: u32,
}

/// The file of a slot of an area of a pack, if the label of the slot is valid. Refused with `Mount` or `NoMemory`.
pub fn file_in_slot(
    alloc: Global,
    pack: &[u8],
    area: Area,
    slot: u16,
) -> Result<Option<SlotFile>, ListFault> {
    let areas = mount_slots(alloc, pack)?;
    match areas.slots_of(area).get(usize::from(slot)) {
        Some(Slot::Sound(label)) => Ok(Some(SlotFile {
            name: label.name,
            records: label.count,
        })),
        _ => Ok(None),
    }
}

/// The free tracks of a region with these slots.
fn room_in(region: Stretch, slots: &[Slot]) -> FreeRoom {
    let mut room = FreeRoom {
        tracks: 0,
        in_a_row: 0,
    };
    let mut row = 0u16;
    for track in 0..region.sectors / TRACK {
        let place = Stretch {
            start: region.start.saturating_add(track.saturating_mul(TRACK)),
            sectors: TRACK,
        };
        if slots.iter().any(|slot| has_sector_of(slot, place)) {
            row = 0;
        } else {
            row = row.saturating_add(1);
            room.tracks = room.tracks.saturating_add(1);
            room.in_a_row = room.in_a_row.max(row);
        }
    }
    room
}

/// Whether the sound file of a slot, if it has one, has a sector of a stretch.
fn has_sector_of(slot: &Slot, place: Stretch) -> bool {
    match slot {
        Slot::Sound(label) => {
            let extents = label.extents.as_slice();
            extents.iter().any(|extent| meet(*extent, place))
        }
        Slot::Free | Slot::Damaged(_) => false,
    }
}

/// Whether two stretches have a sector in common.
fn meet(one: Stretch, other: Stretch) -> bool {
    u32::from(one.start) < end_of(other) && u32::from(other.start) < end_of(one)
}

/// The sector after a stretch.
fn end_of(stretch: Stretch) -> u32 {
    u32::from(stretch.start) + u32::from(stretch.sectors)
}

/// The tracks of some extents.
fn tracks_of(extents: &[Stretch]) -> u16 {
    let mut tracks = 0u16;
    for extent in extents {
        tracks = tracks.saturating_add(extent.sectors / TRACK);
    }
    tracks
}
