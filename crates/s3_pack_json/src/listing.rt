//! The files of a pack.
ghost use Rattle.std.specs.Prelude.{◌≡◌, IfOk, count_by};
ghost use Rattle.s3_json_lines.specs.Inner.Values.{json_of};
ghost use Rattle.s3_pack_json.specs.Inner.Objects.{area_json, format_number as format_number_spec, is_free as is_free_spec, pack_json};

use crate::checking::reason_of;
use crate::extents::tracks_cell;
use crate::slots::add_slot;
use s3_json_lines::{Cell, Value, lines_of, object};
use s3_labels::{Area, AreaSlots, Format, Header, Slot};
use s3_listing::{FreeRoom, ListFault, mount_slots, room_of};
use s3_pack_check::{Cause, CheckFault, Wrong, check_pack, region_of};
use s3_store::Stretch;
use std::alloc::{AllocError, Global};
use std::io::Write;

/// Writes a line for the pack, and for each area a line for its region and one for each used slot. Refused with `Mount`, `NoMemory` or
/// `File`.
pub fn write_list<W: Write>(alloc: Global, pack: &[u8], writer: &mut W) -> Result<(), ListFault> {
    let text = list(alloc, pack)?;
    match writer.write_all(text.as_slice()) {
        Ok(()) => Ok(()),
        Err(_) => Err(ListFault::File),
    }
}

/// A line for the pack, and for each area a line for its region and one for each used slot. Refused with `Mount` or `NoMemory`.
fn list(alloc: Global, pack: &[u8]) -> Result<Vec<u8>, ListFault> {
    let areas = mount_slots(alloc, pack)?;
    let wrongs = match check_pack(alloc, pack) {
        Ok(wrongs) => wrongs,
        Err(CheckFault::Mount(fault)) => return Err(ListFault::Mount(fault)),
        Err(CheckFault::NoMemory) => return Err(ListFault::NoMemory),
    };
    Ok(listed(alloc, &areas, &wrongs)?)
}

/// The lines of a pack.
fn listed(alloc: Global, areas: &AreaSlots, wrongs: &[Wrong]) -> Result<Vec<u8>, AllocError> {
    let mut values = Vec::new(alloc);
    values.push(pack_value(alloc, &areas.header())?)?;
    for area in Area::ALL {
        add_area(alloc, &mut values, areas, area, wrongs)?;
    }
    lines_of(alloc, &values)
}

/// Adds the objects of an area and of its used slots.
fn add_area(
    alloc: Global,
    values: &mut Vec<Value>,
    areas: &AreaSlots,
    area: Area,
    wrongs: &[Wrong],
) -> Result<(), AllocError> {
    let number = u64::from(area.number());
    let region = region_of(areas, area);
    let room = room_of(areas, area);
    let free = count_free(areas.slots_of(area));
    values.push(area_value(alloc, number, region, room, free)?)?;
    for (place, slot) in areas.slots_of(area).iter().enumerate() {
        let place = place as u64;
        let reason = reason_text(alloc, cause_of(wrongs, area, place))?;
        add_slot(alloc, values, number, place, slot, reason)?;
    }
    Ok(())
}

/// The object of the pack.
fn pack_value(alloc: Global, header: &Header) -> Result<Value, AllocError>
    ensures { IfOk result (λ value. json_of value ≡ pack_json header.now) }
{
    object(
        alloc,
        &[
            ("kind", Cell::Text("pack")),
            ("format", Cell::Number(format_number(header.format))),
            ("sectors", Cell::Number(u64::from(header.total))),
            ("quota1", Cell::Number(u64::from(header.quota_one))),
            ("quota2", Cell::Number(u64::from(header.quota_two))),
        ],
    )
}

fn format_number(format: Format) -> u64
    ensures { result ≡ format_number_spec format }
{
    match format {
        Format::First => 1,
        Format::Second => 2,
    }
}

/// The object of an area: its region, its free space and how many of its slots are free.
fn area_value(
    alloc: Global,
    area: u64,
    region: Stretch,
    room: FreeRoom,
    free_slots: u64,
) -> Result<Value, AllocError>
    ensures { IfOk result (λ value. json_of value ≡ area_json area region room free_slots) }
{
    object(
        alloc,
        &[
            ("kind", Cell::Text("area")),
            ("area", Cell::Number(area)),
            ("sector", Cell::Number(u64::from(region.start))),
            ("tracks", tracks_cell(region)),
            ("free_tracks", Cell::Number(u64::from(room.tracks))),
            ("free_in_a_row", Cell::Number(u64::from(room.in_a_row))),
            ("free_slots", Cell::Number(free_slots)),
        ],
    )
}

/// How many slots are free.
fn count_free(slots: &[Slot]) -> u64
    ensures { result ≡ count_by is_free_spec slots.now }
{
    slots.iter().filter(|slot| is_free(slot)).count() as u64
}

fn is_free(slot: &Slot) -> bool
    ensures { result ≡ is_free_spec slot.now }
{
    match slot {
        Slot::Free => true,
        Slot::Sound(_) | Slot::Damaged(_) => false,
    }
}

/// What is wrong with the slot of a number in an area, if anything is.
fn cause_of(wrongs: &[Wrong], area: Area, place: u64) -> Option<Cause> {
    for wrong in wrongs {
        if wrong.area == area && u64::from(wrong.slot) == place {
            return Some(wrong.cause);
        }
    }
    None
}

/// Why a slot isn't as it should be, in words, if it isn't.
fn reason_text(alloc: Global, cause: Option<Cause>) -> Result<Option<String>, AllocError> {
    match cause {
        Some(cause) => Ok(Some(reason_of(alloc, cause)?)),
        None => Ok(None),
    }
}
