//! A table of a pack's regions and files, for people.

use crate::fault::ListFault;
use crate::lines::{letter_of_organization, letter_of_retention};
use crate::written::mount_slots;
use s3_cards::{LevelId, Name, host_byte};
use s3_labels::{Area, AreaSlots, FileLabel, Format, Organization, Slot};
use s3_pack_check::{Cause, CheckFault, Wrong, check_pack, push_cause, region_of};
use std::alloc::{AllocError, Global};
use std::io::Write;

/// The sectors of a track.
const TRACK: u32 = 24;

/// Writes a table of a pack. For the masters and each level it has the size of the region, how much of it is free, and each used
/// slot by its number in the area, 0 to 31. A file has its label, organization, retention and record length, the length and start
/// of the key if it has an index, the capacity, the count, how full it is, the date and the extents. A slot that is damaged, or
/// whose index is wrong, has the reason.
///
/// Refused with `Mount`, `NoMemory` or `File`, as `list` is.
pub fn write_table<W: Write>(alloc: Global, pack: &[u8], writer: &mut W) -> Result<(), ListFault> {
    let slots = mount_slots(alloc, pack)?;
    let wrongs = wrongs_of(alloc, pack)?;
    let text = table_text(alloc, &slots, &wrongs)?;
    match writer.write_all(text.as_str().as_bytes()) {
        Ok(()) => Ok(()),
        Err(_) => Err(ListFault::File),
    }
}

/// What is wrong with a pack.
fn wrongs_of(alloc: Global, pack: &[u8]) -> Result<Vec<Wrong>, ListFault> {
    match check_pack(alloc, pack) {
        Ok(wrongs) => Ok(wrongs),
        Err(CheckFault::Mount(fault)) => Err(ListFault::Mount(fault)),
        Err(CheckFault::NoMemory) => Err(ListFault::NoMemory),
    }
}

fn table_text(alloc: Global, slots: &AreaSlots, wrongs: &[Wrong]) -> Result<String, AllocError> {
    let header = slots.header();
    let mut text = String::new(alloc);
    let format = number_of(header.format);
    let total = header.total;
    let quota_one = header.quota_one;
    let quota_two = header.quota_two;
    writeln!(
        text,
        "Pack of format {format}: {total} sectors, quotas {quota_one} and {quota_two}"
    )?;
    for area in Area::ALL {
        push_area(&mut text, slots, area, wrongs)?;
    }
    Ok(text)
}

fn number_of(format: Format) -> u8 {
    match format {
        Format::First => 1,
        Format::Second => 2,
    }
}

/// What an area is called.
pub fn area_title(area: Area) -> &'static str {
    match area {
        Area::Masters => "Masters",
        Area::Level(LevelId::One) => "Level 1",
        Area::Level(LevelId::Two) => "Level 2",
    }
}

/// Appends an area: its region, and a line for each used slot.
fn push_area(
    text: &mut String,
    areas: &AreaSlots,
    area: Area,
    wrongs: &[Wrong],
) -> Result<(), AllocError> {
    let title = area_title(area);
    let slots = areas.slots_of(area);
    let sectors = u32::from(region_of(areas, area).sectors);
    let tracks = sectors / TRACK;
    let free = sectors.saturating_sub(taken_sectors(slots)) / TRACK;
    let free_slots = slots.iter().filter(|slot| is_free(slot)).count();
    writeln!(text)?;
    writeln!(
        text,
        "{title}: {tracks} tracks, {free} free; {free_slots} of 32 slots free"
    )?;
    if free_slots < slots.len() {
        writeln!(
            text,
            "Slot Label    Kind Kept Length Key length Key start Capacity    Count Full Date     Sectors"
        )?;
    }
    for (number, slot) in slots.iter().enumerate() {
        push_slot(text, number, slot, cause_of(wrongs, area, number))?;
    }
    Ok(())
}

/// What is wrong with the slot of a number in an area, if anything is.
fn cause_of(wrongs: &[Wrong], area: Area, number: usize) -> Option<Cause> {
    for wrong in wrongs {
        if wrong.area == area && usize::from(wrong.slot) == number {
            return Some(wrong.cause);
        }
    }
    None
}

fn is_free(slot: &Slot) -> bool {
    match slot {
        Slot::Free => true,
        Slot::Sound(_) | Slot::Damaged(_) => false,
    }
}

/// The sectors of all sound extents.
fn taken_sectors(slots: &[Slot]) -> u32 {
    let mut taken = 0u32;
    for slot in slots {
        if let Slot::Sound(label) = slot {
            taken = taken.saturating_add(sectors_of(label));
        }
    }
    taken
}

fn sectors_of(label: &FileLabel) -> u32 {
    let mut sectors = 0u32;
    for extent in label.extents.as_slice() {
        sectors = sectors.saturating_add(u32::from(extent.sectors));
    }
    sectors
}

/// Appends the line of the slot of this number in its area, 0 to 31, with what is wrong with it, if anything is; a free one has none.
fn push_slot(
    text: &mut String,
    number: usize,
    slot: &Slot,
    cause: Option<Cause>,
) -> Result<(), AllocError> {
    match slot {
        Slot::Free => return Ok(()),
        Slot::Damaged(Some(name)) => {
            write!(text, "{number:>4} ")?;
            push_name(text, *name)?;
            text.push_str(" damaged")?;
        }
        Slot::Damaged(None) => write!(text, "{number:>4} ???????? damaged")?,
        Slot::Sound(label) => push_file(text, number, label)?,
    }
    if let Some(cause) = cause {
        text.push_str(": ")?;
        push_cause(text, cause)?;
    }
    text.push('\n')
}

fn push_file(text: &mut String, number: usize, label: &FileLabel) -> Result<(), AllocError> {
    let kind = char::from(letter_of_organization(label.organization));
    let kept = char::from(letter_of_retention(label.retention));
    let length = label.record_length;
    let capacity = label.capacity;
    let count = label.count;
    let full = percent(count, capacity);
    write!(text, "{number:>4} ")?;
    push_name(text, label.name)?;
    write!(text, " {kind}    {kept}    {length:>6}")?;
    push_key(text, label)?;
    write!(text, " {capacity:>8} {count:>8} {full:>3}% ")?;
    push_date(text, &label.date)?;
    for extent in label.extents.as_slice() {
        let first = u32::from(extent.start);
        let last = (first + u32::from(extent.sectors)).saturating_sub(1);
        write!(text, " {first}-{last}")?;
    }
    Ok(())
}

/// Appends length and start of the key of an indexed file, and blanks for a file without an index.
fn push_key(text: &mut String, label: &FileLabel) -> Result<(), AllocError> {
    let length = label.key_length;
    let start = label.key_start;
    match label.organization {
        Organization::Indexed => write!(text, " {length:>10} {start:>9}"),
        Organization::Sequential | Organization::Direct => {
            let none = "";
            write!(text, " {none:>10} {none:>9}")
        }
    }
}

/// How full a file is, in whole hundredths that are cut; 0 for one without room.
fn percent(count: u32, capacity: u32) -> u64 {
    if capacity == 0 {
        return 0;
    }
    u64::from(count) * 100 / u64::from(capacity)
}

/// Appends month, day and year with slashes between them.
fn push_date(text: &mut String, date: &[u8; 6]) -> Result<(), AllocError> {
    push_codes(text, &date[..2])?;
    text.push('/')?;
    push_codes(text, &date[2..4])?;
    text.push('/')?;
    push_codes(text, &date[4..])
}

fn push_name(text: &mut String, name: Name) -> Result<(), AllocError> {
    push_codes(text, &name.codes)
}

/// Appends the characters of EBCDIC codes.
fn push_codes(text: &mut String, codes: &[u8]) -> Result<(), AllocError> {
    for code in codes {
        text.push(char::from(host_byte(*code)))?;
    }
    Ok(())
}
