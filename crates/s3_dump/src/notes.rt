//! The notes of a dump: what the bytes after them are.

use s3_cards::{Name, Retention, host_byte, word_len};
use s3_labels::{Area, FileLabel, Format, Header, Organization, Slot};
use std::alloc::{AllocError, Global};

/// The note about a header.
pub fn header_note(alloc: Global, header: &Header) -> Result<String, AllocError> {
    let format = match header.format {
        Format::First => 1u8,
        Format::Second => 2,
    };
    let total = header.total;
    let one = header.quota_one;
    let two = header.quota_two;
    format!(in alloc; "header: format {format}, {total} sectors, quotas {one} and {two}")
}

/// The note about a slot of an area; none about a free one.
pub fn slot_note(
    alloc: Global,
    area: Area,
    place: usize,
    slot: &Slot,
) -> Result<String, AllocError> {
    let mut text = String::new(alloc);
    match slot {
        Slot::Free => {}
        Slot::Damaged(_) => {
            push_slot(&mut text, area, place)?;
            text.push_str("damaged")?;
        }
        Slot::Sound(label) => {
            push_slot(&mut text, area, place)?;
            push_label(&mut text, label)?;
        }
    }
    Ok(text)
}

fn push_slot(text: &mut String, area: Area, place: usize) -> Result<(), AllocError> {
    let area = area.number();
    write!(text, "area {area}, slot {place}: ")
}

/// Appends what a label says: its name, its letters, its records, its key and its date.
fn push_label(text: &mut String, label: &FileLabel) -> Result<(), AllocError> {
    push_name(text, label.name)?;
    text.push_str(match label.organization {
        Organization::Sequential => " S",
        Organization::Indexed => " I",
        Organization::Direct => " D",
    })?;
    text.push_str(match label.retention {
        Retention::Temporary => " T",
        Retention::Scratch => " S",
        Retention::Permanent => " P",
    })?;
    push_counts(text, label)?;
    push_key(text, label)?;
    text.push_str(", date ")?;
    for code in &label.date {
        text.push(char::from(host_byte(*code)))?;
    }
    Ok(())
}

fn push_counts(text: &mut String, label: &FileLabel) -> Result<(), AllocError> {
    let count = label.count;
    let capacity = label.capacity;
    let long = label.record_length;
    write!(text, ", {count} of {capacity} records of {long} bytes")
}

fn push_key(text: &mut String, label: &FileLabel) -> Result<(), AllocError> {
    let long = label.key_length;
    let start = label.key_start;
    if long == 0 {
        return Ok(());
    }
    write!(text, ", key of {long} from {start}")
}

fn push_name(text: &mut String, name: Name) -> Result<(), AllocError> {
    for code in &name.codes[..word_len(&name.codes)] {
        text.push(char::from(host_byte(*code)))?;
    }
    Ok(())
}

/// The note about a spool block with these bytes.
pub fn spool_note(alloc: Global, block: usize, bytes: &[u8]) -> Result<String, AllocError> {
    let page = u32::from(byte_at(bytes, 0)) * 256 + u32::from(byte_at(bytes, 1));
    let line = byte_at(bytes, 2);
    format!(in alloc; "spool block {block}: page {page}, line {line}")
}

/// The byte at a place; 0 if there is none.
fn byte_at(bytes: &[u8], place: usize) -> u8 {
    match bytes.get(place) {
        Some(byte) => *byte,
        None => 0,
    }
}

/// The note about the records of a file, from one on, by its number.
pub fn records_note(
    alloc: Global,
    area: Area,
    name: Name,
    number: usize,
) -> Result<String, AllocError> {
    let area = area.number();
    let mut text = String::new(alloc);
    push_name(&mut text, name)?;
    write!(text, " in area {area}, records from {number} on")?;
    Ok(text)
}

/// The note about the index of a file.
pub fn index_note(alloc: Global, area: Area, name: Name) -> Result<String, AllocError> {
    let area = area.number();
    let mut text = String::new(alloc);
    push_name(&mut text, name)?;
    write!(
        text,
        " in area {area}, the index of its records: count, length, sectors, key start, key length"
    )?;
    Ok(text)
}

/// The note about what a file has after its records.
pub fn after_note(alloc: Global, area: Area, name: Name) -> Result<String, AllocError> {
    let area = area.number();
    let mut text = String::new(alloc);
    push_name(&mut text, name)?;
    write!(text, " in area {area}, after its records")?;
    Ok(text)
}

/// The note about a sector that is of no file.
pub fn sector_note(alloc: Global, sector: usize) -> Result<String, AllocError> {
    format!(in alloc; "sector {sector}")
}
