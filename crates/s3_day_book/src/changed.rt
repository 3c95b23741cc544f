//! The files that a day changed.

use crate::owned::Change;
use s3_cards::Name;
use s3_decks::push_name;
use s3_labels::{FileLabel, Slot};
use s3_store::Stretch;
use std::alloc::{AllocError, Global};

/// The bytes of a sector.
const SECTOR: usize = 256;

/// The slots of an area of a pack, and the bytes of the pack.
#[derive(Clone, Copy)]
pub(crate) struct AreaBytes<'a> {
    pub(crate) slots: &'a [Slot],
    pub(crate) pack: &'a [u8],
}

/// Appends the files of a region that the day added, removed or changed. A file is known by its label.
pub(crate) fn push_changes(
    alloc: Global,
    changes: &mut Vec<Change>,
    region: &'static str,
    before: AreaBytes<'_>,
    after: AreaBytes<'_>,
) -> Result<(), AllocError> {
    for slot in before.slots {
        if let Slot::Sound(old) = slot {
            push_old(alloc, changes, region, before.pack, old, after)?;
        }
    }
    for slot in after.slots {
        if let Slot::Sound(new) = slot
            && file_of(before.slots, new.name).is_none()
        {
            push_change(alloc, changes, region, new.name, None, Some(new.count))?;
        }
    }
    Ok(())
}

/// Appends a file that existed before the day, unless it is the same after the day.
fn push_old(
    alloc: Global,
    changes: &mut Vec<Change>,
    region: &'static str,
    pack: &[u8],
    old: &FileLabel,
    after: AreaBytes<'_>,
) -> Result<(), AllocError> {
    match file_of(after.slots, old.name) {
        Some(new) if is_same(pack, old, after.pack, new) => Ok(()),
        Some(new) => push_change(
            alloc,
            changes,
            region,
            old.name,
            Some(old.count),
            Some(new.count),
        ),
        None => push_change(alloc, changes, region, old.name, Some(old.count), None),
    }
}

fn push_change(
    alloc: Global,
    changes: &mut Vec<Change>,
    region: &'static str,
    label: Name,
    before: Option<u32>,
    after: Option<u32>,
) -> Result<(), AllocError> {
    changes.push(Change {
        region,
        name: text_of(alloc, label)?,
        before: wide(before),
        after: wide(after),
    })?;
    Ok(())
}

/// A count in more bits.
fn wide(count: Option<u32>) -> Option<u64> {
    match count {
        Some(count) => Some(u64::from(count)),
        None => None,
    }
}

/// The characters of a label.
pub(crate) fn text_of(alloc: Global, label: Name) -> Result<String, AllocError> {
    let mut text = String::new(alloc);
    push_name(&mut text, label)?;
    Ok(text)
}

/// The file of a label, if an area has it.
fn file_of(slots: &[Slot], name: Name) -> Option<&FileLabel> {
    for slot in slots {
        if let Slot::Sound(label) = slot
            && label.name == name
        {
            return Some(label);
        }
    }
    None
}

/// Whether a file has the same number of records, and the same bytes in the same sectors.
fn is_same(old_pack: &[u8], old: &FileLabel, new_pack: &[u8], new: &FileLabel) -> bool {
    let (old_extents, new_extents) = (old.extents.as_slice(), new.extents.as_slice());
    old.count == new.count
        && old_extents.len() == new_extents.len()
        && have_same_bytes(old_pack, old_extents, new_pack, new_extents)
}

/// Whether runs of sectors are at the same places in two packs, and have the same bytes.
fn have_same_bytes(old_pack: &[u8], old: &[Stretch], new_pack: &[u8], new: &[Stretch]) -> bool {
    for (one, other) in old.iter().zip(new.iter()) {
        if !has_same_bytes(old_pack, *one, new_pack, *other) {
            return false;
        }
    }
    true
}

/// Whether a run of sectors is at the same place in two packs, and has the same bytes.
fn has_same_bytes(old_pack: &[u8], old: Stretch, new_pack: &[u8], new: Stretch) -> bool {
    old.start == new.start
        && old.sectors == new.sectors
        && bytes_of(old_pack, old) == bytes_of(new_pack, new)
}

/// The bytes of a run of sectors of a pack.
fn bytes_of(pack: &[u8], run: Stretch) -> &[u8] {
    let start = usize::from(run.start) * SECTOR;
    let end = start + usize::from(run.sectors) * SECTOR;
    pack.get(start..end).unwrap_or(&[])
}
