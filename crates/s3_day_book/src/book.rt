//! The page of a day.

use crate::changed::{AreaBytes, push_changes};
use crate::map::{TRACK, places_of};
use crate::owned::{BookHalt, BookJob, Change, DayBook, Place};
use s3_book::{ChangedFile, Day, Extent, Halt, Job, Region, day_page};
use s3_cards::LevelId;
use s3_labels::{Area, AreaSlots, Slot};
use s3_listing::{ListFault, area_title, mount_slots, room_of};
use s3_pack_check::region_of;
use std::alloc::{AllocError, Global};
use std::io::Write;

/// The page of a day, given its pack before and after. What the book says first also names the damaged labels of the pack after the
/// day. Refused if a pack can't be mounted, or memory runs out.
pub fn page_of_day(
    alloc: Global,
    book: &mut DayBook,
    before: &[u8],
    after: &[u8],
) -> Result<Vec<u8>, ListFault> {
    let old = mount_slots(alloc, before)?;
    let new = mount_slots(alloc, after)?;
    push_damaged(&mut book.given, &new)?;
    let changes = changes_of(
        alloc,
        PackSlots {
            pack: before,
            slots: &old,
        },
        PackSlots {
            pack: after,
            slots: &new,
        },
    )?;
    let page = page_with(alloc, book, &changes, &new)?;
    Ok(page)
}

/// Appends a line for each damaged label of a pack.
fn push_damaged(text: &mut String, slots: &AreaSlots) -> Result<(), AllocError> {
    for area in Area::ALL {
        push_damaged_of(text, area_title(area), slots.slots_of(area))?;
    }
    Ok(())
}

/// Appends a line for each damaged label of a region.
fn push_damaged_of(text: &mut String, region: &str, slots: &[Slot]) -> Result<(), AllocError> {
    for (place, slot) in slots.iter().enumerate() {
        if let Slot::Damaged(_) = slot {
            write!(
                text,
                "{region}: the label in slot {place} is damaged, so the map doesn't show its file\n"
            )?;
        }
    }
    Ok(())
}

/// The files of all regions that the day changed.
fn changes_of(
    alloc: Global,
    old: PackSlots<'_>,
    new: PackSlots<'_>,
) -> Result<Vec<Change>, AllocError> {
    let mut changes = Vec::new(alloc);
    for area in Area::ALL {
        let (before, after) = (old.of_area(area), new.of_area(area));
        push_changes(alloc, &mut changes, area_title(area), before, after)?;
    }
    Ok(changes)
}

/// A pack, and the slots of its areas.
#[derive(Clone, Copy)]
struct PackSlots<'a> {
    pack: &'a [u8],
    slots: &'a AreaSlots,
}

impl<'a> PackSlots<'a> {
    /// The slots of an area, and the bytes of the pack.
    fn of_area(&self, area: Area) -> AreaBytes<'a> {
        AreaBytes {
            slots: self.slots.slots_of(area),
            pack: self.pack,
        }
    }
}

/// The page, given what changed and the slots of the pack.
fn page_with(
    alloc: Global,
    book: &DayBook,
    changes: &[Change],
    slots: &AreaSlots,
) -> Result<Vec<u8>, AllocError> {
    let places0 = places_of(alloc, slots, Area::Masters)?;
    let places1 = places_of(alloc, slots, Area::Level(LevelId::One))?;
    let places2 = places_of(alloc, slots, Area::Level(LevelId::Two))?;
    let masters = extents_of(alloc, &places0)?;
    let one = extents_of(alloc, &places1)?;
    let two = extents_of(alloc, &places2)?;
    page_lent(alloc, book, changes, slots, &masters, &one, &two)
}

/// The page, given the files of each region one by one.
fn page_lent<'x>(
    alloc: Global,
    book: &DayBook,
    changes: &[Change],
    slots: &AreaSlots,
    masters: &'x [Extent<'x>],
    one: &'x [Extent<'x>],
    two: &'x [Extent<'x>],
) -> Result<Vec<u8>, AllocError> {
    let files = Files { masters, one, two };
    page_of_files(alloc, book, changes, slots, files)
}

/// The files of each region.
#[derive(Clone, Copy)]
struct Files<'a> {
    masters: &'a [Extent<'a>],
    one: &'a [Extent<'a>],
    two: &'a [Extent<'a>],
}

/// The page, given what changed, the slots of the pack, and the files of each region.
fn page_of_files(
    alloc: Global,
    book: &DayBook,
    changes: &[Change],
    slots: &AreaSlots,
    files: Files<'_>,
) -> Result<Vec<u8>, AllocError> {
    let regions = [
        region(slots, Area::Masters, files.masters),
        region(slots, Area::Level(LevelId::One), files.one),
        region(slots, Area::Level(LevelId::Two), files.two),
    ];
    page_over(alloc, book, changes, &regions)
}

/// The page, given what changed and the regions of the pack.
fn page_over(
    alloc: Global,
    book: &DayBook,
    changes: &[Change],
    regions: &[Region<'_>],
) -> Result<Vec<u8>, AllocError> {
    let jobs = jobs_of(alloc, &book.jobs)?;
    let halts = halts_of(alloc, &book.halts)?;
    let files = files_of(alloc, changes)?;
    page_of(alloc, book, &jobs, &halts, &files, regions)
}

/// The page of these values.
fn page_of<'x>(
    alloc: Global,
    book: &'x DayBook,
    jobs: &'x [Job<'x>],
    halts: &'x [Halt<'x>],
    files: &'x [ChangedFile<'x>],
    regions: &'x [Region<'x>],
) -> Result<Vec<u8>, AllocError> {
    let day = Day {
        title: book.title.as_bytes(),
        given: book.given.as_bytes(),
        status: book.status.as_bytes(),
        summary: book.summary.as_bytes(),
        turns: book.turns,
        jobs,
        halts,
        files,
        regions,
    };
    day_page(alloc, &day)
}

/// The region of an area, with these files.
fn region<'a>(slots: &AreaSlots, area: Area, files: &'a [Extent<'a>]) -> Region<'a> {
    Region {
        name: area_title(area).as_bytes(),
        level: match area {
            Area::Masters => None,
            Area::Level(level) => Some(level),
        },
        tracks: u64::from(region_of(slots, area).sectors / TRACK),
        free: u64::from(room_of(slots, area).tracks),
        files,
    }
}

fn extents_of(alloc: Global, places: &[Place]) -> Result<Vec<Extent<'_>>, AllocError> {
    let mut extents = Vec::new(alloc);
    for place in places {
        extents.push(Extent {
            name: place.name.as_bytes(),
            before: place.before,
            tracks: place.tracks,
            records: place.records,
        })?;
    }
    Ok(extents)
}

fn jobs_of(alloc: Global, owned: &[BookJob]) -> Result<Vec<Job<'_>>, AllocError> {
    let mut jobs = Vec::new(alloc);
    for job in owned {
        jobs.push(Job {
            level: job.level,
            number: job.number,
            program: job.program.as_bytes(),
            kind: job.kind.as_bytes(),
            first: job.first,
            last: job.last,
            lines: job.lines,
            ending: job.ending.as_bytes(),
            file: name_of(&job.file),
        })?;
    }
    Ok(jobs)
}

/// The bytes of a name, if there is one.
fn name_of(name: &Option<String>) -> Option<&[u8]> {
    match name {
        Some(name) => Some(name.as_bytes()),
        None => None,
    }
}

fn halts_of(alloc: Global, owned: &[BookHalt]) -> Result<Vec<Halt<'_>>, AllocError> {
    let mut halts = Vec::new(alloc);
    for halt in owned {
        halts.push(Halt {
            level: halt.level,
            job: halt.job,
            letters: &halt.letters,
            turn: halt.turn,
            replied: halt.replied,
            words: halt.words.as_bytes(),
            reply: halt.reply.as_bytes(),
        })?;
    }
    Ok(halts)
}

fn files_of(alloc: Global, changes: &[Change]) -> Result<Vec<ChangedFile<'_>>, AllocError> {
    let mut files = Vec::new(alloc);
    for change in changes {
        files.push(ChangedFile {
            region: change.region.as_bytes(),
            name: change.name.as_bytes(),
            before: change.before,
            after: change.after,
        })?;
    }
    Ok(files)
}
