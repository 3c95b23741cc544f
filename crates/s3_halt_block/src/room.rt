//! What room the files of a job ask for, and what is free.

use crate::at_start::push_file_name;
use s3_cards::Name;
use s3_evidence::{Asked, JobFile, key_of};
use s3_labels::{Area, Slot};
use s3_lines::sheet::FileLine;
use s3_listing::room_of;
use s3_ocl::{FileSize, FileStatement};
use s3_opening::is_new;
use s3_pack_check::sector_count;
use std::alloc::AllocError;

/// The sectors of a track.
const TRACK: u16 = 24;

/// The bytes of a sector.
const SECTOR: u64 = 256;

/// How many bytes of an entry of an index aren't its key.
const RECORD_NUMBER: u64 = 4;

/// Appends for each file that a job makes how many tracks it asks for, and then what is free.
pub(crate) fn push_room(
    text: &mut String,
    asked: &Asked<'_>,
    files: &[JobFile],
) -> Result<(), AllocError> {
    for file in files {
        if let Some(statement) = &file.statement {
            if is_new(&file.line) {
                push_asked(text, asked, file, statement)?;
            }
        }
    }
    push_free(text, asked)
}

fn push_asked(
    text: &mut String,
    asked: &Asked<'_>,
    file: &JobFile,
    statement: &FileStatement,
) -> Result<(), AllocError> {
    push_file_name(text, file)?;
    let tracks = tracks_asked(&file.line, statement.size);
    write!(text, ": {tracks} tracks asked for")?;
    match tracks_of_old(asked, statement.label) {
        Some(old) => writeln!(text, ", and the {old} of its old file come free"),
        None => text.push('\n'),
    }
}

/// Appends what a level's region has free.
fn push_free(text: &mut String, asked: &Asked<'_>) -> Result<(), AllocError> {
    let number = asked.level.number();
    let tracks = asked.areas.region(asked.level).sectors / TRACK;
    let free = room_of(asked.areas, Area::Level(asked.level));
    let in_all = free.tracks;
    let in_a_row = free.in_a_row;
    let free_slots = count_free(asked.areas.slots(asked.level));
    writeln!(
        text,
        "  level {number} has {tracks} tracks: {in_all} free, {in_a_row} of them in a row; {free_slots} of 32 slots free"
    )
}

fn count_free(slots: &[Slot]) -> usize {
    slots
        .iter()
        .filter(|slot| matches!(slot, Slot::Free))
        .count()
}

/// How many tracks the level's file of a label has, which a new file of that label replaces; none if it has no such file.
fn tracks_of_old(asked: &Asked<'_>, name: Name) -> Option<usize> {
    for slot in asked.areas.slots(asked.level) {
        if let Slot::Sound(label) = slot {
            if label.name == name {
                return Some(sector_count(label) / usize::from(TRACK));
            }
        }
    }
    None
}

/// How many tracks a new file takes.
fn tracks_asked(line: &FileLine, size: FileSize) -> u64 {
    match size {
        FileSize::Tracks(tracks) => u64::from(tracks),
        FileSize::Records(records) => sectors_of(line, u64::from(records)).div_ceil(u64::from(
            TRACK,
        )),
    }
}

/// How many sectors so many records take, those of their index among them.
fn sectors_of(line: &FileLine, records: u64) -> u64 {
    let bytes = records.saturating_mul(u64::from(line.record_length));
    let (key_length, _) = key_of(line);
    let sectors = bytes.div_ceil(SECTOR);
    if key_length == 0 {
        return sectors;
    }
    let per_sector = SECTOR / (u64::from(key_length) + RECORD_NUMBER);
    if per_sector == 0 {
        return sectors;
    }
    sectors.saturating_add(records.div_ceil(per_sector))
}
