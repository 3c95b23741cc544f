//! The journals beside a new one: a mistyped name begins a journal that lacks the days of the right one.

use crate::file::GivenPack;
use crate::opening::BEGINNING;
use crate::reading::JOURNAL_LIMIT;
use crate::reports::report_beside;
use s3_host_files::{beginning_of, folder_of, followed, read_within, retried};
use s3_journal::{JournalFault, day_that_made, read_lines};
use std::alloc::AllocError;

/// Reports a journal in the folder of a new journal, or of the pack, with a day that made this pack. Whether there is one. What can't be
/// read is passed over.
pub(crate) fn is_known_beside(
    rt: &HostRuntime,
    journal: &str,
    pack: GivenPack<'_, '_>,
) -> Result<bool, AllocError> {
    Ok(is_known_in(rt, journal, journal, pack)? || is_known_in(rt, pack.name, journal, pack)?)
}

/// Reports a journal in the folder of a file with a day that made this pack, given the name of the new journal. Whether there is one.
fn is_known_in(
    rt: &HostRuntime,
    file: &str,
    journal: &str,
    pack: GivenPack<'_, '_>,
) -> Result<bool, AllocError> {
    let Ok(place) = followed(rt, file) else {
        return Ok(false);
    };
    let folder = folder_of(place.as_path());
    let Ok(entries) = retried::entries(rt, folder) else {
        return Ok(false);
    };
    for entry in entries {
        if let Ok(entry) = entry {
            // a file of the working folder is named without it
            let name = if folder.as_str() == "." {
                entry.file_name()
            } else {
                entry.path().as_str()
            };
            if has_left(rt, name, journal, pack)? {
                return Ok(true);
            }
        }
    }
    Ok(false)
}

/// Whether the file of a name is a journal with a day that made this pack, which is reported.
fn has_left(
    rt: &HostRuntime,
    name: &str,
    journal: &str,
    pack: GivenPack<'_, '_>,
) -> Result<bool, AllocError> {
    if !begins_as_journal(rt, name) {
        return Ok(false);
    }
    let Ok(bytes) = read_within(rt, name, JOURNAL_LIMIT) else {
        return Ok(false);
    };
    let Ok(text) = str::from_utf8(&bytes) else {
        return Ok(false);
    };
    match read_lines(rt.alloc(), text) {
        Ok(lines) => {
            let day = day_that_made(&lines.days, pack.sum);
            if let Some(day) = day {
                report_beside(rt, journal, name, day, pack);
            }
            Ok(day.is_some())
        }
        Err(JournalFault::NoMemory) => Err(AllocError),
        Err(_) => Ok(false),
    }
}

/// Whether a regular file has this name and begins as a journal does. A pipe isn't opened: it may have no writer.
fn begins_as_journal(rt: &HostRuntime, name: &str) -> bool {
    match retried::metadata(rt, name) {
        Ok(found) if found.is_file() => match beginning_of(rt, name, BEGINNING.len()) {
            Ok(beginning) => beginning.as_slice() == BEGINNING.as_bytes(),
            Err(_) => false,
        },
        _ => false,
    }
}
