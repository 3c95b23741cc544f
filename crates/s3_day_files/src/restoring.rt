//! `bureau journal --restore`: the pack of a day is put back from those that are kept.

use crate::fault::DayFault;
use crate::keeping::{SetAside, end_aside, place_of, take_back};
use crate::kept_packs::{kept_packs, kept_with};
use s3_day_log::checksum;
use s3_host_files::{
    FileFault, Limit, LockedPack, read_pack, read_to_save, retried, save_new_pack, save_pack,
};
use s3_journal::{PostedDay, Work};
use s3_journal_files::{JournalFile, NewLine, keep_journal_apart, read_journal};
use s3_paper_commands::status::DONE;
use s3_refusals::{Quoted, Shown};
use std::io::{ErrorKind, Write};

/// What is put back, and where.
#[derive(Clone, Copy)]
pub struct Restoring<'a> {
    /// The journal.
    pub journal: &'a str,
    /// The number of the day; 0 for the pack before the first one.
    pub day: u32,
    /// The file of the pack.
    pub save: &'a str,
}

/// The pack that is replaced.
#[derive(Drop)]
struct Replaced {
    /// Its checksum; the checksum of an empty text if no file is there.
    sum: String,
    /// The lock on its file.
    locked: Option<LockedPack>,
}

/// A pack that is kept.
#[derive(Drop)]
struct Kept {
    bytes: Vec<u8>,
    /// The access that a new file with it may give at most.
    limit: Option<Limit>,
}

/// Puts the pack back that a day left, and notes it in the journal before. The pack that it replaces is kept.
pub fn restore<'a>(rt: &HostRuntime, asked: Restoring<'a>) -> Result<(), DayFault<'a>> {
    keep_journal_apart(rt, asked.journal, &[Some(asked.save)])?;
    // a journal that isn't there isn't made
    let _there = read_journal(rt, asked.journal)?;
    let replaced = Replaced::read(rt, asked.save)?;
    match JournalFile::open(rt, asked.journal, None) {
        Ok(journal) => restore_over(rt, asked, journal, replaced),
        Err(refusal) => Err(DayFault::from(refusal)),
    }
}

impl Replaced {
    /// The pack of a file, which is locked.
    fn read<'a>(rt: &HostRuntime, save: &'a str) -> Result<Replaced, DayFault<'a>> {
        if is_missing(rt, save) {
            let sum = checksum(rt.alloc(), b"")?;
            return Ok(Replaced { sum, locked: None });
        }
        match read_to_save(rt, save, save) {
            Ok((bytes, locked)) => Ok(Replaced {
                sum: checksum(rt.alloc(), &bytes)?,
                locked,
            }),
            Err(fault) => Err(DayFault::of_pack(&fault, save)),
        }
    }
}

/// Whether no file is at a path.
fn is_missing(rt: &HostRuntime, path: &str) -> bool {
    matches!(retried::metadata(rt, path), Err(error) if error.kind() == ErrorKind::NotFound)
}

/// Puts a pack back, given the journal and the pack that is replaced, which are locked.
fn restore_over<'a>(
    rt: &HostRuntime,
    asked: Restoring<'a>,
    journal: JournalFile<'a>,
    replaced: Replaced,
) -> Result<(), DayFault<'a>> {
    let Some(sum) = sum_after(journal.days(), asked.day) else {
        report_no_day(rt, asked, journal.days().len());
        return Err(DayFault::Restore(asked.save));
    };
    let sum = String::from_str(rt.alloc(), sum)?;
    if is_last(journal.days(), &replaced, sum.as_str()) {
        report_last(rt, asked);
        return Ok(());
    }
    if replaced.sum.as_str() == sum.as_str() {
        // somebody has copied it there
        return note(rt, asked, journal, &replaced, sum.as_str());
    }
    match kept_pack(rt, asked, sum.as_str()) {
        Ok(kept) => put_back(rt, asked, journal, replaced, sum.as_str(), &kept),
        Err(fault) => Err(fault),
    }
}

/// The checksum of the pack that a day left, or of the one before the first day for 0, given the days, the last one first.
fn sum_after(days: &[PostedDay], day: u32) -> Option<&str> {
    if day == 0 {
        return match days.last() {
            Some(first) => Some(first.before.as_str()),
            None => None,
        };
    }
    match days.iter().find(|line| line.number == u64::from(day)) {
        Some(line) => Some(line.after.as_str()),
        None => None,
    }
}

/// Whether a pack has this checksum, and the last line left it.
fn is_last(days: &[PostedDay], pack: &Replaced, sum: &str) -> bool {
    match days.first() {
        Some(last) => last.after.as_str() == sum && pack.sum.as_str() == sum,
        None => false,
    }
}

/// The kept pack with a checksum.
fn kept_pack<'a>(rt: &HostRuntime, asked: Restoring<'a>, sum: &str) -> Result<Kept, DayFault<'a>> {
    let place = place_of(rt, asked.save)?;
    let packs = kept_packs(rt, asked.save, place.as_path())?;
    let Some(kept) = kept_with(&packs, sum) else {
        report_not_kept(rt, asked);
        return Err(DayFault::Restore(asked.save));
    };
    match read_kept(rt, kept.path.as_str()) {
        Ok(kept) => Ok(kept),
        Err(fault) => Err(DayFault::of_pack(&fault, asked.save)),
    }
}

/// Reads a kept pack.
fn read_kept(rt: &HostRuntime, path: &str) -> Result<Kept, FileFault> {
    let bytes = read_pack(rt, path)?;
    let limit = Limit::of(rt, path)?;
    Ok(Kept { bytes, limit })
}

/// Notes in the journal that a pack is put back which is there already.
fn note<'a>(
    rt: &HostRuntime,
    asked: Restoring<'a>,
    journal: JournalFile<'a>,
    replaced: &Replaced,
    sum: &str,
) -> Result<(), DayFault<'a>> {
    let mut journal = journal;
    let line = line_of(replaced.sum.as_str(), sum, asked.save);
    match journal.append(rt, line, Work::Restore) {
        Ok(()) => {
            report_restored(rt, asked);
            Ok(())
        }
        Err(refusal) => Err(DayFault::from(refusal)),
    }
}

/// The line of a pack that is put back in a file, given the checksums of the pack before and of that one.
fn line_of<'b>(before: &'b str, after: &'b str, save: &'b str) -> NewLine<'b> {
    NewLine {
        before,
        after,
        status: DONE,
        save: Some(save),
    }
}

/// Notes in the journal that a pack is put back, and saves it.
fn put_back<'a>(
    rt: &HostRuntime,
    asked: Restoring<'a>,
    journal: JournalFile<'a>,
    replaced: Replaced,
    sum: &str,
    kept: &Kept,
) -> Result<(), DayFault<'a>> {
    let Replaced {
        sum: before,
        locked,
    } = replaced;
    let aside = SetAside::of_all(rt, asked.save, &locked)?;
    let mut journal = journal;
    let line = line_of(before.as_str(), sum, asked.save);
    if let Err(refusal) = journal.append(rt, line, Work::Restore) {
        take_back(rt, &aside);
        return Err(DayFault::from(refusal));
    }
    let done = save_kept(rt, asked.save, locked, kept);
    end_aside(rt, &aside, &done);
    journal.end_save(rt, &done);
    match done {
        Ok(()) => {
            report_restored(rt, asked);
            Ok(())
        }
        Err(fault) => Err(not_restored(rt, asked, &fault)),
    }
}

/// Saves a kept pack over the locked one, or as a new file. A file that has appeared by now isn't replaced.
fn save_kept(
    rt: &HostRuntime,
    save: &str,
    locked: Option<LockedPack>,
    kept: &Kept,
) -> Result<(), FileFault> {
    match locked {
        None => save_new_pack(rt, save, kept.limit, &[], &kept.bytes),
        locked => save_pack(rt, save, locked, kept.limit, &[], &kept.bytes),
    }
}

/// Reports that a journal has no such day.
fn report_no_day(rt: &HostRuntime, asked: Restoring<'_>, lines: usize) {
    let (journal, quoted, day) = (Shown(asked.journal), Quoted(asked.journal), asked.day);
    let _ = writeln!(
        rt.stderr(),
        "{journal} has no day {day}, and its last one is {lines}; `bureau journal {quoted}` lists them"
    );
}

/// Reports that no kept pack is the pack of the day.
fn report_not_kept(rt: &HostRuntime, asked: Restoring<'_>) {
    let (shown, journal, save) = (Shown(asked.save), Quoted(asked.journal), Quoted(asked.save));
    let _ = write!(rt.stderr(), "no pack that is kept beside {shown} is ");
    write_day(rt, asked.day);
    let _ = if is_missing(rt, asked.save) {
        writeln!(
            rt.stderr(),
            ", and no file {shown} is there; name the pack after --save whose saves kept it"
        )
    } else {
        writeln!(
            rt.stderr(),
            "; `bureau journal {journal} --pack {save}` lists those that are"
        )
    };
}

/// Reports that nothing is to be done.
fn report_last(rt: &HostRuntime, asked: Restoring<'_>) {
    let save = Shown(asked.save);
    let _ = write!(rt.stderr(), "{save} is ");
    write_day(rt, asked.day);
    let _ = writeln!(rt.stderr(), " already; nothing is done");
}

/// Reports that the pack is put back.
fn report_restored(rt: &HostRuntime, asked: Restoring<'_>) {
    let save = Shown(asked.save);
    let _ = write!(rt.stderr(), "{save} is ");
    write_day(rt, asked.day);
    let _ = writeln!(rt.stderr(), " again");
}

/// Writes which pack is the pack of a day.
fn write_day(rt: &HostRuntime, day: u32) {
    let _ = match day {
        0 => write!(rt.stderr(), "the pack before day 1"),
        _ => write!(rt.stderr(), "the pack that day {day} left"),
    };
}

/// Reports that a pack that is put back may not survive a power cut, and gives the fault; of a pack that isn't put back the line of the
/// refusal says why.
fn not_restored<'a>(rt: &HostRuntime, asked: Restoring<'a>, fault: &FileFault) -> DayFault<'a> {
    if let FileFault::Unsynced(_) = fault {
        report_restored(rt, asked);
    }
    DayFault::of_pack(fault, asked.save)
}
