//! The packs that saves have replaced, kept in the folder of a pack: of `P` the newest one is `P.1`, the one before it `P.2`.
//!
//! A save that keeps the pack which it replaces goes these steps:
//!
//! 1. `P` gets the second name `P.0`, which is brought to the disk. If a killed save has left another pack as `P.0`, step 4 is done
//!    first.
//! 2. The line of the journal is brought to the disk.
//! 3. The new pack gets the name `P`, which is brought to the disk.
//! 4. The packs before the first free number move to the next number, the highest first and `P.0` last. If something else is there
//!    before a free number, the last pack before it is replaced.
//! 5. Packs with the highest numbers are removed, until one fewer is kept than before the save, or as many as are wanted.
//!
//! So a pack that is to be kept has a name at each moment: between two steps, and between two moves of step 4. After a power cut this
//! is so if the file system brings the renames of a folder to the disk in their order.

use crate::fault::DayFault;
use crate::numbering::{AtName, end_of_moves, ends_with_gap, kept_numbers, surplus};
use crate::order::Order;
use s3_host_files::{
    FileFault, LockedPack, are_same, folder_of, followed, is_pack_at, is_saved, retried,
    sync_if_kept,
};
use s3_refusals::{Reason, Shown};
use std::alloc::{AllocError, Global};
use std::fs::File;
use std::io;
use std::io::{ErrorKind, Write};
use std::path::{Path, PathBuf};

/// The most packs that are kept.
pub const MOST_KEPT: usize = 999;

/// A pack that has a second name, by which it is kept after the save.
#[derive(Drop)]
pub struct SetAside {
    /// The file of the pack, with no link at its end.
    place: PathBuf,
    /// How many packs are kept.
    count: usize,
    /// Whether the removal of the oldest pack isn't reported, if no more than `count` packs were kept before.
    is_quiet: bool,
}

/// The name under which a pack is kept, given the file of the pack; 0 is the number of a pack that a save is about to replace.
pub fn kept_name(alloc: Global, place: Path<'_>, number: usize) -> Result<String, AllocError> {
    format!(in alloc; "{}.{number}", place.as_str())
}

/// Tries whether the pack that a save replaces can be kept: each name under which one is kept is free or a pack, and the file can have a
/// second name. Nothing is changed.
pub fn test_keeping<'a>(
    rt: &HostRuntime,
    order: &Order<'a>,
    locked: &Option<LockedPack>,
) -> Result<(), DayFault<'a>> {
    let (Some(name), Some(locked)) = (order.save, locked) else {
        return Ok(());
    };
    if order.keep == 0 {
        return Ok(());
    }
    test_names(rt, name, locked.place(), order.keep)?;
    match try_second_name(rt, locked.place()) {
        Ok(()) => {}
        Err(error) => return Err(not_kept(rt, name, &error)),
    }
    match numbers(rt, locked.place()) {
        Ok(numbers) => Ok(report_more(rt, locked.place(), &numbers, order.keep)?),
        Err(error) => Err(not_kept(rt, name, &error)),
    }
}

/// Reports that more packs are kept than are wanted, before a save removes the oldest ones: they may be somebody's own.
fn report_more(
    rt: &HostRuntime,
    place: Path<'_>,
    numbers: &[usize],
    count: usize,
) -> Result<(), AllocError> {
    if numbers.len() <= count {
        return Ok(());
    }
    if let Some(last) = numbers.last() {
        let (first, last) = (
            kept_name(rt.alloc(), place, 1)?,
            kept_name(rt.alloc(), place, *last)?,
        );
        let (kept, first, last) = (numbers.len(), Shown(first.as_str()), Shown(last.as_str()));
        let _ = writeln!(
            rt.stderr(),
            "{kept} packs are kept as {first} to {last}, more than --keep {count} says: this save and later ones remove the oldest; give --keep {kept}, or move away what must stay"
        );
    }
    Ok(())
}

/// Refuses a save if something that isn't a pack has a name under which packs are kept.
fn test_names<'a>(
    rt: &HostRuntime,
    name: &'a str,
    place: Path<'_>,
    count: usize,
) -> Result<(), DayFault<'a>> {
    for number in 0..count.saturating_add(1) {
        let kept = kept_name(rt.alloc(), place, number)?;
        match at_name(rt, kept.as_str()) {
            Ok(AtName::Nothing | AtName::Pack) => {}
            Ok(AtName::Other) => return Err(occupied(rt, name, kept.as_str())),
            Err(error) => return Err(not_kept(rt, name, &error)),
        }
    }
    Ok(())
}

/// Reports that a name is taken, and gives the fault.
fn occupied<'a>(rt: &HostRuntime, name: &'a str, kept: &str) -> DayFault<'a> {
    let kept = Shown(kept);
    let _ = writeln!(
        rt.stderr(),
        "{kept} is there and isn't a pack's own file, so no pack can be kept under this name; give that file another name, or leave --keep out"
    );
    DayFault::Keep(name)
}

/// Reports why a pack can't be kept, and gives the fault.
fn not_kept<'a>(rt: &HostRuntime, name: &'a str, error: &io::Error) -> DayFault<'a> {
    if error.kind() == ErrorKind::OutOfMemory {
        return DayFault::from(AllocError);
    }
    let (shown, reason) = (Shown(name), Reason(*error));
    let _ = writeln!(
        rt.stderr(),
        "{shown} can't get a second name, by which it would be kept: {reason}"
    );
    DayFault::Keep(name)
}

/// Gives a pack a second name, and takes it away again. A name that a killed save left stays.
fn try_second_name(rt: &HostRuntime, place: Path<'_>) -> io::Result<()> {
    let spare = kept_name(rt.alloc(), place, 0)?;
    if at_name(rt, spare.as_str())? != AtName::Nothing {
        return Ok(());
    }
    retried::hard_link(rt, place, spare.as_str())?;
    retried::remove_file(rt, spare.as_str())
}

impl SetAside {
    /// Gives the pack that a save will replace a second name, if packs are kept and there is one.
    pub fn of<'a>(
        rt: &HostRuntime,
        order: &Order<'a>,
        locked: &Option<LockedPack>,
    ) -> Result<Option<SetAside>, DayFault<'a>> {
        match (order.save, locked) {
            (Some(name), Some(locked)) if order.keep > 0 => {
                SetAside::of_pack(rt, name, locked, order.keep, order.is_quiet)
            }
            _ => Ok(None),
        }
    }

    /// Gives a locked pack a second name, by which so many packs are kept; none if it has lost its name.
    fn of_pack<'a>(
        rt: &HostRuntime,
        name: &'a str,
        locked: &LockedPack,
        count: usize,
        is_quiet: bool,
    ) -> Result<Option<SetAside>, DayFault<'a>> {
        let aside = SetAside {
            place: locked.place().to_path_buf(rt.alloc())?,
            count,
            is_quiet,
        };
        match aside.set_aside(rt) {
            Ok(true) => Ok(Some(aside)),
            Ok(false) => Ok(None),
            Err(error) => Err(not_kept(rt, name, &error)),
        }
    }

    /// Gives a locked pack a second name, by which it is kept with all that are kept already; none if it has lost its name.
    pub fn of_all<'a>(
        rt: &HostRuntime,
        name: &'a str,
        locked: &Option<LockedPack>,
    ) -> Result<Option<SetAside>, DayFault<'a>> {
        let Some(locked) = locked else {
            return Ok(None);
        };
        match last_number(rt, locked.place()) {
            Ok(last) => {
                // a killed save may have left a pack that takes the free number
                test_names(rt, name, locked.place(), last.saturating_add(1))?;
                SetAside::of_pack(rt, name, locked, MOST_KEPT, true)
            }
            Err(error) => Err(not_kept(rt, name, &error)),
        }
    }

    /// Gives the pack its second name, and brings it to the disk. What a killed save has left undone is done before. It returns whether
    /// there is a pack.
    fn set_aside(&self, rt: &HostRuntime) -> io::Result<bool> {
        let place = self.place.as_path();
        let spare = kept_name(rt.alloc(), place, 0)?;
        if at_name(rt, spare.as_str())? == AtName::Pack && !are_one(rt, place, spare.as_str()) {
            self.move_up(rt)?;
        }
        match retried::hard_link(rt, place, spare.as_str()) {
            Ok(()) => {}
            Err(error) if error.kind() == ErrorKind::NotFound => return Ok(false),
            // a killed save has given it this name
            Err(error) if error.kind() == ErrorKind::AlreadyExists => {
                if !are_one(rt, place, spare.as_str()) {
                    return Err(error);
                }
            }
            Err(error) => return Err(error),
        }
        self.sync(rt)?;
        Ok(true)
    }

    /// Moves the packs that are kept to the next number, once the new pack has its name, and removes the oldest ones if they are too
    /// many. If that fails, it is reported: the next save does it.
    pub fn finish(&self, rt: &HostRuntime) {
        let place = Shown(self.place.as_path().as_str());
        let before = match self.renumber(rt) {
            Ok(before) => before,
            Err(error) => {
                let reason = Reason(error);
                let _ = writeln!(
                    rt.stderr(),
                    "the packs that are kept beside {place} can't be renumbered: {reason}; the newest one is {place}.0, and the next save with --keep renumbers them"
                );
                return;
            }
        };
        if let Err(error) = self.remove_surplus(rt, before) {
            let reason = Reason(error);
            let _ = writeln!(
                rt.stderr(),
                "the oldest pack that is kept beside {place} can't be removed: {reason}; the next save with --keep removes it"
            );
        }
        if let Err(error) = self.sync(rt) {
            let reason = Reason(error);
            let _ = writeln!(
                rt.stderr(),
                "the new names of the packs that are kept beside {place} may not survive a power cut: {reason}"
            );
        }
    }

    /// Moves the packs that are kept to the next number. It returns how many were kept before.
    fn renumber(&self, rt: &HostRuntime) -> io::Result<usize> {
        let before = numbers(rt, self.place.as_path())?;
        self.move_up(rt)?;
        Ok(before.len())
    }

    /// Removes the packs that are too many, given how many were kept before the save.
    fn remove_surplus(&self, rt: &HostRuntime, before: usize) -> io::Result<()> {
        let numbers = numbers(rt, self.place.as_path())?;
        for number in surplus(&numbers, before, self.count) {
            let kept = kept_name(rt.alloc(), self.place.as_path(), *number)?;
            retried::remove_file(rt, kept.as_str())?;
            if !self.is_quiet || before > self.count {
                let (kept, count) = (Shown(kept.as_str()), self.count);
                let _ = writeln!(
                    rt.stderr(),
                    "{kept}, by its new number, is removed, as --keep {count} asks"
                );
            }
        }
        Ok(())
    }

    /// Takes the second name away, if no new pack has the first one.
    pub fn take_back(&self, rt: &HostRuntime) {
        let place = self.place.as_path();
        if let Ok(spare) = kept_name(rt.alloc(), place, 0)
            && are_one(rt, place, spare.as_str())
        {
            let _ = retried::remove_file(rt, spare.as_str());
        }
    }

    /// Moves each pack before the first free number to the next number, the highest one first. The last one before something else is
    /// replaced.
    fn move_up(&self, rt: &HostRuntime) -> io::Result<()> {
        let last = last_number(rt, self.place.as_path())?;
        for step in 0..last {
            self.move_one(rt, last - 1 - step)?;
        }
        Ok(())
    }

    /// Moves a pack to the next number.
    fn move_one(&self, rt: &HostRuntime, number: usize) -> io::Result<()> {
        let place = self.place.as_path();
        let from = kept_name(rt.alloc(), place, number)?;
        let to = kept_name(rt.alloc(), place, number.saturating_add(1))?;
        if are_one(rt, Path::new(from.as_str()), to.as_str()) {
            // the system would leave both names
            return retried::remove_file(rt, from.as_str());
        }
        retried::rename(rt, from.as_str(), to.as_str())
    }

    /// Brings the names in the folder of the pack to the disk. Some file systems have no call for that.
    fn sync(&self, rt: &HostRuntime) -> io::Result<()> {
        let folder = File::open(rt, folder_of(self.place.as_path()))?;
        sync_if_kept(&folder)
    }
}

/// The numbers of the packs that are kept for a pack, ascending. A file that can't be read counts as something else than a pack.
fn numbers(rt: &HostRuntime, place: Path<'_>) -> io::Result<Vec<usize>> {
    let mut names = Vec::new(rt.alloc());
    for number in 1..MOST_KEPT + 1 {
        let kept = kept_name(rt.alloc(), place, number)?;
        names.push(at_name(rt, kept.as_str()).unwrap_or(AtName::Other))?;
        if ends_with_gap(&names) {
            break;
        }
    }
    Ok(kept_numbers(rt.alloc(), &names)?)
}

/// The number that the last pack gets in the moves.
fn last_number(rt: &HostRuntime, place: Path<'_>) -> io::Result<usize> {
    let mut names = Vec::new(rt.alloc());
    for number in 1..MOST_KEPT + 1 {
        let kept = kept_name(rt.alloc(), place, number)?;
        let at_name = at_name(rt, kept.as_str())?;
        names.push(at_name)?;
        if at_name != AtName::Pack {
            break;
        }
    }
    Ok(end_of_moves(&names))
}

/// Renumbers the packs that are kept, if the new pack has its name; else the pack that was set aside loses its second name.
pub fn end_aside(rt: &HostRuntime, aside: &Option<SetAside>, done: &Result<(), FileFault>) {
    match aside {
        Some(aside) if is_saved(done) => aside.finish(rt),
        _ => take_back(rt, aside),
    }
}

/// Takes the second name from a pack that was set aside and isn't replaced.
pub fn take_back(rt: &HostRuntime, aside: &Option<SetAside>) {
    if let Some(aside) = aside {
        aside.take_back(rt);
    }
}

/// The path of a file, with no link at its end. Packs are kept in its folder.
pub fn place_of<'a>(rt: &HostRuntime, name: &'a str) -> Result<PathBuf, DayFault<'a>> {
    match followed(rt, name) {
        Ok(place) => Ok(place),
        Err(error) => Err(DayFault::of(&error, name)),
    }
}

/// What has a name. A link is something else than a pack.
fn at_name(rt: &HostRuntime, name: &str) -> io::Result<AtName> {
    match retried::symlink_metadata(rt, name) {
        Ok(found) => Ok(if found.is_file() && is_pack_at(rt, Path::new(name))? {
            AtName::Pack
        } else {
            AtName::Other
        }),
        Err(error) if error.kind() == ErrorKind::NotFound => Ok(AtName::Nothing),
        Err(error) => Err(error),
    }
}

/// Whether two names are known to be those of one file.
fn are_one(rt: &HostRuntime, place: Path<'_>, other: &str) -> bool {
    match (
        retried::symlink_metadata(rt, place),
        retried::symlink_metadata(rt, other),
    ) {
        (Ok(one), Ok(other)) => are_same(&one, &other),
        _ => false,
    }
}

/// Whether a name is the name of a pack. It fails if the file can't be read.
pub fn is_pack_of(rt: &HostRuntime, name: &str) -> io::Result<bool> {
    Ok(at_name(rt, name)? == AtName::Pack)
}
