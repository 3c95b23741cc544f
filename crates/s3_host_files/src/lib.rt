//! Packs in files: read up to a limit, and saved whole or not at all, by one command at a time; outputs, each written by one command;
//! and standard input and standard output.
//!
//! What is proved: how a new file gets the name of an old one, by what is found there (`choose_naming`), which files a pack may replace
//! (`is_replaceable`), which files a save removes (`is_leftover`), after which saves the file is the new pack (`is_saved`), the names
//! of the standard streams (`StandardStream::name`), and that calls are made again if a signal interrupts them (`retried::call`). Each
//! call is safe and returns. What files give and take isn't claimed: they are used as the toolchain offers them, and
//! `tools/search/kill-saves` and `tools/check/test-saves` test the saves.

#![tactic(auto)]

mod fault;
mod folders;
mod input;
mod last_change;
mod leftovers;
mod limits;
mod locking;
mod naming;
mod outputs;
mod places;
mod reading;
mod replacing;
pub mod retried;
mod standard_input;
mod standard_output;
mod streams;
mod syncing;

pub use fault::{FileFault, is_saved};
pub use folders::{LockedFolder, create_anew, is_empty_folder, stream_in, test_folder};
use input::input_up_to;
pub use input::{SHOWN_INPUT, STANDARD_INPUT, is_input, path_of, read_input, shown_name};
pub use limits::{Limit, make_folder};
pub use locking::LockedPack;
pub use naming::Hindrance;
pub use outputs::{Kept, Output};
use places::existing;
pub use places::{Target, are_same, folder_of, followed, lead_to_one_file, leads_to};
use reading::read_up_to;
pub use reading::{beginning_of, is_empty_at, is_pack_at};
pub use replacing::has_no_links;
use replacing::{replace, save_first, test_place, test_replacing};
pub use standard_input::StandardInput;
pub use standard_output::StandardOutput;
use std::fs::{File, OpenOptions};
use std::io;
use std::io::{ErrorKind, Write};
use std::path::Path;
pub use streams::{
    STREAMS, StandardStream, WRITTEN, is_input_standard_error, is_standard_error, keep_apart,
    keep_save_apart, stream_at,
};
pub use syncing::sync_if_kept;

/// The bytes of 65,535 sectors, the most that a pack can have.
const PACK_LIMIT: usize = 16_776_960;

/// The first 16,776,960 bytes of the file at a path, or of standard input if the path is `-`; all if there are fewer. It fails if the file
/// can't be opened or read; `Stream` if it is also standard output or standard error.
pub fn read_pack(rt: &HostRuntime, path: &str) -> Result<Vec<u8>, FileFault> {
    keep_apart(rt, path_of(path))?;
    if is_input(path) {
        return Ok(input_up_to(rt, PACK_LIMIT)?);
    }
    let mut file = File::open(rt, path)?;
    Ok(read_up_to(rt, &mut file, PACK_LIMIT)?)
}

/// A pack as `read_pack` reads it, for a command that saves to a path. If that path leads to the same regular file, the file is locked
/// before it is read, and stays so until the save, which takes the lock. `InUse` if another command has it; `Stream` if one of the
/// files is also standard output or standard error; `Talk` if the pack would be saved to one that is a pipe or a terminal.
pub fn read_to_save(
    rt: &HostRuntime,
    path: &str,
    save: &str,
) -> Result<(Vec<u8>, Option<LockedPack>), FileFault> {
    keep_apart(rt, path_of(path))?;
    keep_save_apart(rt, save)?;
    if is_input(path) {
        return Ok((read_pack(rt, path)?, None));
    }
    match LockedPack::read_and_saved(rt, path, save)? {
        Some((bytes, locked)) => Ok((bytes, Some(locked))),
        None => Ok((read_pack(rt, path)?, None)),
    }
}

/// Saves a pack whole or not at all if the path leads to a regular file or to none: it is written to a new file in its folder, which then
/// gets the name. A link is followed. Anything else, as a device, is written in place. After `Ok` the disk has the pack. After
/// `Unsynced` the file is the new pack too; after any other fault it is what it was.
///
/// An old file is replaced under the lock that the pack was read under, or is locked here. It keeps its mode. A new file gets the mode of
/// a new file, within a limit. What killed saves have left in its folder is removed, except the packs that the command reads. Refusals: `InUse` if another command has the old file, `NoPack` if it isn't a pack, `Hindered` if it may
/// not be written, was changed since the lock or has lost its name to another file, and `Stream` or `Talk` if it is also standard
/// output or standard error.
pub fn save_pack(
    rt: &HostRuntime,
    path: &str,
    locked: Option<LockedPack>,
    limit: Option<Limit>,
    read: &[Option<&str>],
    bytes: &[u8],
) -> Result<(), FileFault> {
    if let Some(locked) = locked {
        return replace(rt, locked, read, bytes);
    }
    match save_new_pack(rt, path, limit, read, bytes) {
        Err(FileFault::Exists) => {
            let locked = LockedPack::replaced(rt, followed(rt, path)?)?;
            replace(rt, locked, read, bytes)
        }
        done => done,
    }
}

/// Saves a pack as `save_pack` does, but changes nothing if a file is there: `Exists`, also for a file that appears meanwhile.
pub fn save_new_pack(
    rt: &HostRuntime,
    path: &str,
    limit: Option<Limit>,
    read: &[Option<&str>],
    bytes: &[u8],
) -> Result<(), FileFault> {
    keep_save_apart(rt, path)?;
    let place = followed(rt, path)?;
    match existing(rt, place.as_path())? {
        None => save_first(rt, place.as_path(), limit, read, bytes),
        Some(old) if old.is_file() => Err(FileFault::Exists),
        Some(_) => Ok(write_in_place(rt, place.as_path(), bytes)?),
    }
}

/// Tries whether a pack can be saved to a path later, and keeps the file for that: under the lock that the pack was read under, or, if
/// another regular file is at the path, under a lock that is taken here. It is refused as `save_pack` is. Nothing is changed.
pub fn prepare_save(
    rt: &HostRuntime,
    path: &str,
    locked: Option<LockedPack>,
) -> Result<Option<LockedPack>, FileFault> {
    if let Some(locked) = locked {
        return Ok(Some(prepared(rt, locked)?));
    }
    keep_save_apart(rt, path)?;
    let place = followed(rt, path)?;
    match existing(rt, place.as_path())? {
        None => {
            test_place(rt, place.as_path())?;
            Ok(None)
        }
        Some(old) if old.is_file() => Ok(Some(prepared(rt, LockedPack::replaced(rt, place)?)?)),
        Some(_) => Ok(None),
    }
}

/// A locked pack that could be replaced now.
fn prepared(rt: &HostRuntime, locked: LockedPack) -> Result<LockedPack, FileFault> {
    test_replacing(rt, &locked)?;
    Ok(locked)
}

/// All bytes of the file at a path, or of standard input if the path is `-`, if they are no more than a limit; `FileTooLarge` if they are
/// more.
pub fn read_within(rt: &HostRuntime, path: &str, limit: usize) -> io::Result<Vec<u8>> {
    if is_input(path) {
        return read_input(rt, limit);
    }
    let mut file = File::open(rt, path)?;
    let bytes = read_up_to(rt, &mut file, limit.saturating_add(1))?;
    if bytes.len() > limit {
        return Err(io::Error::from(ErrorKind::FileTooLarge));
    }
    Ok(bytes)
}

fn write_in_place(rt: &HostRuntime, place: Path<'_>, bytes: &[u8]) -> io::Result<()> {
    let mut file = OpenOptions::new().write(true).open(rt, place)?;
    file.write_all(bytes)?;
    sync_if_kept(&file)
}
