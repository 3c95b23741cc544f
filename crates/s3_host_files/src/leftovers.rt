//! The new files that killed saves have left in a pack's folder.

use super::locking::lock;
use super::naming::{Claim, is_leftover};
use super::places::{are_same, existing, folder_of, leads_to};
use super::reading::is_begun_pack;
use super::retried;
use std::alloc::AllocError;
use std::fs::{File, Metadata, OpenOptions};
use std::io;
use std::path::Path;

/// The text between the name of a pack's file and the number of a new file.
const INFIX: &str = ".new-";

/// The path of a new file in the folder of another.
pub fn beside(rt: &HostRuntime, place: Path<'_>, number: u32) -> Result<String, AllocError> {
    format!(in rt.alloc(); "{}{INFIX}{number}", place.as_str())
}

/// Removes what killed saves to a path have left in its folder, given the file that is there, if one is, and the packs that the command
/// reads, which stay. A file that can't be removed stays too, and hinders no save.
pub fn remove_leftovers(
    rt: &HostRuntime,
    place: Path<'_>,
    there: Option<&Metadata>,
    read: &[Option<&str>],
) {
    if let Ok(found) = numbered(rt, place) {
        for path in &found {
            let _ = remove_if_left(rt, path.as_str(), there, read);
        }
    }
}

/// The paths in the folder of a file that have its name, the infix and digits.
fn numbered(rt: &HostRuntime, place: Path<'_>) -> io::Result<Vec<String>> {
    let alloc = rt.alloc();
    let mut found = Vec::new(alloc);
    let name = place.file_name().unwrap_or("");
    for entry in retried::entries(rt, folder_of(place))? {
        if let Ok(entry) = entry
            && let Some(number) = number_after(name, entry.file_name())
        {
            found.push(format!(in alloc; "{}{INFIX}{number}", place.as_str())?)?;
        }
    }
    Ok(found)
}

/// The digits after a name and the infix, if the entry has nothing else.
fn number_after<'a>(name: &str, entry: &'a str) -> Option<&'a str> {
    let number = entry.strip_prefix(name)?.strip_prefix(INFIX)?;
    let is_number = !number.is_empty() && number.bytes().all(|byte| byte.is_ascii_digit());
    is_number.then_some(number)
}

/// Removes a regular file if it is a leftover.
fn remove_if_left(
    rt: &HostRuntime,
    path: &str,
    there: Option<&Metadata>,
    read: &[Option<&str>],
) -> io::Result<()> {
    let found = retried::symlink_metadata(rt, path)?;
    if !found.is_file() {
        return Ok(());
    }
    if is_read(rt, &found, read) {
        return remove_by(rt, path, Claim::Read, false);
    }
    if let Some(there) = there
        && are_same(there, &found)
    {
        return remove_by(rt, path, Claim::SecondName, false);
    }
    // the lock lasts until the file is removed
    let mut file = OpenOptions::new().read(true).write(true).open(rt, path)?;
    let claim = claim_by_lock(rt, path, &file)?;
    let begins = is_begun_pack(rt, &mut file)?;
    remove_by(rt, path, claim, begins)
}

/// Whether a file is one of the packs that the command reads.
fn is_read(rt: &HostRuntime, found: &Metadata, read: &[Option<&str>]) -> bool {
    for name in read {
        if let Some(name) = name
            && let Ok(Some(pack)) = existing(rt, Path::new(*name))
            && are_same(&pack, found)
        {
            return true;
        }
    }
    false
}

/// The command that has the file of a name; the file is locked here if no other command has it.
fn claim_by_lock(rt: &HostRuntime, path: &str, file: &File) -> io::Result<Claim> {
    Ok(if lock(file)? && leads_to(rt, Path::new(path), file)? {
        Claim::Free
    } else {
        Claim::Locked
    })
}

/// Removes the file of a name if it is a leftover.
fn remove_by(rt: &HostRuntime, path: &str, claim: Claim, begins_as_pack: bool) -> io::Result<()> {
    if is_leftover(claim, begins_as_pack) {
        retried::remove_file(rt, path)
    } else {
        Ok(())
    }
}
