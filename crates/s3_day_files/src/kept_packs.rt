//! The packs that are kept in a pack's folder, known by their checksums.

use crate::fault::DayFault;
use crate::keeping::{MOST_KEPT, is_pack_of, kept_name};
use s3_day_log::checksum;
use s3_host_files::{read_pack, shown_name};
use s3_refusals::{Reason, Shown};
use std::alloc::AllocError;
use std::io;
use std::io::Write;
use std::path::Path;

/// A pack that is kept.
#[derive(Drop)]
pub struct KeptPack {
    /// Its file.
    pub path: String,
    /// Its checksum.
    pub sum: String,
}

/// The packs that are kept for a pack, the newest one first.
pub fn kept_packs<'a>(
    rt: &HostRuntime,
    name: &'a str,
    place: Path<'_>,
) -> Result<Vec<KeptPack>, DayFault<'a>> {
    let mut packs = Vec::new(rt.alloc());
    for number in 0..MOST_KEPT.saturating_add(1) {
        let path = kept_name(rt.alloc(), place, number)?;
        match is_pack_of(rt, path.as_str()) {
            Ok(true) => packs.push(kept_pack(rt, name, path)?)?,
            Ok(false) => {}
            Err(error) => return Err(unread(rt, name, path.as_str(), &error)),
        }
    }
    Ok(packs)
}

/// Reports why a pack that is kept can't be read, and gives the fault.
fn unread<'a>(rt: &HostRuntime, name: &'a str, path: &str, error: &io::Error) -> DayFault<'a> {
    if error.kind() == io::ErrorKind::OutOfMemory {
        return DayFault::from(AllocError);
    }
    let (path, reason) = (Shown(path), Reason(*error));
    let _ = writeln!(rt.stderr(), "{path} can't be read: {reason}");
    DayFault::Keep(name)
}

/// A pack that is kept, with its checksum.
fn kept_pack<'a>(rt: &HostRuntime, name: &'a str, path: String) -> Result<KeptPack, DayFault<'a>> {
    match read_pack(rt, path.as_str()) {
        Ok(bytes) => {
            let sum = checksum(rt.alloc(), &bytes)?;
            Ok(KeptPack { path, sum })
        }
        Err(fault) => Err(DayFault::of_pack(&fault, name)),
    }
}

/// A pack, which may be standard input, with its checksum.
pub fn pack_itself<'a>(rt: &HostRuntime, name: &'a str) -> Result<KeptPack, DayFault<'a>> {
    let path = String::from_str(rt.alloc(), name)?;
    kept_pack(rt, shown_name(name), path)
}

/// The first of these packs with a checksum.
pub fn kept_with<'k>(packs: &'k [KeptPack], sum: &str) -> Option<&'k KeptPack> {
    packs.iter().find(|pack| pack.sum.as_str() == sum)
}
