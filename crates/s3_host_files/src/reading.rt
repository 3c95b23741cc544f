//! Files that are read, up to a limit.
ghost use Rattle.std.specs.Io.{ReadsAtMost};

use super::naming::can_begin_pack;
use super::places::existing;
use super::retried::{TRIES, metadata_of};
use std::alloc::AllocError;
use std::fs::File;
use std::io;
use std::io::{ErrorKind, Read};
use std::path::Path;

/// The most bytes that are asked of a file at once.
const CHUNK: usize = 4_096;

/// Space for the contents of a file, up to a limit, so that they aren't moved while they are read. If the length of a file isn't known, as
/// for a device, the space grows.
fn space_for(rt: &HostRuntime, file: &File, limit: usize) -> Result<Vec<u8>, AllocError> {
    let length = match metadata_of(file) {
        Ok(found) => usize::try_from(found.len()).unwrap_or(limit),
        Err(_) => 0,
    };
    Vec::with_capacity(rt.alloc(), length.min(limit))
}

/// The first bytes of an open file, or all if there are no more than a limit.
pub fn read_up_to(rt: &HostRuntime, file: &mut File, limit: usize) -> io::Result<Vec<u8>> {
    let mut bytes = space_for(rt, file, limit)?;
    let mut chunk = [0; CHUNK];
    for _turn in 0..limit {
        if read_chunk(file, &mut bytes, &mut chunk, limit)? == 0 {
            break;
        }
    }
    Ok(bytes)
}

/// Appends what one call reads of a file by way of a chunk, up to a limit of all bytes. It returns the number of bytes.
fn read_chunk(
    file: &mut File,
    bytes: &mut Vec<u8>,
    chunk: &mut [u8; CHUNK],
    limit: usize,
) -> io::Result<usize> {
    let space = limit.saturating_sub(bytes.len()).min(CHUNK);
    let count = read_some(file, &mut chunk[..space])?;
    bytes.extend_from_slice(&chunk[..count])?;
    Ok(count)
}

/// Reads some bytes. A read that a signal interrupts is tried again.
pub fn read_some<R: Read>(reader: &mut R, bytes: &mut [u8]) -> io::Result<usize>
    ensures { ReadsAtMost result bytes.new }
{
    for _try in 0..TRIES {
        match reader.read(bytes) {
            Err(error) if error.kind() == ErrorKind::Interrupted => {}
            done => return done,
        }
    }
    Err(io::Error::from(ErrorKind::Interrupted))
}

/// The first bytes of the file at a path, or all if there are no more than a limit.
pub fn beginning_of(rt: &HostRuntime, path: &str, limit: usize) -> io::Result<Vec<u8>> {
    let mut file = File::open(rt, path)?;
    read_up_to(rt, &mut file, limit)
}

/// Whether a regular file is at a path and begins as a pack of any format does. It fails if the file can't be read: it may be a pack.
pub fn is_pack_at(rt: &HostRuntime, place: Path<'_>) -> io::Result<bool> {
    match existing(rt, place)? {
        Some(found) if found.is_file() => begins_as_pack(rt, place),
        _ => Ok(false),
    }
}

/// Whether an empty regular file is at a path.
pub fn is_empty_at(rt: &HostRuntime, place: Path<'_>) -> io::Result<bool> {
    match existing(rt, place)? {
        Some(found) => Ok(found.is_file() && found.len() == 0),
        None => Ok(false),
    }
}

fn begins_as_pack(rt: &HostRuntime, place: Path<'_>) -> io::Result<bool> {
    let mut file = File::open(rt, place)?;
    let beginning = read_up_to(rt, &mut file, 6)?;
    Ok(beginning.starts_with(b"S3PACK"))
}

/// Whether an open file is empty or begins as a pack does, as far as it goes.
pub fn is_begun_pack(rt: &HostRuntime, file: &mut File) -> io::Result<bool> {
    let beginning = read_up_to(rt, file, 8)?;
    Ok(can_begin_pack(&beginning))
}
