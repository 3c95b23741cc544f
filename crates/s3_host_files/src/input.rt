//! Standard input in the place of a file that is read.

use super::standard_input::StandardInput;
use super::streams::StandardStream;
use std::io;
use std::io::{ErrorKind, Read};

/// The name that means standard input.
pub const STANDARD_INPUT: &str = "-";

/// What messages call it.
pub const SHOWN_INPUT: &str = "standard input";

/// The most bytes that are read at once.
const CHUNK: usize = 4_096;

/// Whether a name means standard input.
pub fn is_input(name: &str) -> bool {
    name == STANDARD_INPUT
}

/// What messages call a file that is read.
pub fn shown_name(name: &str) -> &str {
    if is_input(name) { SHOWN_INPUT } else { name }
}

/// The path that the system has for a file that is read.
pub fn path_of(name: &str) -> &str {
    if is_input(name) {
        StandardStream::Input.path()
    } else {
        name
    }
}

/// All bytes of standard input, if they are no more than a limit; `FileTooLarge` if they are more.
pub fn read_input(rt: &HostRuntime, limit: usize) -> io::Result<Vec<u8>> {
    let bytes = input_up_to(rt, limit.saturating_add(1))?;
    if bytes.len() > limit {
        return Err(io::Error::from(ErrorKind::FileTooLarge));
    }
    Ok(bytes)
}

/// The first bytes of standard input, or all if there are no more than a limit.
pub fn input_up_to(rt: &HostRuntime, limit: usize) -> io::Result<Vec<u8>> {
    let mut bytes = Vec::new(rt.alloc());
    for _turn in 0..limit {
        if read_chunk(rt, &mut bytes, limit)? == 0 {
            break;
        }
    }
    Ok(bytes)
}

/// Appends what one call reads of standard input, up to a limit of all bytes. It returns the number of bytes.
fn read_chunk(rt: &HostRuntime, bytes: &mut Vec<u8>, limit: usize) -> io::Result<usize> {
    let mut chunk = [0; CHUNK];
    let space = limit.saturating_sub(bytes.len()).min(CHUNK);
    let count = StandardInput::new(rt).read(&mut chunk[..space])?;
    bytes.extend_from_slice(&chunk[..count])?;
    Ok(count)
}
