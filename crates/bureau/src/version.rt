//! What the executable says of itself by `--version`: the version, and the text of its stamp, the line after it if it was kept.

use hex::FromHex;
use memchr::memrchr;
use s3_command_line::VERSION;
use sha2::{Digest, Sha256};
use std::fs::File;
use std::io::{ErrorKind, Read, Seek, SeekFrom, Write};
use std::{env, io, str};

/// What a stamp begins with, after a newline.
const MARK: &[u8] = b"bureau stamp: ";

/// What parts a stamp's text from the SHA-256 of the text, after which the file ends with a newline.
const SUM: &str = "; sha256 ";

/// The most bytes that are read of the executable, from its end.
const TAIL: usize = 512;

/// The place of the first byte that is read, counted from the end of the file.
const FROM_END: i64 = -512;

/// Prints the program's name and its version, and in a second line what the executable was made from, or that it is not stamped. A stamp
/// that is cut or damaged is none, and so is one that can't be read.
pub fn write_version(rt: &HostRuntime) -> io::Result<()> {
    let mut tail = [0u8; TAIL];
    let text = match read_tail(rt, &mut tail) {
        Ok(()) => stamp_in(&tail),
        Err(error) if error.kind() == ErrorKind::OutOfMemory => return Err(error),
        Err(_) => None,
    };
    let made_from = text.unwrap_or("not stamped");
    writeln!(rt.stdout(), "bureau {VERSION}\n{made_from}")
}

/// Reads the last bytes of the file that this process runs.
fn read_tail(rt: &HostRuntime, tail: &mut [u8]) -> io::Result<()> {
    let path = env::current_exe(rt)?;
    let mut file = File::open(rt, path.as_path())?;
    file.seek(SeekFrom::End(FROM_END))?;
    file.read_exact(tail)
}

/// The text of the stamp at the end of these bytes, if a sound one is there.
fn stamp_in(tail: &[u8]) -> Option<&str> {
    let stamp = last_line(tail)?.strip_prefix(MARK)?;
    let (text, sum) = str::from_utf8(stamp).ok()?.rsplit_once(SUM)?;
    let wanted = <[u8; 32] as FromHex>::from_hex(sum).ok()?;
    if Sha256::digest(text.as_bytes()) == wanted {
        Some(text)
    } else {
        None
    }
}

/// The line that ends with the last of these bytes, without its newline, if it begins among them.
fn last_line(bytes: &[u8]) -> Option<&[u8]> {
    let line = bytes.strip_suffix(b"\n")?;
    let newline = memrchr(b'\n', line)?;
    line.get(newline + 1..)
}
