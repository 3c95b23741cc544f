//! The process that holds the lock on a file.

use s3_decks::Shown;
use s3_host_files::retried;
use std::fs;
use std::io::Write;
use std::os::unix::fs::MetadataExt;

/// Where the system lists its locks.
const LOCKS: &str = "/proc/locks";

/// The process that holds the lock on a file, if the system lists it.
pub fn holder_of(rt: &HostRuntime, path: &str) -> Option<u32> {
    let found = retried::metadata(rt, path).ok()?;
    let file = Place::of(found.dev(), found.ino());
    let locks = fs::read_to_string(rt, LOCKS).ok()?;
    locks.lines().find_map(|line| process_in(line, file))
}

/// Reports which process holds the lock on a file, if the system lists it.
pub fn tell_holder(rt: &HostRuntime, path: &str) {
    if let Some(process) = holder_of(rt, path) {
        let path = Shown(path);
        let _ = writeln!(rt.stderr(), "{path} is locked by process {process}");
    }
}

/// Where a file is, as the list has it: the major and minor number of its device, and its own number.
#[derive(Clone, Copy, PartialEq)]
struct Place {
    major: u64,
    minor: u64,
    number: u64,
}

impl Place {
    /// The place of a file on a device.
    fn of(device: u64, number: u64) -> Place {
        Place {
            major: (device >> 8) & 0xfff,
            minor: (device & 0xff) | ((device >> 12) & 0xf_ff00),
            number,
        }
    }

    /// Reads `08:01:1234`.
    fn read(text: &str) -> Option<Place> {
        let (major, rest) = text.split_once(':')?;
        let (minor, number) = rest.split_once(':')?;
        Some(Place {
            major: u64::from_str_radix(major, 16).ok()?,
            minor: u64::from_str_radix(minor, 16).ok()?,
            number: number.parse::<u64>().ok()?,
        })
    }
}

/// The process that a line of the list names, if the line is of a lock on the file at this place. It reads
/// `1: FLOCK  ADVISORY  WRITE 4711 08:01:1234 0 EOF`.
fn process_in(line: &str, file: Place) -> Option<u32> {
    let mut words = line.split_whitespace();
    let kind = words.nth(1)?;
    let process = words.nth(2)?;
    let place = words.next()?;
    if kind == "FLOCK" && Place::read(place) == Some(file) {
        process.parse::<u32>().ok()
    } else {
        None
    }
}
