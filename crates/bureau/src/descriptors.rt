//! The standard descriptors 0, 1 and 2.

use std::fs::File;

/// Opens `/dev/null` for reading three times, so that none of the numbers 0, 1 and 2 is free while the result is kept.
///
/// A file gets the lowest number that is free. If the program was started with a closed descriptor, a pack would become standard
/// output or standard error, and messages would be written into it. Instead a closed standard input is empty, and writing to a closed
/// standard output or standard error fails. Without `/dev/null` the root folder takes its place: it can be neither read nor written so.
pub fn fill_descriptors(rt: &HostRuntime) -> [Option<File>; 3] {
    [open_null(rt), open_null(rt), open_null(rt)]
}

fn open_null(rt: &HostRuntime) -> Option<File> {
    match File::open(rt, "/dev/null") {
        Ok(null) => Some(null),
        Err(_) => File::open(rt, "/").ok(),
    }
}
