//! Calls on files that are made again if a signal interrupts them.
//!
//! On Linux an interrupted call (`EINTR`) has done nothing, so it is made again as it was. The server of a network folder may have done it
//! all the same. Then the second call fails and changes nothing: a rename or a removal finds no file, and a link or a new folder
//! finds its name taken. `File::open`, `sync_all`, `set_len`, `set_permissions` and locks are made again by the toolchain's library.
ghost use Rattle.std.specs.Prelude.{◌≢◌, IfErr, IfOk, Ok};
ghost use Rattle.std.specs.IoError.{error_kind};

use std::fs::{DirBuilder, DirEntry, File, Metadata};
use std::io::ErrorKind;
use std::os::unix::fs::fchown;
use std::path::{AsPath, PathBuf};
use std::{fs, io};

/// How often a call is made that a signal interrupts each time.
pub const TRIES: u32 = 1_000_000;

/// Makes a call, and makes it again while a signal interrupts it, up to a million times. So its failure is never an interruption:
/// `TimedOut` after the last one.
pub fn call<T, F: Fn() -> io::Result<T>>(made: F) -> io::Result<T>
    requires { F.IsAlwaysCallable made }
    ensures done { IfOk result (λ value. F.post made (Ok value)) }
    ensures retried { IfErr result (λ error. error_kind error ≢ ErrorKind.Interrupted) }
{
    for _try in 0..TRIES {
        match made() {
            Err(error) if error.kind() == ErrorKind::Interrupted => {}
            done => return done,
        }
    }
    Err(io::Error::from(ErrorKind::TimedOut))
}

/// What is at the end of a path, after links.
pub fn metadata<P: AsPath>(rt: &HostRuntime, path: P) -> io::Result<Metadata> {
    let path = path.path_text();
    call(|| fs::metadata(rt, path))
}

/// What has a name: a link isn't followed.
pub fn symlink_metadata<P: AsPath>(rt: &HostRuntime, path: P) -> io::Result<Metadata> {
    let path = path.path_text();
    call(|| fs::symlink_metadata(rt, path))
}

/// What an open file is.
pub fn metadata_of(file: &File) -> io::Result<Metadata> {
    call(|| file.metadata())
}

/// Whether anything is at the end of a path, after links.
pub fn exists<P: AsPath>(rt: &HostRuntime, path: P) -> io::Result<bool> {
    let path = path.path_text();
    call(|| fs::exists(rt, path))
}

/// The path that a link names.
pub fn read_link<P: AsPath>(rt: &HostRuntime, path: P) -> io::Result<PathBuf> {
    let path = path.path_text();
    call(|| fs::read_link(rt, path))
}

/// Gives a file another name, in place of the file that has it.
pub fn rename<P: AsPath, Q: AsPath>(rt: &HostRuntime, from: P, to: Q) -> io::Result<()> {
    let (from, to) = (from.path_text(), to.path_text());
    call(|| fs::rename(rt, from, to))
}

/// Gives a file a second name, which must be free.
pub fn hard_link<P: AsPath, Q: AsPath>(rt: &HostRuntime, file: P, name: Q) -> io::Result<()> {
    let (file, name) = (file.path_text(), name.path_text());
    call(|| fs::hard_link(rt, file, name))
}

/// Removes a name of a file.
pub fn remove_file<P: AsPath>(rt: &HostRuntime, path: P) -> io::Result<()> {
    let path = path.path_text();
    call(|| fs::remove_file(rt, path))
}

/// Removes an empty folder.
pub fn remove_dir<P: AsPath>(rt: &HostRuntime, path: P) -> io::Result<()> {
    let path = path.path_text();
    call(|| fs::remove_dir(rt, path))
}

/// The entries of a folder, each with the error that it gave. A folder whose reading a signal interrupts is read again from its beginning.
pub fn entries<P: AsPath>(rt: &HostRuntime, path: P) -> io::Result<Vec<io::Result<DirEntry>>> {
    let path = path.path_text();
    call(|| read_entries(rt, path))
}

fn read_entries(rt: &HostRuntime, path: &str) -> io::Result<Vec<io::Result<DirEntry>>> {
    let mut entries = Vec::new(rt.alloc());
    for entry in fs::read_dir(rt, path)? {
        if let Err(error) = &entry
            && error.kind() == ErrorKind::Interrupted
        {
            return Err(*error);
        }
        entries.push(entry)?;
    }
    Ok(entries)
}

/// Makes a folder as a builder says.
pub fn create_dir<P: AsPath>(rt: &HostRuntime, builder: &DirBuilder, path: P) -> io::Result<()> {
    let path = path.path_text();
    call(|| builder.create(rt, path))
}

/// Gives an open file an owner and a group; none stays as it is.
pub fn change_owner(file: &File, owner: Option<u32>, group: Option<u32>) -> io::Result<()> {
    call(|| fchown(file, owner, group))
}
