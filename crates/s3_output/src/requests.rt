//! The request that a line of a disk file makes.
ghost use Rattle.std.specs.Prelude.{◌≡◌, List, ℕ, Option, true};
ghost use Rattle.s3_meaning.specs.Environment.{Environment};
ghost use Rattle.s3_meaning.specs.OutputLines.{Output};
ghost use Rattle.s3_meaning.specs.Output as meaning;
ghost use Rattle.s3_meaning.specs.Source as source;
ghost use Rattle.s3_output.specs.Inner.Requests.{request_of};

use s3_lines::sheet::{Designation, FileLine, FileUse};

/// What a line of a disk file asks for.
#[derive(Clone, Copy)]
pub enum DiskRequest {
    /// The current record is written back with what was put.
    Update,
    /// A record goes in by its key.
    Add,
    /// A record goes after the last one.
    Append,
}

/// Whether a line without ADD is an update in this file: it is an update file, or a direct load.
fn is_updated(file: &FileLine) -> bool
    ensures { result ≡ source.is_updated file.now }
{
    match file.usage {
        FileUse::Update => true,
        FileUse::Output => matches!(file.designation, Some(Designation::Chained)),
        FileUse::Input => false,
    }
}

/// The request of a line of a disk file. Without ADD it is an update, in an update file or a direct load. With ADD it adds a
/// record by its key, if the file has keys. Else it adds a record after the last one.
pub fn disk_request(file: &FileLine, is_addition: bool) -> DiskRequest
    ensures { (line : Output) (positions : List (Option ℕ)) (e : Environment) → line.is_addition ≡ is_addition
        → meaning.disk_request file.now line positions e ≡ request_of result file.now positions e }
{
    if is_updated(file) && !is_addition {
        DiskRequest::Update
    } else if is_addition && file.key.is_some() {
        DiskRequest::Add
    } else {
        DiskRequest::Append
    }
}
