//! The files of a job at work.

use s3_decks::push_name;
use s3_job_files::OpenFile;
use std::alloc::AllocError;

/// Appends a line for a file of a job: how many records it has, how many of them were read, and which was chained last.
pub(crate) fn push_file(text: &mut String, file: &OpenFile) -> Result<(), AllocError> {
    text.push_str("  file ")?;
    push_name(text, file.name)?;
    if file.label.name != file.name {
        text.push_str(" (label ")?;
        push_name(text, file.label.name)?;
        text.push(')')?;
    }
    let kind = kind_of(file);
    let count = file.records.len();
    let capacity = file.label.capacity;
    write!(text, ": {kind}{count} of {capacity} records")?;
    let read = file.read;
    if read > 0 {
        write!(text, ", {read} read")?;
    }
    if let Some(place) = file.chained {
        let number = u64::from(place) + 1;
        write!(text, ", record {number} chained last")?;
    }
    text.push('\n')
}

/// The origin of a file, unless it is one of the level's own that was there before.
fn kind_of(file: &OpenFile) -> &'static str {
    if file.is_made {
        "made here, "
    } else if file.is_master {
        "a master, "
    } else {
        ""
    }
}
