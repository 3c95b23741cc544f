//! A journal is a file of its own.

use crate::refusal::JournalRefusal;
use s3_host_files::{STREAMS, Target, stream_at};

/// Refuses a journal that is a standard stream or one of the files that a command reads or writes for something else.
pub fn keep_journal_apart<'a>(
    rt: &HostRuntime,
    name: &'a str,
    others: &[Option<&str>],
) -> Result<(), JournalRefusal<'a>> {
    if let Some(stream) = stream_at(rt, name, &STREAMS) {
        return Err(JournalRefusal::Stream(name, stream));
    }
    let journal = match Target::find(rt, name) {
        Ok(journal) => journal,
        Err(error) => return Err(JournalRefusal::of(&error, name)),
    };
    for other in others {
        if let Some(other) = other
            && is_at(rt, &journal, *other)
        {
            return Err(JournalRefusal::Same(name));
        }
    }
    Ok(())
}

/// Whether a path is known to name this file. If not, the command that reads or saves there reports why it can't.
fn is_at(rt: &HostRuntime, journal: &Target, path: &str) -> bool {
    match Target::find(rt, path) {
        Ok(other) => journal.is_same(&other),
        Err(_) => false,
    }
}
