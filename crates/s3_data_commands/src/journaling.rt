//! The journal of a pack that a command changes: it decides whether the command may begin, and gets its line before the pack is saved.

use crate::fault::{Fault, of_journal};
use crate::pack_words::{limit_of, wrong_words};
use clap::ArgMatches;
use s3_host_files::FileFault;
use s3_journal::{Posting, Work, checksum_of};
use s3_journal_files::{GivenPack, JournalFile, NewLine, keep_journal_apart};

/// What to do if a table is added to its file already.
const AGAIN: &str =
    "to add it once more, or if that file was deleted or replaced since, give --again";

/// A journal that gets a line of a command.
#[derive(Drop)]
pub struct OpenJournal<'a> {
    file: JournalFile<'a>,
    /// The checksum of the pack with which the command began.
    before: String,
}

/// Opens the journal that the options name, if they name one, and refuses what it doesn't let begin over the pack at a path, unless
/// `--again` is given.
pub fn journal_for<'a>(
    rt: &HostRuntime,
    matches: &ArgMatches<'a>,
    path: &'a str,
    pack: &[u8],
    posting: Posting<'_>,
) -> Result<Option<OpenJournal<'a>>, Fault> {
    let Some(name) = matches.get_str("journal") else {
        return without_journal(rt, matches);
    };
    keep_apart(rt, matches, name)?;
    let limit = limit_of(rt, matches)?;
    let before = checksum_of(rt.alloc(), pack)?;
    let file = match JournalFile::open(rt, name, limit) {
        Ok(file) => file,
        Err(refusal) => return Err(of_journal(rt, &refusal)),
    };
    let journal = OpenJournal { file, before };
    if matches.get_flag("again") {
        journal.report_again(rt, path, posting);
    } else {
        journal.test_start(rt, path, posting)?;
    }
    Ok(Some(journal))
}

/// What a command did before its line is written. If it was refused, a journal that it made is removed again.
pub fn unmade_if_refused<T: Drop>(
    rt: &HostRuntime,
    journal: &Option<OpenJournal<'_>>,
    done: Result<T, Fault>,
) -> Result<T, Fault> {
    match done {
        Ok(done) => Ok(done),
        Err(fault) => {
            if let Some(journal) = journal {
                journal.file.remove_if_unused(rt);
            }
            Err(fault)
        }
    }
}

/// No journal; `--again` alone is refused.
fn without_journal<'a>(
    rt: &HostRuntime,
    matches: &ArgMatches<'_>,
) -> Result<Option<OpenJournal<'a>>, Fault> {
    if matches.get_flag("again") {
        Err(wrong_words(rt.alloc(), "--again goes with --journal FILE"))
    } else {
        Ok(None)
    }
}

/// Refuses a journal that the command reads or writes for something else.
fn keep_apart(rt: &HostRuntime, matches: &ArgMatches<'_>, name: &str) -> Result<(), Fault> {
    let others = [
        matches.get_str("pack"),
        matches.get_str("save"),
        matches.get_str("into"),
        matches.get_str("layout"),
    ];
    match keep_journal_apart(rt, name, &others) {
        Ok(()) => Ok(()),
        Err(refusal) => Err(of_journal(rt, &refusal)),
    }
}

impl<'a> OpenJournal<'a> {
    /// Refuses what the journal doesn't let begin over the pack at a path.
    fn test_start(&self, rt: &HostRuntime, path: &str, posting: Posting<'_>) -> Result<(), Fault> {
        let pack = GivenPack {
            name: path,
            sum: self.before.as_str(),
        };
        match self.file.test_start(rt, pack, posting, AGAIN) {
            Ok(()) => Ok(()),
            Err(refusal) => Err(of_journal(rt, &refusal)),
        }
    }

    /// Reports that what the command posts by `--again` is posted, if it is.
    fn report_again(&self, rt: &HostRuntime, path: &str, posting: Posting<'_>) {
        let pack = GivenPack {
            name: path,
            sum: self.before.as_str(),
        };
        self.file.report_again(rt, pack, posting);
    }

    /// Ends the save of the pack: its line is removed again if the pack wasn't saved.
    pub fn end_save(&self, rt: &HostRuntime, done: &Result<(), FileFault>) {
        self.file.end_save(rt, done);
    }

    /// Appends the line of what the command did, given the file and the pack that it leaves, and brings the line to the disk. A journal that got no
    /// line and was made by the command is removed again.
    pub fn append(
        &mut self,
        rt: &HostRuntime,
        save: &str,
        pack: &[u8],
        work: Work,
    ) -> Result<(), Fault> {
        let after = checksum_of(rt.alloc(), pack)?;
        let line = NewLine {
            before: self.before.as_str(),
            after: after.as_str(),
            status: 0,
            save: Some(save),
        };
        match self.file.append(rt, line, work) {
            Ok(()) => Ok(()),
            Err(refusal) => {
                self.file.remove_if_unused(rt);
                Err(of_journal(rt, &refusal))
            }
        }
    }
}
