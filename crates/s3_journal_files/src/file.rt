//! The file of a journal, kept until its command ends.

use crate::beside::is_known_beside;
use crate::opening::{BEGINNING, Opened, is_lockable, remove_second_name};
use crate::reading::{Journal, journal_text, read_journal};
use crate::refusal::JournalRefusal;
use crate::reports::{
    report_again, report_changed, report_cut, report_gone, report_left, report_lost_lines,
    report_new, report_old, report_posted, report_unknown, report_unwritten,
};
use s3_day_log::utc_text;
use s3_host_files::{
    FileFault, Limit, folder_of, followed, is_saved, leads_to, retried, sync_if_kept,
};
use s3_journal::{PostedDay, Posting, Start, Work, line_of, start_of};
use std::alloc::AllocError;
use std::fs::File;
use std::io;
use std::io::Write;
use std::path::Path;
use std::time::{SystemTime, UNIX_EPOCH};

/// The pack over which a command begins.
#[derive(Clone, Copy)]
pub struct GivenPack<'a, 'b> {
    /// Its name, for messages.
    pub name: &'a str,
    /// Its checksum.
    pub sum: &'b str,
}

/// What a new line has in addition to its number, its time and what its command did.
#[derive(Clone, Copy)]
pub struct NewLine<'b> {
    /// The checksum of the pack with which the command began.
    pub before: &'b str,
    /// The checksum of the pack that it leaves.
    pub after: &'b str,
    /// The exit status.
    pub status: u8,
    /// The file that the pack isn't saved in if the line can't be written; none if the command reports this.
    pub save: Option<&'b str>,
}

/// How often a journal is opened again if it is made or removed before it is locked.
const TURNS: u32 = 10;

/// A journal, locked as long as this lives.
#[derive(Drop)]
pub struct JournalFile<'a> {
    name: &'a str,
    file: File,
    /// The file was made here.
    is_made: bool,
    /// The folder, if it may be opened: the name of a new journal is brought to the disk.
    folder: Option<File>,
    read: Journal,
}

impl<'a> JournalFile<'a> {
    /// Opens and locks a journal, or makes one without a line within a limit, and reads it.
    pub fn open(
        rt: &HostRuntime,
        name: &'a str,
        limit: Option<Limit>,
    ) -> Result<JournalFile<'a>, JournalRefusal<'a>> {
        for _turn in 0..TURNS {
            let Some(opened) = Opened::open(rt, name, limit)? else {
                continue;
            };
            keep_others_out(&opened.file, name)?;
            match leads_to(rt, Path::new(name), &opened.file) {
                Ok(true) => return JournalFile::read(rt, name, opened),
                Ok(false) => {}
                Err(error) => return Err(JournalRefusal::of(&error, name)),
            }
        }
        Err(JournalRefusal::InUse(name))
    }

    /// Reads a journal that is open and locked.
    fn read(
        rt: &HostRuntime,
        name: &'a str,
        opened: Opened,
    ) -> Result<JournalFile<'a>, JournalRefusal<'a>> {
        let Opened { file, is_made } = opened;
        if !is_made {
            remove_second_name(rt, name, &file);
        }
        let folder = match opened_folder(rt, name) {
            Ok(folder) => folder,
            Err(error) => return Err(JournalRefusal::of(&error, name)),
        };
        match read_journal(rt, name) {
            Ok(read) => Ok(JournalFile {
                name,
                file,
                is_made,
                folder,
                read,
            }),
            Err(refusal) => Err(refusal),
        }
    }

    /// Removes the journal if it was made here and got no line.
    pub fn remove_if_unused(&self, rt: &HostRuntime) {
        if self.is_made {
            remove_if_empty(rt, self.name, &self.file);
        }
    }

    /// A second handle of a journal that was made here. The journal stays locked as long as one of both lives.
    pub fn made(&self) -> Option<MadeJournal<'a>> {
        if !self.is_made {
            return None;
        }
        match self.file.try_clone() {
            Ok(file) => Some(MadeJournal {
                name: self.name,
                file,
            }),
            Err(_) => None,
        }
    }

    /// The name that was given.
    pub fn name(&self) -> &'a str {
        self.name
    }

    /// The days of the journal, the last one first.
    pub fn days(&self) -> &[PostedDay] {
        &self.read.days
    }

    /// Refuses a command that the journal doesn't let begin over a pack, and reports why. The cure is what to do if what it posts is
    /// posted. A new journal is reported, since it lets anything begin. It is refused if another journal has a day that made this pack:
    /// its name may be mistyped. A journal that may have lost its lines is refused, too.
    pub fn test_start(
        &self,
        rt: &HostRuntime,
        pack: GivenPack<'a, '_>,
        posting: Posting<'_>,
        cure: &str,
    ) -> Result<(), JournalRefusal<'a>> {
        if self.read.has_lost_lines {
            report_lost_lines(rt, self.name);
            return Err(JournalRefusal::Malformed);
        }
        match start_of(self.days(), pack.sum, posting) {
            Start::Do if self.days().is_empty() => self.test_new(rt, pack),
            Start::Do => Ok(()),
            Start::IsOld => {
                report_old(rt, self.name, self.days(), pack);
                Err(JournalRefusal::Old(pack.name))
            }
            Start::IsUnknown => {
                report_unknown(rt, self.name, self.days(), pack);
                if self.read.is_cut {
                    report_cut(rt, self.name);
                }
                report_posted(rt, self.days(), pack, posting, cure);
                Err(JournalRefusal::Changed(pack.name))
            }
            Start::IsPosted => {
                report_posted(rt, self.days(), pack, posting, cure);
                Err(JournalRefusal::Posted)
            }
        }
    }

    /// Reports a new journal. It is refused, and removed again, if another journal has a day that made the pack.
    fn test_new(
        &self,
        rt: &HostRuntime,
        pack: GivenPack<'a, '_>,
    ) -> Result<(), JournalRefusal<'a>> {
        if is_known_beside(rt, self.name, pack)? {
            self.remove_if_unused(rt);
            return Err(JournalRefusal::Malformed);
        }
        report_new(rt, self.name);
        Ok(())
    }

    /// Reports a command that begins by `--again` although what it posts is posted.
    pub fn report_again(&self, rt: &HostRuntime, pack: GivenPack<'_, '_>, posting: Posting<'_>) {
        report_again(rt, self.days(), pack, posting);
    }

    /// Appends a line of what a command did, and brings it to the disk. What a crash left of a line is removed first. It is refused if the
    /// journal was removed, replaced or changed since it was opened. If it fails, the line is removed again.
    pub fn append(
        &mut self,
        rt: &HostRuntime,
        new: NewLine<'_>,
        work: Work,
    ) -> Result<(), JournalRefusal<'a>> {
        let line = self.line_for(rt, new, work)?;
        self.test_as_read(rt, new.save)?;
        match self.append_line(line.as_str()) {
            Ok(()) => Ok(()),
            Err(error) => {
                self.take_back(rt);
                Err(self.unwritten(rt, &error, new.save))
            }
        }
    }

    /// Refuses a journal that another program removed, replaced or changed since it was read. This is reported, and that the pack isn't
    /// saved in a file.
    fn test_as_read(&self, rt: &HostRuntime, save: Option<&str>) -> Result<(), JournalRefusal<'a>> {
        match leads_to(rt, Path::new(self.name), &self.file) {
            Ok(true) => {}
            Ok(false) => {
                report_gone(rt, self.name);
                report_left(rt, save);
                return Err(JournalRefusal::Unwritten(self.name));
            }
            Err(error) => return Err(self.unwritten(rt, &error, save)),
        }
        match journal_text(rt, self.name) {
            Ok(text) if text == self.read.text => Ok(()),
            Ok(_) => {
                report_changed(rt, self.name);
                report_left(rt, save);
                Err(JournalRefusal::Unwritten(self.name))
            }
            Err(error) => Err(self.unwritten(rt, &error, save)),
        }
    }

    /// The refusal of a command whose line can't be written. The reason is reported, and that the pack isn't saved in a file.
    fn unwritten(
        &self,
        rt: &HostRuntime,
        error: &io::Error,
        save: Option<&str>,
    ) -> JournalRefusal<'a> {
        if error.kind() == io::ErrorKind::OutOfMemory {
            return JournalRefusal::NoMemory;
        }
        report_unwritten(rt, self.name, error);
        report_left(rt, save);
        JournalRefusal::Unwritten(self.name)
    }

    /// Ends the save of the pack whose line was appended last. If the pack wasn't saved, the line is removed again; if that fails, the
    /// line stays, and the pack shows that it wasn't saved.
    pub fn end_save(&self, rt: &HostRuntime, done: &Result<(), FileFault>) {
        if !is_saved(done) {
            self.take_back(rt);
        }
    }

    /// Removes the line that was appended last. A journal that another program has cut isn't made longer.
    fn take_back(&self, rt: &HostRuntime) {
        if let Ok(found) = retried::metadata_of(&self.file)
            && found.len() > self.read.bytes
            && self.file.set_len(self.read.bytes).is_ok()
        {
            let _ = self.file.sync_all();
        }
        self.remove_if_unused(rt);
    }

    /// The next line.
    fn line_for(
        &self,
        rt: &HostRuntime,
        new: NewLine<'_>,
        work: Work,
    ) -> Result<String, AllocError> {
        let alloc = rt.alloc();
        let day = PostedDay {
            number: (self.read.days.len() as u64).saturating_add(1),
            at: utc_text(alloc, seconds(rt))?,
            before: String::from_str(alloc, new.before)?,
            after: String::from_str(alloc, new.after)?,
            work,
            status: new.status,
        };
        line_of(alloc, &day, self.read.last.as_str())
    }

    /// Removes what a crash left of a line, appends a line, and brings it to the disk. The beginning of the first line is there.
    fn append_line(&mut self, line: &str) -> io::Result<()> {
        self.file.set_len(self.read.bytes)?;
        let rest = line.as_bytes().get(self.read.begun..).unwrap_or(&[]);
        self.file.write_all(rest)?;
        self.file.sync_all()?;
        match &self.folder {
            Some(folder) => sync_if_kept(folder),
            None => Ok(()),
        }
    }
}

/// A journal that a command made.
#[derive(Drop)]
pub struct MadeJournal<'a> {
    name: &'a str,
    file: File,
}

impl<'a> MadeJournal<'a> {
    /// Removes the journal if it got no line.
    pub fn remove_if_empty(&self, rt: &HostRuntime) {
        remove_if_empty(rt, self.name, &self.file);
    }
}

/// Removes a locked journal that has no line, if the name still leads to it.
fn remove_if_empty(rt: &HostRuntime, name: &str, file: &File) {
    if let Ok(found) = retried::metadata_of(file)
        && found.len() <= BEGINNING.len() as u64
        && matches!(leads_to(rt, Path::new(name), file), Ok(true))
    {
        let _ = retried::remove_file(rt, name);
    }
}

/// The time, in seconds since 1970; 0 if the clock can't be read.
fn seconds(rt: &HostRuntime) -> u64 {
    match SystemTime::now(rt) {
        Ok(now) => match now.duration_since(UNIX_EPOCH) {
            Ok(since) => since.as_secs(),
            Err(_) => 0,
        },
        Err(_) => 0,
    }
}

/// Locks a journal; refused if another command has it. If the file system has no locks, it is used without one.
fn keep_others_out<'a>(file: &File, name: &'a str) -> Result<(), JournalRefusal<'a>> {
    if is_lockable(file) {
        Ok(())
    } else {
        Err(JournalRefusal::InUse(name))
    }
}

/// The folder of a journal, opened; none if it may not be read.
fn opened_folder(rt: &HostRuntime, name: &str) -> io::Result<Option<File>> {
    let place = followed(rt, name)?;
    match File::open(rt, folder_of(place.as_path())) {
        Ok(folder) => Ok(Some(folder)),
        Err(error) if error.kind() == io::ErrorKind::PermissionDenied => Ok(None),
        Err(error) => Err(error),
    }
}
