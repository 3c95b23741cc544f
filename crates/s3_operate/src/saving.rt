//! The end of a day: its pack is saved, if that is asked for, and its log gets its last lines.

use crate::day::{Over, OwnDesk, test_outputs, test_written};
use crate::status::status_of;
use s3_cards::LevelId;
use s3_day_files::{
    DayFault, DayJournal, KeptOutput, KeptOutputs, Order, SetAside, end_aside, take_back,
};
use s3_day_log::{DayOver, Event, NamedFile, checksum};
use s3_host_files::{
    FileFault, Limit, LockedPack, is_pack_at, is_saved, lead_to_one_file, path_of, save_new_pack,
    save_pack,
};
use s3_journal::LevelCount;
use s3_operating::{Lost, PackEnd};
use s3_paper_commands::status::{DONE, FILE_FAILED, PASSED_OVER, PERSON_NEEDED};
use s3_refusals::{Reason, Shown};
use std::alloc::{AllocError, Global};
use std::io;
use std::io::Write;
use std::path::Path;

/// Printed if the operator answered that the pack must not be saved.
const ANSWERED_NO: &'static str = ": the answer was no";

/// Printed if the log of the day that is done again has that answer.
const LOGGED_NO: &'static str = ": in the log the answer was no";

/// Printed if the replies couldn't be read to their end.
const UNHEARD: &'static str =
    ": the replies can't be read any more; do the day again, with --redo if it has a log";

/// Printed if a level isn't done, and the pack is saved only of a whole day.
const UNFINISHED: &'static str =
    ": a level isn't done (--save-unfinished saves it so); do the whole day again from its first job, over the same pack";

/// Printed if the day was to be taken up at a line, and the pack isn't saved.
const WHOLE_DAY: &'static str =
    "nothing of this day is saved, so it can't be taken up at a line: do the whole day again from its first job, over the same pack";

/// A pack that is about to be saved.
#[derive(Clone, Copy)]
struct Saving<'a, 'b> {
    /// The file.
    path: &'a str,
    /// The checksum of the pack.
    sum: &'b str,
}

/// Where the pack is saved.
#[derive(Drop)]
pub struct Place<'n> {
    /// The lock on its file, if it is there.
    pub locked: Option<LockedPack>,
    /// The journal, which gets the line of the day before the pack is saved.
    pub journal: Option<DayJournal<'n>>,
}

/// What the end of a day needs at each step: its order, and the outputs that are kept to their end.
#[derive(Clone, Copy)]
pub struct DayEnd<'a, 'n> {
    /// The host.
    pub rt: &'a HostRuntime,
    /// What was asked for.
    pub order: &'a Order<'n>,
    /// The outputs.
    pub kept: &'a KeptOutputs,
}

impl<'a, 'n> DayEnd<'a, 'n> {
    /// Saves the pack if the day's end allows it, notes and reports whether it is saved, logs the end of the day, and gives the exit status.
    pub fn end(
        self,
        desk: &mut OwnDesk<'_>,
        over: &mut Over,
        place: Place<'n>,
    ) -> Result<u8, DayFault<'n>> {
        if let Err(fault) = self.sync_script(desk) {
            return Err(self.end_unwritten(desk, fault));
        }
        let verdict = over.closing.verdict;
        let end = desk.pack_end(
            verdict,
            self.order.save.is_some(),
            self.order.saves_unfinished,
        )?;
        match (end, self.order.save) {
            (PackEnd::Saved, Some(path)) => {
                let sum = checksum(self.rt.alloc(), &over.day.run.pack)?;
                let saving = Saving {
                    path,
                    sum: sum.as_str(),
                };
                self.save(desk, over, place, saving)
            }
            _ => self.end_unsaved(desk, over, end),
        }
    }

    /// Saves the pack, after the log has that it will be saved, and ends the day.
    fn save(
        self,
        desk: &mut OwnDesk<'_>,
        over: &mut Over,
        place: Place<'n>,
        saving: Saving<'n, '_>,
    ) -> Result<u8, DayFault<'n>> {
        if let Err(fault) = self.note_saving(desk, saving) {
            return Err(self.end_unwritten(desk, fault));
        }
        let Place {
            locked,
            mut journal,
        } = place;
        over.replaces_other = has_other_pack(self.rt, self.order, saving.path);
        let aside = match SetAside::of(self.rt, self.order, &locked) {
            Ok(aside) => aside,
            Err(fault) => return Err(self.end_unwritten(desk, fault)),
        };
        if let Err(fault) = note_day(self.rt, self.order, desk, over, &mut journal, saving.sum) {
            take_back(self.rt, &aside);
            return Err(self.end_unwritten(desk, fault));
        }
        // what comes after the save must not need memory for the name of the pack
        let pack = saved_file(self.rt.alloc(), saving)?;
        let path = saving.path;
        let done = saved(
            self.rt,
            self.order,
            path,
            locked,
            self.kept.limit,
            &over.day.run.pack,
        );
        over.is_saved = is_saved(&done);
        end_aside(self.rt, &aside, &done);
        if let Some(journal) = &journal {
            journal.end_save(self.rt, &done);
        }
        match done {
            Ok(()) => self.end_saved(desk, over, path, pack),
            Err(FileFault::Unsynced(error)) => self.end_unsynced(desk, path, pack, &error),
            Err(fault) => self.end_failed(desk, path, &fault),
        }
    }

    /// Ends a day of which an output isn't written, so that its pack isn't saved. This is reported, unless the desk has done so, and logged.
    /// It returns the fault.
    pub fn end_unwritten(self, desk: &mut OwnDesk<'_>, fault: DayFault<'n>) -> DayFault<'n> {
        if let Some(path) = self.order.save
            && !desk.has_given_up()
        {
            report_unsaved(self.rt, self.order, path, "");
        }
        if !desk.has_log_failed() {
            // the fault is the one that came first
            let _ = self.log_end(desk, fault.status(), None);
        }
        fault
    }

    /// Brings the script to the disk, if one is written.
    fn sync_script(self, desk: &OwnDesk<'_>) -> Result<(), DayFault<'n>> {
        if desk.has_script() {
            sync(
                self.rt,
                &self.kept.script,
                self.order.script,
                desk.script_len(),
            )
        } else {
            Ok(())
        }
    }

    /// Logs that the pack is going to be saved, and brings the log to the disk. If the desk is killed, a log without an end and the pack
    /// show whether the pack is saved.
    fn note_saving(
        self,
        desk: &mut OwnDesk<'_>,
        saving: Saving<'n, '_>,
    ) -> Result<(), DayFault<'n>> {
        if desk.has_log() {
            let pack = saved_file(self.rt.alloc(), saving)?;
            desk.note(Event::Saving { pack })?;
        }
        test_outputs(self.order, desk)?;
        self.sync_log(desk)
    }

    /// Brings the log to the disk, unless the operator continued without it.
    fn sync_log(self, desk: &OwnDesk<'_>) -> Result<(), DayFault<'n>> {
        if desk.has_log() {
            sync(self.rt, &self.kept.log, self.order.log, 0)
        } else {
            Ok(())
        }
    }

    /// Brings what the log has so far to the disk, unless the operator continued without it.
    fn sync_lines(self, desk: &OwnDesk<'_>) -> Result<(), DayFault<'n>> {
        match (&self.kept.log, self.order.log) {
            (Some(output), Some(name)) if desk.has_log() => bring(self.rt, output, name),
            _ => Ok(()),
        }
    }

    /// Ends a day whose pack is saved.
    fn end_saved(
        self,
        desk: &mut OwnDesk<'_>,
        over: &Over,
        path: &'n str,
        pack: NamedFile,
    ) -> Result<u8, DayFault<'n>> {
        if over.is_reported(self.order) {
            report_saved(self.rt, path, over);
        }
        let status = status_of(over.closing.verdict, PackEnd::Saved);
        self.end_over_saved(desk, status, path, pack)?;
        Ok(status)
    }

    /// Ends a day whose pack is saved, though its folder couldn't be brought to the disk.
    fn end_unsynced(
        self,
        desk: &mut OwnDesk<'_>,
        path: &'n str,
        pack: NamedFile,
        error: &io::Error,
    ) -> Result<u8, DayFault<'n>> {
        let (shown, reason) = (Shown(path), Reason(*error));
        let _ = writeln!(
            self.rt.stderr(),
            "the pack is saved in {shown}, but may not survive a power cut, because its folder can't be brought to the disk: {reason}"
        );
        self.end_over_saved(desk, FILE_FAILED, path, pack)?;
        Err(DayFault::Unsynced(path))
    }

    /// Logs the end of a day whose pack is saved. If the log fails by now, the pack stays saved, which is reported.
    fn end_over_saved(
        self,
        desk: &mut OwnDesk<'_>,
        status: u8,
        path: &'n str,
        pack: NamedFile,
    ) -> Result<(), DayFault<'n>> {
        if self.log_end(desk, status, Some(pack)).is_ok() {
            return Ok(());
        }
        let log = self.order.log.unwrap_or(path);
        let (shown, path) = (Shown(log), Shown(path));
        let _ = writeln!(
            self.rt.stderr(),
            "{shown} may lack the end of the day; the pack is saved in {path} all the same"
        );
        Err(DayFault::File(log))
    }

    /// Ends a day whose pack couldn't be saved.
    fn end_failed(
        self,
        desk: &mut OwnDesk<'_>,
        path: &'n str,
        fault: &FileFault,
    ) -> Result<u8, DayFault<'n>> {
        report_failed(self.rt, path, fault);
        report_whole_day(self.rt, self.order);
        let fault = DayFault::of_pack(fault, path);
        // the fault is the one that came first
        let _ = self.log_end(desk, fault.status(), None);
        Err(fault)
    }

    /// Ends a day whose pack isn't to be saved.
    fn end_unsaved(
        self,
        desk: &mut OwnDesk<'_>,
        over: &Over,
        end: PackEnd,
    ) -> Result<u8, DayFault<'n>> {
        match self.order.save {
            Some(path) => {
                report_unsaved(self.rt, self.order, path, reason_of(end));
                report_redo(self.rt, self.order, desk, end);
            }
            None if over.is_reported(self.order) => desk.tell(
                "nothing is saved: there is no --save\n",
            ),
            None => {}
        }
        if let PackEnd::AnsweredNo | PackEnd::LoggedNo = end {
            desk.note(Event::Declined)?;
        }
        let status = status_of(over.closing.verdict, end);
        self.log_end(desk, status, None)?;
        Ok(status)
    }

    /// Logs the end of the day, and brings the log to the disk: all lines before the last one first, so that the last line has the status of a
    /// log that can't be brought there. Only if the last line alone can't be, the day's status is another one.
    fn log_end(
        self,
        desk: &mut OwnDesk<'_>,
        status: u8,
        saved: Option<NamedFile>,
    ) -> Result<(), DayFault<'n>> {
        let synced = self.sync_lines(desk);
        let status = logged_status(status, &synced);
        if desk.has_log() {
            desk.note(Event::End(DayOver { status, saved }))?;
        }
        desk.tell_log_failure()?;
        test_written(self.order, desk)?;
        synced?;
        self.sync_log(desk)
    }
}

/// Reports that the pack isn't saved, and why, unless another line has the reason.
fn report_unsaved(rt: &HostRuntime, order: &Order<'_>, path: &str, reason: &str) {
    let path = Shown(path);
    let _ = writeln!(
        rt.stderr(),
        "the pack is not saved, and {path} is left alone{reason}"
    );
    report_whole_day(rt, order);
}

/// Reports that a day whose pack isn't saved can't be taken up at a line, if that was wanted.
fn report_whole_day(rt: &HostRuntime, order: &Order<'_>) {
    if order.saves_unfinished {
        let _ = writeln!(rt.stderr(), "{WHOLE_DAY}");
    }
}

/// Appends the line of the day to the journal, if there is one, and brings it to the disk. If the desk is killed, the last line and the
/// pack show whether the day is posted. The journal stays locked until the pack is saved.
fn note_day<'n>(
    rt: &HostRuntime,
    order: &Order<'n>,
    desk: &OwnDesk<'_>,
    over: &Over,
    journal: &mut Option<DayJournal<'n>>,
    sum: &str,
) -> Result<(), DayFault<'n>> {
    let Some(journal) = journal else {
        return Ok(());
    };
    let status = status_of(over.closing.verdict, PackEnd::Saved);
    let one = count_of(desk, LevelId::One)?;
    let two = count_of(desk, LevelId::Two)?;
    journal.append(rt, order, sum, status, one, two)
}

/// How many jobs of a level were begun, and how many lines they printed.
fn count_of(desk: &OwnDesk<'_>, level: LevelId) -> Result<LevelCount, AllocError> {
    let jobs = desk.printed_jobs(level)?;
    let mut lines: u64 = 0;
    for job in &jobs {
        lines = lines.saturating_add(job.lines);
    }
    Ok(LevelCount {
        jobs: jobs.len() as u64,
        lines,
    })
}

/// Brings an output to the disk.
fn bring<'n>(rt: &HostRuntime, output: &KeptOutput, name: &'n str) -> Result<(), DayFault<'n>> {
    match output.sync() {
        Ok(()) => Ok(()),
        Err(error) => Err(unsynced(rt, name, &error)),
    }
}

/// Brings an output to the disk, whose file must still have its name and at least so many bytes.
fn sync<'n>(
    rt: &HostRuntime,
    output: &Option<KeptOutput>,
    name: Option<&'n str>,
    written: u64,
) -> Result<(), DayFault<'n>> {
    let (Some(output), Some(name)) = (output, name) else {
        return Ok(());
    };
    bring(rt, output, name)?;
    match output.lost(rt, name, written) {
        Some(lost) => Err(lost_name(rt, name, lost)),
        None => Ok(()),
    }
}

/// Reports why the file of an output no longer keeps what was written, and gives the fault.
fn lost_name<'n>(rt: &HostRuntime, name: &'n str, lost: Lost) -> DayFault<'n> {
    let (shown, words) = (Shown(name), lost.words());
    let _ = writeln!(rt.stderr(), "{shown} isn't written: {words}");
    DayFault::File(name)
}

/// Reports why an output can't be brought to the disk, and gives the fault.
fn unsynced<'n>(rt: &HostRuntime, name: &'n str, error: &io::Error) -> DayFault<'n> {
    let (shown, reason) = (Shown(name), Reason(*error));
    let _ = writeln!(
        rt.stderr(),
        "{shown} can't be brought to the disk: {reason}"
    );
    DayFault::File(name)
}

/// Saves the pack. A file that has appeared since the day began is overwritten only if that is asked for. A new file gives no more access
/// than the limit.
fn saved(
    rt: &HostRuntime,
    order: &Order<'_>,
    path: &str,
    locked: Option<LockedPack>,
    limit: Option<Limit>,
    pack: &[u8],
) -> Result<(), FileFault> {
    let read = [order.pack];
    if locked.is_none() && !order.overwrites {
        save_new_pack(rt, path, limit, &read, pack)
    } else {
        save_pack(rt, path, locked, limit, &read, pack)
    }
}

/// Whether the file at a path has another pack than the one that the day began with. If it can't be read, the save fails with the reason.
fn has_other_pack(rt: &HostRuntime, order: &Order<'_>, path: &str) -> bool {
    match order.pack {
        Some(pack) => {
            matches!(is_pack_at(rt, Path::new(path)), Ok(true))
                && !lead_to_one_file(rt, path_of(pack), path)
        }
        None => false,
    }
}

/// Reports that the pack is saved, what that means if a level isn't done, and whether another pack was replaced.
fn report_saved(rt: &HostRuntime, path: &str, over: &Over) {
    let path = Shown(path);
    let further = if over.is_unfinished() {
        ", though a level isn't done: take the day up where the summary says; a job that is taken up begins anew, over the records that it has written"
    } else {
        ""
    };
    let _ = if over.replaces_other {
        writeln!(
            rt.stderr(),
            "the pack is saved in {path}{further}; the pack that {path} had is replaced"
        )
    } else {
        writeln!(rt.stderr(), "the pack is saved in {path}{further}")
    };
}

/// Reports why a pack isn't saved.
fn report_failed(rt: &HostRuntime, path: &str, fault: &FileFault) {
    let path = Shown(path);
    let _ = match fault {
        FileFault::Call(error) | FileFault::Unsynced(error) => {
            let reason = Reason(*error);
            writeln!(rt.stderr(), "the pack is not saved in {path}: {reason}")
        }
        FileFault::Exists => writeln!(
            rt.stderr(),
            "the pack is not saved: {path} is there by now, and wasn't when the day began; give another name, or --overwrite to write over it"
        ),
        // the line of the refusal has the reason
        FileFault::NoPack
        | FileFault::IsPack
        | FileFault::Hindered(_)
        | FileFault::Stream(_)
        | FileFault::Talk(_)
        | FileFault::InUse => writeln!(
            rt.stderr(),
            "the pack is not saved, and {path} is left alone"
        ),
    };
}

/// Reports how the replies of an unfinished day can be given again, if it has a log.
fn report_redo(rt: &HostRuntime, order: &Order<'_>, desk: &OwnDesk<'_>, end: PackEnd) {
    if let (PackEnd::Unfinished, Some(log), true) = (end, order.log, desk.has_log()) {
        let log = Shown(log);
        let _ = writeln!(
            rt.stderr(),
            "--redo {log} gives the replies so far again; give --log another name then"
        );
    }
}

/// Why the pack isn't saved: the end of a sentence.
fn reason_of(end: PackEnd) -> &'static str {
    match end {
        PackEnd::Unfinished => UNFINISHED,
        PackEnd::Unheard => UNHEARD,
        PackEnd::LoggedNo => LOGGED_NO,
        PackEnd::AnsweredNo => ANSWERED_NO,
        PackEnd::Saved | PackEnd::Unnamed => "",
    }
}

/// The status of a day that ends with this one, or with a fault if its log can't be brought to the disk. The first fault counts.
fn logged_status(status: u8, synced: &Result<(), DayFault<'_>>) -> u8 {
    match (status, synced) {
        (DONE | PERSON_NEEDED | PASSED_OVER, Err(fault)) => fault.status(),
        _ => status,
    }
}

/// The pack as the log has it.
fn saved_file(alloc: Global, saving: Saving<'_, '_>) -> Result<NamedFile, AllocError> {
    Ok(NamedFile {
        name: String::from_str(alloc, saving.path)?,
        sha256: String::from_str(alloc, saving.sum)?,
    })
}
