//! What is reported before a refusal: the line of the journal that is the reason, and what to do.

use crate::file::GivenPack;
use s3_journal::{PostedDay, Posting, day_that_left, day_with, posted_day};
use s3_refusals::{Quoted, Reason, Shown};
use std::io;
use std::io::Write;

/// Reports that the pack is an old copy: the day that left it, or the day that began on it if none did.
pub(crate) fn report_old(
    rt: &HostRuntime,
    journal: &str,
    days: &[PostedDay],
    pack: GivenPack<'_, '_>,
) {
    let Some(last) = days.first() else {
        return;
    };
    let last = last.number;
    if let Some(day) = day_that_left(days, pack.sum) {
        report_copy(rt, journal, pack, day, last);
    } else if let Some(day) = day_with(days, pack.sum) {
        report_begun(rt, journal, pack, day, last);
    }
}

/// Reports that the pack is the pack that an earlier day left.
fn report_copy(
    rt: &HostRuntime,
    journal: &str,
    pack: GivenPack<'_, '_>,
    day: &PostedDay,
    last: u64,
) {
    let (pack, quoted, journal) = (Shown(pack.name), Quoted(journal), Shown(journal));
    let (number, at) = (day.number, day.at.as_str());
    let _ = writeln!(
        rt.stderr(),
        "{pack} is an old copy: it is the pack that day {number} left, {at}, and the last day of {journal} is {last}; give the pack that day {last} left, or go back to day {number} by `bureau journal {quoted} --restore {number} --save FILE`"
    );
}

/// Reports that the pack is one on which an earlier day began, and that no day left it.
fn report_begun(
    rt: &HostRuntime,
    journal: &str,
    pack: GivenPack<'_, '_>,
    day: &PostedDay,
    last: u64,
) {
    let (pack, journal) = (Shown(pack.name), Shown(journal));
    let (number, at) = (day.number, day.at.as_str());
    let _ = writeln!(
        rt.stderr(),
        "{pack} is an old copy: it is the pack before day {number}, {at}, and the last day of {journal} is {last}; give the pack that day {last} left, or --again to begin from the old copy"
    );
}

/// Reports that something else changed the pack.
pub(crate) fn report_unknown(
    rt: &HostRuntime,
    journal: &str,
    days: &[PostedDay],
    pack: GivenPack<'_, '_>,
) {
    if let Some(last) = days.first() {
        let (pack, journal) = (Shown(pack.name), Shown(journal));
        let (number, at) = (last.number, last.at.as_str());
        let _ = writeln!(
            rt.stderr(),
            "{pack} isn't the pack that day {number} left, {at}, and no other line of {journal} has it: something else changed it, or it is another pack; check both names, or give --again to begin from this pack"
        );
    }
}

/// Reports that the last line of a journal isn't whole, as a kill may leave it: an earlier line may then be the last one that is known.
pub(crate) fn report_cut(rt: &HostRuntime, journal: &str) {
    let journal = Shown(journal);
    let _ = writeln!(
        rt.stderr(),
        "the last line of {journal} isn't whole: if {journal} was cut, restore it from a copy before you give --again"
    );
}

/// Reports that a journal has no line yet, so that nothing counts as posted.
pub(crate) fn report_new(rt: &HostRuntime, journal: &str) {
    let journal = Shown(journal);
    let _ = writeln!(
        rt.stderr(),
        "{journal} is a new journal: nothing is posted in it"
    );
}

/// Reports that another journal has a day that made the pack over which a new journal would begin, and what to do.
pub(crate) fn report_beside(
    rt: &HostRuntime,
    journal: &str,
    other: &str,
    day: &PostedDay,
    pack: GivenPack<'_, '_>,
) {
    let (journal, quoted) = (Shown(journal), Quoted(other));
    let (other, pack) = (Shown(other), Shown(pack.name));
    let (number, at) = (day.number, day.at.as_str());
    let _ = writeln!(
        rt.stderr(),
        "{journal} would be a new journal, but {other} has {pack}: day {number} left it, {at}; give --journal {quoted}, or --again to begin a new journal"
    );
}

/// Reports that a journal may have lost its lines, and what to do.
pub fn report_lost_lines(rt: &HostRuntime, journal: &str) {
    let journal = Shown(journal);
    let _ = writeln!(
        rt.stderr(),
        "{journal} has no whole line, so it may have lost its lines; restore it from a copy: with a new journal, or with --again, nobody knows which decks are posted"
    );
}

/// Reports that what a command posts is posted, if it is, and what to do.
pub(crate) fn report_posted(
    rt: &HostRuntime,
    days: &[PostedDay],
    pack: GivenPack<'_, '_>,
    posting: Posting<'_>,
    cure: &str,
) {
    if let Some(day) = posted_day(days, pack.sum, posting) {
        report_day(rt, day, posting, "; ", cure);
    }
}

/// Reports that what a command posts by `--again` is posted, if it is.
pub(crate) fn report_again(
    rt: &HostRuntime,
    days: &[PostedDay],
    pack: GivenPack<'_, '_>,
    posting: Posting<'_>,
) {
    let effect = match posting {
        Posting::Table { .. } => "--again adds it once more",
        _ => "--again posts them once more",
    };
    if let Some(day) = posted_day(days, pack.sum, posting) {
        report_day(rt, day, posting, ", and ", effect);
    }
}

/// Reports the day that posted the same, and what follows from it, after a joint.
fn report_day(rt: &HostRuntime, day: &PostedDay, posting: Posting<'_>, joint: &str, effect: &str) {
    let (number, at) = (day.number, day.at.as_str());
    let _ = match posting {
        Posting::Table { file, .. } => {
            let file = Shown(file);
            writeln!(
                rt.stderr(),
                "this table was added to {file} {at} as day {number}{joint}{effect}"
            )
        }
        _ => writeln!(
            rt.stderr(),
            "these decks were posted {at} as day {number}{joint}{effect}"
        ),
    };
}

/// Reports that a journal isn't there any more.
pub(crate) fn report_gone(rt: &HostRuntime, journal: &str) {
    let journal = Shown(journal);
    let _ = writeln!(
        rt.stderr(),
        "{journal} was removed or replaced while this command worked, so it can't get its line; put it back, and repeat the command"
    );
}

/// Reports that another program has changed a journal.
pub(crate) fn report_changed(rt: &HostRuntime, journal: &str) {
    let (quoted, journal) = (Quoted(journal), Shown(journal));
    let _ = writeln!(
        rt.stderr(),
        "{journal} was changed by another program while this command worked, so it gets no line; see by `bureau journal {quoted}` whether it is whole, restore it from a copy if it isn't, and repeat the command"
    );
}

/// Reports why a journal didn't get its line.
pub(crate) fn report_unwritten(rt: &HostRuntime, journal: &str, error: &io::Error) {
    let (journal, reason) = (Shown(journal), Reason(*error));
    let _ = writeln!(rt.stderr(), "{journal} can't be written: {reason}");
}

/// Reports that the pack isn't saved in a file, if the command doesn't report it otherwise.
pub(crate) fn report_left(rt: &HostRuntime, save: Option<&str>) {
    if let Some(save) = save {
        let save = Shown(save);
        let _ = writeln!(
            rt.stderr(),
            "the pack is not saved, and {save} is left alone"
        );
    }
}
