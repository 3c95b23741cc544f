//! `bureau journal`: the days of journals, listed, or the pack of a day, put back.
ghost use Rattle.std.specs.Prelude.{◌≤◌};

use crate::fault::DayFault;
use crate::journal_json::json_line;
use crate::keeping::place_of;
use crate::kept_packs::{KeptPack, kept_packs, kept_with, pack_itself};
use crate::restoring::{Restoring, restore};
use clap::ArgMatches;
use s3_cards::LevelId;
use s3_host_files::{StandardOutput, WRITTEN, is_input, path_of, shown_name, stream_at};
use s3_journal::{LevelCount, PostedDay, Saved, Work, saved_of};
use s3_journal_files::{JournalRefusal, read_listed_journal, report_lost_lines};
use s3_paper_commands::status::DONE;
use s3_refusals::Shown;
use std::alloc::AllocError;
use std::io::Write;

/// How a journal is listed.
#[derive(Clone, Copy)]
enum Form {
    /// A line for each of its lines.
    Lines,
    /// An object for each of its lines.
    Objects,
    /// How many lines it has.
    Count,
}

/// `bureau journal`: lists the days of journals, or puts a pack back, and gives the exit status.
pub fn perform_journal<'a>(rt: &HostRuntime, matches: &ArgMatches<'a>) -> u8
    ensures { result ≤ 3 }
{
    let done = match restoring_of(matches) {
        Ok(Some(asked)) => restore(rt, asked),
        Ok(None) => list_journals(rt, matches),
        Err(reason) => Err(DayFault::Usage(reason)),
    };
    match done {
        Ok(()) => DONE,
        Err(fault) => fault.tell(&mut rt.stderr()),
    }
}

/// Why no pack is put back by a journal that is standard input.
const NO_FILE: &str =
    "--restore can't take the journal from standard input, for it writes a line to it; give the file of the journal in place of -";

/// What the options say is put back, if they say it, or why they can't be followed.
fn restoring_of<'a>(matches: &ArgMatches<'a>) -> Result<Option<Restoring<'a>>, &'static str> {
    match (matches.get_one::<u32>("restore"), matches.get_str("save")) {
        (Some(day), Some(save)) => match matches.get_strs("file").unwrap_or(&[]) {
            [journal] if is_input(*journal) => Err(NO_FILE),
            [journal] if !is_listed(matches) => Ok(Some(Restoring {
                journal: *journal,
                day,
                save,
            })),
            [_] => Err("--restore goes without --verify, --json and --pack"),
            _ => Err("--restore takes one journal"),
        },
        (Some(_), None) => Err("--restore goes with --save FILE, which names the pack"),
        (None, Some(_)) => Err("--save goes with --restore DAY, which names the day"),
        (None, None) => Ok(None),
    }
}

/// Whether options say how journals are listed.
fn is_listed(matches: &ArgMatches<'_>) -> bool {
    matches.get_flag("verify") || matches.get_flag("json") || matches.get_str("pack").is_some()
}

/// Lists the days of journals on standard output.
fn list_journals<'a>(rt: &HostRuntime, matches: &ArgMatches<'a>) -> Result<(), DayFault<'a>> {
    let form = match (matches.get_flag("verify"), matches.get_flag("json")) {
        (true, true) => return Err(DayFault::Usage("--verify and --json don't go together")),
        (true, false) => Form::Count,
        (false, true) => Form::Objects,
        (false, false) => Form::Lines,
    };
    let kept = kept_beside(rt, matches.get_str("pack"))?;
    for name in matches.get_strs("file").unwrap_or(&[]) {
        list_journal(rt, *name, form, &kept)?;
    }
    Ok(())
}

/// A pack and its kept packs, of which standard input has none. Nothing if no pack is named.
fn kept_beside<'a>(rt: &HostRuntime, pack: Option<&'a str>) -> Result<Vec<KeptPack>, DayFault<'a>> {
    let Some(name) = pack else {
        return Ok(Vec::new(rt.alloc()));
    };
    let itself = pack_itself(rt, name)?;
    let mut kept = if is_input(name) {
        Vec::new(rt.alloc())
    } else {
        let place = place_of(rt, name)?;
        kept_packs(rt, name, place.as_path())?
    };
    kept.insert(0, itself)?;
    Ok(kept)
}

/// Lists the days of a journal on standard output.
fn list_journal<'a>(
    rt: &HostRuntime,
    name: &'a str,
    form: Form,
    kept: &[KeptPack],
) -> Result<(), DayFault<'a>> {
    if let Some(stream) = stream_at(rt, path_of(name), &WRITTEN) {
        return Err(DayFault::Stream(shown_name(name), stream));
    }
    let text = journal_text(rt, name, form, kept)?;
    match StandardOutput::new(rt).write_all(text.as_bytes()) {
        Ok(()) => Ok(()),
        Err(error) => Err(DayFault::of_output(&error)),
    }
}

/// Reports that the last line of a journal isn't complete.
fn report_cut(rt: &HostRuntime, name: &str) {
    let name = Shown(shown_name(name));
    let _ = writeln!(
        rt.stderr(),
        "{name}: its last line isn't complete, as after a kill or on a full disk; the next command with this journal removes it"
    );
}

/// The days of a journal, the first one first, or how many lines it has.
fn journal_text<'a>(
    rt: &HostRuntime,
    name: &'a str,
    form: Form,
    kept: &[KeptPack],
) -> Result<String, DayFault<'a>> {
    let journal = read_listed_journal(rt, name)?;
    if journal.has_lost_lines {
        report_lost_lines(rt, shown_name(name));
        return Err(DayFault::Journal(JournalRefusal::Malformed));
    }
    if journal.is_cut {
        report_cut(rt, name);
    }
    let mut text = String::new(rt.alloc());
    match form {
        Form::Count => push_count(&mut text, name, journal.days.len())?,
        Form::Lines => push_days(&mut text, &journal.days, kept)?,
        Form::Objects => push_objects(rt, &mut text, name, &journal.days, kept)?,
    }
    Ok(text)
}

/// Appends how many lines a journal has.
fn push_count(text: &mut String, name: &str, lines: usize) -> Result<(), AllocError> {
    let name = Shown(shown_name(name));
    if lines == 1 {
        writeln!(text, "{name} has 1 line")
    } else {
        writeln!(
            text,
            "{name} has {lines} lines, each with the checksum of the line before it"
        )
    }
}

/// Appends an object for each of these days, which are listed from the last one to the first, the first one first.
fn push_objects(
    rt: &HostRuntime,
    text: &mut String,
    journal: &str,
    days: &[PostedDay],
    kept: &[KeptPack],
) -> Result<(), AllocError> {
    for place in 0..days.len() {
        let place = days.len() - 1 - place;
        if let Some(day) = days.get(place) {
            let saved = saved_of(day, pack_after(days, place, kept));
            let path = kept_with(kept, day.after.as_str()).map(|pack| pack.path.as_str());
            let object = json_line(rt.alloc(), journal, day, saved, path)?;
            text.push_str(object.as_str())?;
        }
    }
    Ok(())
}

/// The checksum of the pack over which the command of the next line began. After the last line, it is the checksum of the present pack,
/// the first of the kept ones. `None` if no checksum is known.
fn pack_after<'d>(days: &'d [PostedDay], place: usize, kept: &'d [KeptPack]) -> Option<&'d str> {
    match place.checked_sub(1) {
        Some(later) => days.get(later).map(|next| next.before.as_str()),
        None => kept.first().map(|pack| pack.sum.as_str()),
    }
}

/// Appends a line for each of these days, which are listed from the last one to the first, the first one first.
fn push_days(text: &mut String, days: &[PostedDay], kept: &[KeptPack]) -> Result<(), AllocError> {
    for place in 0..days.len() {
        let place = days.len() - 1 - place;
        if let Some(day) = days.get(place) {
            push_day(text, day)?;
            let saved = saved_of(day, pack_after(days, place, kept));
            text.push_str(if place == 0 {
                last_words(saved, !kept.is_empty())
            } else {
                pack_words(saved)
            })?;
            push_kept(text, day, kept)?;
            text.push('\n')?;
        }
    }
    Ok(())
}

/// What a line before the last one says of the pack that its command left.
fn pack_words(saved: Saved) -> &'static str {
    match saved {
        Saved::IsSaved => "",
        Saved::NotSaved => "; the next day began on the pack before it",
        Saved::NotKnown => "; the next day began on another pack",
    }
}

/// What the last line says of the pack that its command left, given whether the options name the pack that is there.
fn last_words(saved: Saved, is_named: bool) -> &'static str {
    match saved {
        Saved::IsSaved => "",
        Saved::NotSaved => "; the pack that is there is the one before it",
        Saved::NotKnown if is_named => "; the pack that is there is another one",
        Saved::NotKnown => "",
    }
}

/// Appends in which file the pack is kept that a day left, if one is known.
fn push_kept(text: &mut String, day: &PostedDay, kept: &[KeptPack]) -> Result<(), AllocError> {
    if let Some(pack) = kept_with(kept, day.after.as_str()) {
        let path = Shown(shown_name(pack.path.as_str()));
        write!(text, "; in {path}")?;
    }
    Ok(())
}

/// Appends what a line says of a day.
fn push_day(text: &mut String, day: &PostedDay) -> Result<(), AllocError> {
    let (number, at) = (day.number, day.at.as_str());
    write!(text, "day {number}, {at}, ")?;
    push_work(text, day)
}

/// Appends what the command of a line did.
fn push_work(text: &mut String, day: &PostedDay) -> Result<(), AllocError> {
    match &day.work {
        Work::Operate(done) => {
            let status = day.status;
            write!(text, "status {status}")?;
            push_level(text, LevelId::One, done.one)?;
            push_level(text, LevelId::Two, done.two)
        }
        Work::Append(added) => {
            let file = Shown(added.file.as_str());
            write!(text, "load --append into {file}")
        }
        other => text.push_str(other.command()),
    }
}

/// Appends what a level did.
fn push_level(text: &mut String, level: LevelId, count: LevelCount) -> Result<(), AllocError> {
    let (level, jobs, lines) = (level.number(), count.jobs, count.lines);
    write!(text, "; level {level}: jobs {jobs}, lines {lines}")?;
    Ok(())
}
