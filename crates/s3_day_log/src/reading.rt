//! A line of the log that is read.
ghost use Rattle.std.specs.Prelude.{◌≡◌, ◌≢◌, IfOk, None, option_and_then, option_map};
ghost use Rattle.std.specs.Option.{option_copied};
ghost use Rattle.std.specs.String.{string_bytes};
ghost use Rattle.json.specs.Find.{as_object, as_str};
ghost use Rattle.json.specs.Value.{value_view, items_view};
ghost use Rattle.json.specs.declared.error.Error.TheVariants.{OutOfMemory};
ghost use Rattle.s3_day_log.specs.Inner.Events.{day_of, file_of, files_of, said_of, texts_of};
ghost use Rattle.s3_day_log.specs.Inner.Lines.{day_if_whole, day_in, end_said, file_at, file_in, files_in, halt_said, is_time as is_time_spec, job_in, job_kind_in, job_over_in, optional_file_in, reply_said, said_as, said_by, said_in, said_on, texts_in, timed};
ghost use Rattle.s3_day_log.specs.Inner.Members.{read_each};
ghost use Rattle.s3_day_log.specs.Inner.Views.{members_in};

use crate::event::{
    Begun, DayOver, DayRefused, Event, JobBegun, JobEnd, JobKind, JobOver, LevelLeft, LoggedHalt,
    LoggedReply, NamedFile, Replier,
};
use crate::members::Members;
use crate::words::EventKind;
use jiff::Timestamp;
use json::{Error, Scratch, Value};
use std::alloc::{AllocError, Global};

/// The event of a line; `None` if the line is no object of an event with a time. It is refused only if memory runs out.
pub(crate) fn event_of(alloc: Global, line: &str) -> Result<Option<Event>, AllocError>
    ensures { IfOk result (λ found. option_map said_of found ≡ said_on line.now) }
{
    let mut scratch = Scratch::new(alloc);
    match Value::parse(alloc, line, &mut scratch) {
        Ok(value) => event_of_value(alloc, &value),
        Err(fault) => no_event(fault),
    }
}

/// What a line says that can't be parsed: no event, unless memory runs out.
fn no_event(fault: Error) -> Result<Option<Event>, AllocError>
    ensures { IfOk result (λ found. (found ≡ None) × (fault ≢ OutOfMemory)) }
{
    match fault {
        Error::OutOfMemory => Err(AllocError),
        Error::Invalid => Ok(None),
        Error::TooLong => Ok(None),
        Error::DuplicateKey => Ok(None),
    }
}

/// The event that a value says.
fn event_of_value(alloc: Global, value: &Value<'_>) -> Result<Option<Event>, AllocError>
    ensures { IfOk result (λ found. option_map said_of found ≡ option_and_then said_in (as_object (value_view value.now))) }
{
    match Members::of(value) {
        Some(members) => event_in(alloc, members),
        None => Ok(None),
    }
}

/// The event of an object that has a time.
fn event_in(alloc: Global, line: Members<'_, '_>) -> Result<Option<Event>, AllocError>
    ensures { IfOk result (λ found. option_map said_of found ≡ said_in (members_in line.entry)) }
{
    match line.text("at") {
        Some(at) => timed_event(alloc, at, line),
        None => Ok(None),
    }
}

/// Whether a text is a time.
fn is_time(text: &str) -> bool
    ensures { result ≡ is_time_spec text.now }
{
    text.parse::<Timestamp>().is_ok()
}

/// The event of an object, if its time is one.
fn timed_event(alloc: Global, at: &str, line: Members<'_, '_>) -> Result<Option<Event>, AllocError>
    ensures { IfOk result (λ found. option_map said_of found ≡ timed at.now (members_in line.entry)) }
{
    if !is_time(at) {
        return Ok(None);
    }
    match line.text("event") {
        Some(word) => named_event(alloc, word, line),
        None => Ok(None),
    }
}

/// The event of an object, by the word for its kind.
fn named_event(
    alloc: Global,
    word: &str,
    line: Members<'_, '_>,
) -> Result<Option<Event>, AllocError>
    ensures { IfOk result (λ found. option_map said_of found ≡ said_by word.now (members_in line.entry)) }
{
    match EventKind::of_word(word) {
        Some(kind) => event_of_kind(alloc, kind, line),
        None => Ok(None),
    }
}

/// The event of an object, by its kind.
fn event_of_kind(
    alloc: Global,
    kind: EventKind,
    line: Members<'_, '_>,
) -> Result<Option<Event>, AllocError>
    ensures { IfOk result (λ found. option_map said_of found ≡ said_as kind (members_in line.entry)) }
{
    match kind {
        EventKind::Begin => begin(alloc, line),
        EventKind::JobBegins => job_begins(alloc, line),
        EventKind::JobEnds => Ok(job_over(line).map(|job| Event::JobEnds(job))),
        EventKind::Halt => Ok(halt(line).map(|halt| Event::Halt(halt))),
        EventKind::Reply => Ok(reply(line).map(|reply| Event::Reply(reply))),
        EventKind::Cut => Ok(line.level().map(|level| Event::Cut { level })),
        EventKind::Stop => Ok(Some(Event::Stop)),
        EventKind::Left => left(alloc, line),
        EventKind::Declined => Ok(Some(Event::Declined)),
        EventKind::Saving => saving(alloc, line),
        EventKind::End => day_over(alloc, line),
        EventKind::Refused => refused(alloc, line),
    }
}

/// The beginning of a day.
fn begin(alloc: Global, line: Members<'_, '_>) -> Result<Option<Event>, AllocError>
    ensures { IfOk result (λ found. option_map said_of found ≡ said_as EventKind.Begin (members_in line.entry)) }
{
    let Some(day) = line.members("day") else {
        return Ok(None);
    };
    match begun(alloc, day)? {
        Some(day) => Ok(Some(Event::Begin { day })),
        None => Ok(None),
    }
}

/// With what a day was begun.
fn begun(alloc: Global, day: Members<'_, '_>) -> Result<Option<Begun>, AllocError>
    ensures { IfOk result (λ found. option_map day_of found ≡ day_in (members_in day.entry)) }
{
    let words = texts(alloc, day, "words")?;
    let pack = optional_file(alloc, day, "pack")?;
    let deck1 = files(alloc, day, "deck1")?;
    let deck2 = files(alloc, day, "deck2")?;
    Ok(begun_of(words, pack, deck1, deck2))
}

/// With what a day was begun, if each of its parts is there.
fn begun_of(
    words: Option<Vec<String>>,
    pack: Option<Option<NamedFile>>,
    deck1: Option<Vec<NamedFile>>,
    deck2: Option<Vec<NamedFile>>,
) -> Option<Begun>
    ensures { option_map day_of result ≡ day_if_whole (option_map texts_of words) (option_map (option_map file_of) pack) (option_map files_of deck1) (option_map files_of deck2) }
{
    Some(Begun {
        words: words?,
        pack: pack?,
        deck1: deck1?,
        deck2: deck2?,
    })
}

/// The beginning of a job.
fn job_begins(alloc: Global, line: Members<'_, '_>) -> Result<Option<Event>, AllocError>
    ensures { IfOk result (λ found. option_map said_of found ≡ said_as EventKind.JobBegins (members_in line.entry)) }
{
    let Some(level) = line.level() else {
        return Ok(None);
    };
    let Some(job) = line.short("job") else {
        return Ok(None);
    };
    let Some(kind) = job_kind(line) else {
        return Ok(None);
    };
    let Some(card) = line.short("card") else {
        return Ok(None);
    };
    let Some(program) = line.optional_text("program") else {
        return Ok(None);
    };
    Ok(Some(Event::JobBegins(JobBegun {
        level,
        job,
        kind,
        program: optional_string(alloc, program)?,
        card,
    })))
}

/// What a job is for, `Some(None)` if the line doesn't have it.
fn job_kind(line: Members<'_, '_>) -> Option<Option<JobKind>>
    ensures { result ≡ job_kind_in (members_in line.entry) }
{
    match line.optional_text("kind")? {
        Some(word) => Some(Some(JobKind::of_word(word)?)),
        None => Some(None),
    }
}

/// A text that is there, as a string.
fn optional_string(alloc: Global, text: Option<&str>) -> Result<Option<String>, AllocError>
    ensures { IfOk result (λ string. option_map string_bytes string ≡ option_copied text.entry) }
{
    match text {
        Some(text) => Ok(Some(String::from_str(alloc, text)?)),
        None => Ok(None),
    }
}

/// A job that is over.
fn job_over(line: Members<'_, '_>) -> Option<JobOver>
    ensures { result ≡ job_over_in (members_in line.entry) }
{
    Some(JobOver {
        level: line.level()?,
        job: line.short("job")?,
        lines: line.number("lines")?,
        end: JobEnd::of_word(line.text("end")?)?,
    })
}

/// A halt that waits.
fn halt(line: Members<'_, '_>) -> Option<LoggedHalt>
    ensures { result ≡ halt_said (members_in line.entry) }
{
    Some(LoggedHalt {
        level: line.level()?,
        job: line.short("job")?,
        code: line.code()?,
        card: line.optional_short("card")?,
    })
}

/// A reply that was given.
fn reply(line: Members<'_, '_>) -> Option<LoggedReply>
    ensures { result ≡ reply_said (members_in line.entry) }
{
    Some(LoggedReply {
        level: line.level()?,
        code: line.code()?,
        digit: line.byte("digit")?,
        by: Replier::of_word(line.text("by")?)?,
    })
}

/// What is left of a level.
fn left(alloc: Global, line: Members<'_, '_>) -> Result<Option<Event>, AllocError>
    ensures { IfOk result (λ found. option_map said_of found ≡ said_as EventKind.Left (members_in line.entry)) }
{
    let Some(level) = line.level() else {
        return Ok(None);
    };
    let Some(job) = line.optional_short("job") else {
        return Ok(None);
    };
    let Some(from) = line.optional_text("from") else {
        return Ok(None);
    };
    Ok(Some(Event::Left(LevelLeft {
        level,
        job,
        from: optional_string(alloc, from)?,
    })))
}

/// The event that the pack is going to be saved.
fn saving(alloc: Global, line: Members<'_, '_>) -> Result<Option<Event>, AllocError>
    ensures { IfOk result (λ found. option_map said_of found ≡ said_as EventKind.Saving (members_in line.entry)) }
{
    let Some(pack) = line.members("pack") else {
        return Ok(None);
    };
    match file(alloc, pack)? {
        Some(pack) => Ok(Some(Event::Saving { pack })),
        None => Ok(None),
    }
}

/// The end of a day.
fn day_over(alloc: Global, line: Members<'_, '_>) -> Result<Option<Event>, AllocError>
    ensures { IfOk result (λ found. option_map said_of found ≡ end_said (members_in line.entry)) }
{
    let Some(status) = line.byte("status") else {
        return Ok(None);
    };
    match optional_file(alloc, line, "saved")? {
        Some(saved) => Ok(Some(Event::End(DayOver { status, saved }))),
        None => Ok(None),
    }
}

/// The refusal of a day.
fn refused(alloc: Global, line: Members<'_, '_>) -> Result<Option<Event>, AllocError>
    ensures { IfOk result (λ found. option_map said_of found ≡ said_as EventKind.Refused (members_in line.entry)) }
{
    let Some(status) = line.byte("status") else {
        return Ok(None);
    };
    let Some(told) = line.text("line") else {
        return Ok(None);
    };
    Ok(Some(Event::Refused(DayRefused {
        status,
        line: String::from_str(alloc, told)?,
    })))
}

/// A file.
fn file(alloc: Global, file: Members<'_, '_>) -> Result<Option<NamedFile>, AllocError>
    ensures { IfOk result (λ found. option_map file_of found ≡ file_in (members_in file.entry)) }
{
    let Some(name) = file.text("name") else {
        return Ok(None);
    };
    let Some(sha256) = file.text("sha256") else {
        return Ok(None);
    };
    Ok(Some(NamedFile {
        name: String::from_str(alloc, name)?,
        sha256: String::from_str(alloc, sha256)?,
    }))
}

/// The file of a name, `Some(None)` if there is none.
fn optional_file(
    alloc: Global,
    members: Members<'_, '_>,
    name: &str,
) -> Result<Option<Option<NamedFile>>, AllocError>
    ensures { IfOk result (λ found. option_map (option_map file_of) found ≡ optional_file_in name.now (members_in members.entry)) }
{
    match members.optional_members(name) {
        None => Ok(None),
        Some(None) => Ok(Some(None)),
        Some(Some(found)) => match file(alloc, found)? {
            Some(file) => Ok(Some(Some(file))),
            None => Ok(None),
        },
    }
}

/// The file that a value says.
fn file_of_value(alloc: Global, value: &Value<'_>) -> Result<Option<NamedFile>, AllocError>
    ensures { IfOk result (λ found. option_map file_of found ≡ file_at (value_view value.now)) }
{
    match Members::of(value) {
        Some(members) => file(alloc, members),
        None => Ok(None),
    }
}

/// The files of the list of a name.
fn files(
    alloc: Global,
    members: Members<'_, '_>,
    name: &str,
) -> Result<Option<Vec<NamedFile>>, AllocError>
    ensures { IfOk result (λ found. option_map files_of found ≡ files_in name.now (members_in members.entry)) }
{
    match members.list(name) {
        Some(list) => files_of_list(alloc, list),
        None => Ok(None),
    }
}

#[tactic(auto, using(crate::proofs::ListLemmas::read_more, crate::proofs::ListLemmas::read_stops))]
fn files_of_list(alloc: Global, list: &[Value<'_>]) -> Result<Option<Vec<NamedFile>>, AllocError>
    ensures { IfOk result (λ found. option_map files_of found ≡ read_each file_at (items_view list.now)) }
{
    let mut files = Vec::new(alloc);
    for item in list {
        match file_of_value(alloc, item)? {
            Some(file) => files.push(file)?,
            None => return Ok(None),
        }
    }
    Ok(Some(files))
}

/// The texts of the list of a name.
fn texts(
    alloc: Global,
    members: Members<'_, '_>,
    name: &str,
) -> Result<Option<Vec<String>>, AllocError>
    ensures { IfOk result (λ found. option_map texts_of found ≡ texts_in name.now (members_in members.entry)) }
{
    match members.list(name) {
        Some(list) => texts_of_list(alloc, list),
        None => Ok(None),
    }
}

#[tactic(auto, using(crate::proofs::ListLemmas::read_more, crate::proofs::ListLemmas::read_stops))]
fn texts_of_list(alloc: Global, list: &[Value<'_>]) -> Result<Option<Vec<String>>, AllocError>
    ensures { IfOk result (λ found. option_map texts_of found ≡ read_each as_str (items_view list.now)) }
{
    let mut texts = Vec::new(alloc);
    for item in list {
        match item.as_str() {
            Some(text) => texts.push(String::from_str(alloc, text)?)?,
            None => return Ok(None),
        }
    }
    Ok(Some(texts))
}
