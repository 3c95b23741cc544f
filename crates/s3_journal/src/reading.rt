//! A journal that is read.
ghost use Rattle.std.specs.Prelude.{◌≡◌, ◌≢◌, Some, None, IfOk, OnOk, map, option_map, option_and_then};
ghost use Rattle.std.specs.Option.{option_copied};
ghost use Rattle.std.specs.String.{string_bytes};
ghost use Rattle.json.specs.Find.{as_object};
ghost use Rattle.json.specs.Value.{value_view};
ghost use Rattle.json.specs.declared.error.Error.TheVariants.{OutOfMemory};
ghost use Rattle.s3_journal.specs.declared.reading.JournalFault.TheVariants.{NoMemory};
ghost use Rattle.s3_journal.specs.Inner.Days.{day_of, did_of};
ghost use Rattle.s3_journal.specs.Inner.Journals.{IsChained, IsRead, Reads, Takes, chained, is_as_written as is_as_written_spec, may_begin_line as may_begin_line_spec, said_of};
ghost use Rattle.s3_journal.specs.Inner.Lines.{appended_if, count_in, day_in as day_in_spec, did_by, did_if, did_in, level_in, loaded_in, operated_in, ran_in, said_in as said_in_spec, said_on};
ghost use Rattle.s3_journal.specs.Inner.Views.{members_in};

use crate::chain::{checksum_of, follows};
use crate::day::{Appended, LevelCount, Operated, PostedDay, Ran, Work};
use crate::members::Members;
use crate::writing::text_with;
use json::{Error, Scratch, Value};
use std::alloc::{AllocError, AllocFailed, Global};
use thiserror::Error;

/// Why a text is no journal.
#[derive(Clone, Copy, Debug, Error)]
pub enum JournalFault {
    /// There is no memory for it.
    #[error("out of memory")]
    NoMemory,
    /// This line, from 1, isn't a line of a journal.
    #[error("line {0} is no line of a journal")]
    Line(usize),
    /// This line, from 1, doesn't name the line before it: one of both was changed, or a line between them is lost.
    #[error("line {0} doesn't follow the line before it, so that a line was changed or is lost")]
    Chain(usize),
    /// This line, from 1, was changed: its digest, `sum`, isn't that of what it says.
    #[error("line {0} was changed: its digest, sum, isn't that of what it says")]
    Changed(usize),
}

impl From<AllocError> for JournalFault {
    ghost from_gives = { λ _ fault. fault ≡ NoMemory };

    fn from(_: AllocError) -> JournalFault {
        JournalFault::NoMemory
    }
}

impl<T: Drop> From<AllocFailed<T>> for JournalFault {
    ghost from_gives = { λ _ fault. fault ≡ NoMemory };

    fn from(_: AllocFailed<T>) -> JournalFault {
        JournalFault::NoMemory
    }
}

/// The lines of a journal.
#[derive(Drop)]
pub struct Lines<'t> {
    /// Their days, the last one first.
    pub days: Vec<PostedDay>,
    /// The last line, without its line feed; empty if there is none.
    pub last: &'t str,
    /// How many bytes the lines have. Bytes after them are a line that a crash left in part.
    pub bytes: usize,
}

/// A line: a day, and the checksums of the line before and of the line itself. Lines of the first release have no checksum of their own.
#[derive(Drop)]
pub(crate) struct ReadLine {
    day: PostedDay,
    previous: String,
    sum: Option<String>,
}

impl ReadLine {
    /// Whether the line says what was written, by its own checksum.
    fn is_as_written(&self, alloc: Global) -> Result<bool, AllocError>
        ensures { IfOk result (λ is. is ≡ is_as_written_spec (said_of self.now)) }
    {
        match &self.sum {
            Some(sum) => {
                let text = text_with(alloc, &self.day, self.previous.as_str(), None)?;
                let own = checksum_of(alloc, text.as_bytes())?;
                Ok(sum.as_str() == own.as_str())
            }
            None => Ok(true),
        }
    }
}

/// How each line begins.
const BEGINNING: &[u8] = b"{\"day\":";

/// The lines of a text. A last line without its end was left by a crash, if it begins as a line does, and isn't looked at.
pub fn read_lines<'t>(alloc: Global, text: &'t str) -> Result<Lines<'t>, JournalFault>
    ensures { IsRead text.entry.now result }
{
    let mut lines = Lines {
        days: Vec::new(alloc),
        last: "",
        bytes: 0,
    };
    let mut scratch = Scratch::new(alloc);
    let rest = lines.take_all(alloc, text, &mut scratch)?;
    if !may_begin_line(rest.as_bytes()) {
        return Err(JournalFault::Line(lines.days.len().saturating_add(1)));
    }
    lines.days.reverse();
    lines.bytes = text.len().saturating_sub(rest.len());
    Ok(lines)
}

/// Whether a text may be the first part of a line.
fn may_begin_line(text: &[u8]) -> bool
    ensures { result ≡ may_begin_line_spec text.now }
{
    text.starts_with(BEGINNING) || BEGINNING.starts_with(text)
}

impl<'t> Lines<'t> {
    /// Takes all lines of a text that end, and gives what follows them.
    fn take_all(
        &mut self,
        alloc: Global,
        text: &'t str,
        scratch: &mut Scratch,
    ) -> Result<&'t str, JournalFault>
        ensures { Reads self.old self.new text.entry.now result }
    {
        let mut rest = text;
        while let Some((line, after)) = rest.split_once('\n') {
            self.take(alloc, line, scratch)?;
            rest = after;
        }
        Ok(rest)
    }

    /// Takes the next line.
    fn take(
        &mut self,
        alloc: Global,
        line: &'t str,
        scratch: &mut Scratch,
    ) -> Result<(), JournalFault>
        ensures taken { Takes (chained self.old.last.now (said_on line.entry.now)) (map day_of self.old.days.items) (map day_of self.new.days.items) result }
        ensures last { OnOk result (self.new.last ≡ line.entry) }
    {
        let number = self.days.len().saturating_add(1);
        let day = chained_day(alloc, line, self.last, number, scratch)?;
        self.days.push(day)?;
        self.last = line;
        Ok(())
    }
}

/// The day of a line that follows the line before it, and says what was written.
fn chained_day(
    alloc: Global,
    line: &str,
    before: &str,
    number: usize,
    scratch: &mut Scratch,
) -> Result<PostedDay, JournalFault>
    ensures { IsChained (chained before.now (said_on line.now)) result }
{
    let Some(found) = said_of_line(alloc, line, scratch)? else {
        return Err(JournalFault::Line(number));
    };
    if !follows(alloc, found.previous.as_str(), before)? {
        return Err(JournalFault::Chain(number));
    }
    if !found.is_as_written(alloc)? {
        return Err(JournalFault::Changed(number));
    }
    Ok(found.day)
}

/// What a line says; `None` if it is no line of a journal. It is refused only if memory runs out.
fn said_of_line(
    alloc: Global,
    line: &str,
    scratch: &mut Scratch,
) -> Result<Option<ReadLine>, AllocError>
    ensures { IfOk result (λ found. option_map said_of found ≡ said_on line.now) }
{
    match Value::parse(alloc, line, scratch) {
        Ok(value) => said_of_value(alloc, &value),
        Err(fault) => nothing_said(fault),
    }
}

/// What a line says that can't be parsed: nothing, unless memory runs out.
fn nothing_said(fault: Error) -> Result<Option<ReadLine>, AllocError>
    ensures { IfOk result (λ found. (found ≡ None) × (fault ≢ OutOfMemory)) }
{
    match fault {
        Error::OutOfMemory => Err(AllocError),
        Error::Invalid => Ok(None),
        Error::TooLong => Ok(None),
        Error::DuplicateKey => Ok(None),
    }
}

/// What a value says.
fn said_of_value(alloc: Global, value: &Value<'_>) -> Result<Option<ReadLine>, AllocError>
    ensures { IfOk result (λ found. option_map said_of found ≡ option_and_then said_in_spec (as_object (value_view value.now))) }
{
    match Members::of(value) {
        Some(members) => said_in(alloc, members),
        None => Ok(None),
    }
}

/// What an object says.
fn said_in(alloc: Global, line: Members<'_, '_>) -> Result<Option<ReadLine>, AllocError>
    ensures { IfOk result (λ found. option_map said_of found ≡ said_in_spec (members_in line.entry)) }
{
    let Some(previous) = line.text("previous") else {
        return Ok(None);
    };
    let Some(sum) = line.optional_text("sum") else {
        return Ok(None);
    };
    match day_in(alloc, line)? {
        Some(day) => Ok(Some(ReadLine {
            day,
            previous: String::from_str(alloc, previous)?,
            sum: optional_string(alloc, sum)?,
        })),
        None => Ok(None),
    }
}

/// The day of an object.
fn day_in(alloc: Global, line: Members<'_, '_>) -> Result<Option<PostedDay>, AllocError>
    ensures { IfOk result (λ found. option_map day_of found ≡ day_in_spec (members_in line.entry)) }
{
    let Some(number) = line.number("day") else {
        return Ok(None);
    };
    let Some(at) = line.text("at") else {
        return Ok(None);
    };
    let Some(before) = line.text("before") else {
        return Ok(None);
    };
    let Some(after) = line.text("after") else {
        return Ok(None);
    };
    let Some(status) = line.byte("status") else {
        return Ok(None);
    };
    match work_in(alloc, line)? {
        Some(work) => Ok(Some(PostedDay {
            number,
            at: String::from_str(alloc, at)?,
            before: String::from_str(alloc, before)?,
            after: String::from_str(alloc, after)?,
            work,
            status,
        })),
        None => Ok(None),
    }
}

/// What the command of a line did. A line without a command is of `operate`.
fn work_in(alloc: Global, line: Members<'_, '_>) -> Result<Option<Work>, AllocError>
    ensures { IfOk result (λ found. option_map did_of found ≡ did_in (members_in line.entry)) }
{
    match line.optional_text("command") {
        None => Ok(None),
        Some(command) => work_if(alloc, command, line),
    }
}

/// What a command did, given its name, if the line has one.
fn work_if(
    alloc: Global,
    command: Option<&str>,
    line: Members<'_, '_>,
) -> Result<Option<Work>, AllocError>
    ensures { IfOk result (λ found. option_map did_of found ≡ did_if (option_copied command.entry) (members_in line.entry)) }
{
    match command {
        None => operated(alloc, line),
        Some(word) => work_by(alloc, word, line),
    }
}

/// What a command did, given its name.
fn work_by(alloc: Global, word: &str, line: Members<'_, '_>) -> Result<Option<Work>, AllocError>
    ensures { IfOk result (λ found. option_map did_of found ≡ did_by word.now (members_in line.entry)) }
{
    match word {
        "operate" => operated(alloc, line),
        "run" => ran(alloc, line),
        "load" => loaded(alloc, line),
        "sort" => Ok(Some(Work::Sort)),
        "delete" => Ok(Some(Work::Delete)),
        "copy" => Ok(Some(Work::Copy)),
        "amend" => Ok(Some(Work::Amend)),
        "restore" => Ok(Some(Work::Restore)),
        _ => Ok(None),
    }
}

fn operated(alloc: Global, line: Members<'_, '_>) -> Result<Option<Work>, AllocError>
    ensures { IfOk result (λ found. option_map did_of found ≡ operated_in (members_in line.entry)) }
{
    let Some(deck1) = line.text("deck1") else {
        return Ok(None);
    };
    let Some(deck2) = line.text("deck2") else {
        return Ok(None);
    };
    let Some(rules) = line.optional_text("rules") else {
        return Ok(None);
    };
    let Some(replies) = line.text("replies") else {
        return Ok(None);
    };
    let Some(one) = level(line, "level1") else {
        return Ok(None);
    };
    let Some(two) = level(line, "level2") else {
        return Ok(None);
    };
    Ok(Some(Work::Operate(Operated {
        deck1: String::from_str(alloc, deck1)?,
        deck2: String::from_str(alloc, deck2)?,
        rules: optional_string(alloc, rules)?,
        replies: String::from_str(alloc, replies)?,
        one,
        two,
    })))
}

/// A text that is there, as a string.
fn optional_string(alloc: Global, text: Option<&str>) -> Result<Option<String>, AllocError>
    ensures { IfOk result (λ string. option_map string_bytes string ≡ option_copied text.entry) }
{
    match text {
        Some(text) => Ok(Some(String::from_str(alloc, text)?)),
        None => Ok(None),
    }
}

fn ran(alloc: Global, line: Members<'_, '_>) -> Result<Option<Work>, AllocError>
    ensures { IfOk result (λ found. option_map did_of found ≡ ran_in (members_in line.entry)) }
{
    let Some(deck1) = line.text("deck1") else {
        return Ok(None);
    };
    let Some(deck2) = line.text("deck2") else {
        return Ok(None);
    };
    let Some(script) = line.text("script") else {
        return Ok(None);
    };
    Ok(Some(Work::Run(Ran {
        deck1: String::from_str(alloc, deck1)?,
        deck2: String::from_str(alloc, deck2)?,
        script: String::from_str(alloc, script)?,
    })))
}

fn loaded(alloc: Global, line: Members<'_, '_>) -> Result<Option<Work>, AllocError>
    ensures { IfOk result (λ found. option_map did_of found ≡ loaded_in (members_in line.entry)) }
{
    match line.optional_text("table") {
        None => Ok(None),
        Some(None) => Ok(Some(Work::Load)),
        Some(Some(table)) => appended(alloc, table, line),
    }
}

fn appended(alloc: Global, table: &str, line: Members<'_, '_>) -> Result<Option<Work>, AllocError>
    ensures { IfOk result (λ found. option_map did_of found ≡ appended_if (Some table.now) (members_in line.entry)) }
{
    let Some(file) = line.text("file") else {
        return Ok(None);
    };
    Ok(Some(Work::Append(Appended {
        table: String::from_str(alloc, table)?,
        file: String::from_str(alloc, file)?,
    })))
}

/// What a level did, by the object of a name.
fn level(line: Members<'_, '_>, name: &str) -> Option<LevelCount>
    ensures { result ≡ level_in name.now (members_in line.entry) }
{
    count(line.members(name)?)
}

fn count(level: Members<'_, '_>) -> Option<LevelCount>
    ensures { result ≡ count_in (members_in level.entry) }
{
    Some(LevelCount {
        jobs: level.number("jobs")?,
        lines: level.number("lines")?,
    })
}
