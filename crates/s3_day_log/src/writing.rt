//! A line of the log that is written.
ghost use Rattle.std.specs.Prelude.{◌≡◌, [], ◌∷◌, ◌++◌, IfOk, map, option_map};
ghost use Rattle.std.specs.String.{string_bytes};
ghost use Rattle.json.specs.Token.{key};
ghost use Rattle.json.specs.Json.{object, array};
ghost use Rattle.json.specs.Print.{print};
ghost use Rattle.json.specs.Tree.{json_tokens};
ghost use Rattle.s3_day_log.specs.Inner.Events.{begins, day_of, file_of, halts, job_ends, replies, said_of};
ghost use Rattle.s3_day_log.specs.Inner.Lines.{day_pairs, file_or_null as file_or_null_spec, file_tree, files_tree, job_kind_or_null as kind_or_null_spec, line_of as line_of_spec, members_of, pack_pair, pairs_of, text_or_null as text_or_null_spec, texts_tree, tree_of, whole_or_null};
ghost use Rattle.s3_day_log.specs.Inner.Times.{IsLineAt};
ghost use Rattle.s3_day_log.specs.Inner.Written.{Appends, json_of, pairs_in, pairs_tokens};

use crate::clock_text::utc_text;
use crate::event::{
    Begun, DayOver, DayRefused, Event, JobBegun, JobKind, JobOver, LevelLeft, LoggedHalt,
    LoggedReply, NamedFile,
};
use json::Writer;
use s3_cards::LevelId;
use s3_operator::{HaltCode, letters};
use std::alloc::{AllocError, Global};
use std::str;

/// The line of an event at a second since 1970, with its line feed. It is refused only if memory runs out.
pub fn line_at(alloc: Global, seconds: u64, event: Event) -> Result<String, AllocError>
    ensures { IfOk result (λ line. IsLineAt (record { second = seconds; said = said_of event }) (string_bytes line)) }
{
    let at = utc_text(alloc, seconds)?;
    line_of(alloc, at, event)
}

/// The line of an event at a time, with its line feed. The time is text, as `utc_text` gives it. It is refused only if memory runs out.
fn line_of(alloc: Global, at: String, event: Event) -> Result<String, AllocError>
    ensures { IfOk result (λ line. string_bytes line ≡ line_of_spec (string_bytes at) (said_of event)) }
{
    let mut line = Line {
        json: Writer::new(Vec::new(alloc)),
    };
    line.record(at.as_str(), &event)?;
    line.ended()
}

/// A part of an event.
#[derive(Clone, Copy)]
enum Part<'a> {
    /// A text.
    Text(&'a str),
    /// A number.
    Number(u64),
    /// A level, by its number.
    Level(LevelId),
    /// A halt, by its two letters.
    Code(HaltCode),
    /// A file.
    File(&'a NamedFile),
    /// A list of files.
    Files(&'a [NamedFile]),
    /// A list of texts.
    Texts(&'a [String]),
    /// What there isn't.
    Nothing,
}

/// A text that there may be.
fn text_or_null(text: &Option<String>) -> Part<'_>
    ensures { json_of result ≡ text_or_null_spec (option_map string_bytes text.now) }
{
    match text {
        Some(text) => Part::Text(text.as_str()),
        None => Part::Nothing,
    }
}

/// A kind of job that there may be.
fn kind_or_null<'a>(kind: Option<JobKind>) -> Part<'a>
    ensures { json_of result ≡ kind_or_null_spec kind }
{
    match kind {
        Some(kind) => Part::Text(kind.word()),
        None => Part::Nothing,
    }
}

/// A number that there may be.
fn number_or_null<'a>(number: Option<u16>) -> Part<'a>
    ensures { json_of result ≡ whole_or_null number }
{
    match number {
        Some(number) => Part::Number(u64::from(number)),
        None => Part::Nothing,
    }
}

/// A file that there may be.
fn file_or_null(file: &Option<NamedFile>) -> Part<'_>
    ensures { json_of result ≡ file_or_null_spec (option_map file_of file.now) }
{
    match file {
        Some(file) => Part::File(file),
        None => Part::Nothing,
    }
}

/// A line that is being written.
#[derive(Drop)]
struct Line {
    json: Writer,
}

impl Line {
    /// Writes an event at a time, as one object.
    fn record(&mut self, at: &str, event: &Event) -> Result<(), AllocError>
        ensures { Appends result self.old.json self.new.json (json_tokens (tree_of at.now (said_of event.now))) }
    {
        self.json.begin_object()?;
        self.members(&[("at", Part::Text(at))])?;
        self.event(event)?;
        self.json.end_object()
    }

    /// Its text, with the line feed.
    fn ended(self) -> Result<String, AllocError>
        ensures { IfOk result (λ line. string_bytes line ≡ self.json.before ++ (print self.json.tokens ++ 10 ∷ [])) }
    {
        match String::from_utf8(self.json.into_inner()) {
            Ok(mut text) => {
                text.push('\n')?;
                Ok(text)
            }
            Err(_) => Err(AllocError),
        }
    }

    /// Writes a value.
    fn value(&mut self, part: Part<'_>) -> Result<(), AllocError>
        ensures { Appends result self.old.json self.new.json (json_tokens (json_of part.entry)) }
    {
        match part {
            Part::Text(text) => self.json.string(text),
            Part::Number(number) => self.json.u64(number),
            Part::Level(level) => self.json.u64(u64::from(level.number())),
            Part::Code(code) => self.code(code),
            Part::File(file) => self.file(file),
            Part::Files(files) => self.files(files),
            Part::Texts(texts) => self.texts(texts),
            Part::Nothing => self.json.null(),
        }
    }

    /// Writes the letters of a halt.
    fn code(&mut self, code: HaltCode) -> Result<(), AllocError>
        ensures { Appends result self.old.json self.new.json (json_tokens (json_of (Part.Code code))) }
    {
        match str::from_utf8(&letters(code)) {
            Ok(letters) => self.json.string(letters),
            Err(_) => Err(AllocError),
        }
    }

    /// Writes a member.
    fn member(&mut self, name: &str, part: Part<'_>) -> Result<(), AllocError>
        ensures { Appends result self.old.json self.new.json (key name.now ∷ json_tokens (json_of part.entry)) }
    {
        self.json.key(name)?;
        self.value(part)
    }

    /// Writes members.
    fn members(&mut self, parts: &[(&str, Part<'_>)]) -> Result<(), AllocError>
        ensures { Appends result self.old.json self.new.json (pairs_tokens (pairs_in parts.now)) }
    {
        for member in parts {
            self.member(member.0, member.1)?;
        }
        Ok(())
    }

    /// Writes the members of an event.
    fn event(&mut self, event: &Event) -> Result<(), AllocError>
        ensures { Appends result self.old.json self.new.json (pairs_tokens (pairs_of (said_of event.now))) }
    {
        match event {
            Event::Begin { day } => self.begin(day),
            Event::JobBegins(job) => self.job_begun(job),
            Event::JobEnds(job) => self.job_over(job),
            Event::Halt(halt) => self.halt(halt),
            Event::Reply(reply) => self.reply(reply),
            Event::Cut { level } => {
                self.members(&[("event", Part::Text("cut")), ("level", Part::Level(*level))])
            }
            Event::Stop => self.members(&[("event", Part::Text("stop"))]),
            Event::Left(left) => self.left(left),
            Event::Declined => self.members(&[("event", Part::Text("declined"))]),
            Event::Saving { pack } => {
                self.members(&[("event", Part::Text("saving")), ("pack", Part::File(pack))])
            }
            Event::End(day) => self.day_over(day),
            Event::Refused(day) => self.refused(day),
        }
    }

    fn begin(&mut self, day: &Begun) -> Result<(), AllocError>
        ensures { Appends result self.old.json self.new.json (pairs_tokens (pairs_of (begins (day_of day.now)))) }
    {
        self.members(&[("event", Part::Text("begin"))])?;
        self.json.key("day")?;
        self.begun(day)
    }

    fn begun(&mut self, day: &Begun) -> Result<(), AllocError>
        ensures { Appends result self.old.json self.new.json (json_tokens (object (members_of (day_pairs (day_of day.now))))) }
    {
        self.json.begin_object()?;
        self.members(&[("words", Part::Texts(&day.words))])?;
        self.pack(&day.pack)?;
        self.members(&[
            ("deck1", Part::Files(&day.deck1)),
            ("deck2", Part::Files(&day.deck2)),
        ])?;
        self.json.end_object()
    }

    /// Writes the pack, if there is one.
    fn pack(&mut self, pack: &Option<NamedFile>) -> Result<(), AllocError>
        ensures { Appends result self.old.json self.new.json (pairs_tokens (pack_pair (option_map file_of pack.now))) }
    {
        match pack {
            Some(pack) => self.member("pack", Part::File(pack)),
            None => Ok(()),
        }
    }

    fn job_begun(&mut self, job: &JobBegun) -> Result<(), AllocError>
        ensures { Appends result self.old.json self.new.json (pairs_tokens (pairs_of (said_of (Event.JobBegins job.now)))) }
    {
        self.members(&[
            ("event", Part::Text("job_begins")),
            ("level", Part::Level(job.level)),
            ("job", Part::Number(u64::from(job.job))),
            ("kind", kind_or_null(job.kind)),
            ("program", text_or_null(&job.program)),
            ("card", Part::Number(u64::from(job.card))),
        ])
    }

    fn job_over(&mut self, job: &JobOver) -> Result<(), AllocError>
        ensures { Appends result self.old.json self.new.json (pairs_tokens (pairs_of (job_ends job.now))) }
    {
        self.members(&[
            ("event", Part::Text("job_ends")),
            ("level", Part::Level(job.level)),
            ("job", Part::Number(u64::from(job.job))),
            ("lines", Part::Number(job.lines)),
            ("end", Part::Text(job.end.word())),
        ])
    }

    fn halt(&mut self, halt: &LoggedHalt) -> Result<(), AllocError>
        ensures { Appends result self.old.json self.new.json (pairs_tokens (pairs_of (halts halt.now))) }
    {
        self.members(&[
            ("event", Part::Text("halt")),
            ("level", Part::Level(halt.level)),
            ("job", Part::Number(u64::from(halt.job))),
            ("code", Part::Code(halt.code)),
            ("card", number_or_null(halt.card)),
        ])
    }

    fn reply(&mut self, reply: &LoggedReply) -> Result<(), AllocError>
        ensures { Appends result self.old.json self.new.json (pairs_tokens (pairs_of (replies reply.now))) }
    {
        self.members(&[
            ("event", Part::Text("reply")),
            ("level", Part::Level(reply.level)),
            ("code", Part::Code(reply.code)),
            ("digit", Part::Number(u64::from(reply.digit))),
            ("by", Part::Text(reply.by.word())),
        ])
    }

    fn left(&mut self, left: &LevelLeft) -> Result<(), AllocError>
        ensures { Appends result self.old.json self.new.json (pairs_tokens (pairs_of (said_of (Event.Left left.now)))) }
    {
        self.members(&[
            ("event", Part::Text("left")),
            ("level", Part::Level(left.level)),
            ("job", number_or_null(left.job)),
            ("from", text_or_null(&left.from)),
        ])
    }

    fn day_over(&mut self, day: &DayOver) -> Result<(), AllocError>
        ensures { Appends result self.old.json self.new.json (pairs_tokens (pairs_of (said_of (Event.End day.now)))) }
    {
        self.members(&[
            ("event", Part::Text("end")),
            ("status", Part::Number(u64::from(day.status))),
            ("saved", file_or_null(&day.saved)),
        ])
    }

    fn refused(&mut self, day: &DayRefused) -> Result<(), AllocError>
        ensures { Appends result self.old.json self.new.json (pairs_tokens (pairs_of (said_of (Event.Refused day.now)))) }
    {
        self.members(&[
            ("event", Part::Text("refused")),
            ("status", Part::Number(u64::from(day.status))),
            ("line", Part::Text(day.line.as_str())),
        ])
    }

    /// Writes a list of texts.
    fn texts(&mut self, texts: &[String]) -> Result<(), AllocError>
        ensures { Appends result self.old.json self.new.json (json_tokens (array (texts_tree (map string_bytes texts.now)))) }
    {
        self.json.begin_array()?;
        for text in texts {
            self.json.string(text.as_str())?;
        }
        self.json.end_array()
    }

    /// Writes a list of files.
    fn files(&mut self, files: &[NamedFile]) -> Result<(), AllocError>
        ensures { Appends result self.old.json self.new.json (json_tokens (array (files_tree (map file_of files.now)))) }
    {
        self.json.begin_array()?;
        for file in files {
            self.file(file)?;
        }
        self.json.end_array()
    }

    /// Writes a file.
    fn file(&mut self, file: &NamedFile) -> Result<(), AllocError>
        ensures { Appends result self.old.json self.new.json (json_tokens (file_tree (file_of file.now))) }
    {
        self.json.begin_object()?;
        self.json.key("name")?;
        self.json.string(file.name.as_str())?;
        self.json.key("sha256")?;
        self.json.string(file.sha256.as_str())?;
        self.json.end_object()
    }
}
