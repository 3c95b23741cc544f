//! A line of the journal that is written.
ghost use Rattle.std.specs.Prelude.{◌≡◌, [], ◌∷◌, ◌++◌, IfOk, map, option_map};
ghost use Rattle.std.specs.Option.{option_copied};
ghost use Rattle.std.specs.String.{string_bytes};
ghost use Rattle.json.specs.Token.{key};
ghost use Rattle.json.specs.Print.{print};
ghost use Rattle.json.specs.Tree.{json_tokens};
ghost use Rattle.s3_journal.specs.Inner.Days.{day_of, did_of};
ghost use Rattle.s3_journal.specs.Inner.Digests.{digest_of};
ghost use Rattle.s3_journal.specs.Inner.Lines.{day_pairs, did_pairs, digest_pairs, level_tree, line_of as line_of_spec, text_or_null as text_or_null_spec, text_with as text_with_spec, tree_of};
ghost use Rattle.s3_journal.specs.Inner.Written.{Appends, json_of, pairs_in, pairs_tokens};

use crate::chain::checksum_of;
use crate::day::{Appended, LevelCount, Operated, PostedDay, Ran, Work};
use json::Writer;
use std::alloc::{AllocError, Global};

/// The line of a day, with its line feed, given the line before it, without its line feed; an empty text before the first one.
pub fn line_of(alloc: Global, day: &PostedDay, before: &str) -> Result<String, AllocError>
    ensures { IfOk result (λ line. string_bytes line ≡ line_of_spec (day_of day.now) (digest_of before.now)) }
{
    let previous = checksum_of(alloc, before.as_bytes())?;
    let said = text_with(alloc, day, previous.as_str(), None)?;
    let sum = checksum_of(alloc, said.as_bytes())?;
    let mut line = text_with(alloc, day, previous.as_str(), Some(sum.as_str()))?;
    line.push('\n')?;
    Ok(line)
}

/// A day as text, given the checksum of the line before, and the line's own checksum if it gets one.
pub(crate) fn text_with(
    alloc: Global,
    day: &PostedDay,
    previous: &str,
    sum: Option<&str>,
) -> Result<String, AllocError>
    ensures { IfOk result (λ text. string_bytes text ≡ text_with_spec (day_of day.now) previous.now (option_copied sum.entry)) }
{
    let mut line = Line {
        json: Writer::new(Vec::new(alloc)),
    };
    line.record(day, previous, sum)?;
    line.ended()
}

/// A part of a line.
#[derive(Clone, Copy)]
enum Part<'a> {
    /// A text.
    Text(&'a str),
    /// A number.
    Number(u64),
    /// What a level did.
    Level(LevelCount),
    /// What there isn't.
    Nothing,
}

/// A text that there may be.
fn text_or_null(text: &Option<String>) -> Part<'_>
    ensures { json_of result ≡ text_or_null_spec (option_map string_bytes text.now) }
{
    match text {
        Some(text) => Part::Text(text.as_str()),
        None => Part::Nothing,
    }
}

/// A line that is being written.
#[derive(Drop)]
struct Line {
    json: Writer,
}

impl Line {
    /// Writes a day as one object, given these checksums.
    fn record(
        &mut self,
        day: &PostedDay,
        previous: &str,
        sum: Option<&str>,
    ) -> Result<(), AllocError>
        ensures { Appends result self.old.json self.new.json (json_tokens (tree_of (day_of day.now) previous.now (option_copied sum.entry))) }
    {
        self.json.begin_object()?;
        self.day(day)?;
        self.work(&day.work)?;
        self.digests(previous, sum)?;
        self.json.end_object()
    }

    /// Its text.
    fn ended(self) -> Result<String, AllocError>
        ensures { IfOk result (λ line. string_bytes line ≡ self.json.before ++ print self.json.tokens) }
    {
        match String::from_utf8(self.json.into_inner()) {
            Ok(text) => Ok(text),
            Err(_) => Err(AllocError),
        }
    }

    /// Writes the checksums of the line before and of the line itself.
    fn digests(&mut self, previous: &str, sum: Option<&str>) -> Result<(), AllocError>
        ensures { Appends result self.old.json self.new.json (pairs_tokens (digest_pairs previous.now (option_copied sum.entry))) }
    {
        match sum {
            Some(sum) => self.members(&[
                ("previous", Part::Text(previous)),
                ("sum", Part::Text(sum)),
            ]),
            None => self.members(&[("previous", Part::Text(previous))]),
        }
    }

    /// Writes a value.
    fn value(&mut self, part: Part<'_>) -> Result<(), AllocError>
        ensures { Appends result self.old.json self.new.json (json_tokens (json_of part.entry)) }
    {
        match part {
            Part::Text(text) => self.json.string(text),
            Part::Number(number) => self.json.u64(number),
            Part::Level(count) => self.level(count),
            Part::Nothing => self.json.null(),
        }
    }

    /// Writes what a level did.
    fn level(&mut self, count: LevelCount) -> Result<(), AllocError>
        ensures { Appends result self.old.json self.new.json (json_tokens (level_tree count)) }
    {
        self.json.begin_object()?;
        self.json.key("jobs")?;
        self.json.u64(count.jobs)?;
        self.json.key("lines")?;
        self.json.u64(count.lines)?;
        self.json.end_object()
    }

    /// Writes a member.
    fn member(&mut self, name: &str, part: Part<'_>) -> Result<(), AllocError>
        ensures { Appends result self.old.json self.new.json (key name.now ∷ json_tokens (json_of part.entry)) }
    {
        self.json.key(name)?;
        self.value(part)
    }

    /// Writes members.
    fn members(&mut self, parts: &[(&str, Part<'_>)]) -> Result<(), AllocError>
        ensures { Appends result self.old.json self.new.json (pairs_tokens (pairs_in parts.now)) }
    {
        for member in parts {
            self.member(member.0, member.1)?;
        }
        Ok(())
    }

    /// Writes what each line has.
    fn day(&mut self, day: &PostedDay) -> Result<(), AllocError>
        ensures { Appends result self.old.json self.new.json (pairs_tokens (day_pairs (day_of day.now))) }
    {
        self.members(&[
            ("day", Part::Number(day.number)),
            ("at", Part::Text(day.at.as_str())),
            ("command", Part::Text(day.work.command())),
            ("before", Part::Text(day.before.as_str())),
            ("after", Part::Text(day.after.as_str())),
            ("status", Part::Number(u64::from(day.status))),
        ])
    }

    /// Writes what only the lines of this command have.
    fn work(&mut self, work: &Work) -> Result<(), AllocError>
        ensures { Appends result self.old.json self.new.json (pairs_tokens (did_pairs (did_of work.now))) }
    {
        match work {
            Work::Operate(day) => self.operated(day),
            Work::Run(session) => self.ran(session),
            Work::Append(added) => self.appended(added),
            Work::Load => Ok(()),
            Work::Sort => Ok(()),
            Work::Delete => Ok(()),
            Work::Copy => Ok(()),
            Work::Amend => Ok(()),
            Work::Restore => Ok(()),
        }
    }

    fn operated(&mut self, day: &Operated) -> Result<(), AllocError>
        ensures { Appends result self.old.json self.new.json (pairs_tokens (did_pairs (did_of (Work.Operate day.now)))) }
    {
        self.members(&[
            ("deck1", Part::Text(day.deck1.as_str())),
            ("deck2", Part::Text(day.deck2.as_str())),
            ("rules", text_or_null(&day.rules)),
            ("replies", Part::Text(day.replies.as_str())),
            ("level1", Part::Level(day.one)),
            ("level2", Part::Level(day.two)),
        ])
    }

    fn ran(&mut self, session: &Ran) -> Result<(), AllocError>
        ensures { Appends result self.old.json self.new.json (pairs_tokens (did_pairs (did_of (Work.Run session.now)))) }
    {
        self.members(&[
            ("deck1", Part::Text(session.deck1.as_str())),
            ("deck2", Part::Text(session.deck2.as_str())),
            ("script", Part::Text(session.script.as_str())),
        ])
    }

    fn appended(&mut self, added: &Appended) -> Result<(), AllocError>
        ensures { Appends result self.old.json self.new.json (pairs_tokens (did_pairs (did_of (Work.Append added.now)))) }
    {
        self.members(&[
            ("table", Part::Text(added.table.as_str())),
            ("file", Part::Text(added.file.as_str())),
        ])
    }
}
