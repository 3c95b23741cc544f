//! `bureau journal --json`: a line of JSON for each line of a journal.

use json::Writer;
use s3_journal::{LevelCount, PostedDay, Saved, Work};
use std::alloc::{AllocError, Global};

/// A line of a journal as an object, with the line feed, given the name of the journal, whether the pack was saved that the line's command
/// left, and the file in which it is kept, if one is known.
pub fn json_line(
    alloc: Global,
    journal: &str,
    day: &PostedDay,
    saved: Saved,
    kept: Option<&str>,
) -> Result<String, AllocError> {
    let mut object = Object {
        json: Writer::new(Vec::new(alloc)),
    };
    object.json.begin_object()?;
    object.text("journal", journal)?;
    object.day(day)?;
    object.done(&day.work)?;
    object.saved(saved)?;
    object.optional("kept", kept)?;
    object.json.end_object()?;
    object.ended()
}

/// An object that is being written.
#[derive(Drop)]
struct Object {
    json: Writer,
}

impl Object {
    /// Its text, with the line feed.
    fn ended(self) -> Result<String, AllocError> {
        match String::from_utf8(self.json.into_inner()) {
            Ok(mut text) => {
                text.push('\n')?;
                Ok(text)
            }
            Err(_) => Err(AllocError),
        }
    }

    fn text(&mut self, name: &str, text: &str) -> Result<(), AllocError> {
        self.json.key(name)?;
        self.json.string(text)
    }

    fn optional(&mut self, name: &str, text: Option<&str>) -> Result<(), AllocError> {
        match text {
            Some(text) => self.text(name, text),
            None => self.null(name),
        }
    }

    fn null(&mut self, name: &str) -> Result<(), AllocError> {
        self.json.key(name)?;
        self.json.null()
    }

    fn number(&mut self, name: &str, number: u64) -> Result<(), AllocError> {
        self.json.key(name)?;
        self.json.u64(number)
    }

    /// What each line has.
    fn day(&mut self, day: &PostedDay) -> Result<(), AllocError> {
        self.number("day", day.number)?;
        self.text("at", day.at.as_str())?;
        self.text("command", day.work.command())?;
        self.number("status", day.status.into())?;
        self.text("before", day.before.as_str())?;
        self.text("after", day.after.as_str())
    }

    /// What the command did: the levels of a day, and the file to which a table was added; null for other commands.
    fn done(&mut self, work: &Work) -> Result<(), AllocError> {
        let (one, two) = levels_of(work);
        self.level("level1", one)?;
        self.level("level2", two)?;
        self.optional("file", file_of(work))
    }

    /// Whether the pack was saved that the command left; null if this isn't known.
    fn saved(&mut self, saved: Saved) -> Result<(), AllocError> {
        self.json.key("saved")?;
        match saved {
            Saved::IsSaved => self.json.boolean(true),
            Saved::NotSaved => self.json.boolean(false),
            Saved::NotKnown => self.json.null(),
        }
    }

    fn level(&mut self, name: &str, count: Option<LevelCount>) -> Result<(), AllocError> {
        let Some(count) = count else {
            return self.null(name);
        };
        self.json.key(name)?;
        self.json.begin_object()?;
        self.number("jobs", count.jobs)?;
        self.number("lines", count.lines)?;
        self.json.end_object()
    }
}

/// What both levels did, if they did a day.
fn levels_of(work: &Work) -> (Option<LevelCount>, Option<LevelCount>) {
    match work {
        Work::Operate(day) => (Some(day.one), Some(day.two)),
        _ => (None, None),
    }
}

/// The file to which a table was added, if one was.
fn file_of(work: &Work) -> Option<&str> {
    match work {
        Work::Append(added) => Some(added.file.as_str()),
        _ => None,
    }
}
