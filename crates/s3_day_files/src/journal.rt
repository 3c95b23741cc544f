//! The journal of a pack: it is read and locked before the first turn, and gets its line before the pack is saved.

use crate::exchanged::report_exchanged;
use crate::fault::DayFault;
use crate::inputs::Decks;
use crate::order::Order;
use crate::outputs::limit_of;
use s3_day_log::checksum;
use s3_host_files::{FileFault, shown_name};
use s3_journal::{LevelCount, Operated, Posting, Work, checksum_of_deck};
use s3_journal_files::{GivenPack, JournalFile, JournalRefusal, MadeJournal, NewLine};
use s3_operating::Questioned;
use std::alloc::{AllocError, Global};

/// What to do if the decks are posted.
const AGAIN: &str = "to post them once more, give --again";

/// What happens if the decks are posted and `--once` is given.
const ONCE: &str = "nothing is done";

/// What the end of a day needs of its journal.
#[derive(Drop)]
pub struct DayJournal<'a> {
    file: JournalFile<'a>,
    given: Given,
}

/// The checksums of what a day begins with.
#[derive(Drop)]
pub struct Given {
    /// The pack.
    pack: String,
    /// Level 1's deck.
    deck1: String,
    /// Level 2's deck.
    deck2: String,
    /// The rules, if a file of them was given.
    rules: Option<String>,
}

/// What the journal says of a start.
#[derive(Drop)]
pub enum Begin<'a> {
    /// The day is done, and its line goes to the journal, if there is one.
    Day(Option<DayJournal<'a>>),
    /// The day is posted, and nothing is to be done.
    IsPosted,
}

impl Given {
    /// The checksums of a pack, of the cards of both decks as they are run, and of the rules. A pack whose checksum the log has isn't read for it.
    pub fn of(
        alloc: Global,
        order: &Order<'_>,
        pack: &[u8],
        decks: &Decks<'_>,
        rules: &[u8],
    ) -> Result<Given, AllocError> {
        let pack = match &decks.begun.pack {
            Some(read) => read.sha256.clone()?,
            None => checksum(alloc, pack)?,
        };
        let deck1 = checksum_of_deck(alloc, decks.one.text())?;
        let deck2 = checksum_of_deck(alloc, decks.two.text())?;
        let rules = match order.rules {
            Some(_) => Some(checksum(alloc, rules)?),
            None => None,
        };
        Ok(Given {
            pack,
            deck1,
            deck2,
            rules,
        })
    }

    fn posting(&self) -> Posting<'_> {
        Posting::Decks {
            one: self.deck1.as_str(),
            two: self.deck2.as_str(),
        }
    }
}

/// Opens the journal of a day, and refuses a day that it doesn't let begin, unless `--again` is given.
pub fn begin_day<'a>(
    rt: &HostRuntime,
    order: &Order<'a>,
    name: &'a str,
    given: Given,
) -> Result<Begin<'a>, DayFault<'a>> {
    let limit = limit_of(rt, order)?;
    let file = JournalFile::open(rt, name, limit)?;
    let journal = DayJournal { file, given };
    if order.does_again {
        journal.report_again(rt, order);
        return Ok(Begin::Day(Some(journal)));
    }
    match journal.test_start(rt, order) {
        Ok(()) => {
            report_exchanged(rt, journal.file.days(), journal.given.posting())?;
            Ok(Begin::Day(Some(journal)))
        }
        Err(JournalRefusal::Posted) if order.is_once => Ok(Begin::IsPosted),
        Err(refusal) => Err(DayFault::from(refusal)),
    }
}

impl<'a> DayJournal<'a> {
    fn test_start(&self, rt: &HostRuntime, order: &Order<'a>) -> Result<(), JournalRefusal<'a>> {
        let pack = GivenPack {
            name: pack_name(order),
            sum: self.given.pack.as_str(),
        };
        let cure = if order.is_once { ONCE } else { AGAIN };
        self.file.test_start(rt, pack, self.given.posting(), cure)
    }

    fn report_again(&self, rt: &HostRuntime, order: &Order<'a>) {
        let pack = GivenPack {
            name: pack_name(order),
            sum: self.given.pack.as_str(),
        };
        self.file.report_again(rt, pack, self.given.posting());
    }

    /// A second handle of the journal, if this day made it.
    pub fn made(&self) -> Option<MadeJournal<'a>> {
        self.file.made()
    }

    /// Ends the save of the day's pack: its line is removed again if the pack wasn't saved.
    pub fn end_save(&self, rt: &HostRuntime, done: &Result<(), FileFault>) {
        self.file.end_save(rt, done);
    }

    /// Appends the line of the day, and brings it to the disk.
    pub fn append(
        &mut self,
        rt: &HostRuntime,
        order: &Order<'_>,
        after: &str,
        status: u8,
        one: LevelCount,
        two: LevelCount,
    ) -> Result<(), DayFault<'a>> {
        let given = &self.given;
        let work = Work::Operate(Operated {
            deck1: given.deck1.clone()?,
            deck2: given.deck2.clone()?,
            rules: rules_of(given)?,
            replies: String::from_str(rt.alloc(), asked(order))?,
            one,
            two,
        });
        let line = new_line(given.pack.as_str(), after, status);
        Ok(self.file.append(rt, line, work)?)
    }
}

/// The line of a day that began with a pack and leaves another one. If it can't be written, the day reports that the pack isn't saved.
fn new_line<'b>(before: &'b str, after: &'b str, status: u8) -> NewLine<'b> {
    NewLine {
        before,
        after,
        status,
        save: None,
    }
}

/// The name of the pack, for messages.
fn pack_name<'a>(order: &Order<'a>) -> &'a str {
    order
        .pack
        .map(|name| shown_name(name))
        .unwrap_or("the new pack")
}

/// A copy of the checksum of the rules.
fn rules_of(given: &Given) -> Result<Option<String>, AllocError> {
    match &given.rules {
        Some(rules) => Ok(Some(rules.clone()?)),
        None => Ok(None),
    }
}

/// The one who is asked if no rule answers.
fn asked(order: &Order<'_>) -> &'static str {
    match order.questioned {
        Questioned::Lines => "lines",
        Questioned::Person => "operator",
        Questioned::Nobody => "nobody",
    }
}
