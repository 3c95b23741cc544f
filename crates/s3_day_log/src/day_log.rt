//! A log that is read, so that its day can be done again.
ghost use Rattle.std.specs.Prelude.{◌≡◌, ◌≤◌, ◌⊎◌, length, map, option_map, slice_get};
ghost use Rattle.std.specs.List.{list_all};
ghost use Rattle.std.specs.Option.{option_copied};
ghost use Rattle.std.specs.Str.{bytes_eq};
ghost use Rattle.std.specs.String.{string_bytes};
ghost use Rattle.s3_day_log.specs.Inner.Events.{day_of, file_of, said_of};
ghost use Rattle.s3_day_log.specs.Inner.Answering.{answer_in};
ghost use Rattle.s3_day_log.specs.Inner.Logged.{Follows, IsRead, IsReadAfter, Takes, answered, continued, ended, events_in, has_checksum, has_checksum_if_any, is_hexadecimal as is_hexadecimal_spec, is_checksum as is_checksum_spec, is_sound as is_sound_spec, log_in, replies_at, taken, taken_if_said, with_halt, with_pack};
ghost use Rattle.s3_day_log.specs.Inner.Lines.{said_on};
ghost use Rattle.s3_day_log.specs.Inner.Tested.{HasPack, IsTested, Matches, is_same_pack, is_saved_pack, sum_of};

use crate::answering::answer_to;
use crate::event::{AnsweredHalt, Begun, DayOver, Event, LoggedHalt, LoggedReply, NamedFile};
use crate::reading::event_of;
use crate::which_pack::{Standing, standing_of};
use s3_cards::LevelId;
use s3_operator::allowed;
use std::alloc::{AllocError, AllocFailed, Global};
use thiserror::Error;

/// The length of a checksum.
const CHECKSUM: usize = 64;

/// Why a text is no log.
#[derive(Clone, Copy, Debug, Error)]
pub enum LogFault {
    /// There is no memory for it.
    #[error("out of memory")]
    NoMemory,
    /// This line, from 1, isn't what a log has there: an event with its time, of which the first one alone begins the day, and
    /// the last one alone may end it. A day that was refused has no such line.
    #[error("line {0} is no line of a log")]
    Line(usize),
}

impl From<AllocError> for LogFault {
    ghost use Rattle.std.specs.Prelude.{◌≡◌};
    ghost use Rattle.s3_day_log.specs.declared.day_log.LogFault.TheVariants.{NoMemory};

    ghost from_gives = { λ _ fault. fault ≡ NoMemory };

    fn from(_: AllocError) -> LogFault {
        LogFault::NoMemory
    }
}

impl<T: Drop> From<AllocFailed<T>> for LogFault {
    ghost use Rattle.std.specs.Prelude.{◌≡◌};
    ghost use Rattle.s3_day_log.specs.declared.day_log.LogFault.TheVariants.{NoMemory};

    ghost from_gives = { λ _ fault. fault ≡ NoMemory };

    fn from(_: AllocFailed<T>) -> LogFault {
        LogFault::NoMemory
    }
}

/// What differs between a logged day and the files that are given for it.
#[derive(Clone, Copy, Debug, Error)]
pub enum Refused {
    /// The pack is another one.
    #[error("the pack isn't that of the log; give the pack with which the day was begun")]
    Pack,
    /// The pack is the one that the day has saved.
    #[error("this day is saved: the pack is the one that it left; to do the day once more, give the pack with which it was begun")]
    IsSaved,
    /// The deck of this level has another file, at this place from 1, or more or fewer of them.
    #[error("file {1} of --deck{0} isn't that of the log; give the files with which the day was begun, in their order")]
    Deck(u8, usize),
}

/// The log of a day.
#[derive(Drop)]
pub struct DayLog {
    /// With what the day was begun.
    pub begun: Begun,
    /// The replies to level 1's halts, in the order in which they were given.
    replies1: Vec<AnsweredHalt>,
    /// The replies to level 2's halts.
    replies2: Vec<AnsweredHalt>,
    /// Level 1's last halt, if no reply follows it.
    waits1: Option<LoggedHalt>,
    /// Level 2's last halt, if no reply follows it.
    waits2: Option<LoggedHalt>,
    /// The checksum of the pack that the day has saved or was going to save. If the desk was killed meanwhile, only the pack tells
    /// which of both is so.
    pub saved: Option<String>,
    /// Whether the operator answered that the pack isn't to be saved.
    pub is_declined: bool,
    /// The exit status; none if the desk was killed.
    pub status: Option<u8>,
}

impl DayLog {
    /// The log of a text: what its lines say. A last line without its end was left by a desk that was killed, and is ignored. The
    /// first line must begin the day. A text is refused with the number of its first line that is no event, or comes too early or too
    /// late: only the first line begins the day, only the last one ends it, after the answer about saving only that one follows, a reply is
    /// one that its halt allows, and each file that is read or saved has a checksum.
    pub fn read(alloc: Global, text: &str) -> Result<DayLog, LogFault>
        ensures { IsRead text.now result }
    {
        let Some((first, rest)) = text.split_once('\n') else {
            return Err(LogFault::Line(1));
        };
        let Some(event) = event_of(alloc, first)? else {
            return Err(LogFault::Line(1));
        };
        let Event::Begin { day } = event else {
            return Err(LogFault::Line(1));
        };
        if !is_sound(&day) {
            return Err(LogFault::Line(1));
        }
        DayLog::read_after(alloc, day, rest)
    }

    /// The log of a day that was begun with this, and of the lines after the first one.
    fn read_after(alloc: Global, day: Begun, rest: &str) -> Result<DayLog, LogFault>
        ensures { IsReadAfter (day_of day) rest.now result }
    {
        let mut log = DayLog {
            begun: day,
            replies1: Vec::new(alloc),
            replies2: Vec::new(alloc),
            waits1: None,
            waits2: None,
            saved: None,
            is_declined: false,
            status: None,
        };
        log.read_rest(alloc, rest)?;
        Ok(log)
    }

    /// Reads the lines after the first one.
    fn read_rest(&mut self, alloc: Global, text: &str) -> Result<(), LogFault>
        ensures { Follows 2 (events_in text.now) self.old self.new result }
    {
        let mut rest = text;
        let mut number: usize = 1;
        while let Some((line, after)) = rest.split_once('\n') {
            number += 1;
            self.take_line(alloc, line, number)?;
            rest = after;
        }
        Ok(())
    }

    /// Takes a line, which has this number.
    fn take_line(&mut self, alloc: Global, line: &str, number: usize) -> Result<(), LogFault>
        ensures { Takes number (taken_if_said (said_on line.now) (log_in self.old)) self.new result }
    {
        if self.status.is_some() {
            return Err(LogFault::Line(number));
        }
        match event_of(alloc, line)? {
            Some(event) => self.take(event, number),
            None => Err(LogFault::Line(number)),
        }
    }

    /// Takes an event of the log, with the number of its line.
    fn take(&mut self, event: Event, number: usize) -> Result<(), LogFault>
        ensures { Takes number (taken (said_of event) (log_in self.old)) self.new result }
    {
        match event {
            Event::End(day) => self.end(day, number),
            _ if self.saved.is_some() || self.is_declined => Err(LogFault::Line(number)),
            event => self.go_on(event, number),
        }
    }

    /// Takes the last event of the log.
    fn end(&mut self, day: DayOver, number: usize) -> Result<(), LogFault>
        ensures { Takes number (ended day.status (option_map file_of day.saved) (log_in self.old)) self.new result }
    {
        let DayOver { status, saved } = day;
        self.status = Some(status);
        match saved {
            Some(_) if self.is_declined => Err(LogFault::Line(number)),
            Some(pack) => self.save(pack, number),
            None => Ok(()),
        }
    }

    /// Takes the pack that is saved.
    fn save(&mut self, pack: NamedFile, number: usize) -> Result<(), LogFault>
        ensures { Takes number (with_pack (file_of pack) (log_in self.old)) self.new result }
    {
        if !is_checksum(&pack) {
            return Err(LogFault::Line(number));
        }
        self.saved = Some(pack.sha256);
        Ok(())
    }

    /// Takes an event before the last one.
    fn go_on(&mut self, event: Event, number: usize) -> Result<(), LogFault>
        ensures { Takes number (continued (said_of event) (log_in self.old)) self.new result }
    {
        match event {
            Event::Begin { .. } | Event::End(_) | Event::Refused(_) => {
                Err(LogFault::Line(number))
            }
            Event::JobBegins(_)
            | Event::JobEnds(_)
            | Event::Cut { .. }
            | Event::Stop
            | Event::Left(_) => Ok(()),
            Event::Halt(halt) => {
                self.wait(halt);
                Ok(())
            }
            Event::Declined => {
                self.is_declined = true;
                Ok(())
            }
            Event::Reply(reply) => self.take_reply(reply, number),
            Event::Saving { pack } => self.save(pack, number),
        }
    }

    /// Takes a reply, if its halt allows it.
    fn take_reply(&mut self, reply: LoggedReply, number: usize) -> Result<(), LogFault>
        ensures { Takes number (answered reply (log_in self.old)) self.new result }
    {
        if !allowed(reply.code, reply.digit) {
            return Err(LogFault::Line(number));
        }
        match reply.level {
            LevelId::One => {
                let halt = self.waits1;
                self.replies1.push(AnsweredHalt { reply, halt })?;
                self.waits1 = None;
            }
            LevelId::Two => {
                let halt = self.waits2;
                self.replies2.push(AnsweredHalt { reply, halt })?;
                self.waits2 = None;
            }
        }
        Ok(())
    }

    /// Takes a halt: the next reply of its level is to it.
    fn wait(&mut self, halt: LoggedHalt)
        ensures { log_in self.new ≡ with_halt halt.level halt (log_in self.old) }
    {
        match halt.level {
            LevelId::One => self.waits1 = Some(halt),
            LevelId::Two => self.waits2 = Some(halt),
        }
    }

    /// The digit with which the log answers a halt, after so many replies that its level was given before; none if the log has no
    /// reply there, or one that isn't to this halt.
    pub fn answer(&self, given: usize, halt: &LoggedHalt) -> Option<u8>
        ensures { result ≡ answer_in (slice_get (replies_at halt.now.level self.now) given) halt.now }
    {
        match self.reply(halt.level, given) {
            Some(answered) => answer_to(answered, halt),
            None => None,
        }
    }

    /// How many replies a level was given.
    pub fn reply_count(&self, level: LevelId) -> usize
        ensures { result ≡ length (replies_at level self.now) }
    {
        match level {
            LevelId::One => self.replies1.len(),
            LevelId::Two => self.replies2.len(),
        }
    }

    /// The reply of a level after so many that it was given before, with the halt that it was given to.
    pub fn reply(&self, level: LevelId, given: usize) -> Option<&AnsweredHalt>
        ensures { option_copied result ≡ slice_get (replies_at level self.now) given }
    {
        match level {
            LevelId::One => self.replies1.get(given),
            LevelId::Two => self.replies2.get(given),
        }
    }

    /// Whether a pack and the files of both decks are those of the log, by their checksums, in their order; or what differs
    /// first. Names don't count: a file may have another one now. No checksum of a pack means a new pack. Another pack that is the
    /// one which the day has saved is reported as that.
    pub fn test(
        &self,
        pack: Option<&str>,
        deck1: &[String],
        deck2: &[String],
    ) -> Result<(), Refused>
        ensures { IsTested self.now (option_map (λ sum. sum.now) pack.entry) (map string_bytes deck1.now) (map string_bytes deck2.now) result }
    {
        self.test_pack(pack)?;
        test_deck(&self.begun.deck1, deck1, 1)?;
        test_deck(&self.begun.deck2, deck2, 2)
    }

    /// Whether a pack is the pack of the log, by its checksum.
    fn test_pack(&self, pack: Option<&str>) -> Result<(), Refused>
        ensures { HasPack self.now (option_map (λ sum. sum.now) pack.entry) result }
    {
        let is_first = is_same_pack(&self.begun.pack, pack);
        let is_saved = is_saved_pack(&self.saved, pack);
        match standing_of(is_first, is_saved) {
            Standing::First => Ok(()),
            Standing::Saved => Err(Refused::IsSaved),
            Standing::Other => Err(Refused::Pack),
        }
    }
}

/// Whether a pack is the one with which a day was begun, by its checksum; without a pack, whether the day was begun without one.
fn is_same_pack(begun: &Option<NamedFile>, pack: Option<&str>) -> bool
    ensures { result ≡ is_same_pack (option_map sum_of begun.now) (option_map (λ sum. sum.now) pack.entry) }
{
    match (begun, pack) {
        (Some(file), Some(sum)) => is_of_sum(&file.sha256, sum),
        (None, None) => true,
        _ => false,
    }
}

/// Whether a pack is the one that a day has saved.
fn is_saved_pack(saved: &Option<String>, pack: Option<&str>) -> bool
    ensures { result ≡ is_saved_pack (option_map string_bytes saved.now) (option_map (λ sum. sum.now) pack.entry) }
{
    match (saved, pack) {
        (Some(saved), Some(sum)) => is_of_sum(saved, sum),
        _ => false,
    }
}

/// Whether a checksum is this one.
fn is_of_sum(logged: &String, sum: &str) -> bool
    ensures { result ≡ bytes_eq (string_bytes logged.now) sum.now }
{
    logged.as_str() == sum
}

/// The lower of two numbers.
fn shorter_of(one: usize, two: usize) -> usize
    ensures within_one { result ≤ one }
    ensures within_two { result ≤ two }
    ensures either { (result ≡ one) ⊎ (result ≡ two) }
{
    if one < two { one } else { two }
}

/// Whether the files of a level's deck are those of the log, or which isn't.
fn test_deck(logged: &[NamedFile], given: &[String], level: u8) -> Result<(), Refused>
    ensures { Matches level (map sum_of logged.now) (map string_bytes given.now) result }
{
    let common = shorter_of(logged.len(), given.len());
    for place in 0..common {
        if !is_of_sum(&logged[place].sha256, given[place].as_str()) {
            return Err(Refused::Deck(level, place + 1));
        }
    }
    if logged.len() == given.len() {
        return Ok(());
    }
    Err(Refused::Deck(level, common + 1))
}

/// Whether each file of a day has a checksum.
fn is_sound(day: &Begun) -> bool
    ensures { result ≡ is_sound_spec (day_of day.now) }
{
    pack_is_sound(&day.pack) && are_checksums(&day.deck1) && are_checksums(&day.deck2)
}

fn pack_is_sound(pack: &Option<NamedFile>) -> bool
    ensures { result ≡ has_checksum_if_any (option_map file_of pack.now) }
{
    match pack {
        Some(pack) => is_checksum(pack),
        None => true,
    }
}

#[tactic(auto, using(crate::proofs::LogLemmas::all_checksums))]
fn are_checksums(files: &[NamedFile]) -> bool
    ensures { result ≡ list_all has_checksum (map file_of files.now) }
{
    each_is_checksum(files)
}

fn each_is_checksum(files: &[NamedFile]) -> bool
    ensures { result ≡ list_all (λ file. has_checksum (file_of file)) files.now }
{
    files.iter().all(|file| is_checksum(file))
}

/// Whether a file has a checksum: 64 hexadecimal digits, with small letters.
fn is_checksum(file: &NamedFile) -> bool
    ensures { result ≡ has_checksum (file_of file.now) }
{
    is_checksum_text(file.sha256.as_bytes())
}

fn is_checksum_text(text: &[u8]) -> bool
    ensures { result ≡ is_checksum_spec text.now }
{
    text.len() == CHECKSUM && are_hexadecimal(text)
}

fn are_hexadecimal(text: &[u8]) -> bool
    ensures { result ≡ list_all is_hexadecimal_spec text.now }
{
    text.iter().all(|byte| is_hexadecimal(*byte))
}

fn is_hexadecimal(byte: u8) -> bool
    ensures { result ≡ is_hexadecimal_spec byte }
{
    matches!(byte, b'0'..=b'9' | b'a'..=b'f')
}
