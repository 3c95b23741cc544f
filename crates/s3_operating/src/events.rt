//! What is logged of a day.
ghost use Rattle.std.specs.Prelude.{◌≡◌, is_some, OnOk};
ghost use Rattle.std.specs.Option.{option_and_then};
ghost use Rattle.s3_day_log.specs.Inner.Events.{said_of};
ghost use Rattle.s3_operating.specs.Inner.Logging.{Logs, LogsLast, LogsReply};
ghost use Rattle.s3_operating.specs.Inner.Times.{IsNotedAt};

use crate::answers::Answer;
use crate::clock::Clock;
use crate::desk::Desk;
use crate::seat::Seat;
use s3_cards::LevelId;
use s3_day_log::{
    BegunJob, Event, JobBegun, JobOver, Ledger, LevelLeft, LoggedHalt, LoggedReply, end_of,
};
use s3_decks::{DeckText, Position, push_name};
use s3_operator::HaltCode;
use std::alloc::{AllocError, Global};
use std::io::{Read, Write};

impl<'a, R: Read + Drop, W: Write + Drop, F: Write + Drop, C: Clock + Drop> Desk<'a, R, W, F, C> {
    /// Logs an event, if a log is kept.
    pub fn note(&mut self, event: Event) -> Result<(), AllocError>
        ensures noted { OnOk result (IsNotedAt (λ second. C.shows self.old.clock second self.new.clock) (option_and_then F.contents self.old.journal.file) (option_and_then F.contents self.new.journal.file) (is_some self.new.journal.failure) (said_of event)) }
        ensures kept { is_some self.new.journal.file ≡ is_some self.old.journal.file }
        ensures replies { self.new.replies ≡ self.old.replies }
        ensures tape { self.new.tape ≡ self.old.tape }
        ensures logs { Logs F.contents self.old.journal.file (is_some self.old.journal.failure) self.new.journal.file (is_some self.new.journal.failure) }
        ensures last { OnOk result (LogsLast F.contents (said_of event) self.old.journal.file (is_some self.old.journal.failure) self.new.journal.file (is_some self.new.journal.failure)) }
    {
        self.journal.note(self.levels.alloc, &mut self.clock, event)
    }

    /// Logs with what the day is begun.
    #[tactic(auto, using(crate::proofs::Logging::logs_none, crate::proofs::Logging::logs_on))]
    pub(crate) fn log_opening(&mut self) -> Result<(), AllocError>
        ensures replies { self.new.replies ≡ self.old.replies }
        ensures tape { self.new.tape ≡ self.old.tape }
        ensures logs { Logs F.contents self.old.journal.file (is_some self.old.journal.failure) self.new.journal.file (is_some self.new.journal.failure) }
    {
        match self.opening.take() {
            Some(day) => self.note(Event::Begin { day }),
            None => Ok(()),
        }
    }

    /// Logs the events of a level since the last call, in order.
    #[tactic(auto, using(crate::proofs::Logging::logs_none, crate::proofs::Logging::logs_on))]
    pub(crate) fn log_level(&mut self, level: LevelId) -> Result<(), AllocError>
        ensures replies { self.new.replies ≡ self.old.replies }
        ensures tape { self.new.tape ≡ self.old.tape }
        ensures logs { Logs F.contents self.old.journal.file (is_some self.old.journal.failure) self.new.journal.file (is_some self.new.journal.failure) }
    {
        if !self.journal.is_kept() {
            return Ok(());
        }
        let alloc = self.levels.alloc;
        // more events than a level has: the bound is what shows that it ends
        for _event in 0..u64::MAX {
            match self.levels.seat_mut(level).next_event(alloc)? {
                Some(event) => self.note(event)?,
                None => break,
            }
        }
        Ok(())
    }

    /// Logs the events of both levels.
    #[tactic(auto, using(crate::proofs::Logging::logs_on))]
    pub(crate) fn log_levels(&mut self) -> Result<(), AllocError>
        ensures replies { self.new.replies ≡ self.old.replies }
        ensures logs { Logs F.contents self.old.journal.file (is_some self.old.journal.failure) self.new.journal.file (is_some self.new.journal.failure) }
    {
        self.log_level(LevelId::One)?;
        self.log_level(LevelId::Two)
    }

    /// Logs the events of a level, and a reply to its halt.
    #[tactic(auto, using(crate::proofs::Logging::logs_on, crate::proofs::Logging::reply_later))]
    pub(crate) fn log_answer(
        &mut self,
        level: LevelId,
        code: HaltCode,
        answer: Answer,
    ) -> Result<(), AllocError>
        ensures replies { self.new.replies ≡ self.old.replies }
        ensures logs { Logs F.contents self.old.journal.file (is_some self.old.journal.failure) self.new.journal.file (is_some self.new.journal.failure) }
        ensures reply { OnOk result (LogsReply F.contents level code answer.digit self.old.journal.file (is_some self.old.journal.failure) self.new.journal.file (is_some self.new.journal.failure)) }
    {
        self.log_level(level)?;
        self.log_reply(level, code, answer)
    }

    /// Logs what is left of a level that isn't done.
    pub(crate) fn log_left(&mut self, level: LevelId) -> Result<(), AllocError>
        ensures replies { self.new.replies ≡ self.old.replies }
        ensures tape { self.new.tape ≡ self.old.tape }
    {
        if !self.journal.is_kept() {
            return Ok(());
        }
        let left = left_of(self.levels.alloc, self.levels.seat(level))?;
        self.note(Event::Left(left))
    }

    /// Logs a reply.
    #[tactic(auto, using(crate::proofs::Logging::logs_reply))]
    fn log_reply(
        &mut self,
        level: LevelId,
        code: HaltCode,
        answer: Answer,
    ) -> Result<(), AllocError>
        ensures replies { self.new.replies ≡ self.old.replies }
        ensures logs { Logs F.contents self.old.journal.file (is_some self.old.journal.failure) self.new.journal.file (is_some self.new.journal.failure) }
        ensures reply { OnOk result (LogsReply F.contents level code answer.digit self.old.journal.file (is_some self.old.journal.failure) self.new.journal.file (is_some self.new.journal.failure)) }
    {
        self.note(Event::Reply(LoggedReply {
            level,
            code,
            digit: answer.digit,
            by: answer.giver.replier(),
        }))
    }
}

/// The beginning of the job at a place, from 0.
pub(crate) fn beginning(
    alloc: Global,
    level: LevelId,
    ledger: &Ledger,
    place: usize,
) -> Result<Option<Event>, AllocError> {
    match ledger.begun().get(place) {
        Some(job) => Ok(Some(Event::JobBegins(JobBegun {
            level,
            job: number_in_log(place),
            kind: Some(job.purpose.kind()),
            program: program_of(alloc, job)?,
            card: u16::try_from(job.card).unwrap_or(u16::MAX),
        }))),
        None => Ok(None),
    }
}

/// What is left of a level, and the line to take it up at.
fn left_of(alloc: Global, seat: &Seat<'_>) -> Result<LevelLeft, AllocError> {
    Ok(LevelLeft {
        level: seat.level,
        job: seat.first_left().map(|place| number_in_log(place)),
        from: match position_left(seat) {
            Some(position) => Some(position_text(alloc, position)?),
            None => None,
        },
    })
}

/// The line at which the first job begins that is left of a level, once its lines are found.
pub(crate) fn position_left<'a>(seat: &Seat<'a>) -> Option<Position<'a>> {
    position_of(seat.places()?, seat.ledger.first_card(seat.first_left()?)?)
}

/// The line at which a day is taken up at a card: one of the card's file, or of the whole deck if the line of the file leads to
/// another card. Of a file that is given twice, it leads to the first copy.
fn position_of<'a>(deck: &DeckText<'a>, card: usize) -> Option<Position<'a>> {
    let place = deck.place_of(card).place?;
    let position = Position {
        file: Some(place.file),
        line: place.line,
    };
    if deck.card_at(&position) == Some(card) {
        Some(position)
    } else {
        Some(Position {
            file: None,
            line: card,
        })
    }
}

/// A line as `--from1` takes it.
fn position_text(alloc: Global, position: Position<'_>) -> Result<String, AllocError> {
    let line = position.line;
    match position.file {
        Some(file) => format!(in alloc; "{file}:{line}"),
        None => format!(in alloc; "{line}"),
    }
}

/// The end of the job at a place, from 0.
pub(crate) fn ending(level: LevelId, ledger: &Ledger, place: usize) -> Option<Event> {
    match ledger.begun().get(place) {
        Some(job) => Some(Event::JobEnds(JobOver {
            level,
            job: number_in_log(place),
            lines: job.lines,
            end: end_of(job),
        })),
        None => None,
    }
}

/// A halt, and the card that it is logged with, in the job that was begun last.
pub(crate) fn halt_of(
    level: LevelId,
    ledger: &Ledger,
    code: HaltCode,
    card: Option<u16>,
) -> LoggedHalt {
    LoggedHalt {
        level,
        job: number_in_log(ledger.begun().len().saturating_sub(1)),
        code,
        card,
    }
}

/// The number of a job as the log has it, from its place.
fn number_in_log(place: usize) -> u16 {
    u16::try_from(place.saturating_add(1)).unwrap_or(u16::MAX)
}

/// The program of a job, if its statements name one.
fn program_of(alloc: Global, job: &BegunJob) -> Result<Option<String>, AllocError> {
    match job.purpose.program() {
        Some(name) => {
            let mut text = String::new(alloc);
            push_name(&mut text, name)?;
            Ok(Some(text))
        }
        None => Ok(None),
    }
}
