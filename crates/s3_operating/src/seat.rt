//! A level as the desk sees it.

use crate::day_deck::DayDeck;
use crate::events::{beginning, ending, halt_of};
use crate::given::Given;
use crate::message::Message;
use crate::noted::NotedHalt;
use s3_bureau::Halt;
use s3_cards::{CardFault, Deck, DeckFault, LevelId};
use s3_day_log::{Event, Ledger, LoggedHalt, Replier};
use s3_decks::{DeckText, JobEntry};
use s3_evidence::Begun as JobsOfHalts;
use s3_level::Level;
use s3_operator::{HaltCode, is_at_start, letters};
use std::alloc::{AllocError, Global};

/// A level as the desk sees it: its deck, its jobs, and the halt that waits there.
#[derive(Drop)]
pub struct Seat<'a> {
    pub(crate) level: LevelId,
    deck: &'a DayDeck<'a>,
    /// The line of a file for each card, once it was asked for.
    places: Option<DeckText<'a>>,
    /// The number of the card in error, from 1, and its fault, if the deck can't be read.
    pub(crate) unread: Option<(u16, CardFault)>,
    pub(crate) ledger: Ledger,
    /// The jobs that were begun when a halt was shown last, with what blocks of halts need of them.
    shown_jobs: JobsOfHalts,
    /// How many halts were shown.
    pub(crate) halts: u64,
    /// What the level halts for, if it does.
    pub(crate) waits: Option<HaltCode>,
    /// The number of the card that this halt is about, from 1, if there is one.
    pub(crate) card: Option<usize>,
    /// The last reply that a rule or a log gave, if it was reported.
    pub(crate) given: Option<Given>,
    /// What was shown of that halt, if anything was.
    pub(crate) shown: Option<String>,
    /// Whether nothing was left to do when the level was seen last, but to print queued lines, which it may.
    pub(crate) is_idle: bool,
    /// A halt that isn't in the log yet.
    unlogged: Option<LoggedHalt>,
    /// How many jobs are in the log as begun.
    begun: usize,
    /// How many jobs are in the log as over.
    over: usize,
    /// The places, from 0, of the jobs that a reply ended after they had changed files.
    spoilt: Vec<usize>,
    /// How many turns both levels had taken when each job that is over was found to be, in order.
    pub(crate) over_at: Vec<u64>,
    /// How many turns both levels had taken when the last reply was given.
    pub(crate) replied_at: u64,
    /// How many turns both levels had taken when `follow` was called last.
    followed_at: u64,
    /// The halts, if they are noted.
    pub(crate) noted: Vec<NotedHalt>,
}

impl<'a> Seat<'a> {
    /// A level with its deck and the jobs of that, before the day.
    pub fn new(
        alloc: Global,
        level: LevelId,
        deck: &'a DayDeck<'a>,
        jobs: Vec<JobEntry>,
    ) -> Seat<'a> {
        Seat {
            level,
            deck,
            places: None,
            unread: None,
            ledger: Ledger::new(alloc, jobs),
            shown_jobs: JobsOfHalts::new(alloc),
            halts: 0,
            waits: None,
            card: None,
            given: None,
            shown: None,
            is_idle: false,
            unlogged: None,
            begun: 0,
            over: 0,
            spoilt: Vec::new(alloc),
            over_at: Vec::new(alloc),
            replied_at: 0,
            followed_at: 0,
            noted: Vec::new(alloc),
        }
    }

    /// Finds the fault of a deck that can't be read, which has no jobs.
    pub(crate) fn find_fault(&mut self, alloc: Global) -> Result<(), AllocError> {
        if self.ledger.jobs_left() == 0 {
            self.unread = fault_of(alloc, self.deck.text())?;
        }
        Ok(())
    }

    /// Finds the line of a file for each card of the deck, if it isn't found yet.
    pub(crate) fn find_places(&mut self, alloc: Global) -> Result<(), AllocError> {
        if self.places.is_none() {
            self.places = Some(self.deck.with_places(alloc)?);
        }
        Ok(())
    }

    /// The deck with the line of a file for each card, once these are found.
    pub(crate) fn places(&self) -> Option<&DeckText<'a>> {
        self.places.as_ref()
    }

    /// Finds what the block of a halt needs of the deck: the line of a file for each card, and the jobs that were begun.
    pub(crate) fn prepare_block(&mut self, alloc: Global, held: &Level) -> Result<(), AllocError> {
        self.find_places(alloc)?;
        self.shown_jobs.follow(alloc, held)
    }

    /// The jobs that were begun, as `prepare_block` found them last.
    pub(crate) fn shown_jobs(&self) -> &JobsOfHalts {
        &self.shown_jobs
    }

    /// Takes note of jobs that have begun or ended, given how many lines the level has printed or queued, whether it may print all of
    /// them, and how many turns both levels have taken.
    pub(crate) fn follow(
        &mut self,
        held: &Level,
        lines: usize,
        may_print_all: bool,
        turns: u64,
    ) -> Result<(), AllocError> {
        self.is_idle = may_print_all && is_idle(held);
        self.ledger.follow(held, lines)?;
        self.followed_at = turns;
        self.note_ends(turns)
    }

    /// Takes note of the jobs that are over since the last call, after so many turns of both levels.
    fn note_ends(&mut self, turns: u64) -> Result<(), AllocError> {
        for _job in self.over_at.len()..self.ledger.jobs_over() {
            self.over_at.push(turns)?;
        }
        Ok(())
    }

    /// Notes the halt that waits, given its block. It came when `follow` was called last.
    pub(crate) fn note_halt(&mut self, block: String) -> Result<(), AllocError> {
        let Some(code) = self.waits else {
            return Ok(());
        };
        let job = self.ledger.begun().len();
        self.noted.push(NotedHalt {
            job,
            letters: letters(code),
            turn: self.followed_at,
            block,
            reply: None,
            replied: None,
        })?;
        Ok(())
    }

    /// Notes the reply to the last halt that was noted, if halts are noted.
    pub(crate) fn note_reply(&mut self, digit: u8, by: Replier) {
        if let Some(halt) = self.noted.last_mut() {
            halt.reply = Some((digit, by));
        }
    }

    /// Takes note of a halt that waits for a reply. It returns the halt as the log has it.
    pub(crate) fn take_halt(&mut self, held: &Level, halt: &Halt) -> LoggedHalt {
        let card = match halt.details.first() {
            Some((card, _number)) => Some(*card),
            None => self.ledger.last_card(held),
        };
        let logged = halt_of(self.level, &self.ledger, halt.code, card);
        self.unlogged = Some(logged);
        self.card = match card {
            Some(card) => Some(usize::from(card)),
            None => self.first_card_of(halt.code),
        };
        self.halts = self.halts.saturating_add(1);
        self.waits = Some(halt.code);
        self.shown = None;
        logged
    }

    /// The first card of the last job that was begun, for a halt of a job that can't be started.
    fn first_card_of(&self, code: HaltCode) -> Option<usize> {
        match self.ledger.begun().last() {
            Some(job) if is_at_start(code) => Some(job.card),
            _ => None,
        }
    }

    /// Takes note of the reply to the halt that waits, after so many turns of both levels.
    pub(crate) fn take_reply(&mut self, code: HaltCode, digit: u8, turns: u64) {
        self.replied_at = turns;
        if let Some(noted) = self.noted.last_mut() {
            noted.replied = Some(turns);
        }
        self.waits = None;
        self.shown = None;
        self.ledger.reply(code, digit);
    }

    /// Takes note that a reply ends the last job that was begun, which has changed files.
    pub(crate) fn mark_spoilt(&mut self) -> Result<(), AllocError> {
        let place = self.ledger.begun().len().saturating_sub(1);
        if !self.is_spoilt(place) {
            self.spoilt.push(place)?;
        }
        Ok(())
    }

    /// Whether a reply ended the job at a place, from 0, after it had changed files.
    pub(crate) fn is_spoilt(&self, place: usize) -> bool {
        self.spoilt.iter().any(|other| *other == place)
    }

    /// Whether a reply ended any job after it had changed files.
    pub(crate) fn has_spoilt(&self) -> bool {
        !self.spoilt.is_empty()
    }

    /// Appends the text of the halt that waits, if it was shown.
    pub(crate) fn push_shown(&self, message: &mut Message) {
        if let Some(shown) = &self.shown {
            message.push("\n");
            message.push(shown.as_str());
        }
    }

    /// Takes the next event of the level that isn't in the log yet: a job's end before the next job's beginning, and a halt after the
    /// beginning of its job.
    pub(crate) fn next_event(&mut self, alloc: Global) -> Result<Option<Event>, AllocError> {
        let place = self.over;
        if place < self.begun.min(self.ledger.jobs_over()) {
            self.over = place.saturating_add(1);
            return Ok(ending(self.level, &self.ledger, place));
        }
        let place = self.begun;
        if place < self.ledger.begun().len() {
            self.begun = place.saturating_add(1);
            return beginning(alloc, self.level, &self.ledger, place);
        }
        Ok(self.next_halt())
    }

    /// Takes the halt that isn't in the log yet.
    fn next_halt(&mut self) -> Option<Event> {
        match self.unlogged.take() {
            Some(halt) => Some(Event::Halt(halt)),
            None => None,
        }
    }

    /// The place, from 0, of the first job that is left: the one that isn't over, or the next one; none if no job is left.
    pub(crate) fn first_left(&self) -> Option<usize> {
        let begun = self.ledger.begun().len();
        if self.ledger.is_open() {
            begun.checked_sub(1)
        } else if self.ledger.jobs_left() > 0 {
            Some(begun)
        } else {
            None
        }
    }

    /// The text of its deck.
    pub fn text(&self) -> &'a [u8] {
        self.deck.text()
    }
}

/// Whether a level has nothing to do: no job is at work and none is left, and no halt waits.
fn is_idle(level: &Level) -> bool {
    !level.has_work() && level.waits().is_none()
}

/// The number of the card in error of a deck, from 1, and its fault, if it has one.
fn fault_of(alloc: Global, text: &[u8]) -> Result<Option<(u16, CardFault)>, AllocError> {
    match Deck::read(alloc, text) {
        Ok(_) => Ok(None),
        Err(DeckFault::At(card, fault)) => Ok(Some((card, fault))),
        Err(DeckFault::NoMemory) => Err(AllocError),
    }
}
