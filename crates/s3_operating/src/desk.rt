//! The operator of the command.
ghost use Rattle.std.specs.Prelude.{◌≡◌, ◌⊎◌, ◌||◌, true, option_map, is_some, IfOk, OnOk};
ghost use Rattle.s3_replay.specs.Inner.Taped.{counted_bytes};
ghost use Rattle.s3_operating.specs.Inner.Logging.{KeepsLog, Logs, LogsAnswer, LogsReply};
ghost use Rattle.s3_operating.specs.Inner.Questions.{is_person};
ghost use Rattle.s3_operating.specs.Inner.Answering.{ComesOfLine, ComesOfLines, GivesReply, HasAgreed, HasReplied, Hears, IsConfirmed, IsQuestioned, ReadsAside, ShowsHalt, TakesReply};

use crate::answers::{Answer, Question};
use crate::changes::is_grave;
use crate::clock::Clock;
use crate::journal::Journal;
use crate::levels::{Levels, Said, is_refused};
use crate::message::Message;
use crate::pack_end::{EndedDay, PackEnd};
use crate::replies::{Replies, Sources, is_one};
use crate::seat::Seat;
use s3_bureau::{Bureau, Halt};
use s3_cards::LevelId;
use s3_day_log::{Begun, DayLog, Event, Verdict};
use s3_desk::{Bounds, Evidence, Operator, Papers};
use s3_operator::HaltCode;
use s3_replay::{Performed, Tape};
use s3_replies::{Listed, Rules, Typed};
use s3_store::PackStore;
use std::alloc::{AllocError, Global};
use std::io::{Read, Write};

/// How long a halt is shown at least before a line answers it, in milliseconds: what came sooner was typed before.
const SOONEST: u64 = 200;

/// Printed for a line that came sooner than that.
const BEFORE_HALT: &'static str = "that was typed before this question; once more\n";

/// The line that is printed for an answer that was typed before its question.
pub const BEFORE_QUESTION: &'static str = "that was typed before it was asked; once more\n";

/// The line that is printed for another answer to a question that takes a yes or a no.
pub const NEITHER: &'static str = "that is neither yes nor no; once more\n";

/// Printed after the number of a line of replies that doesn't end.
const TOO_LONG: &'static str =
    " has more than 4,194,304 bytes, so no more replies are read; give --replies - a list with a reply on each line\n";

/// Asked of a person when an output fails.
const WITHOUT: &'static str = "go on without it? yes, or no to stop the day ";

/// Printed when an output fails and the day ends.
const STOPPED: &'static str = "the day stops here, and nothing is saved\n";

/// Asked of a person before a pack is saved that a job has left half changed.
const SAVE: &'static str =
    "\na reply has ended a job after it had changed files: save the pack? yes or no ";

/// The least time between two lines of progress, in milliseconds.
const BETWEEN: u64 = 1_000;

/// How many turns both levels take at least between two looks at the clock for such a line.
const TURNS_BETWEEN: u64 = 1_000;

/// The person or the input that is asked if no log and no rule answers.
#[derive(Clone, Copy)]
pub enum Questioned {
    /// Nobody: such a halt stays unanswered.
    Nobody,
    /// A list of replies, one a line.
    Lines,
    /// A person at a terminal.
    Person,
}

impl Questioned {
    ghost use Rattle.std.specs.Prelude.{◌≡◌};
    ghost use Rattle.s3_operating.specs.Inner.Questions.{is_person as is_person_spec};

    /// Whether a person is asked.
    fn is_person(self) -> bool
        ensures { result ≡ is_person_spec self }
    {
        match self {
            Questioned::Nobody | Questioned::Lines => false,
            Questioned::Person => true,
        }
    }
}

/// How a day is operated.
#[derive(Clone, Copy)]
pub struct Settings<'a> {
    /// What answers halts before anyone is asked.
    pub rules: &'a Rules,
    /// The log of a day that is done again, whose replies come before the rules.
    pub logged: Option<&'a DayLog>,
    /// How far each level goes at most.
    pub bounds: Bounds,
    /// Whether progress and the answers of a log or a rule aren't reported.
    pub is_quiet: bool,
    /// The one who is asked.
    pub questioned: Questioned,
    /// Whether the day must not begin if a deck can't be read.
    pub wants_decks: bool,
    /// Whether halts are noted, each with its block and its reply.
    pub notes_halts: bool,
}

/// The operator of the command, over a reader of replies, a writer of messages, files for script and log, and a clock.
#[derive(Drop)]
pub struct Desk<'a, R: Read + Drop, W: Write + Drop, F: Write + Drop, C: Clock + Drop> {
    pub(crate) levels: Levels<'a>,
    pub(crate) tape: Tape<F>,
    pub(crate) journal: Journal<F>,
    /// What the log begins with, before the day has begun.
    pub(crate) opening: Option<Begun>,
    has_begun: bool,
    refused: Option<LevelId>,
    pub(crate) replies: Replies<'a, R>,
    messages: W,
    pub(crate) clock: C,
    /// When progress was reported last, or the work was continued.
    told_at: u64,
    /// How many turns both levels had taken when the clock was looked at last.
    turns_then: u64,
    has_ended: bool,
    /// The replies can't be read any more.
    has_lost_input: bool,
    pub(crate) is_stopped: bool,
    is_out_of_memory: bool,
    /// The day was ended because an output can't be written.
    has_given_up: bool,
}

impl<'a, R: Read + Drop, W: Write + Drop, F: Write + Drop, C: Clock + Drop> Desk<'a, R, W, F, C> {
    /// A desk before its day.
    pub fn new(
        alloc: Global,
        settings: Settings<'a>,
        one: Seat<'a>,
        two: Seat<'a>,
        reader: R,
        messages: W,
        tape: Tape<F>,
        journal: Journal<F>,
        opening: Begun,
        clock: C,
    ) -> Desk<'a, R, W, F, C>
        ensures tape { result.tape ≡ tape }
        ensures journal { result.journal ≡ journal }
        ensures rules { result.replies.sources.rules.now ≡ settings.entry.rules.now }
        ensures logged { option_map (λ log. log.now) result.replies.sources.logged ≡ option_map (λ log. log.now) settings.entry.logged }
        ensures none { (result.replies.sources.one.replies ≡ 0) × (result.replies.sources.two.replies ≡ 0) }
        ensures ahead { result.replies.sources.ahead ≡ None }
        ensures asks { result.replies.sources.asks_person ≡ is_person settings.entry.questioned }
        ensures reader { result.replies.reader ≡ reader }
    {
        let sources = Sources::new(
            settings.rules,
            settings.logged,
            settings.questioned.is_person(),
        );
        let mut desk = Desk {
            levels: Levels::new(alloc, settings, one, two),
            tape,
            journal,
            opening: Some(opening),
            has_begun: false,
            refused: None,
            replies: Replies::new(sources, reader),
            messages,
            clock,
            told_at: 0,
            turns_then: 0,
            has_ended: false,
            has_lost_input: false,
            is_stopped: false,
            is_out_of_memory: false,
            has_given_up: false,
        };
        desk.told_at = desk.clock.milliseconds();
        desk
    }

    /// Whether memory ran out while a question was put; the day was ended then.
    pub fn is_out_of_memory(&self) -> bool {
        self.is_out_of_memory
    }

    /// Whether the day was ended because the log or the script can't be written.
    pub fn has_given_up(&self) -> bool {
        self.has_given_up
    }

    /// The level for whose deck the day was refused, before anything was written.
    pub fn refused(&self) -> Option<LevelId> {
        self.refused
    }

    /// Whether the script couldn't be written.
    pub fn has_script_failed(&self) -> bool
        ensures { result ≡ is_some self.now.tape.failure }
    {
        self.tape.has_failed()
    }

    /// How many bytes the script has, once the desk is closed.
    pub fn script_len(&self) -> u64
        ensures { result ≡ counted_bytes self.now.tape.written.items }
    {
        self.tape.bytes()
    }

    /// Whether a script is written.
    pub fn has_script(&self) -> bool
        ensures { result ≡ is_some self.now.tape.file }
    {
        self.tape.is_kept()
    }

    /// Whether a log is written.
    pub fn has_log(&self) -> bool {
        self.journal.is_kept()
    }

    /// Whether the log couldn't be written.
    pub fn has_log_failed(&self) -> bool {
        self.journal.has_failed()
    }

    /// Prints a text for the operator, whatever the writer answers.
    pub fn tell(&mut self, text: &str)
        ensures replies { self.new.replies ≡ self.old.replies }
        ensures tape { self.new.tape ≡ self.old.tape }
        ensures journal { self.new.journal ≡ self.old.journal }
    {
        let _ = self.messages.write_all(text.as_bytes());
        let _ = self.messages.flush();
    }

    /// Prints a message.
    fn tell_message(&mut self, message: Message) -> Result<(), AllocError>
        ensures replies { self.new.replies ≡ self.old.replies }
        ensures tape { self.new.tape ≡ self.old.tape }
        ensures journal { self.new.journal ≡ self.old.journal }
    {
        let text = message.finish()?;
        self.tell(text.as_str());
        Ok(())
    }

    /// Reports the replies of rules and of a log that were only counted.
    pub(crate) fn tell_counted(&mut self) -> Result<(), AllocError>
        ensures replies { self.new.replies ≡ self.old.replies }
        ensures tape { self.new.tape ≡ self.old.tape }
        ensures journal { self.new.journal ≡ self.old.journal }
    {
        let message = self.levels.counted();
        self.tell_message(message)
    }

    /// Takes note of jobs of a level that have begun or ended.
    #[tactic(auto, using(crate::proofs::Logging::logs_none, crate::proofs::Logging::logs_on, crate::proofs::Logging::logs_kept))]
    fn note_jobs<S: PackStore>(
        &mut self,
        machine: &Bureau<S>,
        level: LevelId,
    ) -> Result<(), AllocError>
        ensures sources { self.new.replies.sources ≡ self.old.replies.sources }
        ensures read { OnOk result (ReadsAside self.old.replies.sources.asks_person (R.remaining self.old.replies.reader) (R.remaining self.new.replies.reader)) }
        ensures logs { Logs F.contents self.old.journal.file (is_some self.old.journal.failure) self.new.journal.file (is_some self.new.journal.failure) }
    {
        self.levels.note_jobs(machine, level)?;
        self.log_level(level)?;
        self.test_outputs()
    }

    /// Begins the day if it hasn't begun, and takes note of jobs of a level that have begun or ended.
    #[tactic(auto, using(crate::proofs::Logging::logs_on, crate::proofs::Replying::aside_same))]
    fn catch_up<S: PackStore>(
        &mut self,
        machine: &Bureau<S>,
        level: LevelId,
    ) -> Result<(), AllocError>
        ensures sources { self.new.replies.sources ≡ self.old.replies.sources }
        ensures read { OnOk result (ReadsAside self.old.replies.sources.asks_person (R.remaining self.old.replies.reader) (R.remaining self.new.replies.reader)) }
        ensures logs { Logs F.contents self.old.journal.file (is_some self.old.journal.failure) self.new.journal.file (is_some self.new.journal.failure) }
    {
        self.begin()?;
        self.note_jobs(machine, level)
    }

    /// Begins the day before its first turn, as `begin` does, and reports a log that can't be written. `Err` is also returned for a day
    /// that is refused, or that a person doesn't continue.
    pub fn open(&mut self) -> Result<(), AllocError> {
        self.begin()?;
        self.test_outputs()
    }

    /// Begins the day, once: reports decks that can't be read, and begins the log. `Err` is also returned for a day that is refused.
    #[tactic(auto, using(crate::proofs::Logging::logs_none, crate::proofs::Logging::logs_on, crate::proofs::Logging::logs_kept))]
    fn begin(&mut self) -> Result<(), AllocError>
        ensures replies { self.new.replies ≡ self.old.replies }
        ensures tape { self.new.tape ≡ self.old.tape }
        ensures logs { Logs F.contents self.old.journal.file (is_some self.old.journal.failure) self.new.journal.file (is_some self.new.journal.failure) }
    {
        if self.has_begun {
            return Ok(());
        }
        self.levels.find_faults()?;
        self.has_begun = true;
        self.tell_unread(LevelId::One)?;
        self.tell_unread(LevelId::Two)?;
        self.log_opening()
    }

    /// Reports a deck that can't be read, and refuses a day that wants it.
    fn tell_unread(&mut self, level: LevelId) -> Result<(), AllocError>
        ensures replies { self.new.replies ≡ self.old.replies }
        ensures tape { self.new.tape ≡ self.old.tape }
        ensures journal { self.new.journal ≡ self.old.journal }
    {
        let Some(fault) = self.levels.seat(level).unread else {
            return Ok(());
        };
        let text = self.levels.unread_text(level, fault)?;
        self.tell(text.as_str());
        if self.levels.settings.wants_decks {
            self.refused = Some(level);
            return Err(AllocError);
        }
        Ok(())
    }

    /// Reports how far the work has come, once a second and while no halt waits that was shown.
    fn tell_progress<S: PackStore>(&mut self, machine: &Bureau<S>) -> Result<(), AllocError>
        ensures replies { self.new.replies ≡ self.old.replies }
        ensures journal { self.new.journal ≡ self.old.journal }
    {
        if !self.is_progress_due() {
            return Ok(());
        }
        let message = self.levels.progress(machine);
        self.tell_message(message)
    }

    /// Whether a progress line is due; if so, notes the time.
    fn is_progress_due(&mut self) -> bool
        ensures replies { self.new.replies ≡ self.old.replies }
        ensures journal { self.new.journal ≡ self.old.journal }
    {
        let turns = self.levels.tally.turns();
        if !self.levels.tells_progress() || turns.saturating_sub(self.turns_then) < TURNS_BETWEEN {
            return false;
        }
        self.turns_then = turns;
        let now = self.clock.milliseconds();
        if now.saturating_sub(self.told_at) < BETWEEN {
            return false;
        }
        self.told_at = now;
        true
    }

    /// Takes note of what was performed: the tape and the log get it, and a person is shown how far the day is.
    #[tactic(auto, using(crate::proofs::Logging::logs_on, crate::proofs::Replying::aside_same))]
    fn follow_entries<S: PackStore>(
        &mut self,
        machine: &Bureau<S>,
        level: LevelId,
        performed: &Performed,
    ) -> Result<(), AllocError>
        ensures sources { OnOk result (self.new.replies.sources ≡ self.old.replies.sources) }
        ensures read { OnOk result (ReadsAside self.old.replies.sources.asks_person (R.remaining self.old.replies.reader) (R.remaining self.new.replies.reader)) }
        ensures logs { Logs F.contents self.old.journal.file (is_some self.old.journal.failure) self.new.journal.file (is_some self.new.journal.failure) }
    {
        self.begin()?;
        self.levels.tally.count(performed.parts());
        let is_halted = machine.level(level).waits().is_some();
        self.tape
            .follow(self.levels.alloc, performed.parts(), is_halted)?;
        self.note_jobs(machine, level)?;
        self.tell_progress(machine)
    }

    /// Shows a halt, unless a log or a rule will answer it.
    #[tactic(auto, using(crate::proofs::Replying::shows_on, crate::proofs::Logging::logs_none, crate::proofs::Logging::logs_on, crate::proofs::Logging::logs_kept))]
    fn show_halt<S: PackStore>(
        &mut self,
        machine: &Bureau<S>,
        level: LevelId,
        halt: &Halt,
        evidence: &Evidence,
    ) -> Result<(), AllocError>
        ensures shows { OnOk result (ShowsHalt level self.old.replies.sources self.new.replies.sources) }
        ensures read { OnOk result (ReadsAside self.old.replies.sources.asks_person (R.remaining self.old.replies.reader) (R.remaining self.new.replies.reader)) }
        ensures logs { Logs F.contents self.old.journal.file (is_some self.old.journal.failure) self.new.journal.file (is_some self.new.journal.failure) }
    {
        self.catch_up(machine, level)?;
        self.record_halt(machine, level, halt, evidence)?;
        self.tell_halt(machine, level, halt, evidence)
    }

    /// Takes note of a halt, and logs it.
    #[tactic(auto, using(crate::proofs::Replying::aside_same, crate::proofs::Replying::shows_on, crate::proofs::Logging::logs_none, crate::proofs::Logging::logs_on, crate::proofs::Logging::logs_kept))]
    fn record_halt<S: PackStore>(
        &mut self,
        machine: &Bureau<S>,
        level: LevelId,
        halt: &Halt,
        evidence: &Evidence,
    ) -> Result<(), AllocError>
        ensures shows { OnOk result (ShowsHalt level self.old.replies.sources self.new.replies.sources) }
        ensures read { OnOk result (ReadsAside self.old.replies.sources.asks_person (R.remaining self.old.replies.reader) (R.remaining self.new.replies.reader)) }
        ensures logs { Logs F.contents self.old.journal.file (is_some self.old.journal.failure) self.new.journal.file (is_some self.new.journal.failure) }
    {
        self.take_halt(machine, level, halt);
        self.note_halt(machine, level, halt, evidence)?;
        self.log_level(level)?;
        self.test_outputs()
    }

    /// Prints a halt, unless a log or a rule will answer it.
    fn tell_halt<S: PackStore>(
        &mut self,
        machine: &Bureau<S>,
        level: LevelId,
        halt: &Halt,
        evidence: &Evidence,
    ) -> Result<(), AllocError>
        ensures replies { self.new.replies ≡ self.old.replies }
        ensures journal { self.new.journal ≡ self.old.journal }
    {
        self.tell_not_logged(level, halt.code)?;
        if self.replies.sources.given(level, halt.code).is_some() {
            return Ok(());
        }
        let text = self.levels.halt_text(machine, level, halt, evidence)?;
        self.tell_counted()?;
        self.tell("\n");
        self.tell(text.as_str());
        self.levels.seat_mut(level).shown = Some(text);
        Ok(())
    }

    /// Takes note of a halt that waits for a reply.
    #[tactic(auto, using(crate::proofs::Replying::shows))]
    fn take_halt<S: PackStore>(&mut self, machine: &Bureau<S>, level: LevelId, halt: &Halt)
        ensures shows { ShowsHalt level self.old.replies.sources self.new.replies.sources }
        ensures reader { self.new.replies.reader ≡ self.old.replies.reader }
        ensures journal { self.new.journal ≡ self.old.journal }
    {
        let seat = self.levels.seat_mut(level);
        let logged = seat.take_halt(machine.level(level), halt);
        let program = seat.ledger.program();
        self.replies.sources.take_halt(level, logged, program);
    }

    /// Reports that the log's next reply isn't one to a halt, if that is so.
    fn tell_not_logged(&mut self, level: LevelId, code: HaltCode) -> Result<(), AllocError>
        ensures replies { self.new.replies ≡ self.old.replies }
        ensures journal { self.new.journal ≡ self.old.journal }
    {
        match self.replies.sources.not_logged(level, code) {
            Some((logged, halt)) => {
                self.tell_counted()?;
                let message = self.levels.not_logged(logged, halt);
                self.tell_message(message)
            }
            None => Ok(()),
        }
    }

    /// Notes a halt with its block, if halts are noted.
    fn note_halt<S: PackStore>(
        &mut self,
        machine: &Bureau<S>,
        level: LevelId,
        halt: &Halt,
        evidence: &Evidence,
    ) -> Result<(), AllocError>
        ensures replies { self.new.replies ≡ self.old.replies }
        ensures journal { self.new.journal ≡ self.old.journal }
    {
        if !self.levels.settings.notes_halts {
            return Ok(());
        }
        let block = self.levels.halt_text(machine, level, halt, evidence)?;
        self.levels.seat_mut(level).note_halt(block)
    }

    /// Finds the reply to a level's halt: by the log or a rule, else by a question.
    #[tactic(auto, using(crate::proofs::Replying::gets_given, crate::proofs::Replying::gets_said, crate::proofs::Replying::keeps_same, crate::proofs::Logging::logs_none, crate::proofs::Logging::logs_on, crate::proofs::Logging::logs_kept, crate::proofs::Logging::reply_later))]
    fn answer<S: PackStore>(
        &mut self,
        machine: &Bureau<S>,
        level: LevelId,
        code: HaltCode,
    ) -> Result<Option<u8>, AllocError>
        ensures from { HasReplied level code result self.old.replies.sources self.new.replies.sources (R.remaining self.old.replies.reader) (R.remaining self.new.replies.reader) }
        ensures logs { Logs F.contents self.old.journal.file (is_some self.old.journal.failure) self.new.journal.file (is_some self.new.journal.failure) }
        ensures reply { IfOk result (λ reply. LogsAnswer F.contents level code reply self.old.journal.file (is_some self.old.journal.failure) self.new.journal.file (is_some self.new.journal.failure)) }
    {
        if let Some(answer) = self.replies.sources.given(level, code) {
            self.take(machine, level, code, answer)?;
            return Ok(Some(answer.digit));
        }
        match self.question(machine, level, code)? {
            Some(answer) => {
                self.take(machine, level, code, answer)?;
                Ok(Some(answer.digit))
            }
            None => Ok(None),
        }
    }

    /// Takes note of a reply and of whether it ends a job that has changed files, and reports it.
    #[tactic(auto, using(crate::proofs::Replying::aside_same))]
    fn take<S: PackStore>(
        &mut self,
        machine: &Bureau<S>,
        level: LevelId,
        code: HaltCode,
        answer: Answer,
    ) -> Result<(), AllocError>
        ensures sources { TakesReply level result self.old.replies.sources self.new.replies.sources }
        ensures read { OnOk result (ReadsAside self.old.replies.sources.asks_person (R.remaining self.old.replies.reader) (R.remaining self.new.replies.reader)) }
        ensures logs { Logs F.contents self.old.journal.file (is_some self.old.journal.failure) self.new.journal.file (is_some self.new.journal.failure) }
        ensures reply { OnOk result (LogsReply F.contents level code answer.digit self.old.journal.file (is_some self.old.journal.failure) self.new.journal.file (is_some self.new.journal.failure)) }
    {
        self.record_reply(level, code, answer)?;
        let message = self.levels.answered(level, code, answer)?;
        self.tell_message(message)?;
        self.levels
            .note_spoilt(level, answer.digit, machine.level(level).files())?;
        self.levels
            .seat_mut(level)
            .note_reply(answer.digit, answer.giver.replier());
        let turns = self.turns();
        self.levels
            .seat_mut(level)
            .take_reply(code, answer.digit, turns);
        self.replies.sources.count_reply(level);
        self.told_at = self.clock.milliseconds();
        Ok(())
    }

    /// Logs a reply, and tests the outputs.
    #[tactic(auto, using(crate::proofs::Replying::aside_same, crate::proofs::Logging::reply_kept))]
    fn record_reply(
        &mut self,
        level: LevelId,
        code: HaltCode,
        answer: Answer,
    ) -> Result<(), AllocError>
        ensures logs { Logs F.contents self.old.journal.file (is_some self.old.journal.failure) self.new.journal.file (is_some self.new.journal.failure) }
        ensures reply { OnOk result (LogsReply F.contents level code answer.digit self.old.journal.file (is_some self.old.journal.failure) self.new.journal.file (is_some self.new.journal.failure)) }
        ensures sources { self.new.replies.sources ≡ self.old.replies.sources }
        ensures read { OnOk result (ReadsAside self.old.replies.sources.asks_person (R.remaining self.old.replies.reader) (R.remaining self.new.replies.reader)) }
    {
        self.log_answer(level, code, answer)?;
        self.test_outputs()
    }

    /// Asks for the reply to a level's halt.
    #[tactic(auto, using(crate::proofs::Replying::answers_ahead, crate::proofs::Replying::answers_line, crate::proofs::Replying::keeps_more, crate::proofs::Replying::keeps_same, crate::proofs::Logging::logs_none, crate::proofs::Logging::logs_on, crate::proofs::Logging::logs_kept))]
    fn question<S: PackStore>(
        &mut self,
        machine: &Bureau<S>,
        level: LevelId,
        code: HaltCode,
    ) -> Result<Option<Answer>, AllocError>
        ensures from { IsQuestioned level code result self.old.replies.sources self.new.replies.sources (R.remaining self.old.replies.reader) (R.remaining self.new.replies.reader) }
        ensures logs { Logs F.contents self.old.journal.file (is_some self.old.journal.failure) self.new.journal.file (is_some self.new.journal.failure) }
    {
        if let Some(digit) = self.replies.sources.ahead(level, code) {
            return Ok(Some(self.replies.sources.answer_of(digit)));
        }
        if self.has_ended || !self.levels.is_asked(&self.replies.sources, level) {
            return Ok(None);
        }
        let question = self.replies.sources.question(level, code);
        match self.ask(machine, question)? {
            Some((to, digit)) if is_one(to, level) => {
                Ok(Some(self.replies.sources.answer_of(digit)))
            }
            Some((to, digit)) => {
                self.replies.sources.keep_ahead(to, digit);
                Ok(None)
            }
            None => Ok(None),
        }
    }

    /// Asks until a halt is answered, or nothing more is said: a reply, and the level whose halt it answers.
    #[tactic(auto, using(crate::proofs::Replying::passes_none, crate::proofs::Replying::passes_on, crate::proofs::Replying::said_after, crate::proofs::Logging::logs_none, crate::proofs::Logging::logs_on, crate::proofs::Logging::logs_kept))]
    fn ask<S: PackStore>(
        &mut self,
        machine: &Bureau<S>,
        question: Question,
    ) -> Result<Option<(LevelId, u8)>, AllocError>
        ensures sources { self.new.replies.sources ≡ self.old.replies.sources }
        ensures said { IfOk result (GivesReply question (R.remaining self.old.replies.reader) (R.remaining self.new.replies.reader)) }
        ensures logs { Logs F.contents self.old.journal.file (is_some self.old.journal.failure) self.new.journal.file (is_some self.new.journal.failure) }
    {
        // more than anyone types: the bound is what shows that it ends
        for _line in 0..u64::MAX {
            match self.ask_once(machine, question)? {
                Said::Reply(to, digit) => return Ok(Some((to, digit))),
                Said::Over => return Ok(None),
                Said::Nothing => {}
            }
        }
        Ok(None)
    }

    /// Asks for one line, and returns what came of it.
    #[tactic(auto, using(crate::proofs::Replying::comes_of_heard, crate::proofs::Replying::comes_of_confirmed, crate::proofs::Logging::logs_none, crate::proofs::Logging::logs_on, crate::proofs::Logging::logs_kept))]
    fn ask_once<S: PackStore>(
        &mut self,
        machine: &Bureau<S>,
        question: Question,
    ) -> Result<Said, AllocError>
        ensures sources { self.new.replies.sources ≡ self.old.replies.sources }
        ensures said { IfOk result (ComesOfLines question (R.remaining self.old.replies.reader) (R.remaining self.new.replies.reader)) }
        ensures logs { Logs F.contents self.old.journal.file (is_some self.old.journal.failure) self.new.journal.file (is_some self.new.journal.failure) }
    {
        self.prompt(question)?;
        let Some(typed) = self.listen(question.to_person, BEFORE_HALT)? else {
            return Ok(Said::Over);
        };
        match self.hear(machine, question, typed)? {
            Said::Reply(to, digit) if wants_again(machine, question, to, digit) => {
                self.ask_again(machine, to, digit)
            }
            said => Ok(said),
        }
    }

    /// Prompts a person.
    fn prompt(&mut self, question: Question) -> Result<(), AllocError>
        ensures replies { self.new.replies ≡ self.old.replies }
        ensures journal { self.new.journal ≡ self.old.journal }
    {
        if question.to_person {
            let message = self.levels.prompt(question);
            self.tell_message(message)?;
        }
        Ok(())
    }

    /// Asks a person once more for a reply that ends a job that has changed files.
    #[tactic(auto, using(crate::proofs::Replying::aside_heard))]
    fn ask_again<S: PackStore>(
        &mut self,
        machine: &Bureau<S>,
        to: LevelId,
        digit: u8,
    ) -> Result<Said, AllocError>
        ensures sources { self.new.replies.sources ≡ self.old.replies.sources }
        ensures said { IfOk result (IsConfirmed to digit (R.remaining self.old.replies.reader) (R.remaining self.new.replies.reader)) }
        ensures journal { self.new.journal ≡ self.old.journal }
    {
        let message = self.levels.again(machine, to, digit);
        self.tell_message(message)?;
        match self.listen(true, BEFORE_QUESTION)? {
            Some(typed) if typed.is_reply(to, digit) => Ok(Said::Reply(to, digit)),
            Some(_) => Ok(Said::Nothing),
            None => Ok(Said::Over),
        }
    }

    /// What the next line says; `Nothing` if a person typed it before the question, and `None` at the end of the input.
    #[tactic(auto, using(crate::proofs::Replying::hears_list, crate::proofs::Replying::hears_person))]
    fn listen(&mut self, to_person: bool, before: &str) -> Result<Option<Typed>, AllocError>
        ensures sources { self.new.replies.sources ≡ self.old.replies.sources }
        ensures heard { IfOk result (Hears to_person (R.remaining self.old.replies.reader) (R.remaining self.new.replies.reader)) }
        ensures journal { self.new.journal ≡ self.old.journal }
    {
        if self.has_ended {
            return Ok(None);
        }
        let asked_at = self.clock.milliseconds();
        match self.replies.next(self.levels.alloc)? {
            Listed::Line(typed) if to_person => Ok(Some(self.heard(asked_at, typed, before))),
            Listed::Line(typed) => Ok(Some(typed)),
            Listed::TooLong => {
                self.tell_line_number()?;
                self.end(TOO_LONG);
                Ok(None)
            }
            Listed::Ended => {
                self.end("(no more replies)\n");
                Ok(None)
            }
            Listed::Failed => {
                self.has_lost_input = true;
                self.end("(the replies can't be read any more)\n");
                Ok(None)
            }
        }
    }

    /// What is heard of a person's line: what it says, or `Nothing` if it was typed before its question, which is reported.
    fn heard(&mut self, asked_at: u64, typed: Typed, before: &str) -> Typed
        ensures replies { self.new.replies ≡ self.old.replies }
        ensures heard { (result ≡ typed) ⊎ (result ≡ Typed.Nothing) }
        ensures journal { self.new.journal ≡ self.old.journal }
    {
        if self.is_too_soon(asked_at) {
            self.tell(before);
            return Typed::Nothing;
        }
        typed
    }

    /// Prints the number of the line of replies that was read last, before what is wrong with it.
    fn tell_line_number(&mut self) -> Result<(), AllocError>
        ensures replies { self.new.replies ≡ self.old.replies }
        ensures journal { self.new.journal ≡ self.old.journal }
    {
        let mut message = Message::new(self.levels.alloc);
        message.push("line ");
        message.push_number(self.replies.lines_read);
        message.push(" of the replies");
        self.tell_message(message)
    }

    /// No more replies are read, which is reported.
    fn end(&mut self, why: &str)
        ensures replies { self.new.replies ≡ self.old.replies }
        ensures journal { self.new.journal ≡ self.old.journal }
    {
        self.has_ended = true;
        self.tell(why);
    }

    /// Asks a person until the line is a yes or a no. The end of the input is a no.
    #[tactic(auto, using(crate::proofs::Replying::aside_heard, crate::proofs::Replying::aside_none, crate::proofs::Replying::aside_on))]
    fn agrees(&mut self, question: &str) -> Result<bool, AllocError>
        ensures sources { self.new.replies.sources ≡ self.old.replies.sources }
        ensures read { IfOk result (HasAgreed (R.remaining self.old.replies.reader) (R.remaining self.new.replies.reader)) }
        ensures journal { self.new.journal ≡ self.old.journal }
    {
        // more than anyone types: the bound is what shows that it ends
        for _line in 0..u64::MAX {
            self.tell(question);
            match self.listen(true, BEFORE_QUESTION)? {
                Some(Typed::Yes) => return Ok(true),
                Some(Typed::No) | None => return Ok(false),
                Some(typed) => self.tell_neither(typed),
            }
        }
        Ok(false)
    }

    /// Reports an answer that is neither yes nor no. An empty line, or one that came too soon, isn't reported.
    fn tell_neither(&mut self, typed: Typed)
        ensures replies { self.new.replies ≡ self.old.replies }
        ensures journal { self.new.journal ≡ self.old.journal }
    {
        if !matches!(typed, Typed::Nothing) {
            self.tell(NEITHER);
        }
    }

    /// What becomes of the pack of a day that is over, given what became of the day, whether a file is named for the pack, and whether it
    /// is saved even if a level isn't done. A person is asked if the answer counts.
    pub fn pack_end(
        &mut self,
        verdict: Verdict,
        has_place: bool,
        saves_unfinished: bool,
    ) -> Result<PackEnd, AllocError> {
        let mut day = EndedDay {
            verdict,
            has_place,
            saves_unfinished,
            has_lost_replies: self.has_lost_input,
            is_spoilt: self.levels.has_spoilt(),
            is_declined: self.levels.is_declined_in_log(),
        };
        if !day.counts_answer() || !self.replies.sources.asks_person {
            return Ok(day.pack_end(None));
        }
        let agrees = self.agrees(SAVE)?;
        day.has_lost_replies = self.has_lost_input;
        Ok(day.pack_end(Some(agrees)))
    }

    /// Reports a log or a script that can't be written. A person may choose to continue without it; else the day ends, which is
    /// `Err`.
    #[tactic(auto, using(crate::proofs::Replying::aside_on, crate::proofs::Replying::aside_same, crate::proofs::Logging::keeps_log, crate::proofs::Logging::gives_up_log))]
    pub fn test_outputs(&mut self) -> Result<(), AllocError>
        ensures sources { self.new.replies.sources ≡ self.old.replies.sources }
        ensures read { OnOk result (ReadsAside self.old.replies.sources.asks_person (R.remaining self.old.replies.reader) (R.remaining self.new.replies.reader)) }
        ensures log { KeepsLog F.contents self.old.journal.file (is_some self.old.journal.failure) self.new.journal.file (is_some self.new.journal.failure) }
    {
        if self.has_given_up {
            return Err(AllocError);
        }
        self.test_log()?;
        self.test_script()
    }

    #[tactic(auto, using(crate::proofs::Replying::aside_on, crate::proofs::Replying::aside_same, crate::proofs::Logging::keeps_log, crate::proofs::Logging::gives_up_log))]
    fn test_log(&mut self) -> Result<(), AllocError>
        ensures sources { self.new.replies.sources ≡ self.old.replies.sources }
        ensures read { OnOk result (ReadsAside self.old.replies.sources.asks_person (R.remaining self.old.replies.reader) (R.remaining self.new.replies.reader)) }
        ensures log { KeepsLog F.contents self.old.journal.file (is_some self.old.journal.failure) self.new.journal.file (is_some self.new.journal.failure) }
    {
        if !self.journal.has_failed() {
            return Ok(());
        }
        self.tell_log_failure()?;
        self.go_on_without()?;
        self.journal.give_up();
        Ok(())
    }

    #[tactic(auto, using(crate::proofs::Replying::aside_on, crate::proofs::Replying::aside_same))]
    fn test_script(&mut self) -> Result<(), AllocError>
        ensures sources { self.new.replies.sources ≡ self.old.replies.sources }
        ensures read { OnOk result (ReadsAside self.old.replies.sources.asks_person (R.remaining self.old.replies.reader) (R.remaining self.new.replies.reader)) }
        ensures journal { self.new.journal ≡ self.old.journal }
    {
        if !self.tape.has_failed() {
            return Ok(());
        }
        self.tell_script_failure()?;
        self.go_on_without()?;
        self.tape.give_up();
        Ok(())
    }

    /// Reports why the log can't be written, if it can't.
    pub fn tell_log_failure(&mut self) -> Result<(), AllocError>
        ensures replies { self.new.replies ≡ self.old.replies }
        ensures journal { self.new.journal ≡ self.old.journal }
    {
        match self.journal.failure() {
            Some(error) => {
                let message = self.levels.unwritten("log", error);
                self.tell_message(message)
            }
            None => Ok(()),
        }
    }

    /// Reports why the script can't be written, if it can't.
    fn tell_script_failure(&mut self) -> Result<(), AllocError>
        ensures replies { self.new.replies ≡ self.old.replies }
        ensures journal { self.new.journal ≡ self.old.journal }
    {
        match self.tape.failure() {
            Some(error) => {
                let message = self.levels.unwritten("script", error);
                self.tell_message(message)
            }
            None => Ok(()),
        }
    }

    /// Asks a person whether the day continues without an output. Else the day ends, which is `Err`.
    #[tactic(auto, using(crate::proofs::Replying::agreed, crate::proofs::Replying::aside_by_person, crate::proofs::Replying::aside_same))]
    fn go_on_without(&mut self) -> Result<(), AllocError>
        ensures sources { self.new.replies.sources ≡ self.old.replies.sources }
        ensures read { OnOk result (ReadsAside self.old.replies.sources.asks_person (R.remaining self.old.replies.reader) (R.remaining self.new.replies.reader)) }
        ensures journal { self.new.journal ≡ self.old.journal }
    {
        if self.replies.sources.asks_person && self.agrees(WITHOUT)? {
            return Ok(());
        }
        self.has_given_up = true;
        self.tell(STOPPED);
        Err(AllocError)
    }

    /// Whether a line came so soon that it was typed before the prompt.
    fn is_too_soon(&mut self, asked_at: u64) -> bool
        ensures replies { self.new.replies ≡ self.old.replies }
        ensures journal { self.new.journal ≡ self.old.journal }
    {
        self.clock.milliseconds().saturating_sub(asked_at) < SOONEST
    }

    /// Interprets what is typed after a question, and prints the response.
    #[tactic(auto, using(crate::proofs::Logging::logs_none, crate::proofs::Logging::logs_on, crate::proofs::Logging::logs_kept))]
    fn hear<S: PackStore>(
        &mut self,
        machine: &Bureau<S>,
        question: Question,
        typed: Typed,
    ) -> Result<Said, AllocError>
        ensures replies { self.new.replies ≡ self.old.replies }
        ensures heard { IfOk result (ComesOfLine question typed) }
        ensures logs { Logs F.contents self.old.journal.file (is_some self.old.journal.failure) self.new.journal.file (is_some self.new.journal.failure) }
    {
        let mut message = Message::new(self.levels.alloc);
        let said = self.levels.hear(&mut message, machine, question, typed);
        self.tell_refusal(is_refused(question, typed, said))?;
        self.tell_message(message)?;
        if let Said::Over = said {
            self.stop()?;
        }
        Ok(said)
    }

    /// Prints which line of the replies was read last, if it is refused.
    fn tell_refusal(&mut self, is_refused: bool) -> Result<(), AllocError>
        ensures replies { self.new.replies ≡ self.old.replies }
        ensures journal { self.new.journal ≡ self.old.journal }
    {
        if is_refused {
            self.tell_line_number()?;
            self.tell(": ");
        }
        Ok(())
    }

    /// Ends the day at the operator's request.
    #[tactic(auto, using(crate::proofs::Logging::logs_none, crate::proofs::Logging::logs_on, crate::proofs::Logging::logs_kept))]
    fn stop(&mut self) -> Result<(), AllocError>
        ensures replies { self.new.replies ≡ self.old.replies }
        ensures logs { Logs F.contents self.old.journal.file (is_some self.old.journal.failure) self.new.journal.file (is_some self.new.journal.failure) }
    {
        self.is_stopped = true;
        self.log_levels()?;
        self.note(Event::Stop)
    }

    /// Whether no halt gets a reply any more.
    fn is_closed(&self) -> bool
        ensures { result ≡ (self.now.is_stopped || (self.now.is_out_of_memory || self.now.has_given_up)) }
    {
        self.is_stopped || self.is_out_of_memory || self.has_given_up
    }

    /// No halt gets a reply any more, since memory has run out, or the day was ended because an output can't be written.
    fn close_early(&mut self)
        ensures closed { (self.new.is_stopped || (self.new.is_out_of_memory || self.new.has_given_up)) ≡ true }
        ensures replies { self.new.replies ≡ self.old.replies }
        ensures journal { self.new.journal ≡ self.old.journal }
    {
        if !self.has_given_up {
            self.is_out_of_memory = true;
        }
    }

    /// Counts all entries that were performed.
    pub(crate) fn count_all(&mut self, performed: &Performed) -> Result<(), AllocError>
        ensures replies { self.new.replies ≡ self.old.replies }
        ensures tape { self.new.tape ≡ self.old.tape }
    {
        self.begin()?;
        self.levels.tally.count(performed.parts());
        Ok(())
    }
}

/// Whether a reply is asked for once more: a person has given it, and it ends a job that has changed files.
fn wants_again<S: PackStore>(
    machine: &Bureau<S>,
    question: Question,
    to: LevelId,
    digit: u8,
) -> bool
    ensures { result ≡ true → question.to_person ≡ true }
{
    question.to_person && is_grave(digit, machine.level(to).files())
}

impl<'a, S: PackStore, R: Read + Drop, W: Write + Drop, F: Write + Drop, C: Clock + Drop> Operator<
    Bureau<S>,
> for Desk<'a, R, W, F, C> {
    ghost use Rattle.std.specs.Prelude.{◌||◌};
    ghost use Rattle.s3_operating.specs.Inner.Answering.{Meets};
    ghost use Rattle.s3_operating.specs.Inner.Logging.{LogsEvent};

    // Not specified: what it prints.
    ghost meets = { λ old event new. Meets old.replies.sources (R.remaining old.replies.reader) event new.replies.sources (R.remaining new.replies.reader) (new.is_stopped || (new.is_out_of_memory || new.has_given_up)) × LogsEvent F.contents event old.journal.file (is_some old.journal.failure) new.journal.file (is_some new.journal.failure) };

    fn follow(
        &mut self,
        machine: &Bureau<S>,
        level: LevelId,
        _papers: Papers<'_>,
        performed: &Performed,
    ) -> Result<(), AllocError> {
        self.follow_entries(machine, level, performed)
    }

    #[tactic(auto, using(crate::proofs::Logging::logs_none, crate::proofs::Logging::logs_on, crate::proofs::Replying::is_closed_at, crate::proofs::Replying::is_shown))]
    fn show(
        &mut self,
        machine: &Bureau<S>,
        level: LevelId,
        halt: &Halt,
        evidence: &Evidence,
    ) -> Result<(), AllocError> {
        match self.show_halt(machine, level, halt, evidence) {
            Ok(()) => Ok(()),
            Err(AllocError) => {
                self.close_early();
                Err(AllocError)
            }
        }
    }

    #[tactic(auto, using(crate::proofs::Logging::logs_none, crate::proofs::Replying::answered, crate::proofs::Replying::answered_closed, crate::proofs::Replying::keeps_same))]
    fn reply(&mut self, machine: &Bureau<S>, level: LevelId, halt: &Halt) -> Option<u8> {
        if self.is_closed() {
            return None;
        }
        match self.answer(machine, level, halt.code) {
            Ok(digit) => digit,
            Err(AllocError) => {
                self.close_early();
                None
            }
        }
    }
}
