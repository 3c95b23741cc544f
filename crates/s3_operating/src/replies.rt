//! Where the replies of a day come from.
ghost use Rattle.std.specs.Prelude.{◌≡◌, option_map, IfOk};
ghost use Rattle.s3_replies.specs.Inner.Listed.{GivesNext};
ghost use Rattle.s3_replies.specs.Inner.Rules.{same_level};
ghost use Rattle.s3_operating.specs.declared.answers.Answer.{Answer};
ghost use Rattle.s3_operating.specs.Inner.Answering.{ahead_for, at_level, given_to, halt_at, logged_for, question_of, ruled_for, with_halt, with_level, with_reply, without_ahead};

use crate::answers::{Answer, Giver, Question};
use s3_cards::{LevelId, Name};
use s3_day_log::{AnsweredHalt, DayLog, LoggedHalt};
use s3_operator::{HaltCode, allowed};
use s3_replies::{Listed, Rules, next_listed};
use std::alloc::{AllocError, Global};
use std::io::Read;

/// How many replies a level was given, and the place of its last halt.
#[derive(Clone, Copy)]
pub(crate) struct AtHalt {
    /// How many replies the level was given.
    pub(crate) replies: usize,
    /// The number of the job that halted, as the log has it.
    job: u16,
    /// The card that the halt is logged with.
    card: Option<u16>,
    /// The program of the job, if its statements name one.
    program: Option<Name>,
}

impl AtHalt {
    /// A level before its first halt.
    fn none() -> AtHalt
        ensures { result.replies ≡ 0 }
    {
        AtHalt {
            replies: 0,
            job: 0,
            card: None,
            program: None,
        }
    }
}

/// What answers halts: the log of a day that is done again, rules, a reply that was given ahead, and who is asked if none of these does.
#[derive(Drop)]
pub(crate) struct Sources<'a> {
    rules: &'a Rules,
    /// The log's replies come before the rules.
    pub(crate) logged: Option<&'a DayLog>,
    one: AtHalt,
    two: AtHalt,
    /// A reply that was given for a level while the other one was asked.
    ahead: Option<(LevelId, u8)>,
    /// Whether a person is asked, at a terminal.
    pub(crate) asks_person: bool,
}

impl<'a> Sources<'a> {
    /// The sources before the day.
    pub(crate) fn new(
        rules: &'a Rules,
        logged: Option<&'a DayLog>,
        asks_person: bool,
    ) -> Sources<'a>
        ensures rules { result.rules.now ≡ rules.now }
        ensures logged { option_map (λ log. log.now) result.logged ≡ option_map (λ log. log.now) logged.entry }
        ensures none { (result.one.replies ≡ 0) × (result.two.replies ≡ 0) }
        ensures ahead { result.ahead ≡ None }
        ensures asks { result.asks_person ≡ asks_person }
    {
        Sources {
            rules,
            logged,
            one: AtHalt::none(),
            two: AtHalt::none(),
            ahead: None,
            asks_person,
        }
    }

    /// How many replies a level was given, and the place of its last halt.
    pub(crate) fn at_level(&self, level: LevelId) -> AtHalt
        ensures { result ≡ at_level level self.now }
    {
        match level {
            LevelId::One => self.one,
            LevelId::Two => self.two,
        }
    }

    /// The halt that waits in a level, as the log has it.
    fn halt(&self, level: LevelId, code: HaltCode) -> LoggedHalt
        ensures { result ≡ halt_at level code self.now }
    {
        let at = self.at_level(level);
        LoggedHalt {
            level,
            job: at.job,
            code,
            card: at.card,
        }
    }

    /// The reply to a level's halt that needs no question, if there is one: by the log, or else by the first rule that fits.
    #[tactic(auto, using(crate::proofs::Replying::given_first, crate::proofs::Replying::given_second))]
    pub(crate) fn given(&self, level: LevelId, code: HaltCode) -> Option<Answer>
        ensures { option_map (λ (answer : Answer). answer.digit) result ≡ given_to level code self.now }
    {
        match self.logged(level, code) {
            Some(answer) => Some(answer),
            None => self.ruled(level, code),
        }
    }

    /// The answer of the log to a level's halt, if its next reply for the level is one to this halt.
    fn logged(&self, level: LevelId, code: HaltCode) -> Option<Answer>
        ensures { option_map (λ (answer : Answer). answer.digit) result ≡ logged_for level code self.now }
    {
        let halt = self.halt(level, code);
        let digit = self.logged?.answer(self.at_level(level).replies, &halt)?;
        Some(Answer {
            digit,
            giver: Giver::Log,
        })
    }

    /// The answer of the first rule that fits a level's halt.
    fn ruled(&self, level: LevelId, code: HaltCode) -> Option<Answer>
        ensures { option_map (λ (answer : Answer). answer.digit) result ≡ ruled_for level code self.now }
    {
        let program = self.at_level(level).program;
        match self.rules.reply_for(level, code, program) {
            Some(rule) => Some(Answer {
                digit: rule.digit,
                giver: Giver::Rule(rule.line),
            }),
            None => None,
        }
    }

    /// The log's next reply for a level, and the level's halt, if the reply is one to another halt.
    pub(crate) fn not_logged(
        &self,
        level: LevelId,
        code: HaltCode,
    ) -> Option<(AnsweredHalt, LoggedHalt)> {
        let log = self.logged?;
        let given = self.at_level(level).replies;
        let halt = self.halt(level, code);
        let reply = log.reply(level, given)?;
        match log.answer(given, &halt) {
            Some(_) => None,
            None => Some((*reply, halt)),
        }
    }

    /// The question about a level's halt.
    pub(crate) fn question(&self, level: LevelId, code: HaltCode) -> Question
        ensures { result ≡ question_of level code self.now }
    {
        Question {
            level,
            code,
            to_person: self.asks_person,
        }
    }

    /// The answer of a line, or of the person who is asked.
    pub(crate) fn answer_of(&self, digit: u8) -> Answer
        ensures { result.digit ≡ digit }
    {
        let giver = if self.asks_person {
            Giver::Person
        } else {
            Giver::Line
        };
        Answer { digit, giver }
    }

    /// The reply that was given for a level while the other one was asked, if there is one and the level's halt allows it.
    pub(crate) fn ahead(&self, level: LevelId, code: HaltCode) -> Option<u8>
        ensures { result ≡ ahead_for level code self.now.ahead }
    {
        match self.ahead {
            Some((to, digit)) if is_one(to, level) && allowed(code, digit) => Some(digit),
            _ => None,
        }
    }

    /// Forgets a reply that was given ahead for a level.
    pub(crate) fn forget_ahead(&mut self, level: LevelId)
        ensures { self.new ≡ record self.old { ahead = without_ahead level self.old.ahead } }
    {
        if let Some((to, _digit)) = self.ahead
            && is_one(to, level)
        {
            self.ahead = None;
        }
    }

    /// Keeps a reply for a level until the level is asked.
    pub(crate) fn keep_ahead(&mut self, to: LevelId, digit: u8)
        ensures { self.new ≡ record self.old { ahead = Some (to, digit) } }
    {
        self.ahead = Some((to, digit));
    }

    /// Takes note of a halt of a level. What was given ahead for the level was for another halt.
    pub(crate) fn take_halt(&mut self, level: LevelId, halt: LoggedHalt, program: Option<Name>)
        ensures { self.new ≡ with_halt level halt.job halt.card program self.old }
    {
        let at = self.at_level(level);
        self.forget_ahead(level);
        let at = AtHalt {
            job: halt.job,
            card: halt.card,
            program,
            ..at
        };
        self.set(level, at);
    }

    /// Counts a reply that a level was given. What was given ahead for the level was for the halt that has its reply now.
    pub(crate) fn count_reply(&mut self, level: LevelId)
        ensures { self.new ≡ with_reply level self.old }
    {
        let at = self.at_level(level);
        self.forget_ahead(level);
        let replies = at.replies.saturating_add(1);
        self.set(level, AtHalt { replies, ..at });
    }

    fn set(&mut self, level: LevelId, at: AtHalt)
        ensures { self.new ≡ with_level level at self.old }
    {
        match level {
            LevelId::One => self.one = at,
            LevelId::Two => self.two = at,
        }
    }
}

/// Whether two levels are one.
pub(crate) fn is_one(one: LevelId, other: LevelId) -> bool
    ensures { result ≡ same_level one other }
{
    match (one, other) {
        (LevelId::One, LevelId::One) | (LevelId::Two, LevelId::Two) => true,
        (LevelId::One, LevelId::Two) | (LevelId::Two, LevelId::One) => false,
    }
}

/// Where the replies of a day come from: sources that need no question, and lines that are read.
#[derive(Drop)]
pub(crate) struct Replies<'a, R: Read + Drop> {
    pub(crate) sources: Sources<'a>,
    reader: R,
    /// How many lines were read.
    pub(crate) lines_read: u64,
}

impl<'a, R: Read + Drop> Replies<'a, R> {
    /// The replies before the day.
    pub(crate) fn new(sources: Sources<'a>, reader: R) -> Replies<'a, R>
        ensures sources { result.sources ≡ sources.entry }
        ensures reader { result.reader ≡ reader }
    {
        Replies {
            sources,
            reader,
            lines_read: 0,
        }
    }

    /// Reads the next line.
    pub(crate) fn next(&mut self, alloc: Global) -> Result<Listed, AllocError>
        ensures sources { self.new.sources ≡ self.old.sources }
        ensures line { IfOk result (λ next. GivesNext (R.remaining self.old.reader) (R.remaining self.new.reader) next) }
    {
        let listed = next_listed(alloc, &mut self.reader)?;
        self.lines_read = self.lines_read.saturating_add(1);
        Ok(listed)
    }
}
