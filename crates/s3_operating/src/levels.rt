//! Both levels as the desk sees them.
ghost use Rattle.std.specs.Prelude.{◌≡◌, true, Some};
ghost use Rattle.s3_replies.specs.Inner.Rules.{same_level};
ghost use Rattle.s3_operating.specs.Inner.Answering.{ComesOfCommand, ComesOfDigit, ComesOfLine, reply_in as reply_in_spec};

use crate::answers::{Answer, Giver, Question};
use crate::asking::{push_help, push_last_lines, push_words};
use crate::changes::{is_grave, push_changes};
use crate::desk::{Questioned, Settings};
use crate::given::Given;
use crate::lost::Lost;
use crate::message::Message;
use crate::progress::{push_job_at, push_last_job, push_progress};
use crate::replies::{Sources, is_one};
use crate::seat::Seat;
use crate::tally::Tally;
use crate::unread::push_unread;
use s3_bureau::{Bureau, Halt};
use s3_cards::{CardFault, LevelId};
use s3_day_log::{AnsweredHalt, LoggedHalt};
use s3_decks::DeckText;
use s3_desk::Evidence;
use s3_evidence::Begun;
use s3_halt_block::{Waiting, push_halt};
use s3_job_files::OpenFile;
use s3_operator::{HaltCode, allowed};
use s3_replies::Typed;
use s3_store::PackStore;
use std::alloc::{AllocError, Global};
use std::io;
use std::io::ErrorKind;

/// What came of a line that was typed.
#[derive(Clone, Copy)]
pub(crate) enum Said {
    /// A reply to the halt of this level.
    Reply(LevelId, u8),
    /// The end of the day, or of all replies.
    Over,
    /// Nothing that answers: once more.
    Nothing,
}

/// Both levels as the desk sees them.
#[derive(Drop)]
pub(crate) struct Levels<'a> {
    pub(crate) alloc: Global,
    pub(crate) settings: Settings<'a>,
    pub(crate) one: Seat<'a>,
    pub(crate) two: Seat<'a>,
    pub(crate) tally: Tally,
}

impl<'a> Levels<'a> {
    /// The levels before the day.
    pub(crate) fn new(
        alloc: Global,
        settings: Settings<'a>,
        one: Seat<'a>,
        two: Seat<'a>,
    ) -> Levels<'a> {
        Levels {
            alloc,
            settings,
            one,
            two,
            tally: Tally::new(),
        }
    }

    /// A level as the desk sees it.
    pub(crate) fn seat(&self, level: LevelId) -> &Seat<'a> {
        match level {
            LevelId::One => &self.one,
            LevelId::Two => &self.two,
        }
    }

    /// A level as the desk sees it, to be changed.
    pub(crate) fn seat_mut(&mut self, level: LevelId) -> &mut Seat<'a> {
        match level {
            LevelId::One => &mut self.one,
            LevelId::Two => &mut self.two,
        }
    }

    /// Finds the faults of decks that can't be read.
    pub(crate) fn find_faults(&mut self) -> Result<(), AllocError> {
        self.one.find_fault(self.alloc)?;
        self.two.find_fault(self.alloc)
    }

    /// Takes note of jobs of a level that have begun or ended.
    pub(crate) fn note_jobs<S: PackStore>(
        &mut self,
        machine: &Bureau<S>,
        level: LevelId,
    ) -> Result<(), AllocError> {
        let queued = machine.queued(level);
        let lines = machine.lines(level).len().saturating_add(queued);
        let may_print_all = lines as u64 <= u64::from(self.settings.bounds.lines);
        let turns = self.tally.turns();
        self.seat_mut(level)
            .follow(machine.level(level), lines, may_print_all, turns)
    }

    /// Whether a level has taken as many turns as it may.
    pub(crate) fn has_all_turns(&self, level: LevelId) -> bool {
        self.tally.of(level).turns >= u64::from(self.settings.bounds.turns)
    }

    /// Whether a level has taken as many turns, or printed as many lines, as it may.
    fn is_cut(&self, level: LevelId) -> bool {
        self.has_all_turns(level)
            || self.tally.of(level).lines >= u64::from(self.settings.bounds.lines)
    }

    /// Whether the log of a day that is done again has the answer that the pack isn't to be saved.
    pub(crate) fn is_declined_in_log(&self) -> bool {
        match self.settings.logged {
            Some(log) => log.is_declined,
            None => false,
        }
    }

    // ---- replies

    /// The message that the log's next reply for a level isn't one to the halt that waits there.
    pub(crate) fn not_logged(&self, logged: AnsweredHalt, halt: LoggedHalt) -> Message {
        let mut message = Message::new(self.alloc);
        push_not_logged(&mut message, logged, halt);
        message
    }

    /// Whether the halt of a level, if one waits there, will be answered without a question.
    fn is_given(&self, sources: &Sources<'_>, level: LevelId) -> bool {
        match self.seat(level).waits {
            Some(code) => !self.is_cut(level) && sources.given(level, code).is_some(),
            None => false,
        }
    }

    /// Whether the halt of a level leads to a question.
    pub(crate) fn is_asked(&self, sources: &Sources<'_>, level: LevelId) -> bool {
        !matches!(self.settings.questioned, Questioned::Nobody)
            && !self.is_given(sources, level.other())
    }

    /// For what a level halts, if that may be answered when this question is put: level 2 is asked after level 1.
    fn asked_in(&self, question: Question, of: LevelId) -> Option<HaltCode>
        ensures { same_level of question.level ≡ true → result ≡ Some question.code }
    {
        if is_one(of, question.level) {
            return Some(question.code);
        }
        match of {
            LevelId::Two if !self.is_cut(of) => self.two.waits,
            _ => None,
        }
    }

    // ---- messages

    /// Why a level's deck can't be read.
    pub(crate) fn unread_text(
        &mut self,
        level: LevelId,
        fault: (u16, CardFault),
    ) -> Result<String, AllocError> {
        let alloc = self.alloc;
        self.seat_mut(level).find_places(alloc)?;
        match self.seat(level).places() {
            Some(deck) => unread_text(alloc, level, deck, fault),
            None => Ok(String::new(alloc)),
        }
    }

    /// The block of a level's halt.
    pub(crate) fn halt_text<S: PackStore>(
        &mut self,
        machine: &Bureau<S>,
        level: LevelId,
        halt: &Halt,
        evidence: &Evidence,
    ) -> Result<String, AllocError> {
        let alloc = self.alloc;
        self.seat_mut(level)
            .prepare_block(alloc, machine.level(level))?;
        match self.seat(level).places() {
            Some(deck) => {
                let waiting = Waiting {
                    level,
                    halt,
                    begun: self.seat(level).shown_jobs(),
                    evidence,
                };
                let mut text = String::new(alloc);
                push_halt(&mut text, alloc, machine, deck, waiting)?;
                Ok(text)
            }
            None => Ok(String::new(alloc)),
        }
    }

    /// Whether progress may be reported: not while a shown halt waits.
    pub(crate) fn tells_progress(&self) -> bool {
        !self.settings.is_quiet && self.one.shown.is_none() && self.two.shown.is_none()
    }

    /// The progress of both levels, as one line.
    pub(crate) fn progress<S: PackStore>(&self, machine: &Bureau<S>) -> Message {
        let mut message = Message::new(self.alloc);
        self.push_level(&mut message, machine, LevelId::One);
        message.push("; ");
        self.push_level(&mut message, machine, LevelId::Two);
        message.push("\n");
        message
    }

    fn push_level<S: PackStore>(&self, message: &mut Message, machine: &Bureau<S>, level: LevelId) {
        push_progress(
            message,
            self.seat(level),
            machine.level(level),
            machine.queued(level),
            self.tally.of(level),
        );
    }

    /// The message for a reply to a level's halt. If a rule or a log gives a job the same reply to the same halt once more, it is only
    /// counted.
    pub(crate) fn answered(
        &mut self,
        level: LevelId,
        code: HaltCode,
        answer: Answer,
    ) -> Result<Message, AllocError> {
        let mut message = Message::new(self.alloc);
        match answer.giver {
            Giver::Line | Giver::Person => message.push_reply(level, code, answer.digit),
            Giver::Log | Giver::Rule(_) => {
                if !self.settings.is_quiet {
                    let given = self.given_to(level, code, answer);
                    self.take_given(&mut message, level, given)?;
                }
            }
        }
        Ok(message)
    }

    /// A reply to the halt that waits in a level, which a rule or a log gives.
    fn given_to(&self, level: LevelId, code: HaltCode, answer: Answer) -> Given {
        let seat = self.seat(level);
        Given {
            code,
            answer,
            place: seat.ledger.begun().len().saturating_sub(1),
            card: seat.card,
            more: 0,
        }
    }

    /// Appends a reply that a rule or a log gives, or counts it.
    fn take_given(
        &mut self,
        message: &mut Message,
        level: LevelId,
        given: Given,
    ) -> Result<(), AllocError> {
        match self.seat(level).given {
            Some(last) if last.is_repeated_by(&given) => {
                self.seat_mut(level).given = Some(last.and(given));
            }
            _ => {
                self.push_counted(message, level);
                self.find_places(level)?;
                self.push_given(message, level, given);
                self.seat_mut(level).given = Some(given);
            }
        }
        Ok(())
    }

    /// Finds the line of a file for each card of a level.
    pub(crate) fn find_places(&mut self, level: LevelId) -> Result<(), AllocError> {
        let alloc = self.alloc;
        self.seat_mut(level).find_places(alloc)
    }

    /// Appends the first of some equal replies that a rule or a log gives.
    fn push_given(&self, message: &mut Message, level: LevelId, given: Given) {
        let seat = self.seat(level);
        message.push_level(level);
        message.push(": ");
        message.push_letters(given.code);
        message.push(" in ");
        push_job_at(message, &seat.ledger, given.place);
        if let Some(card) = given.card {
            message.push(", at ");
            push_card(message, seat, card);
        }
        message.push(", is answered ");
        push_answer(message, given.answer);
        message.push("\n");
    }

    /// Appends how many replies of a rule or a log were counted, if any, and forgets them.
    pub(crate) fn push_counted(&mut self, message: &mut Message, level: LevelId) {
        match self.seat(level).given {
            Some(given) if given.more == 1 => self.push_given(message, level, given),
            Some(given) if given.more > 1 => self.push_more(message, level, given),
            _ => {}
        }
        self.seat_mut(level).given = None;
    }

    /// Appends that some more equal replies were given.
    fn push_more(&self, message: &mut Message, level: LevelId, given: Given) {
        let seat = self.seat(level);
        message.push_level(level);
        message.push(": ");
        message.push_letters(given.code);
        message.push(" in ");
        push_job_at(message, &seat.ledger, given.place);
        message.push(", is answered ");
        push_answer(message, given.answer);
        message.push(" for ");
        message.push_number(given.more);
        message.push(" more halts");
        if let Some(card) = given.card {
            message.push(", the last at ");
            push_card(message, seat, card);
        }
        message.push("\n");
    }

    /// The counted replies of both levels, before something else is printed.
    pub(crate) fn counted(&mut self) -> Message {
        let mut message = Message::new(self.alloc);
        self.push_counted(&mut message, LevelId::One);
        self.push_counted(&mut message, LevelId::Two);
        message
    }

    /// What a person is asked.
    pub(crate) fn prompt(&self, question: Question) -> Message {
        let mut message = Message::new(self.alloc);
        message.push("\n");
        self.push_choices(&mut message, question);
        message.push("? ");
        message
    }

    /// Appends what may be answered to the halt that is asked about and to that of the other level, level 1 first.
    fn push_choices(&self, message: &mut Message, question: Question) {
        let one = self.asked_in(question, LevelId::One);
        let two = self.asked_in(question, LevelId::Two);
        if let Some(code) = one {
            message.push_choice(LevelId::One, code);
        }
        if one.is_some() && two.is_some() {
            message.push("; ");
        }
        if let Some(code) = two {
            message.push_choice(LevelId::Two, code);
        }
    }

    /// What a person is asked once more: `2 ends PAY; 3 records are added to CHECKS: 2 again to end it, another line to go back? `.
    pub(crate) fn again<S: PackStore>(
        &self,
        machine: &Bureau<S>,
        to: LevelId,
        digit: u8,
    ) -> Message {
        let mut message = Message::new(self.alloc);
        message.push_number(u64::from(digit));
        message.push(" ends ");
        push_last_job(&mut message, &self.seat(to).ledger);
        push_changes(&mut message, machine.level(to));
        message.push(": ");
        message.push_number(u64::from(digit));
        message.push(" again to end it, another line to go back? ");
        message
    }

    /// Takes note of a reply that ends the last job that was begun, if that has changed files.
    pub(crate) fn note_spoilt(
        &mut self,
        level: LevelId,
        digit: u8,
        files: &[OpenFile],
    ) -> Result<(), AllocError> {
        if is_grave(digit, files) {
            self.seat_mut(level).mark_spoilt()?;
        }
        Ok(())
    }

    /// Whether a reply ended a job after it had changed files.
    pub(crate) fn has_spoilt(&self) -> bool {
        self.one.has_spoilt() || self.two.has_spoilt()
    }

    /// Why the log or the script can't be written.
    pub(crate) fn unwritten(&self, what: &str, error: &io::Error) -> Message {
        let mut message = Message::new(self.alloc);
        message.push("\nthe ");
        message.push(what);
        message.push(" can't be written: ");
        push_failure(&mut message, error);
        message.push("\n");
        message
    }

    // ---- lines that are typed

    /// Interprets what is typed after a question, and appends the response.
    #[tactic(auto, using(crate::proofs::Replying::heard_command, crate::proofs::Replying::heard_for, crate::proofs::Replying::heard_here))]
    pub(crate) fn hear<S: PackStore>(
        &self,
        message: &mut Message,
        machine: &Bureau<S>,
        question: Question,
        typed: Typed,
    ) -> Said
        ensures { ComesOfLine question typed result }
    {
        match reply_in(typed) {
            Some((None, digit)) => self.hear_digit(message, question, digit),
            Some((Some(to), digit)) => self.hear_reply(message, question, to, digit),
            None => self.hear_command(message, machine, question, typed),
        }
    }

    /// A digit without a level: for the level that is asked, unless a person is asked for both.
    fn hear_digit(&self, message: &mut Message, question: Question, digit: u8) -> Said
        ensures { ComesOfDigit question question.level digit result }
    {
        if question.to_person {
            self.hear_person(message, question, digit)
        } else {
            self.hear_reply(message, question, question.level, digit)
        }
    }

    /// A digit that a person gives without a level.
    #[tactic(auto, using(crate::proofs::Replying::of_person))]
    fn hear_person(&self, message: &mut Message, question: Question, digit: u8) -> Said
        requires { question.to_person ≡ true }
        ensures { ComesOfDigit question question.level digit result }
    {
        if self.asked_in(question, question.level.other()).is_none() {
            return self.hear_reply(message, question, question.level, digit);
        }
        let one = self.allows(question, LevelId::One, digit);
        let two = self.allows(question, LevelId::Two, digit);
        match (one, two) {
            (true, true) => push_both(message, digit),
            (true, false) => push_one(message, LevelId::One, digit),
            (false, true) => push_one(message, LevelId::Two, digit),
            (false, false) => {
                return self.hear_reply(message, question, question.level, digit);
            }
        }
        Said::Nothing
    }

    /// Whether the halt of a level allows a digit, if it may be answered when this question is put.
    fn allows(&self, question: Question, of: LevelId, digit: u8) -> bool {
        match self.asked_in(question, of) {
            Some(code) => allowed(code, digit),
            None => false,
        }
    }

    /// A digit for a level.
    #[tactic(auto, using(crate::proofs::Replying::not_allowed, crate::proofs::Replying::not_asked))]
    fn hear_reply(&self, message: &mut Message, question: Question, to: LevelId, digit: u8) -> Said
        ensures { ComesOfDigit question to digit result }
    {
        match self.asked_in(question, to) {
            Some(code) if allowed(code, digit) => Said::Reply(to, digit),
            Some(code) => {
                message.push_reply(to, code, digit);
                Said::Nothing
            }
            None => {
                message.push_level(to);
                message.push(" shows no halt\n");
                Said::Nothing
            }
        }
    }

    /// A line that is no reply. Only a person may type more than replies.
    fn hear_command<S: PackStore>(
        &self,
        message: &mut Message,
        machine: &Bureau<S>,
        question: Question,
        typed: Typed,
    ) -> Said
        ensures { ComesOfCommand question result }
    {
        if matches!(typed, Typed::Nothing) {
            return Said::Nothing;
        }
        if !question.to_person {
            self.hear_unknown(message, question);
            return Said::Nothing;
        }
        match typed {
            Typed::Help => self.help(message, question),
            Typed::Show => self.show_again(message, question),
            Typed::Lines(of, most) => {
                let of = of.unwrap_or(question.level);
                push_last_lines(message, of, machine.lines(of), most);
            }
            Typed::Stop => return Said::Over,
            _ => self.hear_unknown(message, question),
        }
        Said::Nothing
    }

    /// Says what may be typed.
    fn hear_unknown(&self, message: &mut Message, question: Question) {
        if question.to_person {
            message.push(
                "a digit, as 0; a level and a digit, as 1 0; ? for what replies do; show; lines; or stop\n",
            );
        } else {
            message.push("this is no reply; give a digit for ");
            self.push_choices(message, question);
            message.push("\n");
        }
    }

    /// Explains what the replies do.
    fn help(&self, message: &mut Message, question: Question) {
        self.push_help_of(message, question, LevelId::One);
        self.push_help_of(message, question, LevelId::Two);
        push_words(message);
    }

    fn push_help_of(&self, message: &mut Message, question: Question, of: LevelId) {
        if let Some(code) = self.asked_in(question, of) {
            push_help(message, of, code);
        }
    }

    /// Shows the halts that are asked for once more.
    fn show_again(&self, message: &mut Message, question: Question) {
        self.push_shown(message, question, LevelId::One);
        self.push_shown(message, question, LevelId::Two);
    }

    fn push_shown(&self, message: &mut Message, question: Question, of: LevelId) {
        if self.asked_in(question, of).is_some() {
            self.seat(of).push_shown(message);
        }
    }
}

/// The level and the digit of a reply, if what is typed is one.
fn reply_in(typed: Typed) -> Option<(Option<LevelId>, u8)>
    ensures { result ≡ reply_in_spec typed }
{
    match typed {
        Typed::Reply(to, digit) => Some((to, digit)),
        Typed::Nothing
        | Typed::Help
        | Typed::Show
        | Typed::Lines(_, _)
        | Typed::Stop
        | Typed::Yes
        | Typed::No
        | Typed::Unknown => None,
    }
}

/// Whether a line of a list of replies is refused, given what came of it.
pub(crate) fn is_refused(question: Question, typed: Typed, said: Said) -> bool {
    !question.to_person && !matches!(typed, Typed::Nothing) && matches!(said, Said::Nothing)
}

fn unread_text(
    alloc: Global,
    level: LevelId,
    deck: &DeckText<'_>,
    fault: (u16, CardFault),
) -> Result<String, AllocError> {
    let mut text = String::new(alloc);
    push_unread(&mut text, level, deck, fault)?;
    Ok(text)
}

/// Appends why an output can't be written, and what to do.
fn push_failure(message: &mut Message, error: &io::Error) {
    if let Some(lost) = Lost::of(error.kind())
        && error.raw_os_error().is_none()
    {
        return message.push(lost.words());
    }
    match error.kind() {
        ErrorKind::StorageFull => message.push("its disk is full; make space there"),
        ErrorKind::QuotaExceeded => {
            message.push("your share of its disk is full; make space there");
        }
        _ => message.push_error(error),
    }
}

/// Appends that a log's reply isn't one to a halt: `level 1: the log's next reply, 3, is to UR in job 5 at card 178, and this halt is
/// UR in job 6 at card 201: the log doesn't answer it`.
fn push_not_logged(message: &mut Message, logged: AnsweredHalt, halt: LoggedHalt) {
    message.push_level(halt.level);
    message.push(": the log's next reply, ");
    message.push_number(u64::from(logged.reply.digit));
    message.push(", is to ");
    message.push_letters(logged.reply.code);
    if let Some(of) = logged.halt {
        push_where(message, of);
    }
    message.push(", and this halt is ");
    message.push_letters(halt.code);
    push_where(message, halt);
    message.push(": the log doesn't answer it\n");
}

/// Appends where a halt is: ` in job 5 at card 178`.
pub(crate) fn push_where(message: &mut Message, halt: LoggedHalt) {
    message.push(" in job ");
    message.push_number(u64::from(halt.job));
    if let Some(card) = halt.card {
        message.push(" at card ");
        message.push_number(u64::from(card));
    }
}

/// Appends a card of a level's deck: `card 178 (day1.job, line 12)`.
fn push_card(message: &mut Message, seat: &Seat<'_>, card: usize) {
    message.push("card ");
    message.push_number(card as u64);
    if let Some(deck) = seat.places()
        && let Some(place) = deck.place_of(card).place
    {
        message.push(" (");
        message.push_file_place(place);
        message.push(")");
    }
}

/// Appends a reply and who gave it without a question: `3 by line 7 of the rules`.
fn push_answer(message: &mut Message, answer: Answer) {
    message.push_number(u64::from(answer.digit));
    match answer.giver {
        Giver::Rule(line) => {
            message.push(" by line ");
            message.push_number(line as u64);
            message.push(" of the rules");
        }
        Giver::Log | Giver::Line | Giver::Person => message.push(" by the log"),
    }
}

/// Appends that both levels wait, and how to give a digit to the one whose halt allows it.
fn push_one(message: &mut Message, level: LevelId, digit: u8) {
    message.push("both levels wait: ");
    message.push_number(u64::from(level.number()));
    message.push(" ");
    message.push_number(u64::from(digit));
    message.push("?\n");
}

/// Appends that both levels wait, and how to give a digit to either.
fn push_both(message: &mut Message, digit: u8) {
    let digit = u64::from(digit);
    message.push("both levels wait: 1 ");
    message.push_number(digit);
    message.push(", or 2 ");
    message.push_number(digit);
    message.push("?\n");
}
