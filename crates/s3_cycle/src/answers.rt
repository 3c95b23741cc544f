//! What follows an answer.
ghost use Rattle.std.specs.Prelude.{◌≡◌, true, IsTrue};
ghost use Rattle.s3_meaning.specs.Cycle.{again};
ghost use Rattle.s3_meaning.specs.Inner.Requests.{fits};
ghost use Rattle.s3_meaning.specs.Runs.{replied, to_totals};
ghost use Rattle.s3_meaning.specs.Output.{stored_or_halted};
ghost use Rattle.s3_cycle.specs.Inner.Requests.{answer_of, request_of};
ghost use Rattle.s3_cycle.specs.Inner.Rest.{answered, chain_answered, continued, head_answered, inputs_in, lines_from};
ghost use Rattle.s3_meaning.specs.Requests as Meant;
ghost use Rattle.s3_program.specs.declared.starts.Walk.TheVariants as walk;
ghost use Rattle.s3_match.specs.Inner.Heads.{file_at};
ghost use Rattle.s3_match.specs.Inner.Reading.{IsUnreadAt, input_at};
ghost use Rattle.s3_cycle.specs.Inner.Answers.{IsRecordOrNothing, is_done_or_refused, is_reply};
ghost use Rattle.s3_cycle.specs.Inner.Going.{CanCalculate, Continues, GoesOn, IsChainOf, IsPastChain, IsPastLine, IsRunning, IsWaiting, IsWalk, here};

use crate::progress::{Continuation, Point, Time};
use crate::request::Answer;
use crate::stepper::Stepper;
use s3_lines::indicator::Indicator;
use s3_program::starts::Walk;

impl Stepper {
    /// Goes on with the answer to the pending request, up to the next one.
    pub fn go_on(&mut self, answer: &Answer<'_>)
        requires waiting { IsWaiting self.old }
        requires fits { IsTrue (fits (request_of self.old.program self.old.composition self.old.request) (answer_of answer.now)) }
        ensures { GoesOn self.old self.new (here self.old (λ source program progress. answered source program progress self.old.point (answer_of answer.now))) }
    {
        match self.point {
            Point::Lines { walk, next } => self.put_walk(walk, next),
            Point::Records { walk, next } => self.go_on_stored(walk, next, *answer),
            Point::Head { place } => self.go_on_read(place, *answer),
            Point::Chained { file, missing } => self.go_on_chained(file, missing, *answer),
            Point::Calculations => self.calculate_on(),
            Point::Reply(then) => self.go_on_replied(then, *answer),
            Point::End { at_once: _ } => unreachable!(),
        }
    }

    /// Lines from one on, and the steps after them.
    #[inline(always)]
    fn put_walk(&mut self, walk: Walk, next: usize)
        requires running { IsRunning self.old }
        requires walk { IsWalk self.old.program self.old.progress walk }
        ensures { GoesOn self.old self.new (here self.old (λ source program progress. lines_from source program progress walk next)) }
    {
        match walk {
            Walk::Beginning => self.put_headings(next),
            Walk::Totals => self.put_time_totals(next),
            Walk::Exceptions => self.put_exceptions(next),
            Walk::Overflow => self.put_time_overflow(next),
        }
    }

    /// T lines from one on, and the steps after them.
    #[inline(never)]
    pub fn put_time_totals(&mut self, next: usize)
        requires running { IsRunning self.old }
        requires walk { IsWalk self.old.program self.old.progress walk.Totals }
        ensures { GoesOn self.old self.new (here self.old (λ source program progress. lines_from source program progress walk.Totals next)) }
    {
        match self.progress.time {
            Time::Totals(_) => self.put_totals(next),
            Time::Last => self.put_last_totals(next),
            Time::Details(_) => unreachable!(),
        }
    }

    /// The lines at overflow from one on, and the steps after them.
    #[inline(never)]
    pub fn put_time_overflow(&mut self, next: usize)
        requires running { IsRunning self.old }
        requires walk { IsWalk self.old.program self.old.progress walk.Overflow }
        ensures { GoesOn self.old self.new (here self.old (λ source program progress. lines_from source program progress walk.Overflow next)) }
    {
        match self.progress.time {
            Time::Totals(selection) => self.put_overflow(selection, next),
            Time::Details(_) | Time::Last => unreachable!(),
        }
    }

    /// A record is put into its file, or refused, which halts.
    fn go_on_stored(&mut self, walk: Walk, next: usize, answer: Answer<'_>)
        requires running { IsRunning self.old }
        requires walk { IsWalk self.old.program self.old.progress walk }
        requires past { IsPastLine self.old.program walk next }
        requires fits { is_done_or_refused answer ≡ true }
        ensures { GoesOn self.old self.new (here self.old (λ source program progress. stored_or_halted (again source) (lines_from source program progress walk next) (answer_of answer.entry))) }
    {
        match answer {
            Answer::Done => self.put_walk(walk, next),
            Answer::Refused(code) => self.halt(code, Continuation::Lines { walk, next }),
            Answer::Found(_) | Answer::Nothing | Answer::Reply(_) => unreachable!(),
        }
    }

    /// The card or the record that was asked for, or none.
    fn go_on_read(&mut self, place: usize, answer: Answer<'_>)
        requires running { IsRunning self.old }
        requires unread { IsUnreadAt self.old.progress.reading.files.items place }
        requires fits { IsRecordOrNothing (input_at (inputs_in self.old.program self.old.progress) place).file answer }
        ensures { GoesOn self.old self.new (here self.old (λ source program progress. head_answered source program progress place (answer_of answer.entry))) }
    {
        match answer {
            Answer::Found(bytes) => self.take_record(place, bytes),
            Answer::Nothing => self.end_file(place),
            Answer::Done | Answer::Refused(_) | Answer::Reply(_) => unreachable!(),
        }
    }

    /// The record that CHAIN found, or none.
    fn go_on_chained(&mut self, file: usize, missing: Option<Indicator>, answer: Answer<'_>)
        requires running { IsRunning self.old }
        requires calculates { CanCalculate self.old.program self.old.progress }
        requires past { IsPastChain self.old.program self.old.progress }
        requires chain { IsChainOf self.old.program file missing }
        requires fits { IsRecordOrNothing (file_at self.old.program file) answer }
        ensures { GoesOn self.old self.new (here self.old (λ source program progress. chain_answered source program progress file missing (answer_of answer.entry))) }
    {
        match answer {
            Answer::Found(bytes) => self.chain_found(file, missing, bytes),
            Answer::Nothing => self.chain_missed(missing),
            Answer::Done | Answer::Refused(_) | Answer::Reply(_) => unreachable!(),
        }
    }

    /// Reply 0 goes on, 2 goes to the totals of the last record, 3 ends the job.
    fn go_on_replied(&mut self, then: Continuation, answer: Answer<'_>)
        requires running { IsRunning self.old }
        requires then { Continues self.old.program self.old.progress then }
        requires fits { is_reply answer ≡ true }
        ensures { GoesOn self.old self.new (here self.old (λ source program progress. replied (again source) (continued source program progress then) (answer_of answer.entry))) }
    {
        match answer {
            Answer::Reply(digit) => self.reply(then, digit),
            Answer::Found(_) | Answer::Nothing | Answer::Done | Answer::Refused(_) => {
                unreachable!()
            }
        }
    }

    #[inline(never)]
    fn reply(&mut self, then: Continuation, digit: u8)
        requires running { IsRunning self.old }
        requires then { Continues self.old.program self.old.progress then }
        ensures { GoesOn self.old self.new (here self.old (λ source program progress. replied (again source) (continued source program progress then) (Meant.Reply digit))) }
    {
        if digit == 0 {
            self.continue_with(then);
        } else if digit == 2 {
            self.go_to_totals();
        } else {
            self.end(true);
        }
    }

    /// What follows reply 0.
    fn continue_with(&mut self, then: Continuation)
        requires running { IsRunning self.old }
        requires then { Continues self.old.program self.old.progress then }
        ensures { GoesOn self.old self.new (here self.old (λ source program progress. continued source program progress then)) }
    {
        match then {
            Continuation::Halts { number } => self.show_later_halts(number),
            Continuation::Lines { walk, next } => self.put_walk(walk, next),
            Continuation::Head { place } => self.ask_head(place),
            Continuation::Field { moves, place } => self.move_bad(moves, place),
            Continuation::Division { place } => self.divide_to_zero(place),
            Continuation::Calculations => self.calculate_on(),
        }
    }

    /// Reply 2: LR and L1 to L9 go on, and the totals of the last record follow; once LR is on the job ends.
    fn go_to_totals(&mut self)
        requires { IsRunning self.old }
        ensures { GoesOn self.old self.new (here self.old (λ source program progress. to_totals (again source))) }
    {
        let is_last = self.is_on(Indicator::LastRecord);
        self.turn_last_record_on();
        self.turn(Indicator::FirstPage, false);
        if is_last {
            self.end(true);
        } else {
            self.total_last();
        }
    }
}
