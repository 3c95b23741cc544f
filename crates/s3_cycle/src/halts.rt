//! Step 1: heading and detail lines; after them 1P is turned off, and each of H1 to H9 that is on halts.
ghost use Rattle.std.specs.Prelude.{◌≡◌, ◌+◌, true, false, IfSome, IfNone};
ghost use Rattle.s3_lines.specs.Ranges.{is_between};
ghost use Rattle.s3_lines.specs.declared.indicator.Indicator.TheVariants.{Halt};
ghost use Rattle.s3_meaning.specs.Environment.{turn};
ghost use Rattle.s3_program.specs.declared.starts.Walk.TheVariants as walk;
ghost use Rattle.s3_cycle.specs.Inner.Rest.{halts_from, lines_from};
ghost use Rattle.s3_cycle.specs.Inner.Going.{IsRunning, CanBegin, GoesOn, here};
ghost use Rattle.s3_cycle.specs.Inner.Halting.{IsFirstHalt, AreOff};

use crate::progress::Continuation;
use crate::stepper::Stepper;
use crate::went::Went;
use s3_lines::indicator::Indicator;
use s3_operator::HaltCode;
use s3_program::starts::Walk;

/// H9.
const LAST_HALT: u8 = 9;

impl Stepper {
    /// Step 1 from a line on, and the steps after it.
    pub fn put_headings(&mut self, next: usize)
        requires running { IsRunning self.old }
        requires begins { CanBegin self.old.program self.old.progress }
        ensures { GoesOn self.old self.new (here self.old (λ source program progress. lines_from source program progress walk.Beginning next)) }
    {
        match self.put_lines(Walk::Beginning, next) {
            Went::ToRequest => {}
            Went::ToEnd => {
                self.turn(Indicator::FirstPage, false);
                self.show_halts(1);
            }
        }
    }

    /// Whether one of H1 to H9 is on; mostly none is. The number 0, which no halt indicator has, is looked at with theirs.
    fn has_halt(&self) -> bool
        ensures { result ≡ false → AreOff self.now 0 10 }
    {
        let mut some_on = false;
        for number in 0..=LAST_HALT {
            some_on |= self.is_on(Indicator::Halt(number));
        }
        some_on
    }

    /// The first of H1 to H9, from a number on, that is on; some halt indicator is.
    #[inline(never)]
    fn first_that_halts(&self, from: u8) -> Option<u8>
        ensures found { IfSome result (IsFirstHalt self.now from) }
        ensures none { IfNone result (AreOff self.now from 10) }
    {
        for number in from..=LAST_HALT {
            if self.is_on(Indicator::Halt(number)) {
                return Some(number);
            }
        }
        None
    }

    /// The first of H1 to H9, from a number on, that is on.
    fn first_halt(&self, from: u8) -> Option<u8>
        ensures found { IfSome result (IsFirstHalt self.now from) }
        ensures none { IfNone result (AreOff self.now from 10) }
    {
        if self.has_halt() {
            self.first_that_halts(from)
        } else {
            None
        }
    }

    /// Those of H1 to H9 from a number on, and the steps after them.
    fn show_halts(&mut self, from: u8)
        requires running { IsRunning self.old }
        requires begins { CanBegin self.old.program self.old.progress }
        requires from { is_between 1 10 from ≡ true }
        ensures { GoesOn self.old self.new (here self.old (λ source program progress. halts_from source program progress from)) }
    {
        match self.first_halt(from) {
            Some(number) => self.halt(
                HaltCode::HaltIndicator(number),
                Continuation::Halts { number },
            ),
            None => self.begin_reading(),
        }
    }

    /// Continues after the halt of one of H1 to H9, which is turned off.
    pub fn show_later_halts(&mut self, number: u8)
        requires running { IsRunning self.old }
        requires begins { CanBegin self.old.program self.old.progress }
        requires number { is_between 1 9 number ≡ true }
        ensures { GoesOn self.old self.new (here self.old (λ source program progress e. halts_from source program progress (number + 1) (turn (Halt number) false e))) }
    {
        self.turn(Indicator::Halt(number), false);
        self.show_halts(number + 1);
    }
}
