//! Jumps that are passed, many at once.
ghost use Rattle.std.specs.Prelude.{◌≡◌, ◌≤◌};
ghost use Rattle.std.specs.Int.NonZero.{non_zero_u16_get};
ghost use Rattle.s3_cycle.specs.declared.request.Request.TheVariants as asks;
ghost use Rattle.s3_cycle.specs.Inner.Rest.{rest};
ghost use Rattle.s3_cycle.specs.Inner.Going.{IsWaiting, own};
ghost use Rattle.s3_cycle.specs.Inner.Calculating.{GoesOnPast};

use crate::progress::Point;
use crate::request::Answer;
use crate::stepper::Stepper;
use std::num::NonZeroU16;

impl Stepper {
    /// Passes the pending jump and, if it is one to calculations, the jumps to calculations after it, so many at most: how many
    /// they were.
    pub fn pass_jumps(&mut self, most: NonZeroU16) -> u16
        requires waiting { IsWaiting self.old }
        requires jump { self.old.request ≡ asks.Jump }
        ensures some { 1 ≤ result }
        ensures few { result ≤ non_zero_u16_get most }
        ensures passes { GoesOnPast result self.old self.new (rest (own self.old) self.old) }
    {
        match self.point {
            Point::Calculations => self.calculate_on_past(most.get() - 1) + 1,
            _ => {
                self.go_on(&Answer::Done);
                1
            }
        }
    }
}
