//! A run waits at a request, halts, or ends.
ghost use Rattle.std.specs.Prelude.{◌≡◌};
ghost use Rattle.s3_meaning.specs.Runs.{ended, halted};
ghost use Rattle.s3_meaning.specs.Cycle.{again};
ghost use Rattle.s3_cycle.specs.Inner.Rest.{continued};
ghost use Rattle.s3_cycle.specs.Inner.Going.{IsRunning, GoesOn, Continues, here};

use crate::progress::{Continuation, Point};
use crate::request::Request;
use crate::stepper::Stepper;
use s3_operator::HaltCode;

impl Stepper {
    /// Waits for the answer to a request.
    pub fn wait(&mut self, request: Request, point: Point)
        ensures { self.new ≡ record self.old { request = request; point = point } }
    {
        self.request = request;
        self.point = point;
    }

    /// Halts; reply 0 goes on as said.
    pub fn halt(&mut self, code: HaltCode, then: Continuation)
        requires running { IsRunning self.old }
        requires then { Continues self.old.program self.old.progress then }
        ensures { GoesOn self.old self.new (here self.old (λ source program progress. halted (again source) code (continued source program progress then))) }
    {
        self.wait(Request::Ask(code), Point::Reply(then));
    }

    /// Ends the job.
    pub fn end(&mut self, at_once: bool)
        requires { IsRunning self.old }
        ensures { GoesOn self.old self.new (here self.old (λ source program progress. ended at_once)) }
    {
        self.wait(Request::End { at_once }, Point::End { at_once });
    }
}
