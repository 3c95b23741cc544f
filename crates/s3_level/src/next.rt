//! The next state of a job at work.

ghost use Rattle.std.specs.Prelude.{◌≡◌};
ghost use Rattle.s3_level.specs.Inner.Turning.{code_asked};

use s3_cycle::Request;
use s3_operator::HaltCode;

/// The next state of a job at work, once its request has its answer.
#[derive(Clone, Copy)]
pub enum Next {
    /// The job of this number halts and asks for a reply.
    Halts(u16, HaltCode),
    /// A reply has ended the job.
    IsOver,
    /// The job continues, and its request waits for a turn.
    GoesOn,
}

/// The halt for which a request asks for a reply; none if it asks for something else.
pub fn code_asked(request: &Request) -> Option<HaltCode>
    ensures { result ≡ code_asked request.now }
{
    match request {
        Request::Ask(code) => Some(*code),
        _ => None,
    }
}
