//! The halts of a level, in order.
ghost use Rattle.std.specs.Prelude.{◌≡◌, [], map, OnOk, OnErr};
ghost use Rattle.s3_operator.specs.Halts.{answer_to, is_waiting, waiting, with_halt, with_reply};
ghost use Rattle.s3_operator.specs.Inner.Halts.{halt_of};

use crate::halt::Halt;
use crate::halt_code::HaltCode;
use crate::replies::allowed;
use crate::reply_fault::ReplyFault;
use std::alloc::{AllocError, Global};
use std::marker::Model;

/// The halts that a level has shown, in order. The last one waits if it has no reply.
#[derive(Drop)]
pub struct HaltLog {
    halts: Vec<Halt>,
}

impl Model for HaltLog {
    ghost use Rattle.std.specs.Prelude.{List, map};
    ghost use Rattle.s3_operator.specs.Halts.{ShownHalt};
    ghost use Rattle.s3_operator.specs.Inner.Halts.{halt_of};

    ghost Value = { List ShownHalt };

    ghost view = { λ log. map halt_of log.halts.items };
}

impl HaltLog {
    /// A log without halts.
    pub fn new(alloc: Global) -> HaltLog
        ensures { result ≡ [] }
    {
        HaltLog {
            halts: Vec::new(alloc),
        }
    }

    /// What the halt that waits for a reply was shown for; `None` if none waits.
    pub fn waiting(&self) -> Option<HaltCode>
        ensures { result ≡ waiting self.now }
    {
        let halt = self.halts.last()?;
        halt.reply.is_none().then_some(halt.code)
    }

    /// Whether a halt waits for a reply.
    pub fn is_waiting(&self) -> bool
        ensures { result ≡ is_waiting self.now }
    {
        self.waiting().is_some()
    }

    /// Shows a halt of a job: it comes after the others and waits. On a refusal nothing changes.
    pub fn show(
        &mut self,
        job: u16,
        code: HaltCode,
        details: Vec<(u16, u8)>,
    ) -> Result<(), AllocError>
        ensures shown { OnOk result (self.new ≡ with_halt job code details.items self.old) }
        ensures refused { OnErr result (self.new ≡ self.old) }
    {
        self.halts.push(Halt {
            job,
            code,
            details,
            reply: None,
        })?;
        Ok(())
    }

    /// Answers the halt that waits with a digit. Refused if no halt waits, or if the halt doesn't allow the digit; then nothing
    /// changes. It takes no memory.
    pub fn reply(&mut self, digit: u8) -> Result<(), ReplyFault>
        ensures answer { result ≡ answer_to digit (waiting self.old) }
        ensures filled { OnOk result (self.new ≡ with_reply digit self.old) }
        ensures refused { OnErr result (self.new ≡ self.old) }
    {
        let code = self.waiting().ok_or(ReplyFault::NotHalted)?;
        if !allowed(code, digit) {
            return Err(ReplyFault::NotAllowed);
        }
        self.fill(digit);
        Ok(())
    }

    /// Puts a reply into the last halt.
    fn fill(&mut self, digit: u8)
        ensures { self.new ≡ with_reply digit self.old }
    {
        if let Some(halt) = self.halts.last_mut() {
            halt.reply = Some(digit);
        }
    }

    /// The halts that were shown, in order.
    pub fn halts(&self) -> &[Halt]
        ensures { map halt_of result.now ≡ self.now }
    {
        &self.halts
    }
}
