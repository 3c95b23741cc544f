//! Replies to halts.

use crate::level::Level;
use crate::next::code_asked;
use s3_cycle::Answer;
use s3_labels::Pack;
use s3_operator::{HaltCode, ReplyFault, allowed};
use s3_store::{SectorFault, Sectors};

impl Level {
    ghost use Rattle.std.specs.Prelude.{◌≡◌, true, OnOk, OnErr, option_and_then};
    ghost use Rattle.s3_cycle.specs.declared.request.Answer.TheVariants as answers;
    ghost use Rattle.s3_job_files.specs.Inner.Holds.{seen};
    ghost use Rattle.s3_operator.specs.Halts.{answer_to, waiting, with_reply};
    ghost use Rattle.s3_solo.specs.World.{World, JobAtWork};
    ghost use Rattle.s3_solo.specs.Solo.{resumed};
    ghost use Rattle.s3_level.specs.Inner.Calls.{KeepsJob, Leaves};
    ghost use Rattle.s3_level.specs.Inner.Holds.{Shown, with_seen, HoldsParts, IsReady, Becomes};
    ghost use Rattle.s3_level.specs.Inner.Turning.{code_asked, request_by, FitsJob, MayReply};

    /// Gives the halt that waits its reply.
    pub(crate) fn reply(&mut self, digit: u8) -> Result<(), ReplyFault>
        ensures answer { result ≡ answer_to digit (waiting self.old.halts) }
        ensures given { (s : Shown) → OnOk result (Becomes (λ w. record w { halts = with_reply digit w.halts }) (HoldsParts self.old s) (HoldsParts self.new s)) }
        ensures refused { OnErr result (self.new ≡ self.old) }
        ensures keeps { KeepsJob self.old self.new }
    {
        self.halts.reply(digit)
    }

    /// The job at work, if there is one, continues with a reply that it asked for.
    #[tactic(auto, using(crate::proofs::Replies::goes_on, crate::proofs::Replies::stays_there))]
    pub(crate) fn go_on<P: Sectors>(
        &mut self,
        digit: u8,
        pack: &mut Pack<P>,
    ) -> Result<(), SectorFault>
        requires ready { IsReady self.old (seen pack.old.areas (P.state pack.old.pool).contents) }
        ensures world { (s : Shown) → OnOk result ((w : World) → MayReply digit w → HoldsParts self.old (with_seen (seen pack.old.areas (P.state pack.old.pool).contents) s) w → HoldsParts self.new (with_seen (seen pack.new.areas (P.state pack.new.pool).contents) s) (resumed digit w.job w)) }
        ensures leaves { Leaves result self.old self.new pack.old.areas pack.new.areas (P.state pack.old.pool) (P.state pack.new.pool) }
    {
        if self.takes(digit) {
            self.resume(Answer::Reply(digit), pack)
        } else {
            Ok(())
        }
    }

    /// Whether the job at work asks for a reply that allows this digit.
    #[tactic(auto, using(crate::proofs::Fitting::reply_fits, crate::proofs::Fitting::reply_allowed, crate::proofs::Fitting::none_allowed))]
    fn takes(&self, digit: u8) -> bool
        ensures fits { result ≡ true → FitsJob self.now.job (answers.Reply digit) }
        ensures world { (s : Shown) (w : World) (job : JobAtWork) → w.job ≡ Some job → HoldsParts self.now s w → MayReply digit w → result ≡ true }
    {
        match self.asked() {
            Some(code) => allowed(code, digit),
            None => false,
        }
    }

    /// What the job at work asks a reply for, if it does.
    fn asked(&self) -> Option<HaltCode>
        ensures { result ≡ option_and_then code_asked (request_by self.now.job) }
    {
        code_asked(self.pending()?)
    }
}
