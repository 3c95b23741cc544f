//! The running job: its turn, what it continues with, its place after that, and its end.

use crate::level::Level;
use crate::next::Next;
use crate::taken::Taken;
use s3_cycle::{Answer, Request};
use s3_labels::Pack;
use s3_operator::HaltCode;
use s3_solo::Did;
use s3_spool::Spool;
use s3_store::{SectorFault, Sectors};
use std::alloc::AllocError;
use std::num::NonZeroU16;

impl Level {
    ghost use Rattle.std.specs.Prelude.{◌≡◌, ◌≤◌, None, IfOk, IsOk, OnOk, ◌≢◌};
    ghost use Rattle.std.specs.Int.NonZero.{non_zero_u16_get};
    ghost use Rattle.std.specs.Option.{option_copied};
    ghost use Rattle.s3_store.specs.Inner.State.{KeepsContents};
    ghost use Rattle.s3_cycle.specs.declared.request.Request.TheVariants as asks;
    ghost use Rattle.s3_cycle.specs.Inner.Requests.{answer_of};
    ghost use Rattle.s3_job_files.specs.Inner.Holds.{seen};
    ghost use Rattle.s3_solo.specs.declared.action.Did.TheVariants.{Acted};
    ghost use Rattle.s3_solo.specs.World.{World, JobAtWork};
    ghost use Rattle.s3_solo.specs.Serving.{answered, at_work, halting, job_ended, with_answer};
    ghost use Rattle.s3_level.specs.Inner.Calls.{KeepsJob, KeepsReady, Leaves, LeavesAll};
    ghost use Rattle.s3_level.specs.Inner.Holds.{Shown, AreAll, around, shown, with_seen, HoldsParts, IsQuiet, IsReady, IsUpTo, Becomes};
    ghost use Rattle.s3_level.specs.Inner.Turning.{Pends, request_by, waits_by, FitsJob, Comes, AtWorkBecomes, JumpsBecome, TakesTurns};

    /// Takes turns, at most `most` of them and at least one: each performs the pending request of the job at work, or begins the
    /// next job. They are several only if they pass jumps.
    #[tactic(auto, using(crate::proofs::Turns::none_open, crate::proofs::Turns::once_up_to, crate::proofs::Turns::once_if_ok))]
    pub(crate) fn step<P: Sectors>(
        &mut self,
        most: NonZeroU16,
        pack: &mut Pack<P>,
        spool: &mut Spool,
    ) -> Result<Taken, SectorFault>
        requires ready { IsReady self.old (seen pack.old.areas (P.state pack.old.pool).contents) }
        requires blocks { AreAll spool.old }
        ensures times { IfOk result (λ taken. IsUpTo (non_zero_u16_get most) taken) }
        ensures world { TakesTurns result (HoldsParts self.old (shown self.old.id (around pack.old.areas (P.state pack.old.pool) spool.old))) (HoldsParts self.new (shown self.old.id (around pack.new.areas (P.state pack.new.pool) spool.new))) }
        ensures leaves { LeavesAll result self.old self.new (around pack.old.areas (P.state pack.old.pool) spool.old) (around pack.new.areas (P.state pack.new.pool) spool.new) }
        ensures quiet { IfOk result (λ taken. IsQuiet taken.did pack.old.areas pack.new.areas (P.state pack.old.pool) (P.state pack.new.pool)) }
        ensures queues { IfOk result (λ taken. taken.did ≢ Acted → spool.new ≡ spool.old) }
    {
        if self.halts.is_waiting() {
            return Taken::once(Ok(Did::Idle));
        }
        let Some(request) = self.pending() else {
            return Taken::once(self.begin(pack));
        };
        match request {
            Request::Card => Taken::once(self.read_card(pack)),
            Request::File { .. } => Taken::once(self.serve_file(pack)),
            Request::Print { page, line } => {
                let page = *page;
                let line = *line;
                Taken::once(self.print(page, line, pack, spool))
            }
            Request::Jump => self.pass_jumps(most, pack),
            Request::End { .. } => Taken::once(self.end(pack)),
            Request::Ask(_) => Taken::once(Ok(Did::Idle)),
        }
    }

    /// The pending request of the job at work.
    #[tactic(auto, using(crate::proofs::Running::pends))]
    pub(crate) fn pending(&self) -> Option<&Request>
        ensures request { option_copied result ≡ request_by self.now.job }
        ensures world { (s : Shown) (w : World) → HoldsParts self.now s w → Pends (waits_by self.now.job) w }
    {
        let Some(job) = &self.job else {
            return None;
        };
        Some(job.cycle.pending())
    }

    /// Ends the job at work: its files are closed.
    #[inline(never)]
    pub(crate) fn end_job<P: Sectors>(&mut self, pack: &mut Pack<P>) -> Result<(), SectorFault>
        requires ready { IsReady self.old (seen pack.old.areas (P.state pack.old.pool).contents) }
        ensures world { (s : Shown) → OnOk result (Becomes job_ended (HoldsParts self.old (with_seen (seen pack.old.areas (P.state pack.old.pool).contents) s)) (HoldsParts self.new (with_seen (seen pack.new.areas (P.state pack.new.pool).contents) s))) }
        ensures leaves { Leaves result self.old self.new pack.old.areas pack.new.areas (P.state pack.old.pool) (P.state pack.new.pool) }
        ensures rests { self.old.job ≡ None → (pack.new.areas ≡ pack.old.areas) × KeepsContents (P.state pack.old.pool) (P.state pack.new.pool) }
        ensures ends { self.old.job ≡ None → IsOk result }
    {
        match self.job.take() {
            Some(job) => job.close(&mut self.library, pack),
            None => Ok(()),
        }
    }

    /// Ends the job at work at its request.
    fn end<P: Sectors>(&mut self, pack: &mut Pack<P>) -> Result<Did, SectorFault>
        requires ready { IsReady self.old (seen pack.old.areas (P.state pack.old.pool).contents) }
        ensures world { (s : Shown) → OnOk result (Becomes job_ended (HoldsParts self.old (with_seen (seen pack.old.areas (P.state pack.old.pool).contents) s)) (HoldsParts self.new (with_seen (seen pack.new.areas (P.state pack.new.pool).contents) s))) }
        ensures acted { IfOk result (λ did. did ≡ Acted) }
        ensures leaves { Leaves result self.old self.new pack.old.areas pack.new.areas (P.state pack.old.pool) (P.state pack.new.pool) }
        ensures quiet { IfOk result (λ did. IsQuiet did pack.old.areas pack.new.areas (P.state pack.old.pool) (P.state pack.new.pool)) }
    {
        self.end_job(pack)?;
        Ok(Did::Acted)
    }

    /// Lets the job at work continue after the pending jump and the jumps after it, at most `most` of them.
    fn pass_jumps<P: Sectors>(
        &mut self,
        most: NonZeroU16,
        pack: &mut Pack<P>,
    ) -> Result<Taken, SectorFault>
        requires asks { request_by self.old.job ≡ Some asks.Jump }
        requires ready { IsReady self.old (seen pack.old.areas (P.state pack.old.pool).contents) }
        ensures times { IfOk result (λ taken. IsUpTo (non_zero_u16_get most) taken) }
        ensures acted { IfOk result (λ taken. taken.did ≡ Acted) }
        ensures world { (s : Shown) → IfOk result (λ taken. JumpsBecome taken.times at_work (HoldsParts self.old (with_seen (seen pack.old.areas (P.state pack.old.pool).contents) s)) (HoldsParts self.new (with_seen (seen pack.new.areas (P.state pack.new.pool).contents) s))) }
        ensures leaves { Leaves result self.old self.new pack.old.areas pack.new.areas (P.state pack.old.pool) (P.state pack.new.pool) }
    {
        let times = self.take_jumps(most);
        self.stand(pack)?;
        Ok(Taken {
            did: Did::Acted,
            times,
        })
    }

    /// Gives the pending jump and the jumps after it, at most `most`, their answers, and says how many they were.
    #[tactic(auto, using(crate::proofs::Jumping::jumps_taken))]
    fn take_jumps(&mut self, most: NonZeroU16) -> u16
        requires asks { request_by self.old.job ≡ Some asks.Jump }
        ensures some { 1 ≤ result }
        ensures few { result ≤ non_zero_u16_get most }
        ensures world { (s : Shown) → JumpsBecome result (λ job w. record w { job = Some job }) (HoldsParts self.old s) (HoldsParts self.new s) }
        ensures keeps { KeepsReady self.old self.new }
    {
        match &mut self.job {
            Some(job) => job.pass_jumps(most),
            None => unreachable!(),
        }
    }

    /// Lets the job at work continue with the answer to its pending request.
    #[inline(always)]
    #[tactic(auto, using(crate::proofs::Running::then_stands))]
    pub(crate) fn resume<P: Sectors>(
        &mut self,
        answer: Answer<'_>,
        pack: &mut Pack<P>,
    ) -> Result<(), SectorFault>
        requires fits { FitsJob self.old.job answer }
        requires ready { IsReady self.old (seen pack.old.areas (P.state pack.old.pool).contents) }
        ensures world { (s : Shown) → OnOk result (AtWorkBecomes (answered (answer_of answer.entry)) (HoldsParts self.old (with_seen (seen pack.old.areas (P.state pack.old.pool).contents) s)) (HoldsParts self.new (with_seen (seen pack.new.areas (P.state pack.new.pool).contents) s))) }
        ensures leaves { Leaves result self.old self.new pack.old.areas pack.new.areas (P.state pack.old.pool) (P.state pack.new.pool) }
    {
        self.take_answer(answer);
        self.stand(pack)
    }

    /// Gives the pending request of the job at work its answer.
    #[tactic(auto, using(crate::proofs::Running::answer_taken))]
    fn take_answer(&mut self, answer: Answer<'_>)
        requires { FitsJob self.old.job answer }
        ensures world { (s : Shown) → AtWorkBecomes (λ job w. record w { job = Some (with_answer (answer_of answer.entry) job) }) (HoldsParts self.old s) (HoldsParts self.new s) }
        ensures keeps { KeepsReady self.old self.new }
    {
        if let Some(job) = &mut self.job {
            job.resume(answer);
        }
    }

    /// Shows the halt if the job at work asks for a reply; ends the job if a reply has ended it.
    #[tactic(auto, using(crate::proofs::Running::halt_shown, crate::proofs::Running::job_over, crate::proofs::Running::job_goes_on))]
    pub(crate) fn stand<P: Sectors>(&mut self, pack: &mut Pack<P>) -> Result<(), SectorFault>
        requires ready { IsReady self.old (seen pack.old.areas (P.state pack.old.pool).contents) }
        ensures world { (s : Shown) → OnOk result (AtWorkBecomes at_work (HoldsParts self.old (with_seen (seen pack.old.areas (P.state pack.old.pool).contents) s)) (HoldsParts self.new (with_seen (seen pack.new.areas (P.state pack.new.pool).contents) s))) }
        ensures leaves { Leaves result self.old self.new pack.old.areas pack.new.areas (P.state pack.old.pool) (P.state pack.new.pool) }
    {
        match self.next() {
            Next::Halts(number, code) => Ok(self.show(number, code, Vec::new(self.alloc))?),
            Next::IsOver => self.end_job(pack),
            Next::GoesOn => Ok(()),
        }
    }

    /// The next state of the job at work.
    #[tactic(auto, using(crate::proofs::Running::comes_halt, crate::proofs::Running::comes_over, crate::proofs::Running::comes_on))]
    fn next(&self) -> Next
        ensures { (s : Shown) (w : World) (job : JobAtWork) → w.job ≡ Some job → HoldsParts self.now s w → Comes result job w }
    {
        let Some(job) = &self.job else {
            return Next::GoesOn;
        };
        match job.cycle.pending() {
            Request::Ask(code) => Next::Halts(job.number, *code),
            Request::End { at_once: true } => Next::IsOver,
            _ => Next::GoesOn,
        }
    }

    /// Shows a halt.
    #[inline(never)]
    pub(crate) fn show(
        &mut self,
        number: u16,
        code: HaltCode,
        details: Vec<(u16, u8)>,
    ) -> Result<(), AllocError>
        ensures world { (s : Shown) → OnOk result (Becomes (halting number code details.items) (HoldsParts self.old s) (HoldsParts self.new s)) }
        ensures keeps { KeepsJob self.old self.new }
    {
        self.halts.show(number, code, details)
    }
}
