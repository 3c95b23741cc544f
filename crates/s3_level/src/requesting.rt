//! Requests of the job at work: cards, lines and records.

use crate::level::Level;
use s3_cycle::Answer;
use s3_labels::Pack;
use s3_solo::Did;
use s3_spool::{ComposedLine, Spool, SpoolFault};
use s3_store::{SectorFault, Sectors};

impl Level {
    ghost use Rattle.std.specs.Prelude.{◌≡◌, ◌≢◌, ◌<◌, ℕ, List, false, length, IfOk, OnOk, OnErr};
    ghost use Rattle.s3_meaning.specs.Requests as Meant;
    ghost use Rattle.s3_cycle.specs.declared.request.Request.TheVariants as asks;
    ghost use Rattle.s3_spool.specs.Inner.Queues.{blocks_of, quota_of};
    ghost use Rattle.s3_solo.specs.declared.action.Did.TheVariants.{Acted};
    ghost use Rattle.s3_job_files.specs.Inner.Holds.{seen};
    ghost use Rattle.s3_solo.specs.Serving.{card_answer, line_put, served, with_answer, with_card_read};
    ghost use Rattle.s3_level.specs.Inner.Calls.{KeepsReady, Leaves, LeavesAll};
    ghost use Rattle.s3_level.specs.Inner.Holds.{Shown, AreAll, around, shown, with_seen, HoldsParts, IsQuiet, IsReady, IsUntouched, Becomes};
    ghost use Rattle.s3_level.specs.Inner.Turning.{request_by, waits_by, Acts, AsksFile, AtWorkBecomes, Serves, FileServed, FileThere, on_files};

    /// Reads a card for the job at work.
    #[tactic(auto, using(crate::proofs::Running::card_served))]
    pub(crate) fn read_card<P: Sectors>(&mut self, pack: &mut Pack<P>) -> Result<Did, SectorFault>
        requires asks { request_by self.old.job ≡ Some asks.Card }
        requires ready { IsReady self.old (seen pack.old.areas (P.state pack.old.pool).contents) }
        ensures served { (s : Shown) → Serves (served Meant.Card) result (HoldsParts self.old (with_seen (seen pack.old.areas (P.state pack.old.pool).contents) s)) (HoldsParts self.new (with_seen (seen pack.new.areas (P.state pack.new.pool).contents) s)) }
        ensures leaves { Leaves result self.old self.new pack.old.areas pack.new.areas (P.state pack.old.pool) (P.state pack.new.pool) }
        ensures quiet { IfOk result (λ did. IsQuiet did pack.old.areas pack.new.areas (P.state pack.old.pool) (P.state pack.new.pool)) }
    {
        self.take_card();
        self.stand(pack)?;
        Ok(Did::Acted)
    }

    /// Gives the job at work its next card, if there is one.
    #[tactic(auto, using(crate::proofs::Running::card_taken))]
    fn take_card(&mut self)
        requires { request_by self.old.job ≡ Some asks.Card }
        ensures world { (s : Shown) → AtWorkBecomes (λ job w. record w { job = Some (with_answer (card_answer job.cards) (with_card_read job)) }) (HoldsParts self.old s) (HoldsParts self.new s) }
        ensures keeps { KeepsReady self.old self.new }
    {
        if let Some(job) = &mut self.job {
            job.read_card(&self.deck);
        }
    }

    /// Serves the pending request of the job at work, one to a file.
    pub(crate) fn serve_file<P: Sectors>(&mut self, pack: &mut Pack<P>) -> Result<Did, SectorFault>
        requires asks { AsksFile (request_by self.old.job) }
        requires ready { IsReady self.old (seen pack.old.areas (P.state pack.old.pool).contents) }
        ensures served { (s : Shown) → Serves on_files result (HoldsParts self.old (with_seen (seen pack.old.areas (P.state pack.old.pool).contents) s)) (HoldsParts self.new (with_seen (seen pack.new.areas (P.state pack.new.pool).contents) s)) }
        ensures leaves { Leaves result self.old self.new pack.old.areas pack.new.areas (P.state pack.old.pool) (P.state pack.new.pool) }
        ensures quiet { IfOk result (λ did. IsQuiet did pack.old.areas pack.new.areas (P.state pack.old.pool) (P.state pack.new.pool)) }
    {
        let took = self.take_file(pack)?;
        if took {
            self.stand(pack)?;
            Ok(Did::Acted)
        } else {
            Ok(Did::Idle)
        }
    }

    /// Gives the pending request of the job at work the answer of its files, if it has that file in use.
    fn take_file<P: Sectors>(&mut self, pack: &mut Pack<P>) -> Result<bool, SectorFault>
        requires asks { AsksFile (request_by self.old.job) }
        requires ready { IsReady self.old (seen pack.old.areas (P.state pack.old.pool).contents) }
        ensures served { (s : Shown) → IfOk result (λ took. FileServed took (HoldsParts self.old (with_seen (seen pack.old.areas (P.state pack.old.pool).contents) s)) (HoldsParts self.new (with_seen (seen pack.new.areas (P.state pack.new.pool).contents) s))) }
        ensures fails { (s : Shown) → OnErr result (FileThere (HoldsParts self.old (with_seen (seen pack.old.areas (P.state pack.old.pool).contents) s))) }
        ensures leaves { Leaves result self.old self.new pack.old.areas pack.new.areas (P.state pack.old.pool) (P.state pack.new.pool) }
        ensures untouched { IfOk result (λ took. took ≡ false → IsUntouched pack.old.areas pack.new.areas (P.state pack.old.pool) (P.state pack.new.pool)) }
    {
        match &mut self.job {
            Some(job) => job.serve(pack),
            None => unreachable!(),
        }
    }

    /// Prints the line of the job at work, unless the queue is full.
    #[tactic(auto, using(crate::proofs::Printing::line_waits))]
    pub(crate) fn print<P: Sectors>(
        &mut self,
        page: u16,
        line: u8,
        pack: &mut Pack<P>,
        spool: &mut Spool,
    ) -> Result<Did, SectorFault>
        requires asks { request_by self.old.job ≡ Some (asks.Print page line) }
        requires ready { IsReady self.old (seen pack.old.areas (P.state pack.old.pool).contents) }
        requires blocks { AreAll spool.old }
        ensures served { (text : List ℕ) → waits_by self.old.job ≡ Some (Meant.Print page line text) → Serves (served (Meant.Print page line text)) result (HoldsParts self.old (shown self.old.id (around pack.old.areas (P.state pack.old.pool) spool.old))) (HoldsParts self.new (shown self.old.id (around pack.new.areas (P.state pack.new.pool) spool.new))) }
        ensures leaves { LeavesAll result self.old self.new (around pack.old.areas (P.state pack.old.pool) spool.old) (around pack.new.areas (P.state pack.new.pool) spool.new) }
        ensures quiet { IfOk result (λ did. IsQuiet did pack.old.areas pack.new.areas (P.state pack.old.pool) (P.state pack.new.pool)) }
        ensures queues { IfOk result (λ did. did ≢ Acted → spool.new ≡ spool.old) }
    {
        if spool.is_full(self.id) {
            return Ok(Did::Idle);
        }
        self.print_line(page, line, pack, spool)?;
        Ok(Did::Acted)
    }

    /// Prints the line of the job at work into a queue that has room for it.
    #[inline(never)]
    fn print_line<P: Sectors>(
        &mut self,
        page: u16,
        line: u8,
        pack: &mut Pack<P>,
        spool: &mut Spool,
    ) -> Result<(), SectorFault>
        requires asks { request_by self.old.job ≡ Some (asks.Print page line) }
        requires ready { IsReady self.old (seen pack.old.areas (P.state pack.old.pool).contents) }
        requires blocks { AreAll spool.old }
        requires room { length (blocks_of self.old.id spool.old) < quota_of self.old.id spool.old }
        ensures served { OnOk result ((text : List ℕ) → waits_by self.old.job ≡ Some (Meant.Print page line text) → Acts (served (Meant.Print page line text)) (HoldsParts self.old (shown self.old.id (around pack.old.areas (P.state pack.old.pool) spool.old))) (HoldsParts self.new (shown self.old.id (around pack.new.areas (P.state pack.new.pool) spool.new)))) }
        ensures leaves { LeavesAll result self.old self.new (around pack.old.areas (P.state pack.old.pool) spool.old) (around pack.new.areas (P.state pack.new.pool) spool.new) }
    {
        self.put_line(page, line, pack, spool)?;
        self.resume(Answer::Done, pack)?;
        Ok(())
    }

    /// Puts the line of the job at work last in the queue, which has room for it.
    #[tactic(auto, using(crate::proofs::Printing::line_last))]
    fn put_line<P: Sectors>(
        &self,
        page: u16,
        line: u8,
        pack: &mut Pack<P>,
        spool: &mut Spool,
    ) -> Result<(), SectorFault>
        requires asks { request_by self.now.job ≡ Some (asks.Print page line) }
        requires ready { IsReady self.now (seen pack.old.areas (P.state pack.old.pool).contents) }
        requires blocks { AreAll spool.old }
        requires room { length (blocks_of self.now.id spool.old) ≢ quota_of self.now.id spool.old }
        ensures world { OnOk result ((text : List ℕ) → waits_by self.now.job ≡ Some (Meant.Print page line text) → Becomes (line_put page line text) (HoldsParts self.now (shown self.now.id (around pack.old.areas (P.state pack.old.pool) spool.old))) (HoldsParts self.now (shown self.now.id (around pack.new.areas (P.state pack.new.pool) spool.new)))) }
        ensures leaves { LeavesAll result self.now self.now (around pack.old.areas (P.state pack.old.pool) spool.old) (around pack.new.areas (P.state pack.new.pool) spool.new) }
        ensures areas { pack.new.areas ≡ pack.old.areas }
    {
        let Some(job) = &self.job else {
            return Ok(());
        };
        let composed = ComposedLine::new(page, line, job.cycle.record());
        match spool.put_composed(self.id, &composed, &mut pack.pool) {
            Ok(()) => Ok(()),
            Err(SpoolFault::Sectors(fault)) => Err(fault),
            Err(SpoolFault::QuotaFull) => unreachable!(),
            Err(SpoolFault::Empty) => unreachable!(),
        }
    }
}
