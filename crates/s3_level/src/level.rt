//! One level.

use crate::date::Date;
use crate::job::OpenJob;
use crate::job_number::JobNumber;
use crate::stocked::Stocked;
use crate::taken::Taken;
use indexmap::IndexMap;
use s3_cards::{Deck, LevelId, Name, PrintLine};
use s3_labels::Pack;
use s3_operator::{Halt, HaltLog};
use s3_solo::Did;
use s3_spool::{Spool, SpoolFault};
use s3_store::{SectorFault, Sectors};
use std::alloc::Global;
use std::num::NonZeroU16;

/// One level at work: its deck, its library, the job that is open, its printed lines and its halts.
#[derive(Drop)]
pub struct Level {
    pub(crate) alloc: Global,
    pub(crate) id: LevelId,
    pub(crate) deck: Deck,
    /// The place in the deck after the last job that was begun; after the last card once no job was found there.
    pub(crate) next: usize,
    /// The number of the next job.
    pub(crate) number: JobNumber,
    /// The programs that were compiled, by their names.
    pub(crate) library: IndexMap<Name, Stocked>,
    /// The switches U1 to U8, U1 the highest bit.
    pub(crate) switches: u8,
    pub(crate) date: Date,
    pub(crate) job: Option<OpenJob>,
    /// The lines that were drained from its queue.
    pub(crate) lines: Vec<PrintLine>,
    pub(crate) halts: HaltLog,
}

impl Level {
    ghost use Rattle.std.specs.Prelude.{◌≡◌, ◌≢◌, ◌+◌, ℕ, [], map, None, Ok, IfOk, IsOk, OnOk, OnErr};
    ghost use Rattle.std.specs.Int.NonZero.{non_zero_u16_get};
    ghost use Rattle.s3_store.specs.Inner.Failures.{failed_transfers};
    ghost use Rattle.s3_labels.specs.Inner.Labelled.{KeepsSaid};
    ghost use Rattle.s3_store.specs.Inner.State.{KeepsContents};
    ghost use Rattle.s3_spool.specs.Inner.Queues.{Blocks, blocks_of};
    ghost use Rattle.s3_job_files.specs.Inner.Holds.{seen};
    ghost use Rattle.s3_job_files.specs.Inner.Packs.{KeepsOthers};
    ghost use Rattle.s3_solo.specs.declared.action.Action.TheVariants.{Turn, Reply, Drain};
    ghost use Rattle.s3_solo.specs.declared.action.Did.TheVariants.{Acted, Idle, Refused};
    ghost use Rattle.s3_operator.specs.Inner.Halts.{halt_of};
    ghost use Rattle.s3_solo.specs.Lines.{all_drained};
    ghost use Rattle.s3_solo.specs.Inner.Lines.{drained_lines};
    ghost use Rattle.s3_solo.specs.World.{World, at_start};
    ghost use Rattle.s3_solo.specs.Serving.{job_ended};
    ghost use Rattle.s3_solo.specs.Solo.{step_of};
    ghost use Rattle.s3_level.specs.Inner.Holds.{Around, AreAll, around, Holds, IsFresh, IsQuiet, IsReady, IsUpTo, Becomes, Repeats, Steps, Stays, StopsAtEnd, Spares};

    /// A level with this deck, before its first entry.
    pub fn new(alloc: Global, id: LevelId, deck: Deck) -> Level
        ensures world { (beside : Around) → IsFresh beside → Holds result beside (at_start id beside.areas.header beside.state.contents deck) }
        ensures ready { (beside : Around) → IsFresh beside → IsReady result (seen beside.areas beside.state.contents) }
        ensures id { result.id ≡ id }
        ensures rests { result.job ≡ None }
    {
        Level {
            alloc,
            id,
            deck,
            next: 0,
            number: JobNumber::first(),
            library: IndexMap::new(alloc),
            switches: 0,
            date: Date::none(),
            job: None,
            lines: Vec::new(alloc),
            halts: HaltLog::new(alloc),
        }
    }

    /// Which of the two levels it is.
    pub fn id(&self) -> LevelId
        ensures { result ≡ self.now.id }
    {
        self.id
    }

    /// Performs the pending request of the job at work, or begins the next job (docs/RUNNING.md, "The script").
    ///
    /// It is idle, takes no memory and changes nothing if a halt waits, if no job is at work and none is left, and if
    /// the job would print and its quota of lines is queued. If memory runs out, or a transfer of the sectors fails, nothing
    /// is known of the worlds that the level holds, and no entry may follow.
    pub fn turn<P: Sectors>(
        &mut self,
        pack: &mut Pack<P>,
        spool: &mut Spool,
    ) -> Result<Did, SectorFault>
        requires ready { IsReady self.old (seen pack.old.areas (P.state pack.old.pool).contents) }
        requires blocks { AreAll spool.old }
        ensures step { IfOk result (λ did. Steps Turn did (Holds self.old (around pack.old.areas (P.state pack.old.pool) spool.old)) (Holds self.new (around pack.new.areas (P.state pack.new.pool) spool.new))) }
        ensures idle { (w : World) → Holds self.old (around pack.old.areas (P.state pack.old.pool) spool.old) w → (step_of w Turn).did ≡ Idle → result ≡ Ok Idle }
        ensures ready { OnOk result (IsReady self.new (seen pack.new.areas (P.state pack.new.pool).contents)) }
        ensures spares { Spares self.old.id (around pack.old.areas (P.state pack.old.pool) spool.old) (around pack.new.areas (P.state pack.new.pool) spool.new) }
        ensures quiet { IfOk result (λ did. IsQuiet did pack.old.areas pack.new.areas (P.state pack.old.pool) (P.state pack.new.pool)) }
        ensures queues { IfOk result (λ did. did ≢ Acted → spool.new ≡ spool.old) }
        ensures failures { (P.state pack.new.pool).failures ≡ (P.state pack.old.pool).failures + failed_transfers result }
        ensures says { OnOk result (KeepsSaid self.old.id pack.old.areas (P.state pack.old.pool).contents pack.new.areas (P.state pack.new.pool).contents) }
        ensures stays { Stays self.old self.new }
    {
        Ok(self.turns(NonZeroU16::MIN, pack, spool)?.did)
    }

    /// Takes turns one after the other, at most `most` of them and at least one. They continue as long as they act, up to the one in
    /// which a job ends, so that a caller sees each end (`stops`). It answers how many they were and what each of them did.
    ///
    /// Each turn performs the pending request of the job at work, or begins the next job. A first turn is idle, takes no memory
    /// and changes nothing if a halt waits, if no job is at work and none is left, and if the job would print and its
    /// quota of lines is queued. If memory runs out, or a transfer of the sectors fails, nothing is known of the worlds that
    /// the level holds, and no entry may follow.
    #[inline(never)]
    pub fn turns<P: Sectors>(
        &mut self,
        most: NonZeroU16,
        pack: &mut Pack<P>,
        spool: &mut Spool,
    ) -> Result<Taken, SectorFault>
        requires ready { IsReady self.old (seen pack.old.areas (P.state pack.old.pool).contents) }
        requires blocks { AreAll spool.old }
        ensures times { IfOk result (λ taken. IsUpTo (non_zero_u16_get most) taken) }
        ensures steps { IfOk result (λ taken. Repeats Turn taken.times taken.did (Holds self.old (around pack.old.areas (P.state pack.old.pool) spool.old)) (Holds self.new (around pack.new.areas (P.state pack.new.pool) spool.new))) }
        ensures stops { IfOk result (λ taken. StopsAtEnd Turn taken.times (Holds self.old (around pack.old.areas (P.state pack.old.pool) spool.old))) }
        ensures acts { OnErr result ((w : World) → Holds self.old (around pack.old.areas (P.state pack.old.pool) spool.old) w → (step_of w Turn).did ≡ Acted) }
        ensures ready { OnOk result (IsReady self.new (seen pack.new.areas (P.state pack.new.pool).contents)) }
        ensures spares { Spares self.old.id (around pack.old.areas (P.state pack.old.pool) spool.old) (around pack.new.areas (P.state pack.new.pool) spool.new) }
        ensures quiet { IfOk result (λ taken. IsQuiet taken.did pack.old.areas pack.new.areas (P.state pack.old.pool) (P.state pack.new.pool)) }
        ensures queues { IfOk result (λ taken. taken.did ≢ Acted → spool.new ≡ spool.old) }
        ensures failures { (P.state pack.new.pool).failures ≡ (P.state pack.old.pool).failures + failed_transfers result }
        ensures says { OnOk result (KeepsSaid self.old.id pack.old.areas (P.state pack.old.pool).contents pack.new.areas (P.state pack.new.pool).contents) }
        ensures stays { Stays self.old self.new }
    {
        let all = most.get();
        let mut left = all;
        while let Some(most) = NonZeroU16::new(left) {
            let taken = self.step(most, pack, spool)?;
            match taken.did {
                Did::Acted => left -= taken.times,
                _ => return Ok(taken.behind(all - left)),
            }
            if self.job.is_none() {
                return Ok(Taken::acted(all - left));
            }
        }
        Ok(Taken::acted(all))
    }

    /// Answers the halt that waits with a digit, and a job at work continues with it to its next request (docs/MESSAGES.md,
    /// "Replies"). It is refused with 1 if no halt waits, and with 2 if the halt doesn't allow the digit; then it takes no
    /// memory and changes nothing. If memory runs out, or a transfer of the sectors fails, nothing is known of the worlds that
    /// the level holds, and no entry may follow.
    #[inline(never)]
    #[tactic(auto, using(crate::proofs::Replies::reply_refused, crate::proofs::Replies::reply_taken))]
    pub fn answer<P: Sectors>(&mut self, digit: u8, pack: &mut Pack<P>) -> Result<Did, SectorFault>
        requires ready { IsReady self.old (seen pack.old.areas (P.state pack.old.pool).contents) }
        ensures step { (blocks : Blocks) → AreAll blocks → IfOk result (λ did. Steps (Reply digit) did (Holds self.old (around pack.old.areas (P.state pack.old.pool) blocks)) (Holds self.new (around pack.new.areas (P.state pack.new.pool) blocks))) }
        ensures refused { (blocks : Blocks) (w : World) (number : ℕ) → Holds self.old (around pack.old.areas (P.state pack.old.pool) blocks) w → (step_of w (Reply digit)).did ≡ Refused number → result ≡ Ok (Refused number) }
        ensures unchanged { IfOk result (λ did. did ≢ Acted → self.new ≡ self.old) }
        ensures ready { OnOk result (IsReady self.new (seen pack.new.areas (P.state pack.new.pool).contents)) }
        ensures others { KeepsOthers self.old.id pack.old.areas pack.new.areas (P.state pack.old.pool) (P.state pack.new.pool) }
        ensures quiet { IfOk result (λ did. IsQuiet did pack.old.areas pack.new.areas (P.state pack.old.pool) (P.state pack.new.pool)) }
        ensures failures { (P.state pack.new.pool).failures ≡ (P.state pack.old.pool).failures + failed_transfers result }
        ensures says { OnOk result (KeepsSaid self.old.id pack.old.areas (P.state pack.old.pool).contents pack.new.areas (P.state pack.new.pool).contents) }
        ensures stays { Stays self.old self.new }
    {
        if let Err(fault) = self.reply(digit) {
            return Ok(Did::Refused(fault.number()));
        }
        self.go_on(digit, pack)?;
        Ok(Did::Acted)
    }

    /// Takes the first queued line into the printed output; refused with 3, without taking memory, if none is queued.
    #[inline(never)]
    pub fn drain<P: Sectors>(
        &mut self,
        pack: &mut Pack<P>,
        spool: &mut Spool,
    ) -> Result<Did, SectorFault>
        requires ready { IsReady self.old (seen pack.old.areas (P.state pack.old.pool).contents) }
        requires blocks { AreAll spool.old }
        ensures step { IfOk result (λ did. Steps Drain did (Holds self.old (around pack.old.areas (P.state pack.old.pool) spool.old)) (Holds self.new (around pack.new.areas (P.state pack.new.pool) spool.new))) }
        ensures refused { (w : World) (number : ℕ) → Holds self.old (around pack.old.areas (P.state pack.old.pool) spool.old) w → (step_of w Drain).did ≡ Refused number → result ≡ Ok (Refused number) }
        ensures lines { OnErr result (self.new.lines.items ≡ self.old.lines.items) }
        ensures ready { OnOk result (IsReady self.new (seen pack.new.areas (P.state pack.new.pool).contents)) }
        ensures spares { Spares self.old.id (around pack.old.areas (P.state pack.old.pool) spool.old) (around pack.new.areas (P.state pack.new.pool) spool.new) }
        ensures areas { pack.new.areas ≡ pack.old.areas }
        ensures keeps { KeepsContents (P.state pack.old.pool) (P.state pack.new.pool) }
        ensures quiet { IfOk result (λ did. IsQuiet did pack.old.areas pack.new.areas (P.state pack.old.pool) (P.state pack.new.pool)) }
        ensures queues { IfOk result (λ did. did ≢ Acted → spool.new ≡ spool.old) }
        ensures failures { (P.state pack.new.pool).failures ≡ (P.state pack.old.pool).failures + failed_transfers result }
        ensures id { self.new.id ≡ self.old.id }
    {
        match spool.take(self.id, &mut pack.pool) {
            Ok(line) => {
                self.lines.push(line)?;
                Ok(Did::Acted)
            }
            Err(SpoolFault::Sectors(fault)) => Err(fault),
            Err(SpoolFault::Empty) => Ok(Did::Refused(3)),
            Err(SpoolFault::QuotaFull) => unreachable!(),
        }
    }

    /// Ends the job at work without its pending request: its files are closed. A halt that waits keeps no reply.
    pub fn close<P: Sectors>(&mut self, pack: &mut Pack<P>) -> Result<(), SectorFault>
        requires ready { IsReady self.old (seen pack.old.areas (P.state pack.old.pool).contents) }
        ensures world { (blocks : Blocks) → AreAll blocks → OnOk result (Becomes job_ended (Holds self.old (around pack.old.areas (P.state pack.old.pool) blocks)) (Holds self.new (around pack.new.areas (P.state pack.new.pool) blocks))) }
        ensures ready { OnOk result (IsReady self.new (seen pack.new.areas (P.state pack.new.pool).contents)) }
        ensures others { KeepsOthers self.old.id pack.old.areas pack.new.areas (P.state pack.old.pool) (P.state pack.new.pool) }
        ensures rests { self.old.job ≡ None → (pack.new.areas ≡ pack.old.areas) × KeepsContents (P.state pack.old.pool) (P.state pack.new.pool) }
        ensures ends { self.old.job ≡ None → IsOk result }
        ensures failures { (P.state pack.new.pool).failures ≡ (P.state pack.old.pool).failures + failed_transfers result }
        ensures says { OnOk result (KeepsSaid self.old.id pack.old.areas (P.state pack.old.pool).contents pack.new.areas (P.state pack.new.pool).contents) }
        ensures stays { Stays self.old self.new }
    {
        self.end_job(pack)
    }

    /// Takes all queued lines into the printed output.
    pub fn drain_all<P: Sectors>(
        &mut self,
        pack: &mut Pack<P>,
        spool: &mut Spool,
    ) -> Result<(), SectorFault>
        requires ready { IsReady self.old (seen pack.old.areas (P.state pack.old.pool).contents) }
        requires blocks { AreAll spool.old }
        ensures world { OnOk result (Becomes (λ w. record w { lines = all_drained w.lines }) (Holds self.old (around pack.old.areas (P.state pack.old.pool) spool.old)) (Holds self.new (around pack.new.areas (P.state pack.new.pool) spool.new))) }
        ensures ready { OnOk result (IsReady self.new (seen pack.new.areas (P.state pack.new.pool).contents)) }
        ensures spares { Spares self.old.id (around pack.old.areas (P.state pack.old.pool) spool.old) (around pack.new.areas (P.state pack.new.pool) spool.new) }
        ensures areas { pack.new.areas ≡ pack.old.areas }
        ensures keeps { KeepsContents (P.state pack.old.pool) (P.state pack.new.pool) }
        ensures none { blocks_of self.old.id spool.old ≡ [] → IsOk result }
        ensures failures { (P.state pack.new.pool).failures ≡ (P.state pack.old.pool).failures + failed_transfers result }
        ensures id { self.new.id ≡ self.old.id }
    {
        for _line in 0..spool.queued(self.id) {
            self.drain(pack, spool)?;
        }
        Ok(())
    }

    /// The lines that were drained from the level's queue, in order.
    pub fn lines(&self) -> &[PrintLine]
        ensures value { result.now ≡ self.now.lines.items }
        ensures world { (beside : Around) (w : World) → Holds self.now beside w → result.now ≡ drained_lines w.lines }
    {
        &self.lines
    }

    /// The lines that were drained from the level's queue, in order. Nothing else of the level is kept.
    pub fn into_lines(self) -> Vec<PrintLine>
        ensures { result.items ≡ self.lines.items }
    {
        self.lines
    }

    /// The halts that the level has shown, in order.
    pub fn halts(&self) -> &[Halt]
        ensures value { map halt_of result.now ≡ self.now.halts }
        ensures world { (beside : Around) (w : World) → Holds self.now beside w → map halt_of result.now ≡ w.halts }
    {
        self.halts.halts()
    }
}
