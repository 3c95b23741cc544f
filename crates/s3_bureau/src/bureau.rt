//! The bureau: two levels, each with its own deck, that take turns over one pack.
ghost use Rattle.std.specs.Prelude.{◌≡◌, ◌≢◌, ◌≤◌, ℕ};
ghost use Rattle.std.specs.Int.NonZero.{non_zero_u16_get};
ghost use Rattle.s3_job_files.specs.Inner.Holds.{seen};
ghost use Rattle.s3_spool.specs.Inner.Queues.{Blocks};
ghost use Rattle.s3_solo.specs.declared.action.Action.TheVariants.{Turn, Reply, Drain};
ghost use Rattle.s3_level.specs.Inner.Holds.{AreAll, IsReady, around};
ghost use Rattle.s3_bureau.specs.Inner.Held.{IsReadyFor};
ghost use Rattle.s3_bureau.specs.Inner.Calls.{Acts, ClosesLevel, ClosesBoth};

use crate::entry::Entry;
use crate::stop::Stop;
use s3_cards::{Deck, LevelId, PrintLine};
use s3_labels::{AreaSlots, Pack, Refusal, RefusedStore};
use s3_level::{Action, Did, Halt, Level, Taken};
use s3_pool::Pool;
use s3_spool::Spool;
use s3_store::{PackStore, SectorFault, Sectors};
use std::alloc::{AllocError, Global};
use std::marker::Model;
use std::num::NonZeroU16;

/// How far a bureau has come.
#[derive(Clone, Copy)]
enum Phase {
    /// Entries are taken.
    Open,
    /// Both levels are closed.
    Finished,
    /// Memory ran out, or the store failed.
    Stopped,
}

/// Two levels that take turns over one pack. What one of them does, the other doesn't notice.
///
/// A bureau is ended by `into_store` alone.
pub struct Bureau<S: PackStore> {
    pack: Pack<Pool<S>>,
    spool: Spool,
    one: Level,
    two: Level,
    phase: Phase,
}

impl<S: PackStore> Model for Bureau<S> {
    ghost use Rattle.std.specs.Coded.{codes};
    ghost use Rattle.s3_level.specs.contracts.level.Level as level;
    ghost use Rattle.s3_level.specs.Inner.Holds.{around};
    ghost use Rattle.s3_bureau.specs.Inner.Held.{State, IsLaidOut};

    ghost Value = { State };

    ghost coded = { Prim.hlevel (codes, level.the_row.coded) };

    ghost view = { λ b. record { beside = around b.pack.areas b.pack.pool b.spool; one = b.one; two = b.two; phase = b.phase } };

    ghost invariant = { λ b. IsLaidOut (record { beside = around b.pack.areas b.pack.pool b.spool; one = b.one; two = b.two; phase = b.phase }) };
}

/// Takes turns of a level, so many at most and at least one.
fn take_turns<S: PackStore>(
    level: &mut Level,
    pack: &mut Pack<Pool<S>>,
    spool: &mut Spool,
    most: NonZeroU16,
) -> Result<Taken, SectorFault>
    requires ready { IsReady level.old (seen pack.old.areas pack.old.pool.contents) }
    requires blocks { AreAll spool.old }
    ensures { Acts Turn (non_zero_u16_get most) result level.old level.new (around pack.old.areas pack.old.pool spool.old) (around pack.new.areas pack.new.pool spool.new) }
{
    level.turns(most, pack, spool)
}

/// Gives the halt of a level a reply.
fn give_reply<S: PackStore>(
    level: &mut Level,
    pack: &mut Pack<Pool<S>>,
    digit: u8,
) -> Result<Taken, SectorFault>
    requires ready { IsReady level.old (seen pack.old.areas pack.old.pool.contents) }
    ensures { (most : ℕ) (blocks : Blocks) → 1 ≤ most → AreAll blocks → Acts (Reply digit) most result level.old level.new (around pack.old.areas pack.old.pool blocks) (around pack.new.areas pack.new.pool blocks) }
{
    Taken::once(level.answer(digit, pack))
}

/// Drains a line of a level.
fn drain_line<S: PackStore>(
    level: &mut Level,
    pack: &mut Pack<Pool<S>>,
    spool: &mut Spool,
) -> Result<Taken, SectorFault>
    requires ready { IsReady level.old (seen pack.old.areas pack.old.pool.contents) }
    requires blocks { AreAll spool.old }
    ensures { (most : ℕ) → 1 ≤ most → Acts Drain most result level.old level.new (around pack.old.areas pack.old.pool spool.old) (around pack.new.areas pack.new.pool spool.new) }
{
    Taken::once(level.drain(pack, spool))
}

/// Performs an entry of a level, so many times at most and at least once. It is proved once, for either level.
fn act<S: PackStore>(
    level: &mut Level,
    pack: &mut Pack<Pool<S>>,
    spool: &mut Spool,
    action: Action,
    most: NonZeroU16,
) -> Result<Taken, SectorFault>
    requires ready { IsReady level.old (seen pack.old.areas pack.old.pool.contents) }
    requires blocks { AreAll spool.old }
    ensures { Acts action (non_zero_u16_get most) result level.old level.new (around pack.old.areas pack.old.pool spool.old) (around pack.new.areas pack.new.pool spool.new) }
{
    match action {
        Action::Turn => take_turns(level, pack, spool, most),
        Action::Reply(digit) => give_reply(level, pack, digit),
        Action::Drain => drain_line(level, pack, spool),
    }
}

/// Closes a level: its job at work is ended, and its queued lines are drained.
fn close_level<S: PackStore>(
    level: &mut Level,
    pack: &mut Pack<Pool<S>>,
    spool: &mut Spool,
) -> Result<(), SectorFault>
    requires ready { IsReady level.old (seen pack.old.areas pack.old.pool.contents) }
    requires blocks { AreAll spool.old }
    ensures { ClosesLevel result level.old level.new (around pack.old.areas pack.old.pool spool.old) (around pack.new.areas pack.new.pool spool.new) }
{
    level.close(pack)?;
    level.drain_all(pack, spool)
}

/// Closes both levels, and has the store hold what the pool does.
fn close_both<S: PackStore>(
    one: &mut Level,
    two: &mut Level,
    pack: &mut Pack<Pool<S>>,
    spool: &mut Spool,
) -> Result<(), SectorFault>
    requires { IsReadyFor one.old two.old (around pack.old.areas pack.old.pool spool.old) }
    ensures { ClosesBoth result one.old two.old one.new two.new (around pack.old.areas pack.old.pool spool.old) (around pack.new.areas pack.new.pool spool.new) }
{
    close_level(one, pack, spool)?;
    close_level(two, pack, spool)?;
    pack.pool.flush()
}

/// The store under a pack.
fn store_of<S: PackStore>(pack: Pack<Pool<S>>) -> S
    ensures contents { S.contents result ≡ pack.pool.stored }
    ensures failures { S.failures result ≡ pack.pool.failures }
{
    let Pack { pool, areas: _ } = pack;
    pool.into_store()
}

impl<S: PackStore> Bureau<S> {
    ghost use Rattle.std.specs.Int.NonZero.{non_zero_u16_get};
    ghost use Rattle.std.specs.Prelude.{◌≡◌, ◌≢◌, ◌+◌, length, slice_get, true, false, Ok, Err, map, IfOk, IfErr, OnOk, OnErr};
    ghost use Rattle.s3_cards.specs.Inner.Levels.{other};
    ghost use Rattle.s3_cards.specs.declared.levels.LevelId.{LevelId};
    ghost use Rattle.s3_store.specs.Inner.State.{KeepsContents, KeepsInStep};
    ghost use Rattle.s3_slots.specs.Header.{mounted, region_of};
    ghost use Rattle.s3_slots.specs.Slots.{slots_of};
    ghost use Rattle.s3_labels.specs.Inner.Areas.{IsReady as IsPackReady, IsRefusal, areas_on, failed_by};
    ghost use Rattle.s3_labels.specs.Areas.{area_of};
    ghost use Rattle.s3_labels.specs.Untangled.{IsUntangled};
    ghost use Rattle.s3_spool.specs.Inner.Queues.{blocks_of};
    ghost use Rattle.s3_operator.specs.Inner.Halts.{halt_of};
    ghost use Rattle.s3_solo.specs.declared.action.Did.{Did};
    ghost use Rattle.s3_solo.specs.declared.action.Did.TheVariants.{Acted};
    ghost use Rattle.s3_solo.specs.Inner.Lines.{drained_lines};
    ghost use Rattle.s3_solo.specs.World.{World, at_start};
    ghost use Rattle.s3_solo.specs.Solo.{step_of, closed};
    ghost use Rattle.s3_level.specs.Inner.Holds.{Holds, IsUpTo, Repeats, Spares, Steps, StopsAtEnd};
    ghost use Rattle.s3_bureau.specs.Inner.Stops.{failed_stop};
    ghost use Rattle.s3_bureau.specs.Inner.Calls.{Closes, Enters};
    ghost use Rattle.s3_bureau.specs.Inner.Queries.{Fetches, IsFound, queued};
    ghost use Rattle.s3_bureau.specs.Inner.Held.{HasNoWork, HoldsFor, IsForeign, IsSaid, halts_at, header_of, is_open, has_worlds, level_of, lines_at, rests};
    ghost use Rattle.s3_bureau.specs.Sharing.{IsCommon, IsOwn};

    /// A bureau over the pack on a store, with a deck for each level, before its first entry.
    ///
    /// Refused only by the pack's header, and if memory or the store fails; then the store is given back as it was.
    pub fn open(
        alloc: Global,
        store: S,
        deck1: Deck,
        deck2: Deck,
    ) -> Result<Bureau<S>, RefusedStore<S>>
        // The pack is mounted, and nothing is written.
        ensures header { IfOk result (λ bureau. mounted (S.contents store) ≡ Ok (header_of bureau)) }
        ensures contents { IfOk result (λ bureau. bureau.beside.state.contents ≡ S.contents store) }
        ensures stored { IfOk result (λ bureau. bureau.beside.state.stored ≡ S.contents store) }
        ensures failures { IfOk result (λ bureau. bureau.beside.state.failures ≡ S.failures store) }

        // Each level has its world at the start, and no job at work.
        ensures one { IfOk result (λ bureau. HoldsFor LevelId.One bureau (at_start LevelId.One (header_of bureau) (S.contents store) deck1)) }
        ensures two { IfOk result (λ bureau. HoldsFor LevelId.Two bureau (at_start LevelId.Two (header_of bureau) (S.contents store) deck2)) }
        ensures rest { IfOk result (λ bureau. (level : LevelId) → rests level bureau) }
        ensures entries { IfOk result (λ bureau. is_open bureau ≡ true) }

        // The labels of a level say its slots, unless a label overlaps or is a duplicate.
        ensures said { IfOk result (λ bureau. (level : LevelId) → IsUntangled (header_of bureau).format (region_of level (header_of bureau)) (area_of level) (S.contents store) → IsSaid level bureau) }

        ensures refused { IfErr result (λ refused. IsRefusal (mounted (S.contents store)) refused.fault) }
        ensures back { IfErr result (λ refused. S.contents refused.store ≡ S.contents store) }
        ensures failed { IfErr result (λ refused. S.failures refused.store ≡ S.failures store + failed_by refused.fault) }
    {
        match Pack::mount(alloc, store) {
            Ok(pack) => Bureau::over(alloc, pack, deck1, deck2),
            Err(refused) => Err(refused),
        }
    }

    /// A bureau over a pack that was just mounted, before its first entry.
    fn over(
        alloc: Global,
        pack: Pack<Pool<S>>,
        deck1: Deck,
        deck2: Deck,
    ) -> Result<Bureau<S>, RefusedStore<S>>
        requires areas { pack.areas ≡ areas_on pack.areas.header pack.pool.contents }
        requires ready { IsPackReady pack.areas pack.pool.contents }
        ensures parts { IfOk result (λ bureau. (bureau.beside.areas ≡ pack.areas) × (bureau.beside.state ≡ pack.pool)) }
        ensures one { IfOk result (λ bureau. HoldsFor LevelId.One bureau (at_start LevelId.One pack.areas.header pack.pool.contents deck1)) }
        ensures two { IfOk result (λ bureau. HoldsFor LevelId.Two bureau (at_start LevelId.Two pack.areas.header pack.pool.contents deck2)) }
        ensures rest { IfOk result (λ bureau. (level : LevelId) → rests level bureau) }
        ensures entries { IfOk result (λ bureau. is_open bureau ≡ true) }
        ensures fault { IfErr result (λ refused. refused.fault ≡ Refusal.Sectors SectorFault.NoMemory) }
        ensures back { IfErr result (λ refused. S.contents refused.store ≡ pack.pool.stored) }
        ensures failed { IfErr result (λ refused. S.failures refused.store ≡ pack.pool.failures) }
    {
        match Spool::new(
            alloc,
            pack.areas.quota(LevelId::One),
            pack.areas.quota(LevelId::Two),
        ) {
            Ok(spool) => Ok(Bureau {
                pack,
                spool,
                one: Level::new(alloc, LevelId::One, deck1),
                two: Level::new(alloc, LevelId::Two, deck2),
                phase: Phase::Open,
            }),
            Err(AllocError) => Err(RefusedStore {
                store: store_of(pack),
                fault: Refusal::Sectors(SectorFault::NoMemory),
            }),
        }
    }

    /// Performs one entry of a script, and answers what it did (docs/RUNNING.md, "The script").
    ///
    /// If memory runs out it answers `Stop::NoMemory`, and if a transfer of the store fails `Stop::Device`. Nothing more is
    /// done then: each later call answers `Stop::Stopped`, as it does after `finish`.
    pub fn step(&mut self, entry: Entry) -> Result<Did, Stop>
        // The level's own world takes that entry, with this answer.
        ensures own { IfOk result (λ did. Steps entry.action did (HoldsFor entry.level self.old) (HoldsFor entry.level self.new)) }

        // The worlds of the other level stay.
        ensures other { OnOk result ((w : World) → HoldsFor (other entry.level) self.old w → HoldsFor (other entry.level) self.new w) }
        ensures no_other { OnOk result ((w : World) → HoldsFor (other entry.level) self.new w → HoldsFor (other entry.level) self.old w) }

        // Labels that say their level's slots still do.
        ensures said { OnOk result ((level : LevelId) → IsSaid level self.old → IsSaid level self.new) }

        // An entry that is idle or refused changes nothing: not the pack, a queue or the store.
        ensures quiet { IfOk result (λ did. did ≢ Acted → self.new.beside ≡ self.old.beside) }

        // Whatever the answer is, the other level stays as it is, with its queue and its labels as they were judged; and so do the
        // sectors of the header, the masters and the other level, and those that nobody uses, in the store too.
        ensures stays { level_of (other entry.level) self.new ≡ level_of (other entry.level) self.old }
        ensures spares { is_open self.old ≡ true → Spares entry.level self.old.beside self.new.beside }
        ensures unchanged { KeepsInStep (IsForeign entry.level (header_of self.old)) self.old.beside.state self.new.beside.state }
        ensures header { header_of self.new ≡ header_of self.old }

        // Only a bureau that is finished or was stopped answers that it is stopped, and it stays as it is.
        ensures stopped { is_open self.old ≡ false → (result ≡ Err Stop.Stopped) × (self.new ≡ self.old) }
        ensures not_before { is_open self.old ≡ true → result ≢ Err Stop.Stopped }
        ensures goes_on { OnOk result (is_open self.new ≡ true) }
        ensures stops { OnErr result (is_open self.new ≡ false) }
        ensures holds_none { OnErr result (is_open self.old ≡ true → has_worlds self.new.phase ≡ false) }

        // Only an entry that acts can stop it. A device has failed if the answer says so, and only there. The drained lines of both
        // levels stay if it stops.
        ensures memory { OnErr result (is_open self.old ≡ true → (w : World) → HoldsFor entry.level self.old w → (step_of w entry.action).did ≡ Acted) }
        ensures failures { self.new.beside.state.failures ≡ self.old.beside.state.failures + failed_stop result }
        ensures lines { OnErr result ((level : LevelId) → lines_at level self.new ≡ lines_at level self.old) }
    {
        Ok(self.repeat(entry, NonZeroU16::MIN)?.did)
    }

    /// Performs one entry of a script at most `most` times and at least once. Only turns are several: they continue as long as they
    /// act, up to the one in which a job ends. It answers how often the entry was performed, and what it did each time.
    ///
    /// If memory runs out it answers `Stop::NoMemory`, and if a transfer of the store fails `Stop::Device`. Nothing more is
    /// done then: each later call answers `Stop::Stopped`, as it does after `finish`.
    pub fn repeat(&mut self, entry: Entry, most: NonZeroU16) -> Result<Taken, Stop>
        ensures times { IfOk result (λ taken. IsUpTo (non_zero_u16_get most) taken) }

        // The level's own world takes so many such entries, each with this answer.
        ensures own { IfOk result (λ taken. Repeats entry.action taken.times taken.did (HoldsFor entry.level self.old) (HoldsFor entry.level self.new)) }

        // They stop when a job ends.
        ensures job_ends { IfOk result (λ taken. StopsAtEnd entry.action taken.times (HoldsFor entry.level self.old)) }

        // All other changes, what stays, and how it stops are as `step` says.
        ensures other { OnOk result ((w : World) → HoldsFor (other entry.level) self.old w → HoldsFor (other entry.level) self.new w) }
        ensures no_other { OnOk result ((w : World) → HoldsFor (other entry.level) self.new w → HoldsFor (other entry.level) self.old w) }
        ensures said { OnOk result ((level : LevelId) → IsSaid level self.old → IsSaid level self.new) }
        ensures quiet { IfOk result (λ taken. taken.did ≢ Acted → self.new.beside ≡ self.old.beside) }
        ensures stays { level_of (other entry.level) self.new ≡ level_of (other entry.level) self.old }
        ensures spares { is_open self.old ≡ true → Spares entry.level self.old.beside self.new.beside }
        ensures unchanged { KeepsInStep (IsForeign entry.level (header_of self.old)) self.old.beside.state self.new.beside.state }
        ensures header { header_of self.new ≡ header_of self.old }
        ensures stopped { is_open self.old ≡ false → (result ≡ Err Stop.Stopped) × (self.new ≡ self.old) }
        ensures not_before { is_open self.old ≡ true → result ≢ Err Stop.Stopped }
        ensures goes_on { OnOk result (is_open self.new ≡ true) }
        ensures stops { OnErr result (is_open self.new ≡ false) }
        ensures holds_none { OnErr result (is_open self.old ≡ true → has_worlds self.new.phase ≡ false) }
        ensures memory { OnErr result (is_open self.old ≡ true → (w : World) → HoldsFor entry.level self.old w → (step_of w entry.action).did ≡ Acted) }
        ensures failures { self.new.beside.state.failures ≡ self.old.beside.state.failures + failed_stop result }
        ensures lines { OnErr result ((level : LevelId) → lines_at level self.new ≡ lines_at level self.old) }
    {
        if self.phase != Phase::Open {
            return Err(Stop::Stopped);
        }
        let taken = self.enter(entry, most)?;
        Ok(taken)
    }

    /// Performs an entry in its level, or stops.
    #[inline(always)]
    fn enter(&mut self, entry: Entry, most: NonZeroU16) -> Result<Taken, SectorFault>
        requires { is_open self.old ≡ true }
        ensures { Enters entry.level entry.action (non_zero_u16_get most) result self.old self.new }
    {
        match entry.level {
            LevelId::One => match act(
                &mut self.one,
                &mut self.pack,
                &mut self.spool,
                entry.action,
                most,
            ) {
                Ok(taken) => Ok(taken),
                Err(fault) => {
                    self.phase = Phase::Stopped;
                    Err(fault)
                }
            },
            LevelId::Two => match act(
                &mut self.two,
                &mut self.pack,
                &mut self.spool,
                entry.action,
                most,
            ) {
                Ok(taken) => Ok(taken),
                Err(fault) => {
                    self.phase = Phase::Stopped;
                    Err(fault)
                }
            },
        }
    }

    /// Closes both levels: a job at work is ended without its pending request, a halt that waits keeps no reply, and the
    /// queued lines are drained; then the store is given all that the pool holds. No further entry is taken.
    pub fn finish(&mut self) -> Result<(), Stop>
        // Each world is closed, and the store has what the pool has.
        ensures closes { OnOk result ((level : LevelId) (w : World) → HoldsFor level self.old w → HoldsFor level self.new (closed w)) }
        ensures flushed { OnOk result (self.new.beside.state.stored ≡ self.new.beside.state.contents) }

        // If the labels of a level said its slots, a mount of the store finds them as its world has them, none overlapping.
        ensures mounts { OnOk result ((level : LevelId) (w : World) → IsSaid level self.old → HoldsFor level self.new w → slots_of (header_of self.new).format (region_of level (header_of self.new)) (area_of level) self.new.beside.state.contents ≡ w.pack.own.slots) }
        ensures untangled { OnOk result ((level : LevelId) → IsSaid level self.old → IsUntangled (header_of self.new).format (region_of level (header_of self.new)) (area_of level) self.new.beside.state.contents) }

        // Whatever the answer is, the sectors of the header, of the masters and those that nobody uses stay, and those of a level with
        // no job at work, in the store too.
        ensures unchanged { KeepsInStep (IsCommon (header_of self.old)) self.old.beside.state self.new.beside.state }
        ensures rest { (level : LevelId) → rests level self.old → KeepsInStep (IsOwn level (header_of self.old)) self.old.beside.state self.new.beside.state }
        ensures header { header_of self.new ≡ header_of self.old }

        ensures stopped { is_open self.old ≡ false → (result ≡ Err Stop.Stopped) × (self.new ≡ self.old) }
        ensures not_before { is_open self.old ≡ true → result ≢ Err Stop.Stopped }

        // Memory runs out only if work is left, a job or a queued line.
        ensures memory { ((level : LevelId) → HasNoWork level self.old) → result ≢ Err Stop.NoMemory }
        ensures failures { self.new.beside.state.failures ≡ self.old.beside.state.failures + failed_stop result }
        ensures holds_none { OnErr result (is_open self.old ≡ true → has_worlds self.new.phase ≡ false) }
        ensures finished { is_open self.new ≡ false }
    {
        if self.phase != Phase::Open {
            return Err(Stop::Stopped);
        }
        self.close()?;
        Ok(())
    }

    /// Closes both levels, or stops.
    fn close(&mut self) -> Result<(), SectorFault>
        requires { is_open self.old ≡ true }
        ensures { Closes result self.old self.new }
    {
        match close_both(
            &mut self.one,
            &mut self.two,
            &mut self.pack,
            &mut self.spool,
        ) {
            Ok(()) => {
                self.phase = Phase::Finished;
                Ok(())
            }
            Err(fault) => {
                self.phase = Phase::Stopped;
                Err(fault)
            }
        }
    }

    /// The lines that were drained from a level's queue, in order.
    pub fn lines(&self, level: LevelId) -> &[PrintLine]
        ensures value { result.now ≡ lines_at level self.now }
        ensures world { (w : World) → HoldsFor level self.now w → result.now ≡ drained_lines w.lines }
    {
        self.level(level).lines()
    }

    /// The halts that a level has shown, in order.
    pub fn halts(&self, level: LevelId) -> &[Halt]
        ensures value { map halt_of result.now ≡ halts_at level self.now }
        ensures world { (w : World) → HoldsFor level self.now w → map halt_of result.now ≡ w.halts }
    {
        self.level(level).halts()
    }

    /// Lends a level, for what is asked of it. With the pack and the queues it holds each world that the bureau holds for it.
    pub fn level(&self, level: LevelId) -> &Level
        ensures value { result.now ≡ level_of level self.now }
        ensures world { (w : World) → HoldsFor level self.now w → Holds result.now self.now.beside w }
    {
        match level {
            LevelId::One => &self.one,
            LevelId::Two => &self.two,
        }
    }

    /// How many printed lines of a level are queued.
    #[tactic(auto, using(crate::proofs::Queued::queued_held, crate::proofs::Queued::queued_for))]
    pub fn queued(&self, level: LevelId) -> usize
        ensures value { is_open self.now ≡ true → result ≡ length (blocks_of level self.now.beside.blocks) }
        ensures world { (w : World) → HoldsFor level self.now w → result ≡ queued w.lines }
    {
        self.spool.queued(self.level(level).id())
    }

    /// The header of the pack and the slots of its areas, as they were judged when it was opened and have been changed since.
    pub fn areas(&self) -> &AreaSlots
        ensures { result.now ≡ self.now.beside.areas }
    {
        &self.pack.areas
    }

    /// Reads a sector of the pack as it is now, and answers whether there is one of this number. No sector changes, and no
    /// world that is held.
    ///
    /// If memory runs out it answers `Stop::NoMemory`, and if a transfer of the store fails `Stop::Device`. Nothing more is
    /// done then, as after a stop of `step`.
    pub fn read_sector(&mut self, n: u16, bytes: &mut [u8; 256]) -> Result<bool, Stop>
        ensures found { IfOk result (λ found. IsFound found (slice_get self.old.beside.state.contents n) bytes.new) }

        // All stays as it is; only what the pool alone had may now be in the store too.
        ensures held { OnOk result ((level : LevelId) (w : World) → HoldsFor level self.old w → HoldsFor level self.new w) }
        ensures held_before { OnOk result ((level : LevelId) (w : World) → HoldsFor level self.new w → HoldsFor level self.old w) }
        ensures levels { (level : LevelId) → level_of level self.new ≡ level_of level self.old }
        ensures areas { self.new.beside.areas ≡ self.old.beside.areas }
        ensures blocks { self.new.beside.blocks ≡ self.old.beside.blocks }
        ensures keeps { KeepsContents self.old.beside.state self.new.beside.state }
        ensures goes_on { OnOk result (self.new.phase ≡ self.old.phase) }

        // Only a bureau that is finished or was stopped answers that it is stopped, and it stays as it is.
        ensures stopped { is_open self.old ≡ false → (result ≡ Err Stop.Stopped) × (self.new ≡ self.old) }
        ensures not_before { is_open self.old ≡ true → result ≢ Err Stop.Stopped }
        ensures stops { OnErr result (is_open self.new ≡ false) }
        ensures holds_none { OnErr result (is_open self.old ≡ true → has_worlds self.new.phase ≡ false) }
        ensures failures { self.new.beside.state.failures ≡ self.old.beside.state.failures + failed_stop result }
    {
        if self.phase != Phase::Open {
            return Err(Stop::Stopped);
        }
        let found = self.fetch(n, bytes)?;
        Ok(found)
    }

    /// Reads a sector, if there is one of this number, or stops.
    fn fetch(&mut self, n: u16, bytes: &mut [u8; 256]) -> Result<bool, SectorFault>
        requires { is_open self.old ≡ true }
        ensures { Fetches n result bytes.new self.old self.new }
    {
        if n >= self.pack.pool.sector_count() {
            return Ok(false);
        }
        match self.pack.pool.read_sector(n, bytes) {
            Ok(()) => Ok(true),
            Err(fault) => {
                self.phase = Phase::Stopped;
                Err(fault)
            }
        }
    }

    /// The store as it is. What only the pool holds is lost; after `finish` that is nothing.
    pub fn into_store(self) -> S
        ensures contents { S.contents result ≡ self.beside.state.stored }
        ensures failures { S.failures result ≡ self.beside.state.failures }
    {
        let Bureau {
            pack,
            spool: _,
            one: _,
            two: _,
            phase: _,
        } = self;
        store_of(pack)
    }

    /// The store, as `into_store` gives it, and the lines that were drained from the queues of level 1 and of level 2, in order.
    pub fn into_lines(self) -> (S, Vec<PrintLine>, Vec<PrintLine>)
        ensures contents { S.contents result.0 ≡ self.beside.state.stored }
        ensures failures { S.failures result.0 ≡ self.beside.state.failures }
        ensures one { result.1.items ≡ lines_at LevelId.One self }
        ensures two { result.2.items ≡ lines_at LevelId.Two self }
    {
        let Bureau {
            pack,
            spool: _,
            one,
            two,
            phase: _,
        } = self;
        (store_of(pack), one.into_lines(), two.into_lines())
    }
}
