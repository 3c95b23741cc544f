//! What is operated.
ghost use Rattle.std.specs.Prelude.{◌≡◌, ◌≢◌, ◌+◌, ◌++◌, ℕ, List, map, replicate, IfOk, OnOk};
ghost use Rattle.std.specs.Int.NonZero.{non_zero_u16_get};
ghost use Rattle.s3_cards.specs.Inner.Levels.{other};
ghost use Rattle.s3_cards.specs.declared.levels.LevelId.{LevelId};
ghost use Rattle.s3_operator.specs.Inner.Halts.{halt_of};
ghost use Rattle.s3_solo.specs.declared.action.Did.TheVariants.{Acted};
ghost use Rattle.s3_solo.specs.World.{World};
ghost use Rattle.s3_level.specs.Inner.Holds.{IsUpTo, Repeats, Steps, StopsAtEnd};
ghost use Rattle.s3_bureau.specs.declared.entry.Entry.{Entry};
ghost use Rattle.s3_bureau.specs.Inner.Stops.{failed_stop};
ghost use Rattle.s3_desk.specs.Inner.Calls.{GoesAfter, KeepsFrom, NeverStopped};
ghost use Rattle.s3_desk.specs.Inner.Desk.{HasDrained, TellsOver};

use s3_bureau::{Did, Entry, Halt, Stop, Taken};
use s3_cards::{LevelId, PrintLine};
use std::alloc::Global;
use std::num::NonZeroU16;

/// What is operated: two levels that take turns, as a bureau does.
pub trait Machine {
    /// What the pack has about a halt.
    type Evidence: Drop;

    /// The worlds that it holds for each level.
    ghost holds: { Self → LevelId → World → Type 0 };

    /// From a first state it came by these entries to another one, and takes more.
    ghost after: { Self → List Entry → Self → Type 0 };

    /// What calls keep of a first state, whatever they answer.
    ghost keeps: { Self → Self → Type 0 };

    /// What a halt of a level may be shown with.
    ghost about: { Self → LevelId → Self.Evidence → Type 0 };

    /// How many transfers have failed.
    ghost failures: { Self → ℕ };

    /// One entry: each world that is held for its level takes it, with this answer, and those of the other level stay.
    fn step(&mut self, entry: Entry) -> Result<Did, Stop>
        ensures own { IfOk result (λ did. Steps entry.action did (holds self.old entry.level) (holds self.new entry.level)) }
        ensures other { OnOk result ((w : World) → holds self.old (other entry.level) w → holds self.new (other entry.level) w) }
        ensures acted { IfOk result (λ did. did ≡ Acted → (was : List Entry) → GoesAfter after was (was ++ replicate 1 entry) self.old self.new) }
        ensures quiet { IfOk result (λ did. did ≢ Acted → (was : List Entry) → GoesAfter after was was self.old self.new) }
        ensures not_stopped { (was : List Entry) → NeverStopped after was self.old result }
        ensures kept { KeepsFrom keeps self.old self.new }
        ensures failed { failures self.new ≡ failures self.old + failed_stop result };

    /// An entry so many times at most, and at least once. Turns stop when a job ends.
    fn repeat(&mut self, entry: Entry, most: NonZeroU16) -> Result<Taken, Stop>
        ensures times { IfOk result (λ taken. IsUpTo (non_zero_u16_get most) taken) }
        ensures own { IfOk result (λ taken. Repeats entry.action taken.times taken.did (holds self.old entry.level) (holds self.new entry.level)) }
        ensures job_ends { IfOk result (λ taken. StopsAtEnd entry.action taken.times (holds self.old entry.level)) }
        ensures other { OnOk result ((w : World) → holds self.old (other entry.level) w → holds self.new (other entry.level) w) }
        ensures acted { IfOk result (λ taken. taken.did ≡ Acted → (was : List Entry) → GoesAfter after was (was ++ replicate taken.times entry) self.old self.new) }
        ensures quiet { IfOk result (λ taken. taken.did ≢ Acted → (was : List Entry) → GoesAfter after was was self.old self.new) }
        ensures not_stopped { (was : List Entry) → NeverStopped after was self.old result }
        ensures kept { KeepsFrom keeps self.old self.new }
        ensures failed { failures self.new ≡ failures self.old + failed_stop result };

    /// The lines that a level has printed and that were drained, in order.
    fn lines(&self, level: LevelId) -> &[PrintLine]
        ensures world { HasDrained holds level self.now result.now };

    /// Whether a level has no job left and no line queued, and has shown no halt.
    fn is_over(&self, level: LevelId) -> bool
        ensures world { TellsOver holds level self.now result };

    /// The halts that a level has shown, in order.
    fn halts(&self, level: LevelId) -> &[Halt]
        ensures world { (w : World) → holds self.now level w → map halt_of result.now ≡ w.halts };

    /// What the pack has about the halt that waits in a level. Each world that is held still is.
    fn look(&mut self, alloc: Global, level: LevelId) -> Result<Self::Evidence, Stop>
        ensures about { IfOk result (λ evidence. about self.new level evidence) }
        ensures held { OnOk result ((level : LevelId) (w : World) → holds self.old level w → holds self.new level w) }
        ensures quiet { OnOk result ((was : List Entry) → GoesAfter after was was self.old self.new) }
        ensures not_stopped { (was : List Entry) → NeverStopped after was self.old result }
        ensures kept { KeepsFrom keeps self.old self.new }
        ensures failed { failures self.new ≡ failures self.old + failed_stop result };
}
