//! A bureau is operated.
ghost use Rattle.s3_bureau.specs.Inner.Held.{HoldsFor};
ghost use Rattle.s3_desk.specs.Inner.Desk.{TellsOver};

use crate::machine::Machine;
use s3_bureau::{Bureau, Did, Entry, Halt, Stop, Taken};
use s3_cards::{LevelId, PrintLine};
use s3_evidence::{Evidence, look};
use s3_store::PackStore;
use std::alloc::Global;
use std::num::NonZeroU16;

/// Whether a level of a bureau has no job left and no line queued, and has shown no halt.
fn is_over<S: PackStore>(bureau: &Bureau<S>, level: LevelId) -> bool
    ensures { TellsOver (λ bureau level w. HoldsFor level bureau w) level bureau.now result }
{
    if bureau.level(level).has_work() {
        return false;
    }
    if bureau.queued(level) > 0 {
        return false;
    }
    bureau.halts(level).is_empty()
}

impl<S: PackStore> Machine for Bureau<S> {
    ghost use Rattle.s3_bureau.specs.Inner.Held.{HoldsFor};
    ghost use Rattle.s3_evidence.specs.Inner.About.{IsAbout};
    ghost use Rattle.s3_desk.specs.Inner.Operated.{IsAfter, KeepsCommon};

    type Evidence = Evidence;

    ghost holds = { λ bureau level w. HoldsFor level bureau w };

    ghost after = { λ first entries bureau. IsAfter first entries bureau };

    ghost keeps = { λ first bureau. KeepsCommon first bureau };

    ghost about = { λ bureau level evidence. IsAbout level bureau evidence };

    ghost failures = { λ bureau. bureau.beside.state.failures };

    fn step(&mut self, entry: Entry) -> Result<Did, Stop> {
        self.step(entry)
    }

    fn repeat(&mut self, entry: Entry, most: NonZeroU16) -> Result<Taken, Stop> {
        self.repeat(entry, most)
    }

    fn lines(&self, level: LevelId) -> &[PrintLine] {
        self.lines(level)
    }

    fn is_over(&self, level: LevelId) -> bool {
        is_over(self, level)
    }

    fn halts(&self, level: LevelId) -> &[Halt] {
        self.halts(level)
    }

    fn look(&mut self, alloc: Global, level: LevelId) -> Result<Evidence, Stop> {
        look(alloc, self, level)
    }
}
