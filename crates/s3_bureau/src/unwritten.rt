//! A run that is over, before its reports are written.
ghost use Rattle.std.specs.Prelude.{◌≡◌, IfOk};
ghost use Rattle.s3_cards.specs.declared.levels.LevelId.{LevelId};
ghost use Rattle.s3_bureau.specs.Runs.{outcome_texts};
ghost use Rattle.s3_bureau.specs.Inner.Held.{lines_at};
ghost use Rattle.s3_bureau.specs.Inner.Unwritten.{SavesAs, lines_texts, unwritten_texts};

use crate::bureau::Bureau;
use crate::outcome::{LevelLines, LevelTexts, Outcome, RunLines};
use crate::report::report_text;
use s3_cards::{LevelId, PrintLine};
use s3_store::MemoryStore;
use std::alloc::{AllocError, Global};

/// A run that is over: the bureau, whose drained lines its reports are made of, and the halt texts. It is ended by `written`,
/// `into_lines` or `into_pack` alone.
pub struct Unwritten {
    /// The bureau, finished.
    pub bureau: Bureau<MemoryStore>,
    /// The halt text of level 1.
    pub halts1: Vec<u8>,
    /// The halt text of level 2.
    pub halts2: Vec<u8>,
}

impl Unwritten {
    /// The lines of a level's report, in order.
    pub fn lines(&self, level: LevelId) -> &[PrintLine]
        ensures { result.now ≡ lines_at level self.now.bureau }
    {
        self.bureau.lines(level)
    }

    /// What the run hands out, with both reports written. It is refused only if memory runs out.
    pub fn written(self, alloc: Global) -> Result<Outcome, AllocError>
        ensures texts { IfOk result (λ outcome. outcome_texts outcome ≡ unwritten_texts self) }
        ensures pack { IfOk result (λ outcome. SavesAs self outcome.pack.items) }
    {
        let report1 = report_text(alloc, self.bureau.lines(LevelId::One));
        let report2 = report_text(alloc, self.bureau.lines(LevelId::Two));
        let Unwritten {
            bureau,
            halts1,
            halts2,
        } = self;
        let pack = bureau.into_store().into_bytes();
        let one = LevelTexts {
            report: report1?,
            halts: halts1,
        };
        let two = LevelTexts {
            report: report2?,
            halts: halts2,
        };
        Ok(Outcome { one, two, pack })
    }

    /// What the run leaves, with its reports as printed lines. No line is copied.
    pub fn into_lines(self) -> RunLines
        ensures one { result.one.lines.items ≡ lines_at LevelId.One self.bureau }
        ensures two { result.two.lines.items ≡ lines_at LevelId.Two self.bureau }
        ensures halts { result.one.halts.items ≡ self.halts1.items }
        ensures texts { lines_texts result ≡ unwritten_texts self }
        ensures pack { SavesAs self result.pack.items }
    {
        let Unwritten {
            bureau,
            halts1,
            halts2,
        } = self;
        let (store, lines1, lines2) = bureau.into_lines();
        RunLines {
            one: LevelLines {
                lines: lines1,
                halts: halts1,
            },
            two: LevelLines {
                lines: lines2,
                halts: halts2,
            },
            pack: store.into_bytes(),
        }
    }

    /// The bytes of the pack as the run leaves it.
    pub fn into_pack(self) -> Vec<u8>
        ensures { SavesAs self result.items }
    {
        let Unwritten {
            bureau,
            halts1: _,
            halts2: _,
        } = self;
        bureau.into_store().into_bytes()
    }
}
