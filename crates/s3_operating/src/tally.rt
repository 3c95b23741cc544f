//! How much was performed, counted as it grows.

use s3_bureau::Action;
use s3_cards::LevelId;
use s3_replay::Repeated;

/// What a level has done.
#[derive(Clone, Copy)]
pub(crate) struct Counts {
    /// Its turns.
    pub(crate) turns: u64,
    /// Its lines that were printed.
    pub(crate) lines: u64,
}

/// What both levels have done.
#[derive(Clone, Copy)]
pub(crate) struct Tally {
    one: Counts,
    two: Counts,
    /// How many parts of what was performed are counted whole.
    whole: usize,
    /// How often the entry of the part after them is counted.
    times: u32,
}

impl Tally {
    /// Nothing yet.
    pub(crate) fn new() -> Tally {
        let none = Counts { turns: 0, lines: 0 };
        Tally {
            one: none,
            two: none,
            whole: 0,
            times: 0,
        }
    }

    /// What a level has done.
    pub(crate) fn of(&self, level: LevelId) -> Counts {
        match level {
            LevelId::One => self.one,
            LevelId::Two => self.two,
        }
    }

    /// How many turns both levels have taken.
    pub(crate) fn turns(&self) -> u64 {
        self.one.turns.saturating_add(self.two.turns)
    }

    /// Counts what came since this was called last.
    pub(crate) fn count(&mut self, parts: &[Repeated]) {
        let new = parts.get(self.whole..).unwrap_or(&[]);
        for part in new {
            self.add(part, part.times.saturating_sub(self.times));
            self.times = 0;
        }
        if let Some(last) = new.last() {
            self.whole = parts.len().saturating_sub(1);
            self.times = last.times;
        }
    }

    fn add(&mut self, part: &Repeated, times: u32) {
        let counts = match part.entry.level {
            LevelId::One => &mut self.one,
            LevelId::Two => &mut self.two,
        };
        match part.entry.action {
            Action::Turn => counts.turns = counts.turns.saturating_add(u64::from(times)),
            Action::Drain => counts.lines = counts.lines.saturating_add(u64::from(times)),
            Action::Reply(_digit) => {}
        }
    }
}
