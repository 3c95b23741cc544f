//! The extents of a file.
ghost use Rattle.std.specs.Prelude.{◌≡◌, ◌+◌, ◌<◌, ◌≤◌, ◌++◌, List, [], ◌∷◌, length, take};
ghost use Rattle.s3_store.specs.declared.stretch.Stretch.{Stretch};

use crate::stretch::Stretch;
use std::marker::Model;

/// Up to four runs of sectors, in the order of the bytes of the file that they hold.
#[derive(Drop)]
pub struct Extents {
    runs: [Stretch; 4],
    count: usize,
}

impl Model for Extents {
    ghost Value = { List Stretch };

    ghost view = { λ e. take e.count e.runs };

    ghost invariant = { λ e. e.count ≤ 4 };
}

impl Extents {
    /// The empty list of runs.
    pub fn new() -> Self
        ensures { result ≡ [] }
    {
        Extents {
            runs: [Stretch {
                start: 0,
                sectors: 0,
            }; 4],
            count: 0,
        }
    }

    /// The list of these runs, at most four.
    pub fn of(runs: &[Stretch]) -> Self
        requires { length runs.now ≤ 4 }
        ensures { result ≡ runs.now }
    {
        let mut all = [Stretch {
            start: 0,
            sectors: 0,
        }; 4];
        all[..runs.len()].copy_from_slice(runs);
        Extents {
            runs: all,
            count: runs.len(),
        }
    }

    /// The runs in the order of the file's bytes, at most four.
    pub fn as_slice(&self) -> &[Stretch]
        ensures value { result.now ≡ self.now }
        ensures few { length self.now ≤ 4 }
    {
        &self.runs[..self.count]
    }

    /// Puts one more run after the others, of which there are at most three.
    pub fn push(&mut self, run: Stretch)
        requires { length self.old < 4 }
        ensures { self.new ≡ self.old ++ run ∷ [] }
    {
        self.runs[self.count] = run;
        self.count += 1;
    }

    /// A copy of the list.
    pub fn copied(&self) -> Self
        ensures { result ≡ self.now }
    {
        Extents {
            runs: self.runs,
            count: self.count,
        }
    }
}
