//! The sectors that a file takes.
ghost use Rattle.std.specs.Prelude.{◌≡◌, ◌<◌, ◌+◌, ℕ, List, length, slice_get, Some, nat_eq};
ghost use Rattle.std.specs.List.{All, IsDistinct};
ghost use Rattle.s3_store.specs.Stretches.{sectors_in};

use s3_store::{Extents, Stretch};
use std::marker::Model;

/// The sectors of a file, seen as the list of their numbers in the order of the file's bytes.
#[derive(Drop)]
pub struct FileSectors {
    extents: Extents,
}

impl Model for FileSectors {
    ghost use Rattle.std.specs.Prelude.{◌<◌, ℕ, List, nat_eq};
    ghost use Rattle.std.specs.List.{All, IsDistinct};
    ghost use Rattle.s3_store.specs.Stretches.{sectors_in};

    ghost Value = { List ℕ };

    ghost view = { λ f. sectors_in f.extents };

    ghost invariant = { λ f. All (λ n. n < 65536) (sectors_in f.extents) × IsDistinct nat_eq (sectors_in f.extents) };
}

impl FileSectors {
    /// The sectors of these extents, none of which is there twice.
    pub fn of(extents: &Extents) -> Self
        requires small { All (λ n. n < 65536) (sectors_in extents.now) }
        requires distinct { IsDistinct nat_eq (sectors_in extents.now) }
        ensures { result ≡ sectors_in extents.now }
    {
        FileSectors {
            extents: extents.copied(),
        }
    }

    /// A copy of the list.
    pub fn copied(&self) -> Self
        ensures { result ≡ self.now }
    {
        FileSectors {
            extents: self.extents.copied(),
        }
    }

    /// The number on the pack of sector `i` of the file, from 0. A file takes none twice.
    pub fn sector_at(&self, i: usize) -> u16
        requires { i < length self.now }
        ensures sector { slice_get self.now i ≡ Some result }
        ensures distinct { IsDistinct nat_eq self.now }
    {
        sector_in(self.extents.as_slice(), i)
    }
}

/// The number of sector `i` of these runs, one run after another.
fn sector_in(runs: &[Stretch], i: usize) -> u16
    requires within { i < length (sectors_in runs.now) }
    requires small { All (λ n. n < 65536) (sectors_in runs.now) }
    ensures { slice_get (sectors_in runs.now) i ≡ Some result }
{
    match runs.split_first() {
        None => 0,
        Some((first, rest)) => {
            let sectors = usize::from(first.sectors);
            if i < sectors {
                first.start + i as u16
            } else {
                sector_in(rest, i - sectors)
            }
        }
    }
}
