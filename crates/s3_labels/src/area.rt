//! The three areas of a pack.
ghost use Rattle.std.specs.Prelude.{◌≡◌, ◌+◌, ◌<◌, ◌/◌};
ghost use Rattle.s3_slots.specs.Slots.{labels_at};
ghost use Rattle.s3_labels.specs.Inner.AreaNumbers.{area_number};

use s3_cards::LevelId;

/// An area of a pack: 32 label slots, and a region in which the files of their labels are.
#[derive(Clone, Copy, PartialEq, Eq)]
pub enum Area {
    /// Area 0, the masters: files that both levels read.
    Masters,
    /// Area 1 or 2: the files of a level.
    Level(LevelId),
}

impl Area {
    /// All three, in the order of their numbers.
    pub const ALL: [Area; 3] = [
        Area::Masters,
        Area::Level(LevelId::One),
        Area::Level(LevelId::Two),
    ];

    /// Its number: 0 for the masters, 1 and 2 for the levels.
    pub fn number(self) -> u16
        ensures value { result ≡ area_number self }
        ensures few { result < 3 }
    {
        match self {
            Area::Masters => 0,
            Area::Level(LevelId::One) => 1,
            Area::Level(LevelId::Two) => 2,
        }
    }

    /// The sector of slot `i`, 0 to 31: one of the pack's first 25.
    pub fn label_sector(self, i: u16) -> u16
        requires { i < 32 }
        ensures value { result ≡ labels_at (area_number self) + i / 4 }
        ensures few { result < 25 }
    {
        1 + 8 * self.number() + i / 4
    }
}
