//! The two levels.
ghost use Rattle.std.specs.Prelude.{◌≡◌};
ghost use Rattle.s3_cards.specs.Inner.Levels.{level_number, other as other_spec};

/// One of the two levels in which jobs run.
#[derive(Clone, Copy, Debug, PartialEq, Eq)]
pub enum LevelId {
    /// Level 1.
    One,
    /// Level 2.
    Two,
}

impl LevelId {
    /// Its number, 1 or 2.
    pub fn number(self) -> u8
        ensures { result ≡ level_number self }
    {
        match self {
            LevelId::One => 1,
            LevelId::Two => 2,
        }
    }

    /// The other level.
    pub fn other(self) -> LevelId
        ensures { result ≡ other_spec self }
    {
        match self {
            LevelId::One => LevelId::Two,
            LevelId::Two => LevelId::One,
        }
    }
}
