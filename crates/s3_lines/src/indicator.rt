//! Indicators and conditions.

/// An indicator: something that is on or off while a program runs. Each is named by the number or the letter on its card.
#[derive(Clone, Copy, PartialEq, Eq, Hash)]
pub enum Indicator {
    /// 01 to 99.
    General(u8),
    /// L0 to L9.
    Level(u8),
    /// LR.
    LastRecord,
    /// MR.
    Matching,
    /// H1 to H9.
    Halt(u8),
    /// 1P.
    FirstPage,
    /// OA to OG are 1 to 7, OV is 8.
    Overflow(u8),
    /// U1 to U8.
    Switch(u8),
}

impl Indicator {
    ghost use Rattle.std.specs.Prelude.{◌≡◌, ◌<◌};
    ghost use Rattle.s3_lines.specs.Indicators.{indicator_number, same_indicator};

    /// A number that no other indicator has, below 2,048: eight times the number on the sheet, and its kind.
    pub fn number(self) -> usize
        ensures number { result ≡ indicator_number self }
        ensures within { result < 2048 }
    {
        match self {
            Indicator::General(number) => 8 * usize::from(number),
            Indicator::Level(number) => 8 * usize::from(number) + 1,
            Indicator::LastRecord => 2,
            Indicator::Matching => 3,
            Indicator::Halt(number) => 8 * usize::from(number) + 4,
            Indicator::FirstPage => 5,
            Indicator::Overflow(number) => 8 * usize::from(number) + 6,
            Indicator::Switch(number) => 8 * usize::from(number) + 7,
        }
    }

    /// Whether it is the same indicator as another one.
    pub fn is(self, other: Indicator) -> bool
        ensures { result ≡ same_indicator self other }
    {
        self == other
    }
}

/// A condition of a line: an indicator that must be on, or one that must be off.
#[derive(Clone, Copy)]
pub struct Condition {
    /// Whether the indicator must be off; else it must be on.
    pub negated: bool,
    /// The indicator that is looked at.
    pub indicator: Indicator,
}
