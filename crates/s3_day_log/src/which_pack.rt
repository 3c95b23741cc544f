//! Which pack of a logged day a pack is.
ghost use Rattle.std.specs.Prelude.{◌≡◌};
ghost use Rattle.s3_day_log.specs.Inner.Endings.{standing_of};

/// Which pack of a logged day a pack is.
#[derive(Clone, Copy)]
pub enum Standing {
    /// The one with which the day was begun: it can be done.
    First,
    /// The one that the day has saved: it is done.
    Saved,
    /// Neither.
    Other,
}

/// Which pack of a logged day a pack is. A day that has changed nothing may be done once more.
pub fn standing_of(is_first: bool, is_saved: bool) -> Standing
    ensures { result ≡ standing_of is_first is_saved }
{
    if is_first {
        Standing::First
    } else if is_saved {
        Standing::Saved
    } else {
        Standing::Other
    }
}
