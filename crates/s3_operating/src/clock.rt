//! What the desk knows of time.
ghost use Rattle.std.specs.Prelude.{ℕ, ⊤};

/// A clock. It gives the times of messages and of the log, and shows whether a line was typed before its halt was shown.
pub trait Clock {
    /// By a call of `seconds`, a clock may give this second and be this clock from then on.
    ghost shows: { Self → ℕ → Self → Type 0 } = { λ _ _ _. ⊤ };

    /// Milliseconds since some moment, the same one at each call.
    fn milliseconds(&mut self) -> u64;

    /// Seconds since the beginning of 1970, in UTC.
    fn seconds(&mut self) -> u64
        ensures { shows self.old result self.new };
}
