//! Numbers of jobs.
ghost use Rattle.std.specs.Prelude.{◌≡◌, ◌≤◌};
ghost use Rattle.s3_solo.specs.World.{number_after};

use std::marker::Model;

/// The highest number of a job.
const LAST_NUMBER: u16 = 999;

/// The number of the next job of a level, 0 to 999: the first job has 1, and 0 follows 999.
#[derive(Drop)]
pub struct JobNumber {
    number: u16,
}

impl Model for JobNumber {
    ghost use Rattle.std.specs.Prelude.{ℕ, ◌≤◌};

    ghost Value = { ℕ };

    ghost view = { λ n. n.number };

    ghost invariant = { λ n. n.number ≤ 999 };
}

impl JobNumber {
    /// The number of the first job.
    pub fn first() -> JobNumber
        ensures { result ≡ 1 }
    {
        JobNumber { number: 1 }
    }

    /// Takes the number of the next job.
    pub fn take(&mut self) -> u16
        ensures number { result ≡ self.old }
        ensures next { self.new ≡ number_after self.old }
    {
        let number = self.number;
        self.number = if number == LAST_NUMBER { 0 } else { number + 1 };
        number
    }
}
