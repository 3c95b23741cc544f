//! The log as it is written, event by event.
ghost use Rattle.std.specs.Prelude.{◌≡◌, None, is_some, OnOk};
ghost use Rattle.std.specs.Option.{option_and_then};
ghost use Rattle.s3_day_log.specs.Inner.Events.{said_of};
ghost use Rattle.s3_day_log.specs.Inner.Times.{IsNoted};
ghost use Rattle.s3_operating.specs.Inner.Logging.{Logs, LogsLast};
ghost use Rattle.s3_operating.specs.Inner.Times.{IsNotedAt};

use crate::clock::Clock;
use s3_day_log::{Event, line_at};
use s3_replay::put_into;
use std::alloc::{AllocError, Global};
use std::io;
use std::io::Write;

/// Where the log of a day is written.
#[derive(Drop)]
pub struct Journal<F: Write + Drop> {
    file: Option<F>,
    failure: Option<io::Error>,
}

impl<F: Write + Drop> Journal<F> {
    /// A log that is written to a file, or to none.
    pub fn new(file: Option<F>) -> Journal<F>
        ensures file { result.file ≡ file }
        ensures works { result.failure ≡ None }
    {
        Journal {
            file,
            failure: None,
        }
    }

    /// Whether a log is written.
    pub fn is_kept(&self) -> bool
        ensures { result ≡ is_some self.now.file }
    {
        self.file.is_some()
    }

    /// Writes an event, at the time that it is now. After a failure nothing more is written.
    #[tactic(auto, using(crate::proofs::Logging::last_failed, crate::proofs::Logging::last_without, crate::proofs::Logging::logs_last, crate::proofs::Logging::logs_none, crate::proofs::Noting::after_failure, crate::proofs::Noting::no_log, crate::proofs::Noting::no_log_at, crate::proofs::Noting::noted, crate::proofs::Noting::noted_after_failure, crate::proofs::Noting::noted_at))]
    pub fn note<C: Clock>(
        &mut self,
        alloc: Global,
        clock: &mut C,
        event: Event,
    ) -> Result<(), AllocError>
        ensures time { OnOk result (IsNotedAt (λ second. C.shows clock.old second clock.new) (option_and_then F.contents self.old.file) (option_and_then F.contents self.new.file) (is_some self.new.failure) (said_of event)) }
        ensures kept { is_some self.new.file ≡ is_some self.old.file }
        ensures logs { Logs F.contents self.old.file (is_some self.old.failure) self.new.file (is_some self.new.failure) }
        ensures last { OnOk result (LogsLast F.contents (said_of event) self.old.file (is_some self.old.failure) self.new.file (is_some self.new.failure)) }
        ensures line { OnOk result (IsNoted (option_and_then F.contents self.old.file) (option_and_then F.contents self.new.file) (is_some self.new.failure) (said_of event)) }
    {
        if self.file.is_none() || self.failure.is_some() {
            return Ok(());
        }
        let line = line_at(alloc, clock.seconds(), event)?;
        self.failure = put_into(&mut self.file, line.as_bytes());
        Ok(())
    }

    /// Why something couldn't be written.
    pub(crate) fn failure(&self) -> Option<&io::Error> {
        self.failure.as_ref()
    }

    /// Whether something couldn't be written.
    pub fn has_failed(&self) -> bool
        ensures { result ≡ is_some self.now.failure }
    {
        self.failure.is_some()
    }

    /// From now on no log is written.
    pub(crate) fn give_up(&mut self)
        ensures { self.new.file ≡ None }
    {
        self.file = None;
        self.failure = None;
    }
}
