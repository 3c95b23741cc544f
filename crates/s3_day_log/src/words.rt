//! The words of the log: for kinds of events, for what a job is for, for how it ended, and for who gave a reply.
ghost use Rattle.std.specs.Prelude.{◌≡◌};
ghost use Rattle.s3_day_log.specs.Inner.Lines.{end_named, end_word, job_kind_named, job_kind_word, kind_named, replier_named, replier_word};

use crate::event::{JobEnd, JobKind, Replier};

/// The kinds of events.
#[derive(Clone, Copy)]
pub(crate) enum EventKind {
    /// The day begins.
    Begin,
    /// A job begins.
    JobBegins,
    /// A job is over.
    JobEnds,
    /// A halt waits.
    Halt,
    /// A halt is answered.
    Reply,
    /// A level is stopped at a limit.
    Cut,
    /// The operator ended the day.
    Stop,
    /// A level isn't done at the end of the day.
    Left,
    /// The operator answered that the pack isn't to be saved.
    Declined,
    /// The pack is going to be saved.
    Saving,
    /// The day is over.
    End,
    /// The day was refused before its first turn.
    Refused,
}

impl EventKind {
    /// The kind of this word.
    pub(crate) fn of_word(word: &str) -> Option<EventKind>
        ensures { result ≡ kind_named word.now }
    {
        match word {
            "begin" => Some(EventKind::Begin),
            "job_begins" => Some(EventKind::JobBegins),
            "job_ends" => Some(EventKind::JobEnds),
            "halt" => Some(EventKind::Halt),
            "reply" => Some(EventKind::Reply),
            "cut" => Some(EventKind::Cut),
            "stop" => Some(EventKind::Stop),
            "left" => Some(EventKind::Left),
            "declined" => Some(EventKind::Declined),
            "saving" => Some(EventKind::Saving),
            "end" => Some(EventKind::End),
            "refused" => Some(EventKind::Refused),
            _ => None,
        }
    }
}

impl JobKind {
    /// Its word.
    pub(crate) fn word(self) -> &'static str
        ensures { result.now ≡ job_kind_word self }
    {
        match self {
            JobKind::Compile => "compile",
            JobKind::Run => "run",
            JobKind::Faulty => "faulty",
        }
    }

    /// The kind of this word.
    pub(crate) fn of_word(word: &str) -> Option<JobKind>
        ensures { result ≡ job_kind_named word.now }
    {
        match word {
            "compile" => Some(JobKind::Compile),
            "run" => Some(JobKind::Run),
            "faulty" => Some(JobKind::Faulty),
            _ => None,
        }
    }
}

impl JobEnd {
    /// Its word.
    pub(crate) fn word(self) -> &'static str
        ensures { result.now ≡ end_word self }
    {
        match self {
            JobEnd::Ended => "ended",
            JobEnd::Replied => "replied",
            JobEnd::PassedOver => "passed_over",
        }
    }

    /// The end of this word.
    pub(crate) fn of_word(word: &str) -> Option<JobEnd>
        ensures { result ≡ end_named word.now }
    {
        match word {
            "ended" => Some(JobEnd::Ended),
            "replied" => Some(JobEnd::Replied),
            "passed_over" => Some(JobEnd::PassedOver),
            _ => None,
        }
    }
}

impl Replier {
    /// Its word.
    pub(crate) fn word(self) -> &'static str
        ensures { result.now ≡ replier_word self }
    {
        match self {
            Replier::Rule => "rule",
            Replier::Line => "line",
            Replier::Operator => "operator",
            Replier::Log => "log",
        }
    }

    /// The replier of this word.
    pub(crate) fn of_word(word: &str) -> Option<Replier>
        ensures { result ≡ replier_named word.now }
    {
        match word {
            "rule" => Some(Replier::Rule),
            "line" => Some(Replier::Line),
            "operator" => Some(Replier::Operator),
            "log" => Some(Replier::Log),
            _ => None,
        }
    }
}
