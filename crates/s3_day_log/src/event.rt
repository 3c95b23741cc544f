//! What the log says, line by line.

use s3_cards::LevelId;
use s3_operator::HaltCode;

/// A file as it was read or saved.
#[derive(Drop)]
pub struct NamedFile {
    /// Its name, as it was given.
    pub name: String,
    /// The SHA-256 digest of its bytes, in hexadecimal digits.
    pub sha256: String,
}

/// What a day was begun with.
#[derive(Drop)]
pub struct Begun {
    /// Each word of the command but the names of outputs.
    pub words: Vec<String>,
    /// The pack; none if the day had a new one in memory.
    pub pack: Option<NamedFile>,
    /// The files of level 1's deck, in their order.
    pub deck1: Vec<NamedFile>,
    /// The files of level 2's deck, in their order.
    pub deck2: Vec<NamedFile>,
}

/// How a job ended.
#[derive(Clone, Copy)]
pub enum JobEnd {
    /// It came to its end.
    Ended,
    /// A reply ended it.
    Replied,
    /// It was never started.
    PassedOver,
}

/// What a job is for.
#[derive(Clone, Copy)]
pub enum JobKind {
    /// It compiles a program.
    Compile,
    /// It runs a program.
    Run,
    /// Its statements are faulty.
    Faulty,
}

/// Who gave a reply.
#[derive(Clone, Copy)]
pub enum Replier {
    /// A rule.
    Rule,
    /// A line of standard input.
    Line,
    /// A person at the terminal.
    Operator,
    /// The log of the day that is done again.
    Log,
}

/// A job that has begun.
#[derive(Drop)]
pub struct JobBegun {
    /// The level.
    pub level: LevelId,
    /// The number of the job.
    pub job: u16,
    /// What it is for; none in the logs of earlier programs.
    pub kind: Option<JobKind>,
    /// The program, if its statements name one.
    pub program: Option<String>,
    /// The number of its first card, from 1.
    pub card: u16,
}

/// A job that is over.
#[derive(Clone, Copy)]
pub struct JobOver {
    /// The level.
    pub level: LevelId,
    /// The number of the job.
    pub job: u16,
    /// How many lines it has printed.
    pub lines: u64,
    /// How it ended.
    pub end: JobEnd,
}

/// A halt that waits.
#[derive(Clone, Copy)]
pub struct LoggedHalt {
    /// The level.
    pub level: LevelId,
    /// The number of the job.
    pub job: u16,
    /// What it halts for.
    pub code: HaltCode,
    /// The number of the last data card that was read, or of the first detail's card; none if there is neither.
    pub card: Option<u16>,
}

/// A reply that was given.
#[derive(Clone, Copy)]
pub struct LoggedReply {
    /// The level.
    pub level: LevelId,
    /// What it halted for.
    pub code: HaltCode,
    /// The digit; in a log that was read, one that the halt allows.
    pub digit: u8,
    /// Who gave it.
    pub by: Replier,
}

/// A reply of a log that was read, and the halt that it was given to.
#[derive(Clone, Copy)]
pub struct AnsweredHalt {
    /// The reply.
    pub reply: LoggedReply,
    /// The last halt of its level before it that has no earlier reply; none if the log has no such line.
    pub halt: Option<LoggedHalt>,
}

/// What is left of a level that isn't done.
#[derive(Drop)]
pub struct LevelLeft {
    /// The level.
    pub level: LevelId,
    /// The number of its first job that is left; none if no job is.
    pub job: Option<u16>,
    /// The line at which this job begins, as `--from1` and `--from2` take it.
    pub from: Option<String>,
}

/// A day that was refused before its first turn.
#[derive(Drop)]
pub struct DayRefused {
    /// The exit status.
    pub status: u8,
    /// The last line that was reported.
    pub line: String,
}

/// A day that is over.
#[derive(Drop)]
pub struct DayOver {
    /// The exit status.
    pub status: u8,
    /// The pack that was saved, if one was.
    pub saved: Option<NamedFile>,
}

/// An event of a day. One that has more than one field has them in a struct of its own.
#[derive(Drop)]
pub enum Event {
    /// The first one: the day begins.
    Begin {
        /// With what.
        day: Begun,
    },
    /// A job begins.
    JobBegins(JobBegun),
    /// A job is over.
    JobEnds(JobOver),
    /// A halt waits.
    Halt(LoggedHalt),
    /// The halt that waits in a level is answered.
    Reply(LoggedReply),
    /// A level has taken as many turns, or printed as many lines, as it may.
    Cut {
        /// The level.
        level: LevelId,
    },
    /// The operator ended the day.
    Stop,
    /// A level isn't done at the end of the day.
    Left(LevelLeft),
    /// The operator answered that the pack isn't to be saved. Only the last event follows.
    Declined,
    /// The pack is going to be saved. Only the last event follows.
    Saving {
        /// The pack that is saved, by the name that it gets.
        pack: NamedFile,
    },
    /// The last one: the day is over.
    End(DayOver),
    /// The only one: the day was refused before its first turn.
    Refused(DayRefused),
}
