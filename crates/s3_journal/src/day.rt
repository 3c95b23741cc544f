//! A line of the journal: a day, or another command that saved the pack.
ghost use Rattle.std.specs.Prelude.{◌≡◌};
ghost use Rattle.s3_journal.specs.Inner.Posted.{posted_by, posting_of, restores as restores_spec};
ghost use Rattle.s3_journal.specs.Inner.Days.{did_of};
ghost use Rattle.s3_journal.specs.Inner.Lines.{command_word};

/// How much a level did.
#[derive(Clone, Copy)]
pub struct LevelCount {
    /// How many jobs were begun.
    pub jobs: u64,
    /// How many lines they printed.
    pub lines: u64,
}

/// A day that `bureau operate` did. Checksums are SHA-256 digests in 64 hexadecimal digits.
#[derive(Drop)]
pub struct Operated {
    /// The checksum of level 1's deck as it was run.
    pub deck1: String,
    /// The checksum of level 2's deck as it was run.
    pub deck2: String,
    /// The checksum of the file of rules, if one was given.
    pub rules: Option<String>,
    /// What was asked if no rule answered: `lines`, `operator` or `nobody`.
    pub replies: String,
    /// What level 1 did.
    pub one: LevelCount,
    /// What level 2 did.
    pub two: LevelCount,
}

/// A session that `bureau run` did, by its checksums.
#[derive(Drop)]
pub struct Ran {
    /// The deck of level 1.
    pub deck1: String,
    /// The deck of level 2.
    pub deck2: String,
    /// The script.
    pub script: String,
}

/// A table that `bureau load --append` added to a file.
#[derive(Drop)]
pub struct Appended {
    /// The checksum of the table.
    pub table: String,
    /// The file: its area, a blank and its label.
    pub file: String,
}

/// What the command of a line did.
#[derive(Drop)]
pub enum Work {
    /// `operate` did a day.
    Operate(Operated),
    /// `run` did a session.
    Run(Ran),
    /// `load` added a table to a file.
    Append(Appended),
    /// `load` made a file again.
    Load,
    /// `sort` sorted a file.
    Sort,
    /// `delete` deleted a file.
    Delete,
    /// `copy` copied a file into the pack.
    Copy,
    /// `amend` changed a record of a file.
    Amend,
    /// The pack that an earlier line left was put back.
    Restore,
}

/// What a command posts, by checksums. The same is posted once.
#[derive(Clone, Copy)]
pub enum Posting<'a> {
    /// The decks of both levels.
    Decks {
        /// The checksum of level 1's deck.
        one: &'a str,
        /// The checksum of level 2's deck.
        two: &'a str,
    },
    /// A table that is added to a file.
    Table {
        /// The checksum of the table.
        table: &'a str,
        /// The file: its area, a blank and its label.
        file: &'a str,
    },
    /// Nothing that may be posted only once.
    Nothing,
}

impl Work {
    /// The name of the command, as a line has it.
    pub fn command(&self) -> &'static str
        ensures { result.now ≡ command_word (did_of self.now) }
    {
        match self {
            Work::Operate(_) => "operate",
            Work::Run(_) => "run",
            Work::Append(_) | Work::Load => "load",
            Work::Sort => "sort",
            Work::Delete => "delete",
            Work::Copy => "copy",
            Work::Amend => "amend",
            Work::Restore => "restore",
        }
    }

    /// What the command posted.
    pub fn posting(&self) -> Posting<'_>
        ensures { posted_by result ≡ posting_of self.now }
    {
        match self {
            Work::Operate(day) => Posting::Decks {
                one: day.deck1.as_str(),
                two: day.deck2.as_str(),
            },
            Work::Run(session) => Posting::Decks {
                one: session.deck1.as_str(),
                two: session.deck2.as_str(),
            },
            Work::Append(added) => Posting::Table {
                table: added.table.as_str(),
                file: added.file.as_str(),
            },
            Work::Load | Work::Sort | Work::Delete | Work::Copy | Work::Amend | Work::Restore =>
                Posting::Nothing,
        }
    }

    /// Whether the command put an earlier pack back.
    pub(crate) fn restores(&self) -> bool
        ensures { result ≡ restores_spec self.now }
    {
        match self {
            Work::Restore => true,
            _ => false,
        }
    }
}

/// A day, or another command, whose pack was going to be saved. Checksums are SHA-256 digests in 64 hexadecimal digits.
#[derive(Drop)]
pub struct PostedDay {
    /// Its number, from 1.
    pub number: u64,
    /// The time in UTC.
    pub at: String,
    /// The checksum of the pack with which it began.
    pub before: String,
    /// The checksum of the pack that it leaves.
    pub after: String,
    /// What the command did.
    pub work: Work,
    /// The exit status.
    pub status: u8,
}
