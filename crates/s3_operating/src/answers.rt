//! Questions about halts, replies, and who gives them.

use s3_cards::LevelId;
use s3_day_log::Replier;
use s3_operator::HaltCode;

/// A question about a halt.
#[derive(Clone, Copy)]
pub(crate) struct Question {
    /// The level that halts.
    pub(crate) level: LevelId,
    /// For what it halts.
    pub(crate) code: HaltCode,
    /// Whether a person is asked, at a terminal.
    pub(crate) to_person: bool,
}

/// Whoever gives a reply.
#[derive(Clone, Copy)]
pub(crate) enum Giver {
    /// The log.
    Log,
    /// The rule on this line.
    Rule(usize),
    /// A line of the replies.
    Line,
    /// A person.
    Person,
}

impl Giver {
    /// As the log has it.
    pub(crate) fn replier(self) -> Replier {
        match self {
            Giver::Log => Replier::Log,
            Giver::Rule(_) => Replier::Rule,
            Giver::Line => Replier::Line,
            Giver::Person => Replier::Operator,
        }
    }
}

/// A reply, and who gives it.
#[derive(Clone, Copy)]
pub(crate) struct Answer {
    pub(crate) digit: u8,
    pub(crate) giver: Giver,
}
