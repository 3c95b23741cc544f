//! Replies that need no question, as they are reported.

use crate::answers::{Answer, Giver};
use s3_operator::{HaltCode, letters};

/// A reply that a rule or a log gave, and how often the same job got the same reply to the same halt since that was reported.
#[derive(Clone, Copy)]
pub(crate) struct Given {
    pub(crate) code: HaltCode,
    pub(crate) answer: Answer,
    /// The place of the job among those that were begun, from 0.
    pub(crate) place: usize,
    /// The number of the card that the halt is about, from 1, if there is one.
    pub(crate) card: Option<usize>,
    /// How many more there were than are reported.
    pub(crate) more: u64,
}

impl Given {
    /// Whether another one is the same, except for its card.
    pub(crate) fn is_repeated_by(&self, other: &Given) -> bool {
        letters(self.code) == letters(other.code)
            && self.place == other.place
            && self.answer.digit == other.answer.digit
            && is_same_giver(self.answer.giver, other.answer.giver)
    }

    /// This one, with another that is the same.
    pub(crate) fn and(self, other: Given) -> Given {
        Given {
            code: other.code,
            answer: other.answer,
            place: other.place,
            card: other.card,
            more: self.more.saturating_add(1),
        }
    }
}

fn is_same_giver(one: Giver, other: Giver) -> bool {
    match (one, other) {
        (Giver::Rule(line), Giver::Rule(other)) => line == other,
        (Giver::Log, Giver::Log) => true,
        _ => false,
    }
}
