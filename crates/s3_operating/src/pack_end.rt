//! What becomes of the pack at the end of a day.
ghost use Rattle.std.specs.Prelude.{◌≡◌, false, Some};
ghost use Rattle.s3_operating.specs.Inner.PackEnds.{is_answered_no, is_unfinished as is_unfinished_spec, pack_end_of};

use s3_day_log::Verdict;

/// What becomes of the pack at the end of a day, and why it isn't saved.
#[derive(Clone, Copy)]
pub enum PackEnd {
    /// It is saved.
    Saved,
    /// No file was named for it.
    Unnamed,
    /// A level isn't done.
    Unfinished,
    /// The replies couldn't be read to their end, as from a terminal that was closed.
    Unheard,
    /// The log that is done again has the answer `no`.
    LoggedNo,
    /// A person answered `no`.
    AnsweredNo,
}

/// What decides whether the pack of a day that is over is saved.
#[derive(Clone, Copy)]
pub struct EndedDay {
    /// What became of the day.
    pub verdict: Verdict,
    /// Whether a file is named for the pack.
    pub has_place: bool,
    /// Whether the pack is saved even if a level isn't done.
    pub saves_unfinished: bool,
    /// Whether the replies couldn't be read to their end.
    pub has_lost_replies: bool,
    /// Whether a reply has ended a job after it had changed files.
    pub is_spoilt: bool,
    /// Whether the log that is done again has the answer `no`.
    pub is_declined: bool,
}

impl EndedDay {
    /// What becomes of the pack, given the answer to "save the pack?", if somebody was asked.
    pub fn pack_end(self, answer: Option<bool>) -> PackEnd
        ensures { result ≡ pack_end_of self answer }
    {
        if !self.has_place {
            return PackEnd::Unnamed;
        }
        if is_unfinished(self.verdict) && !self.saves_unfinished {
            return PackEnd::Unfinished;
        }
        if self.has_lost_replies {
            return PackEnd::Unheard;
        }
        if !self.is_spoilt {
            return PackEnd::Saved;
        }
        if self.is_declined {
            return PackEnd::LoggedNo;
        }
        match answer {
            Some(false) => PackEnd::AnsweredNo,
            Some(true) | None => PackEnd::Saved,
        }
    }

    /// Whether a person is asked whether the pack is saved: the answer `no` counts.
    pub fn counts_answer(self) -> bool
        ensures { result ≡ is_answered_no (pack_end_of self (Some false)) }
    {
        matches!(self.pack_end(Some(false)), PackEnd::AnsweredNo)
    }
}

fn is_unfinished(verdict: Verdict) -> bool
    ensures { result ≡ is_unfinished_spec verdict }
{
    matches!(verdict, Verdict::Unfinished)
}
