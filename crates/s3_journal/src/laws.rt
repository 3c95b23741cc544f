//! What the definitions say of crashes, and of lines that are read.
ghost use Rattle.s3_journal.specs.Inner.Crashes.{CrashesAreSeen, PostsOnce};
ghost use Rattle.s3_journal.specs.Inner.Journals.{ReadsBack};

/// No list of starts, kills, restores and changes by something else posts the same without `--again` that was posted to the pack before.
#[tactic(auto, using(crate::proofs::Once::posts_once))]
pub fn posts_once()
    ensures { PostsOnce }
{}

/// A start after a kill takes the day as posted exactly if its line is there and the pack is the new one; else it does the day.
#[tactic(auto, using(crate::proofs::Once::crashes_are_seen))]
pub fn crashes_are_seen()
    ensures { CrashesAreSeen }
{}

/// The lines that are written of days, each after the line before it, are read as these days, also if a further line was begun.
#[tactic(auto, using(crate::proofs::RoundTrip::reads_back))]
pub fn a_journal_reads_back()
    ensures { ReadsBack }
{}
