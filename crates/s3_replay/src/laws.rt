//! When an operator makes turns and drains makes no difference to a run.
ghost use Rattle.std.specs.Prelude.{◌≡◌, ℕ, List};
ghost use Rattle.s3_cards.specs.Deck.{deck_of};
ghost use Rattle.s3_cards.specs.declared.levels.LevelId.{LevelId};
ghost use Rattle.s3_slots.specs.declared.header.Header.{Header};
ghost use Rattle.s3_labels.specs.Contents.{contents_of};
ghost use Rattle.s3_solo.specs.declared.action.Action.{Action};
ghost use Rattle.s3_bureau.specs.Runs.{cards_of, level_texts, run_alone};
ghost use Rattle.s3_replay.specs.Inner.Scripts.{DoTheSame, RunsAlike, first_world};
ghost use Rattle.s3_replay.specs.Inner.Written.{ReadsBack};

/// If a level accepts the same replies by two lists of entries and comes to rest by both, it ends in the same abstract state and
/// has the same texts. Two runs with such scripts give the level the same texts and files, whatever the other level does.
pub fn when_makes_no_difference()
    ensures worlds { (level : LevelId) (header : Header) (pack deck : List ℕ) (one other : List Action) → DoTheSame (first_world level header pack deck) one other → run_alone level header (contents_of pack) (cards_of (deck_of deck)) one ≡ run_alone level header (contents_of pack) (cards_of (deck_of deck)) other }
    ensures texts { (level : LevelId) (header : Header) (pack deck : List ℕ) (one other : List Action) → DoTheSame (first_world level header pack deck) one other → level_texts level header (contents_of pack) deck one ≡ level_texts level header (contents_of pack) deck other }
    ensures runs { RunsAlike }
{}

/// The script of what was performed asks for just that.
#[tactic(auto, using(crate::proofs::Asking::reads_back))]
pub fn scripts_read_back()
    ensures { ReadsBack }
{}
