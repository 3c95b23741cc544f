//! What the definitions say of themselves: worked scripts and texts; that a level's own entries alone say what it does, and what it can
//! read of a pack what it gets; and what a migrated pack keeps.
ghost use Rattle.std.specs.Prelude.{◌≡◌, ℕ, false, List, [], ◌∷◌, codes, Ok, Err, Some, None, IfOk};
ghost use Rattle.s3_cards.specs.Deck.{deck_of};
ghost use Rattle.s3_cards.specs.declared.levels.LevelId.{LevelId};
ghost use Rattle.s3_cards.specs.declared.levels.LevelId.TheVariants.{One, Two};
ghost use Rattle.s3_slots.specs.Header.{mounted};
ghost use Rattle.s3_slots.specs.declared.header.Header.{Header};
ghost use Rattle.s3_labels.specs.Contents.{contents_of};
ghost use Rattle.s3_labels.specs.Inner.Images.{in_second, migrated};
ghost use Rattle.s3_solo.specs.declared.action.Action.{Action};
ghost use Rattle.s3_solo.specs.Inner.Formats.{over_second, shows_no_space};
ghost use Rattle.s3_operator.specs.declared.halt_code.HaltCode.TheVariants.{HaltIndicator, FaultyJob, FaultySource, NoSpace};
ghost use Rattle.s3_bureau.specs.declared.entry.Entry.{Entry};
ghost use Rattle.s3_bureau.specs.Entries.{own};
ghost use Rattle.s3_bureau.specs.Runs.{cards_of, level_texts, run_alone, run_texts};
ghost use Rattle.s3_bureau.specs.Script.{entries_of};
ghost use Rattle.s3_bureau.specs.Texts.{report_of, halt_text_of};
ghost use Rattle.s3_bureau.specs.Inner.Agreement.{AgreesAfter};
ghost use Rattle.s3_bureau.specs.Inner.Confidentiality.{AlikeHaveSameSpace, AlikeMeansSame, NoLevelLearns, RunsLeaveSameSpace};
ghost use Rattle.s3_bureau.specs.Inner.MigratedRuns.{MigratedIsUntangled, MigratedRunsKeepRecords};
ghost use Rattle.s3_bureau.specs.Inner.Samples.{turn, drain, reply, printed, shown};
ghost use Rattle.s3_bureau.specs.Inner.Steps.{EachTakesItsOwn, Stepped};

use crate::bureau::Bureau;
use crate::entry::Entry;
use crate::stop::Stop;
use s3_level::Did;
use s3_store::PackStore;

/// Worked scripts are read: turns, drains and replies, with an empty line between them; and of lines that aren't well formed the
/// first is named.
pub fn scripts_are_read()
    ensures entries { entries_of (codes "T1 2\r\n\nD2\nR2 0") ≡ Ok (turn One ∷ turn One ∷ drain Two ∷ reply Two 0 ∷ []) }
    ensures level { entries_of (codes "T1\nT3\n") ≡ Err 2 }
    ensures count { entries_of (codes "T1 0003\n\nD1 0\n") ≡ Err 3 }
    ensures digits { entries_of (codes "T1 10000") ≡ Err 1 }
    ensures carriage_return { entries_of (codes "T1\r") ≡ Err 1 }
{}

/// Worked reports are written: trailing blanks are cut, and a code without a character is shown as a question mark.
pub fn reports_are_written()
    ensures lines { report_of (printed 1 1 (0xc1 ∷ 0xc2 ∷ 0xc3 ∷ 0x40 ∷ []) ∷ printed 12 66 (0x40 ∷ 0xf0 ∷ []) ∷ []) ≡ codes "0001 01 ABC\n0012 66  0\n" }
    ensures blank { report_of (printed 1 3 (0x40 ∷ 0x40 ∷ []) ∷ []) ≡ codes "0001 03 \n" }
    ensures unknown { report_of (printed 9999 1 (0x00 ∷ 0xc1 ∷ []) ∷ []) ≡ codes "9999 01 ?A\n" }
{}

/// Worked halt texts are written: the line of a refused deck goes first, and the details of a halt follow it.
pub fn halt_texts_are_written()
    ensures refused { halt_text_of (Some (3, 1)) [] ≡ codes "000 0003 01\n" }
    ensures faulty { halt_text_of None (shown 1 FaultyJob ((1, 2) ∷ []) None ∷ []) ≡ codes "001 OC -\n001 0001 02\n" }
    ensures replies { halt_text_of None (shown 1 FaultySource ((8, 8) ∷ (8, 10) ∷ []) (Some 2) ∷ shown 2 (HaltIndicator 1) [] (Some 0) ∷ shown 3 NoSpace [] (Some 3) ∷ []) ≡ codes "001 CE 2\n001 0008 08\n001 0008 10\n002 H1 0\n003 NS 3\n" }
{}

/// If two bureaus agree for a level, they agree for it after any entries among which its own are the same, and these get the
/// same answers: whatever the other level does.
pub fn other_entries_make_no_difference()
    ensures { AgreesAfter }
{}

/// After any steps that answered `Ok`, in whatever order the entries of the two levels came, each world that was held for a level has
/// taken that level's own entries, and these got the reference model's answers. A level without an entry among them holds the worlds that
/// it held, and stays with its sectors; so do the header and the masters.
pub fn each_level_takes_its_own_entries()
    ensures { EachTakesItsOwn }
{}

/// What the law on any steps asks of each is what `Bureau::step` gives: it performs the entry.
pub fn a_step_is_one_of_any<S: PackStore>(bureau: &mut Bureau<S>, entry: Entry) -> Result<Did, Stop>
    ensures { IfOk result (λ did. Stepped entry did bureau.old bureau.new) }
{
    bureau.step(entry)
}

/// No level learns of the other. Two packs that are alike in what a level can read give it the same world and the same texts, with one
/// deck and the same entries of its own. So two runs over them give it the same texts and the same files, whatever else the packs have,
/// and whatever the other level's deck and entries are.
pub fn no_level_learns_of_the_other()
    ensures meaning { AlikeMeansSame }
    ensures runs { NoLevelLearns }
{}

/// The free space of a level is the same over two packs that are alike in what it can read: the same extents, with the same bytes. Two
/// runs over them leave it the same free extents, if no slot of it was overlapping or duplicate.
pub fn free_space_is_the_same()
    ensures before { AlikeHaveSameSpace }
    ensures after { RunsLeaveSameSpace }
{}

/// A run over a migrated pack leaves each level's world as the same run over the old one, except for the format, and gives the
/// same texts, if no halt NS (no space) is shown.
pub fn a_migrated_pack_gives_the_same_texts()
    ensures worlds { (old new : List ℕ) (header : Header) (level : LevelId) (deck : List (List ℕ)) (actions : List Action) → mounted (contents_of old) ≡ Ok header → migrated old ≡ Ok new → shows_no_space (run_alone level header (contents_of old) deck actions).halts ≡ false → run_alone level (in_second header) (contents_of new) deck actions ≡ over_second (run_alone level header (contents_of old) deck actions) }
    ensures level { (old new : List ℕ) (header : Header) (level : LevelId) (deck : List ℕ) (actions : List Action) → mounted (contents_of old) ≡ Ok header → migrated old ≡ Ok new → shows_no_space (run_alone level header (contents_of old) (cards_of (deck_of deck)) actions).halts ≡ false → level_texts level (in_second header) (contents_of new) deck actions ≡ level_texts level header (contents_of old) deck actions }
    ensures run { (old new deck1 deck2 script : List ℕ) (header : Header) (entries : List Entry) → mounted (contents_of old) ≡ Ok header → migrated old ≡ Ok new → entries_of script ≡ Ok entries → shows_no_space (run_alone One header (contents_of old) (cards_of (deck_of deck1)) (own One entries)).halts ≡ false → shows_no_space (run_alone Two header (contents_of old) (cards_of (deck_of deck2)) (own Two entries)).halts ≡ false → run_texts new deck1 deck2 script ≡ run_texts old deck1 deck2 script }
{}

/// A run over a migrated pack leaves the records of the masters, and of a level, as the same run over the old one does: of a level
/// without an entry; and of one to which no halt NS (no space) was shown over the old pack, with its labels if no slot of it was
/// overlapping or duplicate. The migrated pack has no such slot that the old one didn't have.
pub fn a_migrated_pack_keeps_the_records()
    ensures untangled { MigratedIsUntangled }
    ensures runs { MigratedRunsKeepRecords }
{}
