//! What the definitions say of themselves: worked examples.

ghost use Rattle.std.specs.Prelude.{◌≡◌, [], ◌∷◌, Some, None, true, false, replicate};
ghost use Rattle.s3_lines.specs.declared.sheet.FileUse.TheVariants.{Input, Output, Update};
ghost use Rattle.s3_operator.specs.declared.halt_code.HaltCode.TheVariants.{NoLabel, DamagedLabel, MasterForUpdate, NoSpace, RetainedFile, DuplicateLabel, LabelMismatch, BadIndex};
ghost use Rattle.s3_slots.specs.Inner.Samples.{named};
ghost use Rattle.s3_keyed.specs.Inner.Samples.{b_and_a};
ghost use Rattle.s3_opening.specs.Inner.Samples.{line, keyed, longer, with_additions, under_switch, direct, labelled, alike, halt_with, halt_by, halt_under, used, records_under};

/// A file without a FILE statement, or with the label of an earlier file, is refused for that before all other reasons. A file
/// whose switch is off isn't tested, and its label doesn't count.
pub fn each_file_has_its_own_label()
    ensures no_statement { halt_by (alike (0xc9 ∷ [])) (line 0xc4 Input ∷ []) ≡ Some NoLabel }
    // another layout, and a permanent file
    ensures opened_twice { halt_by (labelled 0xc1 0xc4 ∷ labelled 0xc4 0xc4 ∷ []) (line 0xc1 Input ∷ longer (line 0xc4 Input) ∷ []) ≡ Some DuplicateLabel }
    ensures made_again { halt_by (labelled 0xc1 0xd7 ∷ labelled 0xd7 0xd7 ∷ []) (line 0xc1 Input ∷ line 0xd7 Output ∷ []) ≡ Some DuplicateLabel }
    ensures made_before { halt_by (labelled 0xc1 0xc5 ∷ labelled 0xc5 0xc5 ∷ []) (line 0xc1 Output ∷ line 0xc5 Input ∷ []) ≡ Some DuplicateLabel }
    ensures not_tested { halt_under 0 (under_switch (line 0xc8 Input) ∷ []) ≡ None }
    ensures tested { halt_under 1 (under_switch (line 0xc8 Input) ∷ []) ≡ Some NoLabel }
    ensures not_counted { halt_under 0 (under_switch (line 0xc4 Input) ∷ line 0xc4 Input ∷ []) ≡ None }
    ensures counted { halt_under 1 (under_switch (line 0xc4 Input) ∷ line 0xc4 Input ∷ []) ≡ Some DuplicateLabel }
{}

/// A file that is made is refused for a master's label, else for damage under it, else for a permanent file there, else for want of
/// a slot or of room.
pub fn a_made_file_is_refused_in_order()
    // the level has damage under the label of this master
    ensures master { halt_with 0 (line 0xd4 Output ∷ []) ≡ Some MasterForUpdate }
    ensures damaged { halt_with 0 (line 0xc2 Output ∷ []) ≡ Some DamagedLabel }
    ensures permanent { halt_with 0 (line 0xd7 Output ∷ []) ≡ Some RetainedFile }
    ensures no_slot { halt_with 0 (line 0xc5 Output ∷ []) ≡ Some NoSpace }
    // damage among the masters blocks no label of the level
    ensures not_blocked { halt_with 1 (line 0xd3 Output ∷ []) ≡ None }
    // the slot of the old file is the new one's
    ensures old_slot { halt_with 0 (line 0xc4 Output ∷ []) ≡ None }
    ensures one_slot { halt_with 1 (line 0xc5 Output ∷ line 0xc6 Output ∷ []) ≡ Some NoSpace }
    ensures two_slots { halt_with 2 (line 0xc5 Output ∷ line 0xc6 Output ∷ []) ≡ None }
    // a direct file is full of blank records, one in order has none
    ensures blank { records_under 0xc5 (direct (line 0xc5 Output) ∷ []) ≡ replicate 3 (replicate 10 0x40) }
    ensures empty { records_under 0xc4 (line 0xc4 Output ∷ []) ≡ [] }
    ensures kept { records_under 0xc9 (line 0xc4 Output ∷ []) ≡ b_and_a }
{}

/// A file that is opened is refused for damage under its label, else if there is no such label, else for another use of a master
/// than reading it, else for another layout, else for its index.
pub fn an_opened_file_is_refused_in_order()
    // the master of that label would be changed, and there is damage in the level's own area
    ensures damaged { halt_with 1 (line 0xd4 Update ∷ []) ≡ Some DamagedLabel }
    ensures damaged_master { halt_with 1 (line 0xd3 Input ∷ []) ≡ Some DamagedLabel }
    ensures absent { halt_with 1 (line 0xc5 Input ∷ []) ≡ Some NoLabel }
    // an indexed master whose index is bad
    ensures changed_master { halt_with 1 (longer (keyed 1 (line 0xd5 Update)) ∷ []) ≡ Some MasterForUpdate }
    ensures added_master { halt_with 1 (longer (with_additions (keyed 1 (line 0xd5 Input))) ∷ []) ≡ Some MasterForUpdate }
    ensures other_master { halt_with 1 (longer (keyed 1 (line 0xd5 Input)) ∷ []) ≡ Some LabelMismatch }
    ensures master_index { halt_with 1 (keyed 1 (line 0xd5 Input) ∷ []) ≡ Some BadIndex }
    ensures length { halt_with 1 (longer (keyed 1 (line 0xe7 Update)) ∷ []) ≡ Some LabelMismatch }
    ensures organization { halt_with 1 (line 0xe7 Update ∷ []) ≡ Some LabelMismatch }
    ensures key_start { halt_with 1 (keyed 2 (line 0xe7 Update) ∷ []) ≡ Some LabelMismatch }
    ensures index { halt_with 1 (keyed 1 (line 0xe7 Update) ∷ []) ≡ Some BadIndex }
    ensures good { halt_with 1 (keyed 1 (line 0xc9 Update) ∷ []) ≡ None }
    // additions to a file in order open it, as the level's own
    ensures added { used (with_additions (line 0xc4 Output) ∷ []) ≡ (named 0xc4, (false, false)) ∷ [] }
{}

/// The job halts for the first file that is refused, in the order of the F lines, whether it is made or opened; if none is
/// refused, the files are in use in that order.
pub fn files_are_tested_one_after_another()
    ensures index_first { halt_with 0 (keyed 1 (line 0xe7 Input) ∷ line 0xc5 Output ∷ []) ≡ Some BadIndex }
    ensures make_first { halt_with 0 (line 0xc5 Output ∷ keyed 1 (line 0xe7 Input) ∷ []) ≡ Some NoSpace }
    ensures in_use { used (line 0xc5 Output ∷ keyed 1 (line 0xc9 Input) ∷ []) ≡ (named 0xc5, (false, true)) ∷ (named 0xc9, (false, false)) ∷ [] }
{}
