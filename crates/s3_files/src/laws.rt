//! What the definitions say of themselves: worked examples.

ghost use Rattle.std.specs.Prelude.{◌≡◌, ◌-◌, ◌*◌, ◌/◌, ◌++◌, ℕ, List, [], ◌∷◌, true, length, slice_get, replicate, Some, None, Ok, Err};
ghost use Rattle.s3_store.specs.Bytes.{bytes_at};
ghost use Rattle.s3_store.specs.Stretches.{sectors_in};
ghost use Rattle.s3_slots.specs.Inner.Kept.{IsOfPack};
ghost use Rattle.s3_slots.specs.Labels.{is_direct, sectors_of};
ghost use Rattle.s3_slots.specs.declared.label.FileLabel.{FileLabel};
ghost use Rattle.s3_files.specs.Inner.Files.{HasRoom, AreStored};
ghost use Rattle.s3_files.specs.Records.{records_in, with_record, with_last};
ghost use Rattle.s3_files.specs.Inner.Records.{record_at};
ghost use Rattle.s3_files.specs.Inner.Samples.{two_pieces, two_sectors, split_contents, a, b, c};
ghost use Rattle.s3_files.specs.declared.fault.FileFault.TheVariants.{NoRecord, Full};

/// In a file with records of 96 bytes over 72 sectors from sector 456 on and 48 from sector 576 on, record 192 is the last one in
/// the first extent, and record 193 is the first one in the second extent.
pub fn records_run_on_from_piece_to_piece()
    ensures last_of_first { slice_get (sectors_in two_pieces) ((192 * 96 - 1) / 256) ≡ Some 527 }
    ensures first_of_second { slice_get (sectors_in two_pieces) (192 * 96 / 256) ≡ Some 576 }
    ensures last_of_second { slice_get (sectors_in two_pieces) 119 ≡ Some 623 }
    ensures no_more { slice_get (sectors_in two_pieces) 120 ≡ None }
{}

/// A record may lie across two extents. In a file with records of 100 bytes over the sectors 2 and 4, the third record has 56
/// bytes in sector 2 and 44 in sector 4.
pub fn a_record_lies_across_two_pieces()
    ensures { slice_get (records_in 100 5 (bytes_at (sectors_in two_sectors) split_contents)) 2 ≡ Some (replicate 56 1 ++ replicate 44 2) }
{}

/// A record past the last isn't there, and one more goes in only below the capacity.
pub fn a_list_of_records_refuses()
    ensures read { record_at 1 (a ∷ b ∷ []) ≡ Ok b }
    ensures not_there { record_at 2 (a ∷ b ∷ []) ≡ Err NoRecord }
    ensures written { with_record 0 c (a ∷ b ∷ []) ≡ Ok (c ∷ b ∷ []) }
    ensures not_written { with_record 2 c (a ∷ b ∷ []) ≡ Err NoRecord }
    ensures one_more { with_last 3 c (a ∷ b ∷ []) ≡ Ok (a ∷ b ∷ c ∷ []) }
    ensures full { with_last 2 c (a ∷ b ∷ []) ≡ Err Full }
{}

/// A label that a pack has is of a file with room for its records, over sectors that are there; a direct file is full.
pub fn a_label_of_a_pack_has_its_file()
    ensures room { (sectors : ℕ) (label : FileLabel) → IsOfPack sectors label → HasRoom label }
    ensures stored { (contents : List (List ℕ)) (label : FileLabel) → IsOfPack (length contents) label → AreStored (sectors_of label) contents }
    ensures full { (sectors : ℕ) (label : FileLabel) → IsOfPack sectors label → is_direct label.organization ≡ true → label.count ≡ label.capacity }
{}
