//! Worked examples of headers, labels and slots.
ghost use Rattle.std.specs.Prelude.{ℕ, List, true, ◌≡◌, ◌*◌, ◌/◌, ◌++◌, [], ◌∷◌, length, take, drop, replicate, slice_get, slice_set, Some, Ok, Err};
ghost use Rattle.s3_slots.specs.Header.{mounted};
ghost use Rattle.s3_slots.specs.Inner.Labels.{label_bytes, IsWritable};
ghost use Rattle.s3_slots.specs.Labels.{label_in, sectors_of};
ghost use Rattle.s3_slots.specs.Slots.{slots_of, standing, is_count_of};
ghost use Rattle.s3_slots.specs.Inner.Kept.{AreKept};
ghost use Rattle.s3_slots.specs.Inner.Stretches.{IsWhole};
ghost use Rattle.s3_cards.specs.declared.name.Name.{Name};
ghost use Rattle.s3_store.specs.declared.stretch.Stretch.{Stretch};
ghost use Rattle.s3_slots.specs.declared.header.Format.{Format};
ghost use Rattle.s3_slots.specs.declared.label.FileLabel.{FileLabel};
ghost use Rattle.s3_slots.specs.declared.making.NewFile.{NewFile};
ghost use Rattle.s3_slots.specs.declared.slot.Slot.{Slot};
ghost use Rattle.s3_slots.specs.Making.{capacity_of, tracks_of, new_label, made, counted, dropped};
ghost use Rattle.s3_slots.specs.Inner.Making.{planned, IsNewFile};
ghost use Rattle.s3_slots.specs.declared.header.Format.TheVariants.{First, Second};
ghost use Rattle.s3_slots.specs.declared.header.MountFault.TheVariants.{BadHeader, BadRegions, Short};
ghost use Rattle.s3_slots.specs.declared.making.LabelFault.TheVariants.{NoSlot, NoSpace};
ghost use Rattle.s3_slots.specs.declared.slot.Slot.TheVariants.{Sound};
ghost use Rattle.s3_slots.specs.declared.slot.Standing.TheVariants.{Blocked, Present};
ghost use Rattle.s3_slots.specs.Inner.Samples.{ten_bytes, ten, pack_of, with_quotas, named, new_data, new_index, file, of_records, all_free, without_b, d_label, all_ff, no_label, two_files, extents_under, standing_after};

/// A header of three regions of ten tracks is read. With too few sectors, another first byte or regions that meet it is
/// refused, and it is one of the first format by its eighth byte.
pub fn a_header_is_accepted_by_its_tests()
    ensures read { mounted (pack_of 887 ten_bytes) ≡ Ok ten }
    ensures short { mounted (pack_of 699 ten_bytes) ≡ Err Short }
    ensures very_short { mounted (pack_of 166 []) ≡ Err Short }
    ensures changed { mounted (pack_of 887 (0x54 ∷ drop 1 ten_bytes)) ≡ Err BadHeader }
    ensures meeting { mounted (pack_of 887 (take 18 ten_bytes ++ 0x01 ∷ 0x98 ∷ drop 20 ten_bytes)) ≡ Err BadRegions }
    ensures first { mounted (pack_of 887 (take 7 ten_bytes ++ 0x31 ∷ drop 8 ten_bytes)) ≡ Ok (record ten { format = First }) }
{}

/// Quotas are at least 1 for each level, and at most 128 together.
pub fn quotas_are_1_to_127()
    ensures most { mounted (with_quotas 127 1) ≡ Ok (record ten { quota_one = 127; quota_two = 1 }) }
    ensures none_for_two { mounted (with_quotas 128 0) ≡ Err BadHeader }
    ensures too_many { mounted (with_quotas 64 65) ≡ Err BadHeader }
    ensures none_for_one { mounted (with_quotas 0 64) ≡ Err BadHeader }
{}

/// The 64 bytes of the slot of a file DATA in one extent, and of one in two.
pub fn a_label_is_64_bytes()
    ensures one { label_bytes (record (new_label new_data (record { start = 0x198; sectors = 0x18 } ∷ [])) { count = 3 }) ≡ 0x01 ∷ 0xc4 ∷ 0xc1 ∷ 0xe3 ∷ 0xc1 ∷ 0x40 ∷ 0x40 ∷ 0x40 ∷ 0x40 ∷ 0xe2 ∷ 0xe3 ∷ 0x00 ∷ 0x0a ∷ 0x00 ∷ 0x00 ∷ 0x00 ∷ 0x01 ∷ 0x98 ∷ 0x00 ∷ 0x18 ∷ 0x00 ∷ 0x00 ∷ 0x00 ∷ 0x0a ∷ 0x00 ∷ 0x00 ∷ 0x00 ∷ 0x03 ∷ 0xf0 ∷ 0xf6 ∷ 0xf1 ∷ 0xf5 ∷ 0xf7 ∷ 0xf6 ∷ replicate 30 0 }
    ensures first_extent { take 4 (drop 16 (label_bytes d_label)) ≡ 0x01 ∷ 0xc8 ∷ 0x00 ∷ 0x48 ∷ [] }
    ensures second_extent { take 4 (drop 34 (label_bytes d_label)) ≡ 0x02 ∷ 0x40 ∷ 0x00 ∷ 0x30 ∷ [] }
    ensures record_193 { slice_get (sectors_of d_label) (192 * 96 / 256) ≡ Some 0x240 }
{}

/// 640 records of 96 bytes fill ten tracks, 641 don't fit; a track has room for 200 records of 20 bytes with keys of 6; of
/// files of 6 and 5 tracks the second has no room in ten.
pub fn files_take_whole_tracks()
    ensures fills { tracks_of (of_records 640) ≡ 10 }
    ensures too_big { made Second ten.level_one all_free (of_records 641) all_free ≡ Err NoSpace }
    ensures indexed { capacity_of new_index ≡ 200 }
    ensures planned { planned 0 Second ten.level_one all_free (file 0xc1 6 ∷ file 0xc2 5 ∷ []) all_free ≡ Err (1, NoSpace) }
{}

/// Between files of 2 tracks, 3 free ones and 2, and 3 more after: 5 tracks are made in two pieces, 7 aren't.
pub fn room_in_pieces_is_taken_in_the_second_format()
    ensures first { made First ten.level_one all_free (file 0xc4 5) (without_b First) ≡ Err NoSpace }
    ensures second { made Second ten.level_one all_free (file 0xc4 5) (without_b Second) ≡ Ok (slice_set (without_b Second) 1 (Sound d_label)) }
    ensures too_many { made Second ten.level_one all_free (file 0xc4 7) (without_b Second) ≡ Err NoSpace }
{}

/// Slots of ff are damaged, and none is free. A file that overlaps an earlier one is damaged, and stays so when that one is
/// made again; alone it is sound, but not with more records than it has room for.
pub fn damage_blocks_its_label_and_its_slot()
    ensures no_slot { slots_of Second ten.level_two 2 all_ff ≡ no_label }
    ensures not_made { made Second ten.level_two all_free (file 0xc1 1) no_label ≡ Err NoSlot }
    ensures entangled { standing (named 0xc2) (slots_of Second ten.level_one 1 (two_files 48 24 0)) ≡ Blocked }
    ensures still { standing_after (named 0xc2) (made Second ten.level_one all_free (file 0xc1 1) (slots_of Second ten.level_one 1 (two_files 48 24 0))) ≡ Blocked }
    ensures alone { extents_under (standing (named 0xc2) (slots_of Second ten.level_one 1 (two_files 24 24 10))) ≡ record { start = 432; sectors = 24 } ∷ [] }
    ensures too_many { standing (named 0xc2) (slots_of Second ten.level_one 1 (two_files 24 24 11)) ≡ Blocked }
    ensures elsewhere { standing (named 0xc2) (slots_of Second ten.level_two 1 (two_files 24 24 0)) ≡ Blocked }
{}

/// The files of an area don't overlap after a mount, and they still don't after a file is made, counted or dropped.
pub fn files_stay_apart()
    ensures judged { (format : Format) (region : Stretch) (area : ℕ) (contents : List (List ℕ)) → AreKept region (slots_of format region area contents) }
    ensures made { (format : Format) (region : Stretch) (masters : List Slot) (new : NewFile) (slots after : List Slot) → IsWhole region → IsNewFile new → AreKept region slots → made format region masters new slots ≡ Ok after → AreKept region after }
    ensures counted { (region : Stretch) (name : Name) (n : ℕ) (slots : List Slot) → ((label : FileLabel) → standing name slots ≡ Present label → is_count_of label.organization label.capacity n ≡ true) → AreKept region slots → AreKept region (counted name n slots) }
    ensures dropped { (region : Stretch) (name : Name) (slots : List Slot) → AreKept region slots → AreKept region (dropped name slots) }
{}

/// A label that is written reads back, in the second format and, over one extent, in the first.
pub fn a_label_reads_back()
    ensures second { (label : FileLabel) → IsWritable label → label_in Second (label_bytes label) ≡ Some label }
    ensures first { (label : FileLabel) → IsWritable label → length label.extents ≡ 1 → label_in First (label_bytes label) ≡ Some label }
{}
