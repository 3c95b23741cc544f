//! What the definitions say of themselves: worked examples.

ghost use Rattle.std.specs.Prelude.{◌≡◌, ◌+◌, ◌++◌, ℕ, [], ◌∷◌, true, false, replicate, Some, None, Ok, Err};
ghost use Rattle.s3_slots.specs.Inner.Kept.{IsOfPack};
ghost use Rattle.s3_slots.specs.Labels.{is_indexed};
ghost use Rattle.s3_slots.specs.Slots.{sectors_needed};
ghost use Rattle.s3_slots.specs.declared.label.FileLabel.{FileLabel};
ghost use Rattle.s3_slots.specs.declared.label.Organization.TheVariants.{Indexed};
ghost use Rattle.s3_keyed.specs.KeyOrder.{key_order, insert_entries, is_good_index};
ghost use Rattle.s3_keyed.specs.Inner.Index.{HasIndex, keys_at};
ghost use Rattle.s3_keyed.specs.Index.{entry_place, index_in};
ghost use Rattle.s3_keyed.specs.Calls.{nth_by_key, place_of_key, with_added, with_loaded, with_updated};
ghost use Rattle.s3_keyed.specs.Inner.Samples.{first_byte, ten_records, letter, b_and_a, two_letters, four_letters, entry};
ghost use Rattle.s3_keyed.specs.declared.fault.KeyedFault.TheVariants.{Duplicate, Full, KeyChanged, NoKey, NotAscending};

/// The index of records with the keys B and A is c100000002c200000001, at the start of the sector after the records. An index in
/// another order, with a key twice, or of zeros isn't good.
pub fn the_index_is_in_key_order()
    ensures entries { index_in ten_records 2 (two_letters (0xc1 ∷ 0 ∷ 0 ∷ 0 ∷ 2 ∷ 0xc2 ∷ 0 ∷ 0 ∷ 0 ∷ 1 ∷ [])) ≡ key_order (0xc2 ∷ 0xc1 ∷ []) }
    ensures good { is_good_index (index_in ten_records 2 (two_letters (0xc1 ∷ 0 ∷ 0 ∷ 0 ∷ 2 ∷ 0xc2 ∷ 0 ∷ 0 ∷ 0 ∷ 1 ∷ []))) (0xc2 ∷ 0xc1 ∷ []) ≡ true }
    ensures keys { keys_at ten_records 2 (two_letters []) ≡ 0xc2 ∷ 0xc1 ∷ [] }
    ensures file_order { is_good_index (index_in ten_records 2 (two_letters (0xc2 ∷ 0 ∷ 0 ∷ 0 ∷ 1 ∷ 0xc1 ∷ 0 ∷ 0 ∷ 0 ∷ 2 ∷ []))) (0xc2 ∷ 0xc1 ∷ []) ≡ false }
    ensures twice { is_good_index (index_in ten_records 2 (two_letters (0xc1 ∷ 0 ∷ 0 ∷ 0 ∷ 2 ∷ 0xc1 ∷ 0 ∷ 0 ∷ 0 ∷ 1 ∷ []))) (0xc1 ∷ 0xc1 ∷ []) ≡ false }
    ensures zeros { is_good_index (index_in ten_records 2 (two_letters (replicate 10 0))) (0xc2 ∷ 0xc1 ∷ []) ≡ false }
{}

/// When records with the keys D and C are added after those with B and A, the index becomes
/// c100000002c200000001c300000004c400000003.
pub fn added_entries_take_their_places()
    ensures merged { insert_entries (index_in ten_records 2 (two_letters (0xc1 ∷ 0 ∷ 0 ∷ 0 ∷ 2 ∷ 0xc2 ∷ 0 ∷ 0 ∷ 0 ∷ 1 ∷ []))) (entry 0xc3 4 ∷ entry 0xc4 3 ∷ [])
        ≡ index_in ten_records 4 (four_letters (0xc1 ∷ 0 ∷ 0 ∷ 0 ∷ 2 ∷ 0xc2 ∷ 0 ∷ 0 ∷ 0 ∷ 1 ∷ 0xc3 ∷ 0 ∷ 0 ∷ 0 ∷ 4 ∷ 0xc4 ∷ 0 ∷ 0 ∷ 0 ∷ 3 ∷ [])) }
    ensures order { key_order (0xc2 ∷ 0xc1 ∷ 0xc4 ∷ 0xc3 ∷ []) ≡ entry 0xc1 2 ∷ entry 0xc2 1 ∷ entry 0xc3 4 ∷ entry 0xc4 3 ∷ [] }
    ensures third { nth_by_key (0xc2 ∷ 0xc1 ∷ 0xc4 ∷ 0xc3 ∷ []) 2 ≡ Some 3 }
    ensures no_third { nth_by_key (0xc2 ∷ 0xc1 ∷ []) 2 ≡ None }
    ensures found { place_of_key 0xc4 (0xc2 ∷ 0xc1 ∷ 0xc4 ∷ 0xc3 ∷ []) ≡ Some 2 }
{}

/// With 20-byte records and a 6-byte key, 200 records and their index take the 24 sectors of a track, and 201 records take more.
/// Each sector after the 16 sectors of the records has 25 entries.
pub fn entries_lie_behind_records()
    ensures fits { sectors_needed Indexed 20 6 200 ≡ 24 }
    ensures one_more { sectors_needed Indexed 20 6 201 ≡ 25 }
    ensures first { entry_place (record { record_length = 20; capacity = 200; key = record { length = 6; start = 1 } }) 0 ≡ 4096 }
    ensures next_sector { entry_place (record { record_length = 20; capacity = 200; key = record { length = 6; start = 1 } }) 25 ≡ 4352 }
    ensures last { entry_place (record { record_length = 20; capacity = 200; key = record { length = 6; start = 1 } }) 199 ≡ 6128 }
{}

/// In a full file that has the key already, an added record is refused with `Duplicate`. A loaded record whose key isn't above
/// all others is refused with `NotAscending`.
pub fn a_full_file_tells_a_duplicate_first()
    ensures duplicate { with_added first_byte 2 (letter 0xc1) b_and_a ≡ Err Duplicate }
    ensures full { with_added first_byte 2 (letter 0xc3) b_and_a ≡ Err Full }
    ensures added { with_added first_byte 3 (letter 0xc3) b_and_a ≡ Ok (b_and_a ++ letter 0xc3 ∷ []) }
    ensures not_ascending { with_loaded first_byte 2 (letter 0xc2) b_and_a ≡ Err NotAscending }
    ensures full_load { with_loaded first_byte 2 (letter 0xc3) b_and_a ≡ Err Full }
    ensures changed { with_updated first_byte 0 (letter 0xc1) b_and_a ≡ Err KeyChanged }
    ensures no_record { with_updated first_byte 2 (letter 0xc1) b_and_a ≡ Err NoKey }
{}

/// A label of an indexed file that a pack has has room for its index, and its key lies in its records.
pub fn a_label_of_a_pack_has_its_index()
    ensures { (sectors : ℕ) (label : FileLabel) → IsOfPack sectors label → is_indexed label.organization ≡ true → HasIndex label }
{}
