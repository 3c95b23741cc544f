//! What the definitions say of themselves: worked examples.

ghost use Rattle.std.specs.Prelude.{◌≡◌, pos, negsuc, [], ◌∷◌, ◌++◌, Some, None, Ok, Err, replicate};
ghost use Rattle.s3_operator.specs.declared.halt_code.HaltCode.TheVariants.{DuplicateKey, FileFull, KeyChanged, KeyNotAscending, NothingToUpdate};
ghost use Rattle.s3_slots.specs.Inner.Samples.{named};
ghost use Rattle.s3_keyed.specs.Inner.Samples.{b_and_a, letter};
ghost use Rattle.s3_meaning.specs.Requests.{Read, Chain, Append, Add, Update, Card, Key, RecordNumber, Found, Nothing, Done, Refused};
ghost use Rattle.s3_meaning.specs.declared.current.Current.TheVariants.{NthRead, LastChained};
ghost use Rattle.s3_job_files.specs.Records.{place_read, place_sought, appended, added, updated, overlaid};
ghost use Rattle.s3_job_files.specs.Inner.Samples.{two_keys, b_a_and_c, fifth_byte, other_key, answer_behind, count_at_end};

/// An indexed file is read in key order. A job reads only the records that were there at its start. CHAIN finds the added records
/// by key and by number.
pub fn added_records_are_found_but_not_read()
    ensures first { place_read (two_keys 10) b_a_and_c 0 ≡ Some 1 }
    ensures second { place_read (two_keys 10) b_a_and_c 1 ≡ Some 0 }
    ensures no_third { place_read (two_keys 10) b_a_and_c 2 ≡ None }
    ensures by_key { place_sought (two_keys 10) b_a_and_c (Key (0xc3 ∷ [])) ≡ Some 2 }
    ensures by_number { place_sought (two_keys 10) b_a_and_c (RecordNumber (pos 3)) ≡ Some 2 }
    ensures no_number { place_sought (two_keys 10) b_a_and_c (RecordNumber (pos 0)) ≡ None }
    ensures below { place_sought (two_keys 10) b_a_and_c (RecordNumber (negsuc 0)) ≡ None }
    ensures above { place_sought (two_keys 10) b_a_and_c (RecordNumber (pos 4)) ≡ None }
    // requests for records: they come by key, then none more, and the added one is chained
    ensures read { answer_behind [] (Read (named 0xc9) 10) ≡ Some (Found (letter 0xc1)) }
    ensures ended { answer_behind (Add (named 0xc9) (letter 0xc3) ∷ Read (named 0xc9) 10 ∷ Read (named 0xc9) 10 ∷ []) (Read (named 0xc9) 10) ≡ Some Nothing }
    ensures chained { answer_behind (Add (named 0xc9) (letter 0xc3) ∷ []) (Chain (named 0xc9) 10 (Key (0xc3 ∷ []))) ≡ Some (Found (letter 0xc3)) }
    ensures of_master { answer_behind [] (Read (named 0xd4) 10) ≡ Some (Found (letter 0xc1)) }
    // nothing is specified for a file that the job doesn't have, or for a request that is for no file
    ensures no_file { answer_behind [] (Read (named 0xc1) 10) ≡ None }
    ensures no_request { answer_behind [] Card ≡ None }
{}

/// If a record can't be added for two reasons, its key comes before a full file: another record has it, or a load's key isn't
/// above all others.
pub fn a_duplicate_is_told_before_a_full_file()
    ensures duplicate { added (two_keys 2) (letter 0xc1) b_and_a ≡ Err DuplicateKey }
    ensures full { added (two_keys 2) (letter 0xc3) b_and_a ≡ Err FileFull }
    ensures not_ascending { appended (two_keys 2) (letter 0xc2) b_and_a ≡ Err KeyNotAscending }
    ensures full_load { appended (two_keys 2) (letter 0xc3) b_and_a ≡ Err FileFull }
    ensures loaded { appended (two_keys 3) (letter 0xc3) b_and_a ≡ Ok b_a_and_c }
    // a file of two records in order: the third is refused
    ensures third { answer_behind (Append (named 0xe3) (letter 0xc1) ∷ Append (named 0xe3) (letter 0xc1) ∷ []) (Append (named 0xe3) (letter 0xc1)) ≡ Some (Refused FileFull) }
    ensures second { answer_behind (Append (named 0xe3) (letter 0xc1) ∷ []) (Append (named 0xe3) (letter 0xc1)) ≡ Some Done }
{}

/// An update changes only the positions that are put. It is refused if it would change the key. If there is no current record,
/// that is the reason of the refusal, whatever the key is.
pub fn an_update_keeps_the_key()
    ensures changed { updated (two_keys 10) fifth_byte (Some 1) b_and_a ≡ Ok (letter 0xc2 ∷ (0xc1 ∷ replicate 3 0x40 ++ 1 ∷ replicate 5 0x40) ∷ []) }
    ensures key { updated (two_keys 10) other_key (Some 1) b_and_a ≡ Err KeyChanged }
    ensures none { updated (two_keys 10) other_key None b_and_a ≡ Err NothingToUpdate }
    ensures not_there { updated (two_keys 10) other_key (Some 2) b_and_a ≡ Err NothingToUpdate }
    ensures of_first { answer_behind (Read (named 0xc9) 10 ∷ Update (named 0xc9) (Some (NthRead 1)) fifth_byte ∷ []) (Chain (named 0xc9) 10 (Key (0xc1 ∷ []))) ≡ Some (Found (overlaid fifth_byte (letter 0xc1))) }
    ensures of_chained { answer_behind (Chain (named 0xc9) 10 (Key (0xc2 ∷ [])) ∷ Update (named 0xc9) (Some LastChained) fifth_byte ∷ []) (Chain (named 0xc9) 10 (RecordNumber (pos 1))) ≡ Some (Found (overlaid fifth_byte (letter 0xc2))) }
    // a CHAIN that found nothing leaves no current record
    ensures after_miss { answer_behind (Chain (named 0xc9) 10 (Key (0xc2 ∷ [])) ∷ Chain (named 0xc9) 10 (Key (0xc8 ∷ [])) ∷ []) (Update (named 0xc9) (Some LastChained) fifth_byte) ≡ Some (Refused NothingToUpdate) }
{}

/// At the end of a job each of its own files has the count of its records, and the scratch file that it made is gone.
pub fn the_end_of_a_job_sets_counts()
    ensures added { count_at_end 0xc9 (Add (named 0xc9) (letter 0xc3) ∷ []) ≡ Some 3 }
    ensures made { count_at_end 0xe3 (Append (named 0xe3) (letter 0xc1) ∷ []) ≡ Some 1 }
    ensures scratch { count_at_end 0xe2 (Append (named 0xe2) (letter 0xc1) ∷ []) ≡ None }
    ensures untouched { count_at_end 0xc9 [] ≡ Some 2 }
{}
