//! What the definitions say of sources that were worked by hand.

ghost use Rattle.std.specs.Prelude.{◌≡◌, ◌∷◌, [], map, codes};
ghost use Rattle.s3_sheets.specs.Lines.{lines_of};
ghost use Rattle.s3_sheets.specs.Sheets.{fields};
ghost use Rattle.s3_sheets.specs.Inner.MarkSamples.{AreMarked, file_marks, field_marks, calculation_marks};
ghost use Rattle.s3_sheets.specs.Inner.Samples.{AreAsWanted, found_in, sources, pairs_of_sources, many_files, defining_cards, named, whole_source, whole_lines, order_rows, file_rows_1, file_rows_2, file_rows_3, record_rows_1, record_rows_2, field_rows_1, field_rows_2, calculation_rows_1, calculation_rows_2, calculation_rows_3, line_rows_1, line_rows_2, put_rows_1, put_rows_2, put_rows_3};

/// Cards that are wrong in one entry or several get the numbers of their faults, and right ones none.
pub fn cards_get_their_numbers()
    ensures order { AreAsWanted order_rows }
    ensures file_1 { AreAsWanted file_rows_1 }
    ensures file_2 { AreAsWanted file_rows_2 }
    ensures file_3 { AreAsWanted file_rows_3 }
    ensures record_1 { AreAsWanted record_rows_1 }
    ensures record_2 { AreAsWanted record_rows_2 }
    ensures field_1 { AreAsWanted field_rows_1 }
    ensures field_2 { AreAsWanted field_rows_2 }
    ensures calculation_1 { AreAsWanted calculation_rows_1 }
    ensures calculation_2 { AreAsWanted calculation_rows_2 }
    ensures calculation_3 { AreAsWanted calculation_rows_3 }
    ensures line_1 { AreAsWanted line_rows_1 }
    ensures line_2 { AreAsWanted line_rows_2 }
    ensures put_1 { AreAsWanted put_rows_1 }
    ensures put_2 { AreAsWanted put_rows_2 }
    ensures put_3 { AreAsWanted put_rows_3 }
{}

/// Cards with diagnostic 4 have the entries in error that they must have: if entries contradict each other, the wrong ones.
pub fn cards_get_their_marks()
    ensures file { AreMarked file_marks }
    ensures field { AreMarked field_marks }
    ensures calculation { AreMarked calculation_marks }
{}

/// What is wrong with a card decides what is known after it.
pub fn sources_get_their_pairs()
    ensures measured { map found_in sources ≡ pairs_of_sources }
    ensures files { found_in many_files ≡ (22, 13) ∷ [] }
    ensures defined { fields defining_cards 9 ≡ named (codes "TEXT") ∷ named (codes "UDATE") ∷ named (codes "SUM") ∷ named (codes "ODD") ∷ [] }
{}

/// The typed lines of a source with every entry, which gets no diagnostic.
pub fn every_entry_is_read()
    ensures accepted { found_in whole_source ≡ [] }
    ensures lines { lines_of 0 whole_source ≡ whole_lines }
{}
