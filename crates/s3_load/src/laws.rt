//! What loading and unloading make of each other's records.
ghost use Rattle.std.specs.Prelude.{◌≡◌, ◌<◌, ℕ, List, [], Some, true, length, get_or};
ghost use Rattle.std.specs.List.{All};
ghost use Rattle.s3_cells.specs.Inner.Fields.{LiesIn, field_bytes};
ghost use Rattle.s3_cells.specs.Inner.Values.{value_in, value_read};
ghost use Rattle.s3_cells.specs.declared.field.Field.{Field as OfRecord};
ghost use Rattle.s3_unload.specs.Inner.Tables.{are_shown, row_of};
ghost use Rattle.s3_record_types.specs.declared.chosen.ChosenRecords.{ChosenRecords as Chosen};
ghost use Rattle.s3_load.specs.Inner.Columns.{is_inside};
ghost use Rattle.s3_load.specs.Inner.Records.{AreAsWritten, IsRecordOf};

/// The record of a row shows the values that the row's cells say.
pub fn a_loaded_row_is_unloaded()
    ensures shown { (record_length : ℕ) (columns filled : List OfRecord) (chosen : Chosen) (cells : List (List ℕ)) (bytes : List ℕ) → All (LiesIn record_length) columns → IsRecordOf record_length columns filled chosen cells bytes → are_shown columns bytes ≡ true }
    ensures values { (record_length : ℕ) (columns filled : List OfRecord) (chosen : Chosen) (cells : List (List ℕ)) (bytes : List ℕ) → All (LiesIn record_length) columns → IsRecordOf record_length columns filled chosen cells bytes → (k : ℕ) (d : OfRecord) → k < length columns → value_read (get_or columns k d).kind (get_or cells k []) ≡ Some (value_in (get_or columns k d).kind (field_bytes (get_or columns k d) bytes)) }
{}

/// The row of a record gives that very record again, if the columns have each of its bytes, each value can be shown and each
/// number is in the form in which it is written.
pub fn an_unloaded_record_is_loaded()
    ensures { (record_length : ℕ) (columns filled : List OfRecord) (chosen : Chosen) (old new : List ℕ) → All (LiesIn record_length) columns → length old ≡ record_length → ((place : ℕ) → place < record_length → is_inside columns place ≡ true) → are_shown columns old ≡ true → AreAsWritten columns old → IsRecordOf record_length columns filled chosen (row_of columns old) new → new ≡ old }
{}
