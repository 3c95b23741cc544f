//! What loading and unloading make of each other's records of a fixed length.
ghost use Rattle.std.specs.Prelude.{◌≡◌, ◌≤◌, ℕ, List, Some, false};
ghost use Rattle.s3_unload.specs.Inner.Fixed.{fixed_text};
ghost use Rattle.s3_unload.specs.declared.fixed.FixedForm.{FixedForm as Form};
ghost use Rattle.s3_load.specs.declared.order.Order.{Order};
ghost use Rattle.s3_load.specs.Inner.FixedTexts.{AreOfBytes, AreWritable, IsLoadedFixed, ReadsAs};
ghost use Rattle.s3_load.specs.Inner.RoundTrip.{HasRecordsAgain};

/// What `unload` writes of records reads as these records, in each form. Loaded into a new file, it gives that file those records.
pub fn what_is_unloaded_fixed_is_loaded()
    ensures read { (form : Form) (record_length : ℕ) (records : List (List ℕ)) → 1 ≤ record_length → AreWritable form record_length records → ReadsAs form record_length (fixed_text form records) records }
    ensures loaded { (order : Order) (form : Form) (records old new : List (List ℕ)) → order.appends ≡ false → AreWritable form order.layout.now.record_length records → AreOfBytes records
        → IsLoadedFixed order form (Some (fixed_text form records)) old new → HasRecordsAgain order records new }
{}
