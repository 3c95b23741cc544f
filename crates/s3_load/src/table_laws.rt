//! What loading and unloading make of each other's tables.
ghost use Rattle.std.specs.Prelude.{◌≡◌, ◌≢◌, ℕ, List, [], Some, false};
ghost use Rattle.s3_cells.specs.declared.field.Field.{Field as OfRecord};
ghost use Rattle.s3_unload.specs.Inner.Tables.{comma, table_text};
ghost use Rattle.s3_load.specs.declared.order.Order.{Order};
ghost use Rattle.s3_load.specs.Inner.Loaded.{IsLoaded};
ghost use Rattle.s3_load.specs.Inner.RoundTrip.{AreToldApart, HasRecordsAgain, ReadsAsTable, SayAll, UnloadsTable};

/// A new file that a table was loaded into is unloaded as that table's rows: a record for each, which shows in each column the value
/// that the row's cell says, in the order of the keys, or, if the file has none, of the rows.
pub fn what_is_loaded_is_unloaded()
    ensures { (order : Order) (text : List ℕ) (old new : List (List ℕ)) → order.appends ≡ false → IsLoaded order (Some text) old new → UnloadsTable order text new }
{}

/// A text that reads as the table of a file's records, loaded into a new file, gives that file those very records, if the fields
/// have each byte of a record, each value can be shown, each number is in its written form, and no two fields have one name. The
/// text that `unload` writes with commas reads so.
pub fn what_is_unloaded_is_loaded()
    ensures read { (order : Order) (records : List (List ℕ)) (text : List ℕ) (old new : List (List ℕ)) → order.appends ≡ false → AreToldApart order.layout.now.fields.items → SayAll order.layout.now.record_length order.layout.now.fields.items records
        → ReadsAsTable text order.delimiter order.layout.now.fields.items records → IsLoaded order (Some text) old new → HasRecordsAgain order records new }
    ensures written { (fields : List OfRecord) (records : List (List ℕ)) → fields ≢ [] → ReadsAsTable (table_text comma fields records) comma fields records }
{}
