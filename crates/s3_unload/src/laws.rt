//! What a table is to who reads it.
ghost use Rattle.std.specs.Prelude.{ℕ, List, ◌∷◌, map};
ghost use Rattle.csv.specs.Reading.{AreRecords, default_config};
ghost use Rattle.csv.specs.declared.parser.State.TheVariants.{StartRecord};
ghost use Rattle.s3_cells.specs.declared.field.Field.{Field as OfRecord};
ghost use Rattle.s3_unload.specs.Inner.Tables.{comma, heading, row_of, table_text};

/// A table with commas between its cells reads as its heading and its rows, by the reader's own rules: no quote, comma or end of a
/// line in a cell is taken for another one's.
pub fn a_table_reads_as_its_rows()
    ensures { (field : OfRecord) (fields : List OfRecord) (records : List (List ℕ)) → AreRecords default_config StartRecord (table_text comma (field ∷ fields) records) (heading (field ∷ fields) ∷ map (row_of (field ∷ fields)) records) }
{}
