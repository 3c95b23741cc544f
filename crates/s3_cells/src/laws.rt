//! What showing and taking make of each other.
ghost use Rattle.std.specs.Prelude.{◌≡◌, ℕ, List, Some, true, length};
ghost use Rattle.s3_cells.specs.Inner.Values.{IsAsWritten, IsTidy, Value, bytes_of, cell_text, is_held, is_kind_of, is_shown_in, value_in, value_read};
ghost use Rattle.s3_cells.specs.declared.kind.FieldKind.{FieldKind as Kind};

/// The bytes of a value that a field can hold show that value, if a text has no blanks at its end.
pub fn what_is_taken_is_shown()
    ensures shown { (kind : Kind) (width : ℕ) (value : Value) → is_kind_of kind width ≡ true → is_held kind width value ≡ true → is_shown_in kind (bytes_of kind width value) ≡ true }
    ensures value { (kind : Kind) (width : ℕ) (value : Value) → is_kind_of kind width ≡ true → is_held kind width value ≡ true → IsTidy value → value_in kind (bytes_of kind width value) ≡ value }
{}

/// Bytes whose value can be shown are the bytes of that value, if a number is in the form in which the machine writes it, and a date that
/// is a number isn't blank.
pub fn what_is_shown_is_taken()
    ensures held { (kind : Kind) (bytes : List ℕ) → is_kind_of kind (length bytes) ≡ true → is_shown_in kind bytes ≡ true → is_held kind (length bytes) (value_in kind bytes) ≡ true }
    ensures bytes { (kind : Kind) (bytes : List ℕ) → is_kind_of kind (length bytes) ≡ true → is_shown_in kind bytes ≡ true → IsAsWritten kind bytes → bytes_of kind (length bytes) (value_in kind bytes) ≡ bytes }
{}

/// The cell of a value that a field can hold says that value; and each value that a cell says has no blanks at its end.
pub fn a_cell_reads_back()
    ensures back { (kind : Kind) (width : ℕ) (value : Value) → is_kind_of kind width ≡ true → is_held kind width value ≡ true → IsTidy value → value_read kind (cell_text kind value) ≡ Some value }
    ensures tidy { (kind : Kind) (cell : List ℕ) (value : Value) → value_read kind cell ≡ Some value → IsTidy value }
{}
