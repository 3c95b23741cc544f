//! What the definitions of pages say of themselves.
ghost use Rattle.std.specs.Prelude.{◌≡◌, IsTrue, List, ℕ};
ghost use Rattle.std.specs.List.{flat_map};
ghost use Rattle.s3_book.specs.Inner.Parts.{escaped, marked};
ghost use Rattle.s3_book.specs.Inner.Reading.{has_none, in_text, read};

/// No value begins or ends a tag, and none ends an attribute.
pub fn values_have_no_tags()
    ensures begins { (value : List ℕ) → IsTrue (has_none 60 (flat_map escaped value)) }
    ensures ends { (value : List ℕ) → IsTrue (has_none 62 (flat_map escaped value)) }
    ensures quotes { (value : List ℕ) → IsTrue (has_none 34 (flat_map escaped value)) }
{}

/// From a report as it is marked up, its text can be read back.
pub fn reports_read_back()
    ensures { (text : List ℕ) → read in_text (flat_map marked text) ≡ text }
{}
