//! Texts as members of objects.
ghost use Rattle.std.specs.Prelude.{◌≡◌, IfOk, option_map};
ghost use Rattle.std.specs.String.{string_bytes};
ghost use Rattle.s3_json_lines.specs.Inner.Values.{cell_json};
ghost use Rattle.s3_pack_json.specs.Inner.Objects.{name_text, text_json};

use s3_cards::{Name, word_len};
use s3_json_lines::{Cell, text_of_codes};
use std::alloc::{AllocError, Global};

/// Two texts of an object, which own what its members show.
#[derive(Drop)]
pub struct Texts {
    /// The characters of the label, if it is a name.
    pub label: Option<String>,
    /// The date of a file, or the reason of an error.
    pub words: Option<String>,
}

/// The characters of a name.
fn characters_of(alloc: Global, name: Name) -> Result<String, AllocError>
    ensures { IfOk result (λ text. string_bytes text ≡ name_text name) }
{
    text_of_codes(alloc, &name.codes[..word_len(&name.codes)])
}

/// The characters of a label, if it is a name.
pub fn label_text(alloc: Global, name: Option<Name>) -> Result<Option<String>, AllocError>
    ensures { IfOk result (λ text. option_map string_bytes text ≡ option_map name_text name) }
{
    match name {
        Some(name) => Ok(Some(characters_of(alloc, name)?)),
        None => Ok(None),
    }
}

/// A text, or null without one.
pub fn text_cell(text: &Option<String>) -> Cell<'_>
    ensures { cell_json result ≡ text_json (option_map string_bytes text.now) }
{
    match text {
        Some(text) => Cell::Text(text.as_str()),
        None => Cell::Nothing,
    }
}
