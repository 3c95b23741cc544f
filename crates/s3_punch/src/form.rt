//! How a line of a text has its card.
ghost use Rattle.std.specs.Prelude.{◌≡◌};
ghost use Rattle.std.specs.List.{list_all};
ghost use Rattle.s3_punch.specs.Inner.Cards.{is_empty, form_of as form_of_spec};

use crate::characters::TAB;

/// What begins a line that is left out.
const COMMENT: char = '#';

/// What begins a card in pieces.
const PIECES: char = '%';

/// How a line of a text has its card.
#[derive(Clone, Copy)]
pub enum LineForm {
    /// In pieces, after a `%`.
    InPieces,
    /// As it is.
    Plain,
}

/// Whether all characters are blanks and tabs.
fn are_empty(characters: &[char]) -> bool
    ensures { result ≡ list_all is_empty characters.now }
{
    characters
        .iter()
        .all(|character| *character == ' ' || *character == TAB)
}

/// How a line has its card; `None` for a blank line and for a comment outside of data, which have none.
pub fn form_of(is_data: bool, characters: &[char]) -> Option<LineForm>
    ensures { result ≡ form_of_spec is_data characters.now }
{
    if is_data {
        return Some(LineForm::Plain);
    }
    if are_empty(characters) {
        return None;
    }
    match characters.first() {
        Some(first) if *first == COMMENT => None,
        Some(first) if *first == PIECES => Some(LineForm::InPieces),
        _ => Some(LineForm::Plain),
    }
}
