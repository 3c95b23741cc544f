//! Where a card or a job is, as members of an object.
ghost use Rattle.std.specs.Prelude.{◌≡◌, option_map};
ghost use Rattle.s3_decks.specs.Inner.Decks.{line_seen};
ghost use Rattle.s3_deck_json.specs.Inner.Objects.{file_json, line_json};
ghost use Rattle.s3_json_lines.specs.Inner.Values.{cell_json};

use s3_decks::FilePlace;
use s3_json_lines::Cell;

/// A job of a deck.
#[derive(Clone, Copy)]
pub struct JobPlace {
    /// The number of the job in the deck, from 1.
    pub number: usize,
    /// The number of its first card in the deck, from 1.
    pub card: usize,
}

/// A job of a deck from its first to its last card.
#[derive(Clone, Copy)]
pub struct JobSpan {
    /// Where it begins.
    pub start: JobPlace,
    /// The number of its last card in the deck, from 1.
    pub last: usize,
}

/// The file of a card, if the deck has the card.
pub fn file_cell<'a>(place: &Option<FilePlace<'a>>) -> Cell<'a>
    ensures { cell_json result ≡ file_json (option_map line_seen place.now) }
{
    match place {
        Some(place) => Cell::Text(place.file),
        None => Cell::Nothing,
    }
}

/// The line of a card in its file, if the deck has the card.
pub fn line_cell<'a>(place: &Option<FilePlace<'_>>) -> Cell<'a>
    ensures { cell_json result ≡ line_json (option_map line_seen place.now) }
{
    match place {
        Some(place) => Cell::Number(place.line as u64),
        None => Cell::Nothing,
    }
}
