//! The program of a source, by its cards.

use s3_cards::ebcdic::{ASTERISK, LETTER_H};
use s3_cards::{Card, Name, are_blank};
use s3_lines::reserved::RPGOBJ;

/// The name of the program of a source: the name on the first H card that has one, else RPGOBJ.
pub fn program_of(cards: &[Card]) -> Name {
    cards.iter().find_map(header_name).unwrap_or(RPGOBJ)
}

/// The name that a card of the H sheet gives its program.
fn header_name(card: &Card) -> Option<Name> {
    if card.get(5) != Some(&LETTER_H) || card.get(6) == Some(&ASTERISK) {
        return None;
    }
    let codes = card.get(74..80)?;
    if are_blank(codes) {
        return None;
    }
    Some(Name::of(codes))
}
