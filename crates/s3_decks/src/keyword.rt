//! The place of a statement's keyword.

use crate::Columns;
use s3_cards::Card;
use s3_cards::ebcdic::BLANK;

/// How many columns the `//` of a statement takes.
const SLASHES: usize = 2;

/// The columns of a statement's keyword: the first word after its `//`, and any blanks between them (docs/OCL.md, "Cards"). A statement
/// without a word gives its last column.
pub fn keyword_columns(card: &Card) -> Columns {
    let blanks = card
        .iter()
        .skip(SLASHES)
        .take_while(|code| **code == BLANK)
        .count();
    let before = blanks.saturating_add(SLASHES);
    let word = card
        .iter()
        .skip(before)
        .take_while(|code| **code != BLANK)
        .count();
    let to = before.saturating_add(word.max(1)).min(card.len());
    Columns {
        from: before.saturating_add(1).min(to),
        to,
    }
}
