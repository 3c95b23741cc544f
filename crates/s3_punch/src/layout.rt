//! The card of a plain line.
ghost use Rattle.std.specs.Prelude.{◌≡◌, IfOk, OnOk};
ghost use Rattle.s3_punch.specs.Inner.Cards.{laid_out, with_character};

use crate::characters::{TAB, shown};
use crate::stops::tab;
use std::alloc::{AllocError, Global};

/// Puts one more character onto a card; a tab fills it up to the next stop.
pub fn put(card: &mut Vec<u8>, is_source: bool, character: char) -> Result<(), AllocError>
    ensures { OnOk result (card.new.items ≡ with_character is_source card.old.items character) }
{
    if character == TAB {
        return tab(card, is_source);
    }
    card.push(shown(character))?;
    Ok(())
}

/// The card of a line's characters.
pub fn lay_out(alloc: Global, is_source: bool, characters: &[char]) -> Result<Vec<u8>, AllocError>
    ensures { IfOk result (λ card. card.items ≡ laid_out is_source characters.now) }
{
    let mut card = Vec::new(alloc);
    for character in characters {
        put(&mut card, is_source, *character)?;
    }
    Ok(card)
}
