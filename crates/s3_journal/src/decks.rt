//! What is posted of a deck: the text of its cards.
ghost use Rattle.std.specs.Prelude.{◌≡◌, ◌∷◌, [], ◌++◌, IfOk, OnOk, reverse};
ghost use Rattle.std.specs.String.{string_bytes};
ghost use Rattle.s3_journal.specs.Inner.Digests.{digest_of};
ghost use Rattle.s3_journal.specs.Inner.Decks.{before_end, cards_of};

use crate::chain::checksum_of;
use std::alloc::{AllocError, Global};

/// The SHA-256 digest of a deck's cards, in 64 hexadecimal digits: that of its text, without the blanks and carriage returns at the ends of
/// its lines. So a deck is the same one after an editor or a mailer has changed how its lines end.
pub fn checksum_of_deck(alloc: Global, text: &[u8]) -> Result<String, AllocError>
    ensures { IfOk result (λ sum. string_bytes sum ≡ digest_of (cards_of text.now)) }
{
    let mut kept = Vec::with_capacity(alloc, text.len())?;
    let mut left = text;
    while let Some((last, front)) = left.split_last() {
        put_before(&mut kept, *last)?;
        left = front;
    }
    kept.reverse();
    checksum_of(alloc, kept.as_slice())
}

/// Puts a byte before a rest of a text, of which the last byte is first here.
fn put_before(rest: &mut Vec<u8>, byte: u8) -> Result<(), AllocError>
    ensures { OnOk result (reverse rest.new.items ≡ before_end byte (reverse rest.old.items)) }
{
    let ends_line = match rest.last() {
        Some(next) => *next == b'\n',
        None => true,
    };
    if matches!(byte, b' ' | b'\r') && ends_line {
        return Ok(());
    }
    rest.push(byte)?;
    Ok(())
}
