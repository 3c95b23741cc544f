//! Texts: characters of EBCDIC codes, without the blanks at their end.
ghost use Rattle.std.specs.Prelude.{◌≡◌, ◌≤◌, ◌<◌, ◌++◌, length, map, take, unwrap_or, OnOk, IfSome, IfNone, true, false};
ghost use Rattle.std.specs.List.{list_all};
ghost use Rattle.s3_cards.specs.Codes.{ebcdic_of, shown_byte};
ghost use Rattle.s3_cells.specs.Inner.Texts.{has_character, has_code, text_bytes, trimmed as trimmed_spec};

use s3_cards::ebcdic::BLANK;
use s3_cards::{code_of_byte, push_characters, to_host};
use std::alloc::AllocError;

/// The number of bytes of a text before the blanks at its end.
#[tactic(auto, using(crate::proofs::TextLemmas::blank_before, crate::proofs::TextLemmas::mark_before, crate::proofs::TextLemmas::nothing_left))]
fn trimmed_len(text: &[u8]) -> usize
    ensures value { take result text.now ≡ trimmed_spec text.now }
    ensures within { result ≤ length text.now }
{
    let mut end = text.len();
    while end > 0 && text[end - 1] == b' ' {
        end -= 1;
    }
    end
}

/// A text without the blanks at its end.
pub fn trimmed(text: &[u8]) -> &[u8]
    ensures { result.now ≡ trimmed_spec text.now }
{
    &text[..trimmed_len(text)]
}

/// The place of the first code that has no character, if there is one.
#[tactic(auto, using(crate::proofs::TextLemmas::none_hidden, crate::proofs::TextLemmas::one_hidden))]
pub fn place_without_character(codes: &[u8]) -> Option<usize>
    ensures all { IfNone result (list_all has_character codes.now ≡ true) }
    ensures some { IfSome result (λ place. list_all has_character codes.now ≡ false) }
{
    for (place, code) in codes.iter().enumerate() {
        if to_host(*code).is_none() {
            return Some(place);
        }
    }
    None
}

/// Appends the characters of codes, without the blanks at their end.
#[tactic(auto, using(crate::proofs::TextLemmas::kept_text))]
pub fn push_text(text: &mut Vec<u8>, codes: &[u8]) -> Result<(), AllocError>
    ensures { OnOk result (text.new.items ≡ text.old.items ++ trimmed_spec (map shown_byte codes.now)) }
{
    let before = text.len();
    push_characters(text, codes)?;
    let kept = trimmed_len(&text[before..]);
    text.truncate(before + kept);
    Ok(())
}

/// Whether each character of a text is one of a card.
pub fn have_codes(text: &[u8]) -> bool
    ensures { result ≡ list_all has_code text.now }
{
    text.iter().all(|byte| code_of_byte(*byte).is_some())
}

/// Writes the codes of the characters of a text over these bytes, with blanks after them.
#[tactic(auto, using(crate::proofs::TextLemmas::one_more_code))]
pub fn put_text(text: &[u8], bytes: &mut [u8])
    requires { length text.now ≤ length bytes.old }
    ensures { bytes.new ≡ text_bytes (length bytes.old) text.now }
{
    bytes.fill(BLANK);
    for (place, byte) in text.iter().enumerate() {
        bytes[place] = code_of(*byte);
    }
}

/// The code of a character, and 0 for one that has none.
fn code_of(byte: u8) -> u8
    ensures { result ≡ unwrap_or (ebcdic_of byte) 0 }
{
    code_of_byte(byte).unwrap_or(0)
}
