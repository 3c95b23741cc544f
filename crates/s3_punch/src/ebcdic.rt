//! Decks of 80 columns in EBCDIC, as texts.
ghost use Rattle.std.specs.Prelude.{◌≡◌, ◌++◌, take, IfOk, OnOk};
ghost use Rattle.std.specs.List.{list_all};
ghost use Rattle.s3_punch.specs.Inner.Ebcdic.{byte_fault, byte_faults, card_line, cards_text, has_cards, has_character};

use s3_cards::{push_characters, to_host, trim_end};
use std::alloc::{AllocError, Global};

/// How many bytes a card has.
pub const CARD_BYTES: usize = 80;

/// A byte of a deck that is no character of a card.
#[derive(Clone, Copy)]
pub struct CardByte {
    /// The number of its card, from 1.
    pub card: usize,
    /// Its column, from 1.
    pub column: usize,
    /// The byte.
    pub byte: u8,
}

/// A deck in EBCDIC, as a text.
#[derive(Drop)]
pub struct CardsText {
    /// A line of characters for each whole card, without the blanks at its end.
    pub text: Vec<u8>,
    /// The bytes that are no characters; the text has `?` in their place.
    pub faults: Vec<CardByte>,
}

/// Whether a file has cards of 80 bytes in EBCDIC, end to end: it has whole cards, and the first one has only characters of EBCDIC. A text
/// in ASCII has a blank or a line feed there, which isn't one.
pub fn is_ebcdic_deck(bytes: &[u8]) -> bool
    ensures { result ≡ has_cards bytes.now }
{
    !bytes.is_empty() && bytes.len() % CARD_BYTES == 0 && begins_in_ebcdic(bytes)
}

/// Whether the first card has only characters of EBCDIC.
fn begins_in_ebcdic(bytes: &[u8]) -> bool
    ensures { result ≡ list_all has_character (take 80 bytes.now) }
{
    bytes
        .iter()
        .take(CARD_BYTES)
        .all(|byte| to_host(*byte).is_some())
}

/// The text of cards of 80 bytes in EBCDIC, end to end.
pub fn text_of_cards(alloc: Global, bytes: &[u8]) -> Result<CardsText, AllocError>
    ensures text { IfOk result (λ made. made.text.items ≡ cards_text bytes.now) }
    ensures faults { IfOk result (λ made. made.faults.items ≡ byte_faults bytes.now) }
{
    let mut text = Vec::new(alloc);
    let mut faults = Vec::new(alloc);
    push_lines(&mut text, bytes)?;
    note_bytes(&mut faults, bytes)?;
    Ok(CardsText { text, faults })
}

/// Appends a line for each whole card.
#[tactic(auto, using(crate::proofs::EbcdicLemmas::no_lines, crate::proofs::EbcdicLemmas::one_more_line))]
fn push_lines(text: &mut Vec<u8>, bytes: &[u8]) -> Result<(), AllocError>
    ensures { OnOk result (text.new.items ≡ text.old.items ++ cards_text bytes.now) }
{
    for n in 0..bytes.len() / CARD_BYTES {
        let start = n * CARD_BYTES;
        push_line(text, &bytes[start..start + CARD_BYTES])?;
    }
    Ok(())
}

/// Appends the line of a card.
fn push_line(text: &mut Vec<u8>, card: &[u8]) -> Result<(), AllocError>
    ensures { OnOk result (text.new.items ≡ text.old.items ++ card_line card.now) }
{
    push_characters(text, trim_end(card))?;
    text.push(b'\n')?;
    Ok(())
}

/// Notes each byte that is no character.
#[tactic(auto, using(crate::proofs::EbcdicLemmas::one_more_byte, crate::proofs::EbcdicLemmas::all_bytes))]
fn note_bytes(faults: &mut Vec<CardByte>, bytes: &[u8]) -> Result<(), AllocError>
    ensures { OnOk result (faults.new.items ≡ faults.old.items ++ byte_faults bytes.now) }
{
    for (place, byte) in bytes.iter().enumerate() {
        note_byte(faults, place, *byte)?;
    }
    Ok(())
}

/// Notes the byte at a place of a deck, from 0, if it is no character.
fn note_byte(faults: &mut Vec<CardByte>, place: usize, byte: u8) -> Result<(), AllocError>
    ensures { OnOk result (faults.new.items ≡ faults.old.items ++ byte_fault (place, byte)) }
{
    if to_host(byte).is_none() {
        faults.push(CardByte {
            card: place / CARD_BYTES + 1,
            column: place % CARD_BYTES + 1,
            byte,
        })?;
    }
    Ok(())
}
