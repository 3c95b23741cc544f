//! Texts of EBCDIC codes: their blanks, their words and their characters.
ghost use Rattle.std.specs.Prelude.{◌≡◌, ◌≤◌, ◌++◌, OnOk, length, map, nat_eq};
ghost use Rattle.std.specs.Cmp.Lexicographic.{pointwise};
ghost use Rattle.std.specs.List.{list_all, prefix_len};
ghost use Rattle.s3_cards.specs.Codes.{shown_byte};
ghost use Rattle.s3_cards.specs.Names.{is_blank as blank_spec, is_mark};
ghost use Rattle.s3_cards.specs.Printed.{trimmed};

use super::ebcdic::BLANK;
use crate::characters::host_byte;
use std::alloc::AllocError;

/// The number of blanks at the front of a text of EBCDIC codes.
pub fn blanks_in_front(text: &[u8]) -> usize
    ensures within { result ≤ length text.now }
    ensures value { result ≡ prefix_len blank_spec text.now }
{
    text.iter().take_while(|code| **code == BLANK).count()
}

/// The number of codes before the first blank of a text, or of all codes if it has no blank.
pub fn word_len(text: &[u8]) -> usize
    ensures within { result ≤ length text.now }
    ensures value { result ≡ prefix_len is_mark text.now }
{
    text.iter().take_while(|code| **code != BLANK).count()
}

/// Whether all codes of a text are blanks; the empty text is so.
pub fn are_blank(text: &[u8]) -> bool
    ensures { result ≡ list_all blank_spec text.now }
{
    text.iter().all(|code| *code == BLANK)
}

/// A text of EBCDIC codes without the blanks at its end.
pub fn trim_end(text: &[u8]) -> &[u8]
    ensures value { result.now ≡ trimmed text.now }
    ensures shorter { length result.now ≤ length text.now }
{
    trim_blanks(trim_fours(trim_eights(text)))
}

/// Whether eight codes are the same as eight others, compared as numbers and not one by one.
pub fn are_same_eight(codes: &[u8; 8], others: &[u8; 8]) -> bool
    ensures { result ≡ pointwise nat_eq codes.now others.now }
{
    u64::from_be_bytes(*codes) == u64::from_be_bytes(*others)
}

/// A text without whole groups of eight blanks at its end, as the 132 positions of a short line have them.
fn trim_eights(text: &[u8]) -> &[u8]
    ensures value { trimmed result.now ≡ trimmed text.now }
    ensures shorter { length result.now ≤ length text.now }
{
    let mut rest = text;
    while let Some((front, last)) = rest.split_last_chunk::<8>() {
        if !are_same_eight(last, &[BLANK; 8]) {
            return rest;
        }
        rest = front;
    }
    rest
}

/// A text without whole groups of four blanks at its end.
fn trim_fours(text: &[u8]) -> &[u8]
    ensures value { trimmed result.now ≡ trimmed text.now }
    ensures shorter { length result.now ≤ length text.now }
{
    let mut rest = text;
    while let Some((front, last)) = rest.split_last_chunk::<4>() {
        if *last != [BLANK; 4] {
            return rest;
        }
        rest = front;
    }
    rest
}

/// A text without the blanks at its end, taken off one by one.
#[tactic(auto, using(crate::proofs::Trimming::trimmed_blank, crate::proofs::Trimming::trimmed_whole))]
fn trim_blanks(text: &[u8]) -> &[u8]
    ensures value { result.now ≡ trimmed text.now }
    ensures shorter { length result.now ≤ length text.now }
{
    let mut rest = text;
    while let Some((last, front)) = rest.split_last() {
        if *last != BLANK {
            return rest;
        }
        rest = front;
    }
    rest
}

/// Appends the characters of EBCDIC codes, `?` for one that has none.
pub fn push_characters(text: &mut Vec<u8>, codes: &[u8]) -> Result<(), AllocError>
    ensures { OnOk result (text.new.items ≡ text.old.items ++ map shown_byte codes.now) }
{
    for code in codes {
        text.push(host_byte(*code))?;
    }
    Ok(())
}
