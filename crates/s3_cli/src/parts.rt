//! The parts of a session's input: two decks and a script, between markers.

ghost use Rattle.std.specs.Prelude.{◌≡◌, ◌<◌, ◌≤◌, ◌+◌, ◌-◌, ◌∷◌, Some, None, length, slice_index, take, drop, IfSome, option_map, is_some};
ghost use Rattle.s3_cli.specs.Inner.PartsView.{parts_view};
ghost use Rattle.s3_cli.specs.Parts.{whole_lines, text_of, content_of, is_marker, has_marker, before_marker, after_marker, parts_of};

use memchr::{memchr, memrchr};
use s3_cards::without_carriage_return;

/// The texts between the markers of an input, each of whole lines.
#[derive(Clone, Copy)]
pub struct Parts<'a> {
    /// The cards of level 1.
    pub deck1: &'a [u8],
    /// The cards of level 2.
    pub deck2: &'a [u8],
    /// The script's lines.
    pub script: &'a [u8],
}

/// The length of the first line of a text, with the LF that ends it.
#[tactic(auto, using(crate::proofs::Lines::whole_lines_first, crate::proofs::Lines::whole_lines_last))]
fn line_length(text: &[u8]) -> usize
    requires { 0 < length text.now }
    ensures line { whole_lines text.now ≡ take result text.now ∷ whole_lines (drop result text.now) }
    ensures within { (0 < result) × (result ≤ length text.now) }
{
    match memchr(b'\n', text) {
        Some(end) => end + 1,
        None => text.len(),
    }
}

/// The text of a line, without the LF, or CR and LF, that ends it.
fn content(line: &[u8]) -> &[u8]
    ensures { result.now ≡ content_of line.now }
{
    match line {
        [front @ .., b'\n'] => without_carriage_return(front),
        _ => line,
    }
}

/// Whether a line is the marker with this word.
fn is_marker_line(word: &[u8], line: &[u8]) -> bool
    ensures { result ≡ is_marker word.now line.now }
{
    content(line) == word
}

/// The place at which the last line of a text begins, whole or not. It is the end of the text if the text ends with an LF.
fn last_line_start(text: &[u8]) -> usize
    ensures within { result ≤ length text.now }
    ensures behind { 0 < result → slice_index text.now (result - 1) ≡ 10 }
{
    match memrchr(b'\n', text) {
        Some(end) => end + 1,
        None => 0,
    }
}

/// The text before the first marker with this word, which begins with a colon, and the text after it, if there is one.
/// Lines without a colon are passed over at once.
fn split_at_marker<'a>(text: &'a [u8], word: &[u8]) -> Option<(&'a [u8], &'a [u8])>
    requires { slice_index word.now 0 ≡ 58 }
    ensures found { IfSome result (λ texts.
        (texts.0.now ≡ text_of (before_marker word.now (whole_lines text.entry.now)))
        × (whole_lines texts.1.now ≡ after_marker word.now (whole_lines text.entry.now))
        × (texts.1.now ≡ text_of (after_marker word.now (whole_lines text.entry.now)))) }
    ensures some { is_some result ≡ has_marker word.now (whole_lines text.entry.now) }
{
    let mut passed = 0;
    while let Some(colon) = memchr(b':', &text[passed..]) {
        let start = passed + last_line_start(&text[passed..passed + colon]);
        let end = start + line_length(&text[start..]);
        if is_marker_line(word, &text[start..end]) {
            return Some((&text[..start], &text[end..]));
        }
        passed = end;
    }
    None
}

/// The parts of a session's input (docs/RUNNING.md, "The input"); none if a marker is missing or out of order.
#[tactic(auto, unfolding(crate::specs::Parts::parts_of))]
pub fn split_parts(input: &[u8]) -> Option<Parts<'_>>
    ensures { option_map parts_view result ≡ parts_of input.entry.now }
{
    if input.is_empty() {
        return None;
    }
    let first = line_length(input);
    if !is_marker_line(b":deck1", &input[..first]) {
        return None;
    }
    let (deck1, rest) = split_at_marker(&input[first..], b":deck2")?;
    let (deck2, script) = split_at_marker(rest, b":script")?;
    Some(Parts {
        deck1,
        deck2,
        script,
    })
}
