//! Blank lines at the end of a deck file, which are no cards.
ghost use Rattle.std.specs.Prelude.{◌≡◌, ◌≤◌, ◌==◌, length, position};
ghost use Rattle.std.specs.Str.Lines.{lines};
ghost use Rattle.s3_decks.specs.Inner.Blanks.{HasCards, line_end};

use s3_cards::first_line;

/// How many bytes at the front of a deck file are its cards: all but the lines at its end that have nothing, or white space alone.
#[tactic(auto, using(crate::proofs::Blanks::cards_known))]
pub fn cards_len(text: &[u8]) -> usize
    ensures cards { HasCards text.now result }
    ensures within { result ≤ length text.now }
{
    let last = text.trim_ascii_end().len();
    if last == 0 {
        0
    } else {
        end_of_line(text, last)
    }
}

/// The place after the line that a place is in.
fn end_of_line(text: &[u8], place: usize) -> usize
    requires { place ≤ length text.now }
    ensures value { result ≡ line_end text.now place }
    ensures within { result ≤ length text.now }
{
    match newline(&text[place..]) {
        Some(more) => place + more + 1,
        None => text.len(),
    }
}

/// The place of the first line feed.
fn newline(text: &[u8]) -> Option<usize>
    ensures { result ≡ position (λ byte. byte == 10) text.now }
{
    text.iter().position(|byte| *byte == b'\n')
}

/// How many lines a text has.
pub fn count_lines(text: &[u8]) -> usize
    ensures { result ≡ length (lines text.now) }
{
    let mut rest = text;
    let mut count = 0;
    while let Some((_line, after)) = first_line(rest) {
        count += 1;
        rest = after;
    }
    count
}
