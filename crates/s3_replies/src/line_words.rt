//! The words of a line.
ghost use Rattle.std.specs.Prelude.{◌≡◌, ◌≤◌, [], ◌∷◌, length, MatchOption};
ghost use Rattle.std.specs.Str.{str_eq_ignore_ascii_case};
ghost use Rattle.std.specs.List.{position_or_len, prefix_len};
ghost use Rattle.s3_replies.specs.Inner.Words.{BeginsWord, is_blank as is_blank_spec, words};

/// Whether a byte divides words.
fn is_blank(byte: u8) -> bool
    ensures { result ≡ is_blank_spec byte }
{
    byte == b' ' || byte == b'\t' || byte == b'\r'
}

/// How many blanks a text begins with.
fn blanks_len(text: &[u8]) -> usize
    ensures within { result ≤ length text.now }
    ensures value { result ≡ prefix_len is_blank_spec text.now }
{
    text.iter().take_while(|byte| is_blank(**byte)).count()
}

/// How many bytes a text has before its first blank.
fn word_len(text: &[u8]) -> usize
    ensures within { result ≤ length text.now }
    ensures value { result ≡ position_or_len is_blank_spec text.now }
{
    text.iter().take_while(|byte| !is_blank(**byte)).count()
}

/// A text without the blanks at its start.
#[tactic(auto, using(crate::proofs::WordLemmas::after_blanks, crate::proofs::WordLemmas::begins_after_blanks))]
fn without_blanks(text: &[u8]) -> &[u8]
    ensures same { words result.now ≡ words text.now }
    ensures begins { BeginsWord result.now }
{
    text.split_at(blanks_len(text)).1
}

/// The first word of a line and the text after it. `None` if only blanks or a comment are left: a word that begins with `#`, and all
/// after it.
pub(crate) fn first_word(line: &[u8]) -> Option<(&[u8], &[u8])>
    ensures { MatchOption result (words line.now ≡ []) (λ found. words line.now ≡ found.0.now ∷ words found.1.now) }
{
    let text = without_blanks(line);
    if text.is_empty() {
        return None;
    }
    if text[0] == b'#' {
        return None;
    }
    Some(text.split_at(word_len(text)))
}

/// Whether a word is another one, in capitals or small letters.
#[tactic(auto, using(crate::proofs::WordLemmas::same_letters))]
pub(crate) fn is_word(word: &[u8], said: &[u8]) -> bool
    ensures { result ≡ str_eq_ignore_ascii_case word.now said.now }
{
    word.eq_ignore_ascii_case(said)
}
