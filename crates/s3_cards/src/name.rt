//! Names, and the kinds of codes that they have.
ghost use Rattle.std.specs.Prelude.{◌≡◌, ◌≤◌, length};
ghost use Rattle.std.specs.List.{list_all};
ghost use Rattle.s3_cards.specs.Names.{is_digit as digit_spec, is_letter as letter_spec, begins_name as begins_spec, goes_on_in_name as goes_on_spec, is_word as word_spec, is_name as name_spec, name_of};

use super::ebcdic::{
    AT_SIGN, BLANK, DIGIT_0, DIGIT_9, DOLLAR, LETTER_A, LETTER_I, LETTER_J, LETTER_R, LETTER_S,
    LETTER_Z, NUMBER_SIGN,
};
use super::texts::{are_blank, word_len};

/// A name of a program, a file, a label or a field: a letter, `$`, `#` or `@`, then these or digits. A file and a label
/// have at most 8 characters, the others at most 6.
#[derive(Clone, Copy, PartialEq, Eq, Hash)]
pub struct Name {
    /// The name's characters in EBCDIC, padded with blanks on the right.
    pub codes: [u8; 8],
}

impl Name {
    /// The name of at most eight EBCDIC codes. It isn't tested here whether they are one: `is_word` and `is_name` do that.
    pub fn of(codes: &[u8]) -> Name
        requires { length codes.now ≤ 8 }
        ensures { result ≡ name_of codes.now }
    {
        let mut padded = [BLANK; 8];
        padded[..codes.len()].copy_from_slice(codes);
        Name { codes: padded }
    }
}

/// Whether a code is that of 0 to 9.
pub fn is_digit(code: u8) -> bool
    ensures { result ≡ digit_spec code }
{
    matches!(code, DIGIT_0..=DIGIT_9)
}

/// Whether a code is that of A to Z.
pub fn is_letter(code: u8) -> bool
    ensures { result ≡ letter_spec code }
{
    matches!(code, LETTER_A..=LETTER_I | LETTER_J..=LETTER_R | LETTER_S..=LETTER_Z)
}

/// Whether a name may begin with a code: a letter, `$`, `#` or `@`.
pub fn begins_name(code: u8) -> bool
    ensures { result ≡ begins_spec code }
{
    is_letter(code) || matches!(code, DOLLAR | NUMBER_SIGN | AT_SIGN)
}

/// Whether a code is allowed in a name after the first one.
pub fn goes_on_in_name(code: u8) -> bool
    ensures { result ≡ goes_on_spec code }
{
    begins_name(code) || is_digit(code)
}

/// Whether each of these codes is allowed in a name after the first one.
pub fn go_on_in_name(codes: &[u8]) -> bool
    ensures { result ≡ list_all goes_on_spec codes.now }
{
    codes.iter().all(|code| goes_on_in_name(*code))
}

/// Whether a text of EBCDIC codes is a word: a letter, `$`, `#` or `@`, and then these or digits, as many as there are.
#[tactic(auto, unfolding(crate::specs::Names::is_word))]
pub fn is_word(text: &[u8]) -> bool
    ensures { result ≡ word_spec text.now }
{
    match text.split_first() {
        None => false,
        Some((first, rest)) => begins_name(*first) && go_on_in_name(rest),
    }
}

/// Whether a field of EBCDIC codes has a word on its left and blanks after it.
pub fn is_name(codes: &[u8]) -> bool
    ensures { result ≡ name_spec codes.now }
{
    let (word, rest) = codes.split_at(word_len(codes));
    is_word(word) && are_blank(rest)
}
