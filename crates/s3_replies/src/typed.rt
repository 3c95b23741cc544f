//! What an operator types.
ghost use Rattle.std.specs.Prelude.{◌≡◌, ◌<◌};
ghost use Rattle.s3_replies.specs.Inner.Typed.{both_said, command_said, count_of, digit_of as digit_of_spec, first_said, level_of as level_of_spec, level_reply, level_word as level_word_spec, lines_said, one_said, reply_said, so_many, typed_of, word_said};
ghost use Rattle.s3_replies.specs.Inner.Words.{words};

use crate::line_words::{first_word, is_word};
use crate::rule::names_level;
use s3_cards::{LevelId, number_spelled};

/// The number of lines that are shown if no number is typed.
pub const LINES_SHOWN: usize = 10;

/// The longest number that is typed.
const DIGITS: usize = 7;

/// What an operator types in answer to a prompt.
#[derive(Clone, Copy)]
pub enum Typed {
    /// An empty line.
    Nothing,
    /// A digit, 0 to 9, for the halt of a level, or for the halt that waits. Whether the halt allows it isn't tested here.
    Reply(Option<LevelId>, u8),
    /// `?`: what the replies do.
    Help,
    /// `show`: the halt once more.
    Show,
    /// `lines`: the last printed lines of a level, or of the level that waits, and how many.
    Lines(Option<LevelId>, usize),
    /// `stop`: the end of the day.
    Stop,
    /// `yes`, to a question that isn't about a halt.
    Yes,
    /// `no`, to such a question.
    No,
    /// Anything else.
    Unknown,
}

impl Typed {
    ghost use Rattle.std.specs.Prelude.{◌≡◌};
    ghost use Rattle.s3_replies.specs.Inner.Rules.{is_reply as is_reply_spec};

    /// Whether it is this reply to the halt of this level. A digit alone is for the level that is asked.
    pub fn is_reply(self, level: LevelId, digit: u8) -> bool
        ensures { result ≡ is_reply_spec level digit self }
    {
        match self {
            Typed::Reply(own, again) => names_level(own, level) && again == digit,
            Typed::Nothing
            | Typed::Help
            | Typed::Show
            | Typed::Lines(_, _)
            | Typed::Stop
            | Typed::Yes
            | Typed::No
            | Typed::Unknown => false,
        }
    }
}

/// What a line says; words may be in capitals or small letters, with blanks around them.
pub fn read_typed(line: &[u8]) -> Typed
    ensures { result ≡ typed_of line.now }
{
    let Some((word, rest)) = first_word(line) else {
        return Typed::Nothing;
    };
    match digit_of(word) {
        Some(digit) => read_reply(digit, rest),
        None => read_command(word, rest),
    }
}

/// The digit that a word is.
pub(crate) fn digit_of(word: &[u8]) -> Option<u8>
    ensures { result ≡ digit_of_spec word.now }
{
    match word {
        [digit @ b'0'..=b'9'] => Some(*digit - b'0'),
        _ => None,
    }
}

/// A word that isn't a digit, and what follows it.
fn read_command(word: &[u8], rest: &[u8]) -> Typed
    ensures { result ≡ command_said word.now (words rest.now) }
{
    if is_word(word, b"lines") {
        return read_lines(rest);
    }
    match first_word(rest) {
        None => read_word(word),
        Some(_) => Typed::Unknown,
    }
}

/// A word without another one after it.
fn read_word(word: &[u8]) -> Typed
    ensures { result ≡ word_said word.now }
{
    if is_word(word, b"?") {
        Typed::Help
    } else if is_word(word, b"show") {
        Typed::Show
    } else if is_word(word, b"stop") {
        Typed::Stop
    } else if is_word(word, b"yes") {
        Typed::Yes
    } else if is_word(word, b"no") {
        Typed::No
    } else {
        Typed::Unknown
    }
}

/// A digit, or a level and a digit after it; the first one is 0 to 9.
fn read_reply(first: u8, rest: &[u8]) -> Typed
    ensures { result ≡ reply_said first (words rest.now) }
{
    let Some((word, rest)) = first_word(rest) else {
        return Typed::Reply(None, first);
    };
    match first_word(rest) {
        None => reply_of(level_of(first), digit_of(word)),
        Some(_) => Typed::Unknown,
    }
}

/// The reply to a level's halt, if both its level and its digit were typed.
fn reply_of(level: Option<LevelId>, digit: Option<u8>) -> Typed
    ensures { result ≡ level_reply level digit }
{
    match (level, digit) {
        (Some(level), Some(digit)) => Typed::Reply(Some(level), digit),
        (Some(_), None) | (None, _) => Typed::Unknown,
    }
}

/// What follows `lines`: a level, a number of lines, or both; a 1 or a 2 alone is a level.
fn read_lines(rest: &[u8]) -> Typed
    ensures { result ≡ lines_said (words rest.now) }
{
    let Some((first, rest)) = first_word(rest) else {
        return Typed::Lines(None, LINES_SHOWN);
    };
    let Some((count, rest)) = first_word(rest) else {
        return lines_of_one(level_word(first), first);
    };
    match first_word(rest) {
        None => lines_of_both(level_word(first), count),
        Some(_) => Typed::Unknown,
    }
}

/// `lines` with one word after it, and the level that this is, if it is one.
fn lines_of_one(level: Option<LevelId>, word: &[u8]) -> Typed
    ensures { result ≡ one_said level word.now }
{
    match level {
        Some(level) => Typed::Lines(Some(level), LINES_SHOWN),
        None => lines_of(None, word),
    }
}

/// `lines` with two words after it, and the level that the first one is, if it is one.
fn lines_of_both(level: Option<LevelId>, count: &[u8]) -> Typed
    ensures { result ≡ both_said level count.now }
{
    match level {
        Some(level) => lines_of(Some(level), count),
        None => Typed::Unknown,
    }
}

/// `lines` with a level, if one was typed, and a word for the number.
fn lines_of(level: Option<LevelId>, word: &[u8]) -> Typed
    ensures { result ≡ so_many level (count_of word.now) }
{
    if word.len() > DIGITS {
        return Typed::Unknown;
    }
    match number_spelled(b'0', word) {
        Some(count) => Typed::Lines(level, count as usize),
        None => Typed::Unknown,
    }
}

/// The level that a word is: 1 or 2.
fn level_word(word: &[u8]) -> Option<LevelId>
    ensures { result ≡ level_word_spec word.now }
{
    level_of(digit_of(word)?)
}

/// The level of a number.
fn level_of(number: u8) -> Option<LevelId>
    ensures { result ≡ level_of_spec number }
{
    match number {
        1 => Some(LevelId::One),
        2 => Some(LevelId::Two),
        _ => None,
    }
}
