//! What is wrong with a line of a log.

use json::{Error, Scratch, Value};
use s3_operator::{HaltCode, allowed, choices, code_of, letters};
use s3_refusals::Shown;
use std::alloc::{AllocError, Global};

/// What is wrong with a line that comes too early or too late, or has another word than the log wrote.
const NO_LINE: &str =
    "is no line of a log; write it as --log wrote it, or remove it and the lines after it";

/// What is wrong with a line that isn't JSON.
const NO_OBJECT: &str =
    "is no JSON object on a line of its own; write it as --log wrote it, or remove it and the lines after it";

/// What is wrong with a text that doesn't begin as a log does.
const NO_FIRST: &str = "isn't the first line of a log; give the whole file that --log wrote";

/// What is wrong with the log of a refused day.
const DAY_REFUSED: &str =
    "is of a day that was refused before its first turn: nothing ran, so there is nothing to do again; give the day its own command, with its cause corrected";

/// Why the first line of a log is refused, by its text: the end of a sentence that begins with the line.
pub fn first_sentence(alloc: Global, line: &str) -> Result<String, AllocError> {
    let mut scratch = Scratch::new(alloc);
    match Value::parse(alloc, line, &mut scratch) {
        Ok(value) if is_refusal(&value) => String::from_str(alloc, DAY_REFUSED),
        Err(Error::OutOfMemory) => Err(AllocError),
        _ => String::from_str(alloc, NO_FIRST),
    }
}

/// Whether a value is the refusal of a day.
fn is_refusal(value: &Value<'_>) -> bool {
    match text_in(value, "event") {
        Some(event) => event == "refused",
        None => false,
    }
}

/// Why a line is refused, by its text: the end of a sentence that begins with the line. For a reply it names the word that is wrong, and
/// what may be there.
pub fn line_sentence(alloc: Global, line: &str) -> Result<String, AllocError> {
    let mut scratch = Scratch::new(alloc);
    match Value::parse(alloc, line, &mut scratch) {
        Ok(value) => value_sentence(alloc, &value),
        Err(Error::OutOfMemory) => Err(AllocError),
        Err(_) => String::from_str(alloc, NO_OBJECT),
    }
}

/// Why a line is refused, by its value.
fn value_sentence(alloc: Global, value: &Value<'_>) -> Result<String, AllocError> {
    let mut text = String::new(alloc);
    if is_reply(value) {
        push_reply(&mut text, value)?;
    } else {
        text.push_str(NO_LINE)?;
    }
    Ok(text)
}

/// Whether a value is a reply.
fn is_reply(value: &Value<'_>) -> bool {
    match text_in(value, "event") {
        Some(event) => event == "reply",
        None => false,
    }
}

/// Appends what is wrong with a reply.
fn push_reply(text: &mut String, reply: &Value<'_>) -> Result<(), AllocError> {
    if !has_level(reply) {
        return push_wrong(text, reply, "level", "a reply has the level there, 1 or 2");
    }
    let Some(code) = code_in(reply) else {
        return push_wrong(
            text,
            reply,
            "code",
            "a reply has the two letters of its halt there, in quotes",
        );
    };
    if !has_digit(reply, code) {
        push_found(text, reply, "digit")?;
        return push_digits(text, code);
    }
    if !has_giver(reply) {
        return push_wrong(
            text,
            reply,
            "by",
            "a reply has \"rule\", \"line\", \"operator\" or \"log\" there",
        );
    }
    text.push_str(NO_LINE)
}

/// Appends the digits that a halt allows.
fn push_digits(text: &mut String, code: HaltCode) -> Result<(), AllocError> {
    let [first, second] = letters(code);
    let (first, second) = (char::from(first), char::from(second));
    let digits = choices(code);
    write!(
        text,
        "a reply to {first}{second} has {digits} there, without quotes"
    )
}

/// Appends what a line has for a word, and what may be there.
fn push_wrong(
    text: &mut String,
    line: &Value<'_>,
    word: &str,
    wanted: &str,
) -> Result<(), AllocError> {
    push_found(text, line, word)?;
    text.push_str(wanted)
}

/// Appends what a line has for a word.
fn push_found(text: &mut String, line: &Value<'_>, word: &str) -> Result<(), AllocError> {
    match line.get(word) {
        None => write!(text, "has no \"{word}\"; "),
        Some(Value::Number(number)) => {
            let number = *number;
            write!(text, "has \"{word}\":{number}; ")
        }
        Some(Value::String(value)) => {
            let value = Shown(*value);
            write!(text, "has \"{word}\":\"{value}\"; ")
        }
        Some(_) => write!(text, "has neither a number nor a text for \"{word}\"; "),
    }
}

/// Whether a reply has a level.
fn has_level(reply: &Value<'_>) -> bool {
    matches!(number_in(reply, "level"), Some(1 | 2))
}

/// The halt of a reply.
fn code_in(reply: &Value<'_>) -> Option<HaltCode> {
    match text_in(reply, "code")?.as_bytes() {
        [first, second] => code_of([*first, *second]),
        _ => None,
    }
}

/// Whether a reply has a digit that its halt allows.
fn has_digit(reply: &Value<'_>, code: HaltCode) -> bool {
    match number_in(reply, "digit") {
        Some(digit) => is_allowed(code, digit),
        None => false,
    }
}

/// Whether a halt allows a number as its reply.
fn is_allowed(code: HaltCode, number: u64) -> bool {
    if number <= 9 {
        allowed(code, number as u8)
    } else {
        false
    }
}

/// Whether a reply has a word for who gave it.
fn has_giver(reply: &Value<'_>) -> bool {
    match text_in(reply, "by") {
        Some(word) => is_giver(word),
        None => false,
    }
}

/// Whether a word is one for who gave a reply.
fn is_giver(word: &str) -> bool {
    matches!(word, "rule" | "line" | "operator" | "log")
}

/// The text that a line has for a word.
fn text_in<'a>(line: &Value<'a>, word: &str) -> Option<&'a str> {
    line.get(word)?.as_str()
}

/// The whole number that a line has for a word.
fn number_in(line: &Value<'_>, word: &str) -> Option<u64> {
    line.get(word)?.as_u64()
}
