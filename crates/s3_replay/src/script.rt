//! The script that asks for entries that were performed.
ghost use Rattle.std.specs.Prelude.{◌≡◌, ◌++◌, true, [], ◌∷◌, IfOk, OnOk};
ghost use Rattle.s3_replay.specs.Inner.Written.{count_behind, is_writable, level_digit, line_of, lines_asking, most_in_line, part_lines, text_of};

use crate::performed::Repeated;
use itoa::Buffer;
use s3_bureau::{Action, Entry};
use s3_cards::LevelId;
use std::alloc::{AllocError, Global};

/// The script that asks for these parts: for each as many lines as it takes, of 9,999 turns or drains at most. A reply of two digits has
/// no line.
pub fn script_text(alloc: Global, parts: &[Repeated]) -> Result<Vec<u8>, AllocError>
    ensures { IfOk result (λ text. text.items ≡ text_of parts.now) }
{
    let mut text = Vec::new(alloc);
    let mut rest = parts;
    while let Some((part, after)) = rest.split_first() {
        push_part(&mut text, *part)?;
        rest = after;
    }
    Ok(text)
}

/// Whether a line of a script can ask for something: a reply is one digit.
fn has_line(action: Action) -> bool
    ensures { result ≡ is_writable action }
{
    match action {
        Action::Turn => true,
        Action::Reply(digit) => digit < 10,
        Action::Drain => true,
    }
}

/// Appends the lines that ask for a part, if a script can.
#[tactic(auto, unfolding(crate::specs::Inner::Written::part_lines))]
fn push_part(text: &mut Vec<u8>, part: Repeated) -> Result<(), AllocError>
    ensures { OnOk result (text.new.items ≡ text.old.items ++ part_lines part) }
{
    if !has_line(part.entry.action) {
        return Ok(());
    }
    push_lines(text, part)
}

/// How many times a line of a script can ask for something at most: a reply once.
fn most_in_a_line(action: Action) -> u16
    ensures { result ≡ most_in_line action }
{
    match action {
        Action::Turn => 9_999,
        Action::Reply(_digit) => 1,
        Action::Drain => 9_999,
    }
}

/// Appends a line of a letter, a level, and a count if it isn't 1.
fn push_counted(text: &mut Vec<u8>, letter: u8, level: u8, count: u16) -> Result<(), AllocError>
    ensures { OnOk result (text.new.items ≡ text.old.items ++ (letter ∷ level ∷ count_behind count) ++ 10 ∷ []) }
{
    text.push(letter)?;
    text.push(level)?;
    if count != 1 {
        let mut buffer = Buffer::new();
        text.push(b' ')?;
        text.extend_from_slice(buffer.format(count).as_bytes())?;
    }
    text.push(b'\n')?;
    Ok(())
}

/// The digit of a level.
fn digit_of(level: LevelId) -> u8
    ensures { result ≡ level_digit level }
{
    match level {
        LevelId::One => b'1',
        LevelId::Two => b'2',
    }
}

/// Appends the line that asks for an entry so many times.
fn push_line(text: &mut Vec<u8>, entry: Entry, count: u16) -> Result<(), AllocError>
    requires { is_writable entry.action ≡ true }
    ensures { OnOk result (text.new.items ≡ text.old.items ++ line_of entry count ++ 10 ∷ []) }
{
    let level = digit_of(entry.level);
    match entry.action {
        Action::Turn => push_counted(text, b'T', level, count),
        Action::Drain => push_counted(text, b'D', level, count),
        Action::Reply(digit) => {
            text.push(b'R')?;
            text.push(level)?;
            text.push(b' ')?;
            text.push(b'0' + digit)?;
            text.push(b'\n')?;
            Ok(())
        }
    }
}

/// Appends the lines that ask for an entry so many times.
fn push_lines(text: &mut Vec<u8>, part: Repeated) -> Result<(), AllocError>
    requires { is_writable part.entry.action ≡ true }
    ensures { OnOk result (text.new.items ≡ text.old.items ++ lines_asking part.entry part.times) }
{
    let most = u32::from(most_in_a_line(part.entry.action));
    let mut left = part.times;
    while left > 0 {
        let count = left.min(most);
        push_line(text, part.entry, count as u16)?;
        left -= count;
    }
    Ok(())
}
