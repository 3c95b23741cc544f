//! Letters and replies: which a halt allows, and what each does.

use s3_cards::LevelId;
use s3_operator::{HaltCode, choices, effect, is_at_start, letters, meaning};
use std::alloc::AllocError;

/// All digits that a reply can have; each halt allows some of them.
const DIGITS: [u8; 3] = [0, 2, 3];

/// Appends the two letters of a halt.
pub fn push_letters(text: &mut String, code: HaltCode) -> Result<(), AllocError> {
    for letter in letters(code) {
        text.push(char::from(letter))?;
    }
    Ok(())
}

/// Appends a line for each reply that a halt allows: what it does.
pub fn push_replies(text: &mut String, code: HaltCode) -> Result<(), AllocError> {
    if is_at_start(code) {
        return text.push_str("  2 or 3  passes the job over; the next one begins\n");
    }
    for digit in DIGITS {
        if let Some(effect) = effect(code, digit) {
            writeln!(text, "  {digit}  {effect}")?;
        }
    }
    Ok(())
}

/// Appends what a level's halt may be answered with: `level 2, H1: 0, 2 or 3`.
pub fn push_choice(text: &mut String, level: LevelId, code: HaltCode) -> Result<(), AllocError> {
    let number = level.number();
    write!(text, "level {number}, ")?;
    push_letters(text, code)?;
    let choices = choices(code);
    write!(text, ": {choices}")
}

/// Appends the line that says what a reply does: `level 2: 0, goes on; the halt indicator goes off`; of one that the halt doesn't
/// allow, which it allows.
pub fn push_reply(
    text: &mut String,
    level: LevelId,
    code: HaltCode,
    digit: u8,
) -> Result<(), AllocError> {
    let number = level.number();
    match effect(code, digit) {
        Some(effect) => writeln!(text, "level {number}: {digit}, {effect}"),
        None => {
            let choices = choices(code);
            writeln!(
                text,
                "level {number}: this halt allows {choices}, not {digit}"
            )
        }
    }
}

/// Appends `level 2 halts: H1, the program turned on a halt indicator`.
pub(crate) fn push_meaning(
    text: &mut String,
    level: LevelId,
    code: HaltCode,
) -> Result<(), AllocError> {
    let number = level.number();
    write!(text, "level {number} halts: ")?;
    push_letters(text, code)?;
    let meaning = meaning(code);
    writeln!(text, ", {meaning}")
}
