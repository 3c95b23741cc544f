//! What is said to who is asked.

use crate::message::Message;
use s3_cards::{LevelId, PrintLine, trim_end};
use s3_operator::{HaltCode, meaning};

/// The other commands that may be typed.
const WORDS: &'static str =
    "  show   the halt once more\n  lines  the last printed lines, as lines 2 30 for thirty of level 2\n  stop   ends the day here\n";

/// Appends what the replies to a level's halt do, under what it means.
pub(crate) fn push_help(message: &mut Message, level: LevelId, code: HaltCode) {
    message.push_level(level);
    message.push(", ");
    message.push_letters(code);
    message.push(", ");
    message.push(meaning(code));
    message.push(":\n");
    message.push_replies(code);
}

/// Appends what else may be typed.
pub(crate) fn push_words(message: &mut Message) {
    message.push(WORDS);
}

/// Appends the last lines of a level, so many at most, and how many it has printed.
pub(crate) fn push_last_lines(
    message: &mut Message,
    level: LevelId,
    lines: &[PrintLine],
    most: usize,
) {
    let count = lines.len();
    message.push_level(level);
    message.push(" has printed ");
    message.push_counted(count as u64, "line");
    message.push("\n");
    for line in lines.get(count.saturating_sub(most)..).unwrap_or(&[]) {
        push_line(message, line);
    }
}

/// Appends a printed line as a report has it, two columns in.
fn push_line(message: &mut Message, line: &PrintLine) {
    message.push("  ");
    message.push_place(line.page(), line.line());
    message.push_characters(trim_end(line.text()));
    message.push("\n");
}
