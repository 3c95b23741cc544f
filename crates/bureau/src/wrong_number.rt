//! Options whose value is no number, or one out of range.

use s3_command_line::command_of;
use s3_paper_commands::words::CommandWords;
use s3_refusals::Shown;
use std::io::Write;

/// An option whose value isn't a number of its range.
#[derive(Clone, Copy)]
pub struct WrongNumber<'a> {
    option: &'static str,
    /// How help shows the number.
    shown: &'static str,
    value: &'a str,
    least: u32,
    greatest: u32,
}

impl<'a> WrongNumber<'a> {
    /// The first such option of a command line, if it has one.
    pub fn find(words: &'a [String]) -> Option<WrongNumber<'a>> {
        let command = command_of(words.get(1)?.as_str())?;
        for place in 2..words.len() {
            if let Some(wrong) = wrong_at(&command, words, place) {
                return Some(wrong);
            }
        }
        None
    }

    /// Reports the option, and the range of its numbers.
    pub fn tell(self, rt: &HostRuntime) {
        let WrongNumber {
            option,
            shown,
            value,
            least,
            greatest,
        } = self;
        let value = Shown(value);
        let _ = writeln!(
            rt.stderr(),
            "error: invalid value '{value}' for '--{option} <{shown}>': give a number from {least} to {greatest}\n\nFor more information, try '--help'."
        );
    }
}

/// The option at a place of a command line, if its value isn't a number of its range.
fn wrong_at<'a>(
    command: &CommandWords,
    words: &'a [String],
    place: usize,
) -> Option<WrongNumber<'a>> {
    let given = words.get(place)?.as_str().strip_prefix("--")?;
    let (name, value) = match given.split_once("=") {
        Some(both) => both,
        None => (given, words.get(place.saturating_add(1))?.as_str()),
    };
    let word = command.words.iter().find(|word| word.name == name)?;
    let (shown, least, greatest) = word.takes.range()?;
    if is_within(value, least, greatest) {
        return None;
    }
    Some(WrongNumber {
        option: word.name,
        shown,
        value,
        least,
        greatest,
    })
}

/// Whether a text is a number within a range.
fn is_within(text: &str, least: u32, greatest: u32) -> bool {
    match text.parse::<i64>() {
        Ok(number) => i64::from(least) <= number && number <= i64::from(greatest),
        Err(_) => false,
    }
}
