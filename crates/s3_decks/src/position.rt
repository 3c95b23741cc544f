//! A line that is named in the command: `[FILE:]LINE`.

use s3_cards::number_spelled;

/// The longest number of a line.
const DIGITS: usize = 7;

/// A line that is named in the command.
#[derive(Clone, Copy)]
pub struct Position<'a> {
    /// The file; `None` if the line is one of the whole deck.
    pub file: Option<&'a str>,
    /// The number of the line, from 1.
    pub line: usize,
}

impl<'a> Position<'a> {
    /// The position that a word says: digits, or a file's name, a colon and digits. A name may have colons itself, since the
    /// last one counts. `None` if the number is missing, is 0, or has over 7 digits.
    pub fn read(word: &'a str) -> Option<Position<'a>> {
        let (file, digits) = match word.rsplit_once(':') {
            Some((file, digits)) => (Some(file), digits),
            None => (None, word),
        };
        let line = number_of(digits.as_bytes())?;
        (line > 0).then_some(Position { file, line })
    }
}

/// The number that a few digits spell.
fn number_of(digits: &[u8]) -> Option<usize> {
    if digits.is_empty() || digits.len() > DIGITS {
        return None;
    }
    Some(number_spelled(b'0', digits)? as usize)
}
