//! File names as a terminal shows them.
ghost use Rattle.std.specs.Prelude.{◌≡◌};
ghost use Rattle.s3_decks.specs.Inner.Shown.{is_plain as is_plain_spec, is_shown as is_shown_spec};

use std::fmt;
use std::fmt::Display;

/// Whether a terminal shows a character as it is. It doesn't show, or would obey, a control character, and a character that only joins,
/// parts or turns the characters around it.
pub fn is_shown(character: char) -> bool
    ensures { result ≡ is_shown_spec character }
{
    let code = character as u32;
    !matches!(
        code,
        0..=0x1f | 0x7f..=0x9f | 0xad | 0x200b..=0x200f | 0x2028..=0x202e | 0x2060..=0x206f | 0xfeff
    )
}

/// A name that is printed: each character that a terminal doesn't show is a backslash, `x` or `u` and its code, as `\x1b`.
#[derive(Clone, Copy)]
pub struct Shown<'a>(pub &'a str);

impl<'a> Display for Shown<'a> {
    fn fmt<W: fmt::Write>(&self, f: &mut fmt::Formatter<W>) -> fmt::Result {
        for character in self.0.chars() {
            write_shown(f, character)?;
        }
        Ok(())
    }
}

/// Whether a shell takes a character as it is wherever it is in a word: letters, digits, some signs, and characters beyond ASCII that a
/// terminal shows.
fn is_plain(character: char) -> bool
    ensures { result ≡ is_plain_spec character }
{
    let code = character as u32;
    matches!(code, 0x25 | 0x2b..=0x3a | 0x40..=0x5a | 0x5f | 0x61..=0x7a)
        || (code >= 0x80 && is_shown(character))
}

/// A name in a command that a message suggests: as it is if a shell takes each of its characters so, else between apostrophes. A
/// character that a terminal doesn't show is printed as `Shown` prints it.
#[derive(Clone, Copy)]
pub struct Quoted<'a>(pub &'a str);

impl<'a> Display for Quoted<'a> {
    fn fmt<W: fmt::Write>(&self, f: &mut fmt::Formatter<W>) -> fmt::Result {
        if !self.0.is_empty() && self.0.chars().all(|character| is_plain(character)) {
            return write!(f, "{}", self.0);
        }
        write!(f, "'")?;
        for character in self.0.chars() {
            write_quoted(f, character)?;
        }
        write!(f, "'")
    }
}

/// Writes a character between apostrophes. An apostrophe ends them, comes after a backslash, and begins them again.
fn write_quoted<W: fmt::Write>(f: &mut fmt::Formatter<W>, character: char) -> fmt::Result {
    if character == '\'' {
        write!(f, "'\\''")
    } else {
        write_shown(f, character)
    }
}

fn write_shown<W: fmt::Write>(f: &mut fmt::Formatter<W>, character: char) -> fmt::Result {
    let code = character as u32;
    if is_shown(character) {
        write!(f, "{character}")
    } else if code < 0x100 {
        write!(f, "\\x{code:02x}")
    } else {
        write!(f, "\\u{code:04x}")
    }
}
