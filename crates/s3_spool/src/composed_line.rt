//! Lines as they are composed.

use s3_cards::PrintLine;
use std::marker::Model;

/// A printed line whose text is borrowed: its page, its line on the page, and the 1 to 132 EBCDIC bytes of the print record.
#[derive(Drop)]
pub struct ComposedLine<'a> {
    page: u16,
    line: u8,
    text: &'a [u8],
}

impl<'a> Model for ComposedLine<'a> {
    ghost use Rattle.std.specs.Prelude.{◌<◌, ◌≤◌, length};
    ghost use Rattle.s3_cards.specs.Printed.{Printed};

    ghost Value = { Printed };

    ghost view = { λ c. record { page = c.page; line = c.line; text = c.text.now } };

    ghost invariant = { λ c. (0 < length c.text.now) × (length c.text.now ≤ 132) };
}

impl<'a> ComposedLine<'a> {
    ghost use Rattle.std.specs.Prelude.{◌≡◌, ◌<◌, ◌≤◌, length};

    /// A line of a page with a text of 1 to 132 EBCDIC bytes, which isn't copied.
    pub fn new(page: u16, line: u8, text: &'a [u8]) -> ComposedLine<'a>
        requires printed { 0 < length text.now }
        requires fits { length text.now ≤ 132 }
        ensures { result ≡ record { page = page; line = line; text = text.now } }
    {
        ComposedLine { page, line, text }
    }

    /// A printed line, whose text isn't copied.
    pub fn of(line: &'a PrintLine) -> ComposedLine<'a>
        ensures { result ≡ line.now }
    {
        ComposedLine::new(line.page(), line.line(), line.text())
    }

    /// The number of the page, 0 to 9,999.
    pub fn page(&self) -> u16
        ensures { result ≡ self.now.page }
    {
        self.page
    }

    /// The number of the line on its page, from 1.
    pub fn line(&self) -> u8
        ensures { result ≡ self.now.line }
    {
        self.line
    }

    /// The EBCDIC bytes of the print record, 1 to 132 of them.
    pub fn text(&self) -> &[u8]
        ensures value { result.now ≡ self.now.text }
        ensures printed { 0 < length self.now.text }
        ensures fits { length self.now.text ≤ 132 }
    {
        self.text
    }
}
