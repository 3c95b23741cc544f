//! Printed lines.
ghost use Rattle.std.specs.Prelude.{◌≡◌, ◌-◌, ◌<◌, ◌≤◌, length, take, drop, replicate};
ghost use Rattle.s3_cards.specs.declared.ebcdic.TheConstants.{BLANK};

use std::marker::Model;

/// The most print positions of a line.
pub const PRINT_POSITIONS: usize = 132;

/// A printed line: its page, its line on the page, and as its text the 1 to 132 EBCDIC bytes of the print record.
#[derive(Clone, Copy)]
pub struct PrintLine {
    page: u16,
    line: u8,
    width: u8,
    /// The text, and blanks after it.
    positions: [u8; PRINT_POSITIONS],
}

impl Model for PrintLine {
    ghost use Rattle.std.specs.Prelude.{◌≡◌, ◌-◌, ◌<◌, ◌≤◌, ◌++◌, length, take, drop, replicate};
    ghost use Rattle.s3_cards.specs.Printed.{Printed};
    ghost use Rattle.s3_cards.specs.Inner.Printed.{width_again, positions_again};

    ghost Value = { Printed };

    ghost view = { λ p. record { page = p.page; line = p.line; text = take p.width p.positions } };

    ghost invariant = { λ p. (0 < p.width) × (p.width ≤ 132) × (length p.positions ≡ 132) × (drop p.width p.positions ≡ replicate (132 - p.width) 0x40) };

    ghost inverse = { λ v. record {
      page = v.page;
      line = v.line;
      width = length v.text;
      positions = v.text ++ replicate (132 - length v.text) 0x40;
    } };

    ghost inverse_ok = { λ p h i. record {
      page = p.page;
      line = p.line;
      width = width_again p.width p.positions h.1 h.2 i;
      positions = positions_again p.width p.positions h.1 h.2 h.3 i;
    } };
}

impl PrintLine {
    ghost use Rattle.s3_cards.specs.Printed.{Printed};

    /// A line of a page, whose text is the first `width` of the positions, 1 to 132; the positions after it are blanks.
    pub fn new(page: u16, line: u8, width: u8, positions: [u8; PRINT_POSITIONS]) -> PrintLine
        requires printed { 0 < width }
        requires fits { width ≤ 132 }
        requires blanks { drop width positions ≡ replicate (132 - width) BLANK }
        ensures { result ≡ record { page = page; line = line; text = take width positions } }
    {
        PrintLine {
            page,
            line,
            width,
            positions,
        }
    }

    /// The number of the page, 0 to 9,999.
    pub fn page(&self) -> u16
        ensures { result ≡ self.now.page }
    {
        self.page
    }

    /// The number of the line on its page, from 1.
    pub fn line(&self) -> u8
        ensures { result ≡ self.now.line }
    {
        self.line
    }

    /// The EBCDIC bytes of the print record, 1 to 132 of them.
    pub fn text(&self) -> &[u8]
        ensures value { result.now ≡ self.now.text }
        ensures printed { 0 < length self.now.text }
        ensures fits { length self.now.text ≤ 132 }
    {
        &self.positions[..self.width as usize]
    }
}
