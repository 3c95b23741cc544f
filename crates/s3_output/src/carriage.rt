//! The carriage of the printer.
ghost use Rattle.std.specs.Prelude.{◌≡◌, ◌≤◌, ◌&&◌, ◌||◌, true, false, None, Some, IfSome};
ghost use Rattle.s3_lines.specs.Inner.Ranges.{spacing_in_range};
ghost use Rattle.s3_lines.specs.Ranges.{is_between, if_given};
ghost use Rattle.s3_meaning.specs.Carriage as meaning;

use s3_lines::sheet::Spacing;

/// The last line of a page.
const LAST_LINE: u8 = 66;

/// The line past which the overflow indicator is turned on.
const OVERFLOW_LINE: u8 = 60;

/// The page before page 0.
const LAST_PAGE: u16 = 9999;

/// The position of the carriage.
#[derive(Clone, Copy)]
pub struct Carriage {
    /// The page, 0 to 9,999.
    pub page: u16,
    /// The line of the page, 1 to 66.
    pub line: u8,
    pub ghost page_fits: { page ≤ 9999 },
    pub ghost line_begins: { 1 ≤ line },
    pub ghost line_fits: { line ≤ 66 },
}

/// Where the carriage has moved to.
#[derive(Clone, Copy)]
pub struct Moved {
    /// Its position now.
    pub carriage: Carriage,
    /// Whether the overflow indicator is turned on.
    pub overflow: bool,
}

/// Where a line is printed, and where the carriage has moved to after it.
#[derive(Clone, Copy)]
pub struct Printed {
    /// The place of print.
    pub place: Moved,
    /// The carriage after the line.
    pub behind: Moved,
}

/// The page after a page.
fn next_page(page: u16) -> u16
    requires { page ≤ 9999 }
    ensures value { result ≡ meaning.next_page page }
    ensures fits { result ≤ 9999 }
{
    if page < LAST_PAGE { page + 1 } else { 0 }
}

/// From at most line 60 to above it.
fn passes(from: u8, to: u8) -> bool
    ensures { result ≡ meaning.passes from to }
{
    from <= OVERFLOW_LINE && to > OVERFLOW_LINE
}

/// All entries blank mean a space after.
fn is_blank(spacing: &Spacing) -> bool
    ensures { result ≡ meaning.is_blank spacing.now }
{
    !(spacing.space_before.is_some()
        || spacing.space_after.is_some()
        || spacing.skip_before.is_some()
        || spacing.skip_after.is_some())
}

/// The space after of a line whose other entries are blank, as most lines have it.
fn space_after_alone(spacing: &Spacing) -> Option<u8>
    requires { spacing_in_range spacing.now ≡ true }
    ensures few { IfSome result (λ lines. lines ≤ 3) }
    ensures alone { IfSome result (λ lines. spacing.now ≡ record { space_before = None; space_after = Some lines; skip_before = None; skip_after = None }) }
{
    match *spacing {
        Spacing {
            space_before: None,
            space_after: Some(lines),
            skip_before: None,
            skip_after: None,
        } => Some(lines),
        _ => None,
    }
}

impl Moved {
    ghost use Rattle.s3_output.specs.Inner.Carriages.{place_moved};

    /// Moves the carriage by this number of lines; line 1 of the next page comes after line 66. Above the overflow line, the
    /// usual case, nothing else changes.
    fn spaced(self, lines: u8) -> Moved
        requires { lines ≤ 3 }
        ensures { place_moved result ≡ meaning.spaced lines (place_moved self) }
    {
        let from = self.carriage;
        let to = from.line + lines;
        if to <= OVERFLOW_LINE {
            let carriage = Carriage {
                page: from.page,
                line: to,
            };
            return Moved { carriage, ..self };
        }
        let overflow = self.overflow || passes(from.line, to);
        let carriage = if to > LAST_LINE {
            Carriage {
                page: next_page(from.page),
                line: to - LAST_LINE,
            }
        } else {
            Carriage {
                page: from.page,
                line: to,
            }
        };
        Moved { carriage, overflow }
    }

    /// Down to a line of the page, else to that line of the next page, which sets no overflow.
    fn skipped_to(self, line: u8) -> Moved
        requires { is_between 1 66 line ≡ true }
        ensures { place_moved result ≡ meaning.skipped (Some line) (place_moved self) }
    {
        let from = self.carriage;
        if line < from.line {
            let page = next_page(from.page);
            return Moved {
                carriage: Carriage { page, line },
                overflow: self.overflow,
            };
        }
        Moved {
            carriage: Carriage {
                page: from.page,
                line,
            },
            overflow: self.overflow || passes(from.line, line),
        }
    }

    /// A blank entry moves nothing.
    fn skipped(self, to: Option<u8>) -> Moved
        requires { if_given (is_between 1 66) to ≡ true }
        ensures { place_moved result ≡ meaning.skipped to (place_moved self) }
    {
        match to {
            Some(line) => self.skipped_to(line),
            None => self,
        }
    }

    /// From the place of print on: skip after, then space after.
    pub fn after_print(self, spacing: &Spacing) -> Moved
        requires { spacing_in_range spacing.now ≡ true }
        ensures { place_moved result ≡ meaning.after_print spacing.now (place_moved self) }
    {
        let lines = if is_blank(spacing) {
            1
        } else {
            spacing.space_after.unwrap_or(0)
        };
        self.skipped(spacing.skip_after).spaced(lines)
    }
}

impl Carriage {
    ghost use Rattle.s3_output.specs.Inner.Carriages.{IsPrinted, place, place_moved};

    /// To the place of print: skip before, then space before; printing at line 60 sets overflow.
    pub fn to_print(self, spacing: &Spacing) -> Moved
        requires { spacing_in_range spacing.now ≡ true }
        ensures { place_moved result ≡ meaning.to_print spacing.now (place self false) }
    {
        let still = Moved {
            carriage: self,
            overflow: false,
        };
        let there = still
            .skipped(spacing.skip_before)
            .spaced(spacing.space_before.unwrap_or(0));
        Moved {
            carriage: there.carriage,
            overflow: there.overflow || there.carriage.line == OVERFLOW_LINE,
        }
    }

    /// Where a line that only has a space after is printed, and where the carriage moves to after it. None unless the line is
    /// printed above line 60 and the carriage moves at most down to that line.
    fn printed_above_overflow(self, spacing: &Spacing) -> Option<Printed>
        requires { spacing_in_range spacing.now ≡ true }
        ensures { IfSome result (IsPrinted spacing.now self) }
    {
        let lines = space_after_alone(spacing)?;
        if self.line >= OVERFLOW_LINE || self.line + lines > OVERFLOW_LINE {
            return None;
        }
        let place = Moved {
            carriage: self,
            overflow: false,
        };
        let carriage = Carriage {
            page: self.page,
            line: self.line + lines,
        };
        let behind = Moved {
            carriage,
            overflow: false,
        };
        Some(Printed { place, behind })
    }

    /// Where a line is printed from here, and where the carriage has moved to after it.
    pub fn print(self, spacing: &Spacing) -> Printed
        requires { spacing_in_range spacing.now ≡ true }
        ensures { IsPrinted spacing.now self result }
    {
        match self.printed_above_overflow(spacing) {
            Some(printed) => printed,
            None => self.printed(spacing),
        }
    }

    /// Where a line is printed and where the carriage moves to, overflow or not.
    #[inline(never)]
    fn printed(self, spacing: &Spacing) -> Printed
        requires { spacing_in_range spacing.now ≡ true }
        ensures { IsPrinted spacing.now self result }
    {
        let place = self.to_print(spacing);
        Printed {
            place,
            behind: place.after_print(spacing),
        }
    }
}
