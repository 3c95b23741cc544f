//! The text of a page.
ghost use Rattle.std.specs.Prelude.{◌≡◌, ◌++◌, ◌-◌, OnOk};
ghost use Rattle.s3_pages.specs.Inner.PageTexts.{height as height_spec, over, page_text, row as row_spec, row_text};
ghost use Rattle.s3_pages.specs.Inner.Shown.{shown};

use crate::shown::push_shown;
use s3_cards::PrintLine;
use std::alloc::AllocError;

/// The place of a line on its page, counted from 0. A line that is numbered 0 is on the first one, too.
pub fn row_of(line: &PrintLine) -> u8
    ensures { result ≡ row_spec line.now }
{
    line.line().saturating_sub(1)
}

/// How many lines of a page there are down to the last one that has something printed.
fn height(lines: &[PrintLine]) -> u16
    ensures { result ≡ height_spec lines.now }
{
    let mut most = 0;
    for line in lines {
        most = most.max(u16::from(row_of(line)) + 1);
    }
    most
}

/// Appends the text of a page: its lines from the first one to the last one that has something printed, each with a line feed at
/// its end. Texts at one place are in the order in which they were printed, with a carriage return between two.
#[tactic(auto, unfolding(crate::specs::Inner::PageTexts::page_text))]
pub fn push_page(text: &mut Vec<u8>, lines: &[PrintLine]) -> Result<(), AllocError>
    ensures { OnOk result (text.new.items ≡ text.old.items ++ page_text lines.now) }
{
    for row in 0..height(lines) {
        push_row(text, lines, row)?;
    }
    Ok(())
}

/// Appends a line of a page, and the line feed at its end.
fn push_row(text: &mut Vec<u8>, lines: &[PrintLine], row: u16) -> Result<(), AllocError>
    ensures { OnOk result (text.new.items ≡ text.old.items ++ row_text row lines.now) }
{
    let mut is_printed = false;
    for line in lines {
        if u16::from(row_of(line)) == row {
            push_over(text, is_printed, line)?;
            is_printed = true;
        }
    }
    text.push(b'\n')?;
    Ok(())
}

/// Appends what a line shows, over what is printed at its place, if anything is.
fn push_over(text: &mut Vec<u8>, is_printed: bool, line: &PrintLine) -> Result<(), AllocError>
    ensures { OnOk result (text.new.items ≡ text.old.items ++ over is_printed (shown line.now)) }
{
    if is_printed {
        text.push(b'\r')?;
    }
    push_shown(text, line)
}
