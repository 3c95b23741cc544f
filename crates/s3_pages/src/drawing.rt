//! A page as it is drawn.
ghost use Rattle.std.specs.Prelude.{◌≡◌, ◌++◌, OnOk};
ghost use Rattle.std.specs.List.{flat_map};
ghost use Rattle.s3_pages.specs.Inner.Drawing.{baseline as baseline_spec, drawn, drawn_page, escaped, is_special as is_special_spec, stream_body, text_in};

use crate::numbers::push_number;
use crate::size::{PaperSize, page_head};
use crate::{push_shown, row_of};
use s3_cards::PrintLine;
use std::alloc::AllocError;

/// The position of the first line, in points from the bottom of the form.
const FIRST_BASELINE: u64 = 783;

/// The height of a line, in points: six lines are an inch.
const LINE_HEIGHT: u64 = 12;

/// Appends a page: where the form is on the paper, the form, and its lines over each other. The room is used again.
#[tactic(auto, unfolding(crate::specs::Inner::Drawing::drawn_page))]
pub fn push_page(
    text: &mut Vec<u8>,
    room: &mut Vec<u8>,
    size: PaperSize,
    page: &[PrintLine],
) -> Result<(), AllocError>
    ensures { OnOk result (text.new.items ≡ text.old.items ++ drawn_page size page.now) }
{
    text.extend_from_slice(page_head(size))?;
    push_lines(text, room, page)?;
    text.extend_from_slice(b"ET")?;
    Ok(())
}

fn push_lines(text: &mut Vec<u8>, room: &mut Vec<u8>, page: &[PrintLine]) -> Result<(), AllocError>
    ensures { OnOk result (text.new.items ≡ text.old.items ++ flat_map drawn page.now) }
{
    for line in page {
        push_line(text, room, line)?;
    }
    Ok(())
}

/// Appends a line, at its place.
#[tactic(auto, unfolding(crate::specs::Inner::Drawing::drawn))]
fn push_line(text: &mut Vec<u8>, room: &mut Vec<u8>, line: &PrintLine) -> Result<(), AllocError>
    ensures { OnOk result (text.new.items ≡ text.old.items ++ drawn line.now) }
{
    room.clear();
    push_shown(room, line)?;
    text.extend_from_slice(b"1 0 0 1 60.3 ")?;
    push_number(text, baseline(line))?;
    text.extend_from_slice(b" Tm ")?;
    push_text(text, room.as_slice())?;
    text.extend_from_slice(b" Tj\n")?;
    Ok(())
}

/// The position of a line, in points from the bottom of the form.
fn baseline(line: &PrintLine) -> u64
    ensures { result ≡ baseline_spec line.now }
{
    FIRST_BASELINE.saturating_sub(LINE_HEIGHT * u64::from(row_of(line)))
}

/// Appends a text between parentheses.
pub fn push_text(text: &mut Vec<u8>, bytes: &[u8]) -> Result<(), AllocError>
    ensures { OnOk result (text.new.items ≡ text.old.items ++ text_in bytes.now) }
{
    text.push(b'(')?;
    push_bytes(text, bytes)?;
    text.push(b')')?;
    Ok(())
}

fn push_bytes(text: &mut Vec<u8>, bytes: &[u8]) -> Result<(), AllocError>
    ensures { OnOk result (text.new.items ≡ text.old.items ++ flat_map escaped bytes.now) }
{
    for byte in bytes {
        push_byte(text, *byte)?;
    }
    Ok(())
}

/// Appends a byte of a text, after a backslash if the byte has a special meaning.
fn push_byte(text: &mut Vec<u8>, byte: u8) -> Result<(), AllocError>
    ensures { OnOk result (text.new.items ≡ text.old.items ++ escaped byte) }
{
    if is_special(byte) {
        text.push(b'\\')?;
    }
    text.push(byte)?;
    Ok(())
}

fn is_special(byte: u8) -> bool
    ensures { result ≡ is_special_spec byte }
{
    byte == b'(' || byte == b')' || byte == b'\\'
}

/// Appends a stream, with its length and what else is said of it.
#[tactic(auto, unfolding(crate::specs::Inner::Drawing::stream_body))]
pub fn push_stream(text: &mut Vec<u8>, said: &[u8], content: &[u8]) -> Result<(), AllocError>
    ensures { OnOk result (text.new.items ≡ text.old.items ++ stream_body said.now content.now) }
{
    text.extend_from_slice(b"<< ")?;
    text.extend_from_slice(said)?;
    text.extend_from_slice(b"/Length ")?;
    push_number(text, content.len() as u64)?;
    text.extend_from_slice(b" >>\nstream\n")?;
    text.extend_from_slice(content)?;
    text.extend_from_slice(b"\nendstream")
}
