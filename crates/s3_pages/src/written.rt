//! Pages as a text, written.
ghost use Rattle.std.specs.Prelude.{◌≡◌, OnOk};
ghost use Rattle.std.specs.Io.KnownBytes.{Appends};
ghost use Rattle.std.specs.List.{flat_map};
ghost use Rattle.s3_pages.specs.Inner.PageTexts.{next_page_text, pages_text};
ghost use Rattle.s3_pages.specs.Inner.PagesLeft.{pages_left};

use crate::fault::PaperFault;
use crate::page_by_page::Pages;
use crate::page_text::push_page;
use s3_cards::PrintLine;
use std::alloc::{AllocError, Global};
use std::io::Write;

/// Stands between two pages.
const FORM_FEED: u8 = 0x0c;

/// Writes the pages of a job's lines as a text, page by page: each line at its line, empty lines between them, lines at one place
/// with a carriage return between them, no blanks at the end of a line, and a form feed between two pages. Without lines nothing is
/// written.
///
/// Refused with `NoMemory` or `File`; some of the pages may be written then.
pub fn write_text<W: Write>(
    alloc: Global,
    lines: &[PrintLine],
    writer: &mut W,
) -> Result<(), PaperFault>
    ensures wrote { OnOk result (Appends (W.contents writer.old) (W.contents writer.new) (pages_text lines.now)) }
{
    let mut pages = Pages::of(lines);
    let mut text = Vec::new(alloc);
    if let Some(page) = pages.next() {
        push_page(&mut text, page)?;
        write(writer, text.as_slice())?;
    }
    write_behind(pages, text, writer)
}

/// Writes the pages after another one, each with a form feed before it. The text is a room that is used again.
fn write_behind<W: Write>(
    pages: Pages<'_>,
    mut text: Vec<u8>,
    writer: &mut W,
) -> Result<(), PaperFault>
    ensures { OnOk result (Appends (W.contents writer.old) (W.contents writer.new) (flat_map next_page_text (pages_left pages.entry))) }
{
    for page in pages {
        put_next_page(&mut text, page)?;
        write(writer, text.as_slice())?;
    }
    Ok(())
}

/// Puts a page and the form feed before it in place of a text.
fn put_next_page(text: &mut Vec<u8>, page: &[PrintLine]) -> Result<(), AllocError>
    ensures { OnOk result (text.new.items ≡ next_page_text page.now) }
{
    text.clear();
    text.push(FORM_FEED)?;
    push_page(text, page)
}

fn write<W: Write>(writer: &mut W, bytes: &[u8]) -> Result<(), PaperFault>
    ensures { OnOk result (Appends (W.contents writer.old) (W.contents writer.new) bytes.now) }
{
    match writer.write_all(bytes) {
        Ok(()) => Ok(()),
        Err(_) => Err(PaperFault::File),
    }
}
