//! The document of a job, object by object.
ghost use Rattle.std.specs.Prelude.{◌≡◌, ◌∷◌, [], ◌≤◌, ◌<◌, ◌+◌, ◌*◌, OnOk, IsErrOf, SomeIff, length};
ghost use Rattle.std.specs.Io.KnownBytes.{Appends};
ghost use Rattle.s3_pages.specs.Inner.Pages.{pages_of};
ghost use Rattle.s3_pages.specs.Inner.PagesLeft.{pages_left};
ghost use Rattle.s3_pages.specs.declared.fault.PaperFault.TheVariants.{TooLong};
ghost use Rattle.s3_pages.specs.Inner.Bodies.{page_bodies};
ghost use Rattle.s3_pages.specs.Inner.Documents.{back_bodies, bodies_of, document_of, front_bodies, tree_number};
ghost use Rattle.s3_pages.specs.Inner.Tables.{IsTooLong, Putting};

use crate::bodies::{FONT, RESOURCES, push_info, push_page_body, push_root, push_tree};
use crate::drawing::{push_page, push_stream};
use crate::form::push_form;
use crate::object_table::{Table, end_with, push_object, put_first_line, put_table, write};
use crate::{FormLook, Pages, PaperFault, PaperSize};
use s3_cards::PrintLine;
use std::alloc::Global;
use std::io::Write;

/// The most pages of a document: readers number at most 8,388,607 objects, and a page has two.
pub const MOST_PAGES: u32 = 4_000_000;

/// Writes the pages of a job's lines as a PDF document, on forms of 132 columns and 66 lines with a look, as large as
/// they are or scaled to a size of paper. Lines at one place are drawn over each other. An empty page, and a job without lines, is an
/// empty form. The title is a text of ASCII.
///
/// Refused with `NoMemory` or `File`, and with `TooLong` if there are over 4,000,000 pages, or 10,000,000,000 bytes; some of the
/// document may be written then.
pub fn write_pdf<W: Write>(
    alloc: Global,
    title: &[u8],
    lines: &[PrintLine],
    look: FormLook,
    size: PaperSize,
    writer: &mut W,
) -> Result<(), PaperFault>
    ensures wrote { OnOk result (Appends (W.contents writer.old) (W.contents writer.new) (document_of size title.now look lines.now)) }
    ensures too_long { IsErrOf result TooLong → IsTooLong size title.now look lines.now }
{
    let Some(count) = page_count(lines) else {
        return Err(PaperFault::TooLong);
    };
    put_first_line(writer)?;
    let mut table = Table::new(alloc);
    put_objects(alloc, &mut table, title, lines, look, size, count, writer)?;
    put_table(alloc, &table, writer)
}

/// How many pages a job has, if they aren't too many.
fn page_count(lines: &[PrintLine]) -> Option<u32>
    ensures { SomeIff result (length (pages_of lines.now) ≤ 4000000) (length (pages_of lines.now)) }
{
    let mut count = 0;
    for _page in Pages::of(lines) {
        if count >= MOST_PAGES {
            return None;
        }
        count += 1;
    }
    Some(count)
}

/// Writes all objects of a document, given how many pages it has.
fn put_objects<W: Write>(
    alloc: Global,
    table: &mut Table,
    title: &[u8],
    lines: &[PrintLine],
    look: FormLook,
    size: PaperSize,
    count: u32,
    writer: &mut W,
) -> Result<(), PaperFault>
    requires begins { table.old.starts.items ≡ [] }
    requires count { count ≡ length (pages_of lines.now) }
    ensures { Putting (bodies_of size title.now look (pages_of lines.now)) table.old table.new (W.contents writer.old) (W.contents writer.new) result }
{
    let tree = 4 + 2 * u64::from(count);
    put_front(alloc, table, look, writer)?;
    put_pages(alloc, table, Pages::of(lines), size, tree, writer)?;
    put_back(alloc, table, title, size, tree, count, writer)
}

/// Writes what all pages share.
fn put_front<W: Write>(
    alloc: Global,
    table: &mut Table,
    look: FormLook,
    writer: &mut W,
) -> Result<(), PaperFault>
    ensures { Putting (front_bodies look) table.old table.new (W.contents writer.old) (W.contents writer.new) result }
{
    let mut form = Vec::new(alloc);
    push_form(alloc, &mut form, look)?;
    put_object(alloc, table, FONT, writer)?;
    put_two(alloc, table, form.as_slice(), RESOURCES, writer)
}

/// Writes pages.
fn put_pages<W: Write>(
    alloc: Global,
    table: &mut Table,
    pages: Pages<'_>,
    size: PaperSize,
    tree: u64,
    writer: &mut W,
) -> Result<(), PaperFault>
    ensures { Putting (page_bodies size tree (length table.old.starts.items + 1) (pages_left pages.entry)) table.old table.new (W.contents writer.old) (W.contents writer.new) result }
{
    for page in pages {
        put_page(alloc, table, page, size, tree, writer)?;
    }
    Ok(())
}

/// Writes a page and its contents.
fn put_page<W: Write>(
    alloc: Global,
    table: &mut Table,
    page: &[PrintLine],
    size: PaperSize,
    tree: u64,
    writer: &mut W,
) -> Result<(), PaperFault>
    ensures { Putting (page_bodies size tree (length table.old.starts.items + 1) (page.now ∷ [])) table.old table.new (W.contents writer.old) (W.contents writer.new) result }
{
    let mut drawn = Vec::new(alloc);
    push_page(&mut drawn, &mut Vec::new(alloc), size, page)?;
    let mut contents = Vec::new(alloc);
    push_stream(&mut contents, b"", drawn.as_slice())?;
    let mut body = Vec::new(alloc);
    push_page_body(&mut body, tree, table.count() + 2)?;
    put_two(alloc, table, body.as_slice(), contents.as_slice(), writer)
}

/// Writes what is reported of all pages.
fn put_back<W: Write>(
    alloc: Global,
    table: &mut Table,
    title: &[u8],
    size: PaperSize,
    tree: u64,
    count: u32,
    writer: &mut W,
) -> Result<(), PaperFault>
    requires { tree ≡ tree_number count }
    ensures { Putting (back_bodies size title.now count) table.old table.new (W.contents writer.old) (W.contents writer.new) result }
{
    let mut pages = Vec::new(alloc);
    push_tree(&mut pages, size, count)?;
    let mut root = Vec::new(alloc);
    push_root(&mut root, tree, count)?;
    let mut info = Vec::new(alloc);
    push_info(&mut info, title)?;
    put_object(alloc, table, pages.as_slice(), writer)?;
    put_two(alloc, table, root.as_slice(), info.as_slice(), writer)
}

/// Writes two objects after those of a table.
fn put_two<W: Write>(
    alloc: Global,
    table: &mut Table,
    first: &[u8],
    second: &[u8],
    writer: &mut W,
) -> Result<(), PaperFault>
    ensures { Putting (first.now ∷ second.now ∷ []) table.old table.new (W.contents writer.old) (W.contents writer.new) result }
{
    put_object(alloc, table, first, writer)?;
    put_object(alloc, table, second, writer)
}

/// Writes an object after those of a table, under the next number. Refused with `TooLong` if the document would have too many
/// bytes for its table.
pub fn put_object<W: Write>(
    alloc: Global,
    table: &mut Table,
    body: &[u8],
    writer: &mut W,
) -> Result<(), PaperFault>
    ensures { Putting (body.now ∷ []) table.old table.new (W.contents writer.old) (W.contents writer.new) result }
{
    let mut text = Vec::new(alloc);
    push_object(&mut text, table.count() + 1, body)?;
    let Some(end) = end_with(table.end(), text.len()) else {
        return Err(PaperFault::TooLong);
    };
    table.note(end)?;
    write(writer, text.as_slice())
}
