//! Parts of a page, and how they are written.
ghost use Rattle.std.specs.Prelude.{◌≡◌, ◌++◌, OnOk, map};
ghost use Rattle.std.specs.List.{flat_map};
ghost use Rattle.s3_book.specs.Inner.Parts.{bytes_of, escaped, linked, marked, page_of, piece_of};

use s3_cards::push_number;
use std::alloc::AllocError;

/// Ends a line of a report.
const LINE_FEED: u8 = 10;

/// Begins a text over the line.
const CARRIAGE_RETURN: u8 = 13;

/// Begins a page.
const FORM_FEED: u8 = 12;

/// A part of a page.
#[derive(Clone, Copy)]
pub enum Part<'a> {
    /// Tags, as they are.
    Markup(&'a [u8]),
    /// A value that is shown: nothing in it is a tag.
    Value(&'a [u8]),
    /// The name of a file in the same folder, in a link.
    Link(&'a [u8]),
    /// A report as text, page by page.
    Report(&'a [u8]),
    /// A number.
    Number(u64),
}

/// Appends parts, one after another.
#[tactic(auto, unfolding(crate::specs::Inner::Parts::page_of))]
pub fn put(text: &mut Vec<u8>, parts: &[Part<'_>]) -> Result<(), AllocError>
    ensures { OnOk result (text.new.items ≡ text.old.items ++ page_of (map piece_of parts.now)) }
{
    for part in parts {
        put_one(text, *part)?;
    }
    Ok(())
}

/// Appends a part.
fn put_one(text: &mut Vec<u8>, part: Part<'_>) -> Result<(), AllocError>
    ensures { OnOk result (text.new.items ≡ text.old.items ++ bytes_of (piece_of part.entry)) }
{
    match part {
        Part::Markup(bytes) => text.extend_from_slice(bytes),
        Part::Value(bytes) => push_escaped(text, bytes),
        Part::Link(bytes) => push_linked(text, bytes),
        Part::Report(bytes) => push_marked(text, bytes),
        Part::Number(number) => push_number(text, number, 1),
    }
}

/// Appends a value: each of `&`, `<`, `>`, `"` and `'` becomes its entity, and every other byte stays.
pub fn push_escaped(text: &mut Vec<u8>, value: &[u8]) -> Result<(), AllocError>
    ensures { OnOk result (text.new.items ≡ text.old.items ++ flat_map escaped value.now) }
{
    for byte in value {
        push_escaped_byte(text, *byte)?;
    }
    Ok(())
}

/// Appends a byte of a value.
fn push_escaped_byte(text: &mut Vec<u8>, byte: u8) -> Result<(), AllocError>
    ensures { OnOk result (text.new.items ≡ text.old.items ++ escaped byte) }
{
    match byte {
        b'&' => text.extend_from_slice(b"&amp;"),
        b'<' => text.extend_from_slice(b"&lt;"),
        b'>' => text.extend_from_slice(b"&gt;"),
        b'"' => text.extend_from_slice(b"&quot;"),
        b'\'' => text.extend_from_slice(b"&#39;"),
        _ => text.extend_from_slice(&[byte]),
    }
}

/// Appends the name of a file in a link.
fn push_linked(text: &mut Vec<u8>, name: &[u8]) -> Result<(), AllocError>
    ensures { OnOk result (text.new.items ≡ text.old.items ++ flat_map linked name.now) }
{
    for byte in name {
        push_linked_byte(text, *byte)?;
    }
    Ok(())
}

/// Appends a byte of a name in a link.
fn push_linked_byte(text: &mut Vec<u8>, byte: u8) -> Result<(), AllocError>
    ensures { OnOk result (text.new.items ≡ text.old.items ++ linked byte) }
{
    match byte {
        b'#' => text.extend_from_slice(b"%23"),
        b'%' => text.extend_from_slice(b"%25"),
        b'?' => text.extend_from_slice(b"%3F"),
        _ => push_escaped_byte(text, byte),
    }
}

/// Appends a report.
fn push_marked(text: &mut Vec<u8>, report: &[u8]) -> Result<(), AllocError>
    ensures { OnOk result (text.new.items ≡ text.old.items ++ flat_map marked report.now) }
{
    for byte in report {
        push_marked_byte(text, *byte)?;
    }
    Ok(())
}

/// Appends a byte of a report.
fn push_marked_byte(text: &mut Vec<u8>, byte: u8) -> Result<(), AllocError>
    ensures { OnOk result (text.new.items ≡ text.old.items ++ marked byte) }
{
    match byte {
        LINE_FEED => text.extend_from_slice(b"</div>\n<div>"),
        CARRIAGE_RETURN => text.extend_from_slice(b"</div><p></p><div>"),
        FORM_FEED => text.extend_from_slice(b"</div></section><section><div>"),
        _ => push_escaped_byte(text, byte),
    }
}
