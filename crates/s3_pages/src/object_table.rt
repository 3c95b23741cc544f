//! Objects as they are written, and the table of their places.
ghost use Rattle.std.specs.Prelude.{◌≡◌, ◌++◌, ◌+◌, ◌<◌, ◌^◌, ◌∷◌, [], OnOk, OnErr, Err, IsErrOf, SomeIff, length};
ghost use Rattle.std.specs.Io.KnownBytes.{Appends};
ghost use Rattle.std.specs.List.{flat_map};
ghost use Rattle.s3_pages.specs.declared.fault.PaperFault.TheVariants.{File, TooLong};
ghost use Rattle.s3_pages.specs.Inner.Objects.{entry_text, first_line, object_text, table_text, trailer_text};

use crate::PaperFault;
use crate::numbers::push_number;
use std::alloc::{AllocError, Global};
use std::io::Write;

/// A place in a document has ten digits, so its objects end before this one.
const END_LIMIT: u64 = 10_000_000_000;

/// The first line of a document.
const FIRST_LINE: &[u8] = b"%PDF-1.4\n";

/// The place at which each written object begins, and the place at which the file ends so far.
#[derive(Drop)]
pub struct Table {
    starts: Vec<u64>,
    end: u64,
}

impl Table {
    /// The table of a file that has its first line.
    pub fn new(alloc: Global) -> Table
        ensures starts { result.starts.items ≡ [] }
        ensures end { result.end ≡ 9 }
    {
        Table {
            starts: Vec::new(alloc),
            end: FIRST_LINE.len() as u64,
        }
    }

    /// How many objects there are.
    pub fn count(&self) -> u64
        ensures { result ≡ length self.now.starts.items }
    {
        self.starts.len() as u64
    }

    /// Where the file ends so far.
    pub fn end(&self) -> u64
        ensures { result ≡ self.now.end }
    {
        self.end
    }

    /// Notes an object that begins at the end of the file.
    pub fn note(&mut self, end: u64) -> Result<(), AllocError>
        ensures starts { OnOk result (self.new.starts.items ≡ self.old.starts.items ++ self.old.end ∷ []) }
        ensures end { OnOk result (self.new.end ≡ end) }
    {
        self.starts.push(self.end)?;
        self.end = end;
        Ok(())
    }
}

/// Writes the first line of a document.
pub fn put_first_line<W: Write>(writer: &mut W) -> Result<(), PaperFault>
    ensures wrote { OnOk result (Appends (W.contents writer.old) (W.contents writer.new) first_line) }
    ensures fits { ¬ IsErrOf result TooLong }
{
    write(writer, FIRST_LINE)
}

/// The end of a file with so many bytes more; none if its table has too few digits for it.
pub fn end_with(end: u64, len: usize) -> Option<u64>
    ensures { SomeIff result (end + len < 10 ^ 10) (end + len) }
{
    match end.checked_add(len as u64) {
        Some(end) if end < END_LIMIT => Some(end),
        _ => None,
    }
}

/// Appends an object: its number, and what it is.
#[tactic(auto, unfolding(crate::specs::Inner::Objects::object_text))]
pub fn push_object(text: &mut Vec<u8>, number: u64, body: &[u8]) -> Result<(), AllocError>
    ensures { OnOk result (text.new.items ≡ text.old.items ++ object_text number body.now) }
{
    push_number(text, number)?;
    text.extend_from_slice(b" 0 obj\n")?;
    text.extend_from_slice(body)?;
    text.extend_from_slice(b"\nendobj\n")
}

/// Writes a table and what is after it.
pub fn put_table<W: Write>(alloc: Global, table: &Table, writer: &mut W) -> Result<(), PaperFault>
    ensures wrote { OnOk result (Appends (W.contents writer.old) (W.contents writer.new) (table_text table.now.starts.items ++ trailer_text (length table.now.starts.items) table.now.end)) }
    ensures fits { ¬ IsErrOf result TooLong }
{
    let mut text = Vec::new(alloc);
    push_table(&mut text, &table.starts)?;
    push_trailer(&mut text, table.count(), table.end)?;
    write(writer, text.as_slice())
}

#[tactic(auto, unfolding(crate::specs::Inner::Objects::table_text))]
fn push_table(text: &mut Vec<u8>, starts: &[u64]) -> Result<(), AllocError>
    ensures { OnOk result (text.new.items ≡ text.old.items ++ table_text starts.now) }
{
    text.extend_from_slice(b"xref\n0 ")?;
    push_number(text, starts.len() as u64 + 1)?;
    text.extend_from_slice(b"\n0000000000 65535 f \n")?;
    push_entries(text, starts)
}

fn push_entries(text: &mut Vec<u8>, starts: &[u64]) -> Result<(), AllocError>
    ensures { OnOk result (text.new.items ≡ text.old.items ++ flat_map entry_text starts.now) }
{
    for start in starts {
        push_entry(text, *start)?;
    }
    Ok(())
}

/// Appends the entry of an object, by its place.
#[tactic(auto, unfolding(crate::specs::Inner::Objects::entry_text))]
fn push_entry(text: &mut Vec<u8>, start: u64) -> Result<(), AllocError>
    ensures { OnOk result (text.new.items ≡ text.old.items ++ entry_text start) }
{
    s3_cards::push_number(text, start, 10)?;
    text.extend_from_slice(b" 00000 n \n")
}

/// Appends what a reader begins with.
#[tactic(auto, unfolding(crate::specs::Inner::Objects::trailer_text))]
fn push_trailer(text: &mut Vec<u8>, count: u64, at: u64) -> Result<(), AllocError>
    requires { count + 1 < 2 ^ 64 }
    ensures { OnOk result (text.new.items ≡ text.old.items ++ trailer_text count at) }
{
    text.extend_from_slice(b"trailer\n<< /Size ")?;
    push_number(text, count + 1)?;
    text.extend_from_slice(b" /Root ")?;
    push_number(text, count.saturating_sub(1))?;
    text.extend_from_slice(b" 0 R /Info ")?;
    push_number(text, count)?;
    text.extend_from_slice(b" 0 R >>\nstartxref\n")?;
    push_number(text, at)?;
    text.extend_from_slice(b"\n%%EOF\n")?;
    Ok(())
}

/// Writes all of the bytes; refused with `PaperFault::File` if the writer fails.
pub fn write<W: Write>(writer: &mut W, bytes: &[u8]) -> Result<(), PaperFault>
    ensures wrote { OnOk result (Appends (W.contents writer.old) (W.contents writer.new) bytes.now) }
    ensures failed { OnErr result (result ≡ Err File) }
{
    match writer.write_all(bytes) {
        Ok(()) => Ok(()),
        Err(_) => Err(PaperFault::File),
    }
}
