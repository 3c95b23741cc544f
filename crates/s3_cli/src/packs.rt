//! The files of a pack, listed.

ghost use Rattle.std.specs.Prelude.{OnOk, IfErr};
ghost use Rattle.s3_listing.specs.Inner.Listing.{listing, WritesText};
ghost use Rattle.s3_cli.specs.Inner.Packs.{IsListRefusal};

use crate::fault::SessionFault;
use std::alloc::Global;
use std::io::Write;

/// Writes a line for each used slot of a pack: of the masters, of level 1 and of level 2, in slot order.
///
/// A refused call writes nothing, unless a write failed. Refused with `Run` if the pack isn't mounted or memory ran out, and with
/// `File` if the write failed.
pub fn list<W: Write>(alloc: Global, pack: &[u8], writer: &mut W) -> Result<(), SessionFault>
    ensures wrote { OnOk result (WritesText (listing pack.now) (W.contents writer.old) (W.contents writer.new)) }
    ensures refused { IfErr result (IsListRefusal (listing pack.now)) }
{
    s3_listing::list(alloc, pack, writer)?;
    Ok(())
}

/// Writes a table of a pack's regions and files, for people (docs/PACK.md, "Commands").
pub fn write_table<W: Write>(
    alloc: Global,
    pack: &[u8],
    writer: &mut W,
) -> Result<(), SessionFault> {
    s3_listing::write_table(alloc, pack, writer)?;
    Ok(())
}
