//! Bytes of a file, across the borders of its sectors.
ghost use Rattle.std.specs.Prelude.{◌≡◌, ◌≤◌, ◌<◌, ◌+◌, ◌-◌, ◌*◌, ◌/◌, ◌%◌, length, min, OnOk, OnErr, IsTrue};
ghost use Rattle.std.specs.List.{Contains};
ghost use Rattle.s3_store.specs.Inner.State.{KeepsContents};
ghost use Rattle.s3_store.specs.Inner.State.{ChangesWithin};
ghost use Rattle.s3_store.specs.Inner.Failures.{failed_transfers};
ghost use Rattle.s3_store.specs.Bytes.{bytes_at, part};
ghost use Rattle.s3_store.specs.Inner.Bytes.{SameOutside};
ghost use Rattle.s3_files.specs.Inner.Files.{AreStored, IsReadInPart};

use crate::file_sectors::FileSectors;
use s3_store::{SectorFault, Sectors};

/// Reads bytes that lie in sector `i` of a file, from 0, and begin at byte `start` of it. A refused call changes nothing.
#[inline(always)]
pub fn read_in_sector<P: Sectors>(
    pool: &mut P,
    sectors: &FileSectors,
    i: usize,
    start: usize,
    piece: &mut [u8],
) -> Result<(), SectorFault>
    requires stored { AreStored sectors.now (P.state pool.old).contents }
    requires there { i < length sectors.now }
    requires inside { start < 256 }
    requires one { start + length piece.old ≤ 256 }
    ensures ok { OnOk result (piece.new ≡ part (bytes_at sectors.now (P.state pool.old).contents) (256 * i + start) (length piece.old)) }
    ensures err { OnErr result (piece.new ≡ piece.old) }
    ensures keeps { KeepsContents (P.state pool.old) (P.state pool.new) }
    ensures failures { (P.state pool.new).failures ≡ (P.state pool.old).failures + failed_transfers result }
{
    pool.read_part(sectors.sector_at(i), start, piece)
}

/// Reads bytes of a file that lie in one sector, from byte `at` of the file on.
#[inline(always)]
fn read_piece<P: Sectors>(
    pool: &mut P,
    sectors: &FileSectors,
    at: usize,
    piece: &mut [u8],
) -> Result<(), SectorFault>
    requires stored { AreStored sectors.now (P.state pool.old).contents }
    requires within { at < 256 * length sectors.now }
    requires one { at % 256 + length piece.old ≤ 256 }
    ensures ok { OnOk result (piece.new ≡ part (bytes_at sectors.now (P.state pool.old).contents) at (length piece.old)) }
    ensures err { OnErr result (piece.new ≡ piece.old) }
    ensures keeps { KeepsContents (P.state pool.old) (P.state pool.new) }
    ensures failures { (P.state pool.new).failures ≡ (P.state pool.old).failures + failed_transfers result }
{
    read_in_sector(pool, sectors, at / 256, at % 256, piece)
}

/// Writes bytes of a file that lie in one sector, from byte `at` of the file on.
#[inline(always)]
fn write_piece<P: Sectors>(
    pool: &mut P,
    sectors: &FileSectors,
    at: usize,
    piece: &[u8],
) -> Result<(), SectorFault>
    requires stored { AreStored sectors.now (P.state pool.old).contents }
    requires within { at < 256 * length sectors.now }
    requires one { at % 256 + length piece.now ≤ 256 }
    ensures ok { OnOk result (part (bytes_at sectors.now (P.state pool.new).contents) at (length piece.now) ≡ piece.now) }
    ensures outside { SameOutside at (length piece.now) (bytes_at sectors.now (P.state pool.old).contents) (bytes_at sectors.now (P.state pool.new).contents) }
    ensures within { ChangesWithin (Contains sectors.now) (P.state pool.old) (P.state pool.new) }
    ensures failures { (P.state pool.new).failures ≡ (P.state pool.old).failures + failed_transfers result }
{
    pool.change_sector(sectors.sector_at(at / 256), at % 256, piece)
}

/// How many of these bytes lie in the sector of the first.
fn in_one_sector(at: usize, left: usize) -> usize
    ensures sector { at % 256 + result ≤ 256 }
    ensures left { result ≤ left }
    ensures some { 0 < left → 0 < result }
{
    left.min(256 - at % 256)
}

/// Whether so many bytes, which are some, lie in the sector of the first.
fn lies_in_one_sector(at: u32, count: usize) -> bool
    ensures one { IsTrue result → at % 256 + count ≤ 256 }
    ensures some { IsTrue result → 0 < count }
{
    count.wrapping_sub(1) < 256 - at as usize % 256
}

/// Reads bytes of a file, piece by piece.
#[inline(never)]
fn read_pieces<P: Sectors>(
    pool: &mut P,
    sectors: &FileSectors,
    at: u32,
    bytes: &mut [u8],
) -> Result<(), SectorFault>
    requires stored { AreStored sectors.now (P.state pool.old).contents }
    requires within { at + length bytes.old ≤ 256 * length sectors.now }
    ensures ok { OnOk result (bytes.new ≡ part (bytes_at sectors.now (P.state pool.old).contents) at (length bytes.old)) }
    ensures partly { OnErr result (IsReadInPart (part (bytes_at sectors.now (P.state pool.old).contents) at (length bytes.old)) bytes.old bytes.new) }
    ensures keeps { KeepsContents (P.state pool.old) (P.state pool.new) }
    ensures failures { (P.state pool.new).failures ≡ (P.state pool.old).failures + failed_transfers result }
{
    let at = at as usize;
    let mut done = 0;
    while done < bytes.len() {
        let count = in_one_sector(at + done, bytes.len() - done);
        read_piece(pool, sectors, at + done, &mut bytes[done..done + count])?;
        done += count;
    }
    Ok(())
}

/// Reads the bytes of a file from byte `at` of it on, which must lie in its sectors. No sector changes. A refused call may have
/// read the first of the bytes; the others of the buffer stay.
pub fn read_bytes<P: Sectors>(
    pool: &mut P,
    sectors: &FileSectors,
    at: u32,
    bytes: &mut [u8],
) -> Result<(), SectorFault>
    requires stored { AreStored sectors.now (P.state pool.old).contents }
    requires within { at + length bytes.old ≤ 256 * length sectors.now }
    ensures ok { OnOk result (bytes.new ≡ part (bytes_at sectors.now (P.state pool.old).contents) at (length bytes.old)) }
    ensures partly { OnErr result (IsReadInPart (part (bytes_at sectors.now (P.state pool.old).contents) at (length bytes.old)) bytes.old bytes.new) }
    ensures keeps { KeepsContents (P.state pool.old) (P.state pool.new) }
    ensures failures { (P.state pool.new).failures ≡ (P.state pool.old).failures + failed_transfers result }
{
    if lies_in_one_sector(at, bytes.len()) {
        return read_piece(pool, sectors, at as usize, bytes);
    }
    read_pieces(pool, sectors, at, bytes)
}

/// Writes bytes of a file, piece by piece.
#[inline(never)]
fn write_pieces<P: Sectors>(
    pool: &mut P,
    sectors: &FileSectors,
    at: u32,
    bytes: &[u8],
) -> Result<(), SectorFault>
    requires stored { AreStored sectors.now (P.state pool.old).contents }
    requires within { at + length bytes.now ≤ 256 * length sectors.now }
    ensures ok { OnOk result (part (bytes_at sectors.now (P.state pool.new).contents) at (length bytes.now) ≡ bytes.now) }
    ensures outside { SameOutside at (length bytes.now) (bytes_at sectors.now (P.state pool.old).contents) (bytes_at sectors.now (P.state pool.new).contents) }
    ensures within { ChangesWithin (Contains sectors.now) (P.state pool.old) (P.state pool.new) }
    ensures failures { (P.state pool.new).failures ≡ (P.state pool.old).failures + failed_transfers result }
{
    let at = at as usize;
    let mut done = 0;
    while done < bytes.len() {
        let count = in_one_sector(at + done, bytes.len() - done);
        write_piece(pool, sectors, at + done, &bytes[done..done + count])?;
        done += count;
    }
    Ok(())
}

/// Writes bytes of a file over those from byte `at` of it on, which must lie in its sectors. A refused call may have written
/// some of them; no sector outside the file changes.
pub fn write_bytes<P: Sectors>(
    pool: &mut P,
    sectors: &FileSectors,
    at: u32,
    bytes: &[u8],
) -> Result<(), SectorFault>
    requires stored { AreStored sectors.now (P.state pool.old).contents }
    requires within { at + length bytes.now ≤ 256 * length sectors.now }
    ensures ok { OnOk result (part (bytes_at sectors.now (P.state pool.new).contents) at (length bytes.now) ≡ bytes.now) }
    ensures outside { SameOutside at (length bytes.now) (bytes_at sectors.now (P.state pool.old).contents) (bytes_at sectors.now (P.state pool.new).contents) }
    ensures within { ChangesWithin (Contains sectors.now) (P.state pool.old) (P.state pool.new) }
    ensures failures { (P.state pool.new).failures ≡ (P.state pool.old).failures + failed_transfers result }
{
    if lies_in_one_sector(at, bytes.len()) {
        return write_piece(pool, sectors, at as usize, bytes);
    }
    write_pieces(pool, sectors, at, bytes)
}
