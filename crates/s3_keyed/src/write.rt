//! Records and entries written.
ghost use Rattle.std.specs.Prelude.{◌≡◌, ◌≢◌, ◌≤◌, ◌<◌, ◌+◌, ◌-◌, ◌*◌, ◌^◌, ℕ, length, OnOk, OnErr};
ghost use Rattle.s3_store.specs.Bytes.{part};
ghost use Rattle.s3_store.specs.Inner.Bytes.{SameOutside};
ghost use Rattle.s3_store.specs.Inner.Calls.{Changes, Reads};
ghost use Rattle.s3_files.specs.Inner.Files.{AreStored, IsReadInPart};
ghost use Rattle.s3_keyed.specs.KeyOrder.{number_of};
ghost use Rattle.s3_keyed.specs.Index.{entry_place, entry_at, entry_in};
ghost use Rattle.s3_keyed.specs.Inner.Shape.{layout_in, bytes_in, entry_of};

use crate::entries::place_of;
use crate::indexed::{IndexEntry, IndexedFile};
use byteorder::{BigEndian, ByteOrder};
use s3_files::{read_bytes, write_bytes};
use s3_store::{SectorFault, Sectors};

/// Where a record begins in the bytes of the file.
fn record_place(file: &IndexedFile, i: u32) -> u32
    requires { i < file.now.file.capacity }
    ensures place { result ≡ i * file.now.file.record_length }
    ensures records { result + file.now.file.record_length ≤ file.now.file.capacity * file.now.file.record_length }
    ensures within { result + file.now.file.record_length ≤ 256 * length file.now.file.sectors }
{
    i * u32::from(file.file.record_length)
}

/// Reads the record at a place, from 0.
pub fn read_record<P: Sectors>(
    file: &IndexedFile,
    pool: &mut P,
    i: u32,
    bytes: &mut [u8],
) -> Result<(), SectorFault>
    requires stored { AreStored file.now.file.sectors (P.state pool.old).contents }
    requires within { i < file.now.file.capacity }
    requires long { length bytes.old ≡ file.now.file.record_length }
    ensures ok { OnOk result (bytes.new ≡ part (bytes_in file.now (P.state pool.old).contents) (i * file.now.file.record_length) file.now.file.record_length) }
    ensures partly { OnErr result (IsReadInPart (part (bytes_in file.now (P.state pool.old).contents) (i * file.now.file.record_length) file.now.file.record_length) bytes.old bytes.new) }
    ensures reads { Reads result (P.state pool.old) (P.state pool.new) }
{
    read_bytes(pool, &file.file.sectors, record_place(file, i), bytes)
}

/// Writes a record over the one at a place, from 0.
pub fn write_record<P: Sectors>(
    file: &IndexedFile,
    pool: &mut P,
    i: u32,
    bytes: &[u8],
) -> Result<(), SectorFault>
    requires stored { AreStored file.now.file.sectors (P.state pool.old).contents }
    requires within { i < file.now.file.capacity }
    requires long { length bytes.now ≡ file.now.file.record_length }
    ensures ok { OnOk result (part (bytes_in file.now (P.state pool.new).contents) (i * file.now.file.record_length) file.now.file.record_length ≡ bytes.now) }
    ensures outside { SameOutside (i * file.now.file.record_length) file.now.file.record_length (bytes_in file.now (P.state pool.old).contents) (bytes_in file.now (P.state pool.new).contents) }
    ensures records { i * file.now.file.record_length + file.now.file.record_length ≤ file.now.file.capacity * file.now.file.record_length }
    ensures changes { Changes file.now.file.sectors result (P.state pool.old) (P.state pool.new) }
{
    write_bytes(pool, &file.file.sectors, record_place(file, i), bytes)
}

/// The bytes of an entry, whose key has so many bytes.
fn encode(entry: &IndexEntry, key_length: usize, bytes: &mut [u8])
    requires long { length bytes.old ≡ key_length + 4 }
    requires few { key_length ≤ 29 }
    requires short { number_of entry.now.key.bytes < 256 ^ key_length }
    ensures { entry_in key_length bytes.new ≡ entry_of entry.now }
{
    let (key, number) = bytes.split_at_mut(key_length);
    key.copy_from_slice(&entry.key.bytes[32 - key_length..]);
    BigEndian::write_u32(number, entry.number);
}

/// Writes an entry of the index. All others stay, and so do the records, also if the call is refused.
pub fn write_entry<P: Sectors>(
    file: &IndexedFile,
    pool: &mut P,
    i: u32,
    entry: &IndexEntry,
) -> Result<(), SectorFault>
    requires stored { AreStored file.now.file.sectors (P.state pool.old).contents }
    requires within { i < file.now.file.capacity }
    requires short { number_of entry.now.key.bytes < 256 ^ file.now.key_length }
    ensures ok { OnOk result (entry_at (layout_in file.now) (bytes_in file.now (P.state pool.new).contents) i ≡ entry_of entry.now) }
    ensures outside { SameOutside (entry_place (layout_in file.now) i) (file.now.key_length + 4) (bytes_in file.now (P.state pool.old).contents) (bytes_in file.now (P.state pool.new).contents) }
    ensures others { (j : ℕ) → j ≢ i → entry_at (layout_in file.now) (bytes_in file.now (P.state pool.new).contents) j ≡ entry_at (layout_in file.now) (bytes_in file.now (P.state pool.old).contents) j }
    ensures changes { Changes file.now.file.sectors result (P.state pool.old) (P.state pool.new) }
{
    let key_length = usize::from(file.key_length);
    let mut buffer = [0; 33];
    let bytes = &mut buffer[..key_length + 4];
    encode(entry, key_length, bytes);
    write_bytes(pool, &file.file.sectors, place_of(file, i), bytes)?;
    Ok(())
}
