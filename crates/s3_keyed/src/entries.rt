//! The entries of an index, and the keys of records.
ghost use Rattle.std.specs.Prelude.{◌≡◌, ◌≤◌, ◌<◌, ◌+◌, ◌-◌, ◌*◌, ◌^◌, ◌==◌, length, IfOk};
ghost use Rattle.s3_store.specs.Inner.Calls.{Reads};
ghost use Rattle.s3_store.specs.Bytes.{part};
ghost use Rattle.s3_slots.specs.Slots.{record_sectors};
ghost use Rattle.s3_files.specs.Inner.Files.{AreStored};
ghost use Rattle.s3_keyed.specs.KeyOrder.{number_of};
ghost use Rattle.s3_keyed.specs.Index.{entry_place, entry_at, key_of};
ghost use Rattle.s3_keyed.specs.Inner.Shape.{layout_in, bytes_in, entry_of};

use crate::index_sector::{are_same_first, have_same_first};
use crate::indexed::{IndexEntry, IndexedFile};
use crate::keys::Key;
use byteorder::{BigEndian, ByteOrder};
use s3_files::read_bytes;
use s3_store::{SectorFault, Sectors};

/// How many sectors of the file lie before its index.
pub fn sectors_before(file: &IndexedFile) -> u32
    ensures { result ≡ record_sectors file.now.file.capacity file.now.file.record_length }
{
    let records = file.file.capacity * u32::from(file.file.record_length);
    (records + 255) / 256
}

/// Where entry `i` of the index, from 0, begins in the bytes of the file.
pub fn place_of(file: &IndexedFile, i: u32) -> u32
    requires { i < file.now.file.capacity }
    ensures place { result ≡ entry_place (layout_in file.now) i }
    ensures within { result + (file.now.key_length + 4) ≤ 256 * length file.now.file.sectors }
{
    let width = u32::from(file.key_length) + 4;
    256 * (sectors_before(file) + i / file.per_sector) + i % file.per_sector * width
}

/// Reads entry `i` of the index, from 0.
pub fn read_entry<P: Sectors>(
    file: &IndexedFile,
    pool: &mut P,
    i: u32,
) -> Result<IndexEntry, SectorFault>
    requires stored { AreStored file.now.file.sectors (P.state pool.old).contents }
    requires within { i < file.now.file.capacity }
    ensures ok { IfOk result (λ entry. entry_of entry ≡ entry_at (layout_in file.now) (bytes_in file.now (P.state pool.old).contents) i) }
    ensures short { IfOk result (λ entry. number_of entry.key.bytes < 256 ^ file.now.key_length) }
    ensures reads { Reads result (P.state pool.old) (P.state pool.new) }
{
    let key_length = usize::from(file.key_length);
    let mut buffer = [0; 33];
    let bytes = &mut buffer[..key_length + 4];
    read_bytes(pool, &file.file.sectors, place_of(file, i), bytes)?;
    let key = Key::of(&bytes[..key_length]);
    let number = BigEndian::read_u32(&bytes[key_length..]);
    Ok(IndexEntry { key, number })
}

/// Reads the record number, from 1 in a good index, in entry `i` of the index, from 0.
pub fn read_number<P: Sectors>(file: &IndexedFile, pool: &mut P, i: u32) -> Result<u32, SectorFault>
    requires stored { AreStored file.now.file.sectors (P.state pool.old).contents }
    requires within { i < file.now.file.capacity }
    ensures ok { IfOk result (λ number. number ≡ (entry_at (layout_in file.now) (bytes_in file.now (P.state pool.old).contents) i).number) }
    ensures reads { Reads result (P.state pool.old) (P.state pool.new) }
{
    let mut bytes = [0; 4];
    let at = place_of(file, i) + u32::from(file.key_length);
    read_bytes(pool, &file.file.sectors, at, &mut bytes)?;
    Ok(BigEndian::read_u32(&bytes))
}

/// Where the key of the record at a place, from 0, begins in the bytes of the file.
pub fn key_place(file: &IndexedFile, i: u32) -> u32
    requires { i < file.now.file.capacity }
    ensures place { result ≡ i * file.now.file.record_length + (file.now.key_start - 1) }
    ensures within { result + file.now.key_length ≤ 256 * length file.now.file.sectors }
    ensures some { 1 ≤ file.now.key_length }
{
    i * u32::from(file.file.record_length) + u32::from(file.key_start - 1)
}

/// Reads the key of the record at a place, from 0.
pub fn read_key<P: Sectors>(file: &IndexedFile, pool: &mut P, i: u32) -> Result<Key, SectorFault>
    requires stored { AreStored file.now.file.sectors (P.state pool.old).contents }
    requires within { i < file.now.file.capacity }
    ensures ok { IfOk result (λ key. number_of key.bytes ≡ key_of (layout_in file.now).key (part (bytes_in file.now (P.state pool.old).contents) (i * file.now.file.record_length) file.now.file.record_length)) }
    ensures short { IfOk result (λ key. number_of key.bytes < 256 ^ file.now.key_length) }
    ensures reads { Reads result (P.state pool.old) (P.state pool.new) }
{
    let mut buffer = [0; 29];
    let bytes = &mut buffer[..usize::from(file.key_length)];
    read_bytes(pool, &file.file.sectors, key_place(file, i), bytes)?;
    Ok(Key::of(bytes))
}

/// Whether the record at a place, from 0, has the same key as a record of these bytes.
pub fn has_key_of<P: Sectors>(
    file: &IndexedFile,
    pool: &mut P,
    i: u32,
    bytes: &[u8],
) -> Result<bool, SectorFault>
    requires stored { AreStored file.now.file.sectors (P.state pool.old).contents }
    requires within { i < file.now.file.capacity }
    requires long { length bytes.now ≡ file.now.file.record_length }
    ensures ok { IfOk result (λ same. same ≡ (key_of (layout_in file.now).key (part (bytes_in file.now (P.state pool.old).contents) (i * file.now.file.record_length) file.now.file.record_length) == key_of (layout_in file.now).key bytes.now)) }
    ensures reads { Reads result (P.state pool.old) (P.state pool.new) }
{
    let key_length = usize::from(file.key_length);
    let start = usize::from(file.key_start - 1);
    let mut buffer = [0; 29];
    let key = &mut buffer[..key_length];
    read_bytes(pool, &file.file.sectors, key_place(file, i), key)?;
    Ok(are_same_first(key, &bytes[start..], key_length))
}

/// Whether two records, by their bytes, have the same key.
pub fn have_same_key(file: &IndexedFile, one: &[u8], other: &[u8]) -> bool
    requires one { length one.now ≡ file.now.file.record_length }
    requires other { length other.now ≡ file.now.file.record_length }
    ensures { result ≡ (key_of (layout_in file.now).key one.now == key_of (layout_in file.now).key other.now) }
{
    let key_length = usize::from(file.key_length);
    let start = usize::from(file.key_start - 1);
    have_same_first(&one[start..], &other[start..], key_length)
}
