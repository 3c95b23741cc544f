//! Sectors of an index, whose entries are read in place.
ghost use Rattle.std.specs.Prelude.{◌≡◌, ◌≤◌, ◌<◌, ◌+◌, ◌*◌, ◌/◌, ◌^◌, length, take, nat_lt, ◌==◌, OnOk};
ghost use Rattle.std.specs.Ordering.{nat_cmp};
ghost use Rattle.s3_store.specs.Inner.Calls.{Reads};
ghost use Rattle.s3_store.specs.Bytes.{part};
ghost use Rattle.s3_slots.specs.Slots.{entries_per_sector as entries_of, index_sectors};
ghost use Rattle.s3_files.specs.Inner.Files.{AreStored};
ghost use Rattle.s3_keyed.specs.KeyOrder.{number_of};
ghost use Rattle.s3_keyed.specs.Inner.Shape.{bytes_in, index_sector, entry_here};

use crate::entries::sectors_before;
use crate::indexed::IndexedFile;
use crate::keys::{Key, few_number};
use byteorder::{BigEndian, ByteOrder};
use s3_files::read_bytes;
use s3_store::{SectorFault, Sectors};
use std::cmp::Ordering;

/// How many entries lie in a sector of the index.
pub fn entries_per_sector(file: &IndexedFile) -> u32
    ensures result { result ≡ entries_of file.now.key_length }
    ensures some { 0 < result }
{
    file.per_sector
}

/// Reads the sector of the index at a place, from 0.
pub fn read_sector<P: Sectors>(
    file: &IndexedFile,
    pool: &mut P,
    place: u32,
    bytes: &mut [u8; 256],
) -> Result<(), SectorFault>
    requires stored { AreStored file.now.file.sectors (P.state pool.old).contents }
    requires within { place < index_sectors file.now.file.capacity file.now.key_length }
    ensures ok { OnOk result (bytes.new ≡ index_sector file.now place (bytes_in file.now (P.state pool.old).contents)) }
    ensures reads { Reads result (P.state pool.old) (P.state pool.new) }
{
    read_bytes(
        pool,
        &file.file.sectors,
        256 * (sectors_before(file) + place),
        bytes,
    )
}

/// The bytes of entry `j` of a sector, whose keys have so many bytes.
fn entry_bytes(sector: &[u8; 256], j: usize, key_length: usize) -> &[u8]
    requires short { key_length ≤ 29 }
    requires inside { j < 256 / (key_length + 4) }
    ensures { result.now ≡ part sector.now (j * (key_length + 4)) (key_length + 4) }
{
    let width = key_length + 4;
    &sector[j * width..j * width + width]
}

/// The bytes of the key of entry `j` of a sector, whose keys have so many.
pub fn key_bytes(sector: &[u8; 256], j: usize, key_length: usize) -> &[u8]
    requires short { key_length ≤ 29 }
    requires inside { j < 256 / (key_length + 4) }
{
    &entry_bytes(sector, j, key_length)[..key_length]
}

/// The number whose bytes are the first four to eight of these: the highest ones of a number of 64 bits.
pub fn number_at(bytes: &[u8], key_length: usize) -> u64
    requires long { 4 ≤ key_length }
    requires short { key_length ≤ 8 }
    requires whole { 8 ≤ length bytes.now }
    ensures { result ≡ number_of (take key_length bytes.now) }
{
    BigEndian::read_u64(bytes) >> (64 - 8 * key_length)
}

/// The key of entry `j` of a sector, which has four to eight bytes, as a number.
pub fn key_number(sector: &[u8; 256], j: usize, key_length: usize) -> u64
    requires long { 4 ≤ key_length }
    requires short { key_length ≤ 8 }
    requires inside { j < 256 / (key_length + 4) }
    ensures { result ≡ (entry_here key_length sector.now j).key }
{
    number_at(entry_bytes(sector, j, key_length), key_length)
}

/// How the key at the start of an entry, which has so many bytes, compares with another, byte by byte.
fn compare_bytes(entry: &[u8], key_length: usize, key: &Key) -> Ordering
    requires short { key_length ≤ 29 }
    requires whole { length entry.now ≡ key_length + 4 }
    requires short_key { number_of key.now.bytes < 256 ^ key_length }
    ensures { result ≡ nat_cmp (number_of (take key_length entry.now)) (number_of key.now.bytes) }
{
    entry[..key_length].cmp(&key.bytes[32 - key_length..])
}

/// How the key at the start of an entry, which has four to eight bytes, compares with another, as numbers.
fn compare_number(entry: &[u8], key_length: usize, key: &Key) -> Ordering
    requires long { 4 ≤ key_length }
    requires short { key_length ≤ 8 }
    requires whole { length entry.now ≡ key_length + 4 }
    requires short_key { number_of key.now.bytes < 256 ^ key_length }
    ensures { result ≡ nat_cmp (number_of (take key_length entry.now)) (number_of key.now.bytes) }
{
    number_at(entry, key_length).cmp(&key.short_number())
}

/// How the key at the start of an entry, which has more than eight bytes, compares with another: by the first eight bytes if
/// these differ.
fn compare_head(entry: &[u8], key_length: usize, key: &Key) -> Ordering
    requires long { 8 ≤ key_length }
    requires short { key_length ≤ 29 }
    requires whole { length entry.now ≡ key_length + 4 }
    requires short_key { number_of key.now.bytes < 256 ^ key_length }
    ensures { result ≡ nat_cmp (number_of (take key_length entry.now)) (number_of key.now.bytes) }
{
    let head = BigEndian::read_u64(entry).cmp(&BigEndian::read_u64(&key.bytes[32 - key_length..]));
    if head.is_ne() {
        return head;
    }
    compare_bytes(entry, key_length, key)
}

/// How the key of entry `j` of a sector, which has so many bytes, compares with another.
pub fn compare_entry(sector: &[u8; 256], j: usize, key_length: usize, key: &Key) -> Ordering
    requires short { key_length ≤ 29 }
    requires inside { j < 256 / (key_length + 4) }
    requires short_key { number_of key.now.bytes < 256 ^ key_length }
    ensures { result ≡ nat_cmp (entry_here key_length sector.now j).key (number_of key.now.bytes) }
{
    let entry = entry_bytes(sector, j, key_length);
    match key_length {
        0..=3 => compare_bytes(entry, key_length, key),
        4..=8 => compare_number(entry, key_length, key),
        _ => compare_head(entry, key_length, key),
    }
}

/// The key of entry `j` of a sector of the index.
pub fn key_of_entry(sector: &[u8; 256], j: usize, key_length: usize) -> Key
    requires short { key_length ≤ 29 }
    requires inside { j < 256 / (key_length + 4) }
    ensures key { number_of result.bytes ≡ (entry_here key_length sector.now j).key }
    ensures short { number_of result.bytes < 256 ^ key_length }
{
    Key::of(&entry_bytes(sector, j, key_length)[..key_length])
}

/// Whether the key of entry `j` of a sector is above another.
pub fn is_entry_above(sector: &[u8; 256], j: usize, key_length: usize, key: &Key) -> bool
    requires short { key_length ≤ 29 }
    requires inside { j < 256 / (key_length + 4) }
    requires short_key { number_of key.now.bytes < 256 ^ key_length }
    ensures { result ≡ nat_lt (number_of key.now.bytes) (entry_here key_length sector.now j).key }
{
    compare_entry(sector, j, key_length, key) == Ordering::Greater
}

/// Whether the key of entry `j` of a sector is this one.
pub fn is_key_of(sector: &[u8; 256], j: usize, key_length: usize, key: &Key) -> bool
    requires short { key_length ≤ 29 }
    requires inside { j < 256 / (key_length + 4) }
    requires short_key { number_of key.now.bytes < 256 ^ key_length }
    ensures { result ≡ (number_of key.now.bytes == (entry_here key_length sector.now j).key) }
{
    compare_entry(sector, j, key_length, key) == Ordering::Equal
}

/// How two texts of 12 to 16 bytes compare: by the first eight bytes, and then by the others.
fn compare_words(one: &[u8], other: &[u8]) -> Ordering
    requires same { length one.now ≡ length other.now }
    requires long { 12 ≤ length one.now }
    requires short { length one.now ≤ 16 }
    ensures { result ≡ nat_cmp (number_of one.now) (number_of other.now) }
{
    let head = BigEndian::read_u64(one).cmp(&BigEndian::read_u64(other));
    head.then(few_number(&one[8..]).cmp(&few_number(&other[8..])))
}

/// How the first `count` bytes of one text compare with those of another.
fn compare_first(one: &[u8], other: &[u8], count: usize) -> Ordering
    requires one { count ≤ length one.now }
    requires other { count ≤ length other.now }
    ensures { result ≡ nat_cmp (number_of (take count one.now)) (number_of (take count other.now)) }
{
    match count {
        12..=16 => compare_words(&one[..count], &other[..count]),
        _ => one[..count].cmp(&other[..count]),
    }
}

/// Whether two texts begin with the same `count` bytes.
pub fn are_same_first(one: &[u8], other: &[u8], count: usize) -> bool
    requires one { count ≤ length one.now }
    requires other { count ≤ length other.now }
    ensures { result ≡ (number_of (take count one.now) == number_of (take count other.now)) }
{
    compare_first(other, one, count) == Ordering::Equal
}

/// Whether two texts begin with the same `count` bytes, by numbers if `count` is four to eight and both texts have eight bytes.
pub fn have_same_first(one: &[u8], other: &[u8], count: usize) -> bool
    requires one { count ≤ length one.now }
    requires other { count ≤ length other.now }
    ensures { result ≡ (number_of (take count one.now) == number_of (take count other.now)) }
{
    match count {
        4..=8 if one.len() >= 8 && other.len() >= 8 => {
            number_at(one, count) == number_at(other, count)
        }
        _ => are_same_first(one, other, count),
    }
}

/// Whether the key of entry `j` of a sector, which has so many bytes, is the one at the start of these.
fn is_key_in(sector: &[u8; 256], j: usize, key_length: usize, bytes: &[u8]) -> bool
    requires short { key_length ≤ 29 }
    requires inside { j < 256 / (key_length + 4) }
    requires whole { key_length ≤ length bytes.now }
    ensures { result ≡ (number_of (take key_length bytes.now) == (entry_here key_length sector.now j).key) }
{
    are_same_first(bytes, entry_bytes(sector, j, key_length), key_length)
}

/// Whether the key of entry `j` of a sector, which has so many bytes, is the one at a place in another sector.
pub fn is_key_at(
    sector: &[u8; 256],
    j: usize,
    key_length: usize,
    other: &[u8; 256],
    start: usize,
) -> bool
    requires short { key_length ≤ 29 }
    requires inside { j < 256 / (key_length + 4) }
    requires whole { start + key_length ≤ 256 }
    ensures { result ≡ (number_of (part other.now start key_length) == (entry_here key_length sector.now j).key) }
{
    let bytes = &other[start..];
    match key_length {
        4..=8 if bytes.len() >= 8 => {
            key_number(sector, j, key_length) == number_at(bytes, key_length)
        }
        _ => is_key_in(sector, j, key_length, bytes),
    }
}

/// The record number, from 1 in a good index, in entry `j` of a sector of the index.
pub fn number_in(sector: &[u8; 256], j: usize, key_length: usize) -> u32
    requires short { key_length ≤ 29 }
    requires inside { j < 256 / (key_length + 4) }
    ensures { result ≡ (entry_here key_length sector.now j).number }
{
    BigEndian::read_u32(&entry_bytes(sector, j, key_length)[key_length..])
}
