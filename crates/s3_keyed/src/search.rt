//! An entry found by its key.
ghost use Rattle.std.specs.Prelude.{◌≡◌, ◌≢◌, ◌≤◌, ◌<◌, ◌+◌, ◌*◌, ◌%◌, ◌^◌, ℕ, true, nat_lt, length, OnOk, IfOk, IfSome, MatchOption};
ghost use Rattle.std.specs.List.{list_all};
ghost use Rattle.s3_store.specs.Inner.Calls.{Reads};
ghost use Rattle.s3_files.specs.Inner.Files.{AreStored};
ghost use Rattle.s3_keyed.specs.KeyOrder.{number_of, ascends, keys_in};
ghost use Rattle.s3_keyed.specs.Inner.KeyOrder.{IsAscending};
ghost use Rattle.s3_store.specs.Bytes.{part};
ghost use Rattle.s3_keyed.specs.Index.{entry_at, entry_place, index_in};
ghost use Rattle.s3_keyed.specs.Inner.Shape.{layout_in, bytes_in};

use crate::entries::{read_entry, sectors_before};
use crate::guide::STEP;
use crate::index_sector::{entries_per_sector, read_sector};
use crate::indexed::IndexedFile;
use crate::keys::Key;
use crate::sector_search::{Standing, find_entry, number_with};
use s3_files::read_in_sector;
use s3_store::{SectorFault, Sectors};

/// The most bytes of the entries that are read at once, if keys have four to eight bytes.
const STEP_BYTES: usize = 48;

/// How many entries are looked at from this one on: those of its sector, but few.
fn entries_looked_at(per_sector: u32, entries: u32, first: u32) -> usize
    requires some { 0 < per_sector }
    requires within { first < entries }
    ensures sector { first % per_sector + result ≤ per_sector }
    ensures few { result ≤ 4 }
    ensures within { first + result ≤ entries }
{
    STEP.min(per_sector - first % per_sector)
        .min(entries - first) as usize
}

/// Reads bytes of entries of one sector of the index, from this entry on.
fn read_entries<P: Sectors>(
    file: &IndexedFile,
    pool: &mut P,
    first: u32,
    bytes: &mut [u8],
) -> Result<(), SectorFault>
    requires stored { AreStored file.now.file.sectors (P.state pool.old).contents }
    requires within { first < file.now.file.capacity }
    requires inside { first % file.now.per_sector * (file.now.key_length + 4) + length bytes.old ≤ 256 }
    ensures ok { OnOk result (bytes.new ≡ part (bytes_in file.now (P.state pool.old).contents) (entry_place (layout_in file.now) first) (length bytes.old)) }
    ensures reads { Reads result (P.state pool.old) (P.state pool.new) }
{
    let sector = sectors_before(file) + first / file.per_sector;
    let start = first % file.per_sector * (u32::from(file.key_length) + 4);
    read_in_sector(
        pool,
        &file.file.sectors,
        sector as usize,
        start as usize,
        bytes,
    )
}

/// The number of the record with a key of four to eight bytes among the first so many entries of the index, if this entry or one
/// of the few after it has the key.
pub fn search_from<P: Sectors>(
    file: &IndexedFile,
    pool: &mut P,
    entries: u32,
    key: u64,
    first: u32,
) -> Result<Option<u32>, SectorFault>
    requires stored { AreStored file.now.file.sectors (P.state pool.old).contents }
    requires few { entries ≤ file.now.file.capacity }
    requires long { 4 ≤ file.now.key_length }
    requires short { file.now.key_length ≤ 8 }
    ensures found { IfOk result (λ found. IfSome found (λ number. (i : ℕ) × (i < entries) × (entry_at (layout_in file.now) (bytes_in file.now (P.state pool.old).contents) i ≡ record { key = key; number = number }))) }
    ensures reads { Reads result (P.state pool.old) (P.state pool.new) }
{
    if first >= entries {
        return Ok(None);
    }
    let key_length = usize::from(file.key_length);
    let count = entries_looked_at(entries_per_sector(file), entries, first);
    let mut room = [0; STEP_BYTES];
    let bytes = &mut room[..count * (key_length + 4)];
    read_entries(file, pool, first, bytes)?;
    Ok(number_with(bytes, count, key_length, key))
}

/// The sector that is searched next, among those from `low` up to but without `high`: first the sector of the hint, then the
/// sector after it, and then the one in the middle.
fn next_of(low: u32, high: u32, guess: u32) -> u32
    requires some { low < high }
    ensures from { low ≤ result }
    ensures below { result < high }
{
    if low <= guess && guess < high {
        return guess;
    }
    if low == guess.saturating_add(1) {
        return low;
    }
    low + (high - low) / 2
}

/// The number of the record with a key among the first so many entries of the index. A binary search finds the sector, and
/// another one the entry in it. If the hint is the right sector, no other is read.
pub fn search_index<P: Sectors>(
    file: &IndexedFile,
    pool: &mut P,
    entries: u32,
    key: &Key,
    guess: u32,
) -> Result<Option<u32>, SectorFault>
    requires stored { AreStored file.now.file.sectors (P.state pool.old).contents }
    requires few { entries ≤ file.now.file.capacity }
    requires short { number_of key.now.bytes < 256 ^ file.now.key_length }
    requires ascending { IsAscending (entry_at (layout_in file.now) (bytes_in file.now (P.state pool.old).contents)) entries }
    ensures found { IfOk result (λ found. MatchOption found
        ((i : ℕ) → i < entries → (entry_at (layout_in file.now) (bytes_in file.now (P.state pool.old).contents) i).key ≢ number_of key.now.bytes)
        (λ number. (i : ℕ) × (i < entries) × (entry_at (layout_in file.now) (bytes_in file.now (P.state pool.old).contents) i ≡ record { key = number_of key.now.bytes; number = number }))) }
    ensures reads { Reads result (P.state pool.old) (P.state pool.new) }
{
    let per_sector = entries_per_sector(file);
    let key_length = usize::from(file.key_length);
    let mut sector = [0; 256];
    let mut low = 0;
    let mut high = entries.div_ceil(per_sector);
    'halve: while low < high {
        let place = next_of(low, high, guess);
        read_sector(file, pool, place, &mut sector)?;
        let count = per_sector.min(entries - place * per_sector) as usize;
        match find_entry(&sector, count, key_length, key) {
            Standing::Before => high = place,
            Standing::Within(found) => return Ok(found),
            Standing::Behind => low = place + 1,
        }
    }
    Ok(None)
}

/// Whether a key is above those of the first so many entries of the index.
pub fn is_above_index<P: Sectors>(
    file: &IndexedFile,
    pool: &mut P,
    entries: u32,
    key: &Key,
) -> Result<bool, SectorFault>
    requires stored { AreStored file.now.file.sectors (P.state pool.old).contents }
    requires few { entries ≤ file.now.file.capacity }
    requires ascending { ascends (keys_in (index_in (layout_in file.now) entries (bytes_in file.now (P.state pool.old).contents))) ≡ true }
    ensures above { IfOk result (λ above. list_all (λ other. nat_lt other (number_of key.now.bytes)) (keys_in (index_in (layout_in file.now) entries (bytes_in file.now (P.state pool.old).contents))) ≡ above) }
    ensures reads { Reads result (P.state pool.old) (P.state pool.new) }
{
    if entries == 0 {
        return Ok(true);
    }
    let last = read_entry(file, pool, entries - 1)?;
    Ok(key.is_above(&last.key))
}
