//! Whether an index is the key order of the records.
ghost use Rattle.std.specs.Prelude.{◌≡◌, ◌≤◌, ◌<◌, ◌+◌, ◌*◌, ◌/◌, ◌^◌, ◌-◌, min, IfOk, OnOk, MatchBool};
ghost use Rattle.s3_store.specs.Inner.Calls.{Reads};
ghost use Rattle.s3_files.specs.Inner.Files.{AreStored};
ghost use Rattle.s3_keyed.specs.KeyOrder.{number_of, is_good_index};
ghost use Rattle.s3_keyed.specs.Inner.KeyOrder.{IsAscending};
ghost use Rattle.s3_keyed.specs.Index.{index_in};
ghost use Rattle.s3_keyed.specs.Inner.Shape.{layout_in, bytes_in, keys_on, entry_here};
ghost use Rattle.s3_keyed.specs.Inner.Checking.{GoesOn, IsGoodSector};
ghost use Rattle.s3_store.specs.Bytes.{part};

use crate::guide::Guide;
use crate::index_sector::{
    entries_per_sector, is_entry_above, key_number, key_of_entry, read_sector,
};
use crate::indexed::IndexedFile;
use crate::keys::Key;
use crate::record_sector::RecordSector;
use s3_store::{SectorFault, Sectors};

/// Whether the keys of the first so many entries of a sector, which have four to eight bytes, ascend.
fn numbers_ascend(sector: &[u8; 256], entries: usize, key_length: usize) -> bool
    requires long { 4 ≤ key_length }
    requires short { key_length ≤ 8 }
    requires some { 0 < entries }
    requires inside { entries ≤ 256 / (key_length + 4) }
    ensures { MatchBool result (IsAscending (entry_here key_length sector.now) entries) (IsAscending (entry_here key_length sector.now) entries → ⊥) }
{
    let mut last = key_number(sector, 0, key_length);
    for j in 1..entries {
        let key = key_number(sector, j, key_length);
        if key <= last {
            return false;
        }
        last = key;
    }
    true
}

/// Whether the keys of the first so many entries of a sector, of any length, ascend.
fn keys_ascend(sector: &[u8; 256], entries: usize, key_length: usize) -> bool
    requires short { key_length ≤ 29 }
    requires some { 0 < entries }
    requires inside { entries ≤ 256 / (key_length + 4) }
    ensures { MatchBool result (IsAscending (entry_here key_length sector.now) entries) (IsAscending (entry_here key_length sector.now) entries → ⊥) }
{
    let mut last = key_of_entry(sector, 0, key_length);
    for j in 1..entries {
        if !is_entry_above(sector, j, key_length, &last) {
            return false;
        }
        last = key_of_entry(sector, j, key_length);
    }
    true
}

/// Whether the keys of the first so many entries of a sector ascend, by numbers if they have four to eight bytes.
fn ascend(sector: &[u8; 256], entries: usize, key_length: usize) -> bool
    requires short { key_length ≤ 29 }
    requires some { 0 < entries }
    requires inside { entries ≤ 256 / (key_length + 4) }
    ensures { MatchBool result (IsAscending (entry_here key_length sector.now) entries) (IsAscending (entry_here key_length sector.now) entries → ⊥) }
{
    match key_length {
        4..=8 => numbers_ascend(sector, entries, key_length),
        _ => keys_ascend(sector, entries, key_length),
    }
}

/// Whether the first key of a sector of the index is above the last one of the sector before it.
fn follows(place: u32, sector: &[u8; 256], key_length: usize, last: &Key) -> bool
    requires short { key_length ≤ 29 }
    requires short_key { number_of last.now.bytes < 256 ^ key_length }
    ensures { MatchBool result (0 < place → number_of last.now.bytes < (entry_here key_length sector.now 0).key) ((0 < place) × ((entry_here key_length sector.now 0).key ≤ number_of last.now.bytes)) }
{
    place == 0 || is_entry_above(sector, 0, key_length, last)
}

/// Whether the first so many entries of a sector of the index ascend, and are above the key before them.
fn goes_on(place: u32, sector: &[u8; 256], entries: usize, key_length: usize, last: &Key) -> bool
    requires short { key_length ≤ 29 }
    requires some { 0 < entries }
    requires inside { entries ≤ 256 / (key_length + 4) }
    requires short_key { number_of last.now.bytes < 256 ^ key_length }
    ensures { MatchBool result (GoesOn place (number_of last.now.bytes) (entry_here key_length sector.now) entries) (GoesOn place (number_of last.now.bytes) (entry_here key_length sector.now) entries → ⊥) }
{
    follows(place, sector, key_length, last) && ascend(sector, entries, key_length)
}

/// Whether the first so many entries of a sector of the index ascend, are above the key before them, and have the keys of their
/// records.
fn is_sector_good<P: Sectors>(
    file: &IndexedFile,
    pool: &mut P,
    records: &mut RecordSector,
    place: u32,
    sector: &[u8; 256],
    entries: usize,
    last: &Key,
) -> Result<bool, SectorFault>
    requires stored { AreStored file.now.file.sectors (P.state pool.old).contents }
    requires some { 0 < entries }
    requires inside { entries ≤ 256 / (file.now.key_length + 4) }
    requires short_key { number_of last.now.bytes < 256 ^ file.now.key_length }
    requires here { records.old.bytes ≡ part (bytes_in file.now (P.state pool.old).contents) (256 * records.old.place) 256 }
    ensures good { IfOk result (λ good. MatchBool good
        (IsGoodSector (keys_on file.now (P.state pool.old).contents) place (number_of last.now.bytes) (entry_here file.now.key_length sector.now) entries)
        (IsGoodSector (keys_on file.now (P.state pool.old).contents) place (number_of last.now.bytes) (entry_here file.now.key_length sector.now) entries → ⊥)) }
    ensures here { OnOk result (records.new.bytes ≡ part (bytes_in file.now (P.state pool.old).contents) (256 * records.new.place) 256) }
    ensures reads { Reads result (P.state pool.old) (P.state pool.new) }
{
    if !goes_on(place, sector, entries, usize::from(file.key_length), last) {
        return Ok(false);
    }
    records.have_keys(file, pool, sector, entries)
}

/// How many of so many entries lie in the sector at a place, which begins with one of them.
fn entries_in(count: u32, per_sector: u32, place: u32) -> usize
    requires { place * per_sector < count }
    ensures { result ≡ min per_sector (count - place * per_sector) }
{
    per_sector.min(count - place * per_sector) as usize
}

/// Whether the index is good for the records, in one pass over its sectors. Keys of each are noted in `guide`.
pub fn is_good<P: Sectors>(
    file: &IndexedFile,
    pool: &mut P,
    guide: &mut Guide,
) -> Result<bool, SectorFault>
    requires stored { AreStored file.now.file.sectors (P.state pool.old).contents }
    ensures good { IfOk result (λ good. is_good_index (index_in (layout_in file.now) file.now.file.count (bytes_in file.now (P.state pool.old).contents)) (keys_on file.now (P.state pool.old).contents) ≡ good) }
    ensures reads { Reads result (P.state pool.old) (P.state pool.new) }
{
    let count = file.file.count;
    if count == 0 {
        return Ok(true);
    }
    let per_sector = entries_per_sector(file);
    let key_length = usize::from(file.key_length);
    let mut records = RecordSector::blank();
    records.read(file, pool, 0)?;
    let mut sector = [0; 256];
    let mut last = Key::of(&[]);
    for place in 0..count.div_ceil(per_sector) {
        read_sector(file, pool, place, &mut sector)?;
        let entries = entries_in(count, per_sector, place);
        if !is_sector_good(file, pool, &mut records, place, &sector, entries, &last)? {
            return Ok(false);
        }
        guide.note(&sector, entries, file.key_length, place * per_sector)?;
        last = key_of_entry(&sector, entries - 1, key_length);
    }
    Ok(true)
}
