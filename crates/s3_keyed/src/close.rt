//! The added entries merged into the index.
ghost use Rattle.std.specs.Prelude.{◌≡◌, ◌≤◌, ◌<◌, ◌+◌, ◌-◌, ◌^◌, ℕ, true, length, OnOk, IfOk, MatchOption};
ghost use Rattle.std.specs.List.{All};
ghost use Rattle.s3_store.specs.Inner.Calls.{Changes, Reads};
ghost use Rattle.s3_files.specs.Inner.Files.{AreStored};
ghost use Rattle.s3_files.specs.Records.{records_in};
ghost use Rattle.s3_keyed.specs.KeyOrder.{number_of, insert_entries, ascends, keys_in};
ghost use Rattle.s3_keyed.specs.Inner.KeyOrder.{IsAscending};
ghost use Rattle.s3_keyed.specs.Index.{entry_at, index_in};
ghost use Rattle.s3_keyed.specs.Inner.Shape.{layout_in, bytes_in, entry_of};
ghost use Rattle.s3_keyed.specs.Inner.Added.{entries_of};
ghost use Rattle.s3_keyed.specs.Inner.Unused.{KeepsUnused};

use crate::added::AddedEntries;
use crate::entries::read_entry;
use crate::indexed::{IndexEntry, IndexedFile};
use crate::keys::Key;
use crate::write::write_entry;
use s3_store::{SectorFault, Sectors};

/// The last of the first so many entries of the index, if its key is above this one.
fn last_above<P: Sectors>(
    file: &IndexedFile,
    pool: &mut P,
    entries: u32,
    key: &Key,
) -> Result<Option<IndexEntry>, SectorFault>
    requires stored { AreStored file.now.file.sectors (P.state pool.old).contents }
    requires few { entries ≤ file.now.file.capacity }
    ensures last { IfOk result (λ last. MatchOption last
        (0 < entries → (entry_at (layout_in file.now) (bytes_in file.now (P.state pool.old).contents) (entries - 1)).key ≤ number_of key.now.bytes)
        (λ entry. (0 < entries) × (entry_of entry ≡ entry_at (layout_in file.now) (bytes_in file.now (P.state pool.old).contents) (entries - 1)) × (number_of key.now.bytes < number_of entry.key.bytes) × (number_of entry.key.bytes < 256 ^ file.now.key_length))) }
    ensures reads { Reads result (P.state pool.old) (P.state pool.new) }
{
    if entries == 0 {
        return Ok(None);
    }
    let last = read_entry(file, pool, entries - 1)?;
    if last.key.is_above(key) {
        return Ok(Some(last));
    }
    Ok(None)
}

/// Merges entries, in the order of their keys, into the first so many entries of the index, from the highest down and in place.
/// The records stay as they were, also if the call is refused.
pub fn merge<P: Sectors>(
    file: &IndexedFile,
    pool: &mut P,
    indexed: u32,
    added: &mut AddedEntries,
) -> Result<(), SectorFault>
    requires stored { AreStored file.now.file.sectors (P.state pool.old).contents }
    requires room { indexed + length (entries_of added.old) ≤ file.now.file.capacity }
    requires ascending { IsAscending (entry_at (layout_in file.now) (bytes_in file.now (P.state pool.old).contents)) indexed }
    requires added_ascends { ascends (keys_in (entries_of added.old)) ≡ true }
    requires short { All (λ entry. entry.key < 256 ^ file.now.key_length) (entries_of added.old) }
    ensures merged { OnOk result (index_in (layout_in file.now) (indexed + length (entries_of added.old)) (bytes_in file.now (P.state pool.new).contents) ≡ insert_entries (index_in (layout_in file.now) indexed (bytes_in file.now (P.state pool.old).contents)) (entries_of added.old)) }
    ensures records { (count : ℕ) → count ≤ file.now.file.capacity → records_in file.now.file.record_length count (bytes_in file.now (P.state pool.new).contents) ≡ records_in file.now.file.record_length count (bytes_in file.now (P.state pool.old).contents) }
    ensures unused { KeepsUnused (layout_in file.now) (indexed + length (entries_of added.old)) (bytes_in file.now (P.state pool.old).contents) (bytes_in file.now (P.state pool.new).contents) }
    ensures changes { Changes file.now.file.sectors result (P.state pool.old) (P.state pool.new) }
{
    let mut left = indexed;
    'highest: while let Some(top) = added.last() {
        let above = added.len() - 1;
        if let Some(last) = last_above(file, pool, left, &top.key)? {
            write_entry(file, pool, left + above as u32, &last)?;
            left -= 1;
        } else {
            write_entry(file, pool, left + above as u32, &top)?;
            added.remove_last();
        }
    }
    Ok(())
}
