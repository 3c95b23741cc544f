//! The records of a file beside their keys.
ghost use Rattle.std.specs.Prelude.{◌≡◌, ◌<◌, length, map, slice_get, slice_set, Some, OnOk, IfOk, IfErr, true};
ghost use Rattle.std.specs.List.{All};
ghost use Rattle.s3_files.specs.Inner.Files.{AreStored, records};
ghost use Rattle.s3_pack_care.specs.Inner.Keys.{fits};
ghost use Rattle.s3_pack_care.specs.Inner.Rows.{ChangesSectors, IsKeyed, KeepsTail, shape_of};

use crate::fields::SortField;
use crate::keys::key_of;
use crate::sort_fault::SortFault;
use s3_files::{RecordFile, Sequential};
use s3_store::MemoryStore;
use std::alloc::Global;
use std::cmp::Ordering;

/// A record beside its key, by which it is compared.
#[derive(Drop)]
pub struct Row {
    /// The key.
    pub key: Vec<u64>,
    /// The record.
    pub bytes: Vec<u8>,
}

impl PartialEq for Row {
    ghost use Rattle.std.specs.Bool.{◌==◌};
    ghost use Rattle.std.proofs.Common.{rules};
    ghost use Rattle.std.specs.Cmp.{partial_equiv_from_equiv};
    ghost use Rattle.std.specs.Cmp.Lexicographic.{pointwise};
    ghost use Rattle.std.specs.Cmp.Rules.{comparing};
    ghost use Rattle.std.specs.Ordering.{on};

    ghost eq = { on (λ r. r.key.items) (pointwise ◌==◌) };

    ghost laws = { partial_equiv_from_equiv (Prim.search (comparing, rules)) };

    fn eq(&self, other: &Row) -> bool {
        self.key == other.key
    }
}

impl Eq for Row {
    ghost use Rattle.std.proofs.Common.{rules};
    ghost use Rattle.std.specs.Cmp.Rules.{comparing};

    ghost laws = { Prim.search (comparing, rules) };
}

impl PartialOrd for Row {
    ghost use Rattle.std.proofs.Common.{rules};
    ghost use Rattle.std.specs.Cmp.{partial_order_from_own_ties};
    ghost use Rattle.std.specs.Cmp.Lexicographic.{slice_cmp};
    ghost use Rattle.std.specs.Cmp.Rules.{comparing};
    ghost use Rattle.std.specs.Ordering.{as_partial_cmp, nat_cmp, on};

    ghost partial_cmp = { as_partial_cmp (on (λ r. r.key.items) (slice_cmp nat_cmp)) };

    ghost laws = { partial_order_from_own_ties (Prim.search (comparing, rules)) (Prim.search (comparing, rules)) };

    fn partial_cmp(&self, other: &Row) -> Option<Ordering> {
        Some(self.cmp(other))
    }
}

impl Ord for Row {
    ghost use Rattle.std.proofs.Common.{rules};
    ghost use Rattle.std.specs.Cmp.Lexicographic.{slice_cmp};
    ghost use Rattle.std.specs.Cmp.Rules.{comparing};
    ghost use Rattle.std.specs.Ordering.{nat_cmp, on};

    ghost cmp = { on (λ r. r.key.items) (slice_cmp nat_cmp) };

    ghost total = { Prim.search (comparing, rules) };

    ghost matches_partial_cmp = { Prim.search (comparing, rules) };

    ghost matches_eq = { Prim.search (comparing, rules) };

    fn cmp(&self, other: &Row) -> Ordering {
        self.key.cmp(&other.key)
    }
}

/// Record `i` of a file with its key.
fn row_at(
    alloc: Global,
    store: &mut MemoryStore,
    file: &Sequential,
    i: u32,
    fields: &[SortField],
) -> Result<Row, SortFault>
    requires stored { AreStored file.now.sectors store.old }
    requires fields { All (λ field. fits field file.now.record_length ≡ true) fields.now }
    ensures bytes { IfOk result (λ row. slice_get (records (shape_of file.now) store.old) i ≡ Some row.bytes.items) }
    ensures long { IfOk result (λ row. length row.bytes.items ≡ file.now.record_length) }
    ensures key { IfOk result (IsKeyed fields.now) }
    ensures keeps { store.new ≡ store.old }
    ensures fault { IfErr result (λ fault. fault ≡ SortFault.NoMemory) }
{
    let mut bytes = vec![in alloc; 0; usize::from(file.record_length)]?;
    // a store in memory never fails
    if let Err(_fault) = file.get(store, i, &mut bytes) {
        return Err(SortFault::NoMemory);
    }
    let key = key_of(alloc, fields, &bytes)?;
    Ok(Row { key, bytes })
}

/// The records of a file beside their keys.
#[tactic(auto, using(crate::proofs::RowLemmas::rows_more, crate::proofs::RowLemmas::rows_all, s3_files::proofs::RecordLemmas::length_records))]
pub fn rows_of(
    alloc: Global,
    store: &mut MemoryStore,
    file: &Sequential,
    fields: &[SortField],
) -> Result<Vec<Row>, SortFault>
    requires stored { AreStored file.now.sectors store.old }
    requires fields { All (λ field. fits field file.now.record_length ≡ true) fields.now }
    ensures records { IfOk result (λ rows. map (λ row. row.bytes.items) rows.items ≡ records (shape_of file.now) store.old) }
    ensures long { IfOk result (λ rows. All (λ row. length row.bytes.items ≡ file.now.record_length) rows.items) }
    ensures keys { IfOk result (λ rows. All (IsKeyed fields.now) rows.items) }
    ensures keeps { store.new ≡ store.old }
    ensures fault { IfErr result (λ fault. fault ≡ SortFault.NoMemory) }
{
    let mut rows = Vec::with_capacity(alloc, file.len() as usize)?;
    for i in 0..file.len() {
        rows.push(row_at(alloc, store, file, i, fields)?)?;
    }
    Ok(rows)
}

/// Writes a record over record `i` of a file.
fn put_row(store: &mut MemoryStore, file: &Sequential, i: u32, row: &Row) -> Result<(), SortFault>
    requires stored { AreStored file.now.sectors store.old }
    requires long { length row.now.bytes.items ≡ file.now.record_length }
    requires there { i < file.now.count }
    ensures tail { KeepsTail (shape_of file.now) store.old store.new }
    ensures ok { OnOk result (records (shape_of file.now) store.new ≡ slice_set (records (shape_of file.now) store.old) i row.now.bytes.items) }
    ensures count { length store.new ≡ length store.old }
    ensures others { ChangesSectors file.now.sectors store.old store.new }
    ensures fault { IfErr result (λ fault. fault ≡ SortFault.NoMemory) }
{
    match file.put(store, i, &row.bytes) {
        Ok(()) => Ok(()),
        // a store in memory never fails
        Err(_) => Err(SortFault::NoMemory),
    }
}

/// Row `i`.
fn row_of(rows: &[Row], i: u32) -> &Row
    requires { i < length rows.now }
    ensures { slice_get rows.now i ≡ Some result.now }
{
    &rows[i as usize]
}

/// Writes records over those of a file, one for each.
pub fn write_rows(store: &mut MemoryStore, file: &Sequential, rows: &[Row]) -> Result<(), SortFault>
    requires stored { AreStored file.now.sectors store.old }
    requires long { All (λ row. length row.bytes.items ≡ file.now.record_length) rows.now }
    requires many { length rows.now ≡ file.now.count }
    ensures tail { KeepsTail (shape_of file.now) store.old store.new }
    ensures ok { OnOk result (records (shape_of file.now) store.new ≡ map (λ row. row.bytes.items) rows.now) }
    ensures count { length store.new ≡ length store.old }
    ensures others { ChangesSectors file.now.sectors store.old store.new }
    ensures fault { IfErr result (λ fault. fault ≡ SortFault.NoMemory) }
{
    for i in 0..file.len() {
        put_row(store, file, i, row_of(rows, i))?;
    }
    Ok(())
}
