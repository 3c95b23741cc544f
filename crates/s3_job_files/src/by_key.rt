//! Requests to the records of a file with an index.
ghost use Rattle.std.specs.Prelude.{◌≡◌, length, slice_get, take, is_some, true, IfOk, IfSome, OnOk};
ghost use Rattle.s3_store.specs.Bytes.{bytes_at};
ghost use Rattle.s3_slots.specs.Labels.{sectors_of};
ghost use Rattle.s3_files.specs.Inner.Files.{AreStored, HasRoom};
ghost use Rattle.s3_keyed.specs.Inner.Index.{HasIndex, keys_at};
ghost use Rattle.s3_keyed.specs.Index.{index_in, layout_of};
ghost use Rattle.s3_keyed.specs.KeyOrder.{is_good_index, number_of};
ghost use Rattle.s3_keyed.specs.Inner.Keyed.{opened_of, shown, bytes_now, records_now, keys_now, HasKeyOrder, IsSameFile};
ghost use Rattle.s3_keyed.specs.Calls.{place_of_key, nth_by_key, with_added, with_loaded, with_updated};
ghost use Rattle.s3_job_files.specs.Records.{by_key, halt_for_key};
ghost use Rattle.s3_store.specs.Inner.Calls.{Changes, Reads};
ghost use Rattle.s3_job_files.specs.Inner.Calls.{found_record, Puts};
ghost use Rattle.s3_job_files.specs.Inner.Refusals.{pool_refusal};

use crate::records::Put;
use s3_keyed::{Keyed, KeyedFault};
use s3_operator::HaltCode;
use s3_slots::FileLabel;
use s3_store::{SectorFault, Sectors};
use std::alloc::Global;

/// Hands on a fault of the sectors; any other fault is for the caller.
fn pass_on(fault: KeyedFault) -> Result<(), SectorFault>
    ensures { result ≡ pool_refusal fault }
{
    match fault {
        KeyedFault::Pool(fault) => Err(fault),
        KeyedFault::NoKey
        | KeyedFault::Duplicate
        | KeyedFault::Full
        | KeyedFault::KeyChanged
        | KeyedFault::BadIndex
        | KeyedFault::NotAscending => Ok(()),
    }
}

/// What a refusal of a file with keys halts for.
fn halt_for(fault: KeyedFault) -> HaltCode
    ensures { result ≡ halt_for_key fault }
{
    match fault {
        KeyedFault::Duplicate => HaltCode::DuplicateKey,
        KeyedFault::NotAscending => HaltCode::KeyNotAscending,
        KeyedFault::KeyChanged => HaltCode::KeyChanged,
        KeyedFault::Full => HaltCode::FileFull,
        KeyedFault::NoKey | KeyedFault::BadIndex | KeyedFault::Pool(_) => HaltCode::NothingToUpdate,
    }
}

/// Opens the indexed file that a label describes, unless its index isn't good.
#[tactic(auto, using(crate::proofs::Keys::is_good, crate::proofs::Keys::is_not_good))]
pub fn check<P: Sectors>(
    alloc: Global,
    pool: &mut P,
    label: &FileLabel,
) -> Result<Option<Keyed>, SectorFault>
    requires room { HasRoom label.now }
    requires index { HasIndex label.now }
    requires stored { AreStored (sectors_of label.now) (P.state pool.old).contents }
    ensures good { IfOk result (λ checked. is_good_index (index_in (layout_of label.now) label.now.count (bytes_at (sectors_of label.now) (P.state pool.old).contents)) (keys_at (layout_of label.now) label.now.count (bytes_at (sectors_of label.now) (P.state pool.old).contents)) ≡ is_some checked) }
    ensures opened { IfOk result (λ checked. IfSome checked (λ file. shown file ≡ opened_of (sectors_of label.now) (layout_of label.now) label.now.count)) }
    ensures ordered { IfOk result (λ checked. IfSome checked (λ file. HasKeyOrder (shown file) (P.state pool.old).contents)) }
    ensures reads { Reads result (P.state pool.old) (P.state pool.new) }
{
    match Keyed::check(alloc, pool, label) {
        Ok(file) => Ok(Some(file)),
        Err(fault) => {
            pass_on(fault)?;
            Ok(None)
        }
    }
}

/// Reads the record at a place, from 0, and answers whether there is one.
pub fn get<P: Sectors>(
    file: &Keyed,
    pool: &mut P,
    i: u32,
    bytes: &mut [u8],
) -> Result<bool, SectorFault>
    requires stored { AreStored (shown file.now).sectors (P.state pool.old).contents }
    requires long { length bytes.old ≡ (shown file.now).layout.record_length }
    ensures found { IfOk result (λ found. found_record found bytes.new ≡ slice_get (records_now (shown file.now) (P.state pool.old).contents) i) }
    ensures reads { Reads result (P.state pool.old) (P.state pool.new) }
{
    match file.get(pool, i, bytes) {
        Ok(()) => Ok(true),
        Err(fault) => {
            pass_on(fault)?;
            Ok(false)
        }
    }
}

/// The place of the record that is number `n` in key order, both from 0, among the records that the file had when it was opened.
/// None past the last.
pub fn nth<P: Sectors>(file: &Keyed, pool: &mut P, n: u32) -> Result<Option<u32>, SectorFault>
    requires stored { AreStored (shown file.now).sectors (P.state pool.old).contents }
    requires ordered { HasKeyOrder (shown file.now) (P.state pool.old).contents }
    ensures place { IfOk result (λ place. nth_by_key (take (shown file.now).started (keys_now (shown file.now) (P.state pool.old).contents)) n ≡ place) }
    ensures reads { Reads result (P.state pool.old) (P.state pool.new) }
{
    match file.nth_by_key(pool, n) {
        Ok(place) => Ok(Some(place)),
        Err(fault) => {
            pass_on(fault)?;
            Ok(None)
        }
    }
}

/// The place of the record with the key in these bytes, from 0; none if no record has it.
pub fn find<P: Sectors>(file: &Keyed, pool: &mut P, key: &[u8]) -> Result<Option<u32>, SectorFault>
    requires stored { AreStored (shown file.now).sectors (P.state pool.old).contents }
    requires ordered { HasKeyOrder (shown file.now) (P.state pool.old).contents }
    requires long { length key.now ≡ (shown file.now).layout.key.length }
    ensures place { IfOk result (λ place. place_of_key (number_of key.now) (keys_now (shown file.now) (P.state pool.old).contents) ≡ place) }
    ensures reads { Reads result (P.state pool.old) (P.state pool.new) }
{
    match file.find(pool, key) {
        Ok(place) => Ok(Some(place)),
        Err(fault) => {
            pass_on(fault)?;
            Ok(None)
        }
    }
}

/// Puts a record after the last one; it is refused if its key isn't above all others, else if the file is full.
#[tactic(auto, using(crate::proofs::Keys::order_left))]
pub fn load<P: Sectors>(file: &mut Keyed, pool: &mut P, bytes: &[u8]) -> Result<Put, SectorFault>
    requires stored { AreStored (shown file.old).sectors (P.state pool.old).contents }
    requires ordered { HasKeyOrder (shown file.old) (P.state pool.old).contents }
    requires long { length bytes.now ≡ (shown file.old).layout.record_length }
    ensures puts { IfOk result (λ put. Puts (by_key (with_loaded (shown file.old).layout.key (shown file.old).layout.capacity bytes.now (records_now (shown file.old) (P.state pool.old).contents))) put (records_now (shown file.old) (P.state pool.old).contents) (records_now (shown file.new) (P.state pool.new).contents)) }
    ensures ordered { OnOk result (HasKeyOrder (shown file.new) (P.state pool.new).contents) }
    ensures same { IsSameFile (shown file.old) (shown file.new) }
    ensures changes { Changes (shown file.old).sectors result (P.state pool.old) (P.state pool.new) }
{
    match file.load(pool, bytes) {
        Ok(()) => Ok(Put::Done),
        Err(fault) => {
            pass_on(fault)?;
            Ok(Put::Refused(halt_for(fault)))
        }
    }
}

/// Puts a record after the last one; it is refused if another has its key, else if the file is full.
#[tactic(auto, using(crate::proofs::Keys::order_left))]
pub fn add<P: Sectors>(file: &mut Keyed, pool: &mut P, bytes: &[u8]) -> Result<Put, SectorFault>
    requires stored { AreStored (shown file.old).sectors (P.state pool.old).contents }
    requires ordered { HasKeyOrder (shown file.old) (P.state pool.old).contents }
    requires long { length bytes.now ≡ (shown file.old).layout.record_length }
    ensures puts { IfOk result (λ put. Puts (by_key (with_added (shown file.old).layout.key (shown file.old).layout.capacity bytes.now (records_now (shown file.old) (P.state pool.old).contents))) put (records_now (shown file.old) (P.state pool.old).contents) (records_now (shown file.new) (P.state pool.new).contents)) }
    ensures ordered { OnOk result (HasKeyOrder (shown file.new) (P.state pool.new).contents) }
    ensures same { IsSameFile (shown file.old) (shown file.new) }
    ensures changes { Changes (shown file.old).sectors result (P.state pool.old) (P.state pool.new) }
{
    match file.add(pool, bytes) {
        Ok(()) => Ok(Put::Done),
        Err(fault) => {
            pass_on(fault)?;
            Ok(Put::Refused(halt_for(fault)))
        }
    }
}

/// Writes a record over the one at a place, from 0, whose bytes are `old`; it is refused if its key is another one.
pub fn replace<P: Sectors>(
    file: &Keyed,
    pool: &mut P,
    i: u32,
    old: &[u8],
    bytes: &[u8],
) -> Result<Put, SectorFault>
    requires stored { AreStored (shown file.now).sectors (P.state pool.old).contents }
    requires ordered { HasKeyOrder (shown file.now) (P.state pool.old).contents }
    requires there { slice_get (records_now (shown file.now) (P.state pool.old).contents) i ≡ Some old.now }
    requires old { length old.now ≡ (shown file.now).layout.record_length }
    requires long { length bytes.now ≡ (shown file.now).layout.record_length }
    ensures puts { IfOk result (λ put. Puts (by_key (with_updated (shown file.now).layout.key i bytes.now (records_now (shown file.now) (P.state pool.old).contents))) put (records_now (shown file.now) (P.state pool.old).contents) (records_now (shown file.now) (P.state pool.new).contents)) }
    ensures ordered { OnOk result (HasKeyOrder (shown file.now) (P.state pool.new).contents) }
    ensures changes { Changes (shown file.now).sectors result (P.state pool.old) (P.state pool.new) }
{
    match file.replace(pool, i, old, bytes) {
        Ok(()) => Ok(Put::Done),
        Err(fault) => {
            pass_on(fault)?;
            Ok(Put::Refused(halt_for(fault)))
        }
    }
}

/// Closes the file: its index on the pack then has the keys of all its records.
#[tactic(auto, using(crate::proofs::Keys::not_of_sectors))]
pub fn close<P: Sectors>(file: Keyed, pool: &mut P) -> Result<(), SectorFault>
    requires stored { AreStored (shown file).sectors (P.state pool.old).contents }
    requires ordered { HasKeyOrder (shown file) (P.state pool.old).contents }
    ensures good { OnOk result (is_good_index (index_in (shown file).layout (shown file).count (bytes_now (shown file) (P.state pool.new).contents)) (keys_now (shown file) (P.state pool.new).contents) ≡ true) }
    ensures records { records_now (shown file) (P.state pool.new).contents ≡ records_now (shown file) (P.state pool.old).contents }
    ensures changes { Changes (shown file).sectors result (P.state pool.old) (P.state pool.new) }
{
    match file.close(pool) {
        Ok(()) => Ok(()),
        Err(fault) => pass_on(fault),
    }
}
