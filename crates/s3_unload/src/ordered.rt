//! The records of a file, in the order of their keys if it has an index.
ghost use Rattle.std.specs.Prelude.{◌≡◌, Some, true, length, slice_get, OnOk, IfOk, IfErr};
ghost use Rattle.s3_slots.specs.Inner.Kept.{IsOfPack};
ghost use Rattle.s3_slots.specs.Labels.{is_indexed as is_indexed_spec};
ghost use Rattle.s3_unload.specs.Inner.Opened.{IsKeyed, IsOpened, IsOpenRefusal, IsPlain};
ghost use Rattle.s3_unload.specs.Inner.Ordered.{by_key_of, in_order, ordered};

use crate::fault::UnloadFault;
use s3_files::{RecordFile, Sequential};
use s3_keyed::{Keyed, KeyedFault};
use s3_slots::{FileLabel, Organization};
use s3_store::MemoryStore;
use std::alloc::Global;

/// The records of a file.
#[derive(Drop)]
pub enum Records {
    /// One after another.
    InOrder(Sequential),
    /// By their keys.
    ByKey(Keyed),
}

/// Whether the records of a file have keys.
fn is_indexed(organization: Organization) -> bool
    ensures { result ≡ is_indexed_spec organization }
{
    organization == Organization::Indexed
}

impl Records {
    /// The records of the file that a label describes. Refused with `BadIndex` if its index isn't the key order of the records.
    #[tactic(auto, using(s3_files::proofs::Rooms::of_pack_room))]
    pub fn open(
        alloc: Global,
        store: &mut MemoryStore,
        label: &FileLabel,
    ) -> Result<Records, UnloadFault>
        requires { IsOfPack (length store.old) label.now }
        ensures opened { IfOk result (IsOpened label.now store.old) }
        ensures refused { IfErr result (IsOpenRefusal label.now store.old) }
        ensures keeps { store.new ≡ store.old }
    {
        if is_indexed(label.organization) {
            Ok(Records::ByKey(open_keyed(alloc, store, label)?))
        } else {
            Ok(Records::InOrder(Sequential::of(label)))
        }
    }

    /// Reads record `n` of that order, from 0, into these bytes, and answers its place in the file, from 0.
    #[tactic(auto, using(crate::proofs::Opening::ordered_plain, crate::proofs::Opening::ordered_keyed))]
    pub fn read(
        &self,
        store: &mut MemoryStore,
        label: &FileLabel,
        n: u32,
        bytes: &mut [u8],
    ) -> Result<u32, UnloadFault>
        requires on_pack { IsOfPack (length store.old) label.now }
        requires opened { IsOpened label.now store.old self.now }
        requires long { length bytes.old ≡ label.now.record_length }
        ensures ok { OnOk result (slice_get (ordered label.now store.old) n ≡ Some bytes.new) }
        ensures place { IfOk result (λ place. slice_get (in_order label.now store.old) place ≡ Some bytes.new) }
        ensures refused { IfErr result (λ fault. fault ≡ UnloadFault.NoMemory) }
        ensures keeps { store.new ≡ store.old }
    {
        match self {
            Records::InOrder(file) => {
                read_in_order(file, store, label, n, bytes)?;
                Ok(n)
            }
            Records::ByKey(file) => read_by_key(file, store, label, n, bytes),
        }
    }
}

/// Opens a file with an index.
#[tactic(auto, using(s3_files::proofs::Rooms::of_pack_room, s3_files::proofs::Rooms::of_pack_stored, s3_keyed::proofs::Indexes::of_pack_index, crate::proofs::Opening::bad_index))]
fn open_keyed(
    alloc: Global,
    store: &mut MemoryStore,
    label: &FileLabel,
) -> Result<Keyed, UnloadFault>
    requires on_pack { IsOfPack (length store.old) label.now }
    requires indexed { is_indexed_spec label.now.organization ≡ true }
    ensures opened { IfOk result (IsKeyed label.now store.old) }
    ensures refused { IfErr result (IsOpenRefusal label.now store.old) }
    ensures keeps { store.new ≡ store.old }
{
    match Keyed::check(alloc, store, label) {
        Ok(file) => Ok(file),
        Err(KeyedFault::BadIndex) => Err(UnloadFault::BadIndex),
        Err(_) => Err(UnloadFault::NoMemory),
    }
}

/// Reads record `n`, from 0, of a file without an index.
#[tactic(auto, using(s3_files::proofs::Rooms::of_pack_stored, crate::proofs::Opening::plain_record))]
pub fn read_in_order(
    file: &Sequential,
    store: &mut MemoryStore,
    label: &FileLabel,
    n: u32,
    bytes: &mut [u8],
) -> Result<(), UnloadFault>
    requires on_pack { IsOfPack (length store.old) label.now }
    requires opened { IsPlain label.now file.now }
    requires long { length bytes.old ≡ label.now.record_length }
    ensures ok { OnOk result (slice_get (in_order label.now store.old) n ≡ Some bytes.new) }
    ensures refused { IfErr result (λ fault. fault ≡ UnloadFault.NoMemory) }
    ensures keeps { store.new ≡ store.old }
{
    match file.get(store, n, bytes) {
        Ok(()) => Ok(()),
        Err(_) => Err(UnloadFault::NoMemory),
    }
}

/// Reads the record that is number `n` by key, from 0, and answers its place in the file, from 0.
#[tactic(auto, using(s3_files::proofs::Rooms::of_pack_stored, crate::proofs::Opening::keyed_record, crate::proofs::Opening::keyed_place))]
fn read_by_key(
    file: &Keyed,
    store: &mut MemoryStore,
    label: &FileLabel,
    n: u32,
    bytes: &mut [u8],
) -> Result<u32, UnloadFault>
    requires on_pack { IsOfPack (length store.old) label.now }
    requires opened { IsKeyed label.now store.old file.now }
    requires long { length bytes.old ≡ label.now.record_length }
    ensures ok { OnOk result (slice_get (by_key_of label.now store.old) n ≡ Some bytes.new) }
    ensures place { IfOk result (λ place. slice_get (in_order label.now store.old) place ≡ Some bytes.new) }
    ensures refused { IfErr result (λ fault. fault ≡ UnloadFault.NoMemory) }
    ensures keeps { store.new ≡ store.old }
{
    let place = match file.nth_by_key(store, n) {
        Ok(place) => place,
        Err(_) => return Err(UnloadFault::NoMemory),
    };
    match file.get(store, place, bytes) {
        Ok(()) => Ok(place),
        Err(_) => Err(UnloadFault::NoMemory),
    }
}
