//! A file whose records are found by their numbers, and a record that is written over another one of its key.
ghost use Rattle.std.specs.Prelude.{◌≡◌, ◌≤◌, length, IfOk};
ghost use Rattle.s3_files.specs.Inner.Files.{AreStored};
ghost use Rattle.s3_keyed.specs.Inner.Keyed.{shown, HasKeyOrder};

use crate::surface::label::{LENGTH, ROOM, SECTORS, label_of};
use s3_files::{Direct, FileFault, RecordFile};
use s3_keyed::{Keyed, KeyedFault};
use s3_slots::Organization;
use s3_store::{MemoryStore, PackStore, Sectors};
use std::alloc::{AllocError, Global};
use std::test::Fail;

/// A store of the file's sectors alone, whose byte i is i modulo 256.
fn numbered_store(alloc: Global) -> Result<MemoryStore, AllocError> {
    let mut bytes = vec![in alloc; 0u8; usize::from(SECTORS) * 256]?;
    for (i, byte) in bytes.iter_mut().enumerate() {
        *byte = (i % 256) as u8;
    }
    Ok(MemoryStore::from_bytes(bytes))
}

/// The first byte of a record of a direct file of four records.
fn first_byte(store: &mut MemoryStore, number: u32) -> Result<u8, FileFault>
    requires { 2 ≤ length store.old }
    ensures { store.new ≡ store.old }
{
    let file = Direct::of(&label_of(Organization::Direct, ROOM));
    let mut bytes = [0; LENGTH];
    file.get(store, number, &mut bytes)?;
    Ok(bytes[0])
}

/// A direct file has its records by their numbers, and none after them.
#[test]
fn records_are_found_by_their_numbers(rt: HostRuntime) -> Result<(), Fail> {
    let mut store = numbered_store(rt.alloc())?;
    if store.sectors() < SECTORS {
        return Err(Fail::new("the store is too small"));
    }
    let last = first_byte(&mut store, ROOM - 1);
    let none = first_byte(&mut store, ROOM);
    assert!(rt; matches!(last, Ok(48)));
    assert!(rt; matches!(none, Err(FileFault::NoRecord)));
    Ok(())
}

/// A record with this key and these other bytes.
fn record_of(key: u8, byte: u8) -> [u8; LENGTH] {
    let mut bytes = [byte; LENGTH];
    bytes[0] = 0;
    bytes[1] = key;
    bytes
}

/// Loads records with the keys 1 and 2 into a file with keys, and opens it.
fn loaded<P: Sectors>(alloc: Global, store: &mut P) -> Result<Keyed, KeyedFault>
    requires { 2 ≤ length (P.state store.old).contents }
    ensures stored { IfOk result (λ file. AreStored (shown file).sectors (P.state store.new).contents) }
    ensures ordered { IfOk result (λ file. HasKeyOrder (shown file) (P.state store.new).contents) }
    ensures long { IfOk result (λ file. (shown file).layout.record_length ≡ 16) }
{
    let mut file = Keyed::check(alloc, store, &label_of(Organization::Indexed, 0))?;
    file.load(store, &record_of(1, 7))?;
    file.load(store, &record_of(2, 8))?;
    Ok(file)
}

/// Writes a record over the one at a place of the loaded file, and reads what is at that place then.
fn updated<P: Sectors>(
    alloc: Global,
    store: &mut P,
    place: u32,
    bytes: &[u8; LENGTH],
) -> Result<[u8; LENGTH], KeyedFault>
    requires { 2 ≤ length (P.state store.old).contents }
{
    let file = loaded(alloc, store)?;
    file.update(store, place, bytes)?;
    let mut found = [0; LENGTH];
    file.get(store, place, &mut found)?;
    Ok(found)
}

/// A record is written over the one of its key, and not over one of another key, and not after the last one.
#[test]
fn records_are_written_over_those_of_their_keys(rt: HostRuntime) -> Result<(), Fail> {
    let mut store = numbered_store(rt.alloc())?;
    if store.sectors() < SECTORS {
        return Err(Fail::new("the store is too small"));
    }
    let found = updated(rt.alloc(), &mut store, 1, &record_of(2, 9));
    assert!(rt; matches!(found, Ok(bytes) if bytes == record_of(2, 9)));
    Ok(())
}

/// What an update comes to over a store of its own.
fn refusal(alloc: Global, place: u32, bytes: &[u8; LENGTH]) -> Result<Option<KeyedFault>, Fail> {
    let mut store = numbered_store(alloc)?;
    if store.sectors() < SECTORS {
        return Err(Fail::new("the store is too small"));
    }
    match updated(alloc, &mut store, place, bytes) {
        Ok(_) => Ok(None),
        Err(fault) => Ok(Some(fault)),
    }
}

/// An update is refused if the record has another key, and if there is no record at its place.
#[test]
fn updates_are_refused(rt: HostRuntime) -> Result<(), Fail> {
    let changed = refusal(rt.alloc(), 1, &record_of(1, 9))?;
    let behind = refusal(rt.alloc(), 2, &record_of(3, 9))?;
    assert!(rt; matches!(changed, Some(KeyedFault::KeyChanged)));
    assert!(rt; matches!(behind, Some(KeyedFault::NoKey)));
    Ok(())
}
