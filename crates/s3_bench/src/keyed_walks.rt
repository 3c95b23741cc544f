//! Records by key: 50,000 with even keys are loaded first.
ghost use Rattle.std.specs.Prelude.{◌≡◌, ◌≤◌, length, IfOk};
ghost use Rattle.s3_store.specs.Inner.State.{KeepsContents};
ghost use Rattle.s3_files.specs.Inner.Files.{AreStored};
ghost use Rattle.s3_keyed.specs.Inner.Keyed.{shown, HasKeyOrder};

use crate::counting::CountingStore;
use crate::label::{LENGTH, label_of};
use anyhow::{Context, Result as AnyResult};
use byteorder::{BigEndian, ByteOrder};
use s3_keyed::{Keyed, KeyedFault};
use s3_pool::Pool;
use s3_slots::Organization;
use s3_store::Sectors;
use std::alloc::Global;

/// How many records are loaded into the file.
const RECORDS: u32 = 50_000;
/// For how many records the file has room.
const ROOM: u32 = 55_000;

/// The number that a call uses, of those below the count of loaded records.
fn number_of(call: u32) -> u32
    ensures { result ≤ 49999 }
{
    (u64::from(call) * 7_919 % u64::from(RECORDS)) as u32
}

/// Opens the file with so many records.
fn open<P: Sectors>(alloc: Global, pool: &mut P, count: u32) -> Result<Keyed, KeyedFault>
    requires sectors { 24000 ≤ length (P.state pool.old).contents }
    requires few { count ≤ 55000 }
    ensures keeps { KeepsContents (P.state pool.old) (P.state pool.new) }
    ensures stored { IfOk result (λ file. AreStored (shown file).sectors (P.state pool.new).contents) }
    ensures ordered { IfOk result (λ file. HasKeyOrder (shown file) (P.state pool.new).contents) }
    ensures long { IfOk result (λ file. (shown file).layout.record_length ≡ 96) }
    ensures key { IfOk result (λ file. (shown file).layout.key.length ≡ 6) }
{
    Keyed::check(alloc, pool, &label_of(Organization::Indexed, ROOM, count))
}

/// Loads the records with even keys.
fn load_all<P: Sectors>(alloc: Global, pool: &mut P) -> Result<(), KeyedFault>
    requires { 24000 ≤ length (P.state pool.old).contents }
    ensures { length (P.state pool.new).contents ≡ length (P.state pool.old).contents }
{
    let mut file = open(alloc, pool, 0)?;
    let mut bytes = [0; LENGTH];
    for i in 0..RECORDS {
        BigEndian::write_u32(&mut bytes[2..], 2 * i);
        file.load(pool, &bytes)?;
    }
    file.close(pool)
}

/// Loads the file and finds so many records by their keys. It answers what their places add up to.
pub fn find<P: Sectors>(alloc: Global, pool: &mut P, calls: u32) -> Result<u64, KeyedFault>
    requires { 24000 ≤ length (P.state pool.old).contents }
{
    load_all(alloc, pool)?;
    let file = open(alloc, pool, RECORDS)?;
    let mut key = [0; 6];
    let mut total = 0u64;
    for call in 0..calls {
        BigEndian::write_u32(&mut key[2..], 2 * number_of(call));
        total = total.wrapping_add(u64::from(file.find(pool, &key)?));
    }
    Ok(total)
}

/// Loads the file, adds so many records with odd keys, in no order, and closes it.
pub fn add<P: Sectors>(alloc: Global, pool: &mut P, calls: u32) -> Result<u64, KeyedFault>
    requires { 24000 ≤ length (P.state pool.old).contents }
{
    load_all(alloc, pool)?;
    let mut file = open(alloc, pool, RECORDS)?;
    let mut bytes = [0; LENGTH];
    for call in 0..calls {
        BigEndian::write_u32(&mut bytes[2..], 2 * number_of(call) + 1);
        file.add(pool, &bytes)?;
    }
    file.close(pool)?;
    Ok(0)
}

/// Finds a key through a pool of its own.
fn find_once(
    alloc: Global,
    store: CountingStore,
    file: &Keyed,
    key: &[u8; 6],
) -> AnyResult<CountingStore>
    requires stored { AreStored (shown file.now).sectors store.inner }
    requires ordered { HasKeyOrder (shown file.now) store.inner }
    requires long { (shown file.now).layout.key.length ≡ 6 }
    ensures { IfOk result (λ after. after.inner ≡ store.inner) }
{
    let mut pool = Pool::new(alloc, store).ok().context("no memory")?;
    let found = file.find(&mut pool, key);
    let flushed = pool.flush();
    let after = pool.into_store();
    found?;
    flushed?;
    Ok(after)
}

/// Loads the records through a pool, and opens the file.
fn load_once(alloc: Global, store: CountingStore) -> AnyResult<(CountingStore, Keyed)>
    requires { 24000 ≤ length store.inner }
    ensures stored { IfOk result (λ loaded. AreStored (shown loaded.1).sectors loaded.0.inner) }
    ensures ordered { IfOk result (λ loaded. HasKeyOrder (shown loaded.1) loaded.0.inner) }
    ensures key { IfOk result (λ loaded. (shown loaded.1).layout.key.length ≡ 6) }
{
    let mut pool = Pool::new(alloc, store).ok().context("no memory")?;
    let loaded = load_all(alloc, &mut pool);
    let opened = open(alloc, &mut pool, RECORDS);
    let flushed = pool.flush();
    let after = pool.into_store();
    loaded?;
    flushed?;
    Ok((after, opened?))
}

/// The most sectors that a find reads, each through a pool of its own.
pub fn cold_find(alloc: Global, store: CountingStore, calls: u32) -> AnyResult<u64>
    requires { 24000 ≤ length store.inner }
{
    let (mut store, file) = load_once(alloc, store)?;
    let mut key = [0; 6];
    let mut most = 0;
    for call in 0..calls {
        let before = store.reads;
        BigEndian::write_u32(&mut key[2..], 2 * number_of(call));
        store = find_once(alloc, store, &file, &key)?;
        most = most.max(store.reads.wrapping_sub(before));
    }
    Ok(most)
}
