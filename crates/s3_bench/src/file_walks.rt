//! Calls on files through the pool.

use crate::counting::CountingStore;
use crate::keyed_walks::{add, cold_find, find};
use crate::label::SECTORS;
use crate::record_walks::{direct, load, read};
use crate::stores::{numbered_store, sum_of};
use anyhow::{Context, Result};
use s3_pool::Pool;
use s3_store::{PackStore, Sectors};
use std::alloc::Global;

/// Which calls are made.
#[derive(Clone, Copy)]
enum Walk {
    Read,
    Load,
    Direct,
    Find,
    Add,
}

fn walk_of(name: &str) -> Option<Walk> {
    match name {
        "read" => Some(Walk::Read),
        "load" => Some(Walk::Load),
        "direct" => Some(Walk::Direct),
        "find" => Some(Walk::Find),
        "add" => Some(Walk::Add),
        _ => None,
    }
}

fn make_calls<P: Sectors>(alloc: Global, pool: &mut P, walk: Walk, calls: u32) -> Result<u64> {
    if pool.sector_count() < SECTORS {
        return Ok(0);
    }
    match walk {
        Walk::Read => Ok(read(pool, calls)?),
        Walk::Load => Ok(load(pool, calls)?),
        Walk::Direct => Ok(direct(pool, calls)?),
        Walk::Find => Ok(find(alloc, pool, calls)?),
        Walk::Add => Ok(add(alloc, pool, calls)?),
    }
}

/// What a walk over a file read and left, and how many sectors were read and written.
#[derive(Clone, Copy)]
pub struct Walked {
    pub read: u64,
    pub left: u64,
    pub sectors_read: u64,
    pub sectors_written: u64,
}

/// Makes so many calls on a file through a pool.
pub fn walk_file(alloc: Global, name: &str, calls: u32) -> Result<Walked> {
    let walk = walk_of(name).context("an unknown walk of files")?;
    let store = CountingStore::over(numbered_store(alloc, SECTORS)?);
    let mut pool = Pool::new(alloc, store).ok().context("no memory")?;
    let read = make_calls(alloc, &mut pool, walk, calls);
    let flushed = pool.flush();
    let store = pool.into_store();
    flushed?;
    let (sectors_read, sectors_written) = (store.reads, store.writes);
    Ok(Walked {
        read: read?,
        left: sum_of(&store.into_bytes()),
        sectors_read,
        sectors_written,
    })
}

/// The most sectors that one find reads, through an empty pool of its own.
pub fn most_reads(alloc: Global, calls: u32) -> Result<u64> {
    let store = CountingStore::over(numbered_store(alloc, SECTORS)?);
    if store.sectors() < SECTORS {
        return Ok(0);
    }
    cold_find(alloc, store, calls)
}
