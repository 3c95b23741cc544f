//! Transfers through the pool.

ghost use Rattle.std.specs.Prelude.{◌<◌};

use crate::stores::{numbered_store, sum_of};
use anyhow::{Context, Result};
use s3_pool::{Pool, PoolFault};
use s3_store::PackStore;
use std::alloc::Global;

/// Which sectors are used, one after another.
#[derive(Clone, Copy)]
enum Order {
    Sequential,
    Random,
    /// The first eight alone.
    Few,
}

/// A way of using a pool.
#[derive(Clone, Copy)]
struct Walk {
    order: Order,
    writes: bool,
}

fn walk_of(name: &str) -> Option<Walk> {
    let (order, writes) = match name {
        "sequential-read" => (Order::Sequential, false),
        "random-read" => (Order::Random, false),
        "sequential-write" => (Order::Sequential, true),
        "random-write" => (Order::Random, true),
        "hit-read" => (Order::Few, false),
        "hit-write" => (Order::Few, true),
        _ => return None,
    };
    Some(Walk { order, writes })
}

/// The number of the sector that a call uses, and the state of the random numbers after it.
fn next_sector(order: Order, sectors: u16, call: u32, state: u64) -> (u16, u64)
    requires { 0 < sectors }
{
    let count = u64::from(sectors);
    match order {
        Order::Sequential => ((u64::from(call) % count) as u16, state),
        Order::Few => ((u64::from(call) % count.min(8)) as u16, state),
        Order::Random => {
            let next = state
                .wrapping_mul(6_364_136_223_846_793_005)
                .wrapping_add(1_442_695_040_888_963_407);
            (((next >> 33) % count) as u16, next)
        }
    }
}

/// Makes so many calls, and gives what the bytes that were read add up to.
fn use_pool<S: PackStore>(
    pool: &mut Pool<S>,
    walk: Walk,
    sectors: u16,
    calls: u32,
) -> Result<u64, PoolFault>
    requires { 0 < sectors }
{
    let mut total = 0u64;
    let mut state = 1;
    for call in 0..calls {
        let (n, next) = next_sector(walk.order, sectors, call, state);
        state = next;
        let at = usize::from(n % 256);
        if walk.writes {
            let sector = pool.sector_mut(n)?;
            sector[at] = sector[at].wrapping_add(1);
        } else {
            let sector = pool.sector(n)?;
            total = total.wrapping_add(u64::from(sector[at]));
        }
    }
    Ok(total)
}

/// Makes so many calls on a pool over so many sectors; gives what the bytes that were read add up to, and those left in the store.
pub fn walk_pool(alloc: Global, name: &str, sectors: u16, calls: u32) -> Result<(u64, u64)> {
    let walk = walk_of(name).context("an unknown walk of the pool")?;
    let store = numbered_store(alloc, sectors)?;
    let mut pool = Pool::new(alloc, store).ok().context("no memory")?;
    let read = if sectors == 0 {
        Ok(0)
    } else {
        use_pool(&mut pool, walk, sectors, calls)
    };
    let flushed = pool.flush();
    let bytes = pool.into_store().into_bytes();
    flushed?;
    Ok((read?, sum_of(&bytes)))
}
