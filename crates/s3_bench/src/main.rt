//! What the benchmarks `bench/decimal`, `bench/pool` and `bench/files` run and compare with plain Rust.
//!
//! The arguments name the benchmark and what it runs:
//!
//!     decimal OPERATION ROUNDS     one operation, so many times over its table: a checksum of its results
//!     pool WALK SECTORS CALLS      what the bytes that were read and those left in the store add up to
//!     files WALK CALLS             the same, and how many sectors were read and written
//!     files cold-find CALLS        the most sectors that one find read, through an empty pool of its own
//!
//! Without arguments it runs each operation once, one walk of the pool and one of files.
#![tactic(auto)]

mod counting;
mod decimal;
mod file_walks;
mod keyed_walks;
mod label;
mod pool_walks;
mod record_walks;
mod stores;

use crate::decimal::{OPERATIONS, Table, repeated};
use anyhow::{Context, Result};
use std::env;

fn run_decimal(rt: HostRuntime, operation: &str, rounds: u32) -> Result<()> {
    let checksum = repeated(&Table::new(), operation, rounds);
    println!(rt; "{operation} {checksum}")?;
    Ok(())
}

fn run_pool(rt: HostRuntime, walk: &str, sectors: u16, calls: u32) -> Result<()> {
    let (read, left) = pool_walks::walk_pool(rt.alloc(), walk, sectors, calls)?;
    println!(rt; "{read} {left}")?;
    Ok(())
}

fn run_files(rt: HostRuntime, walk: &str, calls: u32) -> Result<()> {
    if walk == "cold-find" {
        println!(rt; "{}", file_walks::most_reads(rt.alloc(), calls)?)?;
        return Ok(());
    }
    let it = file_walks::walk_file(rt.alloc(), walk, calls)?;
    println!(rt;
        "{} {} {} {}",
        it.read, it.left, it.sectors_read, it.sectors_written
    )?;
    Ok(())
}

/// One call of each benchmark, as a test that they run.
fn run_each(rt: HostRuntime) -> Result<()> {
    for operation in OPERATIONS {
        run_decimal(rt, operation, 1)?;
    }
    run_pool(rt, "random-write", 888, 2_000)?;
    run_files(rt, "read", 1_000)
}

fn main(rt: HostRuntime) -> Result<()> {
    let mut words = env::args(&rt)?;
    let _program = words.next();
    let Some(benchmark) = words.next() else {
        return run_each(rt);
    };
    let name = words.next().context("no operation or walk")?;
    let first = words.next().context("no count")?;
    match benchmark.as_str() {
        "decimal" => run_decimal(rt, name.as_str(), first.parse()?),
        "files" => run_files(rt, name.as_str(), first.parse()?),
        _ => {
            let calls = words.next().context("no count of calls")?;
            run_pool(rt, name.as_str(), first.parse()?, calls.parse()?)
        }
    }
}
