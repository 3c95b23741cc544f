//! The pool: 17 sectors are written, read back and flushed, through 16 buffers.

use s3_pool::{Pool, PoolFault};
use s3_store::{FuseStore, MemoryStore, PackStore, SectorFault, Sectors};
use std::alloc::Global;
use std::test::Fail;

/// How many sectors the store has.
const SECTORS: usize = 200;
/// The first of the sectors that are written.
const FIRST: u16 = 100;
/// How many are written: one more than there are buffers.
const COUNT: u8 = 17;
/// The first of the spool's blocks.
const BLOCK: u16 = 25;
/// A fuse that is set for no call.
const NO_CALL: u64 = 0;

type TestPool = Pool<FuseStore<MemoryStore>>;

/// A pool over sectors of zeros, whose store fails at this call.
fn blank_pool(alloc: Global, fuse: u64) -> Result<TestPool, Fail> {
    let bytes = vec![in alloc; 0u8; SECTORS * 256]?;
    match Pool::new(alloc, FuseStore::new(MemoryStore::from_bytes(bytes), fuse)) {
        Ok(pool) => Ok(pool),
        Err(_) => Err(Fail::new("memory")),
    }
}

/// The bytes that the store has.
fn stored(pool: TestPool) -> Vec<u8> {
    pool.into_store().into_inner().into_bytes()
}

fn set_first_byte<S: PackStore>(pool: &mut Pool<S>, n: u16, byte: u8) -> Result<(), PoolFault> {
    let sector = pool.sector_mut(n)?;
    sector[0] = byte;
    Ok(())
}

fn first_byte<S: PackStore>(pool: &mut Pool<S>, n: u16) -> Result<u8, PoolFault> {
    let sector = pool.sector(n)?;
    Ok(sector[0])
}

/// Overwrites a whole sector.
fn overwrite<S: PackStore>(pool: &mut Pool<S>, n: u16, byte: u8) -> Result<(), PoolFault> {
    if n >= pool.sector_count() {
        return Err(PoolFault::NoSector);
    }
    pool.write_sector(n, &[byte; 256])?;
    Ok(())
}

fn flush<S: PackStore>(pool: &mut Pool<S>) -> Result<(), PoolFault> {
    pool.flush()?;
    Ok(())
}

/// What a call came to.
#[derive(Clone, Copy)]
enum Try {
    Right,
    /// A transfer failed.
    Failed,
    /// It gave another byte, or was refused for another cause.
    Wrong,
}

fn try_of_fault(fault: PoolFault) -> Try {
    match fault {
        PoolFault::Sectors(SectorFault::Device) => Try::Failed,
        _ => Try::Wrong,
    }
}

fn try_of_write(answer: Result<(), PoolFault>) -> Try {
    match answer {
        Ok(()) => Try::Right,
        Err(fault) => try_of_fault(fault),
    }
}

fn try_of_read(answer: Result<u8, PoolFault>, wanted: u8) -> Try {
    match answer {
        Ok(byte) => {
            if byte == wanted {
                Try::Right
            } else {
                Try::Wrong
            }
        }
        Err(fault) => try_of_fault(fault),
    }
}

/// The first bytes of the sectors from the first written one on, of all the sectors' bytes.
fn first_bytes(bytes: &[u8]) -> [u8; 17] {
    let mut firsts = [0; 17];
    for i in 0..17usize {
        let at = (usize::from(FIRST) + i) * 256;
        if at < bytes.len() {
            firsts[i] = bytes[at];
        }
    }
    firsts
}

const WRITTEN: [u8; 17] = [1, 2, 3, 4, 5, 6, 7, 8, 9, 10, 11, 12, 13, 14, 15, 16, 17];

/// Writes 1, 2, 3 and so on as the first bytes of so many sectors from the first written one on.
fn write_first<S: PackStore>(pool: &mut Pool<S>, count: u8) -> Result<(), PoolFault> {
    for i in 0..count {
        set_first_byte(pool, FIRST + u16::from(i), i + 1)?;
    }
    Ok(())
}

#[test]
fn the_seventeenth_sector_sends_the_first_one_to_the_store(rt: HostRuntime) -> Result<(), Fail> {
    let mut pool = blank_pool(rt.alloc(), NO_CALL)?;
    let written = write_first(&mut pool, COUNT);
    let bytes = stored(pool);
    assert!(rt; written.is_ok());
    assert!(rt; first_bytes(&bytes) == [1, 0, 0, 0, 0, 0, 0, 0, 0, 0, 0, 0, 0, 0, 0, 0, 0]);
    assert!(rt; bytes.len() == SECTORS * 256);
    Ok(())
}

/// A sector that is wholly overwritten isn't read: the first transfer, which fails here, is the transfer of the flush.
#[test]
fn a_whole_sector_is_written_without_a_read(rt: HostRuntime) -> Result<(), Fail> {
    let mut pool = blank_pool(rt.alloc(), 1)?;
    let written = overwrite(&mut pool, FIRST, 7);
    let read = first_byte(&mut pool, FIRST);
    let first = try_of_write(flush(&mut pool));
    let second = flush(&mut pool);
    let bytes = stored(pool);
    assert!(rt; written.is_ok() & read.is_ok());
    assert!(rt; matches!(first, Try::Failed) & second.is_ok());
    assert!(rt; first_bytes(&bytes)[0] == 7);
    Ok(())
}

/// If all buffers are in use, a spool block is written to the store at once, and no other sector is displaced for it.
#[test]
fn a_spool_block_goes_past_a_full_pool(rt: HostRuntime) -> Result<(), Fail> {
    let mut pool = blank_pool(rt.alloc(), NO_CALL)?;
    let filled = write_first(&mut pool, COUNT - 1);
    let put = overwrite(&mut pool, BLOCK, 7);
    let bytes = stored(pool);
    assert!(rt; filled.is_ok() & put.is_ok());
    assert!(rt; first_bytes(&bytes) == [0; 17]);
    assert!(rt; bytes.get(usize::from(BLOCK) * 256).copied() == Some(7));
    Ok(())
}

/// What a run over a store that may fail once came to.
#[derive(Clone, Copy)]
struct Run {
    /// How many calls answered that a transfer had failed.
    faults: u32,
    /// Whether each call was answered at the first or the second try, and rightly.
    is_right: bool,
}

impl Run {
    /// Takes down what a call came to, and what it came to when it was made again.
    fn note(&mut self, first: Try, second: Try) {
        match first {
            Try::Right => {}
            Try::Failed => {
                self.faults = self.faults.saturating_add(1);
                self.is_right &= matches!(second, Try::Right);
            }
            Try::Wrong => self.is_right = false,
        }
    }
}

/// Writes all, each sector twice if the first time may have failed.
fn write_all<S: PackStore>(pool: &mut Pool<S>, run: &mut Run) {
    for i in 0..COUNT {
        let n = FIRST + u16::from(i);
        let first = try_of_write(set_first_byte(pool, n, i + 1));
        let second = try_of_write(set_first_byte(pool, n, i + 1));
        run.note(first, second);
    }
}

/// Reads all, each sector twice for the same reason.
fn read_all<S: PackStore>(pool: &mut Pool<S>, run: &mut Run) {
    for i in 0..COUNT {
        let n = FIRST + u16::from(i);
        let first = try_of_read(first_byte(pool, n), i + 1);
        let second = try_of_read(first_byte(pool, n), i + 1);
        run.note(first, second);
    }
}

/// Writes all, reads them back and flushes over a store that fails at call `k`.
fn run_with_fuse(alloc: Global, k: u64) -> Result<Run, Fail> {
    let mut run = Run {
        faults: 0,
        is_right: true,
    };
    let mut pool = blank_pool(alloc, k)?;
    write_all(&mut pool, &mut run);
    read_all(&mut pool, &mut run);
    let first = try_of_write(flush(&mut pool));
    let second = try_of_write(flush(&mut pool));
    run.note(first, second);
    let bytes = stored(pool);
    run.is_right &= first_bytes(&bytes) == WRITTEN;
    Ok(run)
}

#[test]
fn a_fuse_at_each_call_of_the_run(rt: HostRuntime) -> Result<(), Fail> {
    for k in 1..1_000u64 {
        let run = run_with_fuse(rt.alloc(), k)?;
        assert!(rt; run.is_right & (run.faults <= 1), "fuse at call {k}");
        if run.faults == 0 {
            // If 17 sectors are read in turn, none is still in one of 16 buffers, so each is read twice.
            assert!(rt; k > 34, "the run made fewer than {k} transfers");
            return Ok(());
        }
    }
    panic!(rt; "the run never ends without a fault");
}
