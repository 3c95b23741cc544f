//! A line that is queued, and an answer that is tested.

use s3_cards::ebcdic::BLANK;
use s3_cards::{LevelId, PRINT_POSITIONS, PrintLine};
use s3_cycle::{Answer, Request, fits};
use s3_spool::{Spool, SpoolFault};
use s3_store::{MemoryStore, PackStore};
use std::test::Fail;

/// Queues a line of level 1; `None` if the store is too small for the blocks.
fn put(
    spool: &mut Spool,
    line: &PrintLine,
    store: &mut MemoryStore,
) -> Option<Result<(), SpoolFault>> {
    if store.sectors() < 153 {
        return None;
    }
    Some(spool.put(LevelId::One, line, store))
}

/// A line is queued, up to the quota of its level.
#[test]
fn lines_are_queued(rt: HostRuntime) -> Result<(), Fail> {
    let mut store = MemoryStore::from_bytes(vec![in rt.alloc(); 0u8; 153 * 256]?);
    let mut spool = Spool::new(rt.alloc(), 1, 1)?;
    let line = PrintLine::new(1, 6, 1, [BLANK; PRINT_POSITIONS]);
    let first = put(&mut spool, &line, &mut store);
    let second = put(&mut spool, &line, &mut store);
    assert!(rt; matches!(first, Some(Ok(()))));
    assert!(rt; matches!(second, Some(Err(SpoolFault::QuotaFull))));
    assert!(rt; spool.queued(LevelId::One) == 1);
    Ok(())
}

/// A jump is answered that it is done, and a card by 96 bytes or by none.
#[test]
fn answers_fit_requests(rt: HostRuntime) {
    assert!(rt; fits(&Request::Jump, &Answer::Done) && !fits(&Request::Jump, &Answer::Reply(0)));
    assert!(rt; fits(&Request::Card, &Answer::Found(&[0x40; 96])));
    assert!(rt; !fits(&Request::Card, &Answer::Found(&[0x40; 95])));
}
