//! The three sessions of the fuse rows, where memory may be refused: `tools/search/refuse-memory` refuses each request of these tests in
//! turn. The fuse rows show that all of them end whole with ample memory.

use crate::bureau::packs::marked_pack;
use crate::bureau::plays::{CARD_LISTER, DATA_IN_BOTH_LEVELS, KEYS_ADDED_AND_CHANGED};
use crate::bureau::sessions::{Session, judge};
use s3_bureau::Stop;
use std::alloc::Global;
use std::process::Abort;

/// A session ends, or memory is refused and it stays stopped; what has to stay of its pack does.
fn assert_ends_or_stays_stopped(rt: &impl Abort, alloc: Global, session: &Session) {
    let Ok(pack) = marked_pack(alloc) else {
        return;
    };
    // no transfer fails
    let judged = judge(alloc, session, pack.as_slice(), 0, Stop::NoMemory);
    drop(pack);
    if let Ok(judged) = judged {
        let wrong = judged.wrong;
        assert!(rt; wrong.is_empty(), "{wrong}");
    }
}

#[test]
fn the_card_lister_ends_or_stays_stopped(rt: HostRuntime) {
    assert_ends_or_stays_stopped(&rt, rt.alloc(), &CARD_LISTER);
}

#[test]
fn data_in_both_levels_ends_or_stays_stopped(rt: HostRuntime) {
    assert_ends_or_stays_stopped(&rt, rt.alloc(), &DATA_IN_BOTH_LEVELS);
}

#[test]
fn keys_added_and_changed_end_or_stay_stopped(rt: HostRuntime) {
    assert_ends_or_stays_stopped(&rt, rt.alloc(), &KEYS_ADDED_AND_CHANGED);
}
