//! Three sessions, with a fuse at each call in turn.

use crate::bureau::packs::marked_pack;
use crate::bureau::plays::{CARD_LISTER, DATA_IN_BOTH_LEVELS, KEYS_ADDED_AND_CHANGED};
use crate::bureau::sessions::{End, Failed, Judged, Session, judge};
use s3_bureau::Stop;
use std::alloc::Global;
use std::process::Abort;
use std::test::Fail;

impl Failed {
    /// With one run more.
    fn with(self, end: End) -> Failed {
        match end {
            End::Open => Failed {
                in_open: self.in_open.saturating_add(1),
                ..self
            },
            End::Step => Failed {
                in_steps: self.in_steps.saturating_add(1),
                ..self
            },
            End::Finish => Failed {
                in_finish: self.in_finish.saturating_add(1),
                ..self
            },
            End::Whole | End::Otherwise => self,
        }
    }

    /// Whether at least so many runs failed in each kind of call.
    fn is_at_least(self, least: Failed) -> bool {
        self.in_open >= least.in_open
            && self.in_steps >= least.in_steps
            && self.in_finish >= least.in_finish
    }
}

/// Runs a session with a fuse at call 1, 2 and so on, up to the run in which none fails.
fn assert_at_each_call(rt: &impl Abort, alloc: Global, session: &Session) -> Result<(), Fail> {
    let pack = marked_pack(alloc)?;
    let mut failed = Failed {
        in_open: 0,
        in_steps: 0,
        in_finish: 0,
    };
    for k in 1..1_000u64 {
        let Judged { end, wrong } = judge(alloc, session, pack.as_slice(), k, Stop::Device)?;
        assert!(rt; wrong.is_empty(), "fuse at call {k}: {wrong}");
        if matches!(end, End::Whole) {
            assert!(rt; failed.is_at_least(session.least));
            return Ok(());
        }
        failed = failed.with(end);
    }
    panic!(rt; "the session never ends without a failure");
}

#[test]
fn the_card_lister(rt: HostRuntime) -> Result<(), Fail> {
    assert_at_each_call(&rt, rt.alloc(), &CARD_LISTER)
}

#[test]
fn data_in_both_levels(rt: HostRuntime) -> Result<(), Fail> {
    assert_at_each_call(&rt, rt.alloc(), &DATA_IN_BOTH_LEVELS)
}

#[test]
fn keys_added_and_changed(rt: HostRuntime) -> Result<(), Fail> {
    assert_at_each_call(&rt, rt.alloc(), &KEYS_ADDED_AND_CHANGED)
}
