//! A store that fails at one call, for tests of the layers above it.
ghost use Rattle.std.specs.Prelude.{◌≡◌, ◌≢◌, ◌+◌, ◌-◌, ◌<◌, ◌==◌, length, slice_get, slice_set, Some, OnOk, OnErr, IsErr, true, false, if◌then◌else◌};
ghost use Rattle.s3_store.specs.Inner.Failures.{failed_calls, fuse_failures};

use crate::pack_store::{PackStore, StoreFault};
use std::marker::Model;

/// A store that fails at one read or write, and passes every other one on.
#[derive(Drop)]
pub struct FuseStore<S: PackStore> {
    inner: S,
    calls_left: u64,
    has_failed: bool,
}

impl<S: PackStore> Model for FuseStore<S> {
    ghost use Rattle.std.specs.Prelude.{◌≡◌, true};
    ghost use Rattle.s3_store.specs.Inner.Fuse.{Fuse};

    ghost Value = { Fuse S };

    ghost view = { λ f. record { inner = f.inner; calls_left = f.calls_left; has_failed = f.has_failed } };

    ghost invariant = { λ f. f.has_failed ≡ true → f.calls_left ≡ 0 };
}

impl<S: PackStore> FuseStore<S> {
    /// A store that fails at read or write `k`, counted from 1, and passes every other call on once. It never fails if `k` is 0.
    pub fn new(inner: S, k: u64) -> Self
        ensures inner { result.inner ≡ inner }
        ensures calls_left { result.calls_left ≡ k }
        ensures has_failed { result.has_failed ≡ false }
    {
        FuseStore {
            inner,
            calls_left: k,
            has_failed: false,
        }
    }

    /// The store that the calls were passed to.
    pub fn into_inner(self) -> S
        ensures { result ≡ self.inner }
    {
        let FuseStore {
            inner,
            calls_left: _,
            has_failed: _,
        } = self;
        inner
    }
}

/// Counts a call, and says whether it is the one that fails.
fn burns(calls_left: &mut u64, has_failed: &mut bool) -> bool
    ensures calls_left { calls_left.new ≡ calls_left.old - 1 }
    ensures burns { result ≡ (calls_left.old == 1) }
    ensures has_failed { has_failed.new ≡ (if result then true else has_failed.old) }
{
    let burns = *calls_left == 1;
    *calls_left = calls_left.saturating_sub(1);
    if burns {
        *has_failed = true;
    }
    burns
}

impl<S: PackStore> PackStore for FuseStore<S> {
    ghost contents = { λ f. S.contents f.inner };

    ghost failures = { λ f. fuse_failures (S.failures f.inner) f.has_failed };

    // A call is passed on once, or not at all.
    ghost steps_to = { λ old new. (old.calls_left ≡ 1 → new.inner ≡ old.inner) × (old.calls_left ≢ 1 → S.steps_to old.inner new.inner) };

    fn sectors(&self) -> u16 {
        self.inner.sectors()
    }

    fn read(&mut self, n: u16, bytes: &mut [u8; 256]) -> Result<(), StoreFault>
        requires { n < length (S.contents self.old.inner) }
        ensures ok { OnOk result (slice_get (S.contents self.old.inner) n ≡ Some bytes.new) }
        ensures contents { S.contents self.new.inner ≡ S.contents self.old.inner }
        ensures failures { fuse_failures (S.failures self.new.inner) self.new.has_failed ≡ fuse_failures (S.failures self.old.inner) self.old.has_failed + failed_calls result }

        // The call that the fuse was set for fails, and no other has another answer than the inner store's.
        ensures counted { self.new.calls_left ≡ self.old.calls_left - 1 }
        ensures burns { self.old.calls_left ≡ 1 → IsErr result }
        ensures untouched { self.old.calls_left ≡ 1 → self.new.inner ≡ self.old.inner }
        ensures passes { self.old.calls_left ≢ 1 → S.failures self.new.inner ≡ S.failures self.old.inner + failed_calls result }
        ensures once { self.old.calls_left ≢ 1 → S.steps_to self.old.inner self.new.inner }
    {
        if burns(&mut self.calls_left, &mut self.has_failed) {
            return Err(StoreFault);
        }
        self.inner.read(n, bytes)
    }

    fn write(&mut self, n: u16, bytes: &[u8; 256]) -> Result<(), StoreFault>
        requires { n < length (S.contents self.old.inner) }
        ensures ok { OnOk result (S.contents self.new.inner ≡ slice_set (S.contents self.old.inner) n bytes.now) }
        ensures err { OnErr result (S.contents self.new.inner ≡ S.contents self.old.inner) }
        ensures failures { fuse_failures (S.failures self.new.inner) self.new.has_failed ≡ fuse_failures (S.failures self.old.inner) self.old.has_failed + failed_calls result }

        // The write that the fuse was set for fails, and no other has another answer than the inner store's.
        ensures counted { self.new.calls_left ≡ self.old.calls_left - 1 }
        ensures burns { self.old.calls_left ≡ 1 → IsErr result }
        ensures untouched { self.old.calls_left ≡ 1 → self.new.inner ≡ self.old.inner }
        ensures passes { self.old.calls_left ≢ 1 → S.failures self.new.inner ≡ S.failures self.old.inner + failed_calls result }
        ensures once { self.old.calls_left ≢ 1 → S.steps_to self.old.inner self.new.inner }
    {
        if burns(&mut self.calls_left, &mut self.has_failed) {
            return Err(StoreFault);
        }
        self.inner.write(n, bytes)
    }
}
