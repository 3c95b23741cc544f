//! Calls of bureaus that promise nothing, so that a test needn't go through what the bureau promises each time.

use s3_bureau::{Bureau, Did, Entry, Stop};
use s3_store::PackStore;

/// Does an entry.
pub fn step<S: PackStore>(bureau: &mut Bureau<S>, entry: Entry) -> Result<Did, Stop> {
    bureau.step(entry)
}

/// Ends both levels.
pub fn finish<S: PackStore>(bureau: &mut Bureau<S>) -> Result<(), Stop> {
    bureau.finish()
}
