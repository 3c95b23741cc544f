//! The pack of a run or of a day that is given none, and how many tracks the regions of a new pack have.

use s3_cli::{CliFault, image};
use std::alloc::Global;

/// How many tracks a region of a new pack has by default.
const TRACKS: u16 = 10;

/// `TRACKS` as `bureau init` takes it.
pub const TRACKS_TEXT: &str = "10";

/// The help of `--pack`, if it may be left out.
pub const PACK_HELP: &str = "The pack; a new one with 10 tracks a region if none is given";

/// The pack of a run or of a day that is given none.
pub fn new_pack(alloc: Global) -> Result<Vec<u8>, CliFault> {
    image(alloc, None, TRACKS, TRACKS, TRACKS).map_err(CliFault::Image)
}
