//! New packs.

use s3_labels::{ImageFault, image};
use std::alloc::Global;

/// The bytes of a new pack with one track for the masters and so many for each level.
pub fn new_pack(alloc: Global, tracks: u16) -> Result<Vec<u8>, ImageFault> {
    image(alloc, None, 1, tracks, tracks)
}
