//! The pack of the sessions, and what no session may change of it.

use crate::packs::new_pack;
use s3_labels::ImageFault;
use std::alloc::Global;

/// A new pack with one track for the masters and two for each level. The labels of the masters and all regions have a mark in
/// each sector: damaged labels that are no names.
pub fn marked_pack(alloc: Global) -> Result<Vec<u8>, ImageFault> {
    let mut bytes = new_pack(alloc, 2)?;
    for (at, byte) in bytes.iter_mut().enumerate() {
        let sector = at / 256;
        if matches!(sector, 1..=8 | 168..=287) {
            *byte = 0x80 | (sector % 128) as u8;
        }
    }
    Ok(bytes)
}

/// Whether a sector must stay: the header's, those of the masters, and those of level 2 if it has no entry.
fn stays(sector: usize, is_alone: bool) -> bool {
    match sector {
        0..=8 | 168..=191 => true,
        17..=24 | 240..=287 => is_alone,
        _ => false,
    }
}

/// Whether all sectors that have to stay are as before. `is_alone`: no entry is level 2's.
pub fn are_spared(before: &[u8], after: &[u8], is_alone: bool) -> bool {
    before.len() == after.len()
        && before.iter().zip(after).enumerate().all(|(at, (old, new))| old == new
            || !stays(at / 256, is_alone))
}
