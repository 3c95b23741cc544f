//! The map of a pack.

use crate::changed::text_of;
use crate::owned::Place;
use s3_labels::{Area, AreaSlots, FileLabel, Slot};
use s3_pack_check::region_of;
use s3_store::Stretch;
use std::alloc::{AllocError, Global};

/// The sectors of a track.
pub(crate) const TRACK: u16 = 24;

/// The files of an area, extent by extent.
pub(crate) fn places_of(
    alloc: Global,
    areas: &AreaSlots,
    area: Area,
) -> Result<Vec<Place>, AllocError> {
    let region = region_of(areas, area);
    let mut places = Vec::new(alloc);
    for slot in areas.slots_of(area) {
        if let Slot::Sound(label) = slot {
            push_places(alloc, &mut places, region, label)?;
        }
    }
    Ok(places)
}

/// Appends the extents of a file.
fn push_places(
    alloc: Global,
    places: &mut Vec<Place>,
    region: Stretch,
    label: &FileLabel,
) -> Result<(), AllocError> {
    for extent in label.extents.as_slice() {
        places.push(Place {
            name: text_of(alloc, label.name)?,
            before: u64::from(extent.start.saturating_sub(region.start) / TRACK),
            tracks: u64::from(extent.sectors / TRACK),
            records: u64::from(label.count),
        })?;
    }
    Ok(())
}
