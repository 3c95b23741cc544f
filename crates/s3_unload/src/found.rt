//! Files found on a pack.
ghost use Rattle.std.specs.Prelude.{◌≡◌, Ok, length, IfOk, IfErr};
ghost use Rattle.s3_slots.specs.Inner.Kept.{IsOfPack};
ghost use Rattle.s3_labels.specs.Contents.{contents_of};
ghost use Rattle.s3_unload.specs.Inner.Found.{IsFound};
ghost use Rattle.s3_unload.specs.Inner.Refusals.{IsFindRefusal};

use crate::fault::UnloadFault;
use s3_cards::Name;
use s3_labels::{Area, FileLabel, Pack, Refused, Standing};
use s3_slots::standing_of;
use s3_store::MemoryStore;
use std::alloc::Global;

/// The file of a label in an area of a pack, by the pack's first 65,535 whole sectors, and these.
#[tactic(auto, using(crate::proofs::Finding::found_on_pack))]
pub fn find_file(
    alloc: Global,
    pack: &[u8],
    area: Area,
    name: Name,
) -> Result<(MemoryStore, FileLabel), UnloadFault>
    ensures found { IfOk result (λ file. IsFound area name (contents_of pack.now) file.1) }
    ensures contents { IfOk result (λ file. file.0 ≡ contents_of pack.now) }
    ensures on_pack { IfOk result (λ file. IsOfPack (length file.0) file.1) }
    ensures refused { IfErr result (IsFindRefusal area name (contents_of pack.now)) }
{
    let store = MemoryStore::from_bytes(Vec::from_slice(alloc, pack)?);
    let (pool, areas) = match Pack::over(alloc, store) {
        Ok(Pack { pool, areas }) => (pool, areas),
        Err(Refused { pool: _, fault }) => return Err(UnloadFault::from(fault)),
    };
    match standing_of(name, areas.slots_of(area)) {
        Standing::Present(label) => Ok((pool, label)),
        Standing::Absent => Err(UnloadFault::NotFound),
        Standing::Blocked => Err(UnloadFault::DamagedLabel),
    }
}
