//! The list of a pack's files.
ghost use Rattle.std.specs.Prelude.{◌≡◌, Ok, OnOk, IfOk, IfErr};
ghost use Rattle.s3_slots.specs.Header.{mounted};
ghost use Rattle.s3_labels.specs.Inner.Areas.{areas_on};
ghost use Rattle.s3_labels.specs.Contents.{contents_of};
ghost use Rattle.s3_listing.specs.Inner.Faults.{fault_of as fault_of_spec};
ghost use Rattle.s3_listing.specs.Inner.Listing.{text_of as text_of_spec, listing, WritesText, IsRefused};

use crate::fault::ListFault;
use crate::lines::push_area;
use s3_cards::LevelId;
use s3_labels::{Area, AreaSlots, Pack, Refusal, Refused};
use s3_store::MemoryStore;
use std::alloc::{AllocError, Global};
use std::io::Write;

/// Writes a line for each used slot of a pack: of the masters, of level 1 and of level 2, in slot order (docs/PACK.md,
/// "Commands").
///
/// Refused with `Mount`, `NoMemory` or `File`. A refused call writes nothing, unless a write failed.
pub fn list<W: Write>(alloc: Global, pack: &[u8], writer: &mut W) -> Result<(), ListFault>
    ensures wrote { OnOk result (WritesText (listing pack.now) (W.contents writer.old) (W.contents writer.new)) }
    ensures refused { IfErr result (IsRefused (listing pack.now)) }
{
    let slots = mount_slots(alloc, pack)?;
    let text = text_of(alloc, &slots)?;
    match writer.write_all(text.as_slice()) {
        Ok(()) => Ok(()),
        Err(_) => Err(ListFault::File),
    }
}

/// The slots of a pack, by its first 65,535 whole sectors. It is refused by its header alone, or for want of memory.
pub fn mount_slots(alloc: Global, pack: &[u8]) -> Result<AreaSlots, ListFault>
    ensures header { IfOk result (λ slots. mounted (contents_of pack.now) ≡ Ok slots.header) }
    ensures slots { IfOk result (λ slots. slots ≡ areas_on slots.header (contents_of pack.now)) }
    ensures refused { IfErr result (IsRefused (listing pack.now)) }
{
    let store = MemoryStore::from_bytes(Vec::from_slice(alloc, pack)?);
    match Pack::over(alloc, store) {
        Ok(Pack { pool: _, areas }) => Ok(areas),
        Err(Refused { pool: _, fault }) => Err(fault_of(fault)),
    }
}

/// The refusal of a listing, from the refusal of a mount over a store in memory, which never fails.
fn fault_of(refusal: Refusal) -> ListFault
    ensures { result ≡ fault_of_spec refusal }
{
    match refusal {
        Refusal::BadPack(fault) => ListFault::Mount(fault),
        Refusal::Sectors(_) => ListFault::NoMemory,
    }
}

/// The lines of the used slots.
fn text_of(alloc: Global, slots: &AreaSlots) -> Result<Vec<u8>, AllocError>
    ensures { IfOk result (λ text. text.items ≡ text_of_spec slots.now) }
{
    let mut text = Vec::new(alloc);
    push_area(&mut text, Area::Masters, slots.masters())?;
    let level_one = Area::Level(LevelId::One);
    push_area(&mut text, level_one, slots.slots(LevelId::One))?;
    let level_two = Area::Level(LevelId::Two);
    push_area(&mut text, level_two, slots.slots(LevelId::Two))?;
    Ok(text)
}
