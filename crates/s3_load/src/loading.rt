//! A table loaded into a file of a pack.
ghost use Rattle.std.specs.Prelude.{◌≡◌, ◌<◌, ◌≤◌, ℕ, List, None, Some, length, false, IfOk, OnOk, IfErr};
ghost use Rattle.s3_slots.specs.Inner.Kept.{IsOfPack};
ghost use Rattle.s3_labels.specs.Inner.AreaNumbers.{area_number};
ghost use Rattle.s3_labels.specs.Contents.{contents_of};
ghost use Rattle.s3_labels.specs.Inner.Areas.{IsReady, slots_in};
ghost use Rattle.s3_pack_check.specs.Inner.Damages.{first_damaged as first_damaged_spec};
ghost use Rattle.s3_pack_care.specs.Inner.Frames.{ChangesBytes};
ghost use Rattle.s3_pack_care.specs.Inner.Kept.{IsMounted};
ghost use Rattle.s3_load.specs.Inner.Filling.{records_of};
ghost use Rattle.csv.specs.Reading.{strip_bom};
ghost use Rattle.s3_load.specs.Inner.Quotes.{open_quote};
ghost use Rattle.s3_load.specs.Inner.FixedTexts.{IsLoadedFixed};
ghost use Rattle.s3_load.specs.Inner.Loaded.{ChangesLoaded, HasFile, HasRecords, HasSpace, IsCounted, IsLoaded, IsOfLoad, IsPlaced, KeepsLoadedTail};
ghost use Rattle.s3_load.specs.Inner.Shapes.{KeepsShape};
ghost use Rattle.s3_load.specs.Inner.Refusals.{NamesDamaged, NamesFirst, NamesNone};

use crate::fault::LoadFault;
use crate::filling::{file_there, fill, may_have, new_file};
use crate::fixed::read_fixed;
use crate::order::Order;
use crate::quotes::refuse_open_quote;
use crate::rows::Row;
use crate::shape::refuse_other_shape;
use crate::table::read_table;
use s3_labels::{Area, AreaSlots, FileLabel, Pack, Refusal, Refused, Standing};
use s3_pack_care::{bytes_after, saved};
use s3_pack_check::first_damaged;
use s3_slots::standing_of;
use s3_store::MemoryStore;
use s3_unload::FixedForm;
use std::alloc::Global;
use std::io::{ErrorKind, Read};

/// The pack with the records of a table in a file of a level: a new file, which takes the place of a file of its label that isn't
/// permanent, and has the shape of the new one unless the order allows another, or after the records of the file that is there. Records of a file with an index go in by their keys, whatever
/// the order of the rows. No byte changes but those of the file and its label, and of the label of a file that is replaced. The
/// file's sectors keep each byte that is in no record and in no entry of its index: a new file isn't cleared. Refused as `LoadFault`
/// says, with `DamagedSlot` for the first damaged slot; the pack that is given stays as it is.
#[tactic(auto, using(crate::proofs::Refused::none_named))]
pub fn load<R: Read + Drop>(
    alloc: Global,
    pack: &[u8],
    order: &Order<'_>,
    reader: R,
) -> Result<Vec<u8>, LoadFault>
    ensures loaded { IfOk result (λ new. IsLoaded order.now (R.remaining reader) (contents_of pack.now) (contents_of new.items)) }
    ensures only { IfOk result (λ new. ChangesBytes (IsOfLoad order.now (contents_of pack.now) (contents_of new.items)) pack.now new.items) }
    ensures tail { IfOk result (λ new. KeepsLoadedTail order.now (contents_of pack.now) (contents_of new.items)) }
    ensures shaped { OnOk result (KeepsShape order.now (contents_of pack.now)) }
    ensures damaged { IfErr result (NamesDamaged order.now (contents_of pack.now)) }
    ensures closed { OnOk result ((text : List ℕ) → R.remaining reader ≡ Some text → open_quote order.now.delimiter (strip_bom text) ≡ None) }
{
    let text = read_text(alloc, reader)?;
    refuse_open_quote(&text, order.delimiter)?;
    let rows = read_table(alloc, order, text.as_slice(), &text)?;
    let changed = pack_with(alloc, pack, order, &rows)?;
    Ok(changed)
}

/// The pack with records of a fixed length, as `load` puts them there. The order's fields, types and delimiter don't count.
#[tactic(auto, using(crate::proofs::Refused::none_named))]
pub fn load_fixed<R: Read + Drop>(
    alloc: Global,
    pack: &[u8],
    order: &Order<'_>,
    form: FixedForm,
    reader: R,
) -> Result<Vec<u8>, LoadFault>
    ensures loaded { IfOk result (λ new. IsLoadedFixed order.now form (R.remaining reader) (contents_of pack.now) (contents_of new.items)) }
    ensures only { IfOk result (λ new. ChangesBytes (IsOfLoad order.now (contents_of pack.now) (contents_of new.items)) pack.now new.items) }
    ensures tail { IfOk result (λ new. KeepsLoadedTail order.now (contents_of pack.now) (contents_of new.items)) }
    ensures shaped { OnOk result (KeepsShape order.now (contents_of pack.now)) }
    ensures damaged { IfErr result (NamesDamaged order.now (contents_of pack.now)) }
{
    let text = read_text(alloc, reader)?;
    let rows = read_fixed(alloc, order, form, &text)?;
    let changed = pack_with(alloc, pack, order, &rows)?;
    Ok(changed)
}

/// The pack with records in the file that the order asks for.
#[tactic(auto, using(crate::proofs::Refused::none_named, crate::proofs::Refused::same_named))]
fn pack_with(
    alloc: Global,
    pack: &[u8],
    order: &Order<'_>,
    rows: &[Row],
) -> Result<Vec<u8>, LoadFault>
    ensures loaded { IfOk result (λ new. HasRecords order.now (records_of rows.now) (contents_of pack.now) (contents_of new.items)) }
    ensures only { IfOk result (λ new. ChangesBytes (IsOfLoad order.now (contents_of pack.now) (contents_of new.items)) pack.now new.items) }
    ensures tail { IfOk result (λ new. KeepsLoadedTail order.now (contents_of pack.now) (contents_of new.items)) }
    ensures shaped { OnOk result (KeepsShape order.now (contents_of pack.now)) }
    ensures damaged { IfErr result (NamesDamaged order.now (contents_of pack.now)) }
{
    let mut mounted = mount(alloc, pack)?;
    let shaped = refuse_other_shape(&mounted.areas, order);
    let placed = place_rows(alloc, &mut mounted, order, rows);
    let Pack { pool, areas: _ } = mounted;
    shaped?;
    placed?;
    Ok(saved(pool, bytes_after(pack))?)
}

/// The whole of a text.
fn read_text<R: Read + Drop>(alloc: Global, mut reader: R) -> Result<Vec<u8>, LoadFault>
    ensures text { IfOk result (λ text. (bytes : List ℕ) → R.remaining reader ≡ Some bytes → text.items ≡ bytes) }
    ensures no_slot { IfErr result NamesNone }
{
    let mut text = Vec::new(alloc);
    match reader.read_to_end(&mut text) {
        Ok(_) => Ok(text),
        Err(error) if error.kind() == ErrorKind::OutOfMemory => Err(LoadFault::NoMemory),
        Err(_) => Err(LoadFault::File),
    }
}

/// The pack of these bytes, over a copy of its sectors.
fn mount(alloc: Global, pack: &[u8]) -> Result<Pack<MemoryStore>, LoadFault>
    ensures same { IfOk result (λ mounted. mounted.pool ≡ contents_of pack.now) }
    ensures mounted { IfOk result (λ mounted. IsMounted mounted.areas mounted.pool) }
    ensures ready { IfOk result (λ mounted. IsReady mounted.areas mounted.pool) }
    ensures no_slot { IfErr result NamesNone }
{
    let store = MemoryStore::from_bytes(Vec::from_slice(alloc, pack)?);
    match Pack::over(alloc, store) {
        Ok(mounted) => Ok(mounted),
        Err(Refused { pool: _, fault }) => match fault {
            Refusal::BadPack(fault) => Err(LoadFault::Mount(fault)),
            Refusal::Sectors(_) => Err(LoadFault::NoMemory),
        },
    }
}

/// Puts records into the file that the order asks for: a new file, or the existing one.
#[tactic(auto, using(crate::proofs::Refused::none_named))]
fn place_rows(
    alloc: Global,
    mounted: &mut Pack<MemoryStore>,
    order: &Order<'_>,
    rows: &[Row],
) -> Result<(), LoadFault>
    requires ready { IsReady mounted.old.areas mounted.old.pool }
    requires mounted { IsMounted mounted.old.areas mounted.old.pool }
    ensures file { OnOk result (HasFile order.now (records_of rows.now) mounted.old.areas.header mounted.old.pool mounted.new.pool) }
    ensures only { OnOk result (ChangesLoaded order.now mounted.old.areas.header mounted.old.pool mounted.new.pool) }
    ensures tail { OnOk result (KeepsLoadedTail order.now mounted.old.pool mounted.new.pool) }
    ensures long { OnOk result (length mounted.new.pool ≡ length mounted.old.pool) }
    ensures damaged { IfErr result (NamesDamaged order.now mounted.old.pool) }
{
    let label = placed_label(mounted, order, rows.len())?;
    let count = fill(alloc, &mut mounted.pool, &label, rows)?;
    set_count(mounted, order, count)?;
    Ok(())
}

/// The label of the file that the records go into: of a new one with room for so many, or of the one that is there.
#[tactic(auto, using(crate::proofs::PlacedFiles::there_placed, crate::proofs::Refused::none_named))]
fn placed_label(
    mounted: &mut Pack<MemoryStore>,
    order: &Order<'_>,
    count: usize,
) -> Result<FileLabel, LoadFault>
    requires ready { IsReady mounted.old.areas mounted.old.pool }
    requires mounted { IsMounted mounted.old.areas mounted.old.pool }
    ensures placed { IfOk result (IsPlaced order.now mounted.old.areas.header mounted.old.pool mounted.new.pool) }
    ensures space { IfOk result (λ label. order.now.appends ≡ false → HasSpace order.now count mounted.old.areas.header mounted.old.pool label) }
    ensures on_pack { IfOk result (IsOfPack (length mounted.new.pool)) }
    ensures ready { OnOk result (IsReady mounted.new.areas mounted.new.pool) }
    ensures mounted { OnOk result (IsMounted mounted.new.areas mounted.new.pool) }
    ensures header { OnOk result (mounted.new.areas.header ≡ mounted.old.areas.header) }
    ensures long { OnOk result (length mounted.new.pool ≡ length mounted.old.pool) }
    ensures damaged { IfErr result (NamesDamaged order.now mounted.old.pool) }
{
    if order.appends {
        file_there(mounted, order)
    } else {
        made_file(mounted, order, count)
    }
}

/// Makes a new file with space for so many records. Refused with `DamagedSlot` if the level's area has a damaged slot.
#[tactic(auto, using(crate::proofs::PlacedFiles::set_header, crate::proofs::Refused::none_named, crate::proofs::Refused::first_named))]
fn made_file(
    mounted: &mut Pack<MemoryStore>,
    order: &Order<'_>,
    count: usize,
) -> Result<FileLabel, LoadFault>
    requires anew { order.now.appends ≡ false }
    requires ready { IsReady mounted.old.areas mounted.old.pool }
    requires mounted { IsMounted mounted.old.areas mounted.old.pool }
    ensures placed { IfOk result (IsPlaced order.now mounted.old.areas.header mounted.old.pool mounted.new.pool) }
    ensures space { IfOk result (HasSpace order.now count mounted.old.areas.header mounted.old.pool) }
    ensures on_pack { IfOk result (IsOfPack (length mounted.new.pool)) }
    ensures ready { OnOk result (IsReady mounted.new.areas mounted.new.pool) }
    ensures mounted { OnOk result (IsMounted mounted.new.areas mounted.new.pool) }
    ensures header { OnOk result (mounted.new.areas.header ≡ mounted.old.areas.header) }
    ensures long { OnOk result (length mounted.new.pool ≡ length mounted.old.pool) }
    ensures damaged { IfErr result (NamesDamaged order.now mounted.old.pool) }
{
    refuse_damaged(&mounted.areas, Area::Level(order.level))?;
    let new = new_file(order, count)?;
    let label = mounted.make(order.level, &new)?;
    Ok(label)
}

/// Refuses an area that has a damaged slot.
fn refuse_damaged(areas: &AreaSlots, area: Area) -> Result<(), LoadFault>
    ensures none { OnOk result (first_damaged_spec (slots_in (area_number area) areas.now) ≡ None) }
    ensures first { IfErr result (NamesFirst (slots_in (area_number area) areas.now)) }
{
    match first_damaged(areas, area) {
        Some(slot) => Err(LoadFault::DamagedSlot(slot)),
        None => Ok(()),
    }
}

/// Sets the count of the file, which has room for so many records.
fn set_count(
    mounted: &mut Pack<MemoryStore>,
    order: &Order<'_>,
    count: u32,
) -> Result<(), LoadFault>
    requires ready { IsReady mounted.old.areas mounted.old.pool }
    requires mounted { IsMounted mounted.old.areas mounted.old.pool }
    ensures counted { OnOk result (IsCounted order.now.level order.now.name count mounted.old.areas.header mounted.old.pool mounted.new.pool) }
    ensures long { OnOk result (length mounted.new.pool ≡ length mounted.old.pool) }
    ensures no_slot { IfErr result NamesNone }
{
    let Standing::Present(label) = standing_of(order.name, mounted.areas.slots(order.level)) else {
        return Err(LoadFault::OtherKind);
    };
    if !may_have(&label, count) {
        return Err(LoadFault::OtherKind);
    }
    mounted.set_count(order.level, order.name, count)?;
    Ok(())
}
