//! A file sorted.
ghost use Rattle.std.specs.Prelude.{◌≡◌, ◌<◌, length, true, IfOk, IfErr, OnOk, IfNone, IfSome};
ghost use Rattle.std.specs.List.{All};
ghost use Rattle.s3_slots.specs.Inner.Kept.{IsOfPack};
ghost use Rattle.s3_slots.specs.Labels.{sectors_of};
ghost use Rattle.s3_slots.specs.declared.label.Organization.TheVariants.{Sequential as SequentialVariant};
ghost use Rattle.s3_labels.specs.Inner.AreaNumbers.{area_number};
ghost use Rattle.s3_labels.specs.Contents.{contents_of};
ghost use Rattle.s3_files.specs.Inner.Files.{AreStored, file_of, records};
ghost use Rattle.s3_pack_care.specs.Inner.Frames.{ChangesBytes, ChangesRecords, IsInFile};
ghost use Rattle.s3_pack_care.specs.Inner.Keys.{fits, key_of};
ghost use Rattle.s3_pack_care.specs.Inner.Rows.{ChangesSectors, KeepsTail, shape_of};
ghost use Rattle.s3_pack_care.specs.Inner.Sorted.{IsArranged, IsFirstMisfit, IsSorted, RefusesFile, RefusesSort, records_of};

use crate::fields::SortField;
use crate::rows::{rows_of, write_rows};
use crate::saving::{bytes_after, saved};
use crate::sort_fault::SortFault;
use crate::{MountedPack, mount};
use s3_cards::Name;
use s3_files::Sequential;
use s3_labels::{Area, FileLabel, LabelFault, Organization, Standing};
use s3_slots::standing_of;
use s3_store::MemoryStore;
use std::alloc::Global;

/// The first field that doesn't fit records of this length, by its place from 0.
fn first_misfit(fields: &[SortField], record_length: u16) -> Option<usize>
    ensures none { IfNone result (All (λ field. fits field record_length ≡ true) fields.now) }
    ensures first { IfSome result (IsFirstMisfit fields.now record_length) }
{
    for i in 0..fields.len() {
        if !fields[i].fits(record_length) {
            return Some(i);
        }
    }
    None
}

/// Sorts the records of a file.
fn sort_file(
    alloc: Global,
    store: &mut MemoryStore,
    file: &Sequential,
    fields: &[SortField],
) -> Result<(), SortFault>
    requires stored { AreStored file.now.sectors store.old }
    requires fields { All (λ field. fits field file.now.record_length ≡ true) fields.now }
    ensures sorted { OnOk result (IsArranged (key_of fields.now) (records (shape_of file.now) store.old) (records (shape_of file.now) store.new)) }
    ensures tail { KeepsTail (shape_of file.now) store.old store.new }
    ensures count { length store.new ≡ length store.old }
    ensures others { ChangesSectors file.now.sectors store.old store.new }
    ensures fault { IfErr result (λ fault. fault ≡ SortFault.NoMemory) }
{
    let mut rows = rows_of(alloc, store, file, fields)?;
    rows.sort()?;
    write_rows(store, file, &rows)?;
    Ok(())
}

/// Sorts the file of a label, if its records are in order and the fields fit them. Refused with `NotInOrder`, with `Field`, and with
/// `NoMemory`.
#[tactic(auto, using(crate::proofs::SortRefusals::memory_file))]
fn sort_label(
    alloc: Global,
    store: &mut MemoryStore,
    label: &FileLabel,
    fields: &[SortField],
) -> Result<(), SortFault>
    requires { IsOfPack (length store.old) label.now }
    ensures in_order { OnOk result (label.now.organization ≡ SequentialVariant) }
    ensures within { OnOk result (All (λ field. fits field label.now.record_length ≡ true) fields.now) }
    ensures sorted { OnOk result (IsArranged (key_of fields.now) (records_of label.now store.old) (records_of label.now store.new)) }
    ensures tail { OnOk result (KeepsTail (file_of label.now) store.old store.new) }
    ensures count { length store.new ≡ length store.old }
    ensures others { ChangesSectors (sectors_of label.now) store.old store.new }
    ensures refused { IfErr result (RefusesFile fields.now label.now) }
{
    match label.organization {
        Organization::Sequential => (),
        Organization::Indexed | Organization::Direct => return Err(SortFault::NotInOrder),
    }
    if let Some(field) = first_misfit(fields, label.record_length) {
        return Err(SortFault::Field(field, label.record_length));
    }
    sort_file(alloc, store, &Sequential::of(label), fields)
}

/// The sectors of a pack with the records of a file sorted. Refused as `sort` says.
fn sorted(
    alloc: Global,
    store: MemoryStore,
    area: Area,
    name: Name,
    fields: &[SortField],
) -> Result<MemoryStore, SortFault>
    ensures sorted { IfOk result (IsSorted (area_number area) name fields.now store) }
    ensures only { IfOk result (ChangesRecords (area_number area) name store) }
    ensures refused { IfErr result (RefusesSort (area_number area) name fields.now store) }
{
    let MountedPack { mut store, areas } = mount(alloc, store)?;
    match standing_of(name, areas.slots_of(area)) {
        Standing::Absent => Err(SortFault::Label(LabelFault::NotFound)),
        Standing::Blocked => Err(SortFault::Label(LabelFault::DamagedLabel)),
        Standing::Present(label) => {
            sort_label(alloc, &mut store, &label, fields)?;
            Ok(store)
        }
    }
}

/// The pack of these bytes with the records of a file sorted by the fields, the first field first. Records that are equal in all
/// fields keep their order. The file must be a sequential one. No byte outside of its records changes.
///
/// Refused with `Mount` by the header; with `Label` if no sound file has the label; with `NotInOrder` if the file is indexed or
/// direct; with `Field` if a field doesn't fit its records; and with `NoMemory`.
pub fn sort(
    alloc: Global,
    pack: Vec<u8>,
    area: Area,
    name: Name,
    fields: &[SortField],
) -> Result<Vec<u8>, SortFault>
    ensures sorted { IfOk result (λ new. IsSorted (area_number area) name fields.now (contents_of pack.items) (contents_of new.items)) }
    ensures only { IfOk result (λ new. ChangesBytes (IsInFile (area_number area) name (contents_of pack.items)) pack.items new.items) }
    ensures refused { IfErr result (RefusesSort (area_number area) name fields.now (contents_of pack.items)) }
{
    let after = Vec::from_slice(alloc, bytes_after(&pack))?;
    let store = sorted(alloc, MemoryStore::from_bytes(pack), area, name, fields)?;
    Ok(saved(store, &after)?)
}
