//! A record amended.
ghost use Rattle.std.specs.Prelude.{◌≡◌, ◌<◌, true, [], length, slice_get, Some, IfNone, IfOk, OnOk};
ghost use Rattle.std.specs.List.{All};
ghost use Rattle.s3_slots.specs.Inner.Kept.{IsOfPack};
ghost use Rattle.s3_slots.specs.Labels.{sectors_of};
ghost use Rattle.s3_labels.specs.Inner.AreaNumbers.{area_number};
ghost use Rattle.s3_labels.specs.Contents.{contents_of};
ghost use Rattle.s3_pack_care.specs.Inner.Frames.{ChangesBytes, ChangesRecords, IsInFile};
ghost use Rattle.s3_pack_care.specs.Inner.Rows.{ChangesSectors};
ghost use Rattle.s3_cells.specs.Inner.Fields.{LiesIn};
ghost use Rattle.s3_unload.specs.Inner.Ordered.{in_order};
ghost use Rattle.s3_load.specs.Inner.Columns.{LieApart};
ghost use Rattle.s3_load.specs.Inner.Records.{HasTaken};
ghost use Rattle.s3_amend.specs.Inner.Settings.{AreNamed, values_of};
ghost use Rattle.s3_amend.specs.Inner.Meant.{IsMeant};
ghost use Rattle.s3_amend.specs.Inner.Amended.{AmendsFile, AmendsRecord, IsAmended, is_of_type};

use crate::amendment::Amendment;
use crate::choosing::{place_of, put_record, read_record};
use crate::fault::{AmendFault, Mistake};
use crate::fields::{named_fields, note, note_overlaps, take_values};
use s3_cards::ebcdic::BLANK;
use s3_cells::Field;
use s3_labels::{FileLabel, LabelFault, Standing};
use s3_pack_care::{MountedPack, bytes_after, mount, saved};
use s3_record_types::{ChosenRecords, TypeFault};
use s3_slots::standing_of;
use s3_store::MemoryStore;
use std::alloc::{AllocError, Global};

/// A record before and after it was amended.
#[derive(Drop)]
pub struct AmendedRecord {
    /// Its place in the file, from 0.
    pub place: u32,
    /// Its bytes before.
    pub before: Vec<u8>,
    /// Its bytes after.
    pub after: Vec<u8>,
}

/// A pack with an amended record.
#[derive(Drop)]
pub struct Amended {
    /// The bytes of the pack.
    pub pack: Vec<u8>,
    /// The record.
    pub changed: AmendedRecord,
}

/// The sectors of a pack with an amended record.
#[derive(Drop)]
struct AmendedStore {
    store: MemoryStore,
    changed: AmendedRecord,
}

/// The fields that get values, and the place of the record, from 0.
#[derive(Drop)]
struct Plan {
    named: Vec<Field>,
    place: u32,
}

/// The pack of these bytes with one record of a file amended. Only the fields that the amendment names change. Refused as `AmendFault`
/// says.
pub fn amend(alloc: Global, pack: Vec<u8>, amendment: &Amendment<'_>) -> Result<Amended, AmendFault>
    ensures amended { IfOk result (λ amended. IsAmended amendment.now amended.changed (contents_of pack.items) (contents_of amended.pack.items)) }
    ensures only { IfOk result (λ amended. ChangesBytes (IsInFile (area_number amendment.now.area) amendment.now.name (contents_of pack.items)) pack.items amended.pack.items) }
{
    let after = Vec::from_slice(alloc, bytes_after(&pack))?;
    let amended = amended_store(alloc, MemoryStore::from_bytes(pack), amendment)?;
    let AmendedStore { store, changed } = amended;
    let pack = saved(store, &after)?;
    Ok(Amended { pack, changed })
}

/// The sectors of a pack with one record of a file amended.
fn amended_store(
    alloc: Global,
    store: MemoryStore,
    amendment: &Amendment<'_>,
) -> Result<AmendedStore, AmendFault>
    ensures amended { IfOk result (λ amended. IsAmended amendment.now amended.changed store amended.store) }
    ensures only { IfOk result (λ amended. ChangesRecords (area_number amendment.now.area) amendment.now.name store amended.store) }
{
    let MountedPack { mut store, areas } = mount(alloc, store)?;
    match standing_of(amendment.name, areas.slots_of(amendment.area)) {
        Standing::Absent => Err(AmendFault::Label(LabelFault::NotFound)),
        Standing::Blocked => Err(AmendFault::Label(LabelFault::DamagedLabel)),
        Standing::Present(label) => {
            let changed = amend_file(alloc, &mut store, &label, amendment)?;
            Ok(AmendedStore { store, changed })
        }
    }
}

/// Amends a record of the file of a label.
fn amend_file(
    alloc: Global,
    store: &mut MemoryStore,
    label: &FileLabel,
    amendment: &Amendment<'_>,
) -> Result<AmendedRecord, AmendFault>
    requires { IsOfPack (length store.old) label.now }
    ensures amended { IfOk result (λ amended. AmendsFile amendment.now label.now amended store.old store.new) }
    ensures only { ChangesSectors (sectors_of label.now) store.old store.new }
    ensures count { length store.new ≡ length store.old }
{
    if label.record_length != amendment.layout.record_length {
        return Err(AmendFault::OtherLength(label.record_length));
    }
    let amended = amended_record(alloc, store, label, amendment)?;
    put_record(store, label, amended.place, &amended.after)?;
    Ok(amended)
}

/// The record that an amendment means, before and after. All that is wrong with the amendment is reported.
fn amended_record(
    alloc: Global,
    store: &mut MemoryStore,
    label: &FileLabel,
    amendment: &Amendment<'_>,
) -> Result<AmendedRecord, AmendFault>
    requires on_pack { IsOfPack (length store.old) label.now }
    requires long { label.now.record_length ≡ amendment.now.layout.now.record_length }
    ensures is_meant { IfOk result (λ amended. IsMeant amendment.now.which amendment.now.layout.now.fields.items label.now (in_order label.now store.old) amended.place) }
    ensures there { IfOk result (λ amended. slice_get (in_order label.now store.old) amended.place ≡ Some amended.before.items) }
    ensures amends { IfOk result (λ amended. AmendsRecord amendment.now label.now amended.before.items amended.after.items) }
    ensures long { IfOk result (λ amended. length amended.after.items ≡ label.now.record_length) }
    ensures keeps { store.new ≡ store.old }
{
    let Plan { named, place } = planned(alloc, store, label, amendment)?;
    let mut after = vec![in alloc; BLANK; usize::from(label.record_length)]?;
    read_record(store, label, place, &mut after)?;
    let before = Vec::from_slice(alloc, &after)?;
    change(alloc, &named, amendment, &before, &mut after)?;
    Ok(AmendedRecord {
        place,
        before,
        after,
    })
}

/// The fields that an amendment names, and the place of the record that it means. Refused with all that is wrong with it.
fn planned(
    alloc: Global,
    store: &mut MemoryStore,
    label: &FileLabel,
    amendment: &Amendment<'_>,
) -> Result<Plan, AmendFault>
    requires on_pack { IsOfPack (length store.old) label.now }
    requires long { label.now.record_length ≡ amendment.now.layout.now.record_length }
    ensures place { IfOk result (λ plan. IsMeant amendment.now.which amendment.now.layout.now.fields.items label.now (in_order label.now store.old) plan.place) }
    ensures named { IfOk result (λ plan. AreNamed amendment.now.layout.now.fields.items label.now amendment.now.settings.now (length amendment.now.settings.now) plan.named.items) }
    ensures apart { IfOk result (λ plan. LieApart plan.named.items) }
    ensures keeps { store.new ≡ store.old }
{
    let mut mistakes = Vec::new(alloc);
    let named = plan_fields(alloc, label, amendment, &mut mistakes)?;
    let place = place_of(
        alloc,
        store,
        label,
        amendment.layout,
        amendment.which,
        &mut mistakes,
    )?;
    match place {
        Some(place) if mistakes.is_empty() => Ok(Plan { named, place }),
        _ => Err(AmendFault::Mistakes(mistakes)),
    }
}

/// The fields that an amendment names. What is wrong with them and their values is added to the mistakes.
fn plan_fields(
    alloc: Global,
    label: &FileLabel,
    amendment: &Amendment<'_>,
    mistakes: &mut Vec<Mistake>,
) -> Result<Vec<Field>, AmendFault>
    ensures named { IfOk result (λ named. mistakes.new.items ≡ [] → AreNamed amendment.now.layout.now.fields.items label.now amendment.now.settings.now (length amendment.now.settings.now) named.items) }
    ensures apart { IfOk result (λ named. mistakes.new.items ≡ [] → LieApart named.items) }
    ensures before { OnOk result (mistakes.new.items ≡ [] → mistakes.old.items ≡ []) }
{
    let mut scratch = vec![in alloc; BLANK; usize::from(amendment.layout.record_length)]?;
    let named = named_fields(
        alloc,
        &amendment.layout.fields,
        label,
        amendment.settings,
        &mut scratch,
        mistakes,
    )?;
    note_overlaps(&named, mistakes)?;
    Ok(named)
}

/// Puts the values of an amendment into the fields of a record.
fn change(
    alloc: Global,
    named: &[Field],
    amendment: &Amendment<'_>,
    before: &[u8],
    after: &mut [u8],
) -> Result<(), AmendFault>
    requires within { All (LiesIn (length after.old)) named.now }
    requires apart { LieApart named.now }
    requires counted { length named.now ≡ length amendment.now.settings.now }
    ensures taken { OnOk result (HasTaken named.now (values_of amendment.now.settings.now) after.old (length named.now) after.new) }
    ensures was_chosen { OnOk result (is_of_type amendment.now.chosen.now before.now ≡ true) }
    ensures chosen { OnOk result (is_of_type amendment.now.chosen.now after.new ≡ true) }
{
    let mut mistakes = Vec::new(alloc);
    take_values(alloc, named, amendment.settings, after, &mut mistakes)?;
    note_types(amendment.chosen, before, after, &mut mistakes)?;
    if mistakes.is_empty() {
        Ok(())
    } else {
        Err(AmendFault::Mistakes(mistakes))
    }
}

/// Adds to the mistakes that a record isn't of the chosen type, before or after it is amended.
#[tactic(auto, using(s3_load::proofs::ColumnLemmas::none_told))]
fn note_types(
    chosen: &ChosenRecords,
    before: &[u8],
    after: &[u8],
    mistakes: &mut Vec<Mistake>,
) -> Result<(), AllocError>
    ensures was_chosen { OnOk result (mistakes.new.items ≡ [] → is_of_type chosen.now before.now ≡ true) }
    ensures chosen { OnOk result (mistakes.new.items ≡ [] → is_of_type chosen.now after.now ≡ true) }
    ensures before { OnOk result (mistakes.new.items ≡ [] → mistakes.old.items ≡ []) }
{
    if let Some(fault) = type_fault(chosen, before) {
        return note(mistakes, Mistake::OtherType(fault));
    }
    match type_fault(chosen, after) {
        Some(fault) => note(mistakes, Mistake::LeavesType(fault)),
        None => Ok(()),
    }
}

/// Why a record isn't of the chosen type. If no type is chosen, it is of none.
fn type_fault(chosen: &ChosenRecords, bytes: &[u8]) -> Option<TypeFault>
    ensures { IfNone result (is_of_type chosen.now bytes.now ≡ true) }
{
    match chosen {
        ChosenRecords::All => Some(TypeFault::NoType),
        ChosenRecords::OfType(..) => chosen.fault_in(bytes),
    }
}
