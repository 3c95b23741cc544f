//! All values of a table that can't be shown.
ghost use Rattle.std.specs.Prelude.{◌≡◌, true, length, IfOk, IfNone, IfSome};
ghost use Rattle.std.specs.List.{All};
ghost use Rattle.s3_slots.specs.Inner.Kept.{IsOfPack};
ghost use Rattle.s3_cells.specs.Inner.Fields.{LiesIn, is_shown};
ghost use Rattle.s3_unload.specs.Inner.Opened.{IsOpened};
ghost use Rattle.s3_unload.specs.Inner.Tables.{IsHiddenValue};

use crate::fault::UnloadFault;
use crate::found::find_file;
use crate::ordered::Records;
use s3_cards::Name;
use s3_cells::{Field, Layout, ShowFault};
use s3_labels::Area;
use s3_record_types::ChosenRecords;
use s3_slots::FileLabel;
use s3_store::MemoryStore;
use std::alloc::{AllocError, Global};

/// A value that can't be shown.
#[derive(Clone, Copy)]
pub struct HiddenValue {
    /// The number of its record in the file, from 1.
    pub record: u32,
    /// Its field.
    pub field: Field,
    /// Why it isn't shown.
    pub fault: ShowFault,
}

/// The values of a table that can't be shown.
#[derive(Drop)]
pub struct HiddenValues {
    /// The first of them, in the order of the table, up to a number.
    pub values: Vec<HiddenValue>,
    /// How many there are.
    pub count: u64,
}

/// The values of the chosen records of a file that can't be shown, the first of them up to a number. Refused as `unload` is, except with
/// `Hidden` and `File`.
pub fn hidden_values(
    alloc: Global,
    pack: &[u8],
    area: Area,
    name: Name,
    layout: &Layout,
    chosen: &ChosenRecords,
    most: usize,
) -> Result<HiddenValues, UnloadFault> {
    let (mut store, label) = find_file(alloc, pack, area, name)?;
    if label.record_length != layout.record_length {
        return Err(UnloadFault::OtherLength(label.record_length));
    }
    let records = Records::open(alloc, &mut store, &label)?;
    let mut bytes = vec![in alloc; 0u8; usize::from(layout.record_length)]?;
    let mut found = HiddenValues {
        values: Vec::new(alloc),
        count: 0,
    };
    add_all(
        alloc,
        &mut store,
        &label,
        &records,
        &layout.fields,
        chosen,
        &mut bytes,
        most,
        &mut found,
    )?;
    Ok(found)
}

/// Adds the values of all chosen records that can't be shown.
fn add_all(
    alloc: Global,
    store: &mut MemoryStore,
    label: &FileLabel,
    records: &Records,
    fields: &[Field],
    chosen: &ChosenRecords,
    bytes: &mut [u8],
    most: usize,
    found: &mut HiddenValues,
) -> Result<(), UnloadFault>
    requires on_pack { IsOfPack (length store.old) label.now }
    requires opened { IsOpened label.now store.old records.now }
    requires long { length bytes.old ≡ label.now.record_length }
    requires within { All (LiesIn label.now.record_length) fields.now }
{
    for n in 0..label.count {
        let place = records.read(store, label, n, bytes)?;
        if chosen.has(bytes) {
            add_record(alloc, place, fields, bytes, most, found)?;
        }
    }
    Ok(())
}

/// Adds the values of record `n` of the file, from 0, that can't be shown.
#[tactic(auto, using(crate::proofs::RowLemmas::field_lies))]
fn add_record(
    alloc: Global,
    n: u32,
    fields: &[Field],
    bytes: &[u8],
    most: usize,
    found: &mut HiddenValues,
) -> Result<(), AllocError>
    requires within { All (LiesIn (length bytes.now)) fields.now }
{
    for field in fields {
        if let Some(fault) = fault_in(alloc, field, bytes)? {
            found.add(
                most,
                HiddenValue {
                    record: n.saturating_add(1),
                    field: *field,
                    fault,
                },
            )?;
        }
    }
    Ok(())
}

/// Why the value of a field of a record can't be shown, if it can't.
fn fault_in(alloc: Global, field: &Field, bytes: &[u8]) -> Result<Option<ShowFault>, AllocError>
    requires within { LiesIn (length bytes.now) field.now }
    ensures shown { IfOk result (λ fault. IfNone fault (is_shown field.now bytes.now ≡ true)) }
    ensures hidden { IfOk result (λ fault. IfSome fault (IsHiddenValue field.now bytes.now)) }
{
    let mut cell = Vec::new(alloc);
    match field.show(bytes, &mut cell) {
        Ok(()) => Ok(None),
        Err(ShowFault::NoMemory) => Err(AllocError),
        Err(fault) => Ok(Some(fault)),
    }
}

impl HiddenValues {
    /// Counts a value, and adds it if there are fewer than a number.
    fn add(&mut self, most: usize, value: HiddenValue) -> Result<(), AllocError> {
        self.count = self.count.saturating_add(1);
        if self.values.len() < most {
            self.values.push(value)?;
        }
        Ok(())
    }
}
