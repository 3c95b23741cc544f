//! The labels of a pack, written.
ghost use Rattle.std.specs.Prelude.{◌≡◌, ◌≢◌, ◌≤◌, ◌<◌, ◌+◌, ◌*◌, ◌/◌, ℕ, length, replicate, slice_get, Some, true, OnOk, IfSome};
ghost use Rattle.s3_store.specs.Inner.State.{ChangesWithin};
ghost use Rattle.s3_store.specs.Inner.Failures.{failed_transfers};
ghost use Rattle.s3_slots.specs.Slots.{labels_at, slot_bytes};
ghost use Rattle.s3_slots.specs.Inner.Labels.{label_bytes};
ghost use Rattle.s3_slots.specs.Labels.{is_direct, sectors_of};
ghost use Rattle.s3_slots.specs.Stretches.{IsIn};
ghost use Rattle.s3_store.specs.Stretches.{end_of, sectors_in};
ghost use Rattle.std.specs.List.{All, Contains};
ghost use Rattle.s3_labels.specs.Areas.{IsLabelSector};
ghost use Rattle.s3_labels.specs.Inner.AreaNumbers.{area_number};
ghost use Rattle.s3_labels.specs.Inner.Areas.{IsRecordOfDirect, AreFilled, with_count_bytes};

use crate::area::Area;
use crate::reading::read_slot;
use byteorder::{BigEndian, ByteOrder};
use s3_cards::ebcdic::BLANK;
use s3_slots::{FileLabel, Made, Organization, bytes_of};
use s3_store::{SectorFault, Sectors, Stretch, put_part};

/// Writes the 64 bytes of slot `i`, 0 to 31, of an area.
pub fn write_slot<P: Sectors>(
    pool: &mut P,
    area: Area,
    i: u16,
    bytes: &[u8; 64],
) -> Result<(), SectorFault>
    requires slot { i < 32 }
    requires room { 25 ≤ length (P.state pool.old).contents }
    ensures written { OnOk result (slot_bytes (area_number area) (P.state pool.new).contents i ≡ bytes.now) }
    ensures others { (j : ℕ) → j ≢ i → slot_bytes (area_number area) (P.state pool.new).contents j ≡ slot_bytes (area_number area) (P.state pool.old).contents j }
    ensures within { ChangesWithin (λ n. n ≡ labels_at (area_number area) + i / 4) (P.state pool.old) (P.state pool.new) }
    ensures failures { (P.state pool.new).failures ≡ (P.state pool.old).failures + failed_transfers result }
{
    pool.change_sector(area.label_sector(i), usize::from(i % 4) * 64, bytes)
}

/// Writes zeros to the slot that a make has freed, unless the make has filled the same slot.
#[tactic(auto, using(crate::proofs::Parts::slot_within, s3_store::proofs::Frames::within_refl))]
fn clear_freed<P: Sectors>(
    pool: &mut P,
    area: Area,
    freed: Option<usize>,
    at: usize,
) -> Result<(), SectorFault>
    requires freed { IfSome freed (λ i. i < 32) }
    requires room { 25 ≤ length (P.state pool.old).contents }
    ensures cleared { OnOk result (IfSome freed (λ i. i ≢ at → slot_bytes (area_number area) (P.state pool.new).contents i ≡ replicate 64 0)) }
    ensures others { (j : ℕ) → freed ≢ Some j → slot_bytes (area_number area) (P.state pool.new).contents j ≡ slot_bytes (area_number area) (P.state pool.old).contents j }
    ensures within { ChangesWithin (IsLabelSector (area_number area)) (P.state pool.old) (P.state pool.new) }
    ensures failures { (P.state pool.new).failures ≡ (P.state pool.old).failures + failed_transfers result }
{
    match freed {
        Some(i) if i != at => write_slot(pool, area, i as u16, &[0; 64]),
        _ => Ok(()),
    }
}

/// Writes zeros to slot `i`, 0 to 31, of an area, which so is free.
#[tactic(auto, using(crate::proofs::Parts::slot_within))]
pub fn clear_slot<P: Sectors>(pool: &mut P, area: Area, i: u16) -> Result<(), SectorFault>
    requires slot { i < 32 }
    requires room { 25 ≤ length (P.state pool.old).contents }
    ensures cleared { OnOk result (slot_bytes (area_number area) (P.state pool.new).contents i ≡ replicate 64 0) }
    ensures others { (j : ℕ) → j ≢ i → slot_bytes (area_number area) (P.state pool.new).contents j ≡ slot_bytes (area_number area) (P.state pool.old).contents j }
    ensures within { ChangesWithin (IsLabelSector (area_number area)) (P.state pool.old) (P.state pool.new) }
    ensures failures { (P.state pool.new).failures ≡ (P.state pool.old).failures + failed_transfers result }
{
    write_slot(pool, area, i, &[0; 64])
}

/// Writes the count of records into slot `i`, 0 to 31, of an area.
#[tactic(auto, using(crate::proofs::Parts::count_written))]
pub fn write_count<P: Sectors>(
    pool: &mut P,
    area: Area,
    i: u16,
    count: u32,
) -> Result<(), SectorFault>
    requires slot { i < 32 }
    requires room { 25 ≤ length (P.state pool.old).contents }
    ensures written { OnOk result (slot_bytes (area_number area) (P.state pool.new).contents i ≡ with_count_bytes count (slot_bytes (area_number area) (P.state pool.old).contents i)) }
    ensures others { (j : ℕ) → j ≢ i → slot_bytes (area_number area) (P.state pool.new).contents j ≡ slot_bytes (area_number area) (P.state pool.old).contents j }
    ensures within { ChangesWithin (IsLabelSector (area_number area)) (P.state pool.old) (P.state pool.new) }
    ensures failures { (P.state pool.new).failures ≡ (P.state pool.old).failures + failed_transfers result }
{
    let mut bytes = read_slot(pool, area, i)?;
    let mut number = [0; 4];
    BigEndian::write_u32(&mut number, count);
    put_part(&mut bytes, 24, &number);
    write_slot(pool, area, i, &bytes)
}

/// Fills the sectors of a run with blanks.
fn blank_run<P: Sectors>(pool: &mut P, run: Stretch) -> Result<(), SectorFault>
    requires there { end_of run ≤ length (P.state pool.old).contents }
    requires few { end_of run ≤ 65535 }
    ensures blank { OnOk result ((n : ℕ) → IsIn run n → slice_get (P.state pool.new).contents n ≡ Some (replicate 256 BLANK)) }
    ensures within { ChangesWithin (IsIn run) (P.state pool.old) (P.state pool.new) }
    ensures failures { (P.state pool.new).failures ≡ (P.state pool.old).failures + failed_transfers result }
{
    for n in run.start..run.start + run.sectors {
        pool.write_sector(n, &[BLANK; 256])?;
    }
    Ok(())
}

/// Fills the sectors of runs with blanks.
fn blank_runs<P: Sectors>(pool: &mut P, runs: &[Stretch]) -> Result<(), SectorFault>
    requires there { All (λ run. end_of run ≤ length (P.state pool.old).contents) runs.now }
    requires few { All (λ run. end_of run ≤ 65535) runs.now }
    ensures blank { OnOk result (AreFilled BLANK (sectors_in runs.now) (P.state pool.new).contents) }
    ensures within { ChangesWithin (Contains (sectors_in runs.now)) (P.state pool.old) (P.state pool.new) }
    ensures failures { (P.state pool.new).failures ≡ (P.state pool.old).failures + failed_transfers result }
{
    match runs.split_first() {
        None => Ok(()),
        Some((first, rest)) => {
            blank_runs(pool, rest)?;
            blank_run(pool, *first)
        }
    }
}

/// Writes the records that a new file has from the start: those of a direct file, which are blank.
#[tactic(auto, using(s3_store::proofs::Frames::within_refl), unfolding(s3_slots::specs::Labels::sectors_of))]
pub fn write_records<P: Sectors>(pool: &mut P, label: &FileLabel) -> Result<(), SectorFault>
    requires there { All (λ run. end_of run ≤ length (P.state pool.old).contents) label.now.extents }
    requires few { All (λ run. end_of run ≤ 65535) label.now.extents }
    ensures blank { OnOk result (is_direct label.now.organization ≡ true → AreFilled BLANK (sectors_of label.now) (P.state pool.new).contents) }
    ensures within { ChangesWithin (IsRecordOfDirect label.now) (P.state pool.old) (P.state pool.new) }
    ensures failures { (P.state pool.new).failures ≡ (P.state pool.old).failures + failed_transfers result }
{
    match label.organization {
        Organization::Direct => blank_runs(pool, label.extents.as_slice()),
        Organization::Sequential | Organization::Indexed => Ok(()),
    }
}

/// Writes the slots that the making of a file has changed.
#[tactic(auto, using(crate::proofs::Parts::slot_within, s3_store::proofs::Frames::within_trans))]
pub fn write_made<P: Sectors>(pool: &mut P, area: Area, made: &Made) -> Result<(), SectorFault>
    requires freed { IfSome made.now.freed (λ i. i < 32) }
    requires at { made.now.at < 32 }
    requires room { 25 ≤ length (P.state pool.old).contents }
    ensures written { OnOk result (slot_bytes (area_number area) (P.state pool.new).contents made.now.at ≡ label_bytes made.now.label) }
    ensures cleared { OnOk result (IfSome made.now.freed (λ i. i ≢ made.now.at → slot_bytes (area_number area) (P.state pool.new).contents i ≡ replicate 64 0)) }
    ensures others { (j : ℕ) → made.now.freed ≢ Some j → j ≢ made.now.at → slot_bytes (area_number area) (P.state pool.new).contents j ≡ slot_bytes (area_number area) (P.state pool.old).contents j }
    ensures within { ChangesWithin (IsLabelSector (area_number area)) (P.state pool.old) (P.state pool.new) }
    ensures failures { (P.state pool.new).failures ≡ (P.state pool.old).failures + failed_transfers result }
{
    clear_freed(pool, area, made.freed, made.at)?;
    write_slot(pool, area, made.at as u16, &bytes_of(&made.label))
}
