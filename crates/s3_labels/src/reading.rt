//! The labels of a pack, read.
ghost use Rattle.std.specs.Prelude.{◌≡◌, ◌≤◌, ◌<◌, ◌+◌, length, IfOk};
ghost use Rattle.s3_store.specs.Inner.State.{KeepsContents};
ghost use Rattle.s3_store.specs.Inner.Failures.{failed_transfers};
ghost use Rattle.s3_store.specs.Bytes.{sector_bytes};
ghost use Rattle.s3_slots.specs.Slots.{slot_bytes, slots_of};
ghost use Rattle.s3_labels.specs.Inner.AreaNumbers.{area_number};

use crate::area::Area;
use s3_slots::{Format, Slot, judge};
use s3_store::{SectorFault, Sectors, Stretch};
use std::alloc::Global;

/// Reads sector `n`.
#[tactic(auto, using(crate::proofs::Ways::sector_read))]
pub fn read_at<P: Sectors>(pool: &mut P, n: u16) -> Result<[u8; 256], SectorFault>
    requires { n < length (P.state pool.old).contents }
    ensures ok { IfOk result (λ bytes. bytes ≡ sector_bytes (P.state pool.old).contents n) }
    ensures keeps { KeepsContents (P.state pool.old) (P.state pool.new) }
    ensures failures { (P.state pool.new).failures ≡ (P.state pool.old).failures + failed_transfers result }
{
    let mut bytes = [0; 256];
    pool.read_sector(n, &mut bytes)?;
    Ok(bytes)
}

/// Reads the 64 bytes of slot `i`, 0 to 31, of an area.
pub fn read_slot<P: Sectors>(pool: &mut P, area: Area, i: u16) -> Result<[u8; 64], SectorFault>
    requires slot { i < 32 }
    requires room { 25 ≤ length (P.state pool.old).contents }
    ensures ok { IfOk result (λ bytes. bytes ≡ slot_bytes (area_number area) (P.state pool.old).contents i) }
    ensures keeps { KeepsContents (P.state pool.old) (P.state pool.new) }
    ensures failures { (P.state pool.new).failures ≡ (P.state pool.old).failures + failed_transfers result }
{
    let sector = read_at(pool, area.label_sector(i))?;
    let at = usize::from(i % 4) * 64;
    let mut bytes = [0; 64];
    bytes.copy_from_slice(&sector[at..at + 64]);
    Ok(bytes)
}

/// Reads the 32 slots of an area, each judged by its bytes and the slots before it.
pub fn read_slots<P: Sectors>(
    alloc: Global,
    pool: &mut P,
    format: Format,
    region: Stretch,
    area: Area,
) -> Result<Vec<Slot>, SectorFault>
    requires room { 25 ≤ length (P.state pool.old).contents }
    ensures slots { IfOk result (λ slots. slots.items ≡ slots_of format region (area_number area) (P.state pool.old).contents) }
    ensures count { IfOk result (λ slots. length slots.items ≡ 32) }
    ensures keeps { KeepsContents (P.state pool.old) (P.state pool.new) }
    ensures failures { (P.state pool.new).failures ≡ (P.state pool.old).failures + failed_transfers result }
{
    let mut slots = Vec::new(alloc);
    for i in 0..32u16 {
        let bytes = read_slot(pool, area, i)?;
        let slot = judge(format, region, &slots, &bytes);
        slots.push(slot)?;
    }
    Ok(slots)
}
