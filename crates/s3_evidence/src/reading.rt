//! Bytes of a file, read through a bureau.
ghost use Rattle.std.specs.Prelude.{◌≡◌, true, nat_eq, slice_get, IfOk, IfSome};
ghost use Rattle.std.specs.List.{list_any};
ghost use Rattle.s3_store.specs.Stretches.{sectors_in};
ghost use Rattle.s3_bureau.specs.Inner.Queries.{IsFound};
ghost use Rattle.s3_evidence.specs.Inner.About.{AreOfSectors, IsPartOf};
ghost use Rattle.s3_evidence.specs.Inner.Looks.{Looks, stop_in};

use s3_bureau::{Bureau, Stop};
use s3_store::{PackStore, Stretch};
use std::alloc::Global;

/// The bytes of a sector.
const SECTOR: u64 = 256;

/// The sectors of a file, one run after another.
#[derive(Clone, Copy)]
pub(crate) struct Sectors {
    /// The place of the first of them in the file, from 0.
    pub(crate) from: u64,
    /// How many they are.
    pub(crate) count: u64,
}

/// The number on the pack of sector `i` of a file, from 0, that lies in these runs.
pub(crate) fn sector_at(runs: &[Stretch], i: u64) -> Option<u16>
    ensures { IfSome result (λ n. list_any (nat_eq n) (sectors_in runs.now) ≡ true) }
{
    let mut left = i;
    for run in runs {
        let sectors = u64::from(run.sectors);
        if left < sectors {
            return run.start.checked_add(left as u16);
        }
        left -= sectors;
    }
    None
}

/// Reads a sector, and answers whether the pack has it.
#[tactic(auto, using(crate::proofs::Looks::looks_read))]
fn read_sector<S: PackStore>(
    bureau: &mut Bureau<S>,
    n: u16,
    sector: &mut [u8; 256],
) -> Result<bool, Stop>
    ensures looks { Looks (stop_in result) bureau.old bureau.new }
    ensures found { IfOk result (λ found. IsFound found (slice_get bureau.old.beside.state.contents n) sector.new) }
{
    bureau.read_sector(n, sector)
}

/// The bytes of some sectors of a file that lies in these runs, as far as the pack has them.
#[tactic(auto, using(crate::proofs::Looks::looks_none, crate::proofs::Looks::looks_refused, crate::proofs::Looks::looks_then))]
pub(crate) fn read_sectors<S: PackStore>(
    alloc: Global,
    bureau: &mut Bureau<S>,
    runs: &[Stretch],
    sectors: Sectors,
) -> Result<Vec<u8>, Stop>
    ensures looks { Looks (stop_in result) bureau.old bureau.new }
    ensures from { IfOk result (λ bytes. AreOfSectors (sectors_in runs.now) bureau.old.beside.state.contents bytes.items) }
{
    let mut bytes = Vec::new(alloc);
    let mut sector = [0; 256];
    for i in 0..sectors.count {
        let Some(n) = sector_at(runs, sectors.from.saturating_add(i)) else {
            return Ok(bytes);
        };
        if !read_sector(bureau, n, &mut sector)? {
            return Ok(bytes);
        }
        bytes.extend_from_slice(&sector)?;
    }
    Ok(bytes)
}

/// So many bytes of a file that lies in these runs, from a byte on, counted from 0; `None` if the pack doesn't have them.
#[tactic(auto, using(crate::proofs::Looks::looks_none, crate::proofs::Looks::looks_refused, crate::proofs::Looks::looks_then))]
pub(crate) fn read_bytes<S: PackStore>(
    alloc: Global,
    bureau: &mut Bureau<S>,
    runs: &[Stretch],
    at: u64,
    count: u16,
) -> Result<Option<Vec<u8>>, Stop>
    ensures looks { Looks (stop_in result) bureau.old bureau.new }
    ensures from { IfOk result (λ read. IfSome read (λ bytes. IsPartOf (sectors_in runs.now) bureau.old.beside.state.contents bytes.items)) }
{
    let skipped = (at % SECTOR) as usize;
    let wanted = usize::from(count);
    let sectors = Sectors {
        from: at / SECTOR,
        count: (skipped + wanted).div_ceil(256) as u64,
    };
    let bytes = read_sectors(alloc, bureau, runs, sectors)?;
    match bytes.get(skipped..skipped + wanted) {
        Some(part) => Ok(Some(Vec::from_slice(alloc, part)?)),
        None => Ok(None),
    }
}
