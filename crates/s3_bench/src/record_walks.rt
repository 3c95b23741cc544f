//! Records in order and by number.
ghost use Rattle.std.specs.Prelude.{◌≤◌, length};

use crate::label::{LENGTH, label_of};
use byteorder::{BigEndian, ByteOrder};
use s3_files::{Direct, FileFault, RecordFile, Sequential};
use s3_slots::Organization;
use s3_store::Sectors;

/// How many records the file has room for.
const RECORDS: u32 = 60_000;

/// Reads so many records in their order. It answers what their first bytes add up to.
pub fn read<P: Sectors>(pool: &mut P, calls: u32) -> Result<u64, FileFault>
    requires { 24000 ≤ length (P.state pool.old).contents }
{
    let file = Sequential::of(&label_of(Organization::Sequential, RECORDS, RECORDS));
    let mut bytes = [0; LENGTH];
    let mut total = 0u64;
    for i in 0..calls {
        file.get(pool, i, &mut bytes)?;
        total = total.wrapping_add(u64::from(bytes[0]));
    }
    Ok(total)
}

/// Reads so many records in no order. It answers what their first bytes add up to.
pub fn direct<P: Sectors>(pool: &mut P, calls: u32) -> Result<u64, FileFault>
    requires { 24000 ≤ length (P.state pool.old).contents }
{
    let file = Direct::of(&label_of(Organization::Direct, RECORDS, RECORDS));
    let mut bytes = [0; LENGTH];
    let mut total = 0u64;
    for call in 0..calls {
        let i = u64::from(call) * 7_919 % u64::from(RECORDS);
        file.get(pool, i as u32, &mut bytes)?;
        total = total.wrapping_add(u64::from(bytes[0]));
    }
    Ok(total)
}

/// Loads so many records, one after another.
pub fn load<P: Sectors>(pool: &mut P, calls: u32) -> Result<u64, FileFault>
    requires { 24000 ≤ length (P.state pool.old).contents }
{
    let mut file = Sequential::of(&label_of(Organization::Sequential, RECORDS, 0));
    let mut bytes = [0; LENGTH];
    for i in 0..calls {
        BigEndian::write_u32(&mut bytes, i);
        file.append(pool, &bytes)?;
    }
    Ok(0)
}
