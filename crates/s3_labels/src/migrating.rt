//! Packs of the first format brought into the second.
ghost use Rattle.std.specs.Prelude.{◌≡◌, Ok, IfOk, IfErr};
ghost use Rattle.s3_labels.specs.Inner.Images.{is_further_extent as is_further_spec, migrated_byte as migrated_byte_spec, migrated_bytes as migrated_bytes_spec, migrated, IsMigrateFault};

use crate::fault::{MigrateFault, Refusal};
use crate::pack::read_header;
use s3_slots::Format;
use s3_store::MemoryStore;
use std::alloc::{AllocError, Global};

/// Where the label slots of a pack end. No byte after them changes.
const SLOTS_END: usize = 6_400;

/// Whether a place is in the second to fourth extent of a slot.
fn is_further_extent(at: usize) -> bool
    ensures { result ≡ is_further_spec at }
{
    256 <= at && at < 6400 && 34 <= at % 64 && at % 64 < 46
}

/// The byte at a place of the new pack.
fn migrated_byte(at: usize, byte: u8) -> u8
    ensures { result ≡ migrated_byte_spec at byte }
{
    if at < 8 {
        b"S3PACK02"[at]
    } else if at == 22 || at == 23 {
        64
    } else if is_further_extent(at) {
        0
    } else {
        byte
    }
}

/// The bytes of the new pack, one by one, in room for so many.
fn migrated_singly(alloc: Global, bytes: &[u8], room: usize) -> Result<Vec<u8>, AllocError>
    ensures { IfOk result (λ new. new.items ≡ migrated_bytes_spec 0 bytes.now) }
{
    let mut new = Vec::with_capacity(alloc, room)?;
    for (at, byte) in bytes.iter().enumerate() {
        new.push(migrated_byte(at, *byte))?;
    }
    Ok(new)
}

/// The bytes of the new pack. Those after the slots are the old ones, and are copied at once.
fn migrated_bytes(alloc: Global, bytes: &[u8]) -> Result<Vec<u8>, AllocError>
    ensures { IfOk result (λ new. new.items ≡ migrated_bytes_spec 0 bytes.now) }
{
    if bytes.len() <= SLOTS_END {
        return migrated_singly(alloc, bytes, bytes.len());
    }
    let mut new = migrated_singly(alloc, &bytes[..SLOTS_END], bytes.len())?;
    new.extend_from_slice(&bytes[SLOTS_END..])?;
    Ok(new)
}

/// A pack of the first format in the second, with 64 lines a level: only its format, its quotas and the further extents of its
/// slots change.
///
/// Refused if the pack can't be mounted, and then if it is in the second format.
#[tactic(auto, unfolding(crate::specs::Inner::Images::migrated))]
pub fn migrate(alloc: Global, bytes: &[u8]) -> Result<Vec<u8>, MigrateFault>
    ensures ok { IfOk result (λ new. migrated bytes.now ≡ Ok new.items) }
    ensures err { IfErr result (IsMigrateFault (migrated bytes.now)) }
{
    let mut old = MemoryStore::from_bytes(Vec::from_slice(alloc, bytes)?);
    let header = match read_header(&mut old) {
        Ok(header) => header,
        Err(Refusal::BadPack(fault)) => return Err(MigrateFault::Mount(fault)),
        // A store in memory never fails.
        Err(Refusal::Sectors(_)) => return Err(MigrateFault::NoMemory),
    };
    match header.format {
        Format::First => Ok(migrated_bytes(alloc, bytes)?),
        Format::Second => Err(MigrateFault::AlreadyNew),
    }
}
