//! Requests to the records of a file without an index.
ghost use Rattle.std.specs.Prelude.{◌≡◌, length, slice_get, IfOk};
ghost use Rattle.s3_files.specs.Inner.Files.{AreStored, records};
ghost use Rattle.s3_files.specs.Records.{with_record, with_last};
ghost use Rattle.s3_job_files.specs.Records.{in_order};
ghost use Rattle.s3_job_files.specs.Inner.Holds.{shape_of};
ghost use Rattle.s3_store.specs.Inner.Calls.{Changes, Reads};
ghost use Rattle.s3_job_files.specs.Inner.Calls.{found_record, Puts};
ghost use Rattle.s3_job_files.specs.Inner.Refusals.{IsGrown};

use crate::records::Put;
use s3_files::{FileFault, RecordFile, Sequential};
use s3_operator::HaltCode;
use s3_store::{SectorFault, Sectors};

/// Reads the record at a place, from 0, and answers whether there is one.
#[tactic(auto, using(crate::proofs::Plain::none_past))]
pub fn get<P: Sectors>(
    file: &Sequential,
    pool: &mut P,
    i: u32,
    bytes: &mut [u8],
) -> Result<bool, SectorFault>
    requires stored { AreStored file.now.sectors (P.state pool.old).contents }
    requires long { length bytes.old ≡ file.now.record_length }
    ensures found { IfOk result (λ found. found_record found bytes.new ≡ slice_get (records (shape_of file.now) (P.state pool.old).contents) i) }
    ensures reads { Reads result (P.state pool.old) (P.state pool.new) }
{
    match file.get(pool, i, bytes) {
        Ok(()) => Ok(true),
        Err(FileFault::NoRecord | FileFault::Full) => Ok(false),
        Err(FileFault::Pool(fault)) => Err(fault),
    }
}

/// Puts a record after the last one; it is refused if the file is full.
#[tactic(auto, using(crate::proofs::Plain::last_taken, crate::proofs::Plain::last_refused))]
pub fn append<P: Sectors>(
    file: &mut Sequential,
    pool: &mut P,
    bytes: &[u8],
) -> Result<Put, SectorFault>
    requires stored { AreStored file.old.sectors (P.state pool.old).contents }
    requires long { length bytes.now ≡ file.old.record_length }
    ensures puts { IfOk result (λ put. Puts (in_order HaltCode.FileFull (with_last file.old.capacity bytes.now (records (shape_of file.old) (P.state pool.old).contents))) put (records (shape_of file.old) (P.state pool.old).contents) (records (shape_of file.new) (P.state pool.new).contents)) }
    ensures grown { IsGrown (shape_of file.old) (shape_of file.new) }
    ensures changes { Changes file.old.sectors result (P.state pool.old) (P.state pool.new) }
{
    match file.append(pool, bytes) {
        Ok(()) => Ok(Put::Done),
        Err(FileFault::NoRecord | FileFault::Full) => Ok(Put::Refused(HaltCode::FileFull)),
        Err(FileFault::Pool(fault)) => Err(fault),
    }
}

/// Writes a record over the one at a place, from 0, if there is one.
#[tactic(auto, using(crate::proofs::Plain::record_set, crate::proofs::Plain::record_not_set))]
pub fn put<P: Sectors>(
    file: &Sequential,
    pool: &mut P,
    i: u32,
    bytes: &[u8],
) -> Result<Put, SectorFault>
    requires stored { AreStored file.now.sectors (P.state pool.old).contents }
    requires long { length bytes.now ≡ file.now.record_length }
    ensures puts { IfOk result (λ put. Puts (in_order HaltCode.NothingToUpdate (with_record i bytes.now (records (shape_of file.now) (P.state pool.old).contents))) put (records (shape_of file.now) (P.state pool.old).contents) (records (shape_of file.now) (P.state pool.new).contents)) }
    ensures changes { Changes file.now.sectors result (P.state pool.old) (P.state pool.new) }
{
    match file.put(pool, i, bytes) {
        Ok(()) => Ok(Put::Done),
        Err(FileFault::NoRecord | FileFault::Full) => Ok(Put::Refused(HaltCode::NothingToUpdate)),
        Err(FileFault::Pool(fault)) => Err(fault),
    }
}
