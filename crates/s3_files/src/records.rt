//! A file as a list of records.
ghost use Rattle.std.specs.Prelude.{◌≡◌, ◌≤◌, ◌<◌, ◌+◌, ◌↔◌, ◌++◌, ℕ, List, [], ◌∷◌, length, slice_get, slice_set, Some, OnOk, OnErr, IsErrOf};
ghost use Rattle.std.specs.List.{Contains};
ghost use Rattle.s3_store.specs.Inner.State.{KeepsContents};
ghost use Rattle.s3_store.specs.Inner.State.{ChangesWithin};
ghost use Rattle.s3_files.specs.Inner.Files.{AreStored, FileShape, records, ChangesRecord, IsReadInPart};
ghost use Rattle.s3_files.specs.Inner.FileFault.{failed_file_transfers};

use crate::fault::FileFault;
use s3_store::Sectors;

/// A file as a list of records of one length, over the sectors of a pool.
pub trait RecordFile {
    /// Where the records are.
    ghost file: { Self → FileShape };

    /// How many records there are.
    fn len(&self) -> u32
        ensures { result ≡ (file self.now).count };

    /// Reads the record at place `i`, from 0. Refused with `NoRecord` exactly if there is none; then the buffer stays as it was.
    /// Refused with `Pool` if a sector can't be read; then the buffer may have the first bytes of the record. No sector changes.
    fn get<P: Sectors>(&self, pool: &mut P, i: u32, bytes: &mut [u8]) -> Result<(), FileFault>
        requires stored { AreStored (file self.now).sectors (P.state pool.old).contents }
        requires long { length bytes.old ≡ (file self.now).record_length }
        ensures ok { OnOk result (slice_get (records (file self.now) (P.state pool.old).contents) i ≡ Some bytes.new) }
        ensures no_record { (IsErrOf result FileFault.NoRecord) ↔ ((file self.now).count ≤ i) }
        ensures refused { IsErrOf result FileFault.NoRecord → P.state pool.new ≡ P.state pool.old }
        ensures unchanged { IsErrOf result FileFault.NoRecord → bytes.new ≡ bytes.old }
        ensures partly { OnErr result ((whole : List ℕ) → slice_get (records (file self.now) (P.state pool.old).contents) i ≡ Some whole → IsReadInPart whole bytes.old bytes.new) }
        ensures not_full { ¬ IsErrOf result FileFault.Full }
        ensures keeps { KeepsContents (P.state pool.old) (P.state pool.new) }
        ensures failures { (P.state pool.new).failures ≡ (P.state pool.old).failures + failed_file_transfers result };

    /// Writes a record over the one at place `i`, from 0. Refused with `NoRecord` exactly if there is none; then nothing changes.
    /// Refused with `Pool` if a transfer fails; then that record may be changed in part. No other record changes.
    fn put<P: Sectors>(&self, pool: &mut P, i: u32, bytes: &[u8]) -> Result<(), FileFault>
        requires stored { AreStored (file self.now).sectors (P.state pool.old).contents }
        requires long { length bytes.now ≡ (file self.now).record_length }
        ensures ok { OnOk result (records (file self.now) (P.state pool.new).contents ≡ slice_set (records (file self.now) (P.state pool.old).contents) i bytes.now) }
        ensures no_record { (IsErrOf result FileFault.NoRecord) ↔ ((file self.now).count ≤ i) }
        ensures refused { IsErrOf result FileFault.NoRecord → P.state pool.new ≡ P.state pool.old }
        ensures not_full { ¬ IsErrOf result FileFault.Full }
        ensures others { ChangesRecord (file self.now) i (P.state pool.old).contents (P.state pool.new).contents }
        ensures within { ChangesWithin (Contains (file self.now).sectors) (P.state pool.old) (P.state pool.new) }
        ensures failures { (P.state pool.new).failures ≡ (P.state pool.old).failures + failed_file_transfers result };

    /// Adds a record after the last one. Refused with `Full` exactly if the file has no space for another record; then nothing
    /// changes. Refused with `Pool` if a transfer fails; then the list of records stays as it was.
    fn append<P: Sectors>(&mut self, pool: &mut P, bytes: &[u8]) -> Result<(), FileFault>
        requires stored { AreStored (file self.old).sectors (P.state pool.old).contents }
        requires long { length bytes.now ≡ (file self.old).record_length }
        ensures ok { OnOk result (records (file self.new) (P.state pool.new).contents ≡ records (file self.old) (P.state pool.old).contents ++ bytes.now ∷ []) }
        ensures grown { OnOk result (file self.new ≡ record (file self.old) { count = (file self.old).count + 1 }) }
        ensures err { OnErr result (file self.new ≡ file self.old) }
        ensures full { (IsErrOf result FileFault.Full) ↔ ((file self.old).count ≡ (file self.old).capacity) }
        ensures refused { IsErrOf result FileFault.Full → P.state pool.new ≡ P.state pool.old }
        ensures is_new { ¬ IsErrOf result FileFault.NoRecord }
        ensures others { ChangesRecord (file self.old) (file self.old).count (P.state pool.old).contents (P.state pool.new).contents }
        ensures within { ChangesWithin (Contains (file self.old).sectors) (P.state pool.old) (P.state pool.new) }
        ensures failures { (P.state pool.new).failures ≡ (P.state pool.old).failures + failed_file_transfers result };
}
