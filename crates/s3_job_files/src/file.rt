//! A file of the job at work.
ghost use Rattle.std.specs.Prelude.{◌≡◌, ◌<◌, ◌+◌, ◌&&◌, length, slice_get, is_some, Some, None, true, IfOk, IfSome, OnOk, if◌then◌else◌};
ghost use Rattle.s3_store.specs.Inner.State.{KeepsContents};
ghost use Rattle.s3_store.specs.Inner.Failures.{failed_transfers};
ghost use Rattle.s3_slots.specs.Labels.{is_indexed as is_indexed_spec, sectors_of};
ghost use Rattle.s3_meaning.specs.Requests.{Key, RecordNumber};
ghost use Rattle.s3_slots.specs.Inner.Kept.{IsOfPack};
ghost use Rattle.s3_job_files.specs.Kept.{kept_on};
ghost use Rattle.s3_store.specs.Inner.Calls.{Reads};
ghost use Rattle.s3_job_files.specs.Inner.Records.{changes_of};
ghost use Rattle.s3_job_files.specs.Records.{overlaid};
ghost use Rattle.s3_job_files.specs.Inner.Holds.{AreOf, HoldsRecords, count_of, records_of};
ghost use Rattle.s3_job_files.specs.Inner.Calls.{updates_after};

use crate::records::{OpenRecords, Put};
use crate::{by_key, in_order};
use s3_cards::{Name, Retention};
use s3_files::Sequential;
use s3_meaning::Current;
use s3_operator::HaltCode;
use s3_slots::{FileLabel, Organization};
use s3_store::{SectorFault, Sectors};
use std::alloc::Global;

/// The most bytes of a record.
const LONGEST_RECORD: usize = 1024;

/// The most bytes of a record that is changed by way of short rooms on the stack. A longer one goes by way of rooms for the
/// longest record, which take longer to make ready.
const SHORT_RECORD: usize = 128;

/// A file of the job at work.
#[derive(Drop)]
pub struct OpenFile {
    /// The name by which the program knows it.
    pub name: Name,
    /// Its label as it was opened.
    pub label: FileLabel,
    /// Whether it is one of the masters.
    pub is_master: bool,
    /// Whether the job made it.
    pub is_made: bool,
    /// Its records.
    pub records: OpenRecords,
    /// How many of its records the job has read.
    pub read: u32,
    /// How many times the job has changed a record in place; at most `u32::MAX`.
    pub updates: u32,
    /// The place of the record that was chained last, from 0. None if no record was chained, or if the last CHAIN found nothing.
    pub chained: Option<u32>,
}

impl OpenFile {
    ghost use Rattle.s3_job_files.specs.Records.{place_read as place_read_spec, place_sought, place_current as place_current_spec, place_numbered as place_numbered_spec, appended, added, updated, updated_at};
    ghost use Rattle.s3_job_files.specs.Requests.{answer_at, with_read, with_chained};
    ghost use Rattle.s3_job_files.specs.Inner.Holds.{IsUsable, job_file_of};
    ghost use Rattle.s3_job_files.specs.Closing.{is_kept_for_job};
    ghost use Rattle.s3_job_files.specs.Inner.Calls.{found_record, found_answer, Puts};
    ghost use Rattle.s3_store.specs.Inner.Calls.{Changes};

    /// Opens the file of a label that the pack has, known to the program by a name; none if it is indexed and its index isn't
    /// good.
    pub fn open<P: Sectors>(
        alloc: Global,
        pool: &mut P,
        name: Name,
        label: FileLabel,
        is_master: bool,
        is_made: bool,
    ) -> Result<Option<Self>, SectorFault>
        requires { IsOfPack (length (P.state pool.old).contents) label }
        ensures good { IfOk result (λ opened. (kept_on label (P.state pool.old).contents).has_good_index ≡ is_some opened) }
        ensures opened { IfOk result (λ opened. IfSome opened (λ file. file ≡ record file { name = name; label = label; is_master = is_master; is_made = is_made; read = 0; updates = 0; chained = None })) }
        ensures of_label { IfOk result (λ opened. IfSome opened (λ file. AreOf label (P.state pool.old).contents file.records)) }
        ensures kept { IfOk result (λ opened. IfSome opened (λ file. HoldsRecords (P.state pool.old).contents file (kept_on label (P.state pool.old).contents))) }
        ensures count { IfOk result (λ opened. IfSome opened (λ file. count_of file.records ≡ label.count)) }
        ensures keeps { KeepsContents (P.state pool.old) (P.state pool.new) }
        ensures failures { (P.state pool.new).failures ≡ (P.state pool.old).failures + failed_transfers result }
    {
        let Some(records) = records_of_label(alloc, pool, &label)? else {
            return Ok(None);
        };
        Ok(Some(OpenFile {
            name,
            label,
            is_master,
            is_made,
            records,
            read: 0,
            updates: 0,
            chained: None,
        }))
    }

    /// Reads the record at a place, from 0, and answers whether there is one.
    fn get<P: Sectors>(&self, pool: &mut P, i: u32, bytes: &mut [u8]) -> Result<bool, SectorFault>
        requires usable { IsUsable (P.state pool.old).contents self.now.label self.now.records }
        requires long { length bytes.old ≡ self.now.label.record_length }
        ensures found { IfOk result (λ found. found_record found bytes.new ≡ slice_get (records_of self.now.records (P.state pool.old).contents) i) }
        ensures reads { Reads result (P.state pool.old) (P.state pool.new) }
    {
        match &self.records {
            OpenRecords::InOrder(file) => in_order::get(file, pool, i, bytes),
            OpenRecords::ByKey(file) => by_key::get(file, pool, i, bytes),
        }
    }

    /// The place of record `n` in reading order among the records at the start of the job, both from 0.
    #[tactic(auto, using(crate::proofs::OneFile::read_by_key))]
    fn place_read<P: Sectors>(&self, pool: &mut P, n: u32) -> Result<Option<u32>, SectorFault>
        requires usable { IsUsable (P.state pool.old).contents self.now.label self.now.records }
        ensures place { IfOk result (λ place. place_read_spec self.now.label (records_of self.now.records (P.state pool.old).contents) n ≡ place) }
        ensures within { IfOk result (λ place. IfSome place (λ _. n < u32.MAX)) }
        ensures reads { Reads result (P.state pool.old) (P.state pool.new) }
    {
        if n >= self.label.count {
            return Ok(None);
        }
        match &self.records {
            OpenRecords::InOrder(_) => Ok(Some(n)),
            OpenRecords::ByKey(file) => by_key::nth(file, pool, n),
        }
    }

    /// Reads the next of the records at the start of the job, and answers whether there is one.
    pub fn read_next<P: Sectors>(
        &mut self,
        pool: &mut P,
        bytes: &mut [u8],
    ) -> Result<bool, SectorFault>
        requires usable { IsUsable (P.state pool.old).contents self.old.label self.old.records }
        requires long { length bytes.old ≡ self.old.label.record_length }
        ensures answer { IfOk result (λ found. found_answer found bytes.new ≡ answer_at (records_of self.old.records (P.state pool.old).contents) (place_read_spec self.old.label (records_of self.old.records (P.state pool.old).contents) self.old.read)) }
        ensures read { OnOk result (job_file_of self.new ≡ with_read (place_read_spec self.old.label (records_of self.old.records (P.state pool.old).contents) self.old.read) (job_file_of self.old)) }
        ensures alone { self.new ≡ record self.old { read = self.new.read } }
        ensures reads { Reads result (P.state pool.old) (P.state pool.new) }
    {
        let Some(place) = self.place_read(pool, self.read)? else {
            return Ok(false);
        };
        let found = self.get(pool, place, bytes)?;
        self.read += 1;
        Ok(found)
    }

    /// Reads the record at a place, if there is one, and notes it as chained last.
    fn chain<P: Sectors>(
        &mut self,
        pool: &mut P,
        place: Option<u32>,
        bytes: &mut [u8],
    ) -> Result<bool, SectorFault>
        requires usable { IsUsable (P.state pool.old).contents self.old.label self.old.records }
        requires long { length bytes.old ≡ self.old.label.record_length }
        ensures answer { IfOk result (λ found. found_answer found bytes.new ≡ answer_at (records_of self.old.records (P.state pool.old).contents) place) }
        ensures alone { OnOk result (self.new ≡ record self.old { chained = place }) }
        ensures same { self.new ≡ record self.old { chained = self.new.chained } }
        ensures reads { Reads result (P.state pool.old) (P.state pool.new) }
    {
        self.chained = place;
        match place {
            None => Ok(false),
            Some(i) => self.get(pool, i, bytes),
        }
    }

    /// The place of the record with the key in these bytes, from 0.
    #[tactic(auto, using(crate::proofs::OneFile::key_sought))]
    fn place_of_key<P: Sectors>(&self, pool: &mut P, key: &[u8]) -> Result<Option<u32>, SectorFault>
        requires usable { IsUsable (P.state pool.old).contents self.now.label self.now.records }
        requires indexed { is_indexed_spec self.now.label.organization ≡ true }
        requires long { length key.now ≡ self.now.label.key_length }
        ensures place { IfOk result (λ place. place_sought self.now.label (records_of self.now.records (P.state pool.old).contents) (Key key.now) ≡ place) }
        ensures reads { Reads result (P.state pool.old) (P.state pool.new) }
    {
        match &self.records {
            OpenRecords::InOrder(_) => unreachable!(),
            OpenRecords::ByKey(file) => by_key::find(file, pool, key),
        }
    }

    /// Reads the record with the key in these bytes, if a table in memory has its place, and answers the place, from 0. It
    /// doesn't search the index, so it may answer none although there is such a record.
    fn get_noted<P: Sectors>(
        &self,
        pool: &mut P,
        key: &[u8],
        bytes: &mut [u8],
    ) -> Result<Option<u32>, SectorFault>
        requires usable { IsUsable (P.state pool.old).contents self.now.label self.now.records }
        requires indexed { is_indexed_spec self.now.label.organization ≡ true }
        requires key { length key.now ≡ self.now.label.key_length }
        requires long { length bytes.old ≡ self.now.label.record_length }
        ensures place { IfOk result (λ place. IfSome place (λ place. place_sought self.now.label (records_of self.now.records (P.state pool.old).contents) (Key key.now) ≡ Some place)) }
        ensures got { IfOk result (λ place. IfSome place (λ place. slice_get (records_of self.now.records (P.state pool.old).contents) place ≡ Some bytes.new)) }
        ensures reads { Reads result (P.state pool.old) (P.state pool.new) }
    {
        match &self.records {
            OpenRecords::InOrder(_) => unreachable!(),
            OpenRecords::ByKey(file) => file.get_noted(pool, key, bytes),
        }
    }

    /// Reads the record with the key in these bytes by way of the index, and answers whether there is one. The record is then the
    /// one chained last.
    #[inline(never)]
    fn chain_sought<P: Sectors>(
        &mut self,
        pool: &mut P,
        key: &[u8],
        bytes: &mut [u8],
    ) -> Result<bool, SectorFault>
        requires usable { IsUsable (P.state pool.old).contents self.old.label self.old.records }
        requires indexed { is_indexed_spec self.old.label.organization ≡ true }
        requires key { length key.now ≡ self.old.label.key_length }
        requires long { length bytes.old ≡ self.old.label.record_length }
        ensures answer { IfOk result (λ found. found_answer found bytes.new ≡ answer_at (records_of self.old.records (P.state pool.old).contents) (place_sought self.old.label (records_of self.old.records (P.state pool.old).contents) (Key key.now))) }
        ensures chained { OnOk result (job_file_of self.new ≡ with_chained (place_sought self.old.label (records_of self.old.records (P.state pool.old).contents) (Key key.now)) (job_file_of self.old)) }
        ensures alone { self.new ≡ record self.old { chained = self.new.chained } }
        ensures reads { Reads result (P.state pool.old) (P.state pool.new) }
    {
        let place = self.place_of_key(pool, key)?;
        self.chain(pool, place, bytes)
    }

    /// Reads the record with the key in these bytes, and answers whether there is one. The record is then the one chained last.
    #[tactic(auto, using(crate::proofs::OneFile::answer_noted))]
    pub fn chain_key<P: Sectors>(
        &mut self,
        pool: &mut P,
        key: &[u8],
        bytes: &mut [u8],
    ) -> Result<bool, SectorFault>
        requires usable { IsUsable (P.state pool.old).contents self.old.label self.old.records }
        requires indexed { is_indexed_spec self.old.label.organization ≡ true }
        requires key { length key.now ≡ self.old.label.key_length }
        requires long { length bytes.old ≡ self.old.label.record_length }
        ensures answer { IfOk result (λ found. found_answer found bytes.new ≡ answer_at (records_of self.old.records (P.state pool.old).contents) (place_sought self.old.label (records_of self.old.records (P.state pool.old).contents) (Key key.now))) }
        ensures chained { OnOk result (job_file_of self.new ≡ with_chained (place_sought self.old.label (records_of self.old.records (P.state pool.old).contents) (Key key.now)) (job_file_of self.old)) }
        ensures alone { self.new ≡ record self.old { chained = self.new.chained } }
        ensures reads { Reads result (P.state pool.old) (P.state pool.new) }
    {
        if let Some(place) = self.get_noted(pool, key, bytes)? {
            self.chained = Some(place);
            return Ok(true);
        }
        self.chain_sought(pool, key, bytes)
    }

    /// The place of the record of this number, from 1.
    #[tactic(auto, using(crate::proofs::OneFile::number_none, crate::proofs::OneFile::number_some, crate::proofs::OneFile::number_past))]
    fn place_numbered(&self, number: i64) -> Option<u32>
        ensures { place_numbered_spec (count_of self.now.records) number ≡ result }
    {
        let count = i64::from(self.records.len());
        if number >= 1 && number <= count {
            Some((number - 1) as u32)
        } else {
            None
        }
    }

    /// Reads the record of this number, from 1, and answers whether there is one. The record is then the one chained last.
    #[tactic(auto, using(crate::proofs::OneFile::count_records))]
    pub fn chain_number<P: Sectors>(
        &mut self,
        pool: &mut P,
        number: i64,
        bytes: &mut [u8],
    ) -> Result<bool, SectorFault>
        requires usable { IsUsable (P.state pool.old).contents self.old.label self.old.records }
        requires long { length bytes.old ≡ self.old.label.record_length }
        ensures answer { IfOk result (λ found. found_answer found bytes.new ≡ answer_at (records_of self.old.records (P.state pool.old).contents) (place_sought self.old.label (records_of self.old.records (P.state pool.old).contents) (RecordNumber number))) }
        ensures chained { OnOk result (job_file_of self.new ≡ with_chained (place_sought self.old.label (records_of self.old.records (P.state pool.old).contents) (RecordNumber number)) (job_file_of self.old)) }
        ensures alone { self.new ≡ record self.old { chained = self.new.chained } }
        ensures reads { Reads result (P.state pool.old) (P.state pool.new) }
    {
        let place = self.place_numbered(number);
        self.chain(pool, place, bytes)
    }

    /// Puts a record after the last one. It is refused in an indexed file if its key isn't above all others, and in any file that
    /// is full.
    pub fn append<P: Sectors>(&mut self, pool: &mut P, bytes: &[u8]) -> Result<Put, SectorFault>
        requires usable { IsUsable (P.state pool.old).contents self.old.label self.old.records }
        requires long { length bytes.now ≡ self.old.label.record_length }
        ensures puts { IfOk result (λ put. Puts (appended self.old.label bytes.now (records_of self.old.records (P.state pool.old).contents)) put (records_of self.old.records (P.state pool.old).contents) (records_of self.new.records (P.state pool.new).contents)) }
        ensures of_label { OnOk result (AreOf self.old.label (P.state pool.new).contents self.new.records) }
        ensures alone { self.new ≡ record self.old { records = self.new.records } }
        ensures changes { Changes (sectors_of self.old.label) result (P.state pool.old) (P.state pool.new) }
    {
        match &mut self.records {
            OpenRecords::InOrder(file) => in_order::append(file, pool, bytes),
            OpenRecords::ByKey(file) => by_key::load(file, pool, bytes),
        }
    }

    /// Puts a record after the last one of an indexed file. It is refused if another record has its key, and if the file is full.
    pub fn add<P: Sectors>(&mut self, pool: &mut P, bytes: &[u8]) -> Result<Put, SectorFault>
        requires usable { IsUsable (P.state pool.old).contents self.old.label self.old.records }
        requires indexed { is_indexed_spec self.old.label.organization ≡ true }
        requires long { length bytes.now ≡ self.old.label.record_length }
        ensures puts { IfOk result (λ put. Puts (added self.old.label bytes.now (records_of self.old.records (P.state pool.old).contents)) put (records_of self.old.records (P.state pool.old).contents) (records_of self.new.records (P.state pool.new).contents)) }
        ensures of_label { OnOk result (AreOf self.old.label (P.state pool.new).contents self.new.records) }
        ensures alone { self.new ≡ record self.old { records = self.new.records } }
        ensures changes { Changes (sectors_of self.old.label) result (P.state pool.old) (P.state pool.new) }
    {
        match &mut self.records {
            OpenRecords::InOrder(_) => unreachable!(),
            OpenRecords::ByKey(file) => by_key::add(file, pool, bytes),
        }
    }

    /// Writes a record over the one at a place, from 0, which is `old`: in an indexed file under the same key.
    fn put<P: Sectors>(
        &self,
        pool: &mut P,
        i: u32,
        old: &[u8],
        bytes: &[u8],
    ) -> Result<Put, SectorFault>
        requires usable { IsUsable (P.state pool.old).contents self.now.label self.now.records }
        requires there { slice_get (records_of self.now.records (P.state pool.old).contents) i ≡ Some old.now }
        requires old { length old.now ≡ self.now.label.record_length }
        requires long { length bytes.now ≡ self.now.label.record_length }
        ensures puts { IfOk result (λ put. Puts (updated_at self.now.label i bytes.now (records_of self.now.records (P.state pool.old).contents)) put (records_of self.now.records (P.state pool.old).contents) (records_of self.now.records (P.state pool.new).contents)) }
        ensures of_label { OnOk result (AreOf self.now.label (P.state pool.new).contents self.now.records) }
        ensures changes { Changes (sectors_of self.now.label) result (P.state pool.old) (P.state pool.new) }
    {
        match &self.records {
            OpenRecords::InOrder(file) => in_order::put(file, pool, i, bytes),
            OpenRecords::ByKey(file) => by_key::replace(file, pool, i, old, bytes),
        }
    }

    /// Changes the record at a place, from 0, if there is one, by way of two rooms of its length.
    fn update_in<P: Sectors>(
        &self,
        pool: &mut P,
        i: u32,
        codes: &[u8],
        marks: &[bool],
        old: &mut [u8],
        bytes: &mut [u8],
    ) -> Result<Put, SectorFault>
        requires usable { IsUsable (P.state pool.old).contents self.now.label self.now.records }
        requires old { length old.old ≡ self.now.label.record_length }
        requires long { length bytes.old ≡ self.now.label.record_length }
        ensures puts { IfOk result (λ put. Puts (updated self.now.label (changes_of codes.now marks.now) (Some i) (records_of self.now.records (P.state pool.old).contents)) put (records_of self.now.records (P.state pool.old).contents) (records_of self.now.records (P.state pool.new).contents)) }
        ensures of_label { OnOk result (AreOf self.now.label (P.state pool.new).contents self.now.records) }
        ensures changes { Changes (sectors_of self.now.label) result (P.state pool.old) (P.state pool.new) }
    {
        if !self.get(pool, i, old)? {
            return Ok(Put::Refused(HaltCode::NothingToUpdate));
        }
        bytes.copy_from_slice(old);
        overlay(codes, marks, bytes);
        self.put(pool, i, old, bytes)
    }

    /// Changes the record at a place, from 0, if there is one.
    fn update_at<P: Sectors>(
        &self,
        pool: &mut P,
        i: u32,
        codes: &[u8],
        marks: &[bool],
    ) -> Result<Put, SectorFault>
        requires usable { IsUsable (P.state pool.old).contents self.now.label self.now.records }
        ensures puts { IfOk result (λ put. Puts (updated self.now.label (changes_of codes.now marks.now) (Some i) (records_of self.now.records (P.state pool.old).contents)) put (records_of self.now.records (P.state pool.old).contents) (records_of self.now.records (P.state pool.new).contents)) }
        ensures of_label { OnOk result (AreOf self.now.label (P.state pool.new).contents self.now.records) }
        ensures changes { Changes (sectors_of self.now.label) result (P.state pool.old) (P.state pool.new) }
    {
        let length = usize::from(self.label.record_length);
        if length <= SHORT_RECORD {
            let (mut old, mut bytes) = ([0; SHORT_RECORD], [0; SHORT_RECORD]);
            return self.update_in(
                pool,
                i,
                codes,
                marks,
                &mut old[..length],
                &mut bytes[..length],
            );
        }
        let (mut old, mut bytes) = ([0; LONGEST_RECORD], [0; LONGEST_RECORD]);
        self.update_in(
            pool,
            i,
            codes,
            marks,
            &mut old[..length],
            &mut bytes[..length],
        )
    }

    /// The place of the current record, from 0.
    fn place_current<P: Sectors>(
        &self,
        pool: &mut P,
        current: Option<Current>,
    ) -> Result<Option<u32>, SectorFault>
        requires usable { IsUsable (P.state pool.old).contents self.now.label self.now.records }
        ensures place { IfOk result (λ place. place_current_spec self.now.label (records_of self.now.records (P.state pool.old).contents) self.now.chained current ≡ place) }
        ensures reads { Reads result (P.state pool.old) (P.state pool.new) }
    {
        match current {
            None => Ok(None),
            Some(Current::NthRead(n)) => self.place_read(pool, n.saturating_sub(1)),
            Some(Current::LastChained) => Ok(self.chained),
        }
    }

    /// Changes the current record at the positions that are put, without counting it.
    fn update_current<P: Sectors>(
        &self,
        pool: &mut P,
        current: Option<Current>,
        codes: &[u8],
        marks: &[bool],
    ) -> Result<Put, SectorFault>
        requires usable { IsUsable (P.state pool.old).contents self.now.label self.now.records }
        ensures puts { IfOk result (λ put. Puts (updated self.now.label (changes_of codes.now marks.now) (place_current_spec self.now.label (records_of self.now.records (P.state pool.old).contents) self.now.chained current) (records_of self.now.records (P.state pool.old).contents)) put (records_of self.now.records (P.state pool.old).contents) (records_of self.now.records (P.state pool.new).contents)) }
        ensures of_label { OnOk result (AreOf self.now.label (P.state pool.new).contents self.now.records) }
        ensures changes { Changes (sectors_of self.now.label) result (P.state pool.old) (P.state pool.new) }
    {
        match self.place_current(pool, current)? {
            None => Ok(Put::Refused(HaltCode::NothingToUpdate)),
            Some(place) => self.update_at(pool, place, codes, marks),
        }
    }

    /// Changes the current record, as the file now holds it, at the positions that are put, and counts the change. It is refused
    /// if there is no such record, or if the key of an indexed file would change.
    pub fn update<P: Sectors>(
        &mut self,
        pool: &mut P,
        current: Option<Current>,
        codes: &[u8],
        marks: &[bool],
    ) -> Result<Put, SectorFault>
        requires usable { IsUsable (P.state pool.old).contents self.old.label self.old.records }
        ensures puts { IfOk result (λ put. Puts (updated self.old.label (changes_of codes.now marks.now) (place_current_spec self.old.label (records_of self.old.records (P.state pool.old).contents) self.old.chained current) (records_of self.old.records (P.state pool.old).contents)) put (records_of self.old.records (P.state pool.old).contents) (records_of self.new.records (P.state pool.new).contents)) }
        ensures of_label { OnOk result (AreOf self.old.label (P.state pool.new).contents self.new.records) }
        ensures counts { IfOk result (λ put. self.new.updates ≡ updates_after put self.old.updates) }
        ensures alone { self.new ≡ record self.old { updates = self.new.updates } }
        ensures changes { Changes (sectors_of self.old.label) result (P.state pool.old) (P.state pool.new) }
    {
        let put = self.update_current(pool, current, codes, marks)?;
        self.updates = count_of_updates(put, self.updates);
        Ok(put)
    }

    /// Whether the file is dropped at the end of the job: it is a scratch file that the job made.
    pub fn goes_at_end(&self) -> bool
        ensures { result ≡ (self.now.is_made && is_kept_for_job self.now.label.retention) }
    {
        self.is_made && self.label.retention == Retention::Scratch
    }

    /// Closes the file: the index of an indexed file on the pack then has the keys of all its records.
    pub fn close<P: Sectors>(self, pool: &mut P) -> Result<(), SectorFault>
        requires usable { IsUsable (P.state pool.old).contents self.label self.records }
        ensures kept { OnOk result (kept_on (record self.label { count = count_of self.records }) (P.state pool.new).contents ≡ record { records = records_of self.records (P.state pool.old).contents; has_good_index = true }) }
        ensures changes { Changes (sectors_of self.label) result (P.state pool.old) (P.state pool.new) }
    {
        match self.records {
            OpenRecords::InOrder(_) => Ok(()),
            OpenRecords::ByKey(file) => by_key::close(file, pool),
        }
    }
}

/// How many updates a file has had after one more was tried.
fn count_of_updates(put: Put, before: u32) -> u32
    ensures { result ≡ updates_after put before }
{
    match put {
        Put::Done => before.saturating_add(1),
        Put::Refused(_) => before,
    }
}

/// Whether the records of a file have keys.
fn is_indexed(organization: Organization) -> bool
    ensures { result ≡ is_indexed_spec organization }
{
    organization == Organization::Indexed
}

/// The records of the file that a label describes, unless its index isn't good.
#[tactic(auto, using(crate::proofs::Checked::plain_good, crate::proofs::Checked::keyed_good, crate::proofs::Checked::plain_kept, crate::proofs::Checked::keyed_kept))]
fn records_of_label<P: Sectors>(
    alloc: Global,
    pool: &mut P,
    label: &FileLabel,
) -> Result<Option<OpenRecords>, SectorFault>
    requires { IsOfPack (length (P.state pool.old).contents) label.now }
    ensures good { IfOk result (λ opened. (kept_on label.now (P.state pool.old).contents).has_good_index ≡ is_some opened) }
    ensures of_label { IfOk result (λ opened. IfSome opened (AreOf label.now (P.state pool.old).contents)) }
    ensures kept { IfOk result (λ opened. IfSome opened (λ records. (kept_on label.now (P.state pool.old).contents).records ≡ records_of records (P.state pool.old).contents)) }
    ensures count { IfOk result (λ opened. IfSome opened (λ records. count_of records ≡ label.now.count)) }
    ensures reads { Reads result (P.state pool.old) (P.state pool.new) }
{
    if is_indexed(label.organization) {
        match by_key::check(alloc, pool, label)? {
            Some(file) => Ok(Some(OpenRecords::ByKey(file))),
            None => Ok(None),
        }
    } else {
        Ok(Some(OpenRecords::InOrder(Sequential::of(label))))
    }
}

/// The byte of a record: the code if it is put, else the old byte.
fn laid_byte(code: u8, is_put: bool, old: u8) -> u8
    ensures { result ≡ (if is_put then code else old) }
{
    if is_put { code } else { old }
}

/// Lays codes over the bytes of a record, if they are put.
fn overlay(codes: &[u8], marks: &[bool], bytes: &mut [u8])
    ensures { bytes.new ≡ overlaid (changes_of codes.now marks.now) bytes.old }
{
    let count = codes.len().min(marks.len()).min(bytes.len());
    for place in 0..count {
        bytes[place] = laid_byte(codes[place], marks[place], bytes[place]);
    }
}
