//! The files of a job at work.
ghost use Rattle.std.specs.Prelude.{◌≡◌, ◌<◌, ◌+◌, ◌++◌, [], ◌∷◌, true, false, length, map, slice_get, IfOk, IfSome, OnOk};
ghost use Rattle.std.specs.List.{list_any, position_from};
ghost use Rattle.s3_cards.specs.Names.{same_name};
ghost use Rattle.s3_store.specs.Inner.State.{KeepsContents, KeepsInStep};
ghost use Rattle.s3_store.specs.Inner.Failures.{failed_transfers};
ghost use Rattle.s3_slots.specs.Labels.{is_indexed};
ghost use Rattle.s3_labels.specs.Inner.Areas.{slots_at, with_slots, IsReady as IsPackReady};
ghost use Rattle.s3_labels.specs.Inner.Labelled.{KeepsSaid};
ghost use Rattle.s3_meaning.specs.Requests.{Key, RecordNumber};
ghost use Rattle.s3_meaning.specs.Inner.Requests.{fits_done, refuses_append, refuses_add, refuses_update};
ghost use Rattle.s3_job_files.specs.Requests.{record_read, record_chained, record_appended, record_added, record_updated};
ghost use Rattle.s3_job_files.specs.Inner.Calls.{found_answer, put_answer};
ghost use Rattle.s3_job_files.specs.Inner.Records.{changes_of};

use crate::closing::close_all;
use crate::file::OpenFile;
use crate::records::Put;
use s3_cards::{LevelId, Name, are_same_eight};
use s3_labels::Pack;
use s3_meaning::Current;
use s3_store::{SectorFault, Sectors};
use std::alloc::{AllocError, Global};

/// The files of the job at work in a level, in the order in which they were opened.
#[derive(Drop)]
pub struct JobFiles {
    /// The level whose job it is.
    pub level: LevelId,
    /// The open files, each called by its place in this list.
    pub files: Vec<OpenFile>,
}

/// The first file that the program knows by this name.
fn position_of(files: &Vec<OpenFile>, name: Name) -> Option<usize>
    ensures place { result ≡ position_from (λ file. same_name file.name name) 0 files.now.items }
    ensures within { IfSome result (λ place. place < length files.now.items) }
{
    files
        .iter()
        .position(|file| are_same_eight(&file.name.codes, &name.codes))
}

impl JobFiles {
    ghost use Rattle.s3_job_files.specs.Files.{FilesInUse, area_by, place_named};
    ghost use Rattle.s3_job_files.specs.Closing.{files_closed};
    ghost use Rattle.s3_job_files.specs.Inner.Holds.{AllAt, HoldsRecords, Seen, Stands, seen, IsReady, IsOutOfReach, Holds, Serves, TakesRecord, job_file_of, opened_as};

    /// The files of a job before any is opened: none.
    pub fn new(alloc: Global, level: LevelId) -> Self
        ensures level { result.level ≡ level }
        ensures none { result.files.items ≡ [] }
    {
        JobFiles {
            level,
            files: Vec::new(alloc),
        }
    }

    /// The open file at a place.
    pub fn file(&self, place: usize) -> &OpenFile
        requires { place < length self.now.files.items }
        ensures { slice_get self.now.files.items place ≡ Some result.now }
    {
        &self.files[place]
    }

    /// Puts one more open file after the others; refused only if memory runs out.
    pub fn push(&mut self, file: OpenFile) -> Result<(), AllocError>
        ensures pushed { OnOk result (self.new.files.items ≡ self.old.files.items ++ file ∷ []) }
        ensures ready { OnOk result ((pack : Seen) → IsReady self.old.level self.old.files.items pack → Stands self.old.level pack file → list_any (λ one. same_name one.label.name file.label.name) self.old.files.items ≡ false → IsReady self.new.level self.new.files.items pack) }
        ensures holds { OnOk result ((pack : Seen) (in_use : FilesInUse) → Holds self.old.level self.old.files.items pack in_use → HoldsRecords pack.contents file ((area_by file.is_master in_use.files).kept file.label.name) → Holds self.new.level self.new.files.items pack (record in_use { job_files = in_use.job_files ++ job_file_of file ∷ [] })) }
        ensures level { self.new.level ≡ self.old.level }
    {
        self.files.push(file)?;
        Ok(())
    }

    /// The place of the open file that the program knows by this name; none if no such file is open.
    pub fn place_of(&self, name: Name) -> Option<usize>
        ensures place { result ≡ place_named name (map job_file_of self.now.files.items) }
        ensures within { IfSome result (λ place. place < length self.now.files.items) }
    {
        position_of(&self.files, name)
    }

    /// Reads the next record of the file at a place into `bytes`, and answers whether there is one.
    pub fn read_next<P: Sectors>(
        &mut self,
        pack: &mut Pack<P>,
        place: usize,
        bytes: &mut [u8],
    ) -> Result<bool, SectorFault>
        requires ready { IsReady self.old.level self.old.files.items (seen pack.old.areas (P.state pack.old.pool).contents) }
        requires there { place < length self.old.files.items }
        requires long { AllAt self.old.files.items place (λ file. length bytes.old ≡ file.label.record_length) }
        ensures serves { IfOk result (λ found. Serves record_read place (found_answer found bytes.new) (Holds self.old.level self.old.files.items (seen pack.old.areas (P.state pack.old.pool).contents)) (Holds self.new.level self.new.files.items (seen pack.new.areas (P.state pack.new.pool).contents))) }
        ensures ready { IsReady self.new.level self.new.files.items (seen pack.new.areas (P.state pack.new.pool).contents) }
        ensures keeps { KeepsContents (P.state pack.old.pool) (P.state pack.new.pool) }
        ensures areas { pack.new.areas ≡ pack.old.areas }
        ensures failures { (P.state pack.new.pool).failures ≡ (P.state pack.old.pool).failures + failed_transfers result }
        ensures level { self.new.level ≡ self.old.level }
        ensures opened { map opened_as self.new.files.items ≡ map opened_as self.old.files.items }
    {
        self.files[place].read_next(&mut pack.pool, bytes)
    }

    /// Reads the record of the indexed file at a place that has the key in these bytes, and answers whether there is one.
    pub fn chain_key<P: Sectors>(
        &mut self,
        pack: &mut Pack<P>,
        place: usize,
        key: &[u8],
        bytes: &mut [u8],
    ) -> Result<bool, SectorFault>
        requires ready { IsReady self.old.level self.old.files.items (seen pack.old.areas (P.state pack.old.pool).contents) }
        requires there { place < length self.old.files.items }
        requires indexed { AllAt self.old.files.items place (λ file. is_indexed file.label.organization ≡ true) }
        requires key { AllAt self.old.files.items place (λ file. length key.now ≡ file.label.key_length) }
        requires long { AllAt self.old.files.items place (λ file. length bytes.old ≡ file.label.record_length) }
        ensures serves { IfOk result (λ found. Serves (record_chained (Key key.now)) place (found_answer found bytes.new) (Holds self.old.level self.old.files.items (seen pack.old.areas (P.state pack.old.pool).contents)) (Holds self.new.level self.new.files.items (seen pack.new.areas (P.state pack.new.pool).contents))) }
        ensures ready { IsReady self.new.level self.new.files.items (seen pack.new.areas (P.state pack.new.pool).contents) }
        ensures keeps { KeepsContents (P.state pack.old.pool) (P.state pack.new.pool) }
        ensures areas { pack.new.areas ≡ pack.old.areas }
        ensures failures { (P.state pack.new.pool).failures ≡ (P.state pack.old.pool).failures + failed_transfers result }
        ensures level { self.new.level ≡ self.old.level }
        ensures opened { map opened_as self.new.files.items ≡ map opened_as self.old.files.items }
    {
        self.files[place].chain_key(&mut pack.pool, key, bytes)
    }

    /// Reads the record of the file at a place that has this number, from 1, and answers whether there is one.
    pub fn chain_number<P: Sectors>(
        &mut self,
        pack: &mut Pack<P>,
        place: usize,
        number: i64,
        bytes: &mut [u8],
    ) -> Result<bool, SectorFault>
        requires ready { IsReady self.old.level self.old.files.items (seen pack.old.areas (P.state pack.old.pool).contents) }
        requires there { place < length self.old.files.items }
        requires long { AllAt self.old.files.items place (λ file. length bytes.old ≡ file.label.record_length) }
        ensures serves { IfOk result (λ found. Serves (record_chained (RecordNumber number)) place (found_answer found bytes.new) (Holds self.old.level self.old.files.items (seen pack.old.areas (P.state pack.old.pool).contents)) (Holds self.new.level self.new.files.items (seen pack.new.areas (P.state pack.new.pool).contents))) }
        ensures ready { IsReady self.new.level self.new.files.items (seen pack.new.areas (P.state pack.new.pool).contents) }
        ensures keeps { KeepsContents (P.state pack.old.pool) (P.state pack.new.pool) }
        ensures areas { pack.new.areas ≡ pack.old.areas }
        ensures failures { (P.state pack.new.pool).failures ≡ (P.state pack.old.pool).failures + failed_transfers result }
        ensures level { self.new.level ≡ self.old.level }
        ensures opened { map opened_as self.new.files.items ≡ map opened_as self.old.files.items }
    {
        self.files[place].chain_number(&mut pack.pool, number, bytes)
    }

    /// Puts a record after the last one of the level's own file at a place. It is refused in an indexed file if its key isn't
    /// above all others, and in any file that is full.
    ///
    /// After a fault of the sectors no request is to be made.
    pub fn append<P: Sectors>(
        &mut self,
        pack: &mut Pack<P>,
        place: usize,
        bytes: &[u8],
    ) -> Result<Put, SectorFault>
        requires ready { IsReady self.old.level self.old.files.items (seen pack.old.areas (P.state pack.old.pool).contents) }
        requires there { place < length self.old.files.items }
        requires takes { AllAt self.old.files.items place (TakesRecord bytes.now) }
        ensures serves { IfOk result (λ put. Serves (record_appended bytes.now) place (put_answer put) (Holds self.old.level self.old.files.items (seen pack.old.areas (P.state pack.old.pool).contents)) (Holds self.new.level self.new.files.items (seen pack.new.areas (P.state pack.new.pool).contents))) }
        ensures fits { IfOk result (λ put. fits_done refuses_append (put_answer put) ≡ true) }
        ensures ready { OnOk result (IsReady self.new.level self.new.files.items (seen pack.new.areas (P.state pack.new.pool).contents)) }
        ensures pack { IsPackReady pack.new.areas (P.state pack.new.pool).contents }
        ensures spares { KeepsInStep (IsOutOfReach self.old.level pack.old.areas.header) (P.state pack.old.pool) (P.state pack.new.pool) }
        ensures says { KeepsSaid self.old.level pack.old.areas (P.state pack.old.pool).contents pack.new.areas (P.state pack.new.pool).contents }
        ensures areas { pack.new.areas ≡ pack.old.areas }
        ensures failures { (P.state pack.new.pool).failures ≡ (P.state pack.old.pool).failures + failed_transfers result }
        ensures level { self.new.level ≡ self.old.level }
        ensures opened { map opened_as self.new.files.items ≡ map opened_as self.old.files.items }
    {
        self.files[place].append(&mut pack.pool, bytes)
    }

    /// Puts a record after the last one of the level's own indexed file at a place. It is refused if another record has its key,
    /// and if the file is full.
    ///
    /// After a fault of the sectors no request is to be made.
    pub fn add<P: Sectors>(
        &mut self,
        pack: &mut Pack<P>,
        place: usize,
        bytes: &[u8],
    ) -> Result<Put, SectorFault>
        requires ready { IsReady self.old.level self.old.files.items (seen pack.old.areas (P.state pack.old.pool).contents) }
        requires there { place < length self.old.files.items }
        requires indexed { AllAt self.old.files.items place (λ file. is_indexed file.label.organization ≡ true) }
        requires takes { AllAt self.old.files.items place (TakesRecord bytes.now) }
        ensures serves { IfOk result (λ put. Serves (record_added bytes.now) place (put_answer put) (Holds self.old.level self.old.files.items (seen pack.old.areas (P.state pack.old.pool).contents)) (Holds self.new.level self.new.files.items (seen pack.new.areas (P.state pack.new.pool).contents))) }
        ensures fits { IfOk result (λ put. fits_done refuses_add (put_answer put) ≡ true) }
        ensures ready { OnOk result (IsReady self.new.level self.new.files.items (seen pack.new.areas (P.state pack.new.pool).contents)) }
        ensures pack { IsPackReady pack.new.areas (P.state pack.new.pool).contents }
        ensures spares { KeepsInStep (IsOutOfReach self.old.level pack.old.areas.header) (P.state pack.old.pool) (P.state pack.new.pool) }
        ensures says { KeepsSaid self.old.level pack.old.areas (P.state pack.old.pool).contents pack.new.areas (P.state pack.new.pool).contents }
        ensures areas { pack.new.areas ≡ pack.old.areas }
        ensures failures { (P.state pack.new.pool).failures ≡ (P.state pack.old.pool).failures + failed_transfers result }
        ensures level { self.new.level ≡ self.old.level }
        ensures opened { map opened_as self.new.files.items ≡ map opened_as self.old.files.items }
    {
        self.files[place].add(&mut pack.pool, bytes)
    }

    /// Changes the current record of the level's own file at a place, as the file now holds it, at the positions that are put. It
    /// is refused if no such record is there, and if the key of an indexed file would change.
    ///
    /// After a fault of the sectors no request is to be made.
    pub fn update<P: Sectors>(
        &mut self,
        pack: &mut Pack<P>,
        place: usize,
        current: Option<Current>,
        codes: &[u8],
        marks: &[bool],
    ) -> Result<Put, SectorFault>
        requires ready { IsReady self.old.level self.old.files.items (seen pack.old.areas (P.state pack.old.pool).contents) }
        requires there { place < length self.old.files.items }
        requires own { AllAt self.old.files.items place (λ file. file.is_master ≡ false) }
        ensures serves { IfOk result (λ put. Serves (record_updated current (changes_of codes.now marks.now)) place (put_answer put) (Holds self.old.level self.old.files.items (seen pack.old.areas (P.state pack.old.pool).contents)) (Holds self.new.level self.new.files.items (seen pack.new.areas (P.state pack.new.pool).contents))) }
        ensures fits { IfOk result (λ put. fits_done refuses_update (put_answer put) ≡ true) }
        ensures ready { OnOk result (IsReady self.new.level self.new.files.items (seen pack.new.areas (P.state pack.new.pool).contents)) }
        ensures pack { IsPackReady pack.new.areas (P.state pack.new.pool).contents }
        ensures spares { KeepsInStep (IsOutOfReach self.old.level pack.old.areas.header) (P.state pack.old.pool) (P.state pack.new.pool) }
        ensures says { KeepsSaid self.old.level pack.old.areas (P.state pack.old.pool).contents pack.new.areas (P.state pack.new.pool).contents }
        ensures areas { pack.new.areas ≡ pack.old.areas }
        ensures failures { (P.state pack.new.pool).failures ≡ (P.state pack.old.pool).failures + failed_transfers result }
        ensures level { self.new.level ≡ self.old.level }
        ensures opened { map opened_as self.new.files.items ≡ map opened_as self.old.files.items }
    {
        self.files[place].update(&mut pack.pool, current, codes, marks)
    }

    /// Closes all files: the count of each of the level's own is set, and the scratch files that the job made go.
    ///
    /// After a fault of the sectors no call on the pack is to be made.
    pub fn close<P: Sectors>(self, pack: &mut Pack<P>) -> Result<(), SectorFault>
        requires ready { IsReady self.level self.files.items (seen pack.old.areas (P.state pack.old.pool).contents) }
        ensures closes { OnOk result ((in_use : FilesInUse) → Holds self.level self.files.items (seen pack.old.areas (P.state pack.old.pool).contents) in_use → Holds self.level [] (seen pack.new.areas (P.state pack.new.pool).contents) (record { files = files_closed in_use.job_files in_use.files; job_files = [] })) }
        ensures ready { OnOk result (IsReady self.level [] (seen pack.new.areas (P.state pack.new.pool).contents)) }
        ensures pack { IsPackReady pack.new.areas (P.state pack.new.pool).contents }
        ensures others { pack.new.areas ≡ with_slots self.level (slots_at self.level pack.new.areas) pack.old.areas }
        ensures spares { KeepsInStep (IsOutOfReach self.level pack.old.areas.header) (P.state pack.old.pool) (P.state pack.new.pool) }
        ensures says { OnOk result (KeepsSaid self.level pack.old.areas (P.state pack.old.pool).contents pack.new.areas (P.state pack.new.pool).contents) }
        ensures failures { (P.state pack.new.pool).failures ≡ (P.state pack.old.pool).failures + failed_transfers result }
    {
        close_all(self.level, self.files, pack)
    }
}
