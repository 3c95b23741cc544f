//! The job at work.
ghost use Rattle.std.specs.Prelude.{◌≡◌, true, false, ◌+◌, ◌<◌, ◌≤◌, [], ◌∷◌, length, drop, slice_range, IfOk, IsTrue, OnOk, MatchOption, Some};
ghost use Rattle.std.specs.Int.NonZero.{non_zero_u16_get};
ghost use Rattle.s3_job_files.specs.Files.{FilesInUse};
ghost use Rattle.s3_job_files.specs.Closing.{files_closed};
ghost use Rattle.s3_job_files.specs.Inner.Calls.{found_answer, put_answer};
ghost use Rattle.s3_job_files.specs.Requests.{record_chained, record_updated};
ghost use Rattle.s3_job_files.specs.Inner.Holds.{seen, AllAt, Serves, Holds as HoldsInUse, IsReady as AreFilesReady};
ghost use Rattle.s3_job_files.specs.Inner.Packs.{LeavesPack};
ghost use Rattle.s3_meaning.specs.Inner.Requests.{fits_done, refuses_update};
ghost use Rattle.s3_cycle.specs.Inner.Following.{PassesJumps, Resumes, asked, is_fit};
ghost use Rattle.s3_cycle.specs.Inner.Requests.{answer_of, sought_of};
ghost use Rattle.s3_cycle.specs.declared.request.Request.TheVariants as asks;
ghost use Rattle.s3_solo.specs.Serving.{card_answer};
ghost use Rattle.s3_level.specs.Inner.Calls.{CanServe, KeepsOpened, ServesJob};
ghost use Rattle.s3_level.specs.Inner.Holds.{IsJobReady, places_of};
ghost use Rattle.s3_level.specs.Inner.Library.{HasSame, IsOfLibrary};
ghost use Rattle.s3_level.specs.Inner.Turning.{AsksFile, KeepsPlace, SuitsSought};

use crate::stocked::{Stocked, give_back};
use indexmap::IndexMap;
use s3_cards::{Card, Deck, Name};
use s3_cycle::{Answer, Cycle, FileCall, Request, Sought};
use s3_job_files::{JobFiles, Put};
use s3_labels::Pack;
use s3_lines::sheet::FileLine;
use s3_meaning::Current;
use s3_output::composition::{Composition, LONGEST_RECORD};
use s3_store::{SectorFault, Sectors};
use std::alloc::{AllocError, Global};
use std::num::NonZeroU16;

/// A job at work: its number, its program's cycle, its files, and the places of its data cards that are not yet read.
#[derive(Drop)]
pub struct OpenJob {
    /// Its number, 0 to 999.
    pub number: u16,
    /// The name under which its program is in the library.
    pub program: Name,
    /// The cycle of its program.
    pub cycle: Cycle,
    /// Its files on the pack.
    pub files: JobFiles,
    /// For each slot of its F sheet the place of the file among those; none if the job doesn't use it.
    pub places: Vec<Option<usize>>,
    /// The room into which a record is read.
    pub room: Box<[u8; LONGEST_RECORD]>,
    /// The place of the next data card in the deck.
    pub next: usize,
    /// The place after the last data card in the deck.
    pub end: usize,
}

/// For each of these F lines the place of its file among those that a job has in use. Refused only if memory runs out.
pub fn places_of(
    alloc: Global,
    lines: &[FileLine],
    job_files: &JobFiles,
) -> Result<Vec<Option<usize>>, AllocError>
    ensures { IfOk result (λ places. places.items ≡ places_of lines.now job_files.now.files.items) }
{
    let mut places = Vec::with_capacity(alloc, lines.len())?;
    for line in lines {
        places.push(job_files.place_of(line.name))?;
    }
    Ok(places)
}

/// The first card from one place of a deck up to another, if there is one.
#[tactic(auto, using(crate::proofs::Cards::first_card, crate::proofs::Cards::no_card, crate::proofs::Cards::no_card_left))]
fn first_card(deck: &Deck, from: usize, to: usize) -> Option<&Card>
    ensures { MatchOption result (slice_range deck.now from to ≡ []) (λ card. (from < to) × (slice_range deck.now from to ≡ card.now ∷ slice_range deck.now (from + 1) to)) }
{
    if from >= to {
        return None;
    }
    let card = deck.card(from)?;
    Some(card)
}

/// The answer for a run: the record that was found, or none.
#[tactic(auto, unfolding(s3_cycle::specs::Inner::Requests::answer_of))]
fn record_answer(found: bool, bytes: &[u8]) -> Answer<'_>
    ensures { answer_of result ≡ found_answer found bytes.now }
{
    if found {
        Answer::Found(bytes)
    } else {
        Answer::Nothing
    }
}

/// The answer for a run: a record was put, or refused.
#[tactic(auto, unfolding(s3_cycle::specs::Inner::Requests::answer_of))]
fn answer_of_put(put: Put) -> Answer<'static>
    ensures { answer_of result ≡ put_answer put }
{
    match put {
        Put::Done => Answer::Done,
        Put::Refused(code) => Answer::Refused(code),
    }
}

/// Reads the record with a key or a number in the file at a place, and answers whether there is one.
fn chain<P: Sectors>(
    job_files: &mut JobFiles,
    pack: &mut Pack<P>,
    place: usize,
    sought: &Sought,
    bytes: &mut [u8],
) -> Result<bool, SectorFault>
    requires ready { AreFilesReady job_files.old.level job_files.old.files.items (seen pack.old.areas (P.state pack.old.pool).contents) }
    requires there { place < length job_files.old.files.items }
    requires suits { AllAt job_files.old.files.items place (SuitsSought sought.now) }
    requires long { AllAt job_files.old.files.items place (λ file. length bytes.old ≡ file.label.record_length) }
    ensures serves { IfOk result (λ found. Serves (record_chained (sought_of sought.now)) place (found_answer found bytes.new) (HoldsInUse job_files.old.level job_files.old.files.items (seen pack.old.areas (P.state pack.old.pool).contents)) (HoldsInUse job_files.new.level job_files.new.files.items (seen pack.new.areas (P.state pack.new.pool).contents))) }
    ensures ready { AreFilesReady job_files.new.level job_files.new.files.items (seen pack.new.areas (P.state pack.new.pool).contents) }
    ensures opened { KeepsOpened job_files.old job_files.new }
    ensures pack { LeavesPack job_files.old.level result pack.old.areas pack.new.areas (P.state pack.old.pool) (P.state pack.new.pool) }
{
    match sought {
        Sought::Key(key) => job_files.chain_key(pack, place, key, bytes),
        Sought::RecordNumber(number) => job_files.chain_number(pack, place, *number, bytes),
    }
}

/// Changes the current record of the file at a place.
fn change<P: Sectors>(
    job_files: &mut JobFiles,
    pack: &mut Pack<P>,
    place: usize,
    current: Option<Current>,
    changes: &Composition,
) -> Result<Put, SectorFault>
    requires ready { AreFilesReady job_files.old.level job_files.old.files.items (seen pack.old.areas (P.state pack.old.pool).contents) }
    requires there { place < length job_files.old.files.items }
    requires own { AllAt job_files.old.files.items place (λ file. file.is_master ≡ false) }
    ensures serves { IfOk result (λ put. Serves (record_updated current changes.now) place (put_answer put) (HoldsInUse job_files.old.level job_files.old.files.items (seen pack.old.areas (P.state pack.old.pool).contents)) (HoldsInUse job_files.new.level job_files.new.files.items (seen pack.new.areas (P.state pack.new.pool).contents))) }
    ensures fits { IfOk result (λ put. fits_done refuses_update (put_answer put) ≡ true) }
    ensures ready { OnOk result (AreFilesReady job_files.new.level job_files.new.files.items (seen pack.new.areas (P.state pack.new.pool).contents)) }
    ensures opened { KeepsOpened job_files.old job_files.new }
    ensures pack { LeavesPack job_files.old.level result pack.old.areas pack.new.areas (P.state pack.old.pool) (P.state pack.new.pool) }
{
    job_files.update(pack, place, current, changes.codes(), changes.marks())
}

impl OpenJob {
    /// Reads the next data card, if there is one, and continues with it.
    pub fn read_card(&mut self, deck: &Deck)
        requires { asked self.old.cycle ≡ asks.Card }
        ensures resumes { Resumes self.old.cycle self.new.cycle (card_answer (slice_range deck.now self.old.next self.old.end)) }
        ensures cards { slice_range deck.now self.new.next self.new.end ≡ drop 1 (slice_range deck.now self.old.next self.old.end) }
        ensures number { self.new.number ≡ self.old.number }
        ensures program { self.new.program ≡ self.old.program }
        ensures files { self.new.files ≡ self.old.files }
        ensures ready { IsJobReady self.old.files.level self.old → IsJobReady self.new.files.level self.new }
    {
        match first_card(deck, self.next, self.end) {
            Some(card) => {
                self.next += 1;
                self.cycle.resume(Answer::Found(card));
            }
            None => self.cycle.resume(Answer::Nothing),
        }
    }

    /// Goes on with the answer to its pending request.
    pub fn resume(&mut self, answer: Answer<'_>)
        requires { IsTrue (is_fit self.old.cycle answer) }
        ensures resumes { Resumes self.old.cycle self.new.cycle (answer_of answer.entry) }
        ensures ready { IsJobReady self.old.files.level self.old → IsJobReady self.new.files.level self.new }
        ensures files { self.new.files ≡ self.old.files }
        ensures place { KeepsPlace self.old self.new }
    {
        self.cycle.resume(answer);
    }

    /// Continues past the pending jump and the jumps after it, at most `most`, and answers how many they were.
    pub fn pass_jumps(&mut self, most: NonZeroU16) -> u16
        requires jump { asked self.old.cycle ≡ asks.Jump }
        ensures some { 1 ≤ result }
        ensures few { result ≤ non_zero_u16_get most }
        ensures passes { PassesJumps self.old.cycle self.new.cycle result }
        ensures ready { IsJobReady self.old.files.level self.old → IsJobReady self.new.files.level self.new }
        ensures files { self.new.files ≡ self.old.files }
        ensures place { KeepsPlace self.old self.new }
    {
        self.cycle.pass_jumps(most)
    }

    /// Closes the files of the job: counts are set, and scratch files that it made are dropped. The cycle goes back to the library.
    ///
    /// After a fault of the sectors no call on the pack is to be made.
    pub fn close<P: Sectors>(
        self,
        library: &mut IndexMap<Name, Stocked>,
        pack: &mut Pack<P>,
    ) -> Result<(), SectorFault>
        requires ready { AreFilesReady self.files.level self.files.files.items (seen pack.old.areas (P.state pack.old.pool).contents) }
        requires of_library { IsOfLibrary library.old (Some self) }
        ensures library { HasSame library.old library.new }
        ensures closes { OnOk result ((in_use : FilesInUse) → HoldsInUse self.files.level self.files.files.items (seen pack.old.areas (P.state pack.old.pool).contents) in_use → HoldsInUse self.files.level [] (seen pack.new.areas (P.state pack.new.pool).contents) (record { files = files_closed in_use.job_files in_use.files; job_files = [] })) }
        ensures ready { OnOk result (AreFilesReady self.files.level [] (seen pack.new.areas (P.state pack.new.pool).contents)) }
        ensures pack { LeavesPack self.files.level result pack.old.areas pack.new.areas (P.state pack.old.pool) (P.state pack.new.pool) }
    {
        give_back(library, self.program, self.cycle);
        self.files.close(pack)
    }

    /// Serves the pending request, one to a file, and continues with the answer; answers whether the job has that file in use.
    ///
    /// It fails only if the job has the file. After a fault of the sectors no request is to be made.
    #[inline(never)]
    pub fn serve<P: Sectors>(&mut self, pack: &mut Pack<P>) -> Result<bool, SectorFault>
        requires asks { AsksFile (Some (asked self.old.cycle)) }
        requires can { CanServe self.old (seen pack.old.areas (P.state pack.old.pool).contents) }
        ensures { ServesJob result self.old self.new pack.old.areas pack.new.areas (P.state pack.old.pool) (P.state pack.new.pool) }
    {
        let Request::File { file, call } = self.cycle.pending() else {
            unreachable!();
        };
        let Some(place) = self.places[*file] else {
            return Ok(false);
        };
        match call {
            FileCall::Read { length } => {
                let bytes = &mut self.room[..usize::from(*length)];
                let found = self.files.read_next(pack, place, bytes)?;
                self.cycle.resume(record_answer(found, bytes));
            }
            FileCall::Chain { length, sought } => {
                let bytes = &mut self.room[..usize::from(*length)];
                let found = chain(&mut self.files, pack, place, sought, bytes)?;
                self.cycle.resume(record_answer(found, bytes));
            }
            FileCall::Append => {
                let put = self.files.append(pack, place, self.cycle.record())?;
                self.cycle.resume(answer_of_put(put));
            }
            FileCall::Add => {
                let put = self.files.add(pack, place, self.cycle.record())?;
                self.cycle.resume(answer_of_put(put));
            }
            FileCall::Update { current } => {
                let put = change(&mut self.files, pack, place, *current, self.cycle.changes())?;
                self.cycle.resume(answer_of_put(put));
            }
        }
        Ok(true)
    }
}
