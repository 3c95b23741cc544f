//! The jobs of a deck.
ghost use Rattle.std.specs.Prelude.{◌≡◌, ◌<◌, ◌≤◌, ◌+◌, [], IfOk, IfSome, IsTrue, length, drop, slice_get, slice_index_or};
ghost use Rattle.s3_ocl.specs.Cards.{is_job_end as job_end_spec, is_statement as statement_spec};
ghost use Rattle.s3_ocl.specs.Jobs.{job_with as job_with_spec, faulty_end, job_end as job_end_at, stop_fault as stop_fault_spec, holds_at, job_at as job_at_spec, next_job, is_compile as is_compile_spec};
ghost use Rattle.s3_ocl.specs.Inner.Jobs.{job_place, Gives, LiesWithin};
ghost use Rattle.s3_ocl.specs.Inner.Steps.{Behind, IsKept, KeptOf, last_fault as last_fault_spec, with_last};
ghost use Rattle.s3_ocl.specs.Inner.Sound.{is_sound_date, is_sound_file};
ghost use Rattle.s3_ocl.specs.Inner.Streams.{OneStream};
ghost use Rattle.std.specs.List.{list_all};
ghost use Rattle.s3_ocl.specs.Faults.{first_fault, statement_faults};
ghost use Rattle.s3_ocl.specs.Statements.{statement_at};

use super::cards::{Stop, card_at, is_job_end, is_separator, is_statement};
use super::contents::{Contents, FileStatement};
use super::faults::{FaultyJob, JobFault, Mark, earlier, statement_fault};
use super::parameters::Verb;
use super::statements::{Statement, read_statement};
use super::values::Switch;
use super::words::COMPILER;
use s3_cards::ebcdic::BLANK;
use s3_cards::{Card, Deck, Name};
use std::alloc::{AllocError, Global};
use std::marker::Model;

/// Why the next job of a deck was not read.
#[derive(Drop)]
pub enum OclFault {
    /// There was no memory for the job.
    NoMemory,
    /// The job has a fault.
    Faulty(FaultyJob),
}

impl From<AllocError> for OclFault {
    ghost use Rattle.std.specs.Prelude.{◌≡◌};
    ghost use Rattle.s3_ocl.specs.declared.jobs.OclFault.TheVariants.{NoMemory};

    ghost from_gives = { λ _ e. e ≡ NoMemory };

    fn from(_: AllocError) -> Self {
        OclFault::NoMemory
    }
}

/// A job without faults.
#[derive(Drop)]
pub struct JobCards {
    program: Name,
    files: Vec<FileStatement>,
    date: Option<[u8; 6]>,
    switches: [Switch; 8],
    data_from: usize,
    data_to: usize,
    after: usize,
}

impl Model for JobCards {
    ghost use Rattle.std.specs.Prelude.{◌≤◌};
    ghost use Rattle.s3_ocl.specs.Jobs.{Job};

    ghost Value = { Job };

    ghost view = { λ j. record { program = j.program; files = j.files.items; date = j.date; switches = j.switches; data_from = j.data_from; data_to = j.data_to; after = j.after } };

    ghost invariant = { λ j. (j.data_from ≤ j.data_to) × (j.data_to ≤ j.after) × (j.after ≤ 9_999) };
}

impl JobCards {
    /// The program that LOAD names: `$RPG` for the compiler, else one of the library.
    pub fn program(&self) -> Name
        ensures { result ≡ self.now.program }
    {
        self.program
    }

    /// Whether the job compiles its data, which are the source of a program.
    pub fn is_compile(&self) -> bool
        ensures { result ≡ is_compile_spec self.now }
    {
        self.program == Name { codes: COMPILER }
    }

    /// The FILE statements of the job, in their order. Two of them with the same name are a fault of the job.
    pub fn files(&self) -> &[FileStatement]
        ensures { result.now ≡ self.now.files }
    {
        &self.files
    }

    /// The six digits mmddyy that DATE gives, in EBCDIC, if there is a DATE.
    pub fn date(&self) -> Option<[u8; 6]>
        ensures { result ≡ self.now.date }
    {
        self.date
    }

    /// What SWITCH does with each of U1 to U8, in that order.
    pub fn switches(&self) -> [Switch; 8]
        ensures { result ≡ self.now.switches }
    {
        self.switches
    }

    /// The number of the RUN card, from 1 to 9,999, which is the last card before the data.
    pub fn run_card(&self) -> u16
        ensures { result ≡ self.now.data_from }
    {
        self.data_from as u16
    }

    /// The place of the first card after RUN in the deck, from 0.
    pub fn data_from(&self) -> usize
        ensures { result ≡ self.now.data_from }
    {
        self.data_from
    }

    /// The place after the last card of the data in the deck, from 0. If it is the place of the first card of the data, there are
    /// no data.
    pub fn data_to(&self) -> usize
        ensures value { result ≡ self.now.data_to }
        ensures order { self.now.data_from ≤ self.now.data_to }
    {
        self.data_to
    }

    /// The place after the job in the deck, from 0 and at most 9,999. The search for the next job begins there.
    pub fn after(&self) -> usize
        ensures value { result ≡ self.now.after }
        ensures order { self.now.data_to ≤ self.now.after }
        ensures short { self.now.after ≤ 9_999 }
    {
        self.after
    }
}

/// Whether there is a statement at a place.
fn has_statement(cards: &[Card], place: usize) -> bool
    ensures { result ≡ holds_at statement_spec (slice_get cards.now place) }
{
    match cards.get(place) {
        None => false,
        Some(card) => is_statement(card),
    }
}

/// Whether there is a `/&` card at a place.
fn has_job_end(cards: &[Card], place: usize) -> bool
    ensures within { IsTrue result → place < length cards.now }
    ensures value { result ≡ holds_at job_end_spec (slice_get cards.now place) }
{
    match card_at(cards, place) {
        None => false,
        Some(card) => is_job_end(card),
    }
}

/// The place after a job whose data end at a place.
fn job_end(cards: &[Card], place: usize) -> usize
    requires within { place ≤ length cards.now }
    requires short { length cards.now ≤ 9_999 }
    ensures value { result ≡ job_end_at cards.now place }
    ensures places { (place ≤ result) × (result ≤ length cards.now) }
{
    let close = Stop::Close.next(cards, place);
    if has_job_end(cards, close) {
        close + 1
    } else {
        close
    }
}

/// A job with a fault.
fn faulty(cards: &[Card], mark: Mark) -> FaultyJob
    requires within { mark.card ≤ length cards.now }
    requires numbered { 0 < mark.card }
    requires short { length cards.now ≤ 9_999 }
    ensures value { result ≡ record { fault = mark.fault; card = mark.card; after = faulty_end cards.now mark.card } }
    ensures places { (mark.card ≤ result.after) × (result.after ≤ length cards.now) }
{
    let end = Stop::JobEnd.next(cards, mark.card as usize - 1);
    FaultyJob {
        fault: mark.fault,
        card: mark.card,
        after: (end + 1).min(cards.len()),
    }
}

/// The job with these contents, whose statements end at a place.
fn job_with(contents: Contents, cards: &[Card], end: usize) -> JobCards
    requires within { end ≤ length cards.now }
    requires short { length cards.now ≤ 9_999 }
    ensures value { KeptOf contents (λ heading. result ≡ job_with_spec cards.now heading end) }
    ensures places { (result.data_from ≡ end) × (end ≤ result.data_to) × (result.data_to ≤ result.after) × (result.after ≤ length cards.now) }
{
    let data_to = Stop::Separator.next(cards, end);
    JobCards {
        program: contents.program.unwrap_or(Name { codes: [BLANK; 8] }),
        files: contents.files.into_vec(),
        date: contents.date,
        switches: contents.switches.unwrap_or([Switch::Leave; 8]),
        data_from: end,
        data_to,
        after: job_end(cards, data_to),
    }
}

/// What is wrong with a job whose statements end at a place without RUN.
fn stop_fault(cards: &[Card], place: usize) -> Mark
    requires short { length cards.now ≤ 9_999 }
    requires within { place ≤ length cards.now }
    ensures value { result ≡ stop_fault_spec cards.now place (slice_get cards.now place) }
    ensures within { (0 < length cards.now → place ≤ length cards.now → (0 < result.card) × (result.card ≤ length cards.now) × (place ≤ result.card)) }
{
    match cards.get(place) {
        None => Mark {
            card: cards.len() as u16,
            fault: JobFault::NoRun,
        },
        Some(card) => {
            let fault = if is_separator(card) {
                JobFault::NoRun
            } else {
                JobFault::NotOcl
            };
            Mark {
                card: place as u16 + 1,
                fault,
            }
        }
    }
}

/// The fault of a job that ends with the deck, after a statement that isn't RUN.
fn last_fault(cards: &[Card], statement: &Statement, end: usize) -> Option<Mark>
    requires short { length cards.now ≤ 9_999 }
    ensures { result ≡ last_fault_spec cards.now statement.now.verb end }
{
    if statement.does(Verb::Run) || end < cards.len() {
        None
    } else {
        Some(Mark {
            card: cards.len() as u16,
            fault: JobFault::NoRun,
        })
    }
}

/// The first fault of the statement that begins at a place; on the deck's last card also that no RUN follows.
#[tactic(auto, using(crate::proofs::JobLemmas::mark_within))]
fn fault_here(
    cards: &[Card],
    contents: &Contents,
    statement: &Statement,
    place: usize,
) -> Option<Mark>
    requires short { length cards.now ≤ 9_999 }
    requires within { place + statement.now.cards ≤ length cards.now }
    requires kept { IsKept contents.now }
    requires read { statement.now ≡ statement_at (place + 1) (slice_index_or cards.now place []) (drop (place + 1) cards.now) }
    ensures value { Behind contents.now (λ before. result ≡ with_last (first_fault (statement_faults before statement.now)) (last_fault_spec cards.now statement.now.verb (place + statement.now.cards))) }
    ensures within { IfSome result (λ mark. (place < mark.card) × (mark.card ≤ length cards.now)) }
{
    let mark = statement_fault(contents, statement)?;
    earlier(
        Some(mark),
        last_fault(cards, statement, place + statement.cards),
    )
}

/// The job that begins at a place.
#[tactic(auto, using(crate::proofs::JobLemmas::nothing_read))]
fn read_job(alloc: Global, cards: &[Card], start: usize) -> Result<JobCards, OclFault>
    requires within { start < length cards.now }
    requires short { length cards.now ≤ 9_999 }
    ensures value { Gives result (job_at_spec cards.now start) }
    ensures places { LiesWithin cards.now start result }
{
    let mut contents = Contents::new(alloc);
    let mut pieces = Vec::new(alloc);
    let mut place = start;
    while has_statement(cards, place) {
        let statement = read_statement(pieces, cards, place)?;
        if let Some(mark) = fault_here(cards, &contents, &statement, place) {
            return Err(OclFault::Faulty(faulty(cards, mark)));
        }
        contents.add(&statement)?;
        place += statement.cards;
        if statement.does(Verb::Run) {
            return Ok(job_with(contents, cards, place));
        }
        pieces = statement.pieces;
    }
    Err(OclFault::Faulty(faulty(cards, stop_fault(cards, place))))
}

/// The place at which the next job of a deck begins, searched from a place on, both from 0. `None` if no job follows.
pub fn job_at(deck: &Deck, from: usize) -> Option<usize>
    ensures { result ≡ job_place deck.now from }
{
    let cards = deck.cards();
    if from >= cards.len() {
        return None;
    }
    let place = Stop::Beginning.next(cards, from);
    if place < cards.len() {
        Some(place)
    } else {
        None
    }
}

/// The next job of a deck, looked for from a place on, from 0, after which one must follow. Refused with `Faulty` if the job has
/// a fault, with the first one and the place after the job (docs/OCL.md).
#[tactic(auto, using(crate::proofs::SoundLemmas::sound_result, crate::proofs::SoundLemmas::dated_result))]
pub fn split(alloc: Global, deck: &Deck, from: usize) -> Result<JobCards, OclFault>
    requires { next_job deck.now from < length deck.now }
    ensures value { Gives result (job_at_spec deck.now (next_job deck.now from)) }
    ensures places { LiesWithin deck.now (next_job deck.now from) result }
    ensures sound { IfOk result (λ job. IsTrue (list_all is_sound_file job.files)) }
    ensures dated { IfOk result (λ job. IsTrue (is_sound_date job.date)) }
{
    let cards = deck.cards();
    read_job(alloc, cards, Stop::Beginning.next(cards, from))
}

/// From each place of each list of cards there is exactly one list of jobs.
pub fn jobs_of_cards()
    ensures { OneStream }
{}
