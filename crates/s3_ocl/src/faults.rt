//! What is wrong with the statements of a job, and on which card.
ghost use Rattle.std.specs.Prelude.{◌≡◌, ◌≤◌, Some, length};
ghost use Rattle.std.specs.List.{after_first, flat_map, position_or_len};
ghost use Rattle.s3_ocl.specs.Contents.{gives as gives_spec, named as named_spec, stands_at as stands_at_spec};
ghost use Rattle.s3_ocl.specs.Faults.{fault_number, is_before as is_before_spec, earlier as earlier_spec, first_fault, fault_if as fault_if_spec, is_taken as is_taken_spec, piece_faults, again_faults, file_parameters, lacks_needed as lacks_needed_spec, is_ill_formed as is_ill_formed_spec, is_again as is_again_spec, lacks_load as lacks_load_spec, verb_faults, has_two_sizes as has_two_sizes_spec, statement_faults};
ghost use Rattle.s3_ocl.specs.Inner.Steps.{Behind, gives_twice as gives_twice_spec, is_given_in as is_given_in_spec};

use super::contents::{Contents, first_giving, gives, is_given, named, stands_at};
use super::file_list::FileList;
use super::parameters::{Entry, Parameter, Verb};
use super::statements::{Piece, Statement};
use super::values::Value;
use thiserror::Error;

/// What is wrong with a job.
#[derive(Clone, Copy, Debug, Error)]
pub enum JobFault {
    /// A card in the place of a statement that doesn't begin with `//` and a blank.
    #[error("no statement")]
    NotOcl,
    /// An unknown statement or parameter.
    #[error("an unknown statement or parameter")]
    Keyword,
    /// A wrong, missing or surplus value; RECORDS with TRACKS.
    #[error("a wrong, missing or surplus value")]
    Value,
    /// `/&`, `/*` or the deck's end before RUN, or RUN without LOAD before it.
    #[error("no RUN, or no LOAD before it")]
    NoRun,
    /// A statement other than FILE, a parameter or the name of a file given twice.
    #[error("given twice")]
    Twice,
}

impl JobFault {
    /// The number of the fault, 1 to 5.
    pub fn number(self) -> u8
        ensures { result ≡ fault_number self }
    {
        match self {
            JobFault::NotOcl => 1,
            JobFault::Keyword => 2,
            JobFault::Value => 3,
            JobFault::NoRun => 4,
            JobFault::Twice => 5,
        }
    }
}

/// A fault on a card.
#[derive(Clone, Copy)]
pub struct Mark {
    /// The number of the card, from 1 to 9,999.
    pub card: u16,
    /// What is wrong there.
    pub fault: JobFault,
}

/// Whether a fault comes before another, by card and then by number.
fn is_before(a: Mark, b: Mark) -> bool
    ensures { result ≡ is_before_spec a b }
{
    if a.card == b.card {
        a.fault.number() < b.fault.number()
    } else {
        a.card < b.card
    }
}

/// The first of two faults, by card and then by number.
pub fn earlier(a: Option<Mark>, b: Option<Mark>) -> Option<Mark>
    ensures { result ≡ earlier_spec a b }
{
    match (a, b) {
        (None, b) => b,
        (Some(a), None) => Some(a),
        (Some(a), Some(b)) => if is_before(b, a) { Some(b) } else { Some(a) },
    }
}

/// A fault on a card, if the test holds.
#[tactic(auto, unfolding(crate::specs::Faults::first_fault))]
fn fault_if(test: bool, card: u16, fault: JobFault) -> Option<Mark>
    ensures { result ≡ first_fault (fault_if_spec test card fault) }
{
    if test {
        Some(Mark { card, fault })
    } else {
        None
    }
}

/// Whether a file has the name that a value is.
fn is_taken(files: &FileList, value: Value) -> bool
    ensures { result ≡ is_taken_spec files.now (named_spec value) }
{
    match named(value) {
        None => false,
        Some(name) => files.has(name),
    }
}

/// What is wrong with a parameter of the statement that begins on card `number`, after these files.
#[tactic(auto, unfolding(crate::specs::Faults::first_fault))]
fn piece_fault(files: &FileList, number: u16, piece: &Piece) -> Option<Mark>
    ensures { result ≡ first_fault (piece_faults files.now number piece.now) }
{
    match piece.entry {
        Entry::Empty => fault_if(true, number, JobFault::Value),
        Entry::Unknown => fault_if(true, piece.card, JobFault::Keyword),
        Entry::Surplus => fault_if(true, piece.card, JobFault::Value),
        Entry::Missing(_) => fault_if(true, number, JobFault::Value),
        Entry::Wrong(_) => fault_if(true, piece.card, JobFault::Value),
        Entry::Right(given, value) => fault_if(
            given == Parameter::FileName && is_taken(files, value),
            piece.card,
            JobFault::Twice,
        ),
    }
}

/// The first fault of the parameters one by one.
#[tactic(auto, using(crate::proofs::FaultLemmas::no_fault_yet, crate::proofs::FaultLemmas::fault_more))]
fn pieces_fault(files: &FileList, number: u16, pieces: &[Piece]) -> Option<Mark>
    ensures { result ≡ first_fault (flat_map (piece_faults files.now number) pieces.now) }
{
    let mut fault = None;
    for piece in pieces {
        fault = earlier(fault, piece_fault(files, number, piece));
    }
    fault
}

fn pieces_before(parameter: Parameter, pieces: &[Piece]) -> usize
    ensures value { result ≡ position_or_len (gives_spec parameter) pieces.now }
    ensures within { result ≤ length pieces.now }
{
    pieces
        .iter()
        .take_while(|piece| !gives(parameter, piece))
        .count()
}

/// The pieces after the first one that gives a parameter.
fn behind_first(parameter: Parameter, pieces: &[Piece]) -> &[Piece]
    ensures { result.now ≡ after_first (gives_spec parameter) pieces.now }
{
    let place = pieces_before(parameter, pieces);
    if place == pieces.len() {
        &[]
    } else {
        &pieces[place + 1..]
    }
}

/// The fault of a parameter that is given twice.
#[tactic(auto, unfolding(crate::specs::Faults::first_fault))]
fn again_fault(pieces: &[Piece], parameter: Parameter) -> Option<Mark>
    ensures { result ≡ first_fault (again_faults pieces.now parameter) }
{
    match first_giving(parameter, behind_first(parameter, pieces)) {
        None => None,
        Some(piece) => fault_if(true, piece.card, JobFault::Twice),
    }
}

/// The parameters of a FILE statement.
const FILE_PARAMETERS: [Parameter; 7] = [
    Parameter::FileName,
    Parameter::Unit,
    Parameter::Pack,
    Parameter::Label,
    Parameter::Records,
    Parameter::Tracks,
    Parameter::Retain,
];

/// Whether one of these pieces gives the parameter of another piece, if that has one.
fn is_given_in(pieces: &[Piece], piece: &Piece) -> bool
    ensures { result ≡ is_given_in_spec pieces.now (stands_at_spec piece.now.entry) }
{
    match stands_at(piece.entry) {
        None => false,
        Some(parameter) => is_given(parameter, pieces),
    }
}

/// Whether a parameter is given twice. Most statements have one or two.
fn gives_twice(pieces: &[Piece]) -> bool
    ensures { result ≡ gives_twice_spec pieces.now }
{
    let mut rest = pieces;
    while let Some((piece, after)) = rest.split_first() {
        if is_given_in(after, piece) {
            return true;
        }
        rest = after;
    }
    false
}

/// The first fault of the parameters that are given twice.
#[tactic(auto, using(crate::proofs::FaultLemmas::none_twice, crate::proofs::FaultLemmas::no_fault_yet, crate::proofs::FaultLemmas::fault_more))]
fn repeated_fault(pieces: &[Piece]) -> Option<Mark>
    ensures { result ≡ first_fault (flat_map (again_faults pieces.now) file_parameters) }
{
    if !gives_twice(pieces) {
        return None;
    }
    let mut fault = None;
    for parameter in FILE_PARAMETERS {
        fault = earlier(fault, again_fault(pieces, parameter));
    }
    fault
}

/// Whether a statement lacks a parameter that it needs.
fn lacks_needed(verb: Verb, pieces: &[Piece]) -> bool
    ensures { result ≡ lacks_needed_spec verb pieces.now }
{
    match verb {
        Verb::Load => !is_given(Parameter::Program, pieces) || !is_given(Parameter::Unit, pieces),
        Verb::File => !is_given(Parameter::FileName, pieces),
        Verb::Date => !is_given(Parameter::Date, pieces),
        Verb::Switch => !is_given(Parameter::Switches, pieces),
        Verb::Run => false,
    }
}

fn has_two_sizes(pieces: &[Piece]) -> bool
    ensures { result ≡ has_two_sizes_spec pieces.now }
{
    is_given(Parameter::Records, pieces) && is_given(Parameter::Tracks, pieces)
}

/// Whether a statement lacks a value, ends with a comma with nothing after it, or has RECORDS with TRACKS.
fn is_ill_formed(verb: Verb, statement: &Statement) -> bool
    ensures { result ≡ is_ill_formed_spec verb statement.now }
{
    statement.is_open || lacks_needed(verb, &statement.pieces) || has_two_sizes(&statement.pieces)
}

/// Whether there was such a statement already; FILE may be repeated.
fn is_again(verb: Verb, contents: &Contents) -> bool
    ensures { Behind contents.now (λ before. result ≡ is_again_spec verb before) }
{
    match verb {
        Verb::Load => contents.is_loaded,
        Verb::File => false,
        Verb::Date => contents.is_dated,
        Verb::Switch => contents.is_switched,
        Verb::Run => false,
    }
}

/// Whether this is RUN without LOAD before it.
fn lacks_load(verb: Verb, contents: &Contents) -> bool
    ensures { Behind contents.now (λ before. result ≡ lacks_load_spec verb before) }
{
    match verb {
        Verb::Run => !contents.is_loaded,
        Verb::Load | Verb::File | Verb::Date | Verb::Switch => false,
    }
}

/// The first fault of a known statement after what the ones before it said.
#[tactic(auto, using(crate::proofs::FaultLemmas::all_faults))]
fn verb_fault(contents: &Contents, statement: &Statement, verb: Verb) -> Option<Mark>
    ensures { Behind contents.now (λ before. result ≡ first_fault (verb_faults before statement.now (Some verb))) }
{
    let number = statement.number;
    let values = earlier(
        pieces_fault(&contents.files, number, &statement.pieces),
        repeated_fault(&statement.pieces),
    );
    let form = fault_if(is_ill_formed(verb, statement), number, JobFault::Value);
    let load = fault_if(lacks_load(verb, contents), number, JobFault::NoRun);
    let again = fault_if(is_again(verb, contents), number, JobFault::Twice);
    earlier(earlier(earlier(values, form), load), again)
}

/// The first fault of a statement after what the ones before it said.
#[tactic(auto, unfolding(crate::specs::Faults::statement_faults))]
pub fn statement_fault(contents: &Contents, statement: &Statement) -> Option<Mark>
    ensures { Behind contents.now (λ before. result ≡ first_fault (statement_faults before statement.now)) }
{
    match statement.verb {
        None => fault_if(true, statement.number, JobFault::Keyword),
        Some(verb) => verb_fault(contents, statement, verb),
    }
}

/// A job with a fault: its first one, by card and then by number.
#[derive(Clone, Copy)]
pub struct FaultyJob {
    /// What is wrong there.
    pub fault: JobFault,
    /// The number of the card in error, from 1 to 9,999.
    pub card: u16,
    /// The place after the job in the deck, from 0.
    pub after: usize,
}
