//! The place of a halted run in its source, and what it holds there.
ghost use Rattle.std.specs.Prelude.{◌≡◌, option_map};
ghost use Rattle.std.specs.Option.{option_and_then, option_copied};
ghost use Rattle.s3_cycle.specs.Inner.Requests.{sought_of};
ghost use Rattle.s3_cycle.specs.Inner.Going.{IsRunning};
ghost use Rattle.s3_cycle.specs.Inner.Rest.{moved_bytes, starts_of};
ghost use Rattle.s3_cycle.specs.declared.progress.Moves.TheVariants as moves;
ghost use Rattle.s3_cycle.specs.Inner.Standing.{FindsChain, chain_at, chained_in, chain_of, field_at, file_of, head_at, output_before, record_at, record_behind, sought_by, stand_before, stand_of, totals_before, totals_of};

use crate::progress::{Continuation, Moves, Point, Selection, Time};
use crate::request::Sought;
use crate::stepper::Stepper;
use s3_instructions::calculation::{Asked, Chained};
use s3_program::starts::Walk;

/// The place of a halted run in its source: a line by its place among the lines of its sheet, from 0, a file by its slot, in the
/// order of the F sheet.
#[derive(Clone, Copy)]
pub enum Stand {
    /// At no line: a halt indicator is on, or the run doesn't halt.
    Nowhere,
    /// Before the record that was read last of a file.
    Head {
        /// The slot of the file.
        file: usize,
        /// Its number among the records that were read, from 1.
        number: u32,
    },
    /// At a field of the record that is processed.
    Field {
        /// The place of the field on the I sheet.
        place: usize,
        /// The slot of the file of the record.
        file: usize,
        /// Its number among the records of that file that were read, from 1.
        number: u32,
    },
    /// At a field of the record that CHAIN found.
    ChainedField {
        /// The place of the field on the I sheet.
        place: usize,
    },
    /// At a calculation.
    Calculation {
        /// The place of its line on the C sheet.
        place: usize,
    },
    /// At an output line.
    Output {
        /// The slot of its file.
        file: usize,
        /// The place of its first card on the O sheet.
        place: usize,
    },
}

/// The totals to which the calculations and total lines belong that a run is at.
#[derive(Clone, Copy)]
pub enum Totals {
    /// They belong to no totals.
    Elsewhere,
    /// To the totals before a record, which it has brought on unless totals are due at each record.
    Before {
        /// The slot of its file.
        file: usize,
        /// Its number among the records of that file that were read, from 1.
        number: u32,
    },
    /// To the totals of the last record, which LR has brought on. So it is before the first record, too.
    Last,
}

/// The CHAIN that is asked for, if one is.
fn chained(asked: &Asked) -> Option<&Chained>
    ensures { option_copied result ≡ chained_in asked.now }
{
    match asked {
        Asked::Chain(chained) => Some(chained),
        _ => None,
    }
}

impl Stepper {
    /// The output line before the next one of the lines that are written together.
    fn output_before(&self, walk: Walk, next: usize) -> Stand
        ensures { result ≡ output_before self.now.program walk next }
    {
        match self.starts(walk).get(next.saturating_sub(1)) {
            Some(start) => Stand::Output {
                file: start.file,
                place: start.place,
            },
            None => Stand::Nowhere,
        }
    }

    /// The record that was read last of the file at a place among those that are read.
    fn head_at(&self, place: usize) -> Stand
        ensures { result ≡ head_at self.now.progress place }
    {
        match self.progress.reading.files.get(place) {
            Some(input) => Stand::Head {
                file: input.file,
                number: input.reads,
            },
            None => Stand::Nowhere,
        }
    }

    /// A field of the record that is processed.
    fn field_at(&self, place: usize) -> Stand
        ensures { result ≡ field_at self.now.progress place }
    {
        let Time::Details(selection) = self.progress.time else {
            return Stand::Nowhere;
        };
        let number = selection.number;
        match self.progress.reading.files.get(selection.place) {
            Some(input) => Stand::Field {
                place,
                file: input.file,
                number,
            },
            None => Stand::Nowhere,
        }
    }

    /// The place of a run that waits for a reply, by what it would do after reply 0.
    fn stand_before(&self, then: Continuation) -> Stand
        ensures { result ≡ stand_before self.now.program self.now.progress then }
    {
        match then {
            Continuation::Halts { .. } => Stand::Nowhere,
            Continuation::Lines { walk, next } => self.output_before(walk, next),
            Continuation::Head { place } => self.head_at(place),
            Continuation::Field {
                moves: Moves::Selected,
                place,
            } => self.field_at(place),
            Continuation::Field {
                moves: Moves::Chained,
                place,
            } => Stand::ChainedField { place },
            Continuation::Division { place } => Stand::Calculation { place },
            Continuation::Calculations => Stand::Calculation {
                place: self.progress.course.here.place.saturating_sub(1),
            },
        }
    }

    /// The place of a halted run.
    pub fn stand(&self) -> Stand
        ensures { result ≡ stand_of self.now }
    {
        match self.point {
            Point::Reply(then) => self.stand_before(then),
            _ => Stand::Nowhere,
        }
    }

    /// The bytes of the record that is processed; none at other times.
    fn processed(&self) -> &[u8]
        ensures { result.now ≡ moved_bytes self.now.progress moves.Selected }
    {
        let Time::Details(selection) = self.progress.time else {
            return &[];
        };
        match self.progress.reading.files.get(selection.place) {
            Some(input) => input.bytes.as_slice(),
            None => &[],
        }
    }

    /// The bytes of the record whose field a run is at, or that it writes; none if it is at neither.
    pub fn record_there(&self) -> &[u8]
        ensures { result.now ≡ record_at self.now (stand_of self.now) }
    {
        match self.stand() {
            Stand::Field { .. } => self.processed(),
            Stand::ChainedField { .. } => self.progress.record.as_record().as_slice(),
            Stand::Output { .. } => self.composition.codes(),
            Stand::Nowhere | Stand::Head { .. } | Stand::Calculation { .. } => &[],
        }
    }

    /// The totals before a record that is selected.
    fn totals_before(&self, selection: Selection) -> Totals
        ensures { result ≡ totals_before self.now.progress selection }
    {
        match self.progress.reading.files.get(selection.place) {
            Some(input) => Totals::Before {
                file: input.file,
                number: selection.number,
            },
            None => Totals::Elsewhere,
        }
    }

    /// The totals that a run is at, if its calculations or total lines are carried out.
    pub fn totals(&self) -> Totals
        ensures { result ≡ totals_of self.now.progress self.now.progress.time }
    {
        match self.progress.time {
            Time::Details(_) => Totals::Elsewhere,
            Time::Totals(selection) => self.totals_before(selection),
            Time::Last => Totals::Last,
        }
    }

    /// The bytes of the record before whose processing the totals come that a run is at; none at other times.
    pub fn record_behind_totals(&self) -> &[u8]
        ensures { result.now ≡ record_behind self.now.progress self.now.progress.time }
    {
        let Time::Totals(selection) = self.progress.time else {
            return &[];
        };
        match self.progress.reading.files.get(selection.place) {
            Some(input) => input.bytes.as_slice(),
            None => &[],
        }
    }

    /// The CHAIN at a place of the C sheet, if one is there.
    fn chain_at(&self, place: usize) -> Option<&Chained>
        requires { IsRunning self.now }
        ensures { FindsChain self.now.program place (option_copied result) }
    {
        match self.calculations.get(place) {
            Some(card) => chained(&card.asked),
            None => None,
        }
    }

    /// What the CHAIN at a place seeks, if one is there.
    fn sought_at(&self, place: usize) -> Option<Sought>
        requires { IsRunning self.now }
        ensures { option_map sought_of result ≡ option_and_then (sought_by self.now) (chain_at self.now.program place) }
    {
        match self.chain_at(place) {
            Some(chained) => Some(self.sought(chained)),
            None => None,
        }
    }

    /// The key or number that the CHAIN at a run's place seeks; none if the run isn't at a CHAIN.
    pub fn sought_there(&self) -> Option<Sought>
        requires { IsRunning self.now }
        ensures { option_map sought_of result ≡ option_and_then (sought_by self.now) (chain_of self.now.program (stand_of self.now)) }
    {
        match self.stand() {
            Stand::Calculation { place } => self.sought_at(place),
            _ => None,
        }
    }

    /// The slot of the file that a CHAIN at a place names, if one is there.
    fn file_chained(&self, place: usize) -> Option<usize>
        requires { IsRunning self.now }
        ensures { result ≡ file_of self.now.program (Stand.Calculation place) }
    {
        match self.chain_at(place) {
            Some(chained) => Some(chained.file),
            None => None,
        }
    }

    /// The slot of the file at which a run is: the file of a record, of a CHAIN or of an output line.
    pub fn file_there(&self) -> Option<usize>
        requires { IsRunning self.now }
        ensures { result ≡ file_of self.now.program (stand_of self.now) }
    {
        match self.stand() {
            Stand::Head { file, .. } => Some(file),
            Stand::Field { file, .. } => Some(file),
            Stand::Output { file, .. } => Some(file),
            Stand::Calculation { place } => self.file_chained(place),
            Stand::Nowhere | Stand::ChainedField { .. } => None,
        }
    }
}
