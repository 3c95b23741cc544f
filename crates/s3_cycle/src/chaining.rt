//! CHAIN: what it looks for, and what becomes of the record.
ghost use Rattle.std.specs.Prelude.{◌≡◌, ◌<◌, ◌+◌, true, None, Some, IsTrue, length, slice_get};
ghost use Rattle.s3_lines.specs.declared.sheet.CalculationLine.{CalculationLine};
ghost use Rattle.s3_program.specs.declared.program.Reference.{Reference};
ghost use Rattle.s3_lines.specs.declared.sheet.Operation.TheVariants as op;
ghost use Rattle.s3_meaning.specs.Requests.{Found};
ghost use Rattle.s3_meaning.specs.declared.current.Current.TheVariants.{LastChained};
ghost use Rattle.s3_meaning.specs.Environment.{put_current};
ghost use Rattle.s3_meaning.specs.Selection.{type_of as type_of_spec};
ghost use Rattle.s3_meaning.specs.Cycle.{again};
ghost use Rattle.s3_meaning.specs.Calculating.{chained_to, forgotten, not_found};
ghost use Rattle.s3_operations.specs.Inner.Fits.{IsLineOf};
ghost use Rattle.s3_operations.specs.Inner.Indicators.{is_settable_entry};
ghost use Rattle.s3_instructions.specs.Inner.Chains.{IsChained};
ghost use Rattle.s3_match.specs.Inner.Heads.{file_at};
ghost use Rattle.s3_match.specs.Inner.Reading.{IsReading};
ghost use Rattle.s3_match.specs.Inner.Types.{is_type_start, kind_at, name_of_file};
ghost use Rattle.s3_cycle.specs.Inner.Rest.{calculating, chain_answered};
ghost use Rattle.s3_cycle.specs.Inner.Going.{AreSound, IsRunning, CanCalculate, IsChainOf, IsLineAt, IsPastChain, Changes, GoesOn, own, here};
ghost use Rattle.s3_cycle.specs.Inner.Heads.{IsRecordOf};
ghost use Rattle.s3_cycle.specs.Inner.Calculating.{Misses};
ghost use Rattle.s3_cycle.specs.Inner.Chaining.{ChainsAt, DoesChain, Seeks};

use crate::indicating::clear_types_of;
use crate::progress::{Continuation, Point};
use crate::request::{FileCall, Request, Sought};
use crate::stepper::Stepper;
use crate::went::Calculated;
use s3_instructions::calculation::{Chained, Sought as SoughtBy};
use s3_lines::indicator::Indicator;
use s3_meaning::Current;
use s3_operations::chaining::{key_of, zoned_key};
use s3_operator::HaltCode;
use s3_program::starts::TypeStart;

impl Stepper {
    /// What a CHAIN seeks with the values that the run holds.
    pub fn sought(&self, chained: &Chained) -> Sought
        requires running { IsRunning self.now }
        requires chained { ChainsAt self.now chained.now }
        ensures { (line : CalculationLine Reference) → IsLineOf self.now.program line op.Chain → IsChained self.now.program line chained.now → Seeks self.now line chained.now.file result }
    {
        let values = &self.state.values;
        match chained.sought {
            SoughtBy::Text(slot) => Sought::Key(key_of(values.texts.text(slot))),
            SoughtBy::Number(slot) => Sought::Key(zoned_key(values.number(slot))),
            SoughtBy::RecordNumber(slot) => Sought::RecordNumber(values.numbers[slot]),
        }
    }

    /// CHAIN: its file has no current record, its indicators go off, and a record is asked for.
    pub fn chain(&mut self, place: usize, chained: Chained) -> Calculated
        requires running { IsRunning self.old }
        requires calculates { CanCalculate self.old.program self.old.progress }
        requires chain { IsLineAt self.old.program place op.Chain }
        requires next { self.old.progress.course.here.place ≡ place + 1 }
        requires chained { (line : CalculationLine Reference) → slice_get self.old.program.calculations.items place ≡ Some line → IsChained self.old.program line chained }
        ensures { DoesChain self.old self.new place result }
    {
        let sought = self.sought(&chained);
        let is_served = chained.served.holds(&self.state.values.indicators);
        let Chained { file, missing, .. } = chained;
        self.forget(file);
        if !is_served {
            return self.miss(missing);
        }
        let call = FileCall::Chain {
            length: chained.length,
            sought,
        };
        self.wait(
            Request::File { file, call },
            Point::Chained { file, missing },
        );
        Calculated::Waits
    }

    /// A file has no current record, and its record identifying indicators go off.
    fn forget(&mut self, file: usize)
        requires sound { AreSound self.old.program self.old.state }
        requires reading { IsReading self.old.program self.old.progress.reading }
        requires within { file < length self.old.program.files.items }
        ensures { Changes self.old self.new (λ source. forgotten source (name_of_file self.old.program file)) }
    {
        self.state.current[file] = None;
        let reading = &self.progress.reading;
        clear_types_of(&mut self.state.values, &self.program, reading, file);
    }

    /// No record is found: the CHAIN's indicator for that goes on, or the run halts where it has none.
    fn miss(&mut self, missing: Option<Indicator>) -> Calculated
        requires running { IsRunning self.old }
        requires calculates { CanCalculate self.old.program self.old.progress }
        requires past { IsPastChain self.old.program self.old.progress }
        requires settable { is_settable_entry missing ≡ true }
        ensures { Misses self.old self.new missing result }
    {
        match missing {
            Some(indicator) => {
                self.turn(indicator, true);
                Calculated::GoesOn
            }
            None => {
                self.halt(HaltCode::NoRecordFound, Continuation::Calculations);
                Calculated::Waits
            }
        }
    }

    /// Continues if no record is found.
    #[inline(never)]
    pub fn chain_missed(&mut self, missing: Option<Indicator>)
        requires running { IsRunning self.old }
        requires calculates { CanCalculate self.old.program self.old.progress }
        requires past { IsPastChain self.old.program self.old.progress }
        requires settable { is_settable_entry missing ≡ true }
        ensures { GoesOn self.old self.new (here self.old (λ source program progress. not_found (again source) missing (calculating source program progress))) }
    {
        match self.miss(missing) {
            Calculated::GoesOn => self.calculate_on(),
            Calculated::Waits => {}
        }
    }

    /// Goes on with the record that is found: it is typed, and its fields are moved.
    #[inline(never)]
    pub fn chain_found(&mut self, file: usize, missing: Option<Indicator>, bytes: &[u8])
        requires running { IsRunning self.old }
        requires calculates { CanCalculate self.old.program self.old.progress }
        requires past { IsPastChain self.old.program self.old.progress }
        requires chain { IsChainOf self.old.program file missing }
        requires record { IsRecordOf (file_at self.old.program file) bytes.now }
        ensures { GoesOn self.old self.new (here self.old (λ source program progress. chain_answered source program progress file missing (Found bytes.now))) }
    {
        self.turn_entry(missing, false);
        match self.progress.reading.type_in(&self.program, file, bytes) {
            Some(start) => self.take_chained(file, start, bytes),
            None => self.halt(HaltCode::UnidentifiedRecord, Continuation::Calculations),
        }
    }

    /// The record that is found is the current one of its file, and its fields are moved.
    fn take_chained(&mut self, file: usize, start: TypeStart, bytes: &[u8])
        requires running { IsRunning self.old }
        requires calculates { CanCalculate self.old.program self.old.progress }
        requires within { file < length self.old.program.files.items }
        requires starts { IsTrue (is_type_start self.old.program start) }
        requires record { IsRecordOf (file_at self.old.program file) bytes.now }
        requires typed { type_of_spec (own self.old) (name_of_file self.old.program file) bytes.now ≡ Some (kind_at self.old.program start) }
        ensures { GoesOn self.old self.new (here self.old (λ source program progress. chained_to (again source) (name_of_file program file) bytes.now (Some (kind_at program start)) (calculating source program progress))) }
    {
        self.identify_type(start);
        self.make_chained_current(file);
        self.progress.record.put(bytes);
        self.move_chained(start.fields);
    }

    /// The record that is found is the current one of its file.
    fn make_chained_current(&mut self, file: usize)
        requires running { IsRunning self.old }
        requires within { file < length self.old.program.files.items }
        ensures { Changes self.old self.new (λ source. put_current (name_of_file self.old.program file) (Some LastChained)) }
    {
        self.state.current[file] = Some(Current::LastChained);
    }
}
