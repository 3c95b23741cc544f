//! The indicators of a run.
ghost use Rattle.std.specs.Prelude.{◌≡◌, ◌<◌, length, true, IsTrue};
ghost use Rattle.std.specs.List.{list_all};
ghost use Rattle.s3_meaning.specs.Environment.{turn, with_last_record};
ghost use Rattle.s3_lines.specs.declared.indicator.Indicator.{Indicator as MeantIndicator};
ghost use Rattle.s3_match.specs.Inner.Reading.{ArePlacesOf, IsReading, indicators_on};
ghost use Rattle.s3_match.specs.Inner.Types.{is_type_start, kind_at, name_of_file};
ghost use Rattle.s3_operations.specs.Inner.Held.{IsSound as AreValues, Changes as ValuesChange};
ghost use Rattle.s3_operations.specs.Inner.Indicating.{cleared_of};
ghost use Rattle.s3_operations.specs.Inner.Indicators.{is_settable, is_settable_entry, on_in};
ghost use Rattle.s3_cycle.specs.Inner.Clearing.{shown_by, turned_off, without_types_of};
ghost use Rattle.s3_cycle.specs.Inner.Going.{AreSound, Changes, held_by};
ghost use Rattle.s3_cycle.specs.Inner.Entries.{turn_entry, is_entry_on};

use crate::stepper::Stepper;
use s3_lines::indicator::Indicator;
use s3_match::reading::Reading;
use s3_operations::indicators::Indicators;
use s3_operations::values::Values;
use s3_program::program::Program;
use s3_program::starts::TypeStart;

/// Record identifying indicators go off, by their places, of which there is mostly one.
fn turn_off(indicators: &mut Indicators, program: &Program, places: &[usize])
    requires { ArePlacesOf program.now.inputs.items places.now }
    ensures { (other : MeantIndicator) → on_in indicators.new other ≡ turned_off (indicators_on program.now.inputs.items) other (on_in indicators.old other) }
{
    if places.len() == 1 {
        indicators.set(places[0], false);
        return;
    }
    for place in places {
        indicators.set(*place, false);
    }
}

/// The record identifying indicators of types go off, by their places.
fn turn_types_off(
    indicators: &mut Indicators,
    program: &Program,
    reading: &Reading,
    starts: &[TypeStart],
)
    requires reading { IsReading program.now reading.now }
    requires starts { list_all (is_type_start program.now) starts.now ≡ true }
    ensures { (other : MeantIndicator) → on_in indicators.new other ≡ turned_off (shown_by program.now starts.now) other (on_in indicators.old other) }
{
    for start in starts {
        indicators.set(reading.place_of(program, *start), false);
    }
}

/// A cycle clears what the one before it has set: record identifying indicators, by their places, and L1 to L9 unless LR is
/// on, which sets them.
pub fn clear(values: &mut Values, program: &Program, places: &[usize])
    requires sound { AreValues program.now values.old }
    requires places { ArePlacesOf program.now.inputs.items places.now }
    ensures { ValuesChange program.now values.old values.new cleared_of }
{
    let is_last = values.is_on(program, Indicator::LastRecord);
    turn_off(&mut values.indicators, program, places);
    values.turn_levels(program, is_last);
}

/// The record identifying indicators of a file go off.
pub fn clear_types_of(values: &mut Values, program: &Program, reading: &Reading, file: usize)
    requires sound { AreValues program.now values.old }
    requires reading { IsReading program.now reading.now }
    requires file { file < length program.now.files.items }
    ensures { ValuesChange program.now values.old values.new (without_types_of (name_of_file program.now file)) }
{
    turn_types_off(
        &mut values.indicators,
        program,
        reading,
        &program.starts.types[file],
    );
}

/// The record identifying indicator of a type goes on, by its place.
fn show_type(values: &mut Values, program: &Program, reading: &Reading, start: TypeStart)
    requires sound { AreValues program.now values.old }
    requires reading { IsReading program.now reading.now }
    requires starts { IsTrue (is_type_start program.now start) }
    ensures { ValuesChange program.now values.old values.new (λ source. turn (kind_at program.now start).indicator true) }
{
    let place = reading.place_of(program, start);
    values.indicators.set(place, true);
}

impl Stepper {
    /// Whether an indicator is on.
    pub fn is_on(&self, indicator: Indicator) -> bool
        ensures { result ≡ (held_by self.now).on indicator }
    {
        self.state.values.is_on(&self.program, indicator)
    }

    /// Whether there is an indicator, and it is on.
    pub fn is_entry_on(&self, entry: Option<Indicator>) -> bool
        ensures { result ≡ is_entry_on (held_by self.now) entry }
    {
        match entry {
            Some(indicator) => self.is_on(indicator),
            None => false,
        }
    }

    /// An indicator goes on or off.
    pub fn turn(&mut self, indicator: Indicator, to: bool)
        requires sound { AreSound self.old.program self.old.state }
        requires settable { is_settable indicator ≡ true }
        ensures { Changes self.old self.new (λ source. turn indicator to) }
    {
        self.state.values.turn(&self.program, indicator, to);
    }

    /// The record identifying indicator of a type goes on.
    pub fn identify_type(&mut self, start: TypeStart)
        requires sound { AreSound self.old.program self.old.state }
        requires reading { IsReading self.old.program self.old.progress.reading }
        requires starts { IsTrue (is_type_start self.old.program start) }
        ensures { Changes self.old self.new (λ source. turn (kind_at self.old.program start).indicator true) }
    {
        let reading = &self.progress.reading;
        show_type(&mut self.state.values, &self.program, reading, start);
    }

    /// An indicator goes on or off, if there is one.
    pub fn turn_entry(&mut self, entry: Option<Indicator>, to: bool)
        requires sound { AreSound self.old.program self.old.state }
        requires settable { is_settable_entry entry ≡ true }
        ensures { Changes self.old self.new (λ source. turn_entry entry to) }
    {
        if let Some(indicator) = entry {
            self.turn(indicator, to);
        }
    }

    /// LR and L1 to L9 go on.
    pub fn turn_last_record_on(&mut self)
        requires { AreSound self.old.program self.old.state }
        ensures { Changes self.old self.new (λ source. with_last_record) }
    {
        self.state.values.turn_last_record_on(&self.program);
    }
}
