//! Steps 3 to 5, when all files were read: the record that is processed next, and what it breaks.
ghost use Rattle.std.specs.Prelude.{◌≡◌, Some};
ghost use Rattle.s3_meaning.specs.Cycle.{again, last_time, record_time};
ghost use Rattle.s3_meaning.specs.Environment.{with_last_record};
ghost use Rattle.s3_meaning.specs.Selection.{Selected, is_matched as is_matched_spec, taken};
ghost use Rattle.s3_match.specs.Inner.Choice.{IsHeadAt};
ghost use Rattle.s3_match.specs.Inner.Reading.{IsReading, reading_in};
ghost use Rattle.s3_match.specs.Inner.Selecting.{selected_at};
ghost use Rattle.s3_cycle.specs.Inner.Rest.{heads_read, inputs_in, selected_of};
ghost use Rattle.s3_cycle.specs.Inner.Going.{AreSound, IsRunning, IsTaken, Changes, GoesOn, here};
ghost use Rattle.s3_cycle.specs.Inner.Selecting.{Takes, identified};

use crate::progress::Selection;
use crate::stepper::Stepper;
use s3_match::choice::select;
use s3_match::selection::is_matched;

impl Stepper {
    /// A record is selected, or LR and L1 to L9 go on.
    pub fn select(&mut self)
        requires { IsRunning self.old }
        ensures { GoesOn self.old self.new (here self.old (λ source program progress. heads_read source program progress (inputs_in program progress))) }
    {
        let reading = &self.progress.reading;
        match select(&self.program, &reading.files, &reading.primary_key) {
            Some(place) => self.process(place),
            None => self.set_last(),
        }
    }

    /// LR and L1 to L9 go on, and the totals of the last record follow.
    pub fn set_last(&mut self)
        requires { IsRunning self.old }
        ensures { GoesOn self.old self.new (here self.old (λ source program progress e. last_time source (again source) (with_last_record e))) }
    {
        self.turn_last_record_on();
        self.total_last();
    }

    /// Takes the head of a file.
    #[inline(always)]
    fn take(&mut self, place: usize) -> Selection
        requires running { IsRunning self.old }
        requires head { IsHeadAt self.old.progress.reading.files.items place }
        ensures { Takes self.old self.new place result }
    {
        let reading = &self.progress.reading;
        let selection = Selection {
            place,
            start: reading.head(place),
            number: reading.files[place].reads,
            is_matched: is_matched(&self.program, &reading.files, &reading.primary_key, place),
        };
        self.progress.reading.take(&self.program, place);
        selection
    }

    /// Steps 4 and 5 with the head of a file, and the steps after them.
    #[inline(always)]
    pub fn process(&mut self, place: usize)
        requires running { IsRunning self.old }
        requires head { IsHeadAt self.old.progress.reading.files.items place }
        ensures { (selected : Selected) → selected_at self.old.program self.old.progress.reading.files.items place ≡ Some selected
            → GoesOn self.old self.new (here self.old (λ source program progress. record_time source (again source) (is_matched_spec (reading_in program progress.reading) selected) selected
            ((again source).cycle (taken (reading_in program progress.reading) selected)))) }
    {
        let selection = self.take(place);
        self.identify(selection);
        if self.state.is_totals_due {
            self.total(selection);
        } else {
            self.begin_overflow(selection);
        }
    }

    /// Step 4, the identifying indicator, and step 5, the control break.
    fn identify(&mut self, selection: Selection)
        requires sound { AreSound self.old.program self.old.state }
        requires reading { IsReading self.old.program self.old.progress.reading }
        requires taken { IsTaken self.old.program self.old.progress selection }
        ensures { Changes self.old self.new (λ source. identified (selected_of self.old.program self.old.progress selection)) }
    {
        self.identify_type(selection.start);
        let files = &self.progress.reading.files;
        let bytes = files[selection.place].bytes.as_slice();
        let controls = &mut self.state.controls;
        let levels = &self.progress.reading.control_levels;
        let level = controls.break_and_hold(selection.start, levels, bytes);
        self.state.values.raise_levels(&self.program, level);
    }
}
