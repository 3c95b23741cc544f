//! Steps 6 to 10: totals, the lines at overflow, and MR.
ghost use Rattle.std.specs.Prelude.{◌≡◌, Some};
ghost use Rattle.s3_meaning.specs.Cycle.{again, last_time, totals as totals_spec, overflow_lines};
ghost use Rattle.s3_program.specs.declared.starts.Walk.TheVariants as walk;
ghost use Rattle.s3_cycle.specs.declared.progress.Time.TheVariants as time;
ghost use Rattle.s3_cycle.specs.Inner.Rest.{calculating, lines_from, record_moved, selected_of, totals_done, totals_end};
ghost use Rattle.s3_meaning.specs.declared.current.Current.TheVariants.{NthRead};
ghost use Rattle.s3_meaning.specs.Environment.{put_current};
ghost use Rattle.s3_cycle.specs.Inner.Calculating.{IsAtTotals};
ghost use Rattle.s3_cycle.specs.Inner.Going.{CanCalculate, Changes, GoesOn, IsOverflowTime, IsRunning, IsTaken, here};

use crate::progress::{Selection, Time};
use crate::stepper::Stepper;
use crate::went::Went;
use s3_lines::indicator::Indicator;
use s3_meaning::Current;
use s3_program::starts::Walk;
use s3_sections::spot::Spot;

impl Stepper {
    /// The totals of the last record, with which the job ends.
    pub fn total_last(&mut self)
        requires { IsRunning self.old }
        ensures { GoesOn self.old self.new (here self.old (λ source program progress. last_time source (again source))) }
    {
        self.progress.time = Time::Last;
        self.progress.course.restart(Spot::totals(&self.program));
        self.calculate_last();
    }

    /// Total calculations of the last record from their first one on, and the T lines.
    pub fn calculate_last(&mut self)
        requires running { IsRunning self.old }
        requires calculates { CanCalculate self.old.program self.old.progress }
        requires totals { IsAtTotals self.old.program self.old.progress.course }
        requires time { self.old.progress.time ≡ time.Last }
        ensures { GoesOn self.old self.new (here self.old calculating) }
    {
        match self.calculate_where_due() {
            Went::ToRequest => {}
            Went::ToEnd => self.put_last_totals(0),
        }
    }

    /// T lines of the last record from one on, and the end.
    pub fn put_last_totals(&mut self, next: usize)
        requires running { IsRunning self.old }
        requires time { self.old.progress.time ≡ time.Last }
        ensures { GoesOn self.old self.new (here self.old (λ source program progress. lines_from source program progress walk.Totals next)) }
    {
        match self.put_lines(Walk::Totals, next) {
            Went::ToRequest => {}
            Went::ToEnd => self.end(false),
        }
    }

    /// The totals before the selected record, and the steps after them.
    pub fn total(&mut self, selection: Selection)
        requires running { IsRunning self.old }
        requires taken { IsTaken self.old.program self.old.progress selection }
        ensures { GoesOn self.old self.new (here self.old (λ source program progress. totals_spec source (again source) (totals_done source program progress selection))) }
    {
        self.progress.time = Time::Totals(selection);
        self.progress.course.restart(Spot::totals(&self.program));
        self.calculate_totals();
    }

    /// Total calculations before the selected record from their first one on, and the T lines.
    pub fn calculate_totals(&mut self)
        requires running { IsRunning self.old }
        requires calculates { CanCalculate self.old.program self.old.progress }
        requires totals { IsAtTotals self.old.program self.old.progress.course }
        requires time { IsOverflowTime self.old.program self.old.progress self.old.progress.time }
        ensures { GoesOn self.old self.new (here self.old calculating) }
    {
        match self.calculate_where_due() {
            Went::ToRequest => {}
            Went::ToEnd => self.put_totals(0),
        }
    }

    /// T lines before the selected record from one on, and the steps after them.
    #[inline(never)]
    pub fn put_totals(&mut self, next: usize)
        requires running { IsRunning self.old }
        requires time { IsOverflowTime self.old.program self.old.progress self.old.progress.time }
        ensures { GoesOn self.old self.new (here self.old (λ source program progress. lines_from source program progress walk.Totals next)) }
    {
        match self.put_lines(Walk::Totals, next) {
            Went::ToRequest => {}
            Went::ToEnd => self.leave_totals(),
        }
    }

    /// Step 8: the job ends where LR is on.
    fn leave_totals(&mut self)
        requires running { IsRunning self.old }
        requires time { IsOverflowTime self.old.program self.old.progress self.old.progress.time }
        ensures { GoesOn self.old self.new (here self.old (λ source program progress. totals_end source program progress progress.time)) }
    {
        if self.is_on(Indicator::LastRecord) {
            self.end(false);
        } else {
            match self.progress.time {
                Time::Totals(selection) => self.begin_overflow(selection),
                Time::Details(_) | Time::Last => unreachable!(),
            }
        }
    }

    /// Step 9 when the overflow indicator is on, and the steps after it.
    #[inline(always)]
    pub fn begin_overflow(&mut self, selection: Selection)
        requires running { IsRunning self.old }
        requires taken { IsTaken self.old.program self.old.progress selection }
        ensures { GoesOn self.old self.new (here self.old (λ source program progress. overflow_lines source (again source) (record_moved source program progress selection))) }
    {
        if self.is_entry_on(self.overflow) {
            self.progress.time = Time::Totals(selection);
            self.put_time_overflow(0);
        } else {
            self.move_record(selection);
        }
    }

    /// The lines at overflow from one on; then the overflow indicator is turned off, and the steps after them follow.
    pub fn put_overflow(&mut self, selection: Selection, next: usize)
        requires running { IsRunning self.old }
        requires taken { IsTaken self.old.program self.old.progress selection }
        requires time { self.old.progress.time ≡ time.Totals selection }
        ensures { GoesOn self.old self.new (here self.old (λ source program progress. lines_from source program progress walk.Overflow next)) }
    {
        match self.put_lines(Walk::Overflow, next) {
            Went::ToRequest => {}
            Went::ToEnd => {
                self.turn_entry(self.overflow, false);
                self.move_record(selection);
            }
        }
    }

    /// Step 10: MR is set, and the record is the current one of its file. The time of its detail calculations begins, and its
    /// fields are moved next.
    #[inline(always)]
    fn move_record(&mut self, selection: Selection)
        requires running { IsRunning self.old }
        requires taken { IsTaken self.old.program self.old.progress selection }
        ensures { GoesOn self.old self.new (here self.old (λ source program progress. record_moved source program progress selection)) }
    {
        self.progress.time = Time::Details(selection);
        self.turn(Indicator::Matching, selection.is_matched);
        self.make_current(selection);
        self.move_processed(selection.start.fields);
    }

    /// The selected record is the current one of its file.
    fn make_current(&mut self, selection: Selection)
        requires running { IsRunning self.old }
        requires taken { IsTaken self.old.program self.old.progress selection }
        ensures { Changes self.old self.new (λ source. put_current (selected_of self.old.program self.old.progress selection).file.name (Some (NthRead selection.number))) }
    {
        let file = self.progress.reading.files[selection.place].file;
        self.state.current[file] = Some(Current::NthRead(selection.number));
    }
}
