//! The reports of a day, written while its lines are printed.
ghost use Rattle.std.specs.Prelude.{◌≡◌, ◌⊎◌, ◌++◌, ℕ, List, [], codes, not, true, IfOk};
ghost use Rattle.s3_cards.specs.Printed.{Printed};
ghost use Rattle.s3_bureau.specs.Runs.{line, output_of};
ghost use Rattle.s3_bureau.specs.Texts.{report_of};
ghost use Rattle.s3_bureau.specs.Inner.Underway.{AreTables};
ghost use Rattle.s3_bureau.specs.Inner.Unwritten.{lines_texts};
ghost use Rattle.s3_reports.specs.Inner.Reports.{HasBegun, HasPassed, IsOneWritten, IsTwoWritten, whole_output, written_at};
ghost use Rattle.s3_reports.specs.Inner.Written.{Adds, HasWritten, Moves};

use crate::place::Place;
use crate::written::Written;
use s3_bureau::{REPORT_ROOM, ReportTables, RunLines};
use s3_cards::PrintLine;
use std::alloc::{AllocError, Global};
use std::io::Write;

/// Where the reports of a day are written, and how far they are. Level 1's report comes first. Level 2's lines are written as they are
/// printed once level 1 is over without a halt; else after level 1's halts, when the day is over.
#[derive(Drop)]
pub struct Reports<W: Write + Drop> {
    output: Written<W>,
    tables: ReportTables,
    ghost made: { AreTables tables },
    place: Place,
}

impl<W: Write + Drop> Reports<W> {
    /// The reports before the first line; refused only if memory runs out.
    pub fn new(alloc: Global, writer: W) -> Result<Reports<W>, AllocError>
        ensures { IfOk result (λ reports. (one two : List Printed) (halts : List ℕ) → HasWritten (W.contents writer) (W.contents reports.output.writer) reports.output.has_failed (written_at reports.place one two halts)) }
    {
        let tables = ReportTables::new(alloc)?;
        Ok(Reports {
            output: Written::new(writer),
            tables,
            place: Place::Start,
        })
    }

    /// Writes the lines that were printed since the last call, as far as the order of the reports allows. It is given all lines that
    /// both levels have printed, and whether level 1 is over: then it prints nothing more, and its halt text is empty. So it writes all
    /// lines of level 1, and those of level 2 once level 1 is over.
    pub fn follow(&mut self, one: &[PrintLine], two: &[PrintLine], is_one_over: bool)
        ensures level_one { IsOneWritten self.new.place one.now }
        ensures level_two { is_one_over ≡ true → (two.now ≡ []) ⊎ IsTwoWritten self.new.place two.now }
        ensures moves { (later_one later_two : List Printed) (halts : List ℕ) → (is_one_over ≡ true → (later_one ≡ []) × (halts ≡ []))
            → Moves (W.contents self.old.output.writer) (W.contents self.new.output.writer) self.old.output.has_failed self.new.output.has_failed (written_at self.old.place (one.now ++ later_one) (two.now ++ later_two) halts) (written_at self.new.place (one.now ++ later_one) (two.now ++ later_two) halts) }
    {
        self.print_one(one);
        self.pass(two, is_one_over);
        self.print_two(two);
    }

    /// Writes the rest of the reports and the halts. Returns whether all of it is written.
    pub fn finish(&mut self, run: &RunLines) -> bool
        ensures wrote { Moves (W.contents self.old.output.writer) (W.contents self.new.output.writer) self.old.output.has_failed self.new.output.has_failed (written_at self.old.place run.now.one.lines.items run.now.two.lines.items run.now.one.halts.items) (output_of (lines_texts run.now)) }
        ensures all { result ≡ not self.new.output.has_failed }
    {
        self.print_one(&run.one.lines);
        self.end_one(&run.one.halts);
        self.print_two(&run.two.lines);
        self.end_two(&run.two.halts);
        !self.output.has_failed()
    }

    /// What the reports are written to.
    pub fn writer(&self) -> &W {
        self.output.writer()
    }

    /// Writes the heading of level 1's report, if nothing is written.
    fn begin(&mut self)
        ensures moves { (one two : List Printed) (halts : List ℕ) → Moves (W.contents self.old.output.writer) (W.contents self.new.output.writer) self.old.output.has_failed self.new.output.has_failed (written_at self.old.place one two halts) (written_at self.new.place one two halts) }
        ensures still { (one : List Printed) → IsOneWritten self.old.place one → IsOneWritten self.new.place one }
        ensures begun { HasBegun self.new.place }
    {
        match self.place {
            Place::Start => {
                self.output.put(b":report1\n");
                self.place = Place::One(0);
            }
            Place::One(_) => {}
            Place::Two(_) => {}
        }
    }

    /// Writes those of level 1's lines that aren't written.
    fn print_one(&mut self, lines: &[PrintLine])
        ensures moves { (later two : List Printed) (halts : List ℕ) → Moves (W.contents self.old.output.writer) (W.contents self.new.output.writer) self.old.output.has_failed self.new.output.has_failed (written_at self.old.place (lines.now ++ later) two halts) (written_at self.new.place (lines.now ++ later) two halts) }
        ensures all { IsOneWritten self.new.place lines.now }
    {
        if lines.is_empty() {
            return;
        }
        self.begin();
        self.print_more_of_one(lines);
    }

    /// Writes those of level 1's lines that aren't written, if its report is begun.
    fn print_more_of_one(&mut self, lines: &[PrintLine])
        requires { HasBegun self.old.place }
        ensures moves { (later two : List Printed) (halts : List ℕ) → Moves (W.contents self.old.output.writer) (W.contents self.new.output.writer) self.old.output.has_failed self.new.output.has_failed (written_at self.old.place (lines.now ++ later) two halts) (written_at self.new.place (lines.now ++ later) two halts) }
        ensures all { IsOneWritten self.new.place lines.now }
    {
        match self.place {
            Place::One(written) => {
                if written < lines.len() {
                    print(&mut self.output, &self.tables, lines.split_at(written).1);
                    self.place = Place::One(lines.len());
                }
            }
            Place::Start => {}
            Place::Two(_) => {}
        }
    }

    /// Ends level 1's report and begins that of level 2, if level 1 is over and level 2 has printed.
    fn pass(&mut self, two: &[PrintLine], is_one_over: bool)
        ensures still { (one : List Printed) → IsOneWritten self.old.place one → IsOneWritten self.new.place one }
        ensures passed { is_one_over ≡ true → (two.now ≡ []) ⊎ HasPassed self.new.place }
        ensures moves { (one all_two : List Printed) (halts : List ℕ) → (is_one_over ≡ true → IsOneWritten self.old.place one × (halts ≡ []))
            → Moves (W.contents self.old.output.writer) (W.contents self.new.output.writer) self.old.output.has_failed self.new.output.has_failed (written_at self.old.place one all_two halts) (written_at self.new.place one all_two halts) }
    {
        if is_one_over && !two.is_empty() {
            self.end_one(&[]);
        }
    }

    /// Ends level 1's report, if it isn't ended, writes these halts, and begins level 2's report.
    fn end_one(&mut self, halts: &[u8])
        ensures moves { (one two : List Printed) → IsOneWritten self.old.place one
            → Moves (W.contents self.old.output.writer) (W.contents self.new.output.writer) self.old.output.has_failed self.new.output.has_failed (written_at self.old.place one two halts.now) (written_at self.new.place one two halts.now) }
        ensures passed { HasPassed self.new.place }
    {
        self.begin();
        self.end_begun(halts);
    }

    /// Ends level 1's report, if it isn't ended, writes these halts, and begins level 2's report.
    fn end_begun(&mut self, halts: &[u8])
        requires { HasBegun self.old.place }
        ensures moves { (one two : List Printed) → IsOneWritten self.old.place one
            → Moves (W.contents self.old.output.writer) (W.contents self.new.output.writer) self.old.output.has_failed self.new.output.has_failed (written_at self.old.place one two halts.now) (written_at self.new.place one two halts.now) }
        ensures passed { HasPassed self.new.place }
    {
        match self.place {
            Place::One(_) => {
                put_between(&mut self.output, halts);
                self.place = Place::Two(0);
            }
            Place::Start => {}
            Place::Two(_) => {}
        }
    }

    /// Writes those of level 2's lines that aren't written, if its report is begun.
    fn print_two(&mut self, lines: &[PrintLine])
        ensures moves { (one later : List Printed) (halts : List ℕ) → Moves (W.contents self.old.output.writer) (W.contents self.new.output.writer) self.old.output.has_failed self.new.output.has_failed (written_at self.old.place one (lines.now ++ later) halts) (written_at self.new.place one (lines.now ++ later) halts) }
        ensures all { HasPassed self.old.place → IsTwoWritten self.new.place lines.now }
        ensures still { (one : List Printed) → IsOneWritten self.old.place one → IsOneWritten self.new.place one }
    {
        match self.place {
            Place::Two(written) => {
                if written < lines.len() {
                    print(&mut self.output, &self.tables, lines.split_at(written).1);
                    self.place = Place::Two(lines.len());
                }
            }
            Place::Start => {}
            Place::One(_) => {}
        }
    }

    /// Writes these halts after level 2's report.
    fn end_two(&mut self, halts: &[u8])
        ensures { (one two : List Printed) (halts1 : List ℕ) → IsTwoWritten self.old.place two
            → Moves (W.contents self.old.output.writer) (W.contents self.new.output.writer) self.old.output.has_failed self.new.output.has_failed (written_at self.old.place one two halts1) (whole_output one two halts1 halts.now) }
    {
        self.output.put(b":halts2\n");
        self.output.put(halts);
        self.output.flush();
    }
}

/// Writes the heading of level 1's halts, these halts, and the heading of level 2's report.
fn put_between<W: Write + Drop>(output: &mut Written<W>, halts: &[u8])
    ensures { Adds (W.contents output.old.writer) (W.contents output.new.writer) output.old.has_failed output.new.has_failed (line (codes ":halts1") ++ halts.now ++ line (codes ":report2")) }
{
    output.put(b":halts1\n");
    output.put(halts);
    output.put(b":report2\n");
}

/// Lays out lines of a report, and writes them.
fn print<W: Write + Drop>(output: &mut Written<W>, tables: &ReportTables, lines: &[PrintLine])
    requires { AreTables tables.now }
    ensures { Adds (W.contents output.old.writer) (W.contents output.new.writer) output.old.has_failed output.new.has_failed (report_of lines.now) }
{
    let mut room = [b' '; REPORT_ROOM];
    let mut rest = lines;
    while !rest.is_empty() {
        let (end, after) = tables.lay_lines(&mut room, rest);
        output.put(&room[..end]);
        rest = after;
    }
    output.flush();
}
