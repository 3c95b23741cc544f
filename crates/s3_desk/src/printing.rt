//! An operator whose reports are written during a day.
ghost use Rattle.std.specs.Prelude.{◌≡◌, true};
ghost use Rattle.s3_desk.specs.Inner.Printing.{MeetsPrinting};

use crate::machine::Machine;
use crate::operator::{Operator, Papers};
use s3_bureau::Halt;
use s3_cards::LevelId;
use s3_replay::Performed;
use s3_reports::Reports;
use std::alloc::AllocError;
use std::io::Write;

/// An operator, and the reports of its day, which are written as lines are printed.
#[derive(Drop)]
pub struct Printing<O: Drop, W: Write + Drop> {
    /// The operator.
    pub operator: O,
    /// The reports.
    pub reports: Reports<W>,
    /// Level 1's deck can be read: its halt text has only the halts that it shows.
    is_one_read: bool,
}

impl<O: Drop, W: Write + Drop> Printing<O, W> {
    /// An operator before its day, and its reports. `is_one_read` says that level 1's deck can be read.
    pub fn new(operator: O, reports: Reports<W>, is_one_read: bool) -> Printing<O, W>
        ensures operator { result.operator ≡ operator }
        ensures reports { result.reports ≡ reports }
        ensures is_read { result.is_one_read ≡ is_one_read }
    {
        Printing {
            operator,
            reports,
            is_one_read,
        }
    }
}

/// Whether both are so.
fn are_both(one: bool, two: bool) -> bool
    ensures yes { result ≡ true → (one ≡ true) × (two ≡ true) }
    ensures all { one ≡ true → two ≡ true → result ≡ true }
{
    one && two
}

impl<M: Machine, O: Operator<M> + Drop, W: Write + Drop> Operator<M> for Printing<O, W> {
    ghost meets = { λ old event new. MeetsPrinting (O.meets old.operator event new.operator) old.is_one_read new.is_one_read event (record { contents = W.contents old.reports.output.writer; has_failed = old.reports.output.has_failed; place = old.reports.place }) (record { contents = W.contents new.reports.output.writer; has_failed = new.reports.output.has_failed; place = new.reports.place }) };

    #[tactic(auto, using(crate::proofs::Reporting::printed_on))]
    fn follow(
        &mut self,
        machine: &M,
        level: LevelId,
        papers: Papers<'_>,
        performed: &Performed,
    ) -> Result<(), AllocError> {
        self.operator.follow(machine, level, papers, performed)?;
        let is_one_over = are_both(papers.is_one_over, self.is_one_read);
        self.reports.follow(papers.one, papers.two, is_one_over);
        Ok(())
    }

    fn show(
        &mut self,
        machine: &M,
        level: LevelId,
        halt: &Halt,
        evidence: &M::Evidence,
    ) -> Result<(), AllocError> {
        self.operator.show(machine, level, halt, evidence)
    }

    fn reply(&mut self, machine: &M, level: LevelId, halt: &Halt) -> Option<u8> {
        self.operator.reply(machine, level, halt)
    }
}
