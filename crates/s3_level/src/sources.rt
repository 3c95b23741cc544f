//! Sources, compiled into the library.

use crate::details::details_of;
use crate::level::Level;
use crate::stocked::Stocked;
use s3_compile::{CompileFault, compile};
use s3_lines::Diagnostic;
use s3_lines::sheet::Line;
use s3_operator::HaltCode;
use s3_program::program::Program;
use s3_sheets::{SheetFault, read_sheets};
use std::alloc::AllocError;

impl Level {
    ghost use Rattle.std.specs.Prelude.{◌≡◌, ◌≤◌, None, length, slice_range, IsTrue, OnOk};
    ghost use Rattle.s3_meaning.specs.Source.{Source};
    ghost use Rattle.s3_lines.specs.Inner.Ranges.{are_read};
    ghost use Rattle.s3_diagnose.specs.Diagnostics.{compile_diagnostics};
    ghost use Rattle.s3_program.specs.Inner.Stands.{Stands};
    ghost use Rattle.s3_operator.specs.declared.halt_code.HaltCode.TheVariants.{FaultySource};
    ghost use Rattle.s3_solo.specs.Serving.{compiled, compiled_data, details_of, halting, stocked};
    ghost use Rattle.s3_level.specs.Inner.Calls.{KeepsJob};
    ghost use Rattle.s3_level.specs.Inner.Holds.{Shown, HoldsParts, Becomes};

    /// Compiles the source between two places into the library, or shows its diagnostics.
    pub(crate) fn compile(
        &mut self,
        number: u16,
        run_card: u16,
        from: usize,
        to: usize,
    ) -> Result<(), AllocError>
        requires order { from ≤ to }
        requires within { to ≤ length self.old.deck }
        requires rests { self.old.job ≡ None }
        ensures world { (s : Shown) → OnOk result (Becomes (compiled_data number run_card from (slice_range self.old.deck from to)) (HoldsParts self.old s) (HoldsParts self.new s)) }
        ensures keeps { KeepsJob self.old self.new }
    {
        let lines = match read_sheets(self.alloc, &self.deck, from, to) {
            Ok(lines) => lines,
            Err(SheetFault::NoMemory) => return Err(AllocError),
            Err(SheetFault::Diagnostics(found)) => {
                return self.show_diagnostics(number, &found);
            }
        };
        self.compile_lines(number, run_card, &lines)
    }

    /// Compiles a source without diagnostics on single cards.
    fn compile_lines(
        &mut self,
        number: u16,
        run_card: u16,
        lines: &[Line],
    ) -> Result<(), AllocError>
        requires read { IsTrue (are_read lines.now) }
        requires rests { self.old.job ≡ None }
        ensures world { (s : Shown) → OnOk result (Becomes (compiled number lines.now (compile_diagnostics run_card lines.now)) (HoldsParts self.old s) (HoldsParts self.new s)) }
        ensures keeps { KeepsJob self.old self.new }
    {
        match compile(self.alloc, lines, run_card) {
            Ok(program) => self.stock(program),
            Err(CompileFault::NoMemory) => Err(AllocError),
            Err(CompileFault::Diagnostics(found)) => { self.show_diagnostics(number, &found) }
        }
    }

    /// Shows the diagnostics of a source.
    fn show_diagnostics(&mut self, number: u16, found: &[Diagnostic]) -> Result<(), AllocError>
        ensures world { (s : Shown) → OnOk result (Becomes (halting number FaultySource (details_of found.now)) (HoldsParts self.old s) (HoldsParts self.new s)) }
        ensures keeps { KeepsJob self.old self.new }
    {
        let details = details_of(self.alloc, found)?;
        self.show(number, HaltCode::FaultySource, details)
    }

    /// Puts a program into the library, in place of an earlier one of its name.
    fn stock(&mut self, program: Program) -> Result<(), AllocError>
        requires { self.old.job ≡ None }
        ensures world { (s : Shown) → OnOk result ((source : Source) → Stands program source → Becomes (stocked program.name source) (HoldsParts self.old s) (HoldsParts self.new s)) }
        ensures keeps { KeepsJob self.old self.new }
    {
        self.library.insert(program.name, Stocked::new(program))?;
        Ok(())
    }
}
