//! Lines of sheets become a program, or show their diagnostics.

ghost use Rattle.std.specs.Prelude.{◌≡◌, IsTrue};
ghost use Rattle.s3_lines.specs.Inner.Ranges.{are_read};
ghost use Rattle.s3_diagnose.specs.Lookups.{known_of};
ghost use Rattle.s3_diagnose.specs.Inner.Shown.{known_shown};
ghost use Rattle.s3_compile.specs.Inner.Compiles.{Compiles};
ghost use Rattle.s3_compile.specs.Inner.Defines.{Defines};

use crate::known::{empty_tables, fill_tables};
use s3_diagnose::compile_diagnostics;
use s3_diagnose::tables::KnownTables;
use s3_lines::Diagnostic;
use s3_lines::sheet::Line;
use s3_program::program::Program;
use s3_program::translate;
use std::alloc::{AllocError, Global};

/// Why lines don't become a program.
#[derive(Debug, Drop)]
pub enum CompileFault {
    /// Memory ran out; nothing is known of the source.
    NoMemory,
    /// The diagnostics 5 to 12 of the source, by card and then number; at least one.
    Diagnostics(Vec<Diagnostic>),
}

impl From<AllocError> for CompileFault {
    ghost use Rattle.std.specs.Prelude.{◌≡◌};
    ghost use Rattle.s3_compile.specs.declared.compiler.CompileFault.TheVariants.{NoMemory};

    ghost from_gives = { λ _ e. e ≡ NoMemory };

    fn from(_: AllocError) -> Self {
        CompileFault::NoMemory
    }
}

/// The program of lines whose definitions are known, or their diagnostics.
fn compile_known(
    alloc: Global,
    known: &KnownTables,
    lines: &[Line],
    run_card: u16,
) -> Result<Program, CompileFault>
    requires shown { known_shown known.now ≡ known_of lines.now }
    requires defines { Defines known.now.definitions lines.now }
    requires read { IsTrue (are_read lines.now) }
    ensures { Compiles lines.now run_card result }
{
    let found = compile_diagnostics(alloc, known, lines, run_card)?;
    if found.is_empty() {
        Ok(translate(alloc, &known.definitions, lines)?)
    } else {
        Err(CompileFault::Diagnostics(found))
    }
}

/// The program of lines, or their diagnostics, by tables that it fills with what they define.
fn compile_with(
    alloc: Global,
    known: &mut KnownTables,
    lines: &[Line],
    run_card: u16,
) -> Result<Program, CompileFault>
    requires read { IsTrue (are_read lines.now) }
    ensures { Compiles lines.now run_card result }
{
    fill_tables(alloc, known, lines)?;
    compile_known(alloc, known, lines, run_card)
}

/// The program that represents the source of these lines, under the name of its H card or RPGOBJ; or its diagnostics 5 to 12
/// (docs/LANGUAGE.md, "Diagnostics"), by card and then number. A diagnostic on the whole program has the number of the RUN card.
/// The lines must be those of cards without an error of their own, as `read_sheets` gives them. Also refused if memory runs out.
pub fn compile(alloc: Global, lines: &[Line], run_card: u16) -> Result<Program, CompileFault>
    requires read { IsTrue (are_read lines.now) }
    ensures { Compiles lines.now run_card result }
{
    let mut known = empty_tables(alloc);
    let result = compile_with(alloc, &mut known, lines, run_card);
    drop(known);
    result
}
