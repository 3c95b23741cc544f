//! The diagnostics of a source.
ghost use Rattle.std.specs.Prelude.{◌≡◌, ◌≤◌, ◌<◌, length, slice_range, IfOk, IsTrue};
ghost use Rattle.s3_lines.specs.Inner.Ranges.{are_read};
ghost use Rattle.s3_diagnose.specs.Diagnostics.{compile_diagnostics};
ghost use Rattle.s3_blame.specs.Inner.Sources.{found_from};

use s3_cards::Deck;
use s3_compile::{CompileFault, compile};
use s3_lines::Diagnostic;
use s3_lines::sheet::Line;
use s3_sheets::{SheetFault, read_sheets};
use std::alloc::{AllocError, Global};

/// The diagnostics 5 to 12 of lines, of which there may be none.
fn told_of_lines(
    alloc: Global,
    lines: &[Line],
    run_card: u16,
) -> Result<Vec<Diagnostic>, AllocError>
    requires { IsTrue (are_read lines.now) }
    ensures { IfOk result (λ found. found.items ≡ compile_diagnostics run_card lines.now) }
{
    match compile(alloc, lines, run_card) {
        Ok(program) => {
            drop(program);
            Ok(Vec::new(alloc))
        }
        Err(CompileFault::NoMemory) => Err(AllocError),
        Err(CompileFault::Diagnostics(found)) => Ok(found),
    }
}

/// The diagnostics of the source in a deck from place `from` up to but without place `to`, by card and then number: 1 to 4 and 13
/// if there are any, else 5 to 12. A diagnostic on the whole program has the number of the RUN card. There may be none. Refused
/// only if memory runs out.
#[tactic(auto, using(crate::proofs::SourceLemmas::cards_at_fault, crate::proofs::SourceLemmas::no_card_at_fault))]
pub fn told(
    alloc: Global,
    deck: &Deck,
    from: usize,
    to: usize,
    run_card: u16,
) -> Result<Vec<Diagnostic>, AllocError>
    requires order { from ≤ to }
    requires within { to ≤ length deck.now }
    ensures { IfOk result (λ found. found.items ≡ found_from from run_card (slice_range deck.now from to)) }
{
    match read_sheets(alloc, deck, from, to) {
        Ok(lines) => told_of_lines(alloc, &lines, run_card),
        Err(SheetFault::NoMemory) => Err(AllocError),
        Err(SheetFault::Diagnostics(found)) => Ok(found),
    }
}
