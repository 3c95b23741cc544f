//! F cards: 6 and 12.
ghost use Rattle.std.specs.Prelude.{◌≡◌, ◌∷◌, ◌||◌, [], true, map, IfOk};
ghost use Rattle.s3_program.specs.FileTable.{is_card_file as is_card_spec, is_print_file as is_print_spec};
ghost use Rattle.s3_sheets.specs.declared.kind.CardKind.TheVariants as kind;
ghost use Rattle.s3_blame.specs.Inner.Entries.{entries_tested};
ghost use Rattle.s3_blame.specs.Inner.Marks.{fails, span, are_of};
ghost use Rattle.s3_blame.specs.Inner.OwnMarks.{are_marked, marks_of_file, use_fails};

use crate::parts::{Part, at_fault, entry};
use s3_diagnose::files::{is_card_file, is_print_file};
use s3_lines::sheet::FileLine;
use s3_sheets::FaultyEntry;
use std::alloc::{AllocError, Global};

/// The entries of diagnostic 6 on an F card: its name.
#[tactic(auto, using(crate::proofs::TableLemmas::file_6))]
fn name_part() -> [Part; 1]
    ensures value { map span result ≡ entries_tested kind.File 6 }
    ensures fails { map fails result ≡ true ∷ [] }
{
    [entry(7, 14, true)]
}

/// The entries of diagnostic 12 on an F card: the device of a second card or print file, else all entries that the table of file
/// uses tests.
#[tactic(auto, using(crate::proofs::TableLemmas::file_12))]
fn use_parts(file: &FileLine) -> [Part; 6]
    ensures spans { map span result ≡ entries_tested kind.File 12 }
    ensures fails { map fails result ≡ use_fails (is_card_spec file.now || is_print_spec file.now) }
{
    let is_second = is_card_file(file) || is_print_file(file);
    [
        entry(15, 16, !is_second),
        entry(28, 28, !is_second),
        entry(31, 31, !is_second),
        entry(32, 32, !is_second),
        entry(40, 46, true),
        entry(66, 66, !is_second),
    ]
}

/// The entries to blame for a number of an F card.
pub fn file_entries(
    alloc: Global,
    card: u16,
    file: &FileLine,
    number: u8,
) -> Result<Vec<FaultyEntry>, AllocError>
    ensures of { IfOk result (λ found. are_of card number (entries_tested kind.File number) found.items ≡ true) }
    ensures own { IfOk result (λ found. are_marked card number (marks_of_file file.now number) found.items ≡ true) }
    ensures named { IfOk result (λ found. are_of card number (marks_of_file file.now number) found.items ≡ true) }
{
    match number {
        6 => at_fault(alloc, card, number, &name_part()),
        12 => at_fault(alloc, card, number, &use_parts(file)),
        _ => Ok(Vec::new(alloc)),
    }
}
