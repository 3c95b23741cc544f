//! O cards: 5, 8, 9 and 12.

ghost use Rattle.std.specs.Prelude.{◌≡◌, false, true, map, IfOk};
ghost use Rattle.s3_lines.specs.declared.sheet.SheetLine.TheVariants as sheet;
ghost use Rattle.s3_sheets.specs.declared.kind.CardKind.TheVariants as kind;
ghost use Rattle.s3_blame.specs.Inner.Entries.{entries_tested, kind_of_output};
ghost use Rattle.s3_blame.specs.Inner.Marks.{fails, span, are_of};
ghost use Rattle.s3_blame.specs.Inner.Names.{can_edit, names_known, unfit_content, unfit_form, unfit_in};
ghost use Rattle.s3_blame.specs.Inner.OwnMarks.{are_marked, is_open, is_open_on_output, marks_of_output, marks_of_output_field, marks_of_output_line, marks_of_word};

use crate::known::Known;
use crate::parts::{Part, at_fault, entry, entry_alone};
use crate::walk::Walk;
use s3_diagnose::files::{allows_output, has_spacing, is_in_table};
use s3_edit::EditCode;
use s3_lines::sheet::{OutputCard, OutputContent, OutputField, OutputForm, OutputLine, Shape};
use s3_sheets::FaultyEntry;
use std::alloc::{AllocError, Global};

/// The entries to blame for a number of an O card.
pub fn output_entries(
    alloc: Global,
    known: &Known,
    walk: &Walk,
    card: u16,
    line: &OutputLine,
    number: u8,
) -> Result<Vec<FaultyEntry>, AllocError>
    ensures of { IfOk result (λ found. are_of card number (entries_tested (kind_of_output line.now) number) found.items ≡ true) }
    ensures own { IfOk result (λ found. are_marked card number (marks_of_output (names_known known.now) line.now number) found.items ≡ true) }
    ensures named { IfOk result (λ found. is_open (sheet.Output line.now) number ≡ false → are_of card number (marks_of_output (names_known known.now) line.now number) found.items ≡ true) }
{
    match line {
        OutputLine::Line(first) => line_entries(alloc, known, walk, card, first, number),
        OutputLine::And(_) => word_entries(alloc, card, number),
        OutputLine::Or(_) => word_entries(alloc, card, number),
        OutputLine::Field(field) => field_entries(alloc, known, card, field, number),
    }
}

/// The entries to blame for a number of the card of an AND or OR line. 9: the word.
#[tactic(auto, using(crate::proofs::TableLemmas::line_and_9, crate::proofs::TableLemmas::line_or_9))]
fn word_entries(alloc: Global, card: u16, number: u8) -> Result<Vec<FaultyEntry>, AllocError>
    ensures and { IfOk result (λ found. are_of card number (entries_tested kind.OutputAnd number) found.items ≡ true) }
    ensures or { IfOk result (λ found. are_of card number (entries_tested kind.OutputOr number) found.items ≡ true) }
    ensures own { IfOk result (λ found. are_marked card number (marks_of_word number) found.items ≡ true) }
    ensures named { IfOk result (λ found. are_of card number (marks_of_word number) found.items ≡ true) }
{
    match number {
        9 => at_fault(alloc, card, number, &entry_alone(14, 16)),
        _ => Ok(Vec::new(alloc)),
    }
}

/// The entries to blame for a number of the first card of a line. For 5 it is the file's name, also if the name is on the line
/// before.
#[tactic(auto, using(crate::proofs::TableLemmas::line_5))]
fn line_entries(
    alloc: Global,
    known: &Known,
    walk: &Walk,
    card: u16,
    line: &OutputCard,
    number: u8,
) -> Result<Vec<FaultyEntry>, AllocError>
    ensures of { IfOk result (λ found. are_of card number (entries_tested kind.OutputLine number) found.items ≡ true) }
    ensures own { IfOk result (λ found. are_marked card number (marks_of_output_line number) found.items ≡ true) }
    ensures named { IfOk result (λ found. is_open_on_output number ≡ false → are_of card number (marks_of_output_line number) found.items ≡ true) }
{
    match number {
        5 => at_fault(alloc, card, number, &entry_alone(7, 14)),
        12 => at_fault(alloc, card, number, &disallowed_parts(known, walk, line)),
        _ => Ok(Vec::new(alloc)),
    }
}

/// The entries of diagnostic 12: the file's name, with 16 to 18 if the file takes no such line; spaces and skips where they
/// aren't allowed.
#[tactic(auto, using(crate::proofs::TableLemmas::line_12))]
fn disallowed_parts(known: &Known, walk: &Walk, line: &OutputCard) -> [Part; 6]
    ensures { map span result ≡ entries_tested kind.OutputLine 12 }
{
    let file = line
        .file
        .or(walk.output_file)
        .and_then(|name| known.file(name));
    let (is_refused, is_addition_wrong, is_spaced) = match &file {
        Some(file) => (
            !allows_output(file, line.is_addition),
            is_in_table(file) && (line.is_addition || file.has_additions),
            has_spacing(&line.spacing) && !file.device.is_printer(),
        ),
        None => (true, false, false),
    };
    let spacing = &line.spacing;
    [
        entry(7, 14, is_refused || !is_spaced),
        entry(16, 18, is_refused && is_addition_wrong),
        entry(17, 17, is_spaced && spacing.space_before.is_some()),
        entry(18, 18, is_spaced && spacing.space_after.is_some()),
        entry(19, 20, is_spaced && spacing.skip_before.is_some()),
        entry(21, 22, is_spaced && spacing.skip_after.is_some()),
    ]
}

/// Whether an edit code can be used for a shape at all.
fn may_edit(code: EditCode, shape: Shape) -> bool
    ensures { result ≡ can_edit code shape }
{
    match shape {
        Shape::Alphanumeric(_) => false,
        Shape::Numeric(digits, decimals) => match code {
            EditCode::Date => digits == 6 && decimals == 0,
            _ => true,
        },
    }
}

/// The entries to blame for a number of a field's card. 5: the field. 9: the file's name that is missing in front. 12: P.
#[tactic(auto, using(crate::proofs::TableLemmas::put_5, crate::proofs::TableLemmas::put_9, crate::proofs::TableLemmas::put_12))]
fn field_entries(
    alloc: Global,
    known: &Known,
    card: u16,
    field: &OutputField,
    number: u8,
) -> Result<Vec<FaultyEntry>, AllocError>
    ensures of { IfOk result (λ found. are_of card number (entries_tested kind.OutputField number) found.items ≡ true) }
    ensures own { IfOk result (λ found. are_marked card number (marks_of_output_field (names_known known.now) field.now number) found.items ≡ true) }
    ensures named { IfOk result (λ found. are_of card number (marks_of_output_field (names_known known.now) field.now number) found.items ≡ true) }
{
    match number {
        5 => at_fault(alloc, card, number, &entry_alone(32, 37)),
        8 => at_fault(alloc, card, number, &editing_parts(known, field)),
        9 => at_fault(alloc, card, number, &entry_alone(7, 14)),
        12 => at_fault(alloc, card, number, &entry_alone(44, 44)),
        _ => Ok(Vec::new(alloc)),
    }
}

/// The entries of diagnostic 8: an edit code or P that can't be used for the field, else its end position with the edit code.
#[tactic(auto, using(crate::proofs::TableLemmas::put_8))]
fn editing_parts(known: &Known, field: &OutputField) -> [Part; 3]
    ensures spans { map span result ≡ entries_tested kind.OutputField 8 }
    ensures fails { map fails result ≡ unfit_in (names_known known.now) field.now }
{
    let [is_code, is_end, is_packed] = wrong_content(known, &field.content);
    [
        entry(38, 38, is_code),
        entry(40, 43, is_end),
        entry(44, 44, is_packed),
    ]
}

/// Whether the edit code, the end position, or P of what is put out is to blame.
fn wrong_content(known: &Known, content: &OutputContent) -> [bool; 3]
    ensures { result ≡ unfit_content (names_known known.now) content.now }
{
    match content {
        OutputContent::Constant(_) => [false, false, false],
        OutputContent::Field(put) => wrong_editing(put.form, known.field(put.name)),
    }
}

/// Whether the edit code, the end position, or P of a field of this shape is to blame.
fn wrong_editing(form: OutputForm, shape: Option<Shape>) -> [bool; 3]
    ensures { result ≡ unfit_form form shape }
{
    let Some(shape) = shape else {
        return [false, false, false];
    };
    match (form, shape) {
        (OutputForm::Plain, _) => [false, true, false],
        (OutputForm::Packed, Shape::Alphanumeric(_)) => [false, false, true],
        (OutputForm::Packed, Shape::Numeric(..)) => [false, true, false],
        (OutputForm::Edited(code), shape) => {
            let may_edit = may_edit(code, shape);
            [!may_edit, may_edit, false]
        }
    }
}
