//! Diagnostic 12: what a file doesn't allow.

ghost use Rattle.std.specs.Prelude.{◌≡◌};
ghost use Rattle.s3_program.specs.Uses as spec;

use crate::files::{
    allows_output, allows_records, has_spacing, is_card_file, is_in_table, is_print_file,
};
use s3_lines::sheet::{
    FieldForm, FileLine, InputLine, OutputCard, OutputContent, OutputForm, OutputLine,
};
use s3_program::program::Meaning;
use s3_program::standing::{FileStanding, InputStanding, OutputStanding};

/// Whether diagnostic 12 holds for an F line in its context: it isn't in the table of files, or is a second card file or print
/// file.
pub fn file_misused(at: &FileStanding, file: &FileLine) -> bool
    ensures { result ≡ spec.file_misused at.now file.now }
{
    !is_in_table(file)
        || (is_card_file(file) && at.has_card_file)
        || (is_print_file(file) && at.has_print_file)
}

fn is_off_disk(meaning: &Meaning) -> bool
    ensures { result ≡ spec.is_off_disk meaning.now }
{
    match meaning {
        Meaning::File(file) => !file.device.is_disk(),
        _ => false,
    }
}

fn refuses_records(meaning: &Meaning) -> bool
    ensures { result ≡ spec.refuses_records meaning.now }
{
    match meaning {
        Meaning::File(file) => !allows_records(file),
        _ => false,
    }
}

fn is_packed(form: FieldForm) -> bool
    ensures { result ≡ spec.is_packed form }
{
    matches!(form, FieldForm::Packed(_) | FieldForm::PackedText)
}

/// Whether diagnostic 12 holds for an I line in its context: a record line for a file that may have none, or packed data that its
/// file can't have.
pub fn input_misused(at: &InputStanding, line: &InputLine<Meaning>) -> bool
    ensures { result ≡ spec.input_misused at.now line.now }
{
    match line {
        InputLine::Record(file, _, _) => refuses_records(file),
        InputLine::Field(field) => is_packed(field.form) && is_off_disk(&at.file),
        _ => false,
    }
}

fn file_refuses(card: &OutputCard<Meaning>, meaning: &Meaning) -> bool
    ensures { result ≡ spec.file_refuses card.now meaning.now }
{
    match meaning {
        Meaning::File(file) => !allows_output(file, card.is_addition)
            || (has_spacing(&card.spacing) && !file.device.is_printer()),
        _ => false,
    }
}

fn refuses_line(card: &OutputCard<Meaning>, file: Option<Meaning>) -> bool
    ensures { result ≡ spec.refuses_line card.now file }
{
    match file {
        None => false,
        Some(meaning) => file_refuses(card, &meaning),
    }
}

fn is_packed_form(form: OutputForm) -> bool
    ensures { result ≡ spec.is_packed_form form }
{
    matches!(form, OutputForm::Packed)
}

fn is_packed_content(content: &OutputContent<Meaning>) -> bool
    ensures { result ≡ spec.is_packed_content content.now }
{
    match content {
        OutputContent::Constant(_) => false,
        OutputContent::Field(field) => is_packed_form(field.form),
    }
}

fn is_entry_off_disk(entry: Option<Meaning>) -> bool
    ensures { result ≡ spec.is_entry_off_disk entry }
{
    match entry {
        None => false,
        Some(meaning) => is_off_disk(&meaning),
    }
}

/// Whether diagnostic 12 holds for an O line in its context: a line that its file doesn't allow, or spaces, skips or packed data
/// that its file can't have.
pub fn output_misused(at: &OutputStanding, line: &OutputLine<Meaning>) -> bool
    ensures { result ≡ spec.output_misused at.now line.now }
{
    match line {
        OutputLine::Line(card) => refuses_line(card, card.file.or(at.file)),
        OutputLine::Field(field) => is_packed_content(&field.content) && is_entry_off_disk(at.file),
        _ => false,
    }
}
