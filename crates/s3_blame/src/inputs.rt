//! I cards: 5 to 9, 11 and 12.

ghost use Rattle.std.specs.Prelude.{◌≡◌, false, true, map, IfOk};
ghost use Rattle.s3_program.specs.Indications.{is_text_form};
ghost use Rattle.s3_lines.specs.declared.sheet.SheetLine.TheVariants as sheet;
ghost use Rattle.s3_sheets.specs.declared.kind.CardKind.TheVariants as kind;
ghost use Rattle.s3_blame.specs.Inner.Entries.{entries_tested, kind_of_input};
ghost use Rattle.s3_blame.specs.Inner.Marks.{fails, span, are_of};
ghost use Rattle.s3_blame.specs.Inner.Names.{names_known, redefined_field};
ghost use Rattle.s3_blame.specs.Inner.OwnMarks.{are_marked, is_open, is_open_on_field, marks_of_field, marks_of_input, marks_of_or, marks_of_record, marks_of_word};

use crate::known::{Known, shape_of_field};
use crate::parts::{Part, at_fault, entry, entry_alone};
use crate::walk::{Key, Walk};
use s3_diagnose::shapes::same_kind_and_length;
use s3_lines::indicator::Indicator;
use s3_lines::sheet::{FieldForm, FieldLine, InputLine};
use s3_sheets::FaultyEntry;
use std::alloc::{AllocError, Global};

/// The entries to blame for a number of an I card.
pub fn input_entries(
    alloc: Global,
    known: &Known,
    walk: &Walk,
    card: u16,
    line: &InputLine,
    number: u8,
) -> Result<Vec<FaultyEntry>, AllocError>
    ensures of { IfOk result (λ found. are_of card number (entries_tested (kind_of_input line.now) number) found.items ≡ true) }
    ensures own { IfOk result (λ found. are_marked card number (marks_of_input (names_known known.now) line.now number) found.items ≡ true) }
    ensures named { IfOk result (λ found. is_open (sheet.Input line.now) number ≡ false → are_of card number (marks_of_input (names_known known.now) line.now number) found.items ≡ true) }
{
    match line {
        InputLine::Field(field) => field_entries(alloc, known, walk, card, field, number),
        InputLine::Record(..) => record_entries(alloc, card, number),
        InputLine::Or(..) => or_entries(alloc, card, number),
        InputLine::And(_) => and_entries(alloc, card, number),
    }
}

/// The entries to blame for a number of a record line's card. 5, 12: its file. 11: its indicator.
#[tactic(auto, using(crate::proofs::TableLemmas::record_5, crate::proofs::TableLemmas::record_11, crate::proofs::TableLemmas::record_12))]
fn record_entries(alloc: Global, card: u16, number: u8) -> Result<Vec<FaultyEntry>, AllocError>
    ensures of { IfOk result (λ found. are_of card number (entries_tested kind.Record number) found.items ≡ true) }
    ensures own { IfOk result (λ found. are_marked card number (marks_of_record number) found.items ≡ true) }
    ensures named { IfOk result (λ found. are_of card number (marks_of_record number) found.items ≡ true) }
{
    match number {
        5 => at_fault(alloc, card, number, &entry_alone(7, 14)),
        11 => at_fault(alloc, card, number, &entry_alone(19, 20)),
        12 => at_fault(alloc, card, number, &entry_alone(7, 14)),
        _ => Ok(Vec::new(alloc)),
    }
}

/// The entries to blame for a number of an OR line's card. 9: the word. 11: its indicator.
#[tactic(auto, using(crate::proofs::TableLemmas::or_9, crate::proofs::TableLemmas::or_11))]
fn or_entries(alloc: Global, card: u16, number: u8) -> Result<Vec<FaultyEntry>, AllocError>
    ensures of { IfOk result (λ found. are_of card number (entries_tested kind.RecordOr number) found.items ≡ true) }
    ensures own { IfOk result (λ found. are_marked card number (marks_of_or number) found.items ≡ true) }
    ensures named { IfOk result (λ found. are_of card number (marks_of_or number) found.items ≡ true) }
{
    match number {
        9 => at_fault(alloc, card, number, &entry_alone(14, 16)),
        11 => at_fault(alloc, card, number, &entry_alone(19, 20)),
        _ => Ok(Vec::new(alloc)),
    }
}

/// The entries to blame for a number of an AND line's card. 9: the word.
#[tactic(auto, using(crate::proofs::TableLemmas::and_9))]
fn and_entries(alloc: Global, card: u16, number: u8) -> Result<Vec<FaultyEntry>, AllocError>
    ensures of { IfOk result (λ found. are_of card number (entries_tested kind.RecordAnd number) found.items ≡ true) }
    ensures own { IfOk result (λ found. are_marked card number (marks_of_word number) found.items ≡ true) }
    ensures named { IfOk result (λ found. are_of card number (marks_of_word number) found.items ≡ true) }
{
    match number {
        9 => at_fault(alloc, card, number, &entry_alone(14, 16)),
        _ => Ok(Vec::new(alloc)),
    }
}

/// The entries to blame for a number of a field's card. 8, P of a text; 9, a file's name; 12, P of a file that isn't on DISK.
#[tactic(auto, using(crate::proofs::TableLemmas::field_8, crate::proofs::TableLemmas::field_9, crate::proofs::TableLemmas::field_12))]
fn field_entries(
    alloc: Global,
    known: &Known,
    walk: &Walk,
    card: u16,
    field: &FieldLine,
    number: u8,
) -> Result<Vec<FaultyEntry>, AllocError>
    ensures of { IfOk result (λ found. are_of card number (entries_tested kind.Field number) found.items ≡ true) }
    ensures own { IfOk result (λ found. are_marked card number (marks_of_field (names_known known.now) field.now number) found.items ≡ true) }
    ensures named { IfOk result (λ found. is_open_on_field number ≡ false → are_of card number (marks_of_field (names_known known.now) field.now number) found.items ≡ true) }
{
    match number {
        6 => at_fault(alloc, card, number, &shape_parts(known, field)),
        7 => at_fault(alloc, card, number, &indicator_parts(walk, field)),
        8 => at_fault(alloc, card, number, &entry_alone(43, 43)),
        9 => at_fault(alloc, card, number, &entry_alone(7, 14)),
        11 => at_fault(alloc, card, number, &level_parts(walk, field)),
        12 => at_fault(alloc, card, number, &entry_alone(43, 43)),
        _ => Ok(Vec::new(alloc)),
    }
}

/// The entries of diagnostic 6: the name, and, if the field was defined before, what differs from that definition: positions and
/// P, or decimals.
#[tactic(auto, using(crate::proofs::TableLemmas::field_6))]
fn shape_parts(known: &Known, field: &FieldLine) -> [Part; 3]
    ensures spans { map span result ≡ entries_tested kind.Field 6 }
    ensures fails { map fails result ≡ redefined_field (names_known known.now) field.now }
{
    let (are_positions, are_decimals) = known.field_redefined(field);
    [
        entry(44, 51, are_positions),
        entry(52, 52, are_decimals),
        entry(53, 58, true),
    ]
}

fn is_text(form: FieldForm) -> bool
    ensures { result ≡ is_text_form form }
{
    matches!(form, FieldForm::Alphanumeric | FieldForm::PackedText)
}

/// The entries of diagnostic 7: a field record relation that isn't of the group; plus and minus of a text.
#[tactic(auto, using(crate::proofs::TableLemmas::field_7))]
fn indicator_parts(walk: &Walk, field: &FieldLine) -> [Part; 3]
    ensures { map span result ≡ entries_tested kind.Field 7 }
{
    let [plus, minus, _zero] = field.indicators;
    [
        entry(63, 64, !walk.counts(field.relation)),
        entry(65, 66, is_text(field.form) && plus.is_some()),
        entry(67, 68, is_text(field.form) && minus.is_some()),
    ]
}

/// Whether two fields of a group count in one type of it.
fn meet(one: Option<Indicator>, other: Option<Indicator>) -> bool {
    match (one, other) {
        (Some(one), Some(other)) => one == other,
        _ => true,
    }
}

/// Whether a level of a field is in error: its file is chained, it has another kind or length than the first field with that
/// level, or a field above has it in the same type.
fn is_bad_key(walk: &Walk, field: &FieldLine, key: Key) -> bool {
    let is_chained = match &walk.input_file {
        Some(file) => file.is_chained(),
        None => false,
    };
    let disagrees = match walk.first_shape(key) {
        Some(first) => !same_kind_and_length(first, shape_of_field(field)),
        None => false,
    };
    is_chained || disagrees || is_given_twice(walk, field, key)
}

/// Whether a field above has a level in a type in which this field counts, too. One whose relation is to no type of the group counts in
/// none.
fn is_given_twice(walk: &Walk, field: &FieldLine, key: Key) -> bool {
    walk.counts(field.relation)
        && walk.keys.iter().any(|given| {
            given.key == key && walk.counts(given.relation) && meet(given.relation, field.relation)
        })
}

/// The entries of diagnostic 11: each level that is in error.
#[tactic(auto, using(crate::proofs::TableLemmas::field_11))]
fn level_parts(walk: &Walk, field: &FieldLine) -> [Part; 2]
    ensures { map span result ≡ entries_tested kind.Field 11 }
{
    let control = field.control_level.map(|level| Key::Control(level));
    let matching = field.match_level.map(|level| Key::Match(level));
    [
        entry(59, 60, has_bad_key(walk, field, control)),
        entry(61, 62, has_bad_key(walk, field, matching)),
    ]
}

/// Whether a field has a level that is in error.
fn has_bad_key(walk: &Walk, field: &FieldLine, key: Option<Key>) -> bool {
    match key {
        Some(key) => is_bad_key(walk, field, key),
        None => false,
    }
}
