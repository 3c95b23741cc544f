//! The place of a program in its source, and what it holds there.

use crate::at_work::{AtWork, CARD_BEFORE, is_on_cards};
use crate::bad_digits::bad_digits;
use crate::cards::DeckCards;
use crate::causes::push_causes;
use crate::match_fields::{Sort, level_fields};
use crate::matched::{RecordOf, processed_before};
use s3_cards::Name;
use s3_cycle::{Sought, Stand, Totals};
use s3_decks::{Columns, push_characters, push_name, push_ruled};
use s3_evidence::{Evidence, Source};
use s3_lines::sheet::{FieldLine, FileLine, InputLine, Line, SheetLine};
use s3_operator::HaltCode;
use std::alloc::{AllocError, Global};

/// What brought on the totals with which a reply ends a job.
const BY_REPLY: &'static str =
    "  these are the last totals: the reply that ends the job brought them on, and no record\n";

/// What brought on the totals of the last record.
const BY_LAST_RECORD: &'static str =
    "  these are the totals of the last record: LR brought them on, and no record follows\n";

/// The part of the place of the run that is shown with the last data card.
#[derive(Drop)]
pub(crate) struct Shown {
    /// The columns that are marked on it.
    pub(crate) marked: Vec<Columns>,
    /// Whether the card before it is shown too.
    pub(crate) is_before_shown: bool,
    /// Whether it waits for totals, which are of the cards before it.
    pub(crate) is_after_totals: bool,
    /// Whether it is shown already.
    pub(crate) is_last_card_shown: bool,
    /// The record on disk that was processed before it, to be shown after it; empty if there is none.
    pub(crate) record_before: String,
}

impl Shown {
    /// Nothing.
    fn nothing(alloc: Global) -> Shown {
        Shown {
            marked: Vec::new(alloc),
            is_before_shown: false,
            is_after_totals: false,
            is_last_card_shown: false,
            record_before: String::new(alloc),
        }
    }
}

/// Appends what brought on the totals that the program is at, if it is at totals. A record on cards is handed on.
fn push_totals(text: &mut String, alloc: Global, at: AtWork<'_>) -> Result<Shown, AllocError> {
    match at.cycle.totals() {
        Totals::Elsewhere => Ok(Shown::nothing(alloc)),
        Totals::Before { file, number } => push_totals_before(text, alloc, at, file, number),
        Totals::Last => {
            text.push_str(if at.begun.is_ending() {
                BY_REPLY
            } else {
                BY_LAST_RECORD
            })?;
            Ok(Shown::nothing(alloc))
        }
    }
}

/// Appends the record of a file that waits for totals, and the one before it, with their control fields marked. What belongs on the card
/// that was read last, or after it, is handed on.
fn push_totals_before(
    text: &mut String,
    alloc: Global,
    at: AtWork<'_>,
    slot: usize,
    number: u32,
) -> Result<Shown, AllocError> {
    let Some(line) = at.source.file_at(slot) else {
        return Ok(Shown::nothing(alloc));
    };
    let before = matched_before(alloc, at, slot, number)?;
    if is_on_cards(line) {
        return shown_after_totals(alloc, at, line.name, before);
    }
    push_record_after_totals(text, alloc, at, line, number)?;
    push_disk_record_before(text, alloc, &at.source.lines, before)?;
    let is_last_card_shown = push_card_before(text, alloc, at, before)?;
    Ok(Shown {
        marked: Vec::new(alloc),
        is_before_shown: false,
        is_after_totals: false,
        is_last_card_shown,
        record_before: String::new(alloc),
    })
}

/// What is shown with a card of a file that waits for totals, given the record that was processed before it.
fn shown_after_totals(
    alloc: Global,
    at: AtWork<'_>,
    file: Name,
    before: Option<RecordOf<'_>>,
) -> Result<Shown, AllocError> {
    let record_before = disk_record_before(alloc, &at.source.lines, before)?;
    Ok(Shown {
        marked: level_fields(alloc, &at.source.lines, file, Sort::Control)?,
        is_before_shown: at.is_in_order() || is_card(before),
        is_after_totals: true,
        is_last_card_shown: false,
        record_before,
    })
}

/// Appends the record of a file on disk that waits for totals, and the one before it, with their control fields marked.
fn push_record_after_totals(
    text: &mut String,
    alloc: Global,
    at: AtWork<'_>,
    line: &FileLine,
    number: u32,
) -> Result<(), AllocError> {
    text.push_str("  the totals are those before ")?;
    push_record_number(text, Some(line), number)?;
    text.push_str(", which isn't processed yet\n")?;
    let marked = level_fields(alloc, &at.source.lines, line.name, Sort::Control)?;
    push_ruled(text, at.cycle.record_behind_totals(), &marked)?;
    push_record_before(text, at, line.name, number, &marked)
}

/// If files are matched, the record that was processed before the n-th of a file, which brought totals on.
fn matched_before<'a>(
    alloc: Global,
    at: AtWork<'a>,
    slot: usize,
    number: u32,
) -> Result<Option<RecordOf<'a>>, AllocError> {
    if at.begun.has_skipped() || at.source.reads_in_turn() {
        return Ok(None);
    }
    processed_before(alloc, at, slot, number)
}

/// Whether a record is a card.
fn is_card(record: Option<RecordOf<'_>>) -> bool {
    match record {
        Some(record) => is_on_cards(record.line),
        None => false,
    }
}

/// Appends the record before the n-th of a file on disk, which brought totals on, if it was processed before it.
fn push_record_before(
    text: &mut String,
    at: AtWork<'_>,
    file: Name,
    number: u32,
    marked: &[Columns],
) -> Result<(), AllocError> {
    let Evidence::Totals(records) = at.evidence else {
        return Ok(());
    };
    let before = number.saturating_sub(1);
    match records
        .iter()
        .find(|record| record.file == file && record.number == before)
    {
        Some(record) if at.is_in_order() => {
            push_named_record(text, "the record before it:", &record.bytes, marked)
        }
        _ => Ok(()),
    }
}

/// Appends a record of a file on disk that was processed before the one that brought totals on, with the control fields that lines have
/// marked.
fn push_disk_record_before(
    text: &mut String,
    alloc: Global,
    lines: &[Line],
    before: Option<RecordOf<'_>>,
) -> Result<(), AllocError> {
    let Some(record) = before else {
        return Ok(());
    };
    if is_on_cards(record.line) {
        return Ok(());
    }
    let marked = level_fields(alloc, lines, record.line.name, Sort::Control)?;
    text.push_str("  the record before it, ")?;
    push_record_number(text, Some(record.line), record.number)?;
    text.push_str(":\n")?;
    push_ruled(text, record.bytes, &marked)
}

/// The text of a record of a file on disk that was processed before the one that brought totals on.
fn disk_record_before(
    alloc: Global,
    lines: &[Line],
    before: Option<RecordOf<'_>>,
) -> Result<String, AllocError> {
    let mut text = String::new(alloc);
    push_disk_record_before(&mut text, alloc, lines, before)?;
    Ok(text)
}

/// Appends a card that was processed before the record on disk that brought totals on. Whether it is the card that was read last.
fn push_card_before(
    text: &mut String,
    alloc: Global,
    at: AtWork<'_>,
    before: Option<RecordOf<'_>>,
) -> Result<bool, AllocError> {
    let Some(record) = before else {
        return Ok(false);
    };
    if !is_on_cards(record.line) {
        return Ok(false);
    }
    let Some(card) = at.number_of_card(record.number) else {
        return Ok(false);
    };
    let marked = level_fields(alloc, &at.source.lines, record.line.name, Sort::Control)?;
    at.cards.push_named_card(text, CARD_BEFORE, card, &marked)?;
    Ok(at.last_card() == Some(card))
}

/// Appends the place of a program. What belongs on the last data card is handed on.
pub(crate) fn push_stand(
    text: &mut String,
    alloc: Global,
    at: AtWork<'_>,
) -> Result<Shown, AllocError> {
    match at.cycle.stand() {
        Stand::Nowhere => {
            push_halt_causes(text, at.cards, &at.source.lines, at.code)?;
            Ok(Shown::nothing(alloc))
        }
        Stand::Head { file, number } => push_head(text, alloc, at, file, number),
        Stand::Field {
            place,
            file,
            number,
        } => push_read_field(text, alloc, at, at.source.input_at(place), file, number),
        Stand::ChainedField { place } => {
            push_chained_field(text, alloc, at, at.source.input_at(place))
        }
        Stand::Calculation { place } => push_calculation(text, alloc, at, place),
        Stand::Output { file, place } => push_output(text, alloc, at, file, place),
    }
}

/// Appends the source cards that turn a halt indicator on, if the halt is one of an indicator.
fn push_halt_causes(
    text: &mut String,
    cards: DeckCards<'_>,
    lines: &[Line],
    code: HaltCode,
) -> Result<(), AllocError> {
    match code {
        HaltCode::HaltIndicator(number) => push_causes(text, cards, lines, number),
        _ => Ok(()),
    }
}

/// Appends the field of an I line in a record that was read, the n-th of a file.
fn push_read_field(
    text: &mut String,
    alloc: Global,
    at: AtWork<'_>,
    line: Option<&Line>,
    slot: usize,
    number: u32,
) -> Result<Shown, AllocError> {
    push_source_card(text, at.cards, line)?;
    push_field(text, line)?;
    push_record_number(text, at.source.file_at(slot), number)?;
    text.push('\n')?;
    push_field_record(text, alloc, at, field_of(line))
}

/// Appends the field of an I line in a record that was chained.
fn push_chained_field(
    text: &mut String,
    alloc: Global,
    at: AtWork<'_>,
    line: Option<&Line>,
) -> Result<Shown, AllocError> {
    push_source_card(text, at.cards, line)?;
    push_field(text, line)?;
    text.push_str("the record that was chained\n")?;
    push_field_record(text, alloc, at, field_of(line))
}

/// Appends a calculation by its place, with the record that it seeks, or the totals that it is at.
fn push_calculation(
    text: &mut String,
    alloc: Global,
    at: AtWork<'_>,
    place: usize,
) -> Result<Shown, AllocError> {
    push_source_card(text, at.cards, at.source.calculation_at(place))?;
    push_sought(text, at)?;
    push_found(text, at.evidence)?;
    push_totals(text, alloc, at)
}

/// Appends an output line by its place, with the record that it writes into a file, and the totals that it is at.
fn push_output(
    text: &mut String,
    alloc: Global,
    at: AtWork<'_>,
    slot: usize,
    place: usize,
) -> Result<Shown, AllocError> {
    push_source_card(text, at.cards, at.source.output_at(place))?;
    push_put(text, at, at.source.file_at(slot), place)?;
    if at.source.may_be_total_output(place) {
        push_totals(text, alloc, at)
    } else {
        Ok(Shown::nothing(alloc))
    }
}

/// Appends the source card of a line.
fn push_source_card(
    text: &mut String,
    cards: DeckCards<'_>,
    line: Option<&Line>,
) -> Result<(), AllocError> {
    match line {
        Some(line) => cards.push_named_card(text, "at source", usize::from(line.card), &[]),
        None => Ok(()),
    }
}

/// Appends `record 8 of ORDERS`.
fn push_record_number(
    text: &mut String,
    file: Option<&FileLine>,
    number: u32,
) -> Result<(), AllocError> {
    write!(text, "record {number} of ")?;
    push_file_name(text, file)
}

fn push_file_name(text: &mut String, file: Option<&FileLine>) -> Result<(), AllocError> {
    match file {
        Some(line) => push_name(text, line.name),
        None => text.push_str("a file"),
    }
}

// ---- a record that was read

/// Appends the record that was read last of a file, and the one before it if the record is out of sequence.
fn push_head(
    text: &mut String,
    alloc: Global,
    at: AtWork<'_>,
    slot: usize,
    number: u32,
) -> Result<Shown, AllocError> {
    let file = at.source.file_at(slot);
    text.push_str("  at ")?;
    push_record_number(text, file, number)?;
    text.push('\n')?;
    let Some(line) = file else {
        return Ok(Shown::nothing(alloc));
    };
    let marked = marks_of_head(alloc, at.code, &at.source.lines, line.name)?;
    if is_on_cards(line) {
        return Ok(Shown {
            marked,
            is_before_shown: is_out_of_sequence(at.code),
            is_after_totals: false,
            is_last_card_shown: false,
            record_before: String::new(alloc),
        });
    }
    push_records_read(text, at.evidence, at.code, &marked)?;
    Ok(Shown::nothing(alloc))
}

fn is_out_of_sequence(code: HaltCode) -> bool {
    matches!(code, HaltCode::OutOfSequence)
}

/// What is marked on a record that was read last.
fn marks_of_head(
    alloc: Global,
    code: HaltCode,
    lines: &[Line],
    file: Name,
) -> Result<Vec<Columns>, AllocError> {
    if is_out_of_sequence(code) {
        level_fields(alloc, lines, file, Sort::Match)
    } else {
        Ok(Vec::new(alloc))
    }
}

/// Appends records of a file on the pack.
fn push_records_read(
    text: &mut String,
    evidence: &Evidence,
    code: HaltCode,
    marked: &[Columns],
) -> Result<(), AllocError> {
    let Evidence::Records { last, before } = evidence else {
        return Ok(());
    };
    if let Some(record) = last {
        push_ruled(text, record, marked)?;
    }
    match before {
        Some(record) if is_out_of_sequence(code) => {
            push_named_record(text, "the record before it:", record, marked)
        }
        _ => Ok(()),
    }
}

/// Appends a line of some words, and a record.
fn push_named_record(
    text: &mut String,
    words: &str,
    record: &[u8],
    marked: &[Columns],
) -> Result<(), AllocError> {
    writeln!(text, "  {words}")?;
    push_ruled(text, record, marked)
}

// ---- a field

/// The field of a line, if it has one.
fn field_of(line: Option<&Line>) -> Option<FieldLine> {
    match line?.sheet {
        SheetLine::Input(InputLine::Field(field)) => Some(field),
        _ => None,
    }
}

/// Appends `field HOURS, positions 31 to 34 of `.
fn push_field(text: &mut String, line: Option<&Line>) -> Result<(), AllocError> {
    let Some(field) = field_of(line) else {
        return text.push_str("  a field of ");
    };
    text.push_str("  field ")?;
    push_name(text, field.name)?;
    let from = field.from;
    let to = field.to;
    if from == to {
        write!(text, ", position {from} of ")
    } else {
        write!(text, ", positions {from} to {to} of ")
    }
}

/// Appends the record of a field with its bad digits marked, unless it is the last data card.
fn push_field_record(
    text: &mut String,
    alloc: Global,
    at: AtWork<'_>,
    field: Option<FieldLine>,
) -> Result<Shown, AllocError> {
    let record = at.cycle.record_there();
    let marked = match field {
        Some(field) => bad_digits(alloc, &field, record)?,
        None => Vec::new(alloc),
    };
    if at.is_last_card(record) {
        return Ok(Shown {
            marked,
            is_before_shown: false,
            is_after_totals: false,
            is_last_card_shown: false,
            record_before: String::new(alloc),
        });
    }
    push_ruled(text, record, &marked)?;
    Ok(Shown::nothing(alloc))
}

// ---- a record that is sought

/// Appends what a CHAIN seeks.
fn push_sought(text: &mut String, at: AtWork<'_>) -> Result<(), AllocError> {
    let Some(sought) = at.cycle.sought_there() else {
        return Ok(());
    };
    match &sought {
        Sought::Key(key) => {
            text.push_str("  the key '")?;
            push_characters(text, key)?;
            text.push('\'')?;
        }
        Sought::RecordNumber(number) => write!(text, "  record number {number}")?,
    }
    text.push_str(" was sought in ")?;
    push_file_name(text, file_there(at))?;
    text.push('\n')
}

/// The file at which a program is.
fn file_there(at: AtWork<'_>) -> Option<&FileLine> {
    at.source.file_at(at.cycle.file_there()?)
}

/// Appends the record that a CHAIN found, if it is of no type.
fn push_found(text: &mut String, evidence: &Evidence) -> Result<(), AllocError> {
    match evidence {
        Evidence::Records {
            last: Some(record),
            before: _,
        } => push_named_record(text, "the record that was found:", record, &[]),
        _ => Ok(()),
    }
}

// ---- a record that is written

/// Appends the record that the output line at a place writes with its key marked, and the one with which it is compared.
fn push_put(
    text: &mut String,
    at: AtWork<'_>,
    file: Option<&FileLine>,
    place: usize,
) -> Result<(), AllocError> {
    let mark = key_columns(file);
    let record = at.cycle.record_there();
    if matches!(at.code, HaltCode::NothingToUpdate) || record.is_empty() {
        return Ok(());
    }
    push_keyed_record(text, words_of_put(at.code), record, mark)?;
    match at.evidence {
        Evidence::Records {
            last: _,
            before: Some(record),
        } if is_compared(at.code, at.source, file, place) => {
            push_keyed_record(text, words_of_before(at.code), record, mark)
        }
        _ => Ok(()),
    }
}

/// Whether the record before the one that the output line at a place writes is the one that it is compared with: the last one of a load,
/// one that was chained, or at detail time the one that was read last.
fn is_compared(code: HaltCode, source: &Source, file: Option<&FileLine>, place: usize) -> bool {
    if !matches!(code, HaltCode::KeyChanged) {
        return true;
    }
    match file {
        Some(line) if line.is_chained() => true,
        _ => source.is_at_detail_time(place),
    }
}

/// Appends a line of some words, and a record with its key marked, if it has one.
fn push_keyed_record(
    text: &mut String,
    words: &str,
    record: &[u8],
    key: Option<Columns>,
) -> Result<(), AllocError> {
    match key {
        Some(columns) => push_named_record(text, words, record, &[columns]),
        None => push_named_record(text, words, record, &[]),
    }
}

/// The place of the key of a file in its records.
fn key_columns(file: Option<&FileLine>) -> Option<Columns> {
    let key = file?.key?;
    let from = usize::from(key.start);
    Some(Columns {
        from,
        to: (from + usize::from(key.length)).saturating_sub(1),
    })
}

fn words_of_put(code: HaltCode) -> &'static str {
    if matches!(code, HaltCode::KeyChanged) {
        "what was to be put into it:"
    } else {
        "the record that was to be put out:"
    }
}

fn words_of_before(code: HaltCode) -> &'static str {
    if matches!(code, HaltCode::KeyChanged) {
        "the record as the file has it:"
    } else {
        "the last record of the file:"
    }
}
