//! The layout that a source describes.
ghost use Rattle.std.specs.Prelude.{◌≡◌, ◌≢◌, ◌<◌, ◌≤◌, [], length, slice_range, IfOk};
ghost use Rattle.s3_sheets.specs.Lines.{lines_of};
ghost use Rattle.s3_sheets.specs.Sheets.{sheet_diagnostics};
ghost use Rattle.s3_layout.specs.Inner.Columns.{AreFieldsOf};
ghost use Rattle.s3_layout.specs.Inner.Layouts.{AreTypesOf, IsLayoutOf, IsWholeOf};
ghost use Rattle.s3_layout.specs.Inner.Refusals.{Refuses, card_refusal, fields_refusal, layout_refusal, of_cards, types_refusal, whole_refusal};

use crate::choosing::{Choice, chosen_file};
use crate::columns::fields_of;
use crate::entries::{chosen_type, entries_meant, test_type, types_of};
use crate::fault::LayoutFault;
use crate::kinds::chosen_records;
use s3_cards::{Deck, Name};
use s3_cells::{Field, Layout};
use s3_lines::Diagnostic;
use s3_lines::indicator::Indicator;
use s3_lines::sheet::{FieldLine, KeyField, Line};
use s3_record_types::ChosenRecords;
use s3_sheets::{SheetFault, read_sheets};
use std::alloc::Global;

/// How the records of a file are laid out, where their key lies, and which of them are meant.
#[derive(Drop)]
pub struct SourceLayout {
    /// The records: their length by the F sheet, and the fields of the I sheet in the order of their cards, at least one; of whole records
    /// none.
    pub layout: Layout,
    /// The place of the key, if the file is addressed by keys and has an index.
    pub key: Option<KeyField>,
    /// The records of the named type; all records of the file if no type is named.
    pub records: ChosenRecords,
}

/// The lines of the source on these cards of a deck, from place `from` up to but without `to`.
fn lines_read(alloc: Global, deck: &Deck, from: usize, to: usize) -> Result<Vec<Line>, LayoutFault>
    requires order { from ≤ to }
    requires within { to ≤ length deck.now }
    ensures lines { IfOk result (λ lines. lines.items ≡ lines_of from (slice_range deck.now from to)) }
    ensures refused { Refuses (card_refusal (sheet_diagnostics from (slice_range deck.now from to))) result }
{
    match read_sheets(alloc, deck, from, to) {
        Ok(lines) => Ok(lines),
        Err(SheetFault::NoMemory) => Err(LayoutFault::NoMemory),
        Err(SheetFault::Diagnostics(found)) => Err(first_fault(&found)),
    }
}

/// The first fault of cards, which have one.
fn first_fault(found: &[Diagnostic]) -> LayoutFault
    requires { 0 < length found.now }
    ensures { card_refusal found.now ≡ Some result }
{
    let first = found[0];
    LayoutFault::Card {
        card: first.card,
        number: first.number,
    }
}

/// The layout of records that the source on these cards of a deck describes, from place `from` up to but without `to`. It has the
/// fields that are taken for the type of records that is named, or for the only one.
///
/// It is refused for the first of these reasons that applies: the first diagnostic of a card (`Card`); the file (`NoFile`,
/// `SeveralFiles`, `OtherFile`); the type (`SeveralTypes`, `OtherType`); the first line of a field whose form no program can have
/// (`NoForm`), or whose name a field above has (`Twice`); no field (`NoFields`). It is also refused if memory runs out.
pub fn read_layout(
    alloc: Global,
    deck: &Deck,
    from: usize,
    to: usize,
    choice: Choice,
) -> Result<SourceLayout, LayoutFault>
    requires order { from ≤ to }
    requires within { to ≤ length deck.now }
    ensures layout { IfOk result (IsLayoutOf choice (lines_of from (slice_range deck.now from to))) }
    ensures refused { Refuses (of_cards from (slice_range deck.now from to) (layout_refusal choice)) result }
{
    let lines = lines_read(alloc, deck, from, to)?;
    layout_of(alloc, &lines, choice)
}

/// The layout that lines describe.
fn layout_of(alloc: Global, lines: &[Line], choice: Choice) -> Result<SourceLayout, LayoutFault>
    ensures layout { IfOk result (IsLayoutOf choice lines.now) }
    ensures refused { Refuses (layout_refusal choice lines.now) result }
{
    let file = chosen_file(alloc, lines, choice.file)?;
    let record_type = chosen_type(alloc, lines, file.name, choice.record_type)?;
    let entries = entries_meant(alloc, lines, file.name, record_type)?;
    let fields = some_fields(alloc, &entries, file.record_length)?;
    let records = chosen_records(alloc, lines, file.name, choice.record_type)?;
    Ok(SourceLayout {
        layout: Layout {
            record_length: file.record_length,
            fields,
        },
        key: file.key,
        records,
    })
}

/// The fields of these lines, of which there is one at least.
fn some_fields(
    alloc: Global,
    entries: &[FieldLine],
    record_length: u16,
) -> Result<Vec<Field>, LayoutFault>
    ensures fields { IfOk result (λ fields. AreFieldsOf record_length entries.now fields.items) }
    ensures some { IfOk result (λ fields. fields.items ≢ []) }
    ensures refused { Refuses (fields_refusal record_length entries.now) result }
{
    if entries.is_empty() {
        return Err(LayoutFault::NoFields);
    }
    fields_of(alloc, entries, record_length)
}

/// The whole records of the file that is chosen, of the type that is named, or of all types: their length and their key, by the source on
/// these cards of a deck, from place `from` up to but without `to`. The source may have several types, and needs no fields.
///
/// It is refused for the first of these reasons that applies: the first diagnostic of a card (`Card`); the file (`NoFile`,
/// `SeveralFiles`, `OtherFile`); the type that is named (`OtherType`). It is also refused if memory runs out.
pub fn read_whole(
    alloc: Global,
    deck: &Deck,
    from: usize,
    to: usize,
    choice: Choice,
) -> Result<SourceLayout, LayoutFault>
    requires order { from ≤ to }
    requires within { to ≤ length deck.now }
    ensures layout { IfOk result (IsWholeOf choice (lines_of from (slice_range deck.now from to))) }
    ensures refused { Refuses (of_cards from (slice_range deck.now from to) (whole_refusal choice)) result }
{
    let lines = lines_read(alloc, deck, from, to)?;
    whole_of(alloc, &lines, choice)
}

/// The whole records that lines describe.
fn whole_of(alloc: Global, lines: &[Line], choice: Choice) -> Result<SourceLayout, LayoutFault>
    ensures layout { IfOk result (IsWholeOf choice lines.now) }
    ensures refused { Refuses (whole_refusal choice lines.now) result }
{
    let file = chosen_file(alloc, lines, choice.file)?;
    test_type(alloc, lines, file.name, choice.record_type)?;
    let records = chosen_records(alloc, lines, file.name, choice.record_type)?;
    Ok(SourceLayout {
        layout: Layout {
            record_length: file.record_length,
            fields: Vec::new(alloc),
        },
        key: file.key,
        records,
    })
}

/// The record types of a file that the source on these cards of a deck describes, from place `from` up to but without `to`: their
/// indicators, in the order of their lines. The file is the one on disk of a name, or without a name the only one.
///
/// It is refused for the first diagnostic of a card (`Card`), else for the file (`NoFile`, `SeveralFiles`, `OtherFile`), and if memory
/// runs out.
pub fn read_types(
    alloc: Global,
    deck: &Deck,
    from: usize,
    to: usize,
    file: Option<Name>,
) -> Result<Vec<Indicator>, LayoutFault>
    requires order { from ≤ to }
    requires within { to ≤ length deck.now }
    ensures types { IfOk result (AreTypesOf file (lines_of from (slice_range deck.now from to))) }
    ensures refused { Refuses (of_cards from (slice_range deck.now from to) (types_refusal file)) result }
{
    let lines = lines_read(alloc, deck, from, to)?;
    types_in(alloc, &lines, file)
}

/// The record types of a file that lines describe.
fn types_in(
    alloc: Global,
    lines: &[Line],
    file: Option<Name>,
) -> Result<Vec<Indicator>, LayoutFault>
    ensures types { IfOk result (AreTypesOf file lines.now) }
    ensures refused { Refuses (types_refusal file lines.now) result }
{
    let file = chosen_file(alloc, lines, file)?;
    let types = types_of(alloc, lines, file.name)?;
    Ok(types)
}
