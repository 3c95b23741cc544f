//! What the lines of a source define: the first definition of each name counts.

ghost use Rattle.std.specs.Prelude.{◌≡◌, ◌++◌, IfOk, IsTrue, OnOk, filter_map, option_map};
ghost use Rattle.std.specs.Option.{option_to_list};
ghost use Rattle.s3_meaning.specs.Source.{calculation_line, input_line, reserved_shapes};
ghost use Rattle.s3_program.specs.Inner.Given.{all_noted, firsts};
ghost use Rattle.s3_program.specs.Redefined.{is_date as is_date_spec, shape_of_field as shape_of_field_spec};
ghost use Rattle.s3_lines.specs.Inner.Ranges.{are_read, in_range};
ghost use Rattle.s3_diagnose.specs.Inner.Ranged.{is_ranged_field};
ghost use Rattle.s3_diagnose.specs.Lookups.{fields_given, input_given, result_given};
ghost use Rattle.s3_compile.specs.Inner.Noted.{field_on, result_on};
ghost use Rattle.s3_blame.specs.Inner.Names.{decimals_differ, decimals_of as decimals_of_spec, differ as differ_spec, length_differs, length_of as length_of_spec, subroutine_on, tag_on};

use indexmap::IndexMap;
use s3_cards::Name;
use s3_lines::is_reserved;
use s3_lines::reserved::{PAGE, UDATE, UDAY, UMONTH, UYEAR};
use s3_lines::sheet::{
    CalculationLine, Factor, FieldForm, FieldLine, FileLine, InputLine, Line, Operation, Shape,
    SheetLine,
};
use s3_program::defining::{files_defined, note};
use s3_program::program::Kind;
use std::alloc::{AllocError, Global};

/// What the lines of a source define.
#[derive(Drop)]
pub struct Known {
    files: IndexMap<Name, FileLine>,
    fields: IndexMap<Name, Shape>,
    /// The cards of the TAG lines.
    tags: IndexMap<Name, u16>,
    /// The cards of the BEGSR lines.
    subroutines: IndexMap<Name, u16>,
}

/// The shape of a field of a record.
pub fn shape_of_field(field: &FieldLine) -> Shape
    ensures { IsTrue (is_ranged_field field.now) → result ≡ shape_of_field_spec field.now }
{
    let positions = field.to.saturating_sub(field.from).saturating_add(1);
    match field.form {
        FieldForm::Alphanumeric | FieldForm::PackedText => Shape::Alphanumeric(positions),
        FieldForm::Zoned(decimals) => Shape::Numeric(positions.min(255) as u8, decimals),
        FieldForm::Packed(decimals) => {
            let digits = positions.saturating_mul(2).saturating_sub(1);
            Shape::Numeric(digits.min(255) as u8, decimals)
        }
    }
}

/// The length of a shape: digits, or characters.
fn length_of(shape: Shape) -> usize
    ensures { result ≡ length_of_spec shape }
{
    match shape {
        Shape::Numeric(digits, _) => usize::from(digits),
        Shape::Alphanumeric(length) => usize::from(length),
    }
}

/// The decimals of a number; a text has none.
fn decimals_of(shape: Shape) -> Option<u8>
    ensures { result ≡ decimals_of_spec shape }
{
    match shape {
        Shape::Numeric(_, decimals) => Some(decimals),
        Shape::Alphanumeric(_) => None,
    }
}

fn differ(one: Option<u8>, other: Option<u8>) -> bool
    ensures { result ≡ differ_spec one other }
{
    match (one, other) {
        (None, None) => false,
        (Some(one), Some(other)) => one != other,
        _ => true,
    }
}

/// Whether the length, and whether the decimals, of a shape are otherwise than those of the first one. A text has no decimals.
fn differences(first: Shape, shape: Shape) -> (bool, bool)
    ensures { result ≡ (length_differs first shape, decimals_differ first shape) }
{
    (
        length_of(first) != length_of(shape),
        differ(decimals_of(first), decimals_of(shape)),
    )
}

/// The length of a field of a record.
fn field_length(field: &FieldLine) -> usize
    ensures { result ≡ length_of_spec (shape_of_field_spec field.now) }
{
    let positions = (usize::from(field.to) + 1).saturating_sub(usize::from(field.from));
    match field.form {
        FieldForm::Alphanumeric | FieldForm::PackedText | FieldForm::Zoned(_) => positions,
        FieldForm::Packed(_) => (2 * positions).saturating_sub(1),
    }
}

/// The decimals of a field of a record; a text has none.
fn field_decimals(field: &FieldLine) -> Option<u8>
    ensures { result ≡ decimals_of_spec (shape_of_field_spec field.now) }
{
    match field.form {
        FieldForm::Alphanumeric | FieldForm::PackedText => None,
        FieldForm::Zoned(decimals) | FieldForm::Packed(decimals) => Some(decimals),
    }
}

/// Whether the length, and whether the decimals, of a field of a record are otherwise than those of the first shape.
fn field_differences(first: Shape, field: &FieldLine) -> (bool, bool)
    ensures { result ≡ (length_differs first (shape_of_field_spec field.now), decimals_differ first (shape_of_field_spec field.now)) }
{
    (
        length_of(first) != field_length(field),
        differ(decimals_of(first), field_decimals(field)),
    )
}

/// Whether a name is UDATE, UMONTH, UDAY or UYEAR.
pub fn is_date(name: Name) -> bool
    ensures { result ≡ is_date_spec name }
{
    is_reserved(&name) && name != PAGE
}

/// The name of a TAG line.
fn tag_of(line: &Line) -> Option<Name>
    ensures { option_map (λ name. (name, line.now.card)) result ≡ tag_on line.now }
{
    let SheetLine::Calculation(line) = &line.sheet else {
        return None;
    };
    match (line.operation, line.factor1) {
        (Some(Operation::Tag), Some(Factor::Named(name))) => Some(name),
        _ => None,
    }
}

/// The name of a BEGSR line.
fn subroutine_of(line: &Line) -> Option<Name>
    ensures { option_map (λ name. (name, line.now.card)) result ≡ subroutine_on line.now }
{
    let SheetLine::Calculation(line) = &line.sheet else {
        return None;
    };
    match (line.operation, line.factor1) {
        (Some(Operation::BeginSubroutine), Some(Factor::Named(name))) => Some(name),
        _ => None,
    }
}

/// Adds the card of a line under the name that the line defines.
#[tactic(auto, unfolding(s3_program::specs::Inner::Given::all_noted))]
fn note_card(
    table: &mut IndexMap<Name, u16>,
    name: Option<Name>,
    card: u16,
) -> Result<(), AllocError>
    ensures { OnOk result (table.new.entries ≡ all_noted table.old.entries (option_to_list (option_map (λ name. (name, card)) name))) }
{
    if let Some(name) = name {
        note(table, name, card)?;
    }
    Ok(())
}

/// The tags, each with the card of its first TAG line.
fn tags_defined(alloc: Global, lines: &[Line]) -> Result<IndexMap<Name, u16>, AllocError>
    ensures { IfOk result (λ table. table.entries ≡ firsts (filter_map tag_on lines.now)) }
{
    let mut table = IndexMap::new(alloc);
    for line in lines {
        note_card(&mut table, tag_of(line), line.card)?;
    }
    Ok(table)
}

/// The subroutines, each with the card of its first BEGSR line.
fn subroutines_defined(alloc: Global, lines: &[Line]) -> Result<IndexMap<Name, u16>, AllocError>
    ensures { IfOk result (λ table. table.entries ≡ firsts (filter_map subroutine_on lines.now)) }
{
    let mut table = IndexMap::new(alloc);
    for line in lines {
        note_card(&mut table, subroutine_of(line), line.card)?;
    }
    Ok(table)
}

/// Adds the fields that the language has itself.
#[tactic(auto, unfolding(s3_program::specs::Inner::Given::all_noted))]
fn note_reserved(table: &mut IndexMap<Name, Shape>) -> Result<(), AllocError>
    ensures { OnOk result (table.new.entries ≡ all_noted table.old.entries reserved_shapes) }
{
    note(table, PAGE, Shape::Numeric(4, 0))?;
    note(table, UDATE, Shape::Numeric(6, 0))?;
    note(table, UMONTH, Shape::Numeric(2, 0))?;
    note(table, UDAY, Shape::Numeric(2, 0))?;
    note(table, UYEAR, Shape::Numeric(2, 0))?;
    Ok(())
}

/// Adds the field of a line in a record.
#[tactic(auto, using(crate::proofs::NameLemmas::read_field), unfolding(s3_program::specs::Inner::Given::all_noted))]
fn note_field(table: &mut IndexMap<Name, Shape>, line: &Line) -> Result<(), AllocError>
    ensures { OnOk result (IsTrue (in_range line.now.sheet) → table.new.entries ≡ all_noted table.old.entries (field_on line.now)) }
{
    if let SheetLine::Input(InputLine::Field(field)) = &line.sheet {
        note(table, field.name, shape_of_field(field))?;
    }
    Ok(())
}

/// Adds the result of a C line that has an operation and a length.
#[tactic(auto, unfolding(s3_program::specs::Inner::Given::all_noted))]
fn note_result(table: &mut IndexMap<Name, Shape>, line: &Line) -> Result<(), AllocError>
    ensures { OnOk result (table.new.entries ≡ all_noted table.old.entries (result_on line.now)) }
{
    if let SheetLine::Calculation(line) = &line.sheet {
        if let (Some(_), Some(name), Some(shape)) = (line.operation, line.result, line.definition) {
            note(table, name, shape)?;
        }
    }
    Ok(())
}

/// Adds the fields of records.
#[tactic(auto, unfolding(s3_program::specs::Inner::Given::all_noted))]
fn note_fields(table: &mut IndexMap<Name, Shape>, lines: &[Line]) -> Result<(), AllocError>
    ensures { OnOk result (IsTrue (are_read lines.now) → table.new.entries ≡ all_noted table.old.entries (filter_map input_given (filter_map input_line lines.now))) }
{
    for line in lines {
        note_field(table, line)?;
    }
    Ok(())
}

/// Adds the results that C lines define.
#[tactic(auto, unfolding(s3_program::specs::Inner::Given::all_noted))]
fn note_results(table: &mut IndexMap<Name, Shape>, lines: &[Line]) -> Result<(), AllocError>
    ensures { OnOk result (table.new.entries ≡ all_noted table.old.entries (filter_map result_given (filter_map calculation_line lines.now))) }
{
    for line in lines {
        note_result(table, line)?;
    }
    Ok(())
}

/// The fields, each with the shape of its first definition. Fields of records take precedence over results, and those of the language
/// over both.
fn fields_defined(alloc: Global, lines: &[Line]) -> Result<IndexMap<Name, Shape>, AllocError>
    ensures { IfOk result (λ table. IsTrue (are_read lines.now) → table.entries ≡ firsts (reserved_shapes ++ fields_given lines.now)) }
{
    let mut table = IndexMap::new(alloc);
    note_reserved(&mut table)?;
    note_fields(&mut table, lines)?;
    note_results(&mut table, lines)?;
    Ok(table)
}

impl Known {
    ghost use Rattle.std.specs.Prelude.{◌≡◌, IfOk, OnOk};
    ghost use Rattle.std.specs.Prelude.{None, Some};
    ghost use Rattle.s3_program.specs.Tables.{found_in};
    ghost use Rattle.s3_diagnose.specs.Lookups.{result_given};
    ghost use Rattle.s3_blame.specs.Inner.Names.{Knows, is_known, is_otherwise, names_known};

    /// What some lines define. It is refused only if memory runs out.
    pub fn of(alloc: Global, lines: &[Line]) -> Result<Known, AllocError>
        ensures { IfOk result (λ known. Knows lines.now known) }
    {
        let mut known = Known {
            files: IndexMap::new(alloc),
            fields: IndexMap::new(alloc),
            tags: IndexMap::new(alloc),
            subroutines: IndexMap::new(alloc),
        };
        known.define(alloc, lines)?;
        Ok(known)
    }

    /// Takes what lines define in place of what it knew.
    fn define(&mut self, alloc: Global, lines: &[Line]) -> Result<(), AllocError>
        ensures { OnOk result (Knows lines.now self.new) }
    {
        self.files = files_defined(alloc, lines)?;
        self.fields = fields_defined(alloc, lines)?;
        self.tags = tags_defined(alloc, lines)?;
        self.subroutines = subroutines_defined(alloc, lines)?;
        Ok(())
    }

    /// Whether a name is defined as the name of a file, a field, a tag or a subroutine.
    pub(crate) fn defines(&self, kind: Kind, name: Name) -> bool
        ensures { result ≡ is_known self.now kind name }
    {
        match kind {
            Kind::File => self.files.contains_key(&name),
            Kind::Field => self.fields.contains_key(&name),
            Kind::Tag => self.tags.contains_key(&name),
            Kind::Subroutine => self.subroutines.contains_key(&name),
        }
    }

    /// The first F line of a name.
    pub fn file(&self, name: Name) -> Option<FileLine>
        ensures { result ≡ found_in self.now.files.entries name }
    {
        self.files.get(&name).copied()
    }

    /// The shape of a field, by its first definition.
    pub fn field(&self, name: Name) -> Option<Shape>
        ensures { result ≡ found_in self.now.fields.entries name }
    {
        self.fields.get(&name).copied()
    }

    /// Whether the length, and whether the decimals, of a field of a record differ from its first definition. For a date field both are
    /// false.
    pub(crate) fn field_redefined(&self, field: &FieldLine) -> (bool, bool)
        ensures { result ≡ (is_otherwise length_differs (names_known self.now) (Some (field.now.name, shape_of_field_spec field.now)), is_otherwise decimals_differ (names_known self.now) (Some (field.now.name, shape_of_field_spec field.now))) }
    {
        if is_date(field.name) {
            return (false, false);
        }
        match self.field(field.name) {
            Some(first) => field_differences(first, field),
            None => (false, false),
        }
    }

    /// Whether the length, and whether the decimals, of the result that a line defines differ from its first definition. For a date field
    /// both are false.
    pub(crate) fn result_redefined(&self, line: &CalculationLine) -> (bool, bool)
        ensures { result ≡ (is_otherwise length_differs (names_known self.now) (result_given line.now), is_otherwise decimals_differ (names_known self.now) (result_given line.now)) }
    {
        let (Some(_), Some(name), Some(shape)) = (line.operation, line.result, line.definition)
        else {
            return (false, false);
        };
        if is_date(name) {
            return (false, false);
        }
        match self.field(name) {
            Some(first) => differences(first, shape),
            None => (false, false),
        }
    }

    /// The card of the first TAG of a name.
    pub fn tag(&self, name: Name) -> Option<u16>
        ensures { result ≡ found_in self.now.tags.entries name }
    {
        self.tags.get(&name).copied()
    }

    /// The card of the first BEGSR of a name.
    pub fn subroutine(&self, name: Name) -> Option<u16>
        ensures { result ≡ found_in self.now.subroutines.entries name }
    {
        self.subroutines.get(&name).copied()
    }
}
