//! What a program has: its files, fields, indicators, tags and subroutines, as lists of objects.
ghost use Rattle.std.specs.Prelude.{◌≡◌, [], IfOk};
ghost use Rattle.s3_deck_json.specs.Inner.Objects.{file_object_json, key_length_json, key_start_json};
ghost use Rattle.s3_json_lines.specs.Inner.Values.{cell_json, json_of};

use crate::names::{characters_of, field_value, indicator_value, label_value};
use s3_blame::Known;
use s3_json_lines::{Cell, Value, object};
use s3_lines::sheet::{FileLine, KeyField, Line, SheetLine};
use s3_source_listing::{Indicators, Names, Sort, indicators_of, names_of, words_of_use};
use std::alloc::{AllocError, Global};

/// What a program has, as lists of objects.
#[derive(Drop)]
pub struct Tables {
    /// Its files.
    pub files: Vec<Value>,
    /// Its fields.
    pub fields: Vec<Value>,
    /// Its indicators.
    pub indicators: Vec<Value>,
    /// Its tags, and then its subroutines.
    pub labels: Vec<Value>,
}

impl Tables {
    /// Empty lists.
    pub fn none(alloc: Global) -> Tables
        ensures files { result.files.items ≡ [] }
        ensures fields { result.fields.items ≡ [] }
        ensures indicators { result.indicators.items ≡ [] }
        ensures labels { result.labels.items ≡ [] }
    {
        Tables {
            files: Vec::new(alloc),
            fields: Vec::new(alloc),
            indicators: Vec::new(alloc),
            labels: Vec::new(alloc),
        }
    }

    /// What the lines of a program have.
    pub fn of(alloc: Global, lines: &[Line]) -> Result<Tables, AllocError> {
        let mut tables = Tables::none(alloc);
        tables.add(alloc, lines)?;
        Ok(tables)
    }

    /// Adds what lines have. The caller owns the lists, so that no early return here drops them.
    fn add(&mut self, alloc: Global, lines: &[Line]) -> Result<(), AllocError> {
        add_files(alloc, &mut self.files, lines)?;
        add_fields(alloc, &mut self.fields, lines)?;
        add_indicators(alloc, &mut self.indicators, lines)?;
        add_labels(alloc, &mut self.labels, lines, Sort::Tag, "tag")?;
        add_labels(
            alloc,
            &mut self.labels,
            lines,
            Sort::Subroutine,
            "subroutine",
        )
    }
}

/// Adds the files of lines.
fn add_files(alloc: Global, values: &mut Vec<Value>, lines: &[Line]) -> Result<(), AllocError> {
    let names = names_of(alloc, lines, Sort::File)?;
    let added = add_named_files(alloc, values, &names, lines);
    drop(names);
    added
}

/// Adds the files of lines, given the cards of their names.
fn add_named_files(
    alloc: Global,
    values: &mut Vec<Value>,
    names: &Names,
    lines: &[Line],
) -> Result<(), AllocError> {
    for line in lines {
        add_file(alloc, values, names, line)?;
    }
    Ok(())
}

/// Adds the file of a line, if the line is one of the F sheet.
fn add_file(
    alloc: Global,
    values: &mut Vec<Value>,
    names: &Names,
    line: &Line,
) -> Result<(), AllocError> {
    let SheetLine::File(file) = &line.sheet else {
        return Ok(());
    };
    let cards: &[u16] = match names.get(&file.name) {
        Some(cards) => &cards.all,
        None => &[],
    };
    let name = characters_of(alloc, file.name)?;
    values.push(file_object(alloc, name.as_str(), words_of_use(file), file, cards)?)?;
    Ok(())
}

/// Where the key of a file begins, or null without a key.
fn key_start_cell<'a>(key: Option<KeyField>) -> Cell<'a>
    ensures { cell_json result ≡ key_start_json key }
{
    match key {
        Some(key) => Cell::Number(u64::from(key.start)),
        None => Cell::Nothing,
    }
}

/// How long the key of a file is, or null without a key.
fn key_length_cell<'a>(key: Option<KeyField>) -> Cell<'a>
    ensures { cell_json result ≡ key_length_json key }
{
    match key {
        Some(key) => Cell::Number(u64::from(key.length)),
        None => Cell::Nothing,
    }
}

/// A file as an object.
fn file_object<'a>(
    alloc: Global,
    name: &'a str,
    words_of_use: &'a str,
    file: &FileLine,
    cards: &'a [u16],
) -> Result<Value, AllocError>
    ensures { IfOk result (λ value. json_of value ≡ file_object_json name.now words_of_use.now file.now.record_length file.now.key cards.now) }
{
    object(
        alloc,
        &[
            ("name", Cell::Text(name)),
            ("use", Cell::Text(words_of_use)),
            ("record_length", Cell::Number(u64::from(file.record_length))),
            ("key_start", key_start_cell(file.key)),
            ("key_length", key_length_cell(file.key)),
            ("cards", Cell::Numbers(cards)),
        ],
    )
}

/// Adds the fields of lines.
fn add_fields(alloc: Global, values: &mut Vec<Value>, lines: &[Line]) -> Result<(), AllocError> {
    let known = Known::of(alloc, lines)?;
    let added = add_fields_with(alloc, values, lines, &known);
    drop(known);
    added
}

/// Adds the fields of lines, with what all of them define.
fn add_fields_with(
    alloc: Global,
    values: &mut Vec<Value>,
    lines: &[Line],
    known: &Known,
) -> Result<(), AllocError> {
    let fields = names_of(alloc, lines, Sort::Field)?;
    add_known_fields(alloc, values, known, &fields)
}

/// Adds fields, each with its shape if it is known.
fn add_known_fields(
    alloc: Global,
    values: &mut Vec<Value>,
    known: &Known,
    fields: &Names,
) -> Result<(), AllocError> {
    for place in 0..fields.len() {
        if let Some((name, cards)) = fields.get_index(place) {
            values.push(field_value(alloc, *name, known.field(*name), cards)?)?;
        }
    }
    Ok(())
}

/// Adds the indicators of lines.
fn add_indicators(
    alloc: Global,
    values: &mut Vec<Value>,
    lines: &[Line],
) -> Result<(), AllocError> {
    let indicators = indicators_of(alloc, lines)?;
    add_found_indicators(alloc, values, &indicators)
}

/// Adds indicators.
fn add_found_indicators(
    alloc: Global,
    values: &mut Vec<Value>,
    indicators: &Indicators,
) -> Result<(), AllocError> {
    for place in 0..indicators.len() {
        if let Some((indicator, cards)) = indicators.get_index(place) {
            values.push(indicator_value(alloc, *indicator, cards)?)?;
        }
    }
    Ok(())
}

/// Adds the tags or the subroutines of lines.
fn add_labels(
    alloc: Global,
    values: &mut Vec<Value>,
    lines: &[Line],
    sort: Sort,
    kind: &str,
) -> Result<(), AllocError> {
    let labels = names_of(alloc, lines, sort)?;
    add_found_labels(alloc, values, &labels, kind)
}

/// Adds tags or subroutines.
fn add_found_labels(
    alloc: Global,
    values: &mut Vec<Value>,
    labels: &Names,
    kind: &str,
) -> Result<(), AllocError> {
    for place in 0..labels.len() {
        if let Some((name, cards)) = labels.get_index(place) {
            values.push(label_value(alloc, *name, kind, cards)?)?;
        }
    }
    Ok(())
}
