//! What a program has: its files, fields, indicators, tags and subroutines, with the cards on which they are.

use crate::cards::{Cards, push_cards_behind, push_numbers};
use crate::files::words_of_use;
use crate::index::{Indicators, Names, indicators_of, names_of};
use crate::indicators::push_indicator;
use crate::names::Sort;
use s3_blame::Known;
use s3_cards::{Name, trim_end};
use s3_decks::push_characters;
use s3_lines::indicator::Indicator;
use s3_lines::sheet::{FileLine, KeyField, Line, Shape, SheetLine};
use std::alloc::{AllocError, Global};

/// Appends the tables of a source. With cross-reference each name and each indicator has all cards that name it.
pub fn push_tables(
    text: &mut String,
    alloc: Global,
    lines: &[Line],
    has_references: bool,
) -> Result<(), AllocError> {
    push_files(text, alloc, lines)?;
    push_fields(text, alloc, lines)?;
    push_indicators(text, alloc, lines)?;
    push_labels(text, alloc, lines)?;
    if has_references {
        push_references(text, alloc, lines)
    } else {
        Ok(())
    }
}

/// Appends the lines of a table under its heading; nothing if it has none.
fn push_table(text: &mut String, heading: &str, lines: &str) -> Result<(), AllocError> {
    if lines.is_empty() {
        return Ok(());
    }
    text.push('\n')?;
    text.push_str(heading)?;
    text.push('\n')?;
    text.push_str(lines)
}

/// Appends a name, and blanks after it up to so many columns.
fn push_padded(text: &mut String, name: Name, columns: usize) -> Result<(), AllocError> {
    let shown = trim_end(&name.codes);
    push_characters(text, shown)?;
    for _blank in shown.len()..columns {
        text.push(' ')?;
    }
    Ok(())
}

fn push_files(text: &mut String, alloc: Global, lines: &[Line]) -> Result<(), AllocError> {
    let mut table = String::new(alloc);
    push_file_lines(&mut table, lines)?;
    push_table(
        text,
        "files     use                                record  key",
        table.as_str(),
    )
}

fn push_file_lines(text: &mut String, lines: &[Line]) -> Result<(), AllocError> {
    for line in lines {
        if let SheetLine::File(file) = &line.sheet {
            push_file(text, file)?;
        }
    }
    Ok(())
}

fn push_file(text: &mut String, file: &FileLine) -> Result<(), AllocError> {
    let use_in_words = words_of_use(file);
    let length = file.record_length;
    push_padded(text, file.name, 10)?;
    write!(text, "{use_in_words:<35}{length:>6}")?;
    match file.key {
        Some(key) => push_key(text, key)?,
        None => {}
    }
    text.push('\n')
}

/// Appends the first and the last position of a key.
fn push_key(text: &mut String, key: KeyField) -> Result<(), AllocError> {
    let from = key.start;
    let to = from.saturating_add(u16::from(key.length)).saturating_sub(1);
    write!(text, "  {from} to {to}")
}

fn push_fields(text: &mut String, alloc: Global, lines: &[Line]) -> Result<(), AllocError> {
    let known = Known::of(alloc, lines)?;
    push_known_fields(text, alloc, lines, &known)
}

/// Appends the table of the fields of lines, with what all of them define.
fn push_known_fields(
    text: &mut String,
    alloc: Global,
    lines: &[Line],
    known: &Known,
) -> Result<(), AllocError> {
    let mut table = String::new(alloc);
    push_fields_with(&mut table, alloc, lines, known)?;
    push_table(
        text,
        "fields  kind    length  decimals  cards",
        table.as_str(),
    )
}

/// Appends the fields of lines, with what all of them define.
fn push_fields_with(
    text: &mut String,
    alloc: Global,
    lines: &[Line],
    known: &Known,
) -> Result<(), AllocError> {
    let fields = names_of(alloc, lines, Sort::Field)?;
    push_field_lines(text, known, &fields)
}

fn push_field_lines(text: &mut String, known: &Known, fields: &Names) -> Result<(), AllocError> {
    for place in 0..fields.len() {
        if let Some((name, cards)) = fields.get_index(place) {
            push_field(text, *name, known.field(*name), cards)?;
        }
    }
    Ok(())
}

fn push_field(
    text: &mut String,
    name: Name,
    shape: Option<Shape>,
    cards: &Cards,
) -> Result<(), AllocError> {
    push_padded(text, name, 8)?;
    push_shape(text, shape)?;
    push_defining_and_using(text, cards)
}

fn push_shape(text: &mut String, shape: Option<Shape>) -> Result<(), AllocError> {
    match shape {
        Some(Shape::Alphanumeric(length)) => write!(text, "text    {length:>6}            "),
        Some(Shape::Numeric(digits, decimals)) => {
            write!(text, "number  {digits:>6}  {decimals:>8}  ")
        }
        None => text.push_str("not defined               "),
    }
}

/// Appends the cards that define a name, and those that use it, and ends the line.
fn push_defining_and_using(text: &mut String, cards: &Cards) -> Result<(), AllocError> {
    push_cards_behind(text, "defined", &cards.defining)?;
    push_gap(text, cards)?;
    push_cards_behind(text, "used", &cards.using)?;
    text.push('\n')
}

/// Appends what is between cards of both kinds.
fn push_gap(text: &mut String, cards: &Cards) -> Result<(), AllocError> {
    if cards.defining.is_empty() || cards.using.is_empty() {
        return Ok(());
    }
    text.push_str("  ")
}

fn push_indicators(text: &mut String, alloc: Global, lines: &[Line]) -> Result<(), AllocError> {
    let indicators = indicators_of(alloc, lines)?;
    let mut table = String::new(alloc);
    push_indicator_lines(&mut table, &indicators)?;
    push_table(text, "indicators  cards", table.as_str())
}

fn push_indicator_lines(text: &mut String, indicators: &Indicators) -> Result<(), AllocError> {
    for place in 0..indicators.len() {
        if let Some((indicator, cards)) = indicators.get_index(place) {
            push_indicator_line(text, *indicator, cards)?;
        }
    }
    Ok(())
}

/// Appends an indicator with the cards that set it, and those that test it.
fn push_indicator_line(
    text: &mut String,
    indicator: Indicator,
    cards: &Cards,
) -> Result<(), AllocError> {
    push_indicator(text, indicator)?;
    push_setting_and_testing(text, cards)
}

/// Appends the cards that set an indicator, and those that test it, and ends the line.
fn push_setting_and_testing(text: &mut String, cards: &Cards) -> Result<(), AllocError> {
    text.push_str("          ")?;
    push_cards_behind(text, "set", &cards.defining)?;
    push_gap(text, cards)?;
    push_cards_behind(text, "tested", &cards.using)?;
    text.push('\n')
}

fn push_labels(text: &mut String, alloc: Global, lines: &[Line]) -> Result<(), AllocError> {
    let tags = names_of(alloc, lines, Sort::Tag)?;
    let mut table = String::new(alloc);
    push_labels_with(&mut table, alloc, lines, &tags)?;
    push_table(text, "tags and subroutines  cards", table.as_str())
}

/// Appends tags, and the subroutines of lines.
fn push_labels_with(
    text: &mut String,
    alloc: Global,
    lines: &[Line],
    tags: &Names,
) -> Result<(), AllocError> {
    let subroutines = names_of(alloc, lines, Sort::Subroutine)?;
    push_label_lines(text, tags, &subroutines)
}

fn push_label_lines(
    text: &mut String,
    tags: &Names,
    subroutines: &Names,
) -> Result<(), AllocError> {
    push_labels_of(text, tags, "tag           ")?;
    push_labels_of(text, subroutines, "subroutine    ")
}

fn push_labels_of(text: &mut String, names: &Names, sort: &str) -> Result<(), AllocError> {
    for place in 0..names.len() {
        if let Some((name, cards)) = names.get_index(place) {
            push_label(text, *name, sort, cards)?;
        }
    }
    Ok(())
}

fn push_label(text: &mut String, name: Name, sort: &str, cards: &Cards) -> Result<(), AllocError> {
    push_padded(text, name, 8)?;
    text.push_str(sort)?;
    push_defining_and_using(text, cards)
}

/// Appends each name and each indicator of lines with all cards that name it.
fn push_references(text: &mut String, alloc: Global, lines: &[Line]) -> Result<(), AllocError> {
    let mut table = String::new(alloc);
    push_reference_lines(&mut table, alloc, lines)?;
    push_table(text, "cross-reference       cards", table.as_str())
}

fn push_reference_lines(
    text: &mut String,
    alloc: Global,
    lines: &[Line],
) -> Result<(), AllocError> {
    push_names(text, alloc, lines, Sort::File)?;
    push_names(text, alloc, lines, Sort::Field)?;
    push_names(text, alloc, lines, Sort::Tag)?;
    push_names(text, alloc, lines, Sort::Subroutine)?;
    let indicators = indicators_of(alloc, lines)?;
    push_all_indicators(text, &indicators)
}

/// The kind of a name, as a column of words.
fn words_of_sort(sort: Sort) -> &'static str {
    match sort {
        Sort::File => "file        ",
        Sort::Field => "field       ",
        Sort::Tag => "tag         ",
        Sort::Subroutine => "subroutine  ",
    }
}

/// Appends the names of a sort with all cards that name them.
fn push_names(
    text: &mut String,
    alloc: Global,
    lines: &[Line],
    sort: Sort,
) -> Result<(), AllocError> {
    let names = names_of(alloc, lines, sort)?;
    push_name_lines(text, &names, words_of_sort(sort))
}

fn push_name_lines(text: &mut String, names: &Names, words: &str) -> Result<(), AllocError> {
    for place in 0..names.len() {
        if let Some((name, cards)) = names.get_index(place) {
            push_name_with_all(text, *name, words, cards)?;
        }
    }
    Ok(())
}

fn push_name_with_all(
    text: &mut String,
    name: Name,
    words: &str,
    cards: &Cards,
) -> Result<(), AllocError> {
    push_padded(text, name, 10)?;
    text.push_str(words)?;
    push_numbers(text, &cards.all)?;
    text.push('\n')
}

fn push_all_indicators(text: &mut String, indicators: &Indicators) -> Result<(), AllocError> {
    for place in 0..indicators.len() {
        if let Some((indicator, cards)) = indicators.get_index(place) {
            push_indicator(text, *indicator)?;
            push_indicator_with_all(text, cards)?;
        }
    }
    Ok(())
}

fn push_indicator_with_all(text: &mut String, cards: &Cards) -> Result<(), AllocError> {
    text.push_str("        indicator   ")?;
    push_numbers(text, &cards.all)?;
    text.push('\n')
}
