//! Sentences of refusals of `load`: what is wrong, where, and what mends it.

use crate::cell_sentences::push_cell_fault;
use crate::filled::{Words, push_name};
use crate::pack_words::{DAMAGED, NO_LABEL, label_words, mount_words};
use s3_cards::{LevelId, Name, host_byte};
use s3_cells::{Field, place_without_character};
use s3_labels::{Area, LabelFault, Organization};
use s3_lines::indicator::Indicator;
use s3_lines::sheet::{CodePart, RecordCode};
use s3_load::{HeadingFault, LoadFault, Reason, Shape, ValueFault};
use s3_record_types::TypeFault;
use s3_refusals::{Shown, begins_as_pack, wide_text};
use std::alloc::{AllocError, Global};

/// The characters that other programs put between the cells of a table, each with what to report if a table has it.
const DELIMITER_CURES: [(u8, &str); 3] = [
    (
        b'\t',
        "if a tab is between the cells, give --delimiter \"$(printf '\\t')\"",
    ),
    (b';', "if ; is between the cells, give --delimiter ';'"),
    (b'|', "if | is between the cells, give --delimiter '|'"),
];

/// The refusal of a table that is too long.
pub const TOO_LONG: &str =
    "standard input has more than 268,435,456 bytes, and a pack can't hold so large a table; see what the < or the pipe gives, or load the table in parts, the further ones by --append";

/// How many bytes of a pack's header are looked at.
const HEADER_BEGINNING: usize = 16;

/// The refusal of a pack in the place of a table.
const PACK_AS_TABLE: &str =
    "standard input is a pack, not a table; give the table in CSV, as `bureau unload` prints it, or copy a file of that pack by `bureau copy`";

/// How many characters of a cell are shown.
const MOST_SHOWN: usize = 40;

/// Why a table isn't loaded, by the bytes with which it begins, and what helps: it is a pack, or it has two or four bytes a character;
/// `None` for any other table.
pub fn table_sentence(alloc: Global, table: &[u8]) -> Result<Option<String>, AllocError> {
    if is_pack(table) {
        return Ok(Some(String::from_str(alloc, PACK_AS_TABLE)?));
    }
    let Some(wide) = wide_text(table) else {
        return Ok(None);
    };
    let (family, name) = (wide.family(), wide.name());
    Ok(Some(format!(in alloc;
        "the table is in {family}; save it as CSV in UTF-8, or convert it by `iconv -f {name} -t UTF-8 TABLE > NEW`"
    )?))
}

/// Whether an input is a pack: it begins as one, and the header of a pack has zeros, which no text has.
pub fn is_pack(input: &[u8]) -> bool {
    begins_as_pack(input)
        && input.len() >= HEADER_BEGINNING
        && input[..HEADER_BEGINNING].contains(&0)
}

/// Why a label can't be used by a load.
fn load_label_words(fault: LabelFault) -> &'static str {
    match fault {
        LabelFault::Master => "a master of {path} has the label {label}; load under another label",
        LabelFault::Retained =>
            "{label} in area {area} of {path} is there and permanent; delete it first by `bureau delete --permanent`, add the records after its own by --append, or load under another label",
        _ => label_words(fault),
    }
}

/// Why a file has no space for the records of a table, made for it or there before.
fn full_sentence(
    alloc: Global,
    label: &str,
    appends: bool,
    room: u32,
    records: u64,
) -> Result<String, AllocError> {
    let cure = if appends {
        "unload it, delete it, and load all of its records with more space by --records or --tracks"
    } else {
        "ask for more by --records or --tracks"
    };
    format!(in alloc;
        "the file {label} has space for {room} records and would have {records}; {cure}"
    )
}

/// Why a file isn't replaced that has so many records of other types than the chosen one.
pub fn other_types_sentence(alloc: Global, label: &str, others: u32) -> Result<String, AllocError> {
    let records = if others == 1 {
        "record of another type, which"
    } else {
        "records of other types, which"
    };
    format!(in alloc;
        "the file {label} that is there has {others} {records} would be lost; add the records of the table by --append, or replace the whole file by --drop-types"
    )
}

/// Why a file that has so many records isn't replaced by one without records.
pub fn emptied_sentence(alloc: Global, label: &str, records: u32) -> Result<String, AllocError> {
    let records_are = if records == 1 {
        "record, which"
    } else {
        "records, which"
    };
    format!(in alloc;
        "the table has no rows, and the file {label} that is there has {records} {records_are} would be lost; see what made the table, or give --empty"
    )
}

/// Why a file isn't replaced by one of another shape.
fn shape_sentence(
    alloc: Global,
    label: &str,
    old: Shape,
    new: Shape,
) -> Result<String, AllocError> {
    let mut text = String::new(alloc);
    write!(text, "the file {label} that is there has ")?;
    push_shape(&mut text, old)?;
    text.push_str(", and the new one would have ")?;
    push_shape(&mut text, new)?;
    text.push_str("; give the layout of that file, or --new-shape to replace it all the same")?;
    Ok(text)
}

/// Appends a shape: `records of 32 bytes, indexed by positions 1 to 5`.
fn push_shape(text: &mut String, shape: Shape) -> Result<(), AllocError> {
    let length = shape.record_length;
    write!(text, "records of {length} bytes, ")?;
    match shape.key {
        Some(key) => {
            let first = key.start;
            let last = first
                .saturating_add(u16::from(key.length))
                .saturating_sub(1);
            write!(text, "indexed by positions {first} to {last}")
        }
        None => text.push_str(match shape.organization {
            Organization::Direct => "direct",
            Organization::Sequential | Organization::Indexed => "sequential",
        }),
    }
}

/// Why a table isn't loaded, except for what is wrong with its heading and its rows.
pub fn load_sentence<'a>(
    alloc: Global,
    path: &'a str,
    level: LevelId,
    label: &'a str,
    appends: bool,
    fault: &LoadFault,
) -> Result<String, AllocError> {
    let number = match fault {
        LoadFault::NoMemory => return Err(AllocError),
        LoadFault::Full(room, records) => {
            return full_sentence(alloc, label, appends, *room, *records);
        }
        LoadFault::OtherShape(old, new) => return shape_sentence(alloc, label, *old, *new),
        LoadFault::Values(_, count) | LoadFault::OpenQuote(count) => *count,
        LoadFault::DamagedSlot(slot) => u64::from(*slot),
        _ => 0,
    };
    Words::of_file(path, Area::Level(level), label)
        .with_number(number)
        .fill(alloc, load_words(fault))
}

/// The sentence of a refusal; none of one that has another one.
fn load_words(fault: &LoadFault) -> &'static str {
    match fault {
        LoadFault::NoMemory | LoadFault::Full(..) | LoadFault::OtherShape(..) => "",
        LoadFault::File => "standard input can't be read; give it the table by < FILE or by a pipe",
        LoadFault::OpenQuote(_) =>
            "line {number}: a quote is opened here and never closed; close it at the end of its cell, or write it twice in quotes if it belongs to a text",
        LoadFault::NoHeading =>
            "standard input has no table; its first line must name the fields of the layout",
        LoadFault::Heading(_) => "the heading isn't that of the layout; nothing is loaded",
        LoadFault::Values(_, 1) => "the table has 1 error; nothing is loaded",
        LoadFault::Values(..) => "the table has {number} errors; nothing is loaded",
        LoadFault::Mount(fault) => mount_words(*fault),
        LoadFault::Label(fault) => load_label_words(*fault),
        LoadFault::DamagedSlot(_) => DAMAGED,
        LoadFault::NoName => NO_LABEL,
        LoadFault::NoKey =>
            "the key of the F sheet isn't within the records; correct columns 29, 30 and 35 to 38 of the layout's F card",
        LoadFault::NoRoom =>
            "a file has space for 1 to 999999 records or takes 1 to 999 tracks; give such a number, or load the table in parts",
        LoadFault::OtherKind =>
            "the file {label} that is there has records of another length, another key or another organization; give the layout of that file: a load without --append would replace the whole file",
        LoadFault::BadIndex =>
            "the index of {label} in area {area} of {path} isn't that of its records; take an older copy of the pack, or delete the file and load all of its records",
    }
}

/// What is wrong with a heading.
pub fn heading_sentence(alloc: Global, fault: &HeadingFault) -> Result<String, AllocError> {
    match fault {
        HeadingFault::Unknown(column, text) => unknown_sentence(alloc, *column, text),
        HeadingFault::Twice(name) => fields_sentence(
            alloc,
            "line 1: the field {field} is named twice; leave one column out",
            *name,
            *name,
        ),
        HeadingFault::Overlap(one, other) => fields_sentence(
            alloc,
            "line 1: the fields {field} and {other} overlap; leave one column out",
            *one,
            *other,
        ),
        HeadingFault::Under(field, named) => fields_sentence(
            alloc,
            "line 1: the field {field} overlaps {other}, so it can't be 0; name {field} in place of {other}, or leave --fill out",
            *field,
            *named,
        ),
        HeadingFault::NotZero(name) => fields_sentence(
            alloc,
            "line 1: the field {field} can't be 0, since a field that --fill also fills overlaps it; add the column of one of them",
            *name,
            *name,
        ),
        HeadingFault::Missing(name) => fields_sentence(
            alloc,
            "line 1: the field {field} is missing; add its column, or have it blank or 0 by --fill",
            *name,
            *name,
        ),
    }
}

/// A sentence about one or two fields.
fn fields_sentence(
    alloc: Global,
    sentence: &str,
    field: Name,
    other: Name,
) -> Result<String, AllocError> {
    Words::of_path("")
        .with_fields(Some(field), Some(other))
        .fill(alloc, sentence)
}

/// Reports that no field has the name in a column.
fn unknown_sentence(alloc: Global, column: usize, name: &[u8]) -> Result<String, AllocError> {
    let mut text = String::new(alloc);
    push_unknown(&mut text, column, name)?;
    Ok(text)
}

fn push_unknown(text: &mut String, column: usize, name: &[u8]) -> Result<(), AllocError> {
    write!(text, "line 1, column {column}: the layout has no field \"")?;
    push_shown(text, name)?;
    text.push_str("\"; ")?;
    text.push_str(unknown_cure(name))
}

/// The cure of a name in the heading that no field has. If the name has a character that other programs put between cells, the
/// cure names it as a possible delimiter.
fn unknown_cure(name: &[u8]) -> &'static str {
    for (delimiter, cure) in DELIMITER_CURES {
        if name.contains(&delimiter) {
            return cure;
        }
    }
    "leave the column out, or name a field as the I sheet does"
}

/// What is wrong with a row of a table whose numbers have a comma before their decimals, or a point, given the field of the cell that is
/// in error.
pub fn value_sentence(
    alloc: Global,
    fault: &ValueFault,
    field: Option<&Field>,
    has_comma: bool,
) -> Result<String, AllocError> {
    let mut text = String::new(alloc);
    push_place(&mut text, fault.line, fault.field)?;
    push_reason(&mut text, &fault.reason, field, has_comma)?;
    Ok(text)
}

fn push_place(text: &mut String, line: u64, field: Option<Name>) -> Result<(), AllocError> {
    write!(text, "line {line}")?;
    if field.is_some() {
        text.push_str(", ")?;
        push_name(text, field)?;
    }
    text.push_str(": ")
}

fn push_reason(
    text: &mut String,
    reason: &Reason,
    field: Option<&Field>,
    has_comma: bool,
) -> Result<(), AllocError> {
    match reason {
        Reason::Cell(fault, cell) => {
            push_quoted(text, cell)?;
            push_cell_fault(text, *fault, field, cell, has_comma)
        }
        Reason::OverLines(cell) => {
            text.push_str("the cell ")?;
            push_quoted(text, first_line(cell))?;
            text.push_str(
                " has quotes that aren't closed on its line; close them there, and write a text on one line",
            )
        }
        Reason::Cells(count, wanted) => write!(
            text,
            "the row has {count} cells, and the heading {wanted}; give each column a cell"
        ),
        Reason::SameKey(other, key) => {
            text.push_str("the key ")?;
            push_key(text, key)?;
            write!(
                text,
                " is that of the row on line {other} too; give each row a key of its own"
            )
        }
        Reason::KeyInFile(key) => {
            text.push_str("a record of the file has the key ")?;
            push_key(text, key)?;
            text.push_str(" already; leave the row out")
        }
        Reason::OtherType(fault) => push_other_type(text, *fault),
        // only records of a fixed length have these
        Reason::Short(..) | Reason::Long(..) | Reason::NoLineFeed(..) | Reason::NoCode(..) => {
            Ok(())
        }
    }
}

/// Appends why a record isn't of the chosen type, and what mends it.
fn push_other_type(text: &mut String, fault: TypeFault) -> Result<(), AllocError> {
    match fault {
        TypeFault::Code(code, byte) => push_lacking(text, code, byte),
        TypeFault::Earlier(indicator) => {
            text.push_str("the record has all codes of type ")?;
            push_type(text, indicator)?;
            text.push_str(
                " too, which is before the type of --type in the source; change the cells that have these codes",
            )
        }
        TypeFault::NoType => text.push_str(
            "the source has no type with the indicator of --type; give one of those that columns 19 and 20 of its I sheet have",
        ),
    }
}

/// Appends that a record lacks a code: what it has at the position, and what a record of the type has there.
fn push_lacking(text: &mut String, code: RecordCode, byte: u8) -> Result<(), AllocError> {
    let position = code.position;
    write!(text, "position {position} has ")?;
    push_code(text, byte)?;
    text.push_str(if code.negated {
        ", and a record of the type hasn't "
    } else {
        ", and a record of the type has "
    })?;
    text.push_str(match code.part {
        CodePart::Character => "",
        CodePart::Zone => "the zone of ",
        CodePart::Digit => "the digit of ",
    })?;
    push_code(text, code.character)?;
    text.push_str(" there; ")?;
    text.push_str(if code.negated {
        "give the position a field, and its column another value"
    } else {
        "change the cell, or load the row by the type that it is of"
    })
}

/// Appends a character in quotes, by its code; one that no card has in hexadecimal digits.
fn push_code(text: &mut String, code: u8) -> Result<(), AllocError> {
    if place_without_character(&[code]).is_some() {
        return write!(text, "the byte {code:02x}");
    }
    text.push('"')?;
    text.push(char::from(host_byte(code)))?;
    text.push('"')
}

/// Appends the indicator of a type of records.
fn push_type(text: &mut String, indicator: Indicator) -> Result<(), AllocError> {
    match indicator {
        Indicator::General(number) => write!(text, "{number:02}"),
        Indicator::Halt(number) => write!(text, "H{number}"),
        Indicator::Level(number) => write!(text, "L{number}"),
        _ => text.push_str("LR"),
    }
}

/// A cell up to the end of its first line.
fn first_line(cell: &[u8]) -> &[u8] {
    for (place, byte) in cell.iter().enumerate() {
        if *byte == b'\n' || *byte == b'\r' {
            return &cell[..place];
        }
    }
    cell
}

/// Appends the characters of a key in quotes.
pub fn push_key(text: &mut String, key: &[u8]) -> Result<(), AllocError> {
    text.push('"')?;
    for code in key {
        text.push(char::from(host_byte(*code)))?;
    }
    text.push('"')
}

/// Appends the text of a cell in quotes, up to its 40th character.
pub fn push_quoted(text: &mut String, cell: &[u8]) -> Result<(), AllocError> {
    text.push('"')?;
    push_shown(text, cell)?;
    text.push('"')
}

/// Appends the text of a cell, up to its 40th character, as a terminal shows it: a control character as `\x` and its code. If a
/// cell isn't UTF-8, each byte that isn't ASCII is shown in this way.
fn push_shown(text: &mut String, cell: &[u8]) -> Result<(), AllocError> {
    match str::from_utf8(cell) {
        Ok(shown) => push_start(text, shown),
        Err(_) => push_bytes(text, cell),
    }
}

fn push_start(text: &mut String, shown: &str) -> Result<(), AllocError> {
    let mut count = 0usize;
    for character in shown.chars() {
        if count >= MOST_SHOWN {
            return text.push_str("...");
        }
        push_character(text, character)?;
        count = count.saturating_add(1);
    }
    Ok(())
}

fn push_bytes(text: &mut String, cell: &[u8]) -> Result<(), AllocError> {
    for (place, byte) in cell.iter().enumerate() {
        if place >= MOST_SHOWN {
            return text.push_str("...");
        }
        push_byte(text, *byte)?;
    }
    Ok(())
}

fn push_byte(text: &mut String, byte: u8) -> Result<(), AllocError> {
    if byte.is_ascii() {
        push_character(text, char::from(byte))
    } else {
        write!(text, "\\x{byte:02x}")
    }
}

/// Appends a character as a terminal shows it.
fn push_character(text: &mut String, character: char) -> Result<(), AllocError> {
    let mut bytes = [0u8; 4];
    let shown = Shown(character.encode_utf8(&mut bytes));
    write!(text, "{shown}")
}
