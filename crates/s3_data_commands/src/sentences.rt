//! Sentences of refusals of a layout, of `unload`, of standard input and of standard output: what is wrong, where, and what mends it.

use crate::filled::{Words, push_name};
use crate::pack_words::{label_words, mount_words};
use s3_cells::{Field, ShowFault};
use s3_labels::{Area, LabelFault};
use s3_layout::LayoutFault;
use s3_paper_commands::OutputReason;
use s3_refusals::call_words;
use s3_unload::{HiddenValue, UnloadFault};
use std::alloc::{AllocError, Global};
use std::io;

/// Why the source of a deck is no layout.
pub fn layout_sentence(
    alloc: Global,
    path: &str,
    fault: &LayoutFault,
) -> Result<String, AllocError> {
    let field = match fault {
        LayoutFault::NoMemory => return Err(AllocError),
        LayoutFault::NoForm(name) | LayoutFault::Twice(name) => Some(*name),
        _ => None,
    };
    Words::of_path(path)
        .with_fields(field, None)
        .fill(alloc, layout_words(fault))
}

/// The sentence of a refusal.
fn layout_words(fault: &LayoutFault) -> &'static str {
    match fault {
        LayoutFault::NoMemory => "",
        LayoutFault::Card { .. } =>
            "the first source in {path} has the diagnostics above; correct its cards (docs/MESSAGES.md says how), or have a job compile it and see `bureau compile` mark the columns",
        LayoutFault::NoFile =>
            "the first source in {path} has no file on DISK; give a source whose F sheet has the file",
        LayoutFault::SeveralFiles =>
            "the first source in {path} has several files on DISK; choose one by --file NAME",
        LayoutFault::OtherFile =>
            "the first source in {path} has no file of the name of --file on DISK; its F sheet has the names",
        LayoutFault::SeveralTypes =>
            "the file has several record types in the first source in {path}; choose one by --type INDICATOR, as columns 19 and 20 of the I sheet have it",
        LayoutFault::OtherType =>
            "the file has no record type with the indicator of --type in the first source in {path}; give one of those that columns 19 and 20 of the I sheet have",
        LayoutFault::NoFields =>
            "the first source in {path} has no field of these records; give one whose I sheet has their fields",
        LayoutFault::NoForm(_) =>
            "the field {field} in the first source in {path} has a length or decimals that no program can have; correct its card of the I sheet",
        LayoutFault::Twice(_) =>
            "the field {field} is there twice in the first source in {path}; give a source in which each field of these records has a name of its own",
    }
}

/// Why a file isn't unloaded.
pub fn unload_sentence<'a>(
    alloc: Global,
    path: &'a str,
    area: Area,
    label: &'a str,
    fault: &UnloadFault,
) -> Result<String, AllocError> {
    let words = Words::of_file(path, area, label);
    match fault {
        UnloadFault::Mount(fault) => words.fill(alloc, mount_words(*fault)),
        UnloadFault::NotFound => words.fill(alloc, label_words(LabelFault::NotFound)),
        UnloadFault::DamagedLabel => words.fill(alloc, label_words(LabelFault::DamagedLabel)),
        UnloadFault::BadIndex => words.fill(
            alloc,
            "the index of {label} in area {area} of {path} isn't that of its records; --as hex writes the records as they are in the file",
        ),
        UnloadFault::OtherLength(length) => words.with_number(u64::from(*length)).fill(
            alloc,
            "the records of {label} in area {area} of {path} have {number} bytes, and the layout's records have another length; give the source of a program that uses this file",
        ),
        UnloadFault::Hidden(record, field, fault) => {
            hidden_sentence(alloc, label, *record, *field, *fault)
        }
        UnloadFault::NoCharacter(record, position) => {
            format!(in alloc;
                "record {record} of {label} has a byte that is no character at position {position}; the lines before it are written, and --as hex shows its bytes"
            )
        }
        UnloadFault::File => output_sentence(alloc, None),
        UnloadFault::NoMemory => Err(AllocError),
    }
}

/// The sentence that reports how many records of a file are of other types than its table.
pub fn others_sentence<'a>(
    alloc: Global,
    path: &'a str,
    area: Area,
    label: &'a str,
    others: u32,
) -> Result<String, AllocError> {
    let sentence = if others == 1 {
        "1 record of {label} in area {area} of {path} is of another type and isn't in the table; the --type of that type unloads it, and --as hex all records"
    } else {
        "{number} records of {label} in area {area} of {path} are of other types and aren't in the table; the --type of such a type unloads them, and --as hex all records"
    };
    Words::of_file(path, area, label)
        .with_number(u64::from(others))
        .fill(alloc, sentence)
}

/// The sentence that reports how many records of a file are of other types than those that are written whole.
pub fn other_records_sentence<'a>(
    alloc: Global,
    path: &'a str,
    area: Area,
    label: &'a str,
    others: u32,
) -> Result<String, AllocError> {
    let sentence = if others == 1 {
        "1 record of {label} in area {area} of {path} is of another type and isn't written; unload without --type writes all records"
    } else {
        "{number} records of {label} in area {area} of {path} are of other types and aren't written; unload without --type writes all records"
    };
    Words::of_file(path, area, label)
        .with_number(u64::from(others))
        .fill(alloc, sentence)
}

/// That standard output took nothing, or not all, and why the write failed, if that is known.
pub fn output_sentence(alloc: Global, failure: Option<io::Error>) -> Result<String, AllocError> {
    match failure {
        Some(error) => {
            let reason = OutputReason(error);
            format!(in alloc; "standard output can't be written: {reason}")
        }
        None => String::from_str(
            alloc,
            "standard output can't be written; see whether what takes it has ended or its disk is full",
        ),
    }
}

/// That standard input can't be read, and why; what a command takes from it is named for the cure.
pub fn unread_sentence(alloc: Global, error: io::Error, taken: &str) -> Result<String, AllocError> {
    let words = call_words(error.kind());
    if words.is_empty() {
        format!(in alloc;
            "standard input can't be read: {error}; give it the {taken} by < FILE or by a pipe"
        )
    } else {
        format!(in alloc; "standard input can't be read: {words}")
    }
}

/// Why the value of a field in a record can't be shown.
fn hidden_sentence(
    alloc: Global,
    label: &str,
    record: u32,
    field: Field,
    fault: ShowFault,
) -> Result<String, AllocError> {
    let mut text = String::new(alloc);
    push_hidden(&mut text, label, record, field, fault)?;
    Ok(text)
}

fn push_hidden(
    text: &mut String,
    label: &str,
    record: u32,
    field: Field,
    fault: ShowFault,
) -> Result<(), AllocError> {
    write!(text, "record {record} of {label} can't be shown: ")?;
    push_value(text, field, fault)?;
    if let ShowFault::NoDate(_) = fault {
        push_cure(text, field, fault)?;
    }
    text.push_str("; the rows before it are written, and --as hex shows its bytes")
}

/// Why a value can't be shown, and what helps, if several can't be.
pub fn value_sentence(
    alloc: Global,
    label: &str,
    value: HiddenValue,
) -> Result<String, AllocError> {
    let mut text = String::new(alloc);
    let record = value.record;
    write!(text, "record {record} of {label}: ")?;
    push_value(&mut text, value.field, value.fault)?;
    push_cure(&mut text, value.field, value.fault)?;
    Ok(text)
}

/// That so many values of a file can't be shown, given the number of the first record that has one.
pub fn hidden_values_sentence<'a>(
    alloc: Global,
    path: &'a str,
    area: Area,
    label: &'a str,
    count: u64,
    first: u32,
) -> Result<String, AllocError> {
    let mut text = Words::of_file(path, area, label).with_number(count).fill(
        alloc,
        "{number} values of {label} in area {area} of {path} can't be shown",
    )?;
    write!(
        text,
        "; the rows before record {first} are written, and --as hex shows the bytes"
    )?;
    Ok(text)
}

/// Appends a field, its positions, and why its value can't be shown.
fn push_value(text: &mut String, field: Field, fault: ShowFault) -> Result<(), AllocError> {
    let from = u32::from(field.start) + 1;
    let to = u32::from(field.start) + u32::from(field.width);
    text.push_str("the field ")?;
    push_name(text, Some(field.name))?;
    write!(text, " in positions {from} to {to} ")?;
    push_reason(text, fault)
}

/// Appends what helps if the value of a field can't be shown.
fn push_cure(text: &mut String, field: Field, fault: ShowFault) -> Result<(), AllocError> {
    text.push_str("; correct it by `bureau amend`")?;
    if let ShowFault::NoDate(_) = fault {
        text.push_str(", or leave ")?;
        push_name(text, Some(field.name))?;
        text.push_str(" out of --date-fields")?;
    }
    Ok(())
}

fn push_reason(text: &mut String, fault: ShowFault) -> Result<(), AllocError> {
    match fault {
        ShowFault::NoCharacter(position) => {
            write!(
                text,
                "has a byte that is no character at position {position}"
            )
        }
        ShowFault::NoDate(date) => {
            text.push_str("has \"")?;
            for byte in date {
                text.push(char::from(byte))?;
            }
            text.push_str("\", which is no date MMDDYY")
        }
        _ => text.push_str("is no number"),
    }
}
