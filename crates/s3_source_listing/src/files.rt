//! What a program does with its files (docs/LANGUAGE.md, "File uses").

use s3_diagnose::files::is_in_table;
use s3_lines::sheet::{Designation, Device, FileLine, FileUse};

/// What a program does with a file, in words: the line of the table of file uses that it has. A file that has none of them, and so
/// diagnostic 12, is `not in the table`.
pub fn words_of_use(file: &FileLine) -> &'static str {
    if !is_in_table(file) {
        return "not in the table";
    }
    match file.device {
        Device::CardReader => "card file",
        Device::Printer => "print file",
        Device::Disk => words_on_disk(file),
    }
}

fn words_on_disk(file: &FileLine) -> &'static str {
    match file.designation {
        Some(Designation::Chained) => words_of_chained(file),
        Some(_) => words_in_order(file),
        None => words_of_output(file),
    }
}

fn words_of_chained(file: &FileLine) -> &'static str {
    match (file.usage, file.is_indexed) {
        (FileUse::Output, _) => "direct load",
        (FileUse::Input, true) => "indexed, chained",
        (FileUse::Input, false) => "by record number",
        (FileUse::Update, true) => "indexed, chained, for update",
        (FileUse::Update, false) => "by record number, for update",
    }
}

fn words_in_order(file: &FileLine) -> &'static str {
    match (file.usage, file.is_indexed) {
        (FileUse::Update, true) => "indexed, by key order, for update",
        (FileUse::Update, false) => "read in order, for update",
        (_, true) => "indexed, by key order",
        (_, false) => "read in order",
    }
}

fn words_of_output(file: &FileLine) -> &'static str {
    match (file.is_indexed, file.has_additions) {
        (false, false) => "load",
        (false, true) => "add at the end",
        (true, false) => "indexed load",
        (true, true) => "indexed add",
    }
}
