//! Records of a fixed length, for other programs: the options of `unload` and `load` for them, and what is wrong with such records.

use crate::fault::Fault;
use crate::filled::Words;
use crate::load_sentences::{is_pack, load_sentence, push_key};
use crate::pack_words::wrong_words;
use clap::ArgMatches;
use s3_cards::LevelId;
use s3_cells::Layout;
use s3_labels::Area;
use s3_layout::SourceLayout;
use s3_load::{LoadFault, Reason, ValueFault};
use s3_paper_commands::words::{Choice, Takes, Word};
use s3_record_types::ChosenRecords;
use s3_refusals::wide_text;
use s3_unload::{FixedForm, UnloadFault};
use std::alloc::{AllocError, Global};

/// The longest record of a pack.
const LONGEST_RECORD: u32 = 1_024;

/// Bytes as the form of records.
pub const AS_EBCDIC: Choice = Choice {
    name: "ebcdic",
    help: "Records of a fixed length, in the bytes of the pack",
};

/// Characters of ASCII as the form of records.
pub const AS_ASCII: Choice = Choice {
    name: "ascii",
    help: "Records of a fixed length, in characters of ASCII",
};

/// Whether a line feed follows each record.
pub const LINE_FEEDS: Word = Word {
    name: "line-feeds",
    takes: Takes::Nothing,
    help: "A line feed follows each record; needs --as ebcdic or ascii",
};

/// The record length if no layout is given.
pub const RECORD_LENGTH: Word = Word {
    name: "record-length",
    takes: Takes::Number("N", 1, LONGEST_RECORD),
    help: "The record length in place of a layout: a file without a key; needs --as ebcdic or ascii",
};

/// The form of records of a fixed length that the options ask for; none for another form.
pub fn fixed_form(rt: &HostRuntime, matches: &ArgMatches<'_>) -> Result<Option<FixedForm>, Fault> {
    let has_line_feeds = matches.get_flag("line-feeds");
    match (matches.get_str("as"), has_line_feeds) {
        (Some("ebcdic"), false) => Ok(Some(FixedForm::Ebcdic)),
        (Some("ebcdic"), true) => Ok(Some(FixedForm::EbcdicLines)),
        (Some("ascii"), false) => Ok(Some(FixedForm::Ascii)),
        (Some("ascii"), true) => Ok(Some(FixedForm::AsciiLines)),
        (_, false) => Ok(None),
        (_, true) => Err(wrong_words(
            rt.alloc(),
            "--line-feeds goes with --as ebcdic or --as ascii",
        )),
    }
}

/// Refuses options about the cells of a table.
pub fn refuse_cells(rt: &HostRuntime, matches: &ArgMatches<'_>) -> Result<(), Fault> {
    if has_cells(matches) {
        return Err(wrong_words(
            rt.alloc(),
            "--delimiter, --safe-cells, --decimal and --date-fields are for tables, and ebcdic and ascii have no cells; leave them out, or give a layout and --as csv",
        ));
    }
    Ok(())
}

/// Whether an option about cells is given that both commands have.
fn has_cells(matches: &ArgMatches<'_>) -> bool {
    matches.get_flag("safe-cells")
        || matches.get_str("decimal").is_some()
        || matches.get_str("date-fields").is_some()
        || matches.get_str("delimiter").is_some()
}

/// Refuses options about the cells of a table that only `load` has, and the type whose codes it puts into rows.
pub fn refuse_loaded_cells(rt: &HostRuntime, matches: &ArgMatches<'_>) -> Result<(), Fault> {
    if matches.get_flag("fill")
        || matches.get_flag("capitals")
        || matches.get_str("thousands").is_some()
    {
        return Err(wrong_words(
            rt.alloc(),
            "--fill, --capitals and --thousands are for tables, and ebcdic and ascii have none; leave them out, or load a table",
        ));
    }
    if matches.get_str("type").is_some() {
        return Err(wrong_words(
            rt.alloc(),
            "--type puts the codes of a type into the rows of a table, and records in ebcdic and ascii have their own; leave it out: a layout may have several types",
        ));
    }
    refuse_cells(rt, matches)
}

/// The layout of records of the length that the options give, without fields and without a key.
pub fn layout_of_length(rt: &HostRuntime, matches: &ArgMatches<'_>) -> Result<SourceLayout, Fault> {
    let Some(length) = record_length(matches) else {
        return Err(wrong_words(
            rt.alloc(),
            "load needs a layout; name a deck with the source by --layout, or with --as ebcdic or --as ascii give --record-length",
        ));
    };
    Ok(SourceLayout {
        layout: Layout {
            record_length: length,
            fields: Vec::new(rt.alloc()),
        },
        key: None,
        records: ChosenRecords::All,
    })
}

/// The record length that the options give, if they give one. The table of options has its range.
fn record_length(matches: &ArgMatches<'_>) -> Option<u16> {
    let length = matches.get_one::<u32>("record-length")?;
    u16::try_from(length).ok()
}

/// Refuses options for records of a fixed length if a table is loaded, and a record length in addition to a layout.
pub fn test_length(
    rt: &HostRuntime,
    matches: &ArgMatches<'_>,
    form: Option<FixedForm>,
) -> Result<(), Fault> {
    if record_length(matches).is_none() {
        return Ok(());
    }
    if form.is_none() {
        return Err(wrong_words(
            rt.alloc(),
            "--record-length goes with --as ebcdic or --as ascii; a table needs --layout",
        ));
    }
    if matches.get_str("layout").is_some() {
        return Err(wrong_words(
            rt.alloc(),
            "the record length is that of --layout or --record-length; give one of the two",
        ));
    }
    Ok(())
}

/// Whether records in a form are characters of ASCII.
pub fn is_ascii(form: FixedForm) -> bool {
    match form {
        FixedForm::Ascii | FixedForm::AsciiLines => true,
        FixedForm::Ebcdic | FixedForm::EbcdicLines => false,
    }
}

/// Why records have no characters of ASCII, by the bytes with which they begin, and what helps; `None` for other records.
pub fn beginning_sentence(alloc: Global, records: &[u8]) -> Result<Option<String>, AllocError> {
    if is_pack(records) {
        return Ok(Some(String::from_str(
            alloc,
            "standard input is a pack, not records; give the records, as `bureau unload --as ascii` writes them, or copy a file of that pack by `bureau copy`",
        )?));
    }
    if records.starts_with(&[0xef, 0xbb, 0xbf]) {
        return Ok(Some(String::from_str(
            alloc,
            "the records begin with a byte order mark (EF BB BF), which is no part of them; leave it out, as by `tail -c +4 FILE`",
        )?));
    }
    match wide_text(records) {
        None => Ok(None),
        Some(wide) => {
            let family = wide.family();
            // by the name of its family, `iconv` leaves the mark out
            let name = if has_wide_mark(records) {
                family
            } else {
                wide.name()
            };
            Ok(Some(format!(in alloc;
                "the records are in {family}; convert them by `iconv -f {name} -t UTF-8 FILE > NEW`"
            )?))
        }
    }
}

/// Whether a text in UTF-16 or UTF-32 begins with a byte order mark.
fn has_wide_mark(text: &[u8]) -> bool {
    text.starts_with(&[0xff, 0xfe])
        || text.starts_with(&[0xfe, 0xff])
        || text.starts_with(&[0, 0, 0xfe, 0xff])
}

/// What helps if there is no record at all, which would empty the file.
pub fn no_records_sentence(alloc: Global) -> Result<String, AllocError> {
    String::from_str(
        alloc,
        "there is no record; give the records by < FILE or by a pipe; a table with a heading alone makes an empty file",
    )
}

/// Why a record has no characters, in which it was to be written.
pub fn hidden_sentence(
    alloc: Global,
    label: &str,
    record: u32,
    position: u16,
) -> Result<String, AllocError> {
    format!(in alloc;
        "record {record} of {label} has a byte that is no character at position {position}; the records before it are written; --as ebcdic writes its bytes, and --as csv with a layout its numbers"
    )
}

/// Why a file isn't unloaded in the form of a fixed length, if that is for a byte without a character: the record and the position.
pub fn hidden_place(fault: &UnloadFault) -> Option<(u32, u16)> {
    match fault {
        UnloadFault::NoCharacter(record, position) => Some((*record, *position)),
        _ => None,
    }
}

/// Why records of a fixed length aren't loaded, except for what is wrong with each.
pub fn fixed_load_sentence(
    alloc: Global,
    path: &str,
    level: LevelId,
    label: &str,
    appends: bool,
    fault: &LoadFault,
) -> Result<String, AllocError> {
    let sentence = match fault {
        LoadFault::Values(_, 1) => "the input has 1 error; nothing is loaded",
        LoadFault::Values(..) => "the input has {number} errors; nothing is loaded",
        LoadFault::File =>
            "standard input can't be read; give it the records by < FILE or by a pipe",
        LoadFault::NoRoom =>
            "a file has space for 1 to 999999 records or takes 1 to 999 tracks; give such a number, or load the records in parts",
        _ => return load_sentence(alloc, path, level, label, appends, fault),
    };
    Words::of_file(path, Area::Level(level), label)
        .with_number(count_of(fault))
        .fill(alloc, sentence)
}

/// How many errors a refusal has.
fn count_of(fault: &LoadFault) -> u64 {
    match fault {
        LoadFault::Values(_, count) => *count,
        _ => 0,
    }
}

/// What is wrong with a record in a form.
pub fn record_sentence(
    alloc: Global,
    form: FixedForm,
    fault: &ValueFault,
) -> Result<String, AllocError> {
    let mut text = String::new(alloc);
    push_record(&mut text, form, fault.line, &fault.reason)?;
    Ok(text)
}

fn push_record(
    text: &mut String,
    form: FixedForm,
    number: u64,
    reason: &Reason,
) -> Result<(), AllocError> {
    write!(text, "record {number}")?;
    match reason {
        Reason::SameKey(other, key) => push_same_key(text, *other, key),
        Reason::KeyInFile(key) => {
            text.push_str(": a record of the file has the key ")?;
            push_key(text, key)?;
            text.push_str(" already; leave the record out")
        }
        _ => push_fixed(text, form, reason),
    }
}

fn push_same_key(text: &mut String, other: u64, key: &[u8]) -> Result<(), AllocError> {
    text.push_str(": the key ")?;
    push_key(text, key)?;
    write!(
        text,
        " is that of record {other} too; give each record a key of its own"
    )
}

/// Appends what is wrong with the bytes of a record, after its number.
fn push_fixed(text: &mut String, form: FixedForm, reason: &Reason) -> Result<(), AllocError> {
    match reason {
        Reason::Short(length, wanted) => push_short(text, form, *length, *wanted),
        Reason::Long(length, wanted) => write!(
            text,
            ": the line has {length} characters, and a record has {wanted}; give the right record length, or shorten the line"
        ),
        Reason::NoLineFeed(wanted, byte) => write!(
            text,
            ": after its {wanted} bytes comes {byte:02x} in place of the line feed 25; give the right record length, or leave --line-feeds out"
        ),
        Reason::NoCode(position, byte) => push_no_code(text, *position, *byte),
        _ => Ok(()),
    }
}

fn push_short(
    text: &mut String,
    form: FixedForm,
    length: usize,
    wanted: usize,
) -> Result<(), AllocError> {
    let bytes = if length == 1 { "byte" } else { "bytes" };
    write!(
        text,
        ": the input ends after {length} {bytes} of its {wanted}; give the right record length, or "
    )?;
    text.push_str(match form {
        FixedForm::EbcdicLines | FixedForm::AsciiLines => "the rest of the record",
        FixedForm::Ebcdic | FixedForm::Ascii => "--line-feeds if the records are lines",
    })
}

/// Appends that a byte is no character of a card, and what mends it.
fn push_no_code(text: &mut String, position: usize, byte: u8) -> Result<(), AllocError> {
    write!(text, ", position {position}: the byte {byte:02x}")?;
    if byte.is_ascii_graphic() {
        let shown = char::from(byte);
        write!(text, " (\"{shown}\")")?;
    }
    text.push_str(" is no character of a card; ")?;
    text.push_str(code_cure(byte))
}

/// The cure of a byte that is no character of a card.
fn code_cure(byte: u8) -> &'static str {
    match byte {
        b'a'..=b'z' => "write capitals, as by `tr a-z A-Z`",
        b'\n' | b'\r' => "give --line-feeds if the records are lines",
        _ => "write a character that cards have, or load bytes by --as ebcdic",
    }
}
