//! `bureau sort`: the records of a file sorted.
ghost use Rattle.std.specs.Prelude.{◌≤◌};

use crate::fault::Fault;
use crate::filled::Words;
use crate::journaling::{journal_for, unmade_if_refused};
use crate::pack_words::{
    Save, care_sentence, label_of, label_words, level_of, mount_words, no_room_for_copy,
    pack_to_change, refused, saved, tell_done,
};
use crate::words::{AGAIN, JOURNAL, LABEL, LEVEL_ALIAS, LEVEL_AREA, OVERWRITE, PACK, SAVE};
use clap::ArgMatches;
use s3_cards::{LevelId, Name};
use s3_journal::{Posting, Work};
use s3_labels::{Area, LabelFault};
use s3_pack_care::{CareFault, Form, SortFault, SortField};
use s3_paper_commands::status::{DONE, FILE_WRONG, NOTHING_SAVED, OPTIONS_WRONG, PACK_SAVED};
use s3_paper_commands::words::{CommandWords, Example, Takes, Word, value_of};
use s3_refusals::Shown;
use std::alloc::{AllocError, Global};
use std::io::Write;

/// `bureau sort` and its options.
pub const SORT: CommandWords = CommandWords {
    name: "sort",
    about: "Sorts the records of a file that has no index and isn't direct",
    aliases: &[LEVEL_ALIAS],
    statuses: &[PACK_SAVED, NOTHING_SAVED, OPTIONS_WRONG, FILE_WRONG],
    examples: &[Example {
        line: "bureau sort --pack shop.pack --save shop.pack --area 1 --label SALES --by 1-5,12-15P",
        purpose: "Sorts a file by a text and then by a packed number",
    }],
    words: &[
        PACK,
        SAVE,
        LEVEL_AREA,
        LABEL,
        Word {
            name: "by",
            takes: Takes::Needed("FIELDS"),
            help: "The fields by which it is sorted, FROM-TO each with commas between; Z after one is a zoned number, P a packed one, D puts the greatest first",
        },
        Word {
            name: "as",
            takes: Takes::Value("LABEL"),
            help: "The label of a new file for the sorted records; else the file itself is sorted",
        },
        JOURNAL,
        AGAIN,
        OVERWRITE,
    ],
};

/// Runs `bureau sort`, and returns the exit status: 0 if it is done, else the status of the refusal, whose sentence was written
/// on standard error; then nothing was saved.
pub fn sort(rt: &HostRuntime, matches: &ArgMatches<'_>) -> u8
    ensures { result ≤ 4 }
{
    match sort_file(rt, matches) {
        Ok(()) => DONE,
        Err(fault) => fault.tell(&mut rt.stderr()),
    }
}

/// What is sorted, and its fields.
#[derive(Drop)]
struct Order<'a> {
    path: &'a str,
    save: &'a str,
    level: LevelId,
    label: &'a str,
    name: Name,
    /// The text that names the fields.
    by: &'a str,
    fields: Vec<SortField>,
    /// A copy of the file is sorted, and not the file itself.
    is_copied: bool,
    /// The label of the file with the sorted records.
    new_label: &'a str,
    new_name: Name,
}

impl<'a> Order<'a> {
    /// What the options ask for.
    fn read(rt: &HostRuntime, matches: &ArgMatches<'a>) -> Result<Order<'a>, Fault> {
        let level = level_of(rt, value_of(matches, "area"))?;
        let label = value_of(matches, "label");
        let name = label_of(rt, label)?;
        let by = value_of(matches, "by");
        let fields = fields_of(rt.alloc(), by)?;
        let new_label = matches.get_str("as").unwrap_or(label);
        let new_name = label_of(rt, new_label)?;
        Ok(Order {
            path: value_of(matches, "pack"),
            save: value_of(matches, "save"),
            level,
            label,
            name,
            by,
            fields,
            is_copied: matches.get_str("as").is_some(),
            new_label,
            new_name,
        })
    }
}

fn sort_file(rt: &HostRuntime, matches: &ArgMatches<'_>) -> Result<(), Fault> {
    let order = Order::read(rt, matches)?;
    let (pack, locked) = pack_to_change(rt, matches, order.path, order.save)?;
    let journal = journal_for(rt, matches, order.path, &pack, Posting::Nothing)?;
    let pack = if order.is_copied {
        unmade_if_refused(rt, &journal, with_copy(rt, &order, pack))?
    } else {
        pack
    };
    let pack = unmade_if_refused(rt, &journal, sorted(rt.alloc(), &order, pack))?;
    let save = Save {
        locked,
        journal,
        work: Work::Sort,
    };
    let saved = saved(rt, matches, order.save, save, &pack)?;
    tell_done(rt, sorted_sentence(rt.alloc(), &order), saved);
    Ok(())
}

/// A pack with a copy of a file of a level in addition to it.
fn with_copy(rt: &HostRuntime, order: &Order<'_>, pack: Vec<u8>) -> Result<Vec<u8>, Fault> {
    let alloc = rt.alloc();
    let Order {
        path,
        level,
        label,
        name,
        new_label,
        new_name,
        ..
    } = *order;
    let area = Area::Level(level);
    let from = Vec::from_slice(alloc, &pack)?;
    match s3_pack_care::copy(alloc, from, area, name, pack, area, new_name) {
        Ok(pack) => Ok(pack),
        Err(CareFault::SourceLabel(fault)) => Err(refused(Words::of_file(path, area, label).fill(
            alloc,
            label_words(fault),
        ))),
        Err(CareFault::Label(LabelFault::NoSpace)) => Err(no_room_for_copy(
            rt, path, area, name, path, area, new_label,
        )),
        Err(fault) => Err(refused(care_sentence(alloc, path, area, new_label, fault))),
    }
}

/// A pack with the records of a file sorted.
fn sorted(alloc: Global, order: &Order<'_>, pack: Vec<u8>) -> Result<Vec<u8>, Fault> {
    let area = Area::Level(order.level);
    match s3_pack_care::sort(alloc, pack, area, order.new_name, &order.fields) {
        Ok(pack) => Ok(pack),
        Err(fault) => Err(refused(sort_sentence(alloc, order, fault))),
    }
}

/// What was sorted.
fn sorted_sentence(alloc: Global, order: &Order<'_>) -> Result<String, AllocError> {
    let Order {
        save,
        level,
        by,
        new_label,
        ..
    } = *order;
    let save = Shown(save);
    let level = level.number();
    format!(in alloc; "{new_label} of level {level} of {save} is sorted by {by}")
}

/// The fields that a text names; what is wrong with its parts is reported of all of them at once.
fn fields_of(alloc: Global, text: &str) -> Result<Vec<SortField>, Fault> {
    let mut fields = Vec::new(alloc);
    let mut wrong = String::new(alloc);
    for part in text.split(',') {
        match field_of(part) {
            Ok(field) => fields.push(field)?,
            Err(reason) => push_wrong(&mut wrong, part, reason)?,
        }
    }
    if wrong.is_empty() {
        return Ok(fields);
    }
    let wrong = wrong.as_str();
    let text = Shown(text);
    Err(Fault::Usage(format!(in alloc;
        "--by {text} names no fields: {wrong}; a field is FROM-TO, then Z for a zoned number or P for a packed one, then D if the greatest comes first, as 1-6,20-24PD"
    )?))
}

/// Appends what is wrong with a part, with a comma before it if it isn't the first.
fn push_wrong(wrong: &mut String, part: &str, reason: &'static str) -> Result<(), AllocError> {
    if !wrong.is_empty() {
        wrong.push_str(", ")?;
    }
    let part = Shown(part);
    write!(wrong, "`{part}` {reason}")
}

/// The field that a text names, or why it names none.
fn field_of(part: &str) -> Result<SortField, &'static str> {
    let (rest, descending) = match part.strip_suffix("D") {
        Some(rest) => (rest, true),
        None => (part, false),
    };
    let (range, form) = form_of(rest);
    let Some((from, to)) = range_of(range) else {
        return Err(unread_words(part));
    };
    let field = SortField {
        from,
        to,
        form,
        descending,
    };
    if field.fits(1024) {
        return Ok(field);
    }
    Err(misfit_of(from, to, form))
}

/// Why a text names no field, if its two places can't be read.
fn unread_words(part: &str) -> &'static str {
    if has_other_letters(part) {
        "ends in letters other than Z or P and then D"
    } else {
        "isn't two numbers with a hyphen between them"
    }
}

/// Whether a text is two numbers with a hyphen between them, and letters after them.
fn has_other_letters(part: &str) -> bool {
    match part.split_once("-") {
        Some((from, to)) => {
            place_of(from).is_some()
                && matches!(to.as_bytes().first(), Some(b'0'..=b'9'))
                && to.bytes().all(|byte| byte.is_ascii_alphanumeric())
        }
        None => false,
    }
}

/// The two places in a record that a text gives.
fn range_of(text: &str) -> Option<(u16, u16)> {
    let (from, to) = text.split_once("-")?;
    Some((place_of(from)?, place_of(to)?))
}

/// Why a field from one place to another is in no record.
fn misfit_of(from: u16, to: u16, form: Form) -> &'static str {
    if from < 1 || to < from || 1024 < to {
        return "isn't from a byte to the same or a later one, of 1 to 1024";
    }
    match form {
        Form::Zoned => "has over 15 bytes, the most of a zoned number",
        Form::Packed => "has over 8 bytes, the most of a packed number",
        Form::Characters => "is in no record",
    }
}

/// How the bytes of a field are compared, after its range.
fn form_of(text: &str) -> (&str, Form) {
    if let Some(range) = text.strip_suffix("Z") {
        return (range, Form::Zoned);
    }
    match text.strip_suffix("P") {
        Some(range) => (range, Form::Packed),
        None => (text, Form::Characters),
    }
}

/// The place in a record that a text of digits gives; 65,535, which is beyond every record, for any larger place.
fn place_of(text: &str) -> Option<u16> {
    let is_signed = text.starts_with("+");
    if is_signed {
        None
    } else {
        let place = text.parse::<u64>().ok()?;
        Some(u16::try_from(place).unwrap_or(u16::MAX))
    }
}

/// Why a file isn't sorted, and what helps.
fn sort_sentence(alloc: Global, order: &Order<'_>, fault: SortFault) -> Result<String, AllocError> {
    let Order {
        path,
        level,
        label,
        ..
    } = *order;
    let words = Words::of_file(path, Area::Level(level), label);
    match fault {
        SortFault::Mount(fault) => words.fill(alloc, mount_words(fault)),
        SortFault::Label(fault) => words.fill(alloc, label_words(fault)),
        SortFault::NoMemory => Err(AllocError),
        SortFault::NotInOrder => words.fill(
            alloc,
            "{label} of level {area} of {path} is indexed or direct, and its records have their places; a program can copy them into a file in order, which can be sorted",
        ),
        SortFault::Field(_, length) => misfit_sentence(alloc, label, &order.fields, length),
    }
}

/// Which fields don't fit the records of a file.
fn misfit_sentence(
    alloc: Global,
    label: &str,
    fields: &[SortField],
    length: u16,
) -> Result<String, AllocError> {
    let mut text = String::new(alloc);
    push_misfits(&mut text, label, fields, length)?;
    Ok(text)
}

fn push_misfits(
    text: &mut String,
    label: &str,
    fields: &[SortField],
    length: u16,
) -> Result<(), AllocError> {
    write!(
        text,
        "the records of {label} have {length} bytes, and --by names bytes after them:"
    )?;
    for field in fields {
        if !field.fits(length) {
            push_range(text, *field)?;
        }
    }
    text.push_str("; give fields within the records")
}

fn push_range(text: &mut String, field: SortField) -> Result<(), AllocError> {
    let from = field.from;
    let to = field.to;
    write!(text, " {from}-{to}")
}
